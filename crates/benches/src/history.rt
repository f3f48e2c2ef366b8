//! Measures histories: absorbing, joining, copying, looking up, iterating and raising the horizon.
//!
//! With no argument it runs with 1,000 pages and prints the results. With a number of pages it
//! runs with that many, and prints the nanoseconds too, for `bench/history/measure.py`.
//!
//! A raise is measured over a history in which each page has one stamp, of the times from the
//! number of pages up to but not including twice that. It is raised to the first of these times, to
//! the middle one and past the last, each time in a copy, which is not timed.
use crate::parts::{added, asked_number, next, replica, scattered};
use anyhow::{Result, bail};
use std::alloc::Global;
use std::time::{Duration, Instant};
use warm_history::{Entry, History, PageHist};
use warm_stamps::{PageId, Reference, ReplicaId, Stamp};

// The number of references of a batch, and the number of pages of a small join.
const BATCH: usize = 64;

const SMALL: usize = 1_000;

// The approximate number of powers of two among the ranks of this many pages.
fn octaves_of(pages: u64) -> u64 {
    if pages < 5_000 {
        10
    } else if pages < 50_000 {
        14
    } else if pages < 500_000 {
        17
    } else {
        20
    }
}

// A page by Zipf's law: each octave of ranks is equally likely.
fn zipf_page(drawn: u64, pages: u64) -> PageId {
    let octave = (drawn >> 32).checked_rem(octaves_of(pages)).unwrap_or(0);
    let below = 1u64 << octave.min(20);
    let rank = below.wrapping_add((drawn >> 40).checked_rem(below).unwrap_or(0));
    scattered(rank, pages)
}

// As many references as pages, drawn by Zipf's law.
fn drawn_references(alloc: Global, pages: u64, replica: ReplicaId) -> Result<Vec<Reference>> {
    let mut all = Vec::new(alloc);
    let mut drawn = 1u64;
    for time in 0..pages {
        drawn = next(drawn);
        let page = zipf_page(drawn, pages);
        let stamp = Stamp { time, replica };
        if all.push(Reference { page, stamp }).is_err() {
            bail!("no memory")
        }
    }
    Ok(all)
}

// A reference to each page, in a scattered order, from a time on.
fn each_page(alloc: Global, pages: u64, replica: ReplicaId, from: u64) -> Result<Vec<Reference>> {
    let mut all = Vec::new(alloc);
    for i in 0..pages {
        let page = scattered(i, pages);
        let time = from.wrapping_add(i);
        let stamp = Stamp { time, replica };
        if all.push(Reference { page, stamp }).is_err() {
            bail!("no memory")
        }
    }
    Ok(all)
}

// Entries of drawn pages.
fn some_entries(alloc: Global, pages: u64, replica: ReplicaId) -> Result<Vec<Entry>> {
    let mut all = Vec::new(alloc);
    let mut drawn = 7u64;
    for time in 0..SMALL as u64 {
        drawn = next(drawn);
        let page = scattered(drawn >> 33, pages);
        let hist = PageHist::Once(Stamp { time, replica });
        if all.push(Entry { page, hist }).is_err() {
            bail!("no memory")
        }
    }
    Ok(all)
}

fn absorb_all(history: &mut History, all: &[Reference]) -> Result<()> {
    for batch in all.chunks(BATCH) {
        history.absorb(batch)?;
    }
    Ok(())
}

// A checksum of all entries, so that the result is used.
fn checksum_of(history: &History) -> u64 {
    let mut checksum = 0u64;
    for entry in history.iter() {
        checksum = added(checksum, entry.page.no);
        if let PageHist::Once(stamp) = entry.hist {
            checksum = checksum.wrapping_add(stamp.time);
        }
    }
    checksum
}

// The number of drawn pages that the history has; pages are drawn from twice as many.
fn found_in(history: &History, pages: u64) -> u64 {
    let mut drawn = 11u64;
    let mut found = 0u64;
    for _ in 0..pages {
        drawn = next(drawn);
        let asked = scattered(drawn >> 33, pages);
        if let Some(_) = history.get(asked) {
            found = found.wrapping_add(1);
        }
    }
    found
}

// Prints the result, and in a timed run the time it took.
fn report(rt: &HostRuntime, timed: bool, what: &str, made: u64, spent: Duration) -> Result<()> {
    println!(rt; "{what}: {made}")?;
    if timed {
        println!(rt; "{what}: {} ns", spent.as_nanos())?;
    }
    Ok(())
}

// Absorbs references in batches into a new history.
fn absorb_timed(
    rt: &HostRuntime,
    timed: bool,
    what: &str,
    references: &[Reference],
) -> Result<History> {
    let mut seen = History::new(rt.alloc());
    let start = Instant::now(rt)?;
    absorb_all(&mut seen, references)?;
    let spent = start.elapsed(rt)?;
    report(rt, timed, what, checksum_of(&seen), spent)?;
    Ok(seen)
}

// The history of all pages.
fn absorb(rt: &HostRuntime, timed: bool, pages: u64, replica: ReplicaId) -> Result<History> {
    let drawn = drawn_references(rt.alloc(), pages, replica)?;
    absorb_timed(rt, timed, "absorb by Zipf's law", &drawn)?;
    let each = each_page(rt.alloc(), pages, replica, 0)?;
    absorb_timed(rt, timed, "absorb new pages", &each)
}

fn join_some(rt: &HostRuntime, timed: bool, large: &mut History, more: &[Entry]) -> Result<()> {
    let start = Instant::now(rt)?;
    large.join_entries(0, more)?;
    let spent = start.elapsed(rt)?;
    report(rt, timed, "join 1,000 entries", checksum_of(large), spent)
}

fn copy(rt: &HostRuntime, timed: bool, large: &History) -> Result<History> {
    let start = Instant::now(rt)?;
    let copied = large.copy()?;
    let spent = start.elapsed(rt)?;
    report(rt, timed, "copy", checksum_of(&copied), spent)?;
    Ok(copied)
}

fn join(
    rt: &HostRuntime,
    timed: bool,
    what: &str,
    history: &mut History,
    other: &History,
) -> Result<()> {
    let start = Instant::now(rt)?;
    history.join(other)?;
    let spent = start.elapsed(rt)?;
    report(rt, timed, what, checksum_of(history), spent)
}

fn join_all(rt: &HostRuntime, timed: bool, large: &mut History) -> Result<()> {
    let copied = copy(rt, timed, large)?;
    join(rt, timed, "join all, known", large, &copied)?;
    let mut empty = History::new(rt.alloc());
    join(rt, timed, "join all, new", &mut empty, large)
}

fn look_up(rt: &HostRuntime, timed: bool, large: &History, pages: u64) -> Result<()> {
    let start = Instant::now(rt)?;
    let checksum = checksum_of(large);
    let spent = start.elapsed(rt)?;
    report(rt, timed, "go over all", checksum, spent)?;
    let start = Instant::now(rt)?;
    let found = found_in(large, pages);
    let spent = start.elapsed(rt)?;
    report(rt, timed, "look up", found, spent)
}

// Raises the horizon of a copy of a history. Only the raise is timed.
fn raise(rt: &HostRuntime, timed: bool, what: &str, whole: &History, time: u64) -> Result<()> {
    let mut raised = whole.copy()?;
    let start = Instant::now(rt)?;
    raised.raise(time);
    let spent = start.elapsed(rt)?;
    report(rt, timed, what, checksum_of(&raised), spent)
}

fn raises(rt: &HostRuntime, timed: bool, pages: u64, replica: ReplicaId) -> Result<()> {
    let each = each_page(rt.alloc(), pages, replica, pages)?;
    let mut whole = History::new(rt.alloc());
    absorb_all(&mut whole, &each)?;
    let middle = pages.saturating_add(pages / 2);
    raise(rt, timed, "raise, none dropped", &whole, pages)?;
    raise(rt, timed, "raise, half dropped", &whole, middle)?;
    let end = pages.saturating_mul(2);
    raise(rt, timed, "raise, all dropped", &whole, end)
}

pub(crate) fn play(rt: &HostRuntime, words: &[String]) -> Result<()> {
    let asked = asked_number(words, "the number of pages")?;
    let timed = asked.is_some();
    let pages = asked.unwrap_or(1_000);
    let replica = replica(1)?;
    let more = some_entries(rt.alloc(), pages, replica)?;
    let mut large = absorb(rt, timed, pages, replica)?;
    join_some(rt, timed, &mut large, &more)?;
    join_all(rt, timed, &mut large)?;
    look_up(rt, timed, &large, pages)?;
    raises(rt, timed, pages, replica)
}
