//! Histories of 100 pages that take in 100 new pages and 20 old ones.

use std::alloc::Global;
use test_kit::cases::{Ended, Met};
use test_kit::{entry, history_of_pages, once, page, references_to};
use warm_history::{Entry, History, PageHist};
use warm_stamps::Bucket;

const PAGES: u64 = 100;

const MORE: u64 = 200;

const OLD: u64 = 80;

// The times of the first and the second references of the pages.
const FIRST: u64 = 10;

const LATER: u64 = 20;

// A horizon that drops the first references, and keeps the later ones.
const BETWEEN: u64 = 15;

// Whether a history has this horizon, and only the pages from `first` up to but not including
// `end`, with one stamp each. Here and below entries are read by index: a loop over an iterator
// takes long to prove, since that holds an iterator of each bucket.
fn knows(history: &History, horizon: u64, first: u64, end: u64, time: u64) -> bool {
    let mut place = 0usize;
    for no in first..end {
        if history.at(place) != Some(entry(page(no), once(time, 1))) {
            return false;
        }
        place = place.wrapping_add(1);
    }
    history.horizon() == horizon && history.len() == place
}

// Whether a history of the 100 pages is unchanged.
fn is_unchanged(history: &History) -> bool {
    knows(history, 0, 0, PAGES, FIRST)
}

// Whether it has taken in the others, and forgotten older stamps.
fn has_later_alone(history: &History) -> bool {
    knows(history, BETWEEN, OLD, MORE, LATER)
}

// Whether it has taken in the others: 200 pages, of which 20 have two stamps.
fn has_more(history: &History) -> bool {
    let mut twice = 0u64;
    for place in 0..history.len() {
        if let Some(entry) = history.at(place) {
            if let PageHist::Twice(_) = entry.hist {
                twice = twice.wrapping_add(1);
            }
        }
    }
    history.len() == MORE as usize && twice == PAGES - OLD
}

fn absorb(met: &mut Met, alloc: Global) -> Result<(), Ended> {
    let mut history = history_of_pages(alloc, 0, PAGES, FIRST)?;
    let batch = references_to(alloc, OLD, MORE, LATER)?;
    if history.absorb(&batch).is_err() {
        met.refuse(is_unchanged(&history), "a refused absorb changes nothing")?;
        met.holds(history.absorb(&batch).is_ok(), "absorb is refused again")?;
    }
    met.holds(has_more(&history), "absorb takes the batch in")
}

fn join(met: &mut Met, alloc: Global) -> Result<(), Ended> {
    let mut history = history_of_pages(alloc, 0, PAGES, FIRST)?;
    let other = history_of_pages(alloc, OLD, MORE, LATER)?;
    if history.join(&other).is_err() {
        met.refuse(is_unchanged(&history), "a refused join changes nothing")?;
        met.holds(history.join(&other).is_ok(), "join is refused again")?;
    }
    met.holds(has_more(&history), "join takes the other in")
}

// The other history has a greater horizon, and older stamps are forgotten here too.
fn join_raised(met: &mut Met, alloc: Global) -> Result<(), Ended> {
    let mut history = history_of_pages(alloc, 0, PAGES, FIRST)?;
    let mut other = history_of_pages(alloc, OLD, MORE, LATER)?;
    other.raise(BETWEEN);
    if history.join(&other).is_err() {
        met.refuse(is_unchanged(&history), "a refused join raises nothing")?;
        met.holds(history.join(&other).is_ok(), "join is refused again")?;
    }
    met.holds(has_later_alone(&history), "join takes the horizon over")
}

// The entries of a history, in the order of its pages.
pub(crate) fn entries_of(alloc: Global, history: &History) -> Result<Vec<Entry>, Ended> {
    let Ok(entries) = history.iter().collect(alloc) else {
        return Err(Ended::NoMemory);
    };
    Ok(entries)
}

fn join_entries(met: &mut Met, alloc: Global) -> Result<(), Ended> {
    let mut history = history_of_pages(alloc, 0, PAGES, FIRST)?;
    let entries = entries_of(alloc, &history_of_pages(alloc, OLD, MORE, LATER)?)?;
    if history.join_entries(0, &entries).is_err() {
        met.refuse(
            is_unchanged(&history),
            "a refused join_entries changes nothing",
        )?;
        met.holds(
            history.join_entries(0, &entries).is_ok(),
            "join_entries is refused again",
        )?;
    }
    met.holds(has_more(&history), "join_entries takes the entries in")
}

fn join_entries_raised(met: &mut Met, alloc: Global) -> Result<(), Ended> {
    let mut history = history_of_pages(alloc, 0, PAGES, FIRST)?;
    let entries = entries_of(alloc, &history_of_pages(alloc, OLD, MORE, LATER)?)?;
    if history.join_entries(BETWEEN, &entries).is_err() {
        met.refuse(
            is_unchanged(&history),
            "a refused join_entries raises nothing",
        )?;
        met.holds(
            history.join_entries(BETWEEN, &entries).is_ok(),
            "join_entries is refused again",
        )?;
    }
    met.holds(
        has_later_alone(&history),
        "join_entries takes the horizon over",
    )
}

fn copy(met: &mut Met, alloc: Global) -> Result<(), Ended> {
    let history = history_of_pages(alloc, 0, PAGES, FIRST)?;
    let copied = match history.copy() {
        Ok(copied) => copied,
        Err(_) => {
            met.refuse(is_unchanged(&history), "a refused copy changes nothing")?;
            let Ok(copied) = history.copy() else {
                return Err(met.broken("copy is refused again"));
            };
            copied
        }
    };
    met.holds(is_unchanged(&copied), "a copy is equal")
}

fn entries(met: &mut Met, alloc: Global) -> Result<(), Ended> {
    let history = history_of_pages(alloc, 0, PAGES, FIRST)?;
    let Some(bucket) = Bucket::new(1) else {
        return Err(met.broken("1 is a bucket"));
    };
    let found = match history.entries(bucket, None, 2) {
        Ok(found) => found,
        Err(_) => {
            met.refuse(is_unchanged(&history), "refused entries change nothing")?;
            let Ok(found) = history.entries(bucket, None, 2) else {
                return Err(met.broken("entries is refused again"));
            };
            found
        }
    };
    met.holds(found.len() == 2, "the bucket has 0:1 and 0:65")
}

// The bucket before any horizon: room for both of its entries is taken at once.
fn list_at_horizon(met: &mut Met, alloc: Global) -> Result<(), Ended> {
    let history = history_of_pages(alloc, 0, PAGES, FIRST)?;
    let Some(bucket) = Bucket::new(1) else {
        return Err(met.broken("1 is a bucket"));
    };
    let found = match history.list_at_horizon(bucket, 0) {
        Ok(found) => found,
        Err(_) => {
            met.refuse(is_unchanged(&history), "a refused list changes nothing")?;
            let Ok(found) = history.list_at_horizon(bucket, 0) else {
                return Err(met.broken("a list is refused again"));
            };
            found
        }
    };
    met.holds(found.len() == 2, "the list has 0:1 and 0:65")
}

// Of the pages of bucket 1, each referenced at the time of the last, one comes at a time.
fn entries_since(met: &mut Met, alloc: Global) -> Result<(), Ended> {
    let history = history_of_pages(alloc, 0, PAGES, FIRST)?;
    let Some(bucket) = Bucket::new(1) else {
        return Err(met.broken("1 is a bucket"));
    };
    let portion = match history.entries_since(bucket, FIRST, None, 1) {
        Ok(portion) => portion,
        Err(_) => {
            met.refuse(is_unchanged(&history), "a refused portion changes nothing")?;
            let Ok(portion) = history.entries_since(bucket, FIRST, None, 1) else {
                return Err(met.broken("a portion is refused again"));
            };
            portion
        }
    };
    let is_first = portion.entries.len() == 1 && portion.more;
    met.holds(is_first, "0:65 follows 0:1")
}

pub(crate) fn rows(met: &mut Met, alloc: Global) -> Result<(), Ended> {
    absorb(met, alloc)?;
    join(met, alloc)?;
    join_raised(met, alloc)?;
    join_entries(met, alloc)?;
    join_entries_raised(met, alloc)?;
    copy(met, alloc)?;
    entries(met, alloc)?;
    list_at_horizon(met, alloc)?;
    entries_since(met, alloc)
}
