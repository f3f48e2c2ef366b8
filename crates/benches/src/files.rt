//! Writes a history as a dump, and reads the dump back, both in memory.
//!
//! With no word it does so with 1,000 pages and prints what came out. With a number of pages it
//! does so with that many, and prints the nanoseconds too, for `bench/files/measure.py`.
use crate::parts::{added_bytes, asked_number, replica, twice};
use anyhow::{Result, bail};
use std::alloc::Global;
use std::time::{Duration, Instant};
use warm_dump::{read_dump, write_dump};
use warm_history::History;
use warm_stamps::{PageId, ReplicaId};

// How many pages a dump has if no number is given.
const FEW: u64 = 1_000;

// A history of this many pages of one device, with two stamps each.
fn history_of(alloc: Global, replica: ReplicaId, pages: u64) -> Result<History> {
    let mut history = History::new(alloc);
    for no in 0..pages {
        let page = PageId { dev: 0, no };
        history.absorb(&twice(page, replica, [no, no.wrapping_add(7)]))?;
    }
    Ok(history)
}

// The dump of a history, and how long writing it took.
fn time_writing(
    rt: &HostRuntime,
    sender: ReplicaId,
    history: &History,
) -> Result<(Vec<u8>, Duration)> {
    let start = Instant::now(rt)?;
    let mut text = Vec::new(rt.alloc());
    if let Err(fault) = write_dump(rt.alloc(), &mut text, sender, history) {
        bail!("not written: {}", fault.name())
    }
    let spent = start.elapsed(rt)?;
    Ok((text, spent))
}

// How many pages a dump has, and how long reading it took.
fn time_reading(rt: &HostRuntime, text: &[u8]) -> Result<(usize, Duration)> {
    let start = Instant::now(rt)?;
    let mut reader = text;
    let history = match read_dump(rt.alloc(), &mut reader) {
        Ok(history) => history,
        Err(error) => bail!("not read: {}", error.fault.name()),
    };
    let spent = start.elapsed(rt)?;
    Ok((history.len(), spent))
}

pub(crate) fn play(rt: &HostRuntime, words: &[String]) -> Result<()> {
    let pages = asked_number(words, "how many pages the dump has")?;
    let sender = replica(1)?;
    let history = history_of(rt.alloc(), sender, pages.unwrap_or(FEW))?;
    let (text, writing) = time_writing(rt, sender, &history)?;
    let (count, reading) = time_reading(rt, &text)?;
    println!(rt; "dump: {} bytes {}", text.len(), added_bytes(0, &text))?;
    println!(rt; "restored: {} pages", count)?;
    if pages.is_some() {
        println!(rt; "{} {} ns", writing.as_nanos(), reading.as_nanos())?;
    }
    Ok(())
}
