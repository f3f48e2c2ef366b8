//! Makes calls of a history whose digests are cached, one for each line of a text.
//! `scripts/hashed-buckets` counts what they hash.
//!
//! - `ref NO TIME`: a reference to page NO of device 0, made by replica 1 at that time;
//! - `raise TIME`: the horizon rises to that time;
//! - `digests`: the digests of the buckets are computed, and `digests` is printed;
//! - `since TIME`: the digests that the buckets would have at that horizon are computed, and
//!   `since` is printed.

use anyhow::{Context, Result, bail};
use std::io::Print;
use warm_digest::DigestedHistory;
use warm_stamps::{PageId, Reference, ReplicaId, Stamp};

fn number(word: Option<&str>) -> Result<u64> {
    let word = word.context("a number")?;
    word.parse::<u64>().context("a number")
}

fn refer(history: &mut DigestedHistory, no: u64, time: u64) -> Result<()> {
    let Ok(replica) = ReplicaId::new(1) else {
        bail!("1 names a replica")
    };
    let seen = [Reference {
        page: PageId { dev: 0, no },
        stamp: Stamp { time, replica },
    }];
    history.absorb(&seen)?;
    Ok(())
}

// Makes the call of a line, and returns what it prints.
fn call(history: &mut DigestedHistory, line: &str) -> Result<Option<&'static str>> {
    let mut words = line.split_whitespace();
    match words.next() {
        Some("ref") => {
            let no = number(words.next())?;
            refer(history, no, number(words.next())?)?;
            Ok(None)
        }
        Some("raise") => {
            history.raise(number(words.next())?);
            Ok(None)
        }
        Some("digests") => {
            history.digests()?;
            Ok(Some("digests"))
        }
        Some("since") => {
            history.digests_at_horizon(number(words.next())?)?;
            Ok(Some("since"))
        }
        _ => bail!("no call"),
    }
}

pub(crate) fn run(rt: &HostRuntime, text: &str) -> Result<()> {
    let mut history = DigestedHistory::new(rt.alloc());
    for line in text.lines() {
        if let Some(printed) = call(&mut history, line)? {
            println!(rt; "{printed}")?;
        }
    }
    Ok(())
}
