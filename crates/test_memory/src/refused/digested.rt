//! Digests of buckets, recomputed and cached.
use crate::refused::histories::entries_of;
use std::alloc::Global;
use test_kit::cases::{Ended, Met};
use test_kit::{history_of_pages, references_to};
use warm_digest::{DigestedHistory, Digests, digests};
use warm_frames::DigestTable;
use warm_history::History;
use warm_stamps::BucketSet;

fn taken(met: &mut Met, alloc: Global, history: &History) -> Result<DigestTable, Ended> {
    let len = history.len();
    match digests(alloc, history) {
        Ok(table) => Ok(table),
        Err(_) => {
            met.refuse(history.len() == len, "refused digests change nothing")?;
            match digests(alloc, history) {
                Ok(table) => Ok(table),
                Err(_) => Err(met.broken("digests are refused again")),
            }
        }
    }
}

fn renewed(met: &mut Met, alloc: Global, whole: &DigestTable) -> Result<(), Ended> {
    let history = history_of_pages(alloc, 0, 9, 10)?;
    let mut kept = Digests::new(alloc);
    let before = kept.table();
    if kept.renew(&history, BucketSet::from_bits(0x1FF)).is_err() {
        met.refuse(
            kept.table() == before,
            "a refused renewal changes no digest",
        )?;
        met.holds(
            kept.renew(&history, BucketSet::from_bits(0x1FF)).is_ok(),
            "a renewal is refused again",
        )?;
    }
    met.holds(
        kept.table() == *whole,
        "renewed digests are those of the history",
    )
}

// The digests of a history that caches them.
fn kept(met: &mut Met, history: &mut DigestedHistory) -> Result<DigestTable, Ended> {
    let len = history.history().len();
    match history.digests() {
        Ok(table) => Ok(table),
        Err(_) => {
            met.refuse(
                history.history().len() == len,
                "refused digests change no history",
            )?;
            match history.digests() {
                Ok(table) => Ok(table),
                Err(_) => Err(met.broken("kept digests are refused again")),
            }
        }
    }
}

fn absorbed(met: &mut Met, alloc: Global, whole: &DigestTable) -> Result<(), Ended> {
    let mut history = DigestedHistory::new(alloc);
    let empty = kept(met, &mut history)?;
    let batch = references_to(alloc, 0, 9, 10)?;
    if history.absorb(&batch).is_err() {
        let now = kept(met, &mut history)?;
        let same = history.history().len() == 0 && now == empty;
        met.refuse(same, "a refused absorb changes no digest")?;
        met.holds(
            history.absorb(&batch).is_ok(),
            "a kept absorb is refused again",
        )?;
    }
    let now = kept(met, &mut history)?;
    met.holds(now == *whole, "kept digests are those of the history")
}

fn joined(met: &mut Met, alloc: Global, whole: &DigestTable) -> Result<(), Ended> {
    let mut history = DigestedHistory::new(alloc);
    let entries = entries_of(alloc, &history_of_pages(alloc, 0, 9, 10)?)?;
    if history.join_entries(0, &entries).is_err() {
        met.refuse(
            history.history().len() == 0,
            "a refused join changes nothing",
        )?;
        met.holds(
            history.join_entries(0, &entries).is_ok(),
            "a kept join is refused again",
        )?;
    }
    let now = kept(met, &mut history)?;
    met.holds(now == *whole, "joined digests are those of the history")
}

// A history of nine pages at 10, which caches its digests.
fn first_known(alloc: Global) -> Result<DigestedHistory, Ended> {
    let mut history = DigestedHistory::new(alloc);
    history.absorb(&references_to(alloc, 0, 9, 10)?)?;
    Ok(history)
}

// Entries at 20 are taken in with the horizon 15, and older stamps are forgotten.
fn joined_later(met: &mut Met, alloc: Global, later: &DigestTable) -> Result<(), Ended> {
    let mut history = first_known(alloc)?;
    let before = kept(met, &mut history)?;
    let entries = entries_of(alloc, &history_of_pages(alloc, 4, 12, 20)?)?;
    if history.join_entries(15, &entries).is_err() {
        let horizon = history.horizon();
        let now = kept(met, &mut history)?;
        let same = horizon == 0 && now == before;
        met.refuse(same, "a refused join raises nothing")?;
        met.holds(
            history.join_entries(15, &entries).is_ok(),
            "a join at a horizon is refused again",
        )?;
    }
    let now = kept(met, &mut history)?;
    met.holds(
        history.horizon() == 15 && now == *later,
        "the digests are of what the horizon leaves",
    )
}

// A history at 20 with the horizon 15 is taken in, and older stamps are forgotten.
fn joined_history(met: &mut Met, alloc: Global, later: &DigestTable) -> Result<(), Ended> {
    let mut history = first_known(alloc)?;
    let before = kept(met, &mut history)?;
    let mut other = history_of_pages(alloc, 4, 12, 20)?;
    other.raise(15);
    if history.join(&other).is_err() {
        let horizon = history.horizon();
        let now = kept(met, &mut history)?;
        let same = horizon == 0 && now == before;
        met.refuse(same, "a refused join of a history changes no digest")?;
        met.holds(
            history.join(&other).is_ok(),
            "a join of a history is refused again",
        )?;
    }
    let now = kept(met, &mut history)?;
    met.holds(
        history.horizon() == 15 && now == *later,
        "the digests are of what both horizons leave",
    )
}

// The digests at the horizon 15, which change nothing.
fn kept_since(met: &mut Met, history: &mut DigestedHistory) -> Result<DigestTable, Ended> {
    let len = history.history().len();
    match history.digests_at_horizon(15) {
        Ok(table) => Ok(table),
        Err(_) => {
            let same = history.horizon() == 0 && history.history().len() == len;
            met.refuse(same, "refused digests at a horizon raise nothing")?;
            match history.digests_at_horizon(15) {
                Ok(table) => Ok(table),
                Err(_) => Err(met.broken("digests at a horizon are refused again")),
            }
        }
    }
}

// Digests at a horizon, and those after a raise to it.
fn raised(met: &mut Met, alloc: Global, later: &DigestTable) -> Result<(), Ended> {
    let mut history = first_known(alloc)?;
    history.absorb(&references_to(alloc, 4, 12, 20)?)?;
    let then = kept_since(met, &mut history)?;
    met.holds(then == *later, "the digests are those at the horizon")?;
    let _before = kept(met, &mut history)?;
    history.raise(15);
    let now = kept(met, &mut history)?;
    met.holds(now == *later, "the digests are those after the raise")
}

pub(crate) fn rows(met: &mut Met, alloc: Global) -> Result<(), Ended> {
    let whole = taken(met, alloc, &history_of_pages(alloc, 0, 9, 10)?)?;
    renewed(met, alloc, &whole)?;
    absorbed(met, alloc, &whole)?;
    joined(met, alloc, &whole)?;
    let later = taken(met, alloc, &history_of_pages(alloc, 4, 12, 20)?)?;
    joined_later(met, alloc, &later)?;
    joined_history(met, alloc, &later)?;
    raised(met, alloc, &later)
}
