//! Digests, which are cached: the first call allocates, and the next, without changes since, does
//! not. Taking in a known reference in between is not a change.

use std::alloc::Global;
use std::io::Print;
use test_kit::cases::{Ended, Met, is_done, takes, takes_none};
use test_kit::{page, seen};
use warm_digest::{DigestedHistory, Digests};
use warm_stamps::BucketSet;

// A history whose digests were computed before a batch was repeated.
#[derive(Drop)]
pub(crate) struct Kept {
    history: DigestedHistory,
    digests: Digests,
}

fn taken_once(history: &mut DigestedHistory) -> Result<(), Ended> {
    history.absorb(&[seen(page(1), 1, 1)])?;
    Ok(())
}

impl Kept {
    pub(crate) fn new<P: Print>(rt: &P, alloc: Global) -> Result<Kept, Ended> {
        let mut history = DigestedHistory::new(alloc);
        taken_once(&mut history)?;
        takes(rt, 1, "digests")?;
        let _first = history.digests()?;
        is_done(rt)?;
        // A repeated batch changes nothing, so the digests stay cached.
        taken_once(&mut history)?;
        Ok(Kept {
            history,
            digests: Digests::new(alloc),
        })
    }

    // The second call of each, with nothing new since the first.
    pub(crate) fn rows<P: Print>(self, rt: &P, met: &mut Met) -> Result<(), Ended> {
        let Kept {
            mut history,
            mut digests,
        } = self;
        takes_none(rt, "second digests")?;
        met.holds(history.digests().is_ok(), "kept digests are refused")?;
        takes_none(rt, "digests_at_horizon at the same horizon")?;
        met.holds(
            history.digests_at_horizon(0).is_ok(),
            "kept digests at the same horizon are refused",
        )?;
        takes_none(rt, "renew of no bucket")?;
        met.holds(
            digests.renew(history.history(), BucketSet::new()).is_ok(),
            "a renewal of nothing is refused",
        )
    }
}
