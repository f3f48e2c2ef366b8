//! Test cases of calls of values and histories whose allocations are bounded: none, or what their
//! results need.

mod calls;
mod dumps;
mod frames;
mod kept;
mod sizes;

use crate::promised::calls::Made;
use crate::promised::kept::Kept;
use std::alloc::Global;
use std::io::Print;
use test_kit::cases::{Ended, Met, is_done};
use warm_rank::Contest;

pub(crate) fn play<P: Print>(rt: &P, met: &mut Met, alloc: Global) -> Result<(), Ended> {
    sizes::rows(rt, met, alloc)?;
    dumps::rows(rt, met, alloc)?;
    let kept = Kept::new(rt, alloc)?;
    let made = Made::new(alloc)?;
    let contest = Contest::new(alloc, 2)?;
    // from here on nothing is allocated
    made.rows(rt, met)?;
    calls::contested(rt, met, contest)?;
    kept.rows(rt, met)?;
    frames::rows(rt, met, alloc)?;
    is_done(rt)
}
