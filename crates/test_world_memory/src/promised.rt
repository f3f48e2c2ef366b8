//! Test cases of allocation-free calls of worlds and schedules.

mod lines;
mod worlds;

use std::alloc::Global;
use std::io::Print;
use test_kit::cases::{Ended, Met, is_done};

pub(crate) fn play<P: Print>(rt: &P, met: &mut Met, alloc: Global) -> Result<(), Ended> {
    let (world, text) = worlds::changed(met, alloc)?;
    // from here on nothing is allocated
    worlds::rows(rt, met, world, text)?;
    lines::rows(rt, met, alloc)?;
    is_done(rt)
}
