//! Test cases of calls of values and histories whose allocations may fail.

mod digested;
mod dumps;
mod frames;
mod histories;
mod sizes;

use std::alloc::Global;
use test_kit::cases::{Ended, Met};

// All test cases, one after the other, up to one that ends early.
pub(crate) fn play(met: &mut Met, alloc: Global) -> Result<(), Ended> {
    histories::rows(met, alloc)?;
    sizes::rows(met, alloc)?;
    frames::rows(met, alloc)?;
    digested::rows(met, alloc)?;
    dumps::rows(met, alloc)
}
