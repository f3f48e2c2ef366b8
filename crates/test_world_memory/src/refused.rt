//! Test cases of calls of worlds, files, setups and command lines whose allocations may fail.

mod answers;
mod commands;
mod events;
mod files;
mod lives;
mod setups;

use test_kit::cases::{Ended, Met};

// All test cases, one after the other, up to one that ends early.
pub(crate) fn play(met: &mut Met, rt: &HostRuntime) -> Result<(), Ended> {
    setups::rows(met, rt.alloc())?;
    commands::rows(met, rt.alloc())?;
    files::rows(met, rt)?;
    lives::rows(met, rt.alloc())
}
