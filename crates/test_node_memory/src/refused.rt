//! Test cases of calls of one replica whose allocations may fail.

mod nodes;
mod shards;
mod shared;
mod turns;

use crate::refused::nodes::opened;
use std::alloc::Global;
use std::sync::Wait;
use std::thread::Threads;
use test_kit::cases::{Ended, Met};

fn play_nodes(met: &mut Met, alloc: Global) -> Result<(), Ended> {
    let mut node = opened(met, alloc, 1)?;
    let mut other = opened(met, alloc, 2)?;
    nodes::rows(met, alloc, &mut node, &mut other)
}

fn play_turns<R: Threads + Wait + Sync>(met: &mut Met, rt: &R, alloc: Global) -> Result<(), Ended> {
    let node = opened(met, alloc, 1)?;
    turns::rows(met, rt, alloc, node)
}

// All test cases, one after the other, up to one that ends early.
pub(crate) fn play<R: Threads + Wait + Sync>(
    met: &mut Met,
    rt: &R,
    alloc: Global,
) -> Result<(), Ended> {
    play_nodes(met, alloc)?;
    shards::rows(met, alloc)?;
    shared::rows(met, rt, alloc)?;
    play_turns(met, rt, alloc)
}
