//! Test cases of calls of one replica whose allocations are bounded: none, or what their results
//! need.

mod calls;
mod filled;
mod handed_back;
mod kept;
mod pools;
mod posts;
mod shards;
mod shared;
mod sizes;
mod workers;

use crate::promised::filled::Filled;
use crate::promised::handed_back::HandedBack;
use crate::promised::kept::Kept;
use crate::promised::posts::Posts;
use crate::promised::shards::Sharded;
use std::alloc::Global;
use std::io::Print;
use std::sync::Wait;
use test_kit::cases::{Ended, Met, is_done};
use test_kit::memory;
use warm_history::History;
use warm_stamps::ByteList;
use warm_turn::{Counter, Turn};

pub(crate) fn play<P: Print, R: Wait>(
    rt: &P,
    met: &mut Met,
    waits: &R,
    alloc: Global,
) -> Result<(), Ended> {
    sizes::rows(rt, met, alloc)?;
    let kept = Kept::new(rt, met, alloc)?;
    let mut node = calls::opened(alloc, 1)?;
    let mut bytes = Vec::new(alloc);
    bytes.extend_from_slice(b"warm")?;
    let pool = pools::opened(alloc)?;
    let history = History::new(alloc);
    let device = memory(alloc, 4)?;
    let Ok((turn, pass)) = Turn::new(alloc, Counter { total: 0 }) else {
        return Err(Ended::NoMemory);
    };
    let sharded = Sharded::new(alloc)?;
    let handed_back = HandedBack::new(alloc)?;
    let filled = Filled::new(alloc)?;
    let posts = Posts::new(alloc)?;
    let (shared, thread) = shared::opened(alloc)?;
    let other = memory(alloc, 4)?;
    let mut into = Vec::new(alloc);
    into.extend_from_slice(b"read")?;
    let (replica, worker, slot) = workers::opened(alloc)?;
    let (blank, there) = filled::shared(alloc)?;
    // from here on nothing is allocated
    shared::rows(rt, met, waits, shared, thread, other, into)?;
    workers::rows(rt, met, waits, replica, worker, slot)?;
    filled::shared_rows(rt, met, waits, blank, there)?;
    calls::rows(rt, met, &mut node, ByteList::of(bytes))?;
    sharded.rows(rt, met, alloc)?;
    handed_back.rows(rt, met)?;
    filled.rows(rt, met)?;
    pools::rows(rt, met, pool, &history, device)?;
    pools::turned(rt, met, turn, pass)?;
    posts.rows(rt, met, waits, alloc)?;
    kept.rows(rt, met)?;
    is_done(rt)
}
