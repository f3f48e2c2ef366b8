//! Two shards of a replica. A refused batch, message or join may have been taken in by the first.
use crate::refused::nodes::{digest, opened, request};
use std::alloc::Global;
use test_kit::cases::{Ended, Met};
use test_kit::{history_of_pages, references_to, replica};
use warm_devices::MemDevice;
use warm_frames::Message;
use warm_gossip::NodeFault;
use warm_shards::Shards;
use warm_stamps::Bucket;
use warm_visits::{is_shard_count, parts_of};

pub(crate) type TwoShards = Shards<MemDevice>;

// How many pages each of the two shards knows, and the horizon of both.
#[derive(Clone, Copy, PartialEq, Eq)]
struct Known {
    first: usize,
    second: usize,
    horizon: u64,
}

fn known_of(shards: &TwoShards) -> Known {
    let horizon = shards.horizon();
    if shards.count() < 2 {
        return Known {
            first: 0,
            second: 0,
            horizon,
        };
    }
    Known {
        first: shards.shard(0).history().len(),
        second: shards.shard(1).history().len(),
        horizon,
    }
}

// Whether nothing is taken in, or what the first shard is given.
fn is_part(before: Known, after: Known, part: usize) -> bool {
    let grown = before.first.wrapping_add(part);
    after.second == before.second && (after.first == before.first || after.first == grown)
}

// Two shards over devices in memory.
pub(crate) fn made(met: &mut Met, alloc: Global) -> Result<TwoShards, Ended> {
    let mut nodes = Vec::with_capacity(alloc, 2)?;
    for _shard in 0..2 {
        let node = opened(met, alloc, 1)?;
        let Ok(()) = nodes.push(node) else {
            return Err(Ended::NoMemory);
        };
    }
    match Shards::new(alloc, replica(1), nodes) {
        Ok(shards) => Ok(shards),
        Err(_) => Err(met.broken("two nodes are no shards")),
    }
}

// The parts of a batch of pages 0 to 5: three of each shard.
fn divide(met: &mut Met, alloc: Global, count: usize) -> Result<(), Ended> {
    if !is_shard_count(count) {
        return Err(met.broken("there can be two shards"));
    }
    let batch = references_to(alloc, 0, 6, 10)?;
    let parts = match parts_of(alloc, &batch, count) {
        Ok(parts) => parts,
        Err(_) => {
            met.count();
            parts_of(alloc, &batch, count)?
        }
    };
    let is_divided = parts.count() == 2 && parts.part(0).len() == 3 && parts.part(1).len() == 3;
    met.holds(is_divided, "each shard has its part")
}

// Pages 0 to 5: three of each shard.
fn absorb(met: &mut Met, alloc: Global, shards: &mut TwoShards) -> Result<(), Ended> {
    let batch = references_to(alloc, 0, 6, 10)?;
    let before = known_of(shards);
    if let Err(fault) = shards.absorb(&batch) {
        let is_refused = fault == NodeFault::Memory && is_part(before, known_of(shards), 3);
        met.refuse(is_refused, "the first shards take a refused batch in")?;
        met.holds(
            shards.absorb(&batch).is_ok(),
            "a batch of shards is refused again",
        )?;
    }
    let after = known_of(shards);
    met.holds(
        after.first == 3 && after.second == 3,
        "each shard has its pages",
    )
}

// A call that changes nothing was refused.
fn refuse(met: &mut Met, shards: &TwoShards, before: Known, is_memory: bool) -> Result<(), Ended> {
    let same = is_memory && known_of(shards) == before;
    met.refuse(same, "a refused call of shards changes nothing")
}

fn offer(met: &mut Met, shards: &mut TwoShards) -> Result<(), Ended> {
    let before = known_of(shards);
    if let Err(fault) = shards.offer() {
        refuse(met, shards, before, fault == NodeFault::Memory)?;
        met.holds(
            shards.offer().is_ok(),
            "an offer of shards is refused again",
        )?;
    }
    met.holds(known_of(shards) == before, "an offer changes nothing")
}

// What is sent of bucket 1, and the list of the two hottest pages.
fn ask(met: &mut Met, shards: &TwoShards) -> Result<(), Ended> {
    let Some(bucket) = Bucket::new(1) else {
        return Err(met.broken("1 is a bucket"));
    };
    let before = known_of(shards);
    if let Err(fault) = shards.send(bucket, None) {
        refuse(met, shards, before, fault == NodeFault::Memory)?;
        let again = shards.send(bucket, None).is_ok();
        met.holds(again, "a send of shards is refused again")?;
    }
    if let Err(fault) = shards.send_since(bucket, 0, None) {
        refuse(met, shards, before, fault == NodeFault::Memory)?;
        let again = shards.send_since(bucket, 0, None).is_ok();
        met.holds(again, "a portion of shards is refused again")?;
    }
    if let Err(fault) = shards.warm_list(2) {
        refuse(met, shards, before, fault == NodeFault::Memory)?;
        met.holds(
            shards.warm_list(2).is_ok(),
            "a list of shards is refused again",
        )?;
    }
    if shards.history().is_err() {
        refuse(met, shards, before, true)?;
        met.holds(
            shards.history().is_ok(),
            "a copy of shards is refused again",
        )?;
    }
    Ok(())
}

// Messages that bring nothing: digests of no bucket's, which each bucket answers, and a request.
fn receive(met: &mut Met, shards: &mut TwoShards) -> Result<(), Ended> {
    let before = known_of(shards);
    if let Err(fault) = shards.receive(digest(0)) {
        refuse(met, shards, before, fault == NodeFault::Memory)?;
        let again = shards.receive(digest(0)).is_ok();
        met.holds(again, "digests are refused again by shards")?;
    }
    if let Err(fault) = shards.receive(request(0)) {
        refuse(met, shards, before, fault == NodeFault::Memory)?;
        let again = shards.receive(request(0)).is_ok();
        met.holds(again, "a request is refused again by shards")?;
    }
    met.holds(
        known_of(shards) == before,
        "digests and requests bring nothing",
    )
}

// What would be answered to a message, also at a later horizon, for which the history is copied.
fn answer(met: &mut Met, shards: &mut TwoShards, message: &Message) -> Result<(), Ended> {
    let before = known_of(shards);
    if let Err(fault) = shards.answers(message) {
        refuse(met, shards, before, fault == NodeFault::Memory)?;
        let again = shards.answers(message).is_ok();
        met.holds(again, "answers of shards are refused again")?;
    }
    met.holds(known_of(shards) == before, "an answer changes nothing")
}

// A history of pages 0 to 3 at 20 with the horizon 15, which drops what was known. A refused join
// has raised the horizon of both shards, or of none, and the first may have its two pages.
fn join(met: &mut Met, alloc: Global, shards: &mut TwoShards) -> Result<(), Ended> {
    let mut other = history_of_pages(alloc, 0, 4, 20)?;
    other.raise(15);
    if let Err(fault) = shards.join(&other) {
        let known = known_of(shards);
        let is_part = known.second == 0 && (known.first == 0 || known.first == 2);
        let is_refused = fault == NodeFault::Memory && known.horizon == 15 && is_part;
        met.refuse(is_refused, "the first shards take a refused history in")?;
        met.holds(
            shards.join(&other).is_ok(),
            "a join of shards is refused again",
        )?;
    }
    let joined = Known {
        first: 2,
        second: 2,
        horizon: 15,
    };
    met.holds(known_of(shards) == joined, "shards join a history")
}

// All calls on two shards, one after the other.
pub(crate) fn rows(met: &mut Met, alloc: Global) -> Result<(), Ended> {
    divide(met, alloc, 2)?;
    let mut shards = made(met, alloc)?;
    absorb(met, alloc, &mut shards)?;
    offer(met, &mut shards)?;
    ask(met, &shards)?;
    answer(met, &mut shards, &digest(0))?;
    answer(met, &mut shards, &digest(11))?;
    answer(met, &mut shards, &request(11))?;
    receive(met, &mut shards)?;
    join(met, alloc, &mut shards)
}
