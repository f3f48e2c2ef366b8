//! The allocation-free calls of shards, those of one shard and those that go through all.
use crate::promised::calls::empty;
use std::alloc::Global;
use std::io::Print;
use test_kit::cases::{Ended, Met, takes_none};
use test_kit::{memory, page, replica, seen};
use warm_devices::MemDevice;
use warm_shards::{ShardSlot, Shards};

type TwoShards = Shards<MemDevice>;

/// Two shards, with a reference to a page of each, and a device for the first of them.
#[derive(Drop)]
pub(crate) struct Sharded {
    shards: TwoShards,
    device: MemDevice,
}

impl Sharded {
    pub(crate) fn new(alloc: Global) -> Result<Sharded, Ended> {
        let mut nodes = Vec::with_capacity(alloc, 2)?;
        nodes.push_reserved(empty(alloc, 2)?);
        nodes.push_reserved(empty(alloc, 2)?);
        let Ok(mut shards) = Shards::new(alloc, replica(1), nodes) else {
            return Err(Ended::Broken);
        };
        let three = [
            seen(page(1), 1, 1),
            seen(page(2), 2, 1),
            seen(page(3), 3, 1),
        ];
        if shards.absorb(&three).is_err() {
            return Err(Ended::NoMemory);
        }
        let device = memory(alloc, 8)?;
        Ok(Sharded { shards, device })
    }

    pub(crate) fn rows<P: Print>(self, rt: &P, met: &mut Met, alloc: Global) -> Result<(), Ended> {
        let Sharded { mut shards, device } = self;
        let at = pinned(rt, met, &mut shards)?;
        written(rt, met, &mut shards, at)?;
        one_shard(rt, met, &mut shards)?;
        retired(rt, met, &mut shards, device)?;
        all_shards(rt, met, &mut shards)?;
        formed(rt, met, alloc, shards)
    }
}

fn pinned<P: Print>(rt: &P, met: &mut Met, shards: &mut TwoShards) -> Result<ShardSlot, Ended> {
    takes_none(rt, "pin of shards")?;
    let Ok(at) = shards.pin(page(1)) else {
        return Err(met.broken("a page of shards is not pinned"));
    };
    takes_none(rt, "unpin of shards")?;
    met.holds(shards.unpin(at).is_ok(), "an unpin of shards is refused")?;
    takes_none(rt, "pin_zeroed of shards")?;
    match shards.pin_zeroed(page(1)) {
        Ok(zeroed) => Ok(zeroed),
        Err(_) => Err(met.broken("zeros of shards are refused")),
    }
}

fn written<P: Print>(
    rt: &P,
    met: &mut Met,
    shards: &mut TwoShards,
    at: ShardSlot,
) -> Result<(), Ended> {
    takes_none(rt, "write_back_page of shards")?;
    met.holds(
        matches!(shards.write_back_page(page(1)), Ok(true)),
        "a page of shards is not written back",
    )?;
    takes_none(rt, "write of shards")?;
    met.holds(
        shards.write(at, 0, b"warm").is_ok(),
        "a write of shards is refused",
    )?;
    let mut into = [0u8; 4];
    takes_none(rt, "read_into of shards")?;
    met.holds(
        shards.read_into(at, 0, &mut into).is_ok(),
        "a read of shards is refused",
    )?;
    takes_none(rt, "bytes of shards")?;
    met.holds(shards.bytes(at).is_ok(), "no bytes of shards are lent")?;
    met.holds(shards.unpin(at).is_ok(), "an unpin of shards is refused")
}

fn one_shard<P: Print>(rt: &P, met: &mut Met, shards: &mut TwoShards) -> Result<(), Ended> {
    if shards.count() < 2 {
        return Err(met.broken("two shards"));
    }
    takes_none(rt, "victim of a shard")?;
    met.holds(shards.victim(1).is_some(), "a shard has no victim")?;
    takes_none(rt, "write_back_some of a shard")?;
    met.holds(
        matches!(shards.write_back_some(1, 1), Ok(0)),
        "a shard's page is not written back",
    )?;
    takes_none(rt, "flush_device of a shard")?;
    met.holds(
        shards.flush_device(1, 0).is_ok(),
        "a shard's device is not flushed",
    )?;
    takes_none(rt, "write_back of a shard")?;
    met.holds(shards.write_back(1).is_ok(), "a shard is not written back")
}

fn retired<P: Print>(
    rt: &P,
    met: &mut Met,
    shards: &mut TwoShards,
    device: MemDevice,
) -> Result<(), Ended> {
    if shards.count() < 2 {
        return Err(met.broken("two shards"));
    }
    takes_none(rt, "replace of a shard")?;
    let Ok(old) = shards.replace(0, 0, device) else {
        return Err(met.broken("a shard's device is not replaced"));
    };
    takes_none(rt, "retire of a shard")?;
    met.holds(
        shards.retire(0, 0, old).is_ok(),
        "a shard's device is not retired",
    )
}

fn all_shards<P: Print>(rt: &P, met: &mut Met, shards: &mut TwoShards) -> Result<(), Ended> {
    takes_none(rt, "write_back_all of shards")?;
    met.holds(shards.write_back_all().is_ok(), "shards are not settled")?;
    takes_none(rt, "forget_pages of shards")?;
    met.holds(
        shards.forget_pages(0, 1).is_ok(),
        "pages of shards are not forgotten",
    )?;
    takes_none(rt, "raise of shards")?;
    met.holds(shards.raise(2) == 2, "a raise of shards is refused")?;
    takes_none(rt, "restart of shards")?;
    met.holds(shards.restart().is_ok(), "shards do not restart")
}

fn formed<P: Print>(rt: &P, met: &mut Met, alloc: Global, shards: TwoShards) -> Result<(), Ended> {
    let id = shards.id();
    takes_none(rt, "from_nodes of shards")?;
    let formed = Shards::from_nodes(alloc, id, shards.into_nodes());
    met.holds(formed.is_ok(), "nodes of shards are no shards")
}
