//! A device whose pages hold their own numbers, and nodes and shards over it. It takes no memory,
//! so each of many shards can have a device with the pages of all.

use crate::parts::replica;
use anyhow::{Result, bail};
use std::alloc::Global;
use warm_devices::{CallsMade, DeviceFault, PageDevice};
use warm_gossip::Node;
use warm_pool::Pool;
use warm_shards::{Shards, frames_of_shard};
use warm_stamps::ReplicaId;

/// A device whose pages begin with their number, in eight bytes, the lowest first; all further
/// bytes are 0. It is declared not honest: writes to it are not stored.
#[derive(Drop)]
pub(crate) struct Numbered {
    pages: u64,
    page_size: usize,
    waiting: bool,
    calls: CallsMade,
}

impl PageDevice for Numbered {
    ghost use Rattle.std.specs.Prelude.{[], true, false};

    ghost state = { λ numbered. record {
      pages = numbered.pages;
      page_size = numbered.page_size;
      contents = [];
      waiting = numbered.waiting;
      failures = 0;
      calls = numbered.calls.made;
      honest = false;
      unfailing = true;
    } };

    fn pages(&self) -> u64 {
        self.pages
    }

    fn page_size(&self) -> usize {
        self.page_size
    }

    fn waiting(&self) -> bool {
        self.waiting
    }

    fn failures(&self) -> u64 {
        0
    }

    fn read(&mut self, no: u64, into: &mut [u8]) -> Result<(), DeviceFault> {
        self.calls.note(DeviceFault::Read);
        into.fill(0);
        if let Some(number) = into.first_chunk_mut::<8>() {
            *number = no.to_le_bytes();
        }
        Ok(())
    }

    fn write(&mut self, _no: u64, _bytes: &[u8]) -> Result<(), DeviceFault> {
        self.calls.note(DeviceFault::Write);
        self.waiting = true;
        Ok(())
    }

    fn flush(&mut self) -> Result<(), DeviceFault> {
        self.calls.note(DeviceFault::Flush);
        self.waiting = false;
        Ok(())
    }
}

/// The pages of a device: how many, and of how many bytes each.
#[derive(Clone, Copy)]
pub(crate) struct Pages {
    pub(crate) count: u64,
    pub(crate) size: usize,
}

/// A node without references, with a pool of this many frames over a device of these pages.
pub(crate) fn node_of(
    alloc: Global,
    id: ReplicaId,
    frames: usize,
    pages: Pages,
) -> Result<Node<Numbered>> {
    let mut devices = Vec::with_capacity(alloc, 1)?;
    devices.push_reserved(Numbered {
        pages: pages.count,
        page_size: pages.size,
        waiting: false,
        calls: CallsMade::new(),
    });
    match Pool::new(alloc, frames, pages.size, devices) {
        Ok(pool) => Ok(Node::new(alloc, id, pool)),
        Err(unmade) => bail!("no pool: {}", unmade.fault.name()),
    }
}

/// A node with a frame for each of these pages.
pub(crate) fn numbered_node(alloc: Global, pages: Pages) -> Result<Node<Numbered>> {
    node_of(alloc, replica(1)?, pages.count as usize, pages)
}

/// Shards which together have a frame for each of these pages.
pub(crate) fn numbered_shards(
    alloc: Global,
    count: usize,
    pages: Pages,
) -> Result<Shards<Numbered>> {
    let id = replica(1)?;
    let Ok(frames) = frames_of_shard(pages.count as usize, count) else {
        bail!("the pages are not divided evenly among {count} shards")
    };
    let mut nodes = Vec::new(alloc);
    for _ in 0..count {
        nodes.push(node_of(alloc, id, frames, pages)?)?;
    }
    match Shards::new(alloc, id, nodes) {
        Ok(shards) => Ok(shards),
        Err(_) => bail!("these nodes are not shards"),
    }
}
