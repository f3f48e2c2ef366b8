//! The allocation-free calls of a node, and of shared shards, whose pages a program reads by itself.
ghost use Rattle.std.specs.Prelude.{IfOk};
ghost use Rattle.warm_concurrent.specs.Attached.{AreOf};

use crate::promised::calls::both;
use std::alloc::Global;
use std::io::Print;
use std::sync::Wait;
use test_kit::cases::{Ended, Met, takes_none};
use test_kit::{page, replica};
use warm_concurrent::{Attached, SharedShards, Sharing};
use warm_devices::{CallsMade, DeviceFault, PageDevice};
use warm_gossip::Node;
use warm_pool::Pool;
use warm_shards::Shards;
use warm_stamps::PageId;

/// Eight blank pages of 16 bytes. The device is declared not honest: any bytes of its pages are
/// believed.
#[derive(Drop)]
pub(crate) struct Blank {
    waiting: bool,
    calls: CallsMade,
}

impl PageDevice for Blank {
    ghost use Rattle.std.specs.Prelude.{[], true, false};

    ghost state = { λ blank. record {
      pages = 8;
      page_size = 16;
      contents = [];
      waiting = blank.waiting;
      failures = 0;
      calls = blank.calls.made;
      honest = false;
      unfailing = true;
    } };

    fn pages(&self) -> u64 {
        8
    }

    fn page_size(&self) -> usize {
        16
    }

    fn waiting(&self) -> bool {
        self.waiting
    }

    fn failures(&self) -> u64 {
        0
    }

    fn read(&mut self, _no: u64, into: &mut [u8]) -> Result<(), DeviceFault> {
        self.calls.note(DeviceFault::Read);
        into.fill(0);
        Ok(())
    }

    fn write(&mut self, _no: u64, _bytes: &[u8]) -> Result<(), DeviceFault> {
        self.calls.note(DeviceFault::Write);
        self.waiting = true;
        Ok(())
    }

    fn flush(&mut self) -> Result<(), DeviceFault> {
        self.calls.note(DeviceFault::Flush);
        self.waiting = false;
        Ok(())
    }
}

// A node of one frame, for the pages of a blank device.
fn over_blank(alloc: Global) -> Result<Node<Blank>, Ended> {
    let mut devices = Vec::with_capacity(alloc, 1)?;
    devices.push_reserved(Blank {
        waiting: false,
        calls: CallsMade::new(),
    });
    match Pool::new(alloc, 1, 16, devices) {
        Ok(pool) => Ok(Node::new(alloc, replica(1), pool)),
        Err(_) => Err(Ended::NoMemory),
    }
}

// Two shards of one frame each behind turns, and what a thread has of them.
pub(crate) fn shared(alloc: Global) -> Result<(SharedShards<Blank>, Attached<Blank>), Ended>
    ensures { IfOk result (λ made. AreOf made.0 made.1.passes) }
{
    let mut nodes = Vec::with_capacity(alloc, 2)?;
    nodes.push_reserved(over_blank(alloc)?);
    nodes.push_reserved(over_blank(alloc)?);
    let Ok(shards) = Shards::new(alloc, replica(1), nodes) else {
        return Err(Ended::Broken);
    };
    let Ok(sharing) = Sharing::new(alloc, shards) else {
        return Err(Ended::NoMemory);
    };
    match sharing.share() {
        Ok(made) => Ok(made),
        Err(_) => Err(Ended::NoMemory),
    }
}

// A thread pins a page with bytes that it has read.
pub(crate) fn shared_rows<P: Print, R: Wait>(
    rt: &P,
    met: &mut Met,
    waits: &R,
    shared: SharedShards<Blank>,
    mut thread: Attached<Blank>,
) -> Result<(), Ended>
    requires { AreOf shared thread.passes }
{
    takes_none(rt, "pin_filled of shared shards")?;
    let Ok(at) = shared.pin_filled(waits, &mut thread, page(3), &[7; 16]) else {
        return Err(met.broken("a page with its bytes is refused by shared shards"));
    };
    let unpinned = shared.unpin(waits, &mut thread, at);
    met.holds(unpinned.is_ok(), "a page that was filled is not unpinned")
}

/// A node of one frame, with references to 0:1 and 0:2, and the list of the pages to read.
#[derive(Drop)]
pub(crate) struct Filled {
    node: Node<Blank>,
}

impl Filled {
    pub(crate) fn new(alloc: Global) -> Result<Filled, Ended> {
        let mut node = over_blank(alloc)?;
        if node.absorb(&both()).is_err() {
            return Err(Ended::NoMemory);
        }
        if node.warm_next().is_err() {
            return Err(Ended::NoMemory);
        }
        Ok(Filled { node })
    }

    pub(crate) fn rows<P: Print>(self, rt: &P, met: &mut Met) -> Result<(), Ended> {
        let Filled { mut node } = self;
        takes_none(rt, "warm_next of a list")?;
        met.holds(is_next(&mut node, 2), "the hottest page is not next")?;
        takes_none(rt, "pin_filled of a page in no frame")?;
        met.holds(is_filled(&mut node, 2), "a page with its bytes is refused")?;
        takes_none(rt, "pin_filled of a page in a frame")?;
        met.holds(is_filled(&mut node, 2), "a second pin of it is refused")
    }
}

fn is_next(node: &mut Node<Blank>, no: u64) -> bool {
    matches!(node.warm_next(), Ok(Some(page)) if page.no == no)
}

// Whether the page is pinned with bytes that are given, and has them.
fn is_filled(node: &mut Node<Blank>, no: u64) -> bool {
    if node.pool().page_size() != 16 {
        return false;
    }
    // No device of this type claims anything of its bytes: so any bytes are allowed.
    let _devices = node.pool().devices();
    let Ok(slot) = node.pin_filled(PageId { dev: 0, no }, &[7; 16]) else {
        return false;
    };
    match node.bytes(slot) {
        Ok(bytes) => bytes == [7; 16].as_slice(),
        Err(_) => false,
    }
}
