//! A node's allocation-free calls.
use std::alloc::Global;
use std::io::Print;
use test_kit::cases::{Ended, Met, takes_none};
use test_kit::{alone, memory, page, replica, seen};
use warm_devices::MemDevice;
use warm_gossip::{Call, Node, Reply};
use warm_pool::{Pool, Slot};
use warm_stamps::{ByteList, Reference};

// A node of replica 1 with some frames for the pages of a device of eight.
pub(crate) fn empty(alloc: Global, frames: usize) -> Result<Node<MemDevice>, Ended> {
    let devices = alone(alloc, memory(alloc, 8)?)?;
    match Pool::new(alloc, frames, 16, devices) {
        Ok(pool) => Ok(Node::new(alloc, replica(1), pool)),
        Err(_) => Err(Ended::NoMemory),
    }
}

// References to 0:1 at 1, and to 0:2 at 2.
pub(crate) fn both() -> [Reference; 2] {
    [seen(page(1), 1, 1), seen(page(2), 2, 1)]
}

// Such a node, with these references.
pub(crate) fn opened(alloc: Global, frames: usize) -> Result<Node<MemDevice>, Ended> {
    let mut node = empty(alloc, frames)?;
    if node.absorb(&both()).is_err() {
        return Err(Ended::NoMemory);
    }
    Ok(node)
}

pub(crate) fn is_pinned(node: &mut Node<MemDevice>, no: u64, generation: u64) -> bool {
    let slot = Slot {
        index: 0,
        generation,
    };
    matches!(node.call(Call::Pin(page(no))), Reply::Pinned(found) if found == slot)
}

fn is_unpinned(node: &mut Node<MemDevice>, generation: u64) -> bool {
    let slot = Slot {
        index: 0,
        generation,
    };
    matches!(node.call(Call::Unpin(slot)), Reply::Done)
}

fn is_raised(node: &mut Node<MemDevice>, time: u64) -> bool {
    let kept = node.call(Call::Horizon(time));
    matches!(kept, Reply::Kept(horizon) if horizon == time) && node.raise(0) == time
}

// A page is pinned twice, written to, read and unpinned twice.
fn pinned<P: Print>(
    rt: &P,
    met: &mut Met,
    node: &mut Node<MemDevice>,
    bytes: ByteList,
) -> Result<(), Ended> {
    takes_none(rt, "pin of a page in no frame")?;
    met.holds(is_pinned(node, 1, 1), "a pin is refused")?;
    takes_none(rt, "pin of a page in a frame")?;
    met.holds(is_pinned(node, 1, 1), "a second pin is refused")?;
    let slot = Slot {
        index: 0,
        generation: 1,
    };
    let call = Call::Write { slot, at: 3, bytes };
    takes_none(rt, "write")?;
    met.holds(matches!(node.call(call), Reply::Done), "a write is refused")?;
    let mut into = [0u8; 4];
    takes_none(rt, "read of a pool")?;
    met.holds(
        node.pool().read(slot, 3, &mut into).is_ok(),
        "a read is refused",
    )?;
    takes_none(rt, "read_into")?;
    met.holds(
        node.read_into(slot, 3, &mut into).is_ok(),
        "a read into a buffer is refused",
    )?;
    takes_none(rt, "unpin of a page with two fixes")?;
    met.holds(is_unpinned(node, 1), "an unpin is refused")?;
    takes_none(rt, "unpin of a page with one fix")?;
    met.holds(is_unpinned(node, 1), "a second unpin is refused")
}

// The page that replaced another is written to, unpinned and written back.
fn written_back<P: Print>(rt: &P, met: &mut Met, node: &mut Node<MemDevice>) -> Result<(), Ended> {
    let slot = Slot {
        index: 0,
        generation: 2,
    };
    takes_none(rt, "write of a slice")?;
    met.holds(
        node.write(slot, 0, b"cold").is_ok(),
        "a write of a slice is refused",
    )?;
    takes_none(rt, "unpin")?;
    met.holds(is_unpinned(node, 2), "an unpin is refused")?;
    takes_none(rt, "write_back")?;
    met.holds(node.write_back().is_ok(), "a page is not written back")
}

// Whether the bytes of the slot's page are lent, to be written to.
fn is_lent(node: &mut Node<MemDevice>, slot: Slot) -> bool {
    if !node.pool().holds(slot) {
        return false;
    }
    let bytes = node.bytes_mut(slot);
    bytes.len() == 16
}

// A page is pinned with zeros and written back, its bytes are lent, it is written back once more, and
// it is forgotten.
fn lent<P: Print>(rt: &P, met: &mut Met, node: &mut Node<MemDevice>) -> Result<(), Ended> {
    takes_none(rt, "pin_zeroed")?;
    let Ok(slot) = node.pin_zeroed(page(3)) else {
        return Err(met.broken("a pin with zeros is refused"));
    };
    takes_none(rt, "has_dirty of a pool")?;
    met.holds(node.pool().has_dirty(page(3)), "a page of zeros is clean")?;
    takes_none(rt, "next_dirty of a pool")?;
    met.holds(node.pool().next_dirty(0).is_some(), "no frame is dirty")?;
    takes_none(rt, "write_back_page")?;
    met.holds(
        matches!(node.write_back_page(page(3)), Ok(true)),
        "one page is not written back",
    )?;
    takes_none(rt, "bytes_mut")?;
    met.holds(is_lent(node, slot), "no bytes are lent to be written to")?;
    takes_none(rt, "bytes")?;
    met.holds(node.bytes(slot).is_ok(), "no bytes are lent")?;
    takes_none(rt, "write_back_some")?;
    met.holds(
        matches!(node.write_back_some(1), Ok(0)),
        "the dirty page is not written back",
    )?;
    takes_none(rt, "flush_device")?;
    met.holds(node.flush_device(0).is_ok(), "a device is not flushed")?;
    takes_none(rt, "unpin of a page of zeros")?;
    met.holds(node.unpin(slot).is_ok(), "its unpin is refused")?;
    takes_none(rt, "forget_pages")?;
    met.holds(node.forget_pages(0, 3).is_ok(), "a page is not forgotten")
}

// A page is pinned, written to and unpinned; another replaces it, and is written back; a third is
// pinned with zeros and forgotten; the horizon rises past one of them, and the node restarts.
pub(crate) fn rows<P: Print>(
    rt: &P,
    met: &mut Met,
    node: &mut Node<MemDevice>,
    bytes: ByteList,
) -> Result<(), Ended> {
    pinned(rt, met, node, bytes)?;
    takes_none(rt, "victim")?;
    let left = node.call(Call::Victim);
    met.holds(matches!(left, Reply::Page(Some(_))), "a victim is refused")?;
    takes_none(rt, "pin over a dirty page")?;
    met.holds(is_pinned(node, 2, 2), "a pin over a dirty page is refused")?;
    written_back(rt, met, node)?;
    takes_none(rt, "unpin of a stale slot")?;
    met.holds(!is_unpinned(node, 1), "a stale slot is unpinned")?;
    lent(rt, met, node)?;
    takes_none(rt, "horizon")?;
    met.holds(is_raised(node, 2), "a horizon is refused")?;
    takes_none(rt, "restart")?;
    let ended = node.call(Call::Restart);
    met.holds(matches!(ended, Reply::Done), "a restart is refused")
}
