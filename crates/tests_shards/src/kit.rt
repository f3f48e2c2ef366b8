//! Nodes, shards and shared shards over devices in memory.
ghost use Rattle.warm_concurrent.specs.Attached.{AreOf};

use std::alloc::Global;
use std::process::Abort;
use test_kit::{SeenAt, alone, memory, references, replica};
use warm_concurrent::{Attached, SharedShards, Sharing};
use warm_devices::{MemDevice, PageDevice};
use warm_frames::{Message, encode};
use warm_gossip::Node;
use warm_pool::Pool;
use warm_shards::Shards;
use warm_stamps::Reference;

/// A node of a replica with this many frames over a device.
pub(crate) fn node_over<D: PageDevice>(
    rt: &impl Abort,
    alloc: Global,
    number: u16,
    frames: usize,
    device: D,
) -> Node<D> {
    let devices = alone(alloc, device).expect(rt, "memory for a list");
    match Pool::new(alloc, frames, 16, devices) {
        Ok(pool) => Node::new(alloc, replica(number), pool),
        Err(_) => panic!(rt; "no pool"),
    }
}

/// A node of four frames over a device of 256 pages.
pub(crate) fn node(rt: &impl Abort, alloc: Global, number: u16) -> Node<MemDevice> {
    let device = memory(alloc, 256).expect(rt, "memory for a device");
    node_over(rt, alloc, number, 4, device)
}

/// Two shards of replica 1, over one device each.
pub(crate) fn over<D: PageDevice>(
    rt: &impl Abort,
    alloc: Global,
    first: D,
    second: D,
) -> Shards<D> {
    let mut nodes = Vec::with_capacity(alloc, 2).expect(rt, "memory for nodes");
    nodes.push_reserved(node_over(rt, alloc, 1, 4, first));
    nodes.push_reserved(node_over(rt, alloc, 1, 4, second));
    match Shards::new(alloc, replica(1), nodes) {
        Ok(shards) => shards,
        Err(_) => panic!(rt; "no shards"),
    }
}

/// This many nodes of a replica.
pub(crate) fn nodes(
    rt: &impl Abort,
    alloc: Global,
    number: u16,
    count: usize,
) -> Vec<Node<MemDevice>> {
    let mut nodes = Vec::with_capacity(alloc, count).expect(rt, "memory for nodes");
    for _shard in 0..count {
        let Ok(()) = nodes.push(node(rt, alloc, number)) else {
            panic!(rt; "memory for nodes")
        };
    }
    nodes
}

/// The shards of a replica.
pub(crate) fn shards(
    rt: &impl Abort,
    alloc: Global,
    number: u16,
    count: usize,
) -> Shards<MemDevice> {
    match Shards::new(alloc, replica(number), nodes(rt, alloc, number, count)) {
        Ok(shards) => shards,
        Err(_) => panic!(rt; "no shards"),
    }
}

/// Shards that threads share, and what the first thread has of them.
pub(crate) fn shared_from<D: PageDevice + Send>(
    rt: &impl Abort,
    alloc: Global,
    shards: Shards<D>,
) -> (SharedShards<D>, Attached<D>)
    ensures { AreOf result.0 result.1.passes }
{
    let Ok(sharing) = Sharing::new(alloc, shards) else {
        panic!(rt; "memory for shards")
    };
    let Ok(both) = sharing.share() else {
        panic!(rt; "memory for turns")
    };
    both
}

/// The shards of a replica that threads share, and what the first thread has of them.
pub(crate) fn shared_of(
    rt: &impl Abort,
    alloc: Global,
    number: u16,
    count: usize,
) -> (SharedShards<MemDevice>, Attached<MemDevice>)
    ensures { AreOf result.0 result.1.passes }
{
    shared_from(rt, alloc, shards(rt, alloc, number, count))
}

/// A further thread is attached.
pub(crate) fn more<D: PageDevice + Send>(
    rt: &impl Abort,
    alloc: Global,
    shared: &SharedShards<D>,
    attached: &mut Attached<D>,
) -> Attached<D>
    requires { AreOf shared.now attached.old.passes }
    ensures these { AreOf shared.now attached.new.passes }
    ensures those { AreOf shared.now result.passes }
{
    let more = shared.attach(alloc, attached);
    more.ok().expect(rt, "memory for passes")
}

/// The nodes of closed shards.
pub(crate) fn closed<D: PageDevice + Send>(
    rt: &impl Abort,
    alloc: Global,
    shared: SharedShards<D>,
    attached: Attached<D>,
) -> Vec<Node<D>>
    requires { AreOf shared attached.passes }
{
    let Ok(ends) = shared.close(alloc, attached) else {
        panic!(rt; "no pin is held")
    };
    let mut nodes = Vec::new(alloc);
    for end in ends {
        let Ok(node) = end else {
            panic!(rt; "no call is under way")
        };
        let Ok(()) = nodes.push(node) else {
            panic!(rt; "memory for nodes")
        };
    }
    nodes
}

/// How many pages of all these nodes are dirty.
pub(crate) fn dirty<D: PageDevice>(nodes: &[Node<D>]) -> usize {
    let mut count = 0usize;
    for node in nodes {
        count = count.wrapping_add(node.pool().dirty());
    }
    count
}

/// The references of a list.
pub(crate) fn batch(rt: &impl Abort, alloc: Global, given: &[SeenAt]) -> Vec<Reference> {
    references(alloc, given).expect(rt, "memory for a batch")
}

/// The bytes of a message.
pub(crate) fn bytes_of(rt: &impl Abort, alloc: Global, message: &Message) -> Vec<u8> {
    encode(alloc, message).expect(rt, "memory for the bytes")
}
