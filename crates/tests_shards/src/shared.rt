//! Shards that threads share: calls from one thread, what they leave, and each refusal.
ghost use Rattle.warm_concurrent.specs.Attached.{AreOf};

use crate::kit::{batch, bytes_of, closed, dirty, more, node, shared_of};
use std::alloc::Global;
use std::process::Abort;
use std::sync::Wait;
use test_kit::{SeenAt, page, seen};
use warm_concurrent::{Attached, SharedFault, SharedShards};
use warm_devices::MemDevice;
use warm_gossip::{Node, NodeFault};
use warm_pool::PoolFault;
use warm_shards::ShardSlot;
use warm_stamps::{Bucket, ByteList};

// A node that has joined the histories of all nodes of closed shards.
fn joined(
    rt: &impl Abort,
    alloc: Global,
    shared: SharedShards<MemDevice>,
    attached: Attached<MemDevice>,
) -> Node<MemDevice>
    requires { AreOf shared attached.passes }
{
    let mut all = node(rt, alloc, 1);
    for one in closed(rt, alloc, shared, attached) {
        all.join(one.history())
            .ok()
            .expect(rt, "memory for entries");
    }
    all
}

// The bytes of a node's digests.
fn digests(rt: &impl Abort, alloc: Global, node: &mut Node<MemDevice>) -> Vec<u8> {
    let offer = node.offer().ok().expect(rt, "memory for digests");
    bytes_of(rt, alloc, &offer)
}

#[test]
fn a_thread_with_pins_stays(rt: HostRuntime) {
    let alloc = rt.alloc();
    let (shared, mut first) = shared_of(&rt, alloc, 1, 2);
    let absorbed = shared.absorb(&rt, alloc, &mut first, &batch(&rt, alloc, &[(0, 1, 2, 1)]));
    assert!(rt; absorbed.is_ok());
    let mut second = more(&rt, alloc, &shared, &mut first);
    let at = shared.pin(&rt, &mut second, page(1));
    let at = at.ok().expect(&rt, "page 1 is pinned");
    assert!(rt; at.shard == 1 && second.pins() == 1);
    let beyond = ShardSlot {
        shard: 2,
        slot: at.slot,
    };
    let stale = Err(SharedFault::Node(NodeFault::StaleSlot));
    assert!(rt; shared.unpin(&rt, &mut second, beyond) == stale);
    assert!(rt; shared.unpin(&rt, &mut first, at) == Err(SharedFault::NoPins));
    let Err(held) = shared.detach(&mut first, second) else {
        panic!(rt; "a pin is held")
    };
    let mut second = held.attached;
    assert!(rt; shared.unpin(&rt, &mut second, at).is_ok());
    assert!(rt; shared.detach(&mut first, second).is_ok());
}

// Absorbs a reference to a page, and writes a byte into it.
pub(crate) fn is_written<R: Wait + Abort>(
    rt: &R,
    alloc: Global,
    shared: &SharedShards<MemDevice>,
    attached: &mut Attached<MemDevice>,
    number: u64,
) -> bool
    requires { AreOf shared.now attached.old.passes }
    ensures { AreOf shared.now attached.new.passes }
{
    let touched = [seen(page(number), 1, 1)];
    if shared.absorb(rt, alloc, attached, &touched).is_err() {
        return false;
    }
    let Ok(at) = shared.pin(rt, attached, page(number)) else {
        return false;
    };
    let bytes = vec![in alloc; 7; 1].expect(rt, "memory for a byte");
    let written = shared.write(rt, attached, at, 0, ByteList::of(bytes));
    let unpinned = shared.unpin(rt, attached, at);
    written.is_ok() && unpinned.is_ok()
}

#[test]
fn bytes_are_read_into_a_vector(rt: HostRuntime) {
    let alloc = rt.alloc();
    let (shared, mut first) = shared_of(&rt, alloc, 1, 2);
    assert!(rt; is_written(&rt, alloc, &shared, &mut first, 1));
    let at = shared.pin(&rt, &mut first, page(1));
    let at = at.ok().expect(&rt, "page 1 is pinned");
    let mut into = vec![in alloc; 9; 2].expect(&rt, "memory for bytes");
    assert!(rt; shared.read_into(&rt, &mut first, at, 0, &mut into).is_ok());
    assert!(rt; into.as_slice() == [7, 0].as_slice());
    let beyond = Err(SharedFault::Node(NodeFault::Pool(PoolFault::OutOfPage)));
    assert!(rt; shared.read_into(&rt, &mut first, at, 15, &mut into) == beyond);
    assert!(rt; shared.unpin(&rt, &mut first, at).is_ok());
    let stale = Err(SharedFault::Node(NodeFault::StaleSlot));
    assert!(rt; shared.read_into(&rt, &mut first, at, 0, &mut into) == stale);
    assert!(rt; into.as_slice() == [7, 0].as_slice());
}

#[test]
fn pages_of_all_shards_are_written_back(rt: HostRuntime) {
    let alloc = rt.alloc();
    let (shared, mut first) = shared_of(&rt, alloc, 1, 4);
    assert!(rt; is_written(&rt, alloc, &shared, &mut first, 1));
    assert!(rt; is_written(&rt, alloc, &shared, &mut first, 2));
    assert!(rt; is_written(&rt, alloc, &shared, &mut first, 5));
    assert!(rt; shared.write_back_all(&rt, &mut first).is_ok());
    assert!(rt; dirty(&closed(&rt, alloc, shared, first)) == 0);
}

#[test]
fn pages_stay_dirty_until_they_are_written_back(rt: HostRuntime) {
    let alloc = rt.alloc();
    let (shared, mut first) = shared_of(&rt, alloc, 1, 4);
    assert!(rt; is_written(&rt, alloc, &shared, &mut first, 1));
    assert!(rt; shared.write_back_all(&rt, &mut first).is_ok());
    assert!(rt; is_written(&rt, alloc, &shared, &mut first, 2));
    assert!(rt; is_written(&rt, alloc, &shared, &mut first, 5));
    assert!(rt; dirty(&closed(&rt, alloc, shared, first)) == 2);
}

// References of many buckets and of two devices, some twice, and one that a later horizon forgets.
const GIVEN: &[SeenAt] = &[
    (0, 1, 10, 1),
    (0, 65, 12, 1),
    (0, 2, 20, 2),
    (1, 3, 30, 1),
    (0, 2, 25, 1),
    (0, 63, 31, 3),
    (1, 0, 5, 1),
];

// Sends a bucket, and has others take the entries in. Whether both were answered.
fn is_passed_on<R: Wait + Abort>(
    rt: &R,
    alloc: Global,
    shared: &SharedShards<MemDevice>,
    attached: &mut Attached<MemDevice>,
    others: &SharedShards<MemDevice>,
    attached_there: &mut Attached<MemDevice>,
    bucket: Bucket,
) -> bool
    requires these { AreOf shared.now attached.old.passes }
    requires those { AreOf others.now attached_there.old.passes }
    ensures these { AreOf shared.now attached.new.passes }
    ensures those { AreOf others.now attached_there.new.passes }
{
    let Ok(message) = shared.send(rt, attached, bucket, None) else {
        return false;
    };
    others.receive(rt, alloc, attached_there, &message).is_ok()
}

#[test]
fn what_is_sent_brings_the_history(rt: HostRuntime) {
    let alloc = rt.alloc();
    let given = batch(&rt, alloc, GIVEN);
    let (shared, mut first) = shared_of(&rt, alloc, 1, 4);
    let (others, mut there) = shared_of(&rt, alloc, 1, 2);
    assert!(rt; shared.absorb(&rt, alloc, &mut first, &given).is_ok());
    assert!(rt; shared.raise(&rt, &mut first, 6) == Ok(6));
    for bucket in Bucket::all() {
        assert!(rt; is_passed_on(&rt, alloc, &shared, &mut first, &others, &mut there, bucket));
    }
    let mut model = node(&rt, alloc, 1);
    model.absorb(&given).ok().expect(&rt, "memory for pages");
    let _horizon = model.raise(6);
    let mut all = joined(&rt, alloc, others, there);
    assert!(rt;
        digests(&rt, alloc, &mut all).as_slice() == digests(&rt, alloc, &mut model).as_slice()
    );
}

#[test]
fn a_bucket_is_sent_as_a_node_sends_it(rt: HostRuntime) {
    let alloc = rt.alloc();
    let given = batch(&rt, alloc, GIVEN);
    let (shared, mut first) = shared_of(&rt, alloc, 1, 4);
    let mut model = node(&rt, alloc, 1);
    assert!(rt; shared.absorb(&rt, alloc, &mut first, &given).is_ok());
    model.absorb(&given).ok().expect(&rt, "memory for pages");
    for bucket in Bucket::all() {
        let one = model.send(bucket, None).ok().expect(&rt, "the node sends");
        let all = shared
            .send(&rt, &mut first, bucket, None)
            .ok()
            .expect(&rt, "the shard sends");
        assert!(rt; bytes_of(&rt, alloc, &one) == bytes_of(&rt, alloc, &all));
    }
}
