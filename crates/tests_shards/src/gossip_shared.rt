//! Replicas whose shards threads share, of different numbers of shards, exchange their histories by
//! messages alone.
ghost use Rattle.warm_concurrent.specs.Attached.{AreOf};

use crate::kit::{batch, bytes_of, node, shared_of};
use std::alloc::Global;
use std::process::Abort;
use std::sync::Wait;
use test_kit::{SeenAt, bucket, page, replica};
use warm_concurrent::{Attached, SharedShards};
use warm_devices::MemDevice;
use warm_frames::{Message, MessageList};
use warm_gossip::Node;
use warm_stamps::BucketSet;

// Pages of many buckets and of three devices, some referenced twice.
const FIRST: &[SeenAt] = &[
    (0, 1, 10, 1),
    (0, 65, 12, 1),
    (0, 2, 20, 2),
    (1, 3, 30, 1),
    (0, 2, 25, 1),
    (0, 63, 31, 3),
    (2, 0, 5, 1),
];

const SECOND: &[SeenAt] = &[(0, 1, 40, 2), (0, 7, 41, 2), (3, 5, 42, 2), (0, 63, 9, 2)];

// A replica takes messages in. Returns its answers to all of them, in order, or `None` if it
// refuses one.
fn answers<R: Wait + Abort>(
    rt: &R,
    alloc: Global,
    shared: &SharedShards<MemDevice>,
    attached: &mut Attached<MemDevice>,
    messages: &[Message],
) -> Option<Vec<Message>>
    requires { AreOf shared.now attached.old.passes }
    ensures { AreOf shared.now attached.new.passes }
{
    let mut all = Vec::new(alloc);
    for message in messages {
        let Ok(given) = shared.receive(rt, alloc, attached, message) else {
            return None;
        };
        let mut given = given.into_vec();
        all.append(&mut given).expect(rt, "memory for messages");
    }
    Some(all)
}

// One replica offers, the other answers, and so on until there is no answer. Returns how many
// messages were exchanged after the offer.
fn exchanged<R: Wait + Abort>(
    rt: &R,
    alloc: Global,
    one: &SharedShards<MemDevice>,
    here: &mut Attached<MemDevice>,
    two: &SharedShards<MemDevice>,
    there: &mut Attached<MemDevice>,
) -> Option<usize>
    requires { (AreOf one.now here.old.passes) × (AreOf two.now there.old.passes) }
    ensures { (AreOf one.now here.new.passes) × (AreOf two.now there.new.passes) }
{
    let Ok(offer) = one.offer(rt, alloc, here) else {
        return None;
    };
    let Ok(first) = two.receive(rt, alloc, there, &offer) else {
        return None;
    };
    let second = answers(rt, alloc, one, here, first.as_slice())?;
    let third = answers(rt, alloc, two, there, second.as_slice())?;
    assert!(rt; third.is_empty());
    Some(first.as_slice().len().wrapping_add(second.len()))
}

// The bytes of what shards offer together, as from replica 1.
fn offered<R: Wait + Abort>(
    rt: &R,
    alloc: Global,
    shared: &SharedShards<MemDevice>,
    attached: &mut Attached<MemDevice>,
) -> Vec<u8>
    requires { AreOf shared.now attached.old.passes }
    ensures { AreOf shared.now attached.new.passes }
{
    let offer = shared.offer(rt, alloc, attached);
    let offer = offer.ok().expect(rt, "memory for digests");
    bytes_of(rt, alloc, &from_first(rt, offer))
}

// The same digests, as of replica 1.
fn from_first(rt: &impl Abort, offer: Message) -> Message {
    let Message::Digest {
        horizon,
        digests,
        ..
    } = offer
    else {
        panic!(rt; "an offer is of digests")
    };
    Message::Digest {
        sender: replica(1),
        horizon,
        digests,
    }
}

// A node that has absorbed both batches, at this horizon.
fn model(rt: &impl Abort, alloc: Global, horizon: u64) -> Node<MemDevice> {
    let mut one = node(rt, alloc, 1);
    one.absorb(&batch(rt, alloc, FIRST))
        .ok()
        .expect(rt, "memory for pages");
    one.absorb(&batch(rt, alloc, SECOND))
        .ok()
        .expect(rt, "memory for pages");
    let _horizon = one.raise(horizon);
    one
}

// Two replicas of these numbers of shards: each is given a batch of its own, one has a later
// horizon, and they exchange their histories. Both then have the history of one node.
fn agree(rt: &(impl Wait + Abort), alloc: Global, first: usize, second: usize) {
    let (one, mut here) = shared_of(rt, alloc, 1, first);
    let (two, mut there) = shared_of(rt, alloc, 2, second);
    assert!(rt;
        one.absorb(rt, alloc, &mut here, &batch(rt, alloc, FIRST))
            .is_ok()
    );
    assert!(rt;
        two.absorb(rt, alloc, &mut there, &batch(rt, alloc, SECOND))
            .is_ok()
    );
    assert!(rt; two.raise(rt, &mut there, 10) == Ok(10));
    let some = exchanged(rt, alloc, &one, &mut here, &two, &mut there);
    assert!(rt; some != None && some != Some(0));
    let mut model = model(rt, alloc, 10);
    let wanted = model.offer().ok().expect(rt, "memory for digests");
    let wanted = bytes_of(rt, alloc, &wanted);
    assert!(rt; offered(rt, alloc, &one, &mut here).as_slice() == wanted.as_slice());
    assert!(rt; offered(rt, alloc, &two, &mut there).as_slice() == wanted.as_slice());
    let none = exchanged(rt, alloc, &two, &mut there, &one, &mut here);
    assert!(rt; none == Some(0));
}

#[test]
fn four_shards_and_one_agree(rt: HostRuntime) {
    agree(&rt, rt.alloc(), 4, 1);
}

#[test]
fn one_shard_and_four_agree(rt: HostRuntime) {
    agree(&rt, rt.alloc(), 1, 4);
}

#[test]
fn four_shards_and_two_agree(rt: HostRuntime) {
    agree(&rt, rt.alloc(), 4, 2);
}

// A request for all buckets, at a horizon.
fn want_all(horizon: u64) -> Message {
    Message::Want {
        sender: replica(2),
        horizon,
        request: BucketSet::all(),
    }
}

// What shards that were given the first batch answer to a message.
fn answers_of(
    rt: &(impl Wait + Abort),
    alloc: Global,
    count: usize,
    message: &Message,
) -> MessageList {
    let (shared, mut attached) = shared_of(rt, alloc, 1, count);
    assert!(rt;
        shared
            .absorb(rt, alloc, &mut attached, &batch(rt, alloc, FIRST))
            .is_ok()
    );
    let given = shared.receive(rt, alloc, &mut attached, message);
    let given = given.ok().expect(rt, "memory for messages");
    assert!(rt; shared.horizon(rt, &mut attached) == Ok(message.horizon()));
    given
}

// What a node that was given the first batch answers to a message.
fn node_answers(rt: &impl Abort, alloc: Global, message: Message) -> MessageList {
    let mut one = node(rt, alloc, 1);
    one.absorb(&batch(rt, alloc, FIRST))
        .ok()
        .expect(rt, "memory for pages");
    one.receive(message).ok().expect(rt, "memory for messages")
}

// Whether the lists have the same messages, in any order. No message is there twice.
fn same_messages(rt: &impl Abort, alloc: Global, these: &MessageList, those: &MessageList) -> bool {
    let these = these.as_slice();
    let those = those.as_slice();
    if these.len() != those.len() {
        return false;
    }
    for message in these {
        let bytes = bytes_of(rt, alloc, message);
        let mut found = false;
        for other in those {
            if bytes_of(rt, alloc, other).as_slice() == bytes.as_slice() {
                found = true;
            }
        }
        if !found {
            return false;
        }
    }
    true
}

// Whether both lists have the same messages, in order.
fn are_alike(rt: &impl Abort, alloc: Global, these: &MessageList, those: &MessageList) -> bool {
    let these = these.as_slice();
    let those = those.as_slice();
    if these.len() != those.len() {
        return false;
    }
    for (message, other) in these.iter().zip(those) {
        if bytes_of(rt, alloc, message) != bytes_of(rt, alloc, other) {
            return false;
        }
    }
    true
}

// What shards that were given the first batch would answer to a message. It changes nothing.
fn asked(rt: &(impl Wait + Abort), alloc: Global, count: usize, message: &Message) -> MessageList {
    let (shared, mut attached) = shared_of(rt, alloc, 1, count);
    assert!(rt;
        shared
            .absorb(rt, alloc, &mut attached, &batch(rt, alloc, FIRST))
            .is_ok()
    );
    let before = offered(rt, alloc, &shared, &mut attached);
    let given = shared.answers(rt, alloc, &mut attached, message);
    assert!(rt; shared.horizon(rt, &mut attached) == Ok(0));
    assert!(rt; offered(rt, alloc, &shared, &mut attached) == before);
    given.ok().expect(rt, "memory for messages")
}

#[test]
fn a_request_would_be_answered_as_by_a_node(rt: HostRuntime) {
    let alloc = rt.alloc();
    // The later horizon forgets one reference.
    let wanted = node_answers(&rt, alloc, want_all(11));
    assert!(rt; wanted.as_slice().len() == 4);
    for count in [1, 4, 64] {
        let given = asked(&rt, alloc, count, &want_all(11));
        assert!(rt; are_alike(&rt, alloc, &given, &wanted));
    }
}

#[test]
fn digests_would_be_answered_as_by_a_node(rt: HostRuntime) {
    let alloc = rt.alloc();
    let wanted = node_answers(&rt, alloc, empty_offer(&rt, alloc));
    assert!(rt; matches!(wanted.as_slice().last(), Some(Message::Want { .. })));
    for count in [1, 8] {
        let given = asked(&rt, alloc, count, &empty_offer(&rt, alloc));
        assert!(rt; are_alike(&rt, alloc, &given, &wanted));
    }
}

#[test]
fn entries_would_not_be_answered(rt: HostRuntime) {
    let alloc = rt.alloc();
    let mut from = node(&rt, alloc, 2);
    from.absorb(&batch(&rt, alloc, SECOND))
        .ok()
        .expect(&rt, "memory for pages");
    let sent = from.send(bucket(7), None).ok().expect(&rt, "a message");
    assert!(rt; asked(&rt, alloc, 4, &sent).as_slice().is_empty());
}

#[test]
fn all_buckets_are_answered_as_by_a_node(rt: HostRuntime) {
    let alloc = rt.alloc();
    let wanted = node_answers(&rt, alloc, want_all(11));
    let one = answers_of(&rt, alloc, 1, &want_all(11));
    let four = answers_of(&rt, alloc, 4, &want_all(11));
    assert!(rt; wanted.as_slice().len() == 4);
    assert!(rt; are_alike(&rt, alloc, &one, &wanted));
    assert!(rt; same_messages(&rt, alloc, &four, &wanted));
}

// Digests of a replica with no entries: those of each bucket that has entries elsewhere differ.
fn empty_offer(rt: &impl Abort, alloc: Global) -> Message {
    let mut empty = node(rt, alloc, 2);
    empty.offer().ok().expect(rt, "memory for digests")
}

#[test]
fn digests_are_answered_as_by_a_node(rt: HostRuntime) {
    let alloc = rt.alloc();
    let wanted = node_answers(&rt, alloc, empty_offer(&rt, alloc));
    let one = answers_of(&rt, alloc, 1, &empty_offer(&rt, alloc));
    let eight = answers_of(&rt, alloc, 8, &empty_offer(&rt, alloc));
    assert!(rt; are_alike(&rt, alloc, &one, &wanted));
    assert!(rt; same_messages(&rt, alloc, &eight, &wanted));
    let eight = eight.as_slice();
    assert!(rt; matches!(eight.last(), Some(Message::Want { .. })));
}

// A reference to a page of each bucket.
fn all_buckets<R: Wait + Abort>(
    rt: &R,
    alloc: Global,
    shared: &SharedShards<MemDevice>,
    attached: &mut Attached<MemDevice>,
) -> bool
    requires { AreOf shared.now attached.old.passes }
    ensures { AreOf shared.now attached.new.passes }
{
    let mut all = Vec::new(alloc);
    for number in 0..64 {
        all.push(test_kit::seen(page(number), 50, 1))
            .expect(rt, "memory for a batch");
    }
    shared.absorb(rt, alloc, attached, &all).is_ok()
}

#[test]
fn all_buckets_differ(rt: HostRuntime) {
    let alloc = rt.alloc();
    let (one, mut here) = shared_of(&rt, alloc, 1, 4);
    let (two, mut there) = shared_of(&rt, alloc, 2, 64);
    assert!(rt; all_buckets(&rt, alloc, &one, &mut here));
    assert!(rt; exchanged(&rt, alloc, &two, &mut there, &one, &mut here) == Some(129));
    assert!(rt; exchanged(&rt, alloc, &one, &mut here, &two, &mut there) == Some(0));
}
