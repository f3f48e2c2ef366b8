//! Shards give what one node with the same references gives.
use crate::kit::{batch, bytes_of, node, shards};
use std::alloc::Global;
use std::process::Abort;
use test_kit::{SeenAt, entry, once, page, replica, twice};
use warm_devices::MemDevice;
use warm_frames::{EntryList, Message, MessageList, decode};
use warm_gossip::Node;
use warm_shards::Shards;
use warm_stamps::{Bucket, BucketSet};

// Pages of many buckets and of three devices, some referenced twice, and one before the horizon.
const FIRST: &[SeenAt] = &[
    (0, 1, 10, 1),
    (0, 65, 12, 1),
    (0, 2, 20, 2),
    (1, 3, 30, 1),
    (0, 2, 25, 1),
    (0, 63, 31, 3),
    (2, 0, 5, 1),
];

const SECOND: &[SeenAt] = &[(0, 1, 40, 2), (0, 7, 41, 2), (3, 5, 42, 2), (0, 63, 9, 2)];

// What is sent of each bucket, and what is offered, byte for byte.
fn gives_the_same(
    rt: &impl Abort,
    alloc: Global,
    node: &mut Node<MemDevice>,
    shards: &mut Shards<MemDevice>,
) {
    let one = node.offer().ok().expect(rt, "the node offers");
    let all = shards.offer().ok().expect(rt, "the shards offer");
    assert!(rt; bytes_of(rt, alloc, &one) == bytes_of(rt, alloc, &all));
    for bucket in Bucket::all() {
        let one = node.send(bucket, None).ok().expect(rt, "the node sends");
        let all = shards.send(bucket, None).ok().expect(rt, "the shards send");
        assert!(rt; bytes_of(rt, alloc, &one) == bytes_of(rt, alloc, &all));
    }
}

fn same_answers(rt: &impl Abort, alloc: Global, one: &MessageList, all: &MessageList) -> bool {
    let one = one.as_slice();
    let all = all.as_slice();
    if one.len() != all.len() {
        return false;
    }
    for (message, other) in one.iter().zip(all) {
        if bytes_of(rt, alloc, message) != bytes_of(rt, alloc, other) {
            return false;
        }
    }
    true
}

// A message once more, as its receiver reads it.
fn again(rt: &impl Abort, alloc: Global, message: &Message) -> Message {
    decode(alloc, &bytes_of(rt, alloc, message))
        .ok()
        .expect(rt, "the bytes are a frame")
}

// Both receive the message, and answer it alike.
fn receive_alike(
    rt: &impl Abort,
    alloc: Global,
    node: &mut Node<MemDevice>,
    shards: &mut Shards<MemDevice>,
    message: &Message,
) {
    let first = again(rt, alloc, message);
    let second = again(rt, alloc, message);
    let one = node.receive(first).ok().expect(rt, "the node receives");
    let all = shards.receive(second).ok().expect(rt, "the shards receive");
    assert!(rt; same_answers(rt, alloc, &one, &all));
}

// Both would answer the message alike, and neither changes.
fn answer_alike(
    rt: &impl Abort,
    alloc: Global,
    node: &mut Node<MemDevice>,
    shards: &mut Shards<MemDevice>,
    message: &Message,
) {
    let horizon = shards.horizon();
    let one = node.answers(message).ok().expect(rt, "the node answers");
    let all = shards.answers(message).ok().expect(rt, "the shards answer");
    assert!(rt; same_answers(rt, alloc, &one, &all));
    assert!(rt; shards.horizon() == horizon);
}

// A request for all buckets at a horizon.
fn want(horizon: u64) -> Message {
    Message::Want {
        sender: replica(2),
        horizon,
        request: BucketSet::all(),
    }
}

// Digests of no entry, at a horizon.
fn digests(rt: &impl Abort, alloc: Global, horizon: u64) -> Message {
    let mut empty = node(rt, alloc, 2);
    empty.raise(horizon);
    empty.offer().ok().expect(rt, "an empty node offers")
}

// Entries of pages of several buckets in one message.
fn mixed(rt: &impl Abort, alloc: Global) -> Message {
    let mut entries = Vec::with_capacity(alloc, 3).expect(rt, "memory for entries");
    entries.push_reserved(entry(page(1), once(50, 2)));
    entries.push_reserved(entry(page(2), twice((51, 2), (20, 2))));
    entries.push_reserved(entry(page(7), once(52, 2)));
    match EntryList::of(entries) {
        Ok(entries) => Message::Entries {
            sender: replica(2),
            horizon: 9,
            entries,
        },
        Err(_) => panic!(rt; "the pages ascend"),
    }
}

fn beside_a_node(rt: &impl Abort, alloc: Global, count: usize) {
    let mut one = node(rt, alloc, 1);
    let mut all = shards(rt, alloc, 1, count);
    let first = batch(rt, alloc, FIRST);
    one.absorb(&first).ok().expect(rt, "the node absorbs");
    all.absorb(&first).ok().expect(rt, "the shards absorb");
    gives_the_same(rt, alloc, &mut one, &mut all);
    assert!(rt; one.raise(6) == all.raise(6));
    gives_the_same(rt, alloc, &mut one, &mut all);
    let listed = one.warm_list(5).ok().expect(rt, "the node lists");
    let together = all.warm_list(5).ok().expect(rt, "the shards list");
    assert!(rt; listed.as_slice() == together.as_slice());

    // Another replica, with other references: its digests are those of buckets of every shard.
    let mut other = node(rt, alloc, 2);
    let second = batch(rt, alloc, SECOND);
    other.absorb(&second).ok().expect(rt, "the other absorbs");
    let offered = other.offer().ok().expect(rt, "the other offers");
    answer_alike(rt, alloc, &mut one, &mut all, &offered);
    receive_alike(rt, alloc, &mut one, &mut all, &offered);
    answer_alike(rt, alloc, &mut one, &mut all, &want(0));
    answer_alike(rt, alloc, &mut one, &mut all, &want(26));
    answer_alike(rt, alloc, &mut one, &mut all, &digests(rt, alloc, 26));
    gives_the_same(rt, alloc, &mut one, &mut all);
    receive_alike(rt, alloc, &mut one, &mut all, &want(8));
    for bucket in Bucket::all() {
        let sent = other.send(bucket, None).ok().expect(rt, "the other sends");
        receive_alike(rt, alloc, &mut one, &mut all, &sent);
    }
    gives_the_same(rt, alloc, &mut one, &mut all);
    assert!(rt; all.horizon() == 8);
    answer_alike(rt, alloc, &mut one, &mut all, &mixed(rt, alloc));
    receive_alike(rt, alloc, &mut one, &mut all, &mixed(rt, alloc));
    gives_the_same(rt, alloc, &mut one, &mut all);
    assert!(rt; all.horizon() == 9);
}

#[test]
fn one_shard_is_a_node(rt: HostRuntime) {
    beside_a_node(&rt, rt.alloc(), 1);
}

#[test]
fn four_shards_are_a_node(rt: HostRuntime) {
    beside_a_node(&rt, rt.alloc(), 4);
}

#[test]
fn as_many_shards_as_buckets_are_a_node(rt: HostRuntime) {
    beside_a_node(&rt, rt.alloc(), 64);
}

// All answers of one go to the other, which gives its own.
fn exchange(
    rt: &impl Abort,
    alloc: Global,
    from: &MessageList,
    to: &mut Shards<MemDevice>,
) -> MessageList {
    let mut given = Vec::new(alloc);
    for message in from.as_slice() {
        let answers = to
            .receive(again(rt, alloc, message))
            .ok()
            .expect(rt, "the shards receive");
        let mut answers = answers.into_vec();
        given
            .append(&mut answers)
            .ok()
            .expect(rt, "memory for answers");
    }
    MessageList::of(given)
}

#[test]
fn eight_shards_and_two_agree_after_a_round(rt: HostRuntime) {
    let alloc = rt.alloc();
    let mut eight = shards(&rt, alloc, 1, 8);
    let mut two = shards(&rt, alloc, 2, 2);
    eight
        .absorb(&batch(&rt, alloc, FIRST))
        .ok()
        .expect(&rt, "eight absorb");
    two.absorb(&batch(&rt, alloc, SECOND))
        .ok()
        .expect(&rt, "two absorb");
    let offer = eight.offer().ok().expect(&rt, "eight offer");
    let asked = two.receive(offer).ok().expect(&rt, "two answer");
    let given = exchange(&rt, alloc, &asked, &mut eight);
    let last = exchange(&rt, alloc, &given, &mut two);
    assert!(rt; last.as_slice().is_empty());
    let one = eight.history().ok().expect(&rt, "a copy of eight");
    let other = two.history().ok().expect(&rt, "a copy of two");
    assert!(rt; one.len() == 8);
    assert!(rt; other.len() == 8);
    for index in 0..8 {
        assert!(rt; one.at(index) == other.at(index));
    }
}

#[test]
fn a_history_is_joined(rt: HostRuntime) {
    let alloc = rt.alloc();
    let mut from = node(&rt, alloc, 1);
    from.absorb(&batch(&rt, alloc, FIRST))
        .ok()
        .expect(&rt, "the node absorbs");
    from.raise(11);
    let mut to = shards(&rt, alloc, 1, 4);
    to.join(from.history()).ok().expect(&rt, "the shards join");
    gives_the_same(&rt, alloc, &mut from, &mut to);
    let mut alone = shards(&rt, alloc, 1, 1);
    alone
        .join(from.history())
        .ok()
        .expect(&rt, "one shard joins");
    gives_the_same(&rt, alloc, &mut from, &mut alone);
    assert!(rt; to.shard_of(page(63)) == 3);
    assert!(rt; to.id() == replica(1));
}
