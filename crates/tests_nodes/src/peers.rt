//! A peer alone: a history without a pool, which other replicas meet as that of a node.

use std::alloc::Global;
use std::process::Abort;
use test_kit::{SeenAt, bucket, entry, history_of, once, page, references, replica, twice};
use warm_frames::Message;
use warm_history::Entry;
use warm_peer::Peer;
use warm_stamps::{Bucket, BucketSet};

// A peer that absorbed these references.
fn knowing(rt: &impl Abort, alloc: Global, number: u16, known: &[SeenAt]) -> Peer {
    let batch = references(alloc, known).expect(rt, "memory for the batch");
    let mut peer = Peer::new(alloc, replica(number));
    let _changed = peer.absorb(&batch).expect(rt, "memory is ample");
    peer
}

// Whether a peer has this horizon, and exactly these entries.
fn has(peer: &Peer, horizon: u64, wanted: &[Entry]) -> bool {
    for (place, entry) in wanted.iter().enumerate() {
        if peer.history().at(place) != Some(*entry) {
            return false;
        }
    }
    peer.history().len() == wanted.len() && peer.horizon() == horizon
}

// Whether a message has this sender, this horizon, and exactly these entries.
fn brings(message: &Message, number: u16, horizon: u64, wanted: &[Entry]) -> bool {
    let Message::Entries {
        sender,
        horizon: kept_from,
        entries,
    } = message
    else {
        return false;
    };
    *sender == replica(number) && *kept_from == horizon && entries.as_slice() == wanted
}

// All answers of a peer to these messages.
fn told(rt: &impl Abort, alloc: Global, peer: &mut Peer, messages: Vec<Message>) -> Vec<Message> {
    let mut answers = Vec::new(alloc);
    for message in messages {
        let given = peer.receive(message).expect(rt, "memory is ample");
        let mut given = given.into_vec();
        answers
            .append(&mut given)
            .expect(rt, "memory for the answers");
    }
    answers
}

fn offered(rt: &impl Abort, alloc: Global, peer: &mut Peer) -> Vec<Message> {
    let offer = peer.offer().expect(rt, "memory is ample");
    let mut messages = Vec::new(alloc);
    messages.push(offer).ok().expect(rt, "memory for a message");
    messages
}

// Page 0:2 was referenced before the horizon of the second peer, and is forgotten.
#[test]
fn a_round_joins_two_peers(rt: HostRuntime) {
    let alloc = rt.alloc();
    let mut first = knowing(&rt, alloc, 1, &[(0, 1, 10, 1), (0, 2, 4, 1)]);
    let mut second = knowing(&rt, alloc, 2, &[(0, 1, 20, 2), (0, 66, 6, 2)]);
    assert!(rt; second.raise(5).is_empty());
    let offer = offered(&rt, alloc, &mut first);
    let asked = told(&rt, alloc, &mut second, offer);
    assert!(rt; asked.len() == 3); // two buckets, and a request for both
    let given = told(&rt, alloc, &mut first, asked);
    let last = told(&rt, alloc, &mut second, given);
    assert!(rt; last.is_empty());
    let both = [
        entry(page(1), twice((20, 2), (10, 1))),
        entry(page(66), once(6, 2)),
    ];
    assert!(rt; has(&first, 5, &both));
    assert!(rt; has(&second, 5, &both));
}

// The messages of a bucket, sent whole.
fn whole(rt: &impl Abort, peer: &Peer, bucket: Bucket) -> Vec<Message> {
    peer.send_bucket(bucket).expect(rt, "memory is ample")
}

// At the horizon 10 bucket 1 has lost a stamp of page 0:1, and bucket 2 its only page.
#[test]
fn buckets_are_sent_at_the_horizon(rt: HostRuntime) {
    let alloc = rt.alloc();
    let known = [(0, 1, 5, 3), (0, 1, 20, 3), (0, 65, 30, 3), (0, 2, 9, 3)];
    let mut peer = knowing(&rt, alloc, 3, &known);
    assert!(rt; peer.raise(10) == BucketSet::from_bits(0b110));
    let both = [entry(page(1), once(20, 3)), entry(page(65), once(30, 3))];
    let messages = whole(&rt, &peer, bucket(1));
    let [only] = messages.as_slice() else {
        panic!(rt; "two entries are one message");
    };
    assert!(rt; brings(only, 3, 10, &both));
    assert!(rt; whole(&rt, &peer, bucket(2)).is_empty());
    let rest = peer.send(bucket(1), Some(page(1)));
    let rest = rest.expect(&rt, "memory is ample");
    assert!(rt; brings(&rest, 3, 10, &[entry(page(65), once(30, 3))]));
    let none = peer.send(bucket(2), None).expect(&rt, "memory is ample");
    assert!(rt; brings(&none, 3, 10, &[]));
}

// What is taken in changes buckets 1 and 2; a second time it changes none.
#[test]
fn entries_and_histories_are_taken_in(rt: HostRuntime) {
    let alloc = rt.alloc();
    let mut peer = knowing(&rt, alloc, 3, &[(0, 1, 5, 3)]);
    let other = history_of(alloc, &[(0, 1, 8, 1), (0, 2, 6, 1)]).expect(&rt, "memory is ample");
    let changed = peer.join(&other).expect(&rt, "memory is ample");
    assert!(rt; changed == BucketSet::from_bits(0b110));
    let again = peer.join(&other).expect(&rt, "memory is ample");
    assert!(rt; again.is_empty());
    let both = [
        entry(page(1), twice((8, 1), (5, 3))),
        entry(page(2), once(6, 1)),
    ];
    assert!(rt; has(&peer, 0, &both));
    let later = [entry(page(1), once(9, 2))];
    let changed = peer.join_entries(7, &later).expect(&rt, "memory is ample");
    assert!(rt; changed == BucketSet::from_bits(0b110));
    assert!(rt; has(&peer, 7, &[entry(page(1), twice((9, 2), (8, 1)))]));
}

// A cleared peer takes in stamps from before its former horizon.
#[test]
fn a_cleared_peer_is_a_new_one(rt: HostRuntime) {
    let alloc = rt.alloc();
    let mut peer = knowing(&rt, alloc, 3, &[(0, 1, 5, 3)]);
    let _lost = peer.raise(50);
    peer.clear();
    assert!(rt; peer.id() == replica(3));
    assert!(rt; has(&peer, 0, &[]));
    let entries = [entry(page(1), once(9, 2))];
    let _changed = peer
        .join_entries(0, &entries)
        .expect(&rt, "memory is ample");
    assert!(rt; has(&peer, 0, &entries));
}
