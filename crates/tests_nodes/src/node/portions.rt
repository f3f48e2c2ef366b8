//! What a node sends of a bucket since a time, in portions.

use super::{answers, fresh};
use std::alloc::Global;
use std::process::Abort;
use test_kit::{bucket, page, seen};
use warm_devices::MemDevice;
use warm_frames::Message;
use warm_gossip::Node;
use warm_peer::SentPortion;
use warm_stamps::{PageId, Reference};

// Absorbs references to the first pages of bucket 0, as many as this, at a time.
fn absorbs(rt: &impl Abort, alloc: Global, node: &mut Node<MemDevice>, pages: u64, time: u64) {
    let mut batch: Vec<Reference> = Vec::new(alloc);
    for no in 0..pages {
        batch
            .push(seen(page(no.saturating_mul(64)), time, 1))
            .expect(rt, "memory for a reference");
    }
    node.absorb(&batch).ok().expect(rt, "memory for references");
}

// The portion of bucket 0 since a time, after a page.
fn sent(rt: &impl Abort, node: &Node<MemDevice>, since: u64, after: Option<PageId>) -> SentPortion {
    node.send_since(bucket(0), since, after)
        .ok()
        .expect(rt, "memory for a message")
}

// The number of entries of a message.
fn count(message: &Message) -> usize {
    match message {
        Message::Entries { entries, .. } => entries.as_slice().len(),
        Message::Digest { .. } | Message::Want { .. } => 0,
    }
}

fn last_page(message: &Message) -> Option<PageId> {
    match message {
        Message::Entries { entries, .. } => entries.as_slice().last().map(|known| known.page),
        Message::Digest { .. } | Message::Want { .. } => None,
    }
}

#[test]
fn sends_in_portions_what_is_new_since_a_time(rt: HostRuntime) {
    let mut node = fresh(&rt, rt.alloc(), 1);
    absorbs(&rt, rt.alloc(), &mut node, 1_300, 4);
    absorbs(&rt, rt.alloc(), &mut node, 1_200, 9);
    node.raise(2);
    let first = sent(&rt, &node, 5, None);
    assert!(rt; first.more && count(&first.message) == 1_000);
    assert!(rt; first.message.horizon() == 2);
    let second = sent(&rt, &node, 5, last_page(&first.message));
    assert!(rt; !second.more && count(&second.message) == 200);
    let mut other = fresh(&rt, rt.alloc(), 2);
    let SentPortion { message, more: _ } = first;
    assert!(rt; answers(&rt, &mut other, message).as_slice().is_empty());
    let SentPortion { message, more: _ } = second;
    assert!(rt; answers(&rt, &mut other, message).as_slice().is_empty());
    assert!(rt; other.history().len() == 1_200);
    assert!(rt; other.history().horizon() == 2);
    assert!(rt; other.history().get(page(64)) == node.history().get(page(64)));
}

#[test]
fn nothing_is_new_past_the_last_stamp(rt: HostRuntime) {
    let mut node = fresh(&rt, rt.alloc(), 1);
    let nothing = sent(&rt, &node, 0, None);
    assert!(rt; !nothing.more && count(&nothing.message) == 0);
    absorbs(&rt, rt.alloc(), &mut node, 1_000, 9);
    let all = sent(&rt, &node, 9, None);
    assert!(rt; !all.more && count(&all.message) == 1_000);
    let past = sent(&rt, &node, 10, None);
    assert!(rt; !past.more && count(&past.message) == 0);
}
