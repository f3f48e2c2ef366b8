//! Calls of a node with no data, and with the greatest sizes.

use super::{
    Row, Said, Sent, answer, answers, fresh, has_bytes, lives, message_of, over, runs, says, slot,
};
use std::alloc::Global;
use std::process::Abort;
use test_kit::{page, seen};
use warm_devices::MemDevice;
use warm_frames::{Message, MessageList};
use warm_gossip::{Call, Node, NodeFault};
use warm_pool::PoolFault;
use warm_stamps::{ByteList, RefList};

const NOTHING: &[Row] = &[
    Row::Absorbs(&[]),
    Row::Hottest(&[]),
    Row::Loads(Said::Loaded(None)),
    Row::Receives(Sent::Entries(0, &[]), &[]),
    Row::Receives(Sent::Digests(0, &[]), &[]),
    Row::Receives(Sent::Request(0, u64::MAX), &[]),
    Row::Restarts,
    Row::Absorbs(&[(0, 1, 1, 1)]),
    Row::Absorbs(&[]),
    Row::Hottest(&[]),
    Row::Receives(Sent::Entries(0, &[]), &[]),
    Row::Receives(Sent::Digests(0, &[(0, 1, 1, 1)]), &[]),
    Row::Receives(Sent::Request(0, 0), &[]),
    Row::Knows(0, &[(1, 1, 0)]),
    Row::Pins(1, Said::Pinned(0, 1)),
    Row::Writes(0, 1, &[]),
    Row::Reads(0, 1, &[]),
];

#[test]
fn calls_may_be_of_nothing(rt: HostRuntime) {
    lives(&rt, rt.alloc(), NOTHING)
}

#[test]
fn a_page_is_read_and_written_whole(rt: HostRuntime) {
    let alloc = rt.alloc();
    let device = MemDevice::new(alloc, 1, 65_536).expect(&rt, "memory for a device");
    let mut node = over(&rt, alloc, 1, 1, device);
    assert!(rt; says(&mut node, Call::Pin(page(0))) == Said::Pinned(0, 1));
    let (slot, at) = (slot(0, 1), 0);
    let wanted = vec![in alloc; 7u8; 65_536].expect(&rt, "memory for the bytes");
    let bytes = vec![in alloc; 7u8; 65_536].expect(&rt, "memory for the bytes");
    let bytes = ByteList::of(bytes);
    assert!(rt; says(&mut node, Call::Write { slot, at, bytes }) == Said::Done);
    let len = 65_536;
    let read = answer(&mut node, Call::Read { slot, at, len });
    assert!(rt; has_bytes(read, wanted.as_slice()));
}

// Reads into a buffer of four bytes, which are all 9 before: the slot's generation, the first byte
// of the page, why the read is refused, and the buffer's bytes after it. The page has 65,536 bytes,
// 1 to 4 first and then 0.
const READS_INTO: [(u64, usize, Option<NodeFault>, [u8; 4]); 5] = [
    (1, 0, None, [1, 2, 3, 4]),
    (1, 2, None, [3, 4, 0, 0]),
    (1, 65_532, None, [0, 0, 0, 0]),
    (
        1,
        65_533,
        Some(NodeFault::Pool(PoolFault::OutOfPage)),
        [9, 9, 9, 9],
    ),
    (2, 65_533, Some(NodeFault::StaleSlot), [9, 9, 9, 9]),
];

#[test]
fn bytes_are_read_into_a_buffer(rt: HostRuntime) {
    let alloc = rt.alloc();
    let device = MemDevice::new(alloc, 1, 65_536).expect(&rt, "memory for a device");
    let mut node = over(&rt, alloc, 1, 1, device);
    let rows = [
        Row::Pins(0, Said::Pinned(0, 1)),
        Row::Writes(0, 1, &[1, 2, 3, 4]),
    ];
    runs(&rt, alloc, &mut node, &rows);
    for (generation, at, wanted, bytes) in READS_INTO {
        let mut into = [9u8; 4];
        let refused = node.read_into(slot(0, generation), at, &mut into).err();
        assert!(rt; refused == wanted && into == bytes);
    }
}

// Node 1 with a history of this many pages: their numbers rise by `spread` from 0 on, and each was
// referenced at the time of its place in the list.
fn knowing(rt: &impl Abort, alloc: Global, count: u64, spread: u64) -> Node<MemDevice> {
    let mut batch = Vec::new(alloc);
    for place in 0..count {
        let reference = seen(page(place.wrapping_mul(spread)), place, 1);
        batch.push(reference).expect(rt, "memory for a reference");
    }
    let mut node = fresh(rt, alloc, 1);
    assert!(rt; says(&mut node, Call::Absorb(RefList::of(batch))) == Said::Done);
    node
}

// The number of entries of each message that a node receives. These get no answer, and the request
// after them gets as many messages.
fn brought(
    rt: &impl Abort,
    alloc: Global,
    node: &mut Node<MemDevice>,
    given: MessageList,
) -> Vec<usize> {
    let mut sizes = Vec::new(alloc);
    for message in given.into_vec() {
        let mut count = sizes.len();
        if let Message::Entries { entries, .. } = &message {
            let size = entries.as_slice().len();
            sizes.push(size).expect(rt, "memory for a number");
            count = 0;
        }
        assert!(rt; answers(rt, node, message).as_slice().len() == count);
    }
    sizes
}

// A test case: the number of pages of a node's history, the distance between their numbers, the
// number of messages that answer the digests of an empty history, and the number of entries of each
// but the request, which is the last.
const ANSWERS: [(u64, u64, usize, &[usize]); 5] = [
    (0, 64, 0, &[]),
    (999, 64, 2, &[999]),
    (1000, 64, 2, &[1000]),
    (1001, 64, 3, &[1000, 1]),
    (64, 1, 65, &[1; 64]),
];

#[test]
fn answers_bring_up_to_1000_entries_of_up_to_64_buckets(rt: HostRuntime) {
    let alloc = rt.alloc();
    for (count, spread, messages, wanted) in ANSWERS {
        let offer = message_of(&rt, alloc, Sent::Digests(0, &[]));
        let given = answers(&rt, &mut knowing(&rt, alloc, count, spread), offer);
        assert!(rt; given.as_slice().len() == messages);
        let mut other = fresh(&rt, alloc, 2);
        assert!(rt; brought(&rt, alloc, &mut other, given).as_slice() == wanted);
        assert!(rt; other.history().len() as u64 == count);
    }
}
