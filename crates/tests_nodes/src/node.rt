//! One node: lists of calls, each with its expected reply.
//!
//! Each call is in a function of its own, so that the proof of a test does not grow with its test
//! cases (`Row`). What must not fail ends the process if it does: a `?` would be one more exit
//! path, on which the drops of all owned values are proved.

mod dropped;
mod engine;
mod formats;
mod horizons;
mod joins;
mod portions;
mod retired;
mod sizes;
mod streams;
mod warm_ups;

use std::alloc::Global;
use std::process::Abort;
use test_kit::{
    SeenAt, alone, entry, flaky, history_of, memory, once, page, references, replica, twice,
};
use warm_devices::{MemDevice, PageDevice};
use warm_digest::digests;
use warm_frames::{EntryList, Message, MessageList, encode};
use warm_gossip::{Call, Node, NodeFault, Reply};
use warm_history::{History, PageHist};
use warm_pool::{Pool, PoolFault, Slot};
use warm_stamps::{BucketSet, ByteList, PageId, RefList};

const fn slot(index: u32, generation: u64) -> Slot {
    Slot { index, generation }
}

// A node of a replica with this many frames for the pages of a device.
fn over<D: PageDevice>(
    rt: &impl Abort,
    alloc: Global,
    number: u16,
    frames: usize,
    device: D,
) -> Node<D> {
    let page_size = device.page_size();
    let devices = alone(alloc, device).expect(rt, "memory for a list");
    match Pool::new(alloc, frames, page_size, devices) {
        Ok(pool) => Node::new(alloc, replica(number), pool),
        Err(_) => panic!(rt; "no pool"),
    }
}

// A node of four frames over a device of 256 pages.
fn fresh(rt: &impl Abort, alloc: Global, number: u16) -> Node<MemDevice> {
    let device = memory(alloc, 256).expect(rt, "memory for a device");
    over(rt, alloc, number, 4, device)
}

// The short replies of a node. Pages are those of device 0.
#[derive(Clone, Copy, PartialEq)]
enum Said {
    Done,
    Refused(NodeFault),
    // The index and the generation of the slot of a pinned page.
    Pinned(u32, u64),
    // The next victim.
    Leaves(Option<u64>),
    // The page that a step of the warm-up loads.
    Loaded(Option<u64>),
    // The time before which stamps are forgotten.
    Kept(u64),
    // A long reply: frames, pages or bytes.
    Long,
}

const ALL_FIXED: Said = Said::Refused(NodeFault::Pool(PoolFault::AllFixed));

const NO_PAGE: Said = Said::Refused(NodeFault::Pool(PoolFault::NoPage));

const READ_FAULT: Said = Said::Refused(NodeFault::Pool(PoolFault::ReadFault));

fn number_of(page: Option<PageId>) -> Option<u64> {
    match page {
        Some(page) => Some(page.no),
        None => None,
    }
}

fn said_in(reply: Reply) -> Said {
    match reply {
        Reply::Done => Said::Done,
        Reply::Refused(fault) => Said::Refused(fault),
        Reply::Pinned(slot) => Said::Pinned(slot.index, slot.generation),
        Reply::Page(page) => Said::Leaves(number_of(page)),
        Reply::Loaded(page) => Said::Loaded(number_of(page)),
        Reply::Kept(horizon) => Said::Kept(horizon),
        _ => Said::Long,
    }
}

// The only place where a node is called: other functions need not unfold the contract of a call.
fn answer<D: PageDevice>(node: &mut Node<D>, call: Call) -> Reply {
    node.call(call)
}

fn says<D: PageDevice>(node: &mut Node<D>, call: Call) -> Said {
    said_in(answer(node, call))
}

// A message of replica 1, by its horizon and its contents.
#[derive(Clone, Copy)]
enum Sent {
    // All entries of the history of these references.
    Entries(u64, &'static [SeenAt]),
    // The digests of that history.
    Digests(u64, &'static [SeenAt]),
    // A request for the buckets of a request.
    Request(u64, u64),
}

// A test case: a call of a node and its expected reply. Pages are given by their number on device
// 0, and slots by their index and their generation: test cases are constants, so that no function
// call in them is proved.
#[derive(Clone, Copy)]
enum Row {
    // References are absorbed.
    Absorbs(&'static [SeenAt]),
    // A page is pinned.
    Pins(u64, Said),
    // A slot is unpinned.
    Unpins(u32, u64),
    // Bytes are written into the slot's page, from its start.
    Writes(u32, u64, &'static [u8]),
    // The slot's page starts with these bytes.
    Reads(u32, u64, &'static [u8]),
    // The next victim.
    Victim(Option<u64>),
    // The hottest pages, as many as are listed here.
    Hottest(&'static [u64]),
    // A step of the warm-up.
    Loads(Said),
    // The node is restarted.
    Restarts,
    // All stamps before a time are forgotten, and this is the horizon afterwards.
    Forgets(u64, u64),
    // The horizon, and all pages known, with the time of the last stamp and that of the one before,
    // or 0.
    Knows(u64, &'static [(u64, u64, u64)]),
    // A message is received, and answered by these.
    Receives(Sent, &'static [Sent]),
    // It would be answered by these.
    WouldAnswer(Sent, &'static [Sent]),
    // The history of these references is joined, after all stamps before a time were forgotten.
    Joins(u64, &'static [SeenAt]),
}

// All entries of a history.
fn entries_in(rt: &impl Abort, alloc: Global, history: &History) -> EntryList {
    let entries = history
        .iter()
        .collect(alloc)
        .expect(rt, "memory for entries");
    EntryList::of(entries).ok().expect(rt, "the pages rise")
}

fn message_of(rt: &impl Abort, alloc: Global, sent: Sent) -> Message {
    let sender = replica(1);
    match sent {
        Sent::Entries(horizon, known) => {
            let history = history_of(alloc, known).expect(rt, "memory for a history");
            let entries = entries_in(rt, alloc, &history);
            Message::Entries {
                sender,
                horizon,
                entries,
            }
        }
        Sent::Digests(horizon, known) => {
            let history = history_of(alloc, known).expect(rt, "memory for a history");
            let digests = digests(alloc, &history).expect(rt, "memory for the digests");
            Message::Digest {
                sender,
                horizon,
                digests,
            }
        }
        Sent::Request(horizon, request) => Message::Want {
            sender,
            horizon,
            request: BucketSet::from_bits(request),
        },
    }
}

// The call of a test case, and the expected reply.
fn asked(rt: &impl Abort, alloc: Global, row: Row) -> (Call, Said) {
    match row {
        Row::Absorbs(given) => {
            let batch = references(alloc, given).expect(rt, "memory for the batch");
            (Call::Absorb(RefList::of(batch)), Said::Done)
        }
        Row::Pins(no, wanted) => (Call::Pin(page(no)), wanted),
        Row::Unpins(index, generation) => (Call::Unpin(slot(index, generation)), Said::Done),
        Row::Writes(index, generation, text) => {
            let slot = slot(index, generation);
            let bytes = ByteList::of(text.to_vec(alloc).expect(rt, "memory for the bytes"));
            (Call::Write { slot, at: 0, bytes }, Said::Done)
        }
        Row::Victim(no) => (Call::Victim, Said::Leaves(no)),
        Row::Loads(wanted) => (Call::WarmStep, wanted),
        Row::Restarts => (Call::Restart, Said::Done),
        Row::Forgets(time, horizon) => (Call::Horizon(time), Said::Kept(horizon)),
        _ => panic!(rt; "no such call"),
    }
}

// Whether the call of a test case gets its expected reply.
fn is_said<D: PageDevice>(rt: &impl Abort, alloc: Global, node: &mut Node<D>, row: Row) -> bool {
    let (call, wanted) = asked(rt, alloc, row);
    says(node, call) == wanted
}

fn has_bytes(reply: Reply, wanted: &[u8]) -> bool {
    match reply {
        Reply::Bytes(bytes) => bytes.as_slice() == wanted,
        _ => false,
    }
}

// Whether a reply lists exactly the pages of these numbers.
fn has_pages(reply: Reply, wanted: &[u64]) -> bool {
    let Reply::Pages(pages) = reply else {
        return false;
    };
    for (place, no) in wanted.iter().enumerate() {
        if pages.as_slice().get(place).copied() != Some(page(*no)) {
            return false;
        }
    }
    pages.as_slice().len() == wanted.len()
}

// The history of a page that replica 1 referenced last at a time, and before that at another; 0
// means no earlier reference.
fn hist_of(last: u64, prev: u64) -> PageHist {
    if prev == 0 {
        return once(last, 1);
    }
    twice((last, 1), (prev, 1))
}

// Whether a history has this horizon, and exactly these pages with stamps of these times.
fn knows(history: &History, horizon: u64, wanted: &[(u64, u64, u64)]) -> bool {
    for (place, (no, last, prev)) in wanted.iter().enumerate() {
        if history.at(place) != Some(entry(page(*no), hist_of(*last, *prev))) {
            return false;
        }
    }
    history.len() == wanted.len() && history.horizon() == horizon
}

fn bytes_of(rt: &impl Abort, alloc: Global, message: &Message) -> Vec<u8> {
    encode(alloc, message).expect(rt, "memory for the bytes")
}

// Whether these are exactly the wanted messages of replica 1, by their bytes.
fn are_messages(rt: &impl Abort, alloc: Global, messages: &[Message], wanted: &[Sent]) -> bool {
    for (place, sent) in wanted.iter().enumerate() {
        let Some(message) = messages.get(place) else {
            return false;
        };
        let wanted = bytes_of(rt, alloc, &message_of(rt, alloc, *sent));
        if bytes_of(rt, alloc, message).as_slice() != wanted.as_slice() {
            return false;
        }
    }
    messages.len() == wanted.len()
}

// The messages with which a node answers one.
fn answers<D: PageDevice>(rt: &impl Abort, node: &mut Node<D>, message: Message) -> MessageList {
    match answer(node, Call::Receive(message)) {
        Reply::Answers(messages) => messages,
        _ => panic!(rt; "the message is received"),
    }
}

fn would_answer<D: PageDevice>(
    rt: &impl Abort,
    node: &mut Node<D>,
    message: &Message,
) -> MessageList {
    node.answers(message).ok().expect(rt, "memory is ample")
}

// Joins the history of these references at a horizon; returns whether the node takes it.
fn takes_history<D: PageDevice>(
    rt: &impl Abort,
    alloc: Global,
    node: &mut Node<D>,
    horizon: u64,
    known: &[SeenAt],
) -> bool {
    let mut other = history_of(alloc, known).expect(rt, "memory for a history");
    other.raise(horizon);
    node.join(&other).is_ok()
}

// Makes the call of a test case; returns whether it gets its expected reply.
fn meets<D: PageDevice>(rt: &impl Abort, alloc: Global, node: &mut Node<D>, row: Row) -> bool {
    match row {
        Row::Knows(horizon, wanted) => knows(node.history(), horizon, wanted),
        Row::Reads(index, generation, wanted) => {
            let slot = slot(index, generation);
            let len = wanted.len();
            has_bytes(answer(node, Call::Read { slot, at: 0, len }), wanted)
        }
        Row::Hottest(wanted) => has_pages(answer(node, Call::WarmList(wanted.len())), wanted),
        Row::Receives(sent, wanted) => {
            let messages = answers(rt, node, message_of(rt, alloc, sent));
            are_messages(rt, alloc, messages.as_slice(), wanted)
        }
        Row::WouldAnswer(sent, wanted) => {
            let messages = would_answer(rt, node, &message_of(rt, alloc, sent));
            are_messages(rt, alloc, messages.as_slice(), wanted)
        }
        Row::Joins(horizon, known) => takes_history(rt, alloc, node, horizon, known),
        call => is_said(rt, alloc, node, call),
    }
}

// Makes the calls of the test cases, in turn.
fn runs<D: PageDevice>(rt: &impl Abort, alloc: Global, node: &mut Node<D>, rows: &[Row]) {
    for (at, row) in rows.iter().enumerate() {
        assert!(rt; meets(rt, alloc, node, *row), "row {at}");
    }
}

// The same, for a fresh node.
fn lives(rt: &impl Abort, alloc: Global, rows: &[Row]) {
    let mut node = fresh(rt, alloc, 1);
    runs(rt, alloc, &mut node, rows)
}

// The type of a node over a box cannot be named, so the node lives in a function that is generic in
// the device.
fn lives_over<D: PageDevice>(rt: &impl Abort, alloc: Global, device: D, rows: &[Row]) {
    let mut node = over(rt, alloc, 1, 1, device);
    runs(rt, alloc, &mut node, rows)
}

// The first call of the device fails: a warm-up step is refused, and then loads the page.
const OVER_A_BOX: &[Row] = &[
    Row::Absorbs(&[(0, 1, 1, 1), (0, 1, 2, 1)]),
    Row::Loads(READ_FAULT),
    Row::Loads(Said::Loaded(Some(1))),
    Row::Loads(Said::Loaded(None)),
    Row::Pins(8, NO_PAGE),
    Row::Pins(1, Said::Pinned(0, 1)),
    Row::Writes(0, 1, &[0xCA, 0xFE]),
    Row::Victim(None),
    // Page 2 is now the hottest, and there is no frame for it.
    Row::Absorbs(&[(0, 2, 3, 1), (0, 2, 4, 1)]),
    Row::Hottest(&[2, 1]),
    Row::Loads(ALL_FIXED),
    Row::Unpins(0, 1),
    Row::Victim(Some(1)),
    Row::Loads(Said::Loaded(Some(2))),
    Row::Pins(1, Said::Pinned(0, 3)),
    Row::Reads(0, 3, &[0xCA, 0xFE]),
    Row::Unpins(0, 3),
    Row::Forgets(2, 2),
    Row::Knows(2, &[(1, 2, 0), (2, 4, 3)]),
    Row::Restarts,
    Row::Knows(0, &[]),
    Row::Pins(1, Said::Pinned(0, 4)),
    Row::Reads(0, 4, &[0xCA, 0xFE]),
];

#[test]
fn a_node_lives_over_a_boxed_device(rt: HostRuntime) {
    let alloc = rt.alloc();
    let device = flaky(alloc, 8, 1).expect(&rt, "memory for a device");
    let device: Box<dyn PageDevice + Send> = Box::new(alloc, device).expect(
        &rt,
        "memory for a box",
    );
    lives_over(&rt, alloc, device, OVER_A_BOX)
}
