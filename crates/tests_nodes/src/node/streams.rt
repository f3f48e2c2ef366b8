//! Frames that come in pieces: the node receives each message as the decoder gives it.

use super::{Row, Sent, answers, are_messages, bytes_of, fresh, message_of, runs};
use std::alloc::Global;
use std::process::Abort;
use test_kit::{NARROW, SeenAt, WIDE};
use warm_devices::MemDevice;
use warm_frames::{Decoder, Fed, MessageList};
use warm_gossip::Node;

// The entry of the frames `NARROW` and `WIDE`.
const KNOWN: &[SeenAt] = &[(0, 7, 10, 1), (0, 7, 20, 1)];

// Feeds the start of a piece. The node receives the message that is then complete, if one is.
// Returns the number of bytes taken, and the answers to the message.
fn hears_some(
    rt: &impl Abort,
    decoder: &mut Decoder,
    node: &mut Node<MemDevice>,
    piece: &[u8],
) -> (usize, Option<MessageList>) {
    let Fed { taken, message } = decoder.feed(piece).expect(rt, "no fault");
    match message {
        Some(boxed) => (taken, Some(answers(rt, node, boxed.into_message()))),
        None => (taken, None),
    }
}

// Feeds a whole piece. Returns the answers to the last message that was complete.
fn hears_all(
    rt: &impl Abort,
    decoder: &mut Decoder,
    node: &mut Node<MemDevice>,
    piece: &[u8],
) -> Option<MessageList> {
    let mut rest = piece;
    let mut last = None;
    for _ in 0..=piece.len() {
        if rest.is_empty() {
            return last;
        }
        let (taken, heard) = hears_some(rt, decoder, node, rest);
        rest = rest.get(taken..).expect(rt, "took too much");
        if heard.is_some() {
            last = heard;
        }
    }
    last
}

// Feeds a stream in pieces of a size. Returns the answers to its last message.
fn hears(
    rt: &impl Abort,
    alloc: Global,
    node: &mut Node<MemDevice>,
    stream: &[u8],
    size: usize,
) -> Option<MessageList> {
    let mut decoder = Decoder::new(alloc);
    let mut last = None;
    for piece in stream.chunks(size.max(1)) {
        let heard = hears_all(rt, &mut decoder, node, piece);
        if heard.is_some() {
            last = heard;
        }
    }
    assert!(rt; decoder.finish() == Ok(()));
    last
}

// Entries in the older format, and then in the other one, whose horizon 12 is later than one of the
// stamps.
#[test]
fn a_stream_of_entries_reaches_the_history(rt: HostRuntime) {
    let alloc = rt.alloc();
    let mut stream = NARROW
        .as_slice()
        .to_vec(alloc)
        .expect(&rt, "memory for a stream");
    stream
        .extend_from_slice(&WIDE)
        .expect(&rt, "memory for a stream");
    for size in [1, 2, 41, 42, 43, 95, 96] {
        let mut node = fresh(&rt, alloc, 2);
        let heard = hears(&rt, alloc, &mut node, &stream, size).expect(&rt, "a message");
        assert!(rt; heard.as_slice().is_empty());
        runs(&rt, alloc, &mut node, &[Row::Knows(12, &[(7, 20, 0)])]);
    }
}

// The digests of an empty history, behind a page's entry, in a stream of 42 + 2,067 bytes. They
// differ in the bucket of the page, 7.
#[test]
fn digests_in_pieces_are_answered(rt: HostRuntime) {
    let alloc = rt.alloc();
    let empty = bytes_of(&rt, alloc, &message_of(&rt, alloc, Sent::Digests(0, &[])));
    let mut stream = NARROW
        .as_slice()
        .to_vec(alloc)
        .expect(&rt, "memory for a stream");
    stream
        .extend_from_slice(&empty)
        .expect(&rt, "memory for a stream");
    for size in [1, 42, 1000, 2109] {
        let mut node = fresh(&rt, alloc, 1);
        let heard = hears(&rt, alloc, &mut node, &stream, size).expect(&rt, "a message");
        let wanted = [Sent::Entries(0, KNOWN), Sent::Request(0, 128)];
        assert!(rt; are_messages(&rt, alloc, heard.as_slice(), &wanted));
    }
}
