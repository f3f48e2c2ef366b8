//! Frames that are given in pieces, cut at each byte, and the byte at which a fault is detected.
use crate::bytes::{
    NARROW_NOTHING, NARROW_REQUEST, NOTHING, REQUEST, WIDENED, changed, encoded, fault, joined,
    narrow_changed, put, row_holds,
};
use crate::frames::longest_wide;
use std::alloc::Global;
use std::process::Abort;
use test_kit::{NARROW, WIDE};
use warm_frames::{Decoder, FrameFault};

// Feeds the start of a piece, and appends the encoding of a returned message to the text. Returns
// the number of consumed bytes.
fn feed_some(
    rt: &impl Abort,
    alloc: Global,
    decoder: &mut Decoder,
    piece: &[u8],
    text: &mut Vec<u8>,
) -> usize {
    let fed = decoder.feed(piece).expect(rt, "no fault");
    let taken = fed.taken;
    if let Some(message) = &fed.message {
        let bytes = encoded(rt, alloc, message.as_message());
        put(rt, text, &bytes);
    }
    taken
}

// Feeds a whole piece, and appends the encodings of the returned messages to the text.
fn feed_all(
    rt: &impl Abort,
    alloc: Global,
    decoder: &mut Decoder,
    piece: &[u8],
    text: &mut Vec<u8>,
) {
    let mut rest = piece;
    for _ in 0..=piece.len() {
        if rest.is_empty() {
            return;
        }
        let taken = feed_some(rt, alloc, decoder, rest, text);
        rest = rest.get(taken..).expect(rt, "took too much");
    }
}

// Whether these pieces, which must end between two frames, give the messages with these encodings.
fn give(rt: &impl Abort, alloc: Global, pieces: &[&[u8]], want: &[u8]) -> bool {
    let mut decoder = Decoder::new(alloc);
    let mut text = Vec::new(alloc);
    for piece in pieces {
        feed_all(rt, alloc, &mut decoder, piece, &mut text);
    }
    assert!(rt; decoder.finish() == Ok(()));
    text.as_slice() == want
}

// Whether bytes that are cut in two give the frames; `first` is the size of the first piece.
fn come_in_two(rt: &impl Abort, alloc: Global, bytes: &[u8], want: &[u8], first: usize) -> bool {
    let (begin, end) = bytes.split_at(first.min(bytes.len()));
    give(rt, alloc, &[begin, end], want)
}

// Frames of both formats alternate in the stream, which has 180 bytes and is cut at each of them.
#[test]
fn both_formats_in_one_stream(rt: HostRuntime) {
    let mixed: [&[u8]; 6] = [
        &NARROW,
        &WIDE,
        &NARROW_REQUEST,
        &REQUEST,
        &NARROW_NOTHING,
        &NOTHING,
    ];
    let stream = joined(&rt, rt.alloc(), &mixed);
    assert!(rt; stream.len() == 180);
    let wide: [&[u8]; 6] = [&WIDENED, &WIDE, &REQUEST, &REQUEST, &NOTHING, &NOTHING];
    let want = joined(&rt, rt.alloc(), &wide);
    for first in 0..=stream.len() {
        let comes = come_in_two(&rt, rt.alloc(), &stream, &want, first);
        row_holds(&rt, first, comes);
    }
}

fn fault_of(decoder: &mut Decoder, piece: &[u8]) -> Option<FrameFault> {
    decoder.feed(piece).err()
}

// The bytes of a frame, given twice and in pieces of a size, give the frame twice; then bytes that
// are not the start of a frame fail the decoder.
fn comes_twice(rt: &impl Abort, alloc: Global, bytes: &[u8], want: &[u8], size: usize) {
    let twice = joined(rt, alloc, &[bytes, bytes]);
    let mut decoder = Decoder::new(alloc);
    let mut text = Vec::new(alloc);
    for piece in twice.chunks(size.max(1)) {
        feed_all(rt, alloc, &mut decoder, piece, &mut text);
    }
    let wanted = joined(rt, alloc, &[want, want]);
    row_holds(rt, size, text.as_slice() == wanted.as_slice());
    assert!(rt; decoder.finish() == Ok(()));
    assert!(rt; fault_of(&mut decoder, &[0; 4]) == Some(FrameFault::BadMagic));
    assert!(rt; fault_of(&mut decoder, bytes) == Some(FrameFault::Failed));
    assert!(rt; fault_of(&mut decoder, &[]) == Some(FrameFault::Failed));
    assert!(rt; decoder.finish() == Err(FrameFault::Failed));
}

#[test]
fn a_frame_twice_over(rt: HostRuntime) {
    for size in [1, 2, 41, 42, 43, 53, 54, 55, 84, 108] {
        comes_twice(&rt, rt.alloc(), &WIDE, &WIDE, size);
        comes_twice(&rt, rt.alloc(), &NARROW, &WIDENED, size);
    }
}

// A whole frame with the first byte of the next is one piece: the byte is not taken with the frame.
// It is then taken as a piece of its own, and the bytes after it show that no frame begins so.
#[test]
fn a_frame_and_a_byte_in_one_piece(rt: HostRuntime) {
    let alloc = rt.alloc();
    let mut decoder = Decoder::new(alloc);
    let mut text = Vec::new(alloc);
    let piece = joined(&rt, alloc, &[&NARROW, &[0x4D]]);
    assert!(rt; feed_some(&rt, alloc, &mut decoder, &piece, &mut text) == 42);
    assert!(rt; text.as_slice() == WIDENED.as_slice());
    assert!(rt; feed_some(&rt, alloc, &mut decoder, &[0x4D], &mut text) == 1);
    assert!(rt; text.len() == WIDENED.len());
    assert!(rt; fault_of(&mut decoder, &[0; 3]) == Some(FrameFault::BadMagic));
    assert!(rt; fault_of(&mut decoder, &NARROW) == Some(FrameFault::Failed));
    assert!(rt; decoder.finish() == Err(FrameFault::Failed));
}

// Whether an empty piece is consumed and gives no frame.
fn takes_nothing(decoder: &mut Decoder) -> bool {
    match decoder.feed(&[]) {
        Ok(fed) => fed.taken == 0 && fed.message.is_none(),
        Err(_) => false,
    }
}

#[test]
fn an_empty_piece_changes_nothing(rt: HostRuntime) {
    for first in 0..=54usize {
        let mut decoder = Decoder::new(rt.alloc());
        let mut text = Vec::new(rt.alloc());
        let (begin, end) = WIDE.split_at(first.min(WIDE.len()));
        feed_all(&rt, rt.alloc(), &mut decoder, begin, &mut text);
        row_holds(&rt, first, takes_nothing(&mut decoder));
        feed_all(&rt, rt.alloc(), &mut decoder, end, &mut text);
        row_holds(&rt, first, text.as_slice() == WIDE.as_slice());
    }
}

// Three of the longest frames, 93,069 bytes, are fed as one piece.
#[test]
fn a_piece_may_have_more_than_65_536_bytes(rt: HostRuntime) {
    let frame = longest_wide(&rt, rt.alloc());
    let frame = frame.as_slice();
    let stream = joined(&rt, rt.alloc(), &[frame, frame, frame]);
    assert!(rt; stream.len() == 93_069);
    assert!(rt; give(&rt, rt.alloc(), &[stream.as_slice()], stream.as_slice()));
}

// A frame's bytes without the last one are all consumed, and a stream cannot end there.
fn is_not_the_end(rt: &impl Abort, alloc: Global, part: &[u8]) {
    let mut decoder = Decoder::new(alloc);
    assert!(rt; decoder.finish() == Ok(()));
    let begun = decoder.feed(part).expect(rt, "no fault");
    assert!(rt; begun.taken == part.len() && begun.message.is_none());
    assert!(rt; decoder.finish() == Err(FrameFault::Truncated));
}

#[test]
fn a_part_is_not_the_end(rt: HostRuntime) {
    is_not_the_end(&rt, rt.alloc(), &WIDE[..53]);
    is_not_the_end(&rt, rt.alloc(), &NARROW[..41]);
}

// The number of bytes consumed before the fault, fed byte by byte.
fn place_of_fault(alloc: Global, bytes: &[u8]) -> Option<(usize, FrameFault)> {
    let mut decoder = Decoder::new(alloc);
    for (place, byte) in bytes.iter().enumerate() {
        if let Err(fault) = decoder.feed(&[*byte]) {
            return Some((place, fault));
        }
    }
    None
}

// Whether the bytes have this fault: by `decode`, at this place if they are fed byte by byte, and
// if they are fed as one piece.
fn faults_at(alloc: Global, bytes: &[u8], at: usize, want: FrameFault) -> bool {
    fault(alloc, bytes) == Some(want)
        && place_of_fault(alloc, bytes) == Some((at, want))
        && fault_of(&mut Decoder::new(alloc), bytes) == Some(want)
}

// A place in WIDE, the byte that is stored there, the place at which the fault is detected, and the
// fault.
const WIDE_FAULTS: [(usize, u8, usize, FrameFault); 13] = [
    (0, 0x4D, 3, FrameFault::BadMagic),
    (4, 0, 4, FrameFault::BadKind),
    (4, 4, 4, FrameFault::BadKind),
    (5, 1, 6, FrameFault::BadSender),
    (6, 0, 6, FrameFault::BadSender),
    (6, 65, 6, FrameFault::BadSender),
    (15, 1, 18, FrameFault::BadLength),
    (19, 1, 53, FrameFault::BadCount),
    (22, 2, 53, FrameFault::BadLength),
    (33, 3, 53, FrameFault::BadTag),
    (43, 0, 53, FrameFault::BadStamp),
    (51, 20, 53, FrameFault::BadStamp),
    (53, 65, 53, FrameFault::BadStamp),
];

// The same for NARROW. With the magic number of the wide format, zeros of the page are in the place
// of the length.
const NARROW_FAULTS: [(usize, u8, usize, FrameFault); 16] = [
    (0, 0x4D, 3, FrameFault::BadMagic),
    (3, 0x30, 3, FrameFault::BadMagic),
    (3, 0x33, 3, FrameFault::BadMagic),
    (3, 0x32, 18, FrameFault::BadLength),
    (4, 0, 4, FrameFault::BadKind),
    (4, 4, 4, FrameFault::BadKind),
    (5, 1, 6, FrameFault::BadSender),
    (6, 0, 6, FrameFault::BadSender),
    (6, 65, 6, FrameFault::BadSender),
    (7, 1, 10, FrameFault::BadLength),
    (11, 1, 41, FrameFault::BadCount),
    (14, 2, 41, FrameFault::BadLength),
    (21, 3, 41, FrameFault::BadTag),
    (31, 0, 41, FrameFault::BadStamp),
    (39, 20, 41, FrameFault::BadStamp),
    (41, 65, 41, FrameFault::BadStamp),
];

#[test]
fn a_fault_comes_with_its_byte(rt: HostRuntime) {
    for (place, value, at, want) in WIDE_FAULTS {
        let is_found = faults_at(rt.alloc(), &changed(place, value), at, want);
        row_holds(&rt, place, is_found);
    }
    for (place, value, at, want) in NARROW_FAULTS {
        let is_found = faults_at(rt.alloc(), &narrow_changed(place, value), at, want);
        row_holds(&rt, place, is_found);
    }
}

// A header of the narrow format whose body has 27,005 bytes, one more than there may be.
const TOO_LONG: [u8; 11] = [0x4C, 0x32, 0x47, 0x31, 1, 0, 1, 0, 0, 0x69, 0x7D];

#[test]
fn a_long_body_is_refused_at_the_last_byte_of_its_header(rt: HostRuntime) {
    assert!(rt; faults_at(rt.alloc(), &TOO_LONG, 10, FrameFault::BadLength));
}
