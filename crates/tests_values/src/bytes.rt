//! Frames of both formats, their bytes written by hand from the formats: `L2G1`, the narrow one,
//! which has no horizon and page numbers of 32 bits and is only read, and `L2G2`, the wide one,
//! which is also written. And the calls by which the tests read and write them.
use std::alloc::Global;
use std::process::Abort;
use test_kit::{NARROW, WIDE};
use warm_frames::{FrameFault, Message, decode, encode};

// NARROW in the wide format: the horizon is 0.
pub(crate) const WIDENED: [u8; 54] = [
    0x4C, 0x32, 0x47, 0x32, 1, 0, 1, 0, 0, 0, 0, 0, 0, 0, 0, 0, 0, 0, 0x23, 0, 0, 0, 1, 0, 0, 0, 0,
    0, 0, 0, 0, 0, 7, 2, 0, 0, 0, 0, 0, 0, 0, 0x14, 0, 1, 0, 0, 0, 0, 0, 0, 0, 0x0A, 0, 1,
];

// A frame of no entries by sender 3.
pub(crate) const NOTHING: [u8; 23] = [
    0x4C, 0x32, 0x47, 0x32, 1, 0, 3, 0, 0, 0, 0, 0, 0, 0, 0, 0, 0, 0, 4, 0, 0, 0, 0,
];

// The same in the narrow format.
pub(crate) const NARROW_NOTHING: [u8; 15] = [
    0x4C, 0x32, 0x47, 0x31, 1, 0, 3, 0, 0, 0, 4, 0, 0, 0, 0,
];

// A request of sender 2 for buckets 1 and 2.
pub(crate) const REQUEST: [u8; 27] = [
    0x4C, 0x32, 0x47, 0x32, 3, 0, 2, 0, 0, 0, 0, 0, 0, 0, 0, 0, 0, 0, 8, 0, 0, 0, 0, 0, 0, 0, 6,
];

// The same in the narrow format.
pub(crate) const NARROW_REQUEST: [u8; 19] = [
    0x4C, 0x32, 0x47, 0x31, 3, 0, 2, 0, 0, 0, 8, 0, 0, 0, 0, 0, 0, 0, 6,
];

// The frame WIDE with another byte at a place.
pub(crate) fn changed(place: usize, value: u8) -> [u8; 54] {
    let mut bytes = WIDE;
    bytes[place % 54] = value;
    bytes
}

// The frame NARROW with another byte at a place.
pub(crate) fn narrow_changed(place: usize, value: u8) -> [u8; 42] {
    let mut bytes = NARROW;
    bytes[place % 42] = value;
    bytes
}

// Ends the test if its test case of this number does not hold: the only place where a message is
// formatted, which is expensive to prove.
pub(crate) fn row_holds(rt: &impl Abort, at: usize, is_so: bool) {
    assert!(rt; is_so, "row {at}");
}

pub(crate) fn encoded(rt: &impl Abort, alloc: Global, message: &Message) -> Vec<u8> {
    encode(alloc, message).expect(rt, "memory for the bytes")
}

pub(crate) fn fault(alloc: Global, bytes: &[u8]) -> Option<FrameFault> {
    decode(alloc, bytes).err()
}

// Appends bytes to a text.
pub(crate) fn put(rt: &impl Abort, text: &mut Vec<u8>, bytes: &[u8]) {
    text.extend_from_slice(bytes).expect(rt, "memory for bytes");
}

// The texts, one after the other.
pub(crate) fn joined(rt: &impl Abort, alloc: Global, texts: &[&[u8]]) -> Vec<u8> {
    let mut all = Vec::new(alloc);
    for text in texts {
        put(rt, &mut all, text);
    }
    all
}
