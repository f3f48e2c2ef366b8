//! Messages that a node receives in either format, and messages of pages that no device has.

use super::{NO_PAGE, Row, Said, answers, bytes_of, fresh, runs};
use std::alloc::Global;
use std::process::Abort;
use test_kit::{NARROW, WIDE};
use warm_frames::decode;

// The bytes `WIDE`, of the page of device 0 whose number is in these bytes. Its stamp 10@1 is older
// than its horizon 12.
fn wide(number: [u8; 8]) -> [u8; 54] {
    let mut bytes = WIDE;
    bytes[25..33].copy_from_slice(&number);
    bytes
}

// An empty node receives these bytes, and then runs the test cases.
fn takes(rt: &impl Abort, alloc: Global, bytes: &[u8], rows: &[Row]) {
    let mut node = fresh(rt, alloc, 2);
    let message = decode(alloc, bytes)
        .ok()
        .expect(rt, "the bytes are a message");
    assert!(rt; answers(rt, &mut node, message).as_slice().is_empty());
    runs(rt, alloc, &mut node, rows)
}

// Numbers beyond 32 bits: no device has such a page to load.
const FIRST_WIDE: &[Row] = &[
    Row::Knows(12, &[(4_294_967_296, 20, 0)]),
    Row::Hottest(&[4_294_967_296]),
    Row::Pins(4_294_967_296, NO_PAGE),
    Row::Loads(Said::Loaded(None)),
];

const LAST_WIDE: &[Row] = &[
    Row::Knows(12, &[(u64::MAX, 20, 0)]),
    Row::Hottest(&[u64::MAX]),
    Row::Pins(u64::MAX, NO_PAGE),
    Row::Loads(Said::Loaded(None)),
];

#[test]
fn messages_of_both_formats_are_received(rt: HostRuntime) {
    let alloc = rt.alloc();
    takes(&rt, alloc, &NARROW, &[Row::Knows(0, &[(7, 20, 10)])]);
    takes(&rt, alloc, &WIDE, &[Row::Knows(12, &[(7, 20, 0)])]);
    takes(&rt, alloc, &wide([0, 0, 0, 1, 0, 0, 0, 0]), FIRST_WIDE);
    takes(&rt, alloc, &wide([255; 8]), LAST_WIDE);
}

// The entry of 0:2 at 11, and a request for buckets 1 and 2, both of replica 2.
const ENTRY: [u8; 44] = [
    0x4C, 0x32, 0x47, 0x32, 1, 0, 2, 0, 0, 0, 0, 0, 0, 0, 0, 0, 0, 0, 25, 0, 0, 0, 1, 0, 0, 0, 0,
    0, 0, 0, 0, 0, 2, 1, 0, 0, 0, 0, 0, 0, 0, 11, 0, 2,
];

const REQUEST: [u8; 27] = [
    0x4C, 0x32, 0x47, 0x32, 3, 0, 2, 0, 0, 0, 0, 0, 0, 0, 0, 0, 0, 0, 8, 0, 0, 0, 0, 0, 0, 0, 6,
];

// Replica 1 has 0:1 and replica 2 has 0:2: replica 2 answers the digests of replica 1 by these.
#[test]
fn a_round_is_answered_in_these_bytes(rt: HostRuntime) {
    let alloc = rt.alloc();
    let mut first = fresh(&rt, alloc, 1);
    let mut second = fresh(&rt, alloc, 2);
    runs(&rt, alloc, &mut first, &[Row::Absorbs(&[(0, 1, 10, 1)])]);
    runs(&rt, alloc, &mut second, &[Row::Absorbs(&[(0, 2, 11, 2)])]);
    let offered = first.offer().ok().expect(&rt, "memory is ample");
    let answered = answers(&rt, &mut second, offered);
    let [one, two] = answered.as_slice() else {
        panic!(rt; "two answers");
    };
    assert!(rt; bytes_of(&rt, alloc, one).as_slice() == ENTRY.as_slice());
    assert!(rt; bytes_of(&rt, alloc, two).as_slice() == REQUEST.as_slice());
}
