//! Two entries whose pages do not rise: 0:7 followed by 0:6, or by 0:7 once more.
use crate::bytes::{fault, joined};
use std::alloc::Global;
use std::process::Abort;
use test_kit::{entry, once, page};
use warm_frames::{Decoder, EntryList, FrameFault};

// Whether entries of these two pages are given back as they were.
fn are_given_back(rt: &impl Abort, alloc: Global, first: u64, second: u64) -> bool {
    let both = [
        entry(page(first), once(10, 1)),
        entry(page(second), once(10, 1)),
    ];
    let list = both
        .as_slice()
        .to_vec(alloc)
        .expect(rt, "memory for entries");
    match EntryList::of(list) {
        Ok(_) => false,
        Err(back) => back.as_slice() == both.as_slice(),
    }
}

#[test]
fn a_list_of_two_pages_rises(rt: HostRuntime) {
    for (first, second, refused) in [(7, 6, true), (7, 7, true), (6, 7, false)] {
        assert!(rt; are_given_back(&rt, rt.alloc(), first, second) == refused);
    }
}

// Sender 1's entries of 0:7 and of 0:`no`, each at 10@1, in the wide format: a body of 46 bytes.
fn wide(rt: &impl Abort, alloc: Global, no: u8) -> Vec<u8> {
    let header = [
        0x4C, 0x32, 0x47, 0x32, 1, 0, 1, 0, 0, 0, 0, 0, 0, 0, 0, 0, 0, 0, 46, 0, 0, 0, 2,
    ];
    let hist = [1, 0, 0, 0, 0, 0, 0, 0, 10, 0, 1];
    let first = [0, 0, 0, 0, 0, 0, 0, 0, 0, 7];
    let second = [0, 0, 0, 0, 0, 0, 0, 0, 0, no];
    joined(rt, alloc, &[&header, &first, &hist, &second, &hist])
}

// The same in the narrow format: a body of 38 bytes.
fn narrow(rt: &impl Abort, alloc: Global, no: u8) -> Vec<u8> {
    let header = [0x4C, 0x32, 0x47, 0x31, 1, 0, 1, 0, 0, 0, 38, 0, 0, 0, 2];
    let hist = [1, 0, 0, 0, 0, 0, 0, 0, 10, 0, 1];
    let first = [0, 0, 0, 0, 0, 7];
    let second = [0, 0, 0, 0, 0, no];
    joined(rt, alloc, &[&header, &first, &hist, &second, &hist])
}

// Whether these bytes are refused whole, and in pieces at their last byte.
fn are_refused(rt: &impl Abort, alloc: Global, bytes: &[u8]) -> bool {
    let (front, last) = bytes.split_at(bytes.len().saturating_sub(1));
    let mut decoder = Decoder::new(alloc);
    let fed = decoder.feed(front).expect(rt, "no fault yet");
    fault(alloc, bytes) == Some(FrameFault::BadOrder)
        && fed.taken == front.len()
        && decoder.feed(last).err() == Some(FrameFault::BadOrder)
}

#[test]
fn pages_that_do_not_rise_are_a_bad_order(rt: HostRuntime) {
    let alloc = rt.alloc();
    for no in [6, 7] {
        assert!(rt; are_refused(&rt, alloc, &wide(&rt, alloc, no)));
        assert!(rt; are_refused(&rt, alloc, &narrow(&rt, alloc, no)));
    }
    assert!(rt; fault(alloc, &wide(&rt, alloc, 8)).is_none());
    assert!(rt; fault(alloc, &narrow(&rt, alloc, 8)).is_none());
}
