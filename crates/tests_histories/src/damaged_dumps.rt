//! Dumps that are cut, changed or put together otherwise: which fault is found, and where, or that
//! the history is the same.
use crate::dumps::{
    FIRST, FRAME_1, REQUEST, SECOND, WHOLE, dump_of_four, dump_with, four_pages, put, read,
};
use crate::rows::row_holds;
use std::alloc::Global;
use std::fmt;
use std::process::Abort;
use test_kit::are_equal;
use warm_dump::{DumpError, DumpFault};
use warm_frames::{DIGEST_SIZE, FrameFault};
use warm_history::History;

// Whether bytes are refused with this fault, whose place is this number of bytes.
fn is_refused(alloc: Global, text: &[u8], at: usize, fault: DumpFault) -> bool {
    let at = at as u64;
    read(alloc, text).err() == Some(DumpError { at, fault })
}

// Where the frame begins in which the dump of the four pages has this place.
fn frame_at(place: usize) -> usize {
    if place < FIRST {
        return 0;
    }
    if place < SECOND { FIRST } else { SECOND }
}

#[test]
fn nothing_is_cut_short(rt: HostRuntime) {
    assert!(rt; is_refused(rt.alloc(), &[], 0, DumpFault::CutShort));
}

#[test]
fn each_beginning_is_cut_short(rt: HostRuntime) {
    let text = dump_of_four(&rt, rt.alloc());
    for len in 0..WHOLE {
        let (begin, _) = text.split_at(len.min(text.len()));
        let is_cut = is_refused(rt.alloc(), begin, frame_at(len), DumpFault::CutShort);
        row_holds(&rt, len, is_cut);
    }
}

// The header of the digests ends here.
const HEADERS: usize = SECOND + 19;

// Ends the test if its test case of this value at this place does not hold: the only place where
// both are formatted, which is expensive to prove.
fn change_holds(rt: &impl Abort, place: usize, value: u8, is_so: bool) {
    assert!(rt; is_so, "{place} {value}");
}

// Whether a value of the byte at a place, if it changes the byte, gives the history. None gives
// another.
fn is_accepted(
    rt: &impl Abort,
    alloc: Global,
    text: &mut Vec<u8>,
    place: usize,
    value: u8,
    history: &History,
) -> bool {
    let Some(byte) = text.get_mut(place) else {
        return false;
    };
    let own = *byte;
    *byte = value;
    let read = read(alloc, text);
    if let Some(byte) = text.get_mut(place) {
        *byte = own;
    }
    let Ok(read) = read else {
        return false;
    };
    change_holds(rt, place, value, are_equal(&read, history));
    value != own
}

// Each byte of the headers and of the entries is changed to each other value. Of a frame the sender
// alone may be another, of 63.
#[test]
fn no_changed_byte_gives_another_history(rt: HostRuntime) {
    let history = four_pages(&rt, rt.alloc());
    let mut text = dump_of_four(&rt, rt.alloc());
    let mut count = 0u64;
    for place in 0..HEADERS {
        for value in 0..=255u8 {
            let more = is_accepted(&rt, rt.alloc(), &mut text, place, value, &history);
            count = count.wrapping_add(u64::from(more));
        }
    }
    assert!(rt; count == 189);
}

// How many values of the byte at a place are refused since the digests are not those of the
// entries.
fn refused_at(alloc: Global, text: &mut Vec<u8>, place: usize) -> u64 {
    let own = text.get(place).copied().unwrap_or(0);
    let mut count = 0u64;
    for value in 0..=255u8 {
        if let Some(byte) = text.get_mut(place) {
            *byte = value;
        }
        let more = is_refused(alloc, text, SECOND, DumpFault::DigestsDiffer);
        count = count.wrapping_add(u64::from(more));
    }
    if let Some(byte) = text.get_mut(place) {
        *byte = own;
    }
    count
}

// Whether each byte of the digests of 16 buckets, from one on, has one value alone that is not
// refused. A test has a minute, and reads a dump 131,072 times for these.
fn each_is_refused(rt: &impl Abort, alloc: Global, bucket: usize) -> bool {
    let mut text = dump_of_four(rt, alloc);
    let first = HEADERS.wrapping_add(bucket.wrapping_mul(DIGEST_SIZE));
    for place in first..first.wrapping_add(16 * DIGEST_SIZE) {
        if refused_at(alloc, &mut text, place) != 255 {
            return false;
        }
    }
    true
}

// Each byte of the digests is changed to each other value, and refused for that.
#[test]
fn changed_digests_of_buckets_0_to_15_are_refused(rt: HostRuntime) {
    assert!(rt; each_is_refused(&rt, rt.alloc(), 0));
}

#[test]
fn changed_digests_of_buckets_16_to_31_are_refused(rt: HostRuntime) {
    assert!(rt; each_is_refused(&rt, rt.alloc(), 16));
}

#[test]
fn changed_digests_of_buckets_32_to_47_are_refused(rt: HostRuntime) {
    assert!(rt; each_is_refused(&rt, rt.alloc(), 32));
}

#[test]
fn changed_digests_of_buckets_48_to_63_are_refused(rt: HostRuntime) {
    assert!(rt; each_is_refused(&rt, rt.alloc(), 48));
}

// A place in the dump of the four pages, the byte that is put there, where the fault is found, and
// the fault.
const FAULTS: [(usize, u8, usize, DumpFault); 14] = [
    (3, 0x33, 0, DumpFault::Frame(FrameFault::BadMagic)),
    (4, 4, 0, DumpFault::Frame(FrameFault::BadKind)),
    (4, 3, 0, DumpFault::Frame(FrameFault::BadLength)),
    (6, 0, 0, DumpFault::Frame(FrameFault::BadSender)),
    (14, 1, FIRST, DumpFault::HorizonsDiffer),
    (20, 4, 0, DumpFault::Frame(FrameFault::BadCount)),
    (33, 3, 0, DumpFault::Frame(FrameFault::BadTag)),
    (41, 6, SECOND, DumpFault::DigestsDiffer),
    (43, 0, 0, DumpFault::Frame(FrameFault::BadStamp)),
    (53, 0, 0, DumpFault::Frame(FrameFault::BadOrder)),
    (110, 1, FIRST, DumpFault::HorizonsDiffer),
    (153, 0, SECOND, DumpFault::Frame(FrameFault::BadMagic)),
    (164, 1, SECOND, DumpFault::HorizonsDiffer),
    (2216, 0, SECOND, DumpFault::DigestsDiffer),
];

#[test]
fn a_changed_byte_has_its_fault(rt: HostRuntime) {
    for (place, value, at, fault) in FAULTS {
        let mut text = dump_of_four(&rt, rt.alloc());
        if let Some(byte) = text.get_mut(place) {
            *byte = value;
        }
        let is_found = is_refused(rt.alloc(), &text, at, fault);
        change_holds(&rt, place, value, is_found);
    }
}

#[test]
fn a_bucket_left_out_is_seen(rt: HostRuntime) {
    let text = dump_with(&rt, rt.alloc(), &[], &[]);
    assert!(rt; is_refused(rt.alloc(), &text, FIRST, DumpFault::DigestsDiffer));
}

#[test]
fn a_request_is_no_part_of_a_dump(rt: HostRuntime) {
    let text = dump_with(&rt, rt.alloc(), &[REQUEST], &[]);
    let fault = DumpFault::Frame(FrameFault::BadKind);
    assert!(rt; is_refused(rt.alloc(), &text, FIRST, fault));
}

#[test]
fn bytes_behind_a_dump_are_refused(rt: HostRuntime) {
    let mut text = dump_of_four(&rt, rt.alloc());
    put(&rt, rt.alloc(), &mut text, &["4c"]);
    assert!(rt; is_refused(rt.alloc(), &text, WHOLE, DumpFault::MoreFollows));
    let mut both = dump_of_four(&rt, rt.alloc());
    let mut second = dump_of_four(&rt, rt.alloc());
    both.append(&mut second).expect(&rt, "memory for two dumps");
    assert!(rt; is_refused(rt.alloc(), &both, WHOLE, DumpFault::MoreFollows));
}

#[test]
fn entries_alone_are_cut_short(rt: HostRuntime) {
    let mut text = Vec::new(rt.alloc());
    put(&rt, rt.alloc(), &mut text, &FRAME_1);
    assert!(rt; is_refused(rt.alloc(), &text, FIRST, DumpFault::CutShort));
}

// The numbers and names of the faults that are a dump's own; a frame's fault keeps its own.
const NAMES: [(DumpFault, u8, &str); 8] = [
    (DumpFault::Frame(FrameFault::Memory), 1, "Memory"),
    (DumpFault::Frame(FrameFault::BadOrder), 10, "BadOrder"),
    (DumpFault::CutShort, 13, "CutShort"),
    (DumpFault::DigestsDiffer, 14, "DigestsDiffer"),
    (DumpFault::HorizonsDiffer, 15, "HorizonsDiffer"),
    (DumpFault::MoreFollows, 16, "MoreFollows"),
    (DumpFault::ReadFault, 17, "ReadFault"),
    (DumpFault::WriteFault, 18, "WriteFault"),
];

#[test]
fn faults_have_numbers_and_names(rt: HostRuntime) {
    for (fault, code, name) in NAMES {
        assert!(rt; fault.code() == code && fault.name() == name);
    }
}

// Whether this is what a fault displays.
fn shows(rt: &impl Abort, alloc: Global, fault: &impl fmt::Display, want: &str) -> bool {
    let text = format!(in alloc; "{fault}").expect(rt, "memory for a text");
    text.as_str() == want
}

// A frame's fault is displayed as the frame shows it, and an error also says where it is.
#[test]
fn faults_are_shown_by_their_names(rt: HostRuntime) {
    for (fault, _, name) in NAMES {
        assert!(rt; shows(&rt, rt.alloc(), &fault, name));
    }
    let error = DumpError {
        at: 54,
        fault: DumpFault::Frame(FrameFault::BadMagic),
    };
    assert!(rt; shows(&rt, rt.alloc(), &error, "BadMagic at byte 54"));
}
