//! Dumps: their bytes, as a program apart spells them (`checks/dumps/vectors`), and which bytes are
//! dumps of one history.
use crate::digests::FOUR_PAGES;
use sha2::{Digest, Sha256};
use std::alloc::Global;
use std::process::Abort;
use test_kit::{are_equal, history_of, page_on, replica, seen};
use warm_dump::{DumpError, read_dump, write_dump};
use warm_history::History;
use warm_stamps::BUCKETS;

// The header of the frame of entries of bucket 1, from replica 1 with horizon 0, and their count;
// then 0:1, 0:65 and 1:0.
const HEADER_1: &str = "4c32473201000100000000000000000000004d00000003";

const PAGE_0_1: &str = "000000000000000000010100000000000000050001";

const PAGE_0_65: &str = "0000000000000000004102000000000000001e000100000000000000140001";

const PAGE_1_0: &str = "000100000000000000000100000000000000070001";

// The frame of the entry of bucket 7, and the same in the narrow format.
const OF_BUCKET_7: &str =
    "4c32473201000100000000000000000000002300000001000000000000000000070200000000000000140001000000000000000a0001";

const NARROW_7: &str =
    "4c3247310100010000001f000000010000000000070200000000000000140001000000000000000a0001";

// The header of the frame of digests, and the same in the narrow format.
const DIGESTS: &str = "4c3247320200010000000000000000";

const NARROW_DIGESTS: &str = "4c324731020001";

const TABLE_SIZE: &str = "00000800";

// SHA-256 of no bytes, of the entries of bucket 1, and of those of bucket 7.
const NOTHING: &str = "e3b0c44298fc1c149afbf4c8996fb92427ae41e4649b934ca495991b7852b855";

const SUM_1: &str = "f43b7d2e4105d109ca39e7be2d6f42cee42deb5489334c83edef3f6b7589697f";

const SUM_7: &str = "578d81dbdf5fd3e00779c5bd08a09830e34afd26f902b24c9efa021d201ebb51";

/// A request for all buckets, from replica 1 with horizon 0: 27 bytes.
pub const REQUEST: &str = "4c32473203000100000000000000000000000800000000000000ff";

/// Where the frame of bucket 7, that of the digests and the dump of the four pages end.
pub const FIRST: usize = 96;

pub const SECOND: usize = 150;

pub const WHOLE: usize = 2217;

/// The frame of bucket 1 alone.
pub const FRAME_1: [&str; 4] = [HEADER_1, PAGE_0_1, PAGE_0_65, PAGE_1_0];

/// Puts bytes in hexadecimal behind others.
pub fn put(rt: &impl Abort, alloc: Global, text: &mut Vec<u8>, hexadecimal: &[&str]) {
    for part in hexadecimal {
        let mut bytes = hex::decode(alloc, part.as_bytes()).expect(rt, "pairs of digits");
        text.append(&mut bytes).expect(rt, "memory for bytes");
    }
}

// Puts the digests of the four pages behind other bytes.
fn put_sums(rt: &impl Abort, alloc: Global, text: &mut Vec<u8>) {
    for index in 0..BUCKETS {
        let sum = match index {
            1 => SUM_1,
            7 => SUM_7,
            _ => NOTHING,
        };
        put(rt, alloc, text, &[sum]);
    }
}

/// The dump of the four pages with what is put between its frames of entries and before the
/// digests.
pub fn dump_with(rt: &impl Abort, alloc: Global, between: &[&str], before: &[&str]) -> Vec<u8> {
    let mut text = Vec::new(alloc);
    put(rt, alloc, &mut text, &FRAME_1);
    put(rt, alloc, &mut text, between);
    put(rt, alloc, &mut text, before);
    put(rt, alloc, &mut text, &[DIGESTS, TABLE_SIZE]);
    put_sums(rt, alloc, &mut text);
    text
}

/// The dump of the four pages, from replica 1 with horizon 0.
pub fn dump_of_four(rt: &impl Abort, alloc: Global) -> Vec<u8> {
    dump_with(rt, alloc, &[], &[OF_BUCKET_7])
}

/// The history of the four pages.
pub fn four_pages(rt: &impl Abort, alloc: Global) -> History {
    history_of(alloc, &FOUR_PAGES).expect(rt, "memory for a history")
}

/// What is read of bytes.
pub fn read(alloc: Global, text: &[u8]) -> Result<History, DumpError> {
    let mut reader = text;
    read_dump(alloc, &mut reader)
}

// Whether bytes are a dump of the history.
fn is_dump(rt: &impl Abort, alloc: Global, text: &[u8], history: &History) -> bool {
    let read = read(alloc, text).expect(rt, "a dump");
    are_equal(&read, history)
}

fn written(rt: &impl Abort, alloc: Global, number: u16, history: &History) -> Vec<u8> {
    let mut text = Vec::new(alloc);
    write_dump(alloc, &mut text, replica(number), history).expect(rt, "memory for a dump");
    text
}

#[test]
fn four_pages_are_spelled_so(rt: HostRuntime) {
    let history = four_pages(&rt, rt.alloc());
    let text = written(&rt, rt.alloc(), 1, &history);
    let want = dump_of_four(&rt, rt.alloc());
    assert!(rt; want.len() == WHOLE);
    assert!(rt; text.as_slice() == want.as_slice());
    assert!(rt; is_dump(&rt, rt.alloc(), &want, &history));
}

// Whether the bytes have this SHA-256.
fn has_sum(rt: &impl Abort, alloc: Global, text: &[u8], sum: &str) -> bool {
    let mut hasher = Sha256::new();
    hasher.update(text);
    let shown = hex::encode(alloc, hasher.finalize().as_slice()).expect(rt, "memory for digits");
    shown.as_str() == sum
}

// A dump has this size and this SHA-256, and reads back.
fn is_spelled_so(
    rt: &impl Abort,
    alloc: Global,
    number: u16,
    history: &History,
    size: usize,
    sum: &str,
) {
    let text = written(rt, alloc, number, history);
    assert!(rt; text.len() == size);
    assert!(rt; has_sum(rt, alloc, &text, sum));
    assert!(rt; is_dump(rt, alloc, &text, history));
}

#[test]
fn nothing_is_64_digests(rt: HostRuntime) {
    let sum = "5e2f1314e48e32d1073b55702ebfb5079bd3d981dae92222b2daf0f09d002895";
    is_spelled_so(&rt, rt.alloc(), 1, &History::new(rt.alloc()), 2067, sum);
}

#[test]
fn a_horizon_is_in_each_frame(rt: HostRuntime) {
    let mut history = four_pages(&rt, rt.alloc());
    history.raise(12);
    let sum = "22fb048dab6231e5415e019827d280240da093d0083206f13a8bddc689091d9a";
    is_spelled_so(&rt, rt.alloc(), 2, &history, 2165, sum);
}

// The pages of two devices in turn, each with a stamp of replica 1 and a later one of replica 2.
fn many_pages(rt: &impl Abort, alloc: Global, pages: u64) -> History {
    let mut history = History::new(alloc);
    for i in 0..pages {
        let page = page_on(u16::from(i % 2 == 1), i / 2);
        let both = [seen(page, i, 1), seen(page, i.wrapping_add(7), 2)];
        history.absorb(&both).expect(rt, "memory for a page");
    }
    history
}

// Some 1,094 pages in each bucket: a full frame, and one that is not.
#[test]
fn many_pages_have_many_frames(rt: HostRuntime) {
    let history = many_pages(&rt, rt.alloc(), 70_000);
    let sum = "50f72b4c1755bd826e16b1db8db9eab6d23a5ac5c2530e9f80e6542eb1fcdede";
    is_spelled_so(&rt, rt.alloc(), 3, &history, 2_175_011, sum);
}

// A frame of the narrow format, frames that come twice, and a frame of no entries say nothing else.
#[test]
fn other_bytes_of_the_same_history(rt: HostRuntime) {
    let history = four_pages(&rt, rt.alloc());
    let narrow = dump_with(&rt, rt.alloc(), &[], &[NARROW_7]);
    assert!(rt; is_dump(&rt, rt.alloc(), &narrow, &history));
    let twice = dump_with(&rt, rt.alloc(), &[OF_BUCKET_7], &[NARROW_7]);
    assert!(rt; is_dump(&rt, rt.alloc(), &twice, &history));
    let empty = "4c32473201000100000000000000000000000400000000";
    let more = dump_with(&rt, rt.alloc(), &[empty], &[OF_BUCKET_7]);
    assert!(rt; is_dump(&rt, rt.alloc(), &more, &history));
}

#[test]
fn digests_may_be_narrow(rt: HostRuntime) {
    let mut text = Vec::new(rt.alloc());
    put(&rt, rt.alloc(), &mut text, &FRAME_1);
    put(
        &rt,
        rt.alloc(),
        &mut text,
        &[NARROW_7, NARROW_DIGESTS, TABLE_SIZE],
    );
    put_sums(&rt, rt.alloc(), &mut text);
    let history = four_pages(&rt, rt.alloc());
    assert!(rt; is_dump(&rt, rt.alloc(), &text, &history));
}

// Each frame has another sender.
#[test]
fn senders_may_be_several(rt: HostRuntime) {
    let mut text = dump_of_four(&rt, rt.alloc());
    assert!(rt; text.len() == WHOLE);
    text[6] = 64;
    text[FIRST + 6] = 2;
    text[SECOND + 6] = 33;
    let history = four_pages(&rt, rt.alloc());
    assert!(rt; is_dump(&rt, rt.alloc(), &text, &history));
}
