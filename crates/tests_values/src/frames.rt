//! Frames and their bytes: reading and writing, sizes, and lists of entries.
use crate::bytes::{WIDENED, encoded, fault, put};
use std::alloc::Global;
use std::process::Abort;
use test_kit::{NARROW, WIDE, bucket, entry, once, page, page_on, replica, twice};
use warm_frames::{DigestTable, EntryList, FrameFault, Message, decode, put_entry};
use warm_history::Entry;

// The message that these bytes are read as, and which is written as those wanted.
fn read_as(rt: &impl Abort, alloc: Global, bytes: &[u8], want: &[u8]) -> Message {
    let message = decode(alloc, bytes).expect(rt, "a frame");
    assert!(rt; encoded(rt, alloc, &message).as_slice() == want);
    message
}

// A message of entries: the number of its sender, the horizon, and the entries.
fn said_in(rt: &impl Abort, message: Message) -> (u16, u64, EntryList) {
    match message {
        Message::Entries {
            sender,
            horizon,
            entries,
        } => (sender.get(), horizon, entries),
        _ => panic!(rt; "another kind"),
    }
}

// Whether a message has this horizon, is of sender 1, and has only the entry 0:7 with stamps 20@1
// and 10@1.
fn says_twice(rt: &impl Abort, message: Message, since: u64) -> bool {
    let (sender, horizon, entries) = said_in(rt, message);
    let entries = entries.into_entries();
    let want = entry(page(7), twice((20, 1), (10, 1)));
    sender == 1 && horizon == since && entries.as_slice() == [want].as_slice()
}

#[test]
fn entries_have_one_encoding(rt: HostRuntime) {
    let wide = read_as(&rt, rt.alloc(), &WIDE, &WIDE);
    assert!(rt; says_twice(&rt, wide, 12));
    let narrow = read_as(&rt, rt.alloc(), &NARROW, &WIDENED);
    assert!(rt; says_twice(&rt, narrow, 0));
}

// Digests of 0, except for those of the first bucket, and the last byte of the last.
fn spread_digests() -> [[u8; 32]; 64] {
    let mut digests = [[0; 32]; 64];
    digests[0] = [7; 32];
    digests[63][31] = 9;
    digests
}

// The bytes of sender 64's table of those digests, with the horizon 12.
fn table_bytes(rt: &impl Abort, alloc: Global) -> Vec<u8> {
    let message = Message::Digest {
        sender: replica(64),
        horizon: 12,
        digests: DigestTable::of(spread_digests()),
    };
    encoded(rt, alloc, &message)
}

// Whether these are those bytes.
fn are_spread(bytes: &[u8]) -> bool {
    let header = [
        0x4C, 0x32, 0x47, 0x32, 2, 0, 64, 0, 0, 0, 0, 0, 0, 0, 12, 0, 0, 8, 0,
    ];
    bytes.len() == 2067
        && bytes.starts_with(&header)
        && bytes[19] == 7
        && bytes[50] == 7
        && bytes[51] == 0
        && bytes[2066] == 9
}

// Whether the bytes are sender 64's table of those digests at this horizon.
fn bring_digests(rt: &impl Abort, alloc: Global, bytes: &[u8], since: u64) -> bool {
    match decode(alloc, bytes).expect(rt, "a frame") {
        Message::Digest {
            sender,
            horizon,
            digests,
        } => {
            let first = digests.digest(bucket(0)) == [7; 32];
            let all = digests == DigestTable::of(spread_digests());
            first && all && sender.get() == 64 && horizon == since
        }
        _ => false,
    }
}

// The bytes of sender 64's table of digests, in the narrow format.
fn narrow_table() -> [u8; 2059] {
    let mut bytes = [0; 2059];
    bytes[..11].copy_from_slice(&[0x4C, 0x32, 0x47, 0x31, 2, 0, 64, 0, 0, 8, 0]);
    bytes[11..43].copy_from_slice(&[7; 32]);
    bytes[2058] = 9;
    bytes
}

#[test]
fn digests_stand_bucket_0_first(rt: HostRuntime) {
    let bytes = table_bytes(&rt, rt.alloc());
    assert!(rt; are_spread(&bytes));
    assert!(rt; bring_digests(&rt, rt.alloc(), &bytes, 12));
    assert!(rt; bring_digests(&rt, rt.alloc(), &narrow_table(), 0));
}

// A frame of this many entries, whose header and count come first: an entry has no device, a number
// of these zeros and four bytes, and a history of these bytes.
fn frame_of(
    rt: &impl Abort,
    alloc: Global,
    header: &[u8],
    count: u32,
    zeros: &[u8],
    hist: &[u8],
) -> Vec<u8> {
    let mut text = Vec::new(alloc);
    put(rt, &mut text, header);
    for no in 0..count {
        put(rt, &mut text, &[0, 0]);
        put(rt, &mut text, zeros);
        put(rt, &mut text, &no.to_be_bytes());
        put(rt, &mut text, hist);
    }
    text
}

// The header and the count of sender 1's entries: how many bytes the body has, and its count, by
// their last two bytes.
const fn wide_start(len: [u8; 2], count: [u8; 2]) -> [u8; 23] {
    [
        0x4C, 0x32, 0x47, 0x32, 1, 0, 1, 0, 0, 0, 0, 0, 0, 0, 0, 0, 0, len[0], len[1], 0, 0,
        count[0], count[1],
    ]
}

// A frame of 1000 entries of two stamps each, which is as long as one can be: its body has 31,004
// bytes.
pub(crate) fn longest_wide(rt: &impl Abort, alloc: Global) -> Vec<u8> {
    let start = wide_start([0x79, 0x1C], [3, 0xE8]);
    frame_of(rt, alloc, &start, 1000, &[0; 4], &NARROW[21..])
}

// Whether a frame of this many entries is read, and written as it was.
fn has_entries(rt: &impl Abort, alloc: Global, bytes: &[u8], count: usize) -> bool {
    let (_, _, entries) = said_in(rt, read_as(rt, alloc, bytes, bytes));
    entries.as_slice().len() == count
}

#[test]
fn the_longest_frame_of_each_format(rt: HostRuntime) {
    let alloc = rt.alloc();
    let wide = longest_wide(&rt, alloc);
    assert!(rt; wide.len() == 31_023 && has_entries(&rt, alloc, &wide, 1000));
    // Its body has 27,004 bytes.
    let narrow = [
        0x4C, 0x32, 0x47, 0x31, 1, 0, 1, 0, 0, 0x69, 0x7C, 0, 0, 3, 0xE8,
    ];
    let narrow = frame_of(&rt, alloc, &narrow, 1000, &[], &NARROW[21..]);
    assert!(rt; narrow.len() == 27_015);
    let _ = read_as(&rt, alloc, &narrow, &wide);
    // 999 entries have 30,973 bytes.
    let start = wide_start([0x78, 0xFD], [3, 0xE7]);
    let wide = frame_of(&rt, alloc, &start, 999, &[0; 4], &NARROW[21..]);
    assert!(rt; has_entries(&rt, alloc, &wide, 999));
}

// Entries of one stamp each have 21 bytes: a body of 1001 is shorter than the longest one.
#[test]
fn a_frame_of_1001_short_entries_is_refused(rt: HostRuntime) {
    let alloc = rt.alloc();
    let once = [1, 0, 0, 0, 0, 0, 0, 0, 0x14, 0, 1];
    let start = wide_start([0x52, 0x0C], [3, 0xE8]);
    let wide = frame_of(&rt, alloc, &start, 1000, &[0; 4], &once);
    assert!(rt; wide.len() == 21_023 && has_entries(&rt, alloc, &wide, 1000));
    let start = wide_start([0x52, 0x21], [3, 0xE9]);
    let wide = frame_of(&rt, alloc, &start, 1001, &[0; 4], &once);
    assert!(rt; fault(alloc, &wide) == Some(FrameFault::BadCount));
}

#[test]
fn an_entry_has_21_or_31_bytes(rt: HostRuntime) {
    let both = [
        1, 2, 0, 0, 0, 0, 0, 0, 0, 3, 1, 0, 0, 0, 0, 0, 0, 0, 20, 0, 1, 1, 2, 0, 0, 0, 0, 0, 0, 0,
        3, 2, 0, 0, 0, 0, 0, 0, 0, 20, 0, 1, 0, 0, 0, 0, 0, 0, 0, 10, 0, 2,
    ];
    let mut text = Vec::new(rt.alloc());
    for hist in [once(20, 1), twice((20, 1), (10, 2))] {
        put_entry(&mut text, &entry(page_on(258, 3), hist)).expect(&rt, "memory for an entry");
    }
    assert!(rt; text.as_slice() == both.as_slice());
}

// Entries of pages whose numbers rise from 0, and of one more of this number.
fn entries(rt: &impl Abort, alloc: Global, rising: u64, last: u64) -> Vec<Entry> {
    let mut entries = Vec::new(alloc);
    for place in 0..=rising {
        let no = if place < rising { place } else { last };
        entries
            .push(entry(page(no), once(20, 1)))
            .expect(rt, "memory for an entry");
    }
    entries
}

// Whether a list of such entries is given back.
fn is_refused(rt: &impl Abort, alloc: Global, rising: u64, last: u64) -> bool {
    match EntryList::of(entries(rt, alloc, rising, last)) {
        Ok(_) => false,
        Err(back) => back.as_slice() == entries(rt, alloc, rising, last).as_slice(),
    }
}

#[test]
fn a_list_has_at_most_1000_entries_of_rising_pages(rt: HostRuntime) {
    for (rising, last, want) in [
        (998, 998, false),
        (999, 999, false),
        (1000, 1000, true),
        (8, 6, true),
        (8, 7, true),
    ] {
        assert!(rt; is_refused(&rt, rt.alloc(), rising, last) == want);
    }
}
