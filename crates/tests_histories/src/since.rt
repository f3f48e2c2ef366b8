//! What a bucket has since a time, in portions.
use std::process::Abort;
use test_kit::{SeenAt, are_equal, bucket, history_of, page_on, seen};
use warm_history::{Entry, History};
use warm_stamps::{BUCKETS, PageId, Reference};

// The page 0:2 is of bucket 2, and all others of bucket 1. The page 0:1 has two stamps.
const SEEN: [SeenAt; 9] = [
    (0, 1, 2, 1),
    (0, 1, 9, 1),
    (0, 65, 4, 1),
    (0, 129, 12, 2),
    (1, 0, 5, 1),
    (64, 1, 4, 1),
    (64, 65, 30, 1),
    (65_535, 2, 5, 1),
    (0, 2, 40, 1),
];

// A test case: a time, a page, the number of entries requested after it, the pages that come, and
// whether more follow.
type Row = (u64, Option<(u16, u64)>, usize, &'static [(u16, u64)], bool);

const ROWS: [Row; 14] = [
    (
        0,
        None,
        7,
        &[
            (0, 1),
            (0, 65),
            (0, 129),
            (1, 0),
            (64, 1),
            (64, 65),
            (65_535, 2),
        ],
        false,
    ),
    (3, None, 2, &[(0, 1), (0, 65)], true),
    (
        5,
        None,
        usize::MAX,
        &[(0, 1), (0, 129), (1, 0), (64, 65), (65_535, 2)],
        false,
    ),
    (5, None, 2, &[(0, 1), (0, 129)], true),
    (5, Some((0, 129)), 2, &[(1, 0), (64, 65)], true),
    (5, Some((64, 65)), 2, &[(65_535, 2)], false),
    (5, Some((65_535, 2)), 2, &[], false),
    // The page may be of another bucket, or have no entry.
    (5, Some((0, 2)), 1, &[(0, 129)], true),
    (5, Some((63, 7)), 9, &[(64, 65), (65_535, 2)], false),
    // The time itself is since the time, and the next is past all of them.
    (30, None, 1, &[(64, 65)], false),
    (31, None, 9, &[], false),
    (18_446_744_073_709_551_615, None, 9, &[], false),
    // None is asked for.
    (5, None, 0, &[], true),
    (31, None, 0, &[], false),
];

// Whether these are the history's entries of these pages, with all their stamps.
fn are_of(history: &History, entries: &[Entry], pages: &[(u16, u64)]) -> bool {
    for (place, (dev, no)) in pages.iter().enumerate() {
        let Some(known) = entries.get(place) else {
            return false;
        };
        if known.page != page_on(*dev, *no) || history.get(known.page) != Some(known.hist) {
            return false;
        }
    }
    entries.len() == pages.len()
}

fn page_of(after: Option<(u16, u64)>) -> Option<PageId> {
    match after {
        Some((dev, no)) => Some(page_on(dev, no)),
        None => None,
    }
}

fn gives(rt: &impl Abort, history: &History, row: Row) -> bool {
    let (since, after, limit, pages, more) = row;
    let portion = history
        .entries_since(bucket(1), since, page_of(after), limit)
        .expect(rt, "memory for entries");
    portion.more == more && are_of(history, &portion.entries, pages)
}

#[test]
fn gives_what_a_bucket_has_since_a_time(rt: HostRuntime) {
    let history = history_of(rt.alloc(), &SEEN).expect(&rt, "memory for a history");
    for row in ROWS {
        assert!(rt; gives(&rt, &history, row));
    }
}

// Absorbs references to the first pages of device 0, as many as this, the first at this time and
// each next one later.
fn see(rt: &impl Abort, history: &mut History, pages: u64, time: u64) {
    for no in 0..pages {
        let one: [Reference; 1] = [seen(page_on(0, no), time.saturating_add(no), 1)];
        history.absorb(&one).expect(rt, "memory for a reference");
    }
}

// The receiver takes in what a bucket of the sender has since a time, in portions of 30. Returns
// the number of portions.
fn take_bucket(
    rt: &impl Abort,
    sender: &History,
    receiver: &mut History,
    number: u8,
    since: u64,
) -> usize {
    let mut after: Option<PageId> = None;
    for at in 1..100usize {
        let portion = sender
            .entries_since(bucket(number), since, after, 30)
            .expect(rt, "memory for entries");
        receiver
            .join_entries(sender.horizon(), &portion.entries)
            .expect(rt, "memory for entries");
        if !portion.more {
            return at;
        }
        after = portion.entries.last().map(|known| known.page);
    }
    0
}

// A receiver that has all from before a time, and takes in what every bucket of the sender has
// since then, has all that the sender has. Since 13,600 the pages from 0:3,600 on were referenced:
// 43 or 44 of each bucket, so two portions.
#[test]
fn who_has_all_from_before_then_has_all(rt: HostRuntime) {
    let mut sender = History::new(rt.alloc());
    see(&rt, &mut sender, 6_400, 0);
    let mut receiver = sender.copy().expect(&rt, "memory for a copy");
    see(&rt, &mut sender, 6_400, 10_000);
    see(&rt, &mut receiver, 3_600, 10_000);
    let mut portions = 0usize;
    for number in 0..BUCKETS {
        portions = portions.saturating_add(take_bucket(
            &rt,
            &sender,
            &mut receiver,
            number,
            13_600,
        ));
    }
    assert!(rt; portions == 128);
    assert!(rt; receiver.len() == 6_400);
    assert!(rt; are_equal(&receiver, &sender));
}
