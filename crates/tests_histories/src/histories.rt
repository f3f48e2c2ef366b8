//! Histories and their horizons: joins and copies, and pages of all devices and buckets. The state
//! after an allocation failure is tested by the program `test_memory`.
use std::alloc::Global;
use std::process::Abort;
use test_kit::{SeenAt, are_equal, bucket, entry, history_of, once, page, page_on, seen, twice};
use warm_history::{Entries, Entry, History, PageHist};
use warm_stamps::{PageId, Reference};

// The history of references, with this horizon.
fn history_since(rt: &impl Abort, alloc: Global, horizon: u64, given: &[SeenAt]) -> History {
    let mut history = history_of(alloc, given).expect(rt, "memory for a history");
    history.raise(horizon);
    history
}

fn is_known(history: &History, page: PageId, hist: PageHist) -> bool {
    history.get(page) == Some(hist)
}

// References to the pages 0:0 to 0:49,999 at the times 0 to 49,999, and again at the 50,000 next.
fn every_page_twice(rt: &impl Abort, alloc: Global) -> Vec<Reference> {
    let mut batch = Vec::with_capacity(alloc, 100_000).expect(rt, "memory for references");
    for time in 0..100_000u64 {
        batch
            .push(seen(page(time % 50_000), time, 1))
            .expect(rt, "memory for a reference");
    }
    batch
}

// A history takes in an empty history and no entries; an empty history is copied and takes in the
// history.
fn joins_nothing(rt: &impl Abort, alloc: Global, here: &mut History) {
    let nothing = History::new(alloc);
    here.join(&nothing).expect(rt, "nothing to take in");
    here.join_entries(0, &[]).expect(rt, "nothing to take in");
    let mut copy = nothing.copy().expect(rt, "nothing to copy");
    assert!(rt; are_equal(&copy, &nothing));
    copy.join(here).expect(rt, "memory for a join");
    assert!(rt; are_equal(&copy, here));
}

#[test]
fn takes_in_100_000_references_at_once_and_none(rt: HostRuntime) {
    let batch = every_page_twice(&rt, rt.alloc());
    let mut here = History::new(rt.alloc());
    here.absorb(&batch).expect(&rt, "memory for a batch");
    assert!(rt; here.len() == 50_000);
    for no in [0, 24_999, 49_999u64] {
        assert!(rt; is_known(&here, page(no), twice((50_000 + no, 1), (no, 1))));
    }
    let before = here.copy().expect(&rt, "memory for a copy");
    here.absorb(&[]).expect(&rt, "nothing to take in");
    assert!(rt; are_equal(&here, &before));
    joins_nothing(&rt, rt.alloc(), &mut here);
    assert!(rt; are_equal(&here, &before));
}

const HERE: [SeenAt; 3] = [(0, 1, 10, 1), (0, 1, 20, 1), (0, 3, 1, 1)];

const THERE: [SeenAt; 3] = [(0, 1, 15, 2), (0, 1, 30, 2), (0, 2, 2, 2)];

// The two histories, each with a horizon, are joined both ways, which gives one history.
fn joined(rt: &impl Abort, alloc: Global, first: u64, second: u64) -> History {
    let mut here = history_since(rt, alloc, first, &HERE);
    let mut there = history_since(rt, alloc, second, &THERE);
    let before = here.copy().expect(rt, "memory for a copy");
    here.join(&there).expect(rt, "memory for a join");
    there.join(&before).expect(rt, "memory for a join");
    assert!(rt; are_equal(&here, &there));
    here
}

#[test]
fn the_later_horizon_wins_at_a_join(rt: HostRuntime) {
    assert!(rt; joined(&rt, rt.alloc(), 0, 0).len() == 3);
    let here = joined(&rt, rt.alloc(), 0, 16);
    assert!(rt; here.horizon() == 16 && here.len() == 1);
    assert!(rt; is_known(&here, page(1), twice((30, 2), (20, 1))));
    let here = joined(&rt, rt.alloc(), 21, 16);
    assert!(rt; here.horizon() == 21 && here.len() == 1);
    assert!(rt; is_known(&here, page(1), once(30, 2)));
}

#[test]
fn entries_come_with_a_horizon(rt: HostRuntime) {
    let mut here = history_since(&rt, rt.alloc(), 0, &[(0, 1, 8, 2), (0, 1, 9, 2)]);
    here.join_entries(9, &[entry(page(1), once(20, 1))])
        .expect(&rt, "memory for entries");
    assert!(rt; here.horizon() == 9);
    assert!(rt; is_known(&here, page(1), twice((20, 1), (9, 2))));
    // With a lesser horizon only the entries are taken in, without their stamps older than the
    // history's own horizon. They may be in falling page order.
    let more = [
        entry(page(2), once(8, 1)),
        entry(page(1), twice((19, 1), (8, 2))),
    ];
    here.join_entries(3, &more)
        .expect(&rt, "memory for entries");
    assert!(rt; here.horizon() == 9 && here.len() == 1);
    assert!(rt; is_known(&here, page(1), twice((20, 1), (19, 1))));
}

// Pages of several devices and buckets, in page order: each referenced at the time of its place in
// the list.
const SPREAD: [SeenAt; 12] = [
    (0, 0, 0, 1),
    (0, 1, 1, 1),
    (0, 63, 2, 1),
    (0, 64, 3, 1),
    (0, 4_294_967_295, 4, 1),
    (0, 4_294_967_296, 5, 1),
    (0, 18_446_744_073_709_551_615, 6, 1),
    (1, 0, 7, 1),
    (1, 63, 8, 1),
    (65_535, 1, 9, 1),
    (65_535, 4_294_967_295, 10, 1),
    (65_535, 18_446_744_073_709_551_615, 11, 1),
];

fn gives(entries: &mut Entries<'_>, want: Option<Entry>) -> bool {
    entries.next() == want
}

#[test]
fn goes_over_devices_and_buckets_in_page_order(rt: HostRuntime) {
    let here = history_of(rt.alloc(), &SPREAD).expect(&rt, "memory for a history");
    assert!(rt; here.len() == 12);
    let mut entries = here.iter();
    for place in 0..12usize {
        let (dev, no, time, number) = SPREAD[place];
        let known = entry(page_on(dev, no), once(time, number));
        assert!(rt; is_known(&here, known.page, known.hist));
        assert!(rt; here.at(place) == Some(known));
        assert!(rt; gives(&mut entries, Some(known)));
    }
    assert!(rt; here.at(12) == None && gives(&mut entries, None));
    assert!(rt; here.get(page_on(65_535, 0)) == None);
}

// A test case: the number of a bucket, a page, the number of entries requested after it, the number
// of the first, and how many are returned.
type Row = (u8, (u16, u64), usize, Option<u64>, usize);

const LATER: [Row; 7] = [
    (0, (0, 0), usize::MAX, Some(64), 4),
    (0, (0, 0), 9, Some(64), 4),
    (0, (0, 63), 2, Some(64), 2),
    (0, (0, 4_294_967_295), 9, Some(4_294_967_296), 3),
    (0, (0, 18_446_744_073_709_551_615), 9, Some(63), 2),
    (0, (0, 0), 0, None, 0),
    (62, (65_535, 18_446_744_073_709_551_615), 9, None, 0),
];

#[test]
fn gives_those_after_a_page_of_any_bucket(rt: HostRuntime) {
    let here = history_of(rt.alloc(), &SPREAD).expect(&rt, "memory for a history");
    let first = here.entries(bucket(1), None, 9);
    assert!(rt; first.expect(&rt, "memory for entries").len() == 2);
    for (number, (dev, no), limit, first, count) in LATER {
        let found = here
            .entries(bucket(number), Some(page_on(dev, no)), limit)
            .expect(&rt, "memory for entries");
        let begins = found.first().map(|known| known.page.no);
        assert!(rt;
            begins == first && found.len() == count,
            "bucket {number} after {no}"
        );
    }
}

// The entry of a page that was referenced once.
fn seen_once(dev: u16, no: u64) -> Entry {
    entry(page_on(dev, no), once(10, 1))
}

// Whether these are the first two entries of a bucket after a page.
fn are_next_two(
    rt: &impl Abort,
    history: &History,
    number: u8,
    after: Option<PageId>,
    want: &[Entry],
) -> bool {
    let found = history
        .entries(bucket(number), after, 2)
        .expect(rt, "memory for entries");
    found.as_slice() == want
}

// The pages 0:1, 0:65 and 1:0 are all of bucket 1.
#[test]
fn entries_of_one_bucket(rt: HostRuntime) {
    let mut here = History::new(rt.alloc());
    let first = [seen_once(0, 1), seen_once(0, 65)];
    let then = [seen_once(1, 0)];
    here.join_entries(0, &first)
        .expect(&rt, "memory for entries");
    here.join_entries(0, &then)
        .expect(&rt, "memory for entries");
    assert!(rt; are_next_two(&rt, &here, 1, None, &first));
    assert!(rt; are_next_two(&rt, &here, 1, Some(page(65)), &then));
    assert!(rt; are_next_two(&rt, &here, 1, Some(page_on(1, 0)), &[]));
    assert!(rt; are_next_two(&rt, &here, 2, None, &[]));
}

#[test]
fn entries_come_in_any_order(rt: HostRuntime) {
    let mut here = History::new(rt.alloc());
    here.join_entries(0, &[seen_once(0, 2), seen_once(0, 1)])
        .expect(&rt, "memory for entries");
    assert!(rt; here.len() == 2);
    assert!(rt; here.at(0) == Some(seen_once(0, 1)));
    assert!(rt; here.at(1) == Some(seen_once(0, 2)));
}
