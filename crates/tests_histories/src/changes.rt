//! Which buckets a call changes, as a set of bits, and which digests are then kept.
use std::alloc::Global;
use std::process::Abort;
use test_kit::{SeenAt, entry, history_of, once, page, references, twice};
use warm_digest::DigestedHistory;
use warm_history::History;

// Page 0:1 with two stamps, and 0:3 with one: of the buckets 1 and 3.
const KNOWN: [SeenAt; 3] = [(0, 1, 10, 1), (0, 1, 20, 1), (0, 3, 10, 1)];

const BUCKETS_OF_KNOWN: u64 = 0b1010;

// The history of these references, at the horizon 5.
fn known(rt: &impl Abort, alloc: Global) -> History {
    let mut history = history_of(alloc, &KNOWN).expect(rt, "memory for a history");
    history.raise(5);
    history
}

// The set of the buckets that a batch changes; the same batch given again changes none.
fn changed_by(rt: &impl Abort, alloc: Global, history: &mut History, given: &[SeenAt]) -> u64 {
    let batch = references(alloc, given).expect(rt, "memory for references");
    let changed = history.absorb(&batch).expect(rt, "memory for a batch");
    let again = history.absorb(&batch).expect(rt, "memory for a batch");
    assert!(rt; again.is_empty());
    changed.bits()
}

// A batch, and the buckets that it changes after the batches before it.
type Row<'a> = (&'a [SeenAt], u64);

const BATCHES: [Row<'static>; 8] = [
    (&[], 0),
    (&KNOWN, 0),
    // older than both stamps, and of a new page but older than the horizon
    (&[(0, 1, 9, 1)], 0),
    (&[(0, 2, 4, 1)], 0),
    // a new page, a page named twice, and one of each of three buckets
    (&[(0, 2, 30, 1)], 0b100),
    (&[(0, 66, 31, 1), (0, 66, 32, 1)], 0b100),
    (
        &[(1, 62, 7, 1), (0, 3, 11, 1), (0, 1, 20, 1), (64, 0, 8, 1)],
        0x8000_0000_0000_0009,
    ),
    // a new page after a known one, and a known one after a new one
    (&[(0, 2, 30, 1), (0, 5, 30, 1), (0, 2, 33, 1)], 0b10_0100),
];

#[test]
fn a_batch_changes_the_buckets_of_its_news(rt: HostRuntime) {
    let mut history = known(&rt, rt.alloc());
    for (given, changed) in BATCHES {
        assert!(rt; changed_by(&rt, rt.alloc(), &mut history, given) == changed);
    }
    assert!(rt; history.len() == 7);
}

#[test]
fn entries_change_the_buckets_of_their_news_and_of_losses(rt: HostRuntime) {
    let mut history = known(&rt, rt.alloc());
    let same = [
        entry(page(1), twice((20, 1), (10, 1))),
        entry(page(3), once(10, 1)),
    ];
    let changed = history.join_entries(5, &same);
    assert!(rt; changed.expect(&rt, "memory for entries").bits() == 0);
    let news = [entry(page(1), once(15, 1)), entry(page(4), once(4, 1))];
    let changed = history.join_entries(0, &news);
    assert!(rt; changed.expect(&rt, "memory for entries").bits() == 0b10);
    assert!(rt; history.losing(15).bits() == 0b1000 && history.losing(16).bits() == 0b1010);
    let news = [entry(page(4), once(17, 1))];
    let changed = history.join_entries(16, &news);
    assert!(rt; changed.expect(&rt, "memory for entries").bits() == 0b1_1010);
    let changed = history.join_entries(17, &[]);
    assert!(rt; changed.expect(&rt, "no memory is taken").bits() == 0);
    assert!(rt; history.horizon() == 17 && history.len() == 2);
}

#[test]
fn a_join_changes_the_buckets_of_what_is_new(rt: HostRuntime) {
    let mut history = known(&rt, rt.alloc());
    let mut empty = History::new(rt.alloc());
    let changed = empty.join(&history);
    assert!(rt; changed.expect(&rt, "memory for a join").bits() == BUCKETS_OF_KNOWN);
    let changed = empty.join(&history);
    assert!(rt; changed.expect(&rt, "memory for a join").bits() == 0);
    empty.raise(20);
    let changed = history.join(&empty);
    assert!(rt; changed.expect(&rt, "memory for a join").bits() == BUCKETS_OF_KNOWN);
}

#[test]
fn a_repeated_message_leaves_digests_as_they_are(rt: HostRuntime) {
    let mut digested = DigestedHistory::new(rt.alloc());
    let batch = references(rt.alloc(), &KNOWN).expect(&rt, "memory for references");
    let changed = digested.absorb(&batch);
    assert!(rt; changed.expect(&rt, "memory for a batch").bits() == BUCKETS_OF_KNOWN);
    let digests = digested.digests().expect(&rt, "memory for digests");
    let changed = digested.absorb(&batch);
    assert!(rt; changed.expect(&rt, "memory for a batch").bits() == 0);
    let changed = digested.join_entries(10, &[entry(page(1), once(10, 1))]);
    assert!(rt; changed.expect(&rt, "memory for entries").bits() == 0);
    assert!(rt; digested.digests().expect(&rt, "nothing to digest") == digests);
    assert!(rt; digested.raise(10).is_empty());
    assert!(rt; digested.raise(11).bits() == BUCKETS_OF_KNOWN);
    assert!(rt; digested.digests().expect(&rt, "memory for digests") != digests);
}
