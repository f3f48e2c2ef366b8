//! Steps of a warm-up between pins and other calls, on a node of four frames: what each loads, and
//! which page it evicts.
//!
//! Page n is ranked by its second latest reference: pages of later ones are hotter. A page without
//! a reference is evicted first.

use super::{NO_PAGE, Row, Said, Sent, lives, over};
use std::alloc::Global;
use std::process::Abort;
use test_kit::{memory, page, seen};
use warm_devices::MemDevice;
use warm_gossip::Node;
use warm_stamps::Reference;

const NONE_LEFT: Row = Row::Loads(Said::Loaded(None));

// Two references to each of pages 1 to 4, so that 4 is the hottest, then 3, 2 and 1.
const FOUR: Row = Row::Absorbs(&[
    (0, 1, 1, 1),
    (0, 1, 2, 1),
    (0, 2, 3, 1),
    (0, 2, 4, 1),
    (0, 3, 5, 1),
    (0, 3, 6, 1),
    (0, 4, 7, 1),
    (0, 4, 8, 1),
]);

// Page 9 takes a frame and keeps it, so that loading one of pages 1 and 2 evicts the other, until 9
// may be evicted. Then page 10 does the same.
const BETWEEN_PINS: &[Row] = &[
    FOUR,
    Row::Loads(Said::Loaded(Some(4))),
    Row::Loads(Said::Loaded(Some(3))),
    Row::Pins(9, Said::Pinned(2, 1)),
    Row::Loads(Said::Loaded(Some(2))),
    Row::Victim(Some(2)),
    Row::Loads(Said::Loaded(Some(1))),
    Row::Victim(Some(1)),
    Row::Loads(Said::Loaded(Some(2))),
    Row::Loads(Said::Loaded(Some(1))),
    Row::Unpins(2, 1),
    Row::Victim(Some(9)),
    Row::Loads(Said::Loaded(Some(2))),
    NONE_LEFT,
    Row::Pins(4, Said::Pinned(0, 1)),
    NONE_LEFT,
    Row::Pins(10, Said::Pinned(3, 5)),
    Row::Loads(Said::Loaded(Some(1))),
    Row::Loads(Said::Loaded(Some(2))),
    Row::Unpins(3, 5),
    Row::Loads(Said::Loaded(Some(1))),
    NONE_LEFT,
];

// A pin evicts the hottest page, which was loaded first: all other pages are pinned.
const HOTTEST_PUT_OUT: &[Row] = &[
    FOUR,
    Row::Loads(Said::Loaded(Some(4))),
    Row::Pins(7, Said::Pinned(1, 1)),
    Row::Pins(8, Said::Pinned(2, 1)),
    Row::Pins(9, Said::Pinned(3, 1)),
    Row::Pins(10, Said::Pinned(0, 2)),
    Row::Unpins(1, 1),
    Row::Loads(Said::Loaded(Some(4))),
    Row::Unpins(2, 1),
    Row::Loads(Said::Loaded(Some(3))),
    Row::Unpins(3, 1),
    Row::Loads(Said::Loaded(Some(2))),
    Row::Unpins(0, 2),
    Row::Loads(Said::Loaded(Some(1))),
    NONE_LEFT,
];

// The frames are full of pages without a reference, which are evicted in the order of their
// numbers.
const OVER_COLD_PAGES: &[Row] = &[
    Row::Pins(14, Said::Pinned(0, 1)),
    Row::Unpins(0, 1),
    Row::Pins(13, Said::Pinned(1, 1)),
    Row::Unpins(1, 1),
    Row::Pins(12, Said::Pinned(2, 1)),
    Row::Unpins(2, 1),
    Row::Pins(11, Said::Pinned(3, 1)),
    Row::Unpins(3, 1),
    FOUR,
    Row::Victim(Some(11)),
    Row::Loads(Said::Loaded(Some(4))),
    Row::Victim(Some(12)),
    Row::Loads(Said::Loaded(Some(3))),
    Row::Loads(Said::Loaded(Some(2))),
    Row::Victim(Some(14)),
    Row::Loads(Said::Loaded(Some(1))),
    Row::Victim(Some(1)),
    NONE_LEFT,
    NONE_LEFT,
];

// Of the four hottest pages one is on a missing device, and one is missing on its device: their
// places in the list are not filled by others.
const NOT_THERE: &[Row] = &[
    FOUR,
    Row::Absorbs(&[
        (1, 5, 11, 1),
        (1, 5, 12, 1),
        (0, 256, 9, 1),
        (0, 256, 10, 1),
    ]),
    Row::Pins(256, NO_PAGE),
    Row::Loads(Said::Loaded(Some(4))),
    Row::Pins(256, NO_PAGE),
    Row::Loads(Said::Loaded(Some(3))),
    NONE_LEFT,
    Row::Pins(9, Said::Pinned(2, 1)),
    NONE_LEFT,
];

// The references that the node takes in, by each of three calls, are ranked and loaded, also after
// a warm-up has passed all pages.
const TAKEN_IN: &[Row] = &[
    FOUR,
    Row::Loads(Said::Loaded(Some(4))),
    Row::Loads(Said::Loaded(Some(3))),
    Row::Loads(Said::Loaded(Some(2))),
    Row::Loads(Said::Loaded(Some(1))),
    NONE_LEFT,
    Row::Absorbs(&[(0, 5, 9, 1), (0, 5, 10, 1)]),
    Row::Loads(Said::Loaded(Some(5))),
    Row::Victim(Some(2)),
    NONE_LEFT,
    // Page 1 is now as hot as its references at 11 and 12.
    Row::Receives(Sent::Entries(0, &[(0, 1, 11, 1), (0, 1, 12, 1)]), &[]),
    Row::Loads(Said::Loaded(Some(1))),
    Row::Victim(Some(3)),
    NONE_LEFT,
    // Pages 2 to 4 are forgotten but for the second reference to 4, and pages 1 and 5 are not.
    Row::Forgets(8, 8),
    Row::Hottest(&[1, 5, 4]),
    NONE_LEFT,
    Row::Victim(Some(3)),
    Row::Restarts,
    NONE_LEFT,
    FOUR,
    Row::Loads(Said::Loaded(Some(4))),
];

// References come while the list of the four hottest pages is cached: a page stays in its place,
// goes to the front, is left out, or comes in and puts the last one out.
const MERGED: &[Row] = &[
    FOUR,
    Row::Loads(Said::Loaded(Some(4))),
    // Page 1 is now as hot as its reference at 2: the last one still.
    Row::Absorbs(&[(0, 1, 9, 1)]),
    Row::Loads(Said::Loaded(Some(3))),
    // Then as its reference at 9: the first one.
    Row::Receives(Sent::Entries(0, &[(0, 1, 10, 1)]), &[]),
    Row::Loads(Said::Loaded(Some(1))),
    // A page with one reference is colder than all four.
    Row::Absorbs(&[(0, 6, 11, 1)]),
    Row::Loads(Said::Loaded(Some(2))),
    NONE_LEFT,
    // With a second one it is the hottest, and page 2 is no longer listed.
    Row::Absorbs(&[(0, 6, 12, 1)]),
    Row::Loads(Said::Loaded(Some(6))),
    NONE_LEFT,
    // Two pages come in, named twice each; equal stamps rank the greater page higher.
    Row::Absorbs(&[(0, 7, 13, 1), (0, 2, 13, 1), (0, 7, 14, 1), (0, 2, 14, 1)]),
    Row::Loads(Said::Loaded(Some(7))),
    Row::Loads(Said::Loaded(Some(2))),
    NONE_LEFT,
    Row::Hottest(&[7, 2, 6, 1]),
    // A page of the list that nothing names leaves by a pin, and is loaded again.
    Row::Absorbs(&[(0, 7, 15, 1)]),
    Row::Pins(9, Said::Pinned(2, 2)),
    Row::Unpins(2, 2),
    Row::Loads(Said::Loaded(Some(1))),
    NONE_LEFT,
];

// Two references to each of these pages, each page after the one before.
fn two_each(rt: &impl Abort, alloc: Global, from: u32, to: u32) -> Vec<Reference> {
    let mut batch = Vec::new(alloc);
    for no in from..to {
        let no = u64::from(no);
        let first = seen(page(no), 2 * no, 1);
        batch.push(first).expect(rt, "memory for a batch");
        let second = seen(page(no), 2 * no + 1, 1);
        batch.push(second).expect(rt, "memory for a batch");
    }
    batch
}

// A node of four frames over a device of 8,192 pages.
fn wide(rt: &impl Abort, alloc: Global) -> Node<MemDevice> {
    let device = memory(alloc, 8_192).expect(rt, "memory for a device");
    over(rt, alloc, 1, 4, device)
}

fn takes_in(rt: &impl Abort, alloc: Global, node: &mut Node<MemDevice>, from: u32, to: u32) {
    let batch = two_each(rt, alloc, from, to);
    assert!(rt; node.absorb(&batch).is_ok());
}

// A step of the warm-up loads this page.
fn loads(rt: &impl Abort, node: &mut Node<MemDevice>, no: u64) {
    assert!(rt; matches!(node.warm_step(), Ok(Some(found)) if found == page(no)));
}

#[test]
fn a_list_follows_many_pages(rt: HostRuntime) {
    let alloc = rt.alloc();
    let mut node = wide(&rt, alloc);
    let mut from = 0;
    // The pages come from the last row's number up to this one, and two are then loaded. Before the
    // last row but one more references come than a node notes.
    let rows = [
        (10, 9, 8),
        (11, 10, 7),
        (1_011, 1_010, 1_009),
        (2_011, 2_010, 2_009),
        (4_200, 4_199, 4_198),
        (4_201, 4_200, 4_197),
    ];
    for (to, first, second) in rows {
        takes_in(&rt, alloc, &mut node, from, to);
        loads(&rt, &mut node, first);
        loads(&rt, &mut node, second);
        from = to;
    }
}

#[test]
fn a_list_is_dropped_where_too_many_pages_come(rt: HostRuntime) {
    let alloc = rt.alloc();
    let mut node = wide(&rt, alloc);
    takes_in(&rt, alloc, &mut node, 0, 10);
    loads(&rt, &mut node, 9);
    // Five batches between two steps, of 1,000 references each: one too many.
    for (from, to) in [
        (10, 510),
        (510, 1_010),
        (1_010, 1_510),
        (1_510, 2_010),
        (2_010, 2_510),
    ] {
        takes_in(&rt, alloc, &mut node, from, to);
    }
    for no in [2_509, 2_508, 2_507, 2_506] {
        loads(&rt, &mut node, no);
    }
    assert!(rt; matches!(node.warm_step(), Ok(None)));
}

#[test]
fn references_are_merged_into_the_list(rt: HostRuntime) {
    lives(&rt, rt.alloc(), MERGED);
}

#[test]
fn a_warm_up_finds_what_left_again(rt: HostRuntime) {
    lives(&rt, rt.alloc(), BETWEEN_PINS);
    lives(&rt, rt.alloc(), HOTTEST_PUT_OUT);
}

#[test]
fn a_warm_up_puts_colder_pages_out(rt: HostRuntime) {
    lives(&rt, rt.alloc(), OVER_COLD_PAGES);
}

#[test]
fn a_warm_up_passes_pages_that_no_device_has(rt: HostRuntime) {
    lives(&rt, rt.alloc(), NOT_THERE);
}

#[test]
fn what_is_taken_in_is_loaded(rt: HostRuntime) {
    lives(&rt, rt.alloc(), TAKEN_IN);
}
