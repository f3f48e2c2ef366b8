//! Joining a whole history, as a restored one: what the node then knows, and its victims and
//! hottest pages.

use super::{Row, Said, lives};

// The two latest stamps of each page of both.
const BOTH: &[Row] = &[
    Row::Joins(0, &[]),
    Row::Knows(0, &[]),
    Row::Absorbs(&[(0, 1, 10, 1), (0, 1, 20, 1), (0, 2, 5, 1)]),
    Row::Joins(
        0,
        &[(0, 1, 15, 1), (0, 2, 8, 1), (0, 3, 30, 1), (0, 65, 4, 1)],
    ),
    Row::Knows(0, &[(1, 20, 15), (2, 8, 5), (3, 30, 0), (65, 4, 0)]),
    // The same again changes nothing.
    Row::Joins(
        0,
        &[(0, 1, 15, 1), (0, 2, 8, 1), (0, 3, 30, 1), (0, 65, 4, 1)],
    ),
    Row::Knows(0, &[(1, 20, 15), (2, 8, 5), (3, 30, 0), (65, 4, 0)]),
];

#[test]
fn a_history_is_joined(rt: HostRuntime) {
    lives(&rt, rt.alloc(), BOTH)
}

// Afterwards the horizon is the greater of both, and neither has brought an older stamp.
const HORIZONS: &[Row] = &[
    Row::Absorbs(&[(0, 1, 10, 1), (0, 1, 20, 1), (0, 2, 5, 1)]),
    Row::Joins(12, &[(0, 3, 11, 1), (0, 3, 30, 1)]),
    Row::Knows(12, &[(1, 20, 0), (3, 30, 0)]),
    Row::Joins(4, &[(0, 2, 6, 1), (0, 2, 40, 1), (0, 5, 7, 1)]),
    Row::Knows(12, &[(1, 20, 0), (2, 40, 0), (3, 30, 0)]),
    Row::Joins(50, &[]),
    Row::Knows(50, &[]),
];

#[test]
fn a_joined_history_brings_its_horizon(rt: HostRuntime) {
    lives(&rt, rt.alloc(), HORIZONS)
}

// Of pages 1 and 2, each referenced twice, page 1 has the older second stamp and leaves first,
// until the joined history has two later stamps of it. At horizon 35 each has one stamp left, and
// the older is that of page 2.
const RANKS: &[Row] = &[
    Row::Absorbs(&[(0, 1, 2, 1), (0, 1, 20, 1), (0, 2, 5, 1), (0, 2, 30, 1)]),
    Row::Pins(1, Said::Pinned(0, 1)),
    Row::Pins(2, Said::Pinned(1, 1)),
    Row::Unpins(0, 1),
    Row::Unpins(1, 1),
    Row::Victim(Some(1)),
    Row::Joins(0, &[(0, 1, 25, 1), (0, 1, 26, 1)]),
    Row::Victim(Some(2)),
    Row::Joins(0, &[(0, 2, 40, 1)]),
    Row::Victim(Some(1)),
    Row::Joins(0, &[(0, 1, 60, 1)]),
    Row::Victim(Some(1)),
    Row::Joins(35, &[]),
    Row::Victim(Some(2)),
];

#[test]
fn a_joined_history_ranks_the_pool(rt: HostRuntime) {
    lives(&rt, rt.alloc(), RANKS)
}

// The list by which a node warms up follows, after a step that has kept it.
const WARM_UP: &[Row] = &[
    Row::Absorbs(&[(0, 1, 2, 1), (0, 1, 3, 1), (0, 2, 1, 1)]),
    Row::Loads(Said::Loaded(Some(1))),
    Row::Joins(0, &[(0, 7, 10, 1), (0, 7, 11, 1)]),
    Row::Hottest(&[7, 1, 2]),
    Row::Loads(Said::Loaded(Some(7))),
    Row::Loads(Said::Loaded(Some(2))),
    Row::Loads(Said::Loaded(None)),
];

#[test]
fn the_warm_up_follows_a_join(rt: HostRuntime) {
    lives(&rt, rt.alloc(), WARM_UP)
}
