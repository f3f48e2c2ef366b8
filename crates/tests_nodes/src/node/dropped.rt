//! The contents of a device after a node over it is dropped.

use super::{Row, Said, over, runs};
use test_kit::noting;

// Page 1 is written back by the restart, and then written again in its frame only.
const WRITTEN_ONCE: &[Row] = &[
    Row::Absorbs(&[(0, 1, 1, 1)]),
    Row::Pins(1, Said::Pinned(0, 1)),
    Row::Writes(0, 1, &[0xAA; 16]),
    Row::Unpins(0, 1),
    Row::Restarts,
    Row::Pins(1, Said::Pinned(0, 2)),
    Row::Writes(0, 2, &[0xBB; 16]),
];

// The device has what was last written to it, and is dropped once.
#[test]
fn a_dropped_node_writes_to_no_device(rt: HostRuntime) {
    let alloc = rt.alloc();
    let (device, note) = noting(alloc, 2, 16).expect(&rt, "memory for a device");
    let mut node = over(&rt, alloc, 1, 1, device);
    runs(&rt, alloc, &mut node, WRITTEN_ONCE);
    drop(node);
    assert!(rt; note.has(0, &[0; 16]) && note.has(1, &[0xAA; 16]) && note.counts() == (1, 1));
}
