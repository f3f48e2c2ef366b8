//! What a pool counts, and which call of a device failed last.

use super::{AMPLE, Row, Said, lives, pool_of, pool_over, runs};
use std::alloc::Global;
use std::process::Abort;
use test_kit::{both, flaky, memory};
use warm_devices::{Counted, DeviceCounts, DeviceFault, PageDevice};
use warm_history::History;
use warm_pool::{Pool, PoolFault};

// Page 1 is dirty as page 3 comes in, page 2 isn't as page 4 does. The page that is evicted is the
// least, since none was referenced.
#[test]
fn hits_misses_evictions_and_writes_are_counted(rt: HostRuntime) {
    let alloc = rt.alloc();
    lives(
        &rt,
        alloc,
        2,
        memory(alloc, 8).expect(&rt, AMPLE),
        &[
            Row::Counts(0, 0, 0, 0),
            Row::Sizes(0, 0),
            Row::Fills(1),
            Row::Counts(0, 1, 0, 0),
            Row::Sizes(1, 1),
            Row::Visits(1),
            Row::Visits(2),
            Row::Counts(1, 2, 0, 0),
            Row::Sizes(2, 1),
            Row::Visits(3),
            Row::Counts(1, 3, 1, 1),
            Row::Visits(4),
            Row::Counts(1, 4, 2, 1),
            Row::Loads(0, 4, Said::At(1, 2)),
            Row::Counts(1, 4, 2, 1),
            Row::Loads(0, 5, Said::At(0, 3)),
            Row::Counts(1, 4, 3, 1),
            Row::Pins(4, Said::At(1, 2)),
            Row::Pins(5, Said::At(0, 3)),
            Row::Counts(3, 4, 3, 1),
            Row::Pins(6, Said::Refused(PoolFault::AllFixed)),
            Row::Pins(8, Said::Refused(PoolFault::NoPage)),
            Row::Counts(3, 4, 3, 1),
            Row::Sizes(2, 0),
            Row::Unpins(0, 3),
            Row::Unpins(1, 2),
            Row::Fills(4),
            Row::Fills(5),
            Row::Sizes(2, 2),
            Row::WritesBack(Said::Done),
            Row::Counts(5, 4, 3, 3),
            Row::WritesBack(Said::Done),
            Row::Empties(Said::Done),
            Row::Counts(5, 4, 3, 3),
            Row::Sizes(0, 0),
            Row::NoneFailed,
        ],
    );
}

// A pool of two frames, over a device whose call of this number fails, runs the test cases.
fn fails_at(rt: &impl Abort, alloc: Global, call: u64, rows: &[Row<'_>]) {
    lives(rt, alloc, 2, flaky(alloc, 8, call).expect(rt, AMPLE), rows);
}

#[test]
fn the_read_that_failed_is_named(rt: HostRuntime) {
    fails_at(
        &rt,
        rt.alloc(),
        2,
        &[
            Row::Fills(1),
            Row::NoneFailed,
            Row::Pins(2, Said::Refused(PoolFault::ReadFault)),
            Row::Failed(0, Some(2), DeviceFault::Read),
            Row::Counts(0, 1, 0, 0),
            Row::Visits(2),
            Row::Failed(0, Some(2), DeviceFault::Read),
            Row::Counts(0, 2, 0, 0),
        ],
    );
}

#[test]
fn the_write_that_failed_is_named(rt: HostRuntime) {
    fails_at(
        &rt,
        rt.alloc(),
        4,
        &[
            Row::Fills(1),
            Row::Visits(2),
            Row::Pins(3, Said::Refused(PoolFault::WriteBack)),
            Row::Failed(0, Some(1), DeviceFault::Write),
            Row::Counts(0, 2, 0, 0),
            Row::Sizes(2, 1),
            Row::Visits(3),
            Row::Counts(0, 3, 1, 1),
        ],
    );
}

#[test]
fn the_flush_that_failed_is_named(rt: HostRuntime) {
    fails_at(
        &rt,
        rt.alloc(),
        3,
        &[
            Row::Fills(1),
            Row::WritesBack(Said::Refused(PoolFault::Fault)),
            Row::Failed(0, None, DeviceFault::Flush),
            Row::Counts(0, 1, 0, 1),
            Row::WritesBack(Said::Done),
            Row::Failed(0, None, DeviceFault::Flush),
            Row::Counts(0, 1, 0, 1),
        ],
    );
}

// The device that failed is the second one; then the first one fails.
#[test]
fn the_device_that_failed_is_named(rt: HostRuntime) {
    let alloc = rt.alloc();
    let history = History::new(alloc);
    let first = flaky(alloc, 8, 1).expect(&rt, AMPLE);
    let second = flaky(alloc, 8, 1).expect(&rt, AMPLE);
    let mut pool = pool_of(
        &rt,
        alloc,
        2,
        16,
        both(alloc, first, second).expect(&rt, AMPLE),
    );
    runs(
        &rt,
        &mut pool,
        &history,
        &[
            Row::Loads(1, 7, Said::Refused(PoolFault::ReadFault)),
            Row::Failed(1, Some(7), DeviceFault::Read),
            Row::Loads(0, 3, Said::Refused(PoolFault::ReadFault)),
            Row::Failed(0, Some(3), DeviceFault::Read),
        ],
    );
    drop(pool);
}

// The counts of a pool's first device.
fn first_counts<D: PageDevice>(pool: &Pool<Counted<D>>) -> Option<DeviceCounts> {
    match pool.devices() {
        [first, ..] => Some(first.counts()),
        [] => None,
    }
}

const fn calls(reads: u64, writes: u64, flushes: u64) -> DeviceCounts {
    DeviceCounts {
        reads,
        writes,
        flushes,
    }
}

// The third call fails, which is a write, and is counted as one.
#[test]
fn a_device_counts_its_calls(rt: HostRuntime) {
    let alloc = rt.alloc();
    let history = History::new(alloc);
    let device = Counted::new(flaky(alloc, 8, 3).expect(&rt, AMPLE));
    let mut pool = pool_over(&rt, alloc, 2, device);
    assert!(rt; pool.devices().len() == 1 && first_counts(&pool) == Some(calls(0, 0, 0)));
    runs(
        &rt,
        &mut pool,
        &history,
        &[
            Row::Fills(1),
            Row::Visits(1),
            Row::Visits(2),
            Row::WritesBack(Said::Refused(PoolFault::Fault)),
            Row::Failed(0, Some(1), DeviceFault::Write),
        ],
    );
    assert!(rt; first_counts(&pool) == Some(calls(2, 1, 0)));
    runs(
        &rt,
        &mut pool,
        &history,
        &[
            Row::WritesBack(Said::Done),
            Row::WritesBack(Said::Done),
            Row::Counts(1, 2, 0, 1),
        ],
    );
    assert!(rt; first_counts(&pool) == Some(calls(2, 2, 1)));
    drop(pool);
}
