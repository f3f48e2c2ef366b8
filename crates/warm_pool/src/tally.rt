//! What a pool counts, and which call of a device failed last. No contract of a pool says anything
//! of either.

use warm_devices::DeviceFault;
use warm_stamps::PageId;

/// What a pool has done since it was made. A count that passes 2^64-1 goes on from 0, so the
/// difference of two readings stays exact.
///
/// A refused call counts as neither hit nor miss.
#[derive(Clone, Copy, PartialEq, Eq, Debug)]
pub struct PoolCounts {
    /// The pins of a page that was resident.
    pub hits: u64,
    /// The pins of a page that was in no frame, whether it was read, or filled with zeros or with
    /// bytes that were given.
    pub misses: u64,
    /// The pages that were evicted for another one, by a pin or a load.
    pub evictions: u64,
    /// The pages that were written back.
    pub written_back: u64,
}

/// A call of a device that failed.
#[derive(Clone, Copy, PartialEq, Eq, Debug)]
pub struct FailedCall {
    /// The number of the device.
    pub dev: u16,
    /// The number of the page within the device; `None` if a flush failed.
    pub page: Option<u64>,
    /// What was done: a read, a write or a flush.
    pub what: DeviceFault,
}

/// The counts of a pool, and the call of a device that failed last.
#[derive(Clone, Copy)]
pub(crate) struct Tally {
    counts: PoolCounts,
    failed: Option<FailedCall>,
}

impl Tally {
    /// Nothing was counted yet, and no call has failed.
    pub(crate) fn new() -> Tally {
        Tally {
            counts: PoolCounts {
                hits: 0,
                misses: 0,
                evictions: 0,
                written_back: 0,
            },
            failed: None,
        }
    }

    /// The counts so far.
    pub(crate) fn counts(&self) -> PoolCounts {
        self.counts
    }

    /// The call that failed last.
    pub(crate) fn last_failure(&self) -> Option<FailedCall> {
        self.failed
    }

    // The counts wrap, since a saturating count costs each hit a compare more.

    /// A resident page was pinned.
    pub(crate) fn hit(&mut self) {
        self.counts.hits = self.counts.hits.wrapping_add(1);
    }

    /// A page came into the frame of this one, with a pin count of 1 by a pin, and 0 by a load.
    pub(crate) fn came_in(&mut self, fixes: u32, evicted: Option<PageId>) {
        self.counts.misses = self.counts.misses.wrapping_add(u64::from(fixes));
        let left = u64::from(evicted.is_some());
        self.counts.evictions = self.counts.evictions.wrapping_add(left);
    }

    /// A page was read, or was not.
    pub(crate) fn read(&mut self, page: PageId, done: bool) {
        if !done {
            self.fail(page.dev, Some(page.no), DeviceFault::Read);
        }
    }

    /// A page was written, or was not.
    pub(crate) fn wrote(&mut self, page: PageId, done: bool) {
        if !done {
            self.fail(page.dev, Some(page.no), DeviceFault::Write);
            return;
        }
        self.counts.written_back = self.counts.written_back.wrapping_add(1);
    }

    /// A device was flushed, or was not.
    pub(crate) fn flushed(&mut self, device: usize, done: bool) {
        if done {
            return;
        }
        // The number fits: a pool has at most 65,536 devices.
        if let Ok(dev) = u16::try_from(device) {
            self.fail(dev, None, DeviceFault::Flush);
        }
    }

    // A call of a device failed.
    fn fail(&mut self, dev: u16, page: Option<u64>, what: DeviceFault) {
        self.failed = Some(FailedCall { dev, page, what });
    }
}
