//! What was counted, and which call of a device failed, as it crosses to C.
ghost use Rattle.std.specs.Prelude.{◌≡◌};
ghost use Rattle.warm_c_base.specs.Counters.{c_counters, c_failure, page_number, IsOptionalFailure};

use warm_pool::{FailedCall, PoolCounts};

/// What a pool has counted since its handle was opened, and what it has now.
#[repr(C)]
#[derive(Clone, Copy)]
pub struct WarmCounters {
    /// The pins of a page that was resident.
    pub hits: u64,
    /// The pins of a page that was in no frame.
    pub misses: u64,
    /// The pages that were evicted for another one.
    pub evictions: u64,
    /// The pages that were written back.
    pub written_back: u64,
    /// The pages that are resident.
    pub resident: u64,
    /// The pages that are dirty.
    pub dirty: u64,
}

/// What a device has counted since it was made: the calls, whether they failed or not, and how many
/// failed.
#[repr(C)]
#[derive(Clone, Copy)]
pub struct WarmDeviceCounters {
    /// The reads of a page.
    pub reads: u64,
    /// The writes of a page.
    pub writes: u64,
    /// The flushes.
    pub flushes: u64,
    /// The calls that failed.
    pub failures: u64,
}

/// A call of a device that failed.
#[repr(C)]
#[derive(Clone, Copy)]
pub struct WarmFailure {
    /// The page's number on its device; 0 of a flush.
    pub no: u64,
    /// The device's number.
    pub dev: u16,
    /// What was done, as [`warm_devices::DeviceFault::code`] numbers it.
    pub what: u16,
    /// The errno of the call.
    pub error: i32,
}

impl WarmCounters {
    /// Returns the counts of a pool as C has them, with these numbers of resident and dirty pages.
    pub fn of(counts: PoolCounts, resident: usize, dirty: usize) -> WarmCounters
        ensures { result ≡ c_counters counts resident dirty }
    {
        WarmCounters {
            hits: counts.hits,
            misses: counts.misses,
            evictions: counts.evictions,
            written_back: counts.written_back,
            resident: resident as u64,
            dirty: dirty as u64,
        }
    }
}

// The number of the page, 0 if there is none.
fn page_number(page: Option<u64>) -> u64
    ensures { result ≡ page_number page }
{
    match page {
        Some(no) => no,
        None => 0,
    }
}

impl WarmFailure {
    /// Returns a failed call as C has it.
    pub fn of(failed: FailedCall, error: i32) -> WarmFailure
        ensures { result ≡ c_failure failed error }
    {
        WarmFailure {
            no: page_number(failed.page),
            dev: failed.dev,
            what: u16::from(failed.what.code()),
            error,
        }
    }
}

/// Writes whether a call has failed, as a bool of C, and which; `failure` is unchanged if none has.
pub fn put_failure(given: Option<FailedCall>, error: i32, found: &mut u8, failure: &mut WarmFailure)
    ensures { IsOptionalFailure given error failure.old found.new failure.new }
{
    match given {
        Some(given) => {
            *found = 1;
            *failure = WarmFailure::of(given, error);
        }
        None => *found = 0,
    }
}
