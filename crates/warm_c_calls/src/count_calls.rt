//! The calls on an open handle that say what was counted, and which call of a device failed last.
ghost use Rattle.std.specs.Prelude.{◌≡◌, ◌<◌, length, map};
ghost use Rattle.warm_pool.specs.State.{nth_device};
ghost use Rattle.warm_c_calls.specs.CountCalls.{CountsDevice, CountsPool, SaysFailure};
ghost use Rattle.warm_c_base.specs.FdParts.{fd_state};

use crate::open_node::OpenNode;
use warm_c_base::{FdDevice, Refusal, WarmCounters, WarmDeviceCounters, WarmFailure, put_failure};
use warm_gossip::NodeFault;
use warm_pool::{FailedCall, PoolFault};

// What one of the devices has counted.
fn counters_of(devices: &[FdDevice], dev: usize) -> WarmDeviceCounters
    requires { dev < length devices.now }
    ensures { result.failures ≡ (nth_device (map fd_state devices.now) dev).failures }
{
    devices[dev].counters()
}

impl OpenNode {
    /// What the pool has counted, and how many pages are resident and dirty.
    pub fn counts(&self) -> WarmCounters
        ensures { CountsPool result self.now self.now }
    {
        let pool = self.node.pool();
        WarmCounters::of(pool.counts(), pool.resident_count(), pool.dirty())
    }

    /// Writes what a device has counted.
    ///
    /// # Errors
    /// `Node`, with `NoDevice`: there is no device of this number. `counters` is unchanged.
    pub fn device_counts(&self, dev: u16, counters: &mut WarmDeviceCounters) -> Result<(), Refusal>
        ensures { CountsDevice dev counters.old counters.new self.now result self.now }
    {
        let devices = self.node.pool().devices();
        if dev as usize >= devices.len() {
            return Err(Refusal::Node(NodeFault::Pool(PoolFault::NoDevice)));
        }
        *counters = counters_of(devices, dev as usize);
        Ok(())
    }

    /// Writes whether a call of a device has failed, as a bool of C, and which did last; `failure`
    /// is unchanged if none has.
    pub fn last_failure(&self, found: &mut u8, failure: &mut WarmFailure)
        ensures { SaysFailure failure.old found.new failure.new self.now self.now }
    {
        let failed = self.node.pool().last_failure();
        put_failure(failed, self.error_of(failed), found, failure);
    }

    // The errno of a failed call: that of the last failure of its device, which is this one, unless
    // the device was replaced since. The new one has failed in nothing then, and the errno is 0.
    fn error_of(&self, failed: Option<FailedCall>) -> i32 {
        let Some(failed) = failed else {
            return 0;
        };
        let devices = self.node.pool().devices();
        if failed.dev as usize >= devices.len() {
            return 0;
        }
        devices[failed.dev as usize].error()
    }
}
