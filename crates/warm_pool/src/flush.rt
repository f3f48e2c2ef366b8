//! Flushing the devices of a pool: one of them, after its pages were written back, or all.
ghost use Rattle.std.specs.Prelude.{◌<◌, length, map, OnOk, OnErr, IfErr};
ghost use Rattle.warm_pool.specs.Unchanged.{KeepsRanks};
ghost use Rattle.warm_pool.specs.Outcomes.{FlushDeviceFails, SettlesDevice};
ghost use Rattle.warm_pool.specs.steps.Flushes.{DeviceFlush, FlushedTo, FlushStops};

use crate::fault::PoolFault;
use crate::pool::Pool;
use crate::tally::Tally;
use warm_devices::{DeviceFault, PageDevice};

impl<D: PageDevice> Pool<D> {
    /// Writes back the dirty pages of one device, in the order of frames, and flushes it if it is
    /// unflushed. Other devices, and the frames of their pages, are unchanged, whether the call is
    /// refused or not.
    ///
    /// # Errors
    /// In this order; each leaves pages, pin counts and contents unchanged.
    /// - `NoDevice`: there is no device of this number. Nothing is changed.
    /// - `Fault`: a write or the flush of the device failed, and its count of failures has
    ///   increased. The write-backs made before it stay.
    pub fn flush_device(&mut self, dev: u16) -> Result<(), PoolFault>
        ensures ranked { KeepsRanks self.old self.new }
        ensures done { OnOk result (SettlesDevice dev self.old self.new) }
        ensures refused { IfErr result (λ why. FlushDeviceFails dev self.old why self.new) }
    {
        if dev as usize >= self.devices.len() {
            return Err(PoolFault::NoDevice);
        }
        self.settle_device(dev).map_err(|_| PoolFault::Fault)?;
        Ok(())
    }
}

/// Flushes each unflushed device, in rising order, up to the first that fails.
pub(crate) fn flush_all<D: PageDevice>(
    devices: &mut Vec<D>,
    tally: &mut Tally,
) -> Result<(), DeviceFault>
    ensures flushed { OnOk result (FlushedTo (length devices.old.items)
        (map D.state devices.old.items) (map D.state devices.new.items)) }
    ensures stopped { OnErr result (FlushStops
        (map D.state devices.old.items) (map D.state devices.new.items)) }
{
    for at in 0..devices.len() {
        flush_device(devices, tally, at)?;
    }
    Ok(())
}

/// Flushes one of the devices, if it is unflushed.
pub(crate) fn flush_device<D: PageDevice>(
    devices: &mut Vec<D>,
    tally: &mut Tally,
    at: usize,
) -> Result<(), DeviceFault>
    requires { at < length devices.old.items }
    ensures { DeviceFlush (map D.state devices.old.items)
        (map D.state devices.new.items) at result }
{
    if !devices[at].waiting() {
        return Ok(());
    }
    let done = devices[at].flush();
    tally.flushed(at, done.is_ok());
    done
}
