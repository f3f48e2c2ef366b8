//! Replacing a device of a pool: by [`Pool::replace`], which gives the old one back, and by
//! [`Pool::retire`], which drops it.
ghost use Rattle.std.specs.Prelude.{◌≡◌, ◌≢◌, ◌<◌, length, map, false, OnOk, IfOk, IfErr, set};
ghost use Rattle.warm_devices.specs.Device.{DeviceState};
ghost use Rattle.warm_frame_table.specs.declared.selection.Devices.TheVariants.{One};
ghost use Rattle.warm_frame_table.specs.Selection.{AreClean};
ghost use Rattle.warm_pool.specs.State.{nth_device};
ghost use Rattle.warm_pool.specs.View.{view_of};
ghost use Rattle.warm_pool.specs.Unchanged.{KeepsRanks};
ghost use Rattle.warm_pool.specs.WritingSome.{KeepsOtherDevices, StopsAtDevice};
ghost use Rattle.warm_pool.specs.Retiring.{RetireRefused, KeepsElsewhere, retired};
ghost use Rattle.warm_pool.specs.steps.Retiring.{AreUnfixed, PreparesRetire};
ghost use Rattle.warm_pool.specs.HandingBack.{HandsBackOne};
ghost use Rattle.warm_pool.specs.Calls.{FlushesOnce};
ghost use Rattle.warm_pool.specs.declared.fault.PoolFault.TheVariants.{Fault};
ghost use Rattle.warm_pool.specs.Outcomes.{ReplacesDevice, RetireFails, RetiresDevice};

use crate::close::is_fixed;
use crate::fault::{PoolFault, RetireError};
use crate::pool::Pool;
use std::mem;
use warm_devices::{PageDevice, let_go};
use warm_frame_table::Devices;

impl<D: PageDevice> Pool<D> {
    /// Replaces a device with another, and returns the old one. The dirty pages of the old device
    /// are written back, it is flushed, and its pages are evicted. An honest one then has every
    /// page as the pool had it. The new device may have another number of pages. Other devices and
    /// their frames are unchanged, whether the call is refused or not.
    ///
    /// # Errors
    /// In this order; each gives the new device back. Only `Fault` changes anything.
    /// - `NoDevice`: there is no device of this number.
    /// - `SizeDiffers`: the page size of the new device is not that of the pool.
    /// - `Fixed`: a page of the device is pinned.
    /// - `Fault`: a write or the flush of the device failed, and its count of failures has
    ///   increased. Pages, pin counts and contents are unchanged, and the write-backs made before
    ///   it stay.
    pub fn replace(&mut self, dev: u16, device: D) -> Result<D, RetireError<D>>
        ensures ranked { KeepsRanks self.old self.new }
        ensures done { IfOk result (λ was. ReplacesDevice
            dev (D.state device) self.old (D.state was) self.new) }
        ensures refused { IfErr result (λ unretired. RetireFails
            dev (D.state device) self.old unretired.fault self.new) }
        ensures given_back { IfErr result (λ unretired. unretired.device ≡ device) }
    {
        match self.prepare_retire(dev, device.page_size()) {
            Ok(()) => Ok(self.install_device(dev, device)),
            Err(fault) => Err(RetireError { fault, device }),
        }
    }

    /// Replaces a device with another, as [`Pool::replace`] does, and drops the old one.
    ///
    /// # Errors
    /// Those of [`Pool::replace`], with the same effects.
    pub fn retire(&mut self, dev: u16, device: D) -> Result<(), RetireError<D>>
        ensures ranked { KeepsRanks self.old self.new }
        ensures done { OnOk result (RetiresDevice dev (D.state device) self.old self.new) }
        ensures refused { IfErr result (λ unretired. RetireFails
            dev (D.state device) self.old unretired.fault self.new) }
        ensures given_back { IfErr result (λ unretired. unretired.device ≡ device) }
    {
        let old = self.replace(dev, device)?;
        let_go(old);
        Ok(())
    }

    // Writes back the pages of a device and flushes it, if a device with pages of this size may
    // replace it.
    fn prepare_retire(&mut self, dev: u16, page_size: usize) -> Result<(), PoolFault>
        ensures way { OnOk result (PreparesRetire self.old dev page_size self.new) }
        ensures refused { IfErr result (λ fault. (device : DeviceState) → device.page_size
            ≡ page_size → RetireRefused (view_of self.old) dev device fault
            (view_of self.new)) }
        ensures unchanged { IfErr result (λ fault. fault ≢ Fault → self.new ≡ self.old) }
        ensures stopped { IfErr result (λ fault. fault ≡ Fault
            → StopsAtDevice dev self.old self.new) }
        ensures elsewhere { KeepsElsewhere dev self.old self.new }
        ensures others { KeepsOtherDevices dev self.old self.new }
        ensures once { FlushesOnce self.old.devices self.new.devices }
        ensures ranked { KeepsRanks self.old self.new }
    {
        if dev as usize >= self.devices.len() {
            return Err(PoolFault::NoDevice);
        }
        if page_size != self.frames.page_size() {
            return Err(PoolFault::SizeDiffers);
        }
        if is_fixed(&self.frames, Devices::One(dev)) {
            return Err(PoolFault::Fixed);
        }
        self.settle_device(dev).map_err(|_| PoolFault::Fault)?;
        Ok(())
    }

    // Replaces a flushed device, and evicts its pages. The old device is returned.
    fn install_device(&mut self, dev: u16, device: D) -> D
        requires there { dev < length self.old.devices }
        requires clean { AreClean (One dev) self.old.frames }
        requires unfixed { AreUnfixed (One dev) self.old.frames }
        requires quiet { (nth_device self.old.devices dev).waiting ≡ false }
        requires sized { (D.state device).page_size ≡ self.old.page_size }
        ensures retired { self.new ≡ retired self.old dev (D.state device) }
        ensures handed_back { HandsBackOne self.old dev (D.state result) }
    {
        self.frames.vacate_selected(Devices::One(dev));
        exchange(&mut self.devices, dev as usize, device)
    }
}

// Replaces a device with another, and returns the old one.
fn exchange<D: PageDevice>(devices: &mut Vec<D>, at: usize, device: D) -> D
    requires there { at < length devices.old.items }
    ensures given { D.state result ≡ nth_device (map D.state devices.old.items) at }
    ensures put { map D.state devices.new.items
        ≡ set (map D.state devices.old.items) at (D.state device) }
{
    mem::replace(&mut devices[at], device)
}
