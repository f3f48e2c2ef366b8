//! Forgetting the last pages of a device.
ghost use Rattle.std.specs.Prelude.{◌≡◌, ◌<◌, length, OnOk, IfErr};
ghost use Rattle.warm_frame_table.specs.FrameSteps.{changed_at};
ghost use Rattle.warm_frame_table.specs.Selection.{vacated_selected};
ghost use Rattle.warm_pool.specs.Unchanged.{KeepsRanks};
ghost use Rattle.warm_pool.specs.WritingBack.{clean_if};
ghost use Rattle.warm_pool.specs.Forgetting.{Forgets, ForgetRefused, MayForget};
ghost use Rattle.warm_pool.specs.steps.Forgetting.{selected_cleaned};

use crate::close::is_fixed;
use crate::fault::PoolFault;
use crate::pool::Pool;
use warm_devices::PageDevice;
use warm_frame_table::{Devices, Frames};

impl<D: PageDevice> Pool<D> {
    /// Evicts the pages of a device with the number `from` and above, and does not write them: what
    /// only their frames hold is lost. So a program that cuts a file at a page makes the pool
    /// forget what was beyond. No device is called. The cost is linear in the number of frames.
    ///
    /// Of an honest device each of these pages has the contents that the device has; all other
    /// pages keep theirs.
    ///
    /// # Errors
    /// In this order; each changes nothing.
    /// - `NoDevice`: there is no device of this number.
    /// - `Fixed`: one of the pages is pinned.
    pub fn forget_pages(&mut self, dev: u16, from: u64) -> Result<(), PoolFault>
        ensures ranked { KeepsRanks self.old self.new }
        ensures forgotten { OnOk result (Forgets self.old dev from self.new) }
        ensures refused { IfErr result (λ fault. ForgetRefused self.old dev from fault self.new) }
    {
        if dev as usize >= self.devices.len() {
            return Err(PoolFault::NoDevice);
        }
        if is_fixed(&self.frames, Devices::PagesFrom(dev, from)) {
            return Err(PoolFault::Fixed);
        }
        forget(&mut self.frames, Devices::PagesFrom(dev, from));
        Ok(())
    }

    /// Whether [`Pool::forget_pages`] forgets these pages now. So several pools forget all or
    /// nothing together: each is asked before the first of them forgets. The cost is linear in the
    /// number of frames.
    ///
    /// # Errors
    /// That of `forget_pages`.
    pub fn may_forget(&self, dev: u16, from: u64) -> Result<(), PoolFault>
        ensures may { OnOk result (MayForget self.now dev from) }
        ensures refused { IfErr result (λ fault. ForgetRefused self.now dev from fault self.now) }
    {
        if dev as usize >= self.devices.len() {
            return Err(PoolFault::NoDevice);
        }
        let these = Devices::PagesFrom(dev, from);
        if is_fixed(&self.frames, these) {
            return Err(PoolFault::Fixed);
        }
        Ok(())
    }
}

// Evicts the pages of the selected frames, dirty or not.
fn forget(frames: &mut Frames, which: Devices)
    ensures { frames.new ≡ record frames.old { frames = vacated_selected which frames.old.frames } }
{
    clean_selected(frames, which);
    frames.vacate_selected(which);
}

// Marks the pages of the selected frames as clean.
fn clean_selected(frames: &mut Frames, which: Devices)
    ensures { frames.new ≡ selected_cleaned which frames.old }
{
    for at in 0..frames.len() {
        clean_one(frames, at, which);
    }
}

// Marks the page of a frame as clean, if it is selected.
fn clean_one(frames: &mut Frames, at: usize, which: Devices)
    requires { at < length frames.old.frames }
    ensures { frames.new ≡ changed_at frames.old at (clean_if which) }
{
    if !which.selects(frames.page(at)) {
        return;
    }
    frames.clean(at);
}
