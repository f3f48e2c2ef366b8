//! Writing back the pages of a pool: of all frames, of those of one device, and of one frame.
ghost use Rattle.std.specs.Prelude.{◌≡◌, ◌<◌, length, map, false, OnOk, OnErr, IfErr};
ghost use Rattle.warm_frame_table.specs.declared.selection.Devices.TheVariants.{All, One};
ghost use Rattle.warm_frame_table.specs.Frames.{nth_frame};
ghost use Rattle.warm_pool.specs.State.{nth_device, IsPool, pool_over};
ghost use Rattle.warm_pool.specs.View.{view_of};
ghost use Rattle.warm_pool.specs.Unchanged.{FailsAt, KeepsRanks};
ghost use Rattle.warm_pool.specs.WritingBack.{WriteBackFails, StopsAt};
ghost use Rattle.warm_pool.specs.steps.WritingBack.{WritesBackAll, WritesBackOne, KeepsUnselected};
ghost use Rattle.warm_pool.specs.steps.WritingBack.{SelectedFails, Cleans, CleanFails};
ghost use Rattle.warm_pool.specs.steps.WritingBack.{KeepsDevicesBut, WritesFrame};
ghost use Rattle.warm_pool.specs.WritingSome.{KeepsOtherDevices, StopsAtDevice};
ghost use Rattle.warm_pool.specs.Retiring.{KeepsElsewhere};
ghost use Rattle.warm_pool.specs.Calls.{FlushesNone, FlushesOnce, ReadsNone};
ghost use Rattle.warm_pool.specs.steps.Flushes.{NoneWaits};
ghost use Rattle.warm_pool.specs.Outcomes.{WriteAllFails, WritesAllBack};

use crate::device_list::write_page;
use crate::fault::PoolFault;
use crate::flush::{flush_all, flush_device};
use crate::pool::Pool;
use crate::tally::Tally;
use warm_devices::{DeviceFault, PageDevice};
use warm_frame_table::{Devices, Frames};

impl<D: PageDevice> Pool<D> {
    /// Writes back each dirty page to its device, in the order of frames, and then flushes the
    /// unflushed devices, in rising order.
    ///
    /// # Errors
    /// `Fault` at the first write or flush that fails. Pages, pin counts and contents are
    /// unchanged, and the write-backs made before it stay.
    pub fn write_back_all(&mut self) -> Result<(), PoolFault>
        ensures ranked { KeepsRanks self.old self.new }
        ensures done { OnOk result (WritesAllBack self.old self.new) }
        ensures refused { IfErr result (λ why. WriteAllFails self.old why self.new) }
    {
        self.settle().map_err(|_| PoolFault::Fault)?;
        Ok(())
    }

    // Writes back all pages and flushes all devices.
    pub(crate) fn settle(&mut self) -> Result<(), DeviceFault>
        ensures down { OnOk result (WritesBackAll All self.old self.new) }
        ensures flushed { OnOk result (NoneWaits self.new.devices) }
        ensures stopped { OnErr result (WriteBackFails self.old self.new) }
        ensures once { FlushesOnce self.old.devices self.new.devices }
        ensures ranked { KeepsRanks self.old self.new }
    {
        self.clean_selected(Devices::All)?;
        flush_all(&mut self.devices, &mut self.tally)?;
        Ok(())
    }

    // Writes back the pages of one device and flushes it.
    pub(crate) fn settle_device(&mut self, dev: u16) -> Result<(), DeviceFault>
        requires there { dev < length self.old.devices }
        ensures down { OnOk result (WritesBackAll (One dev) self.old self.new) }
        ensures flushed { OnOk result ((nth_device self.new.devices dev).waiting ≡ false) }
        ensures stopped { OnErr result (FailsAt (view_of self.old) dev (view_of self.new)) }
        ensures left { OnErr result (StopsAtDevice dev self.old self.new) }
        ensures elsewhere { KeepsElsewhere dev self.old self.new }
        ensures others { KeepsOtherDevices dev self.old self.new }
        ensures once { FlushesOnce self.old.devices self.new.devices }
        ensures ranked { KeepsRanks self.old self.new }
    {
        self.clean_selected(Devices::One(dev))?;
        flush_device(&mut self.devices, &mut self.tally, dev as usize)?;
        Ok(())
    }

    // Writes back the pages of the selected frames.
    fn clean_selected(&mut self, which: Devices) -> Result<(), DeviceFault>
        ensures down { OnOk result (WritesBackAll which self.old self.new) }
        ensures stopped { OnErr result (StopsAt which self.old self.new) }
        ensures others { KeepsUnselected which self.old self.new }
        ensures unflushed { FlushesNone self.old.devices self.new.devices }
    {
        for at in 0..self.frames.len() {
            self.clean_if(at, which)?;
        }
        Ok(())
    }

    // Writes back the page of a frame, if it is selected.
    pub(crate) fn clean_if(&mut self, at: usize, which: Devices) -> Result<(), DeviceFault>
        requires there { at < length self.old.frames }
        ensures down { OnOk result (WritesBackOne which self.old at self.new) }
        ensures failed { OnErr result (SelectedFails which self.old at self.new) }
        ensures others { KeepsUnselected which self.old self.new }
        ensures unflushed { FlushesNone self.old.devices self.new.devices }
    {
        // Mostly a page is clean: that is seen first, without its number.
        if !self.frames.is_dirty(at) {
            return Ok(());
        }
        if !which.selects(self.frames.page(at)) {
            return Ok(());
        }
        write_back(&mut self.frames, &mut self.devices, &mut self.tally, at)
    }
}

// Writes back the page of a frame, if it is dirty.
//
// Frames and devices are those of a pool. A page being loaded is already in the spare buffer, whose
// bytes are not part of a pool's value: so this function takes the fields, to which no type
// invariant applies.
pub(crate) fn write_back<D: PageDevice>(
    frames: &mut Frames,
    devices: &mut Vec<D>,
    tally: &mut Tally,
    at: usize,
) -> Result<(), DeviceFault>
    requires fit { IsPool (pool_over D.state frames.old frames.old.page_size devices.old.items) }
    requires there { at < length frames.old.frames }
    ensures fit { IsPool (pool_over D.state frames.new frames.old.page_size devices.new.items) }
    ensures done { OnOk result (Cleans
        (pool_over D.state frames.old frames.old.page_size devices.old.items) at
        (pool_over D.state frames.new frames.old.page_size devices.new.items)) }
    ensures failed { OnErr result (CleanFails
        (pool_over D.state frames.old frames.old.page_size devices.old.items) at
        (pool_over D.state frames.new frames.old.page_size devices.new.items)) }
    ensures wrote { WritesFrame (nth_frame frames.old.frames at) (map D.state devices.old.items)
        (map D.state devices.new.items) result }
    ensures others { KeepsDevicesBut (nth_frame frames.old.frames at).page
        (pool_over D.state frames.old frames.old.page_size devices.old.items)
        (pool_over D.state frames.new frames.old.page_size devices.new.items) }
    ensures unflushed { FlushesNone (map D.state devices.old.items)
        (map D.state devices.new.items) }
    ensures unread { ReadsNone (map D.state devices.old.items) (map D.state devices.new.items) }
{
    let Some(page) = frames.page(at) else {
        return Ok(());
    };
    if !frames.is_dirty(at) {
        return Ok(());
    }
    write_page(devices, tally, page, frames.bytes(at))?;
    frames.clean(at);
    Ok(())
}
