//! Writing back some of a pool's pages, or one page.
ghost use Rattle.std.specs.Prelude.{◌≡◌, ◌<◌, length, OnOk, IfErr, IfOk, OnErr};
ghost use Rattle.warm_frame_table.specs.Frames.{nth_frame};
ghost use Rattle.warm_pool.specs.Unchanged.{KeepsRanks};
ghost use Rattle.warm_pool.specs.Calls.{FlushesNone};
ghost use Rattle.warm_pool.specs.steps.WritingBack.{CleanFails, Cleans, WritesFrame};
ghost use Rattle.warm_pool.specs.WritingSome.{CleansFirst, SomeFails, room_after};
ghost use Rattle.warm_pool.specs.Outcomes.{WritePageFails, WriteSomeFails, WritesPageBack};
ghost use Rattle.warm_pool.specs.Outcomes.{WritesSomeBack};

use crate::fault::PoolFault;
use crate::pool::Pool;
use crate::write_back::write_back;
use warm_devices::{DeviceFault, PageDevice};
use warm_frame_table::Devices;
use warm_stamps::PageId;

impl<D: PageDevice> Pool<D> {
    /// Writes back at most `limit` dirty pages, those of the first dirty frames, and returns how
    /// many pages are still dirty. No device is flushed: what was written is durable only after
    /// [`Pool::flush_device`] or [`Pool::write_back_all`].
    ///
    /// The order is that of frames, from the first one at each call. So pages that are written to
    /// between the calls may be written back again before others are for the first time: a
    /// checkpoint that must end takes a `limit` above the number of pages that become dirty
    /// meanwhile.
    ///
    /// # Errors
    /// `Fault` if a write failed. Pages, pin counts and contents are unchanged; the write-backs
    /// made before it stay, and all other pages are dirty as before.
    pub fn write_back_some(&mut self, limit: usize) -> Result<usize, PoolFault>
        ensures ranked { KeepsRanks self.old self.new }
        ensures done { IfOk result (λ left. WritesSomeBack limit self.old left self.new) }
        ensures refused { IfErr result (λ why. WriteSomeFails limit self.old why self.new) }
    {
        self.clean_first(limit).map_err(|_| PoolFault::Fault)?;
        Ok(self.dirty())
    }

    /// Writes back one page, if it is resident and dirty, and returns whether it was; otherwise
    /// nothing is changed. A pinned page is written too. Its device is called once, and no other
    /// one. No device is flushed: what was written is durable only after [`Pool::flush_device`] or
    /// [`Pool::write_back_all`]. So a page cleaner writes the next victims, before a pin has to.
    ///
    /// # Errors
    /// `Fault` if the write failed, and its device's count of failures has increased. Frames are
    /// unchanged, so the page is dirty as before.
    pub fn write_back_page(&mut self, page: PageId) -> Result<bool, PoolFault>
        ensures ranked { KeepsRanks self.old self.new }
        ensures done { IfOk result (λ was_dirty. WritesPageBack page self.old was_dirty self.new) }
        ensures refused { IfErr result (λ why. WritePageFails page self.old why self.new) }
    {
        let Some(at) = self.frames.find(page) else {
            return Ok(false);
        };
        if !self.frames.is_dirty(at) {
            return Ok(false);
        }
        self.clean_at(at).map_err(|_| PoolFault::Fault)?;
        Ok(true)
    }

    // Writes back the page of a frame, if it is dirty.
    fn clean_at(&mut self, at: usize) -> Result<(), DeviceFault>
        requires { at < length self.old.frames }
        ensures down { OnOk result (Cleans self.old at self.new) }
        ensures failed { OnErr result (CleanFails self.old at self.new) }
        ensures wrote { WritesFrame (nth_frame self.old.frames at)
            self.old.devices self.new.devices result }
        ensures unflushed { FlushesNone self.old.devices self.new.devices }
    {
        write_back(&mut self.frames, &mut self.devices, &mut self.tally, at)
    }

    // Writes back the pages of the first dirty frames, at most `limit`.
    fn clean_first(&mut self, limit: usize) -> Result<(), DeviceFault>
        ensures ranked { KeepsRanks self.old self.new }
        ensures down { OnOk result (CleansFirst limit self.old self.new) }
        ensures stopped { OnErr result (SomeFails limit self.old self.new) }
        ensures unflushed { FlushesNone self.old.devices self.new.devices }
    {
        let mut room = limit;
        for at in 0..self.frames.len() {
            let Some(rest) = room_after(self.is_dirty(at), room) else {
                return Ok(());
            };
            self.clean_if(at, Devices::All)?;
            room = rest;
        }
        Ok(())
    }
}

// How many more dirty pages may be written, after a frame.
fn room_after(dirty: bool, room: usize) -> Option<usize>
    ensures { result ≡ room_after dirty room }
{
    if !dirty {
        return Some(room);
    }
    if room == 0 {
        return None;
    }
    Some(room - 1)
}
