//! Pinning a page whose bytes are given: the caller has read them from its device.
ghost use Rattle.std.specs.Prelude.{◌≡◌, ◌<◌, ◌-◌, ◌^◌, length, Some, IfOk, IfErr, OnOk};
ghost use Rattle.warm_devices.specs.Device.{GivesPage};
ghost use Rattle.warm_frame_table.specs.Frames.{nth_frame};
ghost use Rattle.warm_pool.specs.State.{RankedBy, IsNowhere, nth_device};
ghost use Rattle.warm_pool.specs.View.{view_of, HasPage};
ghost use Rattle.warm_pool.specs.Calls.{FlushesNone, ReadsNone};
ghost use Rattle.warm_pool.specs.steps.Pinning.{IsNextFrameToLoad};
ghost use Rattle.warm_pool.specs.Filling.{AreFromDevice};
ghost use Rattle.warm_pool.specs.steps.Filling.{FillsInto};
ghost use Rattle.warm_pool.specs.steps.Zeroing.{ZeroFails};
ghost use Rattle.warm_pool.specs.Outcomes.{FillsPage, UnreadPinFails};

use crate::fault::PoolFault;
use crate::pool::{Pool, rank_of};
use crate::slot::Placed;
use crate::write_back::write_back;
use warm_devices::PageDevice;
use warm_history::History;
use warm_rank::RankKey;
use warm_stamps::PageId;

impl<D: PageDevice> Pool<D> {
    /// Pins a page as [`Pool::pin_placed`] does, but with the bytes given in place of a read:
    /// frame, victim and slot are those of a pin, and a page that is put into a frame is clean. No
    /// device is read. So a program that reads a page by itself needs the pool only once the bytes
    /// are there.
    ///
    /// `bytes` is the page as its device has it now, whole. That is required of an honest device.
    /// Of another device the pool believes it. If the page is resident, `bytes` is ignored.
    ///
    /// # Errors
    /// Those of [`Pool::pin`], in the same order and with the same effects, but `ReadFault`, which
    /// doesn't occur.
    pub fn pin_filled(
        &mut self,
        page: PageId,
        history: &History,
        bytes: &[u8],
    ) -> Result<Placed, PoolFault>
        requires ranked { RankedBy self.old history.now }
        requires size { length bytes.now ≡ self.old.page_size }
        requires given { AreFromDevice (view_of self.old) page bytes.now }
        ensures ranked { RankedBy self.new history.now }
        ensures done { IfOk result (λ placed. FillsPage history.now
            page bytes.now self.old placed self.new) }
        ensures refused { IfErr result (λ why. UnreadPinFails history.now
            page self.old why self.new) }
    {
        self.check(page)?;
        match self.frames.find(page) {
            Some(at) => self.add_fix(at),
            None => self.fill_absent(page, history, bytes),
        }
    }

    // Puts a page that is in no frame into one, with one pin and these bytes.
    fn fill_absent(
        &mut self,
        page: PageId,
        history: &History,
        bytes: &[u8],
    ) -> Result<Placed, PoolFault>
        requires ranked { RankedBy self.old history.now }
        requires known { HasPage (view_of self.old) page }
        requires absent { IsNowhere self.old.frames page }
        requires size { length bytes.now ≡ self.old.page_size }
        requires given { GivesPage (nth_device self.old.devices page.dev) page.no bytes.now }
        ensures ranked { RankedBy self.new history.now }
        ensures done { IfOk result (λ placed. FillsPage history.now
            page bytes.now self.old placed self.new) }
        ensures refused { IfErr result (λ why. UnreadPinFails history.now
            page self.old why self.new) }
    {
        let Some(at) = self.frame_to_load() else {
            return Err(PoolFault::AllFixed);
        };
        self.fill_at(at, page, history, bytes)
    }

    // Puts a page that is in no frame into the frame to load, with one pin and these bytes.
    fn fill_at(
        &mut self,
        at: usize,
        page: PageId,
        history: &History,
        bytes: &[u8],
    ) -> Result<Placed, PoolFault>
        requires ranked { RankedBy self.old history.now }
        requires known { HasPage (view_of self.old) page }
        requires absent { IsNowhere self.old.frames page }
        requires size { length bytes.now ≡ self.old.page_size }
        requires given { GivesPage (nth_device self.old.devices page.dev) page.no bytes.now }
        requires to_load { IsNextFrameToLoad self.old (Some at) }
        requires there { at < length self.old.frames }
        ensures ranked { RankedBy self.new history.now }
        ensures done { IfOk result (λ placed. FillsPage history.now
            page bytes.now self.old placed self.new) }
        ensures refused { IfErr result (λ why. UnreadPinFails history.now
            page self.old why self.new) }
    {
        let evicted = self.frames.page(at);
        if self.frames.generation(at) < u64::MAX {
            let key = rank_of(history, page);
            self.fill_into(at, page, key, bytes)?;
            let slot = self.slot_at(at);
            return Ok(Placed { slot, evicted });
        }
        Err(PoolFault::FixesFull)
    }

    // Writes back the page that is in the frame, and puts another into it, with these bytes.
    fn fill_into(
        &mut self,
        at: usize,
        page: PageId,
        key: RankKey,
        bytes: &[u8],
    ) -> Result<(), PoolFault>
        requires there { at < length self.old.frames }
        requires below { (nth_frame self.old.frames at).generation < 2 ^ 64 - 1 }
        requires device { page.dev < length self.old.devices }
        requires known { page.no < (nth_device self.old.devices page.dev).pages }
        requires absent { IsNowhere self.old.frames page }
        requires size { length bytes.now ≡ self.old.page_size }
        requires given { GivesPage (nth_device self.old.devices page.dev) page.no bytes.now }
        ensures put { OnOk result (FillsInto self.old at page key bytes.now self.new) }
        ensures refused { IfErr result (λ fault. ZeroFails self.old at fault self.new) }
        ensures unread { ReadsNone self.old.devices self.new.devices }
        ensures unflushed { FlushesNone self.old.devices self.new.devices }
    {
        if write_back(&mut self.frames, &mut self.devices, &mut self.tally, at).is_err() {
            return Err(PoolFault::WriteBack);
        }
        self.tally.came_in(1, self.frames.page(at));
        self.spare.copy_from_slice(bytes);
        self.frames.install(at, page, key, 1, &mut self.spare);
        Ok(())
    }
}
