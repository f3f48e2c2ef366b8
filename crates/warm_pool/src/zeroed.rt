//! Pinning a page whose content becomes zeros, without reading it.
ghost use Rattle.std.specs.Prelude.{◌≡◌, ◌≢◌, ◌<◌, ◌≤◌, ◌-◌, ◌^◌, length, replicate, None, Some};
ghost use Rattle.std.specs.Prelude.{IfOk, IfErr, OnOk};
ghost use Rattle.warm_devices.specs.declared.TheConstants.{MAX_PAGE_SIZE};
ghost use Rattle.warm_frame_table.specs.Frames.{nth_frame};
ghost use Rattle.warm_frame_table.specs.FrameSteps.{changed_at};
ghost use Rattle.warm_pool.specs.State.{RankedBy, IsNowhere, nth_device};
ghost use Rattle.warm_pool.specs.View.{view_of, HasPage, Holds};
ghost use Rattle.warm_pool.specs.Unchanged.{KeepsRanks};
ghost use Rattle.warm_pool.specs.Calls.{FlushesNone, ReadsNone};
ghost use Rattle.warm_pool.specs.steps.Pinning.{FixRefused, IsNextFrameToLoad};
ghost use Rattle.warm_pool.specs.steps.Zeroing.{FixesZeros, ZeroFails, ZeroesInto, zeroed_frame};
ghost use Rattle.warm_pool.specs.Outcomes.{UnreadPinFails, ZeroesPage};

use crate::fault::PoolFault;
use crate::pool::{Pool, rank_of};
use crate::slot::Slot;
use crate::write_back::write_back;
use warm_devices::{MAX_PAGE_SIZE, PageDevice};
use warm_frame_table::Frames;
use warm_history::History;
use warm_rank::RankKey;
use warm_stamps::PageId;

// The bytes of a page without content.
static ZEROS: [u8; MAX_PAGE_SIZE] = [0; MAX_PAGE_SIZE];

impl<D: PageDevice> Pool<D> {
    /// Pins a page as [`Pool::pin`] does, and fills it with zeros. The page isn't read from its
    /// device: so this is for a page that is new, or is to be overwritten. It becomes dirty.
    ///
    /// If the page is resident, zeros are written to it as by [`Pool::write`].
    ///
    /// # Errors
    /// Those of [`Pool::pin`], in the same order and with the same effects, but `ReadFault`, which
    /// doesn't occur.
    pub fn pin_zeroed(&mut self, page: PageId, history: &History) -> Result<Slot, PoolFault>
        requires ranked { RankedBy self.old history.now }
        ensures ranked { RankedBy self.new history.now }
        ensures done { IfOk result (λ slot. ZeroesPage history.now page self.old slot self.new) }
        ensures refused { IfErr result (λ why. UnreadPinFails history.now
            page self.old why self.new) }
    {
        self.check(page)?;
        match self.frames.find(page) {
            Some(at) => self.fix_zeroed(at),
            None => self.zero_absent(page, history),
        }
    }

    // Adds a pin to a resident page, and fills it with zeros.
    fn fix_zeroed(&mut self, at: usize) -> Result<Slot, PoolFault>
        requires there { at < length self.old.frames }
        requires held { (nth_frame self.old.frames at).page ≢ None }
        ensures ranked { KeepsRanks self.old self.new }
        ensures fixed { IfOk result (λ slot. FixesZeros self.old at slot self.new) }
        ensures holds { IfOk result (λ slot. Holds (view_of self.new) slot) }
        ensures refused { IfErr result (λ fault. FixRefused self.old at fault self.new) }
    {
        let placed = self.add_fix(at)?;
        self.prove_is_pool();
        clear(self.bytes_mut(placed.slot));
        Ok(placed.slot)
    }

    // Puts a page that is in no frame into one, with one pin and zeros.
    fn zero_absent(&mut self, page: PageId, history: &History) -> Result<Slot, PoolFault>
        requires ranked { RankedBy self.old history.now }
        requires known { HasPage (view_of self.old) page }
        requires absent { IsNowhere self.old.frames page }
        ensures ranked { RankedBy self.new history.now }
        ensures done { IfOk result (λ slot. ZeroesPage history.now page self.old slot self.new) }
        ensures refused { IfErr result (λ why. UnreadPinFails history.now
            page self.old why self.new) }
    {
        let Some(at) = self.frame_to_load() else {
            return Err(PoolFault::AllFixed);
        };
        self.zero_at(at, page, history)
    }

    // Puts a page that is in no frame into the frame to load, with one pin and zeros.
    fn zero_at(&mut self, at: usize, page: PageId, history: &History) -> Result<Slot, PoolFault>
        requires ranked { RankedBy self.old history.now }
        requires known { HasPage (view_of self.old) page }
        requires absent { IsNowhere self.old.frames page }
        requires to_load { IsNextFrameToLoad self.old (Some at) }
        requires there { at < length self.old.frames }
        ensures ranked { RankedBy self.new history.now }
        ensures done { IfOk result (λ slot. ZeroesPage history.now page self.old slot self.new) }
        ensures refused { IfErr result (λ why. UnreadPinFails history.now
            page self.old why self.new) }
    {
        if self.frames.generation(at) < u64::MAX {
            let key = rank_of(history, page);
            self.zero_into(at, page, key)?;
            return Ok(self.slot_at(at));
        }
        Err(PoolFault::FixesFull)
    }

    // Writes back the page that is in the frame, and puts another into it, with zeros.
    fn zero_into(&mut self, at: usize, page: PageId, key: RankKey) -> Result<(), PoolFault>
        requires there { at < length self.old.frames }
        requires below { (nth_frame self.old.frames at).generation < 2 ^ 64 - 1 }
        requires device { page.dev < length self.old.devices }
        requires known { page.no < (nth_device self.old.devices page.dev).pages }
        requires absent { IsNowhere self.old.frames page }
        ensures put { OnOk result (ZeroesInto self.old at page key self.new) }
        ensures refused { IfErr result (λ fault. ZeroFails self.old at fault self.new) }
        ensures unread { ReadsNone self.old.devices self.new.devices }
        ensures unflushed { FlushesNone self.old.devices self.new.devices }
    {
        if write_back(&mut self.frames, &mut self.devices, &mut self.tally, at).is_err() {
            return Err(PoolFault::WriteBack);
        }
        self.tally.came_in(1, self.frames.page(at));
        install_zeros(&mut self.frames, at, page, key, &mut self.spare);
        Ok(())
    }
}

// Puts a page with one pin and zeros into a frame, and swaps the frame's bytes with these first.
fn install_zeros(frames: &mut Frames, at: usize, page: PageId, key: RankKey, bytes: &mut Vec<u8>)
    requires there { at < length frames.old.frames }
    requires below { (nth_frame frames.old.frames at).generation < 2 ^ 64 - 1 }
    requires sized { length bytes.old.items ≤ MAX_PAGE_SIZE }
    ensures frames { frames.new
        ≡ changed_at frames.old at (zeroed_frame page key (length bytes.old.items)) }
    ensures given { bytes.new.items ≡ (nth_frame frames.old.frames at).bytes }
{
    frames.install(at, page, key, 1, bytes);
    clear(frames.bytes_mut(at));
}

// Fills bytes with zeros.
fn clear(bytes: &mut [u8])
    requires { length bytes.old ≤ MAX_PAGE_SIZE }
    ensures { bytes.new ≡ replicate (length bytes.old) 0 }
{
    let size = bytes.len();
    bytes.copy_from_slice(zeros(size));
}

// This many zeros.
fn zeros(len: usize) -> &'static [u8]
    requires { len ≤ MAX_PAGE_SIZE }
    ensures { result.now ≡ replicate len 0 }
{
    &ZEROS[..len]
}
