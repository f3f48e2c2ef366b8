//! The pool.
ghost use Rattle.std.specs.Prelude.{◌≡◌, ◌≢◌, ◌↔◌, ◌+◌, ◌-◌, ◌^◌, ◌<◌, ◌≤◌, map, length, Some};
ghost use Rattle.std.specs.Prelude.{None, MatchResult, OnOk, OnErr, IfOk, IfErr, IfSome, IsTrue};
ghost use Rattle.warm_history.specs.Histories.{HistoryView, hist, references_of};
ghost use Rattle.warm_rank.specs.Keys.{rank_key};
ghost use Rattle.warm_frame_table.specs.Frames.{nth_frame, fresh_frames};
ghost use Rattle.warm_pool.specs.State.{PoolState, IsPool, pool_over, RankedBy, IsNowhere};
ghost use Rattle.warm_pool.specs.State.{nth_device, IsRankedByAll, fresh_pool};
ghost use Rattle.warm_pool.specs.View.{view_of, HasPage, IsResident, Holds};
ghost use Rattle.warm_pool.specs.Unchanged.{KeepsRanks, KeepsBytes, KeepsOthers};
ghost use Rattle.warm_pool.specs.Calls.{FlushesNone};
ghost use Rattle.warm_pool.specs.DeviceCalls.{read_at};
ghost use Rattle.warm_pool.specs.Opening.{IsUpTo, IsSize, NewPoolRefused};
ghost use Rattle.warm_pool.specs.Pinning.{PinRefused, LoadRefused, IsNextVictim, CanPinAgain};
ghost use Rattle.warm_pool.specs.steps.Pinning.{current_slot, LoadsInto, FetchFails, FixesPage};
ghost use Rattle.warm_pool.specs.steps.Pinning.{FixRefused, IsNextFrameToLoad, PutsPlaced};
ghost use Rattle.warm_pool.specs.PageBytes.{IsLent, ReadRefused, WriteRefused};
ghost use Rattle.warm_pool.specs.steps.Refreshing.{UpdatesRank, UpdatesRankIn};
ghost use Rattle.warm_pool.specs.Outcomes.{LoadFails, LoadsPage, LoadsPlaced, PinFails, PinsAgain};
ghost use Rattle.warm_pool.specs.Outcomes.{PinsPage, PinsPlaced, CopiesBytes, UnpinsPage};
ghost use Rattle.warm_pool.specs.Outcomes.{UpdatesAllRanks, UpdatesRanks, WritesInto};

use crate::MAX_DEVICES;
use crate::device_list::{all_sized, pages_of, read_page};
use crate::fault::{NewPoolError, NewPoolFault, PoolFault};
use crate::named::NamesPage;
use crate::slot::{Placed, Slot};
use crate::tally::Tally;
use crate::write_back::write_back;
use std::alloc::Global;
use std::marker::Model;
use warm_devices::{MAX_PAGE_SIZE, PageDevice};
use warm_frame_table::Frames;
use warm_history::History;
use warm_history::laws::prove_is_history;
use warm_rank::{MAX_FRAMES, RankKey, key_of};
use warm_stamps::PageId;

/// A buffer pool: frames that hold pages of devices.
///
/// Contracts see a pool as plain data that always satisfies the invariant of pools (`IsPool`:
/// [`Pool::prove_is_pool`]). What a caller sees is its `view_of`. A pool is *ranked by* a history
/// if the rank of each resident page is the one that the history gives it. A pool without a page is
/// ranked by every history.
///
/// A pool that is dropped settles its devices by their own drops, but loses the contents of its
/// dirty frames: close it instead.
pub struct Pool<D: PageDevice> {
    pub(crate) frames: Frames,
    pub(crate) devices: Vec<D>,
    // A page is first read into this buffer, so that a failed read changes no frame.
    pub(crate) spare: Vec<u8>,
    // Not part of what contracts see.
    pub(crate) tally: Tally,
}

// Written by hand, so that an owner makes one call on each exit path (see `History`).
impl<D: PageDevice> Drop for Pool<D> {
    fn drop(mut self) {
        let Self {
            frames,
            devices,
            spare,
            tally: _,
        } = self;
        drop(frames);
        drop(devices);
        drop(spare);
    }
}

impl<D: PageDevice> Model for Pool<D> {
    ghost use Rattle.std.specs.Prelude.{length};
    ghost use Rattle.warm_pool.specs.State.{IsPool, PoolState, pool_over};

    ghost Value = { PoolState };

    ghost view = { λ p. pool_over D.state p.frames (length p.spare.items) p.devices.items };

    ghost invariant = { λ p.
        IsPool (pool_over D.state p.frames (length p.spare.items) p.devices.items) };
}

impl<D: PageDevice> Pool<D> {
    // Takes the pool apart and returns its devices. Apart from the drop, only this function takes a
    // pool apart.
    pub(crate) fn take_apart(self) -> Vec<D>
        ensures devices { map D.state result.items ≡ self.devices }
        ensures pool { IsPool self }
    {
        let Self {
            frames,
            devices,
            spare,
            tally: _,
        } = self;
        drop(frames);
        drop(spare);
        devices
    }

    /// A pool of this many frames without pages, over these devices. All memory that it needs is
    /// allocated here.
    ///
    /// There may be at most [`MAX_DEVICES`] devices.
    ///
    /// # Errors
    /// `BadFrames` if `frames` is outside 1 to [`warm_rank::MAX_FRAMES`]; else `SizeDiffers` if
    /// `page_size` is outside 1 to [`MAX_PAGE_SIZE`], or is not that of each device; else `Memory`
    /// if an allocation fails. Each gives the devices back.
    pub fn new(
        alloc: Global,
        frames: usize,
        page_size: usize,
        devices: Vec<D>,
    ) -> Result<Pool<D>, NewPoolError<D>>
        requires few { length devices.items ≤ MAX_DEVICES }
        ensures opened { IfOk result (λ pool. pool
            ≡ fresh_pool frames page_size (map D.state devices.items)) }
        ensures ranked { IfOk result (λ pool. IsRankedByAll (pool)) }
        ensures refused { IfErr result (λ unmade. NewPoolRefused frames page_size
            (map D.state devices.items) unmade.fault
            × (unmade.devices.items ≡ devices.items)) }
    {
        match allocate(alloc, frames, page_size, &devices) {
            Ok((frames, spare)) => Ok(Pool {
                frames,
                devices,
                spare,
                tally: Tally::new(),
            }),
            Err(fault) => Err(NewPoolError { fault, devices }),
        }
    }

    /// A theorem, for a caller that needs it: the invariant of pools. It does nothing at run time.
    pub fn prove_is_pool(&self)
        ensures { IsPool self.now }
    {
        // Reading a field brings the type's invariant into the proof; it costs nothing.
        let _frames = &self.frames;
    }

    /// The number of frames, with a page or without.
    pub fn frames(&self) -> usize
        ensures { result ≡ length (view_of self.now).frames }
    {
        self.frames.len()
    }

    /// The size of a page, in bytes.
    pub fn page_size(&self) -> usize
        ensures { result ≡ (view_of self.now).page_size }
    {
        self.frames.page_size()
    }

    /// Whether a device has the page.
    pub fn has(&self, page: PageId) -> bool
        ensures { IsTrue result ↔ HasPage (view_of self.now) page }
    {
        self.check(page).is_ok()
    }

    /// Whether the page is in a frame.
    pub fn resident(&self, page: PageId) -> bool
        ensures { IsTrue result ↔ IsResident (view_of self.now) page }
    {
        self.frames.find(page).is_some()
    }

    /// Whether the slot's frame is pinned, and no other page was loaded into it since the slot was
    /// given.
    pub fn holds(&self, slot: Slot) -> bool
        ensures { IsTrue result ↔ Holds (view_of self.now) slot }
    {
        let at = slot.index as usize;
        if at >= self.frames.len() {
            return false;
        }
        self.frames.generation(at) == slot.generation && self.frames.fixes(at) > 0
    }

    /// Adds a pin to a page, and loads the page if it isn't resident: into the first free frame,
    /// else into that of the victim. A pinned page isn't evicted. A loaded page is clean. No other
    /// frame changes, and no device changes unless the victim is dirty: it is written back to its
    /// device, which is then unflushed.
    ///
    /// # Errors
    /// In this order; each leaves all frames, and so pages, pin counts and contents, unchanged.
    /// - `NoDevice`, `NoPage`: there is no such device, or it has no such page.
    /// - `FixesFull`: the page is resident and its pin count is 2^32-1.
    /// - `AllFixed`: the page isn't resident, each frame has a page, and all pages are pinned.
    /// - `FixesFull`: the frame into which the page would be loaded has the generation 2^64-1.
    /// - `ReadFault`: the read of the page failed. Its device's count of failures has increased,
    ///   and nothing else of any device has changed.
    /// - `WriteBack`: the victim is dirty, and its write-back failed. The count of failures of its
    ///   device has increased, and that device is unflushed. Other devices are unchanged.
    pub fn pin(&mut self, page: PageId, history: &History) -> Result<Slot, PoolFault>
        requires ranked { RankedBy self.old history.now }
        ensures ranked { RankedBy self.new history.now }
        ensures done { IfOk result (λ slot. PinsPage history.now page self.old slot self.new) }
        ensures refused { IfErr result (λ why. PinFails history.now page self.old why self.new) }
    {
        let placed = self.pin_placed(page, history)?;
        Ok(placed.slot)
    }

    /// Pins a page as [`Pool::pin`] does, and says which page was evicted for it.
    ///
    /// # Errors
    /// Those of [`Pool::pin`], in the same order and with the same effects.
    pub fn pin_placed(&mut self, page: PageId, history: &History) -> Result<Placed, PoolFault>
        requires ranked { RankedBy self.old history.now }
        ensures ranked { RankedBy self.new history.now }
        ensures done { IfOk result (λ placed. PinsPlaced history.now
            page self.old placed self.new) }
        ensures refused { IfErr result (λ why. PinFails history.now page self.old why self.new) }
    {
        self.check(page)?;
        match self.frames.find(page) {
            Some(at) => self.add_fix(at),
            None => self.load_absent(page, history, 1),
        }
    }

    /// The slot of a resident page that can take one more pin, for [`Pool::pin_again`]. `None` if
    /// the page isn't resident, or has as many pins as can be counted.
    ///
    /// Most pins are of such pages. This way to pin them has no refusal and loads nothing, so a
    /// caller has a short path for them.
    #[inline(always)]
    pub fn pinnable(&self, page: PageId) -> Option<Slot>
        ensures { IfSome result (CanPinAgain self.now page) }
    {
        let at = self.frames.find(page)?;
        if self.frames.fixes(at) == u32::MAX {
            return None;
        }
        Some(self.slot_at(at))
    }

    /// Pins a resident page once more, as [`Pool::pin_placed`] does.
    pub fn pin_again(&mut self, _page: PageId, slot: Slot) -> Placed
        requires can { CanPinAgain self.old _page slot }
        ensures { PinsAgain _page self.old result self.new }
    {
        // It names a field, since only then does the checker know the invariant of the type.
        let _ = &self.frames;
        let Ok(placed) = self.add_fix(slot.index as usize) else {
            unreachable!()
        };
        placed
    }

    /// Loads a page into a frame as [`Pool::pin`] does, but without a pin. A resident page is
    /// unchanged.
    ///
    /// # Errors
    /// Those of [`Pool::pin`], in the same order and with the same effects; a resident page is
    /// never refused.
    pub fn load(&mut self, page: PageId, history: &History) -> Result<Slot, PoolFault>
        requires ranked { RankedBy self.old history.now }
        ensures ranked { RankedBy self.new history.now }
        ensures done { IfOk result (λ slot. LoadsPage history.now page self.old slot self.new) }
        ensures refused { IfErr result (λ why. LoadFails history.now page self.old why self.new) }
    {
        let placed = self.load_placed(page, history)?;
        Ok(placed.slot)
    }

    /// Loads a page as [`Pool::load`] does, and says which page was evicted for it.
    ///
    /// # Errors
    /// Those of [`Pool::load`], in the same order and with the same effects.
    pub fn load_placed(&mut self, page: PageId, history: &History) -> Result<Placed, PoolFault>
        requires ranked { RankedBy self.old history.now }
        ensures ranked { RankedBy self.new history.now }
        ensures done { IfOk result (λ placed. LoadsPlaced history.now
            page self.old placed self.new) }
        ensures refused { IfErr result (λ why. LoadFails history.now page self.old why self.new) }
    {
        self.check(page)?;
        match self.frames.find(page) {
            Some(at) => {
                let slot = self.slot_at(at);
                Ok(Placed {
                    slot,
                    evicted: None,
                })
            }
            None => self.load_absent(page, history, 0),
        }
    }

    /// The page that would be evicted next, as a history ranks the pool: of the unpinned resident
    /// pages, the one of the greatest backward 2-distance; `None` if there is none. The contract
    /// says nothing of a pool that no history ranks, as [`Pool::refresh`] may leave it.
    ///
    /// Pins, and ranks that have risen since, are looked at only here and as a page is loaded: so
    /// the call changes the pool inside, and nothing that a contract sees.
    pub fn victim(&mut self) -> Option<PageId>
        ensures same { self.new ≡ self.old }
        ensures ranked { KeepsRanks self.old self.new }
        ensures victim { IsNextVictim self.old result }
    {
        let at = self.frames.least()?;
        self.frames.page(at)
    }

    /// Removes a pin from the slot's page. An unpinned page may be evicted. A dirty page stays
    /// dirty.
    pub fn unpin(&mut self, slot: Slot)
        requires holds { Holds (view_of self.old) slot }
        ensures { UnpinsPage slot self.old self.new }
    {
        self.frames.unfix(slot.index as usize);
    }

    /// All bytes of the slot's page. Nothing is copied.
    pub fn bytes(&self, slot: Slot) -> &[u8]
        requires holds { Holds (view_of self.now) slot }
        ensures { IsLent (view_of self.now) slot result.now }
    {
        self.frames.bytes(slot.index as usize)
    }

    /// Whether `len` bytes from `at` on are within a page.
    pub fn is_within(&self, at: usize, len: usize) -> bool
        ensures { IsTrue result ↔ (at + len ≤ (view_of self.now).page_size) }
    {
        let size = self.page_size();
        at <= size && len <= size - at
    }

    /// Reads bytes of the slot's page, from `at` on, into the whole of `into`.
    ///
    /// # Errors
    /// `OutOfPage` if they reach beyond the end of the page; `into` is unchanged.
    pub fn read(&self, slot: Slot, at: usize, into: &mut [u8]) -> Result<(), PoolFault>
        requires holds { Holds (view_of self.now) slot }
        ensures done { OnOk result (CopiesBytes (view_of self.now) slot at into.old into.new) }
        ensures refused { IfErr result (λ fault. ReadRefused self.now at into.old fault into.new) }
    {
        if !self.is_within(at, into.len()) {
            return Err(PoolFault::OutOfPage);
        }
        let bytes = self.bytes(slot);
        into.copy_from_slice(&bytes[at..at + into.len()]);
        Ok(())
    }

    /// Writes bytes into the slot's page, from `at` on. The page becomes dirty, even if no byte
    /// differs: it is written back before it is evicted.
    ///
    /// # Errors
    /// `OutOfPage` if they reach beyond the end of the page; nothing is changed.
    pub fn write(&mut self, slot: Slot, at: usize, bytes: &[u8]) -> Result<(), PoolFault>
        requires holds { Holds (view_of self.old) slot }
        ensures ranked { KeepsRanks self.old self.new }
        ensures done { OnOk result (WritesInto slot at bytes.now self.old self.new) }
        ensures refused { IfErr result (λ why. WriteRefused self.old at bytes.now why self.new) }
    {
        if !self.is_within(at, bytes.len()) {
            return Err(PoolFault::OutOfPage);
        }
        self.frames.patch(slot.index as usize, at, bytes);
        Ok(())
    }

    /// Updates the ranks of those of the named pages that are resident, whatever the ranks of the
    /// others are. Other pages keep theirs. Allocation-free.
    pub fn refresh<T: NamesPage>(&mut self, history: &History, items: &[T])
        ensures { UpdatesRanks (map T.named items.now) history.now self.old self.new }
    {
        for item in items {
            self.update_rank(history, item.named());
        }
    }

    /// Updates the ranks of all resident pages.
    pub fn refresh_all(&mut self, history: &History)
        ensures { UpdatesAllRanks history.now self.old self.new }
    {
        for at in 0..self.frames.len() {
            self.update_rank_in(history, at);
        }
    }

    // Updates the rank of the page in a frame, if there is one.
    fn update_rank_in(&mut self, history: &History, at: usize)
        requires there { at < length self.old.frames }
        ensures same { view_of self.new ≡ view_of self.old }
        ensures kept { KeepsBytes self.old self.new }
        ensures keys { UpdatesRankIn self.old at history.now self.new }
    {
        let Some(page) = self.frames.page(at) else {
            return;
        };
        self.update_rank(history, page);
    }

    // Updates the rank of a page, if it is resident.
    fn update_rank(&mut self, history: &History, page: PageId)
        ensures same { view_of self.new ≡ view_of self.old }
        ensures kept { KeepsBytes self.old self.new }
        ensures keys { UpdatesRank self.old page
            (rank_key page (hist (references_of history.now) page)) self.new }
    {
        if let Some(at) = self.frames.find(page) {
            let key = rank_of(history, page);
            self.frames.rank(at, key);
        }
    }

    // Checks that a device has the page; otherwise returns why it can't be loaded.
    pub(crate) fn check(&self, page: PageId) -> Result<(), PoolFault>
        ensures known { OnOk result (HasPage (view_of self.now) page) }
        ensures unknown { OnErr result (HasPage (view_of self.now) page → ⊥) }
        ensures load { IfErr result (λ fault. (h : HistoryView) → LoadRefused h
            (view_of self.now) page fault (view_of self.now)) }
        ensures pin { IfErr result (λ fault. (h : HistoryView) → PinRefused h
            (view_of self.now) page fault (view_of self.now)) }
    {
        let device = page.dev as usize;
        if device >= self.devices.len() {
            return Err(PoolFault::NoDevice);
        }
        if page.no >= pages_of(&self.devices, device) {
            return Err(PoolFault::NoPage);
        }
        Ok(())
    }

    // The slot of a frame's current page.
    pub(crate) fn slot_at(&self, at: usize) -> Slot
        requires { at < length self.now.frames }
        ensures { result ≡ current_slot self.now at }
    {
        let generation = self.frames.generation(at);
        Slot {
            index: at as u32,
            generation,
        }
    }

    // Adds a pin to a resident page. No page is evicted for it.
    pub(crate) fn add_fix(&mut self, at: usize) -> Result<Placed, PoolFault>
        requires there { at < length self.old.frames }
        requires held { (nth_frame self.old.frames at).page ≢ None }
        ensures ranked { KeepsRanks self.old self.new }
        ensures fixed { FixesPage self.old at result self.new }
        ensures evicted { IfOk result (λ placed. placed.evicted ≡ None) }
        ensures holds { IfOk result (λ placed. Holds (view_of self.new) placed.slot) }
        ensures kept { KeepsBytes self.old self.new }
        ensures others { IfOk result (λ placed. KeepsOthers placed.slot.index self.old self.new) }
        ensures refused { IfErr result (λ fault. FixRefused self.old at fault self.new) }
    {
        let slot = self.slot_at(at);
        if self.frames.fixes(at) < u32::MAX {
            self.frames.fix(at);
            self.tally.hit();
            return Ok(Placed {
                slot,
                evicted: None,
            });
        }
        Err(PoolFault::FixesFull)
    }

    // The frame into which a page is loaded.
    pub(crate) fn frame_to_load(&mut self) -> Option<usize>
        ensures same { self.new ≡ self.old }
        ensures to_load { IsNextFrameToLoad self.old result }
        ensures there { IfSome result (λ at. at < length self.old.frames) }
        ensures unfixed { IfSome result (λ at. (nth_frame self.old.frames at).fixes ≡ 0) }
    {
        match self.frames.first_free() {
            Some(at) => Some(at),
            None => self.frames.least(),
        }
    }

    // Loads a page that is in no frame, with this pin count.
    fn load_absent(
        &mut self,
        page: PageId,
        history: &History,
        fixes: u32,
    ) -> Result<Placed, PoolFault>
        requires ranked { RankedBy self.old history.now }
        requires known { HasPage (view_of self.old) page }
        requires absent { IsNowhere self.old.frames page }
        ensures ranked { RankedBy self.new history.now }
        ensures done { IfOk result (λ placed. PutsPlaced history.now
            page fixes self.old placed self.new) }
        ensures refused { IfErr result (λ why. LoadFails history.now page self.old why self.new) }
    {
        let Some(at) = self.frame_to_load() else {
            return Err(PoolFault::AllFixed);
        };
        self.load_at(at, page, history, fixes)
    }

    // Loads a page that is in no frame into the frame to load, with this pin count.
    fn load_at(
        &mut self,
        at: usize,
        page: PageId,
        history: &History,
        fixes: u32,
    ) -> Result<Placed, PoolFault>
        requires ranked { RankedBy self.old history.now }
        requires known { HasPage (view_of self.old) page }
        requires absent { IsNowhere self.old.frames page }
        requires to_load { IsNextFrameToLoad self.old (Some at) }
        requires there { at < length self.old.frames }
        ensures ranked { RankedBy self.new history.now }
        ensures done { IfOk result (λ placed. PutsPlaced history.now
            page fixes self.old placed self.new) }
        ensures refused { IfErr result (λ why. LoadFails history.now page self.old why self.new) }
    {
        let evicted = self.frames.page(at);
        if self.frames.generation(at) < u64::MAX {
            let key = rank_of(history, page);
            self.load_into(at, page, key, fixes)?;
            let slot = self.slot_at(at);
            return Ok(Placed { slot, evicted });
        }
        Err(PoolFault::FixesFull)
    }

    // Reads a page into the spare buffer, writes back the page that is in the frame, and then swaps
    // the two buffers.
    fn load_into(
        &mut self,
        at: usize,
        page: PageId,
        key: RankKey,
        fixes: u32,
    ) -> Result<(), PoolFault>
        requires there { at < length self.old.frames }
        requires below { (nth_frame self.old.frames at).generation < 2 ^ 64 - 1 }
        requires device { page.dev < length self.old.devices }
        requires known { page.no < (nth_device self.old.devices page.dev).pages }
        requires absent { IsNowhere self.old.frames page }
        ensures put { OnOk result (LoadsInto self.old
            (read_at page.dev self.old.devices) at page key fixes self.new) }
        ensures refused { IfErr result (λ fault. FetchFails self.old
            (read_at page.dev self.old.devices) at page fault self.new) }
        ensures unflushed { FlushesNone self.old.devices self.new.devices }
    {
        if read_page(&mut self.devices, &mut self.tally, page, &mut self.spare).is_err() {
            return Err(PoolFault::ReadFault);
        }
        if write_back(&mut self.frames, &mut self.devices, &mut self.tally, at).is_err() {
            return Err(PoolFault::WriteBack);
        }
        self.tally.came_in(fixes, self.frames.page(at));
        self.frames.install(at, page, key, fixes, &mut self.spare);
        Ok(())
    }
}

// Allocates the frames and the spare buffer of a pool over these devices.
fn allocate<D: PageDevice>(
    alloc: Global,
    frames: usize,
    page_size: usize,
    devices: &[D],
) -> Result<(Frames, Vec<u8>), NewPoolFault>
    ensures made { IfOk result (λ made. (made.0 ≡ fresh_frames frames page_size)
        × (length made.1.items ≡ page_size)) }
    ensures shape { OnOk result (IsUpTo MAX_FRAMES frames
        × IsSize page_size (map D.state devices.now)) }
    ensures refused { IfErr result (NewPoolRefused frames page_size (map D.state devices.now)) }
{
    check_shape(frames, page_size, devices)?;
    let spare = Vec::from_elem(alloc, 0, page_size)?;
    let frames = Frames::new(alloc, frames, page_size)?;
    Ok((frames, spare))
}

// Checks that a pool may have this shape; otherwise returns why it is refused.
fn check_shape<D: PageDevice>(
    frames: usize,
    page_size: usize,
    devices: &[D],
) -> Result<(), NewPoolFault>
    ensures { MatchResult result (λ _. IsUpTo MAX_FRAMES frames
        × IsSize page_size (map D.state devices.now))
        (NewPoolRefused frames page_size (map D.state devices.now)) }
{
    if frames < 1 || frames > MAX_FRAMES {
        return Err(NewPoolFault::BadFrames);
    }
    if page_size < 1 || page_size > MAX_PAGE_SIZE || !all_sized(devices, page_size) {
        return Err(NewPoolFault::SizeDiffers);
    }
    Ok(())
}

// The rank that the history gives a page.
pub(crate) fn rank_of(history: &History, page: PageId) -> RankKey
    ensures { result ≡ rank_key page (hist (references_of history.now) page) }
{
    // The rank is over the references that the history holds: their history is this history.
    prove_is_history(history);
    key_of(page, history.get(page))
}
