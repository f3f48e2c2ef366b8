//! What an engine that holds a node asks of its pool beside the calls.
//!
//! None of these is a [`crate::Call`], though [`Node::pin_filled`] goes as the call `Pin` does. The
//! relation `Step` of calls is over what a caller sees of a pool, in which no page is dirty, and no
//! device has bytes of its own: it cannot say how many dirty pages are left, nor what a page
//! contains once it is forgotten. A page with zeros is pinned by a program that fills it through
//! bytes that it is lent.
ghost use Rattle.std.specs.Prelude.{◌≡◌, IfErr, IfOk, OnOk, length};
ghost use Rattle.warm_pool.specs.Filling.{AreFromDevice, TakesFilled};
ghost use Rattle.warm_pool.specs.Forgetting.{ForgetRefused, Forgets, MayForget};
ghost use Rattle.warm_pool.specs.Unchanged.{KeepsRanks};
ghost use Rattle.warm_pool.specs.Outcomes.{FlushDeviceFails, SettlesDevice, UnreadPinFails};
ghost use Rattle.warm_pool.specs.Outcomes.{WritePageFails, WriteSomeFails, WritesPageBack};
ghost use Rattle.warm_pool.specs.Outcomes.{WritesSomeBack, ZeroesPage};
ghost use Rattle.warm_pool.specs.View.{view_of, Holds};
ghost use Rattle.warm_gossip.specs.declared.call.Call.TheVariants.{Pin};
ghost use Rattle.warm_gossip.specs.declared.call.Reply.TheVariants.{Pinned};
ghost use Rattle.warm_gossip.specs.Clauses.{Answered, OfPool};
ghost use Rattle.warm_gossip.specs.Engine.{AsksPool};

use crate::fault::NodeFault;
use crate::node::Node;
use crate::warm_step::passed_at_fill;
use warm_devices::PageDevice;
use warm_history::laws::prove_is_history;
use warm_pool::Slot;
use warm_stamps::PageId;

impl<D: PageDevice> Node<D> {
    /// Pins a page as [`Node::pin`] does, and fills it with zeros. The page isn't read from its
    /// device: so this is for a page that is new, or is to be overwritten. It becomes dirty. If
    /// it is resident, zeros are written to it as by [`Node::write`]. Allocation-free.
    ///
    /// **A pin is not a reference**: a caller that pins a page also absorbs a reference to it.
    ///
    /// The next warm-up step begins with the hottest page again, even if no page was evicted:
    /// it looks up once more the pages of the list that earlier steps had passed.
    ///
    /// # Errors
    /// `Pool`, with the fault and the order of [`warm_pool::Pool::pin_zeroed`], and with the same
    /// effects: those of a pin but `ReadFault`, which doesn't occur. Pages, pin counts and contents
    /// are unchanged.
    pub fn pin_zeroed(&mut self, page: PageId) -> Result<Slot, NodeFault>
        ensures { AsksPool (ZeroesPage self.old.history page)
            (UnreadPinFails self.old.history page) self.old result self.new }
    {
        let slot = self.pool.pin_zeroed(page, self.peer.history())?;
        self.warm_up.passed = 0;
        Ok(slot)
    }

    /// Pins a page as [`Node::pin`] does, but with the bytes given in place of a read, as
    /// [`warm_pool::Pool::pin_filled`] does: the step of the call `Pin`. No device is read. `bytes`
    /// is the page as its device has it now, whole: that is required of an honest device, and
    /// believed of another. If the page is resident, `bytes` is ignored. Allocation-free.
    ///
    /// **A pin is not a reference**: a caller that pins a page also absorbs a reference to it.
    ///
    /// # Errors
    /// `Pool`, with the fault and the order of [`warm_pool::Pool::pin_filled`], and with the same
    /// effects: those of a pin but `ReadFault`, which doesn't occur. Pages, pin counts and contents
    /// are unchanged.
    pub fn pin_filled(&mut self, page: PageId, bytes: &[u8]) -> Result<Slot, NodeFault>
        requires size { length bytes.now ≡ self.old.pool.page_size }
        requires given { AreFromDevice (view_of self.old.pool) page bytes.now }
        ensures step { Answered self.old (Pin page) Pinned result self.new }
        ensures holds { IfOk result (λ slot. Holds (view_of self.new.pool) slot) }
        ensures frame { IfOk result (λ slot. TakesFilled
            self.old.pool page bytes.now slot self.new.pool) }
        ensures refused { IfErr result (OfPool (λ why. UnreadPinFails
            self.old.history page self.old.pool why self.new.pool)) }
    {
        let filled = self.pool.pin_filled(page, self.peer.history(), bytes)?;
        // The order of the list is over the references that the history holds.
        prove_is_history(self.peer.history());
        let history = self.peer.history();
        self.warm_up.passed = passed_at_fill(history, &self.warm_up, page, filled.evicted);
        Ok(filled.slot)
    }

    /// Writes back at most `limit` dirty pages, and returns how many pages are still dirty, as
    /// [`warm_pool::Pool::write_back_some`] does: a checkpoint goes on in such portions between
    /// other calls. No device is flushed. [`warm_pool::Pool::dirty`] of [`Node::pool`] gives the
    /// number of dirty pages without a write. Allocation-free.
    ///
    /// # Errors
    /// `Pool(Fault)`: a write failed. Pages, pin counts and contents are unchanged; the write-backs
    /// made before it stay, and all other pages are dirty as before.
    pub fn write_back_some(&mut self, limit: usize) -> Result<usize, NodeFault>
        ensures ranked { KeepsRanks self.old.pool self.new.pool }
        ensures asked { AsksPool (WritesSomeBack limit) (WriteSomeFails limit)
            self.old result self.new }
    {
        let left = self.pool.write_back_some(limit)?;
        Ok(left)
    }

    /// Writes back one page, if it is resident and dirty, and returns whether it was, as
    /// [`warm_pool::Pool::write_back_page`] does; otherwise nothing is changed. Its device is called
    /// once, and no other one. No device is flushed. Allocation-free.
    ///
    /// # Errors
    /// `Pool(Fault)`: the write failed, and its device's count of failures has increased. Frames
    /// are unchanged, so the page is dirty as before.
    pub fn write_back_page(&mut self, page: PageId) -> Result<bool, NodeFault>
        ensures ranked { KeepsRanks self.old.pool self.new.pool }
        ensures asked { AsksPool (WritesPageBack page) (WritePageFails page)
            self.old result self.new }
    {
        let was_dirty = self.pool.write_back_page(page)?;
        Ok(was_dirty)
    }

    /// Writes back the dirty pages of one device, and flushes it if it is unflushed, as
    /// [`warm_pool::Pool::flush_device`] does. Other devices, and the frames of their pages, are
    /// unchanged, whether the call is refused or not. Allocation-free.
    ///
    /// # Errors
    /// In this order; each leaves pages, pin counts and contents unchanged.
    /// - `Pool(NoDevice)`: there is no device of this number. Nothing is changed.
    /// - `Pool(Fault)`: a write or the flush of the device failed, and its count of failures has
    ///   increased. The write-backs made before it stay.
    pub fn flush_device(&mut self, dev: u16) -> Result<(), NodeFault>
        ensures ranked { KeepsRanks self.old.pool self.new.pool }
        ensures asked { AsksPool (λ old _. SettlesDevice dev old) (FlushDeviceFails dev)
            self.old result self.new }
    {
        self.pool.flush_device(dev)?;
        Ok(())
    }

    /// Evicts the pages of a device with the number `from` and above, and does not write them, as
    /// [`warm_pool::Pool::forget_pages`] does: what only their frames hold is lost. So a program
    /// that cuts a file at a page makes the node forget what was beyond. No device is called.
    /// Allocation-free.
    ///
    /// The history is kept, and the device still has as many pages as it says: a later pin or
    /// warm-up step reads these again. That step begins with the hottest page.
    ///
    /// # Errors
    /// In this order; each changes nothing.
    /// - `Pool(NoDevice)`: there is no device of this number.
    /// - `Pool(Fixed)`: one of the pages is pinned.
    pub fn forget_pages(&mut self, dev: u16, from: u64) -> Result<(), NodeFault>
        ensures ranked { KeepsRanks self.old.pool self.new.pool }
        ensures asked { AsksPool (λ old _. Forgets old dev from)
            (λ old why. ForgetRefused old dev from why) self.old result self.new }
    {
        self.pool.forget_pages(dev, from)?;
        self.warm_up.passed = 0;
        Ok(())
    }

    /// Whether [`Node::forget_pages`] forgets these pages now, as [`warm_pool::Pool::may_forget`]
    /// says it. Allocation-free.
    ///
    /// # Errors
    /// That of `forget_pages`.
    pub fn may_forget(&self, dev: u16, from: u64) -> Result<(), NodeFault>
        ensures may { OnOk result (MayForget self.now.pool dev from) }
        ensures refused { IfErr result (OfPool (λ fault. ForgetRefused
            self.now.pool dev from fault self.now.pool)) }
    {
        self.pool.may_forget(dev, from)?;
        Ok(())
    }
}
