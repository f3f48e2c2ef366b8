//! The calls on a node's pool.
ghost use Rattle.std.specs.Prelude.{◌≡◌, length, IfErr, IfOk, OnErr, OnOk};
ghost use Rattle.warm_pool.specs.Unchanged.{KeepsRanks};
ghost use Rattle.warm_pool.specs.Outcomes.{ReplacesDevice, RetireFails, RetiresDevice};
ghost use Rattle.warm_pool.specs.State.{IsSettled};
ghost use Rattle.warm_pool.specs.WritingBack.{WriteBackFails};
ghost use Rattle.warm_gossip.specs.declared.call.Call.TheVariants.{Pin, Unpin, Read, Write, Victim};
ghost use Rattle.warm_gossip.specs.declared.call.Call.TheVariants.{Restart};
ghost use Rattle.warm_gossip.specs.declared.call.Reply.TheVariants.{Pinned, Bytes, Page};
ghost use Rattle.warm_gossip.specs.Clauses.{Answered, DevicesAnswered, Goes, ReadIntoFails};
ghost use Rattle.warm_gossip.specs.Clauses.{SameView, NodeWriteBackFails, done};
ghost use Rattle.warm_gossip.specs.Engine.{KeepsKnown};

use crate::fault::NodeFault;
use crate::node::Node;
use crate::warm_step::{WarmUp, passed_at_pin};
use warm_devices::{PageDevice, let_go};
use warm_pool::{PoolFault, RetireError, Slot};
use warm_stamps::{ByteList, PageId};

impl<D: PageDevice> Node<D> {
    /// Pins a page, and loads it into a frame if it isn't resident: the call `Pin`.
    /// Allocation-free.
    ///
    /// **A pin is not a reference**: a caller that pins a page also absorbs a reference to it.
    ///
    /// # Errors
    /// `Pool`, with the fault and the order of [`warm_pool::Pool::pin`], and with the same effects.
    /// Pages, pin counts and contents are unchanged.
    pub fn pin(&mut self, page: PageId) -> Result<Slot, NodeFault>
        ensures step { Answered self.old (Pin page) Pinned result self.new }
        ensures devices { DevicesAnswered self.old (Pin page) Pinned result self.new }
    {
        if let Some(slot) = self.pool.pinnable(page) {
            let placed = self.pool.pin_again(page, slot);
            self.warm_up.passed = passed_at_pin(self.warm_up.passed, placed.evicted);
            return Ok(placed.slot);
        }
        self.pin_any(page)
    }

    // The same for any page. It is a function of its own, since its results are in memory: the pin
    // of a resident page keeps its own in registers.
    #[inline(never)]
    fn pin_any(&mut self, page: PageId) -> Result<Slot, NodeFault>
        ensures step { Answered self.old (Pin page) Pinned result self.new }
        ensures devices { DevicesAnswered self.old (Pin page) Pinned result self.new }
    {
        let placed = self.pool.pin_placed(page, self.peer.history())?;
        self.warm_up.passed = passed_at_pin(self.warm_up.passed, placed.evicted);
        Ok(placed.slot)
    }

    /// Removes a pin: the call `Unpin`. Allocation-free.
    ///
    /// # Errors
    /// `StaleSlot`: the slot doesn't hold its page; nothing has changed.
    pub fn unpin(&mut self, slot: Slot) -> Result<(), NodeFault>
        ensures step { Answered self.old (Unpin slot) done result self.new }
        ensures devices { DevicesAnswered self.old (Unpin slot) done result self.new }
    {
        if !self.pool.holds(slot) {
            return Err(NodeFault::StaleSlot);
        }
        self.pool.unpin(slot);
        Ok(())
    }

    /// Reads `len` bytes of the slot's page, from `at` on: the call `Read`.
    ///
    /// # Errors
    /// In this order: `StaleSlot`, if the slot doesn't hold its page; `Pool(OutOfPage)`, if
    /// the bytes reach beyond its end; `Memory`.
    pub fn read(&self, slot: Slot, at: usize, len: usize) -> Result<ByteList, NodeFault>
        ensures { Answered self.now (Read slot at len) Bytes result self.now }
    {
        if !self.pool.holds(slot) {
            return Err(NodeFault::StaleSlot);
        }
        if !self.pool.is_within(at, len) {
            return Err(NodeFault::Pool(PoolFault::OutOfPage));
        }
        let mut bytes = Vec::from_elem(self.alloc, 0, len)?;
        self.pool.read(slot, at, &mut bytes)?;
        Ok(ByteList::of(bytes))
    }

    /// Reads bytes of the slot's page, from `at` on, into the whole of `into`: the call `Read` of
    /// that length. Allocation-free.
    ///
    /// # Errors
    /// In this order: `StaleSlot`, if the slot doesn't hold its page; `Pool(OutOfPage)`, if
    /// the bytes reach beyond its end. `into` is then as it was.
    pub fn read_into(&self, slot: Slot, at: usize, into: &mut [u8]) -> Result<(), NodeFault>
        ensures read { OnOk result (Goes self.now (Read slot at (length into.old)) (Bytes into.new)
            self.now) }
        ensures refused { IfErr result (λ why. ReadIntoFails self.now slot at into.old why
            into.new) }
    {
        if !self.pool.holds(slot) {
            return Err(NodeFault::StaleSlot);
        }
        self.pool.read(slot, at, into)?;
        Ok(())
    }

    /// Writes bytes into the slot's page, from `at` on: the call `Write`. Allocation-free.
    ///
    /// # Errors
    /// In this order: `StaleSlot`, if the slot doesn't hold its page; `Pool(OutOfPage)`, if
    /// the bytes reach beyond its end. Nothing has changed.
    pub fn write(&mut self, slot: Slot, at: usize, bytes: &[u8]) -> Result<(), NodeFault>
        ensures step { Answered self.old (Write slot at bytes.now) done result self.new }
        ensures devices { DevicesAnswered self.old (Write slot at bytes.now) done result self.new }
        ensures refused { OnErr result (self.new ≡ self.old) }
    {
        if !self.pool.holds(slot) {
            return Err(NodeFault::StaleSlot);
        }
        self.pool.write(slot, at, bytes)?;
        Ok(())
    }

    /// The page that would be evicted next, if there is one: the call `Victim`. Allocation-free.
    pub fn victim(&mut self) -> Option<PageId>
        ensures step { Goes self.old Victim (Page result) self.new }
        ensures same { self.new ≡ self.old }
    {
        self.pool.victim()
    }

    /// Writes back each dirty page to its device and flushes the unflushed devices, and then
    /// forgets the history and evicts every page: the call `Restart`. Allocation-free.
    ///
    /// # Errors
    /// `Pool(Fixed)`: a page is pinned, and nothing has changed. `Pool(Fault)`: a page could not be
    /// written to its device, or a device could not be flushed. Of what a caller sees, only one
    /// count of failures has changed; the pages written before the failure are clean.
    pub fn restart(&mut self) -> Result<(), NodeFault>
        ensures step { Answered self.old Restart done result self.new }
        ensures devices { DevicesAnswered self.old Restart done result self.new }
    {
        self.pool.empty()?;
        self.peer.clear();
        self.warm_up = WarmUp::new(self.alloc);
        Ok(())
    }

    /// Writes back each dirty page to its device, and flushes the unflushed devices.
    /// Allocation-free.
    ///
    /// # Errors
    /// `Pool(Fault)` at the first write or flush that fails. Of what a caller sees, only one count
    /// of failures has changed; the pages written before the failure are clean, and if a flush
    /// failed no page is dirty.
    pub fn write_back(&mut self) -> Result<(), NodeFault>
        ensures same { OnOk result (SameView self.old self.new) }
        ensures settled { OnOk result (IsSettled self.new.pool) }
        ensures refused { IfErr result (λ why. NodeWriteBackFails self.old why self.new) }
        ensures stopped { OnErr result (WriteBackFails self.old.pool self.new.pool) }
    {
        self.pool.write_back_all()?;
        Ok(())
    }

    /// Replaces a device with another and returns the old one, as [`warm_pool::Pool::replace`]
    /// does: its dirty pages are written back, it is flushed, and its pages are evicted. The
    /// history is kept, with its horizon: pages of the new device that it knows are ranked by it,
    /// and warmed up.
    ///
    /// The next warm-up step begins with the hottest page again.
    ///
    /// # Errors
    /// Those of [`warm_pool::Pool::replace`], in its order and with the same effects: only `Fault`
    /// changes anything. Each gives the new device back.
    pub fn replace(&mut self, dev: u16, device: D) -> Result<D, RetireError<D>>
        ensures known { KeepsKnown self.old self.new }
        ensures ranked { KeepsRanks self.old.pool self.new.pool }
        ensures done { IfOk result (λ was. ReplacesDevice
            dev (D.state device) self.old.pool (D.state was) self.new.pool) }
        ensures refused { IfErr result (λ unretired. RetireFails
            dev (D.state device) self.old.pool unretired.fault self.new.pool) }
        ensures given_back { IfErr result (λ unretired. unretired.device ≡ device) }
    {
        let old = self.pool.replace(dev, device)?;
        self.warm_up.passed = 0;
        Ok(old)
    }

    /// Replaces a device with another, as [`Node::replace`] does, and drops the old one.
    ///
    /// # Errors
    /// Those of [`Node::replace`], with the same effects.
    pub fn retire(&mut self, dev: u16, device: D) -> Result<(), RetireError<D>>
        ensures known { KeepsKnown self.old self.new }
        ensures ranked { KeepsRanks self.old.pool self.new.pool }
        ensures done { OnOk result (RetiresDevice
            dev (D.state device) self.old.pool self.new.pool) }
        ensures refused { IfErr result (λ unretired. RetireFails
            dev (D.state device) self.old.pool unretired.fault self.new.pool) }
        ensures given_back { IfErr result (λ unretired. unretired.device ≡ device) }
    {
        let old = self.replace(dev, device)?;
        let_go(old);
        Ok(())
    }
}
