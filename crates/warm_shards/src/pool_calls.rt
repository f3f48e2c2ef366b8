//! The calls on the pool of one shard.
ghost use Rattle.std.specs.Prelude.{◌≡◌, ◌<◌, length, IfErr, IfOk, OnErr, OnOk};
ghost use Rattle.warm_gossip.specs.Clauses.{Answered, DevicesAnswered, Goes, NodeWriteBackFails};
ghost use Rattle.warm_gossip.specs.Clauses.{ReadIntoFails, SameView, done};
ghost use Rattle.warm_gossip.specs.declared.call.Call.TheVariants.{Pin, Read, Unpin, Victim};
ghost use Rattle.warm_gossip.specs.declared.call.Call.TheVariants.{WarmStep, Write};
ghost use Rattle.warm_gossip.specs.declared.call.Reply.TheVariants.{Bytes, Loaded, Page, Pinned};
ghost use Rattle.warm_gossip.specs.declared.fault.NodeFault.TheVariants.{Memory};
ghost use Rattle.warm_gossip.specs.State.{node_view};
ghost use Rattle.warm_gossip.specs.Step.{IsNextWarm};
ghost use Rattle.warm_history.specs.Histories.{references_of};
ghost use Rattle.warm_pool.specs.State.{IsSettled};
ghost use Rattle.warm_pool.specs.View.{unfixed_pages, view_of};
ghost use Rattle.warm_pool.specs.WritingBack.{WriteBackFails};
ghost use Rattle.warm_rank.specs.Ranking.{IsVictim};
ghost use Rattle.warm_shards.specs.Clauses.{KeepsOtherShards};
ghost use Rattle.warm_shards.specs.Shards.{shard_at, whole};
ghost use Rattle.warm_visits.specs.ShardNumbers.{shard_of};

use crate::shards::Shards;
use warm_devices::PageDevice;
use warm_gossip::NodeFault;
use warm_pool::Slot;
use warm_stamps::{ByteList, PageId};

/// What a pin gives: the number of the page's shard, with the slot in its pool.
#[derive(Clone, Copy, PartialEq, Eq, Debug)]
pub struct ShardSlot {
    /// The number of the shard, from 0.
    pub shard: usize,
    /// The slot in the shard's pool.
    pub slot: Slot,
}

impl<D: PageDevice> Shards<D> {
    /// Pins a page in its shard, and loads it into a frame of that shard if it isn't resident: the
    /// call `Pin` of the shard. Allocation-free.
    ///
    /// **A pin is not a reference**: a caller that pins a page also absorbs a reference to it.
    ///
    /// # Errors
    /// Those of [`warm_gossip::Node::pin`] of the shard, with the same effects.
    pub fn pin(&mut self, page: PageId) -> Result<ShardSlot, NodeFault>
        ensures shard { IfOk result (λ at. at.shard ≡ shard_of (length self.old) page) }
        ensures step { let shard = shard_of (length self.old) page in
            Answered (shard_at self.old shard) (Pin page) (λ at. Pinned at.slot) result
            (shard_at self.new shard) }
        ensures devices { let shard = shard_of (length self.old) page in
            DevicesAnswered (shard_at self.old shard) (Pin page) (λ at. Pinned at.slot) result
            (shard_at self.new shard) }
        ensures others { KeepsOtherShards self.old (shard_of (length self.old) page) self.new }
    {
        let shard = self.shard_of(page);
        let slot = self.nodes[shard].pin(page)?;
        Ok(ShardSlot { shard, slot })
    }

    /// Removes a pin: the call `Unpin` of the slot's shard. Allocation-free.
    ///
    /// # Errors
    /// `StaleSlot`: there is no such shard, or the slot doesn't hold its page there. Nothing has
    /// changed.
    pub fn unpin(&mut self, at: ShardSlot) -> Result<(), NodeFault>
        ensures step { Answered (shard_at self.old at.shard) (Unpin at.slot) done result
            (shard_at self.new at.shard) }
        ensures devices { DevicesAnswered (shard_at self.old at.shard) (Unpin at.slot) done result
            (shard_at self.new at.shard) }
        ensures others { KeepsOtherShards self.old at.shard self.new }
    {
        if at.shard >= self.nodes.len() {
            return Err(NodeFault::StaleSlot);
        }
        self.nodes[at.shard].unpin(at.slot)
    }

    /// Reads `len` bytes of the slot's page, from `at` on: the call `Read` of the slot's shard.
    ///
    /// # Errors
    /// In this order: `StaleSlot`, if there is no such shard, or the slot doesn't hold its page
    /// there; `Pool(OutOfPage)`, if the bytes reach beyond its end; `Memory`.
    pub fn read(&self, slot: ShardSlot, at: usize, len: usize) -> Result<ByteList, NodeFault>
        ensures { let shard = shard_at self.now slot.shard in
            Answered shard (Read slot.slot at len) Bytes result shard }
    {
        if slot.shard >= self.nodes.len() {
            return Err(NodeFault::StaleSlot);
        }
        self.nodes[slot.shard].read(slot.slot, at, len)
    }

    /// Reads bytes of the slot's page, from `at` on, into the whole of `into`: the call `Read` of
    /// that length of the slot's shard. Allocation-free.
    ///
    /// # Errors
    /// In this order: `StaleSlot`, if there is no such shard, or the slot doesn't hold its page
    /// there; `Pool(OutOfPage)`, if the bytes reach beyond its end. `into` is then as it was.
    pub fn read_into(&self, slot: ShardSlot, at: usize, into: &mut [u8]) -> Result<(), NodeFault>
        ensures read { let shard = shard_at self.now slot.shard in
            OnOk result (Goes shard (Read slot.slot at (length into.old)) (Bytes into.new) shard) }
        ensures refused { IfErr result (λ why. ReadIntoFails (shard_at self.now slot.shard)
            slot.slot at into.old why into.new) }
    {
        if slot.shard >= self.nodes.len() {
            return Err(NodeFault::StaleSlot);
        }
        self.nodes[slot.shard].read_into(slot.slot, at, into)
    }

    /// Writes bytes into the slot's page, from `at` on: the call `Write` of the slot's shard.
    /// Allocation-free.
    ///
    /// # Errors
    /// In this order: `StaleSlot`, if there is no such shard, or the slot doesn't hold its page
    /// there; `Pool(OutOfPage)`, if the bytes reach beyond its end. Nothing has changed.
    pub fn write(&mut self, slot: ShardSlot, at: usize, bytes: &[u8]) -> Result<(), NodeFault>
        ensures step { Answered (shard_at self.old slot.shard) (Write slot.slot at bytes.now) done
            result (shard_at self.new slot.shard) }
        ensures devices { DevicesAnswered (shard_at self.old slot.shard)
            (Write slot.slot at bytes.now) done result (shard_at self.new slot.shard) }
        ensures others { KeepsOtherShards self.old slot.shard self.new }
    {
        if slot.shard >= self.nodes.len() {
            return Err(NodeFault::StaleSlot);
        }
        self.nodes[slot.shard].write(slot.slot, at, bytes)
    }

    /// Writes back each dirty page of a shard to its device, and flushes the shard's unflushed
    /// devices. Allocation-free.
    ///
    /// # Errors
    /// Those of [`warm_gossip::Node::write_back`] of the shard, with the same effects.
    pub fn write_back(&mut self, shard: usize) -> Result<(), NodeFault>
        requires there { shard < length self.old }
        ensures same { OnOk result (SameView (shard_at self.old shard) (shard_at self.new shard)) }
        ensures settled { OnOk result (IsSettled (shard_at self.new shard).pool) }
        ensures refused { IfErr result (λ why. NodeWriteBackFails (shard_at self.old shard) why
            (shard_at self.new shard)) }
        ensures stopped { OnErr result (WriteBackFails (shard_at self.old shard).pool
            (shard_at self.new shard).pool) }
        ensures others { KeepsOtherShards self.old shard self.new }
    {
        self.nodes[shard].write_back()
    }

    /// The page of a shard that would be evicted next for another page of that shard, if there is
    /// one: the call `Victim` of the shard. Of the unpinned resident pages of its shard it has the
    /// greatest backward 2-distance, over all references to pages of all shards. Allocation-free.
    pub fn victim(&mut self, shard: usize) -> Option<PageId>
        requires there { shard < length self.old }
        ensures step { Goes (shard_at self.old shard) Victim (Page result)
            (shard_at self.old shard) }
        ensures victim { IsVictim (references_of (whole self.old))
            (unfixed_pages (view_of (shard_at self.old shard).pool)) result }
        ensures same { self.new ≡ self.old }
    {
        self.nodes[shard].victim()
    }

    /// Loads the hottest page of a shard that is not resident and that a device has, among as many
    /// of the shard's hottest as it has frames: the call `WarmStep` of the shard. A standby calls
    /// it for each shard until it returns `None`.
    ///
    /// # Errors
    /// Those of [`warm_gossip::Node::warm_step`] of the shard, with the same effects.
    pub fn warm_step(&mut self, shard: usize) -> Result<Option<PageId>, NodeFault>
        requires there { shard < length self.old }
        ensures step { Answered (shard_at self.old shard) WarmStep Loaded result
            (shard_at self.new shard) }
        ensures devices { DevicesAnswered (shard_at self.old shard) WarmStep Loaded result
            (shard_at self.new shard) }
        ensures others { KeepsOtherShards self.old shard self.new }
    {
        self.nodes[shard].warm_step()
    }

    /// The page that [`Shards::warm_step`] of the shard would load now; `None` if there is none: as
    /// [`warm_gossip::Node::warm_next`] of the shard. Nothing is loaded.
    ///
    /// # Errors
    /// Those of [`warm_gossip::Node::warm_next`] of the shard.
    pub fn warm_next(&mut self, shard: usize) -> Result<Option<PageId>, NodeFault>
        requires there { shard < length self.old }
        ensures same { self.new ≡ self.old }
        ensures next { IfOk result (λ page. IsNextWarm (node_view (shard_at self.old shard)) page) }
        ensures refused { IfErr result (λ why. why ≡ Memory) }
    {
        self.nodes[shard].warm_next()
    }
}
