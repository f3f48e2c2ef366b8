//! What an engine asks of the pool of one shard beside the calls.
ghost use Rattle.std.specs.Prelude.{◌≡◌, ◌<◌, length, IfErr, IfOk, OnOk};
ghost use Rattle.warm_gossip.specs.Clauses.{Answered, OfPool};
ghost use Rattle.warm_gossip.specs.Engine.{AsksPool, KeepsKnown};
ghost use Rattle.warm_gossip.specs.declared.call.Call.TheVariants.{Pin};
ghost use Rattle.warm_gossip.specs.declared.call.Reply.TheVariants.{Pinned};
ghost use Rattle.warm_pool.specs.Filling.{AreFromDevice, TakesFilled};
ghost use Rattle.warm_pool.specs.Outcomes.{FlushDeviceFails, ReplacesDevice, RetireFails};
ghost use Rattle.warm_pool.specs.Outcomes.{RetiresDevice, SettlesDevice, UnreadPinFails};
ghost use Rattle.warm_pool.specs.Outcomes.{WritePageFails, WriteSomeFails, WritesPageBack};
ghost use Rattle.warm_pool.specs.Outcomes.{WritesSomeBack, ZeroesPage};
ghost use Rattle.warm_pool.specs.View.{Holds, view_of};
ghost use Rattle.warm_shards.specs.Clauses.{KeepsOtherShards};
ghost use Rattle.warm_shards.specs.Shards.{shard_at};
ghost use Rattle.warm_visits.specs.ShardNumbers.{shard_of};

use crate::pool_calls::ShardSlot;
use crate::shards::Shards;
use warm_devices::PageDevice;
use warm_gossip::NodeFault;
use warm_pool::RetireError;
use warm_stamps::PageId;

impl<D: PageDevice> Shards<D> {
    /// Pins a page in its shard, and fills it with zeros, without a read: as
    /// [`warm_gossip::Node::pin_zeroed`] of the shard. It becomes dirty. Allocation-free.
    ///
    /// **A pin is not a reference**: a caller that pins a page also absorbs a reference to it.
    ///
    /// # Errors
    /// Those of [`warm_gossip::Node::pin_zeroed`] of the shard, with the same effects.
    pub fn pin_zeroed(&mut self, page: PageId) -> Result<ShardSlot, NodeFault>
        ensures shard { IfOk result (λ at. at.shard ≡ shard_of (length self.old) page) }
        ensures asked { let i = shard_of (length self.old) page in
            let h = (shard_at self.old i).history in
            AsksPool (λ old at. ZeroesPage h page old at.slot) (UnreadPinFails h page)
            (shard_at self.old i) result (shard_at self.new i) }
        ensures others { KeepsOtherShards self.old (shard_of (length self.old) page) self.new }
    {
        let shard = self.shard_of(page);
        let slot = self.nodes[shard].pin_zeroed(page)?;
        Ok(ShardSlot { shard, slot })
    }

    /// Pins a page in its shard, with the bytes given in place of a read: as
    /// [`warm_gossip::Node::pin_filled`] of the shard, the call `Pin` of it. No device is read.
    /// `bytes` is the page as its device has it now, whole: that is required of an honest device,
    /// and believed of another. If the page is resident, `bytes` is ignored. Allocation-free.
    ///
    /// **A pin is not a reference**: a caller that pins a page also absorbs a reference to it.
    ///
    /// # Errors
    /// Those of [`warm_gossip::Node::pin_filled`] of the shard, with the same effects.
    pub fn pin_filled(&mut self, page: PageId, bytes: &[u8]) -> Result<ShardSlot, NodeFault>
        requires size { let i = shard_of (length self.old) page in
            length bytes.now ≡ (shard_at self.old i).pool.page_size }
        requires given { let i = shard_of (length self.old) page in
            AreFromDevice (view_of (shard_at self.old i).pool) page bytes.now }
        ensures shard { IfOk result (λ at. at.shard ≡ shard_of (length self.old) page) }
        ensures step { let i = shard_of (length self.old) page in
            Answered (shard_at self.old i) (Pin page) (λ at. Pinned at.slot) result
            (shard_at self.new i) }
        ensures holds { let i = shard_of (length self.old) page in
            IfOk result (λ at. Holds (view_of (shard_at self.new i).pool) at.slot) }
        ensures frame { let i = shard_of (length self.old) page in
            IfOk result (λ at. TakesFilled (shard_at self.old i).pool page bytes.now at.slot
            (shard_at self.new i).pool) }
        ensures refused { let i = shard_of (length self.old) page in
            let old = shard_at self.old i in
            IfErr result (OfPool (λ why. UnreadPinFails old.history page old.pool why
            (shard_at self.new i).pool)) }
        ensures others { KeepsOtherShards self.old (shard_of (length self.old) page) self.new }
    {
        let shard = self.shard_of(page);
        let filled = self.nodes[shard].pin_filled(page, bytes)?;
        Ok(ShardSlot {
            shard,
            slot: filled,
        })
    }

    /// Writes back at most `limit` dirty pages of a shard, and returns how many of its pages are
    /// still dirty: as [`warm_gossip::Node::write_back_some`] of the shard. No device is flushed.
    /// Allocation-free.
    ///
    /// # Errors
    /// Those of [`warm_gossip::Node::write_back_some`] of the shard, with the same effects.
    pub fn write_back_some(&mut self, shard: usize, limit: usize) -> Result<usize, NodeFault>
        requires there { shard < length self.old }
        ensures asked { AsksPool (WritesSomeBack limit) (WriteSomeFails limit)
            (shard_at self.old shard) result (shard_at self.new shard) }
        ensures others { KeepsOtherShards self.old shard self.new }
    {
        self.nodes[shard].write_back_some(limit)
    }

    /// Writes back one page, if it is resident and dirty, and returns whether it was: as
    /// [`warm_gossip::Node::write_back_page`] of its shard. No device is flushed. Allocation-free.
    ///
    /// # Errors
    /// Those of [`warm_gossip::Node::write_back_page`] of the shard, with the same effects.
    pub fn write_back_page(&mut self, page: PageId) -> Result<bool, NodeFault>
        ensures asked { let i = shard_of (length self.old) page in
            AsksPool (WritesPageBack page) (WritePageFails page)
            (shard_at self.old i) result (shard_at self.new i) }
        ensures others { KeepsOtherShards self.old (shard_of (length self.old) page) self.new }
    {
        let shard = self.shard_of(page);
        self.nodes[shard].write_back_page(page)
    }

    /// Writes back the dirty pages of one device of a shard, and flushes it: as
    /// [`warm_gossip::Node::flush_device`] of the shard. Allocation-free.
    ///
    /// # Errors
    /// Those of [`warm_gossip::Node::flush_device`] of the shard, with the same effects.
    pub fn flush_device(&mut self, shard: usize, dev: u16) -> Result<(), NodeFault>
        requires there { shard < length self.old }
        ensures asked { AsksPool (λ old _. SettlesDevice dev old) (FlushDeviceFails dev)
            (shard_at self.old shard) result (shard_at self.new shard) }
        ensures others { KeepsOtherShards self.old shard self.new }
    {
        self.nodes[shard].flush_device(dev)
    }

    /// Replaces a device of a shard with another, and returns the old one: as
    /// [`warm_gossip::Node::replace`] of the shard. Each shard has a device of its own of this
    /// number.
    ///
    /// # Errors
    /// Those of [`warm_gossip::Node::replace`] of the shard, with the same effects. Each gives the
    /// new device back.
    pub fn replace(&mut self, shard: usize, dev: u16, device: D) -> Result<D, RetireError<D>>
        requires there { shard < length self.old }
        ensures known { KeepsKnown (shard_at self.old shard) (shard_at self.new shard) }
        ensures done { IfOk result (λ was. ReplacesDevice dev (D.state device)
            (shard_at self.old shard).pool (D.state was) (shard_at self.new shard).pool) }
        ensures refused { IfErr result (λ unretired. RetireFails dev (D.state device)
            (shard_at self.old shard).pool unretired.fault (shard_at self.new shard).pool) }
        ensures given_back { IfErr result (λ unretired. unretired.device ≡ device) }
        ensures others { KeepsOtherShards self.old shard self.new }
    {
        self.nodes[shard].replace(dev, device)
    }

    /// Replaces a device of a shard with another, and drops the old one: as
    /// [`warm_gossip::Node::retire`] of the shard.
    ///
    /// # Errors
    /// Those of [`warm_gossip::Node::retire`] of the shard, with the same effects. Each gives the
    /// new device back.
    pub fn retire(&mut self, shard: usize, dev: u16, device: D) -> Result<(), RetireError<D>>
        requires there { shard < length self.old }
        ensures known { KeepsKnown (shard_at self.old shard) (shard_at self.new shard) }
        ensures done { OnOk result (RetiresDevice dev (D.state device)
            (shard_at self.old shard).pool (shard_at self.new shard).pool) }
        ensures refused { IfErr result (λ unretired. RetireFails dev (D.state device)
            (shard_at self.old shard).pool unretired.fault (shard_at self.new shard).pool) }
        ensures given_back { IfErr result (λ unretired. unretired.device ≡ device) }
        ensures others { KeepsOtherShards self.old shard self.new }
    {
        self.nodes[shard].retire(dev, device)
    }
}
