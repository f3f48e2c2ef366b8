//! Pinning a page whose bytes a thread has read with no turn held, in one turn of the page's shard.
ghost use Rattle.std.specs.Prelude.{◌≡◌, ◌≢◌, ◌<◌, ◌+◌, Err, length, IfErr, IfOk, OnErr, OnOk};
ghost use Rattle.warm_gossip.specs.declared.fault.NodeFault.TheVariants.{Memory};
ghost use Rattle.warm_visits.specs.ShardNumbers.{shard_of};
ghost use Rattle.warm_concurrent.specs.Attached.{AreOf, AreTurns};
ghost use Rattle.warm_concurrent.specs.Clauses.{CallEnds};
ghost use Rattle.warm_shard_machine.specs.Visits.{ClaimNothing};
ghost use Rattle.warm_concurrent.specs.Filling.{FilledPinEnds};
ghost use Rattle.warm_shard_machine.specs.declared.calls.ShardCall.TheVariants.{PinFilled};
ghost use Rattle.warm_shard_machine.specs.declared.calls.ShardReply.TheVariants.{Pinned, Refused};
ghost use Rattle.warm_concurrent.specs.declared.fault.SharedFault.TheVariants as faults;

use crate::fault::SharedFault;
use crate::shared::{Attached, SharedShards, visit_or_back};
use boxcar::tag::Tag;
use std::sync::Wait;
use warm_devices::PageDevice;
use warm_pool::Slot;
use warm_shard_machine::{Filling, Shard, Went, tag_of};
use warm_shards::ShardSlot;
use warm_stamps::PageId;
use warm_turn::{Pass, Turn};
use warm_visits::shard_of;

// Pins a page in its shard, with these bytes in place of a read, which a tag tells too.
fn fill_in<D: PageDevice + Send, R: Wait>(
    rt: &R,
    turns: &Vec<Turn<Shard<D>>>,
    passes: &mut Vec<Pass<Shard<D>>>,
    shard: usize,
    page: PageId,
    bytes: &[u8],
    told: Tag,
) -> Result<Slot, SharedFault>
    requires turns { AreTurns turns.now.items }
    requires passes { AreOf turns.now.items passes.old.items }
    requires there { shard < length turns.now.items }
    requires own { shard_of (length turns.now.items) page ≡ shard }
    requires unsure { ClaimNothing D.state }
    requires told { told.numbers ≡ bytes.now }
    ensures passes { AreOf turns.now.items passes.new.items }
    ensures ends { CallEnds passes.old.items shard (PinFilled page told) Pinned result
        passes.new.items }
    ensures no_memory { IfErr result (λ why. why ≢ faults.Node Memory) }
{
    let filling = Filling { page, bytes, told };
    match visit_or_back(rt, turns, passes, shard, filling) {
        Ok(Went::Given(slot)) => Ok(slot),
        Ok(Went::Refused(why)) => Err(SharedFault::Node(why)),
        Ok(Went::Foreign) => unreachable!(),
        Err(_visitor) => Err(SharedFault::TurnsSpent),
    }
}

// Pins a page in its shard, with these bytes in place of a read.
fn pin_filled_in<D: PageDevice + Send, R: Wait>(
    rt: &R,
    turns: &Vec<Turn<Shard<D>>>,
    passes: &mut Vec<Pass<Shard<D>>>,
    shard: usize,
    page: PageId,
    bytes: &[u8],
) -> Result<Slot, SharedFault>
    requires turns { AreTurns turns.now.items }
    requires passes { AreOf turns.now.items passes.old.items }
    requires there { shard < length turns.now.items }
    requires own { shard_of (length turns.now.items) page ≡ shard }
    requires unsure { ClaimNothing D.state }
    ensures passes { AreOf turns.now.items passes.new.items }
    ensures ends { FilledPinEnds passes.old.items shard page bytes.now Pinned result
        passes.new.items }
    ensures no_memory { IfErr result (λ why. why ≢ faults.Node Memory) }
{
    let told = tag_of(bytes);
    fill_in(rt, turns, passes, shard, page, bytes, told)
}

impl<D: PageDevice + Send> SharedShards<D> {
    /// Pins a page in its shard, with the bytes given in place of a read: one turn of the shard, in
    /// which the call `PinFilled` is answered. So a thread reads a page with no turn held, and holds
    /// up nobody meanwhile. No device is read. If the page is resident, `bytes` is ignored.
    /// Allocation-free.
    ///
    /// `bytes` is the page as the shard's device has it now, whole, which is believed. No device of
    /// the type may claim to return what was written, as those over files do not. A caller keeps the
    /// page out of all frames between its read and this call, for example by a table of pages under
    /// way: else the page may be changed, written and evicted meanwhile, and the bytes are old.
    ///
    /// **A pin is not a reference**: a caller that pins a page also absorbs a reference to it.
    ///
    /// # Errors
    /// `PinsFull`: `u64::MAX` pins are held; no turn was entered. `Node(Pool(SizeDiffers))`: the
    /// bytes are not as many as a page has; nothing has changed. `Node(Pool(..))`, with a fault and
    /// the effects of [`warm_gossip::Node::pin_filled`] in the shard. `TurnsSpent`.
    pub fn pin_filled<R: Wait>(
        &self,
        rt: &R,
        attached: &mut Attached<D>,
        page: PageId,
        bytes: &[u8],
    ) -> Result<ShardSlot, SharedFault>
        requires passes { AreOf self.now attached.old.passes }
        requires unsure { ClaimNothing D.state }
        ensures attached { AreOf self.now attached.new.passes }
        ensures full { attached.old.pins ≡ u64.MAX → (result ≡ Err faults.PinsFull)
            × (attached.new ≡ attached.old) }
        ensures ends { attached.old.pins ≢ u64.MAX
            → FilledPinEnds attached.old.passes (shard_of (length self.now) page) page bytes.now
            (λ at. Pinned at.slot) result attached.new.passes }
        ensures no_memory { IfErr result (λ why. why ≢ faults.Node Memory) }
        ensures shard { IfOk result (λ at. at.shard ≡ shard_of (length self.now) page) }
        ensures held { OnOk result (attached.new.pins ≡ attached.old.pins + 1) }
        ensures as_many { OnErr result (attached.new.pins ≡ attached.old.pins) }
    {
        if attached.pins == u64::MAX {
            return Err(SharedFault::PinsFull);
        }
        let shard = shard_of(self.turns.len(), page);
        let slot = pin_filled_in(rt, &self.turns, &mut attached.passes, shard, page, bytes)?;
        attached.pins += 1;
        Ok(ShardSlot { shard, slot })
    }
}
