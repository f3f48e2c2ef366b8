//! What an engine asks of the pools of shards beside the calls of a node, in turns of the shards.
ghost use Rattle.std.specs.Prelude.{◌≡◌, ◌≢◌, ◌<◌, ◌+◌, Err, length, IfErr, IfOk, OnErr, OnOk};
ghost use Rattle.warm_visits.specs.ShardNumbers.{shard_of};
ghost use Rattle.warm_concurrent.specs.Attached.{AreOf, AreTurns};
ghost use Rattle.warm_concurrent.specs.Clauses.{CallEnds};
ghost use Rattle.warm_concurrent.specs.Whole.{DoneFails, DoneFirst};
ghost use Rattle.warm_shard_machine.specs.declared.calls.ShardCall.TheVariants.{ForgetPages};
ghost use Rattle.warm_shard_machine.specs.declared.calls.ShardCall.TheVariants.{PinZeroed};
ghost use Rattle.warm_shard_machine.specs.declared.calls.ShardReply.TheVariants.{Pinned};
ghost use Rattle.warm_concurrent.specs.declared.fault.SharedFault.TheVariants.{PinsFull};

use crate::fault::SharedFault;
use crate::pool_calls::do_in;
use crate::shared::{Attached, SharedShards, call_shard};
use crate::visiting::Stopped;
use std::sync::Wait;
use warm_devices::PageDevice;
use warm_pool::Slot;
use warm_shard_machine::{Shard, ShardCall, ShardReply};
use warm_shards::ShardSlot;
use warm_stamps::PageId;
use warm_turn::{Pass, Turn};
use warm_visits::shard_of;

// Pins a page in its shard, and fills it with zeros.
fn pin_zeroed_in<D: PageDevice + Send, R: Wait>(
    rt: &R,
    turns: &Vec<Turn<Shard<D>>>,
    passes: &mut Vec<Pass<Shard<D>>>,
    shard: usize,
    page: PageId,
) -> Result<Slot, SharedFault>
    requires turns { AreTurns turns.now.items }
    requires passes { AreOf turns.now.items passes.old.items }
    requires there { shard < length turns.now.items }
    requires own { shard_of (length turns.now.items) page ≡ shard }
    ensures passes { AreOf turns.now.items passes.new.items }
    ensures ends { CallEnds passes.old.items shard (PinZeroed page) Pinned result
        passes.new.items }
{
    match call_shard(rt, turns, passes, shard, ShardCall::PinZeroed(page))? {
        ShardReply::Pinned(slot) => Ok(slot),
        ShardReply::Refused(why) => Err(SharedFault::Node(why)),
        _ => unreachable!(),
    }
}

// Each shard forgets its pages of a device from a number on.
fn forget_each<D: PageDevice + Send, R: Wait>(
    rt: &R,
    turns: &Vec<Turn<Shard<D>>>,
    passes: &mut Vec<Pass<Shard<D>>>,
    dev: u16,
    from: u64,
) -> Result<(), Stopped>
    requires turns { AreTurns turns.now.items }
    requires passes { AreOf turns.now.items passes.old.items }
    ensures passes { AreOf turns.now.items passes.new.items }
    ensures forgotten { OnOk result (DoneFirst (ForgetPages dev from) (length turns.now.items)
        passes.old.items passes.new.items) }
    ensures stopped { IfErr result (λ at. DoneFails (ForgetPages dev from) at.shard at.fault
        passes.old.items passes.new.items) }
{
    let count = turns.len();
    for shard in 0..count {
        let call = ShardCall::ForgetPages { dev, from };
        if let Err(fault) = do_in(rt, turns, passes, shard, call) {
            return Err(Stopped { fault, shard });
        }
    }
    Ok(())
}

impl<D: PageDevice + Send> SharedShards<D> {
    /// Pins a page in its shard, and fills it with zeros, without a read: one turn of the shard, in
    /// which the call `PinZeroed` is answered. So this is for a page that is new, or is to be
    /// overwritten. It becomes dirty. Allocation-free.
    ///
    /// **A pin is not a reference**: a caller that pins a page also absorbs a reference to it.
    ///
    /// # Errors
    /// `PinsFull`: `u64::MAX` pins are held; no turn was entered. `Node`, with the fault and the
    /// effects of [`warm_gossip::Node::pin_zeroed`] in the shard. `TurnsSpent`.
    pub fn pin_zeroed<R: Wait>(
        &self,
        rt: &R,
        attached: &mut Attached<D>,
        page: PageId,
    ) -> Result<ShardSlot, SharedFault>
        requires { AreOf self.now attached.old.passes }
        ensures attached { AreOf self.now attached.new.passes }
        ensures full { attached.old.pins ≡ u64.MAX → (result ≡ Err PinsFull)
            × (attached.new ≡ attached.old) }
        ensures ends { attached.old.pins ≢ u64.MAX
            → CallEnds attached.old.passes (shard_of (length self.now) page) (PinZeroed page)
            (λ at. Pinned at.slot) result attached.new.passes }
        ensures shard { IfOk result (λ at. at.shard ≡ shard_of (length self.now) page) }
        ensures held { OnOk result (attached.new.pins ≡ attached.old.pins + 1) }
        ensures as_many { OnErr result (attached.new.pins ≡ attached.old.pins) }
    {
        if attached.pins == u64::MAX {
            return Err(SharedFault::PinsFull);
        }
        let shard = shard_of(self.turns.len(), page);
        let slot = pin_zeroed_in(rt, &self.turns, &mut attached.passes, shard, page)?;
        attached.pins += 1;
        Ok(ShardSlot { shard, slot })
    }

    /// Evicts the pages of a device with the number `from` and above, and does not write them: each
    /// shard forgets its own in one turn, in the order of the shards, in which the call
    /// `ForgetPages` is answered. What only their frames hold is lost. Another thread may pin such
    /// pages again meanwhile, and later calls read them again. Allocation-free.
    ///
    /// # Errors
    /// The shards before that of the error have forgotten their pages, and the others have not. The
    /// error is `Node(Pool(NoDevice))`, if its shard has no device of this number;
    /// `Node(Pool(Fixed))`, if one of its pages is pinned; or `TurnsSpent`.
    pub fn forget_pages<R: Wait>(
        &self,
        rt: &R,
        attached: &mut Attached<D>,
        dev: u16,
        from: u64,
    ) -> Result<(), Stopped>
        requires { AreOf self.now attached.old.passes }
        ensures attached { AreOf self.now attached.new.passes }
        ensures forgotten { OnOk result (DoneFirst (ForgetPages dev from) (length self.now)
            attached.old.passes attached.new.passes) }
        ensures stopped { IfErr result (λ at. DoneFails (ForgetPages dev from) at.shard at.fault
            attached.old.passes attached.new.passes) }
        ensures pins { attached.new.pins ≡ attached.old.pins }
    {
        forget_each(rt, &self.turns, &mut attached.passes, dev, from)?;
        Ok(())
    }
}
