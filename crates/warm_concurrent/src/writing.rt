//! Writing back: each shard writes its pages, and then each flushes; or one shard writes all of its
//! own, or some.
ghost use Rattle.std.specs.Prelude.{◌≡◌, ◌<◌, length, IfErr, OnOk};
ghost use Rattle.warm_concurrent.specs.Attached.{AreOf, AreTurns};
ghost use Rattle.warm_visits.specs.ShardNumbers.{shard_of};
ghost use Rattle.warm_concurrent.specs.Clauses.{CallEnds, shard_done};
ghost use Rattle.warm_concurrent.specs.Whole.{DoneFails, DoneFirst, ShardsWriteBack};
ghost use Rattle.warm_concurrent.specs.Whole.{WriteBackStopsAt};
ghost use Rattle.warm_shard_machine.specs.declared.calls.ShardCall.TheVariants.{WriteBack};
ghost use Rattle.warm_shard_machine.specs.declared.calls.ShardCall.TheVariants.{WritePages};
ghost use Rattle.warm_shard_machine.specs.declared.calls.ShardCall.TheVariants.{FlushDevice};
ghost use Rattle.warm_shard_machine.specs.declared.calls.ShardCall.TheVariants.{WritePage};
ghost use Rattle.warm_shard_machine.specs.declared.calls.ShardCall.TheVariants.{WriteSome};
ghost use Rattle.warm_shard_machine.specs.declared.calls.ShardReply.TheVariants.{Dirty, WasDirty};

use crate::fault::SharedFault;
use crate::pool_calls::do_in;
use crate::shared::{Attached, SharedShards, call_shard};
use crate::visiting::Stopped;
use std::sync::Wait;
use warm_devices::PageDevice;
use warm_shard_machine::{Shard, ShardCall, ShardReply};
use warm_stamps::PageId;
use warm_turn::{Pass, Turn};
use warm_visits::shard_of;

/// Where writing back stopped, and why.
#[derive(Clone, Copy, PartialEq, Eq, Debug)]
pub enum NotWritten {
    /// The pages of this shard were not all written; those of the shards before it were. The others
    /// are unchanged, and no shard was asked to flush.
    Pages(Stopped),
    /// The pages of all shards were written. The shards before this one have flushed their devices;
    /// this one has not, nor were the others asked to.
    Devices(Stopped),
}

// Each shard writes its dirty pages.
fn write_each<D: PageDevice + Send, R: Wait>(
    rt: &R,
    turns: &Vec<Turn<Shard<D>>>,
    passes: &mut Vec<Pass<Shard<D>>>,
) -> Result<(), Stopped>
    requires turns { AreTurns turns.now.items }
    requires passes { AreOf turns.now.items passes.old.items }
    ensures passes { AreOf turns.now.items passes.new.items }
    ensures written { OnOk result (DoneFirst WritePages (length turns.now.items) passes.old.items
        passes.new.items) }
    ensures stopped { IfErr result (λ at. DoneFails WritePages at.shard at.fault passes.old.items
        passes.new.items) }
{
    let count = turns.len();
    for shard in 0..count {
        if let Err(fault) = do_in(rt, turns, passes, shard, ShardCall::WritePages) {
            return Err(Stopped { fault, shard });
        }
    }
    Ok(())
}

// Each shard writes back what is dirty, and flushes its devices.
fn flush_each<D: PageDevice + Send, R: Wait>(
    rt: &R,
    turns: &Vec<Turn<Shard<D>>>,
    passes: &mut Vec<Pass<Shard<D>>>,
) -> Result<(), Stopped>
    requires turns { AreTurns turns.now.items }
    requires passes { AreOf turns.now.items passes.old.items }
    ensures passes { AreOf turns.now.items passes.new.items }
    ensures flushed { OnOk result (DoneFirst WriteBack (length turns.now.items) passes.old.items
        passes.new.items) }
    ensures stopped { IfErr result (λ at. DoneFails WriteBack at.shard at.fault passes.old.items
        passes.new.items) }
{
    let count = turns.len();
    for shard in 0..count {
        if let Err(fault) = do_in(rt, turns, passes, shard, ShardCall::WriteBack) {
            return Err(Stopped { fault, shard });
        }
    }
    Ok(())
}

// Writes back some dirty pages of a shard.
fn write_some_in<D: PageDevice + Send, R: Wait>(
    rt: &R,
    turns: &Vec<Turn<Shard<D>>>,
    passes: &mut Vec<Pass<Shard<D>>>,
    shard: usize,
    limit: usize,
) -> Result<usize, SharedFault>
    requires turns { AreTurns turns.now.items }
    requires passes { AreOf turns.now.items passes.old.items }
    requires there { shard < length turns.now.items }
    ensures passes { AreOf turns.now.items passes.new.items }
    ensures ends { CallEnds passes.old.items shard (WriteSome limit) Dirty result
        passes.new.items }
{
    match call_shard(rt, turns, passes, shard, ShardCall::WriteSome(limit))? {
        ShardReply::Dirty(left) => Ok(left),
        ShardReply::Refused(why) => Err(SharedFault::Node(why)),
        _ => unreachable!(),
    }
}

// Writes back a page of a shard, if it is dirty.
fn write_page_in<D: PageDevice + Send, R: Wait>(
    rt: &R,
    turns: &Vec<Turn<Shard<D>>>,
    passes: &mut Vec<Pass<Shard<D>>>,
    shard: usize,
    page: PageId,
) -> Result<bool, SharedFault>
    requires turns { AreTurns turns.now.items }
    requires passes { AreOf turns.now.items passes.old.items }
    requires there { shard < length turns.now.items }
    requires own { shard_of (length turns.now.items) page ≡ shard }
    ensures passes { AreOf turns.now.items passes.new.items }
    ensures ends { CallEnds passes.old.items shard (WritePage page) WasDirty result
        passes.new.items }
{
    match call_shard(rt, turns, passes, shard, ShardCall::WritePage(page))? {
        ShardReply::WasDirty(was_dirty) => Ok(was_dirty),
        ShardReply::Refused(why) => Err(SharedFault::Node(why)),
        _ => unreachable!(),
    }
}

impl<D: PageDevice + Send> SharedShards<D> {
    /// Writes back the dirty pages of all shards, each in one turn of its shard, and then flushes
    /// the unflushed devices of each, each in one more. So devices that share a file can make it
    /// durable once. A page that another thread makes dirty in between is written before its shard
    /// flushes. Allocation-free.
    ///
    /// # Errors
    /// [`NotWritten`] says which shards have written and flushed. `Node(Pool(Fault))`: a device
    /// failed, and its count of failures has increased; the pages of that shard that were written
    /// before are clean. `TurnsSpent`. To write back once more does no harm.
    pub fn write_back_all<R: Wait>(
        &self,
        rt: &R,
        attached: &mut Attached<D>,
    ) -> Result<(), NotWritten>
        requires { AreOf self.now attached.old.passes }
        ensures attached { AreOf self.now attached.new.passes }
        ensures written { OnOk result (ShardsWriteBack attached.old.passes attached.new.passes) }
        ensures stopped { IfErr result (λ at. WriteBackStopsAt at attached.old.passes
            attached.new.passes) }
        ensures pins { attached.new.pins ≡ attached.old.pins }
    {
        if let Err(at) = write_each(rt, &self.turns, &mut attached.passes) {
            return Err(NotWritten::Pages(at));
        }
        if let Err(at) = flush_each(rt, &self.turns, &mut attached.passes) {
            return Err(NotWritten::Devices(at));
        }
        Ok(())
    }

    /// Writes back the dirty pages of a shard, and flushes its unflushed devices: one turn of the
    /// shard, in which the call `WriteBack` is answered. Other shards are not called.
    /// Allocation-free.
    ///
    /// # Errors
    /// `Node(Pool(Fault))`: a write or a flush failed, and its device's count of failures has
    /// increased. The pages written before it are clean, and all others dirty as before.
    /// `TurnsSpent`: nothing has changed.
    pub fn write_back<R: Wait>(
        &self,
        rt: &R,
        attached: &mut Attached<D>,
        shard: usize,
    ) -> Result<(), SharedFault>
        requires passes { AreOf self.now attached.old.passes }
        requires there { shard < length self.now }
        ensures attached { AreOf self.now attached.new.passes }
        ensures ends { CallEnds attached.old.passes shard WriteBack shard_done result
            attached.new.passes }
        ensures pins { attached.new.pins ≡ attached.old.pins }
    {
        let call = ShardCall::WriteBack;
        do_in(rt, &self.turns, &mut attached.passes, shard, call)?;
        Ok(())
    }

    /// Writes back at most `limit` dirty pages of a shard, and returns how many of its pages are
    /// then still dirty: one turn of the shard, in which the call `WriteSome` is answered. So a
    /// checkpoint goes on in portions between other calls. No device is flushed. Allocation-free.
    ///
    /// # Errors
    /// `Node(Pool(Fault))`: a write failed, and its device's count of failures has increased. The
    /// pages written before it are clean, and all others dirty as before. `TurnsSpent`: nothing has
    /// changed.
    pub fn write_back_some<R: Wait>(
        &self,
        rt: &R,
        attached: &mut Attached<D>,
        shard: usize,
        limit: usize,
    ) -> Result<usize, SharedFault>
        requires passes { AreOf self.now attached.old.passes }
        requires there { shard < length self.now }
        ensures attached { AreOf self.now attached.new.passes }
        ensures ends { CallEnds attached.old.passes shard (WriteSome limit) Dirty result
            attached.new.passes }
        ensures pins { attached.new.pins ≡ attached.old.pins }
    {
        let left = write_some_in(rt, &self.turns, &mut attached.passes, shard, limit)?;
        Ok(left)
    }

    /// Writes back one page, if it is resident and dirty, and returns whether it was: one turn of
    /// the page's shard, in which the call `WritePage` is answered. No device is flushed.
    /// Allocation-free.
    ///
    /// # Errors
    /// `Node(Pool(Fault))`: the write failed, and its device's count of failures has increased. The
    /// page is dirty as before, and no frame has changed. `TurnsSpent`: nothing has changed.
    pub fn write_back_page<R: Wait>(
        &self,
        rt: &R,
        attached: &mut Attached<D>,
        page: PageId,
    ) -> Result<bool, SharedFault>
        requires { AreOf self.now attached.old.passes }
        ensures attached { AreOf self.now attached.new.passes }
        ensures ends { CallEnds attached.old.passes (shard_of (length self.now) page)
            (WritePage page) WasDirty result attached.new.passes }
        ensures pins { attached.new.pins ≡ attached.old.pins }
    {
        let shard = shard_of(self.turns.len(), page);
        let was_dirty = write_page_in(rt, &self.turns, &mut attached.passes, shard, page)?;
        Ok(was_dirty)
    }

    /// Writes back the dirty pages of one device of a shard, and flushes it if it is unflushed: one
    /// turn of the shard, in which the call `FlushDevice` is answered. Each shard has a device of
    /// its own of this number. Allocation-free.
    ///
    /// # Errors
    /// `Node(Pool(NoDevice))`: the shard has no device of this number; nothing has changed.
    /// `Node(Pool(Fault))`: a write or the flush failed, and the device's count of failures has
    /// increased. The pages written before it are clean, and all others dirty as before.
    /// `TurnsSpent`: nothing has changed.
    pub fn flush_device<R: Wait>(
        &self,
        rt: &R,
        attached: &mut Attached<D>,
        shard: usize,
        dev: u16,
    ) -> Result<(), SharedFault>
        requires passes { AreOf self.now attached.old.passes }
        requires there { shard < length self.now }
        ensures attached { AreOf self.now attached.new.passes }
        ensures ends { CallEnds attached.old.passes shard (FlushDevice dev) shard_done result
            attached.new.passes }
        ensures pins { attached.new.pins ≡ attached.old.pins }
    {
        let call = ShardCall::FlushDevice(dev);
        do_in(rt, &self.turns, &mut attached.passes, shard, call)?;
        Ok(())
    }
}
