//! The calls that take references in and forget them, shard by shard, and list a shard's hottest
//! pages.
ghost use Rattle.std.specs.Prelude.{◌≡◌, ◌<◌, length, IfErr, IfOk, OnOk};
ghost use Rattle.warm_visits.specs.Visits.{absorb_visit};
ghost use Rattle.warm_concurrent.specs.Attached.{AreOf, AreTurns, opened_id};
ghost use Rattle.warm_concurrent.specs.Clauses.{CallEnds};
ghost use Rattle.warm_shard_machine.specs.declared.calls.ShardCall.TheVariants.{Raise, WarmList};
ghost use Rattle.warm_shard_machine.specs.declared.calls.ShardReply.TheVariants.{Kept, Pages};
ghost use Rattle.warm_concurrent.specs.Raising.{RaisesAll};
ghost use Rattle.warm_concurrent.specs.Visiting.{IsGoneThrough, VisitFails};
ghost use Rattle.warm_concurrent.specs.Whole.{RaiseFails, RaisesFirst};

use crate::fault::SharedFault;
use crate::shared::{Attached, SharedShards, call_shard};
use crate::visiting::Stopped;
use std::alloc::Global;
use std::sync::Wait;
use warm_devices::PageDevice;
use warm_shard_machine::{Shard, ShardCall, ShardReply};
use warm_stamps::{PageList, Reference};
use warm_turn::{Pass, Turn};
use warm_visits::Visit;

// Raises the horizon of one shard.
fn raise_in<D: PageDevice + Send, R: Wait>(
    rt: &R,
    turns: &Vec<Turn<Shard<D>>>,
    passes: &mut Vec<Pass<Shard<D>>>,
    shard: usize,
    time: u64,
) -> Result<u64, SharedFault>
    requires turns { AreTurns turns.now.items }
    requires passes { AreOf turns.now.items passes.old.items }
    requires there { shard < length turns.now.items }
    ensures passes { AreOf turns.now.items passes.new.items }
    ensures ends { CallEnds passes.old.items shard (Raise time) Kept result passes.new.items }
{
    match call_shard(rt, turns, passes, shard, ShardCall::Raise(time))? {
        ShardReply::Kept(horizon) => Ok(horizon),
        ShardReply::Refused(why) => Err(SharedFault::Node(why)),
        _ => unreachable!(),
    }
}

// Raises the horizon of each shard. Returns the latest of the horizons that they then have.
pub(crate) fn raise_all<D: PageDevice + Send, R: Wait>(
    rt: &R,
    turns: &Vec<Turn<Shard<D>>>,
    passes: &mut Vec<Pass<Shard<D>>>,
    time: u64,
) -> Result<u64, Stopped>
    requires turns { AreTurns turns.now.items }
    requires passes { AreOf turns.now.items passes.old.items }
    ensures passes { AreOf turns.now.items passes.new.items }
    ensures raised { OnOk result (RaisesFirst time (length turns.now.items) passes.old.items
        passes.new.items) }
    ensures latest { IfOk result (λ horizon. RaisesAll time horizon passes.old.items
        passes.new.items) }
    ensures stopped { IfErr result (λ at. RaiseFails time at.shard at.fault passes.old.items
        passes.new.items) }
{
    let count = turns.len();
    let mut latest = 0u64;
    for shard in 0..count {
        let horizon = match raise_in(rt, turns, passes, shard, time) {
            Ok(horizon) => horizon,
            Err(fault) => return Err(Stopped { fault, shard }),
        };
        latest = latest.max(horizon);
    }
    Ok(latest)
}

// Lists the hottest pages of a shard.
fn warm_list_in<D: PageDevice + Send, R: Wait>(
    rt: &R,
    turns: &Vec<Turn<Shard<D>>>,
    passes: &mut Vec<Pass<Shard<D>>>,
    shard: usize,
    n: usize,
) -> Result<PageList, SharedFault>
    requires turns { AreTurns turns.now.items }
    requires passes { AreOf turns.now.items passes.old.items }
    requires there { shard < length turns.now.items }
    ensures passes { AreOf turns.now.items passes.new.items }
    ensures ends { CallEnds passes.old.items shard (WarmList n) Pages result passes.new.items }
{
    match call_shard(rt, turns, passes, shard, ShardCall::WarmList(n))? {
        ShardReply::Pages(pages) => Ok(pages),
        ShardReply::Refused(why) => Err(SharedFault::Node(why)),
        _ => unreachable!(),
    }
}

impl<D: PageDevice + Send> SharedShards<D> {
    /// Adds references to the history: each shard that has a part of the batch is given it in one
    /// turn, in the order of the shards. The batch is read once.
    ///
    /// # Errors
    /// `Node(Memory)` at shard 0: no memory was left for the parts; nothing has changed. Otherwise
    /// the shards before that of the error have absorbed their parts, and the others have not. The
    /// error is `Node(Memory)`, if that shard had no memory for its part, or `TurnsSpent`. So a
    /// batch whose pages are all of one shard is absorbed, or nothing has changed. To absorb the
    /// batch once more does no harm.
    pub fn absorb<R: Wait>(
        &self,
        rt: &R,
        alloc: Global,
        attached: &mut Attached<D>,
        batch: &[Reference],
    ) -> Result<(), Stopped>
        requires { AreOf self.now attached.old.passes }
        ensures attached { AreOf self.now attached.new.passes }
        ensures absorbed { OnOk result (IsGoneThrough
            (absorb_visit (opened_id self.now) (length self.now) batch.now)
            attached.old.passes attached.new.passes) }
        ensures stopped { IfErr result (λ at. VisitFails
            (absorb_visit (opened_id self.now) (length self.now) batch.now)
            at.shard at.fault attached.old.passes attached.new.passes) }
        ensures pins { attached.new.pins ≡ attached.old.pins }
    {
        let Ok(visit) = Visit::absorb(alloc, self.id(), self.count(), batch) else {
            return Err(Stopped::before_all());
        };
        self.go_through(rt, attached, visit)?;
        Ok(())
    }

    /// Forgets all stamps before this time in each shard, each in one turn, in the order of the
    /// shards, in which the call `Raise` is answered. Returns the latest of the horizons that the
    /// shards then have: `time`, or later if one had a later horizon. Allocation-free.
    ///
    /// # Errors
    /// `TurnsSpent`: the shards before that of the error have forgotten them, and the others have
    /// not.
    pub fn raise<R: Wait>(
        &self,
        rt: &R,
        attached: &mut Attached<D>,
        time: u64,
    ) -> Result<u64, Stopped>
        requires { AreOf self.now attached.old.passes }
        ensures attached { AreOf self.now attached.new.passes }
        ensures raised { IfOk result (λ horizon. RaisesAll time horizon attached.old.passes
            attached.new.passes) }
        ensures stopped { IfErr result (λ at. RaiseFails time at.shard at.fault
            attached.old.passes attached.new.passes) }
        ensures pins { attached.new.pins ≡ attached.old.pins }
    {
        let horizon = raise_all(rt, &self.turns, &mut attached.passes, time)?;
        Ok(horizon)
    }

    /// The latest of the horizons of the shards, the times before which they forget stamps. Each
    /// shard says its own in one turn, in the order of the shards: it answers the call `Raise` to
    /// the time 0, which forgets nothing. Another thread may raise it meanwhile. Allocation-free.
    ///
    /// # Errors
    /// `TurnsSpent`. No history has changed.
    pub fn horizon<R: Wait>(&self, rt: &R, attached: &mut Attached<D>) -> Result<u64, Stopped>
        requires { AreOf self.now attached.old.passes }
        ensures attached { AreOf self.now attached.new.passes }
        ensures raised { IfOk result (λ horizon. RaisesAll 0 horizon attached.old.passes
            attached.new.passes) }
        ensures stopped { IfErr result (λ at. RaiseFails 0 at.shard at.fault
            attached.old.passes attached.new.passes) }
        ensures pins { attached.new.pins ≡ attached.old.pins }
    {
        let horizon = raise_all(rt, &self.turns, &mut attached.passes, 0)?;
        Ok(horizon)
    }

    /// The `n` hottest pages of a shard, hottest first, or all if there are fewer: one turn of the
    /// shard, in which the call `WarmList` is answered. It says nothing of other shards:
    /// [`SharedShards::warm_list`] lists those of all.
    ///
    /// # Errors
    /// `Node(Memory)`: an allocation failed in the shard. `TurnsSpent`. Nothing has changed in any
    /// shard.
    pub fn warm_list_of<R: Wait>(
        &self,
        rt: &R,
        attached: &mut Attached<D>,
        shard: usize,
        n: usize,
    ) -> Result<PageList, SharedFault>
        requires passes { AreOf self.now attached.old.passes }
        requires there { shard < length self.now }
        ensures attached { AreOf self.now attached.new.passes }
        ensures ends { CallEnds attached.old.passes shard (WarmList n) Pages result
            attached.new.passes }
        ensures pins { attached.new.pins ≡ attached.old.pins }
    {
        let pages = warm_list_in(rt, &self.turns, &mut attached.passes, shard, n)?;
        Ok(pages)
    }
}
