//! Calls of the whole as visits: a visit is let into the shards that it names, each time in one
//! turn, until it has no errand left.
ghost use Rattle.std.specs.Prelude.{◌≡◌, ◌≢◌, ◌<◌, length, IfErr, IfOk, None, Some};
ghost use Rattle.warm_visits.specs.Stages.{next_stage};
ghost use Rattle.warm_visits.specs.Visits.{VisitState};
ghost use Rattle.warm_shard_machine.specs.Entering.{IsNextAt};
ghost use Rattle.warm_concurrent.specs.Attached.{AreOf, AreTurns};
ghost use Rattle.warm_concurrent.specs.Visiting.{EntryFails, GoneThrough, IsVisitOf, RunsErrand};
ghost use Rattle.warm_concurrent.specs.Visiting.{StopsInStage};
ghost use Rattle.warm_concurrent.specs.declared.fault.SharedFault.TheVariants.{Node};
ghost use Rattle.warm_gossip.specs.declared.fault.NodeFault.TheVariants.{Memory};
ghost use Rattle.warm_visits.specs.declared.stage.Stage.TheVariants.{Raising, Sending};

use crate::fault::SharedFault;
use crate::shared::{Attached, SharedShards, visit_or_back};
use std::sync::Wait;
use warm_devices::PageDevice;
use warm_gossip::NodeFault;
use warm_shard_machine::{Entering, Place, Shard};
use warm_turn::{Pass, Turn};
use warm_visits::{Stage, Visit};

/// Where a call of the whole stopped, and why: the errands of the call before this one were run, in
/// the order of the shards. This one was not, nor were those after it.
#[derive(Clone, Copy, PartialEq, Eq, Debug)]
pub struct Stopped {
    /// Why it stopped.
    pub fault: SharedFault,
    /// The number of the shard of that errand.
    pub shard: usize,
}

/// Where a call of the whole stopped that has several stages. All errands of the stages before this
/// one were run.
#[derive(Clone, Copy, PartialEq, Eq, Debug)]
pub struct StoppedInStage {
    /// What was asked of the shard.
    pub stage: Stage,
    /// At which errand of that stage, and why.
    pub at: Stopped,
}

/// What is left if the stage is not told.
impl From<StoppedInStage> for Stopped {
    ghost use Rattle.std.specs.Prelude.{◌≡◌};

    ghost from_gives = { λ stopped at. at ≡ stopped.at };

    fn from(stopped: StoppedInStage) -> Stopped {
        stopped.at
    }
}

impl Stopped {
    // No memory was left for the visit.
    pub(crate) fn before_all() -> Stopped
        ensures shard { result.shard ≡ 0 }
        ensures fault { result.fault ≡ Node Memory }
    {
        Stopped {
            fault: SharedFault::Node(NodeFault::Memory),
            shard: 0,
        }
    }

    // No memory was left for what is made of a visit that went through this many shards.
    pub(crate) fn after_all(count: usize) -> Stopped
        ensures shard { result.shard ≡ count }
        ensures fault { result.fault ≡ Node Memory }
    {
        Stopped {
            fault: SharedFault::Node(NodeFault::Memory),
            shard: count,
        }
    }
}

impl StoppedInStage {
    // No memory was left for the visit, which would have raised the shards first.
    pub(crate) fn before_all() -> StoppedInStage
        ensures stage { result.stage ≡ Raising }
        ensures shard { result.at.shard ≡ 0 }
        ensures fault { result.at.fault ≡ Node Memory }
    {
        StoppedInStage {
            stage: Stage::Raising,
            at: Stopped::before_all(),
        }
    }

    // No memory was left for the answers that this many shards sent.
    pub(crate) fn after_all(count: usize) -> StoppedInStage
        ensures stage { result.stage ≡ Sending }
        ensures shard { result.at.shard ≡ count }
        ensures fault { result.at.fault ≡ Node Memory }
    {
        StoppedInStage {
            stage: Stage::Sending,
            at: Stopped::after_all(count),
        }
    }

    // The errand of this shard, which the visit has next, was not run.
    fn at_next(visit: &Visit, shard: usize, fault: SharedFault) -> StoppedInStage
        requires { next_stage visit.now.plan ≢ None }
        ensures stage { next_stage visit.now.plan ≡ Some result.stage }
        ensures shard { result.at.shard ≡ shard }
        ensures fault { result.at.fault ≡ fault }
    {
        let Some(stage) = visit.stage() else {
            unreachable!()
        };
        StoppedInStage {
            stage,
            at: Stopped { fault, shard },
        }
    }
}

// Lets a visit into the shard that it names.
fn enter_shard<D: PageDevice + Send, R: Wait>(
    rt: &R,
    turns: &Vec<Turn<Shard<D>>>,
    passes: &mut Vec<Pass<Shard<D>>>,
    shard: usize,
    visit: Visit,
) -> Result<Visit, StoppedInStage>
    requires turns { AreTurns turns.now.items }
    requires passes { AreOf turns.now.items passes.old.items }
    requires there { shard < length turns.now.items }
    requires next { IsNextAt (length turns.now.items) shard visit }
    ensures passes { AreOf turns.now.items passes.new.items }
    ensures runs { IfOk result (λ after. RunsErrand visit after passes.old.items
        passes.new.items) }
    ensures stopped { IfErr result (λ stopped. (stopped.at.shard ≡ shard)
        × EntryFails visit shard stopped.at.fault passes.old.items passes.new.items) }
    ensures stage { IfErr result (λ stopped. next_stage visit.plan ≡ Some stopped.stage) }
{
    let place = Place {
        count: turns.len(),
        number: shard,
    };
    let after = match visit_or_back(rt, turns, passes, shard, Entering { place, visit }) {
        Ok(Some(after)) => after,
        Ok(None) => unreachable!(),
        Err(back) => {
            let spent = SharedFault::TurnsSpent;
            return Err(StoppedInStage::at_next(&back.visit, shard, spent));
        }
    };
    if let Err(why) = after.result() {
        return Err(StoppedInStage::at_next(&after, shard, SharedFault::Node(why)));
    }
    Ok(after)
}

// Lets a visit into the shards that it names, one after the other.
fn enter_all<D: PageDevice + Send, R: Wait>(
    rt: &R,
    turns: &Vec<Turn<Shard<D>>>,
    passes: &mut Vec<Pass<Shard<D>>>,
    visit: Visit,
) -> Result<Visit, StoppedInStage>
    requires turns { AreTurns turns.now.items }
    requires passes { AreOf turns.now.items passes.old.items }
    requires visit { IsVisitOf (length turns.now.items) visit }
    ensures passes { AreOf turns.now.items passes.new.items }
    ensures gone { IfOk result (λ after. GoneThrough visit after passes.old.items
        passes.new.items) }
    ensures stopped { IfErr result (λ stopped. StopsInStage visit stopped.stage stopped.at.shard
        stopped.at.fault passes.old.items passes.new.items) }
{
    let mut visit = visit;
    while let Some(shard) = visit.next() {
        visit = enter_shard(rt, turns, passes, shard, visit)?;
    }
    Ok(visit)
}

impl<D: PageDevice + Send> SharedShards<D> {
    // Lets a visit of these shards into those that it names, one after the other.
    pub(crate) fn go_through<R: Wait>(
        &self,
        rt: &R,
        attached: &mut Attached<D>,
        visit: Visit,
    ) -> Result<Visit, StoppedInStage>
        requires passes { AreOf self.now attached.old.passes }
        requires visit { IsVisitOf (length self.now) visit }
        ensures attached { AreOf self.now attached.new.passes }
        ensures gone { IfOk result (λ after. GoneThrough visit after attached.old.passes
            attached.new.passes) }
        ensures stopped { IfErr result (λ stopped. StopsInStage visit stopped.stage
            stopped.at.shard stopped.at.fault attached.old.passes attached.new.passes) }
        ensures pins { attached.new.pins ≡ attached.old.pins }
    {
        let after = enter_all(rt, &self.turns, &mut attached.passes, visit)?;
        Ok(after)
    }
}
