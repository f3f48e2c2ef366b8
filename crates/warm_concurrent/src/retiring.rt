//! Replacing a device of a shard with another, in one turn of the shard.
ghost use Rattle.std.specs.Prelude.{◌≡◌, ◌<◌, length, IfErr, IfOk, OnOk};
ghost use Rattle.warm_concurrent.specs.Attached.{AreOf, AreTurns};
ghost use Rattle.warm_concurrent.specs.Retiring.{ReplacesAt, RetireFailsAt, RetiresAt};

use crate::fault::SharedFault;
use crate::shared::{Attached, SharedShards, visit_or_back};
use std::sync::Wait;
use warm_devices::PageDevice;
use warm_gossip::NodeFault;
use warm_pool::RetireError;
use warm_shard_machine::{Replacing, Shard};
use warm_turn::{Pass, Turn};

/// Why a device was not replaced, and the device that was to replace it.
#[derive(Drop)]
pub struct NotRetired<D: PageDevice> {
    /// The reason.
    pub fault: SharedFault,
    /// The new device, unchanged.
    pub device: D,
}

// Replaces a device of one shard, and gives the old one back.
fn replace_in<D: PageDevice + Send, R: Wait>(
    rt: &R,
    turns: &Vec<Turn<Shard<D>>>,
    passes: &mut Vec<Pass<Shard<D>>>,
    shard: usize,
    dev: u16,
    device: D,
) -> Result<D, NotRetired<D>>
    requires turns { AreTurns turns.now.items }
    requires passes { AreOf turns.now.items passes.old.items }
    requires there { shard < length turns.now.items }
    ensures passes { AreOf turns.now.items passes.new.items }
    ensures replaced { IfOk result (λ was. ReplacesAt passes.old.items shard dev (D.state device)
        (D.state was) passes.new.items) }
    ensures refused { IfErr result (λ unretired. RetireFailsAt passes.old.items shard dev
        (D.state device) unretired.fault passes.new.items) }
    ensures given_back { IfErr result (λ unretired. unretired.device ≡ device) }
{
    match visit_or_back(rt, turns, passes, shard, Replacing { dev, device }) {
        Ok(Ok(was)) => Ok(was),
        Ok(Err(unretired)) => {
            let RetireError { fault, device } = unretired;
            Err(NotRetired {
                fault: SharedFault::Node(NodeFault::Pool(fault)),
                device,
            })
        }
        Err(Replacing { dev: _, device }) => Err(NotRetired {
            fault: SharedFault::TurnsSpent,
            device,
        }),
    }
}

impl<D: PageDevice + Send> SharedShards<D> {
    /// Replaces a device of a shard with another, and returns the old one: one turn of the shard, in
    /// which the call `Retire` is answered, as of [`SharedShards::retire`]. The old device has each
    /// page that was written, and nothing is unflushed: see [`warm_gossip::Node::replace`].
    /// Allocation-free.
    ///
    /// # Errors
    /// Those of `retire`, with the same effects. Each gives the new device back.
    pub fn replace<R: Wait>(
        &self,
        rt: &R,
        attached: &mut Attached<D>,
        shard: usize,
        dev: u16,
        device: D,
    ) -> Result<D, NotRetired<D>>
        requires passes { AreOf self.now attached.old.passes }
        requires there { shard < length self.now }
        ensures attached { AreOf self.now attached.new.passes }
        ensures replaced { IfOk result (λ was. ReplacesAt attached.old.passes shard dev
            (D.state device) (D.state was) attached.new.passes) }
        ensures refused { IfErr result (λ unretired. RetireFailsAt attached.old.passes shard dev
            (D.state device) unretired.fault attached.new.passes) }
        ensures given_back { IfErr result (λ unretired. unretired.device ≡ device) }
        ensures pins { attached.new.pins ≡ attached.old.pins }
    {
        replace_in(rt, &self.turns, &mut attached.passes, shard, dev, device)
    }

    /// Replaces a device of a shard with another, and drops the old one: one turn of the shard, in
    /// which the call `Retire` is answered. The dirty pages of the old device are written back, it
    /// is flushed, and its pages are evicted: see [`warm_gossip::Node::retire`]. Each shard has a
    /// device of its own of this number. Allocation-free.
    ///
    /// # Errors
    /// `Node(Pool(..))`, with a fault and the effects of [`warm_gossip::Node::retire`] in the shard:
    /// among them `Fixed`, if any thread has a pin on a page of the device. `TurnsSpent`. Each
    /// gives the new device back.
    pub fn retire<R: Wait>(
        &self,
        rt: &R,
        attached: &mut Attached<D>,
        shard: usize,
        dev: u16,
        device: D,
    ) -> Result<(), NotRetired<D>>
        requires passes { AreOf self.now attached.old.passes }
        requires there { shard < length self.now }
        ensures attached { AreOf self.now attached.new.passes }
        ensures retired { OnOk result
            (RetiresAt attached.old.passes shard dev (D.state device) attached.new.passes) }
        ensures refused { IfErr result (λ unretired. RetireFailsAt attached.old.passes shard dev
            (D.state device) unretired.fault attached.new.passes) }
        ensures given_back { IfErr result (λ unretired. unretired.device ≡ device) }
        ensures pins { attached.new.pins ≡ attached.old.pins }
    {
        let was = self.replace(rt, attached, shard, dev, device)?;
        drop(was);
        Ok(())
    }
}
