//! The calls on the pool of one shard, each in one turn of that shard.
ghost use Rattle.std.specs.Prelude.{◌≡◌, ◌≢◌, ◌<◌, ◌+◌, Err, length, IfErr, IfOk, OnErr, OnOk};
ghost use Rattle.warm_gossip.specs.declared.fault.NodeFault.TheVariants.{Memory};
ghost use Rattle.warm_visits.specs.ShardNumbers.{shard_of};
ghost use Rattle.warm_concurrent.specs.Attached.{AreOf, AreTurns};
ghost use Rattle.warm_concurrent.specs.Clauses.{CallEnds, SlotCallEnds, shard_done};
ghost use Rattle.warm_shard_machine.specs.ShardSteps.{IsDoneCall};
ghost use Rattle.warm_shard_machine.specs.declared.calls.ShardCall.TheVariants.{Pin, Read, Unpin};
ghost use Rattle.warm_shard_machine.specs.declared.calls.ShardCall.TheVariants.{Victim, WarmNext};
ghost use Rattle.warm_shard_machine.specs.declared.calls.ShardCall.TheVariants.{WarmStep, Write};
ghost use Rattle.warm_shard_machine.specs.declared.calls.ShardReply.TheVariants.{Bytes, Loaded};
ghost use Rattle.warm_shard_machine.specs.declared.calls.ShardReply.TheVariants.{Page, Pinned};
ghost use Rattle.warm_concurrent.specs.declared.fault.SharedFault.TheVariants.{NoPins, Node};
ghost use Rattle.warm_concurrent.specs.declared.fault.SharedFault.TheVariants.{PinsFull};

use crate::fault::SharedFault;
use crate::shared::{Attached, SharedShards, call_shard, visit_or_back};
use std::mem::replace;
use std::sync::Wait;
use warm_devices::PageDevice;
use warm_gossip::NodeFault;
use warm_pool::Slot;
use warm_shard_machine::{
    Pinning, ReadInto, Reading, Shard, ShardCall, ShardReply, Unpinning, Went,
};
use warm_shards::ShardSlot;
use warm_stamps::{ByteList, PageId};
use warm_turn::{Pass, Turn};
use warm_visits::shard_of;

// Pins a page in its shard.
fn pin_in<D: PageDevice + Send, R: Wait>(
    rt: &R,
    turns: &Vec<Turn<Shard<D>>>,
    passes: &mut Vec<Pass<Shard<D>>>,
    shard: usize,
    page: PageId,
) -> Result<Slot, SharedFault>
    requires turns { AreTurns turns.now.items }
    requires passes { AreOf turns.now.items passes.old.items }
    requires there { shard < length turns.now.items }
    requires own { shard_of (length turns.now.items) page ≡ shard }
    ensures passes { AreOf turns.now.items passes.new.items }
    ensures ends { CallEnds passes.old.items shard (Pin page) Pinned result passes.new.items }
{
    match visit_or_back(rt, turns, passes, shard, Pinning { page }) {
        Ok(Went::Given(slot)) => Ok(slot),
        Ok(Went::Refused(why)) => Err(SharedFault::Node(why)),
        Ok(Went::Foreign) => unreachable!(),
        Err(_visitor) => Err(SharedFault::TurnsSpent),
    }
}

// Removes a pin from a slot's page.
fn unpin_in<D: PageDevice + Send, R: Wait>(
    rt: &R,
    turns: &Vec<Turn<Shard<D>>>,
    passes: &mut Vec<Pass<Shard<D>>>,
    at: ShardSlot,
) -> Result<(), SharedFault>
    requires turns { AreTurns turns.now.items }
    requires passes { AreOf turns.now.items passes.old.items }
    requires there { at.shard < length turns.now.items }
    ensures passes { AreOf turns.now.items passes.new.items }
    ensures ends { CallEnds passes.old.items at.shard (Unpin at.slot) shard_done result
        passes.new.items }
{
    let ShardSlot { shard, slot } = at;
    match visit_or_back(rt, turns, passes, shard, Unpinning { slot }) {
        Ok(Went::Given(())) => Ok(()),
        Ok(Went::Refused(why)) => Err(SharedFault::Node(why)),
        Ok(Went::Foreign) => unreachable!(),
        Err(_visitor) => Err(SharedFault::TurnsSpent),
    }
}

// Makes a call that has no result.
pub(crate) fn do_in<D: PageDevice + Send, R: Wait>(
    rt: &R,
    turns: &Vec<Turn<Shard<D>>>,
    passes: &mut Vec<Pass<Shard<D>>>,
    shard: usize,
    call: ShardCall,
) -> Result<(), SharedFault>
    requires turns { AreTurns turns.now.items }
    requires passes { AreOf turns.now.items passes.old.items }
    requires there { shard < length turns.now.items }
    requires own { IsDoneCall (length turns.now.items) shard call }
    ensures passes { AreOf turns.now.items passes.new.items }
    ensures ends { CallEnds passes.old.items shard call shard_done result passes.new.items }
{
    match call_shard(rt, turns, passes, shard, call)? {
        ShardReply::Done => Ok(()),
        ShardReply::Refused(why) => Err(SharedFault::Node(why)),
        _ => unreachable!(),
    }
}

// Reads bytes of a slot's page.
fn read_in<D: PageDevice + Send, R: Wait>(
    rt: &R,
    turns: &Vec<Turn<Shard<D>>>,
    passes: &mut Vec<Pass<Shard<D>>>,
    slot: ShardSlot,
    at: usize,
    len: usize,
) -> Result<ByteList, SharedFault>
    requires turns { AreTurns turns.now.items }
    requires passes { AreOf turns.now.items passes.old.items }
    requires there { slot.shard < length turns.now.items }
    ensures passes { AreOf turns.now.items passes.new.items }
    ensures ends { CallEnds passes.old.items slot.shard (Read slot.slot at len) Bytes result
        passes.new.items }
{
    let ShardSlot { shard, slot } = slot;
    match call_shard(rt, turns, passes, shard, ShardCall::Read { slot, at, len })? {
        ShardReply::Bytes(bytes) => Ok(bytes),
        ShardReply::Refused(why) => Err(SharedFault::Node(why)),
        _ => unreachable!(),
    }
}

// Reads bytes of a slot's page into a vector, and gives it back.
fn read_into_in<D: PageDevice + Send, R: Wait>(
    rt: &R,
    turns: &Vec<Turn<Shard<D>>>,
    passes: &mut Vec<Pass<Shard<D>>>,
    slot: ShardSlot,
    at: usize,
    into: Vec<u8>,
) -> (Vec<u8>, Result<(), SharedFault>)
    requires turns { AreTurns turns.now.items }
    requires passes { AreOf turns.now.items passes.old.items }
    requires there { slot.shard < length turns.now.items }
    ensures passes { AreOf turns.now.items passes.new.items }
    ensures ends { CallEnds passes.old.items slot.shard (Read slot.slot at (length into.items))
        (λ _. Bytes result.0.items) result.1 passes.new.items }
    ensures same { OnErr result.1 (result.0.items ≡ into.items) }
    ensures no_memory { IfErr result.1 (λ why. why ≢ Node Memory) }
{
    let ShardSlot { shard, slot } = slot;
    match visit_or_back(rt, turns, passes, shard, Reading { slot, at, into }) {
        Ok(ReadInto { into, refused }) => match refused {
            None => (into, Ok(())),
            Some(why) => (into, Err(SharedFault::Node(why))),
        },
        Err(Reading { into, .. }) => (into, Err(SharedFault::TurnsSpent)),
    }
}

// Names the victim of a shard.
fn victim_in<D: PageDevice + Send, R: Wait>(
    rt: &R,
    turns: &Vec<Turn<Shard<D>>>,
    passes: &mut Vec<Pass<Shard<D>>>,
    shard: usize,
) -> Result<Option<PageId>, SharedFault>
    requires turns { AreTurns turns.now.items }
    requires passes { AreOf turns.now.items passes.old.items }
    requires there { shard < length turns.now.items }
    ensures passes { AreOf turns.now.items passes.new.items }
    ensures ends { CallEnds passes.old.items shard Victim Page result passes.new.items }
{
    match call_shard(rt, turns, passes, shard, ShardCall::Victim)? {
        ShardReply::Page(page) => Ok(page),
        ShardReply::Refused(why) => Err(SharedFault::Node(why)),
        _ => unreachable!(),
    }
}

// Loads the next page of a shard's warm-up.
fn warm_step_in<D: PageDevice + Send, R: Wait>(
    rt: &R,
    turns: &Vec<Turn<Shard<D>>>,
    passes: &mut Vec<Pass<Shard<D>>>,
    shard: usize,
) -> Result<Option<PageId>, SharedFault>
    requires turns { AreTurns turns.now.items }
    requires passes { AreOf turns.now.items passes.old.items }
    requires there { shard < length turns.now.items }
    ensures passes { AreOf turns.now.items passes.new.items }
    ensures ends { CallEnds passes.old.items shard WarmStep Loaded result passes.new.items }
{
    match call_shard(rt, turns, passes, shard, ShardCall::WarmStep)? {
        ShardReply::Loaded(page) => Ok(page),
        ShardReply::Refused(why) => Err(SharedFault::Node(why)),
        _ => unreachable!(),
    }
}

// Names the page that the next warm-up step of a shard would load.
fn warm_next_in<D: PageDevice + Send, R: Wait>(
    rt: &R,
    turns: &Vec<Turn<Shard<D>>>,
    passes: &mut Vec<Pass<Shard<D>>>,
    shard: usize,
) -> Result<Option<PageId>, SharedFault>
    requires turns { AreTurns turns.now.items }
    requires passes { AreOf turns.now.items passes.old.items }
    requires there { shard < length turns.now.items }
    ensures passes { AreOf turns.now.items passes.new.items }
    ensures ends { CallEnds passes.old.items shard WarmNext Page result passes.new.items }
{
    match call_shard(rt, turns, passes, shard, ShardCall::WarmNext)? {
        ShardReply::Page(page) => Ok(page),
        ShardReply::Refused(why) => Err(SharedFault::Node(why)),
        _ => unreachable!(),
    }
}

impl<D: PageDevice + Send> SharedShards<D> {
    /// Pins a page in its shard, and loads it into a frame of that shard if it isn't resident: one
    /// turn of the shard, in which the call `Pin` is answered. A miss holds up callers of this
    /// shard alone.
    ///
    /// **A pin is not a reference**: a caller that pins a page also absorbs a reference to it.
    ///
    /// # Errors
    /// `PinsFull`: `u64::MAX` pins are held; no turn was entered. `Node`, with the fault and the
    /// effects of [`warm_gossip::Node::pin`] in the shard. `TurnsSpent`.
    pub fn pin<R: Wait>(
        &self,
        rt: &R,
        attached: &mut Attached<D>,
        page: PageId,
    ) -> Result<ShardSlot, SharedFault>
        requires { AreOf self.now attached.old.passes }
        ensures attached { AreOf self.now attached.new.passes }
        ensures full { attached.old.pins ≡ u64.MAX → (result ≡ Err PinsFull)
            × (attached.new ≡ attached.old) }
        ensures ends { attached.old.pins ≢ u64.MAX
            → CallEnds attached.old.passes (shard_of (length self.now) page) (Pin page)
            (λ at. Pinned at.slot) result attached.new.passes }
        ensures shard { IfOk result (λ at. at.shard ≡ shard_of (length self.now) page) }
        ensures held { OnOk result (attached.new.pins ≡ attached.old.pins + 1) }
        ensures as_many { OnErr result (attached.new.pins ≡ attached.old.pins) }
    {
        if attached.pins == u64::MAX {
            return Err(SharedFault::PinsFull);
        }
        let shard = shard_of(self.turns.len(), page);
        let slot = pin_in(rt, &self.turns, &mut attached.passes, shard, page)?;
        attached.pins += 1;
        Ok(ShardSlot { shard, slot })
    }

    /// Removes a pin: one turn of the slot's shard, in which the call `Unpin` is answered. Any thread
    /// may have given it: a pin has no owner, and a thread may remove as many as it counts.
    ///
    /// # Errors
    /// In this order: `NoPins`, if this thread holds no pin, and `Node(StaleSlot)`, if there is no
    /// such shard; no turn was entered. `Node(StaleSlot)` from the shard, if the slot doesn't hold
    /// its page there. `TurnsSpent`.
    pub fn unpin<R: Wait>(
        &self,
        rt: &R,
        attached: &mut Attached<D>,
        at: ShardSlot,
    ) -> Result<(), SharedFault>
        requires { AreOf self.now attached.old.passes }
        ensures attached { AreOf self.now attached.new.passes }
        ensures none { attached.old.pins ≡ 0 → (result ≡ Err NoPins)
            × (attached.new ≡ attached.old) }
        ensures ends { attached.old.pins ≢ 0
            → SlotCallEnds attached.old.passes at.shard (Unpin at.slot) shard_done result
            attached.new.passes }
        ensures held { OnOk result (attached.new.pins + 1 ≡ attached.old.pins) }
        ensures as_many { OnErr result (attached.new.pins ≡ attached.old.pins) }
    {
        if attached.pins == 0 {
            return Err(SharedFault::NoPins);
        }
        if at.shard >= self.turns.len() {
            return Err(SharedFault::Node(NodeFault::StaleSlot));
        }
        unpin_in(rt, &self.turns, &mut attached.passes, at)?;
        attached.pins -= 1;
        Ok(())
    }

    /// Reads `len` bytes of the slot's page, from `at` on: one turn of the slot's shard, in which
    /// the call `Read` is answered.
    ///
    /// # Errors
    /// `Node(StaleSlot)`, if there is no such shard; no turn was entered. `Node`, with the fault of
    /// [`warm_gossip::Node::read`] in the shard. `TurnsSpent`.
    pub fn read<R: Wait>(
        &self,
        rt: &R,
        attached: &mut Attached<D>,
        slot: ShardSlot,
        at: usize,
        len: usize,
    ) -> Result<ByteList, SharedFault>
        requires { AreOf self.now attached.old.passes }
        ensures attached { AreOf self.now attached.new.passes }
        ensures ends { SlotCallEnds attached.old.passes slot.shard (Read slot.slot at len) Bytes
            result attached.new.passes }
        ensures pins { attached.new.pins ≡ attached.old.pins }
    {
        if slot.shard >= self.turns.len() {
            return Err(SharedFault::Node(NodeFault::StaleSlot));
        }
        let bytes = read_in(rt, &self.turns, &mut attached.passes, slot, at, len)?;
        Ok(bytes)
    }

    /// Reads bytes of the slot's page, from `at` on, into the whole of `into`: one turn of the
    /// slot's shard, in which the call `Read` of that length is answered. Allocation-free.
    ///
    /// # Errors
    /// `Node(StaleSlot)`, if there is no such shard; no turn was entered. `Node`, with the fault of
    /// [`warm_gossip::Node::read_into`] in the shard. `TurnsSpent`. `into` is then as it was.
    pub fn read_into<R: Wait>(
        &self,
        rt: &R,
        attached: &mut Attached<D>,
        slot: ShardSlot,
        at: usize,
        into: &mut Vec<u8>,
    ) -> Result<(), SharedFault>
        requires { AreOf self.now attached.old.passes }
        ensures attached { AreOf self.now attached.new.passes }
        ensures ends { SlotCallEnds attached.old.passes slot.shard
            (Read slot.slot at (length into.old.items)) (λ _. Bytes into.new.items) result
            attached.new.passes }
        ensures same { OnErr result (into.new.items ≡ into.old.items) }
        ensures no_memory { IfErr result (λ why. why ≢ Node Memory) }
        ensures pins { attached.new.pins ≡ attached.old.pins }
    {
        if slot.shard >= self.turns.len() {
            return Err(SharedFault::Node(NodeFault::StaleSlot));
        }
        let none = Vec::new(*into.allocator());
        let taken = replace(into, none);
        let (filled, read) = read_into_in(rt, &self.turns, &mut attached.passes, slot, at, taken);
        *into = filled;
        read
    }

    /// Writes bytes into the slot's page, from `at` on: one turn of the slot's shard, in which the
    /// call `Write` is answered.
    ///
    /// # Errors
    /// `Node(StaleSlot)`, if there is no such shard; no turn was entered. `Node`, with the fault of
    /// [`warm_gossip::Node::write`] in the shard. `TurnsSpent`. The bytes are dropped.
    pub fn write<R: Wait>(
        &self,
        rt: &R,
        attached: &mut Attached<D>,
        slot: ShardSlot,
        at: usize,
        bytes: ByteList,
    ) -> Result<(), SharedFault>
        requires { AreOf self.now attached.old.passes }
        ensures attached { AreOf self.now attached.new.passes }
        ensures ends { SlotCallEnds attached.old.passes slot.shard (Write slot.slot at bytes)
            shard_done result attached.new.passes }
        ensures pins { attached.new.pins ≡ attached.old.pins }
    {
        let ShardSlot { shard, slot } = slot;
        if shard >= self.turns.len() {
            return Err(SharedFault::Node(NodeFault::StaleSlot));
        }
        let call = ShardCall::Write { slot, at, bytes };
        do_in(rt, &self.turns, &mut attached.passes, shard, call)?;
        Ok(())
    }

    /// The page of a shard that would be evicted next for another page of that shard, if there is
    /// one: one turn of the shard, in which the call `Victim` is answered.
    ///
    /// # Errors
    /// `TurnsSpent`.
    pub fn victim<R: Wait>(
        &self,
        rt: &R,
        attached: &mut Attached<D>,
        shard: usize,
    ) -> Result<Option<PageId>, SharedFault>
        requires passes { AreOf self.now attached.old.passes }
        requires there { shard < length self.now }
        ensures attached { AreOf self.now attached.new.passes }
        ensures ends { CallEnds attached.old.passes shard Victim Page result attached.new.passes }
        ensures pins { attached.new.pins ≡ attached.old.pins }
    {
        let page = victim_in(rt, &self.turns, &mut attached.passes, shard)?;
        Ok(page)
    }

    /// Loads the hottest page of a shard that is not resident and that a device has, among as many
    /// of the shard's hottest as it has frames: one turn of the shard, in which the call `WarmStep`
    /// is answered. A standby calls it for each shard until it returns `None`.
    ///
    /// # Errors
    /// `Node`, with the fault and the effects of [`warm_gossip::Node::warm_step`] in the shard.
    /// `TurnsSpent`.
    pub fn warm_step<R: Wait>(
        &self,
        rt: &R,
        attached: &mut Attached<D>,
        shard: usize,
    ) -> Result<Option<PageId>, SharedFault>
        requires passes { AreOf self.now attached.old.passes }
        requires there { shard < length self.now }
        ensures attached { AreOf self.now attached.new.passes }
        ensures ends { CallEnds attached.old.passes shard WarmStep Loaded result
            attached.new.passes }
        ensures pins { attached.new.pins ≡ attached.old.pins }
    {
        let page = warm_step_in(rt, &self.turns, &mut attached.passes, shard)?;
        Ok(page)
    }

    /// The page that [`SharedShards::warm_step`] of the shard would load now; `None` if there is
    /// none: one turn of the shard, in which the call `WarmNext` is answered. Nothing is loaded. By
    /// this a thread warms a shard up, and holds no turn as it reads: it reads this page, pins it
    /// by [`SharedShards::pin_filled`], and removes the pin. That is the warm-up step, unless
    /// another call of the shard came in between.
    ///
    /// # Errors
    /// `Node(Memory)`: an allocation failed in the shard. `TurnsSpent`. Nothing has changed in any
    /// shard.
    pub fn warm_next<R: Wait>(
        &self,
        rt: &R,
        attached: &mut Attached<D>,
        shard: usize,
    ) -> Result<Option<PageId>, SharedFault>
        requires passes { AreOf self.now attached.old.passes }
        requires there { shard < length self.now }
        ensures attached { AreOf self.now attached.new.passes }
        ensures ends { CallEnds attached.old.passes shard WarmNext Page result
            attached.new.passes }
        ensures pins { attached.new.pins ≡ attached.old.pins }
    {
        let page = warm_next_in(rt, &self.turns, &mut attached.passes, shard)?;
        Ok(page)
    }
}
