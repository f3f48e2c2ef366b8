//! Threads come and go, and the shards are closed.
ghost use Rattle.std.specs.Prelude.{◌≡◌, ◌≢◌, ◌≤◌, [], length, IfErr, IfOk, OnOk, vec_capacity};
ghost use Rattle.warm_concurrent.specs.Attached.{AreOf};
ghost use Rattle.warm_concurrent.specs.Opening.{AreClosed, AreHalved, AreSplit, ClosesShard};
ghost use Rattle.warm_concurrent.specs.Opening.{IsCloseRefused, PassesAreJoined};
ghost use Rattle.warm_concurrent.specs.Pins.{ClosesUnpinned};

use crate::fault::SharedFault;
use crate::shared::{Attached, SharedShards};
use std::alloc::{AllocError, Global};
use warm_devices::PageDevice;
use warm_gossip::{Node, NodeFault};
use warm_shard_machine::Shard;
use warm_turn::{Busy, Pass, Turn};

/// A thread that was not detached, since it counts pins: refusal 21, `PinsHeld`. Nothing has
/// changed.
#[derive(Drop)]
pub struct NotDetached<D: PageDevice + Send> {
    /// What the thread has, as it was.
    pub attached: Attached<D>,
}

/// Shards that were not closed, and why. Nothing has changed.
#[derive(Drop)]
pub struct NotClosed<D: PageDevice + Send> {
    /// `PinsHeld`, or `Node(Memory)`.
    pub fault: SharedFault,
    /// The shards, as they were.
    pub shared: SharedShards<D>,
    /// What the thread has, as it was.
    pub attached: Attached<D>,
}

// A new pass of each turn, split off these, with half of their shares.
fn split_all<D: PageDevice + Send>(
    alloc: Global,
    turns: &Vec<Turn<Shard<D>>>,
    passes: &mut Vec<Pass<Shard<D>>>,
) -> Result<Vec<Pass<Shard<D>>>, AllocError>
    requires { AreOf turns.now.items passes.old.items }
    ensures here { AreOf turns.now.items passes.new.items }
    ensures same { IfErr result (λ _. passes.new.items ≡ passes.old.items) }
    ensures halved { OnOk result (AreHalved passes.old.items passes.new.items) }
    ensures passes { IfOk result (λ all. AreOf turns.now.items all.items) }
    ensures given { IfOk result (λ all. AreSplit passes.old.items all.items) }
{
    let count = turns.len();
    let mut all = Vec::with_capacity(alloc, count)?;
    for shard in 0..count {
        all.push_reserved(turns[shard].pass(&mut passes[shard]));
    }
    Ok(all)
}

// Ends each of the other passes into the one of its turn. A pass has no bytes, so to remove the
// first of them moves nothing.
fn end_all<D: PageDevice + Send>(
    turns: &Vec<Turn<Shard<D>>>,
    passes: &mut Vec<Pass<Shard<D>>>,
    mut others: Vec<Pass<Shard<D>>>,
)
    requires these { AreOf turns.now.items passes.old.items }
    requires those { AreOf turns.now.items others.items }
    ensures passes { AreOf turns.now.items passes.new.items }
    ensures joined { PassesAreJoined passes.old.items others.items passes.new.items }
{
    let count = turns.len();
    for shard in 0..count {
        let other = others.remove(0);
        turns[shard].end(&mut passes[shard], other);
    }
}

// Closes the turn of one shard.
fn close_one<D: PageDevice + Send>(
    turn: Turn<Shard<D>>,
    pass: Pass<Shard<D>>,
) -> Result<Node<D>, Busy>
    requires { pass.table ≡ turn.table }
    ensures { ClosesShard turn pass.view result }
{
    let shard = turn.close(pass)?;
    Ok(shard.into_node())
}

// Closes the turns of all shards, for whose nodes there is room.
fn close_all<D: PageDevice + Send>(
    mut turns: Vec<Turn<Shard<D>>>,
    mut passes: Vec<Pass<Shard<D>>>,
    nodes: &mut Vec<Result<Node<D>, Busy>>,
)
    requires passes { AreOf turns.items passes.items }
    requires room { (nodes.old.items ≡ []) × (length turns.items ≤ vec_capacity nodes.old) }
    ensures { AreClosed turns.items passes.items nodes.new.items }
{
    let count = turns.len();
    for _shard in 0..count {
        let turn = turns.remove(0);
        let pass = passes.remove(0);
        nodes.push_reserved(close_one(turn, pass));
    }
}

impl<D: PageDevice + Send> SharedShards<D> {
    /// What a further thread has of the shards. It has seen what this one has, and holds no pin. It
    /// gets half of what this one has of the right to close, and this one keeps the other half.
    ///
    /// `AllocError` occurs only if an allocation fails; nothing has changed.
    pub fn attach(
        &self,
        alloc: Global,
        attached: &mut Attached<D>,
    ) -> Result<Attached<D>, AllocError>
        requires { AreOf self.now attached.old.passes }
        ensures here { AreOf self.now attached.new.passes }
        ensures halved { OnOk result (AreHalved attached.old.passes attached.new.passes) }
        ensures held { attached.new.pins ≡ attached.old.pins }
        ensures same { IfErr result (λ _. attached.new ≡ attached.old) }
        ensures attached { IfOk result (λ more. AreOf self.now more.passes) }
        ensures given { IfOk result (λ more. AreSplit attached.old.passes more.passes) }
        ensures pins { IfOk result (λ more. more.pins ≡ 0) }
    {
        let passes = split_all(alloc, &self.turns, &mut attached.passes)?;
        Ok(Attached { passes, pins: 0 })
    }

    /// Ends what another thread has into what this one has, which then has seen what both had.
    ///
    /// # Errors
    /// The other's count of pins is not 0; it is given back. Nothing has changed. The count alone
    /// decides: if other threads removed the other's pins, it may remove as many of theirs.
    pub fn detach(
        &self,
        attached: &mut Attached<D>,
        other: Attached<D>,
    ) -> Result<(), NotDetached<D>>
        requires these { AreOf self.now attached.old.passes }
        requires those { AreOf self.now other.passes }
        ensures attached { AreOf self.now attached.new.passes }
        ensures joined { OnOk result ((other.pins ≡ 0)
            × PassesAreJoined attached.old.passes other.passes attached.new.passes) }
        ensures pins { attached.new.pins ≡ attached.old.pins }
        ensures refused { IfErr result (λ not. (other.pins ≢ 0) × (not.attached ≡ other)
            × (attached.new ≡ attached.old)) }
    {
        if other.pins != 0 {
            return Err(NotDetached { attached: other });
        }
        let Attached { passes, pins: _ } = other;
        end_all(&self.turns, &mut attached.passes, passes);
        Ok(())
    }

    /// Takes the shards apart and returns their nodes, that of shard 0 first: each is in a state
    /// that a legal history of its shard reaches, which begins with what the thread has seen.
    ///
    /// `Busy` in place of a node: fewer calls of the shard were answered than begun, and the node
    /// is lost. It does not occur if all other threads were detached into this one: then the
    /// thread has the whole right to close, and no page of the nodes is pinned, if none was when the
    /// shards were shared.
    ///
    /// # Errors
    /// In this order: `PinsHeld`, if this thread's count of pins is not 0; `Node(Memory)`, if an
    /// allocation fails. Nothing has changed, and both are given back.
    #[tactic(auto, using(crate::proofs::ClosedPinLemmas::closes_unpinned))]
    pub fn close(
        self,
        alloc: Global,
        attached: Attached<D>,
    ) -> Result<Vec<Result<Node<D>, Busy>>, NotClosed<D>>
        requires { AreOf self attached.passes }
        ensures closed { IfOk result (λ nodes. AreClosed self attached.passes nodes.items) }
        ensures free { OnOk result (attached.pins ≡ 0) }
        ensures unpinned { IfOk result (λ nodes. ClosesUnpinned self attached nodes.items) }
        ensures refused { IfErr result (λ not. IsCloseRefused attached.pins not.fault
            × (not.shared ≡ self) × (not.attached ≡ attached)) }
    {
        if attached.pins != 0 {
            return Err(NotClosed {
                fault: SharedFault::PinsHeld,
                shared: self,
                attached,
            });
        }
        let Ok(mut nodes) = Vec::with_capacity(alloc, self.turns.len()) else {
            return Err(NotClosed {
                fault: SharedFault::Node(NodeFault::Memory),
                shared: self,
                attached,
            });
        };
        let SharedShards { id: _, turns } = self;
        let Attached { passes, pins: _ } = attached;
        close_all(turns, passes, &mut nodes);
        Ok(nodes)
    }
}
