//! Shards that threads share, and what each thread has of them.
ghost use Rattle.std.specs.Prelude.{◌≡◌, ◌<◌, length, IfErr, IfOk, OnErr};
ghost use Rattle.warm_visits.specs.ShardNumbers.{IsShardCount, shard_of};
ghost use Rattle.warm_concurrent.specs.Attached.{AreOf, AreTurns, OpenedAs, opened_id};
ghost use Rattle.warm_concurrent.specs.Clauses.{AnsweredByShard, Spent};
ghost use Rattle.warm_concurrent.specs.declared.fault.SharedFault.TheVariants.{TurnsSpent};
ghost use Rattle.warm_shard_machine.specs.ShardSteps.{MayAnswer};
ghost use Rattle.warm_shard_machine.specs.declared.calls.ShardCall.{ShardCall};
ghost use Rattle.warm_shard_machine.specs.declared.calls.ShardReply.{ShardReply};

use crate::fault::SharedFault;
use std::marker::Model;
use std::sync::Wait;
use warm_devices::PageDevice;
use warm_shard_machine::{Shard, ShardCall, ShardReply};
use warm_stamps::{PageId, ReplicaId};
use warm_turn::{Pass, Turn, Visit};
use warm_visits::shard_of;

/// The shards of one replica, each behind a turn of its own. Threads share them by `&`; each has an
/// [`Attached`] of its own.
///
/// Contracts see the list of the turns, that of shard 0 first.
#[derive(Drop)]
pub struct SharedShards<D: PageDevice + Send> {
    pub(crate) id: ReplicaId,
    pub(crate) turns: Vec<Turn<Shard<D>>>,
}

impl<D: PageDevice + Send> Model for SharedShards<D> {
    ghost use Rattle.std.specs.Prelude.{List};
    ghost use Rattle.warm_concurrent.specs.Attached.{AreTurns, OpenedAs, ShardTurn};

    ghost Value = { List ShardTurn };

    ghost view = { λ s. s.turns.items };

    ghost invariant = { λ s. AreTurns s.turns.items × OpenedAs s.id s.turns.items };
}

/// What a thread has of shared shards: a pass of each shard, and a count of the pins that it holds.
/// It may go to another thread.
///
/// Contracts see the list of the passes, that of shard 0 first, and the count. Each call requires
/// that the passes are of the turns of the shared shards, place by place (`AreOf`).
#[derive(Drop)]
pub struct Attached<D: PageDevice + Send> {
    pub(crate) passes: Vec<Pass<Shard<D>>>,
    pub(crate) pins: u64,
}

impl<D: PageDevice + Send> Model for Attached<D> {
    ghost use Rattle.warm_concurrent.specs.Attached.{AttachedView};

    ghost Value = { AttachedView };

    ghost view = { λ a. record { passes = a.passes.items; pins = a.pins } };
}

impl<D: PageDevice + Send> Attached<D> {
    /// How many pins this thread counts: the pins that succeeded, less the unpins that did.
    pub fn pins(&self) -> u64
        ensures { result ≡ self.now.pins }
    {
        self.pins
    }
}

impl<D: PageDevice + Send> SharedShards<D> {
    /// The replica's number: that of each node with which the shards opened.
    pub fn id(&self) -> ReplicaId
        ensures opened { OpenedAs result self.now }
        ensures value { result ≡ opened_id self.now }
    {
        self.id
    }

    /// How many shards there are.
    pub fn count(&self) -> usize
        ensures value { result ≡ length self.now }
        ensures valid { IsShardCount result }
    {
        self.turns.len()
    }

    /// The shard of a page. No turn is entered.
    pub fn shard_of(&self, page: PageId) -> usize
        ensures value { result ≡ shard_of (length self.now) page }
        ensures below { result < length self.now }
    {
        shard_of(self.count(), page)
    }
}

// Makes a call in the turn of one shard. It enters no other turn.
pub(crate) fn call_shard<D: PageDevice + Send, R: Wait>(
    rt: &R,
    turns: &Vec<Turn<Shard<D>>>,
    passes: &mut Vec<Pass<Shard<D>>>,
    shard: usize,
    call: ShardCall,
) -> Result<ShardReply, SharedFault>
    requires turns { AreTurns turns.now.items }
    requires passes { AreOf turns.now.items passes.old.items }
    requires there { shard < length turns.now.items }
    ensures passes { AreOf turns.now.items passes.new.items }
    ensures answered { IfOk result (λ reply.
        AnsweredByShard passes.old.items shard call reply passes.new.items) }
    ensures may { IfOk result (MayAnswer (length turns.now.items) shard call) }
    ensures spent { IfErr result (λ why. (why ≡ TurnsSpent)
        × Spent passes.old.items shard passes.new.items) }
{
    let reply = turns[shard].call(rt, &mut passes[shard], call)?;
    Ok(reply)
}

// Lets a visitor have the shard of one turn. It enters no other turn. The visitor is given back
// if no ticket was left.
pub(crate) fn visit_or_back<D: PageDevice + Send, R: Wait, V: Visit<Shard<D>>>(
    rt: &R,
    turns: &Vec<Turn<Shard<D>>>,
    passes: &mut Vec<Pass<Shard<D>>>,
    shard: usize,
    visitor: V,
) -> Result<V::Output, V>
    requires turns { AreTurns turns.now.items }
    requires passes { AreOf turns.now.items passes.old.items }
    requires there { shard < length turns.now.items }
    requires ready { V.ready visitor }
    ensures passes { AreOf turns.now.items passes.new.items }
    ensures visited { IfOk result (λ output. (call : ShardCall) × (reply : ShardReply)
        × V.makes visitor output call reply
        × AnsweredByShard passes.old.items shard call reply passes.new.items
        × MayAnswer (length turns.now.items) shard call reply) }
    ensures spent { OnErr result (Spent passes.old.items shard passes.new.items) }
    ensures given_back { IfErr result (λ back. back ≡ visitor) }
{
    match turns[shard].visit(rt, &mut passes[shard], visitor) {
        Ok(output) => Ok(output),
        Err(spent) => Err(spent.call),
    }
}
