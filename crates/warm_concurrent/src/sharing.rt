//! Putting each shard behind a turn.
ghost use Rattle.std.specs.Prelude.{◌≡◌, ◌≤◌, ◌+◌, ◌<◌, ◌++◌, [], length, IfErr, IfOk, OnOk};
ghost use Rattle.std.specs.Prelude.{vec_capacity};
ghost use Rattle.warm_concurrent.specs.Attached.{AreOf};
ghost use Rattle.warm_concurrent.specs.Opening.{AreFirst, openings, shards_over};

use crate::shared::{Attached, SharedShards};
use std::alloc::{AllocError, Global};
use std::marker::Model;
use warm_devices::PageDevice;
use warm_shard_machine::Shard;
use warm_shards::Shards;
use warm_stamps::ReplicaId;
use warm_turn::{Pass, Turn};

/// Shards that are to be shared. Some may be behind turns already: if memory fails, nothing is
/// lost, and sharing can be tried again.
///
/// Contracts see the list of the shards, that of shard 0 first.
pub struct Sharing<D: PageDevice + Send> {
    alloc: Global,
    // The replica's number.
    id: ReplicaId,
    // The first shards.
    shards: Vec<Shard<D>>,
    // The turns of the other shards, and a pass of each.
    turns: Vec<Turn<Shard<D>>>,
    passes: Vec<Pass<Shard<D>>>,
}

// Written by hand, so that an owner makes one call on each exit path.
impl<D: PageDevice + Send> Drop for Sharing<D> {
    fn drop(self) {
        let Self {
            alloc: _,
            id: _,
            shards,
            turns,
            passes,
        } = self;
        drop(shards);
        drop(turns);
        drop(passes);
    }
}

impl<D: PageDevice + Send> Model for Sharing<D> {
    ghost use Rattle.std.specs.Prelude.{List, ◌++◌};
    ghost use Rattle.warm_concurrent.specs.Opening.{AreFirst, AreNumbered, openings};
    ghost use Rattle.warm_shard_machine.specs.ShardSteps.{ShardState};

    ghost Value = { List ShardState };

    ghost view = { λ s. s.shards.items ++ openings s.turns.items };

    ghost invariant = { λ s. AreFirst s.turns.items s.passes.items
        × AreNumbered s.id (s.shards.items ++ openings s.turns.items) };
}

// Puts the last shard that is not behind a turn behind one.
fn put_last<D: PageDevice + Send>(
    alloc: Global,
    shards: &mut Vec<Shard<D>>,
    turns: &mut Vec<Turn<Shard<D>>>,
    passes: &mut Vec<Pass<Shard<D>>>,
) -> Result<(), AllocError>
    requires some { 0 < length shards.old.items }
    requires turns { length turns.old.items < vec_capacity turns.old }
    requires passes { length passes.old.items < vec_capacity passes.old }
    requires first { AreFirst turns.old.items passes.old.items }
    ensures first { AreFirst turns.new.items passes.new.items }
    ensures same { shards.new.items ++ openings turns.new.items
        ≡ shards.old.items ++ openings turns.old.items }
    ensures fewer { OnOk result (length shards.new.items + 1 ≡ length shards.old.items) }
    ensures room { OnOk result ((vec_capacity turns.old ≤ vec_capacity turns.new)
        × (vec_capacity passes.old ≤ vec_capacity passes.new)) }
    ensures more { OnOk result (length turns.new.items ≡ length turns.old.items + 1) }
{
    let Some(shard) = shards.pop() else {
        unreachable!()
    };
    match Turn::new(alloc, shard) {
        Ok((turn, pass)) => {
            let Ok(()) = turns.insert(0, turn) else {
                unreachable!()
            };
            let Ok(()) = passes.insert(0, pass) else {
                unreachable!()
            };
            Ok(())
        }
        Err(refused) => {
            shards.push_reserved(refused.machine);
            Err(AllocError)
        }
    }
}

// Puts each shard behind a turn, the last one first.
fn put_all<D: PageDevice + Send>(
    alloc: Global,
    shards: &mut Vec<Shard<D>>,
    turns: &mut Vec<Turn<Shard<D>>>,
    passes: &mut Vec<Pass<Shard<D>>>,
) -> Result<(), AllocError>
    requires first { AreFirst turns.old.items passes.old.items }
    ensures first { AreFirst turns.new.items passes.new.items }
    ensures same { shards.new.items ++ openings turns.new.items
        ≡ shards.old.items ++ openings turns.old.items }
    ensures all { OnOk result (shards.new.items ≡ []) }
{
    let count = shards.len();
    turns.reserve(count)?;
    passes.reserve(count)?;
    for _shard in 0..count {
        put_last(alloc, shards, turns, passes)?;
    }
    Ok(())
}

impl<D: PageDevice + Send> Sharing<D> {
    /// These shards, of which none is behind a turn.
    ///
    /// # Errors
    /// If an allocation fails, the shards are given back as they were.
    pub fn new(alloc: Global, shards: Shards<D>) -> Result<Sharing<D>, Shards<D>>
        ensures shards { IfOk result (λ sharing. sharing ≡ shards_over shards) }
        ensures back { IfErr result (λ given. given ≡ shards) }
    {
        let count = shards.count();
        let id = shards.id();
        let Ok(mut all) = Vec::with_capacity(alloc, count) else {
            return Err(shards);
        };
        for node in shards.into_nodes() {
            let number = all.len();
            all.push_reserved(Shard::new(alloc, count, number, node));
        }
        Ok(Sharing {
            alloc,
            id,
            shards: all,
            turns: Vec::new(alloc),
            passes: Vec::new(alloc),
        })
    }

    /// The shared shards, each behind a turn that opens with it, and what the first thread has of
    /// them.
    ///
    /// # Errors
    /// If an allocation fails, the shards are given back. Some may be behind turns then; to share
    /// them, call this once more.
    pub fn share(self) -> Result<(SharedShards<D>, Attached<D>), Sharing<D>>
        ensures shards { IfOk result (λ r. openings r.0 ≡ self) }
        ensures of { IfOk result (λ r. AreOf r.0 r.1.passes) }
        ensures first { IfOk result (λ r. AreFirst r.0 r.1.passes) }
        ensures pins { IfOk result (λ r. r.1.pins ≡ 0) }
        ensures back { IfErr result (λ sharing. sharing ≡ self) }
    {
        let Sharing {
            alloc,
            id,
            mut shards,
            mut turns,
            mut passes,
        } = self;
        if let Err(AllocError) = put_all(alloc, &mut shards, &mut turns, &mut passes) {
            return Err(Sharing {
                alloc,
                id,
                shards,
                turns,
                passes,
            });
        }
        Ok((SharedShards { id, turns }, Attached { passes, pins: 0 }))
    }
}
