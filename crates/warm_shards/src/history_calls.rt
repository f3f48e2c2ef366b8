//! The calls that take references in, and forget them.
ghost use Rattle.std.specs.Prelude.{◌≡◌, ◌<◌, length, IfErr, OnOk};
ghost use Rattle.std.specs.List.{AllByRecursion};
ghost use Rattle.warm_history.specs.ReferenceSets.{set_of_list};
ghost use Rattle.warm_gossip.specs.declared.call.Call.TheVariants.{Absorb, Horizon, WarmList};
ghost use Rattle.warm_gossip.specs.declared.call.Reply.TheVariants.{Done, Kept, Pages};
ghost use Rattle.warm_gossip.specs.declared.fault.NodeFault.TheVariants.{Memory};
ghost use Rattle.warm_shards.specs.Clauses.{KeepPools, TakesInFirst, Together};
ghost use Rattle.warm_shards.specs.Clauses.{TogetherAnswered};
ghost use Rattle.warm_shards.specs.Given.{AreGiven, Gives};
ghost use Rattle.warm_shards.specs.Shards.{AreShards, whole};
ghost use Rattle.warm_visits.specs.Given.{at_horizon};
ghost use Rattle.warm_visits.specs.ShardNumbers.{shard_of};

use crate::go_through::go_through;
use crate::shards::Shards;
use std::alloc::Global;
use warm_devices::PageDevice;
use warm_gossip::{Node, NodeFault};
use warm_rank::warm_list;
use warm_stamps::{PageList, Reference};
use warm_visits::{Visit, only_shard};

// The node of a shard absorbs a batch whose pages are all of that shard. Nothing is copied.
fn absorb_alone<D: PageDevice>(
    nodes: &mut Vec<Node<D>>,
    shard: usize,
    batch: &[Reference],
) -> Result<(), NodeFault>
    requires shards { AreShards nodes.old.items }
    requires there { shard < length nodes.old.items }
    requires own { AllByRecursion (λ r. shard_of (length nodes.old.items) r.page ≡ shard)
        batch.now }
    ensures { Gives (set_of_list batch.now) nodes.old.items result nodes.new.items }
{
    nodes[shard].absorb(batch)
}

// Each node absorbs its part of the batch. It is copied only if it has pages of several shards.
fn absorb_parts<D: PageDevice>(
    alloc: Global,
    nodes: &mut Vec<Node<D>>,
    batch: &[Reference],
) -> Result<(), NodeFault>
    requires { AreShards nodes.old.items }
    ensures { Gives (set_of_list batch.now) nodes.old.items result nodes.new.items }
{
    if let Some(shard) = only_shard(batch, nodes.len()) {
        return absorb_alone(nodes, shard, batch);
    }
    let mut visit = Visit::absorb(alloc, nodes[0].id(), nodes.len(), batch)?;
    go_through(nodes, &mut visit)
}

/// Raises the horizon of each node, and returns that of all.
pub(crate) fn raise_all<D: PageDevice>(nodes: &mut Vec<Node<D>>, time: u64) -> u64
    requires { AreShards nodes.old.items }
    ensures given { AreGiven (at_horizon time) nodes.old.items nodes.new.items }
    ensures kept { result ≡ (whole nodes.new.items).horizon }
{
    let mut visit = Visit::raise(nodes[0].id(), nodes.len(), time);
    let Ok(()) = go_through(nodes, &mut visit) else {
        unreachable!()
    };
    let Some(horizon) = visit.kept() else {
        unreachable!()
    };
    horizon
}

impl<D: PageDevice> Shards<D> {
    /// Adds references to the history, each in the shard of its page: the call `Absorb` of the
    /// whole. A batch whose pages are all of one shard is not copied.
    ///
    /// # Errors
    /// `Memory`: an allocation failed. The references to pages of the first shards are then
    /// absorbed, and the others are not: to absorb the batch once more does no harm. A batch whose
    /// pages are all of one shard is absorbed, or nothing has changed.
    pub fn absorb(&mut self, batch: &[Reference]) -> Result<(), NodeFault>
        ensures absorbed { OnOk result (Together self.old (Absorb batch.now) Done self.new) }
        ensures refused { IfErr result (λ why. (why ≡ Memory)
            × TakesInFirst self.old (set_of_list batch.now) self.new) }
        ensures pools { KeepPools self.old self.new }
    {
        absorb_parts(self.alloc, &mut self.nodes, batch)
    }

    /// Forgets all stamps before this time in each shard, and returns the new horizon: the call
    /// `Horizon` of the whole. Allocation-free.
    pub fn raise(&mut self, time: u64) -> u64
        ensures step { Together self.old (Horizon time) (Kept result) self.new }
        ensures pools { KeepPools self.old self.new }
    {
        raise_all(&mut self.nodes, time)
    }

    /// The `n` hottest pages of all shards, hottest first, or all if there are fewer: the call
    /// `WarmList` of the whole. It copies the history.
    ///
    /// # Errors
    /// `Memory`: an allocation failed; nothing has changed.
    pub fn warm_list(&self, n: usize) -> Result<PageList, NodeFault>
        ensures { TogetherAnswered self.now (WarmList n) Pages result self.now }
    {
        let history = self.history()?;
        let pages = warm_list(self.alloc, &history, n)?;
        Ok(PageList::of(pages))
    }
}
