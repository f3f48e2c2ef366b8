//! Calls that go to each shard, from the first on: writing all back, forgetting pages, and
//! restarting.
ghost use Rattle.std.specs.Prelude.{◌≡◌, ◌<◌, ◌≤◌, [], length, IfErr, OnErr, OnOk};
ghost use Rattle.warm_gossip.specs.declared.fault.NodeFault.TheVariants.{Pool};
ghost use Rattle.warm_history.specs.Histories.{history_of_entries};
ghost use Rattle.warm_pool.specs.View.{IsFixed, IsUnfixed, view_of};
ghost use Rattle.warm_pool.specs.declared.fault.PoolFault.TheVariants.{Fault, Fixed};
ghost use Rattle.warm_shards.specs.Shards.{AreShards, whole};
ghost use Rattle.warm_shards.specs.EachShard.{DeviceFails, ForgetIsRefused, HasFixed, HasForgotten};
ghost use Rattle.warm_shards.specs.EachShard.{IsUnchanged, IsWritten, MayForgetEach, OfEach};
ghost use Rattle.warm_shards.specs.EachShard.{OfFirst, RestartRefused, RestartStops, Rises};
ghost use Rattle.warm_shards.specs.EachShard.{ShardForgetsPages, ShardRestarts, ShardSettles};
ghost use Rattle.warm_shards.specs.EachShard.{ShardWriteFails, ShardsAreUnfixed, StopsAtShard};
ghost use Rattle.warm_shards.specs.EachShard.{WriteBackStops};

use crate::shards::Shards;
use warm_devices::PageDevice;
use warm_gossip::{Node, NodeFault};

// Whether each node may forget the pages.
fn may_forget_each<D: PageDevice>(
    nodes: &Vec<Node<D>>,
    dev: u16,
    from: u64,
) -> Result<(), NodeFault>
    ensures may { OnOk result (MayForgetEach dev from nodes.now.items) }
    ensures refused { IfErr result (λ why. ForgetIsRefused dev from why nodes.now.items) }
{
    let count = nodes.len();
    for shard in 0..count {
        nodes[shard].may_forget(dev, from)?;
    }
    Ok(())
}

// Each node forgets the pages.
fn forget_each<D: PageDevice>(nodes: &mut Vec<Node<D>>, dev: u16, from: u64)
    requires { MayForgetEach dev from nodes.old.items }
    ensures { OfEach (ShardForgetsPages dev from) nodes.old.items nodes.new.items }
{
    let count = nodes.len();
    for shard in 0..count {
        let Ok(()) = nodes[shard].forget_pages(dev, from) else {
            unreachable!()
        };
    }
}

// Writes back all dirty pages of a node. No device is flushed.
fn write_one<D: PageDevice>(node: &mut Node<D>) -> Result<(), NodeFault>
    ensures written { OnOk result (IsWritten node.old node.new) }
    ensures refused { IfErr result (λ why. (why ≡ Pool Fault) × ShardWriteFails node.old node.new) }
{
    // No more pages are dirty than there are frames.
    let frames = node.pool().frames();
    node.write_back_some(frames)?;
    Ok(())
}

// Each node writes back its dirty pages, up to the first that fails.
fn write_each<D: PageDevice>(nodes: &mut Vec<Node<D>>) -> Result<(), NodeFault>
    ensures written { OnOk result (OfEach IsWritten nodes.old.items nodes.new.items) }
    ensures refused { IfErr result (λ why. (why ≡ Pool Fault)
        × StopsAtShard IsWritten ShardWriteFails IsUnchanged nodes.old.items nodes.new.items) }
{
    let count = nodes.len();
    for shard in 0..count {
        write_one(&mut nodes[shard])?;
    }
    Ok(())
}

// Each node flushes its devices, up to the first that fails.
fn flush_each<D: PageDevice>(nodes: &mut Vec<Node<D>>) -> Result<(), NodeFault>
    ensures settled { OnOk result (OfEach ShardSettles nodes.old.items nodes.new.items) }
    ensures refused { IfErr result (λ why. (why ≡ Pool Fault)
        × StopsAtShard ShardSettles DeviceFails IsUnchanged nodes.old.items nodes.new.items) }
{
    let count = nodes.len();
    for shard in 0..count {
        nodes[shard].write_back()?;
    }
    Ok(())
}

// Each node writes back its dirty pages, and then each flushes its devices.
fn settle_each<D: PageDevice>(nodes: &mut Vec<Node<D>>) -> Result<(), NodeFault>
    ensures settled { OnOk result (OfEach ShardSettles nodes.old.items nodes.new.items) }
    ensures refused { IfErr result (λ why. (why ≡ Pool Fault)
        × WriteBackStops nodes.old.items nodes.new.items) }
{
    write_each(nodes)?;
    flush_each(nodes)?;
    Ok(())
}

// Raises the first nodes to a horizon.
pub(crate) fn raise_first<D: PageDevice>(nodes: &mut Vec<Node<D>>, count: usize, horizon: u64)
    requires { count ≤ length nodes.old.items }
    ensures { OfFirst (Rises horizon) count nodes.old.items nodes.new.items }
{
    for shard in 0..count {
        nodes[shard].raise(horizon);
    }
}

// Whether a node may restart: no page in its pool is pinned. The page of each frame is one of a
// device, and a frame without a page is not pinned.
fn may_restart<D: PageDevice>(node: &Node<D>) -> Result<(), NodeFault>
    ensures may { OnOk result (IsUnfixed (view_of node.now.pool)) }
    ensures refused { IfErr result (λ why. (why ≡ Pool Fixed)
        × IsFixed (view_of node.now.pool)) }
{
    node.pool().prove_is_pool();
    let devices = node.pool().devices().len();
    for dev in 0..devices {
        node.may_forget(dev as u16, 0)?;
    }
    Ok(())
}

// Whether each node may restart.
fn may_restart_each<D: PageDevice>(nodes: &Vec<Node<D>>) -> Result<(), NodeFault>
    ensures may { OnOk result (ShardsAreUnfixed nodes.now.items) }
    ensures refused { IfErr result (λ why. (why ≡ Pool Fixed) × HasFixed nodes.now.items) }
{
    let count = nodes.len();
    for shard in 0..count {
        may_restart(&nodes[shard])?;
    }
    Ok(())
}

// Each node restarts, up to the first that fails; then those before it get the horizon of all.
fn restart_each<D: PageDevice>(nodes: &mut Vec<Node<D>>, horizon: u64) -> Result<(), NodeFault>
    requires { ShardsAreUnfixed nodes.old.items }
    ensures restarted { OnOk result (OfEach ShardRestarts nodes.old.items nodes.new.items) }
    ensures refused { IfErr result (λ why. (why ≡ Pool Fault)
        × StopsAtShard (HasForgotten horizon) DeviceFails IsUnchanged nodes.old.items
        nodes.new.items) }
{
    let count = nodes.len();
    for shard in 0..count {
        if let Err(why) = nodes[shard].restart() {
            raise_first(nodes, shard, horizon);
            return Err(why);
        }
    }
    Ok(())
}

// Each node writes back its pages; then each flushes; then each restarts.
fn restart_all<D: PageDevice>(nodes: &mut Vec<Node<D>>) -> Result<(), NodeFault>
    requires shards { AreShards nodes.old.items }
    requires unfixed { ShardsAreUnfixed nodes.old.items }
    ensures restarted { OnOk result (OfEach ShardRestarts nodes.old.items nodes.new.items) }
    ensures refused { IfErr result (λ why. (why ≡ Pool Fault)
        × RestartStops nodes.old.items nodes.new.items) }
{
    settle_each(nodes)?;
    let horizon = nodes[0].history().horizon();
    restart_each(nodes, horizon)
}

impl<D: PageDevice> Shards<D> {
    /// Writes back the dirty pages of all shards, and then flushes the unflushed devices of each.
    /// So devices that share a file can make it durable once. Allocation-free.
    ///
    /// # Errors
    /// `Pool(Fault)` at the first write or flush that fails. Of what a caller sees, only one count
    /// of failures has changed. At a write, the shards before that one have written their pages,
    /// and those after it are unchanged. At a flush, all pages of all shards were written back and
    /// none is dirty, and the shards before that one have flushed their devices.
    pub fn write_back_all(&mut self) -> Result<(), NodeFault>
        ensures settled { OnOk result (OfEach ShardSettles self.old self.new) }
        ensures refused { IfErr result (λ why. (why ≡ Pool Fault)
            × WriteBackStops self.old self.new) }
    {
        settle_each(&mut self.nodes)
    }

    /// Evicts the pages of a device with the number `from` and above in each shard, and does not
    /// write them: as [`warm_gossip::Node::forget_pages`] of each. All shards forget their pages,
    /// or none does. Allocation-free.
    ///
    /// # Errors
    /// Those of [`warm_gossip::Node::may_forget`] of some shard: `Pool(NoDevice)`, if it has no
    /// device of this number, or `Pool(Fixed)`, if one of its pages is pinned. Nothing has changed.
    pub fn forget_pages(&mut self, dev: u16, from: u64) -> Result<(), NodeFault>
        ensures forgotten { OnOk result (OfEach (ShardForgetsPages dev from) self.old self.new) }
        ensures refused { IfErr result (λ why. ForgetIsRefused dev from why self.old) }
        ensures unchanged { OnErr result (self.new ≡ self.old) }
    {
        may_forget_each(&self.nodes, dev, from)?;
        forget_each(&mut self.nodes, dev, from);
        Ok(())
    }

    /// Writes all back as [`Shards::write_back_all`] does, and then restarts each shard: it forgets
    /// its history and evicts every page, as by [`warm_gossip::Node::restart`]. Allocation-free.
    ///
    /// # Errors
    /// In this order.
    /// - `Pool(Fixed)`: a page of some shard is pinned. Nothing has changed.
    /// - `Pool(Fault)`: a device failed. If it failed before all was written back, as of
    ///   [`Shards::write_back_all`], nothing was forgotten. If it failed as its shard restarted,
    ///   the shards before that one have forgotten their references and their pages, and have the
    ///   horizon that all had. That one and those after it have forgotten nothing. To restart once
    ///   more is then right.
    pub fn restart(&mut self) -> Result<(), NodeFault>
        ensures restarted { OnOk result (OfEach ShardRestarts self.old self.new) }
        ensures empty { OnOk result (whole self.new ≡ history_of_entries []) }
        ensures refused { IfErr result (λ why. RestartRefused self.old why self.new) }
    {
        may_restart_each(&self.nodes)?;
        restart_all(&mut self.nodes)
    }
}
