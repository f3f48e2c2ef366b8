//! Shards of nodes that have run, as those into which shards were taken apart.
ghost use Rattle.std.specs.Prelude.{◌≡◌, ◌↔◌, length, IfErr, IfOk, IsTrue};
ghost use Rattle.std.specs.List.{AllByRecursion};
ghost use Rattle.warm_history.specs.Histories.{entries_of};
ghost use Rattle.warm_pool.specs.View.{view_of};
ghost use Rattle.warm_shards.specs.EachShard.{OfEach, Rises};
ghost use Rattle.warm_shards.specs.Shards.{HasPagesOf, HoldsShard, whole};
ghost use Rattle.warm_shards.specs.ShardsOfNodes.{AreOwnOf, CanBeShards, IsFormingRefused};
ghost use Rattle.warm_shards.specs.ShardsOfNodes.{IsOwnIfResident};
ghost use Rattle.warm_visits.specs.ShardNumbers.{IsShardCount, shard_of};

use crate::each_shard::raise_first;
use crate::fault::{ShardsError, ShardsFault};
use crate::shards::Shards;
use std::alloc::Global;
use warm_devices::PageDevice;
use warm_gossip::Node;
use warm_history::History;
use warm_pool::Pool;
use warm_stamps::{PageId, ReplicaId};
use warm_visits::{is_shard_count, shard_of};

// Whether all entries of a history are of pages of this shard.
fn knows_only(history: &History, count: usize, shard: usize) -> bool
    requires { IsShardCount count }
    ensures { IsTrue result
        ↔ AllByRecursion (λ e. shard_of count e.page ≡ shard) (entries_of history.now) }
{
    for entry in history.iter() {
        if shard_of(count, entry.page) != shard {
            return false;
        }
    }
    true
}

// Whether a page is of this shard, or in no frame.
fn is_own<D: PageDevice>(pool: &Pool<D>, page: PageId, count: usize, shard: usize) -> bool
    requires { IsShardCount count }
    ensures { IsTrue result ↔ IsOwnIfResident count shard (view_of pool.now) page }
{
    if shard_of(count, page) == shard {
        return true;
    }
    !pool.resident(page)
}

// Whether this is so of the first pages of a device.
fn are_own_of<D: PageDevice>(
    pool: &Pool<D>,
    dev: u16,
    pages: u64,
    count: usize,
    shard: usize,
) -> bool
    requires { IsShardCount count }
    ensures { IsTrue result ↔ AreOwnOf count shard (view_of pool.now) dev pages }
{
    for no in 0..pages {
        if !is_own(pool, PageId { dev, no }, count, shard) {
            return false;
        }
    }
    true
}

// Whether pages of this shard alone are in a pool. A page in a frame is one that a device has.
fn keeps_only<D: PageDevice>(pool: &Pool<D>, count: usize, shard: usize) -> bool
    requires { IsShardCount count }
    ensures { IsTrue result ↔ HasPagesOf count shard (view_of pool.now) }
{
    pool.prove_is_pool();
    let devices = pool.devices();
    for dev in 0..devices.len() {
        if !are_own_of(pool, dev as u16, devices[dev].pages(), count, shard) {
            return false;
        }
    }
    true
}

// Whether a node knows pages of this shard alone, and no other page is in its pool.
fn holds_shard<D: PageDevice>(node: &Node<D>, count: usize, shard: usize) -> bool
    requires { IsShardCount count }
    ensures { IsTrue result ↔ HoldsShard count shard node.now }
{
    if !knows_only(node.history(), count, shard) {
        return false;
    }
    keeps_only(node.pool(), count, shard)
}

// Whether each node has this id, and holds the pages of its shard alone.
fn can_be_shards<D: PageDevice>(nodes: &Vec<Node<D>>, id: ReplicaId) -> bool
    requires { IsShardCount (length nodes.now.items) }
    ensures { IsTrue result ↔ CanBeShards id nodes.now.items }
{
    let count = nodes.len();
    for shard in 0..count {
        if nodes[shard].id().get() != id.get() {
            return false;
        }
        if !holds_shard(&nodes[shard], count, shard) {
            return false;
        }
    }
    true
}

// The latest horizon of all nodes.
fn latest_horizon<D: PageDevice>(nodes: &Vec<Node<D>>) -> u64
    ensures { result ≡ (whole nodes.now.items).horizon }
{
    let mut latest = 0;
    let count = nodes.len();
    for shard in 0..count {
        latest = nodes[shard].history().horizon().max(latest);
    }
    latest
}

impl<D: PageDevice> Shards<D> {
    /// The shards of the replica of this number over nodes that have run, that of shard 0 first: as
    /// those that [`Shards::into_nodes`] returns. Each node has this number, and references to
    /// pages of its shard alone, and no other page is in its pool. Allocation-free.
    ///
    /// The horizons of the nodes may differ: each is raised to the latest of them, as references
    /// before that are forgotten by all shards. Nothing else changes that a caller sees.
    ///
    /// The entries of each history are read, and each page that a device of a node has is looked up
    /// in its pool: the cost is linear in both. A replica that starts empty uses [`Shards::new`].
    ///
    /// # Errors
    /// In this order: `BadCount`, if there cannot be this many shards; `NotShards`, if a node is
    /// not such a shard. The nodes are given back, unchanged.
    pub fn from_nodes(
        alloc: Global,
        id: ReplicaId,
        mut nodes: Vec<Node<D>>,
    ) -> Result<Shards<D>, ShardsError<D>>
        ensures formed { IfOk result (λ shards. CanBeShards id nodes.items) }
        ensures raised { IfOk result (λ shards.
            OfEach (Rises (whole nodes.items).horizon) nodes.items shards) }
        ensures whole { IfOk result (λ shards. whole shards ≡ whole nodes.items) }
        ensures refused { IfErr result (λ unmade. IsFormingRefused id nodes.items unmade.fault
            × (unmade.nodes.items ≡ nodes.items)) }
    {
        if !is_shard_count(nodes.len()) {
            return Err(ShardsError {
                fault: ShardsFault::BadCount,
                nodes,
            });
        }
        if !can_be_shards(&nodes, id) {
            return Err(ShardsError {
                fault: ShardsFault::NotShards,
                nodes,
            });
        }
        let horizon = latest_horizon(&nodes);
        let count = nodes.len();
        raise_first(&mut nodes, count, horizon);
        Ok(Shards { alloc, nodes })
    }
}
