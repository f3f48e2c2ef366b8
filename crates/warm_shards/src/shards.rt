//! The shards of a replica.
ghost use Rattle.std.specs.Prelude.{◌≡◌, ◌↔◌, ◌<◌, ◌*◌, [], length, IfErr, IfOk, IsTrue};
ghost use Rattle.std.specs.List.{All};
ghost use Rattle.warm_history.specs.Histories.{history_of_entries};
ghost use Rattle.warm_gossip.specs.declared.fault.NodeFault.TheVariants.{Memory};
ghost use Rattle.warm_shards.specs.Dividing.{IsDivisionRefused, IsOpeningRefused};
ghost use Rattle.warm_shards.specs.Shards.{AreOpened, AreShards, IsOpened, shard_at, whole};
ghost use Rattle.warm_visits.specs.ShardNumbers.{IsShardCount, shard_of};

use crate::fault::{ShardsError, ShardsFault};
use std::alloc::{AllocError, Global};
use std::marker::Model;
use warm_devices::PageDevice;
use warm_gossip::Node;
use warm_history::History;
use warm_stamps::{PageId, ReplicaId};
use warm_visits::{is_shard_count, shard_of};

/// The shards of one replica: nodes of one id, as many as a power of two up to 64. Each has the
/// references to the pages of its buckets, and these pages in its pool.
///
/// All shards have the same horizon: whatever raises it, raises it in each of them.
///
/// Contracts see the list of the nodes, that of shard 0 first.
pub struct Shards<D: PageDevice> {
    pub(crate) alloc: Global,
    pub(crate) nodes: Vec<Node<D>>,
}

impl<D: PageDevice> Drop for Shards<D> {
    fn drop(self) {
        let Self { alloc: _, nodes } = self;
        drop(nodes);
    }
}

impl<D: PageDevice> Model for Shards<D> {
    ghost use Rattle.std.specs.Prelude.{List};
    ghost use Rattle.warm_gossip.specs.State.{NodeState};
    ghost use Rattle.warm_shards.specs.Shards.{AreShards};

    ghost Value = { List NodeState };

    ghost view = { λ s. s.nodes.items };

    ghost invariant = { λ s. AreShards s.nodes.items };
}

/// How many frames each shard has if this many are divided among this many shards. Allocation-free.
///
/// # Errors
/// In this order: `BadCount`, if there cannot be this many shards; `Uneven`, if the frames cannot
/// be divided evenly.
pub fn frames_of_shard(frames: usize, shards: usize) -> Result<usize, ShardsFault>
    ensures divided { IfOk result (λ each. IsShardCount shards × (each * shards ≡ frames)) }
    ensures refused { IfErr result (IsDivisionRefused frames shards) }
{
    if !is_shard_count(shards) {
        return Err(ShardsFault::BadCount);
    }
    if frames % shards != 0 {
        return Err(ShardsFault::Uneven);
    }
    Ok(frames / shards)
}

impl<D: PageDevice> Shards<D> {
    /// The shards of the replica of this number over these nodes, that of shard 0 first. Each node
    /// has this number, has received no reference, and no page is in its pool. Allocation-free.
    ///
    /// # Errors
    /// In this order: `BadCount`, if there cannot be this many shards; `NotOpened`, if a node is
    /// not opened so. The nodes are given back.
    pub fn new(
        alloc: Global,
        id: ReplicaId,
        nodes: Vec<Node<D>>,
    ) -> Result<Shards<D>, ShardsError<D>>
        ensures nodes { IfOk result (λ shards. shards ≡ nodes.items) }
        ensures opened { IfOk result (λ shards. AreOpened id shards) }
        ensures empty { IfOk result (λ shards. whole shards ≡ history_of_entries []) }
        ensures refused { IfErr result (λ unmade. IsOpeningRefused id nodes.items unmade.fault
            × (unmade.nodes.items ≡ nodes.items)) }
    {
        if !is_shard_count(nodes.len()) {
            return Err(ShardsError {
                fault: ShardsFault::BadCount,
                nodes,
            });
        }
        if !are_opened(&nodes, id) {
            return Err(ShardsError {
                fault: ShardsFault::NotOpened,
                nodes,
            });
        }
        Ok(Shards { alloc, nodes })
    }

    /// How many shards there are. The clause `shards` is the invariant of the type, for a caller
    /// that needs it.
    pub fn count(&self) -> usize
        ensures value { result ≡ length self.now }
        ensures valid { IsShardCount result }
        ensures shards { AreShards self.now }
    {
        self.nodes.len()
    }

    /// The shard of a page.
    pub fn shard_of(&self, page: PageId) -> usize
        ensures value { result ≡ shard_of (length self.now) page }
        ensures below { result < length self.now }
    {
        shard_of(self.nodes.len(), page)
    }

    /// One of the shards: its history, its pool, its victim.
    pub fn shard(&self, shard: usize) -> &Node<D>
        requires { shard < length self.now }
        ensures { result.now ≡ shard_at self.now shard }
    {
        &self.nodes[shard]
    }

    /// The replica's number.
    pub fn id(&self) -> ReplicaId
        ensures { result ≡ (shard_at self.now 0).id }
    {
        self.nodes[0].id()
    }

    /// The time before which references are forgotten.
    pub fn horizon(&self) -> u64
        ensures { result ≡ (whole self.now).horizon }
    {
        self.nodes[0].history().horizon()
    }

    /// A copy of the history of all shards: their entries together. A dump of it is a dump of the
    /// replica.
    ///
    /// `AllocError` occurs only if an allocation fails.
    pub fn history(&self) -> Result<History, AllocError>
        ensures { IfOk result (λ copy. copy ≡ whole self.now) }
    {
        joined(self.alloc, &self.nodes)
    }

    /// Takes the shards apart and returns their nodes.
    pub fn into_nodes(self) -> Vec<Node<D>>
        ensures { result.items ≡ self }
    {
        let Shards { alloc: _, nodes } = self;
        nodes
    }
}

// Whether the node of this number has received no reference, and no page is in its pool.
fn is_opened<D: PageDevice>(node: &Node<D>, id: ReplicaId) -> bool
    ensures { IsTrue result ↔ IsOpened id node.now }
{
    let history = node.history();
    if node.id().get() != id.get() {
        return false;
    }
    if !history.is_empty() {
        return false;
    }
    if history.horizon() != 0 {
        return false;
    }
    node.pool().resident_count() == 0
}

// Whether this is so of each node.
fn are_opened<D: PageDevice>(nodes: &[Node<D>], id: ReplicaId) -> bool
    ensures { IsTrue result ↔ All (IsOpened id) nodes.now }
{
    for node in nodes {
        if !is_opened(node, id) {
            return false;
        }
    }
    true
}

// The join of the histories of all nodes.
fn joined<D: PageDevice>(alloc: Global, nodes: &Vec<Node<D>>) -> Result<History, AllocError>
    ensures { IfOk result (λ copy. copy ≡ whole nodes.now.items) }
{
    let mut all = History::new(alloc);
    let count = nodes.len();
    for shard in 0..count {
        all.join(nodes[shard].history())?;
    }
    Ok(all)
}
