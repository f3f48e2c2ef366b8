//! The bytes of the pages of shards, lent.
ghost use Rattle.std.specs.Prelude.{◌≡◌, ◌<◌, length, vec_len, IfErr, IfOk};
ghost use Rattle.std.specs.Borrow.{sem};
ghost use Rattle.warm_pool.specs.PageBytes.{IsLent};
ghost use Rattle.warm_pool.specs.View.{Holds, view_of};
ghost use Rattle.warm_gossip.specs.declared.fault.NodeFault.TheVariants.{StaleSlot};
ghost use Rattle.warm_shards.specs.Lending.{LendsPageIn, LendsShardPage};
ghost use Rattle.warm_shards.specs.Shards.{shard_at};

use crate::pool_calls::ShardSlot;
use crate::shards::Shards;
use warm_devices::PageDevice;
use warm_gossip::{Node, NodeFault};

// Lends the bytes of a page of one of the nodes.
fn bytes_mut_in<D: PageDevice>(nodes: &mut Vec<Node<D>>, at: ShardSlot) -> &mut [u8]
    requires there { at.shard < vec_len nodes.old }
    requires holds { Holds (view_of (shard_at nodes.old.items at.shard).pool) at.slot }
    ensures* writes_back { sem 𝓛 (LendsPageIn D.row D.PageDevice nodes.entry at.shard at.slot.index
        result) }
    ensures lent { IsLent (view_of (shard_at nodes.old.items at.shard).pool) at.slot result.now }
{
    nodes[at.shard].bytes_mut(at.slot)
}

impl<D: PageDevice> Shards<D> {
    /// All bytes of the slot's page. Nothing is copied. Allocation-free.
    ///
    /// # Errors
    /// `StaleSlot`: there is no such shard, or the slot doesn't hold its page there.
    pub fn bytes(&self, at: ShardSlot) -> Result<&[u8], NodeFault>
        ensures lent { let pool = view_of (shard_at self.now at.shard).pool in
            IfOk result (λ bytes. Holds pool at.slot × IsLent pool at.slot bytes.now) }
        ensures refused { let pool = view_of (shard_at self.now at.shard).pool in
            IfErr result (λ why. (why ≡ StaleSlot) × (Holds pool at.slot → ⊥)) }
    {
        if at.shard >= self.nodes.len() {
            return Err(NodeFault::StaleSlot);
        }
        self.nodes[at.shard].bytes(at.slot)
    }

    /// All bytes of the slot's page, to be written to. Nothing is copied. The page becomes dirty,
    /// even if nothing is written: it is written back before it is evicted. Allocation-free.
    ///
    /// The slot must hold its page: [`warm_pool::Pool::holds`] of the shard's pool tells.
    pub fn bytes_mut(&mut self, at: ShardSlot) -> &mut [u8]
        requires there { at.shard < length self.old }
        requires holds { Holds (view_of (shard_at self.old at.shard).pool) at.slot }
        ensures* writes_back { sem 𝓛 (LendsShardPage D.row D.PageDevice self.entry at.shard
            at.slot.index result) }
        ensures lent { IsLent (view_of (shard_at self.old at.shard).pool) at.slot result.now }
    {
        bytes_mut_in(&mut self.nodes, at)
    }
}
