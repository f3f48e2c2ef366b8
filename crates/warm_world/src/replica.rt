//! A replica: its node and its workers' buffers.
ghost use Rattle.std.specs.Prelude.{◌≡◌, ℕ, ◌+◌, ◌<◌, ◌≤◌, [], length, map};
ghost use Rattle.std.specs.Prelude.{OnOk, OnErr, IfOk, IfErr, replicate};
ghost use Rattle.warm_stamps.specs.declared.Reference.{Reference};
ghost use Rattle.warm_refbuffer.specs.Buffered.{IsCapacity};
ghost use Rattle.warm_pool.specs.declared.TheConstants.{MAX_DEVICES};
ghost use Rattle.warm_gossip.specs.declared.fault.NodeFault.TheVariants.{Memory};
ghost use Rattle.warm_world.specs.States.{flushed, opened_over, referred};
ghost use Rattle.warm_world.specs.Effects.{stamped};
ghost use Rattle.warm_world.specs.Views.{replica_view};
ghost use Rattle.warm_world.specs.WorldStands.{buffered, ReplicaStands, Becomes, IsBufferFull};
ghost use Rattle.warm_refbuffer.specs.Buffered.{cleared};
ghost use Rattle.warm_world.specs.Replicas.{Restarts};

use crate::nodes::node_over;
use crate::setup::Setup;
use std::alloc::{AllocError, Global};
use warm_devices::PageDevice;
use warm_gossip::{Node, NodeFault};
use warm_refbuffer::{BufferFault, RefBuffer};
use warm_stamps::{PageId, Reference, ReplicaId, Stamp};

/// A node, and its workers' buffers: the references that have not reached it yet.
#[derive(Drop)]
pub(crate) struct WorldReplica<D: PageDevice> {
    pub(crate) node: Node<D>,
    pub(crate) buffers: Vec<RefBuffer>,
}

// A buffer's capacity is within its limits, so only an allocation can fail.
fn empty_buffer(alloc: Global, capacity: usize) -> Result<RefBuffer, AllocError>
    requires { IsCapacity capacity }
    ensures { IfOk result (λ b. b ≡ buffered capacity []) }
{
    match RefBuffer::new(alloc, capacity) {
        Ok(buffer) => Ok(buffer),
        Err(BufferFault::Memory) => Err(AllocError),
        Err(BufferFault::BadCapacity) => unreachable!(),
    }
}

fn empty_buffers(alloc: Global, workers: u16, capacity: usize) -> Result<Vec<RefBuffer>, AllocError>
    requires { IsCapacity capacity }
    ensures { IfOk result (λ v. v.items ≡ replicate workers (buffered capacity [])) }
{
    let mut buffers = Vec::with_capacity(alloc, workers as usize)?;
    for _worker in 0..workers {
        buffers.push(empty_buffer(alloc, capacity)?)?;
    }
    Ok(buffers)
}

impl<D: PageDevice> WorldReplica<D> {
    /// A replica that no reference has reached, over a pool without a page. The devices' pages have
    /// the setup's size.
    ///
    /// Fails if an allocation fails.
    pub(crate) fn new(
        alloc: Global,
        id: ReplicaId,
        setup: Setup,
        devices: Vec<D>,
    ) -> Result<Self, AllocError>
        requires { length devices.items ≤ MAX_DEVICES }
        ensures { (index : ℕ) → id ≡ index + 1
            → IfOk result (λ r. ReplicaStands setup.buffer index (replica_view r)
            (opened_over setup (map D.state devices.items))) }
    {
        let node = node_over(alloc, id, setup, devices)?;
        let buffers = empty_buffers(alloc, setup.workers(), setup.buffer() as usize)?;
        Ok(WorldReplica { node, buffers })
    }

    /// Flushes a worker's buffer into the node.
    pub(crate) fn flush(&mut self, worker: usize) -> Result<(), NodeFault>
        requires there { worker < length self.old.buffers.items }
        ensures ok { (capacity : ℕ) → OnOk result (Becomes capacity (replica_view self.old)
            (replica_view self.new) (flushed worker)) }
        ensures err { IfErr result (λ why. (why ≡ Memory)
            × (replica_view self.new ≡ replica_view self.old)) }
        ensures same { length self.new.buffers.items ≡ length self.old.buffers.items }
    {
        self.node.absorb(self.buffers[worker].refs())?;
        self.buffers[worker].clear();
        Ok(())
    }

    /// A worker references a page: its buffer is flushed first if it is full.
    pub(crate) fn refer(&mut self, worker: usize, page: PageId, time: u64) -> Result<(), NodeFault>
        requires there { worker < length self.old.buffers.items }
        ensures ok { (capacity : ℕ) (made : Reference) → made ≡ stamped self.old.node.id page time
            → OnOk result (Becomes capacity (replica_view self.old)
            (replica_view self.new) (referred capacity worker made)) }
        ensures err { IfErr result (λ why. (why ≡ Memory)
            × (replica_view self.new ≡ replica_view self.old)) }
        ensures full { OnErr result (IsBufferFull (replica_view self.old) worker) }
    {
        let stamp = Stamp {
            time,
            replica: self.node.id(),
        };
        let Err(full) = self.buffers[worker].touch(Reference { page, stamp }) else {
            return Ok(());
        };
        self.flush(worker)?;
        self.buffers[worker].start_with(full.0);
        Ok(())
    }

    /// Restarts the node and empties the buffers.
    pub(crate) fn restart(&mut self) -> Result<(), NodeFault>
        ensures { Restarts (replica_view self.old) result
            (replica_view self.new) }
    {
        self.node.restart()?;
        clear_all(&mut self.buffers);
        Ok(())
    }
}

fn clear_all(buffers: &mut Vec<RefBuffer>)
    ensures { buffers.new.items ≡ map cleared buffers.old.items }
{
    for buffer in buffers.iter_mut() {
        buffer.clear();
    }
}
