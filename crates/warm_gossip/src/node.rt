//! The node.
ghost use Rattle.std.specs.Prelude.{◌≡◌};
ghost use Rattle.warm_pool.specs.State.{IsRankedByAll};
ghost use Rattle.warm_gossip.specs.State.{opened_node, peer_of};
ghost use Rattle.warm_gossip.specs.Clauses.{Answered, DevicesAfter, DevicesAnswered, Goes};
ghost use Rattle.warm_gossip.specs.Clauses.{IsOtherThanAbsorb};

use crate::call::{Call, Reply};
use crate::fault::NodeFault;
use crate::warm_step::WarmUp;
use std::alloc::Global;
use std::marker::Model;
use warm_devices::PageDevice;
use warm_history::History;
use warm_peer::Peer;
use warm_pool::Pool;
use warm_stamps::ReplicaId;

/// One replica: the history of the references that it received, and its buffer pool, which that
/// history ranks.
///
/// It is a [`Peer`] beside a pool. It caches the digests of its history until an entry changes or it
/// restarts, and its warm-up list, into which it merges the pages of references that came since
/// ([`Node::warm_step`]). Calls that bring nothing new, as repeated gossip does, keep both: no
/// offer and no warm-up step then recomputes them.
///
/// A pin is not a reference: pages are ranked by the references that the node absorbed. A caller
/// that pins a page also absorbs one.
///
/// Contracts see a node as plain data, with the invariant that its pool is ranked by its history.
/// What a caller sees of it is its `node_view`, which does not include the progress of a warm-up.
pub struct Node<D: PageDevice> {
    pub(crate) alloc: Global,
    pub(crate) peer: Peer,
    pub(crate) pool: Pool<D>,
    pub(crate) warm_up: WarmUp,
}

// Written by hand, so that an owner makes one call on each exit path (see `History`).
impl<D: PageDevice> Drop for Node<D> {
    fn drop(mut self) {
        let Self {
            alloc: _,
            peer,
            pool,
            warm_up,
        } = self;
        drop(peer);
        drop(pool);
        drop(warm_up);
    }
}

impl<D: PageDevice> Model for Node<D> {
    ghost use Rattle.warm_pool.specs.State.{RankedBy};
    ghost use Rattle.warm_pool.specs.View.{view_of};
    ghost use Rattle.warm_gossip.specs.State.{NodeState, node_of};
    ghost use Rattle.warm_gossip.specs.WarmingUp.{IsWarming};

    ghost Value = { NodeState };

    ghost view = { λ n. node_of n.peer n.pool };

    ghost invariant = { λ n. RankedBy n.pool n.peer.history
        × IsWarming n.peer.history (view_of n.pool) n.warm_up };
}

impl<D: PageDevice> Node<D> {
    /// A node without references, over a pool without pages. Allocation-free.
    pub fn new(alloc: Global, id: ReplicaId, pool: Pool<D>) -> Node<D>
        requires { IsRankedByAll pool }
        ensures { result ≡ opened_node id pool }
    {
        Node {
            alloc,
            peer: Peer::new(alloc, id),
            pool,
            warm_up: WarmUp::new(alloc),
        }
    }

    /// Its replica number.
    pub fn id(&self) -> ReplicaId
        ensures { result ≡ self.now.id }
    {
        self.peer.id()
    }

    /// Its history as other replicas meet it.
    pub fn peer(&self) -> &Peer
        ensures { result.now ≡ peer_of self.now }
    {
        &self.peer
    }

    /// The history of the references that it received.
    pub fn history(&self) -> &History
        ensures { result.now ≡ self.now.history }
    {
        self.peer.history()
    }

    /// Its pool.
    pub fn pool(&self) -> &Pool<D>
        ensures { result.now ≡ self.now.pool }
    {
        &self.pool
    }

    /// Answers a call.
    ///
    /// The definition *step* gives the effect of each call, and its refusals in their order: a
    /// refused call changes nothing that a caller sees but counts of failures. `Memory` occurs only
    /// if an allocation fails; pin, unpin, write, victim, horizon and restart are
    /// allocation-free.
    ///
    /// No call makes a page dirty but a write. Only pins, warm-up steps and restarts use the
    /// devices: they read the page that is loaded, and write back the dirty page that is evicted;
    /// a restart writes back all dirty pages and flushes. Any other call leaves devices and dirty
    /// flags as they are.
    pub fn call(&mut self, call: Call) -> Reply
        ensures step { Goes self.old call result self.new }
        ensures devices { DevicesAfter self.old call result self.new }
    {
        // The most frequent call is answered here: `answer` would move space for a reply's message,
        // 2 KB.
        if let Call::Absorb(batch) = call {
            return match self.absorb(batch.as_slice()) {
                Ok(()) => Reply::Done,
                Err(refused) => Reply::Refused(refused),
            };
        }
        match self.answer(call) {
            Ok(reply) => reply,
            Err(fault) => Reply::Refused(fault),
        }
    }

    // Answers any other call than `Absorb`, or returns why it is refused.
    fn answer(&mut self, call: Call) -> Result<Reply, NodeFault>
        requires other { IsOtherThanAbsorb call }
        ensures step { Answered self.old call (λ reply. reply) result self.new }
        ensures devices { DevicesAnswered self.old call (λ reply. reply) result self.new }
    {
        match call {
            Call::Absorb(_) => unreachable!(),
            Call::Send { bucket, after } => Ok(Reply::Sent(self.send(bucket, after)?)),
            Call::Offer => Ok(Reply::Sent(self.offer()?)),
            Call::Receive(message) => Ok(Reply::Answers(self.receive(message)?)),
            Call::Horizon(time) => Ok(Reply::Kept(self.raise(time))),
            Call::Pin(page) => Ok(Reply::Pinned(self.pin(page)?)),
            Call::Unpin(slot) => {
                self.unpin(slot)?;
                Ok(Reply::Done)
            }
            Call::Read { slot, at, len } => Ok(Reply::Bytes(self.read(slot, at, len)?)),
            Call::Write { slot, at, bytes } => {
                self.write(slot, at, bytes.as_slice())?;
                Ok(Reply::Done)
            }
            Call::Victim => Ok(Reply::Page(self.victim())),
            Call::WarmList(n) => Ok(Reply::Pages(self.warm_list(n)?)),
            Call::WarmStep => Ok(Reply::Loaded(self.warm_step()?)),
            Call::Restart => {
                self.restart()?;
                Ok(Reply::Done)
            }
        }
    }

    /// Takes the node apart and returns its pool.
    pub fn into_pool(self) -> Pool<D>
        ensures { result ≡ self.pool }
    {
        let Node {
            alloc: _,
            peer: _,
            pool,
            warm_up: _,
        } = self;
        pool
    }
}
