//! A worker of a replica: a pass of its own, and a buffer of references.
ghost use Rattle.std.specs.Prelude.{◌≡◌, ◌≤◌, ◌<◌, length, Err, IsOk, IfOk, IfErr, OnOk};
ghost use Rattle.warm_turn.specs.CallHistories.{Called, as_spent};
ghost use Rattle.warm_refbuffer.specs.Buffered.{with_last};
ghost use Rattle.warm_replica.specs.Working.{Flushes, KeepsBatch};

use crate::fault::FlushFault;
use std::alloc::{AllocError, Global};
use std::marker::Model;
use std::sync::Wait;
use warm_devices::PageDevice;
use warm_gossip::{Call, Node, Reply};
use warm_refbuffer::{Full, RefBuffer};
use warm_stamps::{RefList, Reference};
use warm_turn::{Machine, Pass, Turn, TurnsSpent};

/// A machine that answers the calls of a node, and refuses a batch of references only because of an
/// allocation failure. Flushes and jobs require it, so that a refused flush has one meaning.
pub trait BatchMachine: Machine<Call = Call, Reply = Reply> {
    ghost use Rattle.warm_gossip.specs.Batches.{TakesBatches};

    // A batch is absorbed, or refused because of an allocation failure.
    ghost absorbs: { TakesBatches Self.Machine.goes };
}

impl<D: PageDevice + Send> BatchMachine for Node<D> {
    ghost use Rattle.warm_gossip.proofs.BatchLemmas.{batches_are_taken};

    ghost absorbs = { batches_are_taken };
}

/// A worker of a replica: a thread's own pass, and the references that it has made since its last
/// flush.
///
/// Contracts see its `pass` and its `buffer`. A worker that is dropped loses the references in its
/// buffer, and leaves its calls in the history.
#[derive(Drop)]
pub struct Worker<M: Machine> {
    pub(crate) pass: Pass<M>,
    buffer: RefBuffer,
}

impl<M: Machine> Model for Worker<M> {
    ghost use Rattle.warm_replica.specs.Working.{Working};

    ghost Value = { Working M.State M.Call M.Reply };

    ghost view = { λ w. record { pass = w.pass; buffer = w.buffer } };
}

// A copy of the references as a list.
fn batch_of(alloc: Global, refs: &[Reference]) -> Result<RefList, AllocError>
    ensures { IfOk result (λ batch. batch ≡ refs.now) }
{
    let mut batch = Vec::with_capacity(alloc, refs.len())?;
    batch.extend_from_slice(refs)?;
    Ok(RefList::of(batch))
}

impl<M: Machine<Call = Call, Reply = Reply>> Worker<M> {
    /// A worker of these parts. Allocation-free.
    pub fn new(pass: Pass<M>, buffer: RefBuffer) -> Worker<M>
        ensures { result ≡ record { pass = pass; buffer = buffer } }
    {
        Worker { pass, buffer }
    }

    /// Its parts. Allocation-free.
    pub fn into_parts(self) -> (Pass<M>, RefBuffer)
        ensures { result ≡ (self.pass, self.buffer) }
    {
        (self.pass, self.buffer)
    }

    /// Puts a reference last in the buffer. It is allocation-free and never waits: it shares
    /// nothing with other workers. A full buffer gives the reference back and is unchanged.
    pub fn touch(&mut self, reference: Reference) -> Result<(), Full>
        ensures pass { self.new.pass ≡ self.old.pass }
        ensures taken { length self.old.buffer.refs < self.old.buffer.capacity
            → IsOk result
            × (self.new.buffer ≡ with_last self.old.buffer reference) }
        ensures full { self.old.buffer.capacity ≤ length self.old.buffer.refs
            → (result ≡ Err (record { 0 = reference }))
            × (self.new.buffer ≡ self.old.buffer) }
    {
        self.buffer.touch(reference)
    }

    /// Makes a call in a turn of its own, and may wait for it. The buffer is unchanged, even if
    /// the call absorbs references.
    ///
    /// # Errors
    /// `TurnsSpent` gives the call back: no ticket was left for it, and none is left for any later
    /// call of this worker. The machine has not seen the call.
    pub fn call<R: Wait>(
        &mut self,
        rt: &R,
        replica: &Turn<M>,
        call: Call,
    ) -> Result<Reply, TurnsSpent<Call>>
        requires { self.old.pass.table ≡ replica.now.table }
        ensures table { self.new.pass.table ≡ self.old.pass.table }
        ensures buffer { self.new.buffer ≡ self.old.buffer }
        ensures ok { IfOk result
            (λ r. Called M.goes self.old.pass.view call r self.new.pass.view) }
        ensures back { IfErr result (λ spent. spent.call ≡ call) }
        ensures spent { IfErr result (λ _. self.new.pass.view ≡ as_spent self.old.pass.view) }
    {
        replica.call(rt, &mut self.pass, call)
    }
}

impl<M: BatchMachine> Worker<M> {
    /// Has the replica absorb the whole buffer in one turn, and empties the buffer. It may wait for
    /// the turn.
    ///
    /// # Errors
    /// `Memory`: an allocation failed, for the batch or of the machine. `TurnsSpent`: no ticket was
    /// left. The buffer is unchanged.
    pub fn flush<R: Wait>(
        &mut self,
        rt: &R,
        alloc: Global,
        replica: &Turn<M>,
    ) -> Result<(), FlushFault>
        requires { self.old.pass.table ≡ replica.now.table }
        ensures table { self.new.pass.table ≡ self.old.pass.table }
        ensures flushed { OnOk result (Flushes M.goes self.old self.new) }
        ensures kept { IfErr result (λ fault. KeepsBatch M.goes self.old fault self.new) }
    {
        let batch = batch_of(alloc, self.buffer.refs())?;
        let reply = replica.call(rt, &mut self.pass, Call::Absorb(batch))?;
        if let Reply::Done = reply {
            self.buffer.clear();
            return Ok(());
        }
        Err(FlushFault::Memory)
    }
}
