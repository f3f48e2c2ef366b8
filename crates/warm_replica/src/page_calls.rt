//! Looking at a pinned page of a replica and changing it where it lies, each in one turn.
//!
//! A turn is one call of the history, and no call of a node pins a page and unpins it. So the
//! caller pins, as for `Read` and `Write`.
ghost use Rattle.std.specs.Prelude.{◌≡◌, IfErr, IfOk};
ghost use Rattle.std.specs.Fn.{FnOnceReturnsAt, FnOnceReturnsAtMut};
ghost use Rattle.warm_replica.specs.LentPages.{LendFails, WorkerChanges, WorkerLooks};

use crate::fault::LendFault;
use crate::visitors::{SlotChange, SlotLook};
use crate::worker::Worker;
use std::sync::Wait;
use warm_devices::PageDevice;
use warm_gossip::Node;
use warm_pool::Slot;
use warm_turn::Turn;

impl<D: PageDevice + Send> Worker<Node<D>> {
    /// Calls the closure with all bytes of the slot's page where they lie, and returns what it
    /// returns: one turn, in which the node answers the call `Read` of these bytes. The page stays
    /// pinned. Nothing is copied. Allocation-free.
    ///
    /// The closure has the node: other callers wait until it returns, and a closure that calls this
    /// replica waits forever.
    ///
    /// # Errors
    /// The closure is dropped, and was not called.
    /// - `StaleSlot`: the slot doesn't hold its page. The call in the history is a `Read` of no
    ///   bytes, which the node refused. The node is unchanged.
    /// - `TurnsSpent`: no ticket was left for a turn, and none is left for any later call of this
    ///   worker. The node was not called.
    pub fn look<R: Wait, T, F: FnOnce(&[u8]) -> T + Drop>(
        &mut self,
        rt: &R,
        replica: &Turn<Node<D>>,
        slot: Slot,
        f: F,
    ) -> Result<T, LendFault>
        requires table { self.old.pass.table ≡ replica.now.table }
        requires callable { F.IsAlwaysCallable f }
        ensures table { self.new.pass.table ≡ self.old.pass.table }
        ensures buffer { self.new.buffer ≡ self.old.buffer }
        ensures looked { IfOk result (λ given. WorkerLooks self.old.pass.view slot
            (λ bytes. FnOnceReturnsAt F.FnOnce f bytes given) self.new.pass.view) }
        ensures refused { IfErr result (λ why.
            LendFails self.old.pass.view slot why self.new.pass.view) }
    {
        let output = replica.visit(rt, &mut self.pass, SlotLook { slot, f })?;
        match output {
            Some(given) => Ok(given),
            None => Err(LendFault::StaleSlot),
        }
    }

    /// Calls the closure with all bytes of the slot's page where they lie, to be written to, and
    /// returns what it returns: one turn, in which the node answers the call `Write` of what the
    /// closure leaves in them. The page becomes dirty, even if nothing is written: it is written
    /// back before it is evicted. It stays pinned. Nothing is copied. Allocation-free.
    ///
    /// The closure sees the page's content in this turn. The history has what it left, and not what
    /// it saw: a `Write` names no earlier bytes.
    ///
    /// The closure has the node: other callers wait until it returns, and a closure that calls this
    /// replica waits forever.
    ///
    /// # Errors
    /// Those of [`Worker::look`], with the same effects.
    pub fn change<R: Wait, T, F: FnOnce(&mut [u8]) -> T + Drop>(
        &mut self,
        rt: &R,
        replica: &Turn<Node<D>>,
        slot: Slot,
        f: F,
    ) -> Result<T, LendFault>
        requires table { self.old.pass.table ≡ replica.now.table }
        requires callable { F.IsAlwaysCallable f }
        ensures table { self.new.pass.table ≡ self.old.pass.table }
        ensures buffer { self.new.buffer ≡ self.old.buffer }
        ensures changed { IfOk result (λ given. WorkerChanges self.old.pass.view slot
            (λ before after. FnOnceReturnsAtMut F.FnOnce f before given after)
            self.new.pass.view) }
        ensures refused { IfErr result (λ why.
            LendFails self.old.pass.view slot why self.new.pass.view) }
    {
        let output = replica.visit(rt, &mut self.pass, SlotChange { slot, f })?;
        match output {
            Some(given) => Ok(given),
            None => Err(LendFault::StaleSlot),
        }
    }
}
