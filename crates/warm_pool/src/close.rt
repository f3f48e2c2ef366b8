//! Emptying a pool, and closing it: its devices are handed back, or dropped.
ghost use Rattle.std.specs.Prelude.{map, OnOk, IfOk, IfErr, MatchBool};
ghost use Rattle.warm_frame_table.specs.declared.selection.Devices.TheVariants.{All};
ghost use Rattle.warm_pool.specs.View.{IsUnfixed, view_of};
ghost use Rattle.warm_pool.specs.Unchanged.{KeepsRanks};
ghost use Rattle.warm_pool.specs.steps.WritingBack.{WritesBackAll};
ghost use Rattle.warm_pool.specs.Retiring.{EmptyRefused};
ghost use Rattle.warm_pool.specs.steps.Retiring.{AreUnfixed, IsFixedIn};
ghost use Rattle.warm_pool.specs.Calls.{FlushesOnce};
ghost use Rattle.warm_pool.specs.steps.Flushes.{NoneWaits};
ghost use Rattle.warm_pool.specs.Outcomes.{EmptiesPool, EmptyFails, GivesDevices};

use crate::fault::PoolFault;
use crate::pool::Pool;
use std::fmt;
use thiserror::Error;
use warm_devices::{PageDevice, let_go};
use warm_frame_table::{Devices, Frames};

/// Why a pool was not closed and its devices not given back, and the pool. As an error it displays
/// the fault.
#[derive(Drop, Error)]
#[error("{fault}")]
pub struct CloseError<D: PageDevice> {
    /// The reason: `Fixed` or `Fault`.
    pub fault: PoolFault,
    /// The pool; its pages, pin counts and contents are unchanged.
    pub pool: Pool<D>,
}

impl<D: PageDevice> fmt::Debug for CloseError<D> {
    fn fmt<W: fmt::Write>(&self, f: &mut fmt::Formatter<W>) -> fmt::Result {
        f.debug_struct("CloseError")
            .field("fault", &self.fault)
            .finish_non_exhaustive()
    }
}

impl<D: PageDevice> Pool<D> {
    /// Writes back all pages as [`Pool::write_back_all`] does, and then evicts every page.
    ///
    /// # Errors
    /// `Fixed` if a page is pinned, which changes nothing; otherwise `Fault`, as for
    /// [`Pool::write_back_all`].
    pub fn empty(&mut self) -> Result<(), PoolFault>
        ensures ranked { KeepsRanks self.old self.new }
        ensures done { OnOk result (EmptiesPool self.old self.new) }
        ensures refused { IfErr result (λ why. EmptyFails self.old why self.new) }
    {
        self.write_back_unpinned()?;
        self.frames.vacate_selected(Devices::All);
        Ok(())
    }

    /// Writes back all pages as [`Pool::write_back_all`] does, and returns the devices, in their
    /// order. Each is flushed, and an honest one has every page as the pool had it.
    ///
    /// # Errors
    /// As [`Pool::empty`]; the pool is returned.
    pub fn into_devices(mut self) -> Result<Vec<D>, CloseError<D>>
        ensures ranked { IfErr result (λ unclosed. KeepsRanks self unclosed.pool) }
        ensures done { IfOk result (λ devices. GivesDevices self (map D.state devices.items)) }
        ensures refused { IfErr result (λ unclosed. EmptyFails self unclosed.fault unclosed.pool) }
    {
        match self.write_back_unpinned() {
            Ok(()) => Ok(self.take_apart()),
            Err(fault) => Err(CloseError { fault, pool: self }),
        }
    }

    /// Takes the devices back as [`Pool::into_devices`] does, and drops them.
    ///
    /// # Errors
    /// As [`Pool::empty`]; the pool is returned.
    pub fn close(self) -> Result<(), CloseError<D>>
        ensures ranked { IfErr result (λ unclosed. KeepsRanks self unclosed.pool) }
        ensures done { OnOk result (IsUnfixed (view_of self)) }
        ensures refused { IfErr result (λ unclosed. EmptyFails self unclosed.fault unclosed.pool) }
    {
        let devices = self.into_devices()?;
        let_all_go(devices);
        Ok(())
    }

    // Writes back all pages and flushes all devices, if no page is pinned.
    fn write_back_unpinned(&mut self) -> Result<(), PoolFault>
        ensures unfixed { OnOk result (AreUnfixed All self.old.frames) }
        ensures down { OnOk result (WritesBackAll All self.old self.new) }
        ensures flushed { OnOk result (NoneWaits self.new.devices) }
        ensures refused { IfErr result (λ fault. EmptyRefused self.old fault self.new) }
        ensures once { FlushesOnce self.old.devices self.new.devices }
        ensures ranked { KeepsRanks self.old self.new }
    {
        if is_fixed(&self.frames, Devices::All) {
            return Err(PoolFault::Fixed);
        }
        self.settle().map_err(|_| PoolFault::Fault)?;
        Ok(())
    }
}

// Whether a selected frame has a pinned page.
pub(crate) fn is_fixed(frames: &Frames, which: Devices) -> bool
    ensures { MatchBool result (IsFixedIn which frames.now.frames)
        (AreUnfixed which frames.now.frames) }
{
    for at in 0..frames.len() {
        if frames.fixes(at) > 0 && which.selects(frames.page(at)) {
            return true;
        }
    }
    false
}

// Drops flushed devices.
fn let_all_go<D: PageDevice>(mut devices: Vec<D>)
    requires { NoneWaits (map D.state devices.items) }
{
    while let Some(device) = devices.pop() {
        let_go(device);
    }
}
