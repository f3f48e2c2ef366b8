//! The statuses of a pool's frames, and the number of those that are dirty.
ghost use Rattle.std.specs.Prelude.{◌≡◌, ◌+◌, ◌-◌, ◌^◌, ◌<◌, ◌≤◌, length, replicate, set, IfOk};
ghost use Rattle.warm_frame_table.specs.Frames.{one_if};
ghost use Rattle.warm_frame_table.specs.stored.Parts.{unused_status};
ghost use Rattle.warm_frame_table.specs.stored.Statuses.{dirty_statuses, status_at, status_fixed};
ghost use Rattle.warm_frame_table.specs.stored.Statuses.{status_marked, status_unfixed};

use crate::frame::Status;
use std::alloc::{AllocError, Global};
use std::marker::Model;

/// The status of each frame. Contracts see the list of them.
///
/// Each change of a dirty flag updates the count, so that the count is read without a scan.
#[derive(Drop)]
pub(crate) struct Statuses {
    all: Vec<Status>,
    dirty: usize,
}

impl Model for Statuses {
    ghost use Rattle.std.specs.Prelude.{◌≡◌, List};
    ghost use Rattle.warm_frame_table.specs.declared.frame.Status.{Status};
    ghost use Rattle.warm_frame_table.specs.stored.Statuses.{dirty_statuses};

    ghost Value = { List Status };

    ghost view = { λ s. s.all.items };

    ghost invariant = { λ s. s.dirty ≡ dirty_statuses s.all.items };
}

impl Statuses {
    /// The statuses of frames without a page.
    ///
    /// # Errors
    /// `AllocError` if their allocation fails.
    pub(crate) fn new(alloc: Global, frames: usize) -> Result<Statuses, AllocError>
        ensures { IfOk result (λ statuses. statuses ≡ replicate frames unused_status) }
    {
        let all = unused(alloc, frames)?;
        Ok(Statuses { all, dirty: 0 })
    }

    /// The status of each frame.
    pub(crate) fn all(&self) -> &[Status]
        ensures { result.now ≡ self.now }
    {
        &self.all
    }

    /// The status of a frame.
    pub(crate) fn get(&self, at: usize) -> Status
        requires { at < length self.now }
        ensures { result ≡ status_at self.now at }
    {
        self.all[at]
    }

    /// How many of them are dirty.
    pub(crate) fn dirty(&self) -> usize
        ensures { result ≡ dirty_statuses self.now }
    {
        self.dirty
    }

    /// Adds a pin.
    pub(crate) fn fix(&mut self, at: usize)
        requires there { at < length self.old }
        requires below { (status_at self.old at).fixes < 2 ^ 32 - 1 }
        ensures { self.new ≡ set self.old at (status_fixed (status_at self.old at)) }
    {
        let status = &mut self.all[at];
        status.fixes += 1;
    }

    /// Removes a pin; gives how many are left.
    pub(crate) fn unfix(&mut self, at: usize) -> u32
        requires there { at < length self.old }
        requires fixed { 0 < (status_at self.old at).fixes }
        ensures left { result ≡ (status_at self.old at).fixes - 1 }
        ensures status { self.new ≡ set self.old at (status_unfixed (status_at self.old at)) }
    {
        let status = &mut self.all[at];
        status.fixes -= 1;
        status.fixes
    }

    /// Marks the page of a frame as dirty or as clean.
    pub(crate) fn mark(&mut self, at: usize, dirty: bool)
        requires { at < length self.old }
        ensures { self.new ≡ set self.old at (status_marked dirty (status_at self.old at)) }
    {
        let fixes = self.all[at].fixes;
        self.put(at, Status { fixes, dirty });
    }

    /// Replaces the status of a frame.
    pub(crate) fn put(&mut self, at: usize, status: Status)
        requires { at < length self.old }
        ensures { self.new ≡ set self.old at status }
    {
        let was = self.all[at].dirty;
        self.dirty = recounted(self.dirty, was, status.dirty);
        self.all[at] = status;
    }
}

// The statuses of frames without a page.
fn unused(alloc: Global, frames: usize) -> Result<Vec<Status>, AllocError>
    ensures { IfOk result (λ statuses. statuses.items ≡ replicate frames unused_status) }
{
    let mut statuses = Vec::new(alloc);
    statuses.resize(
        frames,
        Status {
            fixes: 0,
            dirty: false,
        },
    )?;
    Ok(statuses)
}

// A count after one of what it counts was replaced.
fn recounted(count: usize, was: bool, is: bool) -> usize
    requires some { one_if was ≤ count }
    requires room { count < 2 ^ 63 }
    ensures { result + one_if was ≡ count + one_if is }
{
    count - one_if(was) + one_if(is)
}

// 1 if it holds, else 0.
fn one_if(holds: bool) -> usize
    ensures { result ≡ one_if holds }
{
    if holds { 1 } else { 0 }
}
