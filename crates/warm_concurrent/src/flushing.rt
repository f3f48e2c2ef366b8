//! References that wait in a thread's own buffer, and are flushed into the shards.
//!
//! A thread's worker over shared shards is an [`Attached`] and a `RefBuffer`. The buffer's `touch` takes
//! a reference and waits for nobody. `flush` gives all references of the buffer to the shards. Every
//! call of [`SharedShards`] is the worker's.
ghost use Rattle.std.specs.Prelude.{◌≡◌, length, IfErr, OnErr, OnOk};
ghost use Rattle.warm_refbuffer.specs.Buffered.{cleared};
ghost use Rattle.warm_visits.specs.Visits.{absorb_visit};
ghost use Rattle.warm_concurrent.specs.Attached.{AreOf, opened_id};
ghost use Rattle.warm_concurrent.specs.Visiting.{IsGoneThrough, VisitFails};

use crate::shared::{Attached, SharedShards};
use crate::visiting::Stopped;
use std::alloc::Global;
use std::sync::Wait;
use warm_devices::PageDevice;
use warm_refbuffer::RefBuffer;

impl<D: PageDevice + Send> SharedShards<D> {
    /// Adds the references of a buffer to the history, as [`SharedShards::absorb`] adds those of a
    /// batch, and empties the buffer, which keeps its capacity.
    ///
    /// # Errors
    /// Those of `absorb`, with the same effects in the shards. The buffer is unchanged. To flush it
    /// once more does no harm.
    pub fn flush<R: Wait>(
        &self,
        rt: &R,
        alloc: Global,
        attached: &mut Attached<D>,
        buffer: &mut RefBuffer,
    ) -> Result<(), Stopped>
        requires { AreOf self.now attached.old.passes }
        ensures attached { AreOf self.now attached.new.passes }
        ensures absorbed { OnOk result (IsGoneThrough
            (absorb_visit (opened_id self.now) (length self.now) buffer.old.refs)
            attached.old.passes attached.new.passes) }
        ensures stopped { IfErr result (λ at. VisitFails
            (absorb_visit (opened_id self.now) (length self.now) buffer.old.refs)
            at.shard at.fault attached.old.passes attached.new.passes) }
        ensures emptied { OnOk result (buffer.new ≡ cleared buffer.old) }
        ensures kept { OnErr result (buffer.new ≡ buffer.old) }
        ensures pins { attached.new.pins ≡ attached.old.pins }
    {
        self.absorb(rt, alloc, attached, buffer.refs())?;
        buffer.clear();
        Ok(())
    }
}
