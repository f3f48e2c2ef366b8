//! The calls of an open handle that begin a visit, in place of the one before.
ghost use Rattle.std.specs.Prelude.{◌≡◌, None};
ghost use Rattle.warm_visits.specs.VisitMessages.{idle_visit};
ghost use Rattle.warm_visits.specs.Visits.{copy_visit, offer_visit, raise_visit};
ghost use Rattle.warm_c_calls.specs.Visits.{BeginsAbsorb, BeginsLoad, BeginsOrKeeps, BeginsReceive};
ghost use Rattle.warm_c_calls.specs.Visits.{BeginsVisit};

use crate::history_calls::references_of;
use crate::message_limits::{NodeLimits, check_limits};
use crate::open_visit::OpenVisit;
use std::alloc::Global;
use std::io::Read;
use warm_c_base::{Descriptor, FileReader, Refusal, WarmReference};
use warm_dump::read_dump;
use warm_frames::decode;
use warm_history::Entry;
use warm_history::laws::prove_is_history;
use warm_visits::Visit;

impl OpenVisit {
    /// Begins [`Visit::absorb`].
    ///
    /// # Errors
    /// In this order; nothing has changed.
    /// - `BadReplica`: one of the references has a replica's number that is not valid.
    /// - `Node`, with `Memory`: an allocation failed.
    pub fn absorb(&mut self, alloc: Global, batch: &[WarmReference]) -> Result<(), Refusal>
        ensures { BeginsAbsorb batch.now self.old result self.new }
    {
        let references = references_of(alloc, batch)?;
        self.visit = Visit::absorb(alloc, self.visit.id(), self.visit.count(), &references)?;
        Ok(())
    }

    /// Begins [`Visit::raise`].
    pub fn raise(&mut self, time: u64)
        ensures { BeginsVisit (λ id n. raise_visit id n time) self.old self.new }
    {
        self.visit = Visit::raise(self.visit.id(), self.visit.count(), time);
    }

    /// Begins [`Visit::offer`].
    ///
    /// # Errors
    /// `Node`, with `Memory`: an allocation failed; nothing has changed.
    pub fn offer(&mut self, alloc: Global) -> Result<(), Refusal>
        ensures { BeginsOrKeeps offer_visit self.old result self.new }
    {
        self.visit = Visit::offer(alloc, self.visit.id(), self.visit.count())?;
        Ok(())
    }

    /// Begins [`Visit::copy`].
    ///
    /// # Errors
    /// `Node`, with `Memory`: an allocation failed; nothing has changed.
    pub fn copy(&mut self, alloc: Global) -> Result<(), Refusal>
        ensures { BeginsOrKeeps copy_visit self.old result self.new }
    {
        self.visit = Visit::copy(alloc, self.visit.id(), self.visit.count())?;
        Ok(())
    }

    /// Decodes a frame, checks its message, and begins [`Visit::receive`].
    ///
    /// # Errors
    /// In this order; nothing has changed.
    /// - `Frame`: the bytes are no frame.
    /// - `Late`, `TooManyPages`: the message does not keep a limit.
    /// - `Node`, with `Memory`: an allocation failed.
    pub fn receive(
        &mut self,
        alloc: Global,
        limits: &NodeLimits,
        frame: &[u8],
    ) -> Result<(), Refusal>
        ensures { BeginsReceive limits.now frame.now self.old result self.new }
    {
        let message = decode(alloc, frame)?;
        check_limits(&message, limits)?;
        self.visit = Visit::receive(alloc, self.visit.id(), self.visit.count(), &message)?;
        Ok(())
    }

    // Reads a dump from any reader to its end, and begins to give the entries of its history.
    fn read_from<R: Read>(&mut self, alloc: Global, reader: &mut R) -> Result<(), Refusal>
        ensures { BeginsLoad (R.remaining reader.old) self.old result self.new }
    {
        let history = match read_dump(alloc, reader) {
            Ok(history) => history,
            Err(error) => return Err(Refusal::Dump(error.fault)),
        };
        prove_is_history(&history);
        let horizon = history.horizon();
        // In the order of the buckets: to merge these into one would take much of a thread's stack.
        let entries: Vec<Entry> = history.unordered().collect(alloc)?;
        drop(history);
        let (id, count) = (self.visit.id(), self.visit.count());
        self.visit = Visit::entries(alloc, id, count, horizon, &entries)?;
        Ok(())
    }

    /// Reads the dump that the first bytes of a file are, and begins [`Visit::entries`] of its
    /// history, at its horizon.
    ///
    /// # Errors
    /// In this order; nothing has changed.
    /// - `Dump`: the bytes are no dump, or were not read.
    /// - `Node`, with `Memory`: an allocation failed.
    pub fn load(
        &mut self,
        alloc: Global,
        descriptor: Descriptor,
        length: u64,
    ) -> Result<(), Refusal>
        ensures { BeginsLoad None self.old result self.new }
    {
        let mut file = FileReader::new(descriptor, length);
        self.read_from(alloc, &mut file)?;
        Ok(())
    }

    /// Leaves the visit idle: what it had is freed.
    pub fn end(&mut self)
        ensures { self.new.visit ≡ idle_visit self.old.visit.id self.old.visit.count }
    {
        self.visit = Visit::idle(self.visit.id(), self.visit.count());
    }
}
