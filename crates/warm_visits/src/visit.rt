//! A call of the whole as a value, which goes from shard to shard: it names the shard of its next
//! errand, and enters that with one step.
//!
//! Whoever has the shards drives it: a loop over nodes, or C by its locks.
ghost use Rattle.std.specs.Prelude.{◌≡◌, ◌≢◌, ◌<◌, ◌≤◌, false, IfOk, IfSome, None};
ghost use Rattle.warm_history.specs.Histories.{entries_of, history_of_entries_at, references_of};
ghost use Rattle.warm_visits.specs.ShardNumbers.{IsShardCount};
ghost use Rattle.warm_visits.specs.Stages.{next_stage};
ghost use Rattle.warm_visits.specs.VisitParts.{IsReader, earlier, visit_of};
ghost use Rattle.warm_visits.specs.Visits.{HasEntered, absorb_visit, answers_of};
ghost use Rattle.warm_visits.specs.Visits.{copy_of, copy_visit, entries_left, give_visit};
ghost use Rattle.warm_visits.specs.Visits.{join_visit, kept_of, next_shard, offer_in, offer_visit};
ghost use Rattle.warm_visits.specs.Visits.{raise_visit, receive_visit, result_of};
ghost use Rattle.warm_visits.specs.declared.visit.Work.TheVariants.{Read};

use crate::batch_parts::parts_of;
use crate::giving::Parts;
use crate::reading::{Reading, below};
use crate::stage::Stage;
use std::alloc::{AllocError, Global};
use std::marker::Model;
use warm_devices::PageDevice;
use warm_frames::{Message, MessageList};
use warm_gossip::{Node, NodeFault};
use warm_history::{Entry, History};
use warm_stamps::{Reference, ReplicaId};

/// A call of the whole. Contracts see the errands that it still has, each at one shard, and what
/// those before have made.
#[derive(Drop)]
pub struct Visit {
    pub(crate) id: ReplicaId,
    pub(crate) count: usize,
    // The time to which each shard is raised first.
    pub(crate) time: u64,
    // The next shard to be raised; the count of shards if none is.
    pub(crate) rising: usize,
    // The shard of the first errand behind that; the count of shards if there is none.
    pub(crate) shard: usize,
    pub(crate) work: Work,
    // The earliest horizon that a shard kept, of those raised.
    pub(crate) kept: Option<u64>,
    pub(crate) stopped: bool,
}

// What a visit does once all shards are raised that it raises.
#[derive(Drop)]
pub(crate) enum Work {
    // Nothing: it says the earliest horizon.
    Raise,
    // Each shard is given its part.
    Give(Parts),
    // It is read.
    Read(Reading),
}

impl Model for Visit {
    ghost use Rattle.warm_visits.specs.VisitParts.{IsVisit, visit_of};
    ghost use Rattle.warm_visits.specs.Visits.{VisitState};

    ghost Value = { VisitState };

    ghost view = { λ v. visit_of v.id v.count v.time v.rising v.shard v.work v.kept v.stopped };

    ghost invariant = { λ v. IsVisit v.id v.count v.rising v.shard v.work };
}

// The earlier one of two horizons.
fn earlier_of(kept: Option<u64>, horizon: u64) -> u64
    ensures { result ≡ earlier kept horizon }
{
    match kept {
        Some(earliest) => earliest.min(horizon),
        None => horizon,
    }
}

/// The entries of a history.
///
/// `AllocError` occurs only if an allocation fails.
pub fn entries_of(alloc: Global, history: &History) -> Result<Vec<Entry>, AllocError>
    ensures { IfOk result (λ entries. entries.items ≡ entries_of history.now) }
{
    history.iter().collect(alloc)
}

impl Visit {
    /// The visit in which each shard absorbs the references of a batch to its pages. The batch is
    /// copied.
    ///
    /// `AllocError` occurs only if an allocation fails.
    pub fn absorb(
        alloc: Global,
        id: ReplicaId,
        count: usize,
        batch: &[Reference],
    ) -> Result<Visit, AllocError>
        requires { IsShardCount count }
        ensures { IfOk result (λ visit. visit ≡ absorb_visit id count batch.now) }
    {
        let parts = Parts::Batch(parts_of(alloc, batch, count)?);
        let shard = parts.first(0);
        Ok(Visit {
            id,
            count,
            time: 0,
            rising: count,
            shard,
            work: Work::Give(parts),
            kept: None,
            stopped: false,
        })
    }

    /// The visit in which each shard forgets all stamps before this time. Allocation-free.
    pub fn raise(id: ReplicaId, count: usize, time: u64) -> Visit
        requires { IsShardCount count }
        ensures { result ≡ raise_visit id count time }
    {
        Visit {
            id,
            count,
            time,
            rising: 0,
            shard: count,
            work: Work::Raise,
            kept: None,
            stopped: false,
        }
    }

    /// The visit in which each shard takes in the entries of its pages, at their horizon. The
    /// entries are copied.
    ///
    /// `AllocError` occurs only if an allocation fails.
    pub fn entries(
        alloc: Global,
        id: ReplicaId,
        count: usize,
        horizon: u64,
        entries: &[Entry],
    ) -> Result<Visit, AllocError>
        requires { IsShardCount count }
        ensures { IfOk result (λ visit. visit
            ≡ give_visit id count (references_of (history_of_entries_at horizon entries.now))) }
    {
        let parts = Parts::Entries(horizon, parts_of(alloc, entries, count)?);
        let shard = parts.first(0);
        Ok(Visit {
            id,
            count,
            time: horizon,
            rising: 0,
            shard,
            work: Work::Give(parts),
            kept: None,
            stopped: false,
        })
    }

    /// The visit in which each shard takes in what a history says of its pages. The history is
    /// copied.
    ///
    /// `AllocError` occurs only if an allocation fails.
    pub fn join(
        alloc: Global,
        id: ReplicaId,
        count: usize,
        other: &History,
    ) -> Result<Visit, AllocError>
        requires { IsShardCount count }
        ensures { IfOk result (λ visit. visit ≡ join_visit id count other.now) }
    {
        let entries = entries_of(alloc, other)?;
        Visit::entries(alloc, id, count, other.horizon(), &entries)
    }

    // The visit that reads, once all shards are raised from this one on.
    fn reads(id: ReplicaId, count: usize, time: u64, rising: usize, reading: Reading) -> Visit
        requires valid { IsShardCount count }
        requires begins { rising ≤ count }
        requires reads { IsReader id count reading }
        ensures { result ≡ visit_of id count time rising count (Read reading) None false }
    {
        Visit {
            id,
            count,
            time,
            rising,
            shard: count,
            work: Work::Read(reading),
            kept: None,
            stopped: false,
        }
    }

    /// The visit in which each shard offers its digests.
    ///
    /// `AllocError` occurs only if an allocation fails.
    pub fn offer(alloc: Global, id: ReplicaId, count: usize) -> Result<Visit, AllocError>
        requires { IsShardCount count }
        ensures { IfOk result (λ visit. visit ≡ offer_visit id count) }
    {
        let reading = Reading::offers(alloc, id, count)?;
        Ok(Visit::reads(id, count, 0, count, reading))
    }

    /// The visit in which the shards receive a message: each is raised to its horizon, and then
    /// takes its entries in, sends the buckets that are requested, or offers its digests, which are
    /// compared. Entries are copied.
    ///
    /// `AllocError` occurs only if an allocation fails.
    pub fn receive(
        alloc: Global,
        id: ReplicaId,
        count: usize,
        message: &Message,
    ) -> Result<Visit, AllocError>
        requires { IsShardCount count }
        ensures { IfOk result (λ visit. visit ≡ receive_visit id count message.now) }
    {
        match message {
            Message::Entries {
                horizon,
                entries,
                ..
            } => Visit::entries(alloc, id, count, *horizon, entries.as_slice()),
            Message::Digest {
                horizon,
                digests,
                ..
            } => {
                let reading = Reading::compares(alloc, id, count, *digests)?;
                Ok(Visit::reads(id, count, *horizon, 0, reading))
            }
            Message::Want {
                horizon,
                request,
                ..
            } => {
                let reading = Reading::sends(alloc, id, count, *request);
                Ok(Visit::reads(id, count, *horizon, 0, reading))
            }
        }
    }

    /// The visit that copies the history of each shard.
    ///
    /// `AllocError` occurs only if an allocation fails.
    pub fn copy(alloc: Global, id: ReplicaId, count: usize) -> Result<Visit, AllocError>
        requires { IsShardCount count }
        ensures { IfOk result (λ visit. visit ≡ copy_visit id count) }
    {
        let reading = Reading::copies(alloc, id, count)?;
        Ok(Visit::reads(id, count, 0, count, reading))
    }

    /// The number of the shard of its next errand; `None` if no errand is left, or a shard has
    /// refused one. Allocation-free.
    pub fn next(&self) -> Option<usize>
        ensures value { result ≡ next_shard self.now }
        ensures below { IfSome result (λ shard. shard < self.now.count) }
    {
        if self.stopped {
            return None;
        }
        if self.rising < self.count {
            return Some(self.rising);
        }
        match &self.work {
            Work::Raise => None,
            Work::Give(_) => below(self.shard, self.count),
            Work::Read(reading) => reading.next(),
        }
    }

    /// What the next errand asks, also if its shard has refused it; `None` if no errand is left.
    /// Allocation-free.
    pub fn stage(&self) -> Option<Stage>
        ensures { result ≡ next_stage self.now.plan }
    {
        if self.rising < self.count {
            return Some(Stage::Raising);
        }
        match &self.work {
            Work::Raise => None,
            Work::Give(_) if self.shard < self.count => Some(Stage::Giving),
            Work::Give(_) => None,
            Work::Read(reading) => reading.stage(),
        }
    }

    /// What the call returns, once no shard is named.
    ///
    /// # Errors
    /// `Memory`: a shard had no memory for its errand.
    pub fn result(&self) -> Result<(), NodeFault>
        ensures { result ≡ result_of self.now.stopped }
    {
        if self.stopped {
            return Err(NodeFault::Memory);
        }
        Ok(())
    }

    /// The earliest horizon that a shard kept, of a visit that only raises.
    pub fn kept(&self) -> Option<u64>
        ensures { result ≡ kept_of self.now.made }
    {
        match self.work {
            Work::Raise => self.kept,
            Work::Give(_) => None,
            Work::Read(_) => None,
        }
    }

    /// The messages that answer, in order, of a visit that has no errand left: none, if it gives.
    ///
    /// `AllocError` occurs only if an allocation fails.
    pub fn into_answers(self, alloc: Global) -> Result<MessageList, AllocError>
        ensures { IfOk result (λ answers. answers ≡ answers_of self.made self.after) }
    {
        let Visit { work, .. } = self;
        match work {
            Work::Raise => Ok(MessageList::of(Vec::new(alloc))),
            Work::Give(_) => Ok(MessageList::of(Vec::new(alloc))),
            Work::Read(reading) => Ok(MessageList::of(reading.into_answers()?)),
        }
    }

    /// What the shards offer, of a visit that offers. Allocation-free.
    pub fn offered(&self) -> Option<Message>
        ensures { result ≡ offer_in self.now.id self.now.made }
    {
        match &self.work {
            Work::Raise => None,
            Work::Give(_) => None,
            Work::Read(reading) => reading.offer(),
        }
    }

    /// The history that was copied, of a visit that copies. Allocation-free.
    pub fn into_copy(self) -> Option<History>
        ensures { result ≡ copy_of self.made }
    {
        let Visit { work, .. } = self;
        match work {
            Work::Raise => None,
            Work::Give(_) => None,
            Work::Read(reading) => reading.into_history(),
        }
    }

    /// Runs the next errand, at the node of the shard that [`Visit::next`] names. If the node has
    /// no memory for it, the visit is stopped, and the errand is still the next one.
    pub fn enter<D: PageDevice>(&mut self, node: &mut Node<D>)
        requires { next_shard self.old ≢ None }
        ensures entered { HasEntered self.old node.old self.new node.new }
        ensures shorter { entries_left self.new < entries_left self.old }
        ensures count { self.new.count ≡ self.old.count }
    {
        if self.rising < self.count {
            let horizon = node.raise(self.time);
            self.kept = Some(earlier_of(self.kept, horizon));
            self.rising += 1;
            return;
        }
        match &mut self.work {
            Work::Raise => {}
            Work::Give(parts) => {
                if let Err(_why) = parts.give(self.shard, node) {
                    self.stopped = true;
                    return;
                }
                self.shard = parts.first(self.shard + 1);
            }
            Work::Read(reading) => {
                if let Err(_refused) = reading.enter(node) {
                    self.stopped = true;
                    return;
                }
            }
        }
    }
}
