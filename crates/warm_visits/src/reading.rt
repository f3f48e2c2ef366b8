//! What a visit reads of shards: their digests, the entries of buckets, or all that they know.
ghost use Rattle.std.specs.Prelude.{◌≡◌, ◌≢◌, ◌<◌, ◌≤◌, ℕ, [], if◌then◌else◌, nat_lt};
ghost use Rattle.std.specs.Prelude.{IfNone, IfOk, IfSome, None, Some};
ghost use Rattle.warm_visits.specs.Stages.{next_stage};
ghost use Rattle.warm_visits.specs.VisitMessages.{final_message, first_message, without_message};
ghost use Rattle.warm_visits.specs.VisitReads.{IsReadingVisit, ReadsOne, copying_visit};
ghost use Rattle.warm_visits.specs.VisitReads.{reading_of, waits_for};
ghost use Rattle.warm_visits.specs.Visits.{answered, answers_of, at_each, begun, compares, copy_of};
ghost use Rattle.warm_visits.specs.Visits.{copy_visit, ends, next_shard, nothing_offered, offer_in};
ghost use Rattle.warm_visits.specs.Visits.{offer_visit, offering, send_plan};

use crate::copying::BoxedCopying;
use crate::gathering::BoxedGathering;
use crate::sending::Sending;
use crate::stage::Stage;
use std::alloc::{AllocError, Global};
use std::marker::Model;
use warm_devices::PageDevice;
use warm_frames::{DigestTable, Message};
use warm_gossip::{Node, NodeFault};
use warm_history::History;
use warm_stamps::{BucketSet, ReplicaId};

/// What a visit reads of shards, and what it has so far. Contracts see it as a visit.
#[derive(Drop)]
pub(crate) struct Reading {
    alloc: Global,
    id: ReplicaId,
    count: usize,
    task: Task,
}

#[derive(Drop)]
pub(crate) enum Task {
    // The digests of each shard are gathered.
    Gather(BoxedGathering),
    // The entries of buckets are sent.
    Send(Sending),
    // The histories of all shards are joined.
    Copy(BoxedCopying),
}

impl Model for Reading {
    ghost use Rattle.warm_visits.specs.VisitReads.{IsReadingVisit, reading_of};
    ghost use Rattle.warm_visits.specs.Visits.{VisitState};

    ghost Value = { VisitState };

    ghost view = { λ r. reading_of r.id r.count r.task };

    ghost invariant = { λ r. IsReadingVisit r.count r.task };
}

// Runs the next errand of a task.
//
// `Memory` occurs only if an allocation fails.
fn enter_task<D: PageDevice>(
    alloc: Global,
    id: ReplicaId,
    count: usize,
    task: &mut Task,
    node: &mut Node<D>,
) -> Result<(), NodeFault>
    requires reading { IsReadingVisit count task.old }
    requires some { next_shard (reading_of id count task.old) ≢ None }
    ensures read { ReadsOne (reading_of id count task.old) node.old result
        (reading_of id count task.new) node.new }
    ensures reading { IsReadingVisit count task.new }
{
    match task {
        Task::Gather(gathering) => {
            if let Some(sending) = gathering.gather(alloc, count, node)? {
                *task = Task::Send(sending);
            }
            Ok(())
        }
        Task::Send(sending) => {
            let Some(bucket) = sending.bucket else {
                unreachable!()
            };
            sending.send(node, bucket)
        }
        Task::Copy(copying) => copying.copy(node, count),
    }
}

impl Reading {
    // With no digest yet.
    fn gathers(
        alloc: Global,
        id: ReplicaId,
        count: usize,
        waiting: Option<DigestTable>,
    ) -> Result<Reading, AllocError>
        requires { 0 < count }
        ensures { IfOk result (λ reading. reading
            ≡ begun id count (at_each count offering) nothing_offered (waits_for waiting)) }
    {
        let gathering = BoxedGathering::empty(alloc, waiting)?;
        Ok(Reading {
            alloc,
            id,
            count,
            task: Task::Gather(gathering),
        })
    }

    /// Each shard offers its digests.
    ///
    /// `AllocError` occurs only if an allocation fails.
    pub(crate) fn offers(alloc: Global, id: ReplicaId, count: usize) -> Result<Reading, AllocError>
        requires { 0 < count }
        ensures { IfOk result (λ reading. reading ≡ offer_visit id count) }
    {
        Reading::gathers(alloc, id, count, None)
    }

    /// Each shard offers its digests, and these are compared: the buckets that differ are sent, and
    /// then requested.
    ///
    /// `AllocError` occurs only if an allocation fails.
    pub(crate) fn compares(
        alloc: Global,
        id: ReplicaId,
        count: usize,
        digests: DigestTable,
    ) -> Result<Reading, AllocError>
        requires { 0 < count }
        ensures { IfOk result (λ reading. reading
            ≡ begun id count (at_each count offering) nothing_offered (compares digests)) }
    {
        Reading::gathers(alloc, id, count, Some(digests))
    }

    /// The requested buckets are sent, each by its shard. Allocation-free.
    pub(crate) fn sends(alloc: Global, id: ReplicaId, count: usize, request: BucketSet) -> Reading
        requires { 0 < count }
        ensures { result ≡ begun id count (send_plan count request) (answered []) ends }
    {
        Reading {
            alloc,
            id,
            count,
            task: Task::Send(Sending::of(alloc, request, None)),
        }
    }

    /// The history of each shard is copied.
    ///
    /// `AllocError` occurs only if an allocation fails.
    pub(crate) fn copies(alloc: Global, id: ReplicaId, count: usize) -> Result<Reading, AllocError>
        requires { 0 < count }
        ensures { IfOk result (λ reading. reading ≡ copy_visit id count) }
    {
        let copying = BoxedCopying::empty(alloc)?;
        Ok(Reading {
            alloc,
            id,
            count,
            task: Task::Copy(copying),
        })
    }

    /// The shard of the next errand, if there is one.
    pub(crate) fn next(&self) -> Option<usize>
        ensures value { result ≡ next_shard self.now }
        ensures below { IfSome result (λ shard. shard < self.now.count) }
    {
        next_in(&self.task, self.count)
    }

    /// What the next errand asks, if there is one.
    pub(crate) fn stage(&self) -> Option<Stage>
        ensures { result ≡ next_stage self.now.plan }
    {
        stage_in(&self.task, self.count)
    }

    /// Runs the next errand, at the node of its shard. If the node has no memory for it, nothing
    /// changes.
    ///
    /// `Memory` occurs only if an allocation fails.
    // Not inlined: a visit that gives would clear the room of both tables of digests, too.
    #[inline(never)]
    pub(crate) fn enter<D: PageDevice>(&mut self, node: &mut Node<D>) -> Result<(), NodeFault>
        requires { next_shard self.old ≢ None }
        ensures { ReadsOne self.old node.old result self.new node.new }
    {
        enter_task(self.alloc, self.id, self.count, &mut self.task, node)
    }

    /// What all shards offer, once no errand is left.
    pub(crate) fn offer(&self) -> Option<Message>
        ensures { result ≡ offer_in self.now.id self.now.made }
    {
        let Task::Gather(gathering) = &self.task else {
            return None;
        };
        let gathering = gathering.as_gathering();
        Some(Message::Digest {
            sender: self.id,
            horizon: gathering.horizon,
            digests: DigestTable::of(gathering.digests),
        })
    }

    /// The answer, once no errand is left.
    ///
    /// `AllocError` occurs only if an allocation fails.
    pub(crate) fn into_answers(self) -> Result<Vec<Message>, AllocError>
        ensures { IfOk result (λ messages. messages.items ≡ answers_of self.made self.after) }
    {
        let Reading {
            alloc,
            id,
            count: _,
            task,
        } = self;
        let Task::Send(sending) = task else {
            return Ok(Vec::new(alloc));
        };
        sending.into_messages(id)
    }

    /// The history of all shards, once no errand is left.
    pub(crate) fn into_history(self) -> Option<History>
        ensures { result ≡ copy_of self.made }
    {
        let Reading { task, .. } = self;
        let Task::Copy(copying) = task else {
            return None;
        };
        Some(copying.into_history())
    }

    /// The first message that waits, if one does.
    pub(crate) fn first_message(&self) -> Option<&Message>
        ensures some { IfSome result (λ message. first_message self.now ≡ Some message.now) }
        ensures none { IfNone result (first_message self.now ≡ None) }
    {
        match &self.task {
            Task::Send(sending) => sending.messages.first(),
            _ => None,
        }
    }

    /// The message that comes last, if no errand and no other message is left.
    pub(crate) fn final_message(&self) -> Option<Message>
        ensures { result ≡ final_message self.now }
    {
        match &self.task {
            Task::Gather(gathering) => gathering.as_gathering().offer(self.id, self.count),
            Task::Send(sending) => sending.request(self.id),
            Task::Copy(_) => None,
        }
    }

    /// Passes the first message; or, if there is none, the request.
    pub(crate) fn pass_message(&mut self)
        ensures { self.new ≡ without_message self.old }
    {
        pass_in(&mut self.task);
    }

    /// The history that was copied so far.
    pub(crate) fn history(&self) -> Option<&History>
        ensures some { IfSome result (λ h. copy_of self.now.made ≡ Some h.now) }
        ensures none { IfNone result (copy_of self.now.made ≡ None) }
    {
        match &self.task {
            Task::Copy(copying) => Some(copying.history()),
            _ => None,
        }
    }
}

// The shard of the next errand of a task, if there is one.
fn next_in(task: &Task, count: usize) -> Option<usize>
    requires { 0 < count }
    ensures value { (id : ℕ) → result ≡ next_shard (reading_of id count task.now) }
    ensures below { IfSome result (λ shard. shard < count) }
{
    match task {
        Task::Gather(gathering) => below(gathering.as_gathering().shard, count),
        Task::Send(sending) => match sending.bucket {
            Some(bucket) => Some(usize::from(bucket.get()) % count),
            None => None,
        },
        Task::Copy(copying) => below(copying.shard(), count),
    }
}

// What the next errand of a task asks, if there is one.
fn stage_in(task: &Task, count: usize) -> Option<Stage>
    requires { 0 < count }
    ensures { (id : ℕ) → result ≡ next_stage (reading_of id count task.now).plan }
{
    match task {
        Task::Gather(gathering) if gathering.as_gathering().shard < count => Some(Stage::Offering),
        Task::Gather(_) => None,
        Task::Send(sending) if sending.bucket.is_some() => Some(Stage::Sending),
        Task::Send(_) => None,
        Task::Copy(copying) if copying.shard() < count => Some(Stage::Copying),
        Task::Copy(_) => None,
    }
}

/// The shard of this number, if there is one.
pub(crate) fn below(shard: usize, count: usize) -> Option<usize>
    ensures { result ≡ (if nat_lt shard count then Some shard else None) }
{
    if shard < count { Some(shard) } else { None }
}

// Passes the first message, or the request.
fn pass_in(task: &mut Task)
    ensures value { (id count : ℕ) → reading_of id count task.new
        ≡ without_message (reading_of id count task.old) }
    ensures reading { (count : ℕ) → IsReadingVisit count task.old → IsReadingVisit count task.new }
{
    if let Task::Send(sending) = task {
        sending.pass();
    }
}
