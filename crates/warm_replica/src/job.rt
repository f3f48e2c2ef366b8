//! Jobs: lists of steps, each run by its own thread with its own worker.
ghost use Rattle.std.specs.Prelude.{◌≡◌, ◌≤◌, [], length};
ghost use Rattle.warm_replica.specs.Jobs.{StepWent, StepsWent};

use crate::boxed::{BoxedCall, BoxedReply};
use crate::fault::FlushFault;
use crate::replies::Replies;
use crate::worker::{BatchMachine, Worker};
use std::alloc::Global;
use std::sync::Wait;
use warm_refbuffer::Full;
use warm_stamps::Reference;
use warm_turn::Turn;

/// A step of a job. A step and its reply take a few words: calls and replies are in heap boxes,
/// which are allocated before the job begins.
#[derive(Drop)]
pub enum Step {
    /// Put a reference into the buffer.
    Touch(Reference),
    /// Have the replica absorb the buffer, and empty it.
    Flush,
    /// Make this call.
    Call(BoxedCall),
}

/// The reply to a step.
#[derive(Drop)]
pub enum StepReply {
    /// The reference is in the buffer.
    Touched,
    /// The buffer was full; the reference is given back.
    Full(Reference),
    /// The replica has absorbed the buffer, which is now empty.
    Flushed,
    /// The reply to the call.
    Answered(BoxedReply),
    /// The flush was refused, or no ticket was left for the call. In the second case none is left
    /// for a later flush or call of the job.
    Failed(FlushFault),
}

/// The steps of one thread, and the capacity of its buffer. References in the buffer after the last
/// step are dropped.
#[derive(Drop)]
pub struct Job {
    /// The capacity of the buffer, in references.
    pub cap: usize,
    /// The steps, in order.
    pub steps: Vec<Step>,
}

/// Callbacks before and after each step of a job, called by the thread that takes the step. Jobs
/// and their steps are counted from 0.
pub trait Gate {
    /// Before the step is taken.
    fn before(&self, job: usize, step: usize);

    /// After it was taken.
    fn after(&self, job: usize, step: usize);
}

/// A [`Gate`] that does nothing, for jobs that nobody watches.
#[derive(Clone, Copy, Debug)]
pub struct NoGate;

impl Gate for NoGate {
    fn before(&self, _job: usize, _step: usize) {}

    fn after(&self, _job: usize, _step: usize) {}
}

// One step of a job.
fn take_step<M: BatchMachine, R: Wait>(
    rt: &R,
    alloc: Global,
    replica: &Turn<M>,
    worker: &mut Worker<M>,
    step: Step,
) -> StepReply
    requires { worker.old.pass.table ≡ replica.now.table }
    ensures table { worker.new.pass.table ≡ worker.old.pass.table }
    ensures went { StepWent worker.old step result worker.new }
{
    match step {
        Step::Touch(reference) => match worker.touch(reference) {
            Ok(()) => StepReply::Touched,
            Err(Full(reference)) => StepReply::Full(reference),
        },
        Step::Flush => match worker.flush(rt, alloc, replica) {
            Ok(()) => StepReply::Flushed,
            Err(fault) => StepReply::Failed(fault),
        },
        Step::Call(boxed) => {
            let (call, memory) = boxed.into_parts();
            match worker.call(rt, replica, call) {
                Ok(reply) => StepReply::Answered(memory.with(reply)),
                Err(_) => StepReply::Failed(FlushFault::TurnsSpent),
            }
        }
    }
}

// All steps of a job, in order. There is capacity for the replies.
pub(crate) fn take_steps<M: BatchMachine, R: Wait, G: Gate>(
    rt: &R,
    alloc: Global,
    replica: &Turn<M>,
    gate: &G,
    job: usize,
    worker: &mut Worker<M>,
    steps: Vec<Step>,
    replies: &mut Replies,
)
    requires table { worker.old.pass.table ≡ replica.now.table }
    requires capacity { (replies.old.items ≡ []) × (length steps.items ≤ replies.old.capacity) }
    ensures table { worker.new.pass.table ≡ worker.old.pass.table }
    ensures went { StepsWent worker.old steps.items replies.new.items worker.new }
{
    for step in steps {
        let at = replies.len();
        gate.before(job, at);
        let reply = take_step(rt, alloc, replica, worker, step);
        replies.push(reply);
        gate.after(job, at);
    }
}
