//! The replies to the steps of a job.
ghost use Rattle.std.specs.Prelude.{◌≡◌, ◌↔◌, ◌≤◌, ◌<◌, ◌+◌, ◌∷◌, ◌++◌, [], length, replicate};
ghost use Rattle.std.specs.Prelude.{vec_capacity};
ghost use Rattle.std.specs.Prelude.{IsTrue, IfOk, IfErr};
ghost use Rattle.std.specs.List.{All};
ghost use Rattle.warm_replica.specs.declared.job.StepReply.TheVariants.{Touched};
ghost use Rattle.warm_replica.specs.Replied.{AreTaken, IsTaken, replies_of};

use crate::job::StepReply;
use std::alloc::{AllocError, Global};
use std::marker::Model;

// A number of replies `Touched`, and then another reply.
#[derive(Drop)]
pub(crate) struct Run {
    touched: usize,
    reply: StepReply,
}

/// The replies to the steps of a job, one for each step, in order. Consecutive replies `Touched`
/// are stored as a count, since most replies are `Touched` and carry nothing more. Contracts see
/// `Replied`: the list `items`, and the `capacity` for it.
#[derive(Drop)]
pub struct Replies {
    runs: Vec<Run>,
    touched: usize,
    len: usize,
}

impl Model for Replies {
    ghost use Rattle.std.specs.Prelude.{◌≡◌, length, vec_capacity};
    ghost use Rattle.warm_replica.specs.Replied.{Replied, replies_of};

    ghost Value = { Replied };

    ghost view = { λ r. record {
      items = replies_of r.runs.items r.touched;
      capacity = vec_capacity r.runs;
    } };

    ghost invariant = { λ r. length (replies_of r.runs.items r.touched) ≡ r.len };
}

impl Replies {
    // No replies, with capacity for those of this many steps.
    pub(crate) fn with_capacity(alloc: Global, steps: usize) -> Result<Replies, AllocError>
        ensures empty { IfOk result (λ r. r.items ≡ []) }
        ensures capacity { IfOk result (λ r. steps ≤ r.capacity) }
    {
        let runs = Vec::with_capacity(alloc, steps)?;
        Ok(Replies {
            runs,
            touched: 0,
            len: 0,
        })
    }

    /// The number of replies, which is the number of the job's steps.
    pub fn len(&self) -> usize
        ensures { result ≡ length self.now.items }
    {
        self.len
    }

    // Adds one reply, for which there is capacity. Allocation-free.
    pub(crate) fn push(&mut self, reply: StepReply)
        requires capacity { length self.old.items < self.old.capacity }
        ensures items { self.new.items ≡ self.old.items ++ reply ∷ [] }
        ensures capacity { self.old.capacity ≤ self.new.capacity }
    {
        self.len += 1;
        match reply {
            StepReply::Touched => self.touched += 1,
            reply => {
                let touched = self.touched;
                self.runs.push_reserved(Run { touched, reply });
                self.touched = 0;
            }
        }
    }

    /// Whether each step put its reference into the buffer, or had the replica absorb the buffer:
    /// none was a call, and none was refused.
    pub fn are_taken(&self) -> bool
        ensures { IsTrue result ↔ AreTaken self.now }
    {
        are_ended_taken(&self.runs)
    }

    /// The replies, one for each step, in order.
    ///
    /// # Errors
    /// If their allocation fails, the replies are given back.
    pub fn into_vec(self, alloc: Global) -> Result<Vec<StepReply>, Replies>
        ensures all { IfOk result (λ all. all.items ≡ self.items) }
        ensures kept { IfErr result (λ back. back ≡ self) }
    {
        let Ok(mut all) = Vec::with_capacity(alloc, self.len) else {
            return Err(self);
        };
        let Replies {
            runs,
            touched,
            len: _,
        } = self;
        push_runs(&mut all, runs, touched);
        Ok(all)
    }
}

// Whether a step was taken.
fn is_taken(reply: &StepReply) -> bool
    ensures { IsTrue result ↔ IsTaken reply.now }
{
    matches!(reply, StepReply::Touched | StepReply::Flushed)
}

// Whether the reply that ended each run is of a step that was taken.
fn are_ended_taken(runs: &[Run]) -> bool
    ensures { IsTrue result ↔ All (λ run. IsTaken run.reply) runs.now }
{
    runs.iter().all(|run| is_taken(&run.reply))
}

// Adds this many replies `Touched`, for which there is capacity.
fn push_touched(all: &mut Vec<StepReply>, count: usize)
    requires capacity { length all.old.items + count ≤ vec_capacity all.old }
    ensures items { all.new.items ≡ all.old.items ++ replicate count Touched }
    ensures capacity { vec_capacity all.old ≤ vec_capacity all.new }
{
    for _touch in 0..count {
        all.push_reserved(StepReply::Touched);
    }
}

// All replies that runs stand for. There is capacity for them.
fn push_runs(all: &mut Vec<StepReply>, runs: Vec<Run>, touched: usize)
    requires empty { all.old.items ≡ [] }
    requires capacity { length (replies_of runs.items touched) ≤ vec_capacity all.old }
    ensures items { all.new.items ≡ replies_of runs.items touched }
{
    for run in runs {
        push_touched(all, run.touched);
        all.push_reserved(run.reply);
    }
    push_touched(all, touched);
}
