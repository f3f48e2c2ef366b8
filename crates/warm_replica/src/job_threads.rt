//! Jobs in threads of their own.
ghost use Rattle.std.specs.Prelude.{◌≡◌, ◌↔◌, ◌≤◌, [], length, vec_capacity};
ghost use Rattle.std.specs.Prelude.{Err, IfOk, IfErr, IsTrue};
ghost use Rattle.std.specs.Thread.{IsSync, IsSend};
ghost use Rattle.warm_refbuffer.specs.Buffered.{IsCapacity};
ghost use Rattle.warm_replica.specs.Jobs.{HasSeenMore, HaveCapacities, JobsWent};
ghost use Rattle.warm_replica.specs.PreparedJobs.{ArePrepared, IsPrepared, PreparedJobWent, Fanned};
ghost use Rattle.warm_replica.specs.PreparedJobs.{HasFanned};

use crate::fault::{NoThread, RunFault};
use crate::job::{Gate, Job, Step, take_steps};
use crate::prepared_job::PreparedJob;
use crate::replies::Replies;
use crate::worker::{BatchMachine, Worker};
use std::alloc::{AllocError, Global};
use std::snapshot::Snapshot;
use std::sync::Wait;
use std::thread;
use std::thread::{Promise, PromisedHandle, Scope, Threads};
use warm_refbuffer::{MAX_CAPACITY, RefBuffer};
use warm_turn::{Machine, Pass, Turn};

/// The maximum number of jobs of one run.
pub const MAX_JOBS: usize = 64;

// What a job's thread begins with.
#[derive(Drop)]
struct JobStart<M: Machine> {
    buffer: Snapshot<RefBuffer>,
    steps: Snapshot<Vec<Step>>,
    pass: Snapshot<Pass<M>>,
}

impl<M: BatchMachine> Promise<(Pass<M>, Replies)> for JobStart<M> {
    ghost use Rattle.std.specs.Prelude.{◌≡◌};
    ghost use Rattle.warm_replica.specs.Jobs.{JobWent};

    ghost kept_by = { λ p r. (r.0.table ≡ p.pass.value.table)
        × JobWent p.buffer.value.capacity p.steps.value.items r.1.items
        p.pass.value.view r.0.view };
}

// The steps of a job, with a pass of its own.
fn run_job<M: BatchMachine, R: Wait, G: Gate>(
    rt: &R,
    alloc: Global,
    replica: &Turn<M>,
    gate: &G,
    pass: Pass<M>,
    prepared: PreparedJob,
) -> (Pass<M>, Replies)
    requires { pass.table ≡ replica.now.table }
    ensures table { result.0.table ≡ pass.table }
    ensures went { PreparedJobWent prepared result.1 pass.view result.0.view }
{
    let PreparedJob {
        job,
        buffer,
        steps,
        mut replies,
    } = prepared;
    let mut worker = Worker::new(pass, buffer);
    take_steps(
        rt,
        alloc,
        replica,
        gate,
        job,
        &mut worker,
        steps,
        &mut replies,
    );
    let (pass, _rest) = worker.into_parts();
    (pass, replies)
}

// Starts a job in a thread of its own, with a pass of its own.
fn start_job<'s, E, M: BatchMachine + Send + 's, R: Wait + Sync, G: Gate + Sync>(
    scope: &Scope<'s, E>,
    rt: &'s R,
    alloc: Global,
    replica: &'s Turn<M>,
    gate: &'s G,
    mine: Pass<M>,
    prepared: PreparedJob,
) -> Result<PromisedHandle<(Pass<M>, Replies), JobStart<M>>, NoThread>
    requires send { IsSend M.row × IsSync R.row × IsSync G.row }
    requires table { mine.table ≡ replica.now.table }
    ensures buffer { IfOk result (λ child. child.promise.buffer.value ≡ prepared.buffer) }
    ensures steps { IfOk result (λ child. child.promise.steps.value ≡ prepared.steps) }
    ensures pass { IfOk result (λ child. child.promise.pass.value ≡ mine) }
{
    let start = JobStart {
        buffer: Snapshot::of(&prepared.buffer),
        steps: Snapshot::of(&prepared.steps),
        pass: Snapshot::of(&mine),
    };
    let child = scope.spawn_with(
        start,
        move || -> (Pass<M>, Replies)
            requires { mine.table ≡ replica.now.table }
            ensures { (result.0.table ≡ mine.table)
                × PreparedJobWent prepared result.1 mine.view result.0.view }
        { run_job(rt, alloc, replica, gate, mine, prepared) },
    )?;
    Ok(child)
}

// Runs each job in a thread of its own, the last one first to start, and ends their passes into
// this one.
fn fan_out<'s, E, M: BatchMachine + Send + 's, R: Threads + Wait + Sync, G: Gate + Sync>(
    scope: &Scope<'s, E>,
    rt: &'s R,
    alloc: Global,
    replica: &'s Turn<M>,
    gate: &'s G,
    pass: &mut Pass<M>,
    mut jobs: Vec<PreparedJob>,
    all: &mut Vec<Replies>,
) -> Result<(), NoThread>
    requires send { IsSend M.row × IsSync R.row × IsSync G.row }
    requires table { pass.old.table ≡ replica.now.table }
    requires capacity { (all.old.items ≡ []) × (length jobs.items ≤ vec_capacity all.old) }
    ensures table { pass.new.table ≡ pass.old.table }
    ensures capacity { vec_capacity all.old ≤ vec_capacity all.new }
    ensures fanned { HasFanned pass.old.view jobs.items result all.new.items pass.new.view }
{
    let Some(prepared) = jobs.pop() else {
        return Ok(());
    };
    let mine = replica.pass(pass);
    let child = start_job(scope, rt, alloc, replica, gate, mine, prepared)?;
    let rest = fan_out(scope, rt, alloc, replica, gate, pass, jobs, all);
    let (theirs, replies) = child.join(rt);
    replica.end(pass, theirs);
    if let Err(none) = rest {
        return Err(none);
    }
    all.push_reserved(replies);
    Ok(())
}

// A job with its buffer, and with capacity for its replies. The buffer's capacity is valid, so only
// an allocation can fail.
fn prepare_job(alloc: Global, number: usize, job: Job) -> Result<PreparedJob, AllocError>
    requires { IsCapacity job.cap }
    ensures { IfOk result (IsPrepared job) }
{
    let Job { cap, steps } = job;
    let Ok(buffer) = RefBuffer::new(alloc, cap) else {
        return Err(AllocError);
    };
    let replies = Replies::with_capacity(alloc, steps.len())?;
    Ok(PreparedJob {
        job: number,
        buffer,
        steps,
        replies,
    })
}

// The jobs with their buffers, and with capacity for their replies.
fn prepare_jobs(alloc: Global, jobs: Vec<Job>) -> Result<Vec<PreparedJob>, AllocError>
    requires { HaveCapacities jobs.items }
    ensures { IfOk result (λ v. ArePrepared jobs.items v.items) }
{
    let mut all = Vec::with_capacity(alloc, jobs.len())?;
    for job in jobs {
        let number = all.len();
        all.push_reserved(prepare_job(alloc, number, job)?);
    }
    Ok(all)
}

// Whether each job has a valid buffer capacity.
fn have_capacities(jobs: &[Job]) -> bool
    ensures { IsTrue result ↔ HaveCapacities jobs.now }
{
    jobs.iter()
        .all(|job| 1 <= job.cap && job.cap <= MAX_CAPACITY)
}

// Runs the prepared jobs, with a pass of their own.
fn run_prepared<M: BatchMachine + Send, R: Threads + Wait + Sync, G: Gate + Sync>(
    rt: &R,
    alloc: Global,
    replica: &Turn<M>,
    gate: &G,
    own: Pass<M>,
    prepared: Vec<PreparedJob>,
    all: Vec<Replies>,
) -> (Pass<M>, Result<Vec<Replies>, NoThread>)
    requires table { own.table ≡ replica.now.table }
    requires capacity { (all.items ≡ []) × (length prepared.items ≤ vec_capacity all) }
    ensures table { result.0.table ≡ own.table }
    ensures fanned { Fanned own.view prepared.items result.1 result.0.view }
{
    thread::scope(
        thread::scope_env(),
        rt,
        move |scope| -> (Pass<M>, Result<Vec<Replies>, NoThread>)
            requires { IsSend M.row × IsSync R.row × IsSync G.row
                × (own.table ≡ replica.now.table)
                × (all.items ≡ []) × (length prepared.items ≤ vec_capacity all) }
            ensures { (result.0.table ≡ own.table)
                × Fanned own.view prepared.items result.1 result.0.view }
        {
            let mut own = own;
            let mut all = all;
            match fan_out(
                scope, rt, alloc, replica, gate, &mut own, prepared, &mut all,
            ) {
                Ok(()) => (own, Ok(all)),
                Err(none) => (own, Err(none)),
            }
        },
    )
}

/// Runs each job in a thread of its own, and ends their passes into this one. There may be at most
/// [`MAX_JOBS`] jobs. The replies are in the order of the jobs, one for each step. References in a
/// job's buffer after its last step are dropped.
///
/// Each job's part of the history is exactly its flushes and calls, in order, with the replies of
/// its steps. A step is answered `TurnsSpent` only if its job found no ticket left, and then no
/// later flush or call of the job is served. The pass makes no call of its own. The job's own thread
/// calls the [`Gate`] before and after each step.
///
/// # Errors
/// - `BadCapacity`: a job requests a buffer capacity outside 1 to [`warm_refbuffer::MAX_CAPACITY`].
///   The pass is as it was, and no job was started.
/// - `Memory`: the allocation of a buffer or of replies failed. The pass is as it was, and no job
///   was started.
/// - `NoThread`: a thread could not be started; this includes an allocation failure on starting it.
///   The jobs that were started have run to their end, and the pass has seen their calls.
pub fn run_workers<M: BatchMachine + Send, R: Threads + Wait + Sync, G: Gate + Sync>(
    rt: &R,
    alloc: Global,
    replica: &Turn<M>,
    pass: &mut Pass<M>,
    jobs: Vec<Job>,
    gate: &G,
) -> Result<Vec<Replies>, RunFault>
    requires table { pass.old.table ≡ replica.now.table }
    requires few { length jobs.items ≤ MAX_JOBS }
    ensures table { pass.new.table ≡ pass.old.table }
    ensures went { IfOk result (λ all. JobsWent pass.old.view jobs.items all.items pass.new.view) }
    ensures capacity { (result ≡ Err RunFault.BadCapacity) ↔ (¬ HaveCapacities jobs.items) }
    ensures started { result ≡ Err RunFault.NoThread → HasSeenMore pass.old.view pass.new.view }
    ensures refused { IfErr result
        (λ fault. ¬ (fault ≡ RunFault.NoThread) → pass.new ≡ pass.old) }
{
    if !have_capacities(&jobs) {
        return Err(RunFault::BadCapacity);
    }
    let prepared = prepare_jobs(alloc, jobs)?;
    let all = Vec::with_capacity(alloc, prepared.len())?;
    let own = replica.pass(pass);
    let (own, ran) = run_prepared(rt, alloc, replica, gate, own, prepared, all);
    replica.end(pass, own);
    let replies = ran?;
    Ok(replies)
}
