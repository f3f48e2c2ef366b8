//! The workers of a replica, each in a thread of its own.
ghost use Rattle.std.specs.Prelude.{◌≡◌, ◌↔◌, ◌≤◌, length, IsTrue, IfOk};
ghost use Rattle.std.specs.List.{All};
ghost use Rattle.warm_replica.specs.declared.job_threads.TheConstants.{MAX_JOBS};
ghost use Rattle.warm_replica.specs.Replied.{AreTaken};
ghost use Rattle.warm_threads.specs.Works.{Works};

use crate::fault::ReplicaRunFault;
use std::alloc::Global;
use std::sync::Wait;
use std::thread::Threads;
use warm_replica::{BatchMachine, Job, NoGate, Replies, run_workers};
use warm_turn::Turn;

// Whether all steps of all jobs were taken.
fn all_taken(replies: &[Replies]) -> bool
    ensures { IsTrue result ↔ All AreTaken replies.now }
{
    replies.iter().all(|list| list.are_taken())
}

/// Has the machine's workers do their jobs, each in a thread of its own, and returns the machine
/// after all have ended.
///
/// # Errors
/// `Memory`: an allocation failed, including one of a worker or of the machine. `NoThread`: a
/// thread could not be started, or left a call unfinished.
pub(crate) fn work<M: BatchMachine + Send + Drop, R: Threads + Wait + Sync>(
    rt: &R,
    alloc: Global,
    machine: M,
    jobs: Vec<Job>,
) -> Result<M, ReplicaRunFault>
    requires few { length jobs.items ≤ MAX_JOBS }
    ensures { IfOk result
        (λ m. Works M.goes jobs.items (M.view machine) (M.view m)) }
{
    let (replica, mut pass) = Turn::new(alloc, machine)?;
    let ran = run_workers(rt, alloc, &replica, &mut pass, jobs, &NoGate);
    let closed = replica.close(pass);
    let all = ran?;
    if !all_taken(&all) {
        return Err(ReplicaRunFault::Memory);
    }
    let machine = closed?;
    Ok(machine)
}
