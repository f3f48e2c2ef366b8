//! The runs of all replicas at the same time, each in a thread of its own.
ghost use Rattle.std.specs.Prelude.{◌≡◌, ◌≢◌, ◌↔◌, ◌≤◌, length, map};
ghost use Rattle.std.specs.Prelude.{IfErr, IfOk, IfSome, IsNone, Err, Ok};
ghost use Rattle.std.specs.List.{All};
ghost use Rattle.warm_replica.specs.declared.job_threads.TheConstants.{MAX_JOBS};
ghost use Rattle.warm_replica.specs.Pairs.{Pairs};
ghost use Rattle.warm_threads.specs.declared.fault.ReplicaRunFault.TheVariants.{Closed};
ghost use Rattle.warm_threads.specs.Exchanges.{IsReceipt, SendsAll};
ghost use Rattle.warm_threads.specs.Works.{LeadsBy, Went, Works};

use crate::exchange::{SharedMail, hear_all, send_all};
use crate::fault::ReplicaRunFault;
use crate::work::work;
use crossbeam_channel::{Receiver, Sender, unbounded};
use std::alloc::{AllocError, Global};
use std::sync::Wait;
use std::thread;
use std::thread::Threads;
use warm_replica::{BatchMachine, Job};

// The run of a replica, which works, sends and then receives: its machine, the jobs of its workers,
// the channels to which it sends its history, and the channel of its mail.
#[derive(Drop)]
struct ReplicaRun<M> {
    machine: M,
    jobs: Vec<Job>,
    boxes: Vec<Sender<SharedMail>>,
    receiver: Receiver<SharedMail>,
}

impl<M: BatchMachine + Send + Drop> ReplicaRun<M> {
    // Has the workers do their jobs. None is left.
    fn work<R: Threads + Wait + Sync>(
        self,
        rt: &R,
        alloc: Global,
    ) -> Result<ReplicaRun<M>, ReplicaRunFault>
        requires { length self.jobs.items ≤ MAX_JOBS }
        ensures { IfOk result
            (λ run. Works M.goes self.jobs.items (M.view self.machine) (M.view run.machine)) }
    {
        let ReplicaRun {
            machine,
            jobs,
            boxes,
            receiver,
        } = self;
        let machine = work(rt, alloc, machine, jobs)?;
        Ok(ReplicaRun {
            machine,
            jobs: Vec::new(alloc),
            boxes,
            receiver,
        })
    }

    // Sends the whole history, and then a Stop, to each other replica.
    fn send<R: Wait>(self, rt: &R, alloc: Global) -> Result<ReplicaRun<M>, ReplicaRunFault>
        ensures { IfOk result
            (λ run. LeadsBy M.goes SendsAll (M.view self.machine) (M.view run.machine)) }
    {
        let ReplicaRun {
            machine,
            jobs,
            boxes,
            receiver,
        } = self;
        let machine = send_all(rt, alloc, machine, &boxes)?;
        Ok(ReplicaRun {
            machine,
            jobs,
            boxes,
            receiver,
        })
    }

    // Receives what each other replica has sent, up to its Stop, and ends the run.
    fn receive<R: Wait>(self, rt: &R, alloc: Global) -> Result<M, ReplicaRunFault>
        ensures { IfOk result
            (λ m. LeadsBy M.goes (All IsReceipt) (M.view self.machine) (M.view m)) }
    {
        let ReplicaRun {
            machine,
            jobs: _,
            boxes,
            receiver,
        } = self;
        let stops = boxes.len() as u64;
        drop(boxes);
        let machine = hear_all(rt, alloc, machine, receiver, stops)?;
        Ok(machine)
    }
}

// Why runs failed: the first fault other than `Closed`. A replica finds a closed channel only after
// another has failed.
fn first_error<T>(results: &[Result<T, ReplicaRunFault>]) -> Option<ReplicaRunFault>
    ensures cause { IfSome result (λ why. why ≢ Closed) }
    ensures none { IsNone result ↔ All (λ r. IfErr r (λ why. why ≡ Closed)) results.now }
{
    for result in results {
        match result {
            Ok(_) | Err(ReplicaRunFault::Closed) => {}
            Err(why) => return Some(*why),
        }
    }
    None
}

// The values of the results, if all are Ok. The fault is `Closed` only if no result has another.
fn all_or_first_error<T: Drop>(
    alloc: Global,
    results: Vec<Result<T, ReplicaRunFault>>,
) -> Result<Vec<T>, ReplicaRunFault>
    ensures whole { IfOk result (λ v. Pairs (λ r t. r ≡ Ok t) results.items v.items) }
    ensures closed { result ≡ Err Closed → All (λ r. IfErr r (λ why. why ≡ Closed)) results.items }
{
    if let Some(why) = first_error(&results) {
        return Err(why);
    }
    let mut all = Vec::with_capacity(alloc, results.len())?;
    for result in results {
        all.push(result?)?;
    }
    Ok(all)
}

// All workers of all replicas do their jobs at the same time.
fn all_work<M: BatchMachine + Send + Drop, R: Threads + Wait + Sync>(
    rt: &R,
    alloc: Global,
    runs: Vec<ReplicaRun<M>>,
) -> Result<Vec<ReplicaRun<M>>, ReplicaRunFault>
    requires few { All (λ r. length r.jobs.items ≤ MAX_JOBS) runs.items }
    ensures { IfOk result (λ v. Pairs (λ r next. Works M.goes r.jobs.items
        (M.view r.machine) (M.view next.machine)) runs.items v.items) }
{
    let phase = move |run: ReplicaRun<M>| -> Result<ReplicaRun<M>, ReplicaRunFault>
        requires { length run.jobs.items ≤ MAX_JOBS }
        ensures { IfOk result (λ next. Works M.goes run.jobs.items
            (M.view run.machine) (M.view next.machine)) }
    { run.work(rt, alloc) };
    let done = thread::map_vec(rt, runs, &phase)?;
    all_or_first_error(alloc, done)
}

// Each sends its whole history.
fn all_send<M: BatchMachine + Send + Drop, R: Threads + Wait + Sync>(
    rt: &R,
    alloc: Global,
    runs: Vec<ReplicaRun<M>>,
) -> Result<Vec<ReplicaRun<M>>, ReplicaRunFault>
    ensures { IfOk result (λ v. Pairs (λ r next. LeadsBy M.goes SendsAll
        (M.view r.machine) (M.view next.machine)) runs.items v.items) }
{
    let phase = move |run: ReplicaRun<M>| -> Result<ReplicaRun<M>, ReplicaRunFault>
        ensures { IfOk result (λ next. LeadsBy M.goes SendsAll
            (M.view run.machine) (M.view next.machine)) }
    { run.send(rt, alloc) };
    let done = thread::map_vec(rt, runs, &phase)?;
    all_or_first_error(alloc, done)
}

// Each receives all that the others have sent.
fn all_receive<M: BatchMachine + Send + Drop, R: Threads + Wait + Sync>(
    rt: &R,
    alloc: Global,
    runs: Vec<ReplicaRun<M>>,
) -> Result<Vec<M>, ReplicaRunFault>
    ensures { IfOk result (λ v. Pairs (λ r m. LeadsBy M.goes (All IsReceipt)
        (M.view r.machine) (M.view m)) runs.items v.items) }
{
    let phase = move |run: ReplicaRun<M>| -> Result<M, ReplicaRunFault>
        ensures { IfOk result
            (λ m. LeadsBy M.goes (All IsReceipt) (M.view run.machine) (M.view m)) }
    { run.receive(rt, alloc) };
    let done = thread::map_vec(rt, runs, &phase)?;
    all_or_first_error(alloc, done)
}

// Both ends of `count` channels.
fn channels(
    alloc: Global,
    count: usize,
) -> Result<(Vec<Sender<SharedMail>>, Vec<Receiver<SharedMail>>), AllocError>
    ensures { IfOk result (λ ends. length ends.1.items ≡ count) }
{
    let mut senders = Vec::with_capacity(alloc, count)?;
    let mut receivers = Vec::with_capacity(alloc, count)?;
    for _ in 0..count {
        let (sender, receiver) = unbounded(alloc)?;
        senders.push(sender)?;
        receivers.push(receiver)?;
    }
    Ok((senders, receivers))
}

// The channels of all but one.
fn others(
    alloc: Global,
    senders: &[Sender<SharedMail>],
    but: usize,
) -> Result<Vec<Sender<SharedMail>>, AllocError> {
    let mut boxes = Vec::with_capacity(alloc, senders.len())?;
    for at in 0..senders.len() {
        if at != but {
            boxes.push(senders[at].clone()?)?;
        }
    }
    Ok(boxes)
}

// A run of each machine, with its jobs and its channels.
fn runs_of<M: Drop>(
    alloc: Global,
    machines: Vec<M>,
    jobs: Vec<Vec<Job>>,
) -> Result<Vec<ReplicaRun<M>>, AllocError>
    requires { length jobs.items ≡ length machines.items }
    ensures machines { IfOk result (λ v. map (λ c. c.machine) v.items ≡ machines.items) }
    ensures jobs { IfOk result (λ v. map (λ c. c.jobs) v.items ≡ jobs.items) }
{
    let (senders, receivers) = channels(alloc, machines.len())?;
    let mut lists = jobs.into_iter();
    let mut ends = receivers.into_iter();
    let mut runs = Vec::with_capacity(alloc, machines.len())?;
    for machine in machines {
        let boxes = others(alloc, &senders, runs.len())?;
        let Some(jobs) = lists.next() else {
            unreachable!()
        };
        let Some(receiver) = ends.next() else {
            unreachable!()
        };
        runs.push(ReplicaRun {
            machine,
            jobs,
            boxes,
            receiver,
        })?;
    }
    Ok(runs)
}

/// Has each machine's workers do their jobs, in threads of their own, and then has each machine
/// send every bucket whole to each other, and receive what was sent to it.
///
/// # Errors
/// `Memory`: an allocation failed, including one of a worker, of a machine or of a channel.
/// `NoThread`: a worker's thread could not be started, or left a call unfinished. `Closed`: a
/// replica ended before all was sent to it, and none has another fault. All machines are dropped.
pub(crate) fn run_all<M: BatchMachine + Send + Drop, R: Threads + Wait + Sync>(
    rt: &R,
    alloc: Global,
    machines: Vec<M>,
    jobs: Vec<Vec<Job>>,
) -> Result<Vec<M>, ReplicaRunFault>
    requires each { length jobs.items ≡ length machines.items }
    requires few { All (λ list. length list.items ≤ MAX_JOBS) jobs.items }
    ensures { IfOk result (λ v. Went M.goes (map M.view machines.items) jobs.items
        (map M.view v.items)) }
{
    let runs = runs_of(alloc, machines, jobs)?;
    let worked = all_work(rt, alloc, runs)?;
    let sent = all_send(rt, alloc, worked)?;
    all_receive(rt, alloc, sent)
}
