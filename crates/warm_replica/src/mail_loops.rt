//! Any number of mail loops, each in a thread of its own.
ghost use Rattle.std.specs.Prelude.{◌≡◌, ◌≤◌, [], List, length, vec_capacity, IfOk, OnOk};
ghost use Rattle.std.specs.Thread.{IsSync, IsSend};
ghost use Rattle.warm_replica.specs.Mails.{Listened, AllListened};

use crate::fault::NoThread;
use crate::listen::mail_loop;
use crate::mail::{Mail, MailIter};
use crate::post::{Outbox, Outboxes};
use crate::report::MailReport;
use crate::worker::Worker;
use crossbeam_channel::Receiver;
use std::alloc::Global;
use std::snapshot::Snapshot;
use std::sync::Wait;
use std::thread;
use std::thread::{Promise, PromisedHandle, Scope, Threads};
use warm_gossip::{Call, Reply};
use warm_turn::{Machine, Turn};

/// The parts of a mail loop: a replica, the worker that takes its mail, the channel of that mail,
/// and the outboxes for the answers.
#[derive(Drop)]
pub struct MailLoop<'a, M: Machine> {
    replica: &'a Turn<M>,
    worker: Worker<M>,
    receiver: Receiver<Mail>,
    boxes: Vec<Outbox>,
    ghost placed: { worker.pass.table ≡ replica.now.table },
}

impl<'a, M: Machine> MailLoop<'a, M> {
    /// A mail loop of these parts, which is not run yet. Allocation-free.
    pub fn new(
        replica: &'a Turn<M>,
        worker: Worker<M>,
        receiver: Receiver<Mail>,
        boxes: Vec<Outbox>,
    ) -> MailLoop<'a, M>
        requires { worker.pass.table ≡ replica.now.table }
        ensures worker { result.worker ≡ worker }
        ensures receiver { result.receiver ≡ receiver }
        ensures boxes { result.boxes ≡ boxes }
    {
        MailLoop {
            replica,
            worker,
            receiver,
            boxes,
        }
    }
}

// What a listening thread begins with.
#[derive(Drop)]
struct LoopStart<M: Machine> {
    worker: Snapshot<Worker<M>>,
    stops: u64,
    turns: u64,
}

impl<M: Machine<Call = Call, Reply = Reply>> Promise<(Worker<M>, MailReport)> for LoopStart<M> {
    ghost use Rattle.warm_replica.specs.Mails.{Listened};

    ghost kept_by = { λ p r. Listened p.stops p.turns p.worker.value r.1 r.0 };
}

// Takes the mail of a channel, and sends the answers to outboxes. The worker is returned.
fn listen_alone<M: Machine<Call = Call, Reply = Reply>, R: Wait>(
    rt: &R,
    alloc: Global,
    replica: &Turn<M>,
    mut worker: Worker<M>,
    receiver: Receiver<Mail>,
    boxes: Vec<Outbox>,
    stops: u64,
    turns: u64,
) -> (Worker<M>, MailReport)
    requires { worker.pass.table ≡ replica.now.table }
    ensures { Listened stops turns worker result.1 result.0 }
{
    let mail = MailIter::new(rt, receiver, turns);
    let mut post = Outboxes::new(rt, boxes);
    let report = mail_loop(
        rt,
        alloc,
        replica,
        &mut worker,
        mail,
        &mut post,
        stops,
        turns,
    );
    (worker, report)
}

// One mail loop.
fn listen_at<M: Machine<Call = Call, Reply = Reply>, R: Wait>(
    rt: &R,
    alloc: Global,
    one: MailLoop<'_, M>,
    stops: u64,
    turns: u64,
) -> (Worker<M>, MailReport)
    ensures { Listened stops turns one.entry.worker result.1 result.0 }
{
    let MailLoop {
        replica,
        worker,
        receiver,
        boxes,
    } = one;
    listen_alone(rt, alloc, replica, worker, receiver, boxes, stops, turns)
}

// Starts a mail loop in a thread of its own.
fn start_mail_loop<'s, E, M: Machine<Call = Call, Reply = Reply> + Send + 's, R: Wait + Sync>(
    scope: &Scope<'s, E>,
    rt: &'s R,
    alloc: Global,
    one: MailLoop<'s, M>,
    stops: u64,
    turns: u64,
) -> Result<PromisedHandle<(Worker<M>, MailReport), LoopStart<M>>, NoThread>
    requires send { IsSend M.row × IsSync R.row }
    ensures worker { IfOk result (λ child. child.promise.worker.value ≡ one.entry.worker) }
    ensures stops { IfOk result (λ child. child.promise.stops ≡ stops) }
    ensures turns { IfOk result (λ child. child.promise.turns ≡ turns) }
{
    let start = LoopStart {
        worker: Snapshot::of(&one.worker),
        stops,
        turns,
    };
    let child = scope.spawn_with(
        start,
        move || -> (Worker<M>, MailReport)
            ensures { Listened stops turns one.entry.worker result.1 result.0 }
        { listen_at(rt, alloc, one, stops, turns) },
    )?;
    Ok(child)
}

// Runs each mail loop in a thread of its own, the last one first to start.
pub(crate) fn listen_all<
    's,
    E,
    M: Machine<Call = Call, Reply = Reply> + Send + 's,
    R: Threads + Wait + Sync,
>(
    scope: &Scope<'s, E>,
    rt: &'s R,
    alloc: Global,
    mut loops: Vec<MailLoop<'s, M>>,
    stops: u64,
    turns: u64,
    all: &mut Vec<(Worker<M>, MailReport)>,
) -> Result<(), NoThread>
    requires send { IsSend M.row × IsSync R.row }
    requires capacity { (all.old.items ≡ []) × (length loops.items ≤ vec_capacity all.old) }
    ensures capacity { vec_capacity all.old ≤ vec_capacity all.new }
    ensures heard { OnOk result
        (AllListened (λ s. s.worker) stops turns loops.entry.items all.new.items) }
{
    let Some(one) = loops.pop() else {
        return Ok(());
    };
    let child = start_mail_loop(scope, rt, alloc, one, stops, turns)?;
    let rest = listen_all(scope, rt, alloc, loops, stops, turns, all);
    let heard = child.join(rt);
    if let Err(none) = rest {
        return Err(none);
    }
    all.push_reserved(heard);
    Ok(())
}

// The same in a scope.
fn run_in_scope<'a, M: Machine<Call = Call, Reply = Reply> + Send, R: Threads + Wait + Sync>(
    rt: &'a R,
    alloc: Global,
    loops: Vec<MailLoop<'a, M>>,
    stops: u64,
    turns: u64,
    all: Vec<(Worker<M>, MailReport)>,
) -> Result<Vec<(Worker<M>, MailReport)>, NoThread>
    requires { (all.items ≡ []) × (length loops.items ≤ vec_capacity all) }
    ensures { IfOk result
        (λ v. AllListened (λ s. s.worker) stops turns loops.entry.items v.items) }
{
    let (_, ran) = thread::scope(
        thread::scope_env(),
        rt,
        move |scope| -> ((), Result<Vec<(Worker<M>, MailReport)>, NoThread>)
            requires { IsSend M.row × IsSync R.row
                × (all.items ≡ []) × (length loops.items ≤ vec_capacity all) }
            ensures { IfOk result.1
                (λ v. AllListened (λ s. s.worker) stops turns loops.entry.items v.items) }
        {
            let mut all = all;
            match listen_all(scope, rt, alloc, loops, stops, turns, &mut all) {
                Ok(()) => ((), Ok(all)),
                Err(none) => ((), Err(none)),
            }
        },
    );
    ran
}

/// Runs each mail loop in a thread of its own, as [`crate::mail_loop`] does, until `stops` Stops or
/// `turns` items, and returns its worker, with its buffer unchanged, and its counts, in the order
/// of the loops. It ends when all have ended.
///
/// # Errors
/// `NoThread`: a thread could not be started, or an allocation failed. The threads that were
/// started have run to their end; the workers are dropped with the references in their buffers, and
/// their calls stay in the histories of their replicas.
pub fn run_mail_loops<'a, M: Machine<Call = Call, Reply = Reply> + Send, R: Threads + Wait + Sync>(
    rt: &'a R,
    alloc: Global,
    loops: Vec<MailLoop<'a, M>>,
    stops: u64,
    turns: u64,
) -> Result<Vec<(Worker<M>, MailReport)>, NoThread>
    ensures { IfOk result
        (λ v. AllListened (λ s. s.worker) stops turns loops.entry.items v.items) }
{
    let all = Vec::with_capacity(alloc, loops.len())?;
    run_in_scope(rt, alloc, loops, stops, turns, all)
}
