//! Eight jobs at once, usually more than there are processors. Each reply shows its position in the
//! one legal history, so all replies of all jobs are compared with one order.
ghost use Rattle.std.specs.Prelude.{◌≡◌};

use crate::jobs::run;
use crate::setup::{fresh_node, listed, turn_over};
use std::alloc::Global;
use std::process::Abort;
use std::sync::Wait;
use std::thread::Threads;
use test_kit::{bucket, page, seen};
use warm_frames::Message;
use warm_gossip::{Call, Reply};
use warm_history::{Entry, PageHist};
use warm_replica::{BatchMachine, BoxedCall, Job, NoGate, Step, StepReply};

const JOBS: usize = 8;

// The number of rounds of each job in a run, and the number of runs.
const ROUNDS: u64 = 4_000;

const RUNS: u32 = 6;

// In each round a job touches a page of its own, flushes, and requests the node's entries of the
// pages of all jobs, which are in bucket 0. The stamp of a touch gives the round, counted from 1.
fn job_of(rt: &impl Abort, alloc: Global, job: u64) -> Job {
    let mut steps = Vec::new(alloc);
    for round in 1..=ROUNDS {
        let touch = seen(
            page(job.wrapping_mul(64)),
            round.wrapping_mul(8).wrapping_add(job),
            1,
        );
        let call = Call::Send {
            bucket: bucket(0),
            after: None,
        };
        let call = BoxedCall::new(alloc, call).expect(rt, "memory for a call");
        steps
            .push(Step::Touch(touch))
            .expect(rt, "memory for a touch");
        steps.push(Step::Flush).expect(rt, "memory for a flush");
        steps.push(Step::Call(call)).expect(rt, "memory for a step");
    }
    Job { cap: 1, steps }
}

// The replies of eight such jobs.
fn answered<M: BatchMachine + Drop + Send, R: Threads + Wait + Abort + Sync>(
    rt: &R,
    alloc: Global,
    machine: M,
) -> Vec<Vec<StepReply>> {
    let mut jobs = Vec::new(alloc);
    for job in 0..8 {
        jobs.push(job_of(rt, alloc, job))
            .expect(rt, "memory for a job");
    }
    let (replica, mut pass) = turn_over(rt, alloc, machine);
    let ran = run(rt, alloc, &replica, &mut pass, jobs, &NoGate);
    listed(rt, alloc, ran.expect(rt, "the jobs run"))
}

// The number of rounds of each job.
type Rounds = [u64; JOBS];

// The number of rounds of each job that these entries show.
fn rounds_of(entries: &[Entry]) -> Option<Rounds> {
    let mut rounds = [0; JOBS];
    for entry in entries {
        let last = match entry.hist {
            PageHist::Once(stamp) => stamp,
            PageHist::Twice(two) => two.last(),
        };
        let known = rounds.get_mut((entry.page.no / 64) as usize)?;
        *known = last.time / 8;
    }
    Some(rounds)
}

// The rounds that the reply to a job's call shows, if the job touched and flushed before.
fn shown_after(step: &[StepReply]) -> Option<Rounds> {
    let [
        StepReply::Touched,
        StepReply::Flushed,
        StepReply::Answered(reply),
    ] = step
    else {
        return None;
    };
    match reply.as_reply() {
        Reply::Sent(Message::Entries { entries, .. }) => rounds_of(entries.as_slice()),
        _ => None,
    }
}

fn total_of(rounds: &Rounds) -> u64 {
    let mut total = 0u64;
    for one in rounds {
        total = total.wrapping_add(*one);
    }
    total
}

// Whether a job that has made `own` rounds is shown exactly these of its own, and the same as
// others are shown after as many rounds in all. It is recorded.
fn is_noted(seen: &mut Vec<Option<Rounds>>, job: usize, own: u64, rounds: Rounds) -> bool {
    let Some(place) = seen.get_mut(total_of(&rounds) as usize) else {
        return false;
    };
    if rounds.get(job) != Some(&own) || place.unwrap_or(rounds) != rounds {
        return false;
    }
    *place = Some(rounds);
    true
}

// The same at each reply of a job.
fn are_noted(seen: &mut Vec<Option<Rounds>>, job: usize, replies: &[StepReply]) -> bool {
    let mut own = 0u64;
    for step in replies.chunks(3) {
        let Some(rounds) = shown_after(step) else {
            return false;
        };
        own = own.wrapping_add(1);
        if !is_noted(seen, job, own, rounds) {
            return false;
        }
    }
    own == ROUNDS
}

// Whether these are as many rounds of each job, or more.
fn has_all(rounds: &Rounds, last: &Rounds) -> bool {
    for job in 0..JOBS {
        if last[job] > rounds[job] {
            return false;
        }
    }
    true
}

// Whether each of these has all rounds of those before it.
fn are_in_one_order(seen: &[Option<Rounds>]) -> bool {
    let mut last = [0; JOBS];
    for shown in seen {
        let rounds = shown.unwrap_or(last);
        if !has_all(&rounds, &last) {
            return false;
        }
        last = rounds;
    }
    true
}

// Whether the states that the jobs of one run were shown are of one history.
fn are_of_one_history(rt: &impl Abort, alloc: Global, all: &[Vec<StepReply>]) -> bool {
    let mut seen = vec![in alloc; None; JOBS * ROUNDS as usize + 1].expect(rt, "memory for notes");
    for (job, replies) in all.iter().enumerate() {
        if !are_noted(&mut seen, job, replies) {
            return false;
        }
    }
    all.len() == JOBS && are_in_one_order(&seen)
}

// The states that the jobs were shown are of one history: ordered by their rounds, each has all
// rounds of those before it.
#[test]
fn flushes_of_eight_jobs_are_in_one_order(rt: HostRuntime) {
    for _ in 0..RUNS {
        let all = answered(&rt, rt.alloc(), fresh_node(&rt, rt.alloc()));
        assert!(rt; are_of_one_history(&rt, rt.alloc(), &all));
    }
}
