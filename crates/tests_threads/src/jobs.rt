//! Jobs in threads of their own: four that meet, the limits of a buffer, the greatest number of
//! jobs of a run, and the contents of a node after jobs and after a flush.
ghost use Rattle.std.specs.Prelude.{◌≡◌};

use crate::setup::{comes, fresh_node, listed, pages_of, turn_and_worker, turn_over};
use std::alloc::Global;
use std::process::Abort;
use std::sync::Wait;
use std::sync::atomic::{AtomicU64, Ordering};
use std::thread::Threads;
use std::time::Clock;
use test_kit::{entry, once, page, seen};
use warm_devices::MemDevice;
use warm_gossip::{Call, Node, Reply};
use warm_pool::Slot;
use warm_replica::{
    BatchMachine, BoxedCall, Gate, Job, MAX_JOBS, NoGate, Replies, RunFault, Step, StepReply,
    run_workers,
};
use warm_stamps::PageId;
use warm_turn::{Pass, Turn};

// A gate at which four jobs wait for one another before their first step: the number that arrived,
// and the number that saw all arrive. The calls of each job are counted, and each has to be the
// next of its job: before step 0, after it, before step 1, and so on.
#[derive(Drop)]
struct Meeting<'a, C: Clock> {
    clock: &'a C,
    here: AtomicU64,
    met: AtomicU64,
    calls: [AtomicU64; 4],
    // A call was not the next of its job, or of none of the four.
    disorder: AtomicU64,
}

impl<'a, C: Clock> Meeting<'a, C> {
    fn new(clock: &'a C) -> Meeting<'a, C> {
        Meeting {
            clock,
            here: AtomicU64::new(0),
            met: AtomicU64::new(0),
            calls: [
                AtomicU64::new(0),
                AtomicU64::new(0),
                AtomicU64::new(0),
                AtomicU64::new(0),
            ],
            disorder: AtomicU64::new(0),
        }
    }

    // A call of a job, which has to come after this many others of it.
    fn count(&self, job: usize, earlier: usize) {
        let mut is_next = false;
        if let Some(calls) = self.calls.as_slice().get(job) {
            is_next = calls.fetch_add(1, Ordering::SeqCst) == earlier as u64;
        }
        if !is_next {
            self.disorder.store(1, Ordering::SeqCst);
        }
    }

    // The number of calls of each job.
    fn counts(&self) -> [u64; 4] {
        let [first, second, third, fourth] = &self.calls;
        [
            first.load(Ordering::SeqCst),
            second.load(Ordering::SeqCst),
            third.load(Ordering::SeqCst),
            fourth.load(Ordering::SeqCst),
        ]
    }
}

impl<'a, C: Clock> Gate for Meeting<'a, C> {
    fn before(&self, job: usize, step: usize) {
        self.count(job, step.wrapping_mul(2));
        if step > 0 {
            return;
        }
        self.here.fetch_add(1, Ordering::SeqCst);
        if comes(self.clock, &self.here, 4) {
            self.met.fetch_add(1, Ordering::SeqCst);
        }
    }

    fn after(&self, job: usize, step: usize) {
        self.count(job, step.wrapping_mul(2).wrapping_add(1));
    }
}

// Runs jobs, of which there are at most MAX_JOBS.
pub(crate) fn run<M: BatchMachine + Send, R: Threads + Wait + Abort + Sync, G: Gate + Sync>(
    rt: &R,
    alloc: Global,
    replica: &Turn<M>,
    pass: &mut Pass<M>,
    jobs: Vec<Job>,
    gate: &G,
) -> Result<Vec<Replies>, RunFault>
    requires { pass.old.table ≡ replica.now.table }
    ensures { pass.new.table ≡ replica.now.table }
{
    assert!(rt; jobs.len() <= MAX_JOBS);
    run_workers(rt, alloc, replica, pass, jobs, gate)
}

// The replies of these jobs, and the machine afterwards.
pub(crate) fn run_over<
    M: BatchMachine + Drop + Send,
    R: Threads + Wait + Abort + Sync,
    G: Gate + Sync,
>(
    rt: &R,
    alloc: Global,
    machine: M,
    jobs: Vec<Job>,
    gate: &G,
) -> (Result<Vec<Replies>, RunFault>, M) {
    let (replica, mut pass) = turn_over(rt, alloc, machine);
    let ran = run(rt, alloc, &replica, &mut pass, jobs, gate);
    (
        ran,
        replica.close(pass).expect(rt, "each ticket was passed on"),
    )
}

// A step that makes a call.
fn make(rt: &impl Abort, alloc: Global, call: Call) -> Step {
    Step::Call(BoxedCall::new(alloc, call).expect(rt, "memory for a call"))
}

// A job that requests the victim. If it has five steps, three touches of its page and a flush come
// before. Its buffer holds two. Then come as many flushes as the number of its page, so that each
// of four jobs has another number of steps.
fn job_of(rt: &impl Abort, alloc: Global, no: u64, five: bool) -> Job {
    let victim = make(rt, alloc, Call::Victim);
    let mut steps = if five {
        vec![in alloc;
            Step::Touch(seen(page(no), u64::wrapping_add(10, no), 1)),
            Step::Touch(seen(page(no), u64::wrapping_add(20, no), 1)),
            Step::Touch(seen(page(no), 30, 1)),
            Step::Flush,
            victim,
        ]
        .expect(rt, "memory for steps")
    } else {
        vec![in alloc; victim].expect(rt, "memory for a step")
    };
    for _ in 0..no {
        steps.push(Step::Flush).expect(rt, "memory for a step");
    }
    Job { cap: 2, steps }
}

// No page is resident. Two references fit, and the third is given back.
fn is_answered(replies: &[StepReply], no: u64) -> bool {
    let (reply, back) = match replies {
        [StepReply::Answered(reply)] => (reply, None),
        [
            StepReply::Touched,
            StepReply::Touched,
            StepReply::Full(back),
            StepReply::Flushed,
            StepReply::Answered(reply),
        ] => (reply, Some(*back)),
        _ => return false,
    };
    let Reply::Page(None) = reply.as_reply() else {
        return false;
    };
    back.unwrap_or(seen(page(no), 30, 1)) == seen(page(no), 30, 1)
}

// The same, and then this many flushes.
fn is_answered_and_flushed(replies: &[StepReply], no: usize) -> bool {
    let (first, flushes) = replies.split_at(replies.len().saturating_sub(no));
    for reply in flushes {
        let StepReply::Flushed = reply else {
            return false;
        };
    }
    flushes.len() == no && is_answered(first, no as u64)
}

// Whether each of four jobs is answered.
fn are_answered(all: &[Vec<StepReply>]) -> bool {
    for (no, replies) in all.iter().enumerate() {
        if !is_answered_and_flushed(replies.as_slice(), no) {
            return false;
        }
    }
    all.len() == 4
}

// Whether four jobs are answered at this gate. These are the hottest pages then.
fn are_met<R: Threads + Wait + Abort + Sync, G: Gate + Sync>(
    rt: &R,
    alloc: Global,
    gate: &G,
    five: bool,
    hottest: &[PageId],
) -> bool {
    let mut jobs = Vec::new(alloc);
    for no in 0..4 {
        jobs.push(job_of(rt, alloc, no, five))
            .expect(rt, "memory for a job");
    }
    let (ran, mut node) = run_over(rt, alloc, fresh_node(rt, alloc), jobs, gate);
    let all = listed(rt, alloc, ran.expect(rt, "the jobs run"));
    let answer: Result<Reply, RunFault> = Ok(node.call(Call::WarmList(100)));
    let pages = pages_of(answer).expect(rt, "the pages are listed");
    are_answered(&all) && pages.as_slice() == hottest
}

// Four jobs of one call, and of five steps: then each of the pages 0 to 3 was referenced twice, and
// a later one later. Behind these steps job 0 has none, and each other job one more than the job
// before it.
#[test]
fn four_jobs_meet(rt: HostRuntime) {
    let all = [page(3), page(2), page(1), page(0)];
    for (five, hottest, counts) in [
        (false, all.split_at(0).0, [2, 4, 6, 8]),
        (true, all.as_slice(), [10, 12, 14, 16]),
    ] {
        let gate = Meeting::new(&rt);
        assert!(rt; are_met(&rt, rt.alloc(), &gate, five, hottest));
        assert!(rt; gate.met.load(Ordering::SeqCst) == 4);
        assert!(rt; gate.counts() == counts);
        assert!(rt; gate.disorder.load(Ordering::SeqCst) == 0);
    }
}

// A job with a buffer of this many references and one touch.
fn one_touch(rt: &impl Abort, alloc: Global, cap: usize) -> Vec<Job> {
    let touch = Step::Touch(seen(page(1), 10, 1));
    let steps = vec![in alloc; touch].expect(rt, "memory for a step");
    vec![in alloc; Job { cap, steps }].expect(rt, "memory for a job")
}

// How such a job ends, if nothing was flushed.
fn ended<R: Threads + Wait + Abort + Sync>(
    rt: &R,
    alloc: Global,
    cap: usize,
) -> Result<(), RunFault> {
    let (ran, node) = run_over(
        rt,
        alloc,
        fresh_node(rt, alloc),
        one_touch(rt, alloc, cap),
        &NoGate,
    );
    assert!(rt; node.history().len() == 0);
    ran?;
    Ok(())
}

#[test]
fn a_buffer_holds_1_to_1024(rt: HostRuntime) {
    let refused = Err(RunFault::BadCapacity);
    for (capacity, want) in [(0, refused), (1, Ok(())), (1024, Ok(())), (1025, refused)] {
        assert!(rt; ended(&rt, rt.alloc(), capacity) == want);
    }
}

// Whether sixty-four jobs of a flush are each answered.
fn are_flushed<R: Threads + Wait + Abort + Sync>(rt: &R, alloc: Global) -> bool {
    let mut jobs = Vec::new(alloc);
    for _ in 0..64 {
        let steps = vec![in alloc; Step::Flush].expect(rt, "memory for a step");
        jobs.push(Job { cap: 1, steps })
            .expect(rt, "memory for a job");
    }
    let (ran, _node) = run_over(rt, alloc, fresh_node(rt, alloc), jobs, &NoGate);
    let all = listed(rt, alloc, ran.expect(rt, "the jobs run"));
    for replies in &all {
        let [StepReply::Flushed] = replies.as_slice() else {
            return false;
        };
    }
    all.len() == 64
}

#[test]
fn sixty_four_jobs_flush(rt: HostRuntime) {
    assert!(rt; are_flushed(&rt, rt.alloc()));
}

// The slot of the first page that is loaded into a pool.
pub(crate) const FIRST: Slot = Slot {
    index: 0,
    generation: 1,
};

// Whether a node's history has only 0:1, with one reference, and its pool only 0:5, clean, with one
// pin.
fn has_one_page(node: Node<MemDevice>) -> bool {
    let history = node.history();
    let known = history.at(0) == Some(entry(page(1), once(10, 1)));
    let just = known && history.len() == 1 && history.horizon() == 0;
    let mut pool = node.into_pool();
    for no in 0..8 {
        if pool.resident(page(no)) != (no == 5) {
            return false;
        }
    }
    if !pool.holds(FIRST) || pool.victim() != None {
        return false;
    }
    let mut bytes = [1; 16];
    let read = pool.read(FIRST, 0, &mut bytes);
    pool.unpin(FIRST);
    just && read == Ok(()) && bytes == [0; 16] && pool.victim() == Some(page(5))
}

#[test]
fn a_job_does_just_its_steps(rt: HostRuntime) {
    let alloc = rt.alloc();
    let pin = make(&rt, alloc, Call::Pin(page(5)));
    let touch = Step::Touch(seen(page(1), 10, 1));
    let steps = vec![in alloc; touch, Step::Flush, pin].expect(&rt, "memory for steps");
    let jobs = vec![in alloc; Job { cap: 1, steps }].expect(&rt, "memory for a job");
    let (_ran, node) = run_over(&rt, alloc, fresh_node(&rt, alloc), jobs, &NoGate);
    assert!(rt; has_one_page(node));
}

// The machine of a worker that has flushed one reference.
fn flushed<M: BatchMachine + Drop, R: Wait + Abort>(rt: &R, alloc: Global, machine: M) -> M {
    let (turn, mut worker) = turn_and_worker(rt, alloc, machine);
    worker.touch(seen(page(1), 10, 1)).expect(rt, "one fits");
    worker.flush(rt, alloc, &turn).expect(rt, "it is absorbed");
    let (pass, _buffer) = worker.into_parts();
    turn.close(pass).expect(rt, "each ticket was passed on")
}

#[test]
fn a_flush_absorbs_just_the_buffer(rt: HostRuntime) {
    let mut node = fresh_node(&rt, rt.alloc());
    let _pinned = node.call(Call::Pin(page(5)));
    assert!(rt; has_one_page(flushed(&rt, rt.alloc(), node)));
}
