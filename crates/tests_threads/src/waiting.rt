//! A page is read while another thread touches what it has referenced: a touch never waits.
use crate::jobs::{FIRST, run_over};
use crate::setup::{comes, list_of, node_over};
use std::alloc::Global;
use std::process::Abort;
use std::sync::atomic::{AtomicU64, Ordering};
use std::sync::{Arc, Wait};
use std::thread::Threads;
use std::time::Clock;
use test_kit::{HookedDevice, Hooks, memory, page, seen};
use warm_gossip::{Call, Reply};
use warm_replica::{BatchMachine, BoxedCall, Gate, Job, Replies, Step, StepReply};

// The flags that two threads set for each other.
#[derive(Drop)]
struct Flags {
    // The device is being read.
    reading: AtomicU64,
    // The other thread has touched.
    touched: AtomicU64,
    // A wait came to its limit.
    late: AtomicU64,
    // The gate was called before the step that pins, and not yet after it.
    pinning: AtomicU64,
    // The device was read outside that step.
    outside: AtomicU64,
}

impl Flags {
    fn down(rt: &impl Abort, alloc: Global) -> Arc<Flags, Global> {
        let flags = Flags {
            reading: AtomicU64::new(0),
            touched: AtomicU64::new(0),
            late: AtomicU64::new(0),
            pinning: AtomicU64::new(0),
            outside: AtomicU64::new(0),
        };
        Arc::new(alloc, flags).expect(rt, "memory for flags")
    }

    fn wait<C: Clock>(&self, clock: &C, flag: &AtomicU64) {
        if !comes(clock, flag, 1) {
            self.late.store(1, Ordering::SeqCst);
        }
    }
}

// The reads of a device wait until the other thread has touched. They belong to the step that pins.
#[derive(Drop)]
struct SlowReads {
    clock: HostRuntime,
    flags: Arc<Flags, Global>,
}

impl Hooks for SlowReads {
    fn before_read(&self) {
        if self.flags.pinning.load(Ordering::SeqCst) == 0 {
            self.flags.outside.store(1, Ordering::SeqCst);
        }
        self.flags.reading.store(1, Ordering::SeqCst);
        self.flags.wait(&self.clock, &self.flags.touched);
    }

    fn at_drop(&self, _waiting: bool) {}

    fn page_at_drop(&self, _no: u64, _bytes: &[u8]) {}
}

// The job that touches, after the one that pins.
const TOUCHES: usize = 1;

// The touching job does so while the device is being read.
#[derive(Drop)]
struct WhileRead<'a, C: Clock> {
    clock: &'a C,
    flags: &'a Flags,
}

impl<'a, C: Clock> Gate for WhileRead<'a, C> {
    fn before(&self, job: usize, _step: usize) {
        if job == TOUCHES {
            self.flags.wait(self.clock, &self.flags.reading);
        } else {
            self.flags.pinning.store(1, Ordering::SeqCst);
        }
    }

    fn after(&self, job: usize, _step: usize) {
        if job == TOUCHES {
            self.flags.touched.store(1, Ordering::SeqCst);
        } else {
            self.flags.pinning.store(0, Ordering::SeqCst);
        }
    }
}

// A slow device of 8 pages.
fn slow_device(
    rt: &impl Abort,
    alloc: Global,
    clock: HostRuntime,
    flags: &Arc<Flags, Global>,
) -> HookedDevice<SlowReads> {
    let flags = Arc::try_clone(flags).expect(rt, "one owner more");
    let inner = memory(alloc, 8).expect(rt, "memory for a device");
    HookedDevice::new(alloc, inner, SlowReads { clock, flags }).expect(rt, "memory for a page")
}

// A job of one step.
fn job_of(rt: &impl Abort, alloc: Global, step: Step) -> Job {
    let steps = vec![in alloc; step].expect(rt, "memory for a step");
    Job { cap: 1, steps }
}

// A job that pins 0:1, and one that touches it.
fn two_jobs(rt: &impl Abort, alloc: Global) -> Vec<Job> {
    let touches = job_of(rt, alloc, Step::Touch(seen(page(1), 1, 1)));
    let call = BoxedCall::new(alloc, Call::Pin(page(1))).expect(rt, "memory for a call");
    let pins = job_of(rt, alloc, Step::Call(call));
    vec![in alloc; pins, touches].expect(rt, "memory for two jobs")
}

// A pin and a touch in threads of their own, and the replies to each.
fn pins_and_touches<
    M: BatchMachine + Drop + Send,
    R: Threads + Wait + Abort + Sync,
    G: Gate + Sync,
>(rt: &R, alloc: Global, machine: M, gate: &G) -> (Replies, Replies) {
    let (ran, _machine) = run_over(rt, alloc, machine, two_jobs(rt, alloc), gate);
    let mut replies = ran.expect(rt, "the jobs run");
    let touched = replies.pop().expect(rt, "the touch is answered");
    let pinned = replies.pop().expect(rt, "the pin is answered");
    (pinned, touched)
}

// Whether the only step was a pin, answered with the first slot.
fn is_pinned(replies: &[StepReply]) -> bool {
    let [StepReply::Answered(reply)] = replies else {
        return false;
    };
    match reply.as_reply() {
        Reply::Pinned(slot) => *slot == FIRST,
        _ => false,
    }
}

// Whether the pin and the touch are answered over a slow device.
fn are_answered<R: Clock + Threads + Wait + Abort + Sync>(
    rt: &R,
    alloc: Global,
    clock: HostRuntime,
    flags: &Arc<Flags, Global>,
) -> bool {
    let node = node_over(rt, alloc, 1, 1, slow_device(rt, alloc, clock, flags));
    let gate = WhileRead { clock: rt, flags };
    let (pinned, touched) = pins_and_touches(rt, alloc, node, &gate);
    let pinned = list_of(rt, alloc, pinned);
    is_pinned(pinned.as_slice()) && touched.len() == 1 && touched.are_taken()
}

#[test]
fn a_touch_waits_for_no_device(rt: HostRuntime) {
    let flags = Flags::down(&rt, rt.alloc());
    let clock = rt.clone().expect(&rt, "a runtime more");
    assert!(rt; are_answered(&rt, rt.alloc(), clock, &flags));
    assert!(rt; flags.late.load(Ordering::SeqCst) == 0);
    assert!(rt; flags.outside.load(Ordering::SeqCst) == 0);
}
