//! Nodes, turns and workers that the tests start with, a bounded wait, and lists of replies.
ghost use Rattle.std.specs.Prelude.{◌≡◌};

use std::alloc::Global;
use std::process::Abort;
use std::sync::atomic::{AtomicU64, Ordering};
use std::thread;
use std::time::{Clock, Duration};
use test_kit::{alone, memory, replica};
use warm_devices::{MemDevice, PageDevice};
use warm_gossip::{Node, Reply};
use warm_pool::Pool;
use warm_refbuffer::RefBuffer;
use warm_replica::{BatchMachine, Replies, StepReply, Worker};
use warm_stamps::PageList;
use warm_turn::{Pass, Turn};

// A node of a replica with this many frames over a device.
pub(crate) fn node_over<D: PageDevice>(
    rt: &impl Abort,
    alloc: Global,
    number: u16,
    frames: usize,
    device: D,
) -> Node<D> {
    let devices = alone(alloc, device).expect(rt, "memory for a list");
    match Pool::new(alloc, frames, 16, devices) {
        Ok(pool) => Node::new(alloc, replica(number), pool),
        Err(_) => panic!(rt; "no pool"),
    }
}

// A node of a replica with two frames over a device of 8 pages.
pub(crate) fn node_of(rt: &impl Abort, alloc: Global, number: u16) -> Node<MemDevice> {
    let device = memory(alloc, 8).expect(rt, "memory for a device");
    node_over(rt, alloc, number, 2, device)
}

// The same of replica 1.
pub(crate) fn fresh_node(rt: &impl Abort, alloc: Global) -> Node<MemDevice> {
    node_of(rt, alloc, 1)
}

// A turn over this machine, and its first pass.
pub(crate) fn turn_over<M: BatchMachine + Drop>(
    rt: &impl Abort,
    alloc: Global,
    machine: M,
) -> (Turn<M>, Pass<M>)
    ensures { result.1.table ≡ result.0.table }
{
    Turn::new(alloc, machine)
        .ok()
        .expect(rt, "memory for a turn")
}

// The same, and a worker whose buffer holds two references.
pub(crate) fn turn_and_worker<M: BatchMachine + Drop>(
    rt: &impl Abort,
    alloc: Global,
    machine: M,
) -> (Turn<M>, Worker<M>)
    ensures { result.1.pass.table ≡ result.0.table }
{
    let buffer = RefBuffer::new(alloc, 2).expect(rt, "memory for references");
    let (turn, pass) = turn_over(rt, alloc, machine);
    (turn, Worker::new(pass, buffer))
}

// Whether a word reaches this value: it is polled at most 10,000 times, a millisecond apart.
pub(crate) fn comes<C: Clock>(clock: &C, word: &AtomicU64, wanted: u64) -> bool {
    for _ in 0..10_000 {
        if word.load(Ordering::SeqCst) == wanted {
            return true;
        }
        thread::sleep(clock, Duration::from_millis(1));
    }
    false
}

// The pages of such an answer.
pub(crate) fn pages_of<E: Drop>(answer: Result<Reply, E>) -> Option<PageList> {
    match answer {
        Ok(Reply::Pages(pages)) => Some(pages),
        _ => None,
    }
}

// The replies of a job, one for each step.
pub(crate) fn list_of(rt: &impl Abort, alloc: Global, replies: Replies) -> Vec<StepReply> {
    let steps = replies.len();
    let list = replies
        .into_vec(alloc)
        .ok()
        .expect(rt, "memory for replies");
    assert!(rt; list.len() == steps);
    list
}

// The replies of each job.
pub(crate) fn listed(rt: &impl Abort, alloc: Global, all: Vec<Replies>) -> Vec<Vec<StepReply>> {
    let mut lists = Vec::with_capacity(alloc, all.len()).expect(rt, "memory for lists");
    for replies in all {
        lists
            .push(list_of(rt, alloc, replies))
            .expect(rt, "memory for a list");
    }
    lists
}
