//! Threads that put references into buffers of their own, and flush these into shared shards.
ghost use Rattle.warm_concurrent.specs.Attached.{AreOf};

use crate::kit::{batch, more, shared_of};
use std::alloc::Global;
use std::process::Abort;
use std::sync::Wait;
use std::thread::{Threads, join};
use test_kit::{SeenAt, are_equal, history_of, page, seen};
use warm_concurrent::{Attached, SharedShards};
use warm_devices::MemDevice;
use warm_history::History;
use warm_refbuffer::{Full, RefBuffer};

type Shared = SharedShards<MemDevice>;

type Thread = Attached<MemDevice>;

// What each of two threads refers to: pages of all four shards, some of both threads.
const ONE: &[SeenAt] = &[
    (0, 1, 10, 1),
    (0, 2, 20, 1),
    (0, 1, 14, 1),
    (0, 3, 30, 1),
    (0, 65, 40, 1),
];

const TWO: &[SeenAt] = &[(0, 1, 12, 2), (0, 2, 15, 2), (0, 0, 5, 2), (1, 3, 9, 2)];

// A buffer for this many references.
fn buffer_of(rt: &impl Abort, alloc: Global, cap: usize) -> RefBuffer {
    let buffer = RefBuffer::new(alloc, cap);
    buffer.ok().expect(rt, "memory for a buffer")
}

// A copy of the history of all shards.
fn copied<R: Wait + Abort>(rt: &R, alloc: Global, shared: &Shared, thread: &mut Thread) -> History
    requires { AreOf shared.now thread.old.passes }
    ensures { AreOf shared.now thread.new.passes }
{
    let copy = shared.history(rt, alloc, thread);
    copy.ok().expect(rt, "memory for a copy")
}

#[test]
fn a_buffer_waits_until_it_is_flushed(rt: HostRuntime) {
    let alloc = rt.alloc();
    let (shared, mut first) = shared_of(&rt, alloc, 1, 4);
    let mut buffer = buffer_of(&rt, alloc, 2);
    let last = seen(page(3), 3, 1);
    assert!(rt; buffer.touch(seen(page(1), 1, 1)).is_ok());
    assert!(rt; buffer.touch(seen(page(2), 2, 1)).is_ok());
    assert!(rt; buffer.touch(last) == Err(Full(last)));
    assert!(rt; copied(&rt, alloc, &shared, &mut first).is_empty());
    assert!(rt; shared.flush(&rt, alloc, &mut first, &mut buffer).is_ok());
    assert!(rt; buffer.is_empty() && buffer.cap() == 2 && first.pins() == 0);
    let given = history_of(alloc, &[(0, 1, 1, 1), (0, 2, 2, 1)]).expect(
        &rt,
        "memory for a history",
    );
    assert!(rt; are_equal(&copied(&rt, alloc, &shared, &mut first), &given));
    // A buffer of no reference gives none.
    assert!(rt; shared.flush(&rt, alloc, &mut first, &mut buffer).is_ok());
    assert!(rt; are_equal(&copied(&rt, alloc, &shared, &mut first), &given));
    assert!(rt; buffer.touch(last).is_ok() && buffer.len() == 1);
}

// A thread puts its references into a buffer of three, and flushes it when it is full, and at the
// end. Whether all was taken.
fn worked<R: Wait + Abort>(
    rt: &R,
    alloc: Global,
    shared: &Shared,
    thread: Thread,
    given: &[SeenAt],
) -> (Thread, bool)
    requires { AreOf shared.now thread.passes }
    ensures { AreOf shared.now result.0.passes }
{
    let mut thread = thread;
    let mut buffer = buffer_of(rt, alloc, 3);
    for reference in batch(rt, alloc, given) {
        if buffer.touch(reference).is_ok() {
            continue;
        }
        if shared.flush(rt, alloc, &mut thread, &mut buffer).is_err() {
            return (thread, false);
        }
        buffer.start_with(reference);
    }
    let flushed = shared.flush(rt, alloc, &mut thread, &mut buffer);
    (thread, flushed.is_ok() && buffer.is_empty())
}

// Two threads work at once, and what they have is ended into the first.
fn both_worked<R: Threads + Wait + Abort + Sync>(
    rt: &R,
    alloc: Global,
    shared: &Shared,
    first: Thread,
    second: Thread,
) -> Thread
    requires { (AreOf shared.now first.passes) × (AreOf shared.now second.passes) }
    ensures { AreOf shared.now result.passes }
{
    let ((mut first, one), (second, two)) = join(
        rt,
        move || -> (Thread, bool)
            requires { AreOf shared.now first.passes }
            ensures { AreOf shared.entry.now result.0.passes }
        { worked(rt, alloc, shared, first, ONE) },
        move || -> (Thread, bool)
            requires { AreOf shared.now second.passes }
            ensures { AreOf shared.entry.now result.0.passes }
        { worked(rt, alloc, shared, second, TWO) },
    );
    assert!(rt; one && two);
    let Ok(()) = shared.detach(&mut first, second) else {
        panic!(rt; "no pin is held")
    };
    first
}

#[test]
fn two_threads_flush_their_buffers(rt: HostRuntime) {
    let alloc = rt.alloc();
    let (shared, mut first) = shared_of(&rt, alloc, 1, 4);
    let second = more(&rt, alloc, &shared, &mut first);
    let mut first = both_worked(&rt, alloc, &shared, first, second);
    let mut all = history_of(alloc, ONE).expect(&rt, "memory for a history");
    let _changed = all
        .absorb(&batch(&rt, alloc, TWO))
        .expect(&rt, "memory for entries");
    assert!(rt; are_equal(&copied(&rt, alloc, &shared, &mut first), &all));
}
