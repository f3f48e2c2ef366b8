//! Looks and changes: pages of shared shards are read and written where they lie, each in one turn.
ghost use Rattle.std.specs.Prelude.{◌≡◌};
ghost use Rattle.warm_concurrent.specs.Attached.{AreOf};

use crate::kit::{closed, dirty, more, shared_of};
use std::process::Abort;
use std::sync::Wait;
use std::thread::{Threads, join};
use test_kit::page;
use warm_concurrent::{Attached, SharedFault, SharedShards};
use warm_devices::MemDevice;
use warm_gossip::NodeFault;
use warm_pool::PoolFault;

type Shared = SharedShards<MemDevice>;

type Thread = Attached<MemDevice>;

// Adds one to the first byte, and returns it.
fn add_one(bytes: &mut [u8]) -> u8 {
    let Some(first) = bytes.first_mut() else {
        return 0;
    };
    *first = first.wrapping_add(1);
    *first
}

fn first_of(bytes: &[u8]) -> u8 {
    match bytes.first() {
        Some(byte) => *byte,
        None => 0,
    }
}

// The first byte of a page.
pub(crate) fn seen_in<R: Wait>(
    rt: &R,
    shared: &Shared,
    thread: &mut Thread,
    no: u64,
) -> Result<u8, SharedFault>
    requires { AreOf shared.now thread.old.passes }
    ensures { AreOf shared.now thread.new.passes }
{
    let byte = shared.look(rt, thread, page(no), |bytes: &[u8]| first_of(bytes))?;
    Ok(byte)
}

// Adds one to the first byte of a page.
fn added_in<R: Wait>(
    rt: &R,
    shared: &Shared,
    thread: &mut Thread,
    no: u64,
) -> Result<u8, SharedFault>
    requires { AreOf shared.now thread.old.passes }
    ensures { AreOf shared.now thread.new.passes }
{
    let byte = shared.change(rt, thread, page(no), |bytes: &mut [u8]| add_one(bytes))?;
    Ok(byte)
}

#[test]
fn a_look_sees_what_a_change_left(rt: HostRuntime) {
    let alloc = rt.alloc();
    let (shared, mut first) = shared_of(&rt, alloc, 1, 2);
    assert!(rt; seen_in(&rt, &shared, &mut first, 1) == Ok(0));
    assert!(rt; added_in(&rt, &shared, &mut first, 1) == Ok(1));
    assert!(rt; added_in(&rt, &shared, &mut first, 1) == Ok(2));
    assert!(rt; seen_in(&rt, &shared, &mut first, 1) == Ok(2));
    assert!(rt; seen_in(&rt, &shared, &mut first, 2) == Ok(0));
    assert!(rt; first.pins() == 0);
    assert!(rt; dirty(&closed(&rt, alloc, shared, first)) == 1);
}

// Adds one to the first byte of each page below this one. Whether each had none before.
fn are_added<R: Wait>(rt: &R, shared: &Shared, thread: &mut Thread, pages: u64) -> bool
    requires { AreOf shared.now thread.old.passes }
    ensures { AreOf shared.now thread.new.passes }
{
    for no in 0..pages {
        if added_in(rt, shared, thread, no) != Ok(1) {
            return false;
        }
    }
    true
}

// Whether each page below this one has one in its first byte.
fn are_seen<R: Wait>(rt: &R, shared: &Shared, thread: &mut Thread, pages: u64) -> bool
    requires { AreOf shared.now thread.old.passes }
    ensures { AreOf shared.now thread.new.passes }
{
    for no in 0..pages {
        if seen_in(rt, shared, thread, no) != Ok(1) {
            return false;
        }
    }
    true
}

// The shard has four frames, through which 16 pages go: so no look and no change leaves a pin, and
// what was changed is read back from the device.
#[test]
fn looks_and_changes_leave_no_pin(rt: HostRuntime) {
    let alloc = rt.alloc();
    let (shared, mut first) = shared_of(&rt, alloc, 1, 1);
    assert!(rt; are_added(&rt, &shared, &mut first, 16));
    assert!(rt; are_seen(&rt, &shared, &mut first, 16));
}

#[test]
fn a_page_that_no_device_has_is_not_shown(rt: HostRuntime) {
    let alloc = rt.alloc();
    let (shared, mut first) = shared_of(&rt, alloc, 1, 2);
    let absent = Err(SharedFault::Node(NodeFault::Pool(PoolFault::NoPage)));
    assert!(rt; seen_in(&rt, &shared, &mut first, 256) == absent);
    assert!(rt; added_in(&rt, &shared, &mut first, 256) == absent);
}

// Adds one to a page this many times. Whether each was answered.
fn is_counted<R: Wait>(
    rt: &R,
    shared: &Shared,
    mut thread: Thread,
    no: u64,
    times: u8,
) -> (Thread, bool)
    requires { AreOf shared.now thread.passes }
    ensures { AreOf shared.now result.0.passes }
{
    for _ in 0..times {
        if added_in(rt, shared, &mut thread, no).is_err() {
            return (thread, false);
        }
    }
    (thread, true)
}

// Two threads add one to a page 100 times each, at once, and what they have is ended into the
// first.
fn are_counted<R: Threads + Wait + Abort + Sync>(
    rt: &R,
    shared: &Shared,
    first: Thread,
    second: Thread,
) -> Thread
    requires { (AreOf shared.now first.passes) × (AreOf shared.now second.passes) }
    ensures { AreOf shared.now result.passes }
{
    let ((mut first, one), (second, two)) = join(
        rt,
        move || -> (Thread, bool)
            requires { AreOf shared.now first.passes }
            ensures { AreOf shared.entry.now result.0.passes }
        { is_counted(rt, shared, first, 1, 100) },
        move || -> (Thread, bool)
            requires { AreOf shared.now second.passes }
            ensures { AreOf shared.entry.now result.0.passes }
        { is_counted(rt, shared, second, 1, 100) },
    );
    assert!(rt; one && two);
    let Ok(()) = shared.detach(&mut first, second) else {
        panic!(rt; "no pin is held")
    };
    first
}

#[test]
fn no_change_is_lost(rt: HostRuntime) {
    let alloc = rt.alloc();
    let (shared, mut first) = shared_of(&rt, alloc, 1, 2);
    let second = more(&rt, alloc, &shared, &mut first);
    let mut first = are_counted(&rt, &shared, first, second);
    assert!(rt; seen_in(&rt, &shared, &mut first, 1) == Ok(200));
}
