//! Looks and changes: a worker reads and writes a pinned page of a replica where it lies.
ghost use Rattle.std.specs.Prelude.{◌≡◌};

use crate::setup::{fresh_node, turn_and_worker};
use std::process::Abort;
use std::sync::Wait;
use std::sync::atomic::{AtomicU64, Ordering};
use std::thread::{Threads, join};
use test_kit::page;
use warm_devices::MemDevice;
use warm_gossip::{Call, Node, Reply};
use warm_pool::Slot;
use warm_refbuffer::RefBuffer;
use warm_replica::{LendFault, Replica, Worker};
use warm_stamps::ByteList;

// A replica of two frames and eight pages of 16 bytes.
type Shared = Replica<MemDevice>;

type Thread = Worker<Node<MemDevice>>;

// Pins a page, for which there is a frame.
fn pinned<R: Wait + Abort>(rt: &R, shared: &Shared, thread: &mut Thread, no: u64) -> Slot
    requires { thread.old.pass.table ≡ shared.now.table }
    ensures { thread.new.pass.table ≡ shared.now.table }
{
    let answer = thread.call(rt, shared, Call::Pin(page(no)));
    let Ok(Reply::Pinned(slot)) = answer else {
        panic!(rt; "there is a frame")
    };
    slot
}

// Makes a call that has no result. Whether it was done.
fn is_done<R: Wait>(rt: &R, shared: &Shared, thread: &mut Thread, call: Call) -> bool
    requires { thread.old.pass.table ≡ shared.now.table }
    ensures { thread.new.pass.table ≡ shared.now.table }
{
    matches!(thread.call(rt, shared, call), Ok(Reply::Done))
}

fn first_of(bytes: &[u8]) -> u8 {
    match bytes.first() {
        Some(byte) => *byte,
        None => 0,
    }
}

// Adds one to the first byte, and returns it.
fn add_one(bytes: &mut [u8]) -> u8 {
    let Some(first) = bytes.first_mut() else {
        return 0;
    };
    *first = first.wrapping_add(1);
    *first
}

// The first byte of the slot's page.
fn seen_in<R: Wait>(
    rt: &R,
    shared: &Shared,
    thread: &mut Thread,
    slot: Slot,
) -> Result<u8, LendFault>
    requires { thread.old.pass.table ≡ shared.now.table }
    ensures { thread.new.pass.table ≡ shared.now.table }
{
    let byte = thread.look(rt, shared, slot, |bytes: &[u8]| first_of(bytes))?;
    Ok(byte)
}

// Adds one to the first byte of the slot's page, and returns it.
fn added_in<R: Wait>(
    rt: &R,
    shared: &Shared,
    thread: &mut Thread,
    slot: Slot,
) -> Result<u8, LendFault>
    requires { thread.old.pass.table ≡ shared.now.table }
    ensures { thread.new.pass.table ≡ shared.now.table }
{
    let byte = thread.change(rt, shared, slot, |bytes: &mut [u8]| add_one(bytes))?;
    Ok(byte)
}

// Whether a look at the slot's page shows just these bytes.
fn is_shown<R: Wait>(
    rt: &R,
    shared: &Shared,
    thread: &mut Thread,
    slot: Slot,
    want: [u8; 16],
) -> bool
    requires { thread.old.pass.table ≡ shared.now.table }
    ensures { thread.new.pass.table ≡ shared.now.table }
{
    let shown = thread.look(rt, shared, slot, |bytes: &[u8]| bytes == want.as_slice());
    shown == Ok(true)
}

#[test]
fn a_look_sees_what_a_change_left(rt: HostRuntime) {
    let alloc = rt.alloc();
    let (shared, mut thread) = turn_and_worker(&rt, alloc, fresh_node(&rt, alloc));
    let slot = pinned(&rt, &shared, &mut thread, 1);
    assert!(rt; seen_in(&rt, &shared, &mut thread, slot) == Ok(0));
    assert!(rt; added_in(&rt, &shared, &mut thread, slot) == Ok(1));
    assert!(rt; added_in(&rt, &shared, &mut thread, slot) == Ok(2));
    assert!(rt; seen_in(&rt, &shared, &mut thread, slot) == Ok(2));
}

#[test]
fn all_bytes_of_a_page_are_shown(rt: HostRuntime) {
    let alloc = rt.alloc();
    let (shared, mut thread) = turn_and_worker(&rt, alloc, fresh_node(&rt, alloc));
    let slot = pinned(&rt, &shared, &mut thread, 1);
    let mut last = Vec::new(alloc);
    last.extend_from_slice(&[7, 8])
        .expect(&rt, "memory for bytes");
    let write = Call::Write {
        slot,
        at: 14,
        bytes: ByteList::of(last),
    };
    assert!(rt; is_done(&rt, &shared, &mut thread, write));
    assert!(rt; added_in(&rt, &shared, &mut thread, slot) == Ok(1));
    let want = [1, 0, 0, 0, 0, 0, 0, 0, 0, 0, 0, 0, 0, 0, 7, 8];
    assert!(rt; is_shown(&rt, &shared, &mut thread, slot, want));
}

// Two other pages are pinned, and there are two frames: so the changed page is evicted, and it is
// read again from the device.
#[test]
fn a_changed_page_is_written_back(rt: HostRuntime) {
    let alloc = rt.alloc();
    let (shared, mut thread) = turn_and_worker(&rt, alloc, fresh_node(&rt, alloc));
    let slot = pinned(&rt, &shared, &mut thread, 1);
    assert!(rt; added_in(&rt, &shared, &mut thread, slot) == Ok(1));
    assert!(rt; is_done(&rt, &shared, &mut thread, Call::Unpin(slot)));
    let second = pinned(&rt, &shared, &mut thread, 2);
    let third = pinned(&rt, &shared, &mut thread, 3);
    assert!(rt; is_done(&rt, &shared, &mut thread, Call::Unpin(second)));
    assert!(rt; is_done(&rt, &shared, &mut thread, Call::Unpin(third)));
    let again = pinned(&rt, &shared, &mut thread, 1);
    assert!(rt; again != slot);
    assert!(rt; seen_in(&rt, &shared, &mut thread, again) == Ok(1));
}

// The slot's page is not pinned any more. It is still in its frame, and as it was.
#[test]
fn a_stale_slot_lends_nothing(rt: HostRuntime) {
    let alloc = rt.alloc();
    let calls = AtomicU64::new(0);
    let (shared, mut thread) = turn_and_worker(&rt, alloc, fresh_node(&rt, alloc));
    let slot = pinned(&rt, &shared, &mut thread, 1);
    assert!(rt; is_done(&rt, &shared, &mut thread, Call::Unpin(slot)));
    let looked = thread.look(&rt, &shared, slot, |_bytes: &[u8]| {
        calls.fetch_add(1, Ordering::SeqCst)
    });
    let changed = thread.change(&rt, &shared, slot, |_bytes: &mut [u8]| {
        calls.fetch_add(1, Ordering::SeqCst)
    });
    assert!(rt; looked == Err(LendFault::StaleSlot));
    assert!(rt; changed == Err(LendFault::StaleSlot));
    assert!(rt; calls.load(Ordering::SeqCst) == 0);
    let again = pinned(&rt, &shared, &mut thread, 1);
    assert!(rt; again == slot);
    assert!(rt; seen_in(&rt, &shared, &mut thread, again) == Ok(0));
}

// Adds one to a page this many times. Whether each was answered.
fn is_counted<R: Wait>(
    rt: &R,
    shared: &Shared,
    mut thread: Thread,
    slot: Slot,
    times: u8,
) -> (Thread, bool)
    requires { thread.pass.table ≡ shared.now.table }
    ensures { result.0.pass.table ≡ shared.now.table }
{
    for _ in 0..times {
        if added_in(rt, shared, &mut thread, slot).is_err() {
            return (thread, false);
        }
    }
    (thread, true)
}

// Two threads add one to a page 100 times each, at once.
fn are_counted<R: Threads + Wait + Abort + Sync>(
    rt: &R,
    shared: &Shared,
    first: Thread,
    second: Thread,
    slot: Slot,
) -> Thread
    requires { (first.pass.table ≡ shared.now.table) × (second.pass.table ≡ shared.now.table) }
    ensures { result.pass.table ≡ shared.now.table }
{
    let ((first, one), (_second, two)) = join(
        rt,
        move || -> (Thread, bool)
            requires { first.pass.table ≡ shared.now.table }
            ensures { result.0.pass.table ≡ shared.entry.now.table }
        { is_counted(rt, shared, first, slot, 100) },
        move || -> (Thread, bool)
            requires { second.pass.table ≡ shared.now.table }
            ensures { result.0.pass.table ≡ shared.entry.now.table }
        { is_counted(rt, shared, second, slot, 100) },
    );
    assert!(rt; one && two);
    first
}

#[test]
fn no_change_is_lost(rt: HostRuntime) {
    let alloc = rt.alloc();
    let (shared, mut first) = turn_and_worker(&rt, alloc, fresh_node(&rt, alloc));
    let slot = pinned(&rt, &shared, &mut first, 1);
    let buffer = RefBuffer::new(alloc, 1).expect(&rt, "memory for references");
    let (mut pass, held) = first.into_parts();
    let second = Worker::new(shared.pass(&mut pass), buffer);
    let first = Worker::new(pass, held);
    let mut first = are_counted(&rt, &shared, first, second, slot);
    assert!(rt; seen_in(&rt, &shared, &mut first, slot) == Ok(200));
}
