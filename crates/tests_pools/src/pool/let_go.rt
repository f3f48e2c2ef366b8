//! The contents of a device when the pool drops it: all writes, flushed. A pool that is dropped
//! writes nothing.
ghost use Rattle.warm_pool.specs.State.{RankedBy};

use super::{
    AMPLE, Row, Said, closes, exchange, held, not_closed, pool_of, pool_over, runs, unpin,
    unretired, write,
};
use std::alloc::Global;
use std::process::Abort;
use std::sync::Arc;
use test_kit::{DeviceNote, Found, HookedDevice, Noting, both};
use warm_devices::{MemDevice, PageDevice};
use warm_history::History;
use warm_pool::{Pool, PoolFault, Slot};

// The contents of a device of eight pages before the pool writes to it.
const STORED: [u8; 16] = [0x55; 16];

// A device that records what its drop finds, and the note.
fn witness(rt: &impl Abort, alloc: Global) -> (Noting, Arc<DeviceNote, Global>) {
    let note = DeviceNote::blank(alloc, 8, 16).expect(rt, AMPLE);
    let mut device = MemDevice::new(alloc, 8, 16).expect(rt, AMPLE);
    for no in 0..8 {
        if no < device.pages() && device.page_size() == 16 {
            let _ = device.write(no, &STORED);
        }
    }
    let _ = device.flush();
    let other = Arc::try_clone(&note).expect(rt, "a second owner");
    let device = HookedDevice::new(alloc, device, other).expect(rt, AMPLE);
    (device, note)
}

// Whether the device was flushed when its drop began, and its pages from this one on were as stored
// before.
fn has_stored(note: &DeviceNote, from: u64) -> bool {
    note.found() == Found::Settled && (from..8).all(|no| note.has(no, &STORED))
}

// The same, and whether page 0 was as written.
fn is_kept(note: &DeviceNote) -> bool {
    has_stored(note, 1) && note.has(0, &[0xAA; 16])
}

// A pool over such a device. Its page 0:0 is filled with AA, and is not written back yet.
fn noted_pool(
    rt: &impl Abort,
    alloc: Global,
    history: &History,
) -> (Pool<Noting>, Slot, Arc<DeviceNote, Global>)
    ensures { RankedBy result.0 history.now }
{
    let (device, note) = witness(rt, alloc);
    let mut pool = pool_over(rt, alloc, 2, device);
    let slot = held(&mut pool, history, 0).expect(rt, "the page is pinned");
    assert!(rt; write(&mut pool, history, slot, 0, &[0xAA; 16]) == Said::Done);
    (pool, slot, note)
}

fn exchanged(
    rt: &impl Abort,
    pool: &mut Pool<Noting>,
    history: &History,
    held: Slot,
    device: Noting,
    note: &DeviceNote,
)
    requires { RankedBy pool.old history.now }
    ensures { RankedBy pool.new history.now }
{
    let device = unretired(rt, pool, history, 0, device, PoolFault::Fixed);
    assert!(rt; note.found() == Found::NoDrop);
    assert!(rt; unpin(pool, history, held));
    exchange(rt, pool, history, 0, device);
    assert!(rt; is_kept(note));
}

#[test]
fn a_retired_device_has_what_was_written(rt: HostRuntime) {
    let alloc = rt.alloc();
    let history = History::new(alloc);
    let (mut pool, held, note) = noted_pool(&rt, alloc, &history);
    let (next, next_note) = witness(&rt, alloc);
    exchanged(&rt, &mut pool, &history, held, next, &note);
    assert!(rt; next_note.found() == Found::NoDrop);
    closes(&rt, pool);
    assert!(rt; next_note.found() == Found::Settled);
}

#[test]
fn a_closed_pools_device_has_what_was_written(rt: HostRuntime) {
    let alloc = rt.alloc();
    let history = History::new(alloc);
    let (pool, held, note) = noted_pool(&rt, alloc, &history);
    let mut pool = not_closed(&rt, pool, &history);
    assert!(rt; note.found() == Found::NoDrop);
    assert!(rt; unpin(&mut pool, &history, held));
    closes(&rt, pool);
    assert!(rt; is_kept(&note));
}

// Page 0:0 is written back, and then written again in its frame only.
const WRITTEN_ONCE: [Row<'static>; 5] = [
    Row::Loads(1, 0, Said::At(0, 1)),
    Row::Pins(0, Said::At(1, 1)),
    Row::Writes(1, 1, 0, &[0xAA; 16], Said::Done),
    Row::WritesBack(Said::Done),
    Row::Writes(1, 1, 0, &[0xBB; 16], Said::Done),
];

// Each device has what was last written to it, and is dropped once.
#[test]
fn a_dropped_pool_writes_to_no_device(rt: HostRuntime) {
    let alloc = rt.alloc();
    let history = History::new(alloc);
    let (first, first_note) = witness(&rt, alloc);
    let (second, second_note) = witness(&rt, alloc);
    let devices = both(alloc, first, second).expect(&rt, AMPLE);
    let mut pool = pool_of(&rt, alloc, 2, 16, devices);
    runs(&rt, &mut pool, &history, &WRITTEN_ONCE);
    drop(pool);
    assert!(rt; is_kept(&first_note) && first_note.counts() == (1, 1));
    assert!(rt; has_stored(&second_note, 0) && second_note.counts() == (0, 1));
}
