//! What a device in memory records when its drop begins.

ghost use Rattle.std.specs.Prelude.{◌≡◌};
ghost use Rattle.test_kit.specs.HookedParts.{hooked_state};
ghost use Rattle.warm_devices.specs.Device.{zeroed};

use std::alloc::Global;
use std::process::Abort;
use std::sync::Arc;
use test_kit::{DeviceNote, Found, Noting};
use warm_devices::{Flaky, PageDevice};

// A device that records its drop, and the note.
fn noting(
    rt: &impl Abort,
    alloc: Global,
    pages: u64,
    page_size: usize,
) -> (Noting, Arc<DeviceNote, Global>)
    ensures { hooked_state result.0 ≡ zeroed pages page_size }
{
    test_kit::noting(alloc, pages, page_size).expect(rt, "memory for a device")
}

// Whether the note of three pages of two bytes has 7 and 8 on page 2, and zeros elsewhere.
fn has_just(note: &DeviceNote) -> bool {
    note.has(2, &[7, 8])
        && note.has(0, &[0, 0])
        && !note.has(2, &[7, 9])
        && !note.has(2, &[7])
        && !note.has(3, &[0, 0])
}

#[test]
fn a_drop_is_noted_before_it_settles(rt: HostRuntime) {
    let (mut device, note) = noting(&rt, rt.alloc(), 3, 2);
    assert!(rt; device.write(2, &[7, 8]) == Ok(()) && note.found() == Found::NoDrop);
    assert!(rt; note.counts() == (1, 0));
    drop(device);
    assert!(rt; note.found() == Found::Waiting && has_just(&note));
    assert!(rt; note.counts() == (1, 1));
}

// What a device's drop notes after a page was written and not flushed; its call of this number
// fails.
fn found_as_call_fails(rt: &impl Abort, alloc: Global, number: u64) -> Found {
    let (device, note) = noting(rt, alloc, 1, 1);
    let mut device = Flaky::new(device, number);
    assert!(rt; device.write(0, &[5]) == Ok(()) && note.found() == Found::NoDrop);
    drop(device);
    assert!(rt; note.has(0, &[5]));
    note.found()
}

#[test]
fn a_flaky_device_settles_as_it_is_dropped(rt: HostRuntime) {
    assert!(rt; found_as_call_fails(&rt, rt.alloc(), 0) == Found::Settled);
    assert!(rt; found_as_call_fails(&rt, rt.alloc(), 2) == Found::Waiting);
    assert!(rt; found_as_call_fails(&rt, rt.alloc(), 3) == Found::Settled);
}

// The second call is the flush that `settle` makes, and it does not reach the device below.
#[test]
fn a_flush_of_settle_that_fails_reaches_no_device(rt: HostRuntime) {
    let (device, note) = noting(&rt, rt.alloc(), 1, 1);
    let mut device = Flaky::new(device, 2);
    assert!(rt; device.write(0, &[5]) == Ok(()) && device.failures() == 0);
    device.settle();
    assert!(rt; device.failures() == 1 && device.waiting() && note.counts() == (1, 0));
}
