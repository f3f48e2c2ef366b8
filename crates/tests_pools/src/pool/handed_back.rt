//! Devices that a pool gives back: all of them, or the one that was replaced. What was written to
//! their pages is on them.
ghost use Rattle.warm_pool.specs.State.{RankedBy};

use super::{AMPLE, Said, fills, held, pool_of, pool_over, unpin, write};
use std::process::Abort;
use test_kit::{both, flaky, memory, page_on};
use warm_devices::PageDevice;
use warm_history::History;
use warm_pool::{Pool, PoolFault, RetireError};
use warm_stamps::PageId;

// The bytes of pages that nobody wrote to, that were filled by `fills`, and that are written here.
const ZEROS: [u8; 16] = [0; 16];

const FILLED: [u8; 16] = [0xAA; 16];

const PAINTED: [u8; 16] = [0xBB; 16];

// Writes to all bytes of a page in its frame; returns whether that succeeded.
fn paints<D: PageDevice>(pool: &mut Pool<D>, history: &History, page: PageId) -> bool
    requires { RankedBy pool.old history.now }
    ensures { RankedBy pool.new history.now }
{
    let Ok(slot) = pool.pin(page, history) else {
        return false;
    };
    write(pool, history, slot, 0, &PAINTED) == Said::Done && unpin(pool, history, slot)
}

// Whether a page of the device has these bytes.
fn has<D: PageDevice>(device: &mut D, no: u64, wanted: &[u8; 16]) -> bool {
    if no >= device.pages() || device.page_size() != 16 {
        return false;
    }
    let mut bytes = [0x55; 16];
    device.read(no, &mut bytes).is_ok() && bytes == *wanted
}

fn replaces<D: PageDevice>(
    pool: &mut Pool<D>,
    history: &History,
    dev: u16,
    device: D,
) -> Result<D, RetireError<D>>
    requires { RankedBy pool.old history.now }
    ensures { RankedBy pool.new history.now }
{
    pool.replace(dev, device)
}

// The device that is handed back in place of this one.
fn old<D: PageDevice>(
    rt: &impl Abort,
    pool: &mut Pool<D>,
    history: &History,
    dev: u16,
    device: D,
) -> D
    requires { RankedBy pool.old history.now }
    ensures { RankedBy pool.new history.now }
{
    match replaces(pool, history, dev, device) {
        Ok(old) => old,
        Err(_) => panic!(rt; "the device is not replaced"),
    }
}

// The new device, which is given back with this fault.
fn refused<D: PageDevice>(
    rt: &impl Abort,
    pool: &mut Pool<D>,
    history: &History,
    dev: u16,
    device: D,
    wanted: PoolFault,
) -> D
    requires { RankedBy pool.old history.now }
    ensures { RankedBy pool.new history.now }
{
    match replaces(pool, history, dev, device) {
        Ok(_) => panic!(rt; "the device is replaced"),
        Err(unretired) => {
            assert!(rt; unretired.fault == wanted);
            unretired.device
        }
    }
}

// The devices of the pool.
fn devices_of<D: PageDevice>(rt: &impl Abort, pool: Pool<D>) -> Vec<D> {
    match pool.into_devices() {
        Ok(devices) => devices,
        Err(_) => panic!(rt; "the pool is not taken apart"),
    }
}

// The pool, which is given back since a page is pinned.
fn whole<D: PageDevice>(rt: &impl Abort, pool: Pool<D>, history: &History) -> Pool<D>
    requires { RankedBy pool history.now }
    ensures { RankedBy result history.now }
{
    match pool.into_devices() {
        Ok(_) => panic!(rt; "the pool is taken apart"),
        Err(unclosed) => {
            assert!(rt; unclosed.fault == PoolFault::Fixed);
            unclosed.pool
        }
    }
}

#[test]
fn all_devices_come_back_with_what_was_written(rt: HostRuntime) {
    let alloc = rt.alloc();
    let history = History::new(alloc);
    let first = memory(alloc, 8).expect(&rt, AMPLE);
    let second = memory(alloc, 4).expect(&rt, AMPLE);
    let devices = both(alloc, first, second).expect(&rt, AMPLE);
    let mut pool = pool_of(&rt, alloc, 2, 16, devices);
    assert!(rt; fills(&mut pool, &history, 0));
    assert!(rt; paints(&mut pool, &history, page_on(1, 3)));
    let mut devices = devices_of(&rt, pool);
    let mut second = devices.pop().expect(&rt, "the second device");
    let mut first = devices.pop().expect(&rt, "the first device");
    assert!(rt; devices.is_empty());
    assert!(rt; !first.waiting() && !second.waiting());
    assert!(rt; first.pages() == 8 && second.pages() == 4);
    assert!(rt; has(&mut first, 0, &FILLED) && has(&mut first, 3, &ZEROS));
    assert!(rt; has(&mut second, 3, &PAINTED) && has(&mut second, 0, &ZEROS));
    drop(devices);
}

#[test]
fn a_pool_with_a_pinned_page_keeps_its_devices(rt: HostRuntime) {
    let alloc = rt.alloc();
    let history = History::new(alloc);
    let mut pool = pool_over(&rt, alloc, 2, memory(alloc, 8).expect(&rt, AMPLE));
    assert!(rt; fills(&mut pool, &history, 0));
    let slot = held(&mut pool, &history, 1).expect(&rt, "a pinned page");
    let mut pool = whole(&rt, pool, &history);
    assert!(rt; pool.dirty() == 1 && pool.resident_count() == 2);
    assert!(rt; unpin(&mut pool, &history, slot));
    let mut devices = devices_of(&rt, pool);
    let mut device = devices.pop().expect(&rt, "its device");
    assert!(rt; has(&mut device, 0, &FILLED) && has(&mut device, 1, &ZEROS));
    drop(devices);
}

#[test]
fn a_replaced_device_comes_back_with_what_was_written(rt: HostRuntime) {
    let alloc = rt.alloc();
    let history = History::new(alloc);
    let first = memory(alloc, 8).expect(&rt, AMPLE);
    let second = memory(alloc, 8).expect(&rt, AMPLE);
    let devices = both(alloc, first, second).expect(&rt, AMPLE);
    let mut pool = pool_of(&rt, alloc, 2, 16, devices);
    assert!(rt; fills(&mut pool, &history, 0));
    assert!(rt; paints(&mut pool, &history, page_on(1, 3)));
    let next = memory(alloc, 4).expect(&rt, AMPLE);
    let mut back = old(&rt, &mut pool, &history, 1, next);
    assert!(rt; !back.waiting() && back.pages() == 8);
    assert!(rt; has(&mut back, 3, &PAINTED) && has(&mut back, 0, &ZEROS));
    // The page of the other device is where it was, and dirty.
    assert!(rt; pool.dirty() == 1 && pool.resident_count() == 1);
    let mut devices = devices_of(&rt, pool);
    let mut next = devices.pop().expect(&rt, "the new device");
    let mut first = devices.pop().expect(&rt, "the first device");
    assert!(rt; next.pages() == 4 && has(&mut next, 3, &ZEROS));
    assert!(rt; has(&mut first, 0, &FILLED));
    drop(devices);
}

// The second call of the device, a write, fails; its first is a read.
#[test]
fn a_device_that_fails_is_not_replaced(rt: HostRuntime) {
    let alloc = rt.alloc();
    let history = History::new(alloc);
    let mut pool = pool_over(&rt, alloc, 2, flaky(alloc, 8, 2).expect(&rt, AMPLE));
    assert!(rt; fills(&mut pool, &history, 0));
    let next = flaky(alloc, 4, 0).expect(&rt, AMPLE);
    let next = refused(&rt, &mut pool, &history, 1, next, PoolFault::NoDevice);
    let next = refused(&rt, &mut pool, &history, 0, next, PoolFault::Fault);
    assert!(rt; next.pages() == 4 && pool.dirty() == 1 && pool.resident_count() == 1);
    let mut back = old(&rt, &mut pool, &history, 0, next);
    assert!(rt; pool.dirty() == 0 && pool.resident_count() == 0);
    assert!(rt; !back.waiting() && back.failures() == 1 && has(&mut back, 0, &FILLED));
    drop(pool);
}
