//! Devices of shared shards that are replaced with others: the old one has what was written, and a
//! refusal gives the new one back.
ghost use Rattle.std.specs.Prelude.{◌<◌, length};
ghost use Rattle.warm_concurrent.specs.Attached.{AreOf};

use crate::kit::{batch, closed, dirty, more, over, shared_from, shared_of};
use std::process::Abort;
use std::sync::Wait;
use test_kit::{DeviceNote, Found, flaky, memory, noting, once, page};
use warm_concurrent::{Attached, NotRetired, SharedFault, SharedShards};
use warm_devices::{MemDevice, PageDevice};
use warm_gossip::NodeFault;
use warm_pool::PoolFault;

/// A refusal of a pool.
pub(crate) const fn of_pool(fault: PoolFault) -> SharedFault {
    SharedFault::Node(NodeFault::Pool(fault))
}

// Replaces a device of a shard. If that is refused, the fault and the new device come back.
fn retired<D: PageDevice + Send, R: Wait + Abort>(
    rt: &R,
    shared: &SharedShards<D>,
    thread: &mut Attached<D>,
    shard: usize,
    dev: u16,
    device: D,
) -> Option<(SharedFault, D)>
    requires { AreOf shared.now thread.old.passes }
    ensures { AreOf shared.now thread.new.passes }
{
    if shard >= shared.count() {
        panic!(rt; "there is such a shard")
    }
    match shared.retire(rt, thread, shard, dev, device) {
        Ok(()) => None,
        Err(NotRetired { fault, device }) => Some((fault, device)),
    }
}

// Replaces a device of a shard, and gives the old one; or the fault and the new one.
fn replaced<D: PageDevice + Send, R: Wait + Abort>(
    rt: &R,
    shared: &SharedShards<D>,
    thread: &mut Attached<D>,
    shard: usize,
    dev: u16,
    device: D,
) -> Result<D, (SharedFault, D)>
    requires { AreOf shared.now thread.old.passes }
    ensures { AreOf shared.now thread.new.passes }
{
    if shard >= shared.count() {
        panic!(rt; "there is such a shard")
    }
    match shared.replace(rt, thread, shard, dev, device) {
        Ok(was) => Ok(was),
        Err(NotRetired { fault, device }) => Err((fault, device)),
    }
}

fn put(bytes: &mut [u8], byte: u8) {
    if let Some(first) = bytes.first_mut() {
        *first = byte;
    }
}

/// Puts a byte at the begin of a page, which is then dirty.
pub(crate) fn is_put<D: PageDevice + Send, R: Wait>(
    rt: &R,
    shared: &SharedShards<D>,
    thread: &mut Attached<D>,
    no: u64,
    byte: u8,
) -> bool
    requires { AreOf shared.now thread.old.passes }
    ensures { AreOf shared.now thread.new.passes }
{
    shared
        .change(rt, thread, page(no), |bytes: &mut [u8]| put(bytes, byte))
        .is_ok()
}

fn first_of(bytes: &[u8]) -> u8 {
    match bytes.first() {
        Some(byte) => *byte,
        None => 0,
    }
}

/// The first byte of a page.
pub(crate) fn seen_in<D: PageDevice + Send, R: Wait>(
    rt: &R,
    shared: &SharedShards<D>,
    thread: &mut Attached<D>,
    no: u64,
) -> Result<u8, SharedFault>
    requires { AreOf shared.now thread.old.passes }
    ensures { AreOf shared.now thread.new.passes }
{
    let byte = shared.look(rt, thread, page(no), |bytes: &[u8]| first_of(bytes))?;
    Ok(byte)
}

// Whether a dropped device had this byte at the begin of a page, and no other byte there.
fn has(note: &DeviceNote, no: u64, byte: u8) -> bool {
    let mut bytes = [0; 16];
    bytes[0] = byte;
    note.has(no, &bytes)
}

#[test]
fn the_old_device_of_each_shard_has_what_was_written(rt: HostRuntime) {
    let alloc = rt.alloc();
    let (zero, zero_note) = noting(alloc, 8, 16).expect(&rt, "memory for a device");
    let (one, one_note) = noting(alloc, 8, 16).expect(&rt, "memory for a device");
    let (shared, mut first) = shared_from(&rt, alloc, over(&rt, alloc, zero, one));
    assert!(rt; is_put(&rt, &shared, &mut first, 1, 7));
    assert!(rt; is_put(&rt, &shared, &mut first, 2, 8));
    assert!(rt; is_put(&rt, &shared, &mut first, 3, 9));
    let (next, next_note) = noting(alloc, 4, 16).expect(&rt, "memory for a device");
    assert!(rt; retired(&rt, &shared, &mut first, 1, 0, next).is_none());
    // Two pages of shard 1 were written and flushed, and none of shard 0.
    assert!(rt; one_note.found() == Found::Settled && one_note.counts() == (2, 1));
    assert!(rt; has(&one_note, 1, 7) && has(&one_note, 3, 9) && has(&one_note, 2, 0));
    assert!(rt; zero_note.counts() == (0, 0));
    let (last, last_note) = noting(alloc, 4, 16).expect(&rt, "memory for a device");
    assert!(rt; retired(&rt, &shared, &mut first, 0, 0, last).is_none());
    assert!(rt; zero_note.found() == Found::Settled && zero_note.counts() == (1, 1));
    assert!(rt; has(&zero_note, 2, 8) && has(&zero_note, 1, 0));
    assert!(rt; dirty(&closed(&rt, alloc, shared, first)) == 0);
    assert!(rt; next_note.counts() == (0, 1) && last_note.counts() == (0, 1));
}

#[test]
fn a_new_device_is_read_and_the_history_is_kept(rt: HostRuntime) {
    let alloc = rt.alloc();
    let (shared, mut first) = shared_of(&rt, alloc, 1, 2);
    let given = batch(&rt, alloc, &[(0, 1, 5, 1)]);
    assert!(rt; shared.absorb(&rt, alloc, &mut first, &given).is_ok());
    assert!(rt; is_put(&rt, &shared, &mut first, 1, 7));
    assert!(rt; is_put(&rt, &shared, &mut first, 2, 8));
    let next = memory(alloc, 4).expect(&rt, "memory for a device");
    assert!(rt; retired(&rt, &shared, &mut first, 1, 0, next).is_none());
    assert!(rt; seen_in(&rt, &shared, &mut first, 1) == Ok(0));
    assert!(rt; seen_in(&rt, &shared, &mut first, 2) == Ok(8));
    // The new device of shard 1 has four pages, and that of shard 0 has 256.
    assert!(rt; seen_in(&rt, &shared, &mut first, 5) == Err(of_pool(PoolFault::NoPage)));
    assert!(rt; seen_in(&rt, &shared, &mut first, 6) == Ok(0));
    let copy = shared.history(&rt, alloc, &mut first);
    let copy = copy.ok().expect(&rt, "memory for a copy");
    assert!(rt; copy.len() == 1 && copy.get(page(1)) == Some(once(5, 1)));
}

#[test]
fn a_pin_of_any_thread_keeps_the_device(rt: HostRuntime) {
    let alloc = rt.alloc();
    let (shared, mut first) = shared_of(&rt, alloc, 1, 2);
    let mut second = more(&rt, alloc, &shared, &mut first);
    assert!(rt; is_put(&rt, &shared, &mut first, 1, 7));
    let at = shared.pin(&rt, &mut second, page(1));
    let at = at.ok().expect(&rt, "page 1 is pinned");
    let next = memory(alloc, 4).expect(&rt, "memory for a device");
    let (fault, next) = retired(&rt, &shared, &mut first, 1, 0, next).expect(
        &rt,
        "page 1 is pinned",
    );
    assert!(rt; fault == of_pool(PoolFault::Fixed) && next.pages() == 4);
    assert!(rt; seen_in(&rt, &shared, &mut first, 1) == Ok(7));
    let other = memory(alloc, 4).expect(&rt, "memory for a device");
    assert!(rt; retired(&rt, &shared, &mut first, 0, 0, other).is_none());
    assert!(rt; shared.unpin(&rt, &mut second, at).is_ok());
    assert!(rt; retired(&rt, &shared, &mut first, 1, 0, next).is_none());
    assert!(rt; seen_in(&rt, &shared, &mut first, 1) == Ok(0));
    assert!(rt; shared.detach(&mut first, second).is_ok());
}

#[test]
fn a_device_that_may_not_come_is_given_back(rt: HostRuntime) {
    let alloc = rt.alloc();
    let (shared, mut first) = shared_of(&rt, alloc, 1, 2);
    assert!(rt; is_put(&rt, &shared, &mut first, 1, 7));
    let next = memory(alloc, 4).expect(&rt, "memory for a device");
    let (fault, next) = retired(&rt, &shared, &mut first, 1, 1, next).expect(
        &rt,
        "there is no device 1",
    );
    assert!(rt; fault == of_pool(PoolFault::NoDevice) && next.pages() == 4);
    let wide = MemDevice::new(alloc, 4, 32).expect(&rt, "memory for a device");
    let (fault, wide) = retired(&rt, &shared, &mut first, 1, 0, wide).expect(
        &rt,
        "its pages are larger",
    );
    assert!(rt; fault == of_pool(PoolFault::SizeDiffers) && wide.page_size() == 32);
    assert!(rt; seen_in(&rt, &shared, &mut first, 1) == Ok(7));
    assert!(rt; dirty(&closed(&rt, alloc, shared, first)) == 1);
}

#[test]
fn a_page_that_is_not_written_keeps_the_device(rt: HostRuntime) {
    let alloc = rt.alloc();
    // The device of shard 1 reads page 1, and fails to write it once.
    let zero = flaky(alloc, 8, 0).expect(&rt, "memory for a device");
    let one = flaky(alloc, 8, 2).expect(&rt, "memory for a device");
    let (shared, mut first) = shared_from(&rt, alloc, over(&rt, alloc, zero, one));
    assert!(rt; is_put(&rt, &shared, &mut first, 1, 7));
    let next = flaky(alloc, 4, 0).expect(&rt, "memory for a device");
    let (fault, next) = retired(&rt, &shared, &mut first, 1, 0, next).expect(
        &rt,
        "the write fails",
    );
    assert!(rt; fault == of_pool(PoolFault::Fault) && next.pages() == 4);
    assert!(rt; seen_in(&rt, &shared, &mut first, 1) == Ok(7));
    assert!(rt; retired(&rt, &shared, &mut first, 1, 0, next).is_none());
    assert!(rt; seen_in(&rt, &shared, &mut first, 1) == Ok(0));
}

#[test]
fn the_old_device_comes_back_with_what_was_written(rt: HostRuntime) {
    let alloc = rt.alloc();
    let (shared, mut first) = shared_of(&rt, alloc, 1, 2);
    let mut second = more(&rt, alloc, &shared, &mut first);
    assert!(rt; is_put(&rt, &shared, &mut first, 1, 7));
    let next = memory(alloc, 4).expect(&rt, "memory for a device");
    let was = replaced(&rt, &shared, &mut second, 1, 0, next);
    let mut was = was.ok().expect(&rt, "no page is pinned");
    assert!(rt; was.pages() == 256 && !was.waiting());
    let mut bytes = [9; 16];
    assert!(rt; was.page_size() == 16 && was.read(1, &mut bytes).is_ok() && bytes[0] == 7);
    assert!(rt; seen_in(&rt, &shared, &mut first, 1) == Ok(0));
    let at = shared.pin(&rt, &mut second, page(1));
    let at = at.ok().expect(&rt, "page 1 is pinned");
    let (fault, was) = replaced(&rt, &shared, &mut first, 1, 0, was)
        .err()
        .expect(&rt, "page 1 is pinned");
    assert!(rt; fault == of_pool(PoolFault::Fixed) && was.pages() == 256);
    assert!(rt; shared.unpin(&rt, &mut second, at).is_ok());
    assert!(rt; shared.detach(&mut first, second).is_ok());
}
