//! What an engine asks of a pool: bytes lent to be written to, pages that begin with zeros, pages
//! written back a few at a time, and pages that are forgotten.
ghost use Rattle.warm_pool.specs.State.{RankedBy};

use super::{AMPLE, Said, counted, fills, given, held, pool_over, reads, slot, unpin};
use test_kit::{flaky, memory, page};
use warm_devices::PageDevice;
use warm_history::History;
use warm_pool::{DirtyFrame, Pool, PoolFault, Slot};

fn zeroed<D: PageDevice>(pool: &mut Pool<D>, history: &History, no: u64) -> Said
    requires { RankedBy pool.old history.now }
    ensures { RankedBy pool.new history.now }
{
    given(pool.pin_zeroed(page(no), history))
}

fn writes_back<D: PageDevice>(
    pool: &mut Pool<D>,
    history: &History,
    limit: usize,
) -> Result<usize, PoolFault>
    requires { RankedBy pool.old history.now }
    ensures { RankedBy pool.new history.now }
{
    pool.write_back_some(limit)
}

fn writes_one<D: PageDevice>(
    pool: &mut Pool<D>,
    history: &History,
    no: u64,
) -> Result<bool, PoolFault>
    requires { RankedBy pool.old history.now }
    ensures { RankedBy pool.new history.now }
{
    pool.write_back_page(page(no))
}

fn flushes<D: PageDevice>(pool: &mut Pool<D>, history: &History, dev: u16) -> Result<(), PoolFault>
    requires { RankedBy pool.old history.now }
    ensures { RankedBy pool.new history.now }
{
    pool.flush_device(dev)
}

fn forgets<D: PageDevice>(
    pool: &mut Pool<D>,
    history: &History,
    dev: u16,
    from: u64,
) -> Result<(), PoolFault>
    requires { RankedBy pool.old history.now }
    ensures { RankedBy pool.new history.now }
{
    pool.forget_pages(dev, from)
}

// The frame of this number with the page of device 0, which is dirty.
fn dirty(frame: usize, no: u64) -> Option<DirtyFrame> {
    Some(DirtyFrame {
        frame,
        page: page(no),
    })
}

// Writes AA to all bytes of the slot's page, as they are lent; returns whether the slot holds it.
fn paints<D: PageDevice>(pool: &mut Pool<D>, slot: Slot) -> bool {
    if !pool.holds(slot) {
        return false;
    }
    let bytes = pool.bytes_mut(slot);
    for byte in bytes {
        *byte = 0xAA;
    }
    true
}

#[test]
fn lent_bytes_are_written(rt: HostRuntime) {
    let alloc = rt.alloc();
    let history = History::new(alloc);
    let mut pool = pool_over(&rt, alloc, 2, memory(alloc, 8).expect(&rt, AMPLE));
    assert!(rt; held(&mut pool, &history, 1) == Some(slot(0, 1)));
    assert!(rt; pool.dirty() == 0 && paints(&mut pool, slot(0, 1)) && pool.dirty() == 1);
    assert!(rt; reads(&pool, slot(0, 1), &[0xAA; 16]));
    assert!(rt; !paints(&mut pool, slot(1, 1)));
    drop(pool);
}

// The first call of the device fails, and a read would be it.
#[test]
fn a_zeroed_page_is_not_read(rt: HostRuntime) {
    let alloc = rt.alloc();
    let history = History::new(alloc);
    let mut pool = pool_over(&rt, alloc, 2, flaky(alloc, 8, 1).expect(&rt, AMPLE));
    assert!(rt; zeroed(&mut pool, &history, 3) == Said::At(0, 1) && pool.dirty() == 1);
    assert!(rt; reads(&pool, slot(0, 1), &[0; 16]));
    assert!(rt; zeroed(&mut pool, &history, 3) == Said::At(0, 1));
    assert!(rt; zeroed(&mut pool, &history, 8) == Said::Refused(PoolFault::NoPage));
    assert!(rt; zeroed(&mut pool, &history, 4) == Said::At(1, 1));
    assert!(rt; zeroed(&mut pool, &history, 5) == Said::Refused(PoolFault::AllFixed));
    assert!(rt; pool.counts() == counted(1, 2, 0, 0));
    drop(pool);
}

#[test]
fn a_page_that_leaves_for_a_zeroed_one_is_counted(rt: HostRuntime) {
    let alloc = rt.alloc();
    let history = History::new(alloc);
    let mut pool = pool_over(&rt, alloc, 1, memory(alloc, 8).expect(&rt, AMPLE));
    assert!(rt; zeroed(&mut pool, &history, 1) == Said::At(0, 1));
    assert!(rt; unpin(&mut pool, &history, slot(0, 1)));
    assert!(rt; zeroed(&mut pool, &history, 2) == Said::At(0, 2));
    assert!(rt; pool.counts() == counted(0, 2, 1, 1) && pool.resident_count() == 1);
    drop(pool);
}

#[test]
fn pages_are_written_back_a_few_at_a_time(rt: HostRuntime) {
    let alloc = rt.alloc();
    let history = History::new(alloc);
    let mut pool = pool_over(&rt, alloc, 4, memory(alloc, 8).expect(&rt, AMPLE));
    assert!(rt; fills(&mut pool, &history, 1));
    assert!(rt; fills(&mut pool, &history, 2));
    assert!(rt; fills(&mut pool, &history, 3));
    assert!(rt; writes_back(&mut pool, &history, 0) == Ok(3) && pool.dirty() == 3);
    assert!(rt; writes_back(&mut pool, &history, 2) == Ok(1));
    assert!(rt; writes_back(&mut pool, &history, 2) == Ok(0) && pool.dirty() == 0);
    assert!(rt; pool.counts() == counted(0, 3, 0, 3));
    assert!(rt; fills(&mut pool, &history, 2));
    assert!(rt; flushes(&mut pool, &history, 0) == Ok(()));
    assert!(rt; pool.counts() == counted(1, 3, 0, 4) && pool.last_failure().is_none());
    assert!(rt; flushes(&mut pool, &history, 1) == Err(PoolFault::NoDevice));
    assert!(rt; pool.close().is_ok());
}

// Page 3 is in no frame; page 1 is pinned.
#[test]
fn one_page_is_written_back_where_it_is_dirty(rt: HostRuntime) {
    let alloc = rt.alloc();
    let history = History::new(alloc);
    let mut pool = pool_over(&rt, alloc, 4, memory(alloc, 8).expect(&rt, AMPLE));
    assert!(rt; fills(&mut pool, &history, 1));
    assert!(rt; fills(&mut pool, &history, 2));
    assert!(rt; writes_one(&mut pool, &history, 3) == Ok(false));
    assert!(rt; !pool.resident(page(3)) && pool.dirty() == 2);
    assert!(rt; writes_one(&mut pool, &history, 2) == Ok(true) && pool.dirty() == 1);
    assert!(rt; writes_one(&mut pool, &history, 2) == Ok(false));
    assert!(rt; held(&mut pool, &history, 1) == Some(slot(0, 1)));
    assert!(rt; writes_one(&mut pool, &history, 1) == Ok(true) && pool.dirty() == 0);
    assert!(rt; reads(&pool, slot(0, 1), &[0xAA; 16]));
    assert!(rt; pool.counts() == counted(1, 2, 0, 2) && pool.last_failure().is_none());
    drop(pool);
}

// Pages 5, 2 and 7 are in frames 0, 1 and 2; page 2 is clean, and frame 3 has no page.
#[test]
fn dirty_pages_are_named_by_their_frames(rt: HostRuntime) {
    let alloc = rt.alloc();
    let history = History::new(alloc);
    let mut pool = pool_over(&rt, alloc, 4, memory(alloc, 8).expect(&rt, AMPLE));
    assert!(rt; pool.next_dirty(0).is_none());
    assert!(rt; fills(&mut pool, &history, 5));
    assert!(rt; fills(&mut pool, &history, 2));
    assert!(rt; fills(&mut pool, &history, 7));
    assert!(rt; writes_one(&mut pool, &history, 2) == Ok(true));
    assert!(rt; pool.has_dirty(page(5)) && !pool.has_dirty(page(2)) && pool.has_dirty(page(7)));
    assert!(rt; !pool.has_dirty(page(3)));
    assert!(rt; pool.next_dirty(0) == dirty(0, 5) && pool.next_dirty(1) == dirty(2, 7));
    assert!(rt; pool.next_dirty(2) == dirty(2, 7) && pool.next_dirty(3).is_none());
    assert!(rt; pool.next_dirty(4).is_none() && pool.next_dirty(usize::MAX).is_none());
    assert!(rt; writes_back(&mut pool, &history, 2) == Ok(0) && pool.next_dirty(0).is_none());
    drop(pool);
}

// Two pages are read, so the third call of the device is the write of page 2.
#[test]
fn a_page_whose_write_fails_stays_dirty(rt: HostRuntime) {
    let alloc = rt.alloc();
    let history = History::new(alloc);
    let mut pool = pool_over(&rt, alloc, 4, flaky(alloc, 8, 3).expect(&rt, AMPLE));
    assert!(rt; fills(&mut pool, &history, 1));
    assert!(rt; fills(&mut pool, &history, 2));
    assert!(rt; writes_one(&mut pool, &history, 2) == Err(PoolFault::Fault));
    assert!(rt; pool.dirty() == 2 && pool.resident(page(2)));
    assert!(rt; pool.counts() == counted(0, 2, 0, 0) && pool.last_failure().is_some());
    assert!(rt; writes_one(&mut pool, &history, 2) == Ok(true) && pool.dirty() == 1);
    drop(pool);
}

#[test]
fn the_last_pages_are_forgotten(rt: HostRuntime) {
    let alloc = rt.alloc();
    let history = History::new(alloc);
    let mut pool = pool_over(&rt, alloc, 4, memory(alloc, 8).expect(&rt, AMPLE));
    assert!(rt; fills(&mut pool, &history, 1));
    assert!(rt; fills(&mut pool, &history, 5));
    assert!(rt; held(&mut pool, &history, 4) == Some(slot(2, 1)));
    assert!(rt; forgets(&mut pool, &history, 0, 4) == Err(PoolFault::Fixed));
    assert!(rt; forgets(&mut pool, &history, 1, 0) == Err(PoolFault::NoDevice));
    assert!(rt; pool.dirty() == 2 && forgets(&mut pool, &history, 0, 5) == Ok(()));
    assert!(rt; !pool.resident(page(5)) && pool.resident(page(4)) && pool.resident(page(1)));
    assert!(rt; pool.dirty() == 1 && pool.resident_count() == 2);
    assert!(rt; pool.counts() == counted(0, 3, 0, 0));
    drop(pool);
}
