//! What a pin and a load say of the page that they evict, and the bytes of a pinned page, lent.
ghost use Rattle.warm_pool.specs.State.{RankedBy};

use super::{AMPLE, pool_over, slot};
use test_kit::{memory, page};
use warm_devices::MemDevice;
use warm_history::History;
use warm_pool::{Placed, Pool, PoolFault, Slot};
use warm_stamps::PageId;

fn pinned(pool: &mut Pool<MemDevice>, history: &History, no: u64) -> Result<Placed, PoolFault>
    requires { RankedBy pool.old history.now }
    ensures { RankedBy pool.new history.now }
{
    pool.pin_placed(page(no), history)
}

fn loaded(pool: &mut Pool<MemDevice>, history: &History, no: u64) -> Result<Placed, PoolFault>
    requires { RankedBy pool.old history.now }
    ensures { RankedBy pool.new history.now }
{
    pool.load_placed(page(no), history)
}

const fn at(index: u32, generation: u64, evicted: Option<PageId>) -> Placed {
    Placed {
        slot: slot(index, generation),
        evicted,
    }
}

// No page was ever referenced, so of two unpinned ones that of the lesser number is evicted. A page
// that is resident evicts none, and neither does one that takes a frame without a page.
#[test]
fn a_pin_and_a_load_say_what_they_evicted(rt: HostRuntime) {
    let alloc = rt.alloc();
    let history = History::new(alloc);
    let mut pool = pool_over(&rt, alloc, 2, memory(alloc, 8).expect(&rt, AMPLE));
    assert!(rt; loaded(&mut pool, &history, 1) == Ok(at(0, 1, None)));
    assert!(rt; loaded(&mut pool, &history, 2) == Ok(at(1, 1, None)));
    assert!(rt; loaded(&mut pool, &history, 1) == Ok(at(0, 1, None)));
    assert!(rt; loaded(&mut pool, &history, 3) == Ok(at(0, 2, Some(page(1)))));
    assert!(rt; pinned(&mut pool, &history, 3) == Ok(at(0, 2, None)));
    assert!(rt; pinned(&mut pool, &history, 4) == Ok(at(1, 2, Some(page(2)))));
    assert!(rt; pinned(&mut pool, &history, 5) == Err(PoolFault::AllFixed));
    drop(pool);
}

// Whether the slot's page has these bytes at its start, and as many as a page has.
fn lends(pool: &Pool<MemDevice>, slot: Slot, start: &[u8]) -> bool {
    if !pool.holds(slot) {
        return false;
    }
    let bytes = pool.bytes(slot);
    bytes.len() == 16 && bytes.starts_with(start)
}

fn write(pool: &mut Pool<MemDevice>, history: &History, slot: Slot, bytes: &[u8]) -> bool
    requires { RankedBy pool.old history.now }
    ensures { RankedBy pool.new history.now }
{
    pool.holds(slot) && pool.write(slot, 0, bytes).is_ok()
}

#[test]
fn the_bytes_of_a_pinned_page_are_lent(rt: HostRuntime) {
    let alloc = rt.alloc();
    let history = History::new(alloc);
    let mut pool = pool_over(&rt, alloc, 2, memory(alloc, 8).expect(&rt, AMPLE));
    assert!(rt; pinned(&mut pool, &history, 1) == Ok(at(0, 1, None)));
    assert!(rt; pinned(&mut pool, &history, 2) == Ok(at(1, 1, None)));
    assert!(rt; write(&mut pool, &history, slot(1, 1), b"warm"));
    assert!(rt; lends(&pool, slot(0, 1), &[0; 4]));
    assert!(rt; lends(&pool, slot(1, 1), b"warm"));
    assert!(rt; pool.is_within(0, 16) && !pool.is_within(1, 16));
    drop(pool);
}
