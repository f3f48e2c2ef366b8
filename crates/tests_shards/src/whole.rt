//! Calls that go through all shards: writing back, forgetting pages, restarting, and what they
//! leave if one shard refuses.
use crate::kit::{batch, over};
use std::alloc::Global;
use std::process::Abort;
use test_kit::{flaky, page};
use warm_devices::{Flaky, MemDevice, PageDevice};
use warm_gossip::NodeFault;
use warm_pool::PoolFault;
use warm_shards::{ShardSlot, Shards};

const FAULT: Result<(), NodeFault> = Err(NodeFault::Pool(PoolFault::Fault));

const FIXED: Result<(), NodeFault> = Err(NodeFault::Pool(PoolFault::Fixed));

const NO_DEVICE: Result<(), NodeFault> = Err(NodeFault::Pool(PoolFault::NoDevice));

// Of a shard: how many dirty pages, resident pages, and known pages it has.
#[derive(Clone, Copy, PartialEq, Eq)]
struct Seen {
    dirty: usize,
    resident: usize,
    known: usize,
}

fn seen_of<D: PageDevice>(shards: &Shards<D>, shard: usize) -> Seen {
    if shard >= shards.count() {
        return Seen {
            dirty: 0,
            resident: 0,
            known: 0,
        };
    }
    let node = shards.shard(shard);
    Seen {
        dirty: node.pool().dirty(),
        resident: node.pool().resident_count(),
        known: node.history().len(),
    }
}

fn is_seen<D: PageDevice>(shards: &Shards<D>, shard: usize, counts: [usize; 3]) -> bool {
    let [dirty, resident, known] = counts;
    let wanted = Seen {
        dirty,
        resident,
        known,
    };
    seen_of(shards, shard) == wanted
}

// Two shards over devices of which the `n`-th call of the first and of the second fails.
fn two_over(rt: &impl Abort, alloc: Global, first: u64, second: u64) -> Shards<Flaky<MemDevice>> {
    let first = flaky(alloc, 64, first).expect(rt, "memory for a device");
    let second = flaky(alloc, 64, second).expect(rt, "memory for a device");
    over(rt, alloc, first, second)
}

// Pins a page, which is read from its device, and writes a byte into it.
fn write<D: PageDevice>(rt: &impl Abort, shards: &mut Shards<D>, no: u64) -> ShardSlot {
    let at = shards.pin(page(no)).ok().expect(rt, "the page is pinned");
    assert!(rt; shards.write(at, 0, &[7]).is_ok());
    at
}

fn change<D: PageDevice>(rt: &impl Abort, shards: &mut Shards<D>, no: u64) {
    let at = write(rt, shards, no);
    assert!(rt; shards.unpin(at).is_ok());
}

// The first byte of a page.
fn first_byte<D: PageDevice>(rt: &impl Abort, shards: &mut Shards<D>, no: u64) -> u8 {
    let at = shards.pin(page(no)).ok().expect(rt, "the page is pinned");
    let mut byte = [0; 1];
    assert!(rt; shards.read_into(at, 0, &mut byte).is_ok());
    assert!(rt; shards.unpin(at).is_ok());
    byte[0]
}

#[test]
fn all_pages_are_written_before_a_device_is_flushed(rt: HostRuntime) {
    // Calls of the first device: a read, a write, and the flush, which fails.
    let mut two = two_over(&rt, rt.alloc(), 3, 0);
    change(&rt, &mut two, 2);
    change(&rt, &mut two, 1);
    assert!(rt; is_seen(&two, 0, [1, 1, 0]) && is_seen(&two, 1, [1, 1, 0]));
    assert!(rt; two.write_back_all() == FAULT);
    assert!(rt; is_seen(&two, 0, [0, 1, 0]) && is_seen(&two, 1, [0, 1, 0]));
    assert!(rt; two.write_back_all() == Ok(()));
}

#[test]
fn a_write_that_fails_leaves_the_later_shards_alone(rt: HostRuntime) {
    let mut two = two_over(&rt, rt.alloc(), 2, 0);
    change(&rt, &mut two, 2);
    change(&rt, &mut two, 1);
    assert!(rt; two.write_back_all() == FAULT);
    assert!(rt; is_seen(&two, 0, [1, 1, 0]) && is_seen(&two, 1, [1, 1, 0]));
    assert!(rt; two.write_back_all() == Ok(()));
    assert!(rt; is_seen(&two, 0, [0, 1, 0]) && is_seen(&two, 1, [0, 1, 0]));
    let mut other = two_over(&rt, rt.alloc(), 0, 2);
    change(&rt, &mut other, 2);
    change(&rt, &mut other, 1);
    assert!(rt; other.write_back_all() == FAULT);
    assert!(rt; is_seen(&other, 0, [0, 1, 0]) && is_seen(&other, 1, [1, 1, 0]));
}

#[test]
fn shards_restart(rt: HostRuntime) {
    let alloc = rt.alloc();
    let mut two = two_over(&rt, alloc, 0, 0);
    let given = batch(&rt, alloc, &[(0, 1, 5, 1), (0, 2, 6, 1), (0, 4, 7, 1)]);
    assert!(rt; two.absorb(&given).is_ok());
    assert!(rt; two.raise(3) == 3);
    change(&rt, &mut two, 2);
    change(&rt, &mut two, 1);
    assert!(rt; two.restart() == Ok(()));
    assert!(rt; is_seen(&two, 0, [0, 0, 0]) && is_seen(&two, 1, [0, 0, 0]));
    assert!(rt; two.horizon() == 0);
    assert!(rt; first_byte(&rt, &mut two, 2) == 7 && first_byte(&rt, &mut two, 1) == 7);
}

#[test]
fn no_shard_restarts_where_a_page_is_pinned(rt: HostRuntime) {
    let alloc = rt.alloc();
    let mut two = two_over(&rt, alloc, 0, 0);
    let given = batch(&rt, alloc, &[(0, 1, 5, 1), (0, 2, 6, 1), (0, 4, 7, 1)]);
    assert!(rt; two.absorb(&given).is_ok());
    assert!(rt; two.raise(3) == 3);
    change(&rt, &mut two, 2);
    let at = write(&rt, &mut two, 1);
    assert!(rt; at.shard == 1);
    assert!(rt; two.restart() == FIXED);
    // Nothing was written back, and nothing was forgotten.
    assert!(rt; is_seen(&two, 0, [1, 1, 2]) && is_seen(&two, 1, [1, 1, 1]));
    assert!(rt; two.horizon() == 3);
    assert!(rt; two.unpin(at).is_ok());
    assert!(rt; two.restart() == Ok(()));
    assert!(rt; is_seen(&two, 0, [0, 0, 0]) && is_seen(&two, 1, [0, 0, 0]));
    assert!(rt; two.horizon() == 0);
}

#[test]
fn nothing_is_forgotten_where_a_page_is_not_written(rt: HostRuntime) {
    let alloc = rt.alloc();
    let mut two = two_over(&rt, alloc, 0, 2);
    let given = batch(&rt, alloc, &[(0, 1, 5, 1), (0, 2, 6, 1)]);
    assert!(rt; two.absorb(&given).is_ok());
    change(&rt, &mut two, 2);
    change(&rt, &mut two, 1);
    assert!(rt; two.restart() == FAULT);
    assert!(rt; is_seen(&two, 0, [0, 1, 1]) && is_seen(&two, 1, [1, 1, 1]));
}

#[test]
fn pages_are_forgotten_in_each_shard(rt: HostRuntime) {
    let mut two = two_over(&rt, rt.alloc(), 0, 0);
    change(&rt, &mut two, 1);
    change(&rt, &mut two, 2);
    change(&rt, &mut two, 3);
    assert!(rt; two.forget_pages(1, 0) == NO_DEVICE);
    assert!(rt; two.forget_pages(0, 2) == Ok(()));
    assert!(rt; is_seen(&two, 0, [0, 0, 0]) && is_seen(&two, 1, [1, 1, 0]));
    assert!(rt; first_byte(&rt, &mut two, 1) == 7);
    assert!(rt; first_byte(&rt, &mut two, 2) == 0 && first_byte(&rt, &mut two, 3) == 0);
}

#[test]
fn no_shard_forgets_where_a_page_is_pinned(rt: HostRuntime) {
    let mut two = two_over(&rt, rt.alloc(), 0, 0);
    change(&rt, &mut two, 2);
    let at = write(&rt, &mut two, 1);
    assert!(rt; two.forget_pages(0, 0) == FIXED);
    assert!(rt; is_seen(&two, 0, [1, 1, 0]) && is_seen(&two, 1, [1, 1, 0]));
    assert!(rt; two.unpin(at).is_ok());
    assert!(rt; two.forget_pages(0, 0) == Ok(()));
    assert!(rt; is_seen(&two, 0, [0, 0, 0]) && is_seen(&two, 1, [0, 0, 0]));
}
