//! What an engine asks of one shard: zeros, portions, the flush of a device, and another device.
use crate::kit::{over, shards};
use std::alloc::Global;
use std::process::Abort;
use test_kit::{flaky, memory, page};
use warm_devices::{Flaky, MemDevice, PageDevice};
use warm_gossip::NodeFault;
use warm_pool::PoolFault;
use warm_shards::{ShardSlot, Shards};

const FAULT: NodeFault = NodeFault::Pool(PoolFault::Fault);

// How many dirty pages a shard has.
fn dirty<D: PageDevice>(shards: &Shards<D>, shard: usize) -> usize {
    if shard >= shards.count() {
        return 0;
    }
    shards.shard(shard).pool().dirty()
}

fn some_written<D: PageDevice>(
    shards: &mut Shards<D>,
    shard: usize,
    limit: usize,
) -> Result<usize, NodeFault> {
    if shard >= shards.count() {
        return Ok(0);
    }
    shards.write_back_some(shard, limit)
}

fn flushed<D: PageDevice>(shards: &mut Shards<D>, shard: usize, dev: u16) -> Result<(), NodeFault> {
    if shard >= shards.count() {
        return Ok(());
    }
    shards.flush_device(shard, dev)
}

// Why the device of a shard was not replaced with another.
fn unretired(shards: &mut Shards<MemDevice>, shard: usize, device: MemDevice) -> Option<PoolFault> {
    if shard >= shards.count() {
        return None;
    }
    match shards.retire(shard, 0, device) {
        Ok(()) => None,
        Err(unretired) => Some(unretired.fault),
    }
}

fn write<D: PageDevice>(rt: &impl Abort, shards: &mut Shards<D>, no: u64) -> ShardSlot {
    let at = shards.pin(page(no)).ok().expect(rt, "the page is pinned");
    assert!(rt; shards.write(at, 0, &[7]).is_ok());
    at
}

fn change<D: PageDevice>(rt: &impl Abort, shards: &mut Shards<D>, no: u64) {
    let at = write(rt, shards, no);
    assert!(rt; shards.unpin(at).is_ok());
}

fn first_byte<D: PageDevice>(rt: &impl Abort, shards: &Shards<D>, at: ShardSlot) -> u8 {
    let mut byte = [9; 1];
    assert!(rt; shards.read_into(at, 0, &mut byte).is_ok());
    byte[0]
}

fn two_over(rt: &impl Abort, alloc: Global, second: u64) -> Shards<Flaky<MemDevice>> {
    let first = flaky(alloc, 64, 0).expect(rt, "memory for a device");
    let second = flaky(alloc, 64, second).expect(rt, "memory for a device");
    over(rt, alloc, first, second)
}

#[test]
fn a_page_is_pinned_with_zeros_in_its_shard(rt: HostRuntime) {
    let mut four = shards(&rt, rt.alloc(), 1, 4);
    change(&rt, &mut four, 6);
    assert!(rt; four.write_back_all().is_ok());
    assert!(rt; dirty(&four, 2) == 0);
    let at = four.pin_zeroed(page(6)).ok().expect(&rt, "zeros");
    assert!(rt; at.shard == 2);
    assert!(rt; first_byte(&rt, &four, at) == 0);
    assert!(rt; dirty(&four, 2) == 1 && dirty(&four, 0) == 0);
    assert!(rt; four.unpin(at).is_ok());
    let beyond = four.pin_zeroed(page(256));
    assert!(rt; beyond.err() == Some(NodeFault::Pool(PoolFault::NoPage)));
}

#[test]
fn no_page_is_read_for_zeros(rt: HostRuntime) {
    // The first call of the second device fails.
    let mut two = two_over(&rt, rt.alloc(), 1);
    let at = two.pin_zeroed(page(1)).ok().expect(&rt, "no read");
    assert!(rt; at.shard == 1);
    assert!(rt; two.unpin(at).is_ok());
    assert!(rt; some_written(&mut two, 1, 1) == Err(FAULT));
}

#[test]
fn dirty_pages_of_a_shard_are_written_in_portions(rt: HostRuntime) {
    let mut two = two_over(&rt, rt.alloc(), 0);
    for no in 1..6 {
        change(&rt, &mut two, no);
    }
    assert!(rt; dirty(&two, 0) == 2 && dirty(&two, 1) == 3);
    assert!(rt; some_written(&mut two, 1, 2) == Ok(1));
    assert!(rt; dirty(&two, 0) == 2 && dirty(&two, 1) == 1);
    assert!(rt; some_written(&mut two, 1, 0) == Ok(1));
    assert!(rt; some_written(&mut two, 1, 9) == Ok(0));
    assert!(rt; dirty(&two, 0) == 2);
}

#[test]
fn one_page_of_its_shard_is_written_back(rt: HostRuntime) {
    // The second device reads two pages; the write of the second one fails once.
    let mut two = two_over(&rt, rt.alloc(), 3);
    for no in 1..5 {
        change(&rt, &mut two, no);
    }
    assert!(rt; two.write_back_page(page(5)) == Ok(false));
    assert!(rt; two.write_back_page(page(3)) == Err(FAULT));
    assert!(rt; dirty(&two, 0) == 2 && dirty(&two, 1) == 2);
    assert!(rt; two.write_back_page(page(3)) == Ok(true));
    assert!(rt; two.write_back_page(page(3)) == Ok(false));
    assert!(rt; dirty(&two, 0) == 2 && dirty(&two, 1) == 1);
}

#[test]
fn a_device_of_a_shard_is_flushed(rt: HostRuntime) {
    // The second device reads page 1 and writes it; its flush fails once.
    let mut two = two_over(&rt, rt.alloc(), 3);
    change(&rt, &mut two, 1);
    change(&rt, &mut two, 2);
    assert!(rt; flushed(&mut two, 1, 1) == Err(NodeFault::Pool(PoolFault::NoDevice)));
    assert!(rt; dirty(&two, 1) == 1);
    assert!(rt; flushed(&mut two, 1, 0) == Err(FAULT));
    assert!(rt; flushed(&mut two, 1, 0) == Ok(()));
    assert!(rt; dirty(&two, 1) == 0 && dirty(&two, 0) == 1);
}

#[test]
fn a_device_of_a_shard_is_retired(rt: HostRuntime) {
    let alloc = rt.alloc();
    let mut two = shards(&rt, alloc, 1, 2);
    change(&rt, &mut two, 2);
    let at = write(&rt, &mut two, 1);
    let other = memory(alloc, 8).expect(&rt, "memory for a device");
    assert!(rt; unretired(&mut two, 1, other) == Some(PoolFault::Fixed));
    assert!(rt; two.unpin(at).is_ok());
    let wide = MemDevice::new(alloc, 8, 32).expect(&rt, "memory for a device");
    assert!(rt; unretired(&mut two, 1, wide) == Some(PoolFault::SizeDiffers));
    let other = memory(alloc, 8).expect(&rt, "memory for a device");
    assert!(rt; unretired(&mut two, 1, other) == None);
    let at = two.pin(page(1)).ok().expect(&rt, "the new device has it");
    assert!(rt; first_byte(&rt, &two, at) == 0);
    assert!(rt; two.pin(page(9)).err() == Some(NodeFault::Pool(PoolFault::NoPage)));
    let kept = two.pin(page(2)).ok().expect(&rt, "the other shard's");
    assert!(rt; first_byte(&rt, &two, kept) == 7);
}
