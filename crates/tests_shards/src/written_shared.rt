//! A page of shared shards that is written back, all pages of a shard that are, and a device of a
//! shard that is flushed, each in one turn of its shard, even if the device fails.
ghost use Rattle.warm_concurrent.specs.Attached.{AreOf};

use crate::kit::{closed, dirty, over, shared_from};
use crate::retired_shared::{is_put, of_pool};
use std::alloc::Global;
use std::process::Abort;
use std::sync::Wait;
use test_kit::{flaky, page};
use warm_concurrent::{Attached, SharedFault, SharedShards};
use warm_devices::{Flaky, MemDevice};
use warm_gossip::NodeFault;
use warm_pool::PoolFault;

type Shared = SharedShards<Flaky<MemDevice>>;

type Thread = Attached<Flaky<MemDevice>>;

const FAULT: SharedFault = SharedFault::Node(NodeFault::Pool(PoolFault::Fault));

// Two shards. The call of this number of the device of shard 1 fails, 0 for none.
fn two_over(rt: &impl Abort, alloc: Global, second: u64) -> (Shared, Thread)
    ensures { AreOf result.0 result.1.passes }
{
    let first = flaky(alloc, 64, 0).expect(rt, "memory for a device");
    let second = flaky(alloc, 64, second).expect(rt, "memory for a device");
    shared_from(rt, alloc, over(rt, alloc, first, second))
}

// Flushes a device of a shard.
fn flushed<R: Wait>(
    rt: &R,
    shared: &Shared,
    thread: &mut Thread,
    shard: usize,
    dev: u16,
) -> Result<(), SharedFault>
    requires { AreOf shared.now thread.old.passes }
    ensures { AreOf shared.now thread.new.passes }
{
    if shard >= shared.count() {
        return Ok(());
    }
    shared.flush_device(rt, thread, shard, dev)?;
    Ok(())
}

// Writes back all of a shard.
fn written<R: Wait>(
    rt: &R,
    shared: &Shared,
    thread: &mut Thread,
    shard: usize,
) -> Result<(), SharedFault>
    requires { AreOf shared.now thread.old.passes }
    ensures { AreOf shared.now thread.new.passes }
{
    if shard >= shared.count() {
        return Ok(());
    }
    shared.write_back(rt, thread, shard)?;
    Ok(())
}

// Makes pages 1 to 4 dirty.
fn are_put<R: Wait>(rt: &R, shared: &Shared, thread: &mut Thread) -> bool
    requires { AreOf shared.now thread.old.passes }
    ensures { AreOf shared.now thread.new.passes }
{
    is_put(rt, shared, thread, 1, 7)
        && is_put(rt, shared, thread, 2, 7)
        && is_put(rt, shared, thread, 3, 7)
        && is_put(rt, shared, thread, 4, 7)
}

#[test]
fn one_page_of_its_shard_is_written_back(rt: HostRuntime) {
    let alloc = rt.alloc();
    // The device of shard 1 reads two pages; the write of the second one fails once.
    let (shared, mut first) = two_over(&rt, alloc, 3);
    assert!(rt; are_put(&rt, &shared, &mut first));
    assert!(rt; shared.write_back_page(&rt, &mut first, page(5)) == Ok(false));
    assert!(rt; shared.write_back_page(&rt, &mut first, page(3)) == Err(FAULT));
    assert!(rt; shared.write_back_page(&rt, &mut first, page(3)) == Ok(true));
    assert!(rt; shared.write_back_page(&rt, &mut first, page(3)) == Ok(false));
    assert!(rt; dirty(&closed(&rt, alloc, shared, first)) == 3);
}

#[test]
fn a_device_of_a_shard_is_flushed(rt: HostRuntime) {
    let alloc = rt.alloc();
    // The device of shard 1 reads two pages and writes them; its flush fails once.
    let (shared, mut first) = two_over(&rt, alloc, 5);
    assert!(rt; are_put(&rt, &shared, &mut first));
    let absent = Err(of_pool(PoolFault::NoDevice));
    assert!(rt; flushed(&rt, &shared, &mut first, 1, 1) == absent);
    assert!(rt; flushed(&rt, &shared, &mut first, 1, 0) == Err(FAULT));
    assert!(rt; flushed(&rt, &shared, &mut first, 1, 0) == Ok(()));
    assert!(rt; shared.write_back_page(&rt, &mut first, page(1)) == Ok(false));
    assert!(rt; dirty(&closed(&rt, alloc, shared, first)) == 2);
}

#[test]
fn one_shard_is_written_back(rt: HostRuntime) {
    let alloc = rt.alloc();
    // The device of shard 1 reads two pages; the write of the second one fails once.
    let (shared, mut first) = two_over(&rt, alloc, 4);
    assert!(rt; are_put(&rt, &shared, &mut first));
    assert!(rt; written(&rt, &shared, &mut first, 1) == Err(FAULT));
    assert!(rt; shared.write_back_page(&rt, &mut first, page(1)) == Ok(false));
    assert!(rt; written(&rt, &shared, &mut first, 1) == Ok(()));
    assert!(rt; shared.write_back_page(&rt, &mut first, page(3)) == Ok(false));
    assert!(rt; dirty(&closed(&rt, alloc, shared, first)) == 2);
}

#[test]
fn a_shard_that_is_written_back_is_flushed(rt: HostRuntime) {
    let alloc = rt.alloc();
    // The device of shard 1 reads two pages and writes them; its flush fails once.
    let (shared, mut first) = two_over(&rt, alloc, 5);
    assert!(rt; are_put(&rt, &shared, &mut first));
    assert!(rt; written(&rt, &shared, &mut first, 1) == Err(FAULT));
    assert!(rt; shared.write_back_page(&rt, &mut first, page(1)) == Ok(false));
    assert!(rt; written(&rt, &shared, &mut first, 1) == Ok(()));
    assert!(rt; dirty(&closed(&rt, alloc, shared, first)) == 2);
}
