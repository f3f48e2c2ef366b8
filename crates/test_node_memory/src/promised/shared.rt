//! The allocation-free calls of shards that threads share.
ghost use Rattle.std.specs.Prelude.{IfOk};
ghost use Rattle.warm_concurrent.specs.Attached.{AreOf};

use crate::promised::calls::empty;
use std::alloc::Global;
use std::io::Print;
use std::sync::Wait;
use test_kit::cases::{Ended, Met, takes_none};
use test_kit::{page, replica};
use warm_concurrent::{Attached, SharedShards, Sharing};
use warm_devices::MemDevice;
use warm_shards::Shards;

type Shared = SharedShards<MemDevice>;

type Thread = Attached<MemDevice>;

// Two shards behind turns, and what a thread has of them.
pub(crate) fn opened(alloc: Global) -> Result<(Shared, Thread), Ended>
    ensures { IfOk result (λ made. AreOf made.0 made.1.passes) }
{
    let mut nodes = Vec::with_capacity(alloc, 2)?;
    nodes.push_reserved(empty(alloc, 2)?);
    nodes.push_reserved(empty(alloc, 2)?);
    let Ok(shards) = Shards::new(alloc, replica(1), nodes) else {
        return Err(Ended::Broken);
    };
    let Ok(sharing) = Sharing::new(alloc, shards) else {
        return Err(Ended::NoMemory);
    };
    match sharing.share() {
        Ok(made) => Ok(made),
        Err(_) => Err(Ended::NoMemory),
    }
}

// All shards are raised, and their horizon is read.
fn raised<P: Print, R: Wait>(
    rt: &P,
    met: &mut Met,
    waits: &R,
    shared: &Shared,
    thread: &mut Thread,
) -> Result<(), Ended>
    requires { AreOf shared.now thread.old.passes }
    ensures { AreOf shared.now thread.new.passes }
{
    takes_none(rt, "raise of shared shards")?;
    let raised = shared.raise(waits, thread, 2);
    met.holds(raised == Ok(2), "a raise of shared shards is refused")?;
    takes_none(rt, "horizon of shared shards")?;
    let horizon = shared.horizon(waits, thread);
    met.holds(horizon == Ok(2), "a horizon of shared shards is refused")
}

// A shard's device is replaced with another, which then gives way to the first.
fn retired<P: Print, R: Wait>(
    rt: &P,
    met: &mut Met,
    waits: &R,
    shared: &Shared,
    thread: &mut Thread,
    device: MemDevice,
) -> Result<(), Ended>
    requires { AreOf shared.now thread.old.passes }
    ensures { AreOf shared.now thread.new.passes }
{
    if shared.count() < 2 {
        return Err(met.broken("two shards are shared"));
    }
    takes_none(rt, "replace of a shared shard")?;
    let Ok(was) = shared.replace(waits, thread, 1, 0, device) else {
        return Err(met.broken("a shared shard's device is not replaced"));
    };
    takes_none(rt, "retire of a shared shard")?;
    let retired = shared.retire(waits, thread, 1, 0, was);
    met.holds(retired.is_ok(), "a shared shard's device is not retired")
}

// A shard is written back, and then both are. Each has a dirty page before.
fn settled<P: Print, R: Wait>(
    rt: &P,
    met: &mut Met,
    waits: &R,
    shared: &Shared,
    thread: &mut Thread,
) -> Result<(), Ended>
    requires { AreOf shared.now thread.old.passes }
    ensures { AreOf shared.now thread.new.passes }
{
    if shared.count() < 2 {
        return Err(met.broken("two shards are shared"));
    }
    let first = shared.change(waits, thread, page(2), |bytes: &mut [u8]| bytes.len());
    let second = shared.change(waits, thread, page(3), |bytes: &mut [u8]| bytes.len());
    met.holds(first.is_ok() && second.is_ok(), "pages are not changed")?;
    takes_none(rt, "shard_of of shared shards")?;
    met.holds(shared.shard_of(page(3)) == 1, "a page is of another shard")?;
    takes_none(rt, "write_back of a shared shard")?;
    let written = shared.write_back(waits, thread, 1);
    met.holds(written.is_ok(), "a shared shard is not written back")?;
    takes_none(rt, "write_back_all of shared shards")?;
    let all = shared.write_back_all(waits, thread);
    met.holds(all.is_ok(), "shared shards are not written back")
}

// A page is changed where it lies, another is looked at, and a third, for which one of these leaves
// its frame, is pinned, read and unpinned.
fn looked_at<P: Print, R: Wait>(
    rt: &P,
    met: &mut Met,
    waits: &R,
    shared: &Shared,
    thread: &mut Thread,
    mut into: Vec<u8>,
) -> Result<(), Ended>
    requires { AreOf shared.now thread.old.passes }
    ensures { AreOf shared.now thread.new.passes }
{
    takes_none(rt, "change of shared shards")?;
    let changed = shared.change(waits, thread, page(2), |bytes: &mut [u8]| bytes.len());
    met.holds(changed == Ok(16), "a change of shared shards is refused")?;
    takes_none(rt, "look of shared shards")?;
    let looked = shared.look(waits, thread, page(4), |bytes: &[u8]| bytes.len());
    met.holds(looked == Ok(16), "a look of shared shards is refused")?;
    takes_none(rt, "pin of shared shards")?;
    let Ok(at) = shared.pin(waits, thread, page(6)) else {
        return Err(met.broken("a pin of shared shards is refused"));
    };
    takes_none(rt, "read_into of shared shards")?;
    let read = shared.read_into(waits, thread, at, 0, &mut into);
    met.holds(read.is_ok(), "a read of shared shards is refused")?;
    let unpinned = shared.unpin(waits, thread, at);
    met.holds(unpinned.is_ok(), "a page that was read is not unpinned")
}

pub(crate) fn rows<P: Print, R: Wait>(
    rt: &P,
    met: &mut Met,
    waits: &R,
    shared: Shared,
    mut thread: Thread,
    device: MemDevice,
    into: Vec<u8>,
) -> Result<(), Ended>
    requires { AreOf shared thread.passes }
{
    if shared.count() < 2 {
        return Err(met.broken("two shards are shared"));
    }
    takes_none(rt, "pin_zeroed of shared shards")?;
    let Ok(at) = shared.pin_zeroed(waits, &mut thread, page(1)) else {
        return Err(met.broken("zeros of shared shards are refused"));
    };
    takes_none(rt, "unpin of shared shards")?;
    let unpinned = shared.unpin(waits, &mut thread, at);
    met.holds(unpinned.is_ok(), "an unpin of shared shards is refused")?;
    takes_none(rt, "write_back_page of shared shards")?;
    let was_dirty = shared.write_back_page(waits, &mut thread, page(1));
    met.holds(was_dirty == Ok(true), "a page of zeros is not written back")?;
    takes_none(rt, "flush_device of a shared shard")?;
    let flushed = shared.flush_device(waits, &mut thread, 1, 0);
    met.holds(flushed.is_ok(), "a device of a shared shard is not flushed")?;
    takes_none(rt, "write_back_some of a shared shard")?;
    let left = shared.write_back_some(waits, &mut thread, 1, 1);
    met.holds(left == Ok(0), "a shared shard's page is not written back")?;
    settled(rt, met, waits, &shared, &mut thread)?;
    takes_none(rt, "forget_pages of shared shards")?;
    let forgotten = shared.forget_pages(waits, &mut thread, 0, 1);
    met.holds(
        forgotten.is_ok(),
        "pages of shared shards are not forgotten",
    )?;
    raised(rt, met, waits, &shared, &mut thread)?;
    retired(rt, met, waits, &shared, &mut thread, device)?;
    looked_at(rt, met, waits, &shared, &mut thread, into)
}
