//! The allocation-free calls of a worker: a pinned page of a replica is lent.
ghost use Rattle.std.specs.Prelude.{◌≡◌, IfOk};

use crate::promised::calls::empty;
use std::alloc::Global;
use std::io::Print;
use std::sync::Wait;
use test_kit::cases::{Ended, Met, takes_none};
use test_kit::page;
use warm_devices::MemDevice;
use warm_gossip::Node;
use warm_pool::Slot;
use warm_refbuffer::RefBuffer;
use warm_replica::{LendFault, Replica, Worker};
use warm_turn::Turn;

type Shared = Replica<MemDevice>;

type Thread = Worker<Node<MemDevice>>;

// A replica with a page that is pinned, its slot, and a worker.
pub(crate) fn opened(alloc: Global) -> Result<(Shared, Thread, Slot), Ended>
    ensures { IfOk result (λ made. made.1.pass.table ≡ made.0.table) }
{
    let mut node = empty(alloc, 1)?;
    let Ok(slot) = node.pin(page(1)) else {
        return Err(Ended::Broken);
    };
    let Ok(buffer) = RefBuffer::new(alloc, 1) else {
        return Err(Ended::NoMemory);
    };
    let Ok((shared, pass)) = Turn::new(alloc, node) else {
        return Err(Ended::NoMemory);
    };
    Ok((shared, Worker::new(pass, buffer), slot))
}

// The page is looked at and changed, and a slot that holds no page is refused.
pub(crate) fn rows<P: Print, R: Wait>(
    rt: &P,
    met: &mut Met,
    waits: &R,
    shared: Shared,
    mut worker: Thread,
    slot: Slot,
) -> Result<(), Ended>
    requires { worker.pass.table ≡ shared.table }
{
    takes_none(rt, "change of a worker")?;
    let changed = worker.change(waits, &shared, slot, |bytes: &mut [u8]| bytes.len());
    met.holds(changed == Ok(16), "a change is refused")?;
    takes_none(rt, "look of a worker")?;
    let looked = worker.look(waits, &shared, slot, |bytes: &[u8]| bytes.len());
    met.holds(looked == Ok(16), "a look is refused")?;
    let other = Slot {
        index: 1,
        generation: 1,
    };
    takes_none(rt, "look of a worker at a stale slot")?;
    let stale = worker.look(waits, &shared, other, |bytes: &[u8]| bytes.len());
    met.holds(
        stale == Err(LendFault::StaleSlot),
        "a stale slot is looked at",
    )
}
