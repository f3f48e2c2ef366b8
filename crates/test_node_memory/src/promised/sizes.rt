//! Calls of a node that allocate. Each prints the number of entries or bytes of its result, from
//! which `scripts/refuse-allocations` computes the bound of its allocations.

use crate::promised::calls::{is_pinned, opened};
use std::alloc::Global;
use std::io::Print;
use test_kit::cases::{Ended, Met, is_done, takes};
use test_kit::{bucket, replica, spread_references};
use warm_devices::MemDevice;
use warm_frames::Message;
use warm_gossip::{Call, Node, Reply};
use warm_pool::Slot;
use warm_stamps::{BUCKETS, BucketSet, RefList};

// The number of pages that a node is taught, all of bucket 0 and so of one map.
const PAGES: u64 = 1000;

// Calls of a node that allocate.
fn asked<P: Print>(
    rt: &P,
    node: &mut Node<MemDevice>,
    size: usize,
    name: &str,
    call: Call,
) -> Result<(), Ended> {
    takes(rt, size, name)?;
    let reply = node.call(call);
    is_done(rt)?;
    match reply {
        Reply::Refused(_) => Err(Ended::NoMemory),
        _ => Ok(()),
    }
}

// The entries of the bucket since the first time, in one message.
fn sent_since<P: Print>(rt: &P, node: &Node<MemDevice>) -> Result<(), Ended> {
    takes(rt, PAGES as usize, "send_since")?;
    let sent = node.send_since(bucket(0), 0, None);
    is_done(rt)?;
    match sent {
        Ok(_) => Ok(()),
        Err(_) => Err(Ended::NoMemory),
    }
}

// A node absorbs the references, and returns the entries of their bucket in one message, in one
// portion, and as the answer to a request.
fn taught<P: Print>(rt: &P, node: &mut Node<MemDevice>, batch: RefList) -> Result<(), Ended> {
    let size = PAGES as usize;
    asked(rt, node, size, "absorb of a node", Call::Absorb(batch))?;
    let call = Call::Send {
        bucket: bucket(0),
        after: None,
    };
    asked(rt, node, size, "send", call)?;
    sent_since(rt, node)?;
    let request = Message::Want {
        sender: replica(1),
        horizon: 0,
        request: BucketSet::from_bits(1),
    };
    asked(
        rt,
        node,
        size,
        "receive of a request",
        Call::Receive(request),
    )
}

// Bytes of a page that is pinned.
fn got<P: Print>(rt: &P, met: &mut Met, node: &mut Node<MemDevice>) -> Result<(), Ended> {
    met.holds(is_pinned(node, 1, 1), "a pin is refused")?;
    let slot = Slot {
        index: 0,
        generation: 1,
    };
    let call = Call::Read {
        slot,
        at: 0,
        len: 16,
    };
    asked(rt, node, 16, "read", call)
}

// Calls of two nodes, of which the second receives what the first sends.
pub(crate) fn rows<P: Print>(rt: &P, met: &mut Met, alloc: Global) -> Result<(), Ended> {
    let batch = spread_references(alloc, 0, u64::from(BUCKETS), PAGES, 10)?;
    let mut node = opened(alloc, 1)?;
    taught(rt, &mut node, RefList::of(batch))?;
    got(rt, met, &mut node)?;
    let Ok(message) = node.send(bucket(0), None) else {
        return Err(Ended::NoMemory);
    };
    let mut other = opened(alloc, 1)?;
    let call = Call::Receive(message);
    asked(rt, &mut other, PAGES as usize, "receive of entries", call)?;
    let is_equal = node.history().len() == other.history().len();
    met.holds(is_equal, "a node learns all entries")
}
