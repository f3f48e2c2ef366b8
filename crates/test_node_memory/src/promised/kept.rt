//! Calls of a node whose result is cached: the first allocates, and the second, without changes
//! since, does not. Taking in known references or entries in between is not a change.

use crate::promised::calls::{both, opened};
use std::alloc::Global;
use std::io::Print;
use test_kit::cases::{Ended, Met, is_done, takes, takes_none};
use test_kit::{bucket, page, seen};
use warm_devices::MemDevice;
use warm_gossip::{Call, Node, Reply};

// The number of frames of the node. Its history has as many pages.
const FRAMES: usize = 2;

// A node that has offered its digests and taken one step of its warm-up, before calls that brought
// it nothing new.
#[derive(Drop)]
pub(crate) struct Kept {
    node: Node<MemDevice>,
}

fn is_offered(node: &mut Node<MemDevice>) -> bool {
    matches!(node.call(Call::Offer), Reply::Sent(_))
}

// Whether a step of the warm-up loads page `no` of device 0, or none.
fn is_loaded(node: &mut Node<MemDevice>, no: Option<u64>) -> bool {
    let page = match no {
        Some(no) => Some(page(no)),
        None => None,
    };
    matches!(node.call(Call::WarmStep), Reply::Loaded(found) if found == page)
}

// A node takes in the references that it knows.
fn absorbs_known(node: &mut Node<MemDevice>) -> Result<(), Ended> {
    match node.absorb(&both()) {
        Ok(()) => Ok(()),
        Err(_) => Err(Ended::NoMemory),
    }
}

// A node takes in its own history.
fn joins_known(node: &mut Node<MemDevice>) -> Result<(), Ended> {
    let known = node.history().copy()?;
    match node.join(&known) {
        Ok(()) => Ok(()),
        Err(_) => Err(Ended::NoMemory),
    }
}

// A node takes in a message of the entries of one of its buckets.
fn receives_known(node: &mut Node<MemDevice>) -> Result<(), Ended> {
    let Ok(message) = node.send(bucket(1), None) else {
        return Err(Ended::NoMemory);
    };
    match node.receive(message) {
        Ok(_) => Ok(()),
        Err(_) => Err(Ended::NoMemory),
    }
}

// Calls that bring a node nothing new: what it has cached stays.
fn brings_nothing(met: &mut Met, node: &mut Node<MemDevice>) -> Result<(), Ended> {
    absorbs_known(node)?;
    joins_known(node)?;
    receives_known(node)?;
    met.holds(node.raise(0) == 0, "an earlier time is a horizon")
}

impl Kept {
    pub(crate) fn new<P: Print>(rt: &P, met: &mut Met, alloc: Global) -> Result<Kept, Ended> {
        let mut node = opened(alloc, FRAMES)?;
        takes(rt, FRAMES, "offer")?;
        if !is_offered(&mut node) {
            return Err(Ended::NoMemory);
        }
        takes(rt, FRAMES, "warm_step")?;
        if !is_loaded(&mut node, Some(2)) {
            return Err(Ended::NoMemory);
        }
        is_done(rt)?;
        brings_nothing(met, &mut node)?;
        Ok(Kept { node })
    }

    // The second call of each, with nothing new since the first.
    pub(crate) fn rows<P: Print>(self, rt: &P, met: &mut Met) -> Result<(), Ended> {
        let Kept { mut node } = self;
        takes_none(rt, "second offer")?;
        met.holds(is_offered(&mut node), "an offer without news is refused")?;
        takes_none(rt, "second warm_step")?;
        met.holds(is_loaded(&mut node, Some(1)), "a step of a list is refused")?;
        takes_none(rt, "warm_step with nothing to load")?;
        met.holds(is_loaded(&mut node, None), "the last step is refused")?;
        takes_none(rt, "absorb of a known page, with a list")?;
        met.holds(
            node.absorb(&[seen(page(1), 3, 1)]).is_ok(),
            "a reference to a known page is refused",
        )
    }
}
