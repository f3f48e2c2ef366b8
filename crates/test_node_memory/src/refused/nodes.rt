//! A pool over a device in memory, and a node over that pool, with calls of each kind.
use std::alloc::Global;
use test_kit::cases::{Ended, Met};
use test_kit::{alone, are_equal, history_of_pages, memory, page, references_to, replica, seen};
use warm_devices::MemDevice;
use warm_frames::{DIGEST_SIZE, DigestTable, Message};
use warm_gossip::{Call, Node, NodeFault, Reply};
use warm_history::PageHist;
use warm_pool::{MAX_DEVICES, NewPoolFault, Pool, Slot};
use warm_stamps::{BUCKETS, Bucket, BucketSet, ByteList, PageId, RefList};

// A node of two frames over a device of 8 pages. A refused pool gives the device back, and is made
// again over it.
pub(crate) fn opened(met: &mut Met, alloc: Global, number: u16) -> Result<Node<MemDevice>, Ended> {
    let id = replica(number);
    let devices = alone(alloc, memory(alloc, 8)?)?;
    let unmade = match Pool::new(alloc, 2, 16, devices) {
        Ok(pool) => return Ok(Node::new(alloc, id, pool)),
        Err(unmade) => unmade,
    };
    let is_back = unmade.devices.len() == 1;
    met.refuse(
        is_back && unmade.fault == NewPoolFault::Memory,
        "the device comes back",
    )?;
    if unmade.devices.len() > MAX_DEVICES {
        return Err(met.broken("one device comes back"));
    }
    match Pool::new(alloc, 2, 16, unmade.devices) {
        Ok(pool) => Ok(Node::new(alloc, id, pool)),
        Err(_) => Err(met.broken("a pool is refused again")),
    }
}

fn time_of(hist: PageHist) -> u64 {
    match hist {
        PageHist::Once(last) => last.time,
        PageHist::Twice(two) => two
            .last()
            .time
            .wrapping_mul(3)
            .wrapping_add(two.prev().time),
    }
}

// The state of a node that can be observed without allocation: its horizon, the number of its
// entries, a checksum of them, and the next victim.
#[derive(Clone, Copy, PartialEq, Eq)]
struct Face {
    horizon: u64,
    pages: usize,
    checksum: u64,
    victim: Option<PageId>,
}

fn face_of(node: &mut Node<MemDevice>) -> Face {
    let victim = node.victim();
    let history = node.history();
    let mut checksum = 0u64;
    for place in 0..history.len() {
        if let Some(entry) = history.at(place) {
            checksum = checksum
                .wrapping_mul(31)
                .wrapping_add(entry.page.no)
                .wrapping_mul(31)
                .wrapping_add(time_of(entry.hist));
        }
    }
    Face {
        horizon: history.horizon(),
        pages: history.len(),
        checksum,
        victim,
    }
}

// The slot of 0:7, the first page that is loaded.
const FIRST: Slot = Slot {
    index: 0,
    generation: 1,
};

const CALLS: usize = 21;

// A write to the page in slot `FIRST`.
fn write_call(alloc: Global) -> Result<Call, Ended> {
    let mut bytes = Vec::new(alloc);
    bytes.extend_from_slice(b"warm")?;
    Ok(Call::Write {
        slot: FIRST,
        at: 2,
        bytes: ByteList::of(bytes),
    })
}

// Digests by replica 2 with this horizon, none of which is that of a bucket.
pub(crate) fn digest(horizon: u64) -> Message {
    Message::Digest {
        sender: replica(2),
        horizon,
        digests: DigestTable::of([[0; DIGEST_SIZE]; BUCKETS as usize]),
    }
}

// A request for buckets 1 and 2, by replica 2 with this horizon.
pub(crate) fn request(horizon: u64) -> Message {
    Message::Want {
        sender: replica(2),
        horizon,
        request: BucketSet::from_bits(6),
    }
}

// Calls of each kind, one after the other, on a node of replica 1. The horizons 8, 12 and 21 drop
// the stamps at 5, at 10 and 11, and at 20. Between the two steps of a warm-up references come.
fn call_at(alloc: Global, place: usize) -> Result<Call, Ended> {
    let Some(bucket) = Bucket::new(1) else {
        return Err(Ended::Broken);
    };
    Ok(match place {
        0 => Call::Pin(page(7)),
        1 => Call::Absorb(RefList::of(references_to(alloc, 0, 6, 10)?)),
        2 => Call::Absorb(RefList::of(references_to(alloc, 4, 70, 20)?)),
        3 => Call::Send {
            bucket,
            after: None,
        },
        4 => Call::Offer,
        5 => Call::Receive(digest(0)),
        6 => Call::Receive(request(0)),
        7 => Call::WarmList(2),
        8 => Call::WarmStep,
        9 => Call::Absorb(RefList::of(references_to(alloc, 0, 6, 11)?)),
        10 => Call::WarmStep,
        11 => Call::Receive(digest(8)),
        12 => Call::Horizon(12),
        13 => Call::Offer,
        14 => Call::Absorb(RefList::of(references_to(alloc, 32, 70, 30)?)),
        15 => Call::Receive(request(21)),
        16 => Call::Read {
            slot: FIRST,
            at: 0,
            len: 4,
        },
        17 => write_call(alloc)?,
        18 => Call::Unpin(FIRST),
        19 => Call::Victim,
        _ => Call::Restart,
    })
}

// Whether this call is documented as allocation-free.
fn is_free(place: usize) -> bool {
    place == 0 || place == 12 || place >= 17
}

// Makes a call of a node. A refusal changes nothing, and the same call is then repeated.
fn ask(
    met: &mut Met,
    alloc: Global,
    node: &mut Node<MemDevice>,
    place: usize,
) -> Result<(), Ended> {
    let before = face_of(node);
    let Reply::Refused(fault) = node.call(call_at(alloc, place)?) else {
        return Ok(());
    };
    met.holds(!is_free(place), "a call that takes no memory is refused")?;
    met.holds(
        fault == NodeFault::Memory,
        "a call is refused otherwise than for memory",
    )?;
    met.refuse(face_of(node) == before, "a refused call changes nothing")?;
    let Reply::Refused(_) = node.call(call_at(alloc, place)?) else {
        return Ok(());
    };
    Err(met.broken("a call is refused again"))
}

// This node receives entries of another.
fn inform(
    met: &mut Met,
    node: &mut Node<MemDevice>,
    other: &mut Node<MemDevice>,
) -> Result<(), Ended> {
    if other.absorb(&[seen(page(1), 5, 1)]).is_err() {
        return Err(Ended::NoMemory);
    }
    let Some(bucket) = Bucket::new(1) else {
        return Err(met.broken("1 is a bucket"));
    };
    let before = face_of(node);
    let Ok(message) = other.send(bucket, None) else {
        return Err(Ended::NoMemory);
    };
    if node.receive(message).is_ok() {
        return Ok(());
    }
    met.refuse(face_of(node) == before, "a refused message changes nothing")?;
    let Ok(message) = other.send(bucket, None) else {
        return Err(met.broken("a send is refused later"));
    };
    met.holds(node.receive(message).is_ok(), "a message is refused again")
}

// Calls `answers` of a node, which changes nothing, whether it is refused or not.
fn answered(
    met: &mut Met,
    node: &mut Node<MemDevice>,
    message: &Message,
    wanted: usize,
) -> Result<(), Ended> {
    let before = face_of(node);
    let answers = match node.answers(message) {
        Ok(answers) => answers,
        Err(fault) => {
            let same = fault == NodeFault::Memory && face_of(node) == before;
            met.refuse(same, "refused answers change nothing")?;
            let Ok(answers) = node.answers(message) else {
                return Err(met.broken("answers are refused again"));
            };
            answers
        }
    };
    met.holds(face_of(node) == before, "answers change nothing")?;
    met.holds(
        answers.as_slice().len() == wanted,
        "answers are of what the horizon leaves",
    )
}

// At the horizon 12 each bucket has an entry, and at 21 none has.
fn answer(met: &mut Met, node: &mut Node<MemDevice>) -> Result<(), Ended> {
    answered(met, node, &digest(12), 65)?;
    answered(met, node, &digest(21), 1)?;
    answered(met, node, &request(12), 2)?;
    answered(met, node, &request(21), 0)
}

// What a node sends of bucket 1 since time 0: all. Nothing changes, whether it is refused or not.
fn send_since(met: &mut Met, node: &mut Node<MemDevice>) -> Result<(), Ended> {
    let Some(bucket) = Bucket::new(1) else {
        return Err(met.broken("1 is a bucket"));
    };
    let before = face_of(node);
    let sent = match node.send_since(bucket, 0, None) {
        Ok(sent) => sent,
        Err(fault) => {
            let same = fault == NodeFault::Memory && face_of(node) == before;
            met.refuse(same, "a refused portion of a node changes nothing")?;
            let Ok(sent) = node.send_since(bucket, 0, None) else {
                return Err(met.broken("a portion of a node is refused again"));
            };
            sent
        }
    };
    met.holds(face_of(node) == before, "a portion changes nothing")?;
    met.holds(!sent.more, "a message has the whole bucket")
}

// Loads a page, and lets it be a victim.
fn load(met: &mut Met, node: &mut Node<MemDevice>, no: u64) -> Result<(), Ended> {
    let Reply::Pinned(slot) = node.call(Call::Pin(page(no))) else {
        return Err(met.broken("a page is not pinned"));
    };
    let unpinned = matches!(node.call(Call::Unpin(slot)), Reply::Done);
    met.holds(unpinned, "a page is not unpinned")
}

// A node that has seen six pages at 10, and holds 0:1 and 0:4, joins a history of four pages at 20
// with the horizon 15. Then it knows that history alone, and 0:4 has no stamp left.
fn join(met: &mut Met, alloc: Global, node: &mut Node<MemDevice>) -> Result<(), Ended> {
    if node.absorb(&references_to(alloc, 0, 6, 10)?).is_err() {
        return Err(Ended::NoMemory);
    }
    load(met, node, 1)?;
    load(met, node, 4)?;
    met.holds(node.victim() == Some(page(1)), "0:1 is the lesser page")?;
    let mut other = history_of_pages(alloc, 0, 4, 20)?;
    other.raise(15);
    let before = face_of(node);
    if let Err(fault) = node.join(&other) {
        let same = fault == NodeFault::Memory && face_of(node) == before;
        met.refuse(same, "a refused join of a node changes nothing")?;
        met.holds(node.join(&other).is_ok(), "a node's join is refused again")?;
    }
    met.holds(are_equal(node.history(), &other), "a node joins a history")?;
    met.holds(node.victim() == Some(page(4)), "the pages are ranked again")
}

// Makes the call of an index on a node. After the third, another node sends it a page, and a
// portion and its answers are requested.
fn ask_at(
    met: &mut Met,
    alloc: Global,
    node: &mut Node<MemDevice>,
    other: &mut Node<MemDevice>,
    place: usize,
) -> Result<(), Ended> {
    ask(met, alloc, node, place)?;
    if place != 2 {
        return Ok(());
    }
    inform(met, node, other)?;
    send_since(met, node)?;
    answer(met, node)
}

// All calls on one node, one after the other. After the last, a restart, it joins a history.
pub(crate) fn rows(
    met: &mut Met,
    alloc: Global,
    node: &mut Node<MemDevice>,
    other: &mut Node<MemDevice>,
) -> Result<(), Ended> {
    for place in 0..CALLS {
        ask_at(met, alloc, node, other, place)?;
    }
    let is_empty = node.history().len() == 0 && node.history().horizon() == 0;
    met.holds(is_empty, "a restart forgets all")?;
    join(met, alloc, node)
}
