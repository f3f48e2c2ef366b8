//! Measures a round of gossip between two replicas, a replica's offer of its digests, a standby's
//! warm-up, and the memory of a history.
//!
//! With no argument each is done once, in a small size, and the results are printed. For
//! `bench/gossip/measure.py` the nanoseconds are printed too:
//! - `round PAGES BUCKETS ROUNDS`: that many rounds between replicas with the same pages, which
//!   differ in that many buckets before each round. Messages are sent as bytes.
//! - `offer PAGES BUCKETS OFFERS`: that many offers by a replica with that many pages; before each
//!   it absorbs a reference in each of that many buckets, which is not timed.
//! - `raised PAGES OFFERS`: that many offers by a replica with that many pages, each right after a
//!   raise of its horizon that drops 100 pages of one bucket and nothing else. Only the offers are
//!   timed.
//! - `warm PAGES STEPS`: that many steps of the warm-up of a replica with that many pages, into
//!   4,096 frames.
//! - `follow PAGES STEPS`: the same, but the first step is not timed, and before each other one the
//!   replica absorbs a reference to another page.
//! - `history PAGES`: a replica absorbs references to that many pages.
use crate::parts::{added, added_bytes, node_over, replica, scattered, twice};
use anyhow::{Context, Result, bail};
use std::alloc::Global;
use std::time::{Clock, Instant};
use warm_devices::MemDevice;
use warm_frames::{Message, decode, encode};
use warm_gossip::{Node, NodeFault};
use warm_history::{History, PageHist};
use warm_stamps::{PageId, Reference, ReplicaId, Stamp};

const WARMED: usize = 4_096;

// The time from which on the replicas absorb the references in which they differ.
const LATE: u64 = 1 << 40;

// The number of pages that a raise drops.
const DROPPED: u64 = 100;

// The result, and the time it took.
#[derive(Clone, Copy)]
struct Made {
    checksum: u64,
    nanos: u128,
}

const NOTHING: Made = Made {
    checksum: 0,
    nanos: 0,
};

// A refusal as an error of this program.
fn refused<T>(fault: NodeFault) -> Result<T> {
    bail!("refused {} {}", fault.code(), fault.name())
}

// Two references to the next of `pages` pages in turn, a little apart, from a time on.
fn two_in_turn(i: u32, pages: u32, from: u64, replica: ReplicaId) -> [Reference; 2] {
    let page = scattered(u64::from(i), u64::from(pages));
    let first = from.wrapping_add(u64::from(i));
    twice(page, replica, [first, first.wrapping_add(7)])
}

// Two references to each page from a time on, by replica 1.
fn references(alloc: Global, pages: u32, from: u64) -> Result<Vec<Reference>> {
    let replica = replica(1)?;
    let mut batch = Vec::with_capacity(alloc, 2 * pages as usize)?;
    for i in 0..pages {
        for reference in two_in_turn(i, pages, from, replica) {
            batch.push(reference)?;
        }
    }
    Ok(batch)
}

// A reference to a page of each of the first buckets, at a time.
fn in_buckets(
    alloc: Global,
    replica: ReplicaId,
    buckets: u32,
    time: u64,
) -> Result<Vec<Reference>> {
    let mut batch = Vec::with_capacity(alloc, buckets as usize)?;
    for no in 0..buckets {
        let page = PageId {
            dev: 0,
            no: u64::from(no),
        };
        let stamp = Stamp { time, replica };
        batch.push(Reference { page, stamp })?;
    }
    Ok(batch)
}

// References to pages of bucket 0 beyond the first `pages` pages, at a time.
fn dropped_next(
    alloc: Global,
    replica: ReplicaId,
    pages: u32,
    time: u64,
) -> Result<Vec<Reference>> {
    let first = (u64::from(pages) + 63) / 64 * 64;
    let mut batch = Vec::with_capacity(alloc, DROPPED as usize)?;
    for k in 0..DROPPED {
        let page = PageId {
            dev: 0,
            no: first + 64 * k,
        };
        let stamp = Stamp { time, replica };
        batch.push(Reference { page, stamp })?;
    }
    Ok(batch)
}

fn absorbed(node: &mut Node<MemDevice>, batch: &[Reference]) -> Result<()> {
    match node.absorb(batch) {
        Ok(()) => Ok(()),
        Err(fault) => refused(fault),
    }
}

// The bytes of a node's digests.
fn offered(alloc: Global, node: &mut Node<MemDevice>) -> Result<Vec<u8>> {
    match node.offer() {
        Ok(message) => Ok(encode(alloc, &message)?),
        Err(fault) => refused(fault),
    }
}

// The bytes of each of the messages.
fn encoded(alloc: Global, messages: &[Message]) -> Result<Vec<Vec<u8>>> {
    let mut all = Vec::with_capacity(alloc, messages.len())?;
    for message in messages {
        all.push(encode(alloc, message)?)?;
    }
    Ok(all)
}

// The answers of a node to the bytes of a message.
fn answered(alloc: Global, node: &mut Node<MemDevice>, bytes: &[u8]) -> Result<Vec<Vec<u8>>> {
    let Ok(message) = decode(alloc, bytes) else {
        bail!("the bytes are of a message")
    };
    match node.receive(message) {
        Ok(answers) => encoded(alloc, answers.as_slice()),
        Err(fault) => refused(fault),
    }
}

// The answers of a node to all of these, one after the other.
fn answers(alloc: Global, node: &mut Node<MemDevice>, sent: &[Vec<u8>]) -> Result<Vec<Vec<u8>>> {
    let mut all = Vec::new(alloc);
    for bytes in sent {
        all.append(&mut answered(alloc, node, bytes)?)?;
    }
    Ok(all)
}

fn length_of(sent: &[Vec<u8>]) -> u64 {
    let mut bytes = 0u64;
    for message in sent {
        bytes = bytes.wrapping_add(message.len() as u64);
    }
    bytes
}

// A round: the first offers its digests, and all answers are delivered. Returns the number of bytes
// sent.
fn round(alloc: Global, first: &mut Node<MemDevice>, second: &mut Node<MemDevice>) -> Result<u64> {
    let digests = offered(alloc, first)?;
    let entries_and_request = answered(alloc, second, &digests)?;
    let wanted = answers(alloc, first, &entries_and_request)?;
    let _none = answers(alloc, second, &wanted)?;
    let sent = length_of(&entries_and_request).wrapping_add(length_of(&wanted));
    Ok(sent.wrapping_add(digests.len() as u64))
}

// All rounds. Before each the first absorbs references in this many buckets.
fn rounds_of(
    alloc: Global,
    first: &mut Node<MemDevice>,
    second: &mut Node<MemDevice>,
    buckets: u32,
    rounds: u32,
) -> Result<u64> {
    let replica = first.id();
    let mut sent = 0u64;
    for i in 0..rounds {
        let time = LATE.wrapping_add(u64::from(i));
        absorbed(first, &in_buckets(alloc, replica, buckets, time)?)?;
        sent = sent.wrapping_add(round(alloc, first, second)?);
    }
    Ok(sent)
}

fn last_time(hist: PageHist) -> u64 {
    match hist {
        PageHist::Once(last) => last.time,
        PageHist::Twice(two) => two.last().time,
    }
}

// A checksum of all entries, so that the result is used.
fn checksum_of(history: &History) -> u64 {
    let mut checksum = 0u64;
    for entry in history.iter() {
        checksum = added(checksum, entry.page.no).wrapping_add(last_time(entry.hist));
    }
    checksum
}

fn gossiped(
    clock: &impl Clock,
    alloc: Global,
    first: &mut Node<MemDevice>,
    second: &mut Node<MemDevice>,
    buckets: u32,
    rounds: u32,
) -> Result<Made> {
    let start = Instant::now(clock)?;
    let sent = rounds_of(alloc, first, second, buckets, rounds)?;
    let nanos = start.elapsed(clock)?.as_nanos();
    if checksum_of(first.history()) != checksum_of(second.history()) {
        bail!("the histories differ")
    }
    let checksum = checksum_of(second.history()).wrapping_add(sent);
    Ok(Made { checksum, nanos })
}

// A node of the number, over a device of `pages` pages, that has absorbed two references to each
// from a time on.
fn node_of_pages(
    alloc: Global,
    number: u16,
    frames: usize,
    pages: u32,
    from: u64,
) -> Result<Node<MemDevice>> {
    let mut node = node_over(alloc, number, frames, u64::from(pages))?;
    absorbed(&mut node, &references(alloc, pages, from)?)?;
    Ok(node)
}

fn rounds_over(
    clock: &impl Clock,
    alloc: Global,
    pages: u32,
    buckets: u32,
    rounds: u32,
) -> Result<Made> {
    let mut first = node_of_pages(alloc, 1, 1, pages, 0)?;
    let mut second = node_of_pages(alloc, 2, 1, pages, 0)?;
    gossiped(clock, alloc, &mut first, &mut second, buckets, rounds)
}

// The result so far with one more offer: a checksum of its bytes, and the time it took.
fn one_more(
    clock: &impl Clock,
    alloc: Global,
    node: &mut Node<MemDevice>,
    made: Made,
) -> Result<Made> {
    let start = Instant::now(clock)?;
    let bytes = offered(alloc, node)?;
    let spent = start.elapsed(clock)?.as_nanos();
    Ok(Made {
        checksum: added_bytes(made.checksum, &bytes),
        nanos: made.nanos.wrapping_add(spent),
    })
}

// The offers of a node that absorbs a reference in each of this many buckets before each.
fn offers_of(
    clock: &impl Clock,
    alloc: Global,
    node: &mut Node<MemDevice>,
    buckets: u32,
    offers: u32,
) -> Result<Made> {
    let replica = node.id();
    let mut made = NOTHING;
    for i in 0..offers {
        let time = LATE.wrapping_add(u64::from(i));
        absorbed(node, &in_buckets(alloc, replica, buckets, time)?)?;
        made = one_more(clock, alloc, node, made)?;
    }
    Ok(made)
}

fn offers_over(
    clock: &impl Clock,
    alloc: Global,
    pages: u32,
    buckets: u32,
    offers: u32,
) -> Result<Made> {
    let mut node = node_of_pages(alloc, 1, 1, pages, 0)?;
    // The first offer computes all digests.
    let _first = offered(alloc, &mut node)?;
    offers_of(clock, alloc, &mut node, buckets, offers)
}

// The offers of a node with late references to this many pages. Before each it absorbs early ones
// to pages of bucket 0, makes an offer, and forgets them.
fn raised_offers_of(
    clock: &impl Clock,
    alloc: Global,
    node: &mut Node<MemDevice>,
    pages: u32,
    offers: u32,
) -> Result<Made> {
    let replica = node.id();
    let mut made = NOTHING;
    for i in 0..offers {
        let time = u64::from(i) + 1;
        absorbed(node, &dropped_next(alloc, replica, pages, time)?)?;
        let _before = offered(alloc, node)?;
        node.raise(time + 1);
        made = one_more(clock, alloc, node, made)?;
    }
    Ok(made)
}

fn raised_offers_over(clock: &impl Clock, alloc: Global, pages: u32, offers: u32) -> Result<Made> {
    let mut node = node_of_pages(alloc, 1, 1, pages, LATE)?;
    // The first offer computes all digests.
    let _first = offered(alloc, &mut node)?;
    raised_offers_of(clock, alloc, &mut node, pages, offers)
}

// The steps of a node's warm-up, and a checksum of the loaded pages, in their order.
fn warm_steps(node: &mut Node<MemDevice>, steps: u32) -> Result<u64> {
    let mut checksum = 0u64;
    for _ in 0..steps {
        match node.warm_step() {
            Ok(Some(page)) => {
                checksum = added(checksum, page.no);
            }
            Ok(None) => return Ok(checksum),
            Err(fault) => return refused(fault),
        }
    }
    Ok(checksum)
}

fn warmed(clock: &impl Clock, alloc: Global, pages: u32, steps: u32) -> Result<Made> {
    let mut node = node_of_pages(alloc, 1, WARMED, pages, 0)?;
    let start = Instant::now(clock)?;
    let checksum = warm_steps(&mut node, steps)?;
    let nanos = start.elapsed(clock)?.as_nanos();
    Ok(Made { checksum, nanos })
}

// Steps of a node's warm-up, before each of which it absorbs a reference to the next page in turn.
fn steps_after_references(node: &mut Node<MemDevice>, pages: u32, steps: u32) -> Result<u64> {
    let replica = node.id();
    let mut checksum = 0u64;
    for i in 0..steps {
        let page = scattered(u64::from(i), u64::from(pages));
        let time = LATE.wrapping_add(u64::from(i));
        let stamp = Stamp { time, replica };
        absorbed(node, &[Reference { page, stamp }])?;
        checksum = added(checksum, warm_steps(node, 1)?);
    }
    Ok(checksum)
}

fn followed(clock: &impl Clock, alloc: Global, pages: u32, steps: u32) -> Result<Made> {
    let mut node = node_of_pages(alloc, 1, WARMED, pages, 0)?;
    let _first = warm_steps(&mut node, 1)?;
    let start = Instant::now(clock)?;
    let checksum = steps_after_references(&mut node, pages, steps)?;
    let nanos = start.elapsed(clock)?.as_nanos();
    Ok(Made { checksum, nanos })
}

// A node absorbs references to this many pages, a batch at a time, so that only its history uses
// much memory.
fn remember(node: &mut Node<MemDevice>, pages: u32) -> Result<()> {
    let replica = node.id();
    for i in 0..pages {
        absorbed(node, &two_in_turn(i, pages, 0, replica))?;
    }
    Ok(())
}

fn remembered(clock: &impl Clock, alloc: Global, pages: u32) -> Result<Made> {
    let mut node = node_over(alloc, 1, 1, 1)?;
    let start = Instant::now(clock)?;
    remember(&mut node, pages)?;
    let nanos = start.elapsed(clock)?.as_nanos();
    let checksum = checksum_of(node.history());
    Ok(Made { checksum, nanos })
}

// What is measured.
#[derive(Clone, Copy)]
enum Case {
    Round {
        pages: u32,
        buckets: u32,
        rounds: u32,
    },
    Offer {
        pages: u32,
        buckets: u32,
        offers: u32,
    },
    Raised {
        pages: u32,
        offers: u32,
    },
    Warm {
        pages: u32,
        steps: u32,
    },
    Follow {
        pages: u32,
        steps: u32,
    },
    History {
        pages: u32,
    },
}

fn measured(clock: &impl Clock, alloc: Global, case: Case) -> Result<Made> {
    match case {
        Case::Round {
            pages,
            buckets,
            rounds,
        } => rounds_over(clock, alloc, pages, buckets, rounds),
        Case::Offer {
            pages,
            buckets,
            offers,
        } => offers_over(clock, alloc, pages, buckets, offers),
        Case::Raised { pages, offers } => raised_offers_over(clock, alloc, pages, offers),
        Case::Warm { pages, steps } => warmed(clock, alloc, pages, steps),
        Case::Follow { pages, steps } => followed(clock, alloc, pages, steps),
        Case::History { pages } => remembered(clock, alloc, pages),
    }
}

fn case_of(words: &[String]) -> Result<Case> {
    let mut numbers = [0u32; 3];
    for (i, number) in numbers.iter_mut().enumerate() {
        if let Some(word) = words.get(i + 1) {
            *number = word.parse::<u32>().context("a number")?;
        }
    }
    let [pages, second, third] = numbers;
    match words.first().map(|word| word.as_str()) {
        Some("round") => Ok(Case::Round {
            pages,
            buckets: second.min(64),
            rounds: third,
        }),
        Some("offer") => Ok(Case::Offer {
            pages,
            buckets: second.min(64),
            offers: third,
        }),
        Some("raised") => Ok(Case::Raised {
            pages,
            offers: second,
        }),
        Some("warm") => Ok(Case::Warm {
            pages,
            steps: second,
        }),
        Some("follow") => Ok(Case::Follow {
            pages,
            steps: second,
        }),
        Some("history") => Ok(Case::History { pages }),
        _ => bail!("round, offer, raised, warm, follow or history"),
    }
}

const SMALL: [(&str, Case); 8] = [
    (
        "round, 1 bucket",
        Case::Round {
            pages: 1_000,
            buckets: 1,
            rounds: 1,
        },
    ),
    (
        "round, 10 buckets",
        Case::Round {
            pages: 1_000,
            buckets: 10,
            rounds: 1,
        },
    ),
    (
        "round, 64 buckets",
        Case::Round {
            pages: 1_000,
            buckets: 64,
            rounds: 1,
        },
    ),
    (
        "two offers",
        Case::Offer {
            pages: 1_000,
            buckets: 1,
            offers: 2,
        },
    ),
    (
        "two offers after raises",
        Case::Raised {
            pages: 1_000,
            offers: 2,
        },
    ),
    (
        "warm-up",
        Case::Warm {
            pages: 1_000,
            steps: 64,
        },
    ),
    (
        "warm-up that follows references",
        Case::Follow {
            pages: 1_000,
            steps: 64,
        },
    ),
    ("history", Case::History { pages: 1_000 }),
];

pub(crate) fn play(rt: &HostRuntime, words: &[String]) -> Result<()> {
    if words.is_empty() {
        for (what, case) in SMALL {
            let made = measured(rt, rt.alloc(), case)?;
            println!(rt; "{}: {}", what, made.checksum)?;
        }
        return Ok(());
    }
    let made = measured(rt, rt.alloc(), case_of(words)?)?;
    println!(rt; "{}", made.checksum)?;
    println!(rt; "{} ns", made.nanos)?;
    Ok(())
}
