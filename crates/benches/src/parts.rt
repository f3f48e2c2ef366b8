//! Parts that several benches share: numbers given or drawn, checksums of results, pages,
//! references and nodes.
use anyhow::{Context, Result, bail};
use std::alloc::Global;
use warm_devices::MemDevice;
use warm_gossip::Node;
use warm_pool::Pool;
use warm_stamps::{PageId, Reference, ReplicaId, Stamp};

// The page size of a node in bytes.
const NODE_PAGE_SIZE: usize = 16;

// The number that is the only argument, if there is one.
pub(crate) fn asked_number(words: &[String], what: &'static str) -> Result<Option<u64>> {
    match words {
        [] => Ok(None),
        [word] => Ok(Some(word.parse::<u64>().context(what)?)),
        _ => bail!("one number is taken: {what}"),
    }
}

// The next number of a linear congruential generator (Knuth's MMIX).
pub(crate) fn next(drawn: u64) -> u64 {
    drawn
        .wrapping_mul(6_364_136_223_846_793_005)
        .wrapping_add(1_442_695_040_888_963_407)
}

// A checksum with one more item. Checksums are printed, so that results are used, and differ if the
// order differs.
pub(crate) fn added(checksum: u64, item: u64) -> u64 {
    checksum.wrapping_mul(31).wrapping_add(item)
}

pub(crate) fn added_bytes(mut checksum: u64, bytes: &[u8]) -> u64 {
    for byte in bytes {
        checksum = added(checksum, u64::from(*byte));
    }
    checksum
}

// The next of `pages` pages in turn, in a scattered order that covers all.
pub(crate) fn scattered(i: u64, pages: u64) -> PageId {
    let no = i.wrapping_mul(7919).checked_rem(pages).unwrap_or(0);
    PageId { dev: 0, no }
}

pub(crate) fn replica(number: u16) -> Result<ReplicaId> {
    match ReplicaId::new(number) {
        Ok(replica) => Ok(replica),
        Err(_) => bail!("no replica has the number {number}"),
    }
}

// Two references to a page, at these times.
pub(crate) fn twice(page: PageId, replica: ReplicaId, times: [u64; 2]) -> [Reference; 2] {
    times.map(|time| Reference {
        page,
        stamp: Stamp { time, replica },
    })
}

// A node without references, with a pool of this many frames over a device of this many pages.
pub(crate) fn node_over(
    alloc: Global,
    number: u16,
    frames: usize,
    pages: u64,
) -> Result<Node<MemDevice>> {
    let id = replica(number)?;
    let mut devices = Vec::with_capacity(alloc, 1)?;
    devices.push_reserved(MemDevice::new(alloc, pages, NODE_PAGE_SIZE)?);
    match Pool::new(alloc, frames, NODE_PAGE_SIZE, devices) {
        Ok(pool) => Ok(Node::new(alloc, id, pool)),
        Err(unmade) => bail!("no pool: {}", unmade.fault.name()),
    }
}
