//! Measures hits and batches of references in shards, and in a plain node beside them. Prints a
//! checksum of what was read with nanoseconds, and then one of the hottest pages with nanoseconds.
//!
//! Four numbers are taken: of shards, or 0 for a plain node; of frames in all, a power of two up to
//! 65,536; of hits; and of batches. Each frame has a page of 16 bytes. A hit pins a page that is
//! drawn evenly, reads eight bytes of it, and unpins it. A batch has 64 references to pages that
//! are drawn evenly. With no word a little of both is made with a node, one shard and four shards,
//! which print the same.
//!
//! `hits` takes the numbers of frames and of hits alone, for `bench/c/measure.py`, which measures
//! the same from C, and makes the hits in a plain node. With no word it makes a few.

use crate::numbered::{Pages, numbered_node, numbered_shards};
use crate::parts::{added, next, replica};
use anyhow::{Context, Result, bail};
use std::time::{Clock, Duration, Instant};
use warm_devices::PageDevice;
use warm_gossip::{Node, NodeFault};
use warm_shards::Shards;
use warm_stamps::{PageId, PageList, Reference, ReplicaId, Stamp};

// How many references a batch has, and how many of the hottest pages are printed.
const BATCH: usize = 64;

const HOTTEST: usize = 16;

const PAGE_SIZE: usize = 16;

// What is measured of a node and of shards.
pub(crate) trait Measured {
    fn put_number(&mut self, no: u64) -> Result<(), NodeFault>;

    fn number_in(&mut self, no: u64) -> Result<u64, NodeFault>;

    fn take(&mut self, batch: &[Reference]) -> Result<(), NodeFault>;

    fn hottest(&self) -> Result<PageList, NodeFault>;
}

impl<D: PageDevice> Measured for Node<D> {
    fn put_number(&mut self, no: u64) -> Result<(), NodeFault> {
        let slot = self.pin(PageId { dev: 0, no })?;
        self.write(slot, 0, &no.to_le_bytes())?;
        self.unpin(slot)?;
        Ok(())
    }

    fn number_in(&mut self, no: u64) -> Result<u64, NodeFault> {
        let slot = self.pin(PageId { dev: 0, no })?;
        let mut bytes = [0u8; 8];
        self.read_into(slot, 0, &mut bytes)?;
        self.unpin(slot)?;
        Ok(u64::from_le_bytes(bytes))
    }

    fn take(&mut self, batch: &[Reference]) -> Result<(), NodeFault> {
        self.absorb(batch)
    }

    fn hottest(&self) -> Result<PageList, NodeFault> {
        self.warm_list(HOTTEST)
    }
}

impl<D: PageDevice> Measured for Shards<D> {
    fn put_number(&mut self, no: u64) -> Result<(), NodeFault> {
        let at = self.pin(PageId { dev: 0, no })?;
        self.write(at, 0, &no.to_le_bytes())?;
        self.unpin(at)?;
        Ok(())
    }

    fn number_in(&mut self, no: u64) -> Result<u64, NodeFault> {
        let at = self.pin(PageId { dev: 0, no })?;
        let mut bytes = [0u8; 8];
        self.read_into(at, 0, &mut bytes)?;
        self.unpin(at)?;
        Ok(u64::from_le_bytes(bytes))
    }

    fn take(&mut self, batch: &[Reference]) -> Result<(), NodeFault> {
        self.absorb(batch)
    }

    fn hottest(&self) -> Result<PageList, NodeFault> {
        self.warm_list(HOTTEST)
    }
}

// How much is made.
#[derive(Clone, Copy)]
struct Load {
    frames: u64,
    hits: u64,
    batches: u64,
}

impl Load {
    fn pages(self) -> Pages {
        Pages {
            count: self.frames,
            size: PAGE_SIZE,
        }
    }

    // Pages are drawn from as many as this mask and one.
    fn mask(self) -> u64 {
        self.frames.wrapping_sub(1)
    }
}

// The checksums of one run, and its times.
#[derive(Clone, Copy)]
struct Run {
    read: u64,
    hits: Duration,
    hottest: u64,
    batches: Duration,
}

fn fill<M: Measured>(on: &mut M, frames: u64) -> Result<(), NodeFault> {
    for no in 0..frames {
        on.put_number(no)?;
    }
    Ok(())
}

// A checksum of what the hits read. Pages are drawn by a linear congruence, from as many as the
// mask and one.
pub(crate) fn hit_often<M: Measured>(on: &mut M, mask: u64, hits: u64) -> Result<u64, NodeFault> {
    let mut drawn = 1u64;
    let mut checksum = 0u64;
    for _ in 0..hits {
        drawn = next(drawn);
        checksum = added(checksum, on.number_in((drawn >> 48) & mask)?);
    }
    Ok(checksum)
}

// Absorbs batches of references at rising times, in one buffer that each of them fills.
fn take_often<M: Measured>(
    on: &mut M,
    id: ReplicaId,
    mask: u64,
    batches: u64,
) -> Result<(), NodeFault> {
    let mut drawn = 1u64;
    let mut time = 0u64;
    let none = Reference {
        page: PageId { dev: 0, no: 0 },
        stamp: Stamp {
            time: 0,
            replica: id,
        },
    };
    let mut batch = [none; BATCH];
    for _ in 0..batches {
        for reference in &mut batch {
            drawn = next(drawn);
            time = time.wrapping_add(1);
            reference.page.no = (drawn >> 48) & mask;
            reference.stamp.time = time;
        }
        on.take(&batch)?;
    }
    Ok(())
}

fn checksum_of(pages: &PageList) -> u64 {
    let mut checksum = 0u64;
    for page in pages.as_slice() {
        checksum = added(checksum, page.no);
    }
    checksum
}

// The checksum and the time of hits, after each frame is filled.
fn timed_hits<T: Clock, M: Measured>(rt: &T, on: &mut M, load: Load) -> Result<(u64, Duration)> {
    let Ok(()) = fill(on, load.frames) else {
        bail!("a page was not put into its frame")
    };
    let start = Instant::now(rt)?;
    let Ok(read) = hit_often(on, load.mask(), load.hits) else {
        bail!("a hit was refused")
    };
    Ok((read, start.elapsed(rt)?))
}

fn timed<T: Clock, M: Measured>(rt: &T, on: &mut M, id: ReplicaId, load: Load) -> Result<Run> {
    let (read, hits) = timed_hits(rt, on, load)?;
    let start = Instant::now(rt)?;
    let Ok(()) = take_often(on, id, load.mask(), load.batches) else {
        bail!("a batch was refused")
    };
    let batches = start.elapsed(rt)?;
    let Ok(pages) = on.hottest() else {
        bail!("the hottest pages were refused")
    };
    let hottest = checksum_of(&pages);
    Ok(Run {
        read,
        hits,
        hottest,
        batches,
    })
}

// The run of this many shards, or of a plain node if the count is 0.
fn run_of<T: Clock + AllocGlobal>(rt: &T, count: u64, load: Load) -> Result<Run> {
    let id = replica(1)?;
    if count == 0 {
        let mut node = numbered_node(rt.alloc(), load.pages())?;
        return timed(rt, &mut node, id, load);
    }
    let mut shards = numbered_shards(rt.alloc(), count as usize, load.pages())?;
    timed(rt, &mut shards, id, load)
}

pub(crate) fn play(rt: &HostRuntime, words: &[String]) -> Result<()> {
    let [count, frames, hits, batches] = words else {
        let load = Load {
            frames: 64,
            hits: 100,
            batches: 4,
        };
        for count in [0, 1, 4] {
            let Run { read, hottest, .. } = run_of(rt, count, load)?;
            println!(rt; "{count} shards: {read} {hottest}")?;
        }
        return Ok(());
    };
    let count = count.parse::<u64>().context("how many shards")?;
    let load = Load {
        frames: frames.parse::<u64>().context("how many frames")?,
        hits: hits.parse::<u64>().context("how many hits")?,
        batches: batches.parse::<u64>().context("how many batches")?,
    };
    let run = run_of(rt, count, load)?;
    println!(rt; "{}", run.read)?;
    println!(rt; "{} ns", run.hits.as_nanos())?;
    println!(rt; "{}", run.hottest)?;
    println!(rt; "{} ns", run.batches.as_nanos())?;
    Ok(())
}

// The hits in a node whose pool has this many frames.
fn hits_in_node<T: Clock + AllocGlobal>(rt: &T, frames: u64, hits: u64) -> Result<(u64, Duration)> {
    let load = Load {
        frames,
        hits,
        batches: 0,
    };
    let mut node = numbered_node(rt.alloc(), load.pages())?;
    timed_hits(rt, &mut node, load)
}

pub(crate) fn play_hits(rt: &HostRuntime, words: &[String]) -> Result<()> {
    let [frames, hits] = words else {
        let (read, _) = hits_in_node(rt, 16, 100)?;
        println!(rt; "{read}")?;
        return Ok(());
    };
    let frames = frames.parse::<u64>().context("how many frames")?;
    let hits = hits.parse::<u64>().context("how many hits")?;
    let (read, spent) = hits_in_node(rt, frames, hits)?;
    println!(rt; "{read}")?;
    println!(rt; "{} ns", spent.as_nanos())?;
    Ok(())
}
