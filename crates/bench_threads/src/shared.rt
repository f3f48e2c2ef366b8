//! Measures hits in shards that threads share, each behind a turn, for `bench/shared/measure.py`;
//! and beside them in shards and in a node that one thread has for itself. Prints the sum of the
//! threads' checksums of what they read, and nanoseconds.
//!
//! Each frame has a page of 4,096 bytes, and each page is resident. A hit pins a page that is drawn
//! evenly, reads eight bytes of it, and unpins it. The numbers of pages and of the hits of each
//! thread come last; the pages are a power of two up to 65,536.
//!
//! - `SHARDS THREADS PAGES HITS`: 1, 2 or 4 threads over shared shards.
//! - `look SHARDS THREADS PAGES HITS`: the same, but a hit is a look at the bytes where they lie.
//! - `alone SHARDS PAGES HITS`: one thread over shards that no thread shares, without turns.
//! - `node PAGES HITS`: one thread over a node.
//!
//! With no argument a few hits of each kind are made, and the sums are printed.
ghost use Rattle.std.specs.Prelude.{◌≡◌, IfOk};
ghost use Rattle.warm_concurrent.specs.Attached.{AreOf};

use crate::numbered::{Numbered, Pages, numbered_node, numbered_shards};
use crate::parts::{added, next};
use crate::shards::{Measured, hit_often};
use anyhow::{Context, Result, bail};
use std::alloc::Global;
use std::io::Print;
use std::sync::Wait;
use std::thread::{Threads, join};
use std::time::{Clock, Duration, Instant};
use warm_concurrent::{Attached, SharedFault, SharedShards, Sharing};
use warm_gossip::NodeFault;
use warm_stamps::PageId;

const PAGE_SIZE: usize = 4_096;

// The number of threads.
#[derive(Clone, Copy)]
enum Crowd {
    One,
    Two,
    Four,
}

impl Crowd {
    fn of(threads: &str) -> Result<Crowd> {
        match threads {
            "1" => Ok(Crowd::One),
            "2" => Ok(Crowd::Two),
            "4" => Ok(Crowd::Four),
            _ => bail!("1, 2 or 4 threads"),
        }
    }

    fn name(self) -> &'static str {
        match self {
            Crowd::One => "1 thread",
            Crowd::Two => "2 threads",
            Crowd::Four => "4 threads",
        }
    }
}

// Who makes the hits, and where.
#[derive(Clone, Copy)]
enum Kind {
    Node,
    Alone { shards: usize },
    Shared { shards: usize, crowd: Crowd },
    Looked { shards: usize, crowd: Crowd },
}

// How many pages there are, how many hits each thread makes, and whether a hit in shared shards is
// a look.
#[derive(Clone, Copy)]
struct Load {
    pages: u64,
    hits: u64,
    looks: bool,
}

impl Load {
    fn of(pages: &str, hits: &str) -> Result<Load> {
        Ok(Load {
            pages: pages.parse::<u64>().context("the number of pages")?,
            hits: hits.parse::<u64>().context("the number of hits")?,
            looks: false,
        })
    }

    fn pages(self) -> Pages {
        Pages {
            count: self.pages,
            size: PAGE_SIZE,
        }
    }

    // Pages are drawn from as many as this mask and one.
    fn mask(self) -> u64 {
        self.pages.wrapping_sub(1)
    }
}

// What the hits read, as a sum of the threads' checksums, and the time that they took.
#[derive(Clone, Copy)]
struct Run {
    sum: u64,
    spent: Duration,
}

// The number in the first eight bytes.
fn number_of(bytes: &[u8]) -> u64 {
    match bytes.first_chunk::<8>() {
        Some(number) => u64::from_le_bytes(*number),
        None => 0,
    }
}

// The number in a page.
fn number_in<R: Wait>(
    rt: &R,
    shared: &SharedShards<Numbered>,
    attached: &mut Attached<Numbered>,
    no: u64,
) -> Result<u64, SharedFault>
    requires { AreOf shared.now attached.old.passes }
    ensures { AreOf shared.now attached.new.passes }
{
    let at = shared.pin(rt, attached, PageId { dev: 0, no })?;
    let bytes = shared.read(rt, attached, at, 0, 8)?;
    shared.unpin(rt, attached, at)?;
    Ok(number_of(bytes.as_slice()))
}

// The number in a page, which is looked at where it lies.
fn number_seen<R: Wait>(
    rt: &R,
    shared: &SharedShards<Numbered>,
    attached: &mut Attached<Numbered>,
    no: u64,
) -> Result<u64, SharedFault>
    requires { AreOf shared.now attached.old.passes }
    ensures { AreOf shared.now attached.new.passes }
{
    let page = PageId { dev: 0, no };
    let number = shared.look(rt, attached, page, |bytes: &[u8]| number_of(bytes))?;
    Ok(number)
}

// The number in a page, by a look or by a pin, a read and an unpin.
fn number_hit<R: Wait>(
    rt: &R,
    shared: &SharedShards<Numbered>,
    attached: &mut Attached<Numbered>,
    no: u64,
    looks: bool,
) -> Result<u64, SharedFault>
    requires { AreOf shared.now attached.old.passes }
    ensures { AreOf shared.now attached.new.passes }
{
    if looks {
        return number_seen(rt, shared, attached, no);
    }
    number_in(rt, shared, attached, no)
}

// Loads each page into a frame.
fn load_shared<R: Wait>(
    rt: &R,
    shared: &SharedShards<Numbered>,
    attached: &mut Attached<Numbered>,
    pages: u64,
) -> Result<(), SharedFault>
    requires { AreOf shared.now attached.old.passes }
    ensures { AreOf shared.now attached.new.passes }
{
    for no in 0..pages {
        number_in(rt, shared, attached, no)?;
    }
    Ok(())
}

// A checksum of what a thread's hits read. Each thread draws its pages by a linear congruence from
// its own number on.
fn hit_shared<R: Wait>(
    rt: &R,
    shared: &SharedShards<Numbered>,
    attached: &mut Attached<Numbered>,
    thread: u64,
    load: Load,
) -> Result<u64, SharedFault>
    requires { AreOf shared.now attached.old.passes }
    ensures { AreOf shared.now attached.new.passes }
{
    let mut drawn = thread;
    let mut checksum = 0u64;
    for _ in 0..load.hits {
        drawn = next(drawn);
        let no = (drawn >> 48) & load.mask();
        let number = number_hit(rt, shared, attached, no, load.looks)?;
        checksum = added(checksum, number);
    }
    Ok(checksum)
}

// The hits of the thread of this number, and their checksum, or `None` if one was refused.
fn hit_by_one<R: Wait>(
    rt: &R,
    shared: &SharedShards<Numbered>,
    mut attached: Attached<Numbered>,
    thread: u64,
    load: Load,
) -> (Attached<Numbered>, Option<u64>)
    requires { AreOf shared.now attached.passes }
    ensures { AreOf shared.now result.0.passes }
{
    let checksum = hit_shared(rt, shared, &mut attached, thread, load);
    (attached, checksum.ok())
}

// Ends what another thread has into what this one has, and returns the sum of both checksums if no
// hit was refused.
fn both(
    shared: &SharedShards<Numbered>,
    mut attached: Attached<Numbered>,
    other: Attached<Numbered>,
    sums: (Option<u64>, Option<u64>),
) -> (Attached<Numbered>, Option<u64>)
    requires { (AreOf shared.now attached.passes) × (AreOf shared.now other.passes) }
    ensures { AreOf shared.now result.0.passes }
{
    if shared.detach(&mut attached, other).is_err() {
        return (attached, None);
    }
    match sums {
        (Some(one), Some(two)) => (attached, Some(one.wrapping_add(two))),
        _ => (attached, None),
    }
}

// The hits of the threads of this number and the next.
fn hit_by_two<R: Threads + Wait + Sync>(
    rt: &R,
    alloc: Global,
    shared: &SharedShards<Numbered>,
    mut attached: Attached<Numbered>,
    thread: u64,
    load: Load,
) -> (Attached<Numbered>, Option<u64>)
    requires { AreOf shared.now attached.passes }
    ensures { AreOf shared.now result.0.passes }
{
    let Ok(other) = shared.attach(alloc, &mut attached) else {
        return (attached, None);
    };
    let ((attached, one), (other, two)) = join(
        rt,
        move || -> (Attached<Numbered>, Option<u64>)
            requires { AreOf shared.now attached.passes }
            ensures { AreOf shared.entry.now result.0.passes }
        { hit_by_one(rt, shared, attached, thread, load) },
        move || -> (Attached<Numbered>, Option<u64>)
            requires { AreOf shared.now other.passes }
            ensures { AreOf shared.entry.now result.0.passes }
        { hit_by_one(rt, shared, other, thread.wrapping_add(1), load) },
    );
    both(shared, attached, other, (one, two))
}

// The hits of the threads 1 to 4.
fn hit_by_four<R: Threads + Wait + Sync>(
    rt: &R,
    alloc: Global,
    shared: &SharedShards<Numbered>,
    mut attached: Attached<Numbered>,
    load: Load,
) -> (Attached<Numbered>, Option<u64>)
    requires { AreOf shared.now attached.passes }
    ensures { AreOf shared.now result.0.passes }
{
    let Ok(other) = shared.attach(alloc, &mut attached) else {
        return (attached, None);
    };
    let ((attached, one), (other, two)) = join(
        rt,
        move || -> (Attached<Numbered>, Option<u64>)
            requires { AreOf shared.now attached.passes }
            ensures { AreOf shared.entry.now result.0.passes }
        { hit_by_two(rt, alloc, shared, attached, 1, load) },
        move || -> (Attached<Numbered>, Option<u64>)
            requires { AreOf shared.now other.passes }
            ensures { AreOf shared.entry.now result.0.passes }
        { hit_by_two(rt, alloc, shared, other, 3, load) },
    );
    both(shared, attached, other, (one, two))
}

// The hits of the crowd in shards whose pages are resident.
fn hit_by<R: Threads + Wait + Sync>(
    rt: &R,
    alloc: Global,
    shared: &SharedShards<Numbered>,
    attached: Attached<Numbered>,
    crowd: Crowd,
    load: Load,
) -> Option<u64>
    requires { AreOf shared.now attached.passes }
{
    let (_, sum) = match crowd {
        Crowd::One => hit_by_one(rt, shared, attached, 1, load),
        Crowd::Two => hit_by_two(rt, alloc, shared, attached, 1, load),
        Crowd::Four => hit_by_four(rt, alloc, shared, attached, load),
    };
    sum
}

// Shared shards, and what the first thread has of them. Each page is resident.
fn opened<R: Wait>(
    rt: &R,
    alloc: Global,
    shards: usize,
    load: Load,
) -> Result<(SharedShards<Numbered>, Attached<Numbered>)>
    ensures { IfOk result (λ r. AreOf r.0 r.1.passes) }
{
    let Ok(sharing) = Sharing::new(alloc, numbered_shards(alloc, shards, load.pages())?) else {
        bail!("no memory")
    };
    let Ok((shared, mut attached)) = sharing.share() else {
        bail!("no memory")
    };
    if let Err(fault) = load_shared(rt, &shared, &mut attached, load.pages) {
        bail!("a page was not loaded: {} {}", fault.code(), fault.name())
    }
    Ok((shared, attached))
}

// The hits of threads in shared shards.
fn timed_shared<R: Threads + Wait + Clock + Sync>(
    rt: &R,
    alloc: Global,
    shards: usize,
    crowd: Crowd,
    load: Load,
) -> Result<Run> {
    let (shared, attached) = opened(rt, alloc, shards, load)?;
    let start = Instant::now(rt)?;
    let Some(sum) = hit_by(rt, alloc, &shared, attached, crowd, load) else {
        bail!("a hit was refused")
    };
    let spent = start.elapsed(rt)?;
    Ok(Run { sum, spent })
}

fn load_own<M: Measured>(on: &mut M, pages: u64) -> Result<(), NodeFault> {
    for no in 0..pages {
        on.number_in(no)?;
    }
    Ok(())
}

// The hits of one thread in a node or in shards that it has for itself.
fn timed_own<R: Clock, M: Measured + Drop>(rt: &R, mut on: M, load: Load) -> Result<Run> {
    let Ok(()) = load_own(&mut on, load.pages) else {
        bail!("a page was not loaded")
    };
    let start = Instant::now(rt)?;
    let Ok(sum) = hit_often(&mut on, load.mask(), load.hits) else {
        bail!("a hit was refused")
    };
    let spent = start.elapsed(rt)?;
    Ok(Run { sum, spent })
}

fn run_of<R: Threads + Wait + Clock + AllocGlobal + Sync>(
    rt: &R,
    kind: Kind,
    load: Load,
) -> Result<Run> {
    let alloc = rt.alloc();
    match kind {
        Kind::Node => timed_own(rt, numbered_node(alloc, load.pages())?, load),
        Kind::Alone { shards } => timed_own(
            rt,
            numbered_shards(alloc, shards, load.pages())?,
            load,
        ),
        Kind::Shared { shards, crowd } => timed_shared(rt, alloc, shards, crowd, load),
        Kind::Looked { shards, crowd } => {
            timed_shared(
                rt,
                alloc,
                shards,
                crowd,
                Load {
                    looks: true,
                    ..load
                },
            )
        }
    }
}

// Makes a few hits of each kind.
fn play_small<R: Threads + Wait + Clock + Print + AllocGlobal + Sync>(rt: &R) -> Result<()> {
    let load = Load {
        pages: 64,
        hits: 100,
        looks: false,
    };
    let node = run_of(rt, Kind::Node, load)?;
    println!(rt; "node: {}", node.sum)?;
    for shards in [1, 16] {
        let alone = run_of(rt, Kind::Alone { shards }, load)?;
        println!(rt; "shards {shards}, alone: {}", alone.sum)?;
        for crowd in [Crowd::One, Crowd::Two, Crowd::Four] {
            let run = run_of(rt, Kind::Shared { shards, crowd }, load)?;
            println!(rt; "shards {shards}, {}: {}", crowd.name(), run.sum)?;
            let run = run_of(rt, Kind::Looked { shards, crowd }, load)?;
            println!(rt; "shards {shards}, {}, looks: {}", crowd.name(), run.sum)?;
        }
    }
    Ok(())
}

// The kind of the hits and the numbers of pages and hits, by the arguments.
fn asked(words: &[String]) -> Result<(Kind, Load)> {
    match words {
        [word, pages, hits] if word.as_str() == "node" => Ok((Kind::Node, Load::of(pages, hits)?)),
        [word, shards, pages, hits] if word.as_str() == "alone" => {
            let shards = shards.parse::<usize>().context("the number of shards")?;
            Ok((Kind::Alone { shards }, Load::of(pages, hits)?))
        }
        [word, shards, threads, pages, hits] if word.as_str() == "look" => {
            let shards = shards.parse::<usize>().context("the number of shards")?;
            let crowd = Crowd::of(threads)?;
            Ok((Kind::Looked { shards, crowd }, Load::of(pages, hits)?))
        }
        [shards, threads, pages, hits] => {
            let shards = shards.parse::<usize>().context("the number of shards")?;
            let crowd = Crowd::of(threads)?;
            Ok((Kind::Shared { shards, crowd }, Load::of(pages, hits)?))
        }
        _ => bail!(
            "shared takes the numbers of shards, threads, pages and hits, or look, alone or node"
        ),
    }
}

pub(crate) fn play<R: Threads + Wait + Clock + Print + AllocGlobal + Sync>(
    rt: &R,
    words: &[String],
) -> Result<()> {
    if words.is_empty() {
        return play_small(rt);
    }
    let (kind, load) = asked(words)?;
    let run = run_of(rt, kind, load)?;
    println!(rt; "{}", run.sum)?;
    println!(rt; "{} ns", run.spent.as_nanos())?;
    Ok(())
}
