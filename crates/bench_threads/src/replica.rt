//! Measures references that workers add to one replica: each touches and flushes, in a thread of
//! its own.
//!
//! With no argument 1, 2 and 4 workers add 1,000 references each, to 100 pages, and a checksum of
//! the hottest pages is printed. With three numbers, `WORKERS REFERENCES PAGES`, 1, 2 or 4 workers
//! add that many each to that many pages, and the nanoseconds are printed too, for
//! `bench/replica/measure.py`.
ghost use Rattle.std.specs.Prelude.{◌≡◌};
ghost use Rattle.std.specs.Thread.{IsSend, IsSync};

use crate::numbered::{Numbered, Pages, node_of};
use crate::parts;
use crate::parts::{added, next};
use anyhow::{Context, Result, bail};
use std::alloc::Global;
use std::io::Print;
use std::sync::Wait;
use std::thread::{Threads, join};
use std::time::{Clock, Duration, Instant};
use warm_gossip::{Call, Node, Reply};
use warm_refbuffer::{Full, RefBuffer};
use warm_replica::{BatchMachine, Worker};
use warm_stamps::{PageId, Reference, ReplicaId, Stamp};
use warm_turn::{Pass, Turn};

// The capacity of a worker's buffer, in references.
const BUFFER: usize = 64;

// The number of the hottest pages in the checksum.
const HOTTEST: usize = 1_000;

// The pages of the node's device.
const DEVICE_PAGES: Pages = Pages { count: 8, size: 16 };

// The reference of a worker's `i`th turn, to the page drawn.
fn reference(replica: ReplicaId, worker: u64, i: u64, drawn: u64, pages: u64) -> Reference {
    let no = (drawn >> 33).checked_rem(pages).unwrap_or(0);
    let time = i.wrapping_mul(4).wrapping_add(worker);
    Reference {
        page: PageId { dev: 0, no },
        stamp: Stamp { time, replica },
    }
}

// Touches this many references to this many pages, and flushes whenever the buffer is full and at
// the end. Returns the number of refused flushes.
fn bring<M: BatchMachine, R: Wait>(
    rt: &R,
    alloc: Global,
    replica: &Turn<M>,
    worker: &mut Worker<M>,
    id: ReplicaId,
    number: u64,
    references: u64,
    pages: u64,
) -> u64
    requires { worker.old.pass.table ≡ replica.now.table }
    ensures { worker.new.pass.table ≡ replica.now.table }
{
    let mut refused = 0u64;
    let mut drawn = number;
    for i in 0..references {
        drawn = next(drawn);
        let touched = reference(id, number, i, drawn, pages);
        if let Err(Full(back)) = worker.touch(touched) {
            if worker.flush(rt, alloc, replica).is_err() {
                refused = refused.wrapping_add(1);
            }
            let _ = worker.touch(back);
        }
    }
    if worker.flush(rt, alloc, replica).is_err() {
        refused = refused.wrapping_add(1);
    }
    refused
}

// The worker of this number adds its references. A buffer whose allocation fails is counted as a
// refused flush.
fn bring_one<M: BatchMachine, R: Wait + AllocGlobal>(
    rt: &R,
    replica: &Turn<M>,
    pass: Pass<M>,
    number: u64,
    references: u64,
    pages: u64,
) -> (Pass<M>, u64)
    requires { pass.table ≡ replica.now.table }
    ensures { result.0.table ≡ replica.now.table }
{
    let alloc = rt.alloc();
    let (Ok(id), Ok(buffer)) = (ReplicaId::new(1), RefBuffer::new(alloc, BUFFER)) else {
        return (pass, 1);
    };
    let mut worker = Worker::new(pass, buffer);
    let refused = bring(
        rt,
        alloc,
        replica,
        &mut worker,
        id,
        number,
        references,
        pages,
    );
    let (pass, _) = worker.into_parts();
    (pass, refused)
}

// Two workers, of this number and the next, each in a thread of its own.
fn bring_two<M: BatchMachine + Send, R: Threads + Wait + AllocGlobal + Sync>(
    rt: &R,
    replica: &Turn<M>,
    mut pass: Pass<M>,
    number: u64,
    references: u64,
    pages: u64,
) -> (Pass<M>, u64)
    requires { pass.table ≡ replica.now.table }
    ensures { result.0.table ≡ replica.now.table }
{
    let other = replica.pass(&mut pass);
    let ((mut pass, first), (other, second)) = join(
        rt,
        move || -> (Pass<M>, u64)
            requires { pass.table ≡ replica.now.table }
            ensures { result.0.table ≡ replica.entry.now.table }
        { bring_one(rt, replica, pass, number, references, pages) },
        move || -> (Pass<M>, u64)
            requires { other.table ≡ replica.now.table }
            ensures { result.0.table ≡ replica.entry.now.table }
        {
            bring_one(
                rt,
                replica,
                other,
                number.wrapping_add(1),
                references,
                pages,
            )
        },
    );
    replica.end(&mut pass, other);
    (pass, first.wrapping_add(second))
}

// Four workers.
fn bring_four<M: BatchMachine + Send, R: Threads + Wait + AllocGlobal + Sync>(
    rt: &R,
    replica: &Turn<M>,
    mut pass: Pass<M>,
    references: u64,
    pages: u64,
) -> (Pass<M>, u64)
    requires { pass.table ≡ replica.now.table }
    ensures { result.0.table ≡ replica.now.table }
{
    let other = replica.pass(&mut pass);
    let ((mut pass, first), (other, second)) = join(
        rt,
        move || -> (Pass<M>, u64)
            requires { IsSend M.row × IsSync R.row × (pass.table ≡ replica.now.table) }
            ensures { result.0.table ≡ replica.entry.now.table }
        { bring_two(rt, replica, pass, 0, references, pages) },
        move || -> (Pass<M>, u64)
            requires { IsSend M.row × IsSync R.row × (other.table ≡ replica.now.table) }
            ensures { result.0.table ≡ replica.entry.now.table }
        { bring_two(rt, replica, other, 2, references, pages) },
    );
    replica.end(&mut pass, other);
    (pass, first.wrapping_add(second))
}

// A checksum of the numbers of the hottest pages, so that the result is used.
fn checksum_of(pages: &[PageId]) -> u64 {
    let mut checksum = 0u64;
    for page in pages {
        checksum = added(checksum, page.no);
    }
    checksum
}

// A checksum of the hottest pages after the workers added their references, and the time they took.
fn brought<R: Threads + Wait + Clock + AllocGlobal + Sync>(
    rt: &R,
    node: Node<Numbered>,
    workers: u64,
    references: u64,
    pages: u64,
) -> Result<(u64, Duration)> {
    let start = Instant::now(rt)?;
    let Ok((replica, pass)) = Turn::new(rt.alloc(), node) else {
        bail!("no memory for a turn")
    };
    let (mut pass, refused) = match workers {
        1 => bring_one(rt, &replica, pass, 0, references, pages),
        2 => bring_two(rt, &replica, pass, 0, references, pages),
        _ => bring_four(rt, &replica, pass, references, pages),
    };
    let spent = start.elapsed(rt)?;
    let hottest = replica.call(rt, &mut pass, Call::WarmList(HOTTEST));
    match (refused, hottest) {
        (0, Ok(Reply::Pages(pages))) => Ok((checksum_of(pages.as_slice()), spent)),
        _ => bail!("a call was refused"),
    }
}

// One run, with a node of two frames.
fn run<R: Threads + Wait + Clock + AllocGlobal + Sync>(
    rt: &R,
    workers: u64,
    references: u64,
    pages: u64,
) -> Result<(u64, Duration)> {
    let node = node_of(rt.alloc(), parts::replica(1)?, 2, DEVICE_PAGES)?;
    brought(rt, node, workers, references, pages)
}

pub(crate) fn play<R: Threads + Wait + Clock + Print + AllocGlobal + Sync>(
    rt: &R,
    words: &[String],
) -> Result<()> {
    let alloc = rt.alloc();
    let mut asked = Vec::new(alloc);
    for word in words {
        asked.push(word.parse::<u64>().context("a number")?)?;
    }
    if let [workers, references, pages] = asked.as_slice() {
        let (checksum, spent) = run(rt, *workers, *references, *pages)?;
        println!(rt; "workers {workers}: {checksum} in {} ns", spent.as_nanos())?;
        return Ok(());
    }
    if !asked.is_empty() {
        bail!("replica takes three numbers, of workers, of the references of each and of pages")
    }
    for workers in [1, 2, 4] {
        let (checksum, _) = run(rt, workers, 1_000, 100)?;
        println!(rt; "workers {workers}: {checksum}")?;
    }
    Ok(())
}
