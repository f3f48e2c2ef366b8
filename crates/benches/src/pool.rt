//! Measures a pool of pages of 64 bytes over devices in memory, for `bench/pool/measure.py`. Each
//! call prints nanoseconds.
//!
//! - With a number: this number of visits of resident pages, drawn evenly from 65,536 frames. A
//!   visit pins a page, reads eight bytes of it, writes eight, and unpins it.
//! - `misses` and a number: this number of pins of pages that are in no frame of 65,536, each read
//!   and unpinned. Each page has two references, and the victim may be in any of the frames.
//! - `empty` and a number of frames: a pool of that many frames is emptied, each of which holds a
//!   page.
//! - `strides` and a number of frames: how long it takes to find the pages of a full pool, by the
//!   distance of their numbers (`strides.rt`).
//!
//! With no argument a little of each is done.
ghost use Rattle.std.specs.Prelude.{IfOk};
ghost use Rattle.warm_pool.specs.State.{IsRankedByAll, RankedBy};

use crate::parts::{added, next, replica, twice};
use crate::strides;
use anyhow::{Context, Result, bail};
use std::alloc::Global;
use std::time::{Clock, Duration, Instant};
use warm_devices::{MemDevice, PageDevice};
use warm_history::History;
use warm_pool::{Pool, PoolFault};
use warm_stamps::PageId;

const FRAMES: u64 = 65_536;

const PAGE_SIZE: usize = 64;

// Several times the size of a core's own cache.
const BESIDE: usize = 32 << 20;

// Pins, reads, writes and unpins a page, and returns the first byte that was read.
fn visit(pool: &mut Pool<MemDevice>, history: &History, no: u64, byte: u8) -> Result<u8, PoolFault>
    requires { RankedBy pool.old history.now }
    ensures { RankedBy pool.new history.now }
{
    let slot = pool.pin(PageId { dev: 0, no }, history)?;
    let mut bytes = [0u8; 8];
    pool.read(slot, 0, &mut bytes)?;
    pool.write(slot, 0, &[byte; 8])?;
    pool.unpin(slot);
    Ok(bytes[0])
}

// Loads the first pages of a device.
fn load_pages(
    pool: &mut Pool<MemDevice>,
    history: &History,
    dev: u16,
    pages: u64,
) -> Result<(), PoolFault>
    requires { RankedBy pool.old history.now }
    ensures { RankedBy pool.new history.now }
{
    for no in 0..pages {
        pool.load(PageId { dev, no }, history)?;
    }
    Ok(())
}

// Pins, reads and unpins a page, and returns the first byte that was read.
fn look_at(pool: &mut Pool<MemDevice>, history: &History, no: u64) -> Result<u8, PoolFault>
    requires { RankedBy pool.old history.now }
    ensures { RankedBy pool.new history.now }
{
    let slot = pool.pin(PageId { dev: 0, no }, history)?;
    let mut bytes = [0u8; 8];
    pool.read(slot, 0, &mut bytes)?;
    pool.unpin(slot);
    Ok(bytes[0])
}

// Loads the first pages of device 0 into all frames, so that consecutive pages are far apart.
fn load_apart(pool: &mut Pool<MemDevice>, history: &History) -> Result<(), PoolFault>
    requires { RankedBy pool.old history.now }
    ensures { RankedBy pool.new history.now }
{
    for frame in 0..FRAMES {
        let no = frame * 40_503 % FRAMES;
        pool.load(PageId { dev: 0, no }, history)?;
    }
    Ok(())
}

// Reads the pages from the number of frames up to another number, and returns a checksum of the
// bytes read. If the first pages are resident and ranks rise with the page numbers, each is a miss,
// and the page of the least number is evicted.
fn miss_often(pool: &mut Pool<MemDevice>, history: &History, pages: u64) -> Result<u64, PoolFault>
    requires { RankedBy pool.old history.now }
    ensures { RankedBy pool.new history.now }
{
    let mut checksum = 0u64;
    for no in FRAMES..pages {
        let byte = look_at(pool, history, no)?;
        checksum = added(checksum, u64::from(byte));
    }
    Ok(checksum)
}

// Visits pages drawn by a linear congruential generator, and returns a checksum of the bytes read.
fn visit_often(pool: &mut Pool<MemDevice>, history: &History, visits: u64) -> Result<u64, PoolFault>
    requires { RankedBy pool.old history.now }
    ensures { RankedBy pool.new history.now }
{
    let mut drawn = 1u64;
    let mut checksum = 0u64;
    for _ in 0..visits {
        drawn = next(drawn);
        let no = drawn >> 48;
        let byte = visit(pool, history, no, ((drawn >> 40) % 256) as u8)?;
        checksum = added(checksum, u64::from(byte));
    }
    Ok(checksum)
}

// A device of this many pages for a pool.
fn paged(alloc: Global, pages: u64) -> Result<MemDevice> {
    Ok(MemDevice::new(alloc, pages, PAGE_SIZE)?)
}

// A pool over two devices, without a page.
fn opened(
    alloc: Global,
    frames: u64,
    first: MemDevice,
    second: MemDevice,
) -> Result<Pool<MemDevice>>
    ensures { IfOk result (λ pool. IsRankedByAll pool) }
{
    let Ok(mut devices) = Vec::with_capacity(alloc, 2) else {
        bail!("no memory")
    };
    devices.push_reserved(first);
    devices.push_reserved(second);
    match Pool::new(alloc, frames as usize, PAGE_SIZE, devices) {
        Ok(pool) => Ok(pool),
        Err(_) => bail!("no pool"),
    }
}

// A checksum of the bytes that the visits read, and the time that they took.
fn visits_of(
    clock: &impl Clock,
    pool: &mut Pool<MemDevice>,
    history: &History,
    visits: u64,
) -> Result<(u64, Duration)>
    requires { RankedBy pool.old history.now }
{
    let Ok(()) = load_pages(pool, history, 0, FRAMES) else {
        bail!("a page was not loaded")
    };
    let start = Instant::now(clock)?;
    let Ok(checksum) = visit_often(pool, history, visits) else {
        bail!("a visit was refused")
    };
    Ok((checksum, start.elapsed(clock)?))
}

fn visited(clock: &impl Clock, alloc: Global, visits: u64) -> Result<(u64, Duration)> {
    let (first, second) = (paged(alloc, FRAMES)?, paged(alloc, FRAMES)?);
    let mut pool = opened(alloc, FRAMES, first, second)?;
    visits_of(clock, &mut pool, &History::new(alloc), visits)
}

// The history of this many pages: two references to each, so that ranks rise with the page numbers.
fn references(alloc: Global, pages: u64) -> Result<History> {
    let replica = replica(1)?;
    let mut history = History::new(alloc);
    for no in 0..pages {
        let page = PageId { dev: 0, no };
        let seen = twice(page, replica, [no, no.wrapping_add(1 << 32)]);
        if history.absorb(&seen).is_err() {
            bail!("no memory")
        }
    }
    Ok(history)
}

// Fills a page of a device with the lowest byte of its number, if it has such a page.
fn fill(device: &mut MemDevice, no: u64) -> Result<()> {
    if no >= device.pages() || device.page_size() != PAGE_SIZE {
        bail!("there is no such page")
    }
    match device.write(no, &[(no % 256) as u8; PAGE_SIZE]) {
        Ok(()) => Ok(()),
        Err(_) => bail!("a page was not written"),
    }
}

// A device of this many pages, all of them filled.
fn numbered(alloc: Global, pages: u64) -> Result<MemDevice> {
    let mut device = paged(alloc, pages)?;
    for no in 0..pages {
        fill(&mut device, no)?;
    }
    Ok(device)
}

// A checksum of the bytes that the pins with misses read, and the time that they took.
fn misses_of(
    clock: &impl Clock,
    pool: &mut Pool<MemDevice>,
    history: &History,
    pages: u64,
) -> Result<(u64, Duration)>
    requires { RankedBy pool.old history.now }
{
    let Ok(()) = load_apart(pool, history) else {
        bail!("a page was not loaded")
    };
    let start = Instant::now(clock)?;
    let Ok(checksum) = miss_often(pool, history, pages) else {
        bail!("a pin was refused")
    };
    Ok((checksum, start.elapsed(clock)?))
}

// Misses over two devices, of which the first has the pages.
fn missed(clock: &impl Clock, alloc: Global, misses: u64) -> Result<(u64, Duration)> {
    let pages = FRAMES.saturating_add(misses);
    let (first, second) = (numbered(alloc, pages)?, paged(alloc, 1)?);
    let mut pool = opened(alloc, FRAMES, first, second)?;
    let history = references(alloc, pages)?;
    misses_of(clock, &mut pool, &history, pages)
}

// Loads a page of device 0 into each frame of the lower half, and one of device 1 into each of the
// upper half.
fn load_halves(pool: &mut Pool<MemDevice>, history: &History, half: u64) -> Result<()>
    requires { RankedBy pool.old history.now }
{
    if load_pages(pool, history, 0, half).is_err() {
        bail!("a page was not loaded")
    }
    if load_pages(pool, history, 1, half).is_err() {
        bail!("a page was not loaded")
    }
    Ok(())
}

// Empties the pool.
fn empty(pool: &mut Pool<MemDevice>) -> Result<()> {
    match pool.empty() {
        Ok(()) => Ok(()),
        Err(_) => bail!("the pool was not emptied"),
    }
}

// Writes to enough memory that nothing of a pool is left in a core's own cache: a pool that
// restarts was not scanned just before; otherwise a small pool would be in the cache, and a large
// one not.
fn write_beside(alloc: Global) -> Result<()> {
    let beside = Vec::from_elem(alloc, 1u8, BESIDE)?;
    if beside.first() != Some(&1) {
        bail!("a byte has another value")
    }
    Ok(())
}

// The time in which a full pool of this many frames is emptied.
fn emptied(clock: &impl Clock, alloc: Global, frames: u64) -> Result<Duration> {
    let half = frames / 2;
    let mut pool = opened(alloc, frames, paged(alloc, half)?, paged(alloc, half)?)?;
    load_halves(&mut pool, &History::new(alloc), half)?;
    write_beside(alloc)?;
    let start = Instant::now(clock)?;
    empty(&mut pool)?;
    Ok(start.elapsed(clock)?)
}

// Does a little of all that is measured.
fn play_small(rt: &HostRuntime) -> Result<()> {
    let (checksum, _) = visited(rt, rt.alloc(), 1_000)?;
    println!(rt; "1000 visits: {}", checksum)?;
    let (checksum, _) = missed(rt, rt.alloc(), 1_000)?;
    println!(rt; "1000 misses: {}", checksum)?;
    emptied(rt, rt.alloc(), 4_096)?;
    println!(rt; "4096 frames emptied")?;
    strides::play_small(rt)
}

// Prints the checksum of visits or misses, and the time that they took.
fn print_read(rt: &HostRuntime, count: u64, what: &str, read: (u64, Duration)) -> Result<()> {
    println!(rt; "{} {}: {}", count, what, read.0)?;
    println!(rt; "{} ns", read.1.as_nanos())?;
    Ok(())
}

fn play_visits(rt: &HostRuntime, visits: &str) -> Result<()> {
    let visits = visits.parse::<u64>().context("the number of visits")?;
    let read = visited(rt, rt.alloc(), visits)?;
    print_read(rt, visits, "visits", read)
}

fn play_misses(rt: &HostRuntime, misses: &str) -> Result<()> {
    let misses = misses.parse::<u64>().context("the number of misses")?;
    let read = missed(rt, rt.alloc(), misses)?;
    print_read(rt, misses, "misses", read)
}

fn play_empty(rt: &HostRuntime, frames: &str) -> Result<()> {
    let frames = frames.parse::<u64>().context("the number of frames")?;
    let spent = emptied(rt, rt.alloc(), frames)?;
    println!(rt; "{} ns", spent.as_nanos())?;
    Ok(())
}

fn play_strides(rt: &HostRuntime, frames: &str) -> Result<()> {
    let frames = frames.parse::<usize>().context("the number of frames")?;
    strides::play(rt, frames)
}

pub(crate) fn play(rt: &HostRuntime, words: &[String]) -> Result<()> {
    match words {
        [] => play_small(rt),
        [visits] => play_visits(rt, visits),
        [word, misses] if word.as_str() == "misses" => play_misses(rt, misses),
        [word, frames] if word.as_str() == "empty" => play_empty(rt, frames),
        [word, frames] if word.as_str() == "strides" => play_strides(rt, frames),
        _ => bail!("a number of visits, or misses, empty or strides and a number"),
    }
}
