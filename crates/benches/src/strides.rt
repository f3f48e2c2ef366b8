//! Measures the time to find the pages of a full pool, by the distance of their numbers. A page is
//! found along its hash chain in the pool's page table, so it takes longer if many pages share a
//! chain.
//!
//! `benches pool strides` and a number of frames prints the nanoseconds of 16 searches for each
//! page: of random pages, of pages at distances of each power of two up to 2^40, and of one page on
//! each of as many devices.
ghost use Rattle.std.specs.Prelude.{IfOk};
ghost use Rattle.warm_pool.specs.State.{IsRankedByAll, RankedBy};

use crate::parts::next;
use anyhow::{Result, bail};
use std::alloc::Global;
use std::time::{Clock, Duration, Instant};
use warm_devices::{CallsMade, DeviceFault, PageDevice};
use warm_history::History;
use warm_pool::{MAX_DEVICES, Pool, PoolFault};
use warm_stamps::PageId;

// The number of searches for each page.
const ROUNDS: u64 = 16;

// Strides are 2 to each power below this.
const POWERS: u32 = 41;

/// A device that has a page for each number but the last, of one byte, which is 0. It is declared
/// not honest: writes to it are not stored.
#[derive(Drop)]
struct Hollow {
    waiting: bool,
    calls: CallsMade,
}

impl PageDevice for Hollow {
    ghost use Rattle.std.specs.Prelude.{[], true, false};

    ghost state = { λ hollow. record {
      pages = 18446744073709551615;
      page_size = 1;
      contents = [];
      waiting = hollow.waiting;
      failures = 0;
      calls = hollow.calls.made;
      honest = false;
      unfailing = true;
    } };

    fn pages(&self) -> u64 {
        u64::MAX
    }

    fn page_size(&self) -> usize {
        1
    }

    fn waiting(&self) -> bool {
        self.waiting
    }

    fn failures(&self) -> u64 {
        0
    }

    fn read(&mut self, _no: u64, into: &mut [u8]) -> Result<(), DeviceFault> {
        self.calls.note(DeviceFault::Read);
        into.fill(0);
        Ok(())
    }

    fn write(&mut self, _no: u64, _bytes: &[u8]) -> Result<(), DeviceFault> {
        self.calls.note(DeviceFault::Write);
        self.waiting = true;
        Ok(())
    }

    fn flush(&mut self) -> Result<(), DeviceFault> {
        self.calls.note(DeviceFault::Flush);
        self.waiting = false;
        Ok(())
    }
}

/// The page after a given one.
#[derive(Clone, Copy)]
enum Spread {
    Drawn,
    Stride(u64),
    Devices,
}

impl Spread {
    fn after(self, page: PageId) -> PageId {
        match self {
            Spread::Drawn => PageId {
                dev: page.dev,
                no: next(page.no),
            },
            Spread::Stride(stride) => PageId {
                dev: page.dev,
                no: page.no.wrapping_add(stride),
            },
            Spread::Devices => PageId {
                dev: page.dev.wrapping_add(1),
                no: page.no,
            },
        }
    }
}

const FIRST: PageId = PageId { dev: 0, no: 0 };

// Loads as many pages as there are frames.
fn load_spread(
    pool: &mut Pool<Hollow>,
    history: &History,
    frames: usize,
    spread: Spread,
) -> Result<(), PoolFault>
    requires { RankedBy pool.old history.now }
    ensures { RankedBy pool.new history.now }
{
    let mut page = FIRST;
    for _ in 0..frames {
        pool.load(page, history)?;
        page = spread.after(page);
    }
    Ok(())
}

// The number of the pages that are resident.
fn found(pool: &Pool<Hollow>, frames: usize, spread: Spread) -> u64 {
    let mut page = FIRST;
    let mut found = 0u64;
    for _ in 0..frames {
        if pool.resident(page) {
            found = found.wrapping_add(1);
        }
        page = spread.after(page);
    }
    found
}

// A pool of this many frames over the greatest number of devices.
fn hollow_pool(alloc: Global, frames: usize) -> Result<Pool<Hollow>>
    ensures { IfOk result (λ pool. IsRankedByAll pool) }
{
    let mut devices = Vec::with_capacity(alloc, MAX_DEVICES)?;
    for _ in 0..MAX_DEVICES {
        devices.push(Hollow {
            waiting: false,
            calls: CallsMade::new(),
        })?;
    }
    if devices.len() > MAX_DEVICES {
        bail!("too many devices")
    }
    match Pool::new(alloc, frames, 1, devices) {
        Ok(pool) => Ok(pool),
        Err(_) => bail!("no pool"),
    }
}

// The time to find each page of a full pool, in the order in which they were loaded, repeated for
// each round.
fn searched(clock: &impl Clock, alloc: Global, frames: usize, spread: Spread) -> Result<Duration> {
    let mut pool = hollow_pool(alloc, frames)?;
    if load_spread(&mut pool, &History::new(alloc), frames, spread).is_err() {
        bail!("a page was not loaded")
    }
    let start = Instant::now(clock)?;
    for _ in 0..ROUNDS {
        if found(&pool, frames, spread) != frames as u64 {
            bail!("a page was not found")
        }
    }
    Ok(start.elapsed(clock)?)
}

pub(crate) fn play(rt: &HostRuntime, frames: usize) -> Result<()> {
    let spent = searched(rt, rt.alloc(), frames, Spread::Drawn)?;
    println!(rt; "drawn: {} ns", spent.as_nanos())?;
    for power in 0..POWERS {
        let spent = searched(rt, rt.alloc(), frames, Spread::Stride(1 << power))?;
        println!(rt; "stride 2^{}: {} ns", power, spent.as_nanos())?;
    }
    let spent = searched(rt, rt.alloc(), frames, Spread::Devices)?;
    println!(rt; "devices: {} ns", spent.as_nanos())?;
    Ok(())
}

// A little of it, without times.
pub(crate) fn play_small(rt: &HostRuntime) -> Result<()> {
    for spread in [Spread::Drawn, Spread::Stride(1 << 20), Spread::Devices] {
        searched(rt, rt.alloc(), 1_024, spread)?;
    }
    println!(rt; "1024 pages found of each spread")?;
    Ok(())
}
