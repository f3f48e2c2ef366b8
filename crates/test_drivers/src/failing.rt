//! Plays over devices of which one call fails, for `checks/failing-devices/check`. A read, a write
//! and a flush are calls, counted from 1.
//!
//! - `play CALL FRAMES`: a schedule, as `warmplay` plays it, over one replica with one worker and
//!   this many frames, on a device in memory of 8 pages of 16 bytes whose call of that number
//!   fails. With 0 none does.
//! - `pools`: calls of pools, each with its answer. Pools are separated by blank lines;
//!   `src/failing/line.rt` defines a pool's first line, which describes its frames and devices, and
//!   the syntax of calls.

mod line;
mod pools;

use crate::failing::line::{Made, opening_in};
use crate::failing::pools::{Failing, PAGE_SIZE, ask_all, opened};
use anyhow::{Context, Result, bail};
use std::alloc::Global;
use std::io::Read;
use warm_devices::{Flaky, MemDevice};
use warm_history::History;
use warm_player::play;
use warm_stamps::{PageId, Reference, ReplicaId, Stamp};
use warm_world::Setup;

// The history: device, page and time of each reference.
const KNOWN: [(u16, u64, u64); 9] = [
    (0, 3, 1),
    (0, 3, 9),
    (1, 2, 2),
    (1, 2, 4),
    (0, 1, 6),
    (1, 5, 3),
    (0, 4, 5),
    (0, 4, 7),
    (0, 4, 8),
];

// A device in memory, one of whose calls fails.
fn failing(alloc: Global, made: Made) -> Result<Failing> {
    let Ok(memory) = MemDevice::new(alloc, made.pages, PAGE_SIZE) else {
        bail!("no memory")
    };
    Ok(Flaky::new(memory, made.call))
}

fn known(alloc: Global) -> Result<History> {
    let Ok(replica) = ReplicaId::new(1) else {
        bail!("1 names a replica")
    };
    let mut history = History::new(alloc);
    for (dev, no, time) in KNOWN {
        let seen = [Reference {
            page: PageId { dev, no },
            stamp: Stamp { time, replica },
        }];
        if history.absorb(&seen).is_err() {
            bail!("no memory")
        }
    }
    Ok(history)
}

// Makes a pool by the first line, and makes the calls of the other lines.
fn ask_pool(rt: &HostRuntime, history: &History, text: &str) -> Result<()> {
    let alloc = rt.alloc();
    let (opening, lines) = text.split_once('\n').context("a pool has calls")?;
    let (frames, devices) = opening_in(alloc, opening)?;
    let [first, second, others @ ..] = devices.as_slice() else {
        bail!("a pool has two devices")
    };
    let (first, second) = (failing(alloc, *first)?, failing(alloc, *second)?);
    let mut spare = Vec::new(alloc);
    for made in others {
        spare.push(failing(alloc, *made)?)?;
    }
    let pool = opened(alloc, frames, first, second)?;
    ask_all(rt, pool, history, spare, lines)
}

// Makes the calls of each pool of the text.
pub(crate) fn ask_pools(rt: &HostRuntime, text: &str) -> Result<()> {
    let history = known(rt.alloc())?;
    for pool in text.split("\n\n") {
        ask_pool(rt, &history, pool)?;
    }
    Ok(())
}

// Plays a schedule over a device whose call of this number fails.
pub(crate) fn play_over<R: Read>(
    rt: &HostRuntime,
    schedule: &mut R,
    call: u64,
    frames: u32,
) -> Result<()> {
    let alloc = rt.alloc();
    let Ok(setup) = Setup::new(1, 1, 4, frames, PAGE_SIZE as u32) else {
        bail!("a pool has 1 to 65536 frames")
    };
    let mut list = Vec::with_capacity(alloc, 1)?;
    list.push_reserved(failing(alloc, Made { pages: 8, call })?);
    let mut devices = Vec::with_capacity(alloc, 1)?;
    devices.push_reserved(list);
    match play(alloc, schedule, &mut rt.stdout(), setup, devices) {
        Ok(()) => Ok(()),
        Err(fault) => bail!("{}", fault.name()),
    }
}
