//! Calls of a pool, each in a function of its own, whose contract keeps the history by which the
//! pool is ranked, and which prints the result.
ghost use Rattle.std.specs.Prelude.{IfOk, IfSome};
ghost use Rattle.warm_pool.specs.Unchanged.{KeepsRanks};
ghost use Rattle.warm_pool.specs.State.{IsRankedByAll, RankedBy};

use crate::failing::line::{PoolCall, asked_in};
use anyhow::{Result, bail};
use std::alloc::Global;
use std::io::Print;
use warm_devices::{Flaky, MemDevice};
use warm_history::History;
use warm_pool::{FailedCall, Pool, PoolFault, Slot};
use warm_stamps::PageId;

/// The size of a page in bytes.
pub const PAGE_SIZE: usize = 16;

/// The number of devices of a pool, and of pages of each that `show` looks for.
const SHOWN: (u16, u64) = (2, 8);

/// A device in memory, one of whose calls fails.
pub type Failing = Flaky<MemDevice>;

/// A pool over two devices, without a page.
///
/// # Errors
/// If it is refused.
pub fn opened(alloc: Global, frames: u32, first: Failing, second: Failing) -> Result<Pool<Failing>>
    ensures { IfOk result (λ pool. IsRankedByAll pool) }
{
    let Ok(mut devices) = Vec::with_capacity(alloc, 2) else {
        bail!("no memory")
    };
    devices.push_reserved(first);
    devices.push_reserved(second);
    match Pool::new(alloc, frames as usize, PAGE_SIZE, devices) {
        Ok(pool) => Ok(pool),
        Err(unmade) => bail!("no pool: {}", unmade.fault.name()),
    }
}

/// Makes the calls of the lines on a pool, one after the other, up to the first that closes it, and
/// prints the results. The spare devices are taken from the end.
///
/// # Errors
/// If a line is not a call, or printing fails.
pub fn ask_all(
    rt: &impl Print,
    pool: Pool<Failing>,
    history: &History,
    mut spare: Vec<Failing>,
    lines: &str,
) -> Result<()>
    requires { RankedBy pool history.now }
{
    let mut pool = pool;
    for line in lines.lines() {
        match asked_in(line)? {
            PoolCall::Closes => match closed(rt, pool, history)? {
                Some(kept) => pool = kept,
                None => return Ok(()),
            },
            asked => ask(rt, &mut pool, history, asked, &mut spare)?,
        }
    }
    Ok(())
}

// Makes the call of a line that does not close the pool.
fn ask(
    rt: &impl Print,
    pool: &mut Pool<Failing>,
    history: &History,
    asked: PoolCall,
    spare: &mut Vec<Failing>,
) -> Result<()>
    requires { RankedBy pool.old history.now }
    ensures { RankedBy pool.new history.now }
{
    match asked {
        PoolCall::Retires(dev) => retire(rt, pool, history, dev, spare),
        PoolCall::Pins(page) => print_slot(rt, pool.pin(page, history)),
        PoolCall::Loads(page) => print_slot(rt, pool.load(page, history)),
        PoolCall::Unpins(slot) => unpin(rt, pool, history, slot),
        PoolCall::Writes(slot, at, len, byte) => write(rt, pool, history, slot, at, len, byte),
        PoolCall::Reads(slot) => read(rt, pool, slot),
        PoolCall::Shows => show(rt, pool),
        PoolCall::Counts => counts(rt, pool),
        PoolCall::WritesBack => print_done(rt, pool.write_back_all()),
        PoolCall::Empties => print_done(rt, pool.empty()),
        PoolCall::Closes => bail!("a pool is closed by its owner"),
    }
}

fn print_fault(rt: &impl Print, fault: PoolFault) -> Result<()> {
    Ok(println!(rt; "refused {} {}", fault.code(), fault.name())?)
}

fn print_done(rt: &impl Print, done: Result<(), PoolFault>) -> Result<()> {
    match done {
        Ok(()) => Ok(println!(rt; "ok")?),
        Err(fault) => print_fault(rt, fault),
    }
}

fn print_slot(rt: &impl Print, slot: Result<Slot, PoolFault>) -> Result<()> {
    match slot {
        Ok(slot) => Ok(println!(rt; "slot {} {}", slot.index, slot.generation)?),
        Err(fault) => print_fault(rt, fault),
    }
}

fn unpin(rt: &impl Print, pool: &mut Pool<Failing>, history: &History, slot: Slot) -> Result<()>
    requires { RankedBy pool.old history.now }
    ensures { RankedBy pool.new history.now }
{
    if !pool.holds(slot) {
        return Ok(println!(rt; "stale")?);
    }
    pool.unpin(slot);
    Ok(println!(rt; "ok")?)
}

fn write(
    rt: &impl Print,
    pool: &mut Pool<Failing>,
    history: &History,
    slot: Slot,
    at: usize,
    len: usize,
    byte: u8,
) -> Result<()>
    requires { RankedBy pool.old history.now }
    ensures { RankedBy pool.new history.now }
{
    if !pool.holds(slot) {
        return Ok(println!(rt; "stale")?);
    }
    let bytes = [byte; 2 * PAGE_SIZE];
    let len = len.min(2 * PAGE_SIZE);
    print_done(rt, pool.write(slot, at, &bytes[..len]))
}

fn read(rt: &impl Print, pool: &Pool<Failing>, slot: Slot) -> Result<()> {
    if !pool.holds(slot) {
        return Ok(println!(rt; "stale")?);
    }
    let mut bytes = [0u8; PAGE_SIZE];
    if let Err(fault) = pool.read(slot, 0, &mut bytes) {
        return print_fault(rt, fault);
    }
    print!(rt; "bytes")?;
    for byte in bytes {
        print!(rt; " {byte}")?;
    }
    Ok(println!(rt; "")?)
}

fn show(rt: &impl Print, pool: &mut Pool<Failing>) -> Result<()>
    ensures { KeepsRanks pool.old pool.new }
{
    print!(rt; "resident")?;
    for dev in 0..SHOWN.0 {
        for no in 0..SHOWN.1 {
            if pool.resident(PageId { dev, no }) {
                print!(rt; " {dev}:{no}")?;
            }
        }
    }
    match pool.victim() {
        Some(page) => Ok(println!(rt; " victim {}:{}", page.dev, page.no)?),
        None => Ok(println!(rt; " victim none")?),
    }
}

fn counts(rt: &impl Print, pool: &Pool<Failing>) -> Result<()> {
    let counts = pool.counts();
    print!(rt;
        "counts {} {} {}",
        counts.hits, counts.misses, counts.evictions
    )?;
    print!(rt;
        " {} resident {}",
        counts.written_back,
        pool.resident_count()
    )?;
    print!(rt; " dirty {}", pool.dirty())?;
    match pool.last_failure() {
        Some(failed) => print_failed(rt, failed),
        None => Ok(println!(rt; " failed none")?),
    }
}

fn print_failed(rt: &impl Print, failed: FailedCall) -> Result<()> {
    print!(rt; " failed {} {}", failed.what.name(), failed.dev)?;
    match failed.page {
        Some(no) => Ok(println!(rt; " {no}")?),
        None => Ok(println!(rt; "")?),
    }
}

// A spare device that is refused remains the next one.
fn retire(
    rt: &impl Print,
    pool: &mut Pool<Failing>,
    history: &History,
    dev: u16,
    spare: &mut Vec<Failing>,
) -> Result<()>
    requires { RankedBy pool.old history.now }
    ensures { RankedBy pool.new history.now }
{
    let Some(device) = spare.pop() else {
        return Ok(println!(rt; "none spare")?);
    };
    match pool.retire(dev, device) {
        Ok(()) => Ok(println!(rt; "ok")?),
        Err(unretired) => {
            let fault = unretired.fault;
            spare.push(unretired.device)?;
            print_fault(rt, fault)
        }
    }
}

// Closes the pool, or gives it back if that is refused.
fn closed(rt: &impl Print, pool: Pool<Failing>, history: &History) -> Result<Option<Pool<Failing>>>
    requires { RankedBy pool history.now }
    ensures { IfOk result (λ kept. IfSome kept (λ pool. RankedBy pool history.now)) }
{
    match pool.close() {
        Ok(()) => {
            println!(rt; "ok")?;
            Ok(None)
        }
        Err(unclosed) => {
            print_fault(rt, unclosed.fault)?;
            Ok(Some(unclosed.pool))
        }
    }
}
