//! Lines that are calls of a pool: a word, and numbers after it.
use anyhow::{Context, Result, bail};
use std::alloc::Global;
use warm_pool::Slot;
use warm_stamps::PageId;

/// The maximum number of numbers of a line.
const MAX_NUMBERS: usize = 5;

/// The maximum number of devices of a pool, including the spare ones.
const MAX_DEVICES: usize = 8;

/// A call of a pool.
#[derive(Clone, Copy, Debug)]
pub enum PoolCall {
    /// `pin DEVICE PAGE`
    Pins(PageId),
    /// `load DEVICE PAGE`
    Loads(PageId),
    /// `unpin FRAME GENERATION`
    Unpins(Slot),
    /// `write FRAME GENERATION AT LEN BYTE`: the byte, `LEN` times.
    Writes(Slot, usize, usize, u8),
    /// `read FRAME GENERATION`: the whole page.
    Reads(Slot),
    /// `show`: the resident pages, and the next victim.
    Shows,
    /// `counts`: the counts of the pool, the numbers of resident and dirty pages, and the call of a
    /// device that failed last.
    Counts,
    /// `writeback`
    WritesBack,
    /// `empty`
    Empties,
    /// `retire DEVICE`: the next spare device replaces this one.
    Retires(u16),
    /// `close`
    Closes,
}

/// The description of a device to be made.
#[derive(Clone, Copy, Debug)]
pub struct Made {
    /// The number of its pages.
    pub pages: u64,
    /// The number of the call that fails, counted from 1, or 0 if none does.
    pub call: u64,
}

/// The first line of a pool's calls, `FRAMES PAGES CALL PAGES CALL ..`: the number of its frames,
/// and its devices, followed by the spare ones.
///
/// # Errors
/// If the line is not of this form, or an allocation fails.
pub fn opening_in(alloc: Global, line: &str) -> Result<(u32, Vec<Made>)> {
    let mut words = line.split_whitespace();
    let frames = number(words.next())?;
    let mut devices = Vec::new(alloc);
    for _ in 0..MAX_DEVICES {
        let Some(pages) = words.next() else {
            break;
        };
        devices.push(Made {
            pages: number(Some(pages))?,
            call: number(words.next())?,
        })?;
    }
    Ok((small(frames)?, devices))
}

fn number(word: Option<&str>) -> Result<u64> {
    Ok(
        word.context("a number")?
            .parse::<u64>()
            .context("a number")?,
    )
}

/// The call of a line.
///
/// # Errors
/// If the line is not one of those above.
pub fn asked_in(line: &str) -> Result<PoolCall> {
    let mut words = line.split_whitespace();
    let word = words.next().context("a line has a word")?;
    let mut numbers = [0u64; MAX_NUMBERS];
    let mut at = 0usize;
    for text in words {
        if at >= MAX_NUMBERS {
            bail!("a line has {MAX_NUMBERS} numbers at most")
        }
        numbers[at] = number(Some(text))?;
        at += 1;
    }
    asked_by(word, &numbers)
}

fn asked_by(word: &str, numbers: &[u64; MAX_NUMBERS]) -> Result<PoolCall> {
    match word {
        "pin" => Ok(PoolCall::Pins(page(numbers)?)),
        "load" => Ok(PoolCall::Loads(page(numbers)?)),
        "unpin" => Ok(PoolCall::Unpins(slot(numbers)?)),
        "write" => {
            let (at, len) = (small(numbers[2])?, small(numbers[3])?);
            let byte = u8::try_from(numbers[4]).context("a byte")?;
            Ok(PoolCall::Writes(slot(numbers)?, at as usize, len as usize, byte))
        }
        "read" => Ok(PoolCall::Reads(slot(numbers)?)),
        "show" => Ok(PoolCall::Shows),
        "counts" => Ok(PoolCall::Counts),
        "writeback" => Ok(PoolCall::WritesBack),
        "empty" => Ok(PoolCall::Empties),
        "retire" => Ok(PoolCall::Retires(device(numbers[0])?)),
        "close" => Ok(PoolCall::Closes),
        _ => bail!("no call of a pool: {word}"),
    }
}

fn small(number: u64) -> Result<u32> {
    Ok(u32::try_from(number).context("a number of 32 bits")?)
}

fn device(number: u64) -> Result<u16> {
    Ok(u16::try_from(number).context("the number of a device")?)
}

fn page(numbers: &[u64; MAX_NUMBERS]) -> Result<PageId> {
    Ok(PageId {
        dev: device(numbers[0])?,
        no: numbers[1],
    })
}

fn slot(numbers: &[u64; MAX_NUMBERS]) -> Result<Slot> {
    Ok(Slot {
        index: small(numbers[0])?,
        generation: numbers[1],
    })
}
