//! Reads bytes that may be frames, whole and in pieces, and prints the results.
//!
//! Each line of the text is a number and bytes in hexadecimal. For each a line is printed:
//! the result of `decode` for the bytes; then, after `|`, the results of a `Decoder` that is fed
//! pieces of that many bytes, and its result at the end. A frame is printed with its fields except
//! the horizon, and with `same` if `encode` gives the bytes that it was read from, horizon
//! included: those of a frame of the format `L2G2`. A frame of `L2G1`, which is only read, is
//! `other`. `checks/damaged-frames/check` compares with a reader of its own.

use anyhow::{Context, Result, bail};
use std::alloc::Global;
use std::io::{self, BufWriter, Write};
use warm_frames::{Decoder, DigestTable, Fed, FrameFault, Message, decode, encode};
use warm_history::{Entry, PageHist};
use warm_stamps::{BUCKETS, Bucket, Stamp};

fn put_stamp<W: Write>(writer: &mut W, stamp: Stamp) -> Result<()> {
    write!(writer, "/{}@{}", stamp.time, stamp.replica.get())?;
    Ok(())
}

fn put_entry<W: Write>(writer: &mut W, entry: &Entry) -> Result<()> {
    write!(writer, " {}:{}", entry.page.dev, entry.page.no)?;
    match entry.hist {
        PageHist::Once(last) => put_stamp(writer, last),
        PageHist::Twice(two) => {
            put_stamp(writer, two.last())?;
            put_stamp(writer, two.prev())
        }
    }
}

fn put_digests<W: Write>(alloc: Global, writer: &mut W, digests: &DigestTable) -> Result<()> {
    for index in 0..BUCKETS {
        let Some(bucket) = Bucket::new(index) else {
            bail!("there is no bucket {index}")
        };
        write!(writer, "{}", hex::encode(alloc, digests.digest(bucket))?)?;
    }
    Ok(())
}

// A message's fields, and whether these bytes are its encoding.
fn put_message<W: Write>(
    alloc: Global,
    writer: &mut W,
    message: &Message,
    bytes: &[u8],
) -> Result<()> {
    match message {
        Message::Entries {
            sender,
            entries,
            ..
        } => {
            write!(writer, " entries {}", sender.get())?;
            for entry in entries.as_slice() {
                put_entry(writer, entry)?;
            }
        }
        Message::Digest {
            sender,
            digests,
            ..
        } => {
            write!(writer, " digest {} ", sender.get())?;
            put_digests(alloc, writer, digests)?;
        }
        Message::Want {
            sender,
            request,
            ..
        } => write!(writer, " want {} {}", sender.get(), request.bits())?,
    }
    if encode(alloc, message)?.as_slice() == bytes {
        write!(writer, " same")?;
    } else {
        write!(writer, " other")?;
    }
    Ok(())
}

fn put_fault<W: Write>(writer: &mut W, fault: FrameFault) -> Result<()> {
    write!(writer, " fault {}", fault.code())?;
    Ok(())
}

fn put_whole<W: Write>(alloc: Global, writer: &mut W, bytes: &[u8]) -> Result<()> {
    match decode(alloc, bytes) {
        Ok(message) => put_message(alloc, writer, &message, bytes),
        Err(fault) => put_fault(writer, fault),
    }
}

// A decoder within a stream: the number of bytes fed, and the start of the current frame.
#[derive(Drop)]
struct Reader<'a> {
    bytes: &'a [u8],
    decoder: Decoder,
    fed: usize,
    begun: usize,
}

// Feeds the rest of a piece, once. `false` after a fault.
fn put_fed<W: Write>(
    alloc: Global,
    writer: &mut W,
    reader: &mut Reader<'_>,
    end: usize,
) -> Result<bool> {
    let Some(rest) = reader.bytes.get(reader.fed..end) else {
        bail!("a piece is part of the bytes")
    };
    match reader.decoder.feed(rest) {
        Ok(Fed { taken, message }) => {
            reader.fed = reader.fed.wrapping_add(taken);
            if let Some(message) = message {
                let frame = reader.bytes.get(reader.begun..reader.fed);
                put_message(alloc, writer, message.as_message(), frame.unwrap_or(&[]))?;
                reader.begun = reader.fed;
                write!(writer, " to {}", reader.fed)?;
            }
            Ok(true)
        }
        Err(fault) => {
            put_fault(writer, fault)?;
            write!(writer, " from {} to {}", reader.fed, end)?;
            Ok(false)
        }
    }
}

// Feeds a piece until all of it is consumed. `false` after a fault.
fn put_piece<W: Write>(
    alloc: Global,
    writer: &mut W,
    reader: &mut Reader<'_>,
    end: usize,
) -> Result<bool> {
    for _ in 0..end {
        if reader.fed >= end {
            return Ok(true);
        }
        if !put_fed(alloc, writer, reader, end)? {
            return Ok(false);
        }
    }
    Ok(true)
}

// The decoder's result at the end, and for a further byte after a fault.
fn put_end<W: Write>(writer: &mut W, decoder: &mut Decoder) -> Result<()> {
    match decoder.finish() {
        Ok(()) => write!(writer, " end")?,
        Err(FrameFault::Failed) => match decoder.feed(&[0x4C]) {
            Ok(_) => write!(writer, " and takes more")?,
            Err(fault) => put_fault(writer, fault)?,
        },
        Err(fault) => put_fault(writer, fault)?,
    }
    Ok(())
}

fn put_pieces<W: Write>(alloc: Global, writer: &mut W, bytes: &[u8], size: usize) -> Result<()> {
    let mut reader = Reader {
        bytes,
        decoder: Decoder::new(alloc),
        fed: 0,
        begun: 0,
    };
    let mut end = 0usize;
    for _ in 0..bytes.len() {
        if end >= bytes.len() {
            break;
        }
        end = end.saturating_add(size.max(1)).min(bytes.len());
        if !put_piece(alloc, writer, &mut reader, end)? {
            break;
        }
    }
    put_end(writer, &mut reader.decoder)
}

fn answer<W: Write>(alloc: Global, writer: &mut W, line: &str) -> Result<()> {
    let Some((size, text)) = line.split_once(' ') else {
        bail!("a line has a number and bytes")
    };
    let size = size.parse::<usize>().context("how many bytes a piece has")?;
    let bytes = hex::decode(alloc, text)?;
    put_whole(alloc, writer, &bytes)?;
    write!(writer, " |")?;
    put_pieces(alloc, writer, &bytes, size)?;
    writeln!(writer)?;
    Ok(())
}

pub(crate) fn run(rt: &HostRuntime, text: &str) -> Result<()> {
    let alloc = rt.alloc();
    let mut writer = BufWriter::new(alloc, io::writer(rt))?;
    for line in text.lines() {
        answer(alloc, &mut writer, line)?;
    }
    writer.flush()?;
    Ok(())
}
