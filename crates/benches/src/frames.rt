//! Encodes and decodes a full frame, digests the buckets of a history of 100,000 pages, and decodes
//! a stream of frames given in pieces.
//!
//! With no argument each is done once, and its result is printed. With a number each is done that
//! many times, and the nanoseconds are printed too, for `bench/frames/measure.py`; the stream is
//! then of 1000 frames.
ghost use Rattle.std.specs.Prelude.{◌<◌};

use crate::parts::{added_bytes, asked_number, replica, twice};
use anyhow::{Context, Result, bail};
use std::alloc::Global;
use std::time::{Duration, Instant};
use warm_digest::digests;
use warm_frames::{BoxedMessage, Decoder, EntryList, Fed, Message, decode, encode};
use warm_history::History;
use warm_stamps::{Bucket, PageId, ReplicaId};

// The number of pages of a full frame, and of the history that is digested.
const FULL: u32 = 1000;

const MANY: u32 = 100_000;

// The number of frames of the stream whose times are measured, and the size of its pieces in bytes.
const STREAM: u64 = 1000;

const PIECES: [usize; 4] = [1, 64, 4_096, 65_536];

// A history of this many pages, whose numbers are `apart` from one another, with two stamps each.
fn history_of(alloc: Global, replica: ReplicaId, pages: u32, apart: u32) -> Result<History> {
    let Ok(mut batch) = Vec::with_capacity(alloc, 2 * pages as usize) else {
        bail!("no memory")
    };
    for i in 0..pages {
        let page = PageId {
            dev: 0,
            no: u64::from(i.wrapping_mul(apart)),
        };
        for reference in twice(page, replica, [u64::from(i), u64::from(i) + 7]) {
            if batch.push(reference).is_err() {
                bail!("no memory")
            }
        }
    }
    let mut history = History::new(alloc);
    if history.absorb(&batch).is_err() {
        bail!("no memory")
    }
    Ok(history)
}

// A frame of the first 1000 pages of bucket 0.
fn full_frame(alloc: Global, sender: ReplicaId) -> Result<Message> {
    let history = history_of(alloc, sender, FULL, 64)?;
    let Some(bucket) = Bucket::new(0) else {
        bail!("0 is a bucket")
    };
    let Ok(entries) = history.entries(bucket, None, FULL as usize) else {
        bail!("no memory")
    };
    match EntryList::of(entries) {
        Ok(entries) => Ok(Message::Entries {
            sender,
            horizon: history.horizon(),
            entries,
        }),
        Err(_) => bail!("the pages rise"),
    }
}

fn encoded(alloc: Global, message: &Message) -> Result<Vec<u8>> {
    match encode(alloc, message) {
        Ok(bytes) => Ok(bytes),
        Err(_) => bail!("no memory"),
    }
}

// The bytes of the last of `rounds` encodings.
fn encode_often(alloc: Global, message: &Message, rounds: u64) -> Result<Vec<u8>> {
    let mut bytes = encoded(alloc, message)?;
    for _ in 1..rounds {
        bytes = encoded(alloc, message)?;
    }
    Ok(bytes)
}

// The number of entries decoded in all rounds.
fn decode_often(alloc: Global, bytes: &[u8], rounds: u64) -> Result<u64> {
    let mut count = 0u64;
    for _ in 0..rounds {
        match decode(alloc, bytes) {
            Ok(Message::Entries { entries, .. }) => {
                count = count.wrapping_add(entries.as_slice().len() as u64);
            }
            _ => bail!("the frame is one of entries"),
        }
    }
    Ok(count)
}

// The digest of bucket 0, computed in each of the rounds.
fn digest_often(alloc: Global, history: &History, rounds: u64) -> Result<[u8; 32]> {
    let Some(bucket) = Bucket::new(0) else {
        bail!("0 is a bucket")
    };
    let mut first = [0u8; 32];
    for _ in 0..rounds {
        match digests(alloc, history) {
            Ok(table) => first = table.digest(bucket),
            Err(_) => bail!("no memory"),
        }
    }
    Ok(first)
}

// `frames` frames with these bytes, one after the other.
fn stream_of(alloc: Global, bytes: &[u8], frames: u64) -> Result<Vec<u8>> {
    let mut stream = Vec::new(alloc);
    for _ in 0..frames {
        stream.extend_from_slice(bytes)?;
    }
    Ok(stream)
}

// The number of entries of a message, if there is one.
fn entries_in(message: Option<BoxedMessage>) -> u64 {
    let Some(message) = message else {
        return 0;
    };
    match message.as_message() {
        Message::Entries { entries, .. } => entries.as_slice().len() as u64,
        _ => 0,
    }
}

// Feeds all of a piece, and counts the entries of the frames that end in it. `None` at a fault.
fn feed_all(decoder: &mut Decoder, piece: &[u8]) -> Option<u64> {
    let mut count = 0u64;
    let mut rest = piece;
    for _ in 0..=piece.len() {
        if rest.is_empty() {
            break;
        }
        let Ok(Fed { taken, message }) = decoder.feed(rest) else {
            return None;
        };
        count = count.wrapping_add(entries_in(message));
        rest = rest.get(taken..)?;
    }
    Some(count)
}

// The number of entries of a stream given in pieces of `size` bytes.
fn feed_in_pieces(alloc: Global, stream: &[u8], size: usize) -> Option<u64>
    requires { 0 < size }
{
    let mut decoder = Decoder::new(alloc);
    let mut count = 0u64;
    for piece in stream.chunks(size) {
        count = count.wrapping_add(feed_all(&mut decoder, piece)?);
    }
    Some(count)
}

// The bytes of a full frame, encoded `often` times, and the time it took.
fn time_encoding(rt: &HostRuntime, sender: ReplicaId, often: u64) -> Result<(Vec<u8>, Duration)> {
    let frame = full_frame(rt.alloc(), sender)?;
    let start = Instant::now(rt)?;
    let bytes = encode_often(rt.alloc(), &frame, often)?;
    let spent = start.elapsed(rt)?;
    Ok((bytes, spent))
}

// The number of entries in the bytes, decoded `often` times, and the time it took.
fn time_decoding(rt: &HostRuntime, bytes: &[u8], often: u64) -> Result<(u64, Duration)> {
    let start = Instant::now(rt)?;
    let count = decode_often(rt.alloc(), bytes, often)?;
    Ok((count, start.elapsed(rt)?))
}

// The first digest of a history, computed `often` times, and the time it took.
fn time_digesting(rt: &HostRuntime, sender: ReplicaId, often: u64) -> Result<([u8; 32], Duration)> {
    let history = history_of(rt.alloc(), sender, MANY, 1)?;
    let start = Instant::now(rt)?;
    let first = digest_often(rt.alloc(), &history, often)?;
    let spent = start.elapsed(rt)?;
    Ok((first, spent))
}

// Encodes and decodes a full frame, and digests a history, each `rounds` times or once, and prints
// the results. Returns the frame's bytes.
fn time_whole(rt: &HostRuntime, rounds: Option<u64>) -> Result<Vec<u8>> {
    let sender = replica(1)?;
    let often = rounds.unwrap_or(1);
    let (first, digesting) = time_digesting(rt, sender, often)?;
    let (bytes, encoding) = time_encoding(rt, sender, often)?;
    let (count, decoding) = time_decoding(rt, &bytes, often)?;
    println!(rt; "encode: {} bytes {}", bytes.len(), added_bytes(0, &bytes))?;
    println!(rt; "decode: {} entries", count)?;
    println!(rt; "digests: {}", added_bytes(0, &first))?;
    if rounds.is_some() {
        println!(rt;
            "{} {} {} ns",
            encoding.as_nanos(),
            decoding.as_nanos(),
            digesting.as_nanos()
        )?;
    }
    Ok(bytes)
}

// Decodes a stream of frames with these bytes, in pieces of each size, and prints the results.
fn time_pieces(rt: &HostRuntime, bytes: &[u8], timed: bool) -> Result<()> {
    let frames = if timed { STREAM } else { 1 };
    let stream = stream_of(rt.alloc(), bytes, frames)?;
    for size in PIECES {
        let start = Instant::now(rt)?;
        let count = feed_in_pieces(rt.alloc(), &stream, size).context("a stream of frames")?;
        let feeding = start.elapsed(rt)?;
        println!(rt; "in pieces of {}: {} entries", size, count)?;
        if timed {
            println!(rt; "{} ns", feeding.as_nanos())?;
        }
    }
    Ok(())
}

pub(crate) fn play(rt: &HostRuntime, words: &[String]) -> Result<()> {
    let rounds = asked_number(words, "how often each is done")?;
    let bytes = time_whole(rt, rounds)?;
    time_pieces(rt, &bytes, rounds.is_some())
}
