//! Calls that allocate. Each prints the number of entries, bytes or slots of its result, from which
//! `scripts/refuse-allocations` computes the bound of its allocations.

use std::alloc::Global;
use std::io::Print;
use test_kit::cases::{Ended, Met, is_done, takes};
use test_kit::{bucket, replica, spread_references};
use warm_digest::digests;
use warm_frames::{Decoder, EntryList, Message, decode, encode};
use warm_history::{Entry, History};
use warm_rank::{Contest, warm_list};
use warm_refbuffer::RefBuffer;
use warm_stamps::BUCKETS;

// The number of pages of the history, and of entries of the frame.
const PAGES: u64 = 1000;

const SLOTS: usize = 64;

// A history of the pages, all of bucket 0 and so of one map.
fn absorbed<P: Print>(rt: &P, alloc: Global) -> Result<History, Ended> {
    let batch = spread_references(alloc, 0, u64::from(BUCKETS), PAGES, 10)?;
    let mut history = History::new(alloc);
    takes(rt, batch.len(), "absorb")?;
    history.absorb(&batch)?;
    is_done(rt)?;
    Ok(history)
}

fn copied<P: Print>(rt: &P, met: &mut Met, alloc: Global, history: &History) -> Result<(), Ended> {
    takes(rt, history.len(), "copy")?;
    let copied = history.copy()?;
    is_done(rt)?;
    met.holds(copied.len() == history.len(), "a copy has all entries")?;
    let mut joined = History::new(alloc);
    takes(rt, history.len(), "join")?;
    joined.join(history)?;
    is_done(rt)?;
    met.holds(joined.len() == history.len(), "a join takes all entries")
}

// The entries of the history's one bucket.
fn listed<P: Print>(rt: &P, history: &History) -> Result<Vec<Entry>, Ended> {
    takes(rt, history.len(), "entries")?;
    let entries = history.entries(bucket(0), None, history.len())?;
    is_done(rt)?;
    Ok(entries)
}

// The same since the first time, in one portion.
fn listed_since<P: Print>(rt: &P, met: &mut Met, history: &History) -> Result<(), Ended> {
    takes(rt, history.len(), "entries_since")?;
    let portion = history.entries_since(bucket(0), 0, None, history.len())?;
    is_done(rt)?;
    let is_all = portion.entries.len() == history.len() && !portion.more;
    met.holds(is_all, "a portion has all entries")
}

// Lists and digests of a history, which are made of all of its entries.
fn read<P: Print>(rt: &P, alloc: Global, history: &History) -> Result<(), Ended> {
    takes(rt, history.len(), "warm_list")?;
    let _list = warm_list(alloc, history, history.len())?;
    takes(rt, history.len(), "digests")?;
    let _table = digests(alloc, history)?;
    is_done(rt)
}

fn encoded<P: Print>(
    rt: &P,
    met: &mut Met,
    alloc: Global,
    entries: Vec<Entry>,
) -> Result<Vec<u8>, Ended> {
    let count = entries.len();
    let Ok(entries) = EntryList::of(entries) else {
        return Err(Ended::Broken);
    };
    let message = Message::Entries {
        sender: replica(1),
        horizon: 0,
        entries,
    };
    takes(rt, count, "encode")?;
    let bytes = encode(alloc, &message)?;
    is_done(rt)?;
    met.holds(bytes.len() == 21_023, "1000 entries have 21,023 bytes")?;
    Ok(bytes)
}

fn decoded<P: Print>(rt: &P, alloc: Global, bytes: &[u8]) -> Result<(), Ended> {
    takes(rt, PAGES as usize, "decode")?;
    let Ok(_message) = decode(alloc, bytes) else {
        return Err(Ended::NoMemory);
    };
    is_done(rt)
}

// Feeds a piece that lies in the frame, and returns whether the frame is complete with it.
fn is_whole_with(decoder: &mut Decoder, piece: &[u8]) -> Result<bool, Ended> {
    match decoder.feed(piece) {
        Ok(fed) => Ok(fed.message.is_some()),
        Err(_) => Err(Ended::NoMemory),
    }
}

// A frame in one piece, and in two.
fn fed<P: Print>(rt: &P, met: &mut Met, alloc: Global, bytes: &[u8]) -> Result<(), Ended> {
    let mut decoder = Decoder::new(alloc);
    takes(rt, PAGES as usize, "feed of a frame")?;
    let whole = is_whole_with(&mut decoder, bytes)?;
    is_done(rt)?;
    met.holds(whole, "a frame in one piece is whole")?;
    let (first, last) = bytes.split_at(bytes.len() / 2);
    takes(rt, first.len(), "feed of a first half")?;
    let half = is_whole_with(&mut decoder, first)?;
    is_done(rt)?;
    met.holds(!half, "half a frame is not whole")?;
    takes(rt, PAGES as usize, "feed of a second half")?;
    let both = is_whole_with(&mut decoder, last)?;
    is_done(rt)?;
    met.holds(both, "a frame in two pieces is whole")
}

// Values that are allocated once in their full size.
fn made<P: Print>(rt: &P, alloc: Global) -> Result<(), Ended> {
    takes(rt, SLOTS, "RefBuffer::new")?;
    let Ok(_buffer) = RefBuffer::new(alloc, SLOTS) else {
        return Err(Ended::NoMemory);
    };
    takes(rt, SLOTS, "Contest::new")?;
    let _contest = Contest::new(alloc, SLOTS)?;
    is_done(rt)
}

pub(crate) fn rows<P: Print>(rt: &P, met: &mut Met, alloc: Global) -> Result<(), Ended> {
    let history = absorbed(rt, alloc)?;
    copied(rt, met, alloc, &history)?;
    read(rt, alloc, &history)?;
    let entries = listed(rt, &history)?;
    listed_since(rt, met, &history)?;
    let bytes = encoded(rt, met, alloc, entries)?;
    fed(rt, met, alloc, &bytes)?;
    made(rt, alloc)?;
    decoded(rt, alloc, &bytes)
}
