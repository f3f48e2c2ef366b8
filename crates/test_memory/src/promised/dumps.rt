//! Dumps, each written into a list that has room for it, and read: of one bucket, and of all. Each
//! line has the number of pages of the history.
use std::alloc::Global;
use std::io::Print;
use test_kit::cases::{Ended, Met, is_done, takes};
use warm_dump::{read_dump, write_dump};
use warm_history::History;
use warm_stamps::{PageId, Reference, ReplicaId, Stamp};

// A frame of 1000 entries, each of two stamps, and the frame of 64 digests.
const FULL: usize = 19 + 4 + 1000 * 31;

const DIGESTS: usize = 19 + 64 * 32;

// Adds pages of device 0 to a history: of the first number, and then each of a number that is
// greater by `spread`. Each has two stamps of the replica.
fn add(
    history: &mut History,
    replica: ReplicaId,
    first: u64,
    spread: u64,
    pages: u64,
) -> Result<(), Ended> {
    for place in 0..pages {
        let no = first.wrapping_add(place.wrapping_mul(spread));
        let page = PageId { dev: 0, no };
        for time in [no, no.wrapping_add(7)] {
            let stamp = Stamp { time, replica };
            history.absorb(&[Reference { page, stamp }])?;
        }
    }
    Ok(())
}

fn written<P: Print>(
    rt: &P,
    met: &mut Met,
    alloc: Global,
    replica: ReplicaId,
    history: &History,
    size: usize,
) -> Result<Vec<u8>, Ended> {
    let mut text = Vec::with_capacity(alloc, size)?;
    takes(rt, history.len(), "write_dump")?;
    let written = write_dump(alloc, &mut text, replica, history);
    is_done(rt)?;
    if written.is_err() {
        return Err(Ended::NoMemory);
    }
    met.holds(text.len() == size, "a dump has a size")?;
    Ok(text)
}

// Reads a dump of that many pages. What is allocated next tells how much the history takes.
fn is_read<P: Print>(
    rt: &P,
    met: &mut Met,
    alloc: Global,
    text: &[u8],
    pages: usize,
    call: &str,
) -> Result<(), Ended> {
    let mut reader = text;
    takes(rt, pages, call)?;
    let read = read_dump(alloc, &mut reader);
    is_done(rt)?;
    let Ok(read) = read else {
        return Err(Ended::NoMemory);
    };
    let _next: Vec<u8> = Vec::with_capacity(alloc, 1)?;
    met.holds(read.len() == pages, "a dump has all entries")
}

// 3000 pages of bucket 0, and so of one map: three full frames, of which the last lies in two
// reads.
fn of_one_bucket<P: Print>(
    rt: &P,
    met: &mut Met,
    alloc: Global,
    replica: ReplicaId,
) -> Result<(), Ended> {
    let mut history = History::new(alloc);
    add(&mut history, replica, 0, 64, 3000)?;
    let text = written(rt, met, alloc, replica, &history, 3 * FULL + DIGESTS)?;
    is_read(rt, met, alloc, &text, 3000, "read_dump")
}

// 64 pages in each bucket but the last, and 4000 in that one: its four full frames come when an
// eighth of the history is about one frame, and the whole history more than four.
fn of_all_buckets<P: Print>(
    rt: &P,
    met: &mut Met,
    alloc: Global,
    replica: ReplicaId,
) -> Result<(), Ended> {
    let mut history = History::new(alloc);
    add(&mut history, replica, 0, 1, 64 * 64)?;
    add(&mut history, replica, 63, 64, 4000)?;
    let short = 63 * (19 + 4 + 64 * 31);
    let text = written(
        rt,
        met,
        alloc,
        replica,
        &history,
        short + 4 * FULL + DIGESTS,
    )?;
    is_read(
        rt,
        met,
        alloc,
        &text,
        63 * 64 + 4000,
        "read_dump of all buckets",
    )
}

pub(crate) fn rows<P: Print>(rt: &P, met: &mut Met, alloc: Global) -> Result<(), Ended> {
    let Ok(replica) = ReplicaId::new(1) else {
        return Err(Ended::Broken);
    };
    of_one_bucket(rt, met, alloc, replica)?;
    of_all_buckets(rt, met, alloc, replica)
}
