//! What the commands print.

use crate::failure::Failure;
use crate::reading::Dump;
use std::alloc::Global;
use std::io::{self, Write};
use warm_history::{Entry, History, PageHist};
use warm_rank::warm_list;
use warm_stamps::{MAX_REPLICAS, PageId, Stamp};

/// Writes a page, as `DEVICE:NUMBER`.
pub fn put_page<W: Write>(writer: &mut W, page: PageId) -> io::Result<()> {
    write!(writer, "{}:{}", page.dev, page.no)
}

/// Writes a stamp, as `TIME@REPLICA`.
pub fn put_stamp<W: Write>(writer: &mut W, stamp: Stamp) -> io::Result<()> {
    write!(writer, "{}@{}", stamp.time, stamp.replica.get())
}

// Writes the line of a page, as the lines of `warmplay` are.
fn put_line<W: Write>(writer: &mut W, page: PageId, hist: PageHist) -> io::Result<()> {
    put_page(writer, page)?;
    write!(writer, " last ")?;
    match hist {
        PageHist::Once(last) => put_stamp(writer, last)?,
        PageHist::Twice(two) => {
            put_stamp(writer, two.last())?;
            write!(writer, " prev ")?;
            put_stamp(writer, two.prev())?;
        }
    }
    writeln!(writer)
}

/// Writes a line for each page, in page order, and how many there are.
pub fn put_history<W: Write>(writer: &mut W, history: &History) -> io::Result<()> {
    for entry in history.iter() {
        let Entry { page, hist } = entry;
        put_line(writer, page, hist)?;
    }
    writeln!(writer, "end {}", history.len())
}

/// Writes the history as text: its horizon, and then what [`put_history`] writes.
pub fn put_text<W: Write>(writer: &mut W, history: &History) -> io::Result<()> {
    writeln!(writer, "horizon {}", history.horizon())?;
    put_history(writer, history)
}

/// Writes a line for each of the first pages of the warm-up list, hottest first, and their number.
pub fn put_hottest<'a, W: Write>(
    alloc: Global,
    writer: &mut W,
    history: &History,
    count: usize,
) -> Result<(), Failure<'a>> {
    let pages = warm_list(alloc, history, count)?;
    for page in pages.as_slice() {
        if let Some(hist) = history.get(*page) {
            put_line(writer, *page, hist)?;
        }
    }
    writeln!(writer, "end {}", pages.len())?;
    Ok(())
}

// How many pages have two stamps.
fn twice_in(history: &History) -> u64 {
    let mut count = 0u64;
    for entry in history.unordered() {
        if let PageHist::Twice(_) = entry.hist {
            count = count.saturating_add(1);
        }
    }
    count
}

/// Writes what a dump holds, which was read to its end: so its digests are those of its entries.
pub fn put_check<W: Write>(writer: &mut W, dump: &Dump) -> io::Result<()> {
    writeln!(writer, "pages {}", dump.history.len())?;
    writeln!(writer, "twice {}", twice_in(&dump.history))?;
    writeln!(writer, "horizon {}", dump.history.horizon())?;
    writeln!(writer, "frames {}", dump.headers.frames())?;
    write!(writer, "senders")?;
    for sender in 1..=MAX_REPLICAS {
        if dump.headers.has_sender(sender) {
            write!(writer, " {sender}")?;
        }
    }
    writeln!(writer)?;
    writeln!(writer, "bytes {}", dump.headers.bytes())?;
    writeln!(writer, "digests ok")
}
