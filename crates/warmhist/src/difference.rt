//! What each of two histories knows that the other does not.

use crate::failure::Failure;
use crate::printing::{put_page, put_stamp};
use std::io::{self, Write};
use warm_history::{Entry, History, PageHist};
use warm_stamps::{PageId, Stamp};

// The stamps of a page, the later one first.
fn stamps(known: &PageHist) -> [Option<Stamp>; 2] {
    match known {
        PageHist::Once(last) => [Some(*last), None],
        PageHist::Twice(two) => [Some(two.last()), Some(two.prev())],
    }
}

// Whether the stamp is known.
fn has(known: &Option<PageHist>, stamp: &Stamp) -> bool {
    match known {
        None => false,
        Some(known) => stamps(known).contains(&Some(*stamp)),
    }
}

// Writes the line of a page of the join, if the history that is `known` lacks a stamp of it: the
// stamps that it lacks. Gives whether it wrote one.
fn put_unknown<W: Write>(
    writer: &mut W,
    sign: char,
    page: PageId,
    joined: &PageHist,
    known: &Option<PageHist>,
) -> io::Result<bool> {
    let mut begun = false;
    for stamp in stamps(joined).iter().flatten() {
        if has(known, stamp) {
            continue;
        }
        if !begun {
            write!(writer, "{sign} ")?;
            put_page(writer, page)?;
        }
        begun = true;
        write!(writer, " ")?;
        put_stamp(writer, *stamp)?;
    }
    if begun {
        writeln!(writer)?;
    }
    Ok(begun)
}

// The line of a horizon that is later than the other. `false` if it is not.
fn put_horizon<W: Write>(writer: &mut W, sign: char, own: u64, other: u64) -> io::Result<bool> {
    if own <= other {
        return Ok(false);
    }
    writeln!(writer, "{sign} horizon {own}")?;
    Ok(true)
}

/// Writes what each history adds to the other: its horizon if that is later, and of each page
/// the stamps that the join of both holds and the other does not. Gives whether it wrote a line,
/// which it does exactly if the histories differ.
pub fn put_difference<'a, W: Write>(
    writer: &mut W,
    first: &History,
    second: &History,
) -> Result<bool, Failure<'a>> {
    let mut joined = first.copy()?;
    let _changed = joined.join(second)?;
    let mut differ = put_horizon(writer, '<', first.horizon(), second.horizon())?;
    differ |= put_horizon(writer, '>', second.horizon(), first.horizon())?;
    for entry in joined.iter() {
        let Entry { page, hist } = entry;
        differ |= put_unknown(writer, '<', page, &hist, &second.get(page))?;
        differ |= put_unknown(writer, '>', page, &hist, &first.get(page))?;
    }
    Ok(differ)
}

// Whether these two stamps, or this one, are what is known.
fn is_known(known: &Option<PageHist>, hist: &PageHist) -> bool {
    match known {
        None => false,
        Some(known) => stamps(known) == stamps(hist),
    }
}

/// Whether the histories differ. It stops at the first page that shows it.
pub fn differ(first: &History, second: &History) -> bool {
    if first.horizon() != second.horizon() || first.len() != second.len() {
        return true;
    }
    for entry in first.unordered() {
        let Entry { page, hist } = entry;
        if !is_known(&second.get(page), &hist) {
            return true;
        }
    }
    false
}
