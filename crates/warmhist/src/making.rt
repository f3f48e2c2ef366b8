//! Making a dump: of dumps that are joined, or of text.

use crate::failure::Failure;
use crate::reading::{read_file, read_text};
use crate::words::{Joining, Making};
use crate::writing::write_out;
use warm_history::History;

// The join of all dumps.
fn joined_of<'a>(rt: &'a HostRuntime, files: &[&'a str]) -> Result<History, Failure<'a>> {
    let mut joined = History::new(rt.alloc());
    for file in files {
        let dump = read_file(rt, *file)?;
        let _changed = joined.join(&dump.history)?;
    }
    Ok(joined)
}

/// Joins the dumps, and writes the dump of the join, without the stamps before a time if one is
/// given. All are read before anything is written.
pub fn join_files<'a>(rt: &'a HostRuntime, joining: &Joining<'a>) -> Result<(), Failure<'a>> {
    let mut history = joined_of(rt, joining.files.as_slice())?;
    if let Some(time) = joining.since {
        history.raise(time);
    }
    write_out(rt, &joining.output, &history)
}

/// Writes the dump of the history that the text says. All of it is read before anything is written.
pub fn make_file<'a>(rt: &'a HostRuntime, making: &Making<'a>) -> Result<(), Failure<'a>> {
    let history = read_text(rt, making.text)?;
    write_out(rt, &making.output, &history)
}
