//! What a text has to say at a place, and does not.

use crate::text_reader::MAX_TEXT_LINE;
use std::fmt::{self, Display, Formatter, Write};

/// What is expected.
#[derive(Clone, Copy)]
pub enum Expected {
    /// A line that is not too long.
    ShortLine,
    /// The first word of the first line.
    FirstLine,
    /// The first word of a line behind that.
    NextLine,
    Time,
    Last,
    Stamp,
    Prev,
    LineEnd,
    /// A second stamp that is less than the first.
    LesserStamp,
    /// A stamp that this horizon lets stand.
    TimeFrom(u64),
    NewPage,
    /// The last line, with the number of lines of pages before it.
    End(u64),
    /// Nothing behind the last line.
    Nothing,
}

impl Display for Expected {
    fn fmt<W: Write>(&self, f: &mut Formatter<W>) -> Result<(), fmt::Error> {
        match *self {
            Expected::ShortLine => write!(f, "a line of at most {MAX_TEXT_LINE} bytes"),
            Expected::FirstLine => write!(f, "horizon, a page as 0:17, or end"),
            Expected::NextLine => write!(f, "a page as 0:17, or end"),
            Expected::Time => write!(f, "a time"),
            Expected::Last => write!(f, "last"),
            Expected::Stamp => write!(f, "a stamp as 20@1"),
            Expected::Prev => write!(f, "prev, or the end of the line"),
            Expected::LineEnd => write!(f, "the end of the line"),
            Expected::LesserStamp => write!(f, "a second stamp that is less than the first"),
            Expected::TimeFrom(horizon) => write!(f, "a time from the horizon {horizon} on"),
            Expected::NewPage => write!(f, "a page that has no line before"),
            Expected::End(pages) => write!(f, "end {pages}"),
            Expected::Nothing => write!(f, "nothing behind the line of end"),
        }
    }
}
