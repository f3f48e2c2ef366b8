//! A history that is read from text. docs/FORMATS.md has the lines.

use crate::expected::Expected;
use crate::line::{next_word, number_of, page_of, stamp_of};
use std::alloc::{AllocError, AllocFailed, Global};
use std::io::ErrorKind;
use warm_history::History;
use warm_stamps::{PageId, Reference, Stamp};

/// The greatest number of bytes of a line, its end not counted. The longest line that is printed
/// has 84.
pub const MAX_TEXT_LINE: usize = 1024;

/// Why a text was not read.
#[derive(Clone, Copy)]
pub enum TextFault {
    /// Memory was refused.
    Memory,
    /// The text cannot be read.
    Unread(Option<ErrorKind>),
    /// The text says something else.
    Bad(Expected),
}

impl From<AllocError> for TextFault {
    fn from(_: AllocError) -> TextFault {
        TextFault::Memory
    }
}

impl<T: Drop> From<AllocFailed<T>> for TextFault {
    fn from(_: AllocFailed<T>) -> TextFault {
        TextFault::Memory
    }
}

impl From<Expected> for TextFault {
    fn from(expected: Expected) -> TextFault {
        TextFault::Bad(expected)
    }
}

// Which lines came.
#[derive(Clone, Copy, PartialEq)]
enum Came {
    Nothing,
    Lines,
    End,
}

/// A history that is being read from text, line by line. After a fault it takes no more.
#[derive(Drop)]
pub struct TextReader {
    alloc: Global,
    history: History,
    came: Came,
    // How many lines of pages came.
    pages: u64,
    // How many bytes came, and how many lines ended.
    bytes: u64,
    ended: u64,
    // What came of the line that has begun.
    line: Vec<u8>,
}

// What follows a name.
fn after<'a>(words: &'a [u8], name: &[u8], expected: Expected) -> Result<&'a [u8], Expected> {
    let (word, rest) = next_word(words);
    if word == name {
        return Ok(rest);
    }
    Err(expected)
}

fn stamp_in(word: &[u8]) -> Result<Stamp, Expected> {
    match stamp_of(word) {
        Some(stamp) => Ok(stamp),
        None => Err(Expected::Stamp),
    }
}

// The stamps of a page: behind `last`, and behind `prev` if that is there.
fn stamps_in(words: &[u8]) -> Result<(Stamp, Option<Stamp>), Expected> {
    let (word, rest) = next_word(after(words, b"last".as_slice(), Expected::Last)?);
    let last = stamp_in(word)?;
    if line_end(rest).is_ok() {
        return Ok((last, None));
    }
    let (word, rest) = next_word(after(rest, b"prev".as_slice(), Expected::Prev)?);
    let prev = stamp_in(word)?;
    line_end(rest)?;
    if last <= prev {
        return Err(Expected::LesserStamp);
    }
    Ok((last, Some(prev)))
}

fn oldest_of(last: &Stamp, prev: &Option<Stamp>) -> Stamp {
    match prev {
        Some(prev) => *prev,
        None => *last,
    }
}

fn reference(page: &PageId, stamp: &Stamp) -> Reference {
    Reference {
        page: *page,
        stamp: *stamp,
    }
}

fn line_end(words: &[u8]) -> Result<(), Expected> {
    let (word, _) = next_word(words);
    if word.is_empty() {
        return Ok(());
    }
    Err(Expected::LineEnd)
}

impl TextReader {
    /// Nothing came.
    pub fn new(alloc: Global) -> TextReader {
        TextReader {
            alloc,
            history: History::new(alloc),
            came: Came::Nothing,
            pages: 0,
            bytes: 0,
            ended: 0,
            line: Vec::new(alloc),
        }
    }

    /// The number of the line that has begun, counted from 1.
    pub fn line_number(&self) -> u64 {
        self.ended.saturating_add(1)
    }

    /// How many bytes came.
    pub fn bytes(&self) -> u64 {
        self.bytes
    }

    // The words behind `horizon`.
    fn take_horizon(&mut self, words: &[u8]) -> Result<(), TextFault> {
        if self.came != Came::Nothing {
            return Err(TextFault::Bad(Expected::NextLine));
        }
        let (word, rest) = next_word(words);
        let Some(time) = number_of(word) else {
            return Err(TextFault::Bad(Expected::Time));
        };
        line_end(rest)?;
        self.history.raise(time);
        self.came = Came::Lines;
        Ok(())
    }

    // The words behind `end`.
    fn take_end(&mut self, words: &[u8]) -> Result<(), TextFault> {
        let (word, rest) = next_word(words);
        if number_of(word) != Some(self.pages) {
            return Err(TextFault::Bad(Expected::End(self.pages)));
        }
        line_end(rest)?;
        self.came = Came::End;
        Ok(())
    }

    // A page and its stamps, of which the first is the later one.
    fn add(&mut self, page: PageId, last: Stamp, prev: Option<Stamp>) -> Result<(), TextFault> {
        let oldest = oldest_of(&last, &prev);
        let horizon = self.history.horizon();
        if oldest.time < horizon {
            return Err(TextFault::Bad(Expected::TimeFrom(horizon)));
        }
        if let Some(_) = self.history.get(page) {
            return Err(TextFault::Bad(Expected::NewPage));
        }
        // Of one stamp these are the same reference twice, which counts once.
        let references = [reference(&page, &last), reference(&page, &oldest)];
        let _changed = self.history.absorb(&references)?;
        self.pages = self.pages.saturating_add(1);
        Ok(())
    }

    // The line of a page, of which the first word is given.
    fn take_page(&mut self, word: &[u8], words: &[u8]) -> Result<(), TextFault> {
        let Some(page) = page_of(word) else {
            return Err(TextFault::Bad(match self.came {
                Came::Nothing => Expected::FirstLine,
                _ => Expected::NextLine,
            }));
        };
        let (last, prev) = stamps_in(words)?;
        self.add(page, last, prev)?;
        self.came = Came::Lines;
        Ok(())
    }

    fn take_line(&mut self, line: &[u8]) -> Result<(), TextFault> {
        let (word, words) = next_word(line);
        if word.is_empty() || word[0] == b'#' {
            return Ok(());
        }
        if self.came == Came::End {
            return Err(TextFault::Bad(Expected::Nothing));
        }
        if word == b"horizon".as_slice() {
            return self.take_horizon(words);
        }
        if word == b"end".as_slice() {
            return self.take_end(words);
        }
        self.take_page(word, words)
    }

    // The line that has begun ends.
    fn end_line(&mut self) -> Result<(), TextFault> {
        let line = std::mem::replace(&mut self.line, Vec::new(self.alloc));
        self.take_line(line.as_slice())?;
        self.ended = self.ended.saturating_add(1);
        self.line = line;
        self.line.clear();
        Ok(())
    }

    fn take_byte(&mut self, byte: u8) -> Result<(), TextFault> {
        if byte == b'\n' {
            return self.end_line();
        }
        if self.line.len() >= MAX_TEXT_LINE {
            return Err(TextFault::Bad(Expected::ShortLine));
        }
        self.line.push(byte)?;
        Ok(())
    }

    /// Takes these bytes.
    pub fn take(&mut self, bytes: &[u8]) -> Result<(), TextFault> {
        self.bytes = self.bytes.saturating_add(bytes.len() as u64);
        for byte in bytes {
            self.take_byte(*byte)?;
        }
        Ok(())
    }

    /// The text ends here. `Ok` if its last line came.
    pub fn end(&mut self) -> Result<(), TextFault> {
        if !self.line.is_empty() {
            self.end_line()?;
        }
        if self.came != Came::End {
            return Err(TextFault::Bad(Expected::End(self.pages)));
        }
        Ok(())
    }

    /// The history that came.
    pub fn into_history(self) -> History {
        let TextReader {
            alloc: _,
            history,
            came: _,
            pages: _,
            bytes: _,
            ended: _,
            line: _,
        } = self;
        history
    }
}
