//! Reading a dump or a text, from a file or from standard input.

use crate::failure::{BadText, Failure, Unread};
use crate::headers::Headers;
use crate::progress::Progress;
use crate::text_reader::{TextFault, TextReader};
use crate::words::DASH;
use std::alloc::Global;
use std::fs::File;
use std::io::{self, ErrorKind, Read};
use warm_dump::{DumpError, DumpFault, read_dump};
use warm_frames::FrameFault;
use warm_history::History;

// How often a text is read, and how many bytes of it at once.
const MAX_TEXT_READS: u64 = 1 << 40;

const TEXT_READ_SIZE: usize = 65_536;

/// A dump that was read: its history, and what the headers of its frames say.
#[derive(Drop)]
pub struct Dump {
    pub history: History,
    pub headers: Headers,
}

// A reader that looks at the headers, and says on a terminal how far it is.
#[derive(Drop)]
struct Watched<'a, S: Read + Drop> {
    progress: Progress<'a>,
    source: S,
    headers: Headers,
    error: Option<ErrorKind>,
}

impl<'a, S: Read + Drop> Read for Watched<'a, S> {
    fn read(&mut self, buf: &mut [u8]) -> io::Result<usize> {
        match self.source.read(buf) {
            Ok(n) => {
                self.headers.pass(&buf[..n]);
                self.progress.show(self.headers.bytes());
                Ok(n)
            }
            Err(error) => {
                // One that was interrupted is made again.
                if error.kind() != ErrorKind::Interrupted {
                    self.error = Some(error.kind());
                }
                Err(error)
            }
        }
    }
}

fn read_from<'a, S: Read + Drop>(
    rt: &'a HostRuntime,
    name: &'a str,
    source: S,
) -> Result<Dump, Failure<'a>> {
    let mut watched = Watched {
        progress: Progress::new(rt, name),
        source,
        headers: Headers::new(),
        error: None,
    };
    let ended = read_dump(rt.alloc(), &mut watched);
    watched.progress.clear();
    let Watched {
        progress: _,
        source: _,
        headers,
        error,
    } = watched;
    match ended {
        Ok(history) => Ok(Dump { history, headers }),
        Err(
            DumpError {
                at: _,
                fault: DumpFault::Frame(FrameFault::Memory),
            },
        ) => Err(Failure::Memory),
        Err(why) => Err(Failure::Unread(Unread { name, why, error })),
    }
}

/// Reads the dump of this name.
pub fn read_file<'a>(rt: &'a HostRuntime, name: &'a str) -> Result<Dump, Failure<'a>> {
    if name == DASH {
        return read_from(rt, "standard input", rt.stdin());
    }
    match File::open(rt, name) {
        Ok(file) => read_from(rt, name, file),
        Err(error) => Err(Failure::CannotOpen(name, error)),
    }
}

// Reads once. `false` at the end.
fn read_some<S: Read>(
    source: &mut S,
    buffer: &mut [u8],
    text: &mut TextReader,
    progress: &mut Progress<'_>,
) -> Result<bool, TextFault> {
    match source.read(buffer) {
        Ok(0) => Ok(false),
        Ok(n) => {
            text.take(&buffer[..n])?;
            progress.show(text.bytes());
            Ok(true)
        }
        Err(error) => {
            if error.kind() != ErrorKind::Interrupted {
                return Err(TextFault::Unread(Some(error.kind())));
            }
            Ok(true)
        }
    }
}

fn read_all<S: Read>(
    alloc: Global,
    source: &mut S,
    text: &mut TextReader,
    progress: &mut Progress<'_>,
) -> Result<(), TextFault> {
    let mut buffer = vec![in alloc; 0u8; TEXT_READ_SIZE]?;
    for _ in 0..MAX_TEXT_READS {
        if !read_some(source, buffer.as_mut_slice(), text, progress)? {
            return text.end();
        }
    }
    Err(TextFault::Unread(None))
}

fn read_text_from<'a, S: Read + Drop>(
    rt: &'a HostRuntime,
    name: &'a str,
    mut source: S,
) -> Result<History, Failure<'a>> {
    let mut progress = Progress::new(rt, name);
    let mut text = TextReader::new(rt.alloc());
    let ended = read_all(rt.alloc(), &mut source, &mut text, &mut progress);
    progress.clear();
    match ended {
        Ok(()) => Ok(text.into_history()),
        Err(TextFault::Memory) => Err(Failure::Memory),
        Err(why) => {
            let line = text.line_number();
            Err(Failure::BadText(BadText { name, line, why }))
        }
    }
}

/// Reads the text of this name.
pub fn read_text<'a>(rt: &'a HostRuntime, name: &'a str) -> Result<History, Failure<'a>> {
    if name == DASH {
        return read_text_from(rt, "standard input", rt.stdin());
    }
    match File::open(rt, name) {
        Ok(file) => read_text_from(rt, name, file),
        Err(error) => Err(Failure::CannotOpen(name, error)),
    }
}
