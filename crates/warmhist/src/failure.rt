//! Why a command failed, and what is said of it.

use crate::text_reader::TextFault;
use atomic_file::StoreFault;
use std::alloc::AllocError;
use std::io::{self, ErrorKind};
use warm_dump::{DumpError, DumpFault};
use warm_frames::FrameFault;

/// Why a command did not reach its end. Each has status 2.
#[derive(Drop)]
pub enum Failure<'a> {
    /// Memory was refused.
    Memory,
    /// The file cannot be opened.
    CannotOpen(&'a str, io::Error),
    /// The file is no dump, or cannot be read.
    Unread(Unread<'a>),
    /// The file is no text of a history, or cannot be read.
    BadText(BadText<'a>),
    /// The dump was not written to this file.
    Unwritten(&'a str, Option<ErrorKind>),
    /// The file was not replaced.
    Unstored(&'a str, StoreFault),
    /// Standard output takes no more.
    Unprinted(io::Error),
}

/// Why a file was not read, and where.
#[derive(Drop)]
pub struct Unread<'a> {
    pub name: &'a str,
    /// The fault, and where the frame begins that shows it.
    pub why: DumpError,
    /// What the system said, if the file could not be read.
    pub error: Option<ErrorKind>,
}

/// Why a text was not read, and in which line.
#[derive(Drop)]
pub struct BadText<'a> {
    pub name: &'a str,
    pub line: u64,
    pub why: TextFault,
}

impl<'a> From<AllocError> for Failure<'a> {
    fn from(_: AllocError) -> Failure<'a> {
        Failure::Memory
    }
}

impl<'a> From<io::Error> for Failure<'a> {
    fn from(error: io::Error) -> Failure<'a> {
        if error.kind() == ErrorKind::OutOfMemory {
            return Failure::Memory;
        }
        Failure::Unprinted(error)
    }
}

// What is wrong with a frame.
fn sentence_of_frame(fault: FrameFault) -> &'static str {
    match fault {
        FrameFault::Memory => "memory ran out",
        FrameFault::Truncated => "a frame is cut short",
        FrameFault::BadMagic => "no frame begins here",
        FrameFault::BadKind => "a frame has neither entries nor digests",
        FrameFault::BadSender => "the sender of a frame is no replica",
        FrameFault::BadLength => "the length of a frame does not fit what it holds",
        FrameFault::BadCount => "a frame has too many entries",
        FrameFault::BadTag => "a page has neither one stamp nor two",
        FrameFault::BadStamp => "a stamp is of no replica, or two stamps are in the wrong order",
        FrameFault::BadOrder => "the pages of a frame are in the wrong order",
        FrameFault::Failed => "a frame before is damaged",
    }
}

// What is wrong with a dump.
fn sentence_of(fault: DumpFault) -> &'static str {
    match fault {
        DumpFault::Frame(fault) => sentence_of_frame(fault),
        DumpFault::CutShort => "it ends too early",
        DumpFault::DigestsDiffer => "the digests are not those of the entries",
        DumpFault::HorizonsDiffer => "a frame has another horizon than those before it",
        DumpFault::MoreFollows => "more bytes follow its end",
        DumpFault::ReadFault => "it cannot be read",
        DumpFault::WriteFault => "it cannot be written",
    }
}

fn report_unread(rt: &impl Eprint, unread: &Unread<'_>) -> io::Result<()> {
    let name = unread.name;
    let DumpError { at, fault } = unread.why;
    let (sentence, fault_name) = (sentence_of(fault), fault.name());
    match (fault, unread.error) {
        (DumpFault::ReadFault, Some(error)) => {
            eprintln!(rt; "warmhist: {name}: {sentence} ({fault_name} at byte {at}): {error}")
        }
        (DumpFault::ReadFault, None) => {
            eprintln!(rt; "warmhist: {name}: {sentence} ({fault_name} at byte {at})")
        }
        _ => eprintln!(rt; "warmhist: {name}: not a dump: {sentence} ({fault_name} at byte {at})"),
    }
}

fn report_bad_text(rt: &impl Eprint, bad: &BadText<'_>) -> io::Result<()> {
    let BadText { name, line, why } = bad;
    match why {
        TextFault::Memory => report_memory(rt),
        TextFault::Unread(Some(error)) => {
            eprintln!(rt; "warmhist: {name}: it cannot be read (ReadFault at line {line}): {error}")
        }
        TextFault::Unread(None) => {
            eprintln!(rt; "warmhist: {name}: it cannot be read (ReadFault at line {line})")
        }
        TextFault::Bad(expected) => {
            eprintln!(rt;
                "warmhist: {name}: not a text: expected {expected} (BadText at line {line})"
            )
        }
    }
}

fn report_memory(rt: &impl Eprint) -> io::Result<()> {
    eprintln!(rt; "warmhist: memory ran out (Memory)")
}

/// Writes a line about the failure to standard error: a sentence, and the name of the fault for
/// scripts.
pub fn report(rt: &impl Eprint, failure: &Failure<'_>) -> io::Result<()> {
    match failure {
        Failure::Memory => report_memory(rt),
        Failure::CannotOpen(name, error) => {
            eprintln!(rt; "warmhist: cannot open {name}: {error}")
        }
        Failure::Unread(unread) => report_unread(rt, unread),
        Failure::BadText(bad) => report_bad_text(rt, bad),
        Failure::Unwritten(name, Some(error)) => {
            eprintln!(rt; "warmhist: {name}: it cannot be written (WriteFault): {error}")
        }
        Failure::Unwritten(name, None) => {
            eprintln!(rt; "warmhist: {name}: it cannot be written (WriteFault)")
        }
        Failure::Unstored(name, fault) => eprintln!(rt; "warmhist: {name}: {fault}"),
        Failure::Unprinted(error) => eprintln!(rt; "warmhist: standard output: {error}"),
    }
}
