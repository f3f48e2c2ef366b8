//! Words of the command line.
use std::alloc::Global;
use test_kit::cases::{Ended, Met};
use warm_setup::{Cmd, CmdFault, PathText, command_of, non_utf8_argument};

// The meaning of words, or that they are refused.
#[derive(Clone, Copy)]
enum Asked {
    Play(Option<&'static str>, Option<&'static str>),
    Random(u64, u32, Option<&'static str>),
    Refused,
}

fn is_path(path: &Option<PathText>, text: Option<&str>) -> bool {
    match (path, text) {
        (None, None) => true,
        (Some(path), Some(text)) => path.as_str() == text,
        _ => false,
    }
}

fn is_play(command: &Cmd, file: Option<&str>, setup: Option<&str>) -> bool {
    match command {
        Cmd::Play {
            file: found,
            setup: other,
        } => is_path(found, file) && is_path(other, setup),
        _ => false,
    }
}

fn is_random(command: &Cmd, seed: u64, events: u32, setup: Option<&str>) -> bool {
    match command {
        Cmd::Random {
            seed: drawn,
            events: many,
            setup: other,
        } => *drawn == seed && *many == events && is_path(other, setup),
        _ => false,
    }
}

// How words were read.
#[derive(Clone, Copy, PartialEq, Eq)]
enum Read {
    Rightly,
    Otherwise,
    Memory,
}

fn read_as(read: &Result<Cmd, CmdFault>, asked: Asked) -> Read {
    let is_asked = match read {
        Err(CmdFault::Memory) => return Read::Memory,
        Err(CmdFault::Refused(_)) => matches!(asked, Asked::Refused),
        Ok(command) => match asked {
            Asked::Play(file, setup) => is_play(command, file, setup),
            Asked::Random(seed, events, setup) => is_random(command, seed, events, setup),
            Asked::Refused => false,
        },
    };
    if is_asked {
        return Read::Rightly;
    }
    Read::Otherwise
}

// Reads the words. An allocation failure says nothing about them, and they are read again.
fn row(met: &mut Met, alloc: Global, words: &[&str], asked: Asked) -> Result<(), Ended> {
    let mut read = read_as(&command_of(alloc, words), asked);
    if read == Read::Memory {
        met.refuse(true, "")?;
        read = read_as(&command_of(alloc, words), asked);
    }
    met.holds(read == Read::Rightly, "words are read otherwise")
}

// The refusal of words that are not text; an allocation failure may come first.
fn no_text(met: &mut Met, alloc: Global) -> Result<(), Ended> {
    let mut read = read_as(&Err(non_utf8_argument(alloc)), Asked::Refused);
    if read == Read::Memory {
        met.refuse(true, "")?;
        read = read_as(&Err(non_utf8_argument(alloc)), Asked::Refused);
    }
    met.holds(
        read == Read::Rightly,
        "words that are no text are read otherwise",
    )
}

pub(crate) fn rows(met: &mut Met, alloc: Global) -> Result<(), Ended> {
    let play = ["warmplay", "play", "a", "--setup", "b"];
    row(met, alloc, &play, Asked::Play(Some("a"), Some("b")))?;
    let random = [
        "warmplay", "random", "--seed", "3", "--events", "9", "--setup", "b",
    ];
    row(met, alloc, &random, Asked::Random(3, 9, Some("b")))?;
    let no_number = ["warmplay", "random", "--seed", "x", "--events", "9"];
    row(met, alloc, &no_number, Asked::Refused)?;
    no_text(met, alloc)
}
