//! Words of the command line: their meanings, and how they are refused.
use crate::player::line_holds;
use crate::setup::is_path;
use clap::error::ErrorKind;
use std::alloc::Global;
use std::process::Abort;
use warm_setup::{Cmd, CmdFault, command_of};

// The meaning of words.
#[derive(Clone, Copy)]
enum Asked {
    // A play of this file with this setup.
    Play(Option<&'static str>, Option<&'static str>),
    // A schedule of this seed and this number of events.
    Random(u64, u32, Option<&'static str>),
    // A play by threads.
    Threads(&'static str, Option<&'static str>),
}

// The command of a line's words, which are separated by single spaces.
fn read(rt: &impl Abort, alloc: Global, line: &str) -> Result<Cmd, CmdFault> {
    let mut words = Vec::new(alloc);
    for word in line.split(' ') {
        words.push(word).expect(rt, "memory for a word");
    }
    command_of(alloc, words.as_slice())
}

fn is_asked(command: &Cmd, asked: Asked) -> bool {
    match (command, asked) {
        (Cmd::Play { file, setup }, Asked::Play(text, setup_text)) => {
            is_path(file, text) && is_path(setup, setup_text)
        }
        (
            Cmd::Random {
                seed,
                events,
                setup,
            },
            Asked::Random(number, count, setup_text),
        ) => *seed == number && *events == count && is_path(setup, setup_text),
        (Cmd::Threads { file, setup }, Asked::Threads(text, setup_text)) => {
            file.as_str() == text && is_path(setup, setup_text)
        }
        _ => false,
    }
}

const READ: [(&str, Asked); 8] = [
    ("warmplay play", Asked::Play(None, None)),
    (
        "warmplay play a --setup b",
        Asked::Play(Some("a"), Some("b")),
    ),
    ("warmplay play --setup=b", Asked::Play(None, Some("b"))),
    (
        "warmplay play -- --setup",
        Asked::Play(Some("--setup"), None),
    ),
    (
        "warmplay random --seed 18446744073709551615 --events 1000000",
        Asked::Random(18446744073709551615, 1000000, None),
    ),
    (
        "warmplay random --events=0 --setup b --seed 007",
        Asked::Random(7, 0, Some("b")),
    ),
    ("warmplay threads a", Asked::Threads("a", None)),
    (
        "warmplay threads --setup b a",
        Asked::Threads("a", Some("b")),
    ),
];

#[test]
fn words_ask_for_commands(rt: HostRuntime) {
    for (line, asked) in READ {
        let command = read(&rt, rt.alloc(), line).ok().expect(&rt, "a command");
        line_holds(&rt, line, is_asked(&command, asked));
    }
}

// Lines that are refused, and how.
const REFUSED: [(&str, ErrorKind); 16] = [
    ("warmplay", ErrorKind::MissingSubcommand),
    ("warmplay thread", ErrorKind::InvalidSubcommand),
    ("warmplay threads", ErrorKind::MissingRequiredArgument),
    ("warmplay play a b", ErrorKind::UnknownArgument),
    ("warmplay play --setup", ErrorKind::InvalidValue),
    (
        "warmplay play --setup a --setup b",
        ErrorKind::ArgumentConflict,
    ),
    ("warmplay --setup a play", ErrorKind::UnknownArgument),
    (
        "warmplay random --seed 1",
        ErrorKind::MissingRequiredArgument,
    ),
    (
        "warmplay random --seed 1 --events 1000001",
        ErrorKind::ValueValidation,
    ),
    (
        "warmplay random --seed 18446744073709551616 --events 1",
        ErrorKind::ValueValidation,
    ),
    (
        "warmplay random --seed=-1 --events 1",
        ErrorKind::ValueValidation,
    ),
    (
        "warmplay random --seed 1 --events x",
        ErrorKind::ValueValidation,
    ),
    // Help is requested in each form.
    ("warmplay --help", ErrorKind::DisplayHelp),
    ("warmplay -h", ErrorKind::DisplayHelp),
    ("warmplay help", ErrorKind::DisplayHelp),
    ("warmplay play --help", ErrorKind::DisplayHelp),
];

fn kind_of(read: Result<Cmd, CmdFault>) -> Option<ErrorKind> {
    match read {
        Err(CmdFault::Refused(error)) => Some(error.kind()),
        _ => None,
    }
}

#[test]
fn other_words_are_refused(rt: HostRuntime) {
    for (line, kind) in REFUSED {
        let read = read(&rt, rt.alloc(), line);
        line_holds(&rt, line, kind_of(read) == Some(kind));
    }
}
