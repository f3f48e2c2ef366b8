//! `warmhist` inspects, compares, joins and makes dumps of histories. docs/FORMATS.md has its
//! command line, what it prints, and its exit statuses.
#![tactic(auto)]

mod difference;
mod expected;
mod failure;
mod headers;
mod line;
mod making;
mod printing;
mod progress;
mod reading;
mod text_reader;
mod words;
mod writing;

use crate::difference::{differ, put_difference};
use crate::failure::{Failure, report};
use crate::making::{join_files, make_file};
use crate::printing::{put_check, put_history, put_hottest, put_text};
use crate::reading::read_file;
use crate::words::{HistCommand, Joining, Lines, Making, asked_in, matches_of, reads_twice};
use std::env;
use std::io::{BufWriter, Stdout, Write};
use std::process::ExitCode;

// The statuses are those of diff and grep.
const DONE: u8 = 0;

const DIFFERENT: u8 = 1;

// The command line is refused, or the command failed.
const TROUBLE: u8 = 2;

fn buffered<'a>(rt: &'a HostRuntime) -> Result<BufWriter<Stdout>, Failure<'a>> {
    Ok(BufWriter::new(rt.alloc(), rt.stdout())?)
}

fn show<'a>(rt: &'a HostRuntime, file: &'a str) -> Result<u8, Failure<'a>> {
    let dump = read_file(rt, file)?;
    let mut writer = buffered(rt)?;
    put_history(&mut writer, &dump.history)?;
    writer.flush()?;
    Ok(DONE)
}

fn hot<'a>(rt: &'a HostRuntime, file: &'a str, count: usize) -> Result<u8, Failure<'a>> {
    let dump = read_file(rt, file)?;
    let mut writer = buffered(rt)?;
    put_hottest(rt.alloc(), &mut writer, &dump.history, count)?;
    writer.flush()?;
    Ok(DONE)
}

fn text<'a>(rt: &'a HostRuntime, file: &'a str) -> Result<u8, Failure<'a>> {
    let dump = read_file(rt, file)?;
    let mut writer = buffered(rt)?;
    put_text(&mut writer, &dump.history)?;
    writer.flush()?;
    Ok(DONE)
}

fn check<'a>(rt: &'a HostRuntime, file: &'a str, lines: Lines) -> Result<u8, Failure<'a>> {
    let dump = read_file(rt, file)?;
    if lines == Lines::Quiet {
        return Ok(DONE);
    }
    let mut writer = buffered(rt)?;
    put_check(&mut writer, &dump)?;
    writer.flush()?;
    Ok(DONE)
}

fn answer(differ: bool) -> u8 {
    if differ { DIFFERENT } else { DONE }
}

fn diff<'a>(
    rt: &'a HostRuntime,
    first: &'a str,
    second: &'a str,
    lines: Lines,
) -> Result<u8, Failure<'a>> {
    let first = read_file(rt, first)?;
    let second = read_file(rt, second)?;
    if lines == Lines::Quiet {
        return Ok(answer(differ(&first.history, &second.history)));
    }
    let mut writer = buffered(rt)?;
    let differ = put_difference(&mut writer, &first.history, &second.history)?;
    writer.flush()?;
    Ok(answer(differ))
}

fn join<'a>(rt: &'a HostRuntime, joining: &Joining<'a>) -> Result<u8, Failure<'a>> {
    join_files(rt, joining)?;
    Ok(DONE)
}

fn make<'a>(rt: &'a HostRuntime, making: &Making<'a>) -> Result<u8, Failure<'a>> {
    make_file(rt, making)?;
    Ok(DONE)
}

fn done<'a>(rt: &'a HostRuntime, asked: &HistCommand<'a>) -> Result<u8, Failure<'a>> {
    match asked {
        HistCommand::Show(file) => show(rt, *file),
        HistCommand::Hot(file, count) => hot(rt, *file, *count),
        HistCommand::Check(file, lines) => check(rt, *file, *lines),
        HistCommand::Diff(first, second, lines) => diff(rt, *first, *second, *lines),
        HistCommand::Join(joining) => join(rt, joining),
        HistCommand::Text(file) => text(rt, *file),
        HistCommand::Make(making) => make(rt, making),
    }
}

// Does what is asked for, and gives the status.
fn status_of(rt: &HostRuntime, asked: &HistCommand<'_>) -> u8 {
    if reads_twice(asked) {
        let _ = eprintln!(rt; "warmhist: standard input can be read once");
        return TROUBLE;
    }
    match done(rt, asked) {
        Ok(status) => status,
        Err(failure) => {
            // If nothing can be written to standard error, the status is all that is left to say.
            let _ = report(rt, &failure);
            TROUBLE
        }
    }
}

fn no_memory(rt: &HostRuntime) -> u8 {
    let _ = report(rt, &Failure::Memory);
    TROUBLE
}

// clap's text, and the status: that of help is 0 if it could be written.
fn print_clap(rt: &HostRuntime, error: &clap::Error) -> u8 {
    if error.kind() == clap::error::ErrorKind::OutOfMemory {
        return no_memory(rt);
    }
    let printed = error.print(rt);
    if error.use_stderr() {
        return TROUBLE;
    }
    match printed {
        Ok(()) => DONE,
        Err(error) => {
            let _ = report(rt, &Failure::Unprinted(error));
            TROUBLE
        }
    }
}

// What comes of these words.
fn status_of_words(rt: &HostRuntime, words: &[String]) -> u8 {
    let matches = match matches_of(rt.alloc(), words) {
        Ok(matches) => matches,
        Err(error) => return print_clap(rt, &error),
    };
    match asked_in(rt.alloc(), &matches) {
        Ok(Some(asked)) => status_of(rt, &asked),
        Ok(None) => TROUBLE,
        Err(_) => no_memory(rt),
    }
}

fn main(rt: HostRuntime) -> ExitCode {
    let args = match env::args(&rt) {
        Ok(args) => args,
        Err(error) => {
            let _ = eprintln!(rt; "warmhist: the command line: {error}");
            return ExitCode::from(TROUBLE);
        }
    };
    let words: Vec<String> = match args.collect(rt.alloc()) {
        Ok(words) => words,
        Err(_) => return ExitCode::from(no_memory(&rt)),
    };
    ExitCode::from(status_of_words(&rt, words.as_slice()))
}
