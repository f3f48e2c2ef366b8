//! Calls of the libraries for the scripts that check them from outside. Each word has a module,
//! which says what it does and by which script:
//!
//! - `digests`: calls of a history with cached digests, from standard input;
//! - `frames`: bytes that may be frames, from standard input;
//! - `play CALL FRAMES` and `pools`: a schedule and calls of pools from standard input, over
//!   devices of which one call fails;
//! - `logged`: pages that are written over a log.
//!
//! With no word standard input has parts for all of these. A part begins with a line of `==` and
//! the words; the line is printed, and then what these words print with the rest of the part.
#![tactic(auto)]

mod digests;
mod failing;
mod frames;
mod logged;

use anyhow::{Context, Result, bail};
use std::alloc::Global;
use std::io::Print;
use std::{env, io};

/// What is done.
#[derive(Clone, Copy)]
enum Driver {
    Digests,
    Frames,
    Play { call: u64, frames: u32 },
    Pools,
    Logged,
}

impl Driver {
    // By words with spaces between them.
    fn of(text: &str) -> Result<Driver> {
        let mut words = text.split_whitespace();
        match words.next() {
            Some("digests") => Ok(Driver::Digests),
            Some("frames") => Ok(Driver::Frames),
            Some("play") => {
                let call = words.next().context("the number of a call")?;
                let call = call.parse::<u64>().context("the number of a call")?;
                let frames = words.next().context("the number of frames")?;
                let frames = frames.parse::<u32>().context("the number of frames")?;
                Ok(Driver::Play { call, frames })
            }
            Some("pools") => Ok(Driver::Pools),
            Some("logged") => Ok(Driver::Logged),
            _ => bail!("digests, frames, play, pools or logged"),
        }
    }
}

// Runs a driver on a text.
fn run_on(rt: &HostRuntime, driver: Driver, text: &str) -> Result<()> {
    match driver {
        Driver::Digests => digests::run(rt, text),
        Driver::Frames => frames::run(rt, text),
        Driver::Play { call, frames } => {
            failing::play_over(rt, &mut text.as_bytes(), call, frames)
        }
        Driver::Pools => failing::ask_pools(rt, text),
        Driver::Logged => logged::run(rt),
    }
}

// Runs a driver on standard input. A schedule is answered line by line, as it comes.
fn run(rt: &HostRuntime, driver: Driver) -> Result<()> {
    match driver {
        Driver::Play { call, frames } => failing::play_over(rt, &mut rt.stdin(), call, frames),
        Driver::Logged => logged::run(rt),
        _ => {
            let text = io::read_to_string(rt.alloc(), rt.stdin())?;
            run_on(rt, driver, text.as_str())
        }
    }
}

// Runs each part of standard input.
fn run_parts(rt: &HostRuntime) -> Result<()> {
    let text = io::read_to_string(rt.alloc(), rt.stdin())?;
    for part in text.split("== ").skip(1) {
        let (words, rest) = part.split_once('\n').context("a part has a first line")?;
        println!(rt; "== {words}")?;
        run_on(rt, Driver::of(words)?, rest)?;
    }
    Ok(())
}

// The arguments, with a space after each.
fn arguments(rt: &HostRuntime, alloc: Global) -> Result<String> {
    let mut text = String::new(alloc);
    for word in env::args(rt)?.skip(1) {
        text.push_str(word.as_str())?;
        text.push(' ')?;
    }
    Ok(text)
}

fn main(rt: HostRuntime) -> Result<()> {
    let asked = arguments(&rt, rt.alloc())?;
    if asked.is_empty() {
        return run_parts(&rt);
    }
    run(&rt, Driver::of(asked.as_str())?)
}
