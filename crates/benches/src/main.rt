//! The measurements of `docs/PERFORMANCE.md` up to a node, run by the scripts in `bench/`: history,
//! pool, frames, files and gossip. `bench_threads` has those of threads and of shards.
//!
//! `benches NAME WORDS..` runs the bench of that name with these arguments, and prints nanoseconds;
//! its module documents the arguments. `benches NAME` does a little of all that the bench measures,
//! and prints the results. `benches` does so for each bench, one after the other, under its name.
#![tactic(auto)]

mod files;
mod frames;
mod gossip;
mod history;
mod parts;
mod pool;
mod strides;

use anyhow::{Result, bail};
use std::env;
use std::io::Print;

/// The benches.
#[derive(Clone, Copy)]
enum Bench {
    History,
    Pool,
    Frames,
    Files,
    Gossip,
}

// In the order in which they run.
const BENCHES: [Bench; 5] = [
    Bench::History,
    Bench::Pool,
    Bench::Frames,
    Bench::Files,
    Bench::Gossip,
];

impl Bench {
    fn from_word(word: &str) -> Result<Bench> {
        match word {
            "history" => Ok(Bench::History),
            "pool" => Ok(Bench::Pool),
            "frames" => Ok(Bench::Frames),
            "files" => Ok(Bench::Files),
            "gossip" => Ok(Bench::Gossip),
            _ => bail!("what is measured: history, pool, frames, files or gossip"),
        }
    }

    fn name(self) -> &'static str {
        match self {
            Bench::History => "history",
            Bench::Pool => "pool",
            Bench::Frames => "frames",
            Bench::Files => "files",
            Bench::Gossip => "gossip",
        }
    }
}

// Runs one bench with its arguments.
fn play(rt: &HostRuntime, bench: Bench, words: &[String]) -> Result<()> {
    match bench {
        Bench::History => history::play(rt, words),
        Bench::Pool => pool::play(rt, words),
        Bench::Frames => frames::play(rt, words),
        Bench::Files => files::play(rt, words),
        Bench::Gossip => gossip::play(rt, words),
    }
}

fn main(rt: HostRuntime) -> Result<()> {
    let words: Vec<String> = env::args(&rt)?.skip(1).collect(rt.alloc())?;
    if let Some((name, rest)) = words.split_first() {
        return play(&rt, Bench::from_word(name)?, rest);
    }
    for bench in BENCHES {
        println!(rt; "== {}", bench.name())?;
        play(&rt, bench, &[])?;
    }
    Ok(())
}
