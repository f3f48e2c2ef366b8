//! The measurements of `docs/PERFORMANCE.md` of turns, of threads, and of shards, run by the
//! scripts in `bench/`: turn, replica, hits, shards and shared. `benches` has those of the layers
//! below.
//!
//! `bench_threads NAME WORDS..` runs the bench of that name with these arguments, and prints
//! nanoseconds; its module documents the arguments. `bench_threads NAME` does a little of all that
//! the bench measures, and prints the results. `bench_threads` does so for each bench, one after
//! the other, under its name.
#![tactic(auto)]

mod numbered;
mod parts;
mod replica;
mod shards;
mod shared;
mod turn;

use anyhow::{Result, bail};
use std::env;
use std::io::Print;
use std::sync::Wait;
use std::thread::Threads;
use std::time::Clock;

/// The benches.
#[derive(Clone, Copy)]
enum Bench {
    Turn,
    Replica,
    Hits,
    Shards,
    Shared,
}

// In the order in which they run.
const BENCHES: [Bench; 5] = [
    Bench::Turn,
    Bench::Replica,
    Bench::Hits,
    Bench::Shards,
    Bench::Shared,
];

impl Bench {
    fn from_word(word: &str) -> Result<Bench> {
        match word {
            "turn" => Ok(Bench::Turn),
            "replica" => Ok(Bench::Replica),
            "hits" => Ok(Bench::Hits),
            "shards" => Ok(Bench::Shards),
            "shared" => Ok(Bench::Shared),
            _ => bail!("what is measured: turn, replica, hits, shards or shared"),
        }
    }

    fn name(self) -> &'static str {
        match self {
            Bench::Turn => "turn",
            Bench::Replica => "replica",
            Bench::Hits => "hits",
            Bench::Shards => "shards",
            Bench::Shared => "shared",
        }
    }
}

// Runs one bench with its arguments.
fn play<T: Threads + Wait + Clock + Print + AllocGlobal + Sync>(
    rt: &HostRuntime,
    threads: &T,
    bench: Bench,
    words: &[String],
) -> Result<()> {
    match bench {
        Bench::Turn => turn::play(threads, *rt, words),
        Bench::Replica => replica::play(threads, words),
        Bench::Hits => shards::play_hits(rt, words),
        Bench::Shards => shards::play(rt, words),
        Bench::Shared => shared::play(threads, words),
    }
}

fn main(rt: HostRuntime) -> Result<()> {
    let words: Vec<String> = env::args(&rt)?.skip(1).collect(rt.alloc())?;
    if let Some((name, rest)) = words.split_first() {
        return play(&rt, &rt, Bench::from_word(name)?, rest);
    }
    for bench in BENCHES {
        println!(rt; "== {}", bench.name())?;
        play(&rt, &rt, bench, &[])?;
    }
    Ok(())
}
