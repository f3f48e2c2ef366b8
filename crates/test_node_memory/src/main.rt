//! Test cases of one replica: its pool, its node, its shards, and what threads share. Calls whose
//! allocations may fail, and calls whose allocations are bounded.
//!
//! Which of both is the argument ([`asked`]): `scripts/refuse-allocations` runs one at a time.
#![tactic(auto)]

mod promised;
mod refused;

use std::process::ExitCode;
use std::sync::Wait;
use std::thread::Threads;
use test_kit::cases::{Ended, Met, asked, report, status};

// Plays the kinds of test cases that are asked for, each up to one that ends early, and prints how
// they ended.
fn play<T: Threads + Wait + Sync>(rt: &HostRuntime, threads: &T) -> Result<(), Ended> {
    let kinds = asked(rt)?;
    if kinds.refused {
        let mut met = Met::new();
        let ended = refused::play(&mut met, threads, rt.alloc());
        report(rt, &met, ended)?;
    }
    if kinds.promised {
        let mut met = Met::new();
        let ended = promised::play(rt, &mut met, threads, rt.alloc());
        report(rt, &met, ended)?;
    }
    Ok(())
}

fn main(rt: HostRuntime) -> ExitCode {
    status(play(&rt, &rt))
}
