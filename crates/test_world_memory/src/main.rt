//! Test cases of worlds, file devices, setups and command lines: calls whose allocations may fail,
//! and allocation-free calls.
//!
//! Which of both is the argument ([`asked`]): `scripts/refuse-allocations` runs one at a time.
#![tactic(auto)]

mod promised;
mod refused;

use std::process::ExitCode;
use test_kit::cases::{Ended, Met, asked, report, status};

// Plays the kinds of test cases that are asked for, each up to one that ends early, and prints how
// they ended.
fn play(rt: &HostRuntime) -> Result<(), Ended> {
    let kinds = asked(rt)?;
    if kinds.refused {
        let mut met = Met::new();
        let ended = refused::play(&mut met, rt);
        report(rt, &met, ended)?;
    }
    if kinds.promised {
        let mut met = Met::new();
        let ended = promised::play(rt, &mut met, rt.alloc());
        report(rt, &met, ended)?;
    }
    Ok(())
}

fn main(rt: HostRuntime) -> ExitCode {
    status(play(&rt))
}
