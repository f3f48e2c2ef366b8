//! The call that the README of `test_kit` shows.
use anyhow::Result;
use std::alloc::Global;
use std::process::Abort;
use test_kit::{history_of, page, twice};

fn one_call(rt: &impl Abort, alloc: Global) -> Result<()> {
    // device, page, time, replica
    let history = history_of(alloc, &[(0, 1, 10, 1), (0, 1, 20, 1)])?;
    assert!(rt; history.get(page(1)) == Some(twice((20, 1), (10, 1))));
    Ok(())
}

#[test]
fn one_call_of_test_kit(rt: HostRuntime) {
    assert!(rt; one_call(&rt, rt.alloc()).is_ok());
}
