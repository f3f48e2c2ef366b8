//! The call that the README of `warm_random` shows.
use anyhow::Result;
use std::alloc::Global;
use std::process::Abort;
use warm_random::write_schedule;

fn one_call(rt: &impl Abort, alloc: Global) -> Result<()> {
    let mut text = Vec::new(alloc);
    write_schedule(&mut text, 7, 3, 1, 1)?; // seed, events, replicas, workers
    assert!(rt; text.as_slice() == "ref 1 1 0:95 1\nsend 1 23\nshow 1\n".as_bytes());
    Ok(())
}

#[test]
fn one_call_of_warm_random(rt: HostRuntime) {
    assert!(rt; one_call(&rt, rt.alloc()).is_ok());
}
