//! The call that the README of `warm_setup` shows.
use anyhow::Result;
use std::alloc::Global;
use std::process::Abort;
use warm_setup::{Cmd, command_of, read_setup};

fn one_call(rt: &impl Abort, alloc: Global) -> Result<()> {
    let (setup, devices) = read_setup(alloc, "frames = 2\ndevice = [{pages = 8, path = \"db\"}]")?;
    assert!(rt; setup.frames() == 2 && setup.replicas() == 3 && devices.len() == 1);
    let words = ["warmplay", "play", "orders.txt"];
    let command = command_of(alloc, words.as_slice())?;
    assert!(rt;
        matches!(
            command,
            Cmd::Play {
                file: Some(_),
                setup: None
            }
        )
    );
    Ok(())
}

#[test]
fn one_call_of_warm_setup(rt: HostRuntime) {
    assert!(rt; one_call(&rt, rt.alloc()).is_ok());
}
