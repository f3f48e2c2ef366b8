//! The call that the README of `warm_player` shows.
use anyhow::Result;
use std::alloc::Global;
use std::process::Abort;
use warm_devices::MemDevice;
use warm_player::play;
use warm_world::Setup;

fn one_call(rt: &impl Abort, alloc: Global) -> Result<()> {
    let setup = Setup::new(1, 1, 64, 4, 16)?; // replicas, workers, buffer, frames, page
    let mut list = Vec::with_capacity(alloc, 1)?;
    list.push_reserved(MemDevice::new(alloc, 256, 16)?);
    let mut devices = Vec::with_capacity(alloc, 1)?;
    devices.push_reserved(list);
    let mut reader: &[u8] = b"ref 1 1 0:1 10\nflush 1 1\nshow 1\n";
    let mut out = Vec::new(alloc);
    play(alloc, &mut reader, &mut out, setup, devices)?;
    assert!(rt; out.as_slice() == "ok\nok\n0:1 last 10@1\nend 1\n".as_bytes());
    Ok(())
}

#[test]
fn one_call_of_warm_player(rt: HostRuntime) {
    assert!(rt; one_call(&rt, rt.alloc()).is_ok());
}
