//! The call that the README of `warm_threads` shows.
use anyhow::Result;
use std::alloc::Global;
use std::process::Abort;
use std::sync::Wait;
use std::thread::Threads;
use warm_devices::MemDevice;
use warm_threads::play_threads;
use warm_world::Setup;

fn one_call<R: Threads + Wait + Abort + Sync>(rt: &R, alloc: Global) -> Result<()> {
    let setup = Setup::new(1, 2, 64, 4, 16)?; // one replica with two workers
    let mut list = Vec::with_capacity(alloc, 1)?;
    list.push_reserved(MemDevice::new(alloc, 256, 16)?);
    let mut devices = Vec::with_capacity(alloc, 1)?;
    devices.push_reserved(list);
    let mut reader: &[u8] = b"ref 1 1 0:1 10\nref 1 2 0:1 20\n";
    let mut out = Vec::new(alloc);
    play_threads(rt, alloc, &mut reader, &mut out, setup, devices)?;
    assert!(rt; out.as_slice() == "replica 1\n0:1 last 20@1 prev 10@1\nend 1\n".as_bytes());
    Ok(())
}

#[test]
fn one_call_of_warm_threads(rt: HostRuntime) {
    assert!(rt; one_call(&rt, rt.alloc()).is_ok());
}
