//! The call that the README of `warm_pool` shows.
use anyhow::Result;
use std::alloc::Global;
use std::process::Abort;
use warm_devices::MemDevice;
use warm_history::History;
use warm_pool::Pool;
use warm_stamps::PageId;

fn one_call(rt: &impl Abort, alloc: Global) -> Result<()> {
    let mut devices = Vec::with_capacity(alloc, 1)?;
    devices.push_reserved(MemDevice::new(alloc, 64, 16)?);
    let mut pool = Pool::new(alloc, 4, 16, devices)?; // four frames of 16 bytes
    let history = History::new(alloc);
    let slot = pool.pin(PageId { dev: 0, no: 5 }, &history)?;
    pool.write(slot, 0, b"warm")?;
    let mut bytes = [0; 4];
    pool.read(slot, 0, &mut bytes)?;
    assert!(rt; bytes == *b"warm" && pool.victim().is_none()); // its only page is pinned
    pool.unpin(slot);
    pool.close()?; // all is on its device
    Ok(())
}

#[test]
fn one_call_of_warm_pool(rt: HostRuntime) {
    assert!(rt; one_call(&rt, rt.alloc()).is_ok());
}
