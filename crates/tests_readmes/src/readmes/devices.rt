//! The call that the README of `warm_devices` shows.
use anyhow::Result;
use std::alloc::Global;
use std::process::Abort;
use warm_devices::{MemDevice, PageDevice, let_go};

fn one_call(rt: &impl Abort, alloc: Global) -> Result<()> {
    let mut device = MemDevice::new(alloc, 4, 2)?; // four pages of two bytes, all zero
    device.write(1, &[7, 8])?;
    assert!(rt; device.waiting());
    device.flush()?;
    let mut page = [0; 2];
    device.read(1, &mut page)?;
    assert!(rt; page == [7, 8] && !device.waiting() && device.failures() == 0);
    let_go(device); // requires that nothing waits
    Ok(())
}

#[test]
fn one_call_of_warm_devices(rt: HostRuntime) {
    assert!(rt; one_call(&rt, rt.alloc()).is_ok());
}
