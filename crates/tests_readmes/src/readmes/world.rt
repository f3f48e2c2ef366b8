//! The call that the README of `warm_world` shows.
use anyhow::Result;
use std::alloc::Global;
use std::process::Abort;
use warm_devices::MemDevice;
use warm_stamps::PageId;
use warm_world::{Answer, Event, Setup, World, WorldFault};

fn one_call(rt: &impl Abort, alloc: Global) -> Result<()> {
    let setup = Setup::new(1, 1, 64, 4, 16)?; // replicas, workers, buffer, frames, page
    let mut list = Vec::with_capacity(alloc, 1)?;
    list.push_reserved(MemDevice::new(alloc, 256, 16)?);
    let mut devices = Vec::with_capacity(alloc, 1)?; // a list of devices for each replica
    devices.push_reserved(list);
    let mut world = World::new(alloc, setup, devices)?;
    let page = PageId { dev: 0, no: 1 };
    assert!(rt; matches!(world.step(Event::Refer(1, 1, page, 10)), Answer::Done));
    assert!(rt; matches!(world.step(Event::Flush(1, 1)), Answer::Done));
    assert!(rt; matches!(world.step(Event::WarmStep(1)), Answer::Loaded(Some(_))));
    assert!(rt;
        matches!(
            world.step(Event::Show(2)),
            Answer::Refused(WorldFault::NoSuchReplica)
        )
    );
    world.finish()?;
    Ok(())
}

#[test]
fn one_call_of_warm_world(rt: HostRuntime) {
    assert!(rt; one_call(&rt, rt.alloc()).is_ok());
}
