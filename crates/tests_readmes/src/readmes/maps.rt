//! The call that the README of `warm_maps` shows.
use anyhow::Result;
use std::alloc::Global;
use std::process::Abort;
use test_kit::once;
use warm_maps::{BucketMaps, Packed};
use warm_stamps::{PageId, ReplicaId, Stamp};

fn one_call(rt: &impl Abort, alloc: Global) -> Result<()> {
    let page = PageId { dev: 0, no: 1 };
    let replica = ReplicaId::new(1)?;
    let stamp = Stamp { time: 10, replica };
    let mut maps = BucketMaps::new(alloc);
    maps.record(page, &mut Packed::once(stamp), true)?; // likely new
    assert!(rt; maps.lookup(page) == Some(once(10, 1)));
    Ok(())
}

#[test]
fn one_call_of_warm_maps(rt: HostRuntime) {
    assert!(rt; one_call(&rt, rt.alloc()).is_ok());
}
