//! The call that the README of `warm_gossip` shows.
use anyhow::Result;
use std::alloc::Global;
use std::process::Abort;
use warm_devices::MemDevice;
use warm_gossip::Node;
use warm_pool::Pool;
use warm_stamps::{PageId, Reference, ReplicaId, Stamp};

fn one_call(rt: &impl Abort, alloc: Global) -> Result<()> {
    let mut devices = Vec::with_capacity(alloc, 1)?;
    devices.push_reserved(MemDevice::new(alloc, 64, 16)?);
    let mut node = Node::new(alloc, ReplicaId::new(1)?, Pool::new(alloc, 4, 16, devices)?);
    let page = PageId { dev: 0, no: 5 };
    node.absorb(&[Reference {
        page,
        stamp: Stamp {
            time: 1,
            replica: node.id(),
        },
    }])?;
    assert!(rt; node.warm_step()? == Some(page)); // the hottest page that is not resident
    let slot = node.pin(page)?;
    node.write(slot, 0, b"warm")?;
    assert!(rt; node.read(slot, 0, 4)?.as_slice() == b"warm".as_slice());
    node.unpin(slot)?;
    node.into_pool().close()?;
    Ok(())
}

#[test]
fn one_call_of_warm_gossip(rt: HostRuntime) {
    assert!(rt; one_call(&rt, rt.alloc()).is_ok());
}
