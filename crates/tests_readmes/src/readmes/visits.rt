//! The call that the README of `warm_visits` shows.
use anyhow::Result;
use std::alloc::Global;
use std::process::Abort;
use test_kit::once;
use warm_devices::MemDevice;
use warm_gossip::Node;
use warm_pool::Pool;
use warm_stamps::{PageId, Reference, ReplicaId, Stamp};
use warm_visits::Visit;

// A node over a device of its own.
fn new_node(alloc: Global, id: ReplicaId) -> Result<Node<MemDevice>> {
    let mut devices = Vec::with_capacity(alloc, 1)?;
    devices.push_reserved(MemDevice::new(alloc, 64, 16)?);
    Ok(Node::new(alloc, id, Pool::new(alloc, 4, 16, devices)?))
}

fn one_call(rt: &impl Abort, alloc: Global) -> Result<()> {
    let id = ReplicaId::new(1)?;
    let page = PageId { dev: 0, no: 5 };
    let batch = [Reference {
        page,
        stamp: Stamp {
            time: 1,
            replica: id,
        },
    }];
    let mut nodes = [new_node(alloc, id)?, new_node(alloc, id)?];
    let mut visit = Visit::absorb(alloc, id, 2, &batch)?;
    while let Some(shard) = visit.next() { // shard 1, which has page 5
        visit.enter(&mut nodes[shard]);
    }
    visit.result()?;
    assert!(rt; nodes[1].history().get(page) == Some(once(1, 1)));
    Ok(())
}

#[test]
fn one_call_of_warm_visits(rt: HostRuntime) {
    assert!(rt; one_call(&rt, rt.alloc()).is_ok());
}
