//! The call that the README of `warm_shards` shows.
use anyhow::Result;
use std::alloc::Global;
use std::process::Abort;
use warm_devices::MemDevice;
use warm_gossip::Node;
use warm_pool::Pool;
use warm_shards::Shards;
use warm_stamps::{PageId, Reference, ReplicaId, Stamp};

fn one_call(rt: &impl Abort, alloc: Global) -> Result<()> {
    let id = ReplicaId::new(1)?;
    let mut nodes = Vec::with_capacity(alloc, 2)?;
    for _shard in 0..2 {
        let mut devices = Vec::with_capacity(alloc, 1)?;
        devices.push_reserved(MemDevice::new(alloc, 64, 16)?);
        let node = Node::new(alloc, id, Pool::new(alloc, 4, 16, devices)?);
        let Ok(()) = nodes.push(node) else {
            panic!(rt; "memory for two nodes");
        };
    }
    let Ok(mut shards) = Shards::new(alloc, id, nodes) else {
        panic!(rt; "two nodes are two shards");
    };
    let page = PageId { dev: 0, no: 5 };
    let shard = shards.shard_of(page);
    shards.absorb(&[Reference {
        page,
        stamp: Stamp {
            time: 1,
            replica: id,
        },
    }])?;
    assert!(rt; shards.warm_step(shard)? == Some(page)); // the hottest page of shard 1
    let at = shards.pin(page)?;
    shards.write(at, 0, b"warm")?;
    assert!(rt; shards.read(at, 0, 4)?.as_slice() == b"warm".as_slice());
    shards.unpin(at)?;
    Ok(())
}

#[test]
fn one_call_of_warm_shards(rt: HostRuntime) {
    assert!(rt; one_call(&rt, rt.alloc()).is_ok());
}
