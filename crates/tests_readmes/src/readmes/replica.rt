//! The call that the README of `warm_replica` shows.
use anyhow::Result;
use std::alloc::Global;
use std::process::Abort;
use std::sync::Wait;
use warm_devices::MemDevice;
use warm_gossip::Node;
use warm_pool::Pool;
use warm_refbuffer::RefBuffer;
use warm_replica::Worker;
use warm_stamps::{PageId, Reference, ReplicaId, Stamp};
use warm_turn::Turn;

fn one_call<R: Wait + Abort>(
    rt: &R,
    alloc: Global,
    node: Node<MemDevice>,
    seen: Reference,
) -> Result<()> {
    let (replica, pass) = Turn::new(alloc, node).ok().expect(rt, "memory"); // a Node<MemDevice>
    let mut worker = Worker::new(pass, RefBuffer::new(alloc, 64)?);
    worker.touch(seen)?; // a Reference; waits for nobody
    worker.flush(rt, alloc, &replica)?; // one Absorb, in one turn
    let (pass, _buffer) = worker.into_parts();
    let node = replica.close(pass).expect(rt, "no call is under way");
    assert!(rt; node.history().len() == 1);
    Ok(())
}

// A node over a device in memory, and a reference to one of its pages.
fn opened(alloc: Global) -> Result<(Node<MemDevice>, Reference)> {
    let replica = ReplicaId::new(1)?;
    let mut devices = Vec::with_capacity(alloc, 1)?;
    devices.push_reserved(MemDevice::new(alloc, 64, 16)?);
    let node = Node::new(alloc, replica, Pool::new(alloc, 4, 16, devices)?);
    let page = PageId { dev: 0, no: 5 };
    let stamp = Stamp { time: 1, replica };
    Ok((node, Reference { page, stamp }))
}

#[test]
fn one_call_of_warm_replica(rt: HostRuntime) {
    let (node, seen) = opened(rt.alloc()).expect(&rt, "memory for a node");
    assert!(rt; one_call(&rt, rt.alloc(), node, seen).is_ok());
}
