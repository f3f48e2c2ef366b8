//! The call that the README of `warm_peer` shows.
use anyhow::Result;
use std::alloc::Global;
use std::process::Abort;
use test_kit::once;
use warm_peer::Peer;
use warm_stamps::{PageId, Reference, ReplicaId, Stamp};

fn one_call(rt: &impl Abort, alloc: Global) -> Result<()> {
    let page = PageId { dev: 0, no: 5 };
    let mut primary = Peer::new(alloc, ReplicaId::new(1)?);
    let mut standby = Peer::new(alloc, ReplicaId::new(2)?);
    primary.absorb(&[Reference {
        page,
        stamp: Stamp {
            time: 1,
            replica: primary.id(),
        },
    }])?;
    let digests = primary.offer()?;
    for request in standby.receive(digests)?.into_vec() { // for the entries of bucket 5
        for entries in primary.receive(request)?.into_vec() {
            standby.receive(entries)?;
        }
    }
    assert!(rt; standby.history().get(page) == Some(once(1, 1))); // of test_kit: a time, a replica
    Ok(())
}

#[test]
fn one_call_of_warm_peer(rt: HostRuntime) {
    assert!(rt; one_call(&rt, rt.alloc()).is_ok());
}
