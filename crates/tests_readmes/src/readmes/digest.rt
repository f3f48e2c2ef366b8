//! The call that the README of `warm_digest` shows.
use anyhow::Result;
use std::alloc::Global;
use std::process::Abort;
use warm_digest::{DigestedHistory, differing};
use warm_stamps::{PageId, Reference, ReplicaId, Stamp};

fn one_call(rt: &impl Abort, alloc: Global) -> Result<()> {
    let replica = ReplicaId::new(1)?;
    let page = PageId { dev: 0, no: 1 };
    let seen = Reference {
        page,
        stamp: Stamp { time: 10, replica },
    };
    let mut primary = DigestedHistory::new(alloc);
    let mut standby = DigestedHistory::new(alloc);
    assert!(rt; primary.absorb(&[seen])?.bits() == 0b10); // bucket 1 has changed, and is marked
    let differs = differing(&primary.digests()?, &standby.digests()?);
    assert!(rt; differs.bits() == 0b10);
    Ok(())
}

#[test]
fn one_call_of_warm_digest(rt: HostRuntime) {
    assert!(rt; one_call(&rt, rt.alloc()).is_ok());
}
