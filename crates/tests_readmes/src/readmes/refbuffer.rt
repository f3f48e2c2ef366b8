//! The call that the README of `warm_refbuffer` shows.
use anyhow::Result;
use std::alloc::Global;
use std::process::Abort;
use warm_refbuffer::{Full, RefBuffer};
use warm_stamps::{PageId, Reference, ReplicaId, Stamp};

fn one_call(rt: &impl Abort, alloc: Global) -> Result<()> {
    let replica = ReplicaId::new(1)?;
    let page = PageId { dev: 0, no: 1 };
    let seen = Reference {
        page,
        stamp: Stamp { time: 10, replica },
    };
    let mut buffer = RefBuffer::new(alloc, 1)?; // room for one reference
    assert!(rt; buffer.touch(seen) == Ok(()));
    assert!(rt; buffer.is_full() && buffer.touch(seen) == Err(Full(seen)));
    buffer.clear();
    assert!(rt; buffer.is_empty() && buffer.cap() == 1);
    Ok(())
}

#[test]
fn one_call_of_warm_refbuffer(rt: HostRuntime) {
    assert!(rt; one_call(&rt, rt.alloc()).is_ok());
}
