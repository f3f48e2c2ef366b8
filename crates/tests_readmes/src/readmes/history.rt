//! The call that the README of `warm_history` shows.
use anyhow::Result;
use std::alloc::Global;
use std::process::Abort;
use test_kit::once;
use warm_history::History;
use warm_stamps::{BucketSet, PageId, Reference, ReplicaId, Stamp, bucket_of};

fn one_call(rt: &impl Abort, alloc: Global) -> Result<()> {
    let page = PageId { dev: 0, no: 1 };
    let replica = ReplicaId::new(1)?;
    let early = Reference {
        page,
        stamp: Stamp { time: 10, replica },
    };
    let late = Reference {
        page,
        stamp: Stamp { time: 20, replica },
    };
    let mut history = History::new(alloc);
    let changed = history.absorb(&[late, early])?;
    assert!(rt; changed == BucketSet::new().with(bucket_of(page)));
    history.raise(15); // stamps before 15 are forgotten
    assert!(rt; history.get(page) == Some(once(20, 1)));
    Ok(())
}

#[test]
fn one_call_of_warm_history(rt: HostRuntime) {
    assert!(rt; one_call(&rt, rt.alloc()).is_ok());
}
