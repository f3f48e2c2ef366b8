//! The call that the README of `warm_stamps` shows.
use anyhow::Result;
use std::alloc::Global;
use std::process::Abort;
use warm_stamps::{
    BucketSet, PageId, ReplicaId, Stamp, bucket_of, page_bytes, page_from, stamp_bytes, stamp_from,
};

fn one_call(rt: &impl Abort, alloc: Global) -> Result<()> {
    let page = PageId { dev: 0, no: 65 };
    let replica = ReplicaId::new(2)?; // BadReplica for 0, and above 64
    let stamp = Stamp { time: 10, replica };
    let bucket = bucket_of(page);
    assert!(rt; bucket.get() == 1); // (0 + 65) modulo 64
    assert!(rt; BucketSet::new().with(bucket).bits() == 2);
    assert!(rt; page_from(&page_bytes(page)) == page);
    assert!(rt; stamp_from(&stamp_bytes(stamp))? == stamp);
    Ok(())
}

#[test]
fn one_call_of_warm_stamps(rt: HostRuntime) {
    assert!(rt; one_call(&rt, rt.alloc()).is_ok());
}
