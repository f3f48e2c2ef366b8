//! Numbers of replicas and buckets, and the bytes of pages and of stamps.

use test_kit::{page_on, stamp};
use warm_stamps::{
    BadReplica, Bucket, ReplicaId, page_bytes, page_from, page_from_narrow, stamp_bytes, stamp_from,
};

fn replica_number(number: u16) -> Result<u16, BadReplica> {
    let replica = ReplicaId::new(number)?;
    Ok(replica.get())
}

#[test]
fn replicas_are_numbered_from_1_to_64(rt: HostRuntime) {
    assert!(rt; replica_number(0) == Err(BadReplica));
    assert!(rt; replica_number(1) == Ok(1));
    assert!(rt; replica_number(64) == Ok(64));
    assert!(rt; replica_number(65) == Err(BadReplica));
}

fn bucket_number(number: u8) -> Option<u8> {
    let bucket = Bucket::new(number)?;
    Some(bucket.get())
}

#[test]
fn buckets_are_numbered_from_0_to_63(rt: HostRuntime) {
    assert!(rt; bucket_number(0) == Some(0));
    assert!(rt; bucket_number(63) == Some(63));
    assert!(rt; bucket_number(64) == None);
}

// A page is encoded as these bytes, and decoded from them.
fn is_page(bytes: [u8; 10], dev: u16, no: u64) -> bool {
    let page = page_on(dev, no);
    (page_bytes(page), page_from(&bytes)) == (bytes, page)
}

#[test]
fn pages_have_ten_bytes(rt: HostRuntime) {
    // The bytes of 258:217304205466536202 all differ.
    let apart = [1, 2, 3, 4, 5, 6, 7, 8, 9, 10];
    assert!(rt; is_page(apart, 258, 217304205466536202));
    assert!(rt; is_page([0, 0, 0, 0, 0, 1, 0, 0, 0, 0], 0, 4294967296));
    assert!(rt; is_page([255; 10], 65535, 18446744073709551615));
}

#[test]
fn pages_had_six_bytes(rt: HostRuntime) {
    assert!(rt; page_from_narrow(&[1, 2, 3, 2, 1, 0]) == page_on(258, 50462976));
    assert!(rt; page_from_narrow(&[255; 6]) == page_on(65535, 4294967295));
}

// The stamp of a time and a replica is encoded as these bytes, and decoded from them.
fn is_stamp(bytes: [u8; 10], time: u64, number: u16) -> bool {
    stamp_bytes(stamp(time, number)) == bytes && stamp_from(&bytes) == Ok(stamp(time, number))
}

#[test]
fn stamps_have_ten_bytes(rt: HostRuntime) {
    assert!(rt; stamp_from(&[0; 10]) == Err(BadReplica));
    // The bytes of the time 72623859790382856 are 1 to 8.
    assert!(rt; is_stamp([1, 2, 3, 4, 5, 6, 7, 8, 0, 64], 72623859790382856, 64));
}
