//! What these benches share: drawn numbers, checksums of results, and the names of replicas.
use anyhow::{Result, bail};
use warm_stamps::ReplicaId;

// The next number of a linear congruential generator (Knuth's MMIX).
pub(crate) fn next(drawn: u64) -> u64 {
    drawn
        .wrapping_mul(6_364_136_223_846_793_005)
        .wrapping_add(1_442_695_040_888_963_407)
}

// A checksum with one more item. Checksums are printed, so that results are used, and differ if the
// order differs.
pub(crate) fn added(checksum: u64, item: u64) -> u64 {
    checksum.wrapping_mul(31).wrapping_add(item)
}

pub(crate) fn replica(number: u16) -> Result<ReplicaId> {
    match ReplicaId::new(number) {
        Ok(replica) => Ok(replica),
        Err(_) => bail!("no replica has the number {number}"),
    }
}
