//! Bucket digests: two replicas whose digests of a bucket are equal need not send each other its
//! entries.
//!
//! The digest of a bucket is the SHA-256 digest (FIPS 180-4) of its entries as they are in a gossip
//! frame, one after the other in page order, without a count. A [`DigestedHistory`] caches its
//! digests, so that asking for them again costs only what changed.
#![tactic(auto)]

ghost use Rattle.std.specs.Prelude.{◌≡◌, IfOk};
ghost use Rattle.warm_history.specs.Histories.{entries_of};
ghost use Rattle.warm_digest.specs.BucketDigests.{digests_of, MarksDiffering};

mod cached;
mod digested;
pub mod laws;

pub use cached::Digests;
pub use digested::DigestedHistory;

/// The specification's name for [`digests`].
pub use crate::digests as sums;

/// The specification's name for [`Digests`].
pub use cached::Digests as Sums;
use std::alloc::{AllocError, Global};
use warm_frames::DigestTable;
use warm_history::History;
use warm_stamps::{Bucket, BucketSet};

/// The digests of a history's buckets, all recomputed. It scans the history once, bucket by bucket.
///
/// `AllocError` occurs only if the allocation of a buffer of 4,096 bytes and one entry fails.
pub fn digests(alloc: Global, history: &History) -> Result<DigestTable, AllocError>
    ensures { IfOk result (λ table. table ≡ digests_of (entries_of history.now)) }
{
    let mut digests = Digests::new(alloc);
    digests.renew(history, BucketSet::all())?;
    Ok(digests.table())
}

/// The buckets whose digests differ between two tables. Allocation-free.
pub fn differing(left: &DigestTable, right: &DigestTable) -> BucketSet
    ensures { MarksDiffering result left.now right.now }
{
    let mut buckets = BucketSet::new();
    for bucket in Bucket::all() {
        if left.digest(bucket) != right.digest(bucket) {
            buckets = buckets.with(bucket);
        }
    }
    buckets
}
