//! The digests by which two replicas find the buckets that differ.
ghost use Rattle.std.specs.Prelude.{◌≡◌, length};
ghost use Rattle.std.specs.List.{AllByRecursion, flat_map};
ghost use Rattle.warm_frames.specs.declared.layout.TheConstants.{DIGEST_SIZE};
ghost use Rattle.warm_frames.specs.Digests.{IsDigestTable, digest_at};

use crate::layout::{DIGEST_SIZE, DIGESTS};
use std::marker::Model;
use warm_stamps::Bucket;

/// A digest for each bucket. Contracts see the list of the digests, that of bucket 0 first, each as
/// the list of its bytes. Allocation-free.
#[derive(Debug, Clone, Copy, PartialEq, Eq)]
pub struct DigestTable {
    digests: [[u8; DIGEST_SIZE]; DIGESTS],
}

impl Model for DigestTable {
    ghost use Rattle.std.specs.Prelude.{ℕ, List};
    ghost use Rattle.warm_frames.specs.Digests.{IsDigestTable};

    ghost Value = { List (List ℕ) };

    ghost view = { λ table. table.digests };

    ghost invariant = { λ table. IsDigestTable table.digests };

    ghost inverse = { λ digests. record { digests = digests } };
}

impl DigestTable {
    /// The table of these digests, that of bucket 0 first.
    pub fn of(digests: [[u8; DIGEST_SIZE]; DIGESTS]) -> DigestTable
        ensures { result ≡ digests }
    {
        are_digests(&digests);
        DigestTable { digests }
    }

    /// The digest of the bucket.
    pub fn digest(&self, bucket: Bucket) -> [u8; DIGEST_SIZE]
        ensures { result ≡ digest_at self.now bucket }
    {
        self.digests[usize::from(bucket.get())]
    }

    // The digests, one after the other.
    pub(crate) fn as_bytes(&self) -> &[u8]
        ensures value { result.now ≡ flat_map (λ digest. digest) self.now }
        ensures table { IsDigestTable self.now }
    {
        self.digests.as_flattened()
    }
}

// What the type of digests implies of them. It does nothing at run time.
fn are_digests(digests: &[[u8; DIGEST_SIZE]])
    ensures { AllByRecursion (λ digest. length digest ≡ DIGEST_SIZE) digests.now }
{}
