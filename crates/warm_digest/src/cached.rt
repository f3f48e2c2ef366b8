//! Cached digests, recomputed only for the buckets that changed.
ghost use Rattle.std.specs.Prelude.{◌≡◌, ◌++◌, ℕ, List, [], length, IfOk, IsOk, OnOk, OnErr};
ghost use Rattle.sha2.specs.Sha256.{sha256};
ghost use Rattle.warm_stamps.specs.declared.TheConstants.{BUCKETS};
ghost use Rattle.warm_history.specs.Histories.{entries_of};
ghost use Rattle.warm_history.specs.Losses.{raised};
ghost use Rattle.warm_frames.specs.Entries.{entry_bytes, entries_bytes};
ghost use Rattle.warm_digest.specs.BucketDigests.{digests_of};
ghost use Rattle.warm_digest.specs.Hashing.{Gathers};
ghost use Rattle.warm_digest.specs.CachedDigests.{HasDigestsOf, SameDigestsOutside};

use sha2::{Digest, Sha256};
use std::alloc::{AllocError, Global};
use std::marker::Model;
use warm_frames::{DIGEST_SIZE, DigestTable, MAX_ENTRY_SIZE, put_entry};
use warm_history::laws::prove_is_history;
use warm_history::{CutEntries, Entry, History};
use warm_stamps::{BUCKETS, Bucket, BucketSet};

// The hasher is given the bytes of entries once they are as many as this, so that it hashes whole
// blocks in place: given one entry at a time, it takes a tenth longer. Twice as many gain less than
// a hundredth.
const HASHED_SIZE: usize = 4_096;

/// The digests of a history's buckets as they were when each was last computed.
///
/// Contracts see the list of the digests, that of bucket 0 first.
#[derive(Debug, Drop)]
pub struct Digests {
    alloc: Global,
    digests: [[u8; DIGEST_SIZE]; BUCKETS as usize],
}

impl Model for Digests {
    ghost use Rattle.std.specs.Prelude.{◌≡◌, ℕ, List, length};
    ghost use Rattle.warm_stamps.specs.declared.TheConstants.{BUCKETS};

    ghost Value = { List (List ℕ) };

    ghost view = { λ digests. digests.digests };

    ghost invariant = { λ digests. length digests.digests ≡ BUCKETS };
}

impl Digests {
    /// The digests of an empty history: each is that of the empty byte string. Allocation-free.
    pub fn new(alloc: Global) -> Digests
        ensures { result ≡ digests_of [] }
    {
        Digests {
            alloc,
            digests: [Sha256::new().finalize(); BUCKETS as usize],
        }
    }

    /// The digests as a frame has them. Allocation-free.
    pub fn table(&self) -> DigestTable
        ensures value { result ≡ self.now }
        ensures count { length self.now ≡ BUCKETS }
    {
        DigestTable::of(self.digests)
    }

    /// Recomputes the digests of these buckets from this history; every other digest is unchanged.
    ///
    /// Costs a scan of the entries of these buckets, and hashing their bytes. For an empty set it
    /// costs nothing and never fails. `AllocError` occurs only if the allocation of a buffer of
    /// 4,096 bytes and one entry fails, and changes nothing.
    pub fn renew(&mut self, history: &History, buckets: BucketSet) -> Result<(), AllocError>
        ensures wanted { OnOk result (HasDigestsOf buckets (entries_of history.now) self.new) }
        ensures others { OnOk result (SameDigestsOutside buckets self.old self.new) }
        ensures err { OnErr result (self.new ≡ self.old) }
        ensures free { buckets ≡ 0 → IsOk result }
    {
        if buckets.is_empty() {
            return Ok(());
        }
        // Nothing is older than the horizon, so digests since time 0 are digests of all entries.
        prove_is_history(history);
        self.digests = renewed(self.alloc, self.digests, history, 0, buckets)?;
        Ok(())
    }

    // These digests, with those of the wanted buckets replaced by what they would be if the history
    // were raised to the horizon. An empty set costs nothing.
    pub(crate) fn table_at_horizon(
        &self,
        history: &History,
        horizon: u64,
        buckets: BucketSet,
    ) -> Result<DigestTable, AllocError>
        ensures wanted { IfOk result
            (HasDigestsOf buckets (entries_of (raised horizon history.now))) }
        ensures others { IfOk result (SameDigestsOutside buckets self.now) }
        ensures count { IfOk result (λ table. length table ≡ BUCKETS) }
        ensures free { buckets ≡ 0 → IsOk result }
    {
        if buckets.is_empty() {
            return Ok(self.table());
        }
        let digests = renewed(self.alloc, self.digests, history, horizon, buckets)?;
        Ok(DigestTable::of(digests))
    }
}

// Appends the bytes of an entry to the text. Once these are many, the hasher takes them all.
fn gather_entry(hasher: &mut Sha256, text: &mut Vec<u8>, entry: &Entry) -> Result<(), AllocError>
    ensures { (bytes : List ℕ) → Gathers hasher.old text.old.items bytes
        → OnOk result (Gathers hasher.new text.new.items (bytes ++ entry_bytes entry.now)) }
{
    put_entry(text, entry)?;
    if text.len() < HASHED_SIZE {
        return Ok(());
    }
    hasher.update(text.as_slice());
    text.clear();
    Ok(())
}

// The digest of entries. The buffer is overwritten. With capacity for `HASHED_SIZE` bytes and the
// bytes of an entry it never grows.
fn digest_of(entries: CutEntries<'_>, buffer: &mut Vec<u8>) -> Result<[u8; DIGEST_SIZE], AllocError>
    ensures { IfOk result (λ digest. digest ≡ sha256 (entries_bytes entries.entry)) }
{
    buffer.clear();
    let mut hasher = Sha256::new();
    for entry in entries {
        gather_entry(&mut hasher, buffer, &entry)?;
    }
    hasher.update(buffer.as_slice());
    Ok(hasher.finalize())
}

// The digests, with those of the wanted buckets recomputed from the history as it would be at the
// horizon: older stamps are skipped as they are read.
fn renewed(
    alloc: Global,
    mut digests: [[u8; DIGEST_SIZE]; BUCKETS as usize],
    history: &History,
    horizon: u64,
    buckets: BucketSet,
) -> Result<[[u8; DIGEST_SIZE]; BUCKETS as usize], AllocError>
    ensures wanted { IfOk result (HasDigestsOf buckets (entries_of (raised horizon history.now))) }
    ensures others { IfOk result (SameDigestsOutside buckets digests) }
{
    let mut buffer = Vec::with_capacity(alloc, HASHED_SIZE + MAX_ENTRY_SIZE)?;
    for bucket in Bucket::all() {
        if buckets.contains(bucket) {
            digests[usize::from(bucket.get())] = digest_of(
                history.bucket_at_horizon(bucket, horizon),
                &mut buffer,
            )?;
        }
    }
    Ok(digests)
}
