//! Runs: entries of one bucket at rising keys, as a dump has them.
//!
//! A run is merged with the map of its bucket in one walk: a look-up searches the map from its root
//! for each page.
ghost use Rattle.std.specs.Prelude.{◌≡◌, ◌++◌, ◌<◌, IfOk, IfSome, IsTrue, OnErr, OnOk};
ghost use Rattle.warm_maps.specs.BucketMaps.{KeysAscend};
ghost use Rattle.warm_maps.specs.Runs.{AreNear, IsRun, near_pair, near_run, run_pairs};
ghost use Rattle.warm_maps.specs.Walks.{TellsChange, merged};
ghost use Rattle.warm_stamps.specs.declared.TheConstants.{BUCKETS};

use crate::bucket_maps::BucketMaps;
use crate::hist::Entry;
use crate::map_key::{NEAR_DEVICES, first_far_key, first_key, key_of_page, near_key};
use crate::near_key::NearKey;
use crate::packed::{Packed, prove_two_latest};
use std::alloc::{AllocError, Global};
use warm_stamps::{Bucket, bucket_of};

// Fewer entries than this are looked up: to begin a walk costs about two look-ups, and lists.
const SHORTEST: usize = 4;

// Whether the entries are a run of the bucket of this number, all of near devices.
fn is_run(number: u8, entries: &[Entry]) -> bool
    requires { number < BUCKETS }
    ensures { IsTrue result → IsRun number entries.now }
{
    let end = first_far_key(number);
    let mut from = first_key(number);
    for entry in entries {
        let key = key_of_page(entry.page);
        if key < from {
            return false;
        }
        if end <= key {
            return false;
        }
        from = key + 1;
    }
    true
}

/// The bucket of which these entries are a run, if they are one that is worth a walk: four entries
/// or more at rising keys, all of near devices. Allocation-free.
pub fn bucket_of_run(more: &[Entry]) -> Option<Bucket>
    ensures { IfSome result (λ bucket. IsRun bucket more.now) }
{
    if more.len() < SHORTEST {
        return None;
    }
    let first = more.first()?;
    let bucket = bucket_of(first.page);
    if !is_run(bucket.get(), more) {
        return None;
    }
    Some(bucket)
}

/// Takes in a run of a bucket: all stamps that are not older than the horizon. Returns whether that
/// changes the bucket. `AllocError` occurs if an allocation fails, and changes nothing.
pub fn take_run(
    alloc: Global,
    maps: &mut BucketMaps,
    horizon: u64,
    bucket: Bucket,
    run: &[Entry],
) -> Result<bool, AllocError>
    requires rise { KeysAscend maps.old }
    requires run { IsRun bucket run.now }
    ensures ok { OnOk result (maps.new ≡ merged maps.old (run_pairs horizon run.now)) }
    ensures tells { IfOk result
        (λ changed. TellsChange changed (run_pairs horizon run.now) maps.old maps.new) }
    ensures err { OnErr result (maps.new ≡ maps.old) }
{
    let pairs = recent_pairs(alloc, horizon, run)?;
    // Not returned as it comes: the proof takes success and failure apart here.
    let changes = maps.merge(alloc, bucket.get(), &pairs)?;
    Ok(changes)
}

// The near pairs of entries, without the stamps older than the horizon.
fn recent_pairs(
    alloc: Global,
    horizon: u64,
    run: &[Entry],
) -> Result<Vec<(NearKey, Packed)>, AllocError>
    requires { AreNear run.now }
    ensures { IfOk result (λ pairs. pairs.items ≡ near_run horizon run.now) }
{
    let mut pairs = Vec::with_capacity(alloc, run.len())?;
    for entry in run {
        push_recent(&mut pairs, horizon, entry)?;
    }
    Ok(pairs)
}

// Adds the near pair of an entry, if any of its stamps is left.
fn push_recent(
    pairs: &mut Vec<(NearKey, Packed)>,
    horizon: u64,
    entry: &Entry,
) -> Result<(), AllocError>
    requires { entry.now.page.dev < NEAR_DEVICES }
    ensures { OnOk result (pairs.new.items ≡ pairs.old.items ++ near_pair horizon entry.now) }
{
    let Some(recent) = Packed::new(entry.hist).cut_before(horizon) else {
        return Ok(());
    };
    prove_two_latest(&recent);
    pairs.push((near_key(entry.page), recent))?;
    Ok(())
}
