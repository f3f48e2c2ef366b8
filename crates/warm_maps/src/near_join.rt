//! The maps of two `BucketMaps`, merged bucket by bucket, each in one walk.
//!
//! A walk only reads, and lists what changes. The new pairs of a bucket are put in before the next
//! bucket is walked. The values that change are written once all buckets have their new pairs: from
//! there on nothing can fail. If an allocation fails, the new pairs are taken out again.
ghost use Rattle.std.specs.Prelude.{◌≡◌, ◌+◌, ◌<◌, ◌≤◌, ◌^◌, bit_or, IfOk, OnErr, OnOk, length};
ghost use Rattle.warm_stamps.specs.declared.TheConstants.{BUCKETS};
ghost use Rattle.warm_maps.specs.BucketMaps.{KeysAscend, found};
ghost use Rattle.warm_maps.specs.Cuts.{cut_at};
ghost use Rattle.warm_maps.specs.MapPairs.{MapPairs};
ghost use Rattle.warm_maps.specs.NearJoins.{AddsLeft, ArePutIn, EachAscends, EachFew, HasChanged};
ghost use Rattle.warm_maps.specs.NearJoins.{joined_maps};
ghost use Rattle.warm_maps.specs.NearPairs.{far_pairs, near_pairs};
ghost use Rattle.warm_maps.specs.Runs.{with_pairs};
ghost use Rattle.warm_maps.specs.Walks.{AreAbsent, AreParts, HoldsFrom, pairs_ahead};

use crate::bucket_map::{BucketMap, MAX_PAIRS};
use crate::near_key::NearKey;
use crate::packed::Packed;
use crate::walk::{
    Ahead, Parts, add_part, ahead_from, find, map_of, put_all_in, take_out, write_all,
};
use std::alloc::{AllocError, Global};
use std::collections::BTreeMap;
use warm_stamps::{BUCKETS, Bucket, BucketSet};

// The pairs that were put into a map.
#[derive(Drop)]
struct PutIn {
    // Whether the map had none before: then they are all that it has, and are not listed.
    was_free: bool,
    fresh: Vec<(NearKey, Packed)>,
}

// Merges each map with the pairs of the other list's map that are not older than the horizon, or
// none if an allocation fails. The first map is that of the bucket of this number.
pub(crate) fn join_maps(
    alloc: Global,
    maps: &mut [BucketMap],
    horizon: u64,
    more: &[BucketMap],
    number: u8,
) -> Result<BucketSet, AllocError>
    requires number { number + length maps.old ≤ BUCKETS }
    requires rise { EachAscends (near_pairs maps.old) }
    requires more { EachAscends (near_pairs more.now) }
    ensures ok { OnOk result (near_pairs maps.new
        ≡ joined_maps horizon (near_pairs maps.old) (near_pairs more.now)) }
    ensures changed { IfOk result
        (HasChanged horizon number (near_pairs maps.old) (near_pairs more.now)) }
    ensures err { OnErr result (near_pairs maps.new ≡ near_pairs maps.old) }
    ensures far { far_pairs maps.new ≡ far_pairs maps.old }
    ensures few { EachFew (near_pairs maps.old) → EachFew (near_pairs maps.new) }
{
    let Some((map, later)) = maps.split_first_mut() else {
        return Ok(BucketSet::new());
    };
    let Some((other, others)) = more.split_first() else {
        return Ok(BucketSet::new());
    };
    let Parts { changed, fresh } = compare_map(alloc, &map.near, horizon, &other.near)?;
    let changes = changed.len() + fresh.len();
    let added = put_in(alloc, &mut map.near, fresh)?;
    match join_maps(alloc, later, horizon, others, number + 1) {
        Ok(rest) => {
            write_all(&mut map.near, &changed);
            Ok(with_bucket(rest, number, changes))
        }
        Err(fault) => {
            undo(alloc, &mut map.near, &added);
            Err(fault)
        }
    }
}

// The buckets with that of this number, if it has changes.
fn with_bucket(buckets: BucketSet, number: u8, changes: usize) -> BucketSet
    requires { number < BUCKETS }
    ensures none { changes ≡ 0 → result ≡ buckets }
    ensures some { 0 < changes → result ≡ bit_or buckets (2 ^ number) }
{
    if changes == 0 {
        return buckets;
    }
    let Some(bucket) = Bucket::new(number) else {
        unreachable!()
    };
    buckets.with(bucket)
}

// What the pairs of another map that are not older than the horizon change in a map. It only reads.
fn compare_map(
    alloc: Global,
    map: &BTreeMap<NearKey, Packed>,
    horizon: u64,
    more: &BTreeMap<NearKey, Packed>,
) -> Result<Parts, AllocError>
    requires rise { KeysAscend map.now.entries }
    requires more { KeysAscend more.now.entries }
    ensures { IfOk result (λ parts. AreParts map.now.entries (cut_at horizon more.now.entries)
        parts.changed.items parts.fresh.items) }
{
    let mut changed = Vec::new(alloc);
    let mut fresh = Vec::with_capacity(alloc, room_for(map, more))?;
    let Some((first, _)) = more.first_key_value() else {
        return Ok(Parts { changed, fresh });
    };
    let mut ahead = ahead_from(map, *first);
    for (key, hist) in more.range(..) {
        let left = hist.cut_before(horizon);
        add_left(map, &mut ahead, &mut changed, &mut fresh, *key, left)?;
    }
    Ok(Parts { changed, fresh })
}

// The room that is taken at once for new pairs: if the map has none, all of the other are new.
fn room_for(map: &BTreeMap<NearKey, Packed>, more: &BTreeMap<NearKey, Packed>) -> usize
    ensures { result ≤ length more.now.entries }
{
    if map.is_empty() {
        return more.len();
    }
    0
}

// Adds what the horizon left of a pair of the other map, if anything.
fn add_left<'a>(
    map: &'a BTreeMap<NearKey, Packed>,
    ahead: &mut Ahead<'a>,
    changed: &mut Vec<(NearKey, Packed)>,
    fresh: &mut Vec<(NearKey, Packed)>,
    key: NearKey,
    left: Option<Packed>,
) -> Result<(), AllocError>
    requires rise { KeysAscend map.now.entries }
    requires from { HoldsFrom key (pairs_ahead ahead.old) map.now.entries }
    ensures from { HoldsFrom key (pairs_ahead ahead.new) map.now.entries }
    ensures adds { OnOk result (AddsLeft left (found key map.now.entries) key
        changed.old.items fresh.old.items changed.new.items fresh.new.items) }
{
    let Some(more) = left else {
        return Ok(());
    };
    let known = find(map, ahead, key);
    // Not returned as it comes: the proof takes success and failure apart here.
    add_part(changed, fresh, key, more, known)?;
    Ok(())
}

// Puts in pairs whose keys are new or, if an allocation fails, none. A map without pairs is made of
// them at once, and all its nodes are full but the last ones. To put in none allocates nothing.
fn put_in(
    alloc: Global,
    map: &mut BTreeMap<NearKey, Packed>,
    fresh: Vec<(NearKey, Packed)>,
) -> Result<PutIn, AllocError>
    requires rise { KeysAscend map.old.entries }
    requires run { KeysAscend fresh.items }
    requires absent { AreAbsent fresh.items map.old.entries }
    ensures ok { OnOk result (map.new.entries ≡ with_pairs map.old.entries fresh.items) }
    ensures put { IfOk result
        (λ put. ArePutIn put.was_free put.fresh.items map.old.entries map.new.entries) }
    ensures err { OnErr result (map.new.entries ≡ map.old.entries) }
    ensures small { length map.old.entries < MAX_PAIRS → length map.new.entries < MAX_PAIRS }
{
    if fresh.is_empty() {
        return Ok(PutIn {
            was_free: false,
            fresh,
        });
    }
    if map.is_empty() {
        let made = map_of(alloc, &fresh)?;
        *map = made;
        return Ok(PutIn {
            was_free: true,
            fresh: Vec::new(alloc),
        });
    }
    put_all_in(map, &fresh)?;
    Ok(PutIn {
        was_free: false,
        fresh,
    })
}

// Takes out what was put in. Allocation-free.
fn undo(alloc: Global, map: &mut BTreeMap<NearKey, Packed>, added: &PutIn)
    requires { KeysAscend map.old.entries }
    ensures { (old : MapPairs) → KeysAscend old
        → ArePutIn added.now.was_free added.now.fresh.items old map.old.entries
        → map.new.entries ≡ old }
{
    if added.was_free {
        *map = BTreeMap::new(alloc);
        return;
    }
    take_out(map, &added.fresh);
}
