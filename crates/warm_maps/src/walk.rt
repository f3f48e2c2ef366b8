//! A run and the map of its bucket, merged in one walk: both are in the order of their keys, so
//! they are read in step, and no key is looked up from the map's root.
//!
//! The walk only reads, and lists what changes. New pairs are put in next, and taken out again
//! if an allocation fails; the values that change are written last, which cannot fail.
ghost use Rattle.std.specs.Prelude.{◌≡◌, [], ◌∷◌, ◌<◌, ◌≤◌, ◌++◌, IfOk, IsSome};
ghost use Rattle.std.specs.Prelude.{IsTrue, OnErr, OnOk, Some, length};
ghost use Rattle.std.specs.List.{AllByRecursion};
ghost use Rattle.std.specs.BTreeMap.{IsFromIterResult, insert_entry};
ghost use Rattle.std.specs.Ordering.{nat_cmp};
ghost use Rattle.warm_maps.specs.PageHists.{hist_stamps, latest_of};
ghost use Rattle.warm_maps.specs.BucketMaps.{KeysAscend, found};
ghost use Rattle.warm_maps.specs.MapPairs.{MapPairs};
ghost use Rattle.warm_maps.specs.Runs.{with_pairs};
ghost use Rattle.warm_maps.specs.Walks.{AddsPart, AreAbsent, AreParts, AreThere, AreTwoLatest};
ghost use Rattle.warm_maps.specs.Walks.{HoldsFrom, SameElsewhere, TellsChange, merged, next_left};
ghost use Rattle.warm_maps.specs.Walks.{next_value, pairs_ahead};

use crate::bucket_map::MAX_PAIRS;
use crate::near_key::NearKey;
use crate::packed::{Packed, merge_into, prove_two_latest};
use std::alloc::{AllocError, Global};
use std::collections::BTreeMap;
use std::collections::btree_map::Range;

// A look-up takes about as long as these steps of a walk. Past them the next key is looked up: so a
// run that has few of the keys in its range costs these steps and a look-up for each of its own.
const STEPS: usize = 16;

// The pairs of a map that a walk has ahead: the first, and those after it.
#[derive(Drop)]
pub(crate) struct Ahead<'a> {
    first: Option<(&'a NearKey, &'a Packed)>,
    later: Range<'a, NearKey, Packed>,
}

// What a run changes in a map.
#[derive(Drop)]
pub(crate) struct Parts {
    // The values that change.
    pub(crate) changed: Vec<(NearKey, Packed)>,
    // The pairs whose keys are new.
    pub(crate) fresh: Vec<(NearKey, Packed)>,
}

// Takes in a run of the map's bucket, and returns whether that changes the map. If an allocation
// fails, it changes nothing.
pub(crate) fn merge_run(
    alloc: Global,
    map: &mut BTreeMap<NearKey, Packed>,
    run: &[(NearKey, Packed)],
) -> Result<bool, AllocError>
    requires rise { KeysAscend map.old.entries }
    requires run { KeysAscend run.now }
    requires latest { AreTwoLatest run.now }
    ensures ok { OnOk result (map.new.entries ≡ merged map.old.entries run.now) }
    ensures tells { IfOk result
        (λ changed. TellsChange changed run.now map.old.entries map.new.entries) }
    ensures err { OnErr result (map.new.entries ≡ map.old.entries) }
    ensures small { length map.old.entries < MAX_PAIRS → length map.new.entries < MAX_PAIRS }
{
    if map.is_empty() {
        // Not returned as it comes: the proof takes success and failure apart here.
        let changes = fill(alloc, map, run)?;
        return Ok(changes);
    }
    let Parts { changed, fresh } = compare(alloc, map, run)?;
    let changes = changed.len() + fresh.len();
    if changes == 0 {
        return Ok(false);
    }
    put_all_in(map, &fresh)?;
    write_all(map, &changed);
    Ok(true)
}

// The same for a map without pairs: the run becomes the map at once, and all nodes are full but the
// last ones.
fn fill(
    alloc: Global,
    map: &mut BTreeMap<NearKey, Packed>,
    run: &[(NearKey, Packed)],
) -> Result<bool, AllocError>
    requires free { map.old.entries ≡ [] }
    requires run { KeysAscend run.now }
    requires latest { AreTwoLatest run.now }
    ensures ok { OnOk result (map.new.entries ≡ merged map.old.entries run.now) }
    ensures tells { IfOk result
        (λ changed. TellsChange changed run.now map.old.entries map.new.entries) }
    ensures err { OnErr result (map.new.entries ≡ map.old.entries) }
    ensures small { length map.old.entries < MAX_PAIRS → length map.new.entries < MAX_PAIRS }
{
    if run.is_empty() {
        return Ok(false);
    }
    let made = map_of(alloc, run)?;
    *map = made;
    Ok(true)
}

// The map of pairs at rising keys.
pub(crate) fn map_of(
    alloc: Global,
    pairs: &[(NearKey, Packed)],
) -> Result<BTreeMap<NearKey, Packed>, AllocError>
    requires { KeysAscend pairs.now }
    ensures same { IfOk result (λ map. map.entries ≡ pairs.now) }
    ensures small { IfOk result (λ map. length map.entries < MAX_PAIRS) }
{
    if pairs.len() >= MAX_PAIRS {
        return Err(AllocError);
    }
    let map = collected(alloc, pairs)?;
    Ok(map)
}

fn collected(
    alloc: Global,
    pairs: &[(NearKey, Packed)],
) -> Result<BTreeMap<NearKey, Packed>, AllocError>
    ensures { IfOk result (IsFromIterResult nat_cmp pairs.now) }
{
    pairs.iter().copied().collect(alloc)
}

// The pairs of a map from a key on.
pub(crate) fn ahead_from(map: &BTreeMap<NearKey, Packed>, key: NearKey) -> Ahead<'_>
    requires { KeysAscend map.now.entries }
    ensures holds { HoldsFrom key (pairs_ahead result) map.now.entries }
    ensures on { AllByRecursion (λ e. key ≤ e.0) (pairs_ahead result) }
{
    let mut later = map.range(key..);
    let first = later.next();
    Ahead { first, later }
}

// The value at a key, if the map has one. The walk goes on from the key: keys are asked for in
// rising order.
pub(crate) fn find<'a>(
    map: &'a BTreeMap<NearKey, Packed>,
    ahead: &mut Ahead<'a>,
    key: NearKey,
) -> Option<Packed>
    requires rise { KeysAscend map.now.entries }
    requires from { HoldsFrom key (pairs_ahead ahead.old) map.now.entries }
    ensures value { result ≡ found key map.now.entries }
    ensures from { HoldsFrom key (pairs_ahead ahead.new) map.now.entries }
{
    for _step in 0..STEPS {
        let Some((at, hist)) = ahead.first else {
            return None;
        };
        if key.get() < at.get() {
            return None;
        }
        if key.get() == at.get() {
            return Some(*hist);
        }
        ahead.first = ahead.later.next();
    }
    look_up(map, ahead, key)
}

// The same by a look-up from the map's root. As a part of the walk it would have the room of its
// locals cleared at each step.
#[inline(never)]
fn look_up<'a>(
    map: &'a BTreeMap<NearKey, Packed>,
    ahead: &mut Ahead<'a>,
    key: NearKey,
) -> Option<Packed>
    requires { KeysAscend map.now.entries }
    ensures value { result ≡ found key map.now.entries }
    ensures from { HoldsFrom key (pairs_ahead ahead.new) map.now.entries }
{
    *ahead = ahead_from(map, key);
    let Some((at, hist)) = ahead.first else {
        return None;
    };
    if key.get() == at.get() {
        return Some(*hist);
    }
    None
}

// Adds a pair of a run to the values that change, if it changes the one known at its key, or to the
// pairs that are new. What is known often comes again, so that is seen first.
pub(crate) fn add_part(
    changed: &mut Vec<(NearKey, Packed)>,
    fresh: &mut Vec<(NearKey, Packed)>,
    key: NearKey,
    more: Packed,
    known: Option<Packed>,
) -> Result<(), AllocError>
    ensures { OnOk result (AddsPart known key more
        changed.old.items fresh.old.items changed.new.items fresh.new.items) }
{
    let Some(before) = known else {
        prove_two_latest(&more);
        push_pair(fresh, key, more)?;
        return Ok(());
    };
    if is_known(more, before) {
        return Ok(());
    }
    add_change(changed, key, more, before)?;
    Ok(())
}

// Whether a page's stamps come again.
fn is_known(more: Packed, before: Packed) -> bool
    ensures { IsTrue result → Some before ≡ latest_of (hist_stamps more ++ hist_stamps before) }
{
    more.is_same(before)
}

// Adds the value with more stamps, if they change it. It is a function apart, as `look_up` is.
#[inline(never)]
fn add_change(
    changed: &mut Vec<(NearKey, Packed)>,
    key: NearKey,
    more: Packed,
    before: Packed,
) -> Result<(), AllocError>
    ensures { OnOk result ((fresh : MapPairs)
        → AddsPart (Some before) key more changed.old.items fresh changed.new.items fresh) }
{
    let mut now = before;
    let mut exchanged = more;
    if !merge_into(&mut now, &mut exchanged) {
        return Ok(());
    }
    changed.push((key, now))?;
    Ok(())
}

// Adds a pair at the end. It is no part of the walk, as `look_up` is none.
#[inline(never)]
fn push_pair(
    pairs: &mut Vec<(NearKey, Packed)>,
    key: NearKey,
    hist: Packed,
) -> Result<(), AllocError>
    ensures { OnOk result (pairs.new.items ≡ pairs.old.items ++ (key, hist) ∷ []) }
{
    pairs.push((key, hist))?;
    Ok(())
}

// What a run changes in a map. It only reads.
fn compare(
    alloc: Global,
    map: &BTreeMap<NearKey, Packed>,
    run: &[(NearKey, Packed)],
) -> Result<Parts, AllocError>
    requires rise { KeysAscend map.now.entries }
    requires run { KeysAscend run.now }
    ensures { IfOk result
        (λ parts. AreParts map.now.entries run.now parts.changed.items parts.fresh.items) }
{
    let mut changed = Vec::new(alloc);
    let mut fresh = Vec::new(alloc);
    let Some(first) = run.first() else {
        return Ok(Parts { changed, fresh });
    };
    let mut ahead = ahead_from(map, first.0);
    for pair in run {
        let (key, more) = *pair;
        let known = find(map, &mut ahead, key);
        add_part(&mut changed, &mut fresh, key, more, known)?;
    }
    Ok(Parts { changed, fresh })
}

// Puts in pairs whose keys are new or, if an allocation fails, none.
pub(crate) fn put_all_in(
    map: &mut BTreeMap<NearKey, Packed>,
    fresh: &[(NearKey, Packed)],
) -> Result<(), AllocError>
    requires rise { KeysAscend map.old.entries }
    requires run { KeysAscend fresh.now }
    requires absent { AreAbsent fresh.now map.old.entries }
    ensures ok { OnOk result (map.new.entries ≡ with_pairs map.old.entries fresh.now) }
    ensures err { OnErr result (map.new.entries ≡ map.old.entries) }
    ensures small { length map.old.entries < MAX_PAIRS → length map.new.entries < MAX_PAIRS }
{
    if map.len() + fresh.len() >= MAX_PAIRS {
        return Err(AllocError);
    }
    match insert_each(map, fresh) {
        Ok(()) => Ok(()),
        Err(fault) => {
            take_out(map, fresh);
            Err(fault)
        }
    }
}

// Inserts pairs one by one. If an allocation fails, some may be in.
fn insert_each(
    map: &mut BTreeMap<NearKey, Packed>,
    pairs: &[(NearKey, Packed)],
) -> Result<(), AllocError>
    requires rise { KeysAscend map.old.entries }
    requires run { KeysAscend pairs.now }
    ensures ok { OnOk result (map.new.entries ≡ with_pairs map.old.entries pairs.now) }
    ensures others { SameElsewhere pairs.now map.old.entries map.new.entries }
    ensures rise { KeysAscend map.new.entries }
{
    for pair in pairs {
        let (key, hist) = *pair;
        map.insert(key, hist)?;
    }
    Ok(())
}

// Takes out the values at the keys of these pairs, as far as they are in. Allocation-free.
pub(crate) fn take_out(map: &mut BTreeMap<NearKey, Packed>, pairs: &[(NearKey, Packed)])
    requires { KeysAscend map.old.entries }
    ensures { (old : MapPairs) → KeysAscend old → AreAbsent pairs.now old
        → SameElsewhere pairs.now old map.old.entries → map.new.entries ≡ old }
{
    for pair in pairs {
        let _ = map.remove(&pair.0);
    }
}

// Writes values at keys that are there, in the way that is faster. Allocation-free.
pub(crate) fn write_all(map: &mut BTreeMap<NearKey, Packed>, pairs: &[(NearKey, Packed)])
    requires rise { KeysAscend map.old.entries }
    requires run { KeysAscend pairs.now }
    requires there { AreThere pairs.now map.old.entries }
    ensures entries { map.new.entries ≡ with_pairs map.old.entries pairs.now }
    ensures len { length map.new.entries ≡ length map.old.entries }
{
    if pairs.len() < map.len() / STEPS {
        write_each(map, pairs);
        return;
    }
    write_along(map, pairs);
}

// Writes them in one walk over the map.
fn write_along(map: &mut BTreeMap<NearKey, Packed>, pairs: &[(NearKey, Packed)])
    requires rise { KeysAscend map.old.entries }
    requires run { KeysAscend pairs.now }
    requires there { AreThere pairs.now map.old.entries }
    ensures entries { map.new.entries ≡ with_pairs map.old.entries pairs.now }
    ensures len { length map.new.entries ≡ length map.old.entries }
{
    let mut left = pairs;
    map.retain(move |key, hist| write_next(&mut left, *key, hist));
}

// Writes the first value that is left, if the walk is at its key. The pair of the map stays.
fn write_next(left: &mut &[(NearKey, Packed)], key: NearKey, hist: &mut Packed) -> bool
    ensures stays { IsTrue result }
    ensures hist { hist.new ≡ next_value left.old.now key hist.old }
    ensures left { left.new.now ≡ next_left left.old.now key }
{
    let Some((first, rest)) = left.split_first() else {
        return true;
    };
    if first.0.get() == key.get() {
        *hist = first.1;
        *left = rest;
    }
    true
}

// Looks each of them up.
fn write_each(map: &mut BTreeMap<NearKey, Packed>, pairs: &[(NearKey, Packed)])
    requires rise { KeysAscend map.old.entries }
    requires run { KeysAscend pairs.now }
    requires there { AreThere pairs.now map.old.entries }
    ensures entries { map.new.entries ≡ with_pairs map.old.entries pairs.now }
    ensures len { length map.new.entries ≡ length map.old.entries }
{
    for pair in pairs {
        let (key, hist) = *pair;
        write(map, key, hist);
    }
}

fn write(map: &mut BTreeMap<NearKey, Packed>, key: NearKey, hist: Packed)
    requires { IsSome (found key map.old.entries) }
    ensures entries { map.new.entries ≡ insert_entry nat_cmp map.old.entries key hist }
    ensures len { length map.new.entries ≡ length map.old.entries }
{
    let Some(known) = map.get_mut(&key) else {
        unreachable!()
    };
    *known = hist;
}
