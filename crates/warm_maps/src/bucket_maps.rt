//! What is known of each page, stored bucket by bucket, so that each look-up searches a small map.
ghost use Rattle.std.specs.Iterator.{YieldsFirst};
ghost use Rattle.std.specs.List.{AllByRecursion};
ghost use Rattle.std.specs.Prelude.{◌≡◌, ◌+◌, ◌<◌, ◌≤◌, ◌^◌, [], ◌++◌, length, map, OnOk, OnErr};
ghost use Rattle.std.specs.Prelude.{IfOk, IsTrue, None};
ghost use Rattle.warm_stamps.specs.declared.TheConstants.{BUCKETS};
ghost use Rattle.warm_maps.specs.MapKeys.{key_of_page};
ghost use Rattle.warm_maps.specs.Cuts.{cut_at};
ghost use Rattle.warm_maps.specs.MapPairs.{as_entries, AreKept};
ghost use Rattle.warm_maps.specs.LaterPages.{later_of_bucket};
ghost use Rattle.warm_maps.specs.BucketMaps.{found, pairs_left, HoldsBucket, KeysAscend};
ghost use Rattle.warm_maps.specs.BucketMaps.{RecordsStamps, SaysNote};
ghost use Rattle.warm_maps.specs.NearJoins.{IsNear, NoFar, TellsBuckets};
ghost use Rattle.warm_maps.specs.NearPairs.{count_of, far_pairs, full, near_pairs, widened};
ghost use Rattle.warm_maps.specs.NearPairs.{IsMapOf};
ghost use Rattle.warm_maps.specs.Undo.{put_back, noted, notes_of, Undoes};
ghost use Rattle.warm_maps.specs.Walks.{AreTwoLatest, TellsChange, merged};

use crate::bucket_map::{BucketMap, BucketPairs, Change, UndoNote};
use crate::hist::{Entry, PageHist};
use crate::near_join::join_maps;
use crate::near_key::NearKey;
use crate::packed::Packed;
use std::alloc::{AllocError, Global};
use std::array;
use std::marker::Model;
use warm_stamps::{BUCKETS, BucketSet, PageId, bucket_of};

// The number of buckets, as the length of an array.
const MAPS: usize = BUCKETS as usize;

/// What is known of each page, stored bucket by bucket.
///
/// Contracts see it as its pairs: the history of each page at the page's key, in the order of the
/// keys.
#[derive(Debug, Drop)]
pub struct BucketMaps {
    maps: [BucketMap; MAPS],
}

impl Model for BucketMaps {
    ghost use Rattle.std.specs.Prelude.{◌≡◌, length};
    ghost use Rattle.warm_stamps.specs.declared.TheConstants.{BUCKETS};
    ghost use Rattle.warm_maps.specs.MapPairs.{MapPairs};
    ghost use Rattle.warm_maps.specs.BucketMaps.{all_pairs};
    ghost use Rattle.warm_maps.specs.NearPairs.{fulls, AreMapsOf};

    ghost Value = { MapPairs };

    ghost view = { λ b. all_pairs (fulls 0 b.maps) };

    ghost invariant = { λ b. (length b.maps ≡ BUCKETS) × AreMapsOf 0 b.maps };
}

impl BucketMaps {
    /// No pages. Allocation-free.
    pub fn new(alloc: Global) -> BucketMaps
        ensures { result ≡ [] }
    {
        BucketMaps {
            maps: array::from_fn(|_| BucketMap::new(alloc)),
        }
    }

    /// The number of pages. Allocation-free.
    pub fn len(&self) -> usize
        ensures { result ≡ length self.now }
    {
        count_all(&self.maps)
    }

    /// Second maps, equal to these. `AllocError` occurs if their allocation fails.
    pub fn copy(&self) -> Result<BucketMaps, AllocError>
        ensures { IfOk result (λ copied. copied ≡ self.now) }
    {
        let maps = self.maps.clone()?;
        Ok(BucketMaps { maps })
    }

    // The pages of the bucket of this number.
    fn map_of(&self, number: u8) -> &BucketMap
        requires { number < BUCKETS }
        ensures holds { HoldsBucket number (full number result.now) self.now }
        ensures map { IsMapOf number result.now }
    {
        &self.maps[number as usize]
    }

    /// The number of pages of the bucket of this number. Allocation-free.
    pub fn count_in(&self, number: u8) -> usize
        requires bucket { number < BUCKETS }
        requires kept { AreKept self.now }
        ensures { result ≡ length (later_of_bucket number None (as_entries self.now)) }
    {
        self.map_of(number).len()
    }

    /// The pages of the bucket of this number that are greater than the given one, if one is given.
    /// Allocation-free.
    pub fn later_pairs(&self, number: u8, after: Option<PageId>) -> BucketPairs<'_>
        requires bucket { number < BUCKETS }
        requires kept { AreKept self.now }
        ensures { as_entries result ≡ later_of_bucket number after (as_entries self.now) }
    {
        let map = self.map_of(number);
        match after {
            None => map.pairs(number),
            Some(last) => map.pairs_after(number, last),
        }
    }

    /// All pages, bucket by bucket. Allocation-free.
    pub fn each_entry(&self) -> EachEntry<'_>
        ensures { result ≡ as_entries self.now }
    {
        let Some((first, rest)) = self.maps.split_first() else {
            unreachable!();
        };
        EachEntry {
            here: first.pairs(0),
            next: 1,
            rest,
        }
    }

    /// What is known of a page. Allocation-free.
    pub fn lookup(&self, page: PageId) -> Option<PageHist>
        ensures { result ≡ found (key_of_page page) self.now }
    {
        let packed = self.get(page)?;
        Some(packed.get())
    }

    // The same, packed.
    fn get(&self, page: PageId) -> Option<Packed>
        ensures { result ≡ found (key_of_page page) self.now }
    {
        self.maps[bucket_of(page).get() as usize].get(page)
    }

    /// Takes in the given stamps of a page, and returns how that changes the page. What was known
    /// of it is put in the place of the stamps. `AllocError` occurs if the page is new and its
    /// allocation fails, and changes no map. The guess whether the page is new changes the time
    /// alone.
    pub fn record(
        &mut self,
        page: PageId,
        more: &mut Packed,
        likely_new: bool,
    ) -> Result<Option<Change>, AllocError>
        requires { AreKept self.old }
        ensures records { IfOk result (λ change. RecordsStamps self.old page (key_of_page page)
            more.old (noted page change more.new) self.new) }
        ensures whole { AreKept self.new }
        ensures undo { IfOk result
            (λ change. Undoes (notes_of (noted page change more.new)) self.new self.old) }
        ensures tells { IfOk result (λ change. SaysNote (noted page change more.new)
            (key_of_page page) self.old self.new) }
        ensures err { OnErr result (self.new ≡ self.old) }
    {
        self.maps[bucket_of(page).get() as usize].record(page, more, likely_new)
    }

    // Takes in a run of near pairs of the bucket of this number, and returns whether that changes
    // the bucket. If an allocation fails, it changes nothing.
    pub(crate) fn merge(
        &mut self,
        alloc: Global,
        number: u8,
        run: &[(NearKey, Packed)],
    ) -> Result<bool, AllocError>
        requires number { number < BUCKETS }
        requires rise { KeysAscend self.old }
        requires run { KeysAscend run.now }
        requires near { AllByRecursion (λ e. e.0 < 2 ^ 64) run.now }
        requires latest { AreTwoLatest run.now }
        ensures ok { OnOk result (self.new ≡ merged self.old (widened number run.now)) }
        ensures tells { IfOk result
            (λ changed. TellsChange changed (widened number run.now) self.old self.new) }
        ensures err { OnErr result (self.new ≡ self.old) }
    {
        self.maps[number as usize].merge(alloc, number, run)
    }

    /// Whether all pages are of near devices: those below 64. Allocation-free.
    pub fn is_near(&self) -> bool
        ensures { IsTrue result → AllByRecursion (λ e. IsNear e.0) self.now }
    {
        are_near(&self.maps)
    }

    /// Takes in all stamps that are not older than the horizon of other maps, whose pages are of
    /// near devices: the maps of a bucket are read in one walk. Returns which buckets that changes.
    /// `AllocError` occurs if an allocation fails, and changes nothing.
    pub fn join(
        &mut self,
        alloc: Global,
        horizon: u64,
        more: &BucketMaps,
    ) -> Result<BucketSet, AllocError>
        requires here { AreKept self.old }
        requires there { AreKept more.now }
        requires near { AllByRecursion (λ e. IsNear e.0) more.now }
        ensures ok { OnOk result (self.new ≡ merged self.old (cut_at horizon more.now)) }
        ensures changed { IfOk result (λ changed. TellsBuckets changed self.old self.new) }
        ensures err { OnErr result (self.new ≡ self.old) }
    {
        join_maps(alloc, &mut self.maps, horizon, &more.maps, 0)
    }

    /// Restores what was known of a page. Allocation-free.
    pub fn put_back(&mut self, note: UndoNote)
        ensures { self.new ≡ put_back (key_of_page note.page) note.hist self.old }
    {
        self.maps[bucket_of(note.page).get() as usize].put_back(note);
    }

    /// Forgets the stamps older than the horizon. Allocation-free.
    pub fn forget(&mut self, horizon: u64)
        ensures { self.new ≡ cut_at horizon self.old }
    {
        forget_all(&mut self.maps, horizon);
    }
}

/// Iterates over all pages, bucket by bucket.
/// It has the pairs left of the current bucket, and the buckets from a number on.
///
/// Contracts see it as the list of the entries that are left.
#[derive(Debug, Drop)]
pub struct EachEntry<'a> {
    here: BucketPairs<'a>,
    next: u8,
    rest: &'a [BucketMap],
}

impl<'a> Model for EachEntry<'a> {
    ghost use Rattle.std.specs.Prelude.{List, ◌+◌, ◌≤◌, length};
    ghost use Rattle.warm_stamps.specs.declared.TheConstants.{BUCKETS};
    ghost use Rattle.warm_maps.specs.declared.hist.Entry.{Entry};
    ghost use Rattle.warm_maps.specs.MapPairs.{as_entries};
    ghost use Rattle.warm_maps.specs.BucketMaps.{pairs_left};

    ghost Value = { List Entry };

    ghost view = { λ left. as_entries (pairs_left left.here left.next left.rest.now) };

    ghost invariant = { λ left. left.next + length left.rest.now ≤ BUCKETS };
}

impl<'a> Iterator for EachEntry<'a> {
    ghost use Rattle.std.specs.Iterator.{YieldsFirst, item_count};

    type Item = Entry;

    ghost next_gives = { YieldsFirst (λ left. left) };

    ghost remaining = { item_count (λ left. left) };

    #[inline(always)]
    fn next(&mut self) -> Option<Entry> {
        next_of_all(&mut self.here, &mut self.next, &mut self.rest)
    }
}

// The first of the entries that are left. Mostly it is of the current bucket.
#[inline(always)]
fn next_of_all<'a>(
    here: &mut BucketPairs<'a>,
    next: &mut u8,
    rest: &mut &'a [BucketMap],
) -> Option<Entry>
    requires { next.old + length rest.old.now ≤ BUCKETS }
    ensures first { YieldsFirst (λ left. left)
        (as_entries (pairs_left here.old next.old rest.old.now)) result
        (as_entries (pairs_left here.new next.new rest.new.now)) }
    ensures inside { next.new + length rest.new.now ≤ BUCKETS }
{
    if let Some(entry) = here.next_entry() {
        return Some(entry);
    }
    next_of_later(here, next, rest)
}

// The same if the current bucket may have none left; empty buckets are skipped.
#[inline(never)]
fn next_of_later<'a>(
    here: &mut BucketPairs<'a>,
    next: &mut u8,
    rest: &mut &'a [BucketMap],
) -> Option<Entry>
    requires { next.old + length rest.old.now ≤ BUCKETS }
    ensures first { YieldsFirst (λ left. left)
        (as_entries (pairs_left here.old next.old rest.old.now)) result
        (as_entries (pairs_left here.new next.new rest.new.now)) }
    ensures inside { next.new + length rest.new.now ≤ BUCKETS }
{
    loop {
        if let Some(entry) = here.next_entry() {
            return Some(entry);
        }
        let (map, later) = rest.split_first()?;
        *here = map.pairs(*next);
        *next += 1;
        *rest = later;
    }
}

// The number of pages, if the count does not overflow.
fn count_all(maps: &[BucketMap]) -> usize
    requires { count_of maps.now < 2 ^ 64 }
    ensures { result ≡ count_of maps.now }
{
    let mut count = 0;
    for map in maps {
        count += map.len();
    }
    count
}

fn are_near(maps: &[BucketMap]) -> bool
    ensures { IsTrue result → NoFar maps.now }
{
    for map in maps {
        if !map.is_near() {
            return false;
        }
    }
    true
}

fn forget_all(maps: &mut [BucketMap], horizon: u64)
    ensures near { near_pairs maps.new ≡ map (cut_at horizon) (near_pairs maps.old) }
    ensures far { far_pairs maps.new ≡ map (cut_at horizon) (far_pairs maps.old) }
{
    for map in maps.iter_mut() {
        map.forget(horizon);
    }
}
