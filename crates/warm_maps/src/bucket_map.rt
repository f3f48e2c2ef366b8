//! The pages of one bucket: those of near devices in a map of near keys, and the others in a map
//! of full keys, which is nearly always empty.
//!
//! A search compares a near key in half the time of a full one, and a near pair has 32 bytes.
ghost use Rattle.std.specs.Iterator.{YieldsFirst};
ghost use Rattle.std.specs.Prelude.{◌≡◌, ◌+◌, ◌<◌, ◌^◌, [], ◌++◌, length, IfOk, IsTrue, OnErr};
ghost use Rattle.std.specs.Prelude.{◌≤◌, take};
ghost use Rattle.std.specs.Prelude.{OnOk};
ghost use Rattle.std.specs.List.{AllByRecursion};
ghost use Rattle.warm_stamps.specs.Buckets.{page_bucket};
ghost use Rattle.warm_stamps.specs.declared.TheConstants.{BUCKETS};
ghost use Rattle.warm_maps.specs.MapKeys.{key_of_page};
ghost use Rattle.warm_maps.specs.Cuts.{cut_at};
ghost use Rattle.warm_maps.specs.MapPairs.{as_entries};
ghost use Rattle.warm_maps.specs.BucketMaps.{KeysAscend, RecordsStamps, found};
ghost use Rattle.warm_maps.specs.LaterPages.{after_page};
ghost use Rattle.warm_maps.specs.NearPairs.{full, lent_entry, widened, IsMapOf, IsBare};
ghost use Rattle.warm_maps.specs.Undo.{noted, put_back};
ghost use Rattle.warm_maps.specs.Walks.{AreTwoLatest, TellsChange, merged};

use crate::hist::Entry;
use crate::map_key::{NEAR_DEVICES, key_in, key_of_page, near_key, near_page, page_of_key};
use crate::near_key::NearKey;
use crate::packed::Packed;
use crate::page_map::{forget_in, put_back_in, record_in};
use crate::walk::merge_run;
use std::alloc::{AllocError, Global};
use std::collections::BTreeMap;
use std::collections::btree_map::Range;
use std::marker::Model;
use std::ops::Bound;
use warm_stamps::{BUCKETS, PageId};

// Each of the two maps of a bucket has fewer pairs than this, 2^57, so that the count of all pairs
// does not overflow. No memory holds as many.
pub(crate) const MAX_PAIRS: usize = 1 << 57;

/// How a page changes.
#[derive(Debug, Clone, Copy)]
pub enum Change {
    /// Nothing was known of it.
    New,
    /// Something else was known of it.
    Known,
}

/// What was known of a page before that changed.
#[derive(Debug, Clone, Copy)]
pub struct UndoNote {
    /// The page.
    pub page: PageId,
    /// What was known of it, if anything.
    pub hist: Option<Packed>,
}

// The pages of a bucket.
#[derive(Debug, Clone, Drop)]
pub(crate) struct BucketMap {
    pub(crate) near: BTreeMap<NearKey, Packed>,
    far: BTreeMap<u128, Packed>,
}

impl BucketMap {
    // No pages. Allocation-free.
    pub(crate) fn new(alloc: Global) -> BucketMap
        ensures { IsBare result }
    {
        BucketMap {
            near: BTreeMap::new(alloc),
            far: BTreeMap::new(alloc),
        }
    }

    // The number of pages.
    pub(crate) fn len(&self) -> usize
        requires { length self.now.near.entries + length self.now.far.entries < 2 ^ 64 }
        ensures { result ≡ length self.now.near.entries + length self.now.far.entries }
    {
        self.near.len() + self.far.len()
    }

    // Whether all pages are of near devices.
    pub(crate) fn is_near(&self) -> bool
        ensures { IsTrue result → self.now.far.entries ≡ [] }
    {
        self.far.is_empty()
    }

    // What is known of a page of this bucket.
    pub(crate) fn get(&self, page: PageId) -> Option<Packed>
        requires { IsMapOf (page_bucket page) self.now }
        ensures { result ≡ found (key_of_page page) (full (page_bucket page) self.now) }
    {
        if page.dev < NEAR_DEVICES {
            return self.near.get(&near_key(page)).copied();
        }
        self.far.get(&key_of_page(page)).copied()
    }

    // Takes in the given stamps of a page of this bucket, and returns how that changes the page.
    // What was known of it is put in the place of the stamps.
    pub(crate) fn record(
        &mut self,
        page: PageId,
        more: &mut Packed,
        likely_new: bool,
    ) -> Result<Option<Change>, AllocError>
        requires { IsMapOf (page_bucket page) self.old }
        ensures ok { IfOk result (λ change. RecordsStamps (full (page_bucket page) self.old) page
            (key_of_page page) more.old (noted page change more.new)
            (full (page_bucket page) self.new)) }
        ensures err { OnErr result
            (full (page_bucket page) self.new ≡ full (page_bucket page) self.old) }
        ensures map { IsMapOf (page_bucket page) self.new }
    {
        if page.dev < NEAR_DEVICES {
            return record_in(&mut self.near, near_key(page), more, likely_new);
        }
        record_in(&mut self.far, key_of_page(page), more, likely_new)
    }

    // Takes in a run of near pairs of this bucket, whose number this is, and returns whether that
    // changes the pairs. If an allocation fails, it changes nothing.
    pub(crate) fn merge(
        &mut self,
        alloc: Global,
        number: u8,
        run: &[(NearKey, Packed)],
    ) -> Result<bool, AllocError>
        requires map { IsMapOf number self.old }
        requires rise { KeysAscend (full number self.old) }
        requires run { KeysAscend run.now }
        requires near { AllByRecursion (λ e. e.0 < 2 ^ 64) run.now }
        requires latest { AreTwoLatest run.now }
        ensures ok { OnOk result
            (full number self.new ≡ merged (full number self.old) (widened number run.now)) }
        ensures tells { IfOk result (λ changed. TellsChange changed (widened number run.now)
            (full number self.old) (full number self.new)) }
        ensures err { OnErr result (full number self.new ≡ full number self.old) }
        ensures map { IsMapOf number self.new }
    {
        merge_run(alloc, &mut self.near, run)
    }

    // Restores what was known of a page. Allocation-free.
    pub(crate) fn put_back(&mut self, note: UndoNote)
        requires { IsMapOf (page_bucket note.page) self.old }
        ensures back { full (page_bucket note.page) self.new
            ≡ put_back (key_of_page note.page) note.hist (full (page_bucket note.page) self.old) }
        ensures map { IsMapOf (page_bucket note.page) self.new }
    {
        if note.page.dev < NEAR_DEVICES {
            put_back_in(&mut self.near, near_key(note.page), note.hist);
        } else {
            put_back_in(&mut self.far, key_of_page(note.page), note.hist);
        }
    }

    // Forgets the stamps older than the horizon. Allocation-free.
    pub(crate) fn forget(&mut self, horizon: u64)
        ensures near { self.new.near.entries ≡ cut_at horizon self.old.near.entries }
        ensures far { self.new.far.entries ≡ cut_at horizon self.old.far.entries }
    {
        forget_in(&mut self.near, horizon);
        forget_in(&mut self.far, horizon);
    }

    // All pairs of this bucket, whose number this is.
    pub(crate) fn pairs(&self, number: u8) -> BucketPairs<'_>
        requires { number < BUCKETS }
        ensures { result ≡ full number self.now }
    {
        BucketPairs {
            number,
            near: self.near.range(..),
            far: self.far.range(..),
        }
    }

    // The pairs of this bucket, whose number this is, from the pages after the given one on.
    pub(crate) fn pairs_after(&self, number: u8, last: PageId) -> BucketPairs<'_>
        requires number { number < BUCKETS }
        requires map { IsMapOf number self.now }
        ensures { as_entries result ≡ after_page last (as_entries (full number self.now)) }
    {
        if last.dev < NEAR_DEVICES {
            return BucketPairs {
                number,
                near: near_after(&self.near, number, last),
                far: self.far.range(..),
            };
        }
        BucketPairs {
            number,
            near: self.near.range((Bound::Excluded(NearKey::new(u64::MAX)), Bound::Unbounded)),
            far: self
                .far
                .range((Bound::Excluded(key_in(number, last)), Bound::Unbounded)),
        }
    }
}

/// A page, and its history as a map lends it: in 24 bytes; an entry has 56.
#[derive(Clone, Copy)]
pub struct Lent<'a> {
    /// The page.
    pub page: PageId,
    hist: &'a Packed,
}

/// What is lent, as an entry. Allocation-free.
pub fn entry_of(lent: Option<Lent<'_>>) -> Option<Entry>
    ensures { result ≡ lent_entry lent.entry }
{
    let Lent { page, hist } = lent?;
    Some(Entry {
        page,
        hist: hist.get(),
    })
}

/// Iterates over the pairs of a bucket: those of near devices, then the others.
///
/// Contracts see it as the list of the pairs that are left, at full keys.
#[derive(Debug, Drop)]
pub struct BucketPairs<'a> {
    number: u8,
    near: Range<'a, NearKey, Packed>,
    far: Range<'a, u128, Packed>,
}

impl<'a> Model for BucketPairs<'a> {
    ghost use Rattle.std.specs.Prelude.{◌<◌, ◌++◌};
    ghost use Rattle.warm_stamps.specs.declared.TheConstants.{BUCKETS};
    ghost use Rattle.warm_maps.specs.MapPairs.{MapPairs};
    ghost use Rattle.warm_maps.specs.NearPairs.{widened};

    ghost Value = { MapPairs };

    ghost view = { λ pairs. widened pairs.number pairs.near ++ pairs.far };

    ghost invariant = { λ pairs. pairs.number < BUCKETS };
}

impl<'a> BucketPairs<'a> {
    /// Lends the first of the pairs that are left. Allocation-free.
    #[inline(always)]
    pub fn next_lent(&mut self) -> Option<Lent<'a>>
        ensures { YieldsFirst (λ (left : _). as_entries left)
            self.old (lent_entry result) self.new }
    {
        if let Some((key, hist)) = self.near.next() {
            return Some(Lent {
                page: near_page(self.number, *key),
                hist,
            });
        }
        next_far(&mut self.far)
    }

    /// The first of the pairs that are left, as an entry. Allocation-free.
    ///
    /// It is not made from what is lent: a page has padding, and each further move of it would copy
    /// it in pieces.
    #[inline(always)]
    pub fn next_entry(&mut self) -> Option<Entry>
        ensures { YieldsFirst (λ (left : _). as_entries left) self.old result self.new }
    {
        if let Some((near, known)) = self.near.next() {
            return Some(Entry {
                page: near_page(self.number, *near),
                hist: known.get(),
            });
        }
        entry_of(next_far(&mut self.far))
    }
}

// Lends the first of the pairs of other devices. A call of its own: nearly all walks find none.
#[inline(never)]
fn next_far<'a>(far: &mut Range<'a, u128, Packed>) -> Option<Lent<'a>>
    ensures { YieldsFirst (λ (left : _). as_entries left) far.old (lent_entry result) far.new }
{
    let (key, hist) = far.next()?;
    Some(Lent {
        page: page_of_key(*key),
        hist,
    })
}

/// The first `limit` of some pairs, as entries. `AllocError` occurs if their allocation fails.
///
/// They are taken map by map, and each is written into the list at once.
pub fn first_entries(
    alloc: Global,
    pairs: BucketPairs<'_>,
    limit: usize,
) -> Result<Vec<Entry>, AllocError>
    ensures { IfOk result (λ es. es.items ≡ take limit (as_entries pairs.entry)) }
{
    let BucketPairs {
        number,
        mut near,
        mut far,
    } = pairs;
    let mut entries = Vec::new(alloc);
    add_near(&mut entries, number, &mut near, limit)?;
    add_far(&mut entries, &mut far, limit)?;
    Ok(entries)
}

// Adds near pairs of the bucket of this number to a list of entries, until it has `limit`.
fn add_near(
    entries: &mut Vec<Entry>,
    number: u8,
    near: &mut Range<'_, NearKey, Packed>,
    limit: usize,
) -> Result<(), AllocError>
    requires number { number < BUCKETS }
    requires few { length entries.old.items ≤ limit }
    ensures { OnOk result (entries.new.items
        ≡ take limit (entries.old.items ++ as_entries (widened number near.old))) }
{
    while entries.len() < limit {
        let Some((key, hist)) = near.next() else {
            return Ok(());
        };
        entries.push(Entry {
            page: near_page(number, *key),
            hist: hist.get(),
        })?;
    }
    Ok(())
}

// Adds pairs of other devices to a list of entries, until it has `limit`.
fn add_far(
    entries: &mut Vec<Entry>,
    far: &mut Range<'_, u128, Packed>,
    limit: usize,
) -> Result<(), AllocError>
    requires { length entries.old.items ≤ limit }
    ensures { OnOk result (entries.new.items
        ≡ take limit (entries.old.items ++ as_entries far.old)) }
{
    while entries.len() < limit {
        let Some((key, hist)) = far.next() else {
            return Ok(());
        };
        entries.push(Entry {
            page: page_of_key(*key),
            hist: hist.get(),
        })?;
    }
    Ok(())
}

// The near pairs from the pages after the given one on. The last page with the near key of the
// given one may be after it, since its low bits are those of this bucket.
fn near_after(
    map: &BTreeMap<NearKey, Packed>,
    number: u8,
    last: PageId,
) -> Range<'_, NearKey, Packed>
    requires number { number < BUCKETS }
    requires near { last.dev < NEAR_DEVICES }
    requires keys { AllByRecursion (λ e. e.0 < 2 ^ 64) map.now.entries }
    ensures { as_entries (widened number result)
        ≡ after_page last (as_entries (widened number map.now.entries)) }
{
    let key = near_key(last);
    if near_page(number, key).no <= last.no {
        return map.range((Bound::Excluded(key), Bound::Unbounded));
    }
    map.range((Bound::Included(key), Bound::Unbounded))
}
