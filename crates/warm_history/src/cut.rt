//! What a cut at a horizon would leave of a history: the entries of a bucket, whose older stamps
//! are skipped as they are read; and the buckets that it would change. The history is unchanged.
ghost use Rattle.std.specs.Prelude.{◌≡◌, ◌↔◌, IfOk, IsTrue};
ghost use Rattle.std.specs.Iterator.{YieldsFirst};
ghost use Rattle.warm_history.specs.Histories.{IsKept, NoneOlder, entries_of};
ghost use Rattle.warm_history.specs.KeptEntries.{kept_entries, kept_hist};
ghost use Rattle.warm_history.specs.Losses.{MarksLosing, raised};

use crate::history::{BucketEntries, History};
use std::alloc::{AllocError, Global};
use std::marker::Model;
use warm_maps::{Entry, PageHist, Two};
use warm_stamps::{Bucket, BucketSet};

/// Iterates over the entries of a bucket after a cut at a horizon, in rising page order: each entry
/// has only its stamps that are not older than the horizon, and entries without such a stamp are
/// skipped.
///
/// Contracts see it as the list of the entries ahead, after the cut.
#[derive(Debug, Drop)]
pub struct CutEntries<'a> {
    ahead: BucketEntries<'a>,
    horizon: u64,
}

impl<'a> Model for CutEntries<'a> {
    ghost use Rattle.std.specs.Prelude.{List};
    ghost use Rattle.warm_maps.specs.declared.hist.Entry.{Entry};
    ghost use Rattle.warm_history.specs.KeptEntries.{kept_entries};

    ghost Value = { List Entry };

    ghost view = { λ entries. kept_entries entries.horizon entries.ahead };
}

impl<'a> CutEntries<'a> {
    // These entries, cut at the horizon.
    pub(crate) fn new(entries: BucketEntries<'a>, horizon: u64) -> CutEntries<'a>
        ensures { result ≡ kept_entries horizon entries.entry }
    {
        CutEntries {
            ahead: entries,
            horizon,
        }
    }
}

impl<'a> Iterator for CutEntries<'a> {
    ghost use Rattle.std.specs.Iterator.{YieldsFirst, item_count};

    type Item = Entry;

    ghost next_gives = { YieldsFirst (λ entries. entries) };

    ghost remaining = { item_count (λ entries. entries) };

    #[inline(always)]
    fn next(&mut self) -> Option<Entry> {
        next_cut(&mut self.ahead, self.horizon)
    }
}

// The first entry that has a stamp not older than the horizon, after the cut; those before it are
// skipped.
#[inline(always)]
fn next_cut(ahead: &mut BucketEntries<'_>, horizon: u64) -> Option<Entry>
    ensures { YieldsFirst (λ (ahead : _). kept_entries horizon ahead) ahead.old result ahead.new }
{
    loop {
        let entry = ahead.next()?;
        if let Some(hist) = cut_before(entry.hist, horizon) {
            return Some(Entry {
                page: entry.page,
                hist,
            });
        }
    }
}

// These stamps without those older than the horizon, if any is left.
fn cut_before(hist: PageHist, horizon: u64) -> Option<PageHist>
    ensures { result ≡ kept_hist horizon hist }
{
    match hist {
        PageHist::Once(last) => {
            if last.time < horizon {
                return None;
            }
            Some(PageHist::Once(last))
        }
        PageHist::Twice(two) => cut_both(two, horizon),
    }
}

// Both stamps without those older than the horizon, if any is left.
fn cut_both(two: Two, horizon: u64) -> Option<PageHist>
    ensures { result ≡ kept_hist horizon (PageHist.Twice two) }
{
    let last = two.last();
    let prev = two.prev();
    if last.time < horizon {
        return None;
    }
    if prev.time < horizon {
        return Some(PageHist::Once(last));
    }
    Some(PageHist::Twice(two))
}

// These entries as a list; room for `count` of them is allocated first.
pub(crate) fn listed(
    alloc: Global,
    count: usize,
    entries: CutEntries<'_>,
) -> Result<Vec<Entry>, AllocError>
    ensures { IfOk result (λ es. es.items ≡ entries.entry) }
{
    let mut list = Vec::with_capacity(alloc, count)?;
    for entry in entries {
        // Taken apart, since the toolchain has no proof of an entry that is moved whole here.
        let Entry { page, hist } = entry;
        list.push(Entry { page, hist })?;
    }
    Ok(list)
}

// Whether no stamp of these entries is older than the horizon. It reads up to the first that is.
pub(crate) fn none_older(entries: BucketEntries<'_>, horizon: u64) -> bool
    ensures { IsTrue result ↔ NoneOlder horizon entries.entry }
{
    for entry in entries {
        if !none_before(entry.hist, horizon) {
            return false;
        }
    }
    true
}

// Whether none of these stamps is before the horizon: the second latest stamp is the older one.
fn none_before(hist: PageHist, horizon: u64) -> bool
    ensures { IsTrue result ↔ IsKept horizon hist }
{
    match hist {
        PageHist::Once(last) => horizon <= last.time,
        PageHist::Twice(two) => horizon <= two.prev().time,
    }
}

// The buckets whose entries would change at the horizon.
pub(crate) fn losing(history: &History, horizon: u64) -> BucketSet
    ensures lost { MarksLosing horizon history.now result }
    ensures none { result ≡ 0
        → entries_of (raised horizon history.now) ≡ entries_of history.now }
{
    if horizon <= history.horizon() {
        return BucketSet::new();
    }
    let mut buckets = BucketSet::new();
    for bucket in Bucket::all() {
        if history.loses(bucket, horizon) {
            buckets = buckets.with(bucket);
        }
    }
    buckets
}
