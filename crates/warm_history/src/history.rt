//! Histories, stored as maps from keys: the entries of a bucket lie together.
ghost use Rattle.std.specs.Prelude.{◌≡◌, ◌↔◌, ◌≤◌, [], false, length, OnOk, OnErr, IfOk};
ghost use Rattle.std.specs.Prelude.{IsPermutation, IsTrue, slice_get, take, ◌<◌};
ghost use Rattle.warm_history.specs.ReferenceSets.{ReferenceSet, set_of_list, with_horizon, ◌∪◌};
ghost use Rattle.warm_history.specs.Histories.{entries_of, history_of_entries};
ghost use Rattle.warm_history.specs.Histories.{history_of_entries_at, hist, references_of, history};
ghost use Rattle.warm_history.specs.Histories.{join, StandsFor, TakesIn, IsHistory};
ghost use Rattle.warm_history.specs.Carried.{AreCarried, bucket_entries, later_of_bucket};
ghost use Rattle.warm_history.specs.Losses.{KeepsIn, LosesIn, MarksLosing, bucket_at_horizon};
ghost use Rattle.warm_history.specs.Losses.{raised};
ghost use Rattle.warm_history.specs.Changes.{MarksChanged};
ghost use Rattle.warm_history.specs.Since.{AreCarriedSince, entries_since};

use crate::cut::{CutEntries, listed, losing, none_older};
use crate::maps::merge_iter::{MergedEntries, Source, later_pairs, merged_entries};
use crate::maps::take_in::{raise, take_entries, take_pairs, take_references};
use crate::since::{Portion, portion_since};
use std::alloc::{AllocError, Global};
use std::fmt;
use std::marker::Model;
use warm_maps::{BucketMaps, BucketPairs, EachEntry, Entry, PageHist, entry_of};
use warm_stamps::{Bucket, BucketSet, PageId, Reference};

/// The two latest stamps of every page that was referenced.
///
/// Contracts see a history as its horizon and the list of its entries, in rising page order. Its
/// meaning is defined over references: it *stands for* each set of references whose history it is.
/// No stamp is older than the horizon.
///
/// The entries of a bucket lie together, so an operation on a bucket costs only that bucket's size.
///
/// Calls that add are all or nothing: if an allocation fails, the history is unchanged.
/// `AllocError` also refuses the page by which a bucket would have 2^57 pages of devices below 64,
/// or as many of others: more than fit into any memory.
#[derive(Debug)]
pub struct History {
    alloc: Global,
    horizon: u64,
    maps: BucketMaps,
}

// Written by hand, so that the owner of a history makes this one call on each exit path: a derived
// drop is checked field by field, here down to each of 64 maps.
impl Drop for History {
    fn drop(mut self) {
        let Self {
            alloc: _,
            horizon: _,
            maps,
        } = self;
        drop(maps);
    }
}

impl Model for History {
    ghost use Rattle.warm_history.specs.Histories.{HistoryView, history_of_entries_at, NoneOlder};
    ghost use Rattle.warm_history.specs.maps.KeptPairs.{kept};
    ghost use Rattle.warm_maps.specs.MapPairs.{AreKept};

    ghost Value = { HistoryView };

    ghost view = { λ h. history_of_entries_at h.horizon (kept h.maps) };

    ghost invariant = { λ h. AreKept h.maps × NoneOlder h.horizon (kept h.maps) };
}

impl History {
    /// The history of no references. Allocation-free.
    pub fn new(alloc: Global) -> History
        ensures empty { result ≡ history_of_entries [] }
        ensures stands { StandsFor result (set_of_list []) }
    {
        History {
            alloc,
            horizon: 0,
            maps: BucketMaps::new(alloc),
        }
    }

    /// The time before which stamps are forgotten. Allocation-free.
    pub fn horizon(&self) -> u64
        ensures value { result ≡ self.now.horizon }
        ensures stands { (S : ReferenceSet) → StandsFor self.now S → result ≡ S.horizon }
        ensures whole { IsHistory self.now }
    {
        self.horizon
    }

    /// Forgets all stamps before this time, unless the horizon is already later. Allocation-free.
    ///
    /// If the time is later than the horizon, all entries are scanned once.
    pub fn raise(&mut self, time: u64)
        ensures raised { (S : ReferenceSet) → StandsFor self.old S
            → StandsFor self.new (with_horizon time S) }
        ensures exact { self.new ≡ history (with_horizon time (references_of self.old)) }
    {
        self.horizon = raise(&mut self.maps, self.horizon, time);
    }

    /// The number of pages that have an entry. Allocation-free.
    pub fn len(&self) -> usize
        ensures count { result ≡ length (entries_of self.now) }
        ensures whole { IsHistory self.now }
    {
        self.maps.len()
    }

    /// Whether no page has an entry. Allocation-free.
    pub fn is_empty(&self) -> bool
        ensures { IsTrue result ↔ entries_of self.now ≡ [] }
    {
        self.len() == 0
    }

    /// The entry of index `i` in page order, counted from 0, if there is one. Allocation-free.
    ///
    /// It steps over the `i` entries before it, as [`History::iter`] does: to visit all entries,
    /// use that.
    pub fn at(&self, i: usize) -> Option<Entry>
        ensures { result ≡ slice_get (entries_of self.now) i }
    {
        self.iter().nth(i)
    }

    /// The entries, in rising page order. Allocation-free.
    ///
    /// Starting costs a look-up in each of the 64 buckets, and each entry then costs six page
    /// compares and a step within its bucket: if the order doesn't matter, [`History::unordered`]
    /// is faster.
    pub fn iter(&self) -> Entries<'_>
        ensures { result ≡ entries_of self.now }
    {
        Entries {
            left: merged_entries(&self.maps),
        }
    }

    /// The entries of a bucket, in rising page order. Allocation-free.
    ///
    /// Starting costs a look-up, and each entry a step: entries of other buckets cost nothing.
    pub fn bucket(&self, bucket: Bucket) -> BucketEntries<'_>
        ensures { result ≡ bucket_entries bucket (entries_of self.now) }
    {
        self.later(bucket, None)
    }

    /// The entries of a bucket after a cut at a horizon, in rising page order: the entries that
    /// [`History::bucket`] would give of the history raised to it. At a horizon that is not greater
    /// than the history's own, these are all entries of the bucket. Allocation-free.
    ///
    /// Starting costs a look-up, and each entry of the bucket a step: older stamps are skipped as
    /// they are read.
    pub fn bucket_at_horizon(&self, bucket: Bucket, horizon: u64) -> CutEntries<'_>
        ensures { result ≡ bucket_at_horizon horizon bucket self.now }
    {
        CutEntries::new(self.bucket(bucket), self.horizon.max(horizon))
    }

    /// The entries that [`History::bucket_at_horizon`] gives, as a list.
    ///
    /// It costs a step for each entry of the bucket. `AllocError` occurs if their allocation fails:
    /// room for all entries of the bucket is allocated at once.
    pub fn list_at_horizon(&self, bucket: Bucket, horizon: u64) -> Result<Vec<Entry>, AllocError>
        ensures { IfOk result (λ es. es.items ≡ bucket_at_horizon horizon bucket self.now) }
    {
        let count = self.maps.count_in(bucket.get());
        listed(self.alloc, count, self.bucket_at_horizon(bucket, horizon))
    }

    /// Whether the entries of a bucket would change at a horizon: one of them has an older stamp.
    /// Allocation-free.
    ///
    /// It costs nothing if the horizon is not greater than the history's own; otherwise it reads
    /// the bucket up to its first older stamp.
    pub fn loses(&self, bucket: Bucket, horizon: u64) -> bool
        ensures loses { IsTrue result → LosesIn horizon bucket self.now }
        ensures keeps { result ≡ false → KeepsIn horizon bucket self.now }
    {
        if horizon <= self.horizon {
            return false;
        }
        !none_older(self.bucket(bucket), horizon)
    }

    /// The buckets whose entries would change at a horizon. Allocation-free.
    ///
    /// It costs what [`History::loses`] costs for each bucket.
    pub fn losing(&self, horizon: u64) -> BucketSet
        ensures lost { MarksLosing horizon self.now result }
        ensures none { result ≡ 0 → entries_of (raised horizon self.now) ≡ entries_of self.now }
    {
        losing(self, horizon)
    }

    /// The entries, in unspecified order: faster than [`History::iter`]. Allocation-free.
    ///
    /// Each of the 64 buckets costs a look-up, and each entry a step.
    pub fn unordered(&self) -> Unordered<'_>
        ensures { IsPermutation (entries_of self.now) result }
    {
        Unordered {
            left: self.maps.each_entry(),
        }
    }

    /// The two latest stamps of a page, if it was referenced. Allocation-free.
    pub fn get(&self, page: PageId) -> Option<PageHist>
        ensures { (S : ReferenceSet) → StandsFor self.now S → result ≡ hist S page }
    {
        self.maps.lookup(page)
    }

    /// Takes in references, in any order; any of them may be known already. Returns the
    /// buckets whose entries changed.
    ///
    /// Time grows with the batch, and with the logarithm of the number of pages. `AllocError`
    /// occurs if the allocation of a new page fails or, in a batch of two references or more, that
    /// of the undo list (the old values of the batch's pages), and changes nothing.
    pub fn absorb(&mut self, batch: &[Reference]) -> Result<BucketSet, AllocError>
        ensures ok { OnOk result (TakesIn self.old (set_of_list batch.now) self.new) }
        ensures exact { OnOk result
            (self.new ≡ history (references_of self.old ∪ set_of_list batch.now)) }
        ensures changed { IfOk result (MarksChanged (entries_of self.old) (entries_of self.new)) }
        ensures none { IfOk result (λ changed. changed ≡ 0 → self.new ≡ self.old) }
        ensures err { OnErr result (self.new ≡ self.old) }
    {
        // Not returned as it comes: the proof takes success and failure apart here.
        let changed = take_references(self.alloc, &mut self.maps, self.horizon, batch)?;
        Ok(changed)
    }

    /// Takes in all entries of the other history, and returns the buckets whose entries changed, as
    /// [`History::absorb`] does.
    ///
    /// If all pages of the other history are of devices below 64, each of its buckets and this
    /// history's are read in one walk. Otherwise each of its pages is looked up in this one.
    /// `AllocError` occurs if the allocation of the undo list (what was known of these pages) or of
    /// a new page fails, and changes nothing.
    pub fn join(&mut self, other: &History) -> Result<BucketSet, AllocError>
        ensures ok { OnOk result (TakesIn self.old (references_of other.now) self.new) }
        ensures exact { OnOk result (self.new ≡ join self.old other.now) }
        ensures changed { IfOk result (MarksChanged (entries_of self.old) (entries_of self.new)) }
        ensures none { IfOk result
            (λ changed. changed ≡ 0 → entries_of self.new ≡ entries_of self.old) }
        ensures err { OnErr result (self.new ≡ self.old) }
    {
        let lost = self.losing(other.horizon);
        let horizon = self.horizon.max(other.horizon);
        let changed = take_pairs(self.alloc, &mut self.maps, horizon, &other.maps)?;
        self.horizon = raise(&mut self.maps, self.horizon, horizon);
        Ok(changed.union(lost))
    }

    /// Takes in these entries, which may be in any order and may repeat a page, and returns the
    /// buckets whose entries changed, as [`History::absorb`] does: buckets that lost a stamp to the
    /// horizon are included.
    ///
    /// The entries are scanned once, and each page is looked up in this history. Four or more
    /// entries of one bucket, with rising pages of devices below 64, are not looked up: they and
    /// the bucket's entries are read in one walk. `AllocError` occurs if the allocation of the undo
    /// list (the old values of these pages), of a list of entries that are new or change, or of a
    /// new page fails, and changes nothing.
    pub fn join_entries(&mut self, horizon: u64, more: &[Entry]) -> Result<BucketSet, AllocError>
        ensures ok { OnOk result
            (TakesIn self.old (references_of (history_of_entries_at horizon more.now)) self.new) }
        ensures exact { OnOk result
            (self.new ≡ join self.old (history_of_entries_at horizon more.now)) }
        ensures changed { IfOk result (MarksChanged (entries_of self.old) (entries_of self.new)) }
        ensures none { IfOk result
            (λ changed. changed ≡ 0 → entries_of self.new ≡ entries_of self.old) }
        ensures err { OnErr result (self.new ≡ self.old) }
    {
        let lost = self.losing(horizon);
        let horizon = self.horizon.max(horizon);
        let changed = take_entries(self.alloc, &mut self.maps, horizon, more)?;
        self.horizon = raise(&mut self.maps, self.horizon, horizon);
        Ok(changed.union(lost))
    }

    /// A second history, equal to this one. `AllocError` occurs if its allocation fails.
    pub fn copy(&self) -> Result<History, AllocError>
        ensures { IfOk result (λ copied. copied ≡ self.now) }
    {
        let maps = self.maps.copy()?;
        Ok(History {
            alloc: self.alloc,
            horizon: self.horizon,
            maps,
        })
    }

    /// The first `limit` entries, in page order, of those in the bucket whose page is greater than
    /// `after`; of all in the bucket, if `after` is `None`. They are a history themselves: their
    /// pages rise, and the stamps of each page fall. The page `after` may be of any bucket.
    ///
    /// It costs a look-up, and a step for each entry that is returned: no other entry is read.
    /// `AllocError` occurs if their allocation fails.
    pub fn entries(
        &self,
        bucket: Bucket,
        after: Option<PageId>,
        limit: usize,
    ) -> Result<Vec<Entry>, AllocError>
        ensures carried { IfOk result (λ es. AreCarried self.now bucket after limit es.items) }
        ensures whole { IfOk result (λ es. IsHistory (history_of_entries es.items)) }
        ensures limited { IfOk result (λ es. length es.items ≤ limit) }
    {
        first_entries(self.alloc, self.later(bucket, after), limit)
    }

    /// The first `limit` entries, in page order, of those in the bucket whose page is greater than
    /// `after`, and whose latest stamp is not before the time `since`; of all such in the bucket,
    /// if `after` is `None`. The portion also says whether more of these follow: then they are the
    /// entries since this time after the page of the portion's last entry. The entries are a
    /// history themselves, each with its second latest stamp, even if that is before `since`.
    ///
    /// Whoever has all references from before a time, and takes in what every bucket has since
    /// then, has all: see [`crate::laws::since_brings_all`]. So a replica that publishes its
    /// history again and again, with nobody to answer, sends of each bucket what is new.
    ///
    /// It costs a look-up, and a step for each entry of the bucket from there on, up to the first
    /// such entry beyond the limit. `AllocError` occurs if their allocation fails.
    pub fn entries_since(
        &self,
        bucket: Bucket,
        since: u64,
        after: Option<PageId>,
        limit: usize,
    ) -> Result<Portion, AllocError>
        ensures first { IfOk result (λ portion. portion.entries.items
            ≡ take limit (entries_since bucket since after (entries_of self.now))) }
        ensures more { IfOk result (λ portion. IsTrue portion.more
            ↔ limit < length (entries_since bucket since after (entries_of self.now))) }
        ensures carried { IfOk result (λ portion.
            AreCarriedSince self.now bucket since after limit portion.entries.items) }
        ensures whole { IfOk result (λ portion.
            IsHistory (history_of_entries portion.entries.items)) }
        ensures limited { IfOk result (λ portion. length portion.entries.items ≤ limit) }
    {
        portion_since(self.alloc, self.later(bucket, after), since, limit)
    }

    // The entries of a bucket whose page is greater than the given one, if one is given.
    fn later(&self, bucket: Bucket, after: Option<PageId>) -> BucketEntries<'_>
        ensures { result ≡ later_of_bucket bucket after (entries_of self.now) }
    {
        BucketEntries {
            left: later_pairs(&self.maps, bucket.get(), after),
        }
    }
}

impl<'a> IntoIterator for &'a History {
    ghost use Rattle.std.specs.Prelude.{◌≡◌};
    ghost use Rattle.warm_history.specs.Histories.{entries_of};

    type Item = Entry;

    type IntoIter = Entries<'a>;

    ghost into_iter_gives = { λ history entries. entries ≡ entries_of history.now };

    fn into_iter(self) -> Entries<'a> {
        self.iter()
    }
}

/// Iterates over the entries of a history in rising page order: its buckets are merged.
///
/// Contracts see it as the list of the entries that are left.
#[derive(Drop)]
pub struct Entries<'a> {
    left: MergedEntries<'a>,
}

// It shows only the name: the iterators of all buckets would say little to a reader.
impl fmt::Debug for Entries<'_> {
    fn fmt<W: fmt::Write>(&self, f: &mut fmt::Formatter<W>) -> fmt::Result {
        f.write_str("Entries")
    }
}

impl<'a> Model for Entries<'a> {
    ghost use Rattle.std.specs.Prelude.{List};
    ghost use Rattle.warm_maps.specs.declared.hist.Entry.{Entry};
    ghost use Rattle.warm_history.specs.maps.Merges.{all_left};

    ghost Value = { List Entry };

    ghost view = { λ entries. all_left entries.left };
}

impl<'a> Iterator for Entries<'a> {
    ghost use Rattle.std.specs.Iterator.{YieldsFirst, item_count};

    type Item = Entry;

    ghost next_gives = { YieldsFirst (λ entries. entries) };

    ghost remaining = { item_count (λ entries. entries) };

    fn next(&mut self) -> Option<Entry> {
        entry_of(self.left.take_first())
    }
}

/// Iterates over the entries of a bucket in rising page order.
///
/// Contracts see it as the list of the entries that are left.
#[derive(Debug, Drop)]
pub struct BucketEntries<'a> {
    left: BucketPairs<'a>,
}

impl<'a> Model for BucketEntries<'a> {
    ghost use Rattle.std.specs.Prelude.{List};
    ghost use Rattle.warm_maps.specs.declared.hist.Entry.{Entry};
    ghost use Rattle.warm_maps.specs.MapPairs.{as_entries};

    ghost Value = { List Entry };

    ghost view = { λ entries. as_entries entries.left };
}

impl<'a> Iterator for BucketEntries<'a> {
    ghost use Rattle.std.specs.Iterator.{YieldsFirst, item_count};

    type Item = Entry;

    ghost next_gives = { YieldsFirst (λ entries. entries) };

    ghost remaining = { item_count (λ entries. entries) };

    #[inline(always)]
    fn next(&mut self) -> Option<Entry> {
        self.left.next_entry()
    }
}

/// Iterates over the entries of a history in unspecified order.
///
/// Contracts see it as the list of the entries that are left.
#[derive(Debug, Drop)]
pub struct Unordered<'a> {
    left: EachEntry<'a>,
}

impl<'a> Model for Unordered<'a> {
    ghost use Rattle.std.specs.Prelude.{List};
    ghost use Rattle.warm_maps.specs.declared.hist.Entry.{Entry};

    ghost Value = { List Entry };

    ghost view = { λ entries. entries.left };
}

impl<'a> Iterator for Unordered<'a> {
    ghost use Rattle.std.specs.Iterator.{YieldsFirst, item_count};

    type Item = Entry;

    ghost next_gives = { YieldsFirst (λ entries. entries) };

    ghost remaining = { item_count (λ entries. entries) };

    #[inline(always)]
    fn next(&mut self) -> Option<Entry> {
        self.left.next()
    }
}

// The first `limit` of the entries.
fn first_entries(
    alloc: Global,
    entries: BucketEntries<'_>,
    limit: usize,
) -> Result<Vec<Entry>, AllocError>
    ensures { IfOk result (λ es. es.items ≡ take limit entries.entry) }
{
    let BucketEntries { left } = entries;
    warm_maps::first_entries(alloc, left, limit)
}
