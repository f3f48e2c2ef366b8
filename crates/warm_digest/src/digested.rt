//! A history whose bucket digests are cached.
ghost use Rattle.std.specs.Prelude.{◌≡◌, ◌≤◌, [], IfOk, IsOk, OnOk, OnErr};
ghost use Rattle.warm_history.specs.Changes.{MarksChanged};
ghost use Rattle.warm_history.specs.ReferenceSets.{set_of_list, with_horizon, ◌∪◌};
ghost use Rattle.warm_history.specs.Histories.{entries_of, history, history_of_entries};
ghost use Rattle.warm_history.specs.Histories.{history_of_entries_at, join, references_of};
ghost use Rattle.warm_digest.specs.BucketDigests.{digests_of, digests_at_horizon};
ghost use Rattle.warm_digest.specs.CachedDigests.{MarksChanges, StaysMarked};

use crate::cached::Digests;
use std::alloc::{AllocError, Global};
use std::marker::Model;
use warm_frames::DigestTable;
use warm_history::{Entry, History};
use warm_stamps::{BucketSet, Reference};

/// A history whose bucket digests are cached: a bucket whose entries change is marked, which is
/// allocation-free, and [`DigestedHistory::digests`] recomputes only the digests of the marked
/// buckets.
///
/// Contracts see it as its history and the set of the marked buckets.
#[derive(Debug)]
pub struct DigestedHistory {
    alloc: Global,
    history: History,
    digests: Digests,
    // The buckets of which an entry may have changed since their digest was computed.
    changed: BucketSet,
}

// Written by hand, so that an owner makes one call on each exit path (see `History`).
impl Drop for DigestedHistory {
    fn drop(mut self) {
        let Self {
            alloc: _,
            history,
            digests,
            changed: _,
        } = self;
        drop(history);
        drop(digests);
    }
}

impl Model for DigestedHistory {
    ghost use Rattle.warm_history.specs.Histories.{entries_of};
    ghost use Rattle.warm_digest.specs.CachedDigests.{DigestedView, AreCurrent};

    ghost Value = { DigestedView };

    ghost view = { λ digested. record { history = digested.history; marked = digested.changed } };

    ghost invariant = { λ digested.
        AreCurrent digested.changed (entries_of digested.history) digested.digests };
}

impl DigestedHistory {
    /// An empty history, with its digests. Allocation-free.
    pub fn new(alloc: Global) -> DigestedHistory
        ensures empty { result.history ≡ history_of_entries [] }
        ensures marks { result.marked ≡ 0 }
    {
        DigestedHistory {
            alloc,
            history: History::new(alloc),
            digests: Digests::new(alloc),
            changed: BucketSet::new(),
        }
    }

    /// The history.
    pub fn history(&self) -> &History
        ensures { result.now ≡ self.now.history }
    {
        &self.history
    }

    /// Takes in references, as [`History::absorb`] does: `AllocError` changes nothing. It marks the
    /// buckets whose entries changed, and returns the set of them.
    pub fn absorb(&mut self, batch: &[Reference]) -> Result<BucketSet, AllocError>
        ensures exact { OnOk result
            (self.new.history ≡ history (references_of self.old.history ∪ set_of_list batch.now)) }
        ensures changed { IfOk result
            (MarksChanged (entries_of self.old.history) (entries_of self.new.history)) }
        ensures none { IfOk result
            (λ changed. changed ≡ 0 → self.new.history ≡ self.old.history) }
        ensures marks { OnOk result (MarksChanges self.old self.new) }
        ensures err { OnErr result (self.new ≡ self.old) }
    {
        let changed = self.history.absorb(batch)?;
        self.changed = self.changed.union(changed);
        Ok(changed)
    }

    /// Takes in these entries, as [`History::join_entries`] does: `AllocError` changes nothing. It
    /// marks the buckets whose entries changed, including those that lost a stamp to the horizon,
    /// and returns the set of them.
    pub fn join_entries(&mut self, horizon: u64, more: &[Entry]) -> Result<BucketSet, AllocError>
        ensures exact { OnOk result
            (self.new.history ≡ join self.old.history (history_of_entries_at horizon more.now)) }
        ensures changed { IfOk result
            (MarksChanged (entries_of self.old.history) (entries_of self.new.history)) }
        ensures none { IfOk result (λ changed.
            changed ≡ 0 → entries_of self.new.history ≡ entries_of self.old.history) }
        ensures marks { OnOk result (MarksChanges self.old self.new) }
        ensures err { OnErr result (self.new ≡ self.old) }
    {
        let changed = self.history.join_entries(horizon, more)?;
        self.changed = self.changed.union(changed);
        Ok(changed)
    }

    /// Takes in all entries of another history, as [`History::join`] does: `AllocError` changes
    /// nothing. It marks the buckets whose entries changed, including those that lost a stamp to
    /// the horizon, and returns the set of them.
    pub fn join(&mut self, other: &History) -> Result<BucketSet, AllocError>
        ensures exact { OnOk result (self.new.history ≡ join self.old.history other.now) }
        ensures changed { IfOk result
            (MarksChanged (entries_of self.old.history) (entries_of self.new.history)) }
        ensures none { IfOk result (λ changed.
            changed ≡ 0 → entries_of self.new.history ≡ entries_of self.old.history) }
        ensures marks { OnOk result (MarksChanges self.old self.new) }
        ensures err { OnErr result (self.new ≡ self.old) }
    {
        let changed = self.history.join(other)?;
        self.changed = self.changed.union(changed);
        Ok(changed)
    }

    /// The time before which stamps are forgotten. Allocation-free.
    pub fn horizon(&self) -> u64
        ensures { result ≡ self.now.history.horizon }
    {
        self.history.horizon()
    }

    /// Forgets all stamps before this time, as [`History::raise`] does. It marks the buckets that
    /// lose a stamp, and returns the set of them.
    ///
    /// If the time is later than the horizon, finding them costs one more scan of each bucket, up
    /// to its first older stamp.
    pub fn raise(&mut self, time: u64) -> BucketSet
        ensures exact { self.new.history
            ≡ history (with_horizon time (references_of self.old.history)) }
        ensures changed { MarksChanged (entries_of self.old.history)
            (entries_of self.new.history) result }
        ensures none { result ≡ 0
            → entries_of self.new.history ≡ entries_of self.old.history }
        ensures marks { MarksChanges self.old self.new }
    {
        let lost = self.history.losing(time);
        self.history.raise(time);
        self.changed = self.changed.union(lost);
        lost
    }

    /// Forgets everything. Allocation-free.
    pub fn clear(&mut self)
        ensures empty { self.new.history ≡ history_of_entries [] }
        ensures marks { self.new.marked ≡ 0 }
    {
        self.history = History::new(self.alloc);
        self.digests = Digests::new(self.alloc);
        self.changed = BucketSet::new();
    }

    /// The digests of the buckets. Afterwards no bucket is marked.
    ///
    /// Costs nothing if no bucket is marked, and then never fails; otherwise it costs what
    /// [`Digests::renew`] costs for the marked buckets. `AllocError` occurs only if that allocation
    /// fails; the marks stay, and the next call recomputes the same digests.
    pub fn digests(&mut self) -> Result<DigestTable, AllocError>
        ensures table { IfOk result (λ table. table ≡ digests_of (entries_of self.old.history)) }
        ensures same { self.new.history ≡ self.old.history }
        ensures renewed { OnOk result (self.new.marked ≡ 0) }
        ensures err { OnErr result (self.new ≡ self.old) }
        ensures free { self.old.marked ≡ 0 → IsOk result }
    {
        self.digests.renew(&self.history, self.changed)?;
        self.changed = BucketSet::new();
        Ok(self.digests.table())
    }

    /// The digests that the buckets would have if the history were raised to a horizon: what
    /// [`DigestedHistory::digests`] would return then.
    ///
    /// Nothing is forgotten. If the horizon is not greater than the history's own, it is the same
    /// as [`DigestedHistory::digests`]. Otherwise each bucket is scanned up to its first older
    /// stamp. Only the buckets that have such a stamp, and the marked ones, are hashed: their
    /// entries as they are read, without older stamps. Afterwards a bucket is marked exactly if it
    /// was marked before and has such a stamp: its digest was computed without older stamps, and is
    /// still to be computed with them. `AllocError` occurs only if the allocation of a buffer of
    /// 4,096 bytes and one entry fails; the marks stay, and the next call computes the same
    /// digests.
    pub fn digests_at_horizon(&mut self, horizon: u64) -> Result<DigestTable, AllocError>
        ensures table { IfOk result (λ table. table ≡ digests_at_horizon horizon self.old.history) }
        ensures same { self.new.history ≡ self.old.history }
        ensures marks { OnOk result
            (StaysMarked horizon self.old.history self.old.marked self.new.marked) }
        ensures err { OnErr result (self.new ≡ self.old) }
        ensures free { self.old.marked ≡ 0 → horizon ≤ self.old.history.horizon → IsOk result }
    {
        if horizon <= self.history.horizon() {
            return self.digests();
        }
        let lost = self.history.losing(horizon);
        self.digests
            .renew(&self.history, self.changed.difference(lost))?;
        let table = self.digests.table_at_horizon(&self.history, horizon, lost)?;
        self.changed = self.changed.intersection(lost);
        Ok(table)
    }
}
