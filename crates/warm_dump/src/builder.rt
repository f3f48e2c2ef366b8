//! A history that takes in entries message by message.
ghost use Rattle.std.specs.Prelude.{◌≡◌, ◌↔◌, [], IfErr, IfOk, IsTrue, OnErr, OnOk};
ghost use Rattle.warm_frames.specs.declared.fault.FrameFault.TheVariants as frame_faults;
ghost use Rattle.warm_history.specs.Histories.{entries_of, history_of_entries_at, join};
ghost use Rattle.warm_history.specs.Histories.{references_of, StandsFor, TakesIn};
ghost use Rattle.warm_history.specs.Losses.{raised};
ghost use Rattle.warm_history.specs.ReferenceSets.{set_of_list};
ghost use Rattle.warm_digest.specs.BucketDigests.{digests_of};
ghost use Rattle.warm_dump.specs.declared.fault.DumpFault.TheVariants.{Frame};

use crate::fault::DumpFault;
use std::alloc::{AllocError, Global};
use std::marker::Model;
use warm_digest::digests;
use warm_frames::{DigestTable, MAX_ENTRIES};
use warm_history::{Entry, History};
use warm_stamps::bucket_of;

// The number of entries of the history for each entry that may wait.
const SHARE: usize = 8;

// A history, and entries that wait until they are joined to it together. Contracts see the history
// of both.
//
// If the history has no entry of a bucket, entries of it that are joined together become its map at
// once. That is faster than message by message, and takes less memory. So entries wait while one
// message continues where the one before it ended. At most [`MAX_ENTRIES`] wait, or an eighth as
// many as the history has.
#[derive(Drop)]
pub(crate) struct HistoryBuilder {
    history: History,
    waiting: Vec<Entry>,
}

impl Model for HistoryBuilder {
    ghost use Rattle.warm_history.specs.Histories.{HistoryView, history_of_entries_at, join};

    ghost Value = { HistoryView };

    ghost view = { λ g. join g.history (history_of_entries_at g.history.horizon g.waiting.items) };
}

// Joins entries at the horizon of the history.
fn join_all(history: &mut History, waiting: &[Entry]) -> Result<(), AllocError>
    ensures exact { OnOk result
        (history.new ≡ join history.old (history_of_entries_at history.old.horizon waiting.now)) }
    ensures err { OnErr result (history.new ≡ history.old) }
{
    let horizon = history.horizon();
    let _changed = history.join_entries(horizon, waiting)?;
    Ok(())
}

// Whether these are the digests of the history.
fn has_digests(alloc: Global, history: &History, table: &DigestTable) -> Result<bool, DumpFault>
    ensures same { IfOk result (λ same.
        IsTrue same ↔ (table.now ≡ digests_of (entries_of history.now))) }
    ensures stopped { IfErr result (λ why. why ≡ Frame frame_faults.Memory) }
{
    let own = digests(alloc, history)?;
    Ok(own == *table)
}

// Whether these entries are of one bucket. Their pages ascend, so it is enough that the first and
// the last one are.
fn are_of_one_bucket(entries: &[Entry]) -> bool {
    let Some(first) = entries.first() else {
        return false;
    };
    let Some(last) = entries.last() else {
        return false;
    };
    bucket_of(first.page) == bucket_of(last.page)
}

// Whether more entries continue where others ended: in their bucket, and after their pages.
fn continues(entries: &[Entry], more: &[Entry]) -> bool {
    let Some(last) = entries.last() else {
        return true;
    };
    let Some(next) = more.first() else {
        return true;
    };
    bucket_of(last.page) == bucket_of(next.page) && last.page < next.page
}

impl HistoryBuilder {
    // The history of no references.
    pub(crate) fn new(alloc: Global) -> HistoryBuilder
        ensures { StandsFor result (set_of_list []) }
    {
        HistoryBuilder {
            history: History::new(alloc),
            waiting: Vec::new(alloc),
        }
    }

    // Takes in the entries of a message.
    pub(crate) fn take(&mut self, horizon: u64, entries: &[Entry]) -> Result<(), AllocError>
        ensures { OnOk result
            (TakesIn self.old (references_of (history_of_entries_at horizon entries.now))
            self.new) }
    {
        self.make_room(entries)?;
        self.add(horizon, entries)?;
        self.join_unless_useful()
    }

    // Raises the horizon of the history, and returns whether these are its digests.
    pub(crate) fn ends_with(
        &mut self,
        alloc: Global,
        horizon: u64,
        table: &DigestTable,
    ) -> Result<bool, DumpFault>
        ensures raised { IfOk result (λ same. self.new ≡ raised horizon self.old) }
        ensures same { IfOk result (λ same.
            IsTrue same ↔ (table.now ≡ digests_of (entries_of self.new))) }
        ensures stopped { IfErr result (λ why. why ≡ Frame frame_faults.Memory) }
    {
        join_all(&mut self.history, self.waiting.as_slice())?;
        self.waiting.clear();
        self.history.raise(horizon);
        has_digests(alloc, &self.history, table)
    }

    // Returns the history, with all entries joined to it.
    pub(crate) fn into_history(self) -> Result<History, AllocError>
        ensures { IfOk result (λ history. history ≡ self) }
    {
        let HistoryBuilder {
            mut history,
            waiting,
        } = self;
        join_all(&mut history, waiting.as_slice())?;
        Ok(history)
    }

    // Whether more entries may wait beside those that wait.
    fn may_add(&self, entries: &[Entry]) -> bool {
        let most = MAX_ENTRIES.max(self.history.len() / SHARE);
        let room = most.saturating_sub(self.waiting.len());
        entries.len() <= room && continues(self.waiting.as_slice(), entries)
    }

    // Whether it is of use that the entries wait: they are of one bucket, of which the history has
    // no entries.
    fn may_wait(&self) -> bool {
        let Some(first) = self.waiting.first() else {
            return true;
        };
        let mut known = self.history.bucket(bucket_of(first.page));
        are_of_one_bucket(self.waiting.as_slice()) && known.next().is_none()
    }

    // Joins those that wait, if these may not wait beside them.
    fn make_room(&mut self, entries: &[Entry]) -> Result<(), AllocError>
        ensures { self.new ≡ self.old }
    {
        if self.may_add(entries) {
            return Ok(());
        }
        self.join_waiting()
    }

    // Joins those that wait, unless it is of use that they wait.
    fn join_unless_useful(&mut self) -> Result<(), AllocError>
        ensures { self.new ≡ self.old }
    {
        if self.may_wait() {
            return Ok(());
        }
        self.join_waiting()
    }

    // Adds entries to those that wait.
    fn add(&mut self, horizon: u64, entries: &[Entry]) -> Result<(), AllocError>
        ensures { OnOk result
            (self.new ≡ join self.old (history_of_entries_at horizon entries.now)) }
    {
        self.history.raise(horizon);
        self.waiting.extend_from_slice(entries)?;
        Ok(())
    }

    // Joins the entries that wait.
    fn join_waiting(&mut self) -> Result<(), AllocError>
        ensures { self.new ≡ self.old }
    {
        let waiting = self.waiting.as_slice();
        join_all(&mut self.history, waiting)?;
        self.waiting.clear();
        Ok(())
    }
}
