//! Lists of entries that fit in a frame.
ghost use Rattle.std.specs.Prelude.{◌≡◌, ◌↔◌, IfOk, IfErr, IsOk};
ghost use Rattle.std.specs.List.{AllByRecursion};
ghost use Rattle.warm_frames.specs.Entries.{IsHist, IsEntry, FitsInFrame, IsEntryList};

use crate::layout::MAX_ENTRIES;
use std::marker::Model;
use warm_history::laws::prove_stamps_descend;
use warm_history::{Entry, PageHist, is_sorted_by_page};

/// At most [`MAX_ENTRIES`] entries whose pages ascend. Contracts see the list of the entries.
#[derive(Debug, Drop)]
pub struct EntryList {
    entries: Vec<Entry>,
}

impl Model for EntryList {
    ghost use Rattle.std.specs.Prelude.{List};
    ghost use Rattle.warm_history.specs.Entry.{Entry};
    ghost use Rattle.warm_frames.specs.Entries.{IsEntryList};

    ghost Value = { List Entry };

    ghost view = { λ list. list.entries.items };

    ghost invariant = { λ list. IsEntryList list.entries.items };
}

impl EntryList {
    /// The entries as a list that fits in a frame. Allocation-free.
    ///
    /// They are given back if their pages don't ascend, each greater than the one before, or if
    /// there are more than [`MAX_ENTRIES`].
    pub fn of(entries: Vec<Entry>) -> Result<EntryList, Vec<Entry>>
        ensures value { IfOk result (λ list. list ≡ entries.items) }
        ensures back { IfErr result (λ back. back ≡ entries) }
        ensures taken { IsOk result ↔ FitsInFrame entries.items }
    {
        if entries.len() > MAX_ENTRIES || !is_sorted_by_page(&entries) {
            return Err(entries);
        }
        Ok(EntryList::holding(entries))
    }

    /// The entries as a list that fits in a frame, which the caller has proved. Allocation-free,
    /// and tests nothing.
    pub fn holding(entries: Vec<Entry>) -> EntryList
        requires { FitsInFrame entries.items }
        ensures { result ≡ entries.items }
    {
        are_entries(&entries);
        EntryList { entries }
    }

    // A list that was read.
    pub(crate) fn whole(entries: Vec<Entry>) -> EntryList
        requires { IsEntryList entries.items }
        ensures { result ≡ entries.items }
    {
        EntryList { entries }
    }

    /// The entries, in ascending page order. Allocation-free.
    pub fn as_slice(&self) -> &[Entry]
        ensures value { result.now ≡ self.now }
        ensures whole { IsEntryList self.now }
    {
        &self.entries
    }

    /// The entries, in ascending page order. Allocation-free.
    pub fn into_entries(self) -> Vec<Entry>
        ensures value { result.items ≡ self }
        ensures whole { IsEntryList self }
    {
        self.entries
    }
}

// What the types of entries imply of them. It does nothing at run time.
fn are_entries(entries: &[Entry])
    ensures { AllByRecursion IsEntry entries.now }
{
    for entry in entries {
        is_entry(*entry);
    }
}

fn is_entry(entry: Entry)
    ensures { IsEntry entry }
{
    is_hist(entry.hist);
}

fn is_hist(hist: PageHist)
    ensures { IsHist hist }
{
    if let PageHist::Twice(two) = hist {
        prove_stamps_descend(two);
    }
}
