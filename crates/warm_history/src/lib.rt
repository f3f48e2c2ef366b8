//! Histories: the two latest stamps of every page, and how they join.
//!
//! A buffer pool that replaces by LRU-2 (O'Neil, O'Neil, Weikum, SIGMOD 1993) needs, of every
//! page, the last two references. A [`History`] keeps these two and drops the rest. What
//! is proved of it is stated over the references themselves, kept in full as a list and read as a
//! set: a history *stands for* a list of references if it is what `specs/Histories.antt` calls
//! their `history`.
//!
//! Histories of several replicas join to the history of all their references, whatever was lost,
//! repeated or reordered on the way: see [`laws`].
#![tactic(auto)]

mod cut;
mod history;
pub mod laws;
mod maps;
mod since;
mod sorted;

pub use cut::CutEntries;
pub use history::{BucketEntries, Entries, History, Unordered};
pub use since::Portion;
pub use sorted::is_sorted_by_page;
pub use warm_maps::{Entry, PageHist, Two, join_hist};
