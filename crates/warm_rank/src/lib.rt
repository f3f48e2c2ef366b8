//! Ranks: the order in which pages are evicted from a buffer pool, and the pages to load first
//! after a failover.
//!
//! The policy is LRU-2 (O'Neil, O'Neil, Weikum, "The LRU-K Page Replacement Algorithm For Database
//! Disk Buffering", SIGMOD 1993): the page of the greatest backward 2-distance is evicted first.
//! The definitions count that distance over a set of references; the code compares a [`RankKey`]
//! made of the two stamps that a history keeps, and the laws show that the two orders are the same.
//!
//! - [`key_of`] gives the key of a page, [`eviction_order`] compares two pages.
//! - [`Contest`] keeps a key for each slot of a pool and finds the slot of the least key.
//! - [`warm_list`] lists the pages that are evicted last, the hottest first. [`HotPages`] is such a
//!   list that follows a history.
#![tactic(auto)]

ghost use Rattle.std.specs.Prelude.{◌≡◌, Some};
ghost use Rattle.warm_history.specs.ReferenceSets.{ReferenceSet};
ghost use Rattle.warm_history.specs.Histories.{StandsFor};
ghost use Rattle.warm_rank.specs.Keys.{rank_key, ranked_page};
ghost use Rattle.warm_rank.specs.Ranking.{eviction_cmp};

mod current;
mod flat_key;
pub mod laws;
mod slot_keys;
mod slots;
mod warm_up;
mod winners;

pub use current::CurrentKeys;
pub use slots::Contest;
use std::cmp::Ordering;
use warm_history::{History, PageHist};
use warm_stamps::{PageId, Stamp};
pub use warm_up::{HotPages, warm_list};

/// The maximum number of slots of a contest, and so of frames of a pool.
pub const MAX_FRAMES: usize = 65_536;

/// The rank of a page, by its two latest stamps. Of two pages, the one with the lesser key is
/// evicted first.
///
/// The derived order is the eviction order: pages that were never referenced, by page; then pages
/// that were referenced once, by that stamp, then page; then pages that were referenced twice or
/// more, by the second latest stamp, then the latest, then page. [`key_of`] makes the key of a
/// page.
#[derive(Debug, Clone, Copy, PartialEq, Eq, PartialOrd, Ord)]
pub enum RankKey {
    /// A page without a known reference.
    Never {
        page: PageId,
    },
    /// A page with one known reference: its distance is infinite.
    Once {
        last: Stamp,
        page: PageId,
    },
    /// A page with two known references or more: its latest stamp and its second latest.
    Twice {
        prev: Stamp,
        last: Stamp,
        page: PageId,
    },
}

impl RankKey {
    /// The page whose rank this is.
    pub fn page(self) -> PageId
        ensures { result ≡ ranked_page self }
    {
        match self {
            RankKey::Never { page } => page,
            RankKey::Once { last: _, page } => page,
            RankKey::Twice {
                prev: _,
                last: _,
                page,
            } => page,
        }
    }
}

/// The key of a page, from what a history says of it. Allocation-free.
pub fn key_of(page: PageId, hist: Option<PageHist>) -> RankKey
    ensures { result ≡ rank_key page hist }
{
    match hist {
        None => RankKey::Never { page },
        Some(hist) => key_of_referenced(page, hist),
    }
}

fn key_of_referenced(page: PageId, hist: PageHist) -> RankKey
    ensures { result ≡ rank_key page (Some hist) }
{
    match hist {
        PageHist::Once(last) => RankKey::Once { last, page },
        PageHist::Twice(two) => {
            let prev = two.prev();
            let last = two.last();
            RankKey::Twice { prev, last, page }
        }
    }
}

/// Which of two pages is evicted first: `Less` if `page` is, `Greater` if `other` is, `Equal` if
/// they are the same page. Allocation-free.
pub fn eviction_order(history: &History, page: PageId, other: PageId) -> Ordering
    ensures { (S : ReferenceSet) → StandsFor history.now S → result ≡ eviction_cmp S page other }
{
    let key = key_of(page, history.get(page));
    let other_key = key_of(other, history.get(other));
    key.cmp(&other_key)
}
