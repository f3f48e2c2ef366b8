//! The history of one page: its latest stamp, or its two latest.
ghost use Rattle.std.specs.Prelude.{◌≡◌, [], ◌∷◌, ◌++◌};
ghost use Rattle.warm_maps.specs.PageHists.{latest_of, hist_stamps};
ghost use Rattle.warm_stamps.specs.Stamps.{stamp_cmp};

use std::cmp::Ordering;
use std::marker::Model;
use warm_stamps::{PageId, Stamp};

/// The two latest stamps of a page. `prev` is older than `last`: an invariant of the type.
#[derive(Debug, Clone, Copy, PartialEq, Eq)]
pub struct Two {
    last: Stamp,
    prev: Stamp,
}

impl Model for Two {
    ghost use Rattle.std.specs.Prelude.{◌≡◌};
    ghost use Rattle.std.specs.declared.cmp.Ordering.TheVariants.{Less};
    ghost use Rattle.warm_stamps.specs.Stamps.{stamp_cmp};
    ghost use Rattle.warm_maps.specs.LatestTwo.{LatestTwo};

    ghost Value = { LatestTwo };

    ghost view = { λ two. record { last = two.last; prev = two.prev } };

    ghost invariant = { λ two. stamp_cmp two.prev two.last ≡ Less };

    ghost inverse = { λ two. record { last = two.last; prev = two.prev } };
}

impl Two {
    /// The latest stamp and the second latest, which must be older.
    pub fn new(last: Stamp, prev: Stamp) -> Two
        requires { stamp_cmp prev last ≡ Ordering.Less }
        ensures { result ≡ record { last = last; prev = prev } }
    {
        Two { last, prev }
    }

    /// The latest stamp.
    pub fn last(self) -> Stamp
        ensures { result ≡ self.last }
    {
        self.last
    }

    /// The second latest stamp.
    pub fn prev(self) -> Stamp
        ensures value { result ≡ self.prev }
        ensures older { stamp_cmp result self.last ≡ Ordering.Less }
    {
        self.prev
    }

    /// The two latest of these stamps and one more, which may be one of them.
    pub fn with(self, stamp: Stamp) -> Two
        ensures { Some (PageHist.Twice result) ≡ latest_of (stamp ∷ self.last ∷ self.prev ∷ []) }
    {
        let last = self.last();
        let prev = self.prev();
        if last < stamp {
            Two::new(stamp, last)
        } else if stamp < last && prev < stamp {
            Two::new(last, stamp)
        } else {
            self
        }
    }
}

/// What is kept of a referenced page: enough for LRU-2 (O'Neil, O'Neil, Weikum, SIGMOD 1993), which
/// ranks pages by their second latest reference.
#[derive(Debug, Clone, Copy, PartialEq, Eq)]
pub enum PageHist {
    /// The page was referenced with only this stamp.
    Once(Stamp),
    /// The page was referenced with two stamps or more, of which these are the latest.
    Twice(Two),
}

/// A page with what is kept of it.
#[derive(Debug, Clone, Copy, PartialEq, Eq)]
pub struct Entry {
    /// The page.
    pub page: PageId,
    /// Its latest stamp, or its two latest.
    pub hist: PageHist,
}

impl PageHist {
    // The two latest of these stamps and one more.
    pub(crate) fn with(self, stamp: Stamp) -> PageHist
        ensures { Some result ≡ latest_of (stamp ∷ hist_stamps self) }
    {
        match self {
            PageHist::Once(last) => match stamp.cmp(&last) {
                Ordering::Less => PageHist::Twice(Two::new(last, stamp)),
                Ordering::Equal => PageHist::Once(last),
                Ordering::Greater => PageHist::Twice(Two::new(stamp, last)),
            },
            PageHist::Twice(two) => PageHist::Twice(two.with(stamp)),
        }
    }

    // The two latest of these stamps and two more.
    #[tactic(auto, using(crate::proofs::LatestLemmas::latest_of_more))]
    fn with_both(self, two: Two) -> PageHist
        ensures { Some result ≡ latest_of (two.last ∷ two.prev ∷ hist_stamps self) }
    {
        self.with(two.prev()).with(two.last())
    }
}

/// The history of a page that two histories contain: the two latest distinct stamps of both
/// together. Allocation-free.
pub fn join_hist(a: PageHist, b: PageHist) -> PageHist
    ensures { Some result ≡ latest_of (hist_stamps a ++ hist_stamps b) }
{
    match a {
        PageHist::Once(last) => b.with(last),
        PageHist::Twice(two) => b.with_both(two),
    }
}
