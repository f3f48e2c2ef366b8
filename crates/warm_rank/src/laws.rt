//! The laws of the eviction order. Each is a function without a body, whose contract is the law.
ghost use Rattle.std.specs.Prelude.{◌≡◌};
ghost use Rattle.warm_rank.specs.declared.RankKey.{RankKey};
ghost use Rattle.warm_rank.specs.Keys.{key_cmp};
ghost use Rattle.warm_rank.specs.Laws.{DistanceIsPlacesBack, KeysOrderPages, EvictionIsOrder};
ghost use Rattle.warm_rank.specs.Laws.{LeastKeyIsVictim, TruncationKeepsOrder};
ghost use Rattle.warm_rank.specs.Laws.{SameReferencesRankAlike, VictimIsFarthest};
ghost use Rattle.warm_rank.specs.Relisting.{CandidatesSuffice, TakingInRaises};

use crate::RankKey;

/// The order of `RankKey` in Rust is the order of keys in the other laws.
pub fn ord_is_key_cmp()
    ensures { (j k : RankKey) → ⟦<RankKey as Ord>⟧.cmp j k ≡ key_cmp j k }
{}

/// Over references in the order of their stamps, all of which differ, the distance is the backward
/// 2-distance of LRU-2: the number of places from the end to the second last reference to the page.
pub fn distance_is_places_back()
    ensures { DistanceIsPlacesBack }
{}

/// Keys compare in the eviction order of their pages: of two pages, the one with the lesser key is
/// evicted first.
pub fn keys_order_pages()
    ensures { KeysOrderPages }
{}

/// The eviction order is total on pages that differ.
pub fn eviction_is_order()
    ensures { EvictionIsOrder }
{}

/// The page in the slot of the least key is the victim among the pages in the slots.
pub fn least_key_is_victim()
    ensures { LeastKeyIsVictim }
{}

/// The two stamps of each page that a history keeps rank pages, and list them for a warm-up, as all
/// references do.
pub fn truncation_keeps_order()
    ensures { TruncationKeepsOrder }
{}

/// Sets of the same references rank pages alike and have the same warm-up lists.
pub fn same_references_rank_alike()
    ensures { SameReferencesRankAlike }
{}

/// The victim over what a history holds is a page of greatest backward 2-distance, among those that
/// may be evicted, over all references for which the history stands.
pub fn victim_is_farthest()
    ensures { VictimIsFarthest }
{}

/// References that a set takes in, without a later horizon, raise only pages that they name. No
/// page falls.
pub fn taking_in_raises()
    ensures { TakingInRaises }
{}

/// After a raise, the hottest pages are the hottest of those that were listed and of those that
/// rose.
pub fn candidates_suffice()
    ensures { CandidatesSuffice }
{}
