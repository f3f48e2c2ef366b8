//! The entries of a bucket, which are in a map of their own, and those of all buckets, merged in
//! page order.
//!
//! It is a k-way merge as a static tournament: six levels of [`MergeIter`], each of which has the
//! lesser first entry of two below it, so that an entry costs six page compares. Each level is a
//! type of its own, and so its contract speaks of the two below alone.
ghost use Rattle.std.specs.Prelude.{◌≡◌, ◌+◌, ◌≤◌, ◌<◌};
ghost use Rattle.warm_stamps.specs.declared.TheConstants.{BUCKETS};
ghost use Rattle.warm_maps.specs.MapPairs.{as_entries, AreKept};
ghost use Rattle.warm_history.specs.maps.KeptPairs.{kept};
ghost use Rattle.warm_history.specs.Histories.{entries_of};
ghost use Rattle.warm_maps.specs.NearPairs.{lent_entry};
ghost use Rattle.warm_history.specs.maps.Merges.{bucket_iter_left, two_left, four_left, eight_left};
ghost use Rattle.warm_history.specs.maps.Merges.{sixteen_left, thirty_two_left, all_left};
ghost use Rattle.warm_history.specs.maps.Merges.{first_of, rest_of, merge, both_left};
ghost use Rattle.warm_history.specs.maps.Merges.{merge_iter_left};
ghost use Rattle.warm_history.specs.Carried.{later_of_bucket};
ghost use Rattle.warm_history.specs.maps.Merges.{of_buckets, is_later};

use warm_maps::{BucketMaps, BucketPairs, Lent};
use warm_stamps::PageId;

// The pages of the bucket of this number that are greater than the given one, if one is given.
pub(crate) fn later_pairs(maps: &BucketMaps, number: u8, after: Option<PageId>) -> BucketPairs<'_>
    requires bucket { number < BUCKETS }
    requires kept { AreKept maps.now }
    ensures { as_entries result ≡ later_of_bucket number after (kept maps.now) }
{
    maps.later_pairs(number, after)
}

// A source of entries that are taken one by one, and whose first can be looked at.
pub(crate) trait Source<'a>: Drop {
    ghost use Rattle.std.specs.Prelude.{List};
    ghost use Rattle.warm_maps.specs.declared.hist.Entry.{Entry};

    ghost left: { Self → List Entry };

    // The first entry that is left.
    fn first(&self) -> Option<Lent<'a>>
        ensures { lent_entry result ≡ first_of (left self.now) };

    // Takes the first entry that is left.
    fn take_first(&mut self) -> Option<Lent<'a>>
        ensures first { lent_entry result ≡ first_of (left self.old) }
        ensures rest { left self.new ≡ rest_of (left self.old) };
}

// The entries of one bucket.
#[derive(Drop)]
pub(crate) struct BucketIter<'a> {
    first: Option<Lent<'a>>,
    later: BucketPairs<'a>,
}

impl<'a> Source<'a> for BucketIter<'a> {
    ghost use Rattle.warm_history.specs.maps.Merges.{bucket_iter_left};

    ghost left = { bucket_iter_left };

    fn first(&self) -> Option<Lent<'a>> {
        self.first
    }

    fn take_first(&mut self) -> Option<Lent<'a>> {
        let first = self.first?;
        self.first = self.later.next_lent();
        Some(first)
    }
}

// The entries of two sources, merged in page order; each source gives its own in page order.
#[derive(Drop)]
pub(crate) struct MergeIter<'a, I> {
    first: Option<Lent<'a>>,
    // An array, since with two fields the proof obligations would double at each level.
    both: [I; 2],
}

impl<'a, I: Source<'a>> Source<'a> for MergeIter<'a, I> {
    ghost use Rattle.warm_history.specs.maps.Merges.{merge_iter_left};

    ghost left = { merge_iter_left I.left };

    fn first(&self) -> Option<Lent<'a>> {
        self.first
    }

    fn take_first(&mut self) -> Option<Lent<'a>> {
        let first = self.first?;
        self.first = take_smaller(&mut self.both);
        Some(first)
    }
}

// Takes the first entry of the one source, or that of the other if its page is smaller.
#[tactic(auto, using(crate::proofs::maps::MergeIterLemmas::takes_other, crate::proofs::maps::MergeIterLemmas::takes_one))]
fn take_smaller<'a, I: Source<'a>>(both: &mut [I; 2]) -> Option<Lent<'a>>
    ensures first { lent_entry result ≡ first_of (both_left I.left both.old) }
    ensures rest { both_left I.left both.new ≡ rest_of (both_left I.left both.old) }
{
    if is_later(both[0].first(), both[1].first()) {
        return both[1].take_first();
    }
    both[0].take_first()
}

// Whether the first has a greater page than the other, or is not there and the other is.
fn is_later(one: Option<Lent<'_>>, other: Option<Lent<'_>>) -> bool
    ensures { result ≡ is_later (lent_entry one.entry) (lent_entry other.entry) }
{
    let Some(there) = other else {
        return false;
    };
    let Some(here) = one else {
        return true;
    };
    there.page < here.page
}

fn merge_both<'a, I: Source<'a>>(one: I, other: I) -> MergeIter<'a, I>
    ensures { merge_iter_left I.left result ≡ merge (I.left one) (I.left other) }
{
    let mut both = [one, other];
    let first = take_smaller(&mut both);
    MergeIter { first, both }
}

type TwoBuckets<'a> = MergeIter<'a, BucketIter<'a>>;

type Four<'a> = MergeIter<'a, TwoBuckets<'a>>;

type Eight<'a> = MergeIter<'a, Four<'a>>;

type Sixteen<'a> = MergeIter<'a, Eight<'a>>;

type ThirtyTwo<'a> = MergeIter<'a, Sixteen<'a>>;

// The entries of all buckets.
pub(crate) type MergedEntries<'a> = MergeIter<'a, ThirtyTwo<'a>>;

// The entries of the bucket of this number.
fn bucket_iter(maps: &BucketMaps, number: u8) -> BucketIter<'_>
    requires bucket { number < BUCKETS }
    requires kept { AreKept maps.now }
    ensures { bucket_iter_left result ≡ of_buckets number (number + 1) (kept maps.now) }
{
    let mut later = later_pairs(maps, number, None);
    let first = later.next_lent();
    BucketIter { first, later }
}

// The entries of the two buckets from this number on.
fn two(maps: &BucketMaps, number: u8) -> TwoBuckets<'_>
    requires buckets { number + 2 ≤ BUCKETS }
    requires kept { AreKept maps.now }
    ensures { two_left result ≡ of_buckets number (number + 2) (kept maps.now) }
{
    let one = bucket_iter(maps, number);
    let other = bucket_iter(maps, number + 1);
    merge_both(one, other)
}

// The entries of the four buckets from this number on.
fn four(maps: &BucketMaps, number: u8) -> Four<'_>
    requires buckets { number + 4 ≤ BUCKETS }
    requires kept { AreKept maps.now }
    ensures { four_left result ≡ of_buckets number (number + 4) (kept maps.now) }
{
    let one = two(maps, number);
    let other = two(maps, number + 2);
    merge_both(one, other)
}

// The entries of the eight buckets from this number on.
fn eight(maps: &BucketMaps, number: u8) -> Eight<'_>
    requires buckets { number + 8 ≤ BUCKETS }
    requires kept { AreKept maps.now }
    ensures { eight_left result ≡ of_buckets number (number + 8) (kept maps.now) }
{
    let one = four(maps, number);
    let other = four(maps, number + 4);
    merge_both(one, other)
}

// The entries of the sixteen buckets from this number on.
fn sixteen(maps: &BucketMaps, number: u8) -> Sixteen<'_>
    requires buckets { number + 16 ≤ BUCKETS }
    requires kept { AreKept maps.now }
    ensures { sixteen_left result ≡ of_buckets number (number + 16) (kept maps.now) }
{
    let one = eight(maps, number);
    let other = eight(maps, number + 8);
    merge_both(one, other)
}

// The entries of the thirty-two buckets from this number on.
fn thirty_two(maps: &BucketMaps, number: u8) -> ThirtyTwo<'_>
    requires buckets { number + 32 ≤ BUCKETS }
    requires kept { AreKept maps.now }
    ensures { thirty_two_left result ≡ of_buckets number (number + 32) (kept maps.now) }
{
    let one = sixteen(maps, number);
    let other = sixteen(maps, number + 16);
    merge_both(one, other)
}

// The entries of all buckets.
pub(crate) fn merged_entries(maps: &BucketMaps) -> MergedEntries<'_>
    requires { AreKept maps.now }
    ensures { all_left result ≡ kept maps.now }
{
    let one = thirty_two(maps, 0);
    let other = thirty_two(maps, 32);
    merge_both(one, other)
}
