//! Buckets: the classes of pages, and sets of them.
ghost use Rattle.std.specs.Int.{bit_at, bit_not, w64};
ghost use Rattle.std.specs.Iterator.{YieldsFirst};
ghost use Rattle.std.specs.Prelude.{◌≡◌, ◌==◌, ℕ, ◌+◌, ◌-◌, ◌^◌, ◌<◌, ◌↔◌, IfSome, IsSome, bit_and};
ghost use Rattle.std.specs.Prelude.{bit_or};
ghost use Rattle.std.specs.List.{range_with_len};
ghost use Rattle.warm_stamps.specs.Buckets.{IsBucket, page_bucket, buckets_in, buckets_from};

use crate::{BUCKETS, PageId};
use std::marker::Model;

/// One of the [`BUCKETS`] classes of pages.
#[derive(Debug, Clone, Copy, PartialEq, Eq, PartialOrd, Ord)]
pub struct Bucket {
    index: u8,
}

impl Model for Bucket {
    ghost use Rattle.std.specs.Prelude.{ℕ};
    ghost use Rattle.warm_stamps.specs.Buckets.{IsBucket};

    ghost Value = { ℕ };

    ghost view = { λ bucket. bucket.index };

    ghost invariant = { λ bucket. IsBucket bucket.index };

    ghost inverse = { λ index. record { index = index } };
}

impl Bucket {
    /// The bucket of this number. `None` is returned exactly for a number of [`BUCKETS`] or more.
    pub fn new(number: u8) -> Option<Bucket>
        ensures value { IfSome result (λ bucket. bucket ≡ number) }
        ensures taken { IsSome result ↔ IsBucket number }
    {
        if number < BUCKETS {
            Some(Bucket { index: number })
        } else {
            None
        }
    }

    /// All buckets, in rising order.
    pub fn all() -> Buckets
        ensures { result ≡ range_with_len 0 BUCKETS }
    {
        BucketSet::all().iter()
    }

    /// The bucket's number.
    pub fn get(self) -> u8
        ensures value { result ≡ self }
        ensures below { result < BUCKETS }
    {
        self.index
    }
}

/// The bucket of a page: its device's number plus its page number, modulo [`BUCKETS`]. The sum
/// doesn't wrap.
pub fn bucket_of(page: PageId) -> Bucket
    ensures { result ≡ page_bucket page }
{
    let buckets = u64::from(BUCKETS);
    let sum = u64::from(page.dev) % buckets + page.no % buckets;
    Bucket {
        index: (sum % buckets) as u8,
    }
}

/// A set of buckets.
///
/// Contracts see it as a number of 64 bits: bit b, of value 2^b, is 1 if bucket b is in the set.
#[derive(Debug, Clone, Copy, PartialEq, Eq)]
pub struct BucketSet {
    bits: u64,
}

impl Model for BucketSet {
    ghost use Rattle.std.specs.Prelude.{ℕ, ◌<◌, ◌^◌};

    ghost Value = { ℕ };

    ghost view = { λ set. set.bits };

    ghost inverse = { λ bits. record { bits = bits } };
}

impl BucketSet {
    /// The empty set.
    pub fn new() -> BucketSet
        ensures { result ≡ 0 }
    {
        BucketSet { bits: 0 }
    }

    /// The set of all buckets.
    pub fn all() -> BucketSet
        ensures { result ≡ 2 ^ 64 - 1 }
    {
        BucketSet { bits: u64::MAX }
    }

    /// The set that has a bucket if the bit of its number is 1.
    pub fn from_bits(bits: u64) -> BucketSet
        ensures { result ≡ bits }
    {
        BucketSet { bits }
    }

    /// The set as a number: the bit of a bucket's number is 1 if the set has the bucket.
    pub fn bits(self) -> u64
        ensures value { result ≡ self }
        ensures below { result < 2 ^ 64 }
    {
        self.bits
    }

    /// Whether the set has this bucket.
    pub fn contains(self, bucket: Bucket) -> bool
        ensures { result ≡ (bit_at self bucket == 1) }
    {
        (self.bits >> bucket.index) & 1 == 1
    }

    /// The set with this bucket, which it may have already.
    pub fn with(self, bucket: Bucket) -> BucketSet
        ensures { result ≡ bit_or self (2 ^ bucket) }
    {
        BucketSet {
            bits: self.bits | 1 << bucket.index,
        }
    }

    /// The buckets that are in one of the two sets.
    pub fn union(self, other: BucketSet) -> BucketSet
        ensures { result ≡ bit_or self other }
    {
        BucketSet {
            bits: self.bits | other.bits,
        }
    }

    /// The buckets that are in both sets.
    pub fn intersection(self, other: BucketSet) -> BucketSet
        ensures { result ≡ bit_and self other }
    {
        BucketSet {
            bits: self.bits & other.bits,
        }
    }

    /// The buckets of this set that are not in the other.
    pub fn difference(self, other: BucketSet) -> BucketSet
        ensures { result ≡ bit_and self (bit_not w64 other) }
    {
        BucketSet {
            bits: self.bits & !other.bits,
        }
    }

    /// Whether no bucket is in the set.
    pub fn is_empty(self) -> bool
        ensures { result ≡ (self == 0) }
    {
        self.bits == 0
    }

    /// The buckets of the set, in rising order.
    pub fn iter(self) -> Buckets
        ensures { result ≡ buckets_in self }
    {
        Buckets { set: self, next: 0 }
    }
}

/// Iterates over the buckets of a set, in rising order.
///
/// Contracts see it as the list of the buckets that are left.
#[derive(Debug, Clone, Drop)]
pub struct Buckets {
    set: BucketSet,
    next: u8,
}

impl Model for Buckets {
    ghost use Rattle.std.specs.Prelude.{ℕ, List};
    ghost use Rattle.warm_stamps.specs.Buckets.{buckets_from};

    ghost Value = { List ℕ };

    ghost view = { λ buckets. buckets_from buckets.set buckets.next };
}

impl Iterator for Buckets {
    ghost use Rattle.std.specs.Iterator.{YieldsFirst, item_count};

    type Item = Bucket;

    ghost next_gives = { YieldsFirst (λ buckets. buckets) };

    ghost remaining = { item_count (λ buckets. buckets) };

    fn next(&mut self) -> Option<Bucket> {
        next_bucket(self.set, &mut self.next)
    }
}

// The first bucket of the set from this number on; the number becomes that of the bucket after it.
fn next_bucket(set: BucketSet, next: &mut u8) -> Option<Bucket>
    ensures { YieldsFirst (λ (next : ℕ). buckets_from set next) next.old result next.new }
{
    while *next < BUCKETS {
        let bucket = Bucket { index: *next };
        *next += 1;
        if set.contains(bucket) {
            return Some(bucket);
        }
    }
    None
}
