//! The parts of a batch or of entries, one for each shard.
ghost use Rattle.std.specs.Prelude.{◌≡◌, ◌≢◌, ℕ, ◌<◌, ◌≤◌, ◌^◌, [], IfOk, IfSome, IsTrue, length};
ghost use Rattle.std.specs.Prelude.{slice_index, slice_index_or, sum, take};
ghost use Rattle.std.specs.List.{AllByRecursion};
ghost use Rattle.warm_visits.specs.Parts.{AreShardParts, AreSizes, AreStarts, IsFirstSome};
ghost use Rattle.warm_visits.specs.Parts.{start_of};
ghost use Rattle.warm_visits.specs.ShardNumbers.{IsShardCount, shard_of};

use crate::shard_numbers::shard_of;
use std::alloc::{AllocError, Global};
use std::marker::Model;
use warm_pool::NamesPage;

// Whether all items name pages of this shard.
fn are_of<T: NamesPage>(items: &[T], count: usize, shard: usize) -> bool
    requires { IsShardCount count }
    ensures { IsTrue result → AllByRecursion
        (λ item. shard_of count (T.named item) ≡ shard) items.now }
{
    for item in items {
        if shard_of(count, item.named()) != shard {
            return false;
        }
    }
    true
}

/// The shard whose pages all items name: that of the first item, or shard 0 if there is none. It
/// looks at no item behind the first that names a page of another shard. Allocation-free.
pub fn only_shard<T: NamesPage>(items: &[T], count: usize) -> Option<usize>
    requires { IsShardCount count }
    ensures below { IfSome result (λ shard. shard < count) }
    ensures only { IfSome result (λ shard. AllByRecursion
        (λ item. shard_of count (T.named item) ≡ shard) items.now) }
{
    if count == 1 {
        return Some(0);
    }
    let Some(first) = items.first() else {
        return Some(0);
    };
    let shard = shard_of(count, first.named());
    if !are_of(items, count, shard) {
        return None;
    }
    Some(shard)
}

/// The parts of a batch, or of entries: for each shard the items of its pages, in order. Contracts
/// see a list for each shard.
///
/// All stand in one list, one part behind the other, since a list for each shard would take an
/// allocation for each.
#[derive(Drop)]
pub struct PartList<T> {
    items: Vec<T>,
    // Where the part of each shard ends.
    ends: Vec<usize>,
}

impl<T> Model for PartList<T> {
    ghost use Rattle.std.specs.Prelude.{List, length};
    ghost use Rattle.warm_visits.specs.Parts.{AreEnds, parts_at};

    ghost Value = { List (List T) };

    ghost view = { λ parts. parts_at 0 parts.ends.items parts.items.items };

    ghost invariant = { λ parts. AreEnds 0 parts.ends.items (length parts.items.items) };
}

// Where the part of a shard begins: where the one before it ends.
fn start_of(ends: &Vec<usize>, shard: usize) -> usize
    requires { shard ≤ length ends.now.items }
    ensures { result ≡ start_of ends.now.items shard }
{
    if shard == 0 {
        return 0;
    }
    ends[shard - 1]
}

// The first part from this one on that does not end at this place, or how many there are.
fn first_past(ends: &Vec<usize>, from: usize, start: usize) -> usize
    requires { from ≤ length ends.now.items }
    ensures from { from ≤ result }
    ensures below { result ≤ length ends.now.items }
    ensures passed { (i : ℕ) → from ≤ i → i < result → slice_index ends.now.items i ≡ start }
    ensures there { result < length ends.now.items → slice_index ends.now.items result ≢ start }
{
    let count = ends.len();
    for shard in from..count {
        if ends[shard] != start {
            return shard;
        }
    }
    count
}

impl<T> PartList<T> {
    /// How many parts there are: one for each shard. Allocation-free.
    pub fn count(&self) -> usize
        ensures { result ≡ length self.now }
    {
        self.ends.len()
    }

    /// The part of the shard of this number. Allocation-free.
    pub fn part(&self, shard: usize) -> &[T]
        requires { shard < length self.now }
        ensures { result.now ≡ slice_index_or self.now shard [] }
    {
        let start = start_of(&self.ends, shard);
        let end = self.ends[shard];
        &self.items[start..end]
    }

    /// The first shard from this one on whose part is not empty, or how many there are.
    pub(crate) fn first_some(&self, from: usize) -> usize
        requires { from ≤ length self.now }
        ensures { IsFirstSome self.now from result }
    {
        // Empty parts end where the first of them begins.
        first_past(&self.ends, from, start_of(&self.ends, from))
    }
}

// How many items each shard has.
fn sizes_of<T: NamesPage>(
    alloc: Global,
    items: &[T],
    count: usize,
) -> Result<Vec<usize>, AllocError>
    requires { IsShardCount count }
    ensures { IfOk result (λ sizes.
        AreSizes (λ item. T.named item) count items.now sizes.items) }
{
    let mut sizes = vec![in alloc; 0usize; count]?;
    for item in items {
        let shard = shard_of(count, item.named());
        sizes[shard] += 1;
    }
    Ok(sizes)
}

// Writes in the place of each size the sum of those before it.
fn add_up(sizes: &mut Vec<usize>)
    requires { sum sizes.old.items < 2 ^ 64 }
    ensures size { length sizes.new.items ≡ length sizes.old.items }
    ensures each { (i : ℕ) → i < length sizes.old.items
        → slice_index sizes.new.items i ≡ sum (take i sizes.old.items) }
{
    let mut start = 0;
    for shard in 0..sizes.len() {
        let size = sizes[shard];
        sizes[shard] = start;
        start += size;
    }
}

// Where the part of each shard begins.
fn starts_of<T: NamesPage>(
    alloc: Global,
    items: &[T],
    count: usize,
) -> Result<Vec<usize>, AllocError>
    requires { IsShardCount count }
    ensures { IfOk result (λ starts.
        AreStarts (λ item. T.named item) count items.now starts.items) }
{
    let mut starts = sizes_of(alloc, items, count)?;
    add_up(&mut starts);
    Ok(starts)
}

// Writes each item over a list of their number, at the next place of its shard, which is at first
// where its part begins, and at last where it ends.
fn put_each<T: NamesPage + Copy>(
    items: &[T],
    count: usize,
    mut list: Vec<T>,
    mut next: Vec<usize>,
) -> PartList<T>
    requires valid { IsShardCount count }
    requires room { length list.items ≡ length items.now }
    requires starts { AreStarts (λ item. T.named item) count items.now next.items }
    ensures { AreShardParts (λ item. T.named item) count items.now result }
{
    for item in items {
        let shard = shard_of(count, item.named());
        let place = next[shard];
        list[place] = *item;
        next[shard] = place + 1;
    }
    PartList {
        items: list,
        ends: next,
    }
}

/// The references of a batch, or entries, by the shards of their pages: for each shard its own, in
/// order. The items are read twice, and copied. Two allocations, whatever the count of shards.
///
/// `AllocError` occurs only if an allocation fails.
pub fn parts_of<T: NamesPage + Copy>(
    alloc: Global,
    items: &[T],
    count: usize,
) -> Result<PartList<T>, AllocError>
    requires { IsShardCount count }
    ensures { IfOk result (λ parts.
        AreShardParts (λ item. T.named item) count items.now parts) }
{
    let starts = starts_of(alloc, items, count)?;
    let list = Vec::from_slice(alloc, items)?;
    Ok(put_each(items, count, list, starts))
}
