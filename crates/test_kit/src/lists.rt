//! References and histories, made from short lists of numbers.

use crate::values::{bucket, page_on, seen};
use std::alloc::{AllocError, Global};
use warm_history::History;
use warm_stamps::{BUCKETS, Reference};

/// A reference in plain numbers: the page's device and its number there, a time, and a replica.
pub type SeenAt = (u16, u64, u64, u16);

/// The references of a list, in its order.
///
/// # Errors
/// If their allocation fails.
pub fn references(alloc: Global, given: &[SeenAt]) -> Result<Vec<Reference>, AllocError> {
    let mut batch = Vec::with_capacity(alloc, given.len())?;
    for (dev, no, time, number) in given {
        batch.push(seen(page_on(*dev, *no), *time, *number))?;
    }
    Ok(batch)
}

/// The history of the references of a list, which are absorbed as one batch.
///
/// # Errors
/// If its allocation fails.
pub fn history_of(alloc: Global, given: &[SeenAt]) -> Result<History, AllocError> {
    let batch = references(alloc, given)?;
    let mut history = History::new(alloc);
    history.absorb(&batch)?;
    Ok(history)
}

/// References by replica 1, at one time, to pages of device 0: `first`, and then each of a number
/// that is greater by `spread`.
///
/// # Errors
/// If their allocation fails.
pub fn spread_references(
    alloc: Global,
    first: u64,
    spread: u64,
    count: u64,
    time: u64,
) -> Result<Vec<Reference>, AllocError> {
    let mut batch = Vec::new(alloc);
    for place in 0..count {
        let no = first.wrapping_add(place.wrapping_mul(spread));
        batch.push(seen(page_on(0, no), time, 1))?;
    }
    Ok(batch)
}

/// References by replica 1, at one time, to the pages of device 0 from `first` up to but not
/// including `end`.
///
/// # Errors
/// If their allocation fails.
pub fn references_to(
    alloc: Global,
    first: u64,
    end: u64,
    time: u64,
) -> Result<Vec<Reference>, AllocError> {
    spread_references(alloc, first, 1, end.saturating_sub(first), time)
}

/// The history of [`references_to`] these pages.
///
/// # Errors
/// If its allocation fails.
pub fn history_of_pages(
    alloc: Global,
    first: u64,
    end: u64,
    time: u64,
) -> Result<History, AllocError> {
    let batch = references_to(alloc, first, end, time)?;
    let mut history = History::new(alloc);
    history.absorb(&batch)?;
    Ok(history)
}

/// Whether two histories have one horizon and the same entries.
pub fn are_equal(one: &History, other: &History) -> bool {
    if one.horizon() != other.horizon() {
        return false;
    }
    // an iterator over one bucket is cheaper to prove than one over all in page order
    for number in 0..BUCKETS {
        if !one.bucket(bucket(number)).eq(other.bucket(bucket(number))) {
            return false;
        }
    }
    true
}
