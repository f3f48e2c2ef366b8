//! What a bucket has since a time, in portions: who has sent a bucket before sends what is new.
ghost use Rattle.std.specs.Prelude.{◌≡◌, ◌<◌, ◌↔◌, drop, length, take, IfOk, IsTrue, OnOk};
ghost use Rattle.std.specs.Iterator.{YieldsFirst};
ghost use Rattle.warm_history.specs.KeptEntries.{is_recent};
ghost use Rattle.warm_history.specs.Since.{recent_entries};

use crate::history::BucketEntries;
use std::alloc::{AllocError, Global};
use warm_maps::{Entry, PageHist};

/// The first of some entries, and whether more of them follow. If more follow, the page of the last
/// entry is the one after which to go on.
#[derive(Debug, Drop)]
pub struct Portion {
    /// The entries, in rising page order.
    pub entries: Vec<Entry>,
    /// Whether more follow.
    pub more: bool,
}

// The first `limit` of the entries ahead whose latest stamp is not before the time. It reads up to
// the first such entry beyond them.
pub(crate) fn portion_since(
    alloc: Global,
    mut ahead: BucketEntries<'_>,
    since: u64,
    limit: usize,
) -> Result<Portion, AllocError>
    ensures first { IfOk result (λ portion. portion.entries.items
        ≡ take limit (recent_entries since ahead.entry)) }
    ensures more { IfOk result (λ portion. IsTrue portion.more
        ↔ limit < length (recent_entries since ahead.entry)) }
{
    let entries = first_since(alloc, &mut ahead, since, limit)?;
    Ok(Portion {
        entries,
        more: has_next(&mut ahead, since),
    })
}

// Takes the first `limit` of the entries ahead whose latest stamp is not before the time.
fn first_since(
    alloc: Global,
    ahead: &mut BucketEntries<'_>,
    since: u64,
    limit: usize,
) -> Result<Vec<Entry>, AllocError>
    ensures first { IfOk result (λ entries. entries.items
        ≡ take limit (recent_entries since ahead.old)) }
    ensures rest { OnOk result (recent_entries since ahead.new
        ≡ drop limit (recent_entries since ahead.old)) }
{
    let mut entries = Vec::new(alloc);
    while entries.len() < limit {
        match next_since(ahead, since) {
            // Taken apart, since the toolchain has no proof of an entry that is moved whole here.
            Some(Entry { page, hist }) => entries.push(Entry { page, hist })?,
            None => return Ok(entries),
        }
    }
    Ok(entries)
}

// Whether the latest stamp of any entry ahead is not before the time.
fn has_next(ahead: &mut BucketEntries<'_>, since: u64) -> bool
    ensures { IsTrue result ↔ 0 < length (recent_entries since ahead.old) }
{
    let Some(_) = next_since(ahead, since) else {
        return false;
    };
    true
}

// The first of the entries ahead whose latest stamp is not before the time; those before it are
// skipped.
fn next_since(ahead: &mut BucketEntries<'_>, since: u64) -> Option<Entry>
    ensures steps { YieldsFirst (λ (ahead : _). recent_entries since ahead)
        ahead.old result ahead.new }
{
    loop {
        let entry = ahead.next()?;
        if is_recent(entry.hist, since) {
            return Some(entry);
        }
    }
}

// Whether the latest of these stamps is not before the time.
fn is_recent(hist: PageHist, since: u64) -> bool
    ensures { result ≡ is_recent since hist }
{
    match hist {
        PageHist::Once(last) => since <= last.time,
        PageHist::Twice(two) => since <= two.last().time,
    }
}
