//! A history in maps from keys: how references are taken in, and rolled back if an allocation
//! fails.
//!
//! Each change notes the old value in an undo list. If an allocation fails, the notes are restored,
//! the last one first, which is allocation-free.
ghost use Rattle.std.specs.Prelude.{◌≡◌, ◌<◌, List, [], ◌∷◌, ◌++◌, IfOk, OnOk, OnErr, max};
ghost use Rattle.std.specs.Prelude.{vec_capacity, vec_len};
ghost use Rattle.std.specs.Iterator.{IsFinite, Drains};
ghost use Rattle.warm_history.specs.Changes.{MarksChanged};
ghost use Rattle.warm_maps.specs.MapKeys.{key_of_page, page_of_key};
ghost use Rattle.warm_maps.specs.MapPairs.{AreKept};
ghost use Rattle.warm_history.specs.maps.KeptPairs.{kept, TakesStamps, TakesRecent};
ghost use Rattle.warm_history.specs.maps.KeptPairs.{TakesReferences, TakesEntries, TakesPairs};
ghost use Rattle.warm_maps.specs.Runs.{IsRun};
ghost use Rattle.warm_history.specs.Histories.{NoneOlder};
ghost use Rattle.warm_history.specs.KeptEntries.{kept_entries};
ghost use Rattle.warm_maps.specs.Undo.{note_of, undone, LeadsBack};

use std::alloc::{AllocError, Global};
use warm_maps::{BucketMaps, Change, Entry, Packed, PageHist, UndoNote, bucket_of_run};
use warm_stamps::{Bucket, BucketSet, PageId, Reference, bucket_of};

// The outcome of taking in the stamps of a page.
#[derive(Debug, Clone, Copy)]
struct Outcome {
    // The bucket of the page, if that changed.
    changed: BucketSet,
    // Whether the page was new. Pages often come in runs that are all new or all known, so the next
    // page is likely to be as this one was, if it is not the same.
    is_new: bool,
}

// Takes in all references that are not older than the horizon or, if an allocation fails, none.
pub(crate) fn take_references(
    alloc: Global,
    maps: &mut BucketMaps,
    horizon: u64,
    batch: &[Reference],
) -> Result<BucketSet, AllocError>
    requires { AreKept maps.old }
    ensures exact { OnOk result (TakesReferences horizon maps.old batch.now maps.new) }
    ensures changed { IfOk result (MarksChanged (kept maps.old) (kept maps.new)) }
    ensures whole { AreKept maps.new }
    ensures err { OnErr result (maps.new ≡ maps.old) }
{
    if let [reference] = batch {
        // Not returned as it comes: the proof takes success and failure apart here.
        let changed = take_reference(maps, horizon, *reference)?;
        return Ok(changed);
    }
    let mut undo = Vec::with_capacity(alloc, batch.len())?;
    let entries = batch.iter().map(|reference| Entry {
        page: reference.page,
        hist: PageHist::Once(reference.stamp),
    });
    match take_each(maps, &mut undo, horizon, entries) {
        Ok(changed) => Ok(changed),
        Err(fault) => {
            put_all_back(maps, &mut undo);
            Err(fault)
        }
    }
}

// The same for one reference. Nothing is noted: there is nothing to undo if recording it fails.
fn take_reference(
    maps: &mut BucketMaps,
    horizon: u64,
    reference: Reference,
) -> Result<BucketSet, AllocError>
    requires { AreKept maps.old }
    ensures exact { OnOk result (TakesReferences horizon maps.old (reference ∷ []) maps.new) }
    ensures changed { IfOk result (MarksChanged (kept maps.old) (kept maps.new)) }
    ensures whole { AreKept maps.new }
    ensures err { OnErr result (maps.new ≡ maps.old) }
{
    let Some(mut recent) = Packed::once(reference.stamp).cut_before(horizon) else {
        return Ok(BucketSet::new());
    };
    let Some(_change) = maps.record(reference.page, &mut recent, false)? else {
        return Ok(BucketSet::new());
    };
    Ok(BucketSet::new().with(bucket_of(reference.page)))
}

// Takes in all stamps of entries that are not older than the horizon or, if an allocation fails,
// none. The entries may be in any order. A run of a bucket is merged with its map in one walk.
pub(crate) fn take_entries(
    alloc: Global,
    maps: &mut BucketMaps,
    horizon: u64,
    more: &[Entry],
) -> Result<BucketSet, AllocError>
    requires { AreKept maps.old }
    ensures exact { OnOk result (TakesEntries horizon maps.old more.now maps.new) }
    ensures changed { IfOk result (MarksChanged (kept maps.old) (kept maps.new)) }
    ensures whole { AreKept maps.new }
    ensures err { OnErr result (maps.new ≡ maps.old) }
{
    if let Some(bucket) = bucket_of_run(more) {
        return take_run(alloc, maps, horizon, bucket, more);
    }
    let mut undo = Vec::new(alloc);
    match take_each(maps, &mut undo, horizon, more.iter().copied()) {
        Ok(changed) => Ok(changed),
        Err(fault) => {
            put_all_back(maps, &mut undo);
            Err(fault)
        }
    }
}

// Takes in a run of a bucket: all stamps that are not older than the horizon or, if an
// allocation fails, none.
fn take_run(
    alloc: Global,
    maps: &mut BucketMaps,
    horizon: u64,
    bucket: Bucket,
    run: &[Entry],
) -> Result<BucketSet, AllocError>
    requires kept { AreKept maps.old }
    requires run { IsRun bucket run.now }
    ensures exact { OnOk result (TakesEntries horizon maps.old run.now maps.new) }
    ensures changed { IfOk result (MarksChanged (kept maps.old) (kept maps.new)) }
    ensures whole { AreKept maps.new }
    ensures err { OnErr result (maps.new ≡ maps.old) }
{
    let changes = warm_maps::take_run(alloc, maps, horizon, bucket, run)?;
    if !changes {
        return Ok(BucketSet::new());
    }
    Ok(BucketSet::new().with(bucket))
}

// Takes in all stamps of another map that are not older than the horizon or, if an allocation
// fails, none.
pub(crate) fn take_pairs(
    alloc: Global,
    maps: &mut BucketMaps,
    horizon: u64,
    more: &BucketMaps,
) -> Result<BucketSet, AllocError>
    requires here { AreKept maps.old }
    requires there { AreKept more.now }
    ensures exact { OnOk result (TakesPairs horizon maps.old more.now maps.new) }
    ensures changed { IfOk result (MarksChanged (kept maps.old) (kept maps.new)) }
    ensures whole { AreKept maps.new }
    ensures err { OnErr result (maps.new ≡ maps.old) }
{
    if more.is_near() {
        // Not returned as it comes: the proof takes success and failure apart here.
        let changed = maps.join(alloc, horizon, more)?;
        return Ok(changed);
    }
    let mut undo = Vec::new(alloc);
    match take_each(maps, &mut undo, horizon, more.each_entry()) {
        Ok(changed) => Ok(changed),
        Err(fault) => {
            put_all_back(maps, &mut undo);
            Err(fault)
        }
    }
}

// Takes in the given stamps of a page, and notes what was known of it.
#[inline(always)]
fn take(
    maps: &mut BucketMaps,
    undo: &mut Vec<UndoNote>,
    page: PageId,
    more: Packed,
    likely_new: bool,
) -> Result<Outcome, AllocError>
    requires { AreKept maps.old }
    ensures exact { OnOk result (TakesStamps maps.old (key_of_page page) more maps.new) }
    ensures changed { IfOk result
        (λ taken. MarksChanged (kept maps.old) (kept maps.new) taken.changed) }
    ensures undo { LeadsBack undo.new.items maps.new undo.old.items maps.old }
    ensures whole { AreKept maps.new }
{
    undo.reserve(1)?;
    let mut hist = more;
    let Some(change) = maps.record(page, &mut hist, likely_new)? else {
        return Ok(Outcome {
            changed: BucketSet::new(),
            is_new: false,
        });
    };
    push_note(undo, page, change, &hist);
    Ok(Outcome {
        changed: BucketSet::new().with(bucket_of(page)),
        is_new: matches!(change, Change::New),
    })
}

// Notes a change of a page, and what was known of it, if anything was. Each arm writes its note
// right into the list: a note that is made first is copied twice.
fn push_note(undo: &mut Vec<UndoNote>, page: PageId, change: Change, before: &Packed)
    requires { vec_len undo.old < vec_capacity undo.old }
    ensures { undo.new.items ≡ undo.old.items ++ note_of page change before.now ∷ [] }
{
    match change {
        Change::New => undo.push_reserved(UndoNote { page, hist: None }),
        Change::Known => undo.push_reserved(UndoNote {
            page,
            hist: Some(*before),
        }),
    }
}

// Takes in those of the given stamps of a page that are not older than the horizon. Both are parts
// of the loop over a batch: each call of their own would clear the room of its locals.
#[inline(always)]
fn take_recent(
    maps: &mut BucketMaps,
    undo: &mut Vec<UndoNote>,
    horizon: u64,
    page: PageId,
    more: Packed,
    likely_new: bool,
) -> Result<Outcome, AllocError>
    requires { AreKept maps.old }
    ensures exact { OnOk result (TakesRecent horizon maps.old (key_of_page page) more maps.new) }
    ensures back { page_of_key (key_of_page page) ≡ page }
    ensures changed { IfOk result
        (λ taken. MarksChanged (kept maps.old) (kept maps.new) taken.changed) }
    ensures undo { LeadsBack undo.new.items maps.new undo.old.items maps.old }
    ensures whole { AreKept maps.new }
{
    let Some(recent) = more.cut_before(horizon) else {
        return Ok(Outcome {
            changed: BucketSet::new(),
            is_new: likely_new,
        });
    };
    // Not returned as it comes: the proof takes success and failure apart here.
    let taken = take(maps, undo, page, recent, likely_new)?;
    Ok(taken)
}

// Takes in the stamps of all entries that an iterator yields. The entries may be in any order.
fn take_each<I: Iterator<Item = Entry> + Drop>(
    maps: &mut BucketMaps,
    undo: &mut Vec<UndoNote>,
    horizon: u64,
    more: I,
) -> Result<BucketSet, AllocError>
    requires kept { AreKept maps.old }
    requires can { I.can_next more }
    requires ends { IsFinite (I.remaining more) }
    ensures exact { OnOk result ((es : List Entry)
        × Drains I.next_gives more es
        × TakesEntries horizon maps.old es maps.new) }
    ensures changed { IfOk result (MarksChanged (kept maps.old) (kept maps.new)) }
    ensures undo { LeadsBack undo.new.items maps.new undo.old.items maps.old }
    ensures whole { AreKept maps.new }
{
    let mut changed = BucketSet::new();
    let mut is_new = false;
    let mut last = PageId { dev: 0, no: 0 };
    for entry in more {
        let again = entry.page == last;
        let stamps = Packed::new(entry.hist);
        let taken = take_recent(maps, undo, horizon, entry.page, stamps, is_new && !again)?;
        changed = changed.union(taken.changed);
        // A page that came twice is known the second time, and says nothing of the next one.
        is_new = taken.is_new || is_new && again;
        last = entry.page;
    }
    Ok(changed)
}

// Forgets what is older than a time, if that is later than the horizon, and returns the new
// horizon.
pub(crate) fn raise(maps: &mut BucketMaps, horizon: u64, time: u64) -> u64
    requires kept { AreKept maps.old }
    requires recent { NoneOlder horizon (kept maps.old) }
    ensures later { result ≡ max horizon time }
    ensures cut { kept maps.new ≡ kept_entries result (kept maps.old) }
    ensures whole { AreKept maps.new }
{
    if horizon < time {
        maps.forget(time);
        return time;
    }
    horizon
}

// Restores the old values, the last change first.
fn put_all_back(maps: &mut BucketMaps, undo: &mut Vec<UndoNote>)
    ensures { maps.new ≡ undone undo.old.items maps.old }
{
    while let Some(note) = undo.pop() {
        maps.put_back(note);
    }
}
