//! One of the two maps of a bucket: what is known of pages at keys of one type.
ghost use Rattle.std.specs.BTreeMap.{is_at};
ghost use Rattle.std.specs.Map.{lookup};
ghost use Rattle.std.specs.Prelude.{◌≡◌, ◌+◌, ◌<◌, length, IfOk, None, OnErr, OnOk, Some};
ghost use Rattle.warm_maps.specs.BucketMaps.{ChangesAt};
ghost use Rattle.warm_maps.specs.Cuts.{cut_at};
ghost use Rattle.warm_maps.specs.Undo.{put_back_at};

use crate::bucket_map::{Change, MAX_PAIRS};
use crate::packed::{Packed, keep_cut, merge_into, prove_two_latest};
use std::alloc::AllocError;
use std::collections::BTreeMap;

// Takes in the given stamps of a page with this key, and returns how that changes the map. What was
// known of the page is put in the place of the stamps.
//
// If the page is likely new it inserts first, and otherwise it looks the page up first: each is the
// faster way for its case.
pub(crate) fn record_in<K: Ord + Copy>(
    map: &mut BTreeMap<K, Packed>,
    key: K,
    more: &mut Packed,
    likely_new: bool,
) -> Result<Option<Change>, AllocError>
    ensures ok { IfOk result
        (λ change. ChangesAt K.cmp map.old.entries key more.old change more.new map.new.entries) }
    ensures err { OnErr result (map.new.entries ≡ map.old.entries) }
    ensures small { length map.old.entries < MAX_PAIRS → length map.new.entries < MAX_PAIRS }
{
    if likely_new && map.len() < MAX_PAIRS - 1 {
        return record_likely_new(map, key, more);
    }
    record_likely_known(map, key, more)
}

// The same for a page that is likely new: it is inserted at once, which costs one descent of the
// map if it is new and two if it is known.
fn record_likely_new<K: Ord + Copy>(
    map: &mut BTreeMap<K, Packed>,
    key: K,
    more: &mut Packed,
) -> Result<Option<Change>, AllocError>
    requires { length map.old.entries + 1 < MAX_PAIRS }
    ensures ok { IfOk result
        (λ change. ChangesAt K.cmp map.old.entries key more.old change more.new map.new.entries) }
    ensures err { OnErr result (map.new.entries ≡ map.old.entries) }
    ensures small { length map.new.entries < MAX_PAIRS }
{
    prove_two_latest(more);
    let Some(before) = map.insert(key, *more)? else {
        return Ok(Some(Change::New));
    };
    let Some(known) = map.get_mut(&key) else {
        unreachable!()
    };
    *known = before;
    if merge_into(known, more) {
        return Ok(Some(Change::Known));
    }
    Ok(None)
}

// The same for a page that is likely known: it is looked up first, which costs one descent of the
// map if it is known and two if it is new.
fn record_likely_known<K: Ord + Copy>(
    map: &mut BTreeMap<K, Packed>,
    key: K,
    more: &mut Packed,
) -> Result<Option<Change>, AllocError>
    ensures ok { IfOk result
        (λ change. ChangesAt K.cmp map.old.entries key more.old change more.new map.new.entries) }
    ensures err { OnErr result (map.new.entries ≡ map.old.entries) }
    ensures small { length map.old.entries < MAX_PAIRS → length map.new.entries < MAX_PAIRS }
{
    if let Some(known) = map.get_mut(&key) {
        if merge_into(known, more) {
            return Ok(Some(Change::Known));
        }
        return Ok(None);
    }
    record_new(map, key, more)?;
    Ok(Some(Change::New))
}

// The same for a page that is not in the map. A call of its own: a function clears the room of its
// locals when it is entered, and this one's are large.
fn record_new<K: Ord + Copy>(
    map: &mut BTreeMap<K, Packed>,
    key: K,
    more: &Packed,
) -> Result<(), AllocError>
    requires { lookup (is_at (K.cmp key)) map.old.entries ≡ None }
    ensures ok { OnOk result
        (ChangesAt K.cmp map.old.entries key more.now (Some Change.New) more.now map.new.entries) }
    ensures err { OnErr result (map.new.entries ≡ map.old.entries) }
    ensures small { length map.old.entries < MAX_PAIRS → length map.new.entries < MAX_PAIRS }
{
    if map.len() >= MAX_PAIRS - 1 {
        return Err(AllocError);
    }
    prove_two_latest(more);
    map.insert(key, *more)?;
    Ok(())
}

// Restores what was known of a page with this key. Allocation-free.
pub(crate) fn put_back_in<K: Ord + Copy>(
    map: &mut BTreeMap<K, Packed>,
    key: K,
    known: Option<Packed>,
)
    ensures { map.new.entries ≡ put_back_at K.cmp key known map.old.entries }
{
    match known {
        None => {
            let _ = map.remove(&key);
        }
        Some(hist) => {
            if let Some(now) = map.get_mut(&key) {
                *now = hist;
            }
        }
    }
}

// Forgets the stamps older than the horizon. Allocation-free.
pub(crate) fn forget_in<K: Ord + Copy>(map: &mut BTreeMap<K, Packed>, horizon: u64)
    ensures { map.new.entries ≡ cut_at horizon map.old.entries }
{
    map.retain(|_, hist| keep_cut(hist, horizon));
}
