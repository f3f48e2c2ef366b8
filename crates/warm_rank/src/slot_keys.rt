//! The keys of slots.
ghost use Rattle.std.specs.Prelude.{◌≡◌, List, ◌<◌, ◌≤◌, length, replicate, set, false, true};
ghost use Rattle.std.specs.Prelude.{is_some, cond, IfOk, IfSome, None};
ghost use Rattle.std.specs.Ordering.{is_gt};
ghost use Rattle.std.specs.declared.cmp.Ordering.TheVariants.{Greater, Less};
ghost use Rattle.warm_rank.specs.declared.RankKey.{RankKey};
ghost use Rattle.warm_rank.specs.Keys.{key_cmp};
ghost use Rattle.warm_rank.specs.Slots.{key_at, keys_set, keys_while, set_first_cmp, slot_cmp};

use crate::RankKey;
use crate::flat_key::FlatKey;
use std::alloc::{AllocError, Global};
use std::cmp::Ordering;
use std::marker::Model;

/// Slots that each may have a key. Contracts see the list of the keys.
///
/// Whether a slot has a key is stored apart from the key: clearing slots, and matches of slots
/// without a key, touch little memory. So each slot stores some key, which means nothing in a slot
/// that is not set.
#[derive(Debug, Drop)]
pub(crate) struct SlotKeys {
    is_set: Vec<bool>,
    keys: Vec<FlatKey>,
}

impl Model for SlotKeys {
    ghost use Rattle.std.specs.Prelude.{◌≡◌, List, Option, length};
    ghost use Rattle.warm_rank.specs.declared.RankKey.{RankKey};
    ghost use Rattle.warm_rank.specs.Slots.{keys_set};

    ghost Value = { List (Option RankKey) };

    ghost view = { λ slots. keys_set slots.is_set.items slots.keys.items };

    ghost invariant = { λ slots. length slots.keys.items ≡ length slots.is_set.items };
}

impl SlotKeys {
    /// Slots without a key; each stores `unused`, which may be any key.
    ///
    /// # Errors
    /// `AllocError` if their allocation fails.
    pub(crate) fn new(alloc: Global, slots: usize, unused: RankKey) -> Result<SlotKeys, AllocError>
        ensures { IfOk result (λ keys. keys ≡ replicate slots None) }
    {
        let is_set = none_set(alloc, slots)?;
        let keys = no_keys(alloc, slots, FlatKey::of(unused))?;
        Ok(SlotKeys { is_set, keys })
    }

    /// The number of slots.
    pub(crate) fn len(&self) -> usize
        ensures { result ≡ length self.now }
    {
        self.is_set.len()
    }

    /// Whether a slot has a key.
    pub(crate) fn is_set(&self, slot: usize) -> bool
        requires { slot < length self.now }
        ensures { result ≡ is_some (key_at self.now slot) }
    {
        self.is_set[slot]
    }

    /// The key of a slot.
    pub(crate) fn key(&self, slot: usize) -> Option<RankKey>
        requires { slot < length self.now }
        ensures { result ≡ key_at self.now slot }
    {
        if self.is_set[slot] {
            return Some(self.keys[slot].get());
        }
        None
    }

    /// Whether the key of a slot comes before this one; none comes last.
    pub(crate) fn comes_before(&self, slot: usize, key: &Option<RankKey>) -> bool
        requires { slot < length self.now }
        ensures { result ≡ is_gt (set_first_cmp key_cmp key.now (key_at self.now slot)) }
    {
        if !self.is_set[slot] {
            return false;
        }
        match key {
            None => true,
            Some(key) => FlatKey::of(*key).compare(&self.keys[slot]).is_gt(),
        }
    }

    /// Whether the key of a slot comes after this one; none comes last.
    pub(crate) fn comes_after(&self, slot: usize, key: &Option<RankKey>) -> bool
        requires { slot < length self.now }
        ensures { result ≡ is_gt (set_first_cmp key_cmp (key_at self.now slot) key.now) }
    {
        let Some(key) = key else {
            return false;
        };
        if !self.is_set[slot] {
            return true;
        }
        self.keys[slot].compare(&FlatKey::of(*key)).is_gt()
    }

    /// Sets or clears the key of a slot.
    pub(crate) fn set(&mut self, slot: usize, key: Option<RankKey>)
        requires { slot < length self.old }
        ensures { self.new ≡ set self.old slot key }
    {
        match key {
            None => self.is_set[slot] = false,
            Some(key) => {
                self.is_set[slot] = true;
                self.keys[slot] = FlatKey::of(key);
            }
        }
    }

    /// Clears the key of each vacant slot.
    pub(crate) fn clear_vacant<T>(&mut self, held: &[Option<T>])
        requires { length held.now ≡ length self.old }
        ensures { self.new ≡ keys_while held.now self.old }
    {
        unset_vacant(&mut self.is_set, held);
    }

    /// Whether a slot comes after another: by their keys, of equal keys the greater slot.
    pub(crate) fn is_after(&self, a: usize, b: usize) -> bool
        requires first { a < length self.now }
        requires second { b < length self.now }
        ensures { result ≡ is_gt (slot_cmp key_cmp self.now a b) }
    {
        if !self.is_set[a] {
            // When a pool is emptied, no slot has a key: the lesser slot comes first.
            return self.is_set[b] || b < a;
        }
        if let Some(is_after) = is_after_by_time(&self.is_set, &self.keys, a, b) {
            return is_after;
        }
        match self.compare(a, b) {
            Ordering::Less => false,
            Ordering::Equal => b < a,
            Ordering::Greater => true,
        }
    }

    /// The order of the keys of two slots: the lesser key first; a set key comes before none.
    pub(crate) fn compare(&self, a: usize, b: usize) -> Ordering
        requires first { a < length self.now }
        requires second { b < length self.now }
        ensures { result ≡ set_first_cmp key_cmp (key_at self.now a) (key_at self.now b) }
    {
        compare_set(&self.is_set, &self.keys, a, b)
    }
}

// Whether the older times of two slots' keys decide, and then whether the first comes after the
// second.
fn is_after_by_time(is_set: &[bool], keys: &[FlatKey], a: usize, b: usize) -> Option<bool>
    requires same { length keys.now ≡ length is_set.now }
    requires first { a < length is_set.now }
    requires second { b < length is_set.now }
    ensures { IfSome result (λ is_after. set_first_cmp key_cmp
        (key_at (keys_set is_set.now keys.now) a) (key_at (keys_set is_set.now keys.now) b)
        ≡ cond is_after Greater Less) }
{
    if !is_set[a] || !is_set[b] {
        return None;
    }
    keys[a].is_after_by_time(&keys[b])
}

// Marks of slots, none of which is set.
fn none_set(alloc: Global, slots: usize) -> Result<Vec<bool>, AllocError>
    ensures { IfOk result (λ is_set. is_set.items ≡ replicate slots false) }
{
    let mut is_set = Vec::new(alloc);
    is_set.resize(slots, false)?;
    Ok(is_set)
}

// Storage for keys. A key there means nothing until it is set.
fn no_keys(alloc: Global, slots: usize, unused: FlatKey) -> Result<Vec<FlatKey>, AllocError>
    ensures { IfOk result (λ keys. length keys.items ≡ slots) }
{
    let mut keys = Vec::new(alloc);
    keys.resize(slots, unused)?;
    Ok(keys)
}

// Marks the vacant slots as without a key, for any keys of type K that go with the marks.
fn unset_vacant<T>(is_set: &mut Vec<bool>, held: &[Option<T>])
    requires { length held.now ≡ length is_set.old.items }
    ensures count { length is_set.new.items ≡ length is_set.old.items }
    ensures keys { (keys : List RankKey) → length keys ≡ length is_set.old.items
        → keys_set is_set.new.items keys ≡ keys_while held.now (keys_set is_set.old.items keys) }
{
    for (slot, held) in held.iter().enumerate() {
        if held.is_none() {
            is_set[slot] = false;
        }
    }
}

// The order of the keys of two slots.
fn compare_set(is_set: &[bool], keys: &[FlatKey], a: usize, b: usize) -> Ordering
    requires same { length keys.now ≡ length is_set.now }
    requires first { a < length is_set.now }
    requires second { b < length is_set.now }
    ensures { result ≡ set_first_cmp key_cmp
        (key_at (keys_set is_set.now keys.now) a) (key_at (keys_set is_set.now keys.now) b) }
{
    if !is_set[a] {
        return if is_set[b] {
            Ordering::Greater
        } else {
            Ordering::Equal
        };
    }
    if !is_set[b] {
        return Ordering::Less;
    }
    keys[a].compare(&keys[b])
}
