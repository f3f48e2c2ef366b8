//! The contest of a pool's slots for the least key.
ghost use Rattle.std.specs.Prelude.{◌≡◌, ◌<◌, ◌≤◌, length, replicate, set, is_some, IfOk, None};
ghost use Rattle.std.specs.Ordering.{is_gt};
ghost use Rattle.warm_rank.specs.Behind.{IsBehind, AreRepaired, lowered};
ghost use Rattle.warm_rank.specs.Keys.{key_cmp};
ghost use Rattle.warm_rank.specs.Slots.{IsLeast, key_at, keys_while, set_first_cmp};

use crate::current::CurrentKeys;
use crate::slot_keys::SlotKeys;
use crate::winners::{number_leaves, play_above, play_all};
use crate::{MAX_FRAMES, RankKey};
use std::alloc::{AllocError, Global};
use std::marker::Model;
use warm_stamps::PageId;

/// Slots that each may have a key, and the slot of the least of them. Contracts see the list of the
/// keys.
///
/// A pool sets the key of a slot whose page may be evicted; the least key is then that of the
/// victim. All memory is allocated when the contest is made. It is a winner tree (Knuth, The Art of
/// Computer Programming, volume 3, section 5.4.1): a changed key is compared at most once for each
/// level, and the least is read at the root.
#[derive(Debug, Drop)]
pub struct Contest {
    keys: SlotKeys,
    nodes: Vec<u32>,
}

impl Model for Contest {
    ghost use Rattle.std.specs.Prelude.{List, Option};
    ghost use Rattle.warm_rank.specs.declared.RankKey.{RankKey};
    ghost use Rattle.warm_rank.specs.Keys.{key_cmp};
    ghost use Rattle.warm_rank.specs.WinnerTree.{IsTree};

    ghost Value = { List (Option RankKey) };

    ghost view = { λ contest. contest.keys };

    ghost invariant = { λ contest. IsTree key_cmp contest.keys contest.nodes.items };
}

impl Contest {
    /// A contest of 1 to [`MAX_FRAMES`] slots, none of which has a key.
    ///
    /// # Errors
    /// `AllocError` if the allocation of the slots fails.
    pub fn new(alloc: Global, slots: usize) -> Result<Contest, AllocError>
        requires some { 0 < slots }
        requires few { slots ≤ MAX_FRAMES }
        ensures { IfOk result (λ contest. contest ≡ replicate slots None) }
    {
        let keys = SlotKeys::new(alloc, slots, unused_key())?;
        let mut nodes = Vec::new(alloc);
        nodes.resize(2 * slots, 0)?;
        number_leaves(slots, &mut nodes);
        play_all(&keys, &mut nodes);
        Ok(Contest { keys, nodes })
    }

    /// Sets or clears the key of a slot, which counts from 0. Allocation-free.
    pub fn set(&mut self, slot: usize, key: Option<RankKey>)
        requires { slot < length self.old }
        ensures { self.new ≡ set self.old slot key }
    {
        self.keys.set(slot, key);
        play_above(&self.keys, &mut self.nodes, slot);
    }

    /// Sets the key of a slot if this one is less than the slot's. A missing key counts as the
    /// greatest. Allocation-free.
    pub fn lower(&mut self, slot: usize, key: Option<RankKey>)
        requires { slot < length self.old }
        ensures { self.new ≡ lowered key_cmp self.old slot key }
    {
        if self.keys.comes_after(slot, &key) {
            self.set(slot, key);
        }
    }

    /// Whether a slot has a key.
    pub fn is_set(&self, slot: usize) -> bool
        requires { slot < length self.now }
        ensures { result ≡ is_some (key_at self.now slot) }
    {
        self.keys.is_set(slot)
    }

    /// The key of a slot.
    pub fn key(&self, slot: usize) -> Option<RankKey>
        requires { slot < length self.now }
        ensures { result ≡ key_at self.now slot }
    {
        self.keys.key(slot)
    }

    /// Clears the key of each slot that is vacant in this list of the slots' contents, and leaves
    /// the others. All matches are played once, however many slots are cleared. Allocation-free.
    pub fn clear_vacant<T>(&mut self, held: &[Option<T>])
        requires { length held.now ≡ length self.old }
        ensures { self.new ≡ keys_while held.now self.old }
    {
        let Some(_) = self.least() else {
            return;
        };
        self.keys.clear_vacant(held);
        play_all(&self.keys, &mut self.nodes);
    }

    /// The slot of the least current key, of equal keys the lesser slot; `None` if no slot has a
    /// current key. No key of the contest may come after the current one of its slot. Slots whose
    /// keys lag are given their current keys as they come first, or all at once if more than a
    /// sixteenth of them do: so no call takes longer than a few plays of all matches.
    /// Allocation-free.
    pub fn settle<C: CurrentKeys>(&mut self, current: &C) -> Option<usize>
        requires { IsBehind key_cmp self.old (C.keys current.now) }
        ensures repaired { AreRepaired self.old (C.keys current.now) self.new }
        ensures least { IsLeast key_cmp (C.keys current.now) result }
    {
        let repairs = self.keys.len() / 16 + 1;
        for _repair in 0..repairs {
            let Some(at) = self.least() else {
                return None;
            };
            let key = current.key(at);
            if !self.keys.comes_before(at, &key) {
                return Some(at);
            }
            self.set(at, key);
        }
        self.set_all(current);
        self.least()
    }

    // Gives each slot its current key, and plays all matches once.
    fn set_all<C: CurrentKeys>(&mut self, current: &C)
        requires { length self.old ≡ length (C.keys current.now) }
        ensures { self.new ≡ C.keys current.now }
    {
        set_each(&mut self.keys, current);
        play_all(&self.keys, &mut self.nodes)
    }

    /// The slot of the least key, of equal keys the lesser slot; `None` if no slot has a key.
    /// Allocation-free.
    pub fn least(&self) -> Option<usize>
        ensures { IsLeast key_cmp self.now result }
    {
        let first = self.nodes[1] as usize;
        if self.keys.is_set(first) {
            Some(first)
        } else {
            None
        }
    }
}

// Gives each slot its current key.
fn set_each<C: CurrentKeys>(keys: &mut SlotKeys, current: &C)
    requires { length keys.old ≡ length (C.keys current.now) }
    ensures { keys.new ≡ C.keys current.now }
{
    for slot in 0..keys.len() {
        keys.set(slot, current.key(slot));
    }
}

// The value stored in a slot without a key. It means nothing.
const fn unused_key() -> RankKey {
    RankKey::Never {
        page: PageId { dev: 0, no: 0 },
    }
}
