//! The matches of a winner tree.
//!
//! Node 1 is the root, node j is the parent of nodes 2j and 2j + 1, and the last nodes are the
//! slots in order. A node holds the slot that comes first of those below it.
ghost use Rattle.std.specs.Prelude.{◌≡◌, ◌≢◌, ◌*◌, ◌<◌, ◌≤◌, ◌+◌, length, replicate, slice_index};
ghost use Rattle.std.specs.Prelude.{IsTrue};
ghost use Rattle.warm_rank.specs.Keys.{key_cmp};
ghost use Rattle.warm_rank.specs.WinnerTree.{winner, HasLeaves, IsTree, IsStaleAt};

use crate::MAX_FRAMES;
use crate::slot_keys::SlotKeys;

// Stores the slots in the leaves.
pub(crate) fn number_leaves(slots: usize, nodes: &mut Vec<u32>)
    requires some { 0 < slots }
    requires few { slots ≤ MAX_FRAMES }
    requires zeros { nodes.old.items ≡ replicate (2 * slots) 0 }
    ensures { HasLeaves slots nodes.new.items }
{
    for slot in 0..slots {
        nodes[slots + slot] = slot as u32;
    }
}

// Plays all matches, from the last node to the first.
pub(crate) fn play_all(keys: &SlotKeys, nodes: &mut Vec<u32>)
    requires { HasLeaves (length keys.now) nodes.old.items }
    ensures { IsTree key_cmp keys.now nodes.new.items }
{
    let mut node = keys.len();
    while node > 1 {
        node -= 1;
        let first = nodes[2 * node];
        let second = nodes[2 * node + 1];
        nodes[node] = winner_of(keys, nodes, 2 * node, first, second);
    }
}

// Plays the matches above a slot whose key changed. It stops at a match whose winner stays the same
// and is not the slot: nothing above it changes.
pub(crate) fn play_above(keys: &SlotKeys, nodes: &mut Vec<u32>, slot: usize)
    requires range { slot < length keys.now }
    requires changed { IsStaleAt key_cmp keys.now nodes.old.items slot }
    ensures { IsTree key_cmp keys.now nodes.new.items }
{
    let mut node = keys.len() + slot;
    while node > 1 {
        node /= 2;
        let before = nodes[node];
        let first = nodes[2 * node];
        let second = nodes[2 * node + 1];
        let now = winner_of(keys, nodes, 2 * node, first, second);
        nodes[node] = now;
        if is_settled(before, now, slot) {
            return;
        }
    }
}

// Whether a match has the same winner as before, and that isn't the slot.
fn is_settled(before: u32, now: u32, slot: usize) -> bool
    ensures { IsTrue result → (now ≡ before) × (before ≢ slot) }
{
    now == before && before as usize != slot
}

// The slot that comes first of two, which are in this node and the one behind it. It is read there:
// which of two keys comes first cannot be predicted, and an index needs no branch.
fn winner_of(keys: &SlotKeys, nodes: &[u32], node: usize, a: u32, b: u32) -> u32
    requires first { a < length keys.now }
    requires second { b < length keys.now }
    requires both { node + 1 < length nodes.now }
    requires is_first { slice_index nodes.now node ≡ a }
    requires is_second { slice_index nodes.now (node + 1) ≡ b }
    ensures { result ≡ winner key_cmp keys.now a b }
{
    let is_after = keys.is_after(a as usize, b as usize);
    nodes[node + usize::from(is_after)]
}
