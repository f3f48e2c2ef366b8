//! A node lends the bytes of a pinned page to a closure, where they lie.
ghost use Rattle.std.specs.Prelude.{◌≡◌, length};
ghost use Rattle.std.specs.Fn.{FnOnceReturnsAt, FnOnceReturnsAtMut};
ghost use Rattle.warm_pool.specs.View.{view_of, Holds};
ghost use Rattle.warm_replica.specs.LentPages.{SlotChanged, SlotShown};

use crate::snapshots::tag_of;
use boxcar::tag::Tag;
use warm_devices::PageDevice;
use warm_gossip::Node;
use warm_pool::Slot;

// What a look gives: the bytes of the page as contracts see them, how many they are, and what the
// closure returned.
pub(crate) struct LookOutput<T> {
    pub(crate) bytes: Tag,
    pub(crate) len: usize,
    pub(crate) output: T,
}

// What a change gives: the bytes before and after, and what the closure returned.
pub(crate) struct ChangeOutput<T> {
    pub(crate) before: Tag,
    pub(crate) after: Tag,
    pub(crate) output: T,
}

// Calls the closure with all bytes of the slot's page.
#[inline(always)]
pub(crate) fn look_in<D: PageDevice, T, F: FnOnce(&[u8]) -> T + Drop>(
    node: &Node<D>,
    slot: Slot,
    f: F,
) -> LookOutput<T>
    requires holds { Holds (view_of node.now.pool) slot }
    requires callable { F.IsAlwaysCallable f }
    ensures page { SlotShown node.now slot result.bytes.numbers }
    ensures len { result.len ≡ length result.bytes.numbers }
    ensures shown { FnOnceReturnsAt F.FnOnce f result.bytes.numbers result.output }
{
    let lent = node.pool().bytes(slot);
    let bytes = tag_of(lent);
    let len = lent.len();
    let output = f(lent);
    LookOutput { bytes, len, output }
}

// Calls the closure with all bytes of the slot's page, to be written to. What it leaves in them is
// the page's content, and the page is dirty.
#[inline(always)]
pub(crate) fn change_in<D: PageDevice, T, F: FnOnce(&mut [u8]) -> T + Drop>(
    node: &mut Node<D>,
    slot: Slot,
    f: F,
) -> ChangeOutput<T>
    requires holds { Holds (view_of node.old.pool) slot }
    requires callable { F.IsAlwaysCallable f }
    ensures page { SlotChanged node.old slot result.before.numbers result.after.numbers node.new }
    ensures left { FnOnceReturnsAtMut F.FnOnce f result.before.numbers result.output
        result.after.numbers }
{
    node.pool().prove_is_pool();
    let lent = node.bytes_mut(slot);
    let before = tag_of(lent);
    let output = f(&mut *lent);
    let after = tag_of(lent);
    ChangeOutput {
        before,
        after,
        output,
    }
}
