//! A page of a node is pinned, its bytes are lent to a closure where they lie, and it is unpinned.
//! A resident page is lent without the pin, since nobody else has the node meanwhile.
ghost use Rattle.std.specs.Prelude.{◌≡◌, IfErr, IfOk};
ghost use Rattle.std.specs.Fn.{FnOnceReturnsAt, FnOnceReturnsAtMut};
ghost use Rattle.warm_shard_machine.specs.ShardSteps.{Changes, IsNotPinned, Looks};

use boxcar::tag::{Names, Tag};
use warm_devices::PageDevice;
use warm_gossip::{Node, NodeFault};
use warm_pool::Slot;
use warm_stamps::PageId;

// A tag of the bytes of a slice.
struct OfSlice;

impl<'a> Names<&'a [u8]> for OfSlice {
    ghost numbers = { λ bytes. bytes.now };
}

/// The bytes, as contracts see them. Allocation-free.
pub fn tag_of(bytes: &[u8]) -> Tag
    ensures { result.numbers ≡ bytes.now }
{
    Tag::of::<&[u8], OfSlice>(&bytes)
}

// What a look gives: the slot that the page had, its bytes as contracts see them, and what the
// closure returned.
pub(crate) struct Shown<T> {
    pub(crate) slot: Slot,
    pub(crate) bytes: Tag,
    pub(crate) output: T,
}

// What a change gives: the same, with the bytes before and after.
pub(crate) struct Left<T> {
    pub(crate) slot: Slot,
    pub(crate) before: Tag,
    pub(crate) after: Tag,
    pub(crate) output: T,
}

// Calls the closure with the bytes of a page.
#[inline(always)]
pub(crate) fn look_in<D: PageDevice, T, F: FnOnce(&[u8]) -> T + Drop>(
    node: &mut Node<D>,
    page: PageId,
    f: F,
) -> Result<Shown<T>, NodeFault>
    requires callable { F.IsAlwaysCallable f }
    ensures looked { IfOk result (λ shown. Looks node.old page shown.slot shown.bytes.numbers
        node.new) }
    ensures shown { IfOk result (λ shown. FnOnceReturnsAt F.FnOnce f shown.bytes.numbers
        shown.output) }
    ensures refused { IfErr result (λ why. IsNotPinned node.old page why node.new) }
{
    if let Some(slot) = node.look_up(page) {
        let held = node.pool();
        held.prove_is_pool();
        let lent = held.resident_bytes(page, slot);
        let bytes = tag_of(lent);
        let output = f(lent);
        return Ok(Shown {
            slot,
            bytes,
            output,
        });
    }
    look_pinned(node, page, f)
}

// The same of any page, which is pinned meanwhile. It is a function of its own, so that a look at a
// resident page, the most frequent, stays short.
#[inline(never)]
fn look_pinned<D: PageDevice, T, F: FnOnce(&[u8]) -> T + Drop>(
    node: &mut Node<D>,
    page: PageId,
    f: F,
) -> Result<Shown<T>, NodeFault>
    requires callable { F.IsAlwaysCallable f }
    ensures looked { IfOk result (λ shown. Looks node.old page shown.slot shown.bytes.numbers
        node.new) }
    ensures shown { IfOk result (λ shown. FnOnceReturnsAt F.FnOnce f shown.bytes.numbers
        shown.output) }
    ensures refused { IfErr result (λ why. IsNotPinned node.old page why node.new) }
{
    let slot = node.pin(page)?;
    let lent = node.pool().bytes(slot);
    let bytes = tag_of(lent);
    let output = f(lent);
    let Ok(()) = node.unpin(slot) else {
        unreachable!()
    };
    Ok(Shown {
        slot,
        bytes,
        output,
    })
}

// Calls the closure with the bytes of a page, to be written to. What it leaves in them is the
// page's content, and the page is dirty.
#[inline(always)]
pub(crate) fn change_in<D: PageDevice, T, F: FnOnce(&mut [u8]) -> T + Drop>(
    node: &mut Node<D>,
    page: PageId,
    f: F,
) -> Result<Left<T>, NodeFault>
    requires callable { F.IsAlwaysCallable f }
    ensures changed { IfOk result (λ left. Changes node.old page left.slot left.before.numbers
        left.after.numbers node.new) }
    ensures left { IfOk result (λ left. FnOnceReturnsAtMut F.FnOnce f left.before.numbers
        left.output left.after.numbers) }
    ensures refused { IfErr result (λ why. IsNotPinned node.old page why node.new) }
{
    if let Some(slot) = node.look_up(page) {
        node.pool().prove_is_pool();
        let lent = node.resident_bytes_mut(page, slot);
        let before = tag_of(lent);
        let output = f(&mut *lent);
        let after = tag_of(lent);
        return Ok(Left {
            slot,
            before,
            after,
            output,
        });
    }
    change_pinned(node, page, f)
}

// The same of any page, which is pinned meanwhile.
#[inline(never)]
fn change_pinned<D: PageDevice, T, F: FnOnce(&mut [u8]) -> T + Drop>(
    node: &mut Node<D>,
    page: PageId,
    f: F,
) -> Result<Left<T>, NodeFault>
    requires callable { F.IsAlwaysCallable f }
    ensures changed { IfOk result (λ left. Changes node.old page left.slot left.before.numbers
        left.after.numbers node.new) }
    ensures left { IfOk result (λ left. FnOnceReturnsAtMut F.FnOnce f left.before.numbers
        left.output left.after.numbers) }
    ensures refused { IfErr result (λ why. IsNotPinned node.old page why node.new) }
{
    let slot = node.pin(page)?;
    node.pool().prove_is_pool();
    let lent = node.bytes_mut(slot);
    let before = tag_of(lent);
    let output = f(&mut *lent);
    let after = tag_of(lent);
    let Ok(()) = node.unpin(slot) else {
        unreachable!()
    };
    Ok(Left {
        slot,
        before,
        after,
        output,
    })
}
