//! The functions that C calls for one shard of many. `c/nodes.h` has their prototypes.
ghost use Rattle.std.specs.Prelude.{◌≡◌, None};
ghost use Rattle.warm_c_calls.specs.Devices.{SaysMayStand};
ghost use Rattle.warm_c_calls.specs.Engine.{SaysMayForget};
ghost use Rattle.warm_c.specs.Handles.{OnHandle};
ghost use Rattle.warm_c_calls.specs.LentBytes.{PinsAndLends};

use crate::called::{closed, put_back};
use crate::handle::Handle;
use std::alloc::Global;
use warm_c_base::{PinnedSlot, WarmDevice, WarmPage};

/// Pins a page as [`crate::node_pin`] does, and writes the address of its bytes, to be read.
///
/// # Errors
/// 4 to 9, in the order of [`warm_pool::Pool::pin`]. The slot and the pointer are unchanged, and of
/// the node only counts of failures have changed.
#[unsafe(no_mangle)]
pub extern "C" fn node_pin_bytes(
    alloc: Global,
    handle: &mut Handle,
    page: WarmPage,
    slot: &mut PinnedSlot,
    bytes: &mut *const u8,
) -> i32
    ensures called { OnHandle (PinsAndLends page slot.old slot.new bytes.old bytes.new)
        handle.old.held.node result handle.new.held.node }
    ensures closed { handle.old.held.node ≡ None
        → (slot.new ≡ slot.old) × (bytes.new ≡ bytes.old) }
{
    let Some(mut node) = handle.take(alloc) else {
        return closed();
    };
    let done = node.pin_bytes(page, slot, bytes);
    put_back(handle, node, done)
}

/// Returns whether [`crate::node_forget_pages`] would forget these pages: so several nodes forget
/// together or not at all.
///
/// # Errors
/// Those of `node_forget_pages`. Nothing changes in any case.
#[unsafe(no_mangle)]
pub extern "C" fn node_may_forget(alloc: Global, handle: &mut Handle, dev: u16, from: u64) -> i32
    ensures { OnHandle (SaysMayForget dev from) handle.old.held.node result handle.new.held.node }
{
    let Some(node) = handle.take(alloc) else {
        return closed();
    };
    let done = node.may_forget(dev, from);
    put_back(handle, node, done)
}

/// Returns whether a device over another descriptor could stand in the place of one, before any
/// page of that one is looked at: so several nodes replace a device together or not at all.
///
/// # Errors
/// Those of [`crate::node_replace`] that come before 11, in its order. Nothing changes in any case.
#[unsafe(no_mangle)]
pub extern "C" fn node_may_replace(
    alloc: Global,
    handle: &mut Handle,
    dev: u16,
    device: &WarmDevice,
) -> i32
    ensures { OnHandle (SaysMayStand dev device.now) handle.old.held.node result
        handle.new.held.node }
{
    let Some(node) = handle.take(alloc) else {
        return closed();
    };
    let done = node.may_stand(alloc, dev, device);
    put_back(handle, node, done)
}
