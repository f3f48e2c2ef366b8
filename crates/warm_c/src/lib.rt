//! A replica's node for C and C++: a static library over `Node<FdDevice>`. Its header is
//! include/warm.h.
//!
//! A handle holds a node over the caller's file descriptors, and the devices that it was given. All
//! zeros is a closed handle. A function returns a status: 0, or the number of why it is refused.
//!
//! Most functions, `node_NAME`, make the node's call `Node::NAME`. The others are:
//!
//! - [`node_list`] makes `Node::warm_list`, [`node_step`] makes `Node::warm_step`, [`node_next`]
//!   makes `Node::warm_next`, [`node_read`] makes `Node::read_into`, and [`node_replace`] makes
//!   `Node::retire`.
//! - [`node_history_length`] counts the pages of the node's history, [`node_save`] writes a dump of
//!   it, and [`node_load`] joins the history of a dump (`Node::join`).
//! - [`node_resident`], [`node_dirty`], [`node_next_dirty`], [`node_bytes`], [`node_counts`],
//!   [`node_device_counts`] and [`node_last_failure`] ask the node's pool.
//! - [`node_open`] and [`node_close`] create and drop the node. Each of the other functions that
//!   take a handle returns 64 on a closed one, and changes nothing.
//!
//! A call of a whole replica, of one node or more, is a visit of `warm_visits`, which has a handle
//! of its own kind: [`visit_exports`].
//!
//! Devices, files, and what crosses to C by value are of `warm_c_base`. c/fd_calls.c has what is
//! not proved: the calls of the system on the descriptors. c/heap.c, where its memory is from, is
//! not proved either.
//!
//! Nothing is undefined for any handle, slot or length, as long as the caller keeps what the header
//! asks: a handle that was all zeros before its first call, and that only these functions change;
//! one call at a time, from any thread, since a handle may go from one to another
//! ([`laws::handles_cross`]); and pointers to as much as their lengths say, which do not overlap.
#![tactic(auto)]

ghost use Rattle.std.specs.Prelude.{◌≡◌, None, Some};
ghost use Rattle.warm_c_calls.specs.Calls.{Absorbs, CountsPages, Lists, Loads, Names, Pins, ReadsSlot};
ghost use Rattle.warm_c_calls.specs.Calls.{Saves, SaysResident, StepsWarmUp, Unpins, Writes};
ghost use Rattle.warm_c_calls.specs.CountCalls.{CountsDevice, CountsPool, SaysFailure};
ghost use Rattle.warm_c_calls.specs.Devices.{Replaces};
ghost use Rattle.warm_c_calls.specs.Engine.{FlushesDevice, ForgetsPages, NamesDirty, NodeWritesBackPage};
ghost use Rattle.warm_c_calls.specs.Engine.{PinsZeroed, SaysDirty};
ghost use Rattle.warm_c_calls.specs.FilledPins.{NamesNext, PinsFilled};
ghost use Rattle.warm_c.specs.Handles.{OnHandle, Opens, Surely};
ghost use Rattle.warm_c_calls.specs.Opening.{open_request};
ghost use Rattle.warm_c_calls.specs.LentBytes.{Lends, LendsMut};
ghost use Rattle.warm_c_calls.specs.Since.{SendsSince, send_buffers};
ghost use Rattle.warm_c_base.specs.Statuses.{status_of};
ghost use Rattle.warm_c_base.specs.Values.{page_if};

mod called;
pub mod handle;
pub mod held_pointer;
pub mod laws;
pub mod part_exports;
pub mod raw_box;
mod visit_called;
pub mod visit_exports;
pub mod visit_handle;
pub mod visit_pointer;

use crate::called::{closed, on_open, put_back};
use crate::handle::Handle;
use std::alloc::Global;
use warm_c_base::{
    Descriptor, PinnedSlot, Refusal, WarmCounters, WarmDevice, WarmDeviceCounters, WarmFailure,
    WarmPage, WarmReference, WarmSlot, c_bool, page_if, put_dirty, put_page, status_of,
};
use warm_c_calls::{OpenNode, open};
use warm_gossip::NodeFault;

/// Opens a closed handle: creates a node of this replica, with a pool of `frames` empty frames over
/// these devices, and an empty history.
///
/// `replica` is 1 to 64, `frames` 1 to 65,536, `page_size` 1 to 65,536 bytes. There are 65,536
/// devices at most.
///
/// # Errors
/// In this order, and 1 if an allocation failed at any point. After 65 the handle is unchanged;
/// after any other it is closed.
/// - 65: the handle is open.
/// - 67: the replica's number is not valid.
/// - 4: there are too many devices, or the pages of one exceed 2^63 - 1 bytes.
/// - 69: two devices are of one file.
/// - 2: there are too many frames, or none.
/// - 3: a page has too many bytes, or none.
#[unsafe(no_mangle)]
pub extern "C" fn node_open(
    alloc: Global,
    handle: &mut Handle,
    replica: u16,
    frames: usize,
    page_size: usize,
    devices: &[WarmDevice],
) -> i32
    ensures { Opens (open_request replica frames page_size devices.now) handle.old.held.node result
        handle.new.held.node }
{
    if let Some(held) = handle.take(alloc) {
        *handle = Handle::of(held);
        return status_of(Err(Refusal::AlreadyOpen));
    }
    let held = match open(alloc, replica, frames, page_size, devices) {
        Ok(held) => held,
        Err(why) => return status_of(Err(why)),
    };
    match Box::new(alloc, held) {
        Ok(held) => {
            *handle = Handle::of(held);
            status_of(Ok(()))
        }
        Err(_) => status_of(Err(Refusal::Node(NodeFault::Memory))),
    }
}

/// Closes a handle and drops its node; a closed one stays closed. What was written to pages and not
/// written back is lost.
#[unsafe(no_mangle)]
pub extern "C" fn node_close(alloc: Global, handle: &mut Handle)
    ensures { handle.new.held.node ≡ None }
{
    let _ = handle.take(alloc);
}

/// Adds references to the history, all or none.
///
/// # Errors
/// In this order; nothing has changed.
/// - 67: one of them has a replica's number that is not valid.
/// - 1: an allocation failed.
#[unsafe(no_mangle)]
pub extern "C" fn node_absorb(
    alloc: Global,
    handle: &mut Handle,
    references: &[WarmReference],
) -> i32
    ensures { OnHandle (Absorbs references.now) handle.old.held.node result handle.new.held.node }
{
    on_open(alloc, handle, |node| node.absorb(alloc, references))
}

/// Pins a page: reads it into a frame if it is in none, and writes its slot.
///
/// # Errors
/// 4 to 9, in the order of [`warm_pool::Pool::pin`]. The slot is unchanged, and of the node only
/// counts of failures have changed.
#[unsafe(no_mangle)]
pub extern "C" fn node_pin(
    alloc: Global,
    handle: &mut Handle,
    page: WarmPage,
    slot: &mut PinnedSlot,
) -> i32
    ensures called { OnHandle (Pins page slot.old slot.new) handle.old.held.node result
        handle.new.held.node }
    ensures closed { handle.old.held.node ≡ None → slot.new ≡ slot.old }
{
    let Some(mut node) = handle.take(alloc) else {
        return closed();
    };
    let done = node.pin(page, slot);
    put_back(handle, node, done)
}

/// Pins a page as [`node_pin`] does and fills it with zeros, without reading it.
///
/// # Errors
/// 4 to 6, 8 and 9, in the order of [`warm_pool::Pool::pin_zeroed`]. The slot is unchanged, and of
/// the node only counts of failures have changed.
#[unsafe(no_mangle)]
pub extern "C" fn node_pin_zeroed(
    alloc: Global,
    handle: &mut Handle,
    page: WarmPage,
    slot: &mut PinnedSlot,
) -> i32
    ensures called { OnHandle (PinsZeroed page slot.old slot.new) handle.old.held.node result
        handle.new.held.node }
    ensures closed { handle.old.held.node ≡ None → slot.new ≡ slot.old }
{
    let Some(mut node) = handle.take(alloc) else {
        return closed();
    };
    let done = node.pin_zeroed(page, slot);
    put_back(handle, node, done)
}

/// Pins a page as [`node_pin`] does, but with these bytes in place of a read, and writes its slot.
/// No device is read. `bytes` is the page as its device has it now, whole, which is believed; of a
/// page that is in a frame it is not looked at. Allocation-free.
///
/// # Errors
/// In this order; the slot is unchanged, and of the node only counts of failures have changed.
/// - 3: the bytes are not as many as a page has.
/// - 4 to 6, 8 and 9, in the order of [`warm_pool::Pool::pin_filled`].
#[unsafe(no_mangle)]
pub extern "C" fn node_pin_filled(
    alloc: Global,
    handle: &mut Handle,
    page: WarmPage,
    bytes: &[u8],
    slot: &mut PinnedSlot,
) -> i32
    ensures called { OnHandle (PinsFilled page bytes.now slot.old slot.new) handle.old.held.node
        result handle.new.held.node }
    ensures closed { handle.old.held.node ≡ None → slot.new ≡ slot.old }
{
    let Some(mut node) = handle.take(alloc) else {
        return closed();
    };
    let done = node.pin_filled(page, bytes, slot);
    put_back(handle, node, done)
}

/// Removes a pin from the slot's page.
///
/// # Errors
/// 13: the slot does not hold its page. Nothing has changed.
#[unsafe(no_mangle)]
pub extern "C" fn node_unpin(alloc: Global, handle: &mut Handle, slot: WarmSlot) -> i32
    ensures { OnHandle (Unpins slot) handle.old.held.node result handle.new.held.node }
{
    on_open(alloc, handle, |node| node.unpin(slot))
}

/// Reads bytes of the slot's page, from `at` on, into the whole of `into`. Allocation-free.
///
/// # Errors
/// In this order; `into` is unchanged.
/// - 13: the slot does not hold its page.
/// - 10: the bytes reach beyond the end of the page.
#[unsafe(no_mangle)]
pub extern "C" fn node_read(
    alloc: Global,
    handle: &mut Handle,
    slot: WarmSlot,
    at: usize,
    into: &mut [u8],
) -> i32
    ensures called { OnHandle (ReadsSlot slot at into.old into.new) handle.old.held.node result
        handle.new.held.node }
    ensures closed { handle.old.held.node ≡ None → into.new ≡ into.old }
{
    let Some(mut node) = handle.take(alloc) else {
        return closed();
    };
    let done = node.read(slot, at, into);
    put_back(handle, node, done)
}

/// Writes bytes into the slot's page, from `at` on.
///
/// # Errors
/// In this order; nothing has changed.
/// - 13: the slot does not hold its page.
/// - 10: the bytes reach beyond the end of the page.
#[unsafe(no_mangle)]
pub extern "C" fn node_write(
    alloc: Global,
    handle: &mut Handle,
    slot: WarmSlot,
    at: usize,
    bytes: &[u8],
) -> i32
    ensures { OnHandle (Writes slot at bytes.now) handle.old.held.node result
        handle.new.held.node }
{
    on_open(alloc, handle, |node| node.write(slot, at, bytes))
}

/// Writes the address of the bytes of the slot's page, to be read. Allocation-free.
///
/// # Errors
/// 13: the slot does not hold its page. The pointer is unchanged.
#[unsafe(no_mangle)]
pub extern "C" fn node_bytes(
    alloc: Global,
    handle: &mut Handle,
    slot: WarmSlot,
    bytes: &mut *const u8,
) -> i32
    ensures called { OnHandle (Lends slot bytes.old bytes.new) handle.old.held.node result
        handle.new.held.node }
    ensures closed { handle.old.held.node ≡ None → bytes.new ≡ bytes.old }
{
    let Some(node) = handle.take(alloc) else {
        return closed();
    };
    let done = node.bytes(slot, bytes);
    put_back(handle, node, done)
}

/// Writes the address of the bytes of the slot's page, to be written to. The page becomes dirty.
/// Allocation-free.
///
/// # Errors
/// 13: the slot does not hold its page. The pointer is unchanged.
#[unsafe(no_mangle)]
pub extern "C" fn node_bytes_mut(
    alloc: Global,
    handle: &mut Handle,
    slot: WarmSlot,
    bytes: &mut *mut u8,
) -> i32
    ensures called { OnHandle (LendsMut slot bytes.old bytes.new) handle.old.held.node result
        handle.new.held.node }
    ensures closed { handle.old.held.node ≡ None → bytes.new ≡ bytes.old }
{
    let Some(mut node) = handle.take(alloc) else {
        return closed();
    };
    let done = node.bytes_mut(slot, bytes);
    put_back(handle, node, done)
}

/// Writes whether the page is in a frame, 1 or 0.
#[unsafe(no_mangle)]
pub extern "C" fn node_resident(
    alloc: Global,
    handle: &mut Handle,
    page: WarmPage,
    resident: &mut u8,
) -> i32
    ensures called { OnHandle (Surely (SaysResident page resident.new)) handle.old.held.node result
        handle.new.held.node }
    ensures closed { handle.old.held.node ≡ None → resident.new ≡ resident.old }
{
    let Some(node) = handle.take(alloc) else {
        return closed();
    };
    *resident = c_bool(node.resident(page));
    put_back(handle, node, Ok(()))
}

/// Writes whether the page is in a frame and dirty, 1 or 0.
#[unsafe(no_mangle)]
pub extern "C" fn node_dirty(
    alloc: Global,
    handle: &mut Handle,
    page: WarmPage,
    dirty: &mut u8,
) -> i32
    ensures called { OnHandle (Surely (SaysDirty page dirty.new)) handle.old.held.node result
        handle.new.held.node }
    ensures closed { handle.old.held.node ≡ None → dirty.new ≡ dirty.old }
{
    let Some(node) = handle.take(alloc) else {
        return closed();
    };
    *dirty = c_bool(node.has_dirty(page));
    put_back(handle, node, Ok(()))
}

/// Writes whether a frame with the number `from` or a higher one is dirty, 1 or 0, the number of
/// the first such frame, and its page. Frames are numbered from 0. If there is none, as for a
/// `from` beyond the last frame, `frame` and `page` are unchanged.
#[unsafe(no_mangle)]
pub extern "C" fn node_next_dirty(
    alloc: Global,
    handle: &mut Handle,
    from: usize,
    found: &mut u8,
    frame: &mut usize,
    page: &mut WarmPage,
) -> i32
    ensures called { OnHandle (Surely (NamesDirty from frame.old page.old found.new frame.new
        page.new)) handle.old.held.node result handle.new.held.node }
    ensures closed { handle.old.held.node ≡ None
        → (found.new ≡ found.old) × (frame.new ≡ frame.old) × (page.new ≡ page.old) }
{
    let Some(node) = handle.take(alloc) else {
        return closed();
    };
    put_dirty(node.next_dirty(from), found, frame, page);
    put_back(handle, node, Ok(()))
}

/// Writes whether there is a page that would be evicted next, 1 or 0, and which. If there is none,
/// `page` is unchanged.
#[unsafe(no_mangle)]
pub extern "C" fn node_victim(
    alloc: Global,
    handle: &mut Handle,
    found: &mut u8,
    page: &mut WarmPage,
) -> i32
    ensures called { OnHandle (Surely (Names page.old found.new page.new))
        handle.old.held.node result handle.new.held.node }
    ensures closed { handle.old.held.node ≡ None → (found.new ≡ found.old) × (page.new ≡ page.old) }
{
    let Some(mut node) = handle.take(alloc) else {
        return closed();
    };
    put_page(node.victim(), found, page);
    put_back(handle, node, Ok(()))
}

/// Writes the hottest pages of the history, hottest first, and their number: as many as there is
/// room for, or all.
///
/// # Errors
/// 1: an allocation failed. `pages` and `count` are unchanged.
#[unsafe(no_mangle)]
pub extern "C" fn node_list(
    alloc: Global,
    handle: &mut Handle,
    pages: &mut [WarmPage],
    count: &mut usize,
) -> i32
    ensures called { OnHandle (Lists pages.old count.old pages.new count.new)
        handle.old.held.node result handle.new.held.node }
    ensures closed { handle.old.held.node ≡ None
        → (pages.new ≡ pages.old) × (count.new ≡ count.old) }
{
    let Some(mut node) = handle.take(alloc) else {
        return closed();
    };
    let done = node.list(alloc, pages, count);
    put_back(handle, node, done)
}

/// Loads the hottest page that is in no frame, of as many of the hottest pages as the pool has
/// frames, and writes whether there was one, 1 or 0, and which; `page` is unchanged if there was
/// none.
///
/// # Errors
/// `found` and `page` are unchanged.
/// - 1: an allocation failed.
/// - 6 to 9, in the order of [`warm_pool::Pool::load`].
#[unsafe(no_mangle)]
pub extern "C" fn node_step(
    alloc: Global,
    handle: &mut Handle,
    found: &mut u8,
    page: &mut WarmPage,
) -> i32
    ensures called { OnHandle (StepsWarmUp found.old page.old found.new page.new)
        handle.old.held.node result handle.new.held.node }
    ensures closed { handle.old.held.node ≡ None → (found.new ≡ found.old) × (page.new ≡ page.old) }
{
    let Some(mut node) = handle.take(alloc) else {
        return closed();
    };
    match node.step() {
        Ok(loaded) => {
            put_page(loaded, found, page);
            put_back(handle, node, Ok(()))
        }
        Err(why) => put_back(handle, node, Err(why)),
    }
}

/// Writes whether there is a page that [`node_step`] would load, 1 or 0, and which; `page` is
/// unchanged if there is none. Nothing is loaded: C reads the page, and pins it by
/// [`node_pin_filled`].
///
/// # Errors
/// 1: an allocation failed. `found` and `page` are unchanged.
#[unsafe(no_mangle)]
pub extern "C" fn node_next(
    alloc: Global,
    handle: &mut Handle,
    found: &mut u8,
    page: &mut WarmPage,
) -> i32
    ensures called { OnHandle (NamesNext found.old page.old found.new page.new)
        handle.old.held.node result handle.new.held.node }
    ensures closed { handle.old.held.node ≡ None → (found.new ≡ found.old) × (page.new ≡ page.old) }
{
    let Some(mut node) = handle.take(alloc) else {
        return closed();
    };
    match node.next() {
        Ok(next) => {
            put_page(next, found, page);
            put_back(handle, node, Ok(()))
        }
        Err(why) => put_back(handle, node, Err(why)),
    }
}

/// Writes the frame with the first 1000 entries of a bucket, of those whose latest stamp is not
/// before the time `since`, and, if `has_after`, whose page is greater than `after`; its length;
/// how many entries it has; whether more of them follow, 1 or 0; and the page of the last one,
/// after which to go on. If there is none, `last` is unchanged.
///
/// # Errors
/// The buffer, `entries`, `more` and `last` are unchanged.
/// - 68: the bucket's number is not valid.
/// - 1: an allocation failed.
/// - 66: the frame does not fit; its length is written.
#[unsafe(no_mangle)]
pub extern "C" fn node_send_since(
    alloc: Global,
    handle: &mut Handle,
    bucket: u8,
    since: u64,
    has_after: bool,
    after: WarmPage,
    frame: &mut [u8],
    len: &mut usize,
    entries: &mut usize,
    more: &mut u8,
    last: &mut WarmPage,
) -> i32
    ensures called { OnHandle (SendsSince bucket since (page_if has_after after)
        (send_buffers frame.old len.old entries.old more.old last.old)
        (send_buffers frame.new len.new entries.new more.new last.new)) handle.old.held.node result
        handle.new.held.node }
    ensures closed { handle.old.held.node ≡ None
        → send_buffers frame.new len.new entries.new more.new last.new
        ≡ send_buffers frame.old len.old entries.old more.old last.old }
{
    let Some(mut node) = handle.take(alloc) else {
        return closed();
    };
    let after = page_if(has_after, after);
    let done = node.send_since(alloc, bucket, since, after, frame, len, entries, more, last);
    put_back(handle, node, done)
}

/// Writes back one page, if it is in a frame and dirty, and writes whether it was, 1 or 0. No
/// device is flushed.
///
/// # Errors
/// 12: the write failed. Of what a caller sees, only counts of failures have changed; `written` is
/// unchanged.
#[unsafe(no_mangle)]
pub extern "C" fn node_write_back_page(
    alloc: Global,
    handle: &mut Handle,
    page: WarmPage,
    written: &mut u8,
) -> i32
    ensures called { OnHandle (NodeWritesBackPage page written.old written.new)
        handle.old.held.node result handle.new.held.node }
    ensures closed { handle.old.held.node ≡ None → written.new ≡ written.old }
{
    let Some(mut node) = handle.take(alloc) else {
        return closed();
    };
    let done = node.write_back_page(page, written);
    put_back(handle, node, done)
}

/// Writes back the dirty pages of one device, and flushes it if it is unflushed.
///
/// # Errors
/// In this order. Of what a caller sees, only counts of failures have changed.
/// - 4: there is no device of this number.
/// - 12: a write or the flush failed.
#[unsafe(no_mangle)]
pub extern "C" fn node_flush_device(alloc: Global, handle: &mut Handle, dev: u16) -> i32
    ensures { OnHandle (FlushesDevice dev) handle.old.held.node result handle.new.held.node }
{
    on_open(alloc, handle, |node| node.flush_device(dev))
}

/// Evicts the pages of a device with the number `from` and above without writing them.
///
/// # Errors
/// In this order; nothing has changed.
/// - 4: there is no device of this number.
/// - 11: one of the pages is pinned.
#[unsafe(no_mangle)]
pub extern "C" fn node_forget_pages(alloc: Global, handle: &mut Handle, dev: u16, from: u64) -> i32
    ensures { OnHandle (ForgetsPages dev from) handle.old.held.node result handle.new.held.node }
{
    on_open(alloc, handle, |node| node.forget_pages(dev, from))
}

/// Replaces a device with one over another descriptor: the pages of the old one are written back,
/// it is flushed, and its pages are evicted. The history is kept.
///
/// # Errors
/// In this order, and 1 if an allocation failed before 11. The devices are unchanged.
/// - 4: there is no device of this number, or the pages of the new one exceed 2^63 - 1 bytes.
/// - 69: two devices would be of one file.
/// - 11: a page of the old device is pinned.
/// - 12: a write or the flush of the old device failed.
#[unsafe(no_mangle)]
pub extern "C" fn node_replace(
    alloc: Global,
    handle: &mut Handle,
    dev: u16,
    device: &WarmDevice,
) -> i32
    ensures { OnHandle (Replaces dev device.now) handle.old.held.node result
        handle.new.held.node }
{
    on_open(alloc, handle, |node| node.replace(alloc, dev, device))
}

/// Writes what the pool has counted since the handle was opened, and how many pages are resident
/// and dirty.
#[unsafe(no_mangle)]
pub extern "C" fn node_counts(
    alloc: Global,
    handle: &mut Handle,
    counters: &mut WarmCounters,
) -> i32
    ensures called { OnHandle (Surely (CountsPool counters.new)) handle.old.held.node result
        handle.new.held.node }
    ensures closed { handle.old.held.node ≡ None → counters.new ≡ counters.old }
{
    let Some(node) = handle.take(alloc) else {
        return closed();
    };
    *counters = node.counts();
    put_back(handle, node, Ok(()))
}

/// Writes what a device has counted since it was made.
///
/// # Errors
/// 4: there is no device of this number. `counters` is unchanged.
#[unsafe(no_mangle)]
pub extern "C" fn node_device_counts(
    alloc: Global,
    handle: &mut Handle,
    dev: u16,
    counters: &mut WarmDeviceCounters,
) -> i32
    ensures called { OnHandle (CountsDevice dev counters.old counters.new)
        handle.old.held.node result handle.new.held.node }
    ensures closed { handle.old.held.node ≡ None → counters.new ≡ counters.old }
{
    let Some(node) = handle.take(alloc) else {
        return closed();
    };
    let done = node.device_counts(dev, counters);
    put_back(handle, node, done)
}

/// Writes whether a call of a device has failed, 1 or 0, and which did last; if none has, `failure`
/// is unchanged.
#[unsafe(no_mangle)]
pub extern "C" fn node_last_failure(
    alloc: Global,
    handle: &mut Handle,
    found: &mut u8,
    failure: &mut WarmFailure,
) -> i32
    ensures called { OnHandle (Surely (SaysFailure failure.old found.new failure.new))
        handle.old.held.node result handle.new.held.node }
    ensures closed { handle.old.held.node ≡ None
        → (found.new ≡ found.old) × (failure.new ≡ failure.old) }
{
    let Some(node) = handle.take(alloc) else {
        return closed();
    };
    node.last_failure(found, failure);
    put_back(handle, node, Ok(()))
}

/// Writes how many pages the history knows.
#[unsafe(no_mangle)]
pub extern "C" fn node_history_length(alloc: Global, handle: &mut Handle, number: &mut usize) -> i32
    ensures called { OnHandle (Surely (CountsPages number.new)) handle.old.held.node result
        handle.new.held.node }
    ensures closed { handle.old.held.node ≡ None → number.new ≡ number.old }
{
    let Some(node) = handle.take(alloc) else {
        return closed();
    };
    *number = node.count();
    put_back(handle, node, Ok(()))
}

/// Writes a dump of the history to the descriptor's file, from byte 0 on, and syncs it. The handle
/// is unchanged.
///
/// # Errors
/// The file may then hold any part of the dump.
/// - 1: an allocation failed.
/// - 82: the file was not written or not synced.
#[unsafe(no_mangle)]
pub extern "C" fn node_save(alloc: Global, handle: &mut Handle, fd: i32) -> i32
    ensures { OnHandle Saves handle.old.held.node result handle.new.held.node }
{
    on_open(alloc, handle, |node| node.save(alloc, Descriptor::new(fd)))
}

/// Reads the dump that the first `length` bytes of the descriptor's file are, and joins its
/// history, all or nothing.
///
/// # Errors
/// Nothing that a caller sees has changed.
/// - 35 to 42, 77 to 80: the bytes are no dump, by the first fault from left to right.
/// - 81: the file was not read.
/// - 1: an allocation failed.
#[unsafe(no_mangle)]
pub extern "C" fn node_load(alloc: Global, handle: &mut Handle, fd: i32, length: u64) -> i32
    ensures { OnHandle (Loads None) handle.old.held.node result handle.new.held.node }
{
    on_open(
        alloc,
        handle,
        |node| node.load(alloc, Descriptor::new(fd), length),
    )
}
