//! The functions that C calls for a call of a whole replica: a visit, which names the shard that it
//! wants next, and is let in there. `c/nodes.h` has their prototypes.
//!
//! An open handle has one visit after the other, of one replica in its shards. Between two of
//! them it is idle: it names no shard, and has made nothing.
ghost use Rattle.std.specs.Prelude.{◌≡◌, Bool, None, Some};
ghost use Rattle.warm_visits.specs.Visits.{copy_visit, offer_visit, raise_visit};
ghost use Rattle.warm_c.specs.Handles.{OnHandle, Surely};
ghost use Rattle.warm_c_calls.specs.Visits.{BeginsAbsorb, BeginsLoad, BeginsOrKeeps, BeginsReceive};
ghost use Rattle.warm_c.specs.VisitHandles.{EndsVisit, EntersNode};
ghost use Rattle.warm_c_calls.specs.Visits.{BeginsVisit, HandsOutNext, ListsCopy};
ghost use Rattle.warm_c.specs.VisitHandles.{NamesShard, OpensVisits};
ghost use Rattle.warm_c_calls.specs.Visits.{SavesCopy, SaysKept, SaysResult};

use crate::called::closed;
use crate::handle::Handle;
use crate::visit_called::{on_visit, put_back};
use crate::visit_handle::VisitHandle;
use std::alloc::Global;
use std::mem::swap;
use warm_c_base::{Descriptor, Refusal, WarmPage, WarmReference, status_of};
use warm_c_calls::{NodeLimits, OpenVisit};
use warm_gossip::NodeFault;
use warm_stamps::ReplicaId;
use warm_visits::{Visit, is_shard_count};

/// Opens a closed handle of visits of this replica, in this many shards. Its visit is idle.
///
/// # Errors
/// In this order. After 65 the handle is unchanged; after any other it is closed.
/// - 65: the handle is open.
/// - 67: the replica's number is not valid.
/// - 72: there cannot be this many shards.
/// - 1: an allocation failed.
#[unsafe(no_mangle)]
pub extern "C" fn visit_open(
    alloc: Global,
    handle: &mut VisitHandle,
    replica: u16,
    shards: usize,
) -> i32
    ensures { OpensVisits replica shards handle.old.held.visit result handle.new.held.visit }
{
    if let Some(held) = handle.take(alloc) {
        *handle = VisitHandle::of(held);
        return status_of(Err(Refusal::AlreadyOpen));
    }
    let Ok(replica) = ReplicaId::new(replica) else {
        return status_of(Err(Refusal::BadReplica));
    };
    if !is_shard_count(shards) {
        return status_of(Err(Refusal::BadShards));
    }
    let visit = Visit::idle(replica, shards);
    match Box::new(alloc, OpenVisit { visit }) {
        Ok(held) => {
            *handle = VisitHandle::of(held);
            status_of(Ok(()))
        }
        Err(_) => status_of(Err(Refusal::Node(NodeFault::Memory))),
    }
}

/// Closes a handle and drops its visit; a closed one stays closed.
#[unsafe(no_mangle)]
pub extern "C" fn visit_close(alloc: Global, handle: &mut VisitHandle)
    ensures { handle.new.held.visit ≡ None }
{
    let _ = handle.take(alloc);
}

/// Begins a visit that adds each reference to the history of its page's shard.
///
/// # Errors
/// In this order; the visit before is kept.
/// - 67: one of them has a replica's number that is not valid.
/// - 1: an allocation failed.
#[unsafe(no_mangle)]
pub extern "C" fn visit_absorb(
    alloc: Global,
    handle: &mut VisitHandle,
    references: &[WarmReference],
) -> i32
    ensures { OnHandle (BeginsAbsorb references.now) handle.old.held.visit result
        handle.new.held.visit }
{
    on_visit(alloc, handle, |visit| visit.absorb(alloc, references))
}

/// Begins a visit that raises the horizon of each shard to this time, unless it is later already.
/// Allocation-free.
#[unsafe(no_mangle)]
pub extern "C" fn visit_raise(alloc: Global, handle: &mut VisitHandle, time: u64) -> i32
    ensures { OnHandle (Surely (BeginsVisit (λ id n. raise_visit id n time))) handle.old.held.visit
        result handle.new.held.visit }
{
    let Some(mut visit) = handle.take(alloc) else {
        return closed();
    };
    visit.raise(time);
    put_back(handle, visit, Ok(()))
}

/// Begins a visit that collects the digests and the latest horizon of the shards, to be handed out.
///
/// # Errors
/// 1: an allocation failed; the visit before is kept.
#[unsafe(no_mangle)]
pub extern "C" fn visit_offer(alloc: Global, handle: &mut VisitHandle) -> i32
    ensures { OnHandle (BeginsOrKeeps offer_visit) handle.old.held.visit result
        handle.new.held.visit }
{
    on_visit(alloc, handle, |visit| visit.offer(alloc))
}

/// Begins a visit that receives the message of a frame, which the limits allow: the shards take in
/// its horizon, and each the entries of its pages. Its answers are to be handed out.
///
/// # Errors
/// In this order, and 1 at any point if an allocation failed; the visit before is kept.
/// - 34 to 42: the bytes are no frame, by the first fault from left to right.
/// - 70: the horizon is later than one of its two limits.
/// - 71: a stamp is later than the limit of times.
/// - 84: the history would know too many pages, if each entry were of a new one.
#[unsafe(no_mangle)]
pub extern "C" fn visit_receive(
    alloc: Global,
    handle: &mut VisitHandle,
    limits: &NodeLimits,
    frame: &[u8],
) -> i32
    ensures { OnHandle (BeginsReceive limits.now frame.now) handle.old.held.visit result
        handle.new.held.visit }
{
    on_visit(alloc, handle, |visit| visit.receive(alloc, limits, frame))
}

/// Begins a visit that joins copies of the histories of all shards, for [`visit_list`] and
/// [`visit_save`].
///
/// # Errors
/// 1: an allocation failed; the visit before is kept.
#[unsafe(no_mangle)]
pub extern "C" fn visit_copy(alloc: Global, handle: &mut VisitHandle) -> i32
    ensures { OnHandle (BeginsOrKeeps copy_visit) handle.old.held.visit result
        handle.new.held.visit }
{
    on_visit(alloc, handle, |visit| visit.copy(alloc))
}

/// Reads the dump that the first `length` bytes of the descriptor's file are, and begins a visit in
/// which each shard joins what it has of its pages.
///
/// # Errors
/// The visit before is kept.
/// - 35 to 42, 77 to 80: the bytes are no dump, by the first fault from left to right.
/// - 81: the file was not read.
/// - 1: an allocation failed.
#[unsafe(no_mangle)]
pub extern "C" fn visit_load(alloc: Global, handle: &mut VisitHandle, fd: i32, length: u64) -> i32
    ensures { OnHandle (BeginsLoad None) handle.old.held.visit result handle.new.held.visit }
{
    on_visit(
        alloc,
        handle,
        |visit| visit.load(alloc, Descriptor::new(fd), length),
    )
}

/// Returns whether the visit wants to be let into a shard, and writes which; else `shard` is
/// unchanged. It wants none if its errands are done, if a shard has refused one, or while a message
/// waits to be handed out. Allocation-free.
#[unsafe(no_mangle)]
pub extern "C" fn visit_next(alloc: Global, handle: &mut VisitHandle, shard: &mut usize) -> bool
    ensures { NamesShard handle.old.held.visit shard.old result shard.new handle.new.held.visit }
{
    let Some(visit) = handle.take(alloc) else {
        return false;
    };
    let next = visit.next();
    *handle = VisitHandle::of(visit);
    match next {
        Some(wanted) => {
            *shard = wanted;
            true
        }
        None => false,
    }
}

/// Lets the visit into a node, which is that of the shard that [`visit_next`] names: it runs its
/// next errand there. If it wants no shard, or one of the handles is closed, nothing changes.
#[unsafe(no_mangle)]
pub extern "C" fn visit_enter(alloc: Global, handle: &mut VisitHandle, node: &mut Handle)
    ensures { EntersNode handle.old.held.visit node.old.held.node handle.new.held.visit
        node.new.held.node }
{
    let Some(mut visit) = handle.take(alloc) else {
        return;
    };
    let Some(mut entered) = node.take(alloc) else {
        *handle = VisitHandle::of(visit);
        return;
    };
    visit.enter(&mut entered);
    *node = Handle::of(entered);
    *handle = VisitHandle::of(visit);
}

/// Returns 0 if no shard has refused an errand. A refusal is taken away, so that the visit goes on
/// if it is let in again.
///
/// # Errors
/// 1: a shard had no memory for its errand.
#[unsafe(no_mangle)]
pub extern "C" fn visit_status(alloc: Global, handle: &mut VisitHandle) -> i32
    ensures { OnHandle SaysResult handle.old.held.visit result handle.new.held.visit }
{
    on_visit(alloc, handle, |visit| visit.result())
}

/// Writes the earliest horizon that a shard has, of a visit that raised them; else it is unchanged.
#[unsafe(no_mangle)]
pub extern "C" fn visit_kept(alloc: Global, handle: &mut VisitHandle, horizon: &mut u64) -> i32
    ensures called { OnHandle (Surely (SaysKept horizon.old horizon.new)) handle.old.held.visit
        result handle.new.held.visit }
    ensures closed { handle.old.held.visit ≡ None → horizon.new ≡ horizon.old }
{
    let Some(visit) = handle.take(alloc) else {
        return closed();
    };
    visit.kept(horizon);
    put_back(handle, visit, Ok(()))
}

/// Hands out the offer, or the next message of the answers: writes its frame and its length;
/// length 0 if there is none.
///
/// # Errors
/// The buffer is unchanged, and the message waits.
/// - 1: an allocation failed.
/// - 66: the frame does not fit; its length is written.
#[unsafe(no_mangle)]
pub extern "C" fn visit_message(
    alloc: Global,
    handle: &mut VisitHandle,
    frame: &mut [u8],
    len: &mut usize,
) -> i32
    ensures called { OnHandle (HandsOutNext frame.old len.old frame.new len.new)
        handle.old.held.visit result handle.new.held.visit }
    ensures closed { handle.old.held.visit ≡ None
        → (frame.new ≡ frame.old) × (len.new ≡ len.old) }
{
    let Some(mut visit) = handle.take(alloc) else {
        return closed();
    };
    let done = visit.hand_out(alloc, frame, len);
    put_back(handle, visit, done)
}

/// Writes the hottest pages of the copy, hottest first, and their number: as many as there is room
/// for, or all.
///
/// # Errors
/// In this order; `pages` and `count` are unchanged.
/// - 64: the handle is closed, or its visit copies nothing.
/// - 1: an allocation failed.
#[unsafe(no_mangle)]
pub extern "C" fn visit_list(
    alloc: Global,
    handle: &mut VisitHandle,
    pages: &mut [WarmPage],
    count: &mut usize,
) -> i32
    ensures called { OnHandle (ListsCopy pages.old count.old pages.new count.new)
        handle.old.held.visit result handle.new.held.visit }
    ensures closed { handle.old.held.visit ≡ None
        → (pages.new ≡ pages.old) × (count.new ≡ count.old) }
{
    let Some(visit) = handle.take(alloc) else {
        return closed();
    };
    let done = visit.list(alloc, pages, count);
    put_back(handle, visit, done)
}

/// Writes a dump of the copy to the descriptor's file, from byte 0 on, and syncs it.
///
/// # Errors
/// The file may then hold any part of the dump.
/// - 64: the handle is closed, or its visit copies nothing.
/// - 1: an allocation failed.
/// - 82: the file was not written or not synced.
#[unsafe(no_mangle)]
pub extern "C" fn visit_save(alloc: Global, handle: &mut VisitHandle, fd: i32) -> i32
    ensures { OnHandle SavesCopy handle.old.held.visit result handle.new.held.visit }
{
    let Some(visit) = handle.take(alloc) else {
        return closed();
    };
    let done = visit.save(alloc, Descriptor::new(fd));
    put_back(handle, visit, done)
}

/// Exchanges the visits of two handles.
#[unsafe(no_mangle)]
pub extern "C" fn visit_swap(handle: &mut VisitHandle, other: &mut VisitHandle)
    ensures one { handle.new.held.visit ≡ other.old.held.visit }
    ensures other { other.new.held.visit ≡ handle.old.held.visit }
{
    swap(handle, other);
}

/// Leaves the visit idle, and frees what it had.
#[unsafe(no_mangle)]
pub extern "C" fn visit_end(alloc: Global, handle: &mut VisitHandle)
    ensures { EndsVisit handle.old.held.visit handle.new.held.visit }
{
    if let Some(mut visit) = handle.take(alloc) {
        visit.end();
        *handle = VisitHandle::of(visit);
    }
}
