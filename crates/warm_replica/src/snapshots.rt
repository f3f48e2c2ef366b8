//! Calls and replies whose bytes lie in a frame, as snapshots. No such value exists at run time.
//!
//! A snapshot has no bytes and owns nothing, so only clauses say what it is of. `tell_bytes` and
//! `tell_write` make it one of another value. They do nothing at run time, and are proved by hand.
ghost use Rattle.std.specs.Prelude.{◌≡◌, length};
ghost use Rattle.warm_gossip.specs.declared.call.Call.TheVariants.{Read, Write};
ghost use Rattle.warm_gossip.specs.declared.call.Reply.TheVariants.{Bytes, Done, Refused};
ghost use Rattle.warm_gossip.specs.declared.fault.NodeFault.TheVariants.{StaleSlot};

use boxcar::tag::{Names, Tag};
use std::snapshot::Snapshot;
use warm_gossip::{Call, NodeFault, Reply};
use warm_pool::Slot;
use warm_turn::CallMade;

// A tag of the bytes of a slice.
struct OfPage;

impl<'a> Names<&'a [u8]> for OfPage {
    ghost numbers = { λ bytes. bytes.now };
}

// The bytes, as contracts see them.
#[inline(always)]
pub(crate) fn tag_of(bytes: &[u8]) -> Tag
    ensures { result.numbers ≡ bytes.now }
{
    Tag::of::<&[u8], OfPage>(&bytes)
}

// Makes the snapshot one of the reply that has these bytes.
#[inline(always)]
fn tell_bytes(_told: &mut Snapshot<Reply>, _bytes: &Tag)
    ensures { _told.new.value ≡ Bytes _bytes.now.numbers }
{}

// Makes the snapshot one of the call that writes these bytes from the first of the slot's page on.
#[inline(always)]
fn tell_write(_told: &mut Snapshot<Call>, _slot: &Slot, _bytes: &Tag)
    ensures { _told.new.value ≡ Write _slot.now 0 _bytes.now.numbers }
{}

// The call that reads these bytes, which are `len`, from the first of the slot's page on. Its reply
// has them.
#[inline(always)]
pub(crate) fn read_made(slot: Slot, len: usize, bytes: &Tag) -> CallMade<Call, Reply>
    ensures call { result.call.value ≡ Read slot 0 len }
    ensures reply { result.reply.value ≡ Bytes bytes.now.numbers }
{
    let call = Call::Read { slot, at: 0, len };
    let done = Reply::Done;
    let mut reply = Snapshot::of(&done);
    tell_bytes(&mut reply, bytes);
    CallMade {
        call: Snapshot::of(&call),
        reply,
    }
}

// The call that writes these bytes from the first of the slot's page on. It is done.
#[inline(always)]
pub(crate) fn write_made(slot: Slot, bytes: &Tag) -> CallMade<Call, Reply>
    ensures call { result.call.value ≡ Write slot 0 bytes.now.numbers }
    ensures reply { result.reply.value ≡ Done }
{
    let victim = Call::Victim;
    let done = Reply::Done;
    let mut call = Snapshot::of(&victim);
    tell_write(&mut call, &slot, bytes);
    CallMade {
        call,
        reply: Snapshot::of(&done),
    }
}

// The call that reads no bytes of the slot's page. It is refused, since the slot doesn't hold it.
#[inline(always)]
pub(crate) fn stale_read(slot: Slot) -> CallMade<Call, Reply>
    ensures call { result.call.value ≡ Read slot 0 0 }
    ensures reply { result.reply.value ≡ Refused StaleSlot }
{
    let call = Call::Read {
        slot,
        at: 0,
        len: 0,
    };
    let reply = Reply::Refused(NodeFault::StaleSlot);
    CallMade {
        call: Snapshot::of(&call),
        reply: Snapshot::of(&reply),
    }
}
