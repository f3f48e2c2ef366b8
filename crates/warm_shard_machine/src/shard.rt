//! One shard as a machine that threads share by turns.
ghost use Rattle.std.specs.Prelude.{◌≡◌, ◌↔◌, IsTrue};
ghost use Rattle.warm_visits.specs.ShardNumbers.{IsShardCount, shard_of};
ghost use Rattle.warm_shard_machine.specs.ShardSteps.{AnsweredAs, IsOwn, ShardStep};
ghost use Rattle.warm_shard_machine.specs.declared.calls.ShardCall.TheVariants.{Change};
ghost use Rattle.warm_shard_machine.specs.declared.calls.ShardCall.TheVariants.{Look};
ghost use Rattle.warm_shard_machine.specs.declared.calls.ShardCall.TheVariants.{ForgetPages};
ghost use Rattle.warm_shard_machine.specs.declared.calls.ShardCall.TheVariants.{PinZeroed, Send};
ghost use Rattle.warm_shard_machine.specs.declared.calls.ShardCall.TheVariants.{SendSince};
ghost use Rattle.warm_shard_machine.specs.declared.calls.ShardCall.TheVariants.{FlushDevice};
ghost use Rattle.warm_shard_machine.specs.declared.calls.ShardCall.TheVariants.{WritePage, Unpin};
ghost use Rattle.warm_shard_machine.specs.declared.calls.ShardCall.TheVariants.{Write, WritePages};
ghost use Rattle.warm_shard_machine.specs.declared.calls.ShardCall.TheVariants.{WriteSome};

use crate::calls::{ShardCall, ShardReply};
use crate::lending::{Left, Shown, change_in, look_in};
use std::alloc::Global;
use std::marker::Model;
use warm_devices::PageDevice;
use warm_frames::BoxedMessage;
use warm_gossip::{Node, NodeFault};
use warm_peer::SentPortion;
use warm_pool::Slot;
use warm_stamps::{Bucket, ByteList, PageId};
use warm_turn::Machine;
use warm_visits::shard_of;

/// One shard of a replica: a node, how many shards there are, and which of them it is.
///
/// It answers the calls of its node, and refuses those that bring a page of another shard. Contracts
/// see the three.
pub struct Shard<D: PageDevice> {
    alloc: Global,
    pub(crate) count: usize,
    pub(crate) number: usize,
    pub(crate) node: Node<D>,
}

// Written by hand, so that an owner makes one call on each exit path.
impl<D: PageDevice> Drop for Shard<D> {
    fn drop(self) {
        let Self {
            alloc: _,
            count: _,
            number: _,
            node,
        } = self;
        drop(node);
    }
}

impl<D: PageDevice> Model for Shard<D> {
    ghost use Rattle.warm_visits.specs.ShardNumbers.{IsShardCount};
    ghost use Rattle.warm_shard_machine.specs.ShardSteps.{ShardState};

    ghost Value = { ShardState };

    ghost view = { λ s. record { count = s.count; number = s.number; node = s.node } };

    ghost invariant = { λ s. IsShardCount s.count };
}

// Whether a page is of the shard of this number.
pub(crate) fn is_own_page(count: usize, number: usize, page: PageId) -> bool
    requires { IsShardCount count }
    ensures { IsTrue result ↔ (shard_of count page ≡ number) }
{
    shard_of(count, page) == number
}

/// Where a page is, or the next errand of a visit: the number of its shard, and of how many. A
/// caller has reckoned it.
#[derive(Clone, Copy)]
pub struct Place {
    /// How many shards there are.
    pub count: usize,
    /// The number of the shard.
    pub number: usize,
}

// Whether the shard of this number, of so many, is at that place.
pub(crate) fn is_place(place: Place, count: usize, number: usize) -> bool
    ensures { IsTrue result ↔ ((place.count ≡ count) × (place.number ≡ number)) }
{
    if place.count != count {
        return false;
    }
    place.number == number
}

// Whether a page is of the shard of this number. Mostly its place says so, and its shard is not
// reckoned again, which takes a division.
pub(crate) fn is_own_place(count: usize, number: usize, page: PageId, place: Place) -> bool
    requires count { IsShardCount count }
    requires place { shard_of place.count page ≡ place.number }
    ensures { IsTrue result ↔ (shard_of count page ≡ number) }
{
    if place.count == count && place.number == number {
        return true;
    }
    is_own_page(count, number, page)
}

// Whether each page that the call brings is of the shard of this number, and a visit goes there.
#[inline(always)]
fn is_own(count: usize, number: usize, call: &ShardCall) -> bool
    requires { IsShardCount count }
    ensures { IsTrue result ↔ IsOwn count number call.now }
{
    match call {
        ShardCall::Pin(page)
        | ShardCall::PinZeroed(page)
        | ShardCall::PinFilled { page, .. }
        | ShardCall::WritePage(page)
        | ShardCall::Look(page)
        | ShardCall::Change(page) => is_own_page(count, number, *page),
        ShardCall::Enter {
            count: of,
            number: at,
            ..
        } => {
            let place = Place {
                count: *of,
                number: *at,
            };
            is_place(place, count, number)
        }
        _ => true,
    }
}

// The entries that a node sends, in a box.
fn sent<D: PageDevice>(
    alloc: Global,
    node: &Node<D>,
    bucket: Bucket,
    after: Option<PageId>,
) -> Result<ShardReply, NodeFault>
    ensures { AnsweredAs node.now (Send bucket after) result node.now }
{
    let message = node.send(bucket, after)?;
    let boxed = BoxedMessage::new(alloc, message)?;
    Ok(ShardReply::Sent(boxed))
}

// What is new in a bucket since a time, in a box.
fn sent_since<D: PageDevice>(
    alloc: Global,
    node: &Node<D>,
    bucket: Bucket,
    since: u64,
    after: Option<PageId>,
) -> Result<ShardReply, NodeFault>
    ensures { AnsweredAs node.now (SendSince bucket since after) result node.now }
{
    let portion = node.send_since(bucket, since, after)?;
    let SentPortion { message, more } = portion;
    let boxed = BoxedMessage::new(alloc, message)?;
    Ok(ShardReply::Portion {
        message: boxed,
        more,
    })
}

// Writes back all dirty pages of a node. No device is flushed.
fn write_pages<D: PageDevice>(node: &mut Node<D>) -> Result<ShardReply, NodeFault>
    ensures { AnsweredAs node.old WritePages result node.new }
{
    // No more pages are dirty than there are frames.
    let frames = node.pool().frames();
    node.write_back_some(frames)?;
    Ok(ShardReply::Done)
}

// Writes back some dirty pages of a node, and says how many are left. No device is flushed.
fn write_some<D: PageDevice>(node: &mut Node<D>, limit: usize) -> Result<ShardReply, NodeFault>
    ensures { AnsweredAs node.old (WriteSome limit) result node.new }
{
    let left = node.write_back_some(limit)?;
    Ok(ShardReply::Dirty(left))
}

// Writes back a page of a node, if it is dirty, and says whether it was. No device is flushed.
fn write_page<D: PageDevice>(node: &mut Node<D>, page: PageId) -> Result<ShardReply, NodeFault>
    ensures { AnsweredAs node.old (WritePage page) result node.new }
{
    let was_dirty = node.write_back_page(page)?;
    Ok(ShardReply::WasDirty(was_dirty))
}

// Writes back the dirty pages of a device of a node, and flushes it.
fn flushed<D: PageDevice>(node: &mut Node<D>, dev: u16) -> Result<ShardReply, NodeFault>
    ensures { AnsweredAs node.old (FlushDevice dev) result node.new }
{
    node.flush_device(dev)?;
    Ok(ShardReply::Done)
}

// Has the node answer the call, or returns why it is refused.
//
// It is inlined at each place where a shard is called, as is all between: there the kind of the call
// is known, and one of these arms is left.
#[inline(always)]
fn answer<D: PageDevice>(
    alloc: Global,
    node: &mut Node<D>,
    call: ShardCall,
) -> Result<ShardReply, NodeFault>
    ensures { AnsweredAs node.old call result node.new }
{
    match call {
        ShardCall::Raise(time) => Ok(ShardReply::Kept(node.raise(time))),
        ShardCall::Pin(page) => Ok(ShardReply::Pinned(node.pin(page)?)),
        ShardCall::PinZeroed(page) => zeroed(node, page),
        ShardCall::PinFilled { .. } => Err(NodeFault::Memory),
        ShardCall::Unpin(slot) => unpinned(node, slot),
        ShardCall::Read { slot, at, len } => Ok(ShardReply::Bytes(node.read(slot, at, len)?)),
        ShardCall::Write { slot, at, bytes } => written(node, slot, at, bytes),
        ShardCall::Victim => Ok(ShardReply::Page(node.victim())),
        ShardCall::WarmStep => Ok(ShardReply::Loaded(node.warm_step()?)),
        ShardCall::WarmNext => Ok(ShardReply::Page(node.warm_next()?)),
        ShardCall::WarmList(n) => Ok(ShardReply::Pages(node.warm_list(n)?)),
        ShardCall::Send { bucket, after } => sent(alloc, node, bucket, after),
        ShardCall::SendSince {
            bucket,
            since,
            after,
        } => sent_since(alloc, node, bucket, since, after),
        ShardCall::WritePages => write_pages(node),
        ShardCall::WriteSome(limit) => write_some(node, limit),
        ShardCall::WritePage(page) => write_page(node, page),
        ShardCall::FlushDevice(dev) => flushed(node, dev),
        ShardCall::WriteBack => {
            node.write_back()?;
            Ok(ShardReply::Done)
        }
        ShardCall::ForgetPages { dev, from } => forgotten(node, dev, from),
        ShardCall::Retire { .. } => Err(NodeFault::Memory),
        ShardCall::Look(page) => looked(node, page),
        ShardCall::Change(page) => changed(node, page),
        ShardCall::Enter { .. } => Err(NodeFault::Memory),
    }
}

// Pins a page, and fills it with zeros.
fn zeroed<D: PageDevice>(node: &mut Node<D>, page: PageId) -> Result<ShardReply, NodeFault>
    ensures { AnsweredAs node.old (PinZeroed page) result node.new }
{
    let slot = node.pin_zeroed(page)?;
    Ok(ShardReply::Pinned(slot))
}

// Removes a pin.
fn unpinned<D: PageDevice>(node: &mut Node<D>, slot: Slot) -> Result<ShardReply, NodeFault>
    ensures { AnsweredAs node.old (Unpin slot) result node.new }
{
    node.unpin(slot)?;
    Ok(ShardReply::Done)
}

// Writes bytes into a slot's page.
fn written<D: PageDevice>(
    node: &mut Node<D>,
    slot: Slot,
    at: usize,
    bytes: ByteList,
) -> Result<ShardReply, NodeFault>
    ensures { AnsweredAs node.old (Write slot at bytes) result node.new }
{
    node.write(slot, at, bytes.as_slice())?;
    Ok(ShardReply::Done)
}

// Forgets the pages of a device from a number on.
fn forgotten<D: PageDevice>(
    node: &mut Node<D>,
    dev: u16,
    from: u64,
) -> Result<ShardReply, NodeFault>
    ensures { AnsweredAs node.old (ForgetPages dev from) result node.new }
{
    node.forget_pages(dev, from)?;
    Ok(ShardReply::Done)
}

// A look by nobody: the page is loaded if it isn't resident.
fn looked<D: PageDevice>(node: &mut Node<D>, page: PageId) -> Result<ShardReply, NodeFault>
    ensures { AnsweredAs node.old (Look page) result node.new }
{
    let Shown {
        slot,
        bytes,
        output: (),
    } = look_in(node, page, |_bytes: &[u8]| ())?;
    Ok(ShardReply::Looked { slot, bytes })
}

// A change by nobody: the page is loaded if it isn't resident, and is dirty.
fn changed<D: PageDevice>(node: &mut Node<D>, page: PageId) -> Result<ShardReply, NodeFault>
    ensures { AnsweredAs node.old (Change page) result node.new }
{
    let Left {
        slot,
        before,
        after,
        output: (),
    } = change_in(node, page, |_bytes: &mut [u8]| ())?;
    Ok(ShardReply::Changed {
        slot,
        before,
        after,
    })
}

impl<D: PageDevice> Shard<D> {
    /// The shard of this number, of `count` shards, over a node. Allocation-free.
    pub fn new(alloc: Global, count: usize, number: usize, node: Node<D>) -> Shard<D>
        requires { IsShardCount count }
        ensures { result ≡ record { count = count; number = number; node = node } }
    {
        Shard {
            alloc,
            count,
            number,
            node,
        }
    }

    /// Answers a call: `ShardStep`. One that is of another shard is answered `Foreign`, and nothing
    /// has changed.
    #[inline(always)]
    pub fn call(&mut self, call: ShardCall) -> ShardReply
        ensures { ShardStep self.old call result self.new }
    {
        if !is_own(self.count, self.number, &call) {
            return ShardReply::Foreign;
        }
        match answer(self.alloc, &mut self.node, call) {
            Ok(reply) => reply,
            Err(fault) => ShardReply::Refused(fault),
        }
    }

    /// Takes the shard apart and returns its node.
    pub fn into_node(self) -> Node<D>
        ensures { result ≡ self.node }
    {
        let Shard {
            alloc: _,
            count: _,
            number: _,
            node,
        } = self;
        node
    }
}

/// The state of a shard that threads share: the whole of it, with its devices and dirty flags. No
/// value of the type is made; contracts see it as a `ShardState`.
pub struct StateOfShard {
    _none: (),
}

impl Model for StateOfShard {
    ghost use Rattle.warm_shard_machine.specs.ShardSteps.{ShardState, no_state};

    ghost Value = { ShardState };

    ghost view = { λ _. no_state };
}

/// Every call is a step, so the replies of a turn are those of one legal history of steps.
impl<D: PageDevice + Send> Machine for Shard<D> {
    ghost use Rattle.warm_shard_machine.specs.ShardSteps.{ShardStep};

    type Call = ShardCall;

    type Reply = ShardReply;

    type State = StateOfShard;

    ghost view = { λ s. s };

    ghost goes = { ShardStep };

    #[inline(always)]
    fn call(&mut self, call: ShardCall) -> ShardReply {
        Shard::call(self, call)
    }
}
