//! The visitors of a shard: each has the shard for one turn.
ghost use Rattle.std.specs.Prelude.{◌≡◌, ℕ, List, None, length};
ghost use Rattle.std.specs.Fn.{FnOnceReturnsAt, FnOnceReturnsAtMut};
ghost use Rattle.warm_visits.specs.ShardNumbers.{shard_of};
ghost use Rattle.warm_shard_machine.specs.Visits.{ReadsInto, Shows, ShowsBoth, VisitWentAs};
ghost use Rattle.warm_shard_machine.specs.ShardSteps.{ShardStep};
ghost use Rattle.warm_shard_machine.specs.declared.calls.ShardCall.TheVariants.{Change, Look, Pin};
ghost use Rattle.warm_shard_machine.specs.declared.calls.ShardCall.TheVariants.{Read, Unpin};
ghost use Rattle.warm_shard_machine.specs.declared.calls.ShardReply.TheVariants.{Bytes, Done};
ghost use Rattle.warm_shard_machine.specs.declared.calls.ShardReply.TheVariants.{Pinned};

use crate::calls::{ShardCall, ShardReply};
use crate::lending::{Left, Shown, change_in, look_in};
use crate::shard::{Place, Shard, is_own_page, is_own_place};
use std::snapshot::Snapshot;
use warm_devices::PageDevice;
use warm_gossip::NodeFault;
use warm_pool::Slot;
use warm_stamps::{ByteList, PageId};
use warm_turn::{CallMade, Visit, Visited};

/// How a visit went.
pub enum Went<T> {
    /// It was made, and gives this.
    Given(T),
    /// The node refused it.
    Refused(NodeFault),
    /// The page is of another shard. Nothing has changed.
    Foreign,
}

// A visit with this output. The call and the reply exist only in contracts.
#[inline(always)]
pub(crate) fn visited<T>(
    call: ShardCall,
    reply: ShardReply,
    output: T,
) -> Visited<ShardCall, ShardReply, T>
    ensures call { result.made.call.value ≡ call }
    ensures reply { result.made.reply.value ≡ reply }
    ensures output { result.output ≡ output }
{
    let made = CallMade {
        call: Snapshot::of(&call),
        reply: Snapshot::of(&reply),
    };
    Visited { made, output }
}

// A visit that gives these bytes, which are its reply too.
#[inline(always)]
fn shown(call: ShardCall, bytes: Vec<u8>) -> Visited<ShardCall, ShardReply, ReadInto>
    ensures call { result.made.call.value ≡ call }
    ensures reply { result.made.reply.value ≡ Bytes bytes.items }
    ensures bytes { result.output.into.items ≡ bytes.items }
    ensures read { result.output.refused ≡ None }
{
    let reply = ShardReply::Bytes(ByteList::of(bytes));
    let made = CallMade {
        call: Snapshot::of(&call),
        reply: Snapshot::of(&reply),
    };
    Visited {
        made,
        output: ReadInto {
            into: bytes_of(reply),
            refused: None,
        },
    }
}

// The bytes of a reply of bytes.
fn bytes_of(reply: ShardReply) -> Vec<u8>
    requires { (bytes : List ℕ) × (reply ≡ Bytes bytes) }
    ensures { reply ≡ Bytes result.items }
{
    match reply {
        ShardReply::Bytes(bytes) => bytes.into_vec(),
        _ => unreachable!(),
    }
}

/// Pins a page.
#[derive(Drop)]
pub struct Pinning {
    /// The page.
    pub page: PageId,
}

impl<D: PageDevice + Send> Visit<Shard<D>> for Pinning {
    ghost use Rattle.std.specs.Prelude.{◌≡◌, ⊤};
    ghost use Rattle.warm_shard_machine.specs.Visits.{VisitWentAs};
    ghost use Rattle.warm_shard_machine.specs.declared.calls.ShardCall.TheVariants.{Pin};
    ghost use Rattle.warm_shard_machine.specs.declared.calls.ShardReply.TheVariants.{Pinned};

    type Output = Went<Slot>;

    ghost ready = { λ _. ⊤ };

    ghost makes = { λ v output call reply. (call ≡ Pin v.page)
        × VisitWentAs (λ slot said. said ≡ Pinned slot) output reply };

    fn visit(self, shard: &mut Shard<D>) -> Visited<ShardCall, ShardReply, Went<Slot>> {
        let Pinning { page } = self;
        shard.pin(page)
    }
}

/// Removes a pin.
#[derive(Drop)]
pub struct Unpinning {
    /// The slot of the pinned page.
    pub slot: Slot,
}

impl<D: PageDevice + Send> Visit<Shard<D>> for Unpinning {
    ghost use Rattle.std.specs.Prelude.{◌≡◌, ⊤};
    ghost use Rattle.warm_shard_machine.specs.Visits.{VisitWentAs};
    ghost use Rattle.warm_shard_machine.specs.declared.calls.ShardCall.TheVariants.{Unpin};
    ghost use Rattle.warm_shard_machine.specs.declared.calls.ShardReply.TheVariants.{Done};

    type Output = Went<()>;

    ghost ready = { λ _. ⊤ };

    ghost makes = { λ v output call reply. (call ≡ Unpin v.slot)
        × VisitWentAs (λ given said. said ≡ Done) output reply };

    fn visit(self, shard: &mut Shard<D>) -> Visited<ShardCall, ShardReply, Went<()>> {
        let Unpinning { slot } = self;
        shard.unpin(slot)
    }
}

/// Reads bytes of a slot's page into a vector, as many as it has, and gives it back. The vector goes
/// in and out, since contracts lose what is left behind a `&mut` in a visitor.
#[derive(Drop)]
pub struct Reading {
    /// The slot, which must hold its page.
    pub slot: Slot,
    /// The first byte.
    pub at: usize,
    /// The vector.
    pub into: Vec<u8>,
}

/// The vector that was read into, or why it is unchanged.
#[derive(Drop)]
pub struct ReadInto {
    /// The vector.
    pub into: Vec<u8>,
    /// Why the node refused the read, if it did.
    pub refused: Option<NodeFault>,
}

impl<D: PageDevice + Send> Visit<Shard<D>> for Reading {
    ghost use Rattle.std.specs.Prelude.{◌≡◌, ⊤, length};
    ghost use Rattle.warm_shard_machine.specs.Visits.{ReadsInto};
    ghost use Rattle.warm_shard_machine.specs.declared.calls.ShardCall.TheVariants.{Read};

    type Output = ReadInto;

    ghost ready = { λ _. ⊤ };

    ghost makes = { λ v output call reply. (call ≡ Read v.slot v.at (length v.into.items))
        × ReadsInto v.into.items output.refused output.into.items reply };

    fn visit(self, shard: &mut Shard<D>) -> Visited<ShardCall, ShardReply, ReadInto> {
        let Reading { slot, at, into } = self;
        shard.read_into(slot, at, into)
    }
}

/// Calls a closure with the bytes of a page where they lie.
#[derive(Drop)]
pub struct Looking<F> {
    /// The page.
    pub page: PageId,
    /// Where the page is.
    pub place: Place,
    /// The closure.
    pub f: F,
}

impl<D: PageDevice + Send, T, F: FnOnce(&[u8]) -> T + Drop> Visit<Shard<D>> for Looking<F> {
    ghost use Rattle.std.specs.Prelude.{◌≡◌};
    ghost use Rattle.std.specs.Fn.{FnOnceReturnsAt};
    ghost use Rattle.warm_visits.specs.ShardNumbers.{shard_of};
    ghost use Rattle.warm_shard_machine.specs.Visits.{Shows, VisitWentAs};
    ghost use Rattle.warm_shard_machine.specs.declared.calls.ShardCall.TheVariants.{Look};

    type Output = Went<T>;

    ghost ready = { λ v. F.IsAlwaysCallable v.f
        × (shard_of v.place.count v.page ≡ v.place.number) };

    ghost makes = { λ v output call reply. (call ≡ Look v.page)
        × VisitWentAs (λ given. Shows (λ bytes. FnOnceReturnsAt F.FnOnce v.f bytes given))
        output reply };

    #[inline(always)]
    fn visit(self, shard: &mut Shard<D>) -> Visited<ShardCall, ShardReply, Went<T>> {
        let Looking { page, place, f } = self;
        shard.look(page, place, f)
    }
}

/// Calls a closure with the bytes of a page where they lie, to be written to.
#[derive(Drop)]
pub struct Changing<F> {
    /// The page.
    pub page: PageId,
    /// The closure.
    pub f: F,
}

impl<D: PageDevice + Send, T, F: FnOnce(&mut [u8]) -> T + Drop> Visit<Shard<D>> for Changing<F> {
    ghost use Rattle.std.specs.Prelude.{◌≡◌};
    ghost use Rattle.std.specs.Fn.{FnOnceReturnsAtMut};
    ghost use Rattle.warm_shard_machine.specs.Visits.{ShowsBoth, VisitWentAs};
    ghost use Rattle.warm_shard_machine.specs.declared.calls.ShardCall.TheVariants.{Change};

    type Output = Went<T>;

    ghost ready = { λ v. F.IsAlwaysCallable v.f };

    ghost makes = { λ v output call reply. (call ≡ Change v.page)
        × VisitWentAs (λ given. ShowsBoth (λ before after.
        FnOnceReturnsAtMut F.FnOnce v.f before given after)) output reply };

    #[inline(always)]
    fn visit(self, shard: &mut Shard<D>) -> Visited<ShardCall, ShardReply, Went<T>> {
        let Changing { page, f } = self;
        shard.change(page, f)
    }
}

impl<D: PageDevice> Shard<D> {
    // Pins a page of this shard.
    fn pin(&mut self, page: PageId) -> Visited<ShardCall, ShardReply, Went<Slot>>
        ensures call { result.made.call.value ≡ Pin page }
        ensures reply { VisitWentAs (λ slot said. said ≡ Pinned slot)
            result.output result.made.reply.value }
        ensures step { ShardStep self.old (Pin page) result.made.reply.value
            self.new }
    {
        let call = ShardCall::Pin(page);
        if !is_own_page(self.count, self.number, page) {
            return visited(call, ShardReply::Foreign, Went::Foreign);
        }
        match self.node.pin(page) {
            Ok(slot) => visited(call, ShardReply::Pinned(slot), Went::Given(slot)),
            Err(why) => visited(call, ShardReply::Refused(why), Went::Refused(why)),
        }
    }

    // Removes a pin.
    fn unpin(&mut self, slot: Slot) -> Visited<ShardCall, ShardReply, Went<()>>
        ensures call { result.made.call.value ≡ Unpin slot }
        ensures reply { VisitWentAs (λ given said. said ≡ Done)
            result.output result.made.reply.value }
        ensures step { ShardStep self.old (Unpin slot) result.made.reply.value
            self.new }
    {
        let call = ShardCall::Unpin(slot);
        match self.node.unpin(slot) {
            Ok(()) => visited(call, ShardReply::Done, Went::Given(())),
            Err(why) => visited(call, ShardReply::Refused(why), Went::Refused(why)),
        }
    }

    // Reads bytes of a slot's page into the whole of a vector, and gives it back.
    #[tactic(auto, using(crate::proofs::ReadIntoLemmas::not_memory, crate::proofs::ReadIntoLemmas::read_refused, crate::proofs::ReadIntoLemmas::read_same))]
    fn read_into(
        &self,
        slot: Slot,
        at: usize,
        mut into: Vec<u8>,
    ) -> Visited<ShardCall, ShardReply, ReadInto>
        ensures call { result.made.call.value ≡ Read slot at (length into.items) }
        ensures reply { ReadsInto into.items result.output.refused result.output.into.items
            result.made.reply.value }
        ensures step { ShardStep self.now (Read slot at (length into.items))
            result.made.reply.value self.now }
    {
        let len = into.len();
        let read = self.node.read_into(slot, at, &mut into);
        let call = ShardCall::Read { slot, at, len };
        match read {
            Ok(()) => shown(call, into),
            Err(why) => visited(
                call,
                ShardReply::Refused(why),
                ReadInto {
                    into,
                    refused: Some(why),
                },
            ),
        }
    }

    // Calls the closure with the bytes of a page of this shard.
    #[inline(always)]
    fn look<T, F: FnOnce(&[u8]) -> T + Drop>(
        &mut self,
        page: PageId,
        place: Place,
        f: F,
    ) -> Visited<ShardCall, ShardReply, Went<T>>
        requires callable { F.IsAlwaysCallable f }
        requires place { shard_of place.count page ≡ place.number }
        ensures call { result.made.call.value ≡ Look page }
        ensures reply { VisitWentAs (λ given. Shows (λ bytes.
            FnOnceReturnsAt F.FnOnce f bytes given))
            result.output result.made.reply.value }
        ensures step { ShardStep self.old (Look page) result.made.reply.value
            self.new }
    {
        if !is_own_place(self.count, self.number, page, place) {
            return visited(ShardCall::Look(page), ShardReply::Foreign, Went::Foreign);
        }
        match look_in(&mut self.node, page, f) {
            Ok(
                Shown {
                    slot,
                    bytes,
                    output,
                },
            ) => visited(
                ShardCall::Look(page),
                ShardReply::Looked { slot, bytes },
                Went::Given(output),
            ),
            Err(why) => visited(
                ShardCall::Look(page),
                ShardReply::Refused(why),
                Went::Refused(why),
            ),
        }
    }

    // Calls the closure with the bytes of a page of this shard, to be written to.
    #[inline(always)]
    fn change<T, F: FnOnce(&mut [u8]) -> T + Drop>(
        &mut self,
        page: PageId,
        f: F,
    ) -> Visited<ShardCall, ShardReply, Went<T>>
        requires callable { F.IsAlwaysCallable f }
        ensures call { result.made.call.value ≡ Change page }
        ensures reply { VisitWentAs (λ given. ShowsBoth (λ before after.
            FnOnceReturnsAtMut F.FnOnce f before given after))
            result.output result.made.reply.value }
        ensures step { ShardStep self.old (Change page) result.made.reply.value
            self.new }
    {
        if !is_own_page(self.count, self.number, page) {
            return visited(ShardCall::Change(page), ShardReply::Foreign, Went::Foreign);
        }
        match change_in(&mut self.node, page, f) {
            Ok(
                Left {
                    slot,
                    before,
                    after,
                    output,
                },
            ) => visited(
                ShardCall::Change(page),
                ShardReply::Changed {
                    slot,
                    before,
                    after,
                },
                Went::Given(output),
            ),
            Err(why) => visited(
                ShardCall::Change(page),
                ShardReply::Refused(why),
                Went::Refused(why),
            ),
        }
    }
}
