//! Exchanging histories: what is offered and sent, what is taken in, and what is answered to it.
ghost use Rattle.std.specs.Prelude.{◌≡◌, ◌<◌, length, IfErr, IfOk, OnOk};
ghost use Rattle.warm_visits.specs.Visits.{join_visit, offer_visit};
ghost use Rattle.warm_shard_machine.specs.ShardSteps.{shard_of_bucket};
ghost use Rattle.warm_shard_machine.specs.declared.calls.ShardCall.TheVariants.{Send, SendSince};
ghost use Rattle.warm_shard_machine.specs.declared.calls.ShardReply.TheVariants.{Portion, Sent};
ghost use Rattle.warm_concurrent.specs.Attached.{AreOf, AreTurns, opened_id};
ghost use Rattle.warm_concurrent.specs.Clauses.{CallEnds};
ghost use Rattle.warm_concurrent.specs.Gossip.{ShardsOffer, ReceiveFails, ShardsReceive};
ghost use Rattle.warm_concurrent.specs.Visiting.{IsGoneThrough, StageFails, VisitFails};

use crate::fault::SharedFault;
use crate::shared::{Attached, SharedShards, call_shard};
use crate::visiting::{Stopped, StoppedInStage};
use std::alloc::Global;
use std::sync::Wait;
use warm_devices::PageDevice;
use warm_frames::{BoxedMessage, Message, MessageList};
use warm_history::History;
use warm_peer::SentPortion;
use warm_shard_machine::{Shard, ShardCall, ShardReply};
use warm_stamps::{Bucket, PageId};
use warm_turn::{Pass, Turn};
use warm_visits::Visit;

// Sends the first entries of a bucket of a shard.
fn send_in<D: PageDevice + Send, R: Wait>(
    rt: &R,
    turns: &Vec<Turn<Shard<D>>>,
    passes: &mut Vec<Pass<Shard<D>>>,
    shard: usize,
    bucket: Bucket,
    after: Option<PageId>,
) -> Result<BoxedMessage, SharedFault>
    requires turns { AreTurns turns.now.items }
    requires passes { AreOf turns.now.items passes.old.items }
    requires there { shard < length turns.now.items }
    ensures passes { AreOf turns.now.items passes.new.items }
    ensures ends { CallEnds passes.old.items shard (Send bucket after) Sent result
        passes.new.items }
{
    match call_shard(rt, turns, passes, shard, ShardCall::Send { bucket, after })? {
        ShardReply::Sent(message) => Ok(message),
        ShardReply::Refused(why) => Err(SharedFault::Node(why)),
        _ => unreachable!(),
    }
}

// Sends what is new in a bucket of a shard since a time.
fn send_since_in<D: PageDevice + Send, R: Wait>(
    rt: &R,
    turns: &Vec<Turn<Shard<D>>>,
    passes: &mut Vec<Pass<Shard<D>>>,
    shard: usize,
    bucket: Bucket,
    since: u64,
    after: Option<PageId>,
) -> Result<SentPortion, SharedFault>
    requires turns { AreTurns turns.now.items }
    requires passes { AreOf turns.now.items passes.old.items }
    requires there { shard < length turns.now.items }
    ensures passes { AreOf turns.now.items passes.new.items }
    ensures ends { CallEnds passes.old.items shard (SendSince bucket since after)
        (λ sent. Portion sent.message sent.more) result passes.new.items }
{
    let call = ShardCall::SendSince {
        bucket,
        since,
        after,
    };
    match call_shard(rt, turns, passes, shard, call)? {
        ShardReply::Portion { message, more } => Ok(SentPortion {
            message: message.into_message(),
            more,
        }),
        ShardReply::Refused(why) => Err(SharedFault::Node(why)),
        _ => unreachable!(),
    }
}

impl<D: PageDevice + Send> SharedShards<D> {
    /// A message of the first entries of a bucket, of those whose page is greater than `after`, up
    /// to MAX_ENTRIES: one turn of the shard that has the pages of the bucket, in which the call
    /// `Send` is answered.
    ///
    /// # Errors
    /// `Node(Memory)`: an allocation failed in the shard. `TurnsSpent`.
    pub fn send<R: Wait>(
        &self,
        rt: &R,
        attached: &mut Attached<D>,
        bucket: Bucket,
        after: Option<PageId>,
    ) -> Result<Message, SharedFault>
        requires { AreOf self.now attached.old.passes }
        ensures attached { AreOf self.now attached.new.passes }
        ensures ends { CallEnds attached.old.passes (shard_of_bucket (length self.now) bucket)
            (Send bucket after) Sent result attached.new.passes }
        ensures pins { attached.new.pins ≡ attached.old.pins }
    {
        let shard = usize::from(bucket.get()) % self.turns.len();
        let boxed = send_in(rt, &self.turns, &mut attached.passes, shard, bucket, after)?;
        Ok(boxed.into_message())
    }

    /// A message of the first entries of a bucket, of those whose page is greater than `after` and
    /// whose latest stamp is not before the time `since`, up to MAX_ENTRIES, and whether more of
    /// these follow: as [`warm_gossip::Node::send_since`] of the shard that has the pages of the
    /// bucket, in one turn of that shard, in which the call `SendSince` is answered.
    ///
    /// # Errors
    /// `Node(Memory)`: an allocation failed in the shard. `TurnsSpent`. Nothing has changed in any
    /// shard.
    pub fn send_since<R: Wait>(
        &self,
        rt: &R,
        attached: &mut Attached<D>,
        bucket: Bucket,
        since: u64,
        after: Option<PageId>,
    ) -> Result<SentPortion, SharedFault>
        requires { AreOf self.now attached.old.passes }
        ensures attached { AreOf self.now attached.new.passes }
        ensures ends { CallEnds attached.old.passes (shard_of_bucket (length self.now) bucket)
            (SendSince bucket since after) (λ sent. Portion sent.message sent.more) result
            attached.new.passes }
        ensures pins { attached.new.pins ≡ attached.old.pins }
    {
        let count = self.turns.len();
        let shard = usize::from(bucket.get()) % count;
        let passes = &mut attached.passes;
        let sent = send_since_in(rt, &self.turns, passes, shard, bucket, since, after)?;
        Ok(sent)
    }

    /// A message of the digests of all buckets: each shard says its own in one turn, in the order of
    /// the shards. Of each bucket the message has the digest that its shard gave, and it has the
    /// latest of the horizons that shards gave.
    ///
    /// # Errors
    /// `Node(Memory)` at shard 0, if no memory was left to begin, or in the shard of the number
    /// given. `TurnsSpent`. Nothing has changed in any shard.
    pub fn offer<R: Wait>(
        &self,
        rt: &R,
        alloc: Global,
        attached: &mut Attached<D>,
    ) -> Result<Message, Stopped>
        requires { AreOf self.now attached.old.passes }
        ensures attached { AreOf self.now attached.new.passes }
        ensures offered { IfOk result (λ message. ShardsOffer (opened_id self.now) message
            attached.old.passes attached.new.passes) }
        ensures stopped { IfErr result (λ at. VisitFails
            (offer_visit (opened_id self.now) (length self.now))
            at.shard at.fault attached.old.passes attached.new.passes) }
        ensures pins { attached.new.pins ≡ attached.old.pins }
    {
        let Ok(visit) = Visit::offer(alloc, self.id(), self.count()) else {
            return Err(Stopped::before_all());
        };
        let after = self.go_through(rt, attached, visit)?;
        let Some(message) = after.offered() else {
            unreachable!()
        };
        Ok(message)
    }

    /// Takes a message in, and returns the messages that answer it, in order. Each shard forgets all
    /// stamps before the horizon of the message, in one turn, in the order of the shards. Then:
    ///
    /// - Of entries, each shard that has a part adds what the entries of its pages say, in one turn,
    ///   in the order of the shards. They are not answered.
    /// - To a request, the shard of each requested bucket sends its entries, in one turn for each
    ///   message, in the order of the buckets.
    /// - To digests, each shard says its own, as by `offer`. The answer is the entries of the buckets
    ///   whose digests differ, as to a request, and then a request for these; nothing if none
    ///   differs.
    ///
    /// A caller that does not trust its senders checks the times of a message with
    /// [`warm_frames::check_times`] before.
    ///
    /// # Errors
    /// The stage says what the shards have taken in, and the shard at which it stopped.
    ///
    /// - `Raising`: the shards before this one have the horizon, and nothing else has changed.
    ///   `TurnsSpent`; or `Node(Memory)` at shard 0, if no memory was left to begin.
    /// - `Giving`: all shards have the horizon, and the shards before this one the entries of their
    ///   pages; the others have no entry. `TurnsSpent`, or `Node(Memory)` in the shard.
    /// - `Offering`, `Sending`: all shards have the horizon, and nothing else has changed.
    ///   `TurnsSpent`, or `Node(Memory)` in the shard; in the stage `Sending`, `Node(Memory)` at the
    ///   count of the shards, if no memory was left for the list of the messages.
    ///
    /// To take the message in once more does no harm.
    pub fn receive<R: Wait>(
        &self,
        rt: &R,
        alloc: Global,
        attached: &mut Attached<D>,
        message: &Message,
    ) -> Result<MessageList, StoppedInStage>
        requires { AreOf self.now attached.old.passes }
        ensures attached { AreOf self.now attached.new.passes }
        ensures received { IfOk result (λ messages. ShardsReceive (opened_id self.now)
            message.now messages attached.old.passes attached.new.passes) }
        ensures stopped { IfErr result (λ why. ReceiveFails (opened_id self.now) message.now
            why.stage why.at.shard why.at.fault attached.old.passes attached.new.passes) }
        ensures pins { attached.new.pins ≡ attached.old.pins }
    {
        let count = self.count();
        let Ok(visit) = Visit::receive(alloc, self.id(), count, message) else {
            return Err(StoppedInStage::before_all());
        };
        let after = self.go_through(rt, attached, visit)?;
        let Ok(answers) = after.into_answers(alloc) else {
            return Err(StoppedInStage::after_all(count));
        };
        Ok(answers)
    }

    /// Takes in all that another history stands for, as a restored history is brought: each shard
    /// forgets all stamps before its horizon, and then each that has a part takes in the entries of
    /// its pages, each in one turn, in the order of the shards. So of all references of both, those
    /// are kept that are not before the later horizon. The other history is copied.
    ///
    /// # Errors
    /// Those of [`SharedShards::receive`] of a message of entries, with the same effects.
    pub fn join<R: Wait>(
        &self,
        rt: &R,
        alloc: Global,
        attached: &mut Attached<D>,
        other: &History,
    ) -> Result<(), StoppedInStage>
        requires { AreOf self.now attached.old.passes }
        ensures attached { AreOf self.now attached.new.passes }
        ensures joined { OnOk result (IsGoneThrough
            (join_visit (opened_id self.now) (length self.now) other.now)
            attached.old.passes attached.new.passes) }
        ensures stopped { IfErr result (λ why. StageFails
            (join_visit (opened_id self.now) (length self.now) other.now)
            why.stage why.at.shard why.at.fault attached.old.passes attached.new.passes) }
        ensures pins { attached.new.pins ≡ attached.old.pins }
    {
        let Ok(visit) = Visit::join(alloc, self.id(), self.count(), other) else {
            return Err(StoppedInStage::before_all());
        };
        self.go_through(rt, attached, visit)?;
        Ok(())
    }
}
