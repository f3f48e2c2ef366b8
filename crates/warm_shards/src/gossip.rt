//! Exchanging histories: what all shards together offer, send, receive and answer.
ghost use Rattle.std.specs.Prelude.{◌≡◌, ◌↔◌, IfErr, IfOk, OnOk, IsTrue};
ghost use Rattle.warm_history.specs.Histories.{references_of};
ghost use Rattle.warm_peer.specs.Answers.{IsAnswer, refs_in};
ghost use Rattle.warm_peer.specs.Since.{BringsHeld, HasMoreSince, sent_since};
ghost use Rattle.warm_gossip.specs.declared.call.Call.TheVariants.{Offer, Receive, Send};
ghost use Rattle.warm_gossip.specs.declared.call.Reply.TheVariants.{Answers, Sent};
ghost use Rattle.warm_gossip.specs.declared.fault.NodeFault.TheVariants.{Memory};
ghost use Rattle.warm_shards.specs.Clauses.{JoinsAll, KeepPools, SameShards, TakesInFirst};
ghost use Rattle.warm_shards.specs.Clauses.{Together, TogetherAnswered};
ghost use Rattle.warm_shards.specs.Given.{Gives, ReceivesAll};
ghost use Rattle.warm_shards.specs.Shards.{AreShards, shard_at, whole};

use crate::answers::{answered, offer_of_all, visited};
use crate::history_calls::raise_all;
use crate::joining::join_parts;
use crate::shards::Shards;
use std::alloc::Global;
use warm_devices::PageDevice;
use warm_frames::{Message, MessageList};
use warm_gossip::{Node, NodeFault};
use warm_history::History;
use warm_peer::SentPortion;
use warm_stamps::{Bucket, PageId};
use warm_visits::{Visit, entries_of};

// Takes the entries of a message in, or answers it. Entries that are of pages of one shard are not
// copied.
fn received<D: PageDevice>(
    alloc: Global,
    nodes: &mut Vec<Node<D>>,
    message: Message,
) -> Result<MessageList, NodeFault>
    requires { AreShards nodes.old.items }
    ensures { ReceivesAll message nodes.old.items result nodes.new.items }
{
    if let Message::Entries {
        horizon,
        entries,
        ..
    } = &message
    {
        raise_all(nodes, *horizon);
        join_parts(alloc, nodes, *horizon, entries.as_slice())?;
        return Ok(MessageList::of(Vec::new(alloc)));
    }
    let Ok(visit) = Visit::receive(alloc, nodes[0].id(), nodes.len(), &message) else {
        raise_all(nodes, message.horizon());
        return Err(NodeFault::Memory);
    };
    visited(alloc, nodes, visit)
}

// Raises all shards to the horizon of another history, and takes its entries in.
fn join_all<D: PageDevice>(
    alloc: Global,
    nodes: &mut Vec<Node<D>>,
    other: &History,
) -> Result<(), NodeFault>
    requires { AreShards nodes.old.items }
    ensures { Gives (references_of other.now) nodes.old.items result nodes.new.items }
{
    raise_all(nodes, other.horizon());
    let entries = entries_of(alloc, other)?;
    join_parts(alloc, nodes, other.horizon(), &entries)
}

impl<D: PageDevice> Shards<D> {
    /// A message of the first entries of a bucket, of those whose page is greater than `after`, up
    /// to MAX_ENTRIES: the call `Send` of the whole.
    ///
    /// # Errors
    /// `Memory`: an allocation failed; nothing has changed.
    pub fn send(&self, bucket: Bucket, after: Option<PageId>) -> Result<Message, NodeFault>
        ensures { TogetherAnswered self.now (Send bucket after) Sent result self.now }
    {
        let shard = usize::from(bucket.get()) % self.nodes.len();
        self.nodes[shard].send(bucket, after)
    }

    /// A message of the first entries of a bucket whose latest stamp is not before the time
    /// `since`, and whether more follow: as [`warm_gossip::Node::send_since`] of the whole.
    ///
    /// # Errors
    /// `Memory`: an allocation failed; nothing has changed.
    pub fn send_since(
        &self,
        bucket: Bucket,
        since: u64,
        after: Option<PageId>,
    ) -> Result<SentPortion, NodeFault>
        ensures sent { IfOk result (λ sent. sent.message
            ≡ sent_since (shard_at self.now 0).id (whole self.now) bucket since after) }
        ensures more { IfOk result (λ sent. IsTrue sent.more
            ↔ HasMoreSince (whole self.now) bucket since after) }
        ensures held { IfOk result (λ sent. BringsHeld (whole self.now) sent.message) }
        ensures refused { IfErr result (λ why. why ≡ Memory) }
    {
        let shard = usize::from(bucket.get()) % self.nodes.len();
        self.nodes[shard].send_since(bucket, since, after)
    }

    /// A message of the digests of all buckets, of each that of its shard: the call `Offer` of the
    /// whole. Each shard caches its digests, as [`warm_gossip::Node::offer`] does.
    ///
    /// # Errors
    /// `Memory`: an allocation failed; nothing has changed that a caller sees.
    pub fn offer(&mut self) -> Result<Message, NodeFault>
        ensures step { TogetherAnswered self.old Offer Sent result self.new }
        ensures pools { KeepPools self.old self.new }
    {
        offer_of_all(self.alloc, &mut self.nodes)
    }

    /// The messages with which all shards together would answer this one, as
    /// [`warm_gossip::Node::answers`] of the whole. Nothing that a caller sees has changed.
    ///
    /// At a horizon later than that of the shards it copies the whole history.
    ///
    /// # Errors
    /// `Memory`: an allocation failed.
    pub fn answers(&mut self, message: &Message) -> Result<MessageList, NodeFault>
        ensures answers { IfOk result (IsAnswer (shard_at self.old 0).id (whole self.old)
            message.now) }
        ensures refused { IfErr result (λ why. why ≡ Memory) }
        ensures same { SameShards self.old self.new }
    {
        answered(self.alloc, &mut self.nodes, message)
    }

    /// Receives a message, and returns the messages that answer it, in order: the call `Receive` of
    /// the whole. A message may have pages of several shards, and digests have buckets of all.
    ///
    /// Entries go to the shards of their pages, each of which takes all of its own in, or none.
    /// They are copied, unless all are of pages of one shard, as a run of one bucket is.
    ///
    /// The horizon of a message raises that of each shard. A caller that does not trust its senders
    /// checks the times of a message with [`warm_frames::check_times`] before.
    ///
    /// # Errors
    /// `Memory`: an allocation failed. All shards then have the message's horizon, if that is
    /// later, and the first shards have taken in the references to their pages; the others have
    /// not, and nothing was answered. To receive the message once more does no harm.
    pub fn receive(&mut self, message: Message) -> Result<MessageList, NodeFault>
        ensures received { IfOk result (λ answers. Together self.old (Receive message)
            (Answers answers) self.new) }
        ensures refused { IfErr result (λ why. (why ≡ Memory)
            × TakesInFirst self.old (refs_in message) self.new) }
        ensures pools { KeepPools self.old self.new }
    {
        received(self.alloc, &mut self.nodes, message)
    }

    /// Takes in all that another history stands for, as a restored history is brought: of all
    /// references of both, those are kept that are not before the later horizon. The other history
    /// is copied.
    ///
    /// # Errors
    /// `Memory`: an allocation failed. All shards then have the other horizon, if that is later,
    /// and the first shards have taken in the references to their pages. To join once more does no
    /// harm.
    pub fn join(&mut self, other: &History) -> Result<(), NodeFault>
        ensures joined { OnOk result (JoinsAll self.old other.now self.new) }
        ensures refused { IfErr result (λ why. (why ≡ Memory)
            × TakesInFirst self.old (references_of other.now) self.new) }
        ensures pools { KeepPools self.old self.new }
    {
        join_all(self.alloc, &mut self.nodes, other)
    }
}
