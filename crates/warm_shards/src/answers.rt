//! What all shards together offer, and what they answer to digests and to a request.
ghost use Rattle.std.specs.Prelude.{◌≡◌, ◌↔◌, ◌<◌, length, IfErr, IfOk, IsTrue};
ghost use Rattle.warm_frames.specs.declared.message.Message.{Message};
ghost use Rattle.warm_peer.specs.Answers.{IsAnswer};
ghost use Rattle.warm_gossip.specs.declared.fault.NodeFault.TheVariants.{Memory};
ghost use Rattle.warm_shards.specs.Clauses.{SameShards};
ghost use Rattle.warm_shards.specs.Given.{OffersTogether, ReceivesAll};
ghost use Rattle.warm_shards.specs.Shards.{AreShards, shard_at, whole};
ghost use Rattle.warm_visits.specs.Visits.{HasEntries, receive_visit};

use crate::go_through::go_through;
use std::alloc::{AllocError, Global};
use warm_devices::PageDevice;
use warm_frames::{Message, MessageList};
use warm_gossip::{Node, NodeFault};
use warm_peer::Peer;
use warm_visits::Visit;

/// Lets a visit into the nodes by which they receive digests or a request, and returns their
/// answer.
///
/// `Memory` occurs only if an allocation fails.
pub(crate) fn visited<D: PageDevice>(
    alloc: Global,
    nodes: &mut Vec<Node<D>>,
    visit: Visit,
) -> Result<MessageList, NodeFault>
    requires shards { AreShards nodes.old.items }
    requires count { length nodes.old.items ≡ visit.count }
    ensures { (message : Message) → (HasEntries message → ⊥)
        → visit ≡ receive_visit (shard_at nodes.old.items 0).id (length nodes.old.items) message
        → ReceivesAll message nodes.old.items result nodes.new.items }
{
    let mut visit = visit;
    go_through(nodes, &mut visit)?;
    let answers = visit.into_answers(alloc)?;
    Ok(answers)
}

/// What all nodes together offer.
///
/// `Memory` occurs only if an allocation fails.
pub(crate) fn offer_of_all<D: PageDevice>(
    alloc: Global,
    nodes: &mut Vec<Node<D>>,
) -> Result<Message, NodeFault>
    requires { AreShards nodes.old.items }
    ensures { OffersTogether nodes.old.items result nodes.new.items }
{
    let mut visit = Visit::offer(alloc, nodes[0].id(), nodes.len())?;
    go_through(nodes, &mut visit)?;
    let Some(offer) = visit.offered() else {
        unreachable!()
    };
    Ok(offer)
}

// A peer that has the history of all shards.
fn one_peer<D: PageDevice>(alloc: Global, nodes: &Vec<Node<D>>) -> Result<Peer, AllocError>
    requires { AreShards nodes.now.items }
    ensures id { IfOk result (λ one. one.id ≡ (shard_at nodes.now.items 0).id) }
    ensures history { IfOk result (λ one. one.history ≡ whole nodes.now.items) }
{
    let mut one = Peer::new(alloc, nodes[0].id());
    let count = nodes.len();
    for shard in 0..count {
        one.join(nodes[shard].history())?;
    }
    Ok(one)
}

// The answer to a message at a later horizon: that of a copy, which is raised in place of the
// shards.
fn answered_by_copy<D: PageDevice>(
    alloc: Global,
    nodes: &Vec<Node<D>>,
    message: &Message,
) -> Result<MessageList, AllocError>
    requires { AreShards nodes.now.items }
    ensures { IfOk result (IsAnswer (shard_at nodes.now.items 0).id
        (whole nodes.now.items) message.now) }
{
    let mut one = one_peer(alloc, nodes)?;
    one.answers(message)
}

// Whether a time is later than the horizon of all shards.
fn is_later<D: PageDevice>(nodes: &Vec<Node<D>>, time: u64) -> bool
    requires { AreShards nodes.now.items }
    ensures { IsTrue result ↔ ((whole nodes.now.items).horizon < time) }
{
    nodes[0].history().horizon() < time
}

/// What all shards together would answer to a message.
///
/// `Memory` occurs only if an allocation fails.
pub(crate) fn answered<D: PageDevice>(
    alloc: Global,
    nodes: &mut Vec<Node<D>>,
    message: &Message,
) -> Result<MessageList, NodeFault>
    requires { AreShards nodes.old.items }
    ensures answers { IfOk result (IsAnswer (shard_at nodes.old.items 0).id
        (whole nodes.old.items) message.now) }
    ensures refused { IfErr result (λ why. why ≡ Memory) }
    ensures same { SameShards nodes.old.items nodes.new.items }
{
    if let Message::Entries { .. } = message {
        return Ok(MessageList::of(Vec::new(alloc)));
    }
    if is_later(nodes, message.horizon()) {
        return Ok(answered_by_copy(alloc, nodes, message)?);
    }
    let visit = Visit::receive(alloc, nodes[0].id(), nodes.len(), message)?;
    visited(alloc, nodes, visit)
}
