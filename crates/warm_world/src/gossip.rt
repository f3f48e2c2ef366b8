//! Events of a replica's history: what it sends and what it receives.
ghost use Rattle.std.specs.Prelude.{◌≡◌, [], map, OnOk, OnErr, IfOk, IsOk};
ghost use Rattle.warm_world.specs.Effects.{IsNamed};
ghost use Rattle.warm_world.specs.Lists.{Pairwise};
ghost use Rattle.warm_world.specs.Replicas.{EncodesMessage, Keeps, KeepsAll, StoresAnswers};
ghost use Rattle.warm_world.specs.Replicas.{answered};
ghost use Rattle.warm_world.specs.Views.{world_view};
ghost use Rattle.warm_world.specs.WorldStands.{view_shape, Steps};

use crate::event::{Answer, Event};
use crate::shown::ShownHistory;
use crate::world::{World, index_of_number};
use std::alloc::{AllocError, Global};
use warm_devices::PageDevice;
use warm_frames::{Message, decode, encode};
use warm_gossip::NodeFault;
use warm_stamps::{Bucket, PageId};

// The bytes of each of the messages.
fn encoded(alloc: Global, messages: &[Message]) -> Result<Vec<Vec<u8>>, AllocError>
    ensures { IfOk result (λ all. Pairwise (λ _ bytes message. EncodesMessage bytes message)
        (map (λ f. f.items) all.items) messages.now) }
{
    let mut all = Vec::with_capacity(alloc, messages.len())?;
    for message in messages {
        all.push(encode(alloc, message)?)?;
    }
    Ok(all)
}

// Stores the messages after the others, all of them or none; for no messages it is allocation-free.
fn store_all(
    alloc: Global,
    stored: &mut Vec<Vec<u8>>,
    messages: &[Message],
) -> Result<(), AllocError>
    ensures ok { OnOk result (KeepsAll (map (λ f. f.items) stored.old.items) messages.now
        (map (λ f. f.items) stored.new.items)) }
    ensures err { OnErr result (stored.new.items ≡ stored.old.items) }
    ensures none { messages.now ≡ [] → IsOk result }
{
    if messages.is_empty() {
        return Ok(());
    }
    let mut added = encoded(alloc, messages)?;
    stored.append(&mut added)?;
    Ok(())
}

// Stores the messages that answer a delivered one, numbered after the others, and returns the
// event's answer.
fn store_answers(
    alloc: Global,
    stored: &mut Vec<Vec<u8>>,
    messages: &[Message],
) -> Result<Answer, AllocError>
    ensures ok { IfOk result (λ answer. StoresAnswers (map (λ f. f.items) stored.old.items)
        messages.now answer (map (λ f. f.items) stored.new.items)) }
    ensures err { OnErr result (stored.new.items ≡ stored.old.items) }
{
    store_all(alloc, stored, messages)?;
    let count = messages.len();
    if count == 0 {
        return Ok(Answer::Took { count: 0, first: 0 });
    }
    let first = stored.len() - count + 1;
    Ok(Answer::Took {
        count: count as u64,
        first: first as u64,
    })
}

impl<D: PageDevice> World<D> {
    // Stores a message after the others.
    fn store(&mut self, message: &Message) -> Result<Answer, NodeFault>
        ensures { Keeps (world_view self.old) message.now (answered result) (world_view self.new) }
    {
        let Ok(bytes) = encode(self.alloc, message) else {
            return Err(NodeFault::Memory);
        };
        let Ok(()) = self.messages.push(bytes) else {
            return Err(NodeFault::Memory);
        };
        Ok(Answer::FrameNo(self.messages.len() as u64))
    }

    pub(crate) fn send(
        &mut self,
        i: u16,
        bucket: Bucket,
        after: Option<PageId>,
    ) -> Result<Answer, NodeFault>
        requires named { IsNamed (view_shape (world_view self.old)) (Event.Send i bucket after) }
        ensures { Steps (world_view self.old) (Event.Send i bucket after) (answered result)
            (world_view self.new) }
    {
        let message = self.replicas[index_of_number(i as u64)]
            .node
            .send(bucket, after)?;
        self.store(&message)
    }

    pub(crate) fn offer(&mut self, i: u16) -> Result<Answer, NodeFault>
        requires named { IsNamed (view_shape (world_view self.old)) (Event.Offer i) }
        ensures { Steps (world_view self.old) (Event.Offer i) (answered result)
            (world_view self.new) }
    {
        let message = self.replicas[index_of_number(i as u64)].node.offer()?;
        self.store(&message)
    }

    pub(crate) fn deliver(&mut self, j: u16, k: u64) -> Result<Answer, NodeFault>
        requires named { IsNamed (view_shape (world_view self.old)) (Event.Deliver j k) }
        ensures { Steps (world_view self.old) (Event.Deliver j k) (answered result)
            (world_view self.new) }
    {
        // The bytes encode a message, so nothing but an allocation can fail.
        let Ok(message) = decode(self.alloc, &self.messages[index_of_number(k)]) else {
            return Err(NodeFault::Memory);
        };
        let at = index_of_number(j as u64);
        if let Message::Entries { .. } = message {
            // Entries are not answered, so there is nothing to store.
            self.replicas[at].node.receive(message)?;
            return Ok(Answer::Took { count: 0, first: 0 });
        }
        let answers = self.replicas[at].node.answers(&message)?;
        // The horizon rises only after the answers are stored, so nothing has happened if storing
        // one fails.
        let answer = store_answers(self.alloc, &mut self.messages, answers.as_slice())?;
        self.replicas[at].node.raise(message.horizon());
        Ok(answer)
    }

    /// Raises a replica's horizon to a time, unless it is later already.
    pub(crate) fn horizon(&mut self, i: u16, time: u64) -> Answer
        requires named { IsNamed (view_shape (world_view self.old)) (Event.Horizon i time) }
        ensures { Steps (world_view self.old) (Event.Horizon i time) result (world_view self.new) }
    {
        Answer::Kept(self.replicas[index_of_number(i as u64)].node.raise(time))
    }

    pub(crate) fn show(&self, i: u16) -> Result<Answer, NodeFault>
        requires named { IsNamed (view_shape (world_view self.now)) (Event.Show i) }
        ensures { Steps (world_view self.now) (Event.Show i) (answered result)
            (world_view self.now) }
    {
        let copied = self.replicas[index_of_number(i as u64)]
            .node
            .history()
            .copy()?;
        let shown = ShownHistory::new(self.alloc, copied)?;
        Ok(Answer::Shown(shown))
    }
}
