//! The entries of buckets, sent in portions: each is a message.
ghost use Rattle.std.specs.Prelude.{◌≡◌, ◌↔◌, ℕ, [], IfOk, IsTrue, OnErr, OnOk, Some};
ghost use Rattle.warm_frames.specs.Limits.{entries_in};
ghost use Rattle.warm_peer.specs.Chunks.{last_page};
ghost use Rattle.warm_visits.specs.VisitMessages.{final_message, without_message};
ghost use Rattle.warm_visits.specs.VisitReads.{HasNoEntries, IsPageOrNone, ReadsOne, asks_for};
ghost use Rattle.warm_visits.specs.VisitReads.{sending_visit};
ghost use Rattle.warm_visits.specs.Visits.{answered, answers_of, begun, send_plan, with_message};

use std::alloc::{AllocError, Global};
use warm_devices::PageDevice;
use warm_frames::Message;
use warm_gossip::{Node, NodeFault};
use warm_history::laws::prove_is_history;
use warm_peer::SentPortion;
use warm_stamps::{Bucket, BucketSet, Buckets, PageId, ReplicaId};

// A request for the buckets that differ.
#[derive(Drop)]
pub(crate) struct Wanted {
    pub(crate) horizon: u64,
    pub(crate) request: BucketSet,
}

// What is still to be sent, and what was.
#[derive(Drop)]
pub(crate) struct Sending {
    // The bucket of the next portion, if there is one, and those after it.
    pub(crate) bucket: Option<Bucket>,
    pub(crate) later: Buckets,
    // The page after which the portion begins.
    pub(crate) after: Option<PageId>,
    pub(crate) messages: Vec<Message>,
    // The request that comes last.
    pub(crate) want: Option<Wanted>,
}

// The page of the last entry of a message.
fn last_page_of(message: &Message) -> Option<PageId>
    ensures value { result ≡ last_page (entries_in message.now) }
    ensures page { IsPageOrNone result }
{
    let Message::Entries { entries, .. } = message else {
        return None;
    };
    let entries = entries.as_slice();
    if entries.is_empty() {
        return None;
    }
    Some(entries[entries.len() - 1].page)
}

fn has_no_entries(message: &Message) -> bool
    ensures { IsTrue result ↔ HasNoEntries message.now }
{
    match message {
        Message::Entries { entries, .. } => entries.as_slice().is_empty(),
        _ => false,
    }
}

// Adds a message, unless it is one without entries.
fn add_message(messages: &mut Vec<Message>, message: Message) -> Result<(), AllocError>
    ensures added { OnOk result
        (answered messages.new.items ≡ with_message (answered messages.old.items) message) }
    ensures refused { OnErr result (messages.new.items ≡ messages.old.items) }
{
    if has_no_entries(&message) {
        return Ok(());
    }
    messages.push(message)?;
    Ok(())
}

impl Sending {
    /// Sends the buckets of a request, from the first one on. Allocation-free.
    pub(crate) fn of(alloc: Global, request: BucketSet, want: Option<Wanted>) -> Sending
        ensures sends { (id count : ℕ) → sending_visit id count result
            ≡ begun id count (send_plan count request) (answered []) (asks_for id want) }
        ensures page { IsPageOrNone result.after }
    {
        let mut later = request.iter();
        let bucket = later.next();
        Sending {
            bucket,
            later,
            after: None,
            messages: Vec::new(alloc),
            want,
        }
    }

    /// Sends the next portion, of the node of its shard.
    ///
    /// `Memory` occurs only if an allocation fails.
    pub(crate) fn send<D: PageDevice>(
        &mut self,
        node: &Node<D>,
        bucket: Bucket,
    ) -> Result<(), NodeFault>
        requires bucket { self.old.bucket ≡ Some bucket }
        requires page { IsPageOrNone self.old.after }
        ensures page { IsPageOrNone self.new.after }
        ensures sent { (id count : ℕ) → ReadsOne (sending_visit id count self.old) node.now result
            (sending_visit id count self.new) node.now }
    {
        prove_is_history(node.history());
        let SentPortion { message, more } = node.send_since(bucket, 0, self.after)?;
        let last = last_page_of(&message);
        add_message(&mut self.messages, message)?;
        if more {
            self.after = last;
            return Ok(());
        }
        self.bucket = self.later.next();
        self.after = None;
        Ok(())
    }

    /// All messages, and then the request.
    ///
    /// `AllocError` occurs only if an allocation fails.
    pub(crate) fn into_messages(self, id: ReplicaId) -> Result<Vec<Message>, AllocError>
        ensures { IfOk result (λ messages. messages.items
            ≡ answers_of (answered self.messages.items) (asks_for id self.want)) }
    {
        let Sending {
            bucket: _,
            later: _,
            after: _,
            messages,
            want,
        } = self;
        let mut messages = messages;
        if let Some(Wanted { horizon, request }) = want {
            messages.push(Message::Want {
                sender: id,
                horizon,
                request,
            })?;
        }
        Ok(messages)
    }

    /// The request, if no bucket and no message is left.
    pub(crate) fn request(&self, id: ReplicaId) -> Option<Message>
        ensures { (count : ℕ) → result ≡ final_message (sending_visit id count self.now) }
    {
        if !self.messages.is_empty() {
            return None;
        }
        if let Some(_bucket) = self.bucket {
            return None;
        }
        match &self.want {
            Some(want) => Some(Message::Want {
                sender: id,
                horizon: want.horizon,
                request: want.request,
            }),
            None => None,
        }
    }

    /// Passes the first message; or, if there is none, the request.
    pub(crate) fn pass(&mut self)
        ensures value { (id count : ℕ) → sending_visit id count self.new
            ≡ without_message (sending_visit id count self.old) }
        ensures page { self.new.after ≡ self.old.after }
    {
        if !self.messages.is_empty() {
            let _first = self.messages.remove(0);
            return;
        }
        self.want = None;
    }
}
