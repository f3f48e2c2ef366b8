//! The peer.
ghost use Rattle.std.specs.Prelude.{◌≡◌, IfOk, OnErr, OnOk};
ghost use Rattle.warm_history.specs.Changes.{MarksChanged};
ghost use Rattle.warm_history.specs.ReferenceSets.{set_of_list, with_horizon, ◌∪◌};
ghost use Rattle.warm_history.specs.Histories.{entries_of, history, history_of_entries_at, join};
ghost use Rattle.warm_history.specs.Histories.{references_of};
ghost use Rattle.warm_frames.specs.Chunks.{bucket_messages};
ghost use Rattle.warm_peer.specs.Answers.{IsAnswer, history_after, sent};
ghost use Rattle.warm_peer.specs.Round.{offer};
ghost use Rattle.warm_peer.specs.State.{opened_peer};

use crate::answers::{answer_to_digests, bucket_at, requested_messages};
use std::alloc::{AllocError, Global};
use std::marker::Model;
use warm_digest::DigestedHistory;
use warm_frames::{EntryList, MAX_ENTRIES, Message, MessageList};
use warm_history::laws::prove_is_history;
use warm_history::{Entry, History};
use warm_stamps::{Bucket, BucketSet, PageId, Reference, ReplicaId};

/// A replica's number, and the history of the references that it received.
///
/// It caches the digests of its history's buckets until an entry of them changes. Calls that bring
/// nothing new, as repeated gossip does, keep them: no offer then computes them again.
#[derive(Debug)]
pub struct Peer {
    pub(crate) alloc: Global,
    pub(crate) id: ReplicaId,
    pub(crate) history: DigestedHistory,
}

// Written by hand, so that an owner makes one call on each exit path (see `History`).
impl Drop for Peer {
    fn drop(mut self) {
        let Self {
            alloc: _,
            id: _,
            history,
        } = self;
        drop(history);
    }
}

impl Model for Peer {
    ghost use Rattle.warm_peer.specs.State.{PeerState};

    ghost Value = { PeerState };

    ghost view = { λ peer. record { id = peer.id; history = peer.history.history } };
}

impl Peer {
    /// A peer without references. Allocation-free.
    pub fn new(alloc: Global, id: ReplicaId) -> Peer
        ensures { result ≡ opened_peer id }
    {
        Peer {
            alloc,
            id,
            history: DigestedHistory::new(alloc),
        }
    }

    /// Its replica number.
    pub fn id(&self) -> ReplicaId
        ensures { result ≡ self.now.id }
    {
        self.id
    }

    /// The history of the references that it received.
    pub fn history(&self) -> &History
        ensures { result.now ≡ self.now.history }
    {
        self.history.history()
    }

    /// The time before which stamps are forgotten.
    pub fn horizon(&self) -> u64
        ensures { result ≡ self.now.history.horizon }
    {
        self.history.horizon()
    }

    /// Adds references to the history, and returns the set of the buckets whose entries changed.
    ///
    /// # Errors
    /// `AllocError`: an allocation failed; nothing has changed.
    pub fn absorb(&mut self, batch: &[Reference]) -> Result<BucketSet, AllocError>
        ensures id { self.new.id ≡ self.old.id }
        ensures exact { OnOk result
            (self.new.history ≡ history (references_of self.old.history ∪ set_of_list batch.now)) }
        ensures changed { IfOk result
            (MarksChanged (entries_of self.old.history) (entries_of self.new.history)) }
        ensures none { IfOk result
            (λ changed. changed ≡ 0 → self.new.history ≡ self.old.history) }
        ensures err { OnErr result (self.new ≡ self.old) }
    {
        self.history.absorb(batch)
    }

    /// Takes these entries in, at the later horizon, and returns the set of the buckets whose
    /// entries changed.
    ///
    /// # Errors
    /// `AllocError`: an allocation failed; nothing has changed.
    pub fn join_entries(&mut self, horizon: u64, more: &[Entry]) -> Result<BucketSet, AllocError>
        ensures id { self.new.id ≡ self.old.id }
        ensures exact { OnOk result
            (self.new.history ≡ join self.old.history (history_of_entries_at horizon more.now)) }
        ensures changed { IfOk result
            (MarksChanged (entries_of self.old.history) (entries_of self.new.history)) }
        ensures none { IfOk result (λ changed.
            changed ≡ 0 → entries_of self.new.history ≡ entries_of self.old.history) }
        ensures err { OnErr result (self.new ≡ self.old) }
    {
        self.history.join_entries(horizon, more)
    }

    /// Takes in all that another history stands for, at the later horizon, and returns the set of
    /// the buckets whose entries changed. It is what a round of gossip with the history's owner
    /// would bring, in one step.
    ///
    /// # Errors
    /// `AllocError`: an allocation failed; nothing has changed.
    pub fn join(&mut self, other: &History) -> Result<BucketSet, AllocError>
        ensures id { self.new.id ≡ self.old.id }
        ensures exact { OnOk result (self.new.history ≡ join self.old.history other.now) }
        ensures changed { IfOk result
            (MarksChanged (entries_of self.old.history) (entries_of self.new.history)) }
        ensures none { IfOk result (λ changed.
            changed ≡ 0 → entries_of self.new.history ≡ entries_of self.old.history) }
        ensures err { OnErr result (self.new ≡ self.old) }
    {
        self.history.join(other)
    }

    /// Forgets all stamps before this time, and returns the set of the buckets that lose one.
    /// Allocation-free.
    ///
    /// A time that is not later than the horizon costs nothing. Otherwise the entries are scanned.
    pub fn raise(&mut self, time: u64) -> BucketSet
        ensures id { self.new.id ≡ self.old.id }
        ensures exact { self.new.history
            ≡ history (with_horizon time (references_of self.old.history)) }
        ensures changed { MarksChanged (entries_of self.old.history)
            (entries_of self.new.history) result }
        ensures none { result ≡ 0
            → entries_of self.new.history ≡ entries_of self.old.history }
    {
        self.history.raise(time)
    }

    /// Forgets all references and the horizon. Allocation-free.
    pub fn clear(&mut self)
        ensures { self.new ≡ opened_peer self.old.id }
    {
        self.history.clear();
    }

    /// A message of the digests of all buckets.
    ///
    /// The digests are cached. Having them costs nothing if no entry has changed since the last
    /// offer or the last digests received. Otherwise it costs a scan of the buckets of the changed
    /// entries, whose entries are hashed.
    ///
    /// # Errors
    /// `AllocError`: an allocation failed; the next offer computes the same digests again.
    pub fn offer(&mut self) -> Result<Message, AllocError>
        ensures offered { IfOk result (λ message. message ≡ offer self.old.id self.old.history) }
        ensures same { self.new ≡ self.old }
    {
        let digests = self.history.digests()?;
        Ok(Message::Digest {
            sender: self.id,
            horizon: self.history.horizon(),
            digests,
        })
    }

    /// A message of the first entries of a bucket, of those whose page is greater than `after`, up
    /// to MAX_ENTRIES.
    ///
    /// # Errors
    /// `AllocError`: an allocation failed.
    pub fn send(&self, bucket: Bucket, after: Option<PageId>) -> Result<Message, AllocError>
        ensures { IfOk result (λ message.
            message ≡ sent self.now.id self.now.history bucket after) }
    {
        let history = self.history.history();
        let entries = history.entries(bucket, after, MAX_ENTRIES)?;
        Ok(Message::Entries {
            sender: self.id,
            horizon: history.horizon(),
            entries: EntryList::holding(entries),
        })
    }

    /// The entries of a bucket, in page order, in messages of up to MAX_ENTRIES. It costs a scan of
    /// the bucket.
    ///
    /// # Errors
    /// `AllocError`: an allocation failed.
    pub fn send_bucket(&self, bucket: Bucket) -> Result<Vec<Message>, AllocError>
        ensures { IfOk result (λ messages.
            messages.items ≡ bucket_messages self.now.id self.now.history bucket) }
    {
        // Raised to its own horizon, a history is as it is.
        prove_is_history(self.history.history());
        let horizon = self.history.horizon();
        bucket_at(self.alloc, self.id, self.history.history(), horizon, bucket)
    }

    /// The messages with which the peer would answer this one, at the greater horizon: nothing to
    /// entries; to digests, its entries of the buckets that differ, and then a request for these;
    /// to a request, its entries of these buckets.
    ///
    /// At a horizon greater than the peer's own, the history is not copied: older stamps are
    /// skipped as they are read. A request costs a scan of the wanted buckets. Digests cost what
    /// [`Peer::offer`] costs, and at a greater horizon also a scan of each bucket up to its first
    /// older stamp, and the hashing of the buckets that have one.
    ///
    /// # Errors
    /// `AllocError`: an allocation failed.
    pub fn answers(&mut self, message: &Message) -> Result<MessageList, AllocError>
        ensures answers { IfOk result (IsAnswer self.old.id self.old.history message.now) }
        ensures same { self.new ≡ self.old }
    {
        match message {
            Message::Entries { .. } => Ok(MessageList::of(Vec::new(self.alloc))),
            Message::Digest {
                horizon,
                digests,
                ..
            } => {
                let own = &mut self.history;
                let messages = answer_to_digests(self.alloc, self.id, own, *horizon, digests)?;
                Ok(MessageList::of(messages))
            }
            Message::Want {
                horizon,
                request,
                ..
            } => {
                let own = self.history.history();
                let messages = requested_messages(self.alloc, self.id, own, *horizon, *request)?;
                Ok(MessageList::of(messages))
            }
        }
    }

    /// Receives a message: takes in what it brings, raises the horizon to the message's, and
    /// returns the messages that answer it, in order.
    ///
    /// A message of which only the horizon was changed is well formed, and one horizon later than
    /// all stamps empties every history that it reaches. A caller that does not trust its senders
    /// checks the times of a message with [`warm_frames::check_times`] before it is received.
    ///
    /// # Errors
    /// `AllocError`: an allocation failed; nothing has changed.
    pub fn receive(&mut self, message: Message) -> Result<MessageList, AllocError>
        ensures id { self.new.id ≡ self.old.id }
        ensures answers { IfOk result (IsAnswer self.old.id self.old.history message) }
        ensures after { OnOk result
            (self.new.history ≡ history_after self.old.history message) }
        ensures err { OnErr result (self.new ≡ self.old) }
    {
        if let Message::Entries {
            horizon,
            entries,
            ..
        } = message
        {
            self.history.join_entries(horizon, entries.as_slice())?;
            return Ok(MessageList::of(Vec::new(self.alloc)));
        }
        let answers = self.answers(&message)?;
        self.history.raise(message.horizon());
        Ok(answers)
    }
}
