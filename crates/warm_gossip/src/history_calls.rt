//! The calls on a node's history.
ghost use Rattle.std.specs.Prelude.{◌≡◌, ◌↔◌, IfErr, IfOk, IsTrue, None, OnOk};
ghost use Rattle.warm_gossip.specs.declared.call.Call.TheVariants.{Absorb, Send, Offer, Receive};
ghost use Rattle.warm_gossip.specs.declared.call.Call.TheVariants.{Horizon, WarmList};
ghost use Rattle.warm_gossip.specs.declared.call.Reply.TheVariants.{Sent, Answers, Kept, Pages};
ghost use Rattle.warm_gossip.specs.declared.fault.NodeFault.TheVariants.{Memory};
ghost use Rattle.warm_peer.specs.Answers.{IsAnswer};
ghost use Rattle.warm_peer.specs.Since.{BringsHeld, HasMoreSince, sent_since};
ghost use Rattle.warm_pool.specs.Unchanged.{KeepsBytes};
ghost use Rattle.warm_pool.specs.State.{RankedBy};
ghost use Rattle.warm_pool.specs.View.{view_of};
ghost use Rattle.warm_gossip.specs.Clauses.{Answered, DevicesAfter, DevicesAnswered, Goes, Joins};
ghost use Rattle.warm_gossip.specs.Clauses.{JoinsEntries, SameView, done};

use crate::fault::NodeFault;
use crate::node::Node;
use crate::warm_step::WarmUp;
use std::alloc::Global;
use warm_devices::PageDevice;
use warm_frames::{Message, MessageList};
use warm_history::laws::prove_is_history;
use warm_history::{Entry, History};
use warm_peer::SentPortion;
use warm_pool::Pool;
use warm_rank::warm_list;
use warm_stamps::{Bucket, PageId, PageList, Reference};

// After any entries of a node's history may have changed: drops the warm-up list, which is of the
// entries before, and ranks all resident pages again. The node is not whole until then, so this is
// a function of its parts.
fn entries_changed<D: PageDevice>(
    alloc: Global,
    history: &History,
    pool: &mut Pool<D>,
    warm_up: &mut WarmUp,
)
    ensures ranked { RankedBy pool.new history.now }
    ensures same { view_of pool.new ≡ view_of pool.old }
    ensures kept { KeepsBytes pool.old pool.new }
    ensures dropped { warm_up.new.list ≡ None }
{
    *warm_up = WarmUp::new(alloc);
    pool.refresh_all(history);
}

impl<D: PageDevice> Node<D> {
    /// Adds references to the history: the call `Absorb`.
    ///
    /// References that are not new change nothing: digests and the warm-up list stay cached, and no
    /// page is ranked again. Otherwise the pages that the batch names are ranked again, in the pool
    /// now and in the list at the next warm-up step.
    ///
    /// # Errors
    /// `Memory`: an allocation failed; nothing has changed.
    pub fn absorb(&mut self, batch: &[Reference]) -> Result<(), NodeFault>
        ensures step { Answered self.old (Absorb batch.now) done result self.new }
        ensures devices { DevicesAnswered self.old (Absorb batch.now) done result self.new }
    {
        let changed = self.peer.absorb(batch)?;
        if changed.is_empty() {
            return Ok(());
        }
        self.warm_up.note(self.alloc, batch);
        self.pool.refresh(self.peer.history(), batch);
        Ok(())
    }

    /// Takes entries in, at the later horizon, as those of a message are. If no entry changes,
    /// digests and the warm-up list stay cached, and no page is ranked again.
    ///
    /// # Errors
    /// `Memory`: an allocation failed; nothing has changed that a caller sees.
    pub fn join_entries(&mut self, horizon: u64, entries: &[Entry]) -> Result<(), NodeFault>
        ensures joined { OnOk result (JoinsEntries self.old horizon entries.now self.new) }
        ensures refused { IfErr result (λ why. (why ≡ Memory) × SameView self.old self.new) }
        ensures devices { KeepsBytes self.old.pool self.new.pool }
    {
        // A history ranks pages by its entries alone.
        prove_is_history(self.peer.history());
        let own = self.peer.horizon();
        let changed = self.peer.join_entries(horizon, entries)?;
        if changed.is_empty() {
            return Ok(());
        }
        if own < horizon {
            entries_changed(
                self.alloc,
                self.peer.history(),
                &mut self.pool,
                &mut self.warm_up,
            );
            return Ok(());
        }
        self.warm_up.note(self.alloc, entries);
        self.pool.refresh(self.peer.history(), entries);
        Ok(())
    }

    /// Takes in all that another history stands for: of all references of both, those are kept that
    /// are not before the later horizon. It is what a round of gossip with the history's owner
    /// would bring, in one step, as a restored history is brought.
    ///
    /// If no entry changes, digests and the warm-up list stay cached, and no page is ranked
    /// again; otherwise all resident pages are.
    ///
    /// # Errors
    /// `Memory`: an allocation failed; nothing has changed that a caller sees.
    pub fn join(&mut self, other: &History) -> Result<(), NodeFault>
        ensures joined { OnOk result (Joins self.old other.now self.new) }
        ensures refused { IfErr result (λ why. (why ≡ Memory) × SameView self.old self.new) }
        ensures devices { KeepsBytes self.old.pool self.new.pool }
    {
        // A history ranks pages by its entries alone.
        prove_is_history(self.peer.history());
        let changed = self.peer.join(other)?;
        if changed.is_empty() {
            return Ok(());
        }
        entries_changed(
            self.alloc,
            self.peer.history(),
            &mut self.pool,
            &mut self.warm_up,
        );
        Ok(())
    }

    /// Forgets all stamps before this time, and returns the new horizon: the call `Horizon`.
    /// Allocation-free.
    ///
    /// A time that is not later than the horizon costs nothing. Otherwise the entries are scanned.
    /// If none loses a stamp, digests and the warm-up list stay cached; otherwise all resident
    /// pages are ranked again.
    pub fn raise(&mut self, time: u64) -> u64
        ensures step { Goes self.old (Horizon time) (Kept result) self.new }
        ensures devices { DevicesAfter self.old (Horizon time) (Kept result) self.new }
    {
        // A history ranks pages by its entries alone.
        prove_is_history(self.peer.history());
        let own = self.peer.horizon();
        if time <= own {
            return own;
        }
        let lost = self.peer.raise(time);
        if lost.is_empty() {
            return self.peer.horizon();
        }
        entries_changed(
            self.alloc,
            self.peer.history(),
            &mut self.pool,
            &mut self.warm_up,
        );
        self.peer.horizon()
    }

    /// The messages with which the node would answer this one, as [`warm_peer::Peer::answers`] gives them.
    /// Nothing that a caller sees has changed.
    ///
    /// # Errors
    /// `Memory`: an allocation failed.
    pub fn answers(&mut self, message: &Message) -> Result<MessageList, NodeFault>
        ensures same { SameView self.old self.new }
        ensures answers { IfOk result (IsAnswer self.old.id self.old.history message.now) }
        ensures refused { IfErr result (λ why. why ≡ Memory) }
        ensures devices { KeepsBytes self.old.pool self.new.pool }
    {
        let answers = self.peer.answers(message)?;
        Ok(answers)
    }

    /// Receives a message, and returns the messages that answer it, in order: the call `Receive`.
    ///
    /// Digests are compared with the node's own, which are cached: having them costs what
    /// [`Node::offer`] costs.
    ///
    /// The horizon of a message raises the node's own, and spreads with the node's messages. A
    /// message of which only the horizon was changed is well formed, and one horizon later than all
    /// stamps empties every history that it reaches. A caller that does not trust its senders
    /// checks the times of a message with [`warm_frames::check_times`] before it is received.
    ///
    /// # Errors
    /// `Memory`: an allocation failed; nothing has changed that a caller sees.
    pub fn receive(&mut self, message: Message) -> Result<MessageList, NodeFault>
        ensures step { Answered self.old (Receive message) Answers result self.new }
        ensures devices { DevicesAnswered self.old (Receive message) Answers result self.new }
    {
        if let Message::Entries {
            horizon,
            entries,
            ..
        } = message
        {
            self.join_entries(horizon, entries.as_slice())?;
            return Ok(MessageList::of(Vec::new(self.alloc)));
        }
        let answers = self.answers(&message)?;
        self.raise(message.horizon());
        Ok(answers)
    }

    /// A message of the first entries of a bucket, of those whose page is greater than `after`, up
    /// to MAX_ENTRIES: the call `Send`.
    ///
    /// # Errors
    /// `Memory`: an allocation failed; nothing has changed.
    pub fn send(&self, bucket: Bucket, after: Option<PageId>) -> Result<Message, NodeFault>
        ensures { Answered self.now (Send bucket after) Sent result self.now }
    {
        let message = self.peer.send(bucket, after)?;
        Ok(message)
    }

    /// A message of the first entries of a bucket of those whose page is greater than `after` and
    /// whose latest stamp is not before the time `since`, and whether more of these follow, as
    /// [`warm_peer::Peer::send_since`] gives them.
    ///
    /// # Errors
    /// `Memory`: an allocation failed; nothing has changed.
    pub fn send_since(
        &self,
        bucket: Bucket,
        since: u64,
        after: Option<PageId>,
    ) -> Result<SentPortion, NodeFault>
        ensures sent { IfOk result (λ sent. sent.message
            ≡ sent_since self.now.id self.now.history bucket since after) }
        ensures more { IfOk result (λ sent. IsTrue sent.more
            ↔ HasMoreSince self.now.history bucket since after) }
        ensures held { IfOk result (λ sent. BringsHeld self.now.history sent.message) }
        ensures refused { IfErr result (λ why. why ≡ Memory) }
    {
        let portion = self.peer.send_since(bucket, since, after)?;
        Ok(portion)
    }

    /// A message of the digests of all buckets: the call `Offer`.
    ///
    /// It costs what [`warm_peer::Peer::offer`] costs.
    ///
    /// # Errors
    /// `Memory`: an allocation failed; nothing has changed that a caller sees, and the next offer
    /// computes the same digests again.
    pub fn offer(&mut self) -> Result<Message, NodeFault>
        ensures step { Answered self.old Offer Sent result self.new }
        ensures devices { DevicesAnswered self.old Offer Sent result self.new }
    {
        let message = self.peer.offer()?;
        Ok(message)
    }

    /// The `n` hottest pages, hottest first, or all if there are fewer: the call `WarmList`.
    ///
    /// # Errors
    /// `Memory`: an allocation failed; nothing has changed.
    pub fn warm_list(&self, n: usize) -> Result<PageList, NodeFault>
        ensures { Answered self.now (WarmList n) Pages result self.now }
    {
        let history = self.peer.history();
        // The list is over the references that the history holds: their history is this history.
        prove_is_history(history);
        let pages = warm_list(self.alloc, history, n)?;
        Ok(PageList::of(pages))
    }
}
