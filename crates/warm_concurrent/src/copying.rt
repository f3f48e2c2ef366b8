//! A copy of the history of all shards, shard by shard: a list of its hottest pages, and what it
//! answers to a message.
ghost use Rattle.std.specs.Prelude.{◌≡◌, ◌<◌, length, IfErr, IfOk};
ghost use Rattle.warm_history.specs.Histories.{references_of};
ghost use Rattle.warm_peer.specs.Answers.{IsAnswer};
ghost use Rattle.warm_rank.specs.Ranking.{hottest_pages};
ghost use Rattle.warm_concurrent.specs.Attached.{AreOf, opened_id};
ghost use Rattle.warm_concurrent.specs.Copying.{AnswersByCopy, CopiesAll, CopyFails, ListsAll};

use crate::shared::{Attached, SharedShards};
use crate::visiting::Stopped;
use std::alloc::{AllocError, Global};
use std::sync::Wait;
use warm_devices::PageDevice;
use warm_frames::{Message, MessageList};
use warm_history::History;
use warm_history::laws::prove_is_history;
use warm_peer::Peer;
use warm_rank::warm_list;
use warm_stamps::{PageList, ReplicaId};
use warm_visits::Visit;

// The n hottest pages of a history.
fn hottest_of(alloc: Global, history: &History, n: usize) -> Result<PageList, AllocError>
    ensures { IfOk result (λ pages. pages ≡ hottest_pages (references_of history.now) n) }
{
    // The list is over the references that the history holds: their history is this history.
    prove_is_history(history);
    let pages = warm_list(alloc, history, n)?;
    Ok(PageList::of(pages))
}

// A peer that has this history.
fn peer_with(alloc: Global, id: ReplicaId, history: &History) -> Result<Peer, AllocError>
    ensures id { IfOk result (λ peer. peer.id ≡ id) }
    ensures history { IfOk result (λ peer. peer.history ≡ history.now) }
{
    // The join of no references and of a history is the history.
    prove_is_history(history);
    let mut peer = Peer::new(alloc, id);
    peer.join(history)?;
    Ok(peer)
}

// What a replica of this number that has this history answers to a message.
fn answer_of(
    alloc: Global,
    id: ReplicaId,
    history: &History,
    message: &Message,
) -> Result<MessageList, AllocError>
    ensures { IfOk result (IsAnswer id history.now message.now) }
{
    let mut peer = peer_with(alloc, id, history)?;
    peer.answers(message)
}

impl<D: PageDevice + Send> SharedShards<D> {
    /// A copy of the history of all shards: each shard's own is joined to it in one turn, in the
    /// order of the shards. A dump of it is a dump of the replica. Of what other threads give
    /// meanwhile it has what was in a shard at that shard's turn.
    ///
    /// # Errors
    /// `TurnsSpent`, or `Node(Memory)` if no memory was left for what the shard has whose number the
    /// error has. Nothing has changed in any shard.
    pub fn history<R: Wait>(
        &self,
        rt: &R,
        alloc: Global,
        attached: &mut Attached<D>,
    ) -> Result<History, Stopped>
        requires { AreOf self.now attached.old.passes }
        ensures attached { AreOf self.now attached.new.passes }
        ensures copied { IfOk result (λ copy.
            CopiesAll (opened_id self.now) copy attached.old.passes attached.new.passes) }
        ensures stopped { IfErr result (λ at. CopyFails (opened_id self.now) at.shard at.fault
            attached.old.passes attached.new.passes) }
        ensures pins { attached.new.pins ≡ attached.old.pins }
    {
        let Ok(visit) = Visit::copy(alloc, self.id(), self.count()) else {
            return Err(Stopped::before_all());
        };
        let after = self.go_through(rt, attached, visit)?;
        let Some(copy) = after.into_copy() else {
            unreachable!()
        };
        Ok(copy)
    }

    /// The `n` hottest pages of all shards, hottest first, or all if there are fewer: those of a
    /// copy of the history of all shards, which is made as by [`SharedShards::history`].
    /// [`SharedShards::warm_list_of`] lists those of one shard, without a copy.
    ///
    /// # Errors
    /// Those of `history`; and `Node(Memory)` if no memory was left for the list. Its number is
    /// then how many shards there are. Nothing has changed in any shard.
    pub fn warm_list<R: Wait>(
        &self,
        rt: &R,
        alloc: Global,
        attached: &mut Attached<D>,
        n: usize,
    ) -> Result<PageList, Stopped>
        requires { AreOf self.now attached.old.passes }
        ensures attached { AreOf self.now attached.new.passes }
        ensures listed { IfOk result (λ pages.
            ListsAll (opened_id self.now) n pages attached.old.passes attached.new.passes) }
        ensures stopped { IfErr result (λ at. CopyFails (opened_id self.now) at.shard at.fault
            attached.old.passes attached.new.passes) }
        ensures pins { attached.new.pins ≡ attached.old.pins }
    {
        let copy = self.history(rt, alloc, attached)?;
        let Ok(pages) = hottest_of(alloc, &copy, n) else {
            return Err(Stopped::after_all(self.count()));
        };
        Ok(pages)
    }

    /// The messages with which a replica would answer this one that has the history of all shards,
    /// as [`warm_shards::Shards::answers`] of shards that no thread shares. The history is that of
    /// [`SharedShards::history`]. No shard takes the message in, or forgets anything. The copy is in
    /// memory twice until the answer is made.
    ///
    /// # Errors
    /// Those of `history`; and `Node(Memory)` if no memory was left for the answer. Its number is
    /// then how many shards there are. Nothing has changed in any shard.
    pub fn answers<R: Wait>(
        &self,
        rt: &R,
        alloc: Global,
        attached: &mut Attached<D>,
        message: &Message,
    ) -> Result<MessageList, Stopped>
        requires { AreOf self.now attached.old.passes }
        ensures attached { AreOf self.now attached.new.passes }
        ensures answers { IfOk result (λ answers. AnswersByCopy self.now message.now answers
            attached.old.passes attached.new.passes) }
        ensures stopped { IfErr result (λ at. CopyFails (opened_id self.now) at.shard at.fault
            attached.old.passes attached.new.passes) }
        ensures pins { attached.new.pins ≡ attached.old.pins }
    {
        let copy = self.history(rt, alloc, attached)?;
        let Ok(answers) = answer_of(alloc, self.id(), &copy, message) else {
            return Err(Stopped::after_all(self.count()));
        };
        Ok(answers)
    }
}
