//! The calls on the pool of an open handle.
ghost use Rattle.std.specs.Prelude.{◌↔◌, IfErr, IfOk, IsTrue};
ghost use Rattle.warm_pool.specs.View.{view_of, IsResident};
ghost use Rattle.warm_gossip.specs.declared.call.Call.TheVariants.{Victim, WarmStep};
ghost use Rattle.warm_gossip.specs.declared.call.Reply.TheVariants.{Loaded, Page};
ghost use Rattle.warm_c_calls.specs.Calls.{Pins, ReadsSlot, RefusedByNode, Replies, Unpins};
ghost use Rattle.warm_c_calls.specs.Calls.{Writes};
ghost use Rattle.warm_c_base.specs.Values.{page_of_c};

use crate::open_node::OpenNode;
use warm_c_base::{PinnedSlot, Refusal, WarmPage, WarmSlot};
use warm_stamps::PageId;

impl OpenNode {
    /// Calls [`warm_gossip::Node::pin`], and writes the slot.
    ///
    /// # Errors
    /// `Node`: the node's own. The slot is unchanged.
    pub fn pin(&mut self, page: WarmPage, slot: &mut PinnedSlot) -> Result<(), Refusal>
        ensures { Pins page slot.old slot.new self.old result self.new }
    {
        let given = self.node.pin(page.page())?;
        *slot = PinnedSlot::of(given);
        Ok(())
    }

    /// Calls [`warm_gossip::Node::unpin`].
    ///
    /// # Errors
    /// `Node`: the node's own.
    pub fn unpin(&mut self, slot: WarmSlot) -> Result<(), Refusal>
        ensures { Unpins slot self.old result self.new }
    {
        self.node.unpin(slot.slot())?;
        Ok(())
    }

    /// Calls [`warm_gossip::Node::read_into`].
    ///
    /// # Errors
    /// `Node`: the node's own. `into` is unchanged.
    pub fn read(&mut self, slot: WarmSlot, at: usize, into: &mut [u8]) -> Result<(), Refusal>
        ensures { ReadsSlot slot at into.old into.new self.old result self.new }
    {
        self.node.read_into(slot.slot(), at, into)?;
        Ok(())
    }

    /// Calls [`warm_gossip::Node::write`].
    ///
    /// # Errors
    /// `Node`: the node's own.
    pub fn write(&mut self, slot: WarmSlot, at: usize, bytes: &[u8]) -> Result<(), Refusal>
        ensures { Writes slot at bytes.now self.old result self.new }
    {
        self.node.write(slot.slot(), at, bytes)?;
        Ok(())
    }

    /// Calls [`warm_gossip::Node::victim`].
    pub fn victim(&mut self) -> Option<PageId>
        ensures { Replies Victim self.old (Page result) self.new }
    {
        self.node.victim()
    }

    /// Whether the page is in a frame of the pool.
    pub fn resident(&self, page: WarmPage) -> bool
        ensures { IsTrue result ↔ IsResident (view_of self.now.node.pool) (page_of_c page) }
    {
        self.node.pool().resident(page.page())
    }

    /// Calls [`warm_gossip::Node::warm_step`], and returns the page that was loaded, if one was.
    ///
    /// # Errors
    /// `Node`: the node's own.
    pub fn step(&mut self) -> Result<Option<PageId>, Refusal>
        ensures loaded { IfOk result (λ page. Replies WarmStep self.old (Loaded page) self.new) }
        ensures refused { IfErr result (λ why. RefusedByNode WarmStep self.old why self.new) }
    {
        let loaded = self.node.warm_step()?;
        Ok(loaded)
    }
}
