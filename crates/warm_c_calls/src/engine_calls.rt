//! The calls on an open handle by which an engine holds its pages, beside pins, reads and writes.
ghost use Rattle.std.specs.Prelude.{◌≡◌, ◌↔◌, IfErr, IfOk, IsTrue};
ghost use Rattle.warm_c_calls.specs.Engine.{FlushesDevice, ForgetsPages, NodeWritesBackPage, PinsZeroed};
ghost use Rattle.warm_c_calls.specs.Engine.{SaysMayForget};
ghost use Rattle.warm_c_calls.specs.FilledPins.{PinsFilled};
ghost use Rattle.warm_c_base.specs.Values.{page_of_c};
ghost use Rattle.warm_c_base.specs.declared.status.Refusal.TheVariants.{Node};
ghost use Rattle.warm_pool.specs.WritingSome.{IsDirty, IsNextDirty};
ghost use Rattle.warm_gossip.specs.State.{node_view};
ghost use Rattle.warm_gossip.specs.Step.{IsNextWarm};
ghost use Rattle.warm_gossip.specs.declared.fault.NodeFault.TheVariants.{Memory};

use crate::open_node::OpenNode;
use warm_c_base::{PinnedSlot, Refusal, WarmPage, c_bool};
use warm_pool::{DirtyFrame, NewPoolFault};
use warm_stamps::PageId;

impl OpenNode {
    /// Calls [`warm_gossip::Node::pin_zeroed`], and writes the slot.
    ///
    /// # Errors
    /// `Node`: the node's own. The slot is unchanged.
    pub fn pin_zeroed(&mut self, page: WarmPage, slot: &mut PinnedSlot) -> Result<(), Refusal>
        ensures { PinsZeroed page slot.old slot.new self.old result self.new }
    {
        let given = self.node.pin_zeroed(page.page())?;
        *slot = PinnedSlot::of(given);
        Ok(())
    }

    /// Calls [`warm_gossip::Node::pin_filled`], and writes the slot.
    ///
    /// # Errors
    /// `NewPool(SizeDiffers)`: the bytes are not as many as a page has; nothing has changed.
    /// `Node`: the node's own. The slot is unchanged.
    pub fn pin_filled(
        &mut self,
        page: WarmPage,
        bytes: &[u8],
        slot: &mut PinnedSlot,
    ) -> Result<(), Refusal>
        ensures { PinsFilled page bytes.now slot.old slot.new self.old result self.new }
    {
        if bytes.len() != self.node.pool().page_size() {
            return Err(Refusal::NewPool(NewPoolFault::SizeDiffers));
        }
        // No device over a descriptor claims anything of its bytes: so any bytes are allowed.
        let _devices = self.node.pool().devices();
        let filled = self.node.pin_filled(page.page(), bytes)?;
        *slot = PinnedSlot::of(filled);
        Ok(())
    }

    /// Calls [`warm_gossip::Node::warm_next`].
    ///
    /// # Errors
    /// `Node(Memory)`: an allocation failed.
    pub fn next(&mut self) -> Result<Option<PageId>, Refusal>
        ensures same { self.new ≡ self.old }
        ensures next { IfOk result (λ page. IsNextWarm (node_view self.old.node) page) }
        ensures refused { IfErr result (λ why. why ≡ Node Memory) }
    {
        let next = self.node.warm_next()?;
        Ok(next)
    }

    /// Calls [`warm_gossip::Node::write_back_page`], and writes whether the page was dirty, 1 or
    /// 0.
    ///
    /// # Errors
    /// `Node`: the node's own. `written` is unchanged.
    pub fn write_back_page(&mut self, page: WarmPage, written: &mut u8) -> Result<(), Refusal>
        ensures { NodeWritesBackPage page written.old written.new self.old result self.new }
    {
        let was_dirty = self.node.write_back_page(page.page())?;
        *written = c_bool(was_dirty);
        Ok(())
    }

    /// Whether the page is in a frame of the pool, and dirty.
    pub fn has_dirty(&self, page: WarmPage) -> bool
        ensures { IsTrue result ↔ IsDirty self.now.node.pool (page_of_c page) }
    {
        self.node.pool().has_dirty(page.page())
    }

    /// The first dirty frame of the pool with the number `from` or a higher one, and its page.
    pub fn next_dirty(&self, from: usize) -> Option<DirtyFrame>
        ensures { IsNextDirty self.now.node.pool from result }
    {
        self.node.pool().next_dirty(from)
    }

    /// Calls [`warm_gossip::Node::flush_device`].
    ///
    /// # Errors
    /// `Node`: the node's own.
    pub fn flush_device(&mut self, dev: u16) -> Result<(), Refusal>
        ensures { FlushesDevice dev self.old result self.new }
    {
        self.node.flush_device(dev)?;
        Ok(())
    }

    /// Calls [`warm_gossip::Node::forget_pages`].
    ///
    /// # Errors
    /// `Node`: the node's own.
    pub fn forget_pages(&mut self, dev: u16, from: u64) -> Result<(), Refusal>
        ensures { ForgetsPages dev from self.old result self.new }
    {
        self.node.forget_pages(dev, from)?;
        Ok(())
    }

    /// Calls [`warm_gossip::Node::may_forget`].
    ///
    /// # Errors
    /// `Node`: the node's own.
    pub fn may_forget(&self, dev: u16, from: u64) -> Result<(), Refusal>
        ensures { SaysMayForget dev from self.now result self.now }
    {
        self.node.may_forget(dev, from)?;
        Ok(())
    }
}
