//! The bytes of a node's pages, lent.
//!
//! None of these is a [`crate::Call`]: a call is a value, with a reply that is one, and lent bytes
//! are a borrow of the node.
ghost use Rattle.std.specs.Prelude.{◌≡◌, IfErr, IfOk, IfSome};
ghost use Rattle.std.specs.Borrow.{sem};
ghost use Rattle.warm_pool.specs.PageBytes.{IsLent};
ghost use Rattle.warm_pool.specs.Pinning.{CanPinAgain};
ghost use Rattle.warm_pool.specs.View.{view_of, Holds};
ghost use Rattle.warm_gossip.specs.Lending.{LendsNodePage};
ghost use Rattle.warm_gossip.specs.declared.fault.NodeFault.TheVariants.{StaleSlot};

use crate::fault::NodeFault;
use crate::node::Node;
use warm_devices::PageDevice;
use warm_pool::Slot;
use warm_stamps::PageId;

impl<D: PageDevice> Node<D> {
    /// All bytes of the slot's page. Nothing is copied. Allocation-free.
    ///
    /// # Errors
    /// `StaleSlot`: the slot doesn't hold its page.
    pub fn bytes(&self, slot: Slot) -> Result<&[u8], NodeFault>
        ensures lent { IfOk result (λ bytes. Holds (view_of self.now.pool) slot
            × IsLent (view_of self.now.pool) slot bytes.now) }
        ensures refused { IfErr result (λ why. (why ≡ StaleSlot)
            × (Holds (view_of self.now.pool) slot → ⊥)) }
    {
        if !self.pool.holds(slot) {
            return Err(NodeFault::StaleSlot);
        }
        Ok(self.pool.bytes(slot))
    }

    /// All bytes of the slot's page, to be written to. Nothing is copied. The page becomes dirty,
    /// even if nothing is written: it is written back before it is evicted. Allocation-free.
    ///
    /// The slot must hold its page: [`warm_pool::Pool::holds`] of [`Node::pool`] tells. A result
    /// that may be a fault cannot lend bytes to be written to.
    ///
    /// What the bytes are when they are given back is the page's content. That is the call `Write`
    /// of all bytes of the page: [`crate::laws::lent_bytes_are_written`].
    pub fn bytes_mut(&mut self, slot: Slot) -> &mut [u8]
        requires holds { Holds (view_of self.old.pool) slot }
        ensures* writes_back { sem 𝓛 (LendsNodePage D.row D.PageDevice self.entry slot.index
            result) }
        ensures lent { IsLent (view_of self.old.pool) slot result.now }
    {
        self.pool.prove_is_pool();
        self.pool.bytes_mut(slot)
    }

    /// Looks a resident page up, for [`warm_pool::Pool::resident_bytes`] of [`Node::pool`]: the
    /// slot that a pin of the page would give. Nothing that a caller sees changes. Allocation-free.
    ///
    /// Who has the node to himself while he reads the page has then the effect of a pin and an
    /// unpin, without either. `None` if the page isn't resident, or has as many pins as can be
    /// counted: [`Node::pin`] then loads it, or says why not.
    #[inline(always)]
    pub fn look_up(&mut self, page: PageId) -> Option<Slot>
        ensures same { self.new ≡ self.old }
        ensures found { IfSome result (CanPinAgain self.old.pool page) }
    {
        self.pool.look_up(page)
    }

    /// All bytes of a resident page, pinned or not, in the slot that [`Node::look_up`] gave, to be
    /// written to, as [`Node::bytes_mut`] lends those of a pinned page.
    pub fn resident_bytes_mut(&mut self, page: PageId, slot: Slot) -> &mut [u8]
        requires can { CanPinAgain self.old.pool page slot }
        ensures* writes_back { sem 𝓛 (LendsNodePage D.row D.PageDevice self.entry slot.index
            result) }
        ensures lent { IsLent (view_of self.old.pool) slot result.now }
    {
        self.pool.prove_is_pool();
        self.pool.resident_bytes_mut(page, slot)
    }
}
