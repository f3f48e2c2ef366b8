//! Lending the bytes of a page to C.
ghost use Rattle.std.specs.Prelude.{◌≡◌, ◌<◌, length};
ghost use Rattle.std.specs.Ptr.{as_ptr};
ghost use Rattle.warm_c_calls.specs.LentBytes.{Lends, LendsMut, PinsAndLends};

use crate::open_node::OpenNode;
use warm_c_base::{PinnedSlot, Refusal, WarmPage, WarmSlot};
use warm_gossip::NodeFault;

// Returns the address of the first of these bytes.
fn address_of(bytes: &[u8]) -> *const u8
    requires { 0 < length bytes.now }
    ensures { result ≡ as_ptr bytes.entry }
{
    std::ptr::from_ref(&bytes[0])
}

// Returns the address of the first of these bytes, to be written to. Of a borrow to write with the
// checker does not know the address, so no clause says it.
fn address_of_mut(bytes: &mut [u8]) -> *mut u8
    requires { 0 < length bytes.old }
    ensures { bytes.new ≡ bytes.old }
{
    std::ptr::from_mut(&mut bytes[0])
}

impl OpenNode {
    /// Calls [`warm_gossip::Node::pin`], and writes the slot and the address of the page's bytes,
    /// which stay there as [`OpenNode::bytes`] says.
    ///
    /// # Errors
    /// `Node`: the node's own. The slot and the pointer are unchanged.
    pub fn pin_bytes(
        &mut self,
        page: WarmPage,
        slot: &mut PinnedSlot,
        bytes: &mut *const u8,
    ) -> Result<(), Refusal>
        ensures { PinsAndLends page slot.old slot.new bytes.old bytes.new self.old result self.new }
    {
        let given = self.node.pin(page.page())?;
        let pool = self.node.pool();
        pool.prove_is_pool();
        *bytes = address_of(pool.bytes(given));
        *slot = PinnedSlot::of(given);
        Ok(())
    }

    /// Writes the address of the bytes of the slot's page. They stay there until the page has no
    /// pin: a frame whose page is pinned keeps its bytes where they are.
    ///
    /// # Errors
    /// `Node`, with `StaleSlot`: the slot does not hold its page. The pointer is unchanged.
    pub fn bytes(&self, slot: WarmSlot, bytes: &mut *const u8) -> Result<(), Refusal>
        ensures { Lends slot bytes.old bytes.new self.now result self.now }
    {
        let slot = slot.slot();
        let pool = self.node.pool();
        if !pool.holds(slot) {
            return Err(Refusal::Node(NodeFault::StaleSlot));
        }
        pool.prove_is_pool();
        *bytes = address_of(pool.bytes(slot));
        Ok(())
    }

    /// Writes the address of the bytes of the slot's page, to be written to. The page becomes
    /// dirty.
    ///
    /// # Errors
    /// `Node`, with `StaleSlot`: the slot does not hold its page. The pointer is unchanged.
    pub fn bytes_mut(&mut self, slot: WarmSlot, bytes: &mut *mut u8) -> Result<(), Refusal>
        ensures { LendsMut slot bytes.old bytes.new self.old result self.new }
    {
        let slot = slot.slot();
        if !self.node.pool().holds(slot) {
            return Err(Refusal::Node(NodeFault::StaleSlot));
        }
        self.node.pool().prove_is_pool();
        *bytes = address_of_mut(self.node.bytes_mut(slot));
        Ok(())
    }
}
