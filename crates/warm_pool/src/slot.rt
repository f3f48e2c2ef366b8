//! Slots: handles of pages in frames.

use warm_stamps::PageId;

/// A handle of a frame with the page that was in it when the slot was given.
///
/// A frame's generation is increased by one whenever a page is loaded into it, so a slot of an
/// older page differs from a slot of the current page.
#[derive(Clone, Copy, PartialEq, Eq, Debug)]
pub struct Slot {
    /// The frame's number, from 0.
    pub index: u32,
    /// The frame's generation.
    pub generation: u64,
}

/// What a pin or a load gives: the page's slot, and the page that was evicted for it.
#[derive(Clone, Copy, PartialEq, Eq, Debug)]
pub struct Placed {
    /// The slot of the page.
    pub slot: Slot,
    /// The page that was in the slot's frame before, and is in no frame now; `None` if the page was
    /// resident, or was loaded into a frame without a page.
    pub evicted: Option<PageId>,
}
