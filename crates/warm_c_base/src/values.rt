//! What crosses to C, beside numbers, bytes and a handle.
ghost use Rattle.std.specs.Prelude.{◌≡◌, IsTrue};
ghost use Rattle.warm_c_base.specs.Values.{c_page, c_slot, page_if, page_of_c, slot_of_c};
ghost use Rattle.warm_c_base.specs.Values.{IsBool, IsOptionalDirty, IsOptionalPage};

use warm_pool::{DirtyFrame, Slot};
use warm_stamps::PageId;

/// A page: its device, numbered from 0 in the order of the devices of `node_open`, and its number
/// on that device, from 0.
#[repr(C)]
#[derive(Clone, Copy)]
pub struct WarmPage {
    /// The page's number on its device.
    pub no: u64,
    /// The device's number.
    pub dev: u16,
}

/// A reference to a page at a time by a replica, by the caller's clock.
#[repr(C)]
#[derive(Clone, Copy)]
pub struct WarmReference {
    /// The number of the replica that saw it, 1 to 64. Another is refused.
    pub replica: u16,
    /// The device's number.
    pub dev: u16,
    /// The page's number on its device.
    pub no: u64,
    /// When, in units of the caller's clock.
    pub time: u64,
}

/// Where a pinned page is: a frame of the pool, and how many pages were put into it so far.
#[repr(C)]
#[derive(Clone, Copy)]
pub struct WarmSlot {
    /// The frame's generation.
    pub generation: u64,
    /// The frame's number, from 0.
    pub index: u32,
    /// The number of the shard, which no call of a node looks at.
    pub shard: u32,
}

/// A slot as `node_pin` writes it: to C it is a `WarmSlot`, whose index is the lower half of the
/// index here, and whose shard the upper half.
///
/// C passes a slot on by reads of eight bytes. A processor serves such a read at once from one
/// write of eight, and not from two of four.
#[repr(C)]
#[derive(Clone, Copy)]
pub struct PinnedSlot {
    /// The frame's generation.
    pub generation: u64,
    /// The frame's number, from 0, in four bytes; and shard 0, in four.
    pub index: u64,
}

/// A device: a file descriptor that is open for reading and writing, and how many pages its file
/// may have.
#[repr(C)]
#[derive(Clone, Copy)]
pub struct WarmDevice {
    /// How many pages.
    pub pages: u64,
    /// The descriptor.
    pub fd: i32,
}

impl WarmPage {
    /// Returns the page as C has it.
    pub fn of(page: PageId) -> WarmPage
        ensures { result ≡ c_page page }
    {
        WarmPage {
            no: page.no,
            dev: page.dev,
        }
    }

    /// Returns the page as the node has it.
    pub fn page(self) -> PageId
        ensures { result ≡ page_of_c self }
    {
        PageId {
            dev: self.dev,
            no: self.no,
        }
    }
}

impl PinnedSlot {
    /// Returns the slot as C has it.
    pub fn of(slot: Slot) -> PinnedSlot
        ensures { result ≡ c_slot slot }
    {
        PinnedSlot {
            generation: slot.generation,
            index: u64::from(slot.index),
        }
    }
}

impl WarmSlot {
    /// Returns the slot as the node has it.
    pub fn slot(self) -> Slot
        ensures { result ≡ slot_of_c self }
    {
        Slot {
            index: self.index,
            generation: self.generation,
        }
    }
}

/// Returns the page, if there is one; `page` means nothing if there is none.
pub fn page_if(is_there: bool, page: WarmPage) -> Option<PageId>
    ensures { result ≡ page_if is_there page }
{
    if is_there { Some(page.page()) } else { None }
}

/// Returns a bool of C.
///
/// A number, not a `bool`: a call writes it over memory of a caller of C. That memory may hold no
/// valid `bool` before, and is never read.
pub fn c_bool(holds: bool) -> u8
    ensures { IsBool result (IsTrue holds) }
{
    if holds { 1 } else { 0 }
}

/// Writes whether there is a page, as a bool of C, and which; `page` is unchanged if there is none.
pub fn put_page(given: Option<PageId>, found: &mut u8, page: &mut WarmPage)
    ensures { IsOptionalPage given page.old found.new page.new }
{
    match given {
        Some(given) => {
            *found = 1;
            *page = WarmPage::of(given);
        }
        None => *found = 0,
    }
}

/// Writes whether there is a dirty frame, as a bool of C, which, and its page; `frame` and `page`
/// are unchanged if there is none.
pub fn put_dirty(given: Option<DirtyFrame>, found: &mut u8, frame: &mut usize, page: &mut WarmPage)
    ensures { IsOptionalDirty given frame.old page.old found.new frame.new page.new }
{
    match given {
        Some(given) => {
            *frame = given.frame;
            put_page(Some(given.page), found, page);
        }
        None => put_page(None, found, page),
    }
}
