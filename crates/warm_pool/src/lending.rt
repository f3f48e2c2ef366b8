//! Lending the bytes of a page, to be written to; and of a resident page, which need not be pinned
//! if nobody else has the pool.
ghost use Rattle.std.specs.Prelude.{◌≡◌, IfSome};
ghost use Rattle.std.specs.Borrow.{sem};
ghost use Rattle.warm_pool.specs.View.{view_of, Holds};
ghost use Rattle.warm_pool.specs.Unchanged.{KeepsRanks};
ghost use Rattle.warm_pool.specs.PageBytes.{IsLent};
ghost use Rattle.warm_pool.specs.Lending.{LendsPage};
ghost use Rattle.warm_pool.specs.Pinning.{CanPinAgain};

use crate::pool::Pool;
use crate::slot::Slot;
use warm_devices::PageDevice;
use warm_stamps::PageId;

impl<D: PageDevice> Pool<D> {
    /// All bytes of the slot's page, to be written to. Nothing is copied. The page becomes dirty,
    /// even if nothing is written: it is written back before it is evicted.
    ///
    /// What the bytes are when they are given back is the page's content. That is a write of all
    /// bytes of the page: `laws::lent_page_is_written` says of it what [`Pool::write`] ensures.
    pub fn bytes_mut(&mut self, slot: Slot) -> &mut [u8]
        requires holds { Holds (view_of self.old) slot }
        ensures* writes_back { sem 𝓛 (LendsPage D.row D.PageDevice self.entry slot.index result) }
        ensures lent { IsLent (view_of self.old) slot result.now }
    {
        self.frames.bytes_mut(slot.index as usize)
    }

    /// Looks a page up, for [`Pool::resident_bytes`]: the slot that a pin of the page would give.
    /// `None` if the page isn't resident, or has as many pins as can be counted. It counts as a
    /// hit, as that pin would.
    ///
    /// Who has the pool to himself while he reads the page needs no pin: nothing can evict the
    /// page.
    #[inline(always)]
    pub fn look_up(&mut self, page: PageId) -> Option<Slot>
        ensures same { self.new ≡ self.old }
        ensures ranked { KeepsRanks self.old self.new }
        ensures found { IfSome result (CanPinAgain self.old page) }
    {
        let slot = self.pinnable(page)?;
        self.tally.hit();
        Some(slot)
    }

    /// All bytes of a resident page, pinned or not, in the slot that [`Pool::look_up`] gave.
    /// Nothing is copied.
    pub fn resident_bytes(&self, _page: PageId, slot: Slot) -> &[u8]
        requires can { CanPinAgain self.now _page slot }
        ensures { IsLent (view_of self.now) slot result.now }
    {
        self.frames.bytes(slot.index as usize)
    }

    /// All bytes of a resident page, pinned or not, in the slot that [`Pool::look_up`] gave, to be
    /// written to, as [`Pool::bytes_mut`] lends those of a pinned page.
    pub fn resident_bytes_mut(&mut self, _page: PageId, slot: Slot) -> &mut [u8]
        requires can { CanPinAgain self.old _page slot }
        ensures* writes_back { sem 𝓛 (LendsPage D.row D.PageDevice self.entry slot.index result) }
        ensures lent { IsLent (view_of self.old) slot result.now }
    {
        let at = slot.index as usize;
        self.frames.bytes_mut(at)
    }
}
