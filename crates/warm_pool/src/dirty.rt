//! Which pages of a pool are dirty, and in which frames.
ghost use Rattle.std.specs.Prelude.{◌≡◌, ◌↔◌, ◌<◌, length, IsTrue};
ghost use Rattle.warm_frame_table.specs.Frames.{nth_frame, dirty_count};
ghost use Rattle.warm_pool.specs.WritingSome.{IsDirty, IsDirtyPage, IsNextDirty};

use crate::pool::Pool;
use warm_devices::PageDevice;
use warm_stamps::PageId;

/// A frame whose page is dirty.
#[derive(Clone, Copy, PartialEq, Eq, Debug)]
pub struct DirtyFrame {
    /// The frame's number, from 0.
    pub frame: usize,
    /// Its page.
    pub page: PageId,
}

impl<D: PageDevice> Pool<D> {
    /// The number of dirty pages. The cost is constant.
    pub fn dirty(&self) -> usize
        ensures { result ≡ dirty_count self.now.frames }
    {
        self.frames.dirty()
    }

    /// Whether the page is resident and dirty.
    pub fn has_dirty(&self, page: PageId) -> bool
        ensures { IsTrue result ↔ IsDirty self.now page }
    {
        match self.frames.find(page) {
            Some(at) => self.frames.is_dirty(at),
            None => false,
        }
    }

    /// The first dirty frame with the number `from` or a higher one, and its page; `None` if there
    /// is none, as for a `from` beyond the last frame. The cost is linear in the number of frames
    /// that are looked at.
    ///
    /// A caller that begins with 0, and goes on with the number after the frame that it was given,
    /// meets each dirty page once, if no call changes the pool meanwhile.
    pub fn next_dirty(&self, from: usize) -> Option<DirtyFrame>
        ensures { IsNextDirty self.now from result }
    {
        for at in from..self.frames.len() {
            if let Some(page) = self.dirty_page(at) {
                return Some(DirtyFrame { frame: at, page });
            }
        }
        None
    }

    // Whether the page in a frame is dirty.
    pub(crate) fn is_dirty(&self, at: usize) -> bool
        requires { at < length self.now.frames }
        ensures { result ≡ (nth_frame self.now.frames at).dirty }
    {
        self.frames.is_dirty(at)
    }

    // The page in a frame, if it is dirty.
    fn dirty_page(&self, at: usize) -> Option<PageId>
        requires { at < length self.now.frames }
        ensures { IsDirtyPage self.now at result }
    {
        if !self.frames.is_dirty(at) {
            return None;
        }
        self.frames.page(at)
    }
}
