//! The frames of a pool, without its devices.
ghost use Rattle.std.specs.Prelude.{◌≡◌, ◌≢◌, None, ◌+◌, ◌-◌, ◌^◌, ◌<◌, ◌≤◌, map, length};
ghost use Rattle.std.specs.Prelude.{replicate, IfOk};
ghost use Rattle.std.specs.Borrow.{sem};
ghost use Rattle.warm_rank.specs.Keys.{key_cmp};
ghost use Rattle.warm_rank.specs.Laws.{pages_in};
ghost use Rattle.warm_rank.specs.Slots.{IsLeast};
ghost use Rattle.warm_frame_table.specs.Frames.{nth_frame, eviction_key, fresh_frames, pages_held};
ghost use Rattle.warm_frame_table.specs.Frames.{dirty_count};
ghost use Rattle.warm_frame_table.specs.FrameSteps.{cleaned, changed_at, loaded_frame, fixed};
ghost use Rattle.warm_frame_table.specs.FrameSteps.{unfixed, ranked, written, patched};
ghost use Rattle.warm_frame_table.specs.Places.{IsPlaceOf, IsFirstFree};
ghost use Rattle.warm_frame_table.specs.Selection.{vacated_selected, AreClean};
ghost use Rattle.warm_frame_table.specs.Lending.{LendsFrame};
ghost use Rattle.warm_frame_table.specs.stored.Parts.{fresh_body, fresh_bodies, filled_body};

use crate::competing::Competing;
use crate::frame::{Frame, Status, bytes_mut_of};
use crate::page_table::PageTable;
use crate::selection::Devices;
use crate::statuses::Statuses;
use std::alloc::{AllocError, Global};
use std::marker::Model;
use std::mem;
use warm_rank::{Contest, MAX_FRAMES, RankKey};
use warm_stamps::PageId;

/// The frames of a pool, the frame of each page, and the rank of each page that may be evicted.
///
/// The data that is read of all frames at once, their pages and statuses, is stored apart from
/// ranks and bytes, so that emptying a pool scans little memory.
#[derive(Drop)]
pub struct Frames {
    page_size: usize,
    page_table: PageTable,
    statuses: Statuses,
    frames: Vec<Frame>,
    contest: Contest,
}

impl Model for Frames {
    ghost use Rattle.warm_frame_table.specs.Frames.{FramesState};
    ghost use Rattle.warm_frame_table.specs.stored.Tied.{AreTied};
    ghost use Rattle.warm_frame_table.specs.stored.Parts.{frames_of};

    ghost Value = { FramesState };

    ghost view = { λ f. record {
      page_size = f.page_size;
      frames = frames_of f.page_table f.statuses f.frames.items;
    } };

    ghost invariant = { λ f. AreTied f.page_table f.statuses f.frames.items f.contest };
}

impl Frames {
    /// This many frames of `page_size` bytes, without a page. Their memory is allocated here; no
    /// other call allocates.
    ///
    /// # Errors
    /// `AllocError` if an allocation fails.
    pub fn new(alloc: Global, frames: usize, page_size: usize) -> Result<Frames, AllocError>
        requires some { 0 < frames }
        requires few { frames ≤ MAX_FRAMES }
        ensures { IfOk result (λ made. made ≡ fresh_frames frames page_size) }
    {
        let page_table = PageTable::new(alloc, frames)?;
        let statuses = Statuses::new(alloc, frames)?;
        let bodies = fresh_frames(alloc, frames, page_size)?;
        let contest = Contest::new(alloc, frames)?;
        Ok(Frames {
            page_size,
            page_table,
            statuses,
            frames: bodies,
            contest,
        })
    }

    /// The size of a page.
    pub fn page_size(&self) -> usize
        ensures { result ≡ self.now.page_size }
    {
        self.page_size
    }

    /// The number of frames.
    pub fn len(&self) -> usize
        ensures { result ≡ length self.now.frames }
    {
        self.frames.len()
    }

    /// The page in a frame; `None` if it has none.
    pub fn page(&self, at: usize) -> Option<PageId>
        requires { at < length self.now.frames }
        ensures { result ≡ (nth_frame self.now.frames at).page }
    {
        self.page_table.page(at)
    }

    /// The number of pages in frames.
    pub fn held(&self) -> usize
        ensures { result ≡ length (pages_in (pages_held self.now.frames)) }
    {
        self.page_table.held()
    }

    /// The number of dirty pages.
    pub fn dirty(&self) -> usize
        ensures { result ≡ dirty_count self.now.frames }
    {
        self.statuses.dirty()
    }

    /// The pin count of the page in a frame.
    pub fn fixes(&self, at: usize) -> u32
        requires { at < length self.now.frames }
        ensures { result ≡ (nth_frame self.now.frames at).fixes }
    {
        self.statuses.get(at).fixes
    }

    /// Whether the page in a frame is dirty: written to since it was last equal to its device's
    /// copy.
    pub fn is_dirty(&self, at: usize) -> bool
        requires { at < length self.now.frames }
        ensures { result ≡ (nth_frame self.now.frames at).dirty }
    {
        self.statuses.get(at).dirty
    }

    /// The generation of a frame: how many pages were loaded into it.
    pub fn generation(&self, at: usize) -> u64
        requires { at < length self.now.frames }
        ensures { result ≡ (nth_frame self.now.frames at).generation }
    {
        self.frames[at].generation
    }

    /// The bytes in a frame.
    pub fn bytes(&self, at: usize) -> &[u8]
        requires { at < length self.now.frames }
        ensures { result.now ≡ (nth_frame self.now.frames at).bytes }
    {
        &self.frames[at].bytes
    }

    /// The frame that holds the page; `None` if none does.
    pub fn find(&self, page: PageId) -> Option<usize>
        ensures { IsPlaceOf (pages_held self.now.frames) page result }
    {
        self.page_table.find(page)
    }

    /// The first frame without a page; `None` if each has one.
    pub fn first_free(&self) -> Option<usize>
        ensures { IsFirstFree (pages_held self.now.frames) result }
    {
        self.page_table.first_free()
    }

    /// The frame of the least rank among those of unpinned pages; `None` if each page is pinned.
    /// The contest catches up here: pins and ranks that have risen are not passed on to it as they
    /// come.
    pub fn least(&mut self) -> Option<usize>
        ensures same { self.new ≡ self.old }
        ensures least { IsLeast key_cmp (map eviction_key self.old.frames) result }
    {
        let competing = Competing {
            pages: self.page_table.pages(),
            statuses: self.statuses.all(),
            frames: &self.frames,
        };
        self.contest.settle(&competing)
    }

    /// Adds a pin.
    pub fn fix(&mut self, at: usize)
        requires there { at < length self.old.frames }
        requires below { (nth_frame self.old.frames at).fixes < 2 ^ 32 - 1 }
        ensures { self.new ≡ changed_at self.old at fixed }
    {
        self.statuses.fix(at);
    }

    /// Removes a pin. An unpinned page may be evicted.
    pub fn unfix(&mut self, at: usize)
        requires there { at < length self.old.frames }
        requires held { (nth_frame self.old.frames at).page ≢ None }
        requires fixed { 0 < (nth_frame self.old.frames at).fixes }
        ensures { self.new ≡ changed_at self.old at unfixed }
    {
        let left = self.statuses.unfix(at);
        if left > 0 {
            return;
        }
        // A key that the contest has is at most the page's rank.
        if self.contest.is_set(at) {
            return;
        }
        self.contest.set(at, self.frames[at].key);
    }

    /// Updates the rank of a page.
    pub fn rank(&mut self, at: usize, key: RankKey)
        requires there { at < length self.old.frames }
        requires held { (nth_frame self.old.frames at).page ≢ None }
        ensures { self.new ≡ changed_at self.old at (ranked key) }
    {
        let frame = &mut self.frames[at];
        frame.key = Some(key);
        let key = frame.key;
        self.contest.lower(at, key);
    }

    /// Loads a page with this pin count into a frame, and swaps the frame's bytes with these.
    pub fn install(
        &mut self,
        at: usize,
        page: PageId,
        key: RankKey,
        fixes: u32,
        bytes: &mut Vec<u8>,
    )
        requires there { at < length self.old.frames }
        requires below { (nth_frame self.old.frames at).generation < 2 ^ 64 - 1 }
        ensures frames { self.new
            ≡ changed_at self.old at (loaded_frame page key fixes bytes.old.items) }
        ensures given { bytes.new.items ≡ (nth_frame self.old.frames at).bytes }
    {
        let frame = &mut self.frames[at];
        fill(frame, key, bytes);
        let rank = frame.key;
        let status = Status {
            fixes,
            dirty: false,
        };
        self.statuses.put(at, status);
        self.page_table.set(at, Some(page));
        // The slot still has its last page's key, mostly the least. It gets the new one at once, so
        // that the next victim is at the root.
        self.contest.set(at, rank);
    }

    /// Marks the page of a frame as clean.
    pub fn clean(&mut self, at: usize)
        requires there { at < length self.old.frames }
        ensures { self.new ≡ changed_at self.old at cleaned }
    {
        self.statuses.mark(at, false);
    }

    /// Lends the bytes in a frame, whose page becomes dirty.
    pub fn bytes_mut(&mut self, at: usize) -> &mut [u8]
        requires there { at < length self.old.frames }
        ensures* writes_back { sem 𝓛 (LendsFrame self.entry at result) }
        ensures bytes { result.now ≡ (nth_frame self.old.frames at).bytes }
    {
        self.statuses.mark(at, true);
        bytes_mut_of(&mut self.frames, at)
    }

    /// Writes bytes into a page from `from` on.
    pub fn patch(&mut self, at: usize, from: usize, bytes: &[u8])
        requires there { at < length self.old.frames }
        requires within { from + length bytes.now ≤ length (nth_frame self.old.frames at).bytes }
        ensures { self.new ≡ changed_at self.old at (written from bytes.now) }
    {
        overwrite(&mut self.frames[at], from, bytes);
        self.statuses.mark(at, true);
    }

    /// Evicts the pages of the selected frames, each of which is clean. Generations and bytes are
    /// unchanged. The cost is linear in the number of frames.
    pub fn vacate_selected(&mut self, which: Devices)
        requires { AreClean which self.old.frames }
        ensures { self.new ≡ record self.old { frames = vacated_selected which self.old.frames } }
    {
        self.page_table.clear_selected(which);
        self.contest.clear_vacant(self.page_table.pages());
    }
}

// Frames into which no page was ever loaded.
fn fresh_frames(alloc: Global, frames: usize, page_size: usize) -> Result<Vec<Frame>, AllocError>
    ensures { IfOk result (λ made. made.items ≡ fresh_bodies frames page_size) }
{
    let mut made = Vec::with_capacity(alloc, frames)?;
    for _ in 0..frames {
        made.push(fresh(alloc, page_size)?)?;
    }
    Ok(made)
}

// A frame into which no page was ever loaded.
fn fresh(alloc: Global, page_size: usize) -> Result<Frame, AllocError>
    ensures { IfOk result (λ frame. frame ≡ fresh_body (replicate page_size 0)) }
{
    let bytes = Vec::from_elem(alloc, 0, page_size)?;
    Ok(Frame {
        key: None,
        generation: 0,
        bytes,
    })
}

// Records that another page was loaded into a frame, and swaps the frame's bytes with these.
fn fill(frame: &mut Frame, key: RankKey, bytes: &mut Vec<u8>)
    requires { frame.old.generation < 2 ^ 64 - 1 }
    ensures frame { frame.new ≡ filled_body key bytes.old.items frame.old }
    ensures given { bytes.new.items ≡ frame.old.bytes }
{
    mem::swap(&mut frame.bytes, bytes);
    frame.key = Some(key);
    frame.generation += 1;
}

// Overwrites the bytes of a frame, from `from` on.
fn overwrite(frame: &mut Frame, from: usize, bytes: &[u8])
    requires { from + length bytes.now ≤ length frame.old.bytes }
    ensures { frame.new ≡ record frame.old { bytes = patched frame.old.bytes from bytes.now } }
{
    frame.bytes[from..from + bytes.len()].copy_from_slice(bytes);
}
