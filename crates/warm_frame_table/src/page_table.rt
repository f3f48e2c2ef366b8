//! The page table: finds the frame of a page, and a free frame, without a scan.
//!
//! Frames are linked in hash chains, each in rising order of frames: pages are spread over as many
//! chains as there are frames, and the frames without a page are in a chain of their own. A link is
//! the number of the next frame, and the number of frames ends a chain. All memory is allocated
//! when the frames are made.
ghost use Rattle.std.specs.Prelude.{◌≡◌, ℕ, List, ◌+◌, ◌<◌, ◌≤◌, length, map, replicate, set};
ghost use Rattle.std.specs.Prelude.{slice_index, IfOk, IsTrue, None, Some, ◌↔◌};
ghost use Rattle.warm_rank.specs.Laws.{pages_in};
ghost use Rattle.warm_frame_table.specs.declared.selection.Devices.TheVariants.{All};
ghost use Rattle.warm_frame_table.specs.Places.{IsFirstFree, IsPlaceOf};
ghost use Rattle.warm_frame_table.specs.stored.Chains.{AreChains, AreInTurn, AreLinked};
ghost use Rattle.warm_frame_table.specs.stored.Chains.{IsPredecessor, after, chain_of, chains_of};
ghost use Rattle.warm_frame_table.specs.stored.Chains.{hash_of, heads_with_link, link_after};
ghost use Rattle.warm_frame_table.specs.stored.Chains.{chains_without, mix_of, next_with_link};
ghost use Rattle.warm_frame_table.specs.stored.Chains.{page_in};
ghost use Rattle.warm_frame_table.specs.stored.PageTable.{one_if_held, clear_if};

use crate::selection::Devices;
use std::alloc::{AllocError, Global};
use std::marker::Model;
use warm_rank::MAX_FRAMES;
use warm_stamps::PageId;

/// The page of each frame, if any. Contracts see the list of them.
#[derive(Drop)]
pub(crate) struct PageTable {
    pages: Vec<Option<PageId>>,
    heads: Vec<u32>,
    next: Vec<u32>,
    held: usize,
}

impl Model for PageTable {
    ghost use Rattle.std.specs.Prelude.{List, Option};
    ghost use Rattle.warm_stamps.specs.declared.PageId.{PageId};
    ghost use Rattle.warm_frame_table.specs.stored.PageTable.{IsTable};

    ghost Value = { List (Option PageId) };

    ghost view = { λ page_table. page_table.pages.items };

    ghost invariant = { λ table.
        IsTable table.pages.items table.heads.items table.next.items table.held };
}

impl PageTable {
    /// Frames without a page, up to [`MAX_FRAMES`] of them.
    ///
    /// # Errors
    /// `AllocError` if their allocation fails.
    pub(crate) fn new(alloc: Global, frames: usize) -> Result<PageTable, AllocError>
        requires few { frames ≤ MAX_FRAMES }
        ensures { IfOk result (λ page_table. page_table ≡ replicate frames None) }
    {
        let pages = no_pages(alloc, frames)?;
        let heads = heads_of_none(alloc, frames)?;
        let next = links_to_next(alloc, frames)?;
        Ok(PageTable {
            pages,
            heads,
            next,
            held: 0,
        })
    }

    /// The page of each frame, if any.
    pub(crate) fn pages(&self) -> &[Option<PageId>]
        ensures { result.now ≡ self.now }
    {
        &self.pages
    }

    /// The number of pages.
    pub(crate) fn held(&self) -> usize
        ensures { result ≡ length (pages_in self.now) }
    {
        self.held
    }

    /// The page in a frame, if there is one.
    pub(crate) fn page(&self, frame: usize) -> Option<PageId>
        requires { frame < length self.now }
        ensures { result ≡ page_in self.now frame }
    {
        self.pages[frame]
    }

    /// The frame that holds a page, if one does.
    pub(crate) fn find(&self, page: PageId) -> Option<usize>
        ensures { IsPlaceOf self.now page result }
    {
        find_in(&self.pages, &self.heads, &self.next, page)
    }

    /// The first frame without a page, if there is one.
    pub(crate) fn first_free(&self) -> Option<usize>
        ensures { IsFirstFree self.now result }
    {
        let frames = self.pages.len();
        let first = self.heads[frames] as usize;
        if first < frames { Some(first) } else { None }
    }

    /// Sets the page of a frame, or clears it. Allocation-free.
    pub(crate) fn set(&mut self, frame: usize, page: Option<PageId>)
        requires { frame < length self.old }
        ensures { self.new ≡ set self.old frame page }
    {
        move_frame(&self.pages, &mut self.heads, &mut self.next, frame, page);
        self.held = held_after(self.held, self.pages[frame], page);
        self.pages[frame] = page;
    }

    /// Removes the pages of the selected frames. All chains are then rebuilt in one pass over the
    /// frames, however many pages are removed: unlinking each frame would read links scattered over
    /// memory. Allocation-free.
    pub(crate) fn clear_selected(&mut self, which: Devices)
        ensures { self.new ≡ map (clear_if which) self.old }
    {
        if let Devices::All = which {
            clear_all(&mut self.pages, &mut self.heads, &mut self.next);
            self.held = 0;
            return;
        }
        clear_pages(&mut self.pages, which);
        self.held = count_held(&self.pages);
        link_all(&self.pages, &mut self.heads, &mut self.next);
    }
}

// Removes all pages: all frames are then in the last chain, one after the other.
fn clear_all(pages: &mut Vec<Option<PageId>>, heads: &mut Vec<u32>, next: &mut Vec<u32>)
    requires { AreLinked pages.old.items heads.old.items next.old.items }
    ensures pages { pages.new.items ≡ map (clear_if All) pages.old.items }
    ensures linked { AreLinked pages.new.items heads.new.items next.new.items }
{
    let frames = pages.len();
    pages.fill(None);
    clear_heads(heads, frames);
    heads[frames] = 0;
    link_in_turn(next);
}

// Links each frame to the next.
fn link_in_turn(next: &mut Vec<u32>)
    requires { length next.old.items ≤ MAX_FRAMES }
    ensures { AreInTurn (length next.old.items) next.new.items }
{
    for frame in 0..next.len() {
        next[frame] = frame as u32 + 1;
    }
}

// Removes the pages of the selected frames.
fn clear_pages(pages: &mut Vec<Option<PageId>>, which: Devices)
    ensures { pages.new.items ≡ map (clear_if which) pages.old.items }
{
    for frame in 0..pages.len() {
        if which.selects(pages[frame]) {
            pages[frame] = None;
        }
    }
}

// The number of frames that have a page.
fn count_held(pages: &[Option<PageId>]) -> usize
    ensures { result ≡ length (pages_in pages.now) }
{
    let mut count = 0;
    for at in 0..pages.len() {
        count += one_if_held(pages[at]);
    }
    count
}

// 1 if there is a page, else 0.
fn one_if_held(page: Option<PageId>) -> usize
    ensures { result ≡ one_if_held page }
{
    if page.is_some() { 1 } else { 0 }
}

// The number of pages after one frame's was replaced.
fn held_after(held: usize, old: Option<PageId>, new: Option<PageId>) -> usize
    requires some { one_if_held old ≤ held }
    requires few { held ≤ MAX_FRAMES }
    ensures { result + one_if_held old ≡ held + one_if_held new }
{
    held - one_if_held(old) + one_if_held(new)
}

fn no_pages(alloc: Global, frames: usize) -> Result<Vec<Option<PageId>>, AllocError>
    ensures { IfOk result (λ pages. pages.items ≡ replicate frames None) }
{
    let mut pages = Vec::new(alloc);
    pages.resize(frames, None)?;
    Ok(pages)
}

// The heads of the chains if no frame holds a page: only the last chain has frames, from the first
// on.
fn heads_of_none(alloc: Global, frames: usize) -> Result<Vec<u32>, AllocError>
    requires { frames ≤ MAX_FRAMES }
    ensures { IfOk result (λ heads. heads.items ≡ set (replicate (frames + 1) frames) frames 0) }
{
    let mut heads = Vec::new(alloc);
    heads.resize(frames + 1, frames as u32)?;
    heads[frames] = 0;
    Ok(heads)
}

// Links from each frame to the next.
fn links_to_next(alloc: Global, frames: usize) -> Result<Vec<u32>, AllocError>
    requires { frames ≤ MAX_FRAMES }
    ensures { IfOk result (λ next. AreInTurn frames next.items) }
{
    let mut next = Vec::with_capacity(alloc, frames)?;
    for frame in 0..frames as u32 {
        next.push(frame + 1)?;
    }
    Ok(next)
}

// The frame that holds a page, searched along the page's chain.
fn find_in(pages: &[Option<PageId>], heads: &[u32], next: &[u32], page: PageId) -> Option<usize>
    requires { AreLinked pages.now heads.now next.now }
    ensures { IsPlaceOf pages.now page result }
{
    let mut at = heads[chain_of(pages.len(), Some(page))] as usize;
    while at < pages.len() {
        if holds(pages[at], page) {
            return Some(at);
        }
        at = next[at] as usize;
    }
    None
}

// The number of hashes, which have 32 bits.
const HASHES: u64 = 1 << 32;

// The first factor of the finalizer of MurmurHash3 for 32 bits (Appleby).
const MIX_FACTOR: u64 = 0x85EB_CA6B;

// 2^32 divided by the golden ratio (Knuth, The Art of Computer Programming, volume 3, section 6.4).
const LOW_FACTOR: u64 = 0x9E37_79B9;

// The least prime above 10^9.
const HIGH_FACTOR: u64 = 0x3B9A_CA07;

// The second prime of xxHash for 32 bits (Collet).
const DEVICE_FACTOR: u64 = 0x85EB_CA77;

// Mixes 32 bits: the upper half is added to the lower one, then an odd factor carries each bit up.
#[tactic(auto, unfolding(crate::specs::stored::Chains::mix_of))]
fn mix(bits: u64) -> u64
    requires { bits < HASHES }
    ensures is { result ≡ mix_of bits }
    ensures low { result < HASHES }
{
    (bits + bits / 0x1_0000) % HASHES * MIX_FACTOR % HASHES
}

// The hash of a page's number and that of its device, in 32 bits. With a single product, pages at
// some fixed distance would share a chain.
#[tactic(auto, unfolding(crate::specs::stored::Chains::hash_of))]
fn hash_of(page: PageId) -> u64
    ensures is { result ≡ hash_of page }
    ensures low { result < HASHES }
{
    let low = page.no % HASHES * LOW_FACTOR;
    let high = page.no / HASHES * HIGH_FACTOR;
    let folded = (low + high + u64::from(page.dev) * DEVICE_FACTOR) % HASHES;
    mix(mix(folded))
}

// The chain of a frame with this content.
#[tactic(auto, unfolding(crate::specs::stored::Chains::chain_of))]
fn chain_of(frames: usize, page: Option<PageId>) -> usize
    requires { frames ≤ MAX_FRAMES }
    ensures is { result ≡ chain_of frames page }
    ensures low { result ≤ frames }
{
    let Some(page) = page else {
        return frames;
    };
    (hash_of(page) * frames as u64 / HASHES) as usize
}

fn holds(held: Option<PageId>, page: PageId) -> bool
    ensures { IsTrue result ↔ (held ≡ Some page) }
{
    held == Some(page)
}

// The last frame of a chain before a frame.
fn predecessor(heads: &[u32], next: &[u32], chain: usize, frame: usize) -> Option<usize>
    ghost frames: { List ℕ }
    requires chains { AreChains frames heads.now next.now }
    requires chain { chain < length heads.now }
    requires frame { frame < length frames }
    ensures { IsPredecessor frames chain frame result }
{
    let mut last = None;
    let mut at = heads[chain] as usize;
    while at < frame {
        last = Some(at);
        at = next[at] as usize;
    }
    last
}

// Sets the link of a frame, or the head of its chain, to a frame.
fn set_link(heads: &mut Vec<u32>, next: &mut Vec<u32>, chain: usize, last: Option<usize>, to: u32)
    requires chain { chain < length heads.old.items }
    requires last { after last ≤ length next.old.items }
    ensures heads { heads.new.items ≡ heads_with_link heads.old.items chain last to }
    ensures next { next.new.items ≡ next_with_link next.old.items last to }
{
    match last {
        None => heads[chain] = to,
        Some(frame) => next[frame] = to,
    }
}

// Unlinks a frame from its chain.
fn unlink(heads: &mut Vec<u32>, next: &mut Vec<u32>, frame: usize, chain: usize)
    ghost frames: { List ℕ }
    requires frame { frame < length frames }
    requires chain { chain < length heads.old.items }
    requires is { slice_index frames frame ≡ chain }
    requires chains { AreChains frames heads.old.items next.old.items }
    ensures size { length heads.new.items ≡ length heads.old.items }
    ensures chains { AreChains
        (chains_without frames frame heads.old.items) heads.new.items next.new.items }
{
    let last = predecessor(heads, next, chain, frame);
    let to = next[frame];
    set_link(heads, next, chain, last, to);
}

// The link of a frame, or the head of its chain.
fn link_after(heads: &[u32], next: &[u32], chain: usize, last: Option<usize>) -> u32
    requires chain { chain < length heads.now }
    requires last { after last ≤ length next.now }
    ensures { result ≡ link_after heads.now next.now chain last }
{
    match last {
        None => heads[chain],
        Some(frame) => next[frame],
    }
}

// Links a frame that is in no chain into one, after the last frame of the chain before it.
fn link(heads: &mut Vec<u32>, next: &mut Vec<u32>, frame: usize, chain: usize, last: Option<usize>)
    ghost frames: { List ℕ }
    requires frame { frame < length frames }
    requires chain { chain < length heads.old.items }
    requires is { slice_index frames frame ≡ length heads.old.items }
    requires chains { AreChains frames heads.old.items next.old.items }
    requires last { IsPredecessor frames chain frame last }
    ensures size { length heads.new.items ≡ length heads.old.items }
    ensures chains { AreChains (set frames frame chain) heads.new.items next.new.items }
{
    next[frame] = link_after(heads, next, chain, last);
    set_link(heads, next, chain, last, frame as u32);
}

// Moves a frame from the chain of its content into that of another page, or of no page.
fn move_frame(
    pages: &[Option<PageId>],
    heads: &mut Vec<u32>,
    next: &mut Vec<u32>,
    frame: usize,
    page: Option<PageId>,
)
    ghost frames: { List ℕ }
    requires frames { frames ≡ chains_of pages.now }
    requires frame { frame < length pages.now }
    requires linked { AreLinked pages.now heads.old.items next.old.items }
    ensures { AreLinked (set pages.now frame page) heads.new.items next.new.items }
{
    let from = chain_of(pages.len(), pages[frame]);
    let to = chain_of(pages.len(), page);
    unlink(heads, next, frame, from);
    let last = predecessor(heads, next, to, frame);
    link(heads, next, frame, to, last);
}

// Empties all chains.
fn clear_heads(heads: &mut Vec<u32>, frames: usize)
    requires { frames ≤ MAX_FRAMES }
    ensures { heads.new.items ≡ replicate (length heads.old.items) frames }
{
    heads.fill(frames as u32);
}

// Links each frame into the chain of its content, whatever the links were: from the last frame
// down, so each is inserted at the head of its chain.
fn link_all(pages: &[Option<PageId>], heads: &mut Vec<u32>, next: &mut Vec<u32>)
    ghost frames: { List ℕ }
    requires frames { frames ≡ chains_of pages.now }
    requires few { length pages.now ≤ MAX_FRAMES }
    requires heads { length heads.old.items ≡ length pages.now + 1 }
    requires next { length next.old.items ≡ length pages.now }
    ensures { AreLinked pages.now heads.new.items next.new.items }
{
    clear_heads(heads, pages.len());
    let mut frame = pages.len();
    while frame > 0 {
        frame -= 1;
        let chain = chain_of(pages.len(), pages[frame]);
        link(heads, next, frame, chain, None);
    }
}
