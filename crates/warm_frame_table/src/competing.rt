//! The ranks with which the pages of frames compete for eviction.
ghost use Rattle.std.specs.Prelude.{◌≡◌, ◌<◌, length, map, None};
ghost use Rattle.warm_rank.specs.Slots.{key_at};
ghost use Rattle.warm_frame_table.specs.Frames.{eviction_key, key_unless_fixed};
ghost use Rattle.warm_frame_table.specs.stored.Parts.{frames_of};

use crate::frame::{Frame, Status};
use warm_rank::{CurrentKeys, RankKey};
use warm_stamps::PageId;

/// The frames of a pool, as the contest asks for their ranks.
#[derive(Drop)]
pub(crate) struct Competing<'a> {
    pub(crate) pages: &'a [Option<PageId>],
    pub(crate) statuses: &'a [Status],
    pub(crate) frames: &'a [Frame],
}

impl<'a> CurrentKeys for Competing<'a> {
    ghost keys = { λ c. map eviction_key (frames_of c.pages.now c.statuses.now c.frames.now) };

    fn key(&self, slot: usize) -> Option<RankKey> {
        competing_key(self.pages, self.statuses, self.frames, slot)
    }
}

// The rank with which the page in a frame competes for eviction.
fn competing_key(
    pages: &[Option<PageId>],
    statuses: &[Status],
    frames: &[Frame],
    at: usize,
) -> Option<RankKey>
    requires seen { at < length (frames_of pages.now statuses.now frames.now) }
    requires page { at < length pages.now }
    requires status { at < length statuses.now }
    requires frame { at < length frames.now }
    ensures { result ≡ key_at (map eviction_key (frames_of pages.now statuses.now frames.now)) at }
{
    if pages[at].is_none() {
        return None;
    }
    leaving(statuses[at].fixes, &frames[at])
}

// The rank with which a frame's page of this pin count competes for eviction.
fn leaving(fixes: u32, frame: &Frame) -> Option<RankKey>
    ensures { result ≡ key_unless_fixed fixes frame.now.key }
{
    if fixes == 0 { frame.key } else { None }
}
