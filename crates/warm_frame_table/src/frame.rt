//! The contents of a frame.
ghost use Rattle.std.specs.Prelude.{◌≡◌, vec_len, ◌<◌};
ghost use Rattle.std.specs.Borrow.{sem};
ghost use Rattle.warm_frame_table.specs.stored.Lending.{LendsBody, LendsBodyOf, nth_body};

use std::marker::Model;
use warm_rank::RankKey;

/// The status of a frame's page: its pin count (`fixes`), and whether it is dirty (written to since
/// it was last equal to its device's copy).
///
/// Emptying a pool reads the status of each frame, so the statuses of all frames are stored
/// together.
#[derive(Clone, Copy)]
pub(crate) struct Status {
    pub(crate) fixes: u32,
    pub(crate) dirty: bool,
}

/// The rest of a frame: the rank of its page, which means nothing once the page is evicted; the
/// generation, which counts the pages loaded into it; and its bytes.
#[derive(Drop)]
pub(crate) struct Frame {
    pub(crate) key: Option<RankKey>,
    pub(crate) generation: u64,
    pub(crate) bytes: Vec<u8>,
}

impl Model for Frame {
    ghost use Rattle.warm_frame_table.specs.stored.Parts.{FrameBody};

    ghost Value = { FrameBody };

    ghost view = { λ f. record { key = f.key; generation = f.generation; bytes = f.bytes.items } };
}

impl Frame {
    // Lends the bytes of the frame.
    fn bytes_mut(&mut self) -> &mut [u8]
        ensures* writes_back { sem 𝓛 (LendsBody self.entry result) }
        ensures bytes { result.now ≡ self.old.bytes }
    {
        self.bytes.as_mut_slice()
    }
}

/// Lends the bytes of one of the frames.
pub(crate) fn bytes_mut_of(frames: &mut Vec<Frame>, at: usize) -> &mut [u8]
    requires { at < vec_len frames.old }
    ensures* writes_back { sem 𝓛 (LendsBodyOf frames.entry at result) }
    ensures bytes { result.now ≡ (nth_body frames.old.items at).bytes }
{
    frames[at].bytes_mut()
}
