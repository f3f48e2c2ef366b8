//! A job with its memory allocated.
ghost use Rattle.std.specs.Prelude.{◌≡◌, ◌≤◌, [], length};

use crate::job::Step;
use crate::replies::Replies;
use warm_refbuffer::RefBuffer;

// A job with its buffer, and with capacity for its replies.
#[derive(Drop)]
pub(crate) struct PreparedJob {
    pub(crate) job: usize,
    pub(crate) buffer: RefBuffer,
    pub(crate) steps: Vec<Step>,
    pub(crate) replies: Replies,
    ghost empty: { buffer.refs ≡ [] },
    ghost capacity: { (replies.items ≡ []) × (length steps.items ≤ replies.capacity) },
}
