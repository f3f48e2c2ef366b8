//! The limits by which a message is refused before anything changes.
ghost use Rattle.std.specs.Prelude.{◌↔◌, length, IfErr, IsTrue, OnOk};
ghost use Rattle.warm_frames.specs.Limits.{entries_in};
ghost use Rattle.warm_c_calls.specs.MessageLimits.{ExceedsLimits, HasRoom, KeepsLimits};

use crate::frame_calls::entry_count;
use warm_c_base::Refusal;
use warm_frames::{Message, TimeFault, check_times};

/// The limits of a message, and how much the history knows that is to take it in, as C has them.
#[repr(C)]
#[derive(Clone, Copy)]
pub struct NodeLimits {
    /// The latest time of which a message may speak.
    pub time: u64,
    /// The latest horizon that it may have.
    pub horizon: u64,
    /// How many pages the history may know.
    pub pages: usize,
    /// How many it knows.
    pub known: usize,
}

// Whether there is room for this many entries, each of which may be of a new page.
fn has_room(limits: &NodeLimits, entries: usize) -> bool
    ensures { IsTrue result ↔ HasRoom limits.now entries }
{
    if entries == 0 {
        return true;
    }
    limits.known <= limits.pages && entries <= limits.pages - limits.known
}

/// Checks a message against its limits.
///
/// # Errors
/// In this order:
/// - `Late`: the horizon is later than one of its two limits, or else a stamp is later than the
///   limit of times.
/// - `TooManyPages`: the history would know more pages than it may, if each entry were of a new
///   one.
pub fn check_limits(message: &Message, limits: &NodeLimits) -> Result<(), Refusal>
    ensures kept { OnOk result (KeepsLimits limits.now message.now) }
    ensures beyond { IfErr result (ExceedsLimits limits.now message.now) }
{
    if limits.horizon < message.horizon() {
        return Err(Refusal::Late(TimeFault::LateHorizon));
    }
    check_times(message, limits.time)?;
    if !has_room(limits, entry_count(message)) {
        return Err(Refusal::TooManyPages);
    }
    Ok(())
}
