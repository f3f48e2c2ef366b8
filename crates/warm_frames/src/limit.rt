//! A check of the times of a message against a limit that the caller sets.
//!
//! A well-formed message is believed: its horizon and its stamps are taken in, whatever they are. A
//! history that takes in a later horizon forgets every older stamp for good, and its replica sends
//! that horizon on: one message whose horizon is far in the future empties the history of every
//! replica that it reaches. Stamps in the future stay the latest of their page until that time has
//! come. So a replica whose senders may have a wrong clock, or whose network may change bytes,
//! compares these times with its own clock before it takes a message in.
ghost use Rattle.std.specs.Prelude.{◌≡◌, ◌↔◌, ◌<◌, ◌≤◌, Err, IsOk, IsTrue};
ghost use Rattle.std.specs.List.{AllByRecursion};
ghost use Rattle.warm_history.specs.Histories.{hist_stamps};
ghost use Rattle.warm_frames.specs.Faults.{time_fault_code, time_fault_name};
ghost use Rattle.warm_frames.specs.Limits.{horizon_in, entries_in, StampsBy, SpeaksBy};

use crate::message::Message;
use thiserror::Error;
use warm_history::{Entry, PageHist};

/// Which time of a message is later than the limit.
#[derive(Clone, Copy, Debug, PartialEq, Eq, Error)]
pub enum TimeFault {
    /// 1: the horizon is.
    #[error("LateHorizon")]
    LateHorizon,
    /// 2: the horizon is not, but a stamp of an entry is.
    #[error("LateStamp")]
    LateStamp,
}

impl TimeFault {
    /// The number of the refusal, 1 or 2.
    pub fn code(self) -> u8
        ensures { result ≡ time_fault_code self }
    {
        match self {
            TimeFault::LateHorizon => 1,
            TimeFault::LateStamp => 2,
        }
    }

    /// Its name, as the variant is written.
    pub fn name(self) -> &'static str
        ensures { result.now ≡ time_fault_name self }
    {
        match self {
            TimeFault::LateHorizon => "LateHorizon",
            TimeFault::LateStamp => "LateStamp",
        }
    }
}

// Whether no stamp is later than the limit: of two stamps the second is the older one.
fn is_by(hist: PageHist, limit: u64) -> bool
    ensures { IsTrue result ↔ AllByRecursion (λ s. s.time ≤ limit) (hist_stamps hist) }
{
    match hist {
        PageHist::Once(last) => last.time <= limit,
        PageHist::Twice(two) => two.last().time <= limit,
    }
}

// Whether no stamp of the entries is later than the limit.
fn are_by(entries: &[Entry], limit: u64) -> bool
    ensures { IsTrue result ↔ StampsBy limit entries.now }
{
    entries.iter().all(|entry| is_by(entry.hist, limit))
}

/// Checks that the message speaks of no time later than `limit`: neither its horizon is later
/// ([`Message::horizon`]), nor a stamp of its entries. The limit is in the unit of the
/// stamps, whichever the replicas agreed on. Allocation-free; nothing is changed.
///
/// Nothing else refuses a time: [`decode`](crate::decode) and a node that receives the message
/// believe each one. A message with a later horizon empties every history that takes it in, and no
/// horizon is ever lowered again. A page with two stamps in the future is ranked above all pages in
/// use until that time has come. So if a clock may be wrong or bytes may be changed, call this
/// before the message is received, with the current time plus the most that clocks may differ.
///
/// Refused:
/// - `LateHorizon`: the horizon is later than the limit;
/// - `LateStamp`: the horizon is not, but a stamp of an entry is.
pub fn check_times(message: &Message, limit: u64) -> Result<(), TimeFault>
    ensures ok { IsOk result ↔ SpeaksBy limit message.now }
    ensures late_horizon { (result ≡ Err TimeFault.LateHorizon) ↔ (limit < horizon_in message.now) }
    ensures late_stamp { (result ≡ Err TimeFault.LateStamp)
        ↔ ((horizon_in message.now ≤ limit) × ¬ StampsBy limit (entries_in message.now)) }
{
    if limit < message.horizon() {
        return Err(TimeFault::LateHorizon);
    }
    if let Message::Entries { entries, .. } = message {
        if !are_by(entries.as_slice(), limit) {
            return Err(TimeFault::LateStamp);
        }
    }
    Ok(())
}
