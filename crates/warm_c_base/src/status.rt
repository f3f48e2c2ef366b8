//! Why a call is refused, as a number.
ghost use Rattle.std.specs.Prelude.{◌≡◌};
ghost use Rattle.warm_c_base.specs.Statuses.{code_of, dump_code_of, frame_code_of, late_code_of};
ghost use Rattle.warm_c_base.specs.Statuses.{status_of};

use std::alloc::AllocError;
use warm_dump::DumpFault;
use warm_frames::{FrameFault, TimeFault};
use warm_gossip::NodeFault;
use warm_pool::NewPoolFault;

/// Why a call is refused. Each has a number, which is its status. 73 to 76 and 83, and those from 85
/// on, are refusals of c/ alone.
#[derive(Clone, Copy)]
pub enum Refusal {
    /// 1, or 4 to 13: why the node refuses; 1 is an allocation failure, wherever it comes.
    Node(NodeFault),
    /// 1 to 3: why no pool is made.
    NewPool(NewPoolFault),
    /// 1, or 34 to 42: why bytes are no frame; but for memory it is the fault's own number and 32.
    Frame(FrameFault),
    /// 64: the handle is closed.
    Closed,
    /// 65: the handle is open already.
    AlreadyOpen,
    /// 66: the answer does not fit the buffer.
    BufferTooSmall,
    /// 67: a replica's number is 1 to 64.
    BadReplica,
    /// 68: a bucket's number is 0 to 63.
    BadBucket,
    /// 69: two devices are of one file.
    SameFile,
    /// 70 or 71: a frame speaks of a time later than the limit; it is the fault's own number and
    /// 69.
    Late(TimeFault),
    /// 72: the number of shards is no power of two, or it is more than 64.
    BadShards,
    /// 1, 35 to 42, or 77 to 82: why a dump is not written or not read. The fault of a frame in it
    /// has the frame's number; others have the fault's own number and 64.
    Dump(DumpFault),
    /// 84: the history would know more pages than the limit, if each entry of a message were of a
    /// new page.
    TooManyPages,
}

/// An allocation failure is `Memory`.
impl From<AllocError> for Refusal {
    ghost use Rattle.std.specs.Prelude.{◌≡◌};
    ghost use Rattle.warm_gossip.specs.declared.fault.NodeFault.TheVariants.{Memory};
    ghost use Rattle.warm_c_base.specs.declared.status.Refusal.TheVariants.{Node};

    ghost from_gives = { λ _ why. why ≡ Node Memory };

    fn from(_refused: AllocError) -> Refusal {
        Refusal::Node(NodeFault::Memory)
    }
}

/// A refusal of the node is `Node`, with why.
impl From<NodeFault> for Refusal {
    ghost use Rattle.std.specs.Prelude.{◌≡◌};
    ghost use Rattle.warm_c_base.specs.declared.status.Refusal.TheVariants.{Node};

    ghost from_gives = { λ fault why. why ≡ Node fault };

    fn from(fault: NodeFault) -> Refusal {
        Refusal::Node(fault)
    }
}

/// A fault of a frame is `Frame`, with which.
impl From<FrameFault> for Refusal {
    ghost use Rattle.std.specs.Prelude.{◌≡◌};
    ghost use Rattle.warm_c_base.specs.declared.status.Refusal.TheVariants.{Frame};

    ghost from_gives = { λ fault why. why ≡ Frame fault };

    fn from(fault: FrameFault) -> Refusal {
        Refusal::Frame(fault)
    }
}

/// A fault of a frame's times is `Late`, with which.
impl From<TimeFault> for Refusal {
    ghost use Rattle.std.specs.Prelude.{◌≡◌};
    ghost use Rattle.warm_c_base.specs.declared.status.Refusal.TheVariants.{Late};

    ghost from_gives = { λ fault why. why ≡ Late fault };

    fn from(fault: TimeFault) -> Refusal {
        Refusal::Late(fault)
    }
}

/// A fault of a dump is `Dump`, with which.
impl From<DumpFault> for Refusal {
    ghost use Rattle.std.specs.Prelude.{◌≡◌};
    ghost use Rattle.warm_c_base.specs.declared.status.Refusal.TheVariants.{Dump};

    ghost from_gives = { λ fault why. why ≡ Dump fault };

    fn from(fault: DumpFault) -> Refusal {
        Refusal::Dump(fault)
    }
}

impl Refusal {
    /// Returns the number of the refusal.
    pub fn code(self) -> u8
        ensures { result ≡ code_of self }
    {
        match self {
            Refusal::Node(fault) => fault.code(),
            Refusal::NewPool(fault) => fault.code(),
            Refusal::Frame(fault) => frame_code(fault),
            Refusal::Closed => 64,
            Refusal::AlreadyOpen => 65,
            Refusal::BufferTooSmall => 66,
            Refusal::BadReplica => 67,
            Refusal::BadBucket => 68,
            Refusal::SameFile => 69,
            Refusal::Late(fault) => late_code(fault),
            Refusal::BadShards => 72,
            Refusal::Dump(fault) => dump_code(fault),
            Refusal::TooManyPages => 84,
        }
    }
}

// Returns the number of a frame's fault among the statuses.
fn frame_code(fault: FrameFault) -> u8
    ensures { result ≡ frame_code_of fault }
{
    match fault {
        FrameFault::Memory => 1,
        fault => 32 + fault.code(),
    }
}

// Returns the number of a late time among the statuses.
fn late_code(fault: TimeFault) -> u8
    ensures { result ≡ late_code_of fault }
{
    69 + fault.code()
}

// Returns the number of a dump's fault among the statuses.
fn dump_code(fault: DumpFault) -> u8
    ensures { result ≡ dump_code_of fault }
{
    match fault {
        DumpFault::Frame(fault) => frame_code(fault),
        fault => 64 + fault.code(),
    }
}

/// Returns the status of a result: 0, or the number of the refusal.
pub fn status_of(done: Result<(), Refusal>) -> i32
    ensures { result ≡ status_of done }
{
    match done {
        Ok(()) => 0,
        Err(why) => i32::from(why.code()),
    }
}
