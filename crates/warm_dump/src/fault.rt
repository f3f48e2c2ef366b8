//! Why a history was not written, or bytes are no dump.
ghost use Rattle.std.specs.Prelude.{◌≡◌};
ghost use Rattle.warm_dump.specs.Faults.{dump_fault_code, dump_fault_name};

use std::alloc::AllocError;
use thiserror::Error;
use warm_frames::FrameFault;

/// Why a dump was not written or not read. As an error it shows its name ([`DumpFault::name`]).
#[derive(Clone, Copy, Debug, PartialEq, Eq, Error)]
pub enum DumpFault {
    /// 1 to 11: the fault of a frame, with its number. `Memory` is any allocation failure.
    /// `BadKind` is also a request in place of entries or digests. `Truncated` and `Failed` do not
    /// occur.
    #[error("{0}")]
    Frame(FrameFault),
    /// 13: the bytes end before the digests do.
    #[error("CutShort")]
    CutShort,
    /// 14: the digests are not those of the history that the entries give.
    #[error("DigestsDiffer")]
    DigestsDiffer,
    /// 15: a message has another horizon than those before it.
    #[error("HorizonsDiffer")]
    HorizonsDiffer,
    /// 16: bytes follow the digests.
    #[error("MoreFollows")]
    MoreFollows,
    /// 17: the reader failed, or 2^40 reads did not reach its end.
    #[error("ReadFault")]
    ReadFault,
    /// 18: the writer failed.
    #[error("WriteFault")]
    WriteFault,
}

impl From<AllocError> for DumpFault {
    ghost use Rattle.std.specs.Prelude.{◌≡◌};
    ghost use Rattle.warm_frames.specs.declared.fault.FrameFault.TheVariants as frame_faults;
    ghost use Rattle.warm_dump.specs.declared.fault.DumpFault.TheVariants.{Frame};

    ghost from_gives = { λ _ fault. fault ≡ Frame frame_faults.Memory };

    fn from(_: AllocError) -> DumpFault {
        DumpFault::Frame(FrameFault::Memory)
    }
}

impl DumpFault {
    /// The number of the refusal: that of a frame's fault, 1 to 11, or 13 to 18.
    pub fn code(self) -> u8
        ensures { result ≡ dump_fault_code self }
    {
        match self {
            DumpFault::Frame(fault) => fault.code(),
            DumpFault::CutShort => 13,
            DumpFault::DigestsDiffer => 14,
            DumpFault::HorizonsDiffer => 15,
            DumpFault::MoreFollows => 16,
            DumpFault::ReadFault => 17,
            DumpFault::WriteFault => 18,
        }
    }

    /// Its name, as the variant is written: a frame's fault has its own.
    pub fn name(self) -> &'static str
        ensures { result.now ≡ dump_fault_name self }
    {
        match self {
            DumpFault::Frame(fault) => fault.name(),
            DumpFault::CutShort => "CutShort",
            DumpFault::DigestsDiffer => "DigestsDiffer",
            DumpFault::HorizonsDiffer => "HorizonsDiffer",
            DumpFault::MoreFollows => "MoreFollows",
            DumpFault::ReadFault => "ReadFault",
            DumpFault::WriteFault => "WriteFault",
        }
    }
}

/// Why a dump was not read, and where. As an error it shows both, as in `BadMagic at byte 54`: the
/// fault by its name, and that of a frame by its own.
#[derive(Clone, Copy, Debug, PartialEq, Eq, Error)]
#[error("{fault} at byte {at}")]
pub struct DumpError {
    /// The byte at which the whole frames before the fault end: the frame that shows the fault, or
    /// what follows the dump, begins here. After an allocation failure or a failed read no contract
    /// says it.
    pub at: u64,
    /// Why.
    pub fault: DumpFault,
}
