//! Why bytes are not a frame.
ghost use Rattle.std.specs.Prelude.{◌≡◌};
ghost use Rattle.warm_frames.specs.Faults.{fault_code, fault_name};

use std::alloc::{AllocError, AllocFailed};
use thiserror::Error;

/// Why bytes were not decoded.
#[derive(Clone, Copy, Debug, PartialEq, Eq, Error)]
pub enum FrameFault {
    /// 1: the allocation of the entries failed; of a [`crate::Decoder`], also that of the bytes
    /// that it holds or of the message that it returns.
    #[error("Memory")]
    Memory,
    /// 2: the bytes end inside the header or the body.
    #[error("Truncated")]
    Truncated,
    /// 3: the first four bytes are neither `L2G2` nor `L2G1`.
    #[error("BadMagic")]
    BadMagic,
    /// 4: the kind is not 1, 2 or 3.
    #[error("BadKind")]
    BadKind,
    /// 5: the sender's number is not a valid replica number.
    #[error("BadSender")]
    BadSender,
    /// 6: the length is not valid for the kind, bytes follow the body, or the body's entries end
    /// before or after its end.
    #[error("BadLength")]
    BadLength,
    /// 7: the count of entries is above [`crate::MAX_ENTRIES`].
    #[error("BadCount")]
    BadCount,
    /// 8: the tag of an entry is neither 1 nor 2.
    #[error("BadTag")]
    BadTag,
    /// 9: a stamp's replica number is not valid, or the second of two stamps isn't older than the
    /// first.
    #[error("BadStamp")]
    BadStamp,
    /// 10: the page of an entry isn't greater than that of the entry before.
    #[error("BadOrder")]
    BadOrder,
    /// 11: a [`crate::Decoder`] found a fault before.
    #[error("Failed")]
    Failed,
}

// Every allocation failure is `Memory`.
impl From<AllocError> for FrameFault {
    ghost use Rattle.std.specs.Prelude.{◌≡◌};
    ghost use Rattle.warm_frames.specs.declared.fault.FrameFault.TheVariants.{Memory};

    ghost from_gives = { λ _ fault. fault ≡ Memory };

    fn from(_: AllocError) -> FrameFault {
        FrameFault::Memory
    }
}

// The same, if the value that was not stored is returned: it is dropped.
impl<T: Drop> From<AllocFailed<T>> for FrameFault {
    ghost use Rattle.std.specs.Prelude.{◌≡◌};
    ghost use Rattle.warm_frames.specs.declared.fault.FrameFault.TheVariants.{Memory};

    ghost from_gives = { λ _ fault. fault ≡ Memory };

    fn from(_: AllocFailed<T>) -> FrameFault {
        FrameFault::Memory
    }
}

impl FrameFault {
    /// The number of the refusal, 1 to 11.
    pub fn code(self) -> u8
        ensures { result ≡ fault_code self }
    {
        match self {
            FrameFault::Memory => 1,
            FrameFault::Truncated => 2,
            FrameFault::BadMagic => 3,
            FrameFault::BadKind => 4,
            FrameFault::BadSender => 5,
            FrameFault::BadLength => 6,
            FrameFault::BadCount => 7,
            FrameFault::BadTag => 8,
            FrameFault::BadStamp => 9,
            FrameFault::BadOrder => 10,
            FrameFault::Failed => 11,
        }
    }

    /// Its name, as the variant is written.
    pub fn name(self) -> &'static str
        ensures { result.now ≡ fault_name self }
    {
        match self {
            FrameFault::Memory => "Memory",
            FrameFault::Truncated => "Truncated",
            FrameFault::BadMagic => "BadMagic",
            FrameFault::BadKind => "BadKind",
            FrameFault::BadSender => "BadSender",
            FrameFault::BadLength => "BadLength",
            FrameFault::BadCount => "BadCount",
            FrameFault::BadTag => "BadTag",
            FrameFault::BadStamp => "BadStamp",
            FrameFault::BadOrder => "BadOrder",
            FrameFault::Failed => "Failed",
        }
    }
}
