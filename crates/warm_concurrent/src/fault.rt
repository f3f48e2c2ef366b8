//! Why a call on shared shards is refused.
ghost use Rattle.std.specs.Prelude.{◌≡◌};
ghost use Rattle.warm_concurrent.specs.Faults.{code_of, name_of};

use std::alloc::AllocError;
use thiserror::Error;
use warm_gossip::NodeFault;
use warm_turn::TurnsSpent;

/// Why a call on shared shards is refused. Each fault is displayed as its name. 14 to 17 are the
/// numbers of a world's own faults.
#[derive(Clone, Copy, PartialEq, Eq, Debug, Error)]
pub enum SharedFault {
    /// 1, or 3 to 13: why the node of the shard refuses. `Memory`, 1, is also an allocation that
    /// failed before any shard was called; `SizeDiffers`, 3, that a device's pages, or the bytes of a
    /// page, are not of the pool's size; `StaleSlot`, 13, also a slot of a shard that is not there.
    #[error(transparent)]
    Node(NodeFault),
    /// 18: no ticket was left for a call of the shard, and none is left for any later call of that
    /// shard by the same attached thread.
    #[error("TurnsSpent")]
    TurnsSpent,
    /// 19: as many pins are held as can be counted, `u64::MAX`.
    #[error("PinsFull")]
    PinsFull,
    /// 20: no pin is held.
    #[error("NoPins")]
    NoPins,
    /// 21: pins are held.
    #[error("PinsHeld")]
    PinsHeld,
}

/// An allocation failure is `Memory`.
impl From<AllocError> for SharedFault {
    ghost use Rattle.std.specs.Prelude.{◌≡◌};
    ghost use Rattle.warm_gossip.specs.declared.fault.NodeFault.TheVariants.{Memory};
    ghost use Rattle.warm_concurrent.specs.declared.fault.SharedFault.TheVariants.{Node};

    ghost from_gives = { λ _ fault. fault ≡ Node Memory };

    fn from(_refused: AllocError) -> SharedFault {
        SharedFault::Node(NodeFault::Memory)
    }
}

impl<C: Drop> From<TurnsSpent<C>> for SharedFault {
    ghost use Rattle.std.specs.Prelude.{◌≡◌};
    ghost use Rattle.warm_concurrent.specs.declared.fault.SharedFault.TheVariants.{TurnsSpent};

    ghost from_gives = { λ _ fault. fault ≡ TurnsSpent };

    fn from(_spent: TurnsSpent<C>) -> SharedFault {
        SharedFault::TurnsSpent
    }
}

impl SharedFault {
    /// The number of the refusal: 1, 3 to 13, or 18 to 21.
    pub fn code(self) -> u8
        ensures { result ≡ code_of self }
    {
        match self {
            SharedFault::Node(why) => why.code(),
            SharedFault::TurnsSpent => 18,
            SharedFault::PinsFull => 19,
            SharedFault::NoPins => 20,
            SharedFault::PinsHeld => 21,
        }
    }

    /// Its name, as the variant is written; for `Node`, the name of the node's fault.
    pub fn name(self) -> &'static str
        ensures { result.now ≡ name_of self }
    {
        match self {
            SharedFault::Node(why) => why.name(),
            SharedFault::TurnsSpent => "TurnsSpent",
            SharedFault::PinsFull => "PinsFull",
            SharedFault::NoPins => "NoPins",
            SharedFault::PinsHeld => "PinsHeld",
        }
    }
}
