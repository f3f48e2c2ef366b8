//! Why a flush, a look, a change or a run of jobs is refused. Each fault is displayed as its name.
ghost use Rattle.std.specs.Prelude.{◌≡◌};
ghost use Rattle.warm_replica.specs.Faults.{flush_code, flush_name, lend_code, lend_name};
ghost use Rattle.warm_replica.specs.Faults.{run_code, run_name};

use std::alloc::AllocError;
use std::thread::SpawnError;
use thiserror::Error;
use warm_turn::TurnsSpent;

/// Why a buffer was not flushed. The buffer is unchanged.
#[derive(Clone, Copy, Debug, PartialEq, Eq, Error)]
pub enum FlushFault {
    /// 1: an allocation failed, for the call or of the machine that answers it.
    #[error("Memory")]
    Memory,
    /// 2: no ticket was left for a call, and none is left for any later call of this worker.
    #[error("TurnsSpent")]
    TurnsSpent,
}

impl From<AllocError> for FlushFault {
    ghost use Rattle.std.specs.Prelude.{◌≡◌};
    ghost use Rattle.warm_replica.specs.declared.fault.FlushFault.TheVariants.{Memory};

    ghost from_gives = { λ _ fault. fault ≡ Memory };

    fn from(_: AllocError) -> FlushFault {
        FlushFault::Memory
    }
}

impl<C: Drop> From<TurnsSpent<C>> for FlushFault {
    ghost use Rattle.std.specs.Prelude.{◌≡◌};
    ghost use Rattle.warm_replica.specs.declared.fault.FlushFault.TheVariants.{TurnsSpent};

    ghost from_gives = { λ _ fault. fault ≡ TurnsSpent };

    fn from(_: TurnsSpent<C>) -> FlushFault {
        FlushFault::TurnsSpent
    }
}

impl FlushFault {
    /// The number of the refusal: 1 or 2.
    pub fn code(self) -> u8
        ensures { result ≡ flush_code self }
    {
        match self {
            FlushFault::Memory => 1,
            FlushFault::TurnsSpent => 2,
        }
    }

    /// Its name, as the variant is written.
    pub fn name(self) -> &'static str
        ensures { result.now ≡ flush_name self }
    {
        match self {
            FlushFault::Memory => "Memory",
            FlushFault::TurnsSpent => "TurnsSpent",
        }
    }
}

/// Why the bytes of a page were not lent. The closure was not called.
#[derive(Clone, Copy, Debug, PartialEq, Eq, Error)]
pub enum LendFault {
    /// 2: no ticket was left for a turn, and none is left for any later call of this worker.
    #[error("TurnsSpent")]
    TurnsSpent,
    /// 13: the slot does not hold its page.
    #[error("StaleSlot")]
    StaleSlot,
}

impl<C: Drop> From<TurnsSpent<C>> for LendFault {
    ghost use Rattle.std.specs.Prelude.{◌≡◌};
    ghost use Rattle.warm_replica.specs.declared.fault.LendFault.TheVariants.{TurnsSpent};

    ghost from_gives = { λ _ fault. fault ≡ TurnsSpent };

    fn from(_: TurnsSpent<C>) -> LendFault {
        LendFault::TurnsSpent
    }
}

impl LendFault {
    /// The number of the refusal: 2 or 13.
    pub fn code(self) -> u8
        ensures { result ≡ lend_code self }
    {
        match self {
            LendFault::TurnsSpent => 2,
            LendFault::StaleSlot => 13,
        }
    }

    /// Its name, as the variant is written.
    pub fn name(self) -> &'static str
        ensures { result.now ≡ lend_name self }
    {
        match self {
            LendFault::TurnsSpent => "TurnsSpent",
            LendFault::StaleSlot => "StaleSlot",
        }
    }
}

/// A thread could not be started; this includes an allocation failure on starting it.
#[derive(Clone, Copy, Debug, PartialEq, Eq, Error)]
#[error("NoThread")]
pub struct NoThread;

impl<F: Drop> From<SpawnError<F>> for NoThread {
    fn from(_: SpawnError<F>) -> NoThread {
        NoThread
    }
}

impl From<AllocError> for NoThread {
    fn from(_: AllocError) -> NoThread {
        NoThread
    }
}

/// Why not all jobs were run. The first fault that applies is returned: `BadCapacity`, then
/// `Memory`, both before a thread is started, then `NoThread`.
#[derive(Clone, Copy, Debug, PartialEq, Eq, Error)]
pub enum RunFault {
    /// 1: the allocation of the buffer or of the replies of a job failed.
    #[error("Memory")]
    Memory,
    /// 2: a thread could not be started. Those that were started have run to their end.
    #[error("NoThread")]
    NoThread,
    /// 3: a job requests an invalid buffer capacity: outside 1 to [`warm_refbuffer::MAX_CAPACITY`].
    #[error("BadCapacity")]
    BadCapacity,
}

impl From<AllocError> for RunFault {
    ghost use Rattle.std.specs.Prelude.{◌≡◌};
    ghost use Rattle.warm_replica.specs.declared.fault.RunFault.TheVariants.{Memory};

    ghost from_gives = { λ _ fault. fault ≡ Memory };

    fn from(_: AllocError) -> RunFault {
        RunFault::Memory
    }
}

impl From<NoThread> for RunFault {
    ghost use Rattle.std.specs.Prelude.{◌≡◌};
    ghost use Rattle.warm_replica.specs.declared.fault.RunFault.TheVariants.{NoThread};

    ghost from_gives = { λ _ fault. fault ≡ NoThread };

    fn from(_: NoThread) -> RunFault {
        RunFault::NoThread
    }
}

impl RunFault {
    /// The number of the refusal: 1, 2 or 3.
    pub fn code(self) -> u8
        ensures { result ≡ run_code self }
    {
        match self {
            RunFault::Memory => 1,
            RunFault::NoThread => 2,
            RunFault::BadCapacity => 3,
        }
    }

    /// Its name, as the variant is written.
    pub fn name(self) -> &'static str
        ensures { result.now ≡ run_name self }
    {
        match self {
            RunFault::Memory => "Memory",
            RunFault::NoThread => "NoThread",
            RunFault::BadCapacity => "BadCapacity",
        }
    }
}
