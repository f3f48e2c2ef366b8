//! Why a replica's run did not end well: the work of its workers, or its exchange with the others.
use crossbeam_channel::SendError;
use std::alloc::{AllocError, AllocFailed};
use thiserror::Error;
use warm_replica::RunFault;
use warm_turn::{Busy, Memory};
use warm_world::PlayFault;

/// Why a run did not end well. Each fault is displayed as its name.
#[derive(Clone, Copy, Debug, Error)]
pub(crate) enum ReplicaRunFault {
    /// An allocation failed: the run's own, a channel's, or the machine's, which then refuses a
    /// call. A worker's call for which no ticket is left also counts as this fault, and so does
    /// mail that spells no message, which no replica sends.
    #[error("Memory")]
    Memory,
    /// A worker's thread could not be started, or left a call unfinished.
    #[error("NoThread")]
    NoThread,
    /// A channel was closed: the replica that was to take its mail ended early.
    #[error("Closed")]
    Closed,
}

impl From<AllocError> for ReplicaRunFault {
    ghost use Rattle.std.specs.Prelude.{◌≡◌};
    ghost use Rattle.warm_threads.specs.declared.fault.ReplicaRunFault.TheVariants.{Memory};

    ghost from_gives = { λ _ fault. fault ≡ Memory };

    fn from(_: AllocError) -> ReplicaRunFault {
        ReplicaRunFault::Memory
    }
}

impl<T: Drop> From<AllocFailed<T>> for ReplicaRunFault {
    ghost use Rattle.std.specs.Prelude.{◌≡◌};
    ghost use Rattle.warm_threads.specs.declared.fault.ReplicaRunFault.TheVariants.{Memory};

    ghost from_gives = { λ _ fault. fault ≡ Memory };

    fn from(_: AllocFailed<T>) -> ReplicaRunFault {
        ReplicaRunFault::Memory
    }
}

// The machine for which no turn was made is dropped.
impl<M: Drop> From<Memory<M>> for ReplicaRunFault {
    ghost use Rattle.std.specs.Prelude.{◌≡◌};
    ghost use Rattle.warm_threads.specs.declared.fault.ReplicaRunFault.TheVariants.{Memory};

    ghost from_gives = { λ _ fault. fault ≡ Memory };

    fn from(_: Memory<M>) -> ReplicaRunFault {
        ReplicaRunFault::Memory
    }
}

// The message that was not sent is dropped.
impl<T: Drop> From<SendError<T>> for ReplicaRunFault {
    ghost use Rattle.std.specs.Prelude.{◌≡◌};
    ghost use Rattle.warm_threads.specs.Faults.{run_fault_of_send};

    ghost from_gives = { λ why fault. fault ≡ run_fault_of_send why };

    fn from(why: SendError<T>) -> ReplicaRunFault {
        match why {
            SendError::Disconnected(_) => ReplicaRunFault::Closed,
            SendError::OutOfMemory(_) => ReplicaRunFault::Memory,
        }
    }
}

impl From<Busy> for ReplicaRunFault {
    ghost use Rattle.std.specs.Prelude.{◌≡◌};
    ghost use Rattle.warm_threads.specs.declared.fault.ReplicaRunFault.TheVariants.{NoThread};

    ghost from_gives = { λ _ fault. fault ≡ NoThread };

    fn from(_: Busy) -> ReplicaRunFault {
        ReplicaRunFault::NoThread
    }
}

// The jobs of a run have the setup's capacity, which is valid: they are never refused for it.
impl From<RunFault> for ReplicaRunFault {
    ghost use Rattle.std.specs.Prelude.{◌≡◌};
    ghost use Rattle.warm_threads.specs.Faults.{run_fault_of_workers};

    ghost from_gives = { λ why fault. fault ≡ run_fault_of_workers why };

    fn from(why: RunFault) -> ReplicaRunFault {
        match why {
            RunFault::NoThread => ReplicaRunFault::NoThread,
            RunFault::Memory | RunFault::BadCapacity => ReplicaRunFault::Memory,
        }
    }
}

impl From<ReplicaRunFault> for PlayFault {
    ghost use Rattle.std.specs.Prelude.{◌≡◌};
    ghost use Rattle.warm_threads.specs.Faults.{play_fault_of};

    ghost from_gives = { λ fault why. why ≡ play_fault_of fault };

    fn from(fault: ReplicaRunFault) -> PlayFault {
        match fault {
            ReplicaRunFault::Memory => PlayFault::Memory,
            ReplicaRunFault::NoThread | ReplicaRunFault::Closed => PlayFault::NoThread,
        }
    }
}
