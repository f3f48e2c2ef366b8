//! The requests of lines to workers.
ghost use Rattle.std.specs.Prelude.{◌≡◌};
ghost use Rattle.warm_world.specs.Sizes.{IsSetup};
ghost use Rattle.warm_threads.specs.Asks.{ask_in, asked, has_worker};

use warm_player::{WorkerRequest, parse_worker_line};
use warm_stamps::{Reference, ReplicaId, Stamp};
use warm_world::Setup;

/// What a worker is asked to do.
#[derive(Clone, Copy)]
pub(crate) enum Task {
    /// To make this reference.
    Reference(Reference),
    /// To flush its buffer.
    Flush,
}

/// The request of a line to a worker of a replica, both numbered from 1.
#[derive(Clone, Copy)]
pub(crate) struct Ask {
    pub(crate) replica: u16,
    pub(crate) worker: u16,
    pub(crate) task: Task,
}

/// A line that threads cannot play: it is not a line of the language, or of another kind, or the
/// setup has no such worker.
#[derive(Clone, Copy)]
pub(crate) struct NotPlayable;

fn has_worker(setup: Setup, replica: u16, worker: u16) -> bool
    ensures { result ≡ has_worker setup replica worker }
{
    (1..=setup.replicas()).contains(&replica) && (1..=setup.workers()).contains(&worker)
}

// The request of a line to a worker, which the setup has to have.
fn ask_of(setup: Setup, request: WorkerRequest) -> Result<Ask, NotPlayable>
    ensures { result ≡ ask_in setup request }
{
    match request {
        WorkerRequest::Reference {
            replica,
            worker,
            page,
            time,
        } => {
            if !has_worker(setup, replica, worker) {
                return Err(NotPlayable);
            }
            let Ok(maker) = ReplicaId::new(replica) else {
                unreachable!()
            };
            let stamp = Stamp {
                time,
                replica: maker,
            };
            let task = Task::Reference(Reference { page, stamp });
            Ok(Ask {
                replica,
                worker,
                task,
            })
        }
        WorkerRequest::Flush { replica, worker } => {
            if !has_worker(setup, replica, worker) {
                return Err(NotPlayable);
            }
            let task = Task::Flush;
            Ok(Ask {
                replica,
                worker,
                task,
            })
        }
    }
}

/// The request of a line. `None` if it has no word or is a comment.
pub(crate) fn asked(setup: Setup, line: &[u8]) -> Result<Option<Ask>, NotPlayable>
    ensures { result ≡ asked setup line.now }
{
    let Ok(said) = parse_worker_line(line) else {
        return Err(NotPlayable);
    };
    let Some(request) = said else {
        return Ok(None);
    };
    match ask_of(setup, request) {
        Ok(ask) => Ok(Some(ask)),
        Err(refused) => Err(refused),
    }
}
