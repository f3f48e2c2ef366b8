//! The lines that are requests to a worker: `ref` and `flush`.
ghost use Rattle.std.specs.Prelude.{◌≡◌};
ghost use Rattle.warm_player.specs.Grammar.{meaning};
ghost use Rattle.warm_player.specs.Workers.{worker_request_of, worker_request_in};

use crate::commands::ParsedLine;
use crate::parse::parsed_in;
use thiserror::Error;
use warm_stamps::PageId;
use warm_world::Event;

/// A request to a worker of a replica, each by its number as the line has it, whether or not a
/// setup has such a worker.
#[derive(Clone, Copy, Debug, PartialEq, Eq)]
pub enum WorkerRequest {
    /// To reference a page at a time.
    Reference {
        replica: u16,
        worker: u16,
        page: PageId,
        time: u64,
    },
    /// To flush its buffer.
    Flush {
        replica: u16,
        worker: u16,
    },
}

/// A line is bad, or is an event that is not a request to a worker.
#[derive(Clone, Copy, Debug, PartialEq, Eq, Error)]
#[error("NotForWorker")]
pub struct NotForWorker;

// The request of an event to a worker. `None` if it has none.
fn request_of(event: &Event) -> Option<WorkerRequest>
    ensures { result ≡ worker_request_of event.now }
{
    match event {
        Event::Refer(replica, worker, page, time) => Some(WorkerRequest::Reference {
            replica: *replica,
            worker: *worker,
            page: *page,
            time: *time,
        }),
        Event::Flush(replica, worker) => Some(WorkerRequest::Flush {
            replica: *replica,
            worker: *worker,
        }),
        _ => None,
    }
}

/// The request of a line, given without its line end, to a worker. `None` if the line has no
/// word or is a comment, [`NotForWorker`] if it is bad or is not a request to a worker. The
/// meaning of the line is that of [`parse_line`](crate::parse_line). Allocation-free.
#[tactic(auto, using(crate::proofs::WorkerRequestLemmas::put_is_for_no_worker))]
pub fn parse_worker_line(line: &[u8]) -> Result<Option<WorkerRequest>, NotForWorker>
    ensures { result ≡ worker_request_in (meaning line.now) }
{
    match parsed_in(line) {
        Some(ParsedLine::Event(event)) => match request_of(&event) {
            Some(request) => Ok(Some(request)),
            None => Err(NotForWorker),
        },
        Some(ParsedLine::Nothing) => Ok(None),
        Some(ParsedLine::Put { .. }) | None => Err(NotForWorker),
    }
}
