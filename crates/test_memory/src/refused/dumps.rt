//! Dumps of a history, written, and read in one piece and in small ones.
use std::alloc::Global;
use std::io;
use std::io::Read;
use test_kit::cases::{Ended, Met};
use test_kit::{are_equal, history_of_pages, references_to, replica};
use warm_dump::{DumpError, DumpFault, read_dump, write_dump};
use warm_frames::FrameFault;
use warm_history::History;

// The size of the dump of the nine pages. The pages 0:0 to 0:8 are in a bucket each, and so in a
// frame each: a header of 19 bytes, a count of 4, and an entry of 21 or, for the five pages with
// two stamps, of 31. The frame of the digests has a header of 19 bytes and 64 digests of 32.
const DUMP_SIZE: usize = 4 * (19 + 4 + 21) + 5 * (19 + 4 + 31) + 19 + 64 * 32;

const NO_MEMORY: DumpFault = DumpFault::Frame(FrameFault::Memory);

// Gives at most 40 bytes at a time, less than a frame.
#[derive(Drop)]
struct Small<'a> {
    rest: &'a [u8],
}

impl Read for Small<'_> {
    fn read(&mut self, bytes: &mut [u8]) -> io::Result<usize> {
        let most = bytes.len().min(40);
        self.rest.read(&mut bytes[..most])
    }
}

// A history of nine pages at the horizon 5, of which the last five have two stamps.
fn nine_pages(alloc: Global) -> Result<History, Ended> {
    let mut history = history_of_pages(alloc, 0, 9, 10)?;
    history.absorb(&references_to(alloc, 4, 9, 20)?)?;
    history.raise(5);
    Ok(history)
}

// The dump is written into a list that has room for it, so each allocation is that of the call.
fn written(met: &mut Met, alloc: Global, history: &History) -> Result<Vec<u8>, Ended> {
    let sender = replica(3);
    let unchanged = nine_pages(alloc)?;
    let mut text = Vec::with_capacity(alloc, DUMP_SIZE)?;
    if let Err(fault) = write_dump(alloc, &mut text, sender, history) {
        let same = fault == NO_MEMORY && are_equal(history, &unchanged);
        met.refuse(same, "a refused dump changes no history")?;
        text.clear();
        let again = write_dump(alloc, &mut text, sender, history);
        met.holds(again.is_ok(), "a dump is refused again")?;
    }
    met.holds(text.len() == DUMP_SIZE, "a dump has a size")?;
    Ok(text)
}

// What is read of a dump in one piece.
fn read_whole(alloc: Global, text: &[u8]) -> Result<History, DumpError> {
    let mut reader = text;
    read_dump(alloc, &mut reader)
}

// What is read of a dump in small pieces.
fn read_in_pieces(alloc: Global, text: &[u8]) -> Result<History, DumpError> {
    let mut reader = Small { rest: text };
    read_dump(alloc, &mut reader)
}

fn whole(met: &mut Met, alloc: Global, text: &[u8], history: &History) -> Result<(), Ended> {
    let read = match read_whole(alloc, text) {
        Ok(read) => read,
        Err(error) => {
            met.refuse(error.fault == NO_MEMORY, "the bytes are a dump")?;
            let Ok(read) = read_whole(alloc, text) else {
                return Err(met.broken("a dump is refused again where it is read"));
            };
            read
        }
    };
    met.holds(are_equal(&read, history), "what was written is read")
}

fn pieces(met: &mut Met, alloc: Global, text: &[u8], history: &History) -> Result<(), Ended> {
    let read = match read_in_pieces(alloc, text) {
        Ok(read) => read,
        Err(error) => {
            met.refuse(error.fault == NO_MEMORY, "the pieces are a dump")?;
            let Ok(read) = read_in_pieces(alloc, text) else {
                return Err(met.broken("pieces of a dump are refused again"));
            };
            read
        }
    };
    met.holds(
        are_equal(&read, history),
        "what was written is read in pieces",
    )
}

pub(crate) fn rows(met: &mut Met, alloc: Global) -> Result<(), Ended> {
    let history = nine_pages(alloc)?;
    let text = written(met, alloc, &history)?;
    whole(met, alloc, &text, &history)?;
    pieces(met, alloc, &text, &history)
}
