//! Writing the dump of a history.

use crate::failure::Failure;
use crate::progress::Progress;
use crate::words::{DASH, Output};
use atomic_file::Draft;
use std::io::{self, BufWriter, ErrorKind, Write};
use std::random::RandomSource;
use warm_dump::{DumpFault, write_dump};
use warm_frames::FrameFault;
use warm_history::History;
use warm_stamps::ReplicaId;

// A writer that notes why it failed, and says on a terminal how far it is.
struct Noted<'a, 'b, W: Write> {
    progress: Progress<'b>,
    to: &'a mut W,
    bytes: u64,
    error: Option<ErrorKind>,
}

impl<'a, 'b, W: Write> Write for Noted<'a, 'b, W> {
    fn write(&mut self, buf: &[u8]) -> io::Result<usize> {
        match self.to.write(buf) {
            Ok(n) => {
                self.bytes = self.bytes.saturating_add(n as u64);
                self.progress.show(self.bytes);
                Ok(n)
            }
            Err(error) => {
                self.error = Some(error.kind());
                Err(error)
            }
        }
    }

    fn flush(&mut self) -> io::Result<()> {
        match self.to.flush() {
            Ok(()) => Ok(()),
            Err(error) => {
                self.error = Some(error.kind());
                Err(error)
            }
        }
    }
}

// Writes the dump to what goes by this name.
fn put_dump<'a, W: Write>(
    rt: &'a HostRuntime,
    to: &mut W,
    name: &'a str,
    sender: ReplicaId,
    history: &History,
) -> Result<(), Failure<'a>> {
    let mut noted = Noted {
        progress: Progress::new(rt, name),
        to,
        bytes: 0,
        error: None,
    };
    let written = write_dump(rt.alloc(), &mut noted, sender, history);
    let Noted {
        progress,
        to: _,
        bytes: _,
        error,
    } = noted;
    progress.clear();
    match written {
        Ok(()) => Ok(()),
        Err(DumpFault::Frame(FrameFault::Memory)) => Err(Failure::Memory),
        Err(_) => Err(Failure::Unwritten(name, error)),
    }
}

// What a draft is numbered by.
fn drawn_number(rt: &HostRuntime) -> u64 {
    let mut bytes = [0u8; 8];
    // Without random bytes it is 0: a draft takes another name if that one is not free.
    let _ = rt.fill_bytes(&mut bytes);
    u64::from_be_bytes(bytes)
}

// Replaces the file by the dump of the history, or makes it.
fn store<'a>(
    rt: &'a HostRuntime,
    name: &'a str,
    sender: ReplicaId,
    history: &History,
) -> Result<(), Failure<'a>> {
    let mut draft = match Draft::create(rt, rt.alloc(), name, drawn_number(rt)) {
        Ok(draft) => draft,
        Err(fault) => return Err(Failure::Unstored(name, fault)),
    };
    put_dump(rt, &mut draft, name, sender, history)?;
    draft
        .commit()
        .map_err(|fault| Failure::Unstored(name, fault))
}

/// Writes the dump of the history.
pub fn write_out<'a>(
    rt: &'a HostRuntime,
    output: &Output<'a>,
    history: &History,
) -> Result<(), Failure<'a>> {
    if output.out == DASH {
        let mut buffered = BufWriter::new(rt.alloc(), rt.stdout())?;
        return put_dump(rt, &mut buffered, "standard output", output.sender, history);
    }
    store(rt, output.out, output.sender, history)
}
