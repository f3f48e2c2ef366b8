//! What a terminal shows of long work.

use std::io::IsTerminal;

// How many bytes there are between two lines of progress.
const STEP: u64 = 1 << 22;

const MEGABYTE: u64 = 1_000_000;

/// A line on standard error that says how far reading or writing is. It is shown only if
/// standard error is a terminal.
#[derive(Drop)]
pub struct Progress<'a> {
    rt: &'a HostRuntime,
    name: &'a str,
    is_shown: bool,
    // At how many bytes the next line is due.
    due: u64,
}

impl<'a> Progress<'a> {
    /// Nothing was read or written yet of what goes by this name.
    pub fn new(rt: &'a HostRuntime, name: &'a str) -> Progress<'a> {
        Progress {
            rt,
            name,
            is_shown: rt.stderr().is_terminal(),
            due: STEP,
        }
    }

    /// Shows how many bytes were read or written: a line, if one is due.
    pub fn show(&mut self, bytes: u64) {
        if !self.is_shown || bytes < self.due {
            return;
        }
        self.due = bytes.saturating_add(STEP);
        let name = self.name;
        // Nothing is lost if it cannot be shown.
        let _ = eprint!(self.rt; "\rwarmhist: {name}: {} MB", bytes / MEGABYTE);
    }

    /// Takes the line away, if there is one.
    pub fn clear(&self) {
        if self.due > STEP {
            let _ = eprint!(self.rt; "\r\x1b[K");
        }
    }
}
