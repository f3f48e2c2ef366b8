//! A file of the engine as a writer and as a reader: from its start on, one piece after another.
//! What the file holds is nothing that a contract can say, so neither says which bytes it has.
ghost use Rattle.std.specs.Prelude.{◌≡◌, ◌+◌, ◌≤◌, false, length, IfNone, IfSome, IsTrue};

use crate::descriptor::Descriptor;
use std::io::{Error, ErrorKind, Read, Write};

/// Writes a file from its start on. A flush syncs it.
#[derive(Drop)]
pub struct FileWriter {
    descriptor: Descriptor,
    // Where the next bytes go.
    at: u64,
}

impl FileWriter {
    /// Creates a writer at the start of the file. Nothing is asked of the descriptor yet.
    pub fn new(descriptor: Descriptor) -> FileWriter {
        FileWriter { descriptor, at: 0 }
    }

    // Writes these bytes where the next ones go. False if that fails.
    fn put(&mut self, bytes: &[u8]) -> bool
        ensures moves { IsTrue result → self.new.at ≡ self.old.at + length bytes.now }
        ensures stays { result ≡ false → self.new ≡ self.old }
    {
        let Some(end) = self.at.checked_add(bytes.len() as u64) else {
            return false;
        };
        if !self.descriptor.write(self.at, bytes) {
            return false;
        }
        self.at = end;
        true
    }
}

impl Write for FileWriter {
    fn write(&mut self, bytes: &[u8]) -> Result<usize, Error> {
        if !self.put(bytes) {
            return Err(Error::from(ErrorKind::Other));
        }
        Ok(bytes.len())
    }

    fn flush(&mut self) -> Result<(), Error> {
        if !self.descriptor.flush() {
            return Err(Error::from(ErrorKind::Other));
        }
        Ok(())
    }
}

/// Reads the first bytes of a file, as many as its caller says that there are.
#[derive(Drop)]
pub struct FileReader {
    descriptor: Descriptor,
    size: u64,
    // Where the next bytes come from.
    at: u64,
    ghost within: { at ≤ size },
}

impl FileReader {
    /// Creates a reader of this many bytes, from the start of the file on. Nothing is asked of the
    /// descriptor yet.
    pub fn new(descriptor: Descriptor, size: u64) -> FileReader {
        FileReader {
            descriptor,
            size,
            at: 0,
        }
    }

    // Reads the next bytes, as many as there is room for and are left, and returns how many; `None`
    // if that fails.
    fn take(&mut self, into: &mut [u8]) -> Option<usize>
        ensures moves { IfSome result (λ n. self.new.at ≡ self.old.at + n) }
        ensures most { IfSome result (λ n. n ≤ length into.old) }
        ensures stays { IfNone result (self.new ≡ self.old) }
    {
        let left = self.size - self.at;
        let count = left.min(into.len() as u64) as usize;
        if !self.descriptor.read(self.at, &mut into[..count]) {
            return None;
        }
        self.at += count as u64;
        Some(count)
    }
}

impl Read for FileReader {
    fn read(&mut self, into: &mut [u8]) -> Result<usize, Error> {
        match self.take(into) {
            Some(count) => Ok(count),
            None => Err(Error::from(ErrorKind::Other)),
        }
    }
}
