//! Readers that give bytes one by one, fail, or note how many bytes were asked for, and writers
//! that fail or mark each flush.
use std::alloc::Global;
use std::io;
use std::io::{ErrorKind, Read, Write};

/// Gives these bytes one at a time, each after a read that is interrupted.
#[derive(Drop)]
pub struct TrickleReader<'a> {
    rest: &'a [u8],
    is_ready: bool,
}

impl<'a> TrickleReader<'a> {
    /// A reader of these bytes. Allocation-free.
    pub fn new(bytes: &'a [u8]) -> TrickleReader<'a> {
        TrickleReader {
            rest: bytes,
            is_ready: false,
        }
    }
}

impl Read for TrickleReader<'_> {
    fn read(&mut self, bytes: &mut [u8]) -> io::Result<usize> {
        self.is_ready = !self.is_ready;
        if self.is_ready {
            return Err(io::Error::from(ErrorKind::Interrupted));
        }
        let Some((first, rest)) = self.rest.split_first() else {
            return Ok(0);
        };
        if bytes.is_empty() {
            return Ok(0);
        }
        bytes[0] = *first;
        self.rest = rest;
        Ok(1)
    }
}

/// Gives these bytes, and then fails.
#[derive(Drop)]
pub struct BrokenReader<'a> {
    rest: &'a [u8],
}

impl<'a> BrokenReader<'a> {
    /// A reader of these bytes. Allocation-free.
    pub fn new(bytes: &'a [u8]) -> BrokenReader<'a> {
        BrokenReader { rest: bytes }
    }
}

impl Read for BrokenReader<'_> {
    fn read(&mut self, bytes: &mut [u8]) -> io::Result<usize> {
        if self.rest.is_empty() {
            return Err(io::Error::from(ErrorKind::TimedOut));
        }
        self.rest.read(bytes)
    }
}

/// Gives these bytes, and notes the most that were asked for at once.
#[derive(Drop)]
pub struct CountingReader<'a> {
    rest: &'a [u8],
    most: usize,
}

impl<'a> CountingReader<'a> {
    /// A reader of these bytes. Allocation-free.
    pub fn new(bytes: &'a [u8]) -> CountingReader<'a> {
        CountingReader {
            rest: bytes,
            most: 0,
        }
    }

    /// The most bytes that were asked for at once. Allocation-free.
    pub fn most(&self) -> usize {
        self.most
    }
}

impl Read for CountingReader<'_> {
    fn read(&mut self, bytes: &mut [u8]) -> io::Result<usize> {
        self.most = self.most.max(bytes.len());
        self.rest.read(bytes)
    }
}

/// Takes a number of bytes, at most seven at once, and then fails, flushes included.
#[derive(Drop)]
pub struct FullWriter {
    left: usize,
}

impl FullWriter {
    /// A writer that takes this many bytes. Allocation-free.
    pub fn new(left: usize) -> FullWriter {
        FullWriter { left }
    }
}

impl Write for FullWriter {
    fn write(&mut self, bytes: &[u8]) -> io::Result<usize> {
        if self.left == 0 {
            return Err(io::Error::from(ErrorKind::StorageFull));
        }
        let count = bytes.len().min(self.left).min(7);
        self.left -= count;
        Ok(count)
    }

    fn flush(&mut self) -> io::Result<()> {
        if self.left == 0 {
            return Err(io::Error::from(ErrorKind::StorageFull));
        }
        Ok(())
    }
}

/// Takes all bytes, and marks each flush by a bar.
#[derive(Drop)]
pub struct MarkingWriter {
    taken: Vec<u8>,
}

impl MarkingWriter {
    /// A writer that has taken nothing. Allocation-free.
    pub fn new(alloc: Global) -> MarkingWriter {
        MarkingWriter {
            taken: Vec::new(alloc),
        }
    }

    /// The bytes that it has taken, and the marks. Allocation-free.
    pub fn taken(&self) -> &[u8] {
        &self.taken
    }
}

impl Write for MarkingWriter {
    fn write(&mut self, bytes: &[u8]) -> io::Result<usize> {
        self.taken.write(bytes)
    }

    fn flush(&mut self) -> io::Result<()> {
        self.taken.write_all(b"|")
    }
}
