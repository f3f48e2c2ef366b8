//! A file descriptor of the engine. Its reads, writes and flushes are asked for by what `io` calls
//! of C, `read` and `write`.
//!
//! In the library for C these two symbols are functions of c/fd_calls.c, which make the calls of
//! the system at once, in the same thread. A request is nine bytes that are written to the
//! descriptor: one for its kind (1 reads, 2 writes, 3 flushes, 4 asks which file it is of, 5 asks
//! why a call failed), eight for the offset in its file, highest byte first.
//!
//! - The read that follows a 1 fills its buffer from that offset on, with zeros past the end of the
//!   file.
//! - The write that follows a 2 puts its bytes there.
//! - A flush is done as it is asked for.
//! - The read that follows a 4 returns the identity of the file, 16 bytes.
//! - The read that follows a 5 returns the errno of the call that failed last in this thread, 4
//!   bytes, highest byte first.
ghost use Rattle.std.specs.Prelude.{◌≡◌};

const READ: u8 = 1;

const WRITE: u8 = 2;

const FLUSH: u8 = 3;

const IDENTITY: u8 = 4;

const FAILURE: u8 = 5;

/// A file descriptor of the engine.
#[derive(Clone, Copy)]
pub struct Descriptor {
    fd: i32,
}

// Makes a request. False if that fails.
fn ask(fd: i32, kind: u8, at: u64) -> bool {
    let [a0, a1, a2, a3, a4, a5, a6, a7] = at.to_be_bytes();
    let request = [kind, a0, a1, a2, a3, a4, a5, a6, a7];
    io::write_all(fd, &request)
}

impl Descriptor {
    /// Wraps a descriptor's number. Nothing is asked of it yet.
    pub fn new(fd: i32) -> Descriptor
        ensures { result.fd ≡ fd }
    {
        Descriptor { fd }
    }

    /// Fills `into` with the bytes of the file from the offset `at` on, with zeros past its end.
    /// False if that fails: `into` may then hold any bytes.
    pub fn read(self, at: u64, into: &mut [u8]) -> bool {
        // `io` makes no call for no bytes, and the request would wait for one.
        if into.is_empty() {
            return true;
        }
        ask(self.fd, READ, at) && io::read_full(self.fd, into) == into.len()
    }

    /// Writes bytes to the file from the offset `at` on. False if that fails: the file may then
    /// hold any bytes there.
    pub fn write(self, at: u64, bytes: &[u8]) -> bool {
        if bytes.is_empty() {
            return true;
        }
        ask(self.fd, WRITE, at) && io::write_all(self.fd, bytes)
    }

    /// Returns the identity of the descriptor's file: a number that all descriptors of that file
    /// have, and those of another file have not. `None` if the system has none, as for a descriptor
    /// that is closed.
    pub fn file(self) -> Option<u128> {
        let mut identity = [0; 16];
        if !ask(self.fd, IDENTITY, 0) || io::read_full(self.fd, &mut identity) != identity.len() {
            return None;
        }
        Some(u128::from_be_bytes(identity))
    }

    /// Syncs the file. False if that fails.
    pub fn flush(self) -> bool {
        ask(self.fd, FLUSH, 0)
    }

    /// Returns the errno of the call that failed last in this thread, of whatever descriptor: after
    /// a call here that failed, its own, as long as no other was made. 0 if none has failed.
    pub fn failure(self) -> i32 {
        let mut errno = [0; 4];
        if !ask(self.fd, FAILURE, 0) || io::read_full(self.fd, &mut errno) != errno.len() {
            return 0;
        }
        i32::from_be_bytes(errno)
    }
}
