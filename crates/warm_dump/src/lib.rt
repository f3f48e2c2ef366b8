//! A history as a file: a dump, written to any writer and read from any reader.
//!
//! A dump is the frames of the messages of all entries, bucket by bucket in chunks, and then the
//! frame of the message of the 64 digests, each with the history's horizon. `specs/Dumps.antt` says
//! which bytes these are, and `specs/Reading.antt` what a reader makes of bytes. [`laws`] says that
//! what was written reads back equal, and that a changed dump is seen.
#![tactic(auto)]

mod builder;
mod fault;
pub mod laws;
mod reading;
mod writing;

pub use fault::{DumpError, DumpFault};
pub use reading::{DUMP_READ_SIZE, MAX_DUMP_READS, read_dump};
pub use writing::write_dump;
