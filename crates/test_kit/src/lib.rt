//! What the tests of several crates share: values and lists made from plain numbers, bytes of
//! frames, what is displayed, readers and writers, devices, and a device that calls back a test.
//! And what the programs of allocation cases share ([`cases`]).
//!
//! Nothing here may end a process, since only tests may: a function whose allocation can fail
//! returns an error, and the test decides.
#![tactic(auto)]

mod bytes;
pub mod cases;
mod devices;
mod hooked;
mod lists;
mod note;
mod streams;
mod text;
mod values;

pub use bytes::{NARROW, WIDE};
pub use devices::{alone, both, flaky, memory};
pub use hooked::{HookedDevice, Hooks};
pub use lists::{
    SeenAt, are_equal, history_of, history_of_pages, references, references_to, spread_references,
};
pub use note::{DeviceNote, Found, Noting, noting};
pub use streams::{BrokenReader, CountingReader, FullWriter, MarkingWriter, TrickleReader};
pub use text::displays;
pub use values::{bucket, entry, once, page, page_on, replica, seen, stamp, twice};
