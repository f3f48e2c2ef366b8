//! Page devices: numbered pages of one size. A device flushes its unflushed writes when it is
//! dropped.
//!
//! [`PageDevice`] is the contract that a buffer pool relies on. Contracts see a device as plain
//! data, its `state`: the number and the size of its pages, their contents, whether a written page
//! is still unflushed, and how many of its calls have failed. A call fails only if the count of
//! failures increased by one in that call; a count of `u64::MAX` stays and counts as increased.
//!
//! A device declares whether it is *honest* (its reads return the bytes last written) and whether
//! it is *unfailing* (its calls never fail). [`MemDevice`] is both, [`Flaky`] and [`Logged`] are
//! honest if the device within is, [`Counted`] is what the device within is, and [`FileDevice`]
//! claims neither, since no proof can say what a file holds.
#![tactic(auto)]

mod boxed;
mod calls;
mod counted;
mod device;
mod fault;
mod file;
mod flaky;
mod log;
mod logged;
mod memory;

pub use calls::CallsMade;
pub use counted::{Counted, DeviceCounts};
pub use device::{PageDevice, let_go};
pub use fault::{DeviceFault, OpenFault};
pub use file::FileDevice;
pub use flaky::Flaky;
pub use log::{NotYet, PageLog};
pub use logged::Logged;
pub use memory::MemDevice;

/// The maximum size of a page of a pool, and of a page that a failed write fills, in bytes.
pub const MAX_PAGE_SIZE: usize = 65_536;
