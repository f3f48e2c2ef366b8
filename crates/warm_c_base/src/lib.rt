//! What the library for C is built on, beside nodes: devices and files over file descriptors, and
//! pages, slots, counts and statuses as C has them.
//!
//! - An [`FdDevice`] is a page device over a [`Descriptor`] that the engine opened. [`devices_of`]
//!   creates the devices of one pool, no two of which are of one file. A [`FileWriter`] and a
//!   [`FileReader`] write and read a file from its start on.
//! - A [`WarmPage`], a [`WarmSlot`] and others cross to C, as `c/nodes.h` declares them.
//! - A [`Refusal`] is why a call is refused. Its number is the status.
//!
//! c/fd_calls.c has what is not proved: the calls of the system, which a [`Descriptor`] asks for.
#![tactic(auto)]

mod counters;
mod descriptor;
mod device_file;
mod device_list;
mod dump_file;
mod fd_device;
mod status;
mod values;

pub use counters::{WarmCounters, WarmDeviceCounters, WarmFailure, put_failure};
pub use descriptor::Descriptor;
pub use device_file::DeviceFile;
pub use device_list::{check_apart, copy_of, devices_of, devices_with};
pub use dump_file::{FileReader, FileWriter};
pub use fd_device::FdDevice;
pub use status::{Refusal, status_of};
pub use values::{
    PinnedSlot, WarmDevice, WarmPage, WarmReference, WarmSlot, c_bool, page_if, put_dirty, put_page,
};
