//! Why a device could not be opened, and why a call of one failed.
ghost use Rattle.std.specs.Prelude.{◌≡◌};
ghost use Rattle.warm_devices.specs.Faults.{device_fault_code, device_fault_name, open_fault_code};
ghost use Rattle.warm_devices.specs.Faults.{open_fault_name};

use std::io;
use thiserror::Error;

/// Why a call of a device failed: a read fails only with `Read`, a write with `Write`, and a flush
/// with `Flush`.
///
/// Each occurs only if the device's count of failures increased by one in that call. An allocation
/// failure is not among them, since these calls are allocation-free.
#[derive(Clone, Copy, PartialEq, Eq, Debug, Error)]
pub enum DeviceFault {
    /// 1: the page could not be read; contents are unchanged.
    #[error("Read")]
    Read,
    /// 2: the page could not be written, and may hold any bytes; all other pages are unchanged.
    #[error("Write")]
    Write,
    /// 3: the flush failed; what was unflushed still is, and the contents that reads return are
    /// unchanged.
    #[error("Flush")]
    Flush,
}

impl DeviceFault {
    /// The fault's number, 1 to 3.
    pub fn code(self) -> u8
        ensures { result ≡ device_fault_code self }
    {
        match self {
            DeviceFault::Read => 1,
            DeviceFault::Write => 2,
            DeviceFault::Flush => 3,
        }
    }

    /// The fault's name, as it is printed.
    pub fn name(self) -> &'static str
        ensures { result.now ≡ device_fault_name self }
    {
        match self {
            DeviceFault::Read => "Read",
            DeviceFault::Write => "Write",
            DeviceFault::Flush => "Flush",
        }
    }
}

/// Why a file was not opened as a device.
#[derive(Clone, Copy, PartialEq, Eq, Debug, Error)]
pub enum OpenFault {
    /// 1: the system or the allocator had no memory (an allocation failure).
    #[error("Memory")]
    Memory,
    /// 2: the file could not be opened, created or extended, or it would be larger than the
    /// greatest file offset.
    #[error("Open")]
    Open,
}

impl OpenFault {
    /// The fault's number, 1 or 2.
    pub fn code(self) -> u8
        ensures { result ≡ open_fault_code self }
    {
        match self {
            OpenFault::Memory => 1,
            OpenFault::Open => 2,
        }
    }

    /// The fault's name, as it is printed.
    pub fn name(self) -> &'static str
        ensures { result.now ≡ open_fault_name self }
    {
        match self {
            OpenFault::Memory => "Memory",
            OpenFault::Open => "Open",
        }
    }
}

/// Converts the system's error on opening a file: `Memory` if memory ran out, otherwise `Open`.
impl From<io::Error> for OpenFault {
    ghost use Rattle.std.specs.Prelude.{◌≡◌};
    ghost use Rattle.std.specs.IoError.{error_kind};
    ghost use Rattle.warm_devices.specs.Faults.{open_fault_of};

    ghost from_gives = { λ error fault. fault ≡ open_fault_of (error_kind error) };

    fn from(error: io::Error) -> OpenFault {
        match error.kind() {
            io::ErrorKind::OutOfMemory => OpenFault::Memory,
            _ => OpenFault::Open,
        }
    }
}
