//! Devices of pages of 16 bytes, and short lists of devices.
ghost use Rattle.std.specs.Prelude.{◌≡◌, IfOk, length};
ghost use Rattle.warm_devices.specs.Device.{zeroed};

use std::alloc::{AllocError, Global};
use warm_devices::{Flaky, MemDevice, PageDevice};

/// A device in memory of this many pages of 16 bytes.
///
/// # Errors
/// If its allocation fails.
pub fn memory(alloc: Global, pages: u64) -> Result<MemDevice, AllocError>
    ensures { IfOk result (λ device. device ≡ zeroed pages 16) }
{
    MemDevice::new(alloc, pages, 16)
}

/// Such a device whose `n`-th call, of reads, writes and flushes, fails; no call fails if `n` is
/// 0.
///
/// # Errors
/// If its allocation fails.
pub fn flaky(alloc: Global, pages: u64, n: u64) -> Result<Flaky<MemDevice>, AllocError> {
    let device = memory(alloc, pages)?;
    Ok(Flaky::new(device, n))
}

/// A list of one device.
///
/// # Errors
/// If its allocation fails. The device is then dropped.
pub fn alone<D: PageDevice>(alloc: Global, device: D) -> Result<Vec<D>, AllocError>
    ensures { IfOk result (λ devices. length devices.items ≡ 1) }
{
    let mut devices = Vec::with_capacity(alloc, 1)?;
    devices.push_reserved(device);
    Ok(devices)
}

/// A list of two devices.
///
/// # Errors
/// If its allocation fails. The devices are then dropped.
pub fn both<D: PageDevice>(alloc: Global, first: D, second: D) -> Result<Vec<D>, AllocError>
    ensures { IfOk result (λ devices. length devices.items ≡ 2) }
{
    let mut devices = Vec::with_capacity(alloc, 2)?;
    devices.push_reserved(first);
    devices.push_reserved(second);
    Ok(devices)
}
