//! Lists of devices over descriptors: which may be opened together.
ghost use Rattle.std.specs.Bool.{Decides};
ghost use Rattle.std.specs.Prelude.{◌≡◌, ◌<◌, ◌≤◌, length, map, set, IfErr, IfOk, OnOk};
ghost use Rattle.warm_c_base.specs.DeviceLists.{AllDiffer, AreDevices, DescriptorsDiffer};
ghost use Rattle.warm_c_base.specs.DeviceLists.{DevicesRefused, IsClash, fd_devices};
ghost use Rattle.warm_c_base.specs.FdParts.{fd_state};

use crate::descriptor::Descriptor;
use crate::fd_device::FdDevice;
use crate::status::Refusal;
use crate::values::WarmDevice;
use std::alloc::{AllocError, Global};
use std::collections::BTreeSet;
use std::iter::FromIterator;
use warm_gossip::NodeFault;
use warm_pool::{MAX_DEVICES, PoolFault};

// Whether no two of these descriptors are equal.
fn descriptors_differ(alloc: Global, fds: Vec<i32>) -> Result<bool, AllocError>
    ensures { IfOk result (λ differ. Decides differ (AllDiffer fds.items)) }
{
    let count = fds.len();
    let distinct = BTreeSet::from_iter(alloc, fds)?;
    Ok(distinct.len() == count)
}

// Whether no two of these files are equal.
fn files_differ(alloc: Global, files: Vec<u128>) -> Result<bool, AllocError>
    ensures { IfOk result (λ differ. Decides differ (AllDiffer files.items)) }
{
    let count = files.len();
    let distinct = BTreeSet::from_iter(alloc, files)?;
    Ok(distinct.len() == count)
}

// Lists the descriptors of these devices.
fn fds_of(alloc: Global, devices: &[WarmDevice]) -> Result<Vec<i32>, AllocError>
    ensures { IfOk result (λ fds. fds.items ≡ map (λ d. d.fd) devices.now) }
{
    let mut fds = Vec::with_capacity(alloc, devices.len())?;
    for device in devices {
        fds.push_reserved(device.fd);
    }
    Ok(fds)
}

// Lists the identities of the files of these devices, of those to which the system gives one.
fn files_of(alloc: Global, devices: &[WarmDevice]) -> Result<Vec<u128>, AllocError>
    ensures { IfOk result (λ files. length files.items ≤ length devices.now) }
{
    let mut files = Vec::with_capacity(alloc, devices.len())?;
    for device in devices {
        if let Some(file) = Descriptor::new(device.fd).file() {
            files.push_reserved(file);
        }
    }
    Ok(files)
}

/// Copies these devices.
pub fn copy_of(alloc: Global, devices: &[WarmDevice]) -> Result<Vec<WarmDevice>, AllocError>
    ensures { IfOk result (λ copy. copy.items ≡ devices.now) }
{
    let mut copy = Vec::with_capacity(alloc, devices.len())?;
    copy.extend_from_slice(devices)?;
    Ok(copy)
}

/// Copies these devices, with another in the place of one of them.
pub fn devices_with(
    alloc: Global,
    devices: &[WarmDevice],
    at: usize,
    device: WarmDevice,
) -> Result<Vec<WarmDevice>, AllocError>
    requires { at < length devices.now }
    ensures { IfOk result (λ made. made.items ≡ set devices.now at device) }
{
    let mut made = copy_of(alloc, devices)?;
    made[at] = device;
    Ok(made)
}

/// Checks that no two devices have one descriptor, nor one file by what the system says.
///
/// # Errors
/// `Node`, with `Memory`; `SameFile`.
pub fn check_apart(alloc: Global, devices: &[WarmDevice]) -> Result<(), Refusal>
    ensures apart { OnOk result (DescriptorsDiffer devices.now) }
    ensures refused { IfErr result (IsClash devices.now) }
{
    let fds = fds_of(alloc, devices)?;
    if !descriptors_differ(alloc, fds)? {
        return Err(Refusal::SameFile);
    }
    let files = files_of(alloc, devices)?;
    if !files_differ(alloc, files)? {
        return Err(Refusal::SameFile);
    }
    Ok(())
}

/// Creates the devices over these descriptors.
///
/// # Errors
/// In this order; `Node`, with `Memory`, at any point.
/// - `Node`, with `NoDevice`: there are more devices than a pool takes, or the pages of one do not
///   fit into what a file's offsets can name.
/// - `SameFile`: two devices have one descriptor, or one file by what the system says.
pub fn devices_of(
    alloc: Global,
    page_size: usize,
    devices: &[WarmDevice],
) -> Result<Vec<FdDevice>, Refusal>
    ensures made { IfOk result (λ made.
        map fd_state made.items ≡ fd_devices page_size devices.now) }
    ensures few { IfOk result (λ made. length made.items ≤ MAX_DEVICES) }
    ensures are { OnOk result (AreDevices page_size devices.now) }
    ensures apart { OnOk result (DescriptorsDiffer devices.now) }
    ensures refused { IfErr result (DevicesRefused page_size devices.now) }
{
    if devices.len() > MAX_DEVICES {
        return Err(Refusal::Node(NodeFault::Pool(PoolFault::NoDevice)));
    }
    let mut made = Vec::with_capacity(alloc, devices.len())?;
    for device in devices {
        let Some(device) = FdDevice::new(device.fd, device.pages, page_size) else {
            return Err(Refusal::Node(NodeFault::Pool(PoolFault::NoDevice)));
        };
        made.push_reserved(device);
    }
    if let Err(why) = check_apart(alloc, devices) {
        return Err(why);
    }
    Ok(made)
}
