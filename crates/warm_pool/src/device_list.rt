//! The devices of a pool, and calls of one of them. Each call is counted.
ghost use Rattle.std.specs.Prelude.{◌≡◌, ◌↔◌, ◌<◌, IsTrue, map, length};
ghost use Rattle.warm_pool.specs.State.{nth_device};
ghost use Rattle.warm_pool.specs.DeviceCalls.{AreOfSize, PageRead, PageWrite};

use crate::pool::Pool;
use crate::tally::Tally;
use warm_devices::{DeviceFault, PageDevice};
use warm_stamps::PageId;

impl<D: PageDevice> Pool<D> {
    /// The devices, by their numbers.
    pub fn devices(&self) -> &[D]
        ensures { map D.state result.now ≡ self.now.devices }
    {
        &self.devices
    }
}

/// Reads one page of one of the devices.
pub(crate) fn read_page<D: PageDevice>(
    devices: &mut Vec<D>,
    tally: &mut Tally,
    page: PageId,
    into: &mut Vec<u8>,
) -> Result<(), DeviceFault>
    requires device { page.dev < length devices.old.items }
    requires known { page.no < (nth_device (map D.state devices.old.items) page.dev).pages }
    requires sized { length into.old.items
        ≡ (nth_device (map D.state devices.old.items) page.dev).page_size }
    ensures call { PageRead (map D.state devices.old.items)
        (map D.state devices.new.items) page.dev page.no into.new.items result }
    ensures len { length into.new.items ≡ length into.old.items }
{
    let done = devices[page.dev as usize].read(page.no, into);
    tally.read(page, done.is_ok());
    done
}

/// Writes one page of one of the devices.
pub(crate) fn write_page<D: PageDevice>(
    devices: &mut Vec<D>,
    tally: &mut Tally,
    page: PageId,
    bytes: &[u8],
) -> Result<(), DeviceFault>
    requires device { page.dev < length devices.old.items }
    requires known { page.no < (nth_device (map D.state devices.old.items) page.dev).pages }
    requires sized { length bytes.now
        ≡ (nth_device (map D.state devices.old.items) page.dev).page_size }
    ensures { PageWrite (map D.state devices.old.items)
        (map D.state devices.new.items) page.dev page.no bytes.now result }
{
    let done = devices[page.dev as usize].write(page.no, bytes);
    tally.wrote(page, done.is_ok());
    done
}

/// The number of pages of one of the devices.
pub(crate) fn pages_of<D: PageDevice>(devices: &[D], device: usize) -> u64
    requires { device < length devices.now }
    ensures { result ≡ (nth_device (map D.state devices.now) device).pages }
{
    devices[device].pages()
}

/// Whether each device has pages of this size.
pub fn all_sized<D: PageDevice>(devices: &[D], page_size: usize) -> bool
    ensures { IsTrue result ↔ AreOfSize page_size (length devices.now) (map D.state devices.now) }
{
    for device in devices {
        if device.page_size() != page_size {
            return false;
        }
    }
    true
}
