//! Tests of a device over a file.
use std::fs::{self, File, Files};
use test_kit::cases::{Ended, Met};
use warm_devices::{FileDevice, OpenFault, PageDevice};

const PATH: &str = "rows.pages";

const PAGE: [u8; 16] = *b"what the page is";

// The file as a device of 8 pages. One that is refused is opened again.
fn opened<R: Files<File = File>>(met: &mut Met, files: &R) -> Result<FileDevice, Ended> {
    let fault = match FileDevice::open(files, PATH, 8, 16) {
        Ok(device) => return Ok(device),
        Err(fault) => fault,
    };
    met.refuse(fault == OpenFault::Memory, "the file can be opened")?;
    match FileDevice::open(files, PATH, 8, 16) {
        Ok(device) => Ok(device),
        Err(_) => Err(met.broken("a file is refused again")),
    }
}

// Writes a page of a device, which is allocation-free.
fn write(met: &mut Met, mut device: FileDevice) -> Result<(), Ended> {
    if device.pages() != 8 || device.page_size() != PAGE.len() {
        return Err(met.broken("a device has other pages than it was opened with"));
    }
    let is_written = device.write(3, &PAGE).is_ok() && device.flush().is_ok();
    met.holds(is_written, "a page is not written")
}

// Reads it, which is allocation-free.
fn read(met: &mut Met, mut device: FileDevice) -> Result<(), Ended> {
    if device.pages() != 8 || device.page_size() != PAGE.len() {
        return Err(met.broken("a device has other pages than it was opened with"));
    }
    let mut page = [0u8; 16];
    let is_read = device.read(3, &mut page).is_ok() && page == PAGE;
    met.holds(is_read, "a page is not as it was written")
}

// A page is written, and read from the device that is opened next, refused at first or not. The
// file is removed at the end.
pub(crate) fn rows<R: Files<File = File>>(met: &mut Met, files: &R) -> Result<(), Ended> {
    let device = opened(met, files)?;
    write(met, device)?;
    let device = opened(met, files)?;
    read(met, device)?;
    let is_gone = fs::remove_file(files, PATH).is_ok() || fs::remove_file(files, PATH).is_ok();
    met.holds(is_gone, "the file stays")
}
