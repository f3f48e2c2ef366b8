//! Devices in memory, devices in files, and devices of which a chosen call fails.

use std::fs::{self, File, Files};
use std::process::Abort;
use warm_devices::{
    DeviceFault, FileDevice, Flaky, Logged, MemDevice, NotYet, OpenFault, PageDevice, PageLog,
    let_go,
};

#[test]
fn a_device_in_memory_keeps_its_pages(rt: HostRuntime) {
    let alloc = rt.alloc();
    let inner = MemDevice::new(alloc, 4, 2).expect(&rt, "memory for pages");
    let mut device: Box<dyn PageDevice + Send> = Box::new(alloc, inner).expect(
        &rt,
        "memory for a box",
    );
    let mut page = [9; 2];
    assert!(rt; device.pages() == 4 && device.page_size() == 2 && device.failures() == 0);
    assert!(rt; device.read(1, &mut page) == Ok(()) && page == [0; 2] && !device.waiting());
    assert!(rt; device.write(1, &[7, 8]) == Ok(()) && device.waiting());
    assert!(rt; device.read(1, &mut page) == Ok(()) && page == [7, 8]);
    assert!(rt; device.flush() == Ok(()) && !device.waiting());
    let_go(device);
}

#[test]
fn the_chosen_write_tears_its_page(rt: HostRuntime) {
    let inner = MemDevice::new(rt.alloc(), 4, 2).expect(&rt, "memory for pages");
    let mut device = Flaky::new(inner, 2);
    let mut page = [0; 2];
    assert!(rt;
        device.write(1, &[7, 8]) == Ok(())
            && device.write(1, &[9, 9]) == Err(DeviceFault::Write)
            && device.failures() == 1
            && device.read(1, &mut page) == Ok(())
            && page == [0xEE; 2]
            && device.write(1, &[9, 9]) == Ok(())
            && device.flush() == Ok(())
    );
}

// The second call is the flush that `settle` makes. It fails; the next `settle` flushes again.
#[test]
fn a_failed_flush_of_settle_is_counted(rt: HostRuntime) {
    let inner = MemDevice::new(rt.alloc(), 1, 1).expect(&rt, "memory for a page");
    let mut device = Flaky::new(inner, 2);
    assert!(rt; device.write(0, &[5]) == Ok(()) && device.failures() == 0);
    device.settle();
    assert!(rt; device.failures() == 1 && device.waiting());
    device.settle();
    assert!(rt; device.failures() == 1 && !device.waiting());
}

// Writes page 3 of a file of eight pages, whose device is then dropped.
fn write_page<R: Files<File = File> + Abort>(rt: &R, path: &str) {
    let mut device = FileDevice::open(rt, path, 8, 16).expect(rt, "opened");
    assert!(rt; device.write(3, &[0x5A; 16]) == Ok(()));
}

// The file has that page and zeros.
fn find_page<R: Files<File = File> + Abort>(rt: &R, path: &str) {
    let mut device = FileDevice::open(rt, path, 8, 16).expect(rt, "opened again");
    let mut page = [0; 16];
    assert!(rt;
        device.read(3, &mut page) == Ok(())
            && page == [0x5A; 16]
            && device.read(7, &mut page) == Ok(())
            && page == [0; 16]
            && !device.waiting()
            && device.failures() == 0
    );
}

#[test]
fn a_file_keeps_a_dropped_devices_bytes(rt: HostRuntime) {
    let path = "kept.pages";
    write_page(&rt, path);
    find_page(&rt, path);
    let file = fs::metadata(&rt, path).expect(&rt, "the file stands");
    assert!(rt; file.len() == 128);
    fs::remove_file(&rt, path).expect(&rt, "the file goes");
}

#[test]
fn a_file_that_cannot_be_opened(rt: HostRuntime) {
    let missing = FileDevice::open(&rt, "no-such-folder/pages", 8, 16);
    assert!(rt; missing.err() == Some(OpenFault::Open));
}

// Pages that don't fit into 2^63 - 1 bytes are refused before any system call, even if their number
// of bytes has more than 64 bits.
#[test]
fn a_file_that_would_be_too_large(rt: HostRuntime) {
    let path = "never-made.pages";
    for (pages, page_size) in [
        (4_294_967_295, 1 << 40),
        (1 << 63, 1),
        (1 << 62, 2),
        (1 << 33, 1 << 30),
        (1 << 33, 1 << 31),
        ((1 << 32) + 1, 1 << 32),
        (u64::MAX, 1),
        (u64::MAX, 65_536),
        (u64::MAX, usize::MAX),
    ] {
        let refused = FileDevice::open(&rt, path, pages, page_size);
        assert!(rt; refused.err() == Some(OpenFault::Open));
    }
    assert!(rt; fs::metadata(&rt, path).is_err());
}

#[test]
fn memory_for_more_pages_than_any_is_refused(rt: HostRuntime) {
    for (pages, page_size) in [(u64::MAX, 1), (1 << 59, 16), (1 << 60, 16), (1 << 63, 2)] {
        assert!(rt; MemDevice::new(rt.alloc(), pages, page_size).is_err());
    }
}

// Whether a device has this shape, and is flushed.
fn is_shaped<D: PageDevice>(device: &D, pages: u64, page_size: usize) -> bool {
    device.pages() == pages && device.page_size() == page_size && !device.waiting()
}

#[test]
fn devices_may_have_no_pages_and_pages_no_bytes(rt: HostRuntime) {
    let path = "shaped.pages";
    for (pages, page_size) in [(0, 16), (16, 0), (0, 0), (2, 65_536)] {
        let inner = MemDevice::new(rt.alloc(), pages, page_size).expect(&rt, "memory for pages");
        assert!(rt; is_shaped(&inner, pages, page_size));
        let file = FileDevice::open(&rt, path, pages, page_size).expect(&rt, "opened");
        assert!(rt; is_shaped(&file, pages, page_size));
    }
    fs::remove_file(&rt, path).expect(&rt, "the file goes");
}

// 2^33 pages of one byte.
const WIDE: u64 = 8_589_934_592;

fn open_wide<R: Files<File = File> + Abort>(rt: &R, path: &str) -> FileDevice {
    FileDevice::open(rt, path, WIDE, 1).expect(rt, "opened")
}

// Writes a byte of the file as a page.
fn write_byte<R: Files<File = File> + Abort>(rt: &R, path: &str, no: u64, byte: u8) -> bool {
    let mut device = open_wide(rt, path);
    no < device.pages() && device.page_size() == 1 && device.write(no, &[byte]) == Ok(())
}

// The byte of the file that is a page.
fn byte_at<R: Files<File = File> + Abort>(rt: &R, path: &str, no: u64) -> Option<u8> {
    let mut device = open_wide(rt, path);
    let mut page = [0xFF; 1];
    if no < device.pages() && device.page_size() == 1 && device.read(no, &mut page) == Ok(()) {
        return Some(page[0]);
    }
    None
}

#[test]
fn a_sparse_file_has_pages_past_32_bits(rt: HostRuntime) {
    let path = "sparse.pages";
    assert!(rt; write_byte(&rt, path, 4_294_967_296, 5));
    assert!(rt; write_byte(&rt, path, 8_589_934_591, 6));
    let file = fs::metadata(&rt, path).expect(&rt, "the file stands");
    assert!(rt; file.len() == 8_589_934_592);
    assert!(rt; byte_at(&rt, path, 4_294_967_296) == Some(5));
    assert!(rt; byte_at(&rt, path, 8_589_934_591) == Some(6));
    assert!(rt; byte_at(&rt, path, 0) == Some(0));
    assert!(rt; byte_at(&rt, path, 8_589_934_592) == None);
    fs::remove_file(&rt, path).expect(&rt, "the file goes");
}

// A log that is durable for the pages below a number.
#[derive(Drop)]
struct DurableBelow {
    end: u64,
}

impl PageLog for DurableBelow {
    ghost use Rattle.std.specs.Prelude.{ℕ};

    ghost answers = { λ log no bytes answer after. Unit {0} };

    fn before_write(&mut self, no: u64, _bytes: &[u8]) -> Result<(), NotYet> {
        if no < self.end {
            return Ok(());
        }
        Err(NotYet)
    }
}

#[test]
fn a_log_holds_a_write_back(rt: HostRuntime) {
    let inner = MemDevice::new(rt.alloc(), 4, 2).expect(&rt, "memory for pages");
    let mut device = Logged::new(inner, DurableBelow { end: 2 });
    let mut page = [0; 2];
    assert!(rt; device.write(1, &[7, 8]) == Ok(()) && device.flush() == Ok(()));
    assert!(rt; device.write(2, &[7, 8]) == Err(DeviceFault::Write));
    assert!(rt; device.failures() == 1 && device.waiting());
    assert!(rt; device.read(2, &mut page) == Ok(()) && page == [0; 2]);
    assert!(rt; device.flush() == Ok(()) && !device.waiting() && device.failures() == 1);
    assert!(rt; device.read(1, &mut page) == Ok(()) && page == [7, 8]);
}
