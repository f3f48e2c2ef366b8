//! A pool over pages whose numbers have more than 32 bits: those of a sparse file.
use super::{AMPLE, Row, Said, closes, pool_of, runs};
use std::alloc::Global;
use std::fs::{self, File, Files};
use std::process::Abort;
use test_kit::alone;
use warm_devices::{FileDevice, PageDevice};
use warm_history::History;
use warm_pool::PoolFault;

const PATH: &str = "wide-pool.pages";

// The first number that has more than 32 bits.
const FIRST_WIDE: u64 = 4_294_967_296;

// Two pages past the numbers of 32 bits, of one byte each.
fn wide_file<R: Files<File = File> + Abort>(rt: &R) -> FileDevice {
    FileDevice::open(rt, PATH, FIRST_WIDE + 2, 1).expect(rt, "opened")
}

// Pages whose numbers agree in their low 32 bits are different pages, and are evicted in the order
// of their whole numbers.
const ROWS: [Row<'static>; 16] = [
    Row::Has(FIRST_WIDE + 1, true),
    Row::Has(FIRST_WIDE + 2, false),
    Row::Pins(FIRST_WIDE + 2, Said::Refused(PoolFault::NoPage)),
    Row::Pins(u64::MAX, Said::Refused(PoolFault::NoPage)),
    Row::Pins(FIRST_WIDE, Said::At(0, 1)),
    Row::Resident(0, 0, false),
    Row::Loads(0, 0, Said::At(1, 1)),
    Row::Loads(0, FIRST_WIDE, Said::At(0, 1)),
    Row::Writes(0, 1, 0, &[7], Said::Done),
    Row::Unpins(0, 1),
    Row::Loads(0, FIRST_WIDE + 1, Said::At(2, 1)),
    Row::Leaves(0),
    Row::Loads(0, 1, Said::At(1, 2)),
    Row::Resident(0, 0, false),
    Row::Resident(0, FIRST_WIDE, true),
    Row::Resident(0, FIRST_WIDE + 1, true),
];

// A pool of three frames over the device runs the test cases.
fn lives_wide<D: PageDevice>(rt: &impl Abort, alloc: Global, device: D) {
    let history = History::new(alloc);
    let devices = alone(alloc, device).expect(rt, AMPLE);
    let mut pool = pool_of(rt, alloc, 3, 1, devices);
    runs(rt, &mut pool, &history, &ROWS);
    closes(rt, pool);
}

// Whether the page of the device has this byte.
fn has_byte<D: PageDevice>(device: &mut D, no: u64, byte: u8) -> bool {
    let mut page = [0xFF; 1];
    no < device.pages()
        && device.page_size() == 1
        && device.read(no, &mut page) == Ok(())
        && page == [byte]
}

#[test]
fn pages_past_32_bits_come_and_leave(rt: HostRuntime) {
    lives_wide(&rt, rt.alloc(), wide_file(&rt));
    let mut device = wide_file(&rt);
    assert!(rt; has_byte(&mut device, FIRST_WIDE, 7));
    assert!(rt; has_byte(&mut device, 0, 0));
    drop(device);
    fs::remove_file(&rt, PATH).expect(&rt, "the file goes");
}
