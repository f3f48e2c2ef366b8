//! Pools: where pages go, what is refused, and what is unchanged if a device fails. A test is a
//! list of test cases (`Row`), each a call and its expected result. Each call is in a function of
//! its own, whose contract keeps the history by which the pool is ranked: so the proof of a test
//! does not grow with its cases.
//!
//! What must not fail ends the process if it does: a `?` would be one more exit path, on which the
//! drops of all owned values are proved.
ghost use Rattle.std.specs.Prelude.{◌≤◌, length};
ghost use Rattle.warm_pool.specs.Unchanged.{KeepsRanks};
ghost use Rattle.warm_pool.specs.State.{IsRankedByAll, RankedBy};

mod counts;
mod engine;
mod handed_back;
mod let_go;
mod limits;
mod placed;
mod ranks;
mod wide;

use std::alloc::Global;
use std::process::Abort;
use test_kit::{alone, both, flaky, memory, page, page_on};
use warm_devices::{DeviceFault, MemDevice, PageDevice};
use warm_history::History;
use warm_pool::{FailedCall, NewPoolFault, Pool, PoolCounts, PoolFault, RetireError, Slot};
use warm_stamps::PageId;

const fn slot(index: u32, generation: u64) -> Slot {
    Slot { index, generation }
}

const AMPLE: &str = "memory is ample";

fn pool_of<D: PageDevice>(
    rt: &impl Abort,
    alloc: Global,
    frames: usize,
    page_size: usize,
    devices: Vec<D>,
) -> Pool<D>
    requires { length devices.items ≤ 65536 }
    ensures { IsRankedByAll result }
{
    match Pool::new(alloc, frames, page_size, devices) {
        Ok(pool) => pool,
        Err(_) => panic!(rt; "no pool"),
    }
}

fn pool_over<D: PageDevice>(rt: &impl Abort, alloc: Global, frames: usize, device: D) -> Pool<D>
    ensures { IsRankedByAll result }
{
    let devices = alone(alloc, device).expect(rt, AMPLE);
    pool_of(rt, alloc, frames, 16, devices)
}

// The result of a call of a pool: success, the index and the generation of a slot, or the fault.
#[derive(Clone, Copy, PartialEq)]
enum Said {
    Done,
    At(u32, u64),
    Refused(PoolFault),
    // The slot does not hold its page, so the pool was not called.
    Unheld,
}

fn given(found: Result<Slot, PoolFault>) -> Said {
    match found {
        Ok(slot) => Said::At(slot.index, slot.generation),
        Err(fault) => Said::Refused(fault),
    }
}

fn done(found: Result<(), PoolFault>) -> Said {
    match found {
        Ok(()) => Said::Done,
        Err(fault) => Said::Refused(fault),
    }
}

fn pinned<D: PageDevice>(pool: &mut Pool<D>, history: &History, no: u64) -> Said
    requires { RankedBy pool.old history.now }
    ensures { RankedBy pool.new history.now }
{
    given(pool.pin(page(no), history))
}

fn loaded<D: PageDevice>(pool: &mut Pool<D>, history: &History, page: PageId) -> Said
    requires { RankedBy pool.old history.now }
    ensures { RankedBy pool.new history.now }
{
    given(pool.load(page, history))
}

// Unpins a slot; returns whether it holds its page.
fn unpin<D: PageDevice>(pool: &mut Pool<D>, history: &History, slot: Slot) -> bool
    requires { RankedBy pool.old history.now }
    ensures { RankedBy pool.new history.now }
{
    if !pool.holds(slot) {
        return false;
    }
    pool.unpin(slot);
    true
}

fn write<D: PageDevice>(
    pool: &mut Pool<D>,
    history: &History,
    slot: Slot,
    at: usize,
    bytes: &[u8],
) -> Said
    requires { RankedBy pool.old history.now }
    ensures { RankedBy pool.new history.now }
{
    if !pool.holds(slot) {
        return Said::Unheld;
    }
    done(pool.write(slot, at, bytes))
}

// Whether the slot's page has these bytes.
fn reads<D: PageDevice>(pool: &Pool<D>, slot: Slot, wanted: &[u8; 16]) -> bool {
    if !pool.holds(slot) {
        return false;
    }
    let mut bytes = [0; 16];
    pool.read(slot, 0, &mut bytes) == Ok(()) && bytes == *wanted
}

fn retire<D: PageDevice>(
    pool: &mut Pool<D>,
    history: &History,
    dev: u16,
    device: D,
) -> Result<(), RetireError<D>>
    requires { RankedBy pool.old history.now }
    ensures { RankedBy pool.new history.now }
{
    pool.retire(dev, device)
}

fn emptied<D: PageDevice>(pool: &mut Pool<D>, history: &History) -> Said
    requires { RankedBy pool.old history.now }
    ensures { RankedBy pool.new history.now }
{
    done(pool.empty())
}

fn written_back<D: PageDevice>(pool: &mut Pool<D>, history: &History) -> Said
    requires { RankedBy pool.old history.now }
    ensures { RankedBy pool.new history.now }
{
    done(pool.write_back_all())
}

// The pool, which cannot be closed because of a pinned page.
fn not_closed<D: PageDevice>(rt: &impl Abort, pool: Pool<D>, history: &History) -> Pool<D>
    requires { RankedBy pool history.now }
    ensures { RankedBy result history.now }
{
    match pool.close() {
        Ok(()) => panic!(rt; "the pool is not closed"),
        Err(unclosed) => {
            assert!(rt; unclosed.fault == PoolFault::Fixed);
            unclosed.pool
        }
    }
}

// Closes the pool, which succeeds.
fn closes<D: PageDevice>(rt: &impl Abort, pool: Pool<D>) {
    assert!(rt; pool.close().is_ok());
}

// Replaces a device with this one, which succeeds.
fn exchange<D: PageDevice>(
    rt: &impl Abort,
    pool: &mut Pool<D>,
    history: &History,
    dev: u16,
    device: D,
)
    requires { RankedBy pool.old history.now }
    ensures { RankedBy pool.new history.now }
{
    assert!(rt; retire(pool, history, dev, device).is_ok());
}

// The slot of a page that is pinned here.
fn held<D: PageDevice>(pool: &mut Pool<D>, history: &History, no: u64) -> Option<Slot>
    requires { RankedBy pool.old history.now }
    ensures { RankedBy pool.new history.now }
{
    match pinned(pool, history, no) {
        Said::At(index, generation) => Some(slot(index, generation)),
        _ => None,
    }
}

// Pins and unpins a page; returns whether both succeeded.
fn visits<D: PageDevice>(pool: &mut Pool<D>, history: &History, no: u64) -> bool
    requires { RankedBy pool.old history.now }
    ensures { RankedBy pool.new history.now }
{
    match held(pool, history, no) {
        Some(slot) => unpin(pool, history, slot),
        None => false,
    }
}

// Fills a page with AA, which is not written back yet; returns whether that succeeded.
fn fills<D: PageDevice>(pool: &mut Pool<D>, history: &History, no: u64) -> bool
    requires { RankedBy pool.old history.now }
    ensures { RankedBy pool.new history.now }
{
    match held(pool, history, no) {
        Some(slot) => {
            let given = write(pool, history, slot, 0, &[0xAA; 16]);
            given == Said::Done && unpin(pool, history, slot)
        }
        None => false,
    }
}

// Pins and unpins a page; returns whether both succeeded and it has these bytes.
fn finds<D: PageDevice>(pool: &mut Pool<D>, history: &History, no: u64, wanted: &[u8; 16]) -> bool
    requires { RankedBy pool.old history.now }
    ensures { RankedBy pool.new history.now }
{
    match held(pool, history, no) {
        Some(slot) => reads(pool, slot, wanted) && unpin(pool, history, slot),
        None => false,
    }
}

// A test case: a call of a pool, and its expected result. Slots are given by their index and their
// generation, and pages by their number on device 0, or by the number of the device and their
// number on it: plain numbers, since each function call in a test's cases is proved there.
#[derive(Clone, Copy)]
enum Row<'a> {
    // A page is pinned.
    Pins(u64, Said),
    // A page of a device is loaded, without a pin.
    Loads(u16, u64, Said),
    // A slot is unpinned.
    Unpins(u32, u64),
    // A page is pinned and unpinned.
    Visits(u64),
    // A page is filled with AA, which is not written back yet.
    Fills(u64),
    // A page has these bytes.
    Finds(u64, &'a [u8; 16]),
    // Bytes are written into the slot's page, from an offset on.
    Writes(u32, u64, usize, &'a [u8], Said),
    // The next victim, or that there is none.
    Leaves(u64),
    NoneLeaves,
    // Whether the slot holds its page.
    Holds(u32, u64, bool),
    // Whether the page of a device is in a frame.
    Resident(u16, u64, bool),
    // Whether the page is on a device.
    Has(u64, bool),
    // The number of frames.
    Frames(usize),
    // The hits, misses, evictions and pages written back so far.
    Counts(u64, u64, u64, u64),
    // The numbers of resident and of dirty pages.
    Sizes(usize, usize),
    // The call of a device that failed last, if one has: the device, the page, and what was done.
    Failed(u16, Option<u64>, DeviceFault),
    NoneFailed,
    // Dirty pages are written back.
    WritesBack(Said),
    // The frames are emptied.
    Empties(Said),
}

const fn counted(hits: u64, misses: u64, evictions: u64, written_back: u64) -> PoolCounts {
    PoolCounts {
        hits,
        misses,
        evictions,
        written_back,
    }
}

// Whether a test case that changes nothing gives its expected result.
fn shows<D: PageDevice>(rt: &impl Abort, pool: &mut Pool<D>, row: Row<'_>) -> bool
    ensures { KeepsRanks pool.old pool.new }
{
    match row {
        Row::Leaves(no) => pool.victim() == Some(page(no)),
        Row::NoneLeaves => pool.victim().is_none(),
        Row::Holds(index, generation, wanted) => pool.holds(slot(index, generation)) == wanted,
        Row::Resident(dev, no, wanted) => pool.resident(page_on(dev, no)) == wanted,
        Row::Has(no, wanted) => pool.has(page(no)) == wanted,
        Row::Frames(wanted) => pool.frames() == wanted,
        Row::Counts(hits, misses, evictions, written_back) => {
            pool.counts() == counted(hits, misses, evictions, written_back)
        }
        Row::Sizes(resident, dirty) => pool.resident_count() == resident && pool.dirty() == dirty,
        Row::Failed(dev, page, what) => {
            pool.last_failure() == Some(FailedCall { dev, page, what })
        }
        Row::NoneFailed => pool.last_failure().is_none(),
        _ => panic!(rt; "no such row"),
    }
}

// Runs a test case; returns whether it gives its expected result.
fn meets<D: PageDevice>(
    rt: &impl Abort,
    pool: &mut Pool<D>,
    history: &History,
    row: Row<'_>,
) -> bool
    requires { RankedBy pool.old history.now }
    ensures { RankedBy pool.new history.now }
{
    match row {
        Row::Pins(no, wanted) => pinned(pool, history, no) == wanted,
        Row::Loads(dev, no, wanted) => loaded(pool, history, page_on(dev, no)) == wanted,
        Row::Unpins(index, generation) => unpin(pool, history, slot(index, generation)),
        Row::Visits(no) => visits(pool, history, no),
        Row::Fills(no) => fills(pool, history, no),
        Row::Finds(no, wanted) => finds(pool, history, no, wanted),
        Row::Writes(index, generation, from, bytes, wanted) => {
            write(pool, history, slot(index, generation), from, bytes) == wanted
        }
        Row::WritesBack(wanted) => written_back(pool, history) == wanted,
        Row::Empties(wanted) => emptied(pool, history) == wanted,
        shown => shows(rt, pool, shown),
    }
}

// Runs the test cases on a pool, in turn.
fn runs<D: PageDevice>(rt: &impl Abort, pool: &mut Pool<D>, history: &History, rows: &[Row<'_>])
    requires { RankedBy pool.old history.now }
    ensures { RankedBy pool.new history.now }
{
    for (at, row) in rows.iter().enumerate() {
        assert!(rt; meets(rt, pool, history, *row), "row {at}");
    }
}

// A fresh pool of this number of frames over the device runs the test cases, with an empty history,
// and is closed.
fn lives<D: PageDevice>(
    rt: &impl Abort,
    alloc: Global,
    frames: usize,
    device: D,
    rows: &[Row<'_>],
) {
    let history = History::new(alloc);
    let mut pool = pool_over(rt, alloc, frames, device);
    runs(rt, &mut pool, &history, rows);
    closes(rt, pool);
}

// The device, which the pool refuses to take with this fault.
fn unretired<D: PageDevice>(
    rt: &impl Abort,
    pool: &mut Pool<D>,
    history: &History,
    dev: u16,
    device: D,
    fault: PoolFault,
) -> D
    requires { RankedBy pool.old history.now }
    ensures { RankedBy pool.new history.now }
{
    match retire(pool, history, dev, device) {
        Ok(()) => panic!(rt; "the device is not exchanged"),
        Err(unretired) => {
            assert!(rt; unretired.fault == fault);
            unretired.device
        }
    }
}

// One page number on two devices names two pages, and the frames of a replaced device are free.
#[test]
fn pages_of_two_devices_are_apart(rt: HostRuntime) {
    let alloc = rt.alloc();
    let history = History::new(alloc);
    let first = memory(alloc, 16).expect(&rt, AMPLE);
    let second = memory(alloc, 128).expect(&rt, AMPLE);
    let next = memory(alloc, 8).expect(&rt, AMPLE);
    let devices = both(alloc, first, second).expect(&rt, AMPLE);
    let mut pool = pool_of(&rt, alloc, 2, 16, devices);
    let rows = [
        Row::Loads(1, 7, Said::At(0, 1)),
        Row::Resident(0, 7, false),
        Row::Loads(0, 7, Said::At(1, 1)),
        Row::Loads(1, 7, Said::At(0, 1)),
    ];
    runs(&rt, &mut pool, &history, &rows);
    exchange(&rt, &mut pool, &history, 1, next);
    let rows = [
        Row::Resident(1, 7, false),
        Row::Resident(0, 7, true),
        Row::Loads(0, 8, Said::At(0, 2)),
    ];
    runs(&rt, &mut pool, &history, &rows);
    closes(&rt, pool);
}

// Pinned pages prevent the replacement of their device by another, which is given back.
fn kept_by_fixes<D: PageDevice>(
    rt: &impl Abort,
    pool: &mut Pool<D>,
    history: &History,
    device: D,
) -> D
    requires { RankedBy pool.old history.now }
    ensures { RankedBy pool.new history.now }
{
    let rows = [
        Row::Pins(3, Said::At(0, 1)),
        Row::Pins(4, Said::At(1, 1)),
        Row::Unpins(1, 1),
        Row::Leaves(4),
        Row::Loads(0, 5, Said::At(1, 2)),
        Row::Holds(1, 2, false),
        Row::Resident(0, 4, false),
        Row::Pins(5, Said::At(1, 2)),
        Row::Writes(1, 2, 15, &[1, 2], Said::Refused(PoolFault::OutOfPage)),
    ];
    runs(rt, pool, history, &rows);
    let device = unretired(rt, pool, history, 1, device, PoolFault::NoDevice);
    unretired(rt, pool, history, 0, device, PoolFault::Fixed)
}

// Without pins the device is replaced by one of four pages.
fn let_go_unfixed<D: PageDevice>(rt: &impl Abort, pool: &mut Pool<D>, history: &History, device: D)
    requires { RankedBy pool.old history.now }
    ensures { RankedBy pool.new history.now }
{
    let rows = [
        Row::Empties(Said::Refused(PoolFault::Fixed)),
        Row::Unpins(0, 1),
        Row::Unpins(1, 2),
    ];
    runs(rt, pool, history, &rows);
    exchange(rt, pool, history, 0, device);
    let rows = [
        Row::Has(5, false),
        Row::Pins(5, Said::Refused(PoolFault::NoPage)),
        Row::Frames(2),
    ];
    runs(rt, pool, history, &rows)
}

#[test]
fn two_frames_over_eight_pages(rt: HostRuntime) {
    let alloc = rt.alloc();
    let history = History::new(alloc);
    let first = memory(alloc, 8).expect(&rt, AMPLE);
    let next = memory(alloc, 4).expect(&rt, AMPLE);
    let mut pool = pool_over(&rt, alloc, 2, first);
    let device = kept_by_fixes(&rt, &mut pool, &history, next);
    let mut pool = not_closed(&rt, pool, &history);
    let_go_unfixed(&rt, &mut pool, &history, device);
    closes(&rt, pool);
}

// Why a pool over the device is not made, and how many devices are given back.
fn unmade<D: PageDevice>(
    rt: &impl Abort,
    alloc: Global,
    frames: usize,
    page_size: usize,
    device: D,
) -> (NewPoolFault, usize) {
    let devices = alone(alloc, device).expect(rt, AMPLE);
    match Pool::new(alloc, frames, page_size, devices) {
        Ok(_) => panic!(rt; "the pool is made"),
        Err(unmade) => (unmade.fault, unmade.devices.len()),
    }
}

#[test]
fn refused_pools_give_their_devices_back(rt: HostRuntime) {
    let alloc = rt.alloc();
    for (frames, page_size, own, fault) in [
        (0, 16, 16, NewPoolFault::BadFrames),
        (65_537, 16, 16, NewPoolFault::BadFrames),
        (2, 8, 16, NewPoolFault::SizeDiffers),
        (2, 0, 0, NewPoolFault::SizeDiffers),
        (2, 65_537, 65_537, NewPoolFault::SizeDiffers),
    ] {
        let device = MemDevice::new(alloc, 2, own).expect(&rt, AMPLE);
        assert!(rt; unmade(&rt, alloc, frames, page_size, device) == (fault, 1));
    }
}

#[test]
fn a_dirty_victim_stays_where_its_write_fails(rt: HostRuntime) {
    let rows = [
        Row::Fills(1),
        Row::Pins(2, Said::Refused(PoolFault::WriteBack)),
        Row::Resident(0, 1, true),
        Row::Resident(0, 2, false),
        Row::Visits(2),
        Row::Finds(1, &[0xAA; 16]),
    ];
    let device = flaky(rt.alloc(), 8, 3).expect(&rt, AMPLE);
    lives(&rt, rt.alloc(), 1, device, &rows)
}

fn stays_unflushed<D: PageDevice>(rt: &impl Abort, pool: &mut Pool<D>, history: &History, device: D)
    requires { RankedBy pool.old history.now }
    ensures { RankedBy pool.new history.now }
{
    assert!(rt; fills(pool, history, 1));
    let device = unretired(rt, pool, history, 0, device, PoolFault::Fault);
    let rows = [Row::Resident(0, 1, true), Row::Finds(1, &[0xAA; 16])];
    runs(rt, pool, history, &rows);
    exchange(rt, pool, history, 0, device);
    assert!(rt; !pool.resident(page(1)));
}

#[test]
fn a_device_stays_where_its_flush_fails(rt: HostRuntime) {
    let alloc = rt.alloc();
    let history = History::new(alloc);
    let failing = flaky(alloc, 8, 3).expect(&rt, AMPLE);
    let next = flaky(alloc, 8, 0).expect(&rt, AMPLE);
    let mut pool = pool_over(&rt, alloc, 1, failing);
    stays_unflushed(&rt, &mut pool, &history, next);
    closes(&rt, pool);
}

#[test]
fn an_emptied_pool_keeps_its_pages(rt: HostRuntime) {
    let bytes = [0, 0, 0, 0, 0, 0, 0, 0, 0, 0, 0, 0, 0, 0, 7, 8];
    let rows = [
        Row::Pins(6, Said::At(0, 1)),
        Row::Writes(0, 1, 14, &[7, 8], Said::Done),
        Row::Unpins(0, 1),
        Row::WritesBack(Said::Done),
        Row::Resident(0, 6, true),
        Row::Empties(Said::Done),
        Row::Resident(0, 6, false),
        Row::NoneLeaves,
        Row::Pins(6, Said::At(0, 2)),
        Row::Finds(6, &bytes),
        Row::Unpins(0, 2),
    ];
    let device = memory(rt.alloc(), 8).expect(&rt, AMPLE);
    lives(&rt, rt.alloc(), 2, device, &rows)
}

#[test]
fn a_page_stays_out_where_no_frame_or_no_byte_is_to_be_had(rt: HostRuntime) {
    let rows = [
        Row::Pins(1, Said::Refused(PoolFault::ReadFault)),
        Row::Resident(0, 1, false),
        Row::Pins(1, Said::At(0, 1)),
        Row::Pins(2, Said::Refused(PoolFault::AllFixed)),
        Row::Resident(0, 1, true),
        Row::NoneLeaves,
        Row::Unpins(0, 1),
    ];
    let device = flaky(rt.alloc(), 8, 1).expect(&rt, AMPLE);
    lives(&rt, rt.alloc(), 1, device, &rows)
}
