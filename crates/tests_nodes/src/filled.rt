//! Pages that are pinned with bytes that are given, by a pool and by a node, over a device that is
//! not honest: of its pages any bytes are believed.
ghost use Rattle.warm_pool.specs.State.{IsRankedByAll, RankedBy};

use std::alloc::Global;
use std::process::Abort;
use test_kit::{alone, page, references, replica};
use warm_devices::{CallsMade, DeviceFault, PageDevice};
use warm_gossip::{Node, NodeFault};
use warm_history::History;
use warm_pool::{Placed, Pool, PoolCounts, PoolFault, Slot};
use warm_stamps::PageId;

const AMPLE: &str = "memory is ample";

// A device of eight pages of 16 bytes, all 11 (hexadecimal). It stores nothing, and counts its
// reads and writes.
#[derive(Drop)]
struct Blank {
    reads: u32,
    writes: u32,
    waiting: bool,
    calls: CallsMade,
}

impl PageDevice for Blank {
    ghost use Rattle.std.specs.Prelude.{[], true, false};

    ghost state = { λ blank. record {
      pages = 8;
      page_size = 16;
      contents = [];
      waiting = blank.waiting;
      failures = 0;
      calls = blank.calls.made;
      honest = false;
      unfailing = true;
    } };

    fn pages(&self) -> u64 {
        8
    }

    fn page_size(&self) -> usize {
        16
    }

    fn waiting(&self) -> bool {
        self.waiting
    }

    fn failures(&self) -> u64 {
        0
    }

    fn read(&mut self, _no: u64, into: &mut [u8]) -> Result<(), DeviceFault> {
        self.calls.note(DeviceFault::Read);
        self.reads = self.reads.saturating_add(1);
        into.fill(0x11);
        Ok(())
    }

    fn write(&mut self, _no: u64, _bytes: &[u8]) -> Result<(), DeviceFault> {
        self.calls.note(DeviceFault::Write);
        self.writes = self.writes.saturating_add(1);
        self.waiting = true;
        Ok(())
    }

    fn flush(&mut self) -> Result<(), DeviceFault> {
        self.calls.note(DeviceFault::Flush);
        self.waiting = false;
        Ok(())
    }
}

fn blank_pool(rt: &impl Abort, alloc: Global, frames: usize) -> Pool<Blank>
    ensures { IsRankedByAll result }
{
    let blank = Blank {
        reads: 0,
        writes: 0,
        waiting: false,
        calls: CallsMade::new(),
    };
    let devices = alone(alloc, blank).expect(rt, AMPLE);
    match Pool::new(alloc, frames, 16, devices) {
        Ok(pool) => pool,
        Err(_) => panic!(rt; "no pool"),
    }
}

// The reads and the writes of the device of the pool.
fn called(pool: &Pool<Blank>) -> (u32, u32) {
    match pool.devices().first() {
        Some(device) => (device.reads, device.writes),
        None => (u32::MAX, u32::MAX),
    }
}

// Whether the slot's page has only bytes of this value.
fn reads(pool: &Pool<Blank>, slot: Slot, wanted: u8) -> bool {
    if !pool.holds(slot) {
        return false;
    }
    let mut bytes = [0; 16];
    pool.read(slot, 0, &mut bytes) == Ok(()) && bytes == [wanted; 16]
}

// What a pin gave: the index and the generation of the slot, and the number of the page that left;
// or the fault.
#[derive(Clone, Copy, PartialEq)]
enum Given {
    At(u32, u64, Option<u64>),
    Refused(PoolFault),
    // The bytes are not a page's.
    Unsized,
}

fn told(found: Result<Placed, PoolFault>) -> Given {
    match found {
        Ok(placed) => {
            let left = match placed.evicted {
                Some(page) => Some(page.no),
                None => None,
            };
            Given::At(placed.slot.index, placed.slot.generation, left)
        }
        Err(fault) => Given::Refused(fault),
    }
}

// Pins a page of device 0 with 16 bytes of this value.
fn filled(pool: &mut Pool<Blank>, history: &History, no: u64, value: u8) -> Given
    requires { RankedBy pool.old history.now }
    ensures { RankedBy pool.new history.now }
{
    if pool.page_size() != 16 {
        return Given::Unsized;
    }
    // No device of this type claims anything of its bytes: so any bytes are allowed.
    let _devices = pool.devices();
    told(pool.pin_filled(page(no), history, &[value; 16]))
}

fn unpin(pool: &mut Pool<Blank>, history: &History, slot: Slot) -> bool
    requires { RankedBy pool.old history.now }
    ensures { RankedBy pool.new history.now }
{
    if !pool.holds(slot) {
        return false;
    }
    pool.unpin(slot);
    true
}

fn write(pool: &mut Pool<Blank>, history: &History, slot: Slot) -> bool
    requires { RankedBy pool.old history.now }
    ensures { RankedBy pool.new history.now }
{
    if !pool.holds(slot) {
        return false;
    }
    pool.write(slot, 0, &[9]) == Ok(())
}

const fn slot(index: u32, generation: u64) -> Slot {
    Slot { index, generation }
}

#[test]
fn a_filled_page_is_not_read(rt: HostRuntime) {
    let alloc = rt.alloc();
    let history = History::new(alloc);
    let mut pool = blank_pool(&rt, alloc, 2);
    assert!(rt; filled(&mut pool, &history, 3, 7) == Given::At(0, 1, None));
    assert!(rt; reads(&pool, slot(0, 1), 7) && pool.dirty() == 0);
    // the page is resident: its bytes stay
    assert!(rt; filled(&mut pool, &history, 3, 8) == Given::At(0, 1, None));
    assert!(rt; reads(&pool, slot(0, 1), 7) && pool.dirty() == 0);
    assert!(rt; filled(&mut pool, &history, 8, 8) == Given::Refused(PoolFault::NoPage));
    assert!(rt; filled(&mut pool, &history, 4, 4) == Given::At(1, 1, None));
    assert!(rt; filled(&mut pool, &history, 5, 5) == Given::Refused(PoolFault::AllFixed));
    let counts = PoolCounts {
        hits: 1,
        misses: 2,
        evictions: 0,
        written_back: 0,
    };
    assert!(rt; pool.counts() == counts && called(&pool) == (0, 0));
    drop(pool);
}

#[test]
fn a_dirty_page_leaves_for_a_filled_one(rt: HostRuntime) {
    let alloc = rt.alloc();
    let history = History::new(alloc);
    let mut pool = blank_pool(&rt, alloc, 1);
    assert!(rt; filled(&mut pool, &history, 1, 1) == Given::At(0, 1, None));
    assert!(rt; write(&mut pool, &history, slot(0, 1)));
    assert!(rt; unpin(&mut pool, &history, slot(0, 1)));
    assert!(rt; filled(&mut pool, &history, 2, 2) == Given::At(0, 2, Some(1)));
    assert!(rt; reads(&pool, slot(0, 2), 2) && pool.dirty() == 0);
    let counts = PoolCounts {
        hits: 0,
        misses: 2,
        evictions: 1,
        written_back: 1,
    };
    assert!(rt; pool.counts() == counts && called(&pool) == (0, 1));
    drop(pool);
}

// ---- a node that is warmed up by a program that reads the pages itself

fn number_of(found: Result<Option<PageId>, NodeFault>) -> Option<u64> {
    match found {
        Ok(Some(page)) => Some(page.no),
        _ => None,
    }
}

// The byte of which the program fills a page of device 0.
fn byte_of(no: u64) -> u8 {
    match u8::try_from(no) {
        Ok(byte) => byte,
        Err(_) => 0,
    }
}

// Pins the page with bytes of its number.
fn node_filled(node: &mut Node<Blank>, no: u64) -> Result<Slot, NodeFault> {
    if node.pool().page_size() != 16 {
        return Err(NodeFault::Memory);
    }
    let _devices = node.pool().devices();
    node.pin_filled(page(no), &[byte_of(no); 16])
}

// The page to read next, which is then pinned with its bytes, and unpinned.
fn stepped(node: &mut Node<Blank>) -> Option<u64> {
    let no = number_of(node.warm_next())?;
    match node_filled(node, no) {
        Ok(slot) if reads(node.pool(), slot, byte_of(no)) => match node.unpin(slot) {
            Ok(()) => Some(no),
            Err(_) => None,
        },
        _ => None,
    }
}

// A node of this many frames, whose hottest pages are 4, 3, 2 and 1.
fn hot(rt: &impl Abort, alloc: Global, frames: usize) -> Node<Blank> {
    let mut node = Node::new(alloc, replica(1), blank_pool(rt, alloc, frames));
    let seen = [
        (0, 1, 1, 1),
        (0, 1, 2, 1),
        (0, 2, 3, 1),
        (0, 2, 4, 1),
        (0, 3, 5, 1),
        (0, 3, 6, 1),
        (0, 4, 7, 1),
        (0, 4, 8, 1),
    ];
    let batch = references(alloc, &seen).expect(rt, AMPLE);
    assert!(rt; node.absorb(&batch).is_ok());
    node
}

#[test]
fn pages_are_named_hottest_first(rt: HostRuntime) {
    let alloc = rt.alloc();
    let mut node = hot(&rt, alloc, 4);
    // naming a page loads nothing
    assert!(rt; number_of(node.warm_next()) == Some(4));
    assert!(rt; number_of(node.warm_next()) == Some(4) && node.pool().resident_count() == 0);
    assert!(rt; stepped(&mut node) == Some(4) && stepped(&mut node) == Some(3));
    // a step that reads by itself goes on from there
    assert!(rt; number_of(node.warm_step()) == Some(2) && called(node.pool()) == (1, 0));
    assert!(rt; stepped(&mut node) == Some(1) && stepped(&mut node) == None);
    assert!(rt; matches!(node.warm_next(), Ok(None)) && called(node.pool()) == (1, 0));
    drop(node);
}

// Cold pages fill the frames: each step puts one of them out, and goes on with the next page of the
// list. A listed page that a pin puts out is named again.
#[test]
fn a_page_that_was_put_out_is_named_again(rt: HostRuntime) {
    let alloc = rt.alloc();
    let mut node = hot(&rt, alloc, 2);
    assert!(rt; matches!(node_filled(&mut node, 6), Ok(_)));
    assert!(rt; matches!(node_filled(&mut node, 7), Ok(_)));
    assert!(rt; number_of(node.warm_next()) == Some(4) && stepped(&mut node) == None);
    assert!(rt; node.unpin(slot(0, 1)).is_ok() && node.unpin(slot(1, 1)).is_ok());
    assert!(rt; stepped(&mut node) == Some(4) && stepped(&mut node) == Some(3));
    assert!(rt; matches!(node.warm_next(), Ok(None)));
    assert!(rt; node.pin(page(4)).is_ok() && matches!(node_filled(&mut node, 5), Ok(_)));
    assert!(rt; number_of(node.warm_next()) == Some(3) && stepped(&mut node) == None);
    drop(node);
}
