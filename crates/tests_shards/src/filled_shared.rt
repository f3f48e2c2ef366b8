//! Pages of shared shards that are pinned with bytes that a thread has read with no turn held, over
//! devices that are not honest: of their pages any bytes are believed.
ghost use Rattle.warm_concurrent.specs.Attached.{AreOf};

use crate::kit::{batch, closed, dirty, more, over, shared_from};
use crate::retired_shared::{of_pool, seen_in};
use std::alloc::Global;
use std::process::Abort;
use std::sync::Wait;
use std::thread::{Threads, join};
use test_kit::page;
use warm_concurrent::{Attached, SharedFault, SharedShards};
use warm_devices::{CallsMade, DeviceFault, PageDevice};
use warm_pool::PoolFault;
use warm_stamps::PageId;

// A device of 64 pages of 16 bytes, all 11 (hexadecimal). It stores nothing, and counts its reads.
#[derive(Drop)]
struct Blank {
    reads: u32,
    waiting: bool,
    calls: CallsMade,
}

impl PageDevice for Blank {
    ghost use Rattle.std.specs.Prelude.{[], true, false};

    ghost state = { λ blank. record {
      pages = 64;
      page_size = 16;
      contents = [];
      waiting = blank.waiting;
      failures = 0;
      calls = blank.calls.made;
      honest = false;
      unfailing = true;
    } };

    fn pages(&self) -> u64 {
        64
    }

    fn page_size(&self) -> usize {
        16
    }

    fn waiting(&self) -> bool {
        self.waiting
    }

    fn failures(&self) -> u64 {
        0
    }

    fn read(&mut self, _no: u64, into: &mut [u8]) -> Result<(), DeviceFault> {
        self.calls.note(DeviceFault::Read);
        self.reads = self.reads.saturating_add(1);
        into.fill(0x11);
        Ok(())
    }

    fn write(&mut self, _no: u64, _bytes: &[u8]) -> Result<(), DeviceFault> {
        self.calls.note(DeviceFault::Write);
        self.waiting = true;
        Ok(())
    }

    fn flush(&mut self) -> Result<(), DeviceFault> {
        self.calls.note(DeviceFault::Flush);
        self.waiting = false;
        Ok(())
    }
}

fn new_blank() -> Blank {
    Blank {
        reads: 0,
        waiting: false,
        calls: CallsMade::new(),
    }
}

type Shared = SharedShards<Blank>;

type Thread = Attached<Blank>;

// Two shards of four frames each.
fn two(rt: &impl Abort, alloc: Global) -> (Shared, Thread)
    ensures { AreOf result.0 result.1.passes }
{
    shared_from(rt, alloc, over(rt, alloc, new_blank(), new_blank()))
}

// How many reads the devices of closed shards made, and how many of their pages are dirty.
fn left(rt: &impl Abort, alloc: Global, shared: Shared, thread: Thread) -> (u32, usize)
    requires { AreOf shared thread.passes }
{
    let nodes = closed(rt, alloc, shared, thread);
    let mut reads = 0u32;
    for node in &nodes {
        if let Some(device) = node.pool().devices().first() {
            reads = reads.wrapping_add(device.reads);
        }
    }
    (reads, dirty(&nodes))
}

// The byte of which a thread's read fills a page.
fn byte_of(no: u64) -> u8 {
    match u8::try_from(no) {
        Ok(byte) => byte,
        Err(_) => 0,
    }
}

// Pins a page with bytes of this value, looks at it, and unpins it. Its first byte.
fn filled<R: Wait>(
    rt: &R,
    shared: &Shared,
    thread: &mut Thread,
    no: u64,
    byte: u8,
) -> Result<u8, SharedFault>
    requires { AreOf shared.now thread.old.passes }
    ensures { AreOf shared.now thread.new.passes }
{
    let at = shared.pin_filled(rt, thread, page(no), &[byte; 16])?;
    let seen = seen_in(rt, shared, thread, no)?;
    shared.unpin(rt, thread, at)?;
    Ok(seen)
}

#[test]
fn a_page_is_pinned_with_bytes_that_were_read(rt: HostRuntime) {
    let alloc = rt.alloc();
    let (shared, mut first) = two(&rt, alloc);
    let at = shared.pin_filled(&rt, &mut first, page(3), &[7; 16]);
    let at = at.ok().expect(&rt, "page 3 is pinned");
    assert!(rt; at.shard == 1 && first.pins() == 1);
    assert!(rt; seen_in(&rt, &shared, &mut first, 3) == Ok(7));
    // The page is resident: its bytes stay.
    assert!(rt; filled(&rt, &shared, &mut first, 3, 8) == Ok(7));
    assert!(rt; shared.unpin(&rt, &mut first, at).is_ok());
    let short = shared.pin_filled(&rt, &mut first, page(2), &[7; 15]);
    assert!(rt; short == Err(of_pool(PoolFault::SizeDiffers)));
    let beyond = filled(&rt, &shared, &mut first, 64, 7);
    assert!(rt; beyond == Err(of_pool(PoolFault::NoPage)));
    assert!(rt; first.pins() == 0);
    // No shard has page 2: it is read.
    assert!(rt; seen_in(&rt, &shared, &mut first, 2) == Ok(0x11));
    assert!(rt; left(&rt, alloc, shared, first) == (1, 0));
}

// Fills pages of both shards, two of four, from this number on. Whether each had its bytes.
fn are_filled<R: Wait>(rt: &R, shared: &Shared, mut thread: Thread, first: u64) -> (Thread, bool)
    requires { AreOf shared.now thread.passes }
    ensures { AreOf shared.now result.0.passes }
{
    for round in 0..16u64 {
        let no = first.wrapping_add(round.wrapping_mul(4));
        if filled(rt, shared, &mut thread, no, byte_of(no)) != Ok(byte_of(no)) {
            return (thread, false);
        }
        let next = no.wrapping_add(1);
        if filled(rt, shared, &mut thread, next, byte_of(next)) != Ok(byte_of(next)) {
            return (thread, false);
        }
    }
    (thread, true)
}

// Two threads fill pages at once, each its own, and what they have is ended into the first.
fn both_filled<R: Threads + Wait + Abort + Sync>(
    rt: &R,
    shared: &Shared,
    first: Thread,
    second: Thread,
) -> Thread
    requires { (AreOf shared.now first.passes) × (AreOf shared.now second.passes) }
    ensures { AreOf shared.now result.passes }
{
    let ((mut first, one), (second, two)) = join(
        rt,
        move || -> (Thread, bool)
            requires { AreOf shared.now first.passes }
            ensures { AreOf shared.entry.now result.0.passes }
        { are_filled(rt, shared, first, 0) },
        move || -> (Thread, bool)
            requires { AreOf shared.now second.passes }
            ensures { AreOf shared.entry.now result.0.passes }
        { are_filled(rt, shared, second, 2) },
    );
    assert!(rt; one && two);
    let Ok(()) = shared.detach(&mut first, second) else {
        panic!(rt; "no pin is held")
    };
    first
}

// 64 pages go through eight frames, and no device is read.
#[test]
fn two_threads_fill_pages_of_both_shards(rt: HostRuntime) {
    let alloc = rt.alloc();
    let (shared, mut first) = two(&rt, alloc);
    let second = more(&rt, alloc, &shared, &mut first);
    let first = both_filled(&rt, &shared, first, second);
    assert!(rt; left(&rt, alloc, shared, first) == (0, 0));
}

// The page that a warm-up step of a shard would load.
fn next_of<R: Wait>(
    rt: &R,
    shared: &Shared,
    thread: &mut Thread,
    shard: usize,
) -> Result<Option<PageId>, SharedFault>
    requires { AreOf shared.now thread.old.passes }
    ensures { AreOf shared.now thread.new.passes }
{
    if shard >= shared.count() {
        return Ok(None);
    }
    let page = shared.warm_next(rt, thread, shard)?;
    Ok(page)
}

#[test]
fn a_thread_warms_a_shard_up_with_what_it_read(rt: HostRuntime) {
    let alloc = rt.alloc();
    let (shared, mut first) = two(&rt, alloc);
    let given = batch(
        &rt,
        alloc,
        &[(0, 1, 2, 1), (0, 5, 3, 1), (0, 1, 4, 1), (0, 2, 5, 1)],
    );
    assert!(rt; shared.absorb(&rt, alloc, &mut first, &given).is_ok());
    assert!(rt; next_of(&rt, &shared, &mut first, 1) == Ok(Some(page(1))));
    assert!(rt; next_of(&rt, &shared, &mut first, 1) == Ok(Some(page(1))));
    assert!(rt; filled(&rt, &shared, &mut first, 1, 1) == Ok(1));
    assert!(rt; next_of(&rt, &shared, &mut first, 1) == Ok(Some(page(5))));
    assert!(rt; filled(&rt, &shared, &mut first, 5, 5) == Ok(5));
    assert!(rt; next_of(&rt, &shared, &mut first, 1) == Ok(None));
    assert!(rt; next_of(&rt, &shared, &mut first, 0) == Ok(Some(page(2))));
    assert!(rt; left(&rt, alloc, shared, first) == (0, 0));
}
