//! Up to eight threads over shared shards at once: the bytes and the history that they leave,
//! devices that fail under two of the shards, and pins that threads still hold at the end.
ghost use Rattle.std.specs.Prelude.{◌≡◌};
ghost use Rattle.warm_concurrent.specs.Attached.{AreOf};

use crate::kit::{closed, dirty, more, node_over, shared_from};
use std::alloc::Global;
use std::process::Abort;
use std::sync::Wait;
use std::thread::{Threads, join};
use test_kit::{flaky, page, replica, seen, twice};
use warm_concurrent::{Attached, NotClosed, SharedFault, SharedShards};
use warm_devices::{Flaky, MemDevice, PageDevice};
use warm_gossip::Node;
use warm_history::History;
use warm_shards::{ShardSlot, Shards};
use warm_stamps::{ByteList, PageId};

type Device = Flaky<MemDevice>;

// Shared shards over devices whose calls of these numbers fail, 0 for none, with a frame for each
// of eight threads; and what the first thread has of them.
fn shared_over(
    rt: &impl Abort,
    alloc: Global,
    failing: &[u64],
) -> (SharedShards<Device>, Attached<Device>)
    ensures { AreOf result.0 result.1.passes }
{
    let mut nodes = Vec::new(alloc);
    for n in failing {
        let device = flaky(alloc, 256, *n).expect(rt, "memory for a device");
        let Ok(()) = nodes.push(node_over(rt, alloc, 1, 8, device)) else {
            panic!(rt; "memory for nodes")
        };
    }
    let Ok(shards) = Shards::new(alloc, replica(1), nodes) else {
        panic!(rt; "no shards")
    };
    shared_from(rt, alloc, shards)
}

// Each thread goes over these pages in turn, and is in each of its rounds one page ahead of the
// thread before it.
const PAGES: u64 = 64;

// The rounds of a thread: it is at each page four times.
const ROUNDS: u64 = 256;

fn page_of(thread: u64, round: u64) -> u64 {
    round.wrapping_add(thread) % PAGES
}

// The last round in which a thread is at a page.
fn last_round(thread: u64, no: u64) -> u64 {
    let rounds_in = no.wrapping_add(PAGES).wrapping_sub(thread) % PAGES;
    rounds_in.wrapping_add(ROUNDS).wrapping_sub(PAGES)
}

// A page beyond them, of another shard, to which each round at the page has a reference too.
fn beyond(no: u64) -> PageId {
    page(PAGES.wrapping_add(no ^ 1))
}

// The time of a round: no two rounds of eight threads have one time.
fn time_of(thread: u64, round: u64) -> u64 {
    round.wrapping_mul(8).wrapping_add(thread).wrapping_add(1)
}

// The byte that a round writes.
fn byte_of(round: u64) -> u8 {
    (round & 0xFF) as u8
}

// One round: two references are absorbed, by two shards, the page is pinned, a byte of the thread's
// own place is written and read, and the page is unpinned. Whether all was answered.
fn is_served<R: Wait + Abort>(
    rt: &R,
    alloc: Global,
    shared: &SharedShards<Device>,
    attached: &mut Attached<Device>,
    thread: u64,
    round: u64,
) -> bool
    requires { AreOf shared.now attached.old.passes }
    ensures { AreOf shared.now attached.new.passes }
{
    let no = page_of(thread, round);
    let time = time_of(thread, round);
    let both = [seen(page(no), time, 1), seen(beyond(no), time, 1)];
    if shared.absorb(rt, alloc, attached, &both).is_err() {
        return false;
    }
    let Ok(at) = shared.pin(rt, attached, page(no)) else {
        return false;
    };
    let place = (thread % 16) as usize;
    let byte = byte_of(round);
    let bytes = vec![in alloc; byte; 1].expect(rt, "memory for a byte");
    let written = shared.write(rt, attached, at, place, ByteList::of(bytes));
    let Ok(read) = shared.read(rt, attached, at, place, 1) else {
        return false;
    };
    let unpinned = shared.unpin(rt, attached, at);
    written.is_ok() && unpinned.is_ok() && read.as_slice() == [byte].as_slice()
}

// All rounds of a thread, and how many were served.
fn served<R: Wait + Abort>(
    rt: &R,
    alloc: Global,
    shared: &SharedShards<Device>,
    attached: Attached<Device>,
    thread: u64,
) -> (Attached<Device>, u64)
    requires { AreOf shared.now attached.passes }
    ensures { AreOf shared.now result.0.passes }
{
    let mut attached = attached;
    let mut count = 0u64;
    for round in 0..ROUNDS {
        if is_served(rt, alloc, shared, &mut attached, thread, round) {
            count = count.wrapping_add(1);
        }
    }
    (attached, count)
}

// What one thread has, after what another has was ended into it, and how many rounds of both were
// served.
fn ended(
    rt: &impl Abort,
    shared: &SharedShards<Device>,
    one: (Attached<Device>, u64),
    other: (Attached<Device>, u64),
) -> (Attached<Device>, u64)
    requires { (AreOf shared.now one.0.passes) × (AreOf shared.now other.0.passes) }
    ensures { AreOf shared.now result.0.passes }
{
    let (mut attached, count) = one;
    let (more, more_count) = other;
    assert!(rt; shared.detach(&mut attached, more).is_ok());
    (attached, count.wrapping_add(more_count))
}

// Two threads make their rounds at once, the first with this number. How many rounds of both were
// served.
fn served_by_two<R: Threads + Wait + Abort + Sync>(
    rt: &R,
    alloc: Global,
    shared: &SharedShards<Device>,
    attached: Attached<Device>,
    first: u64,
) -> (Attached<Device>, u64)
    requires { AreOf shared.now attached.passes }
    ensures { AreOf shared.now result.0.passes }
{
    let mut attached = attached;
    let other = more(rt, alloc, shared, &mut attached);
    let (one, two) = join(
        rt,
        move || -> (Attached<Device>, u64)
            requires { AreOf shared.now attached.passes }
            ensures { AreOf shared.entry.now result.0.passes }
        { served(rt, alloc, shared, attached, first) },
        move || -> (Attached<Device>, u64)
            requires { AreOf shared.now other.passes }
            ensures { AreOf shared.entry.now result.0.passes }
        { served(rt, alloc, shared, other, first.wrapping_add(1)) },
    );
    ended(rt, shared, one, two)
}

// Four threads make their rounds at once, the first with this number.
fn served_by_four<R: Threads + Wait + Abort + Sync>(
    rt: &R,
    alloc: Global,
    shared: &SharedShards<Device>,
    attached: Attached<Device>,
    first: u64,
) -> (Attached<Device>, u64)
    requires { AreOf shared.now attached.passes }
    ensures { AreOf shared.now result.0.passes }
{
    let mut attached = attached;
    let other = more(rt, alloc, shared, &mut attached);
    let (one, two) = join(
        rt,
        move || -> (Attached<Device>, u64)
            requires { AreOf shared.now attached.passes }
            ensures { AreOf shared.entry.now result.0.passes }
        { served_by_two(rt, alloc, shared, attached, first) },
        move || -> (Attached<Device>, u64)
            requires { AreOf shared.now other.passes }
            ensures { AreOf shared.entry.now result.0.passes }
        { served_by_two(rt, alloc, shared, other, first.wrapping_add(2)) },
    );
    ended(rt, shared, one, two)
}

// Eight threads make their rounds at once, the first with this number.
fn served_by_eight<R: Threads + Wait + Abort + Sync>(
    rt: &R,
    alloc: Global,
    shared: &SharedShards<Device>,
    attached: Attached<Device>,
    first: u64,
) -> (Attached<Device>, u64)
    requires { AreOf shared.now attached.passes }
    ensures { AreOf shared.now result.0.passes }
{
    let mut attached = attached;
    let other = more(rt, alloc, shared, &mut attached);
    let (one, two) = join(
        rt,
        move || -> (Attached<Device>, u64)
            requires { AreOf shared.now attached.passes }
            ensures { AreOf shared.entry.now result.0.passes }
        { served_by_four(rt, alloc, shared, attached, first) },
        move || -> (Attached<Device>, u64)
            requires { AreOf shared.now other.passes }
            ensures { AreOf shared.entry.now result.0.passes }
        { served_by_four(rt, alloc, shared, other, first.wrapping_add(4)) },
    );
    ended(rt, shared, one, two)
}

// Whether each byte of a page is that of the last round in which its thread was there. The other
// bytes are 0.
fn is_as_written(bytes: &[u8], threads: u64, no: u64) -> bool {
    let mut thread = 0u64;
    for byte in bytes {
        let wanted = if thread < threads {
            byte_of(last_round(thread, no))
        } else {
            0
        };
        if *byte != wanted {
            return false;
        }
        thread = thread.wrapping_add(1);
    }
    thread == 16
}

// Pins a page, reads it whole, and unpins it. Whether it is as the threads wrote it.
fn is_left_so<R: Wait>(
    rt: &R,
    shared: &SharedShards<Device>,
    attached: &mut Attached<Device>,
    threads: u64,
    no: u64,
) -> bool
    requires { AreOf shared.now attached.old.passes }
    ensures { AreOf shared.now attached.new.passes }
{
    let Ok(at) = shared.pin(rt, attached, page(no)) else {
        return false;
    };
    let Ok(bytes) = shared.read(rt, attached, at, 0, 16) else {
        return false;
    };
    shared.unpin(rt, attached, at).is_ok() && is_as_written(bytes.as_slice(), threads, no)
}

// The number of pages that are as the threads wrote them.
fn left_so<R: Wait>(
    rt: &R,
    shared: &SharedShards<Device>,
    attached: &mut Attached<Device>,
    threads: u64,
) -> u64
    requires { AreOf shared.now attached.old.passes }
    ensures { AreOf shared.now attached.new.passes }
{
    let mut count = 0u64;
    for no in 0..PAGES {
        if is_left_so(rt, shared, attached, threads, no) {
            count = count.wrapping_add(1);
        }
    }
    count
}

// The latest two times at which threads were at a page. A thread's last round there is later than
// the last but one of any thread.
fn last_two(threads: u64, no: u64) -> (u64, u64) {
    let (mut last, mut prev) = (0u64, 0u64);
    for thread in 0..threads {
        let time = time_of(thread, last_round(thread, no));
        if time > last {
            prev = last;
            last = time;
        } else if time > prev {
            prev = time;
        }
    }
    (last, prev)
}

// Whether the latest two references to a page are those of the rounds at this one.
fn is_known(history: &History, known: PageId, threads: u64, no: u64) -> bool {
    let (last, prev) = last_two(threads, no);
    history.get(known) == Some(twice((last, 1), (prev, 1)))
}

// The history of all shards. No page is known to two of them.
fn history_of(rt: &impl Abort, alloc: Global, nodes: &[Node<Device>]) -> History {
    let mut all = History::new(alloc);
    let mut known = 0usize;
    for node in nodes {
        known = known.wrapping_add(node.history().len());
        all.join(node.history())
            .ok()
            .expect(rt, "memory for entries");
    }
    assert!(rt; known == all.len());
    all
}

// Whether the shards have the latest two references to each page, and know no other page.
fn know_all(rt: &impl Abort, alloc: Global, nodes: &[Node<Device>], threads: u64) -> bool {
    let history = history_of(rt, alloc, nodes);
    for no in 0..PAGES {
        let is_pair_known = is_known(&history, page(no), threads, no)
            && is_known(&history, beyond(no), threads, no);
        if !is_pair_known {
            return false;
        }
    }
    history.len() == 128
}

// The failed calls of the device of a shard.
fn failures(nodes: &[Node<Device>], shard: usize) -> Option<u64> {
    let node = nodes.get(shard)?;
    let device = node.pool().devices().first()?;
    Some(device.failures())
}

#[test]
fn two_threads_leave_their_bytes_and_one_history(rt: HostRuntime) {
    let alloc = rt.alloc();
    let (shared, first) = shared_over(&rt, alloc, &[0; 4]);
    let (mut first, count) = served_by_two(&rt, alloc, &shared, first, 0);
    assert!(rt; count == 512 && first.pins() == 0);
    assert!(rt; left_so(&rt, &shared, &mut first, 2) == PAGES);
    assert!(rt; know_all(&rt, alloc, &closed(&rt, alloc, shared, first), 2));
}

#[test]
fn four_threads_leave_their_bytes_and_one_history(rt: HostRuntime) {
    let alloc = rt.alloc();
    let (shared, first) = shared_over(&rt, alloc, &[0; 4]);
    let (mut first, count) = served_by_four(&rt, alloc, &shared, first, 0);
    assert!(rt; count == 1024 && first.pins() == 0);
    assert!(rt; left_so(&rt, &shared, &mut first, 4) == PAGES);
    assert!(rt; know_all(&rt, alloc, &closed(&rt, alloc, shared, first), 4));
}

#[test]
fn what_eight_threads_wrote_is_written_back(rt: HostRuntime) {
    let alloc = rt.alloc();
    let (shared, first) = shared_over(&rt, alloc, &[0; 16]);
    let (mut first, count) = served_by_eight(&rt, alloc, &shared, first, 0);
    assert!(rt; count == 2048 && first.pins() == 0);
    assert!(rt; shared.write_back_all(&rt, &mut first).is_ok());
    assert!(rt; left_so(&rt, &shared, &mut first, 8) == PAGES);
    let nodes = closed(&rt, alloc, shared, first);
    assert!(rt; know_all(&rt, alloc, &nodes, 8) && dirty(&nodes) == 0);
}

// A device fails at its fifth call, a read, and another at its ninth, the write of the first dirty
// page that is evicted. Each fails in one round of one thread, before any thread is at its pages a
// second time, and no call of another shard fails.
#[test]
fn devices_that_fail_fail_no_other_shard(rt: HostRuntime) {
    let alloc = rt.alloc();
    let (shared, first) = shared_over(&rt, alloc, &[0, 5, 9, 0]);
    let (mut first, count) = served_by_four(&rt, alloc, &shared, first, 0);
    assert!(rt; count == 1022 && first.pins() == 0);
    assert!(rt; left_so(&rt, &shared, &mut first, 4) == PAGES);
    let nodes = closed(&rt, alloc, shared, first);
    assert!(rt; know_all(&rt, alloc, &nodes, 4));
    assert!(rt; failures(&nodes, 0) == Some(0) && failures(&nodes, 1) == Some(1));
    assert!(rt; failures(&nodes, 2) == Some(1) && failures(&nodes, 3) == Some(0));
}

// A thread pins a page, and keeps the pin.
fn pinned<R: Wait>(
    rt: &R,
    shared: &SharedShards<Device>,
    attached: Attached<Device>,
    no: u64,
) -> (Attached<Device>, Option<ShardSlot>)
    requires { AreOf shared.now attached.passes }
    ensures { AreOf shared.now result.0.passes }
{
    let mut attached = attached;
    let at = shared.pin(rt, &mut attached, page(no)).ok();
    (attached, at)
}

// Two threads pin pages 1 and 2 at once.
fn both_pinned<R: Threads + Wait + Sync>(
    rt: &R,
    shared: &SharedShards<Device>,
    one: Attached<Device>,
    two: Attached<Device>,
) -> (
    (Attached<Device>, Option<ShardSlot>),
    (Attached<Device>, Option<ShardSlot>),
)
    requires { (AreOf shared.now one.passes) × (AreOf shared.now two.passes) }
    ensures { (AreOf shared.now result.0.0.passes) × (AreOf shared.now result.1.0.passes) }
{
    join(
        rt,
        move || -> (Attached<Device>, Option<ShardSlot>)
            requires { AreOf shared.now one.passes }
            ensures { AreOf shared.entry.now result.0.passes }
        { pinned(rt, shared, one, 1) },
        move || -> (Attached<Device>, Option<ShardSlot>)
            requires { AreOf shared.now two.passes }
            ensures { AreOf shared.entry.now result.0.passes }
        { pinned(rt, shared, two, 2) },
    )
}

// The page that a shard would evict.
fn victim<R: Wait>(
    rt: &R,
    shared: &SharedShards<Device>,
    attached: &mut Attached<Device>,
    shard: usize,
) -> Option<PageId>
    requires { AreOf shared.now attached.old.passes }
    ensures { AreOf shared.now attached.new.passes }
{
    if shard >= shared.count() {
        return None;
    }
    shared.victim(rt, attached, shard).ok()?
}

// Unpins a page that another thread has pinned, through what that thread has, and ends it.
fn is_ended<R: Wait + Abort>(
    rt: &R,
    shared: &SharedShards<Device>,
    attached: &mut Attached<Device>,
    other: Attached<Device>,
    at: ShardSlot,
) -> bool
    requires { (AreOf shared.now attached.old.passes) × (AreOf shared.now other.passes) }
    ensures { AreOf shared.now attached.new.passes }
{
    let Err(held) = shared.detach(attached, other) else {
        panic!(rt; "a pin is held")
    };
    let mut other = held.attached;
    other.pins() == 1
        && shared.unpin(rt, &mut other, at).is_ok()
        && shared.detach(attached, other).is_ok()
}

#[test]
fn shards_are_closed_once_no_pin_is_held(rt: HostRuntime) {
    let alloc = rt.alloc();
    let (shared, mut first) = shared_over(&rt, alloc, &[0; 4]);
    let second = more(&rt, alloc, &shared, &mut first);
    let third = more(&rt, alloc, &shared, &mut first);
    let ((second, one), (third, two)) = both_pinned(&rt, &shared, second, third);
    let one = one.expect(&rt, "page 1 is pinned");
    let two = two.expect(&rt, "page 2 is pinned");
    let at = shared.pin(&rt, &mut first, page(3));
    let at = at.ok().expect(&rt, "page 3 is pinned");
    // The one page of shard 1 is pinned, by the second thread alone.
    assert!(rt; victim(&rt, &shared, &mut first, 1) == None);
    assert!(rt; is_ended(&rt, &shared, &mut first, second, one));
    assert!(rt; victim(&rt, &shared, &mut first, 1) == Some(page(1)));
    assert!(rt; victim(&rt, &shared, &mut first, 2) == None);
    assert!(rt; is_ended(&rt, &shared, &mut first, third, two));
    let Err(
        NotClosed {
            fault,
            shared,
            attached: mut first,
        },
    ) = shared.close(alloc, first)
    else {
        panic!(rt; "a pin is held")
    };
    assert!(rt; fault == SharedFault::PinsHeld && first.pins() == 1);
    assert!(rt; shared.unpin(&rt, &mut first, at).is_ok() && first.pins() == 0);
    assert!(rt; closed(&rt, alloc, shared, first).len() == 4);
}
