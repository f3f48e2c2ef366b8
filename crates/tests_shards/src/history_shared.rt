//! A copy of the history of shared shards: what threads gave them, whatever their order, and its
//! dump.
ghost use Rattle.warm_concurrent.specs.Attached.{AreOf};

use crate::kit::{batch, closed, more, shared_from, shared_of};
use std::alloc::Global;
use std::process::Abort;
use std::sync::Wait;
use std::thread::{Threads, join};
use test_kit::{
    SeenAt, are_equal, history_of, history_of_pages, once, page, page_on, replica, twice,
};
use warm_concurrent::{Attached, SharedShards};
use warm_devices::MemDevice;
use warm_dump::{read_dump, write_dump};
use warm_history::{History, PageHist};
use warm_shards::Shards;
use warm_stamps::PageId;

type Shared = SharedShards<MemDevice>;

type Thread = Attached<MemDevice>;

// What each of four threads absorbs. If there are four shards, page 65 is of shard 1, page 63 of
// shard 3, page 3 of device 1 of shard 0, and each other page of the shard of its number. No shard
// gets its references of one thread alone.
const ONE: &[SeenAt] = &[(0, 1, 10, 1), (0, 2, 20, 1), (0, 3, 30, 1), (0, 65, 40, 1)];

const TWO: &[SeenAt] = &[(0, 1, 12, 2), (0, 2, 15, 2), (0, 0, 5, 2), (1, 3, 9, 2)];

const THREE: &[SeenAt] = &[(0, 1, 11, 3), (0, 65, 33, 3), (0, 3, 30, 3), (0, 1, 9, 3)];

const FOUR: &[SeenAt] = &[(0, 2, 25, 4), (0, 65, 41, 4), (0, 63, 50, 4), (0, 1, 2, 4)];

fn given_by(thread: u64) -> &'static [SeenAt] {
    match thread {
        0 => ONE,
        1 => TWO,
        2 => THREE,
        _ => FOUR,
    }
}

// A copy of the history of all shards.
fn copied<R: Wait + Abort>(rt: &R, alloc: Global, shared: &Shared, thread: &mut Thread) -> History
    requires { AreOf shared.now thread.old.passes }
    ensures { AreOf shared.now thread.new.passes }
{
    let copy = shared.history(rt, alloc, thread);
    copy.ok().expect(rt, "memory for a copy")
}

// A thread absorbs its batch, and copies the history of all shards. Whether the copy has the batch:
// to absorb that once more changes no entry.
fn has_own<R: Wait + Abort>(
    rt: &R,
    alloc: Global,
    shared: &Shared,
    thread: Thread,
    number: u64,
) -> (Thread, bool)
    requires { AreOf shared.now thread.passes }
    ensures { AreOf shared.now result.0.passes }
{
    let mut thread = thread;
    let given = batch(rt, alloc, given_by(number));
    let absorbed = shared.absorb(rt, alloc, &mut thread, &given);
    let mut copy = copied(rt, alloc, shared, &mut thread);
    let changed = copy.absorb(&given).expect(rt, "memory for entries");
    (thread, absorbed.is_ok() && changed.is_empty())
}

// What one thread has, after what another has was ended into it. Whether both had their own.
fn ended(
    rt: &impl Abort,
    shared: &Shared,
    one: (Thread, bool),
    other: (Thread, bool),
) -> (Thread, bool)
    requires { (AreOf shared.now one.0.passes) × (AreOf shared.now other.0.passes) }
    ensures { AreOf shared.now result.0.passes }
{
    let (mut thread, own) = one;
    let (more, more_own) = other;
    assert!(rt; shared.detach(&mut thread, more).is_ok());
    (thread, own && more_own)
}

// Two threads absorb and copy at once, the first with this number.
fn two_have_own<R: Threads + Wait + Abort + Sync>(
    rt: &R,
    alloc: Global,
    shared: &Shared,
    thread: Thread,
    first: u64,
) -> (Thread, bool)
    requires { AreOf shared.now thread.passes }
    ensures { AreOf shared.now result.0.passes }
{
    let mut thread = thread;
    let other = more(rt, alloc, shared, &mut thread);
    let (one, two) = join(
        rt,
        move || -> (Thread, bool)
            requires { AreOf shared.now thread.passes }
            ensures { AreOf shared.entry.now result.0.passes }
        { has_own(rt, alloc, shared, thread, first) },
        move || -> (Thread, bool)
            requires { AreOf shared.now other.passes }
            ensures { AreOf shared.entry.now result.0.passes }
        { has_own(rt, alloc, shared, other, first.wrapping_add(1)) },
    );
    ended(rt, shared, one, two)
}

// Four threads absorb and copy at once.
fn four_have_own<R: Threads + Wait + Abort + Sync>(
    rt: &R,
    alloc: Global,
    shared: &Shared,
    thread: Thread,
) -> (Thread, bool)
    requires { AreOf shared.now thread.passes }
    ensures { AreOf shared.now result.0.passes }
{
    let mut thread = thread;
    let other = more(rt, alloc, shared, &mut thread);
    let (one, two) = join(
        rt,
        move || -> (Thread, bool)
            requires { AreOf shared.now thread.passes }
            ensures { AreOf shared.entry.now result.0.passes }
        { two_have_own(rt, alloc, shared, thread, 0) },
        move || -> (Thread, bool)
            requires { AreOf shared.now other.passes }
            ensures { AreOf shared.entry.now result.0.passes }
        { two_have_own(rt, alloc, shared, other, 2) },
    );
    ended(rt, shared, one, two)
}

// The pages, with the latest two stamps of each among those of all four threads.
fn known() -> [(PageId, PageHist); 7] {
    [
        (page(0), once(5, 2)),
        (page(1), twice((12, 2), (11, 3))),
        (page(2), twice((25, 4), (20, 1))),
        (page(3), twice((30, 3), (30, 1))),
        (page_on(1, 3), once(9, 2)),
        (page(63), once(50, 4)),
        (page(65), twice((41, 4), (40, 1))),
    ]
}

#[test]
fn a_copy_has_what_four_threads_gave(rt: HostRuntime) {
    let alloc = rt.alloc();
    let (shared, first) = shared_of(&rt, alloc, 1, 4);
    let (mut first, own) = four_have_own(&rt, alloc, &shared, first);
    assert!(rt; own);
    let copy = copied(&rt, alloc, &shared, &mut first);
    assert!(rt; copy.horizon() == 0 && copy.len() == 7);
    for (page, hist) in known() {
        assert!(rt; copy.get(page) == Some(hist));
    }
}

#[test]
fn a_copy_has_the_horizon_of_the_shards(rt: HostRuntime) {
    let alloc = rt.alloc();
    let (shared, mut first) = shared_of(&rt, alloc, 1, 4);
    assert!(rt; copied(&rt, alloc, &shared, &mut first).is_empty());
    let (mut first, own) = four_have_own(&rt, alloc, &shared, first);
    assert!(rt; own);
    let before = copied(&rt, alloc, &shared, &mut first);
    assert!(rt; shared.raise(&rt, &mut first, 12) == Ok(12));
    let copy = copied(&rt, alloc, &shared, &mut first);
    assert!(rt; copy.horizon() == 12 && copy.len() == 5);
    assert!(rt; copy.get(page(0)) == None && copy.get(page_on(1, 3)) == None);
    assert!(rt; copy.get(page(1)) == Some(once(12, 2)));
    assert!(rt; copy.get(page(2)) == Some(twice((25, 4), (20, 1))));
    // The copy from before is as it was.
    assert!(rt; before.horizon() == 0 && before.get(page(0)) == Some(once(5, 2)));
}

#[test]
fn a_raise_gives_the_horizon(rt: HostRuntime) {
    let alloc = rt.alloc();
    let (shared, mut first) = shared_of(&rt, alloc, 1, 4);
    assert!(rt; shared.horizon(&rt, &mut first) == Ok(0));
    assert!(rt; shared.raise(&rt, &mut first, 12) == Ok(12));
    // An earlier time forgets nothing, and leaves the horizon.
    assert!(rt; shared.raise(&rt, &mut first, 7) == Ok(12));
    assert!(rt; shared.horizon(&rt, &mut first) == Ok(12));
    assert!(rt; copied(&rt, alloc, &shared, &mut first).horizon() == 12);
}

#[test]
fn shared_shards_are_of_their_replica(rt: HostRuntime) {
    let alloc = rt.alloc();
    for number in [1, 3, 64] {
        let (shared, _first) = shared_of(&rt, alloc, number, 2);
        assert!(rt; shared.id() == replica(number));
    }
}

// A restart forgets at one point of the replica's history. So no thread shares the shards then.
#[test]
fn closed_shards_restart_and_are_shared_again(rt: HostRuntime) {
    let alloc = rt.alloc();
    let (shared, first) = shared_of(&rt, alloc, 1, 4);
    let (mut first, own) = four_have_own(&rt, alloc, &shared, first);
    assert!(rt; own);
    assert!(rt; copied(&rt, alloc, &shared, &mut first).len() == 7);
    let nodes = closed(&rt, alloc, shared, first);
    let Ok(mut shards) = Shards::from_nodes(alloc, replica(1), nodes) else {
        panic!(rt; "nodes of four shards")
    };
    assert!(rt; shards.restart().is_ok());
    let (shared, mut first) = shared_from(&rt, alloc, shards);
    assert!(rt; copied(&rt, alloc, &shared, &mut first).is_empty());
}

// A history that absorbed the batches of all four threads.
fn of_all(rt: &impl Abort, alloc: Global) -> History {
    let mut all = history_of(alloc, ONE).expect(rt, "memory for a history");
    for thread in 1..4 {
        let given = batch(rt, alloc, given_by(thread));
        let _changed = all.absorb(&given).expect(rt, "memory for entries");
    }
    all
}

// The bytes of a history's dump.
fn dump_of(rt: &impl Abort, alloc: Global, history: &History) -> Vec<u8> {
    let mut text = Vec::new(alloc);
    write_dump(alloc, &mut text, replica(1), history).expect(rt, "memory for a dump");
    text
}

#[test]
fn the_dump_of_a_copy_is_that_of_one_history(rt: HostRuntime) {
    let alloc = rt.alloc();
    let (shared, first) = shared_of(&rt, alloc, 1, 4);
    let (mut first, own) = four_have_own(&rt, alloc, &shared, first);
    assert!(rt; own);
    let copy = copied(&rt, alloc, &shared, &mut first);
    let text = dump_of(&rt, alloc, &copy);
    assert!(rt; text == dump_of(&rt, alloc, &of_all(&rt, alloc)));
    let mut reader = text.as_slice();
    let read = read_dump(alloc, &mut reader).expect(&rt, "a dump");
    assert!(rt; are_equal(&read, &copy));
}

// ---- a history that is taken in

#[test]
fn each_shard_takes_in_its_part_of_a_history(rt: HostRuntime) {
    let alloc = rt.alloc();
    let (shared, mut first) = shared_of(&rt, alloc, 1, 4);
    let mut all = of_all(&rt, alloc);
    assert!(rt; shared.join(&rt, alloc, &mut first, &all).is_ok());
    assert!(rt; are_equal(&copied(&rt, alloc, &shared, &mut first), &all));
    // The later horizon is that of all shards.
    all.raise(12);
    assert!(rt; shared.join(&rt, alloc, &mut first, &all).is_ok());
    assert!(rt; are_equal(&copied(&rt, alloc, &shared, &mut first), &all));
    let none = History::new(alloc);
    assert!(rt; shared.join(&rt, alloc, &mut first, &none).is_ok());
    assert!(rt; are_equal(&copied(&rt, alloc, &shared, &mut first), &all));
}

// A shard takes in more entries than a message has.
#[test]
fn a_long_history_is_taken_in(rt: HostRuntime) {
    let alloc = rt.alloc();
    let (shared, mut first) = shared_of(&rt, alloc, 1, 2);
    let long = history_of_pages(alloc, 0, 2400, 5).expect(&rt, "memory for a history");
    assert!(rt; shared.join(&rt, alloc, &mut first, &long).is_ok());
    let copy = copied(&rt, alloc, &shared, &mut first);
    assert!(rt; copy.len() == 2400 && are_equal(&copy, &long));
}

// A thread joins the history of its batch.
fn is_joined<R: Wait + Abort>(
    rt: &R,
    alloc: Global,
    shared: &Shared,
    thread: Thread,
    number: u64,
) -> (Thread, bool)
    requires { AreOf shared.now thread.passes }
    ensures { AreOf shared.now result.0.passes }
{
    let mut thread = thread;
    let own = history_of(alloc, given_by(number)).expect(rt, "memory for a history");
    let joined = shared.join(rt, alloc, &mut thread, &own);
    (thread, joined.is_ok())
}

// Two threads join the histories of their batches at once.
fn two_are_joined<R: Threads + Wait + Abort + Sync>(
    rt: &R,
    alloc: Global,
    shared: &Shared,
    thread: Thread,
) -> (Thread, bool)
    requires { AreOf shared.now thread.passes }
    ensures { AreOf shared.now result.0.passes }
{
    let mut thread = thread;
    let other = more(rt, alloc, shared, &mut thread);
    let (one, two) = join(
        rt,
        move || -> (Thread, bool)
            requires { AreOf shared.now thread.passes }
            ensures { AreOf shared.entry.now result.0.passes }
        { is_joined(rt, alloc, shared, thread, 0) },
        move || -> (Thread, bool)
            requires { AreOf shared.now other.passes }
            ensures { AreOf shared.entry.now result.0.passes }
        { is_joined(rt, alloc, shared, other, 1) },
    );
    ended(rt, shared, one, two)
}

#[test]
fn two_threads_join_a_history_each(rt: HostRuntime) {
    let alloc = rt.alloc();
    let (shared, first) = shared_of(&rt, alloc, 1, 4);
    let (mut first, both) = two_are_joined(&rt, alloc, &shared, first);
    assert!(rt; both);
    let mut wanted = history_of(alloc, ONE).expect(&rt, "memory for a history");
    let other = history_of(alloc, TWO).expect(&rt, "memory for a history");
    assert!(rt; wanted.join(&other).is_ok());
    assert!(rt; are_equal(&copied(&rt, alloc, &shared, &mut first), &wanted));
}
