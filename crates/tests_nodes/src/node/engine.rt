//! What an engine asks of a node beside the calls: bytes lent, pages that begin with zeros, pages
//! written back a few at a time, and pages that are forgotten.

use super::{fresh, over, slot};
use std::alloc::Global;
use std::process::Abort;
use test_kit::{SeenAt, flaky, memory, noting, page, references};
use warm_devices::{MemDevice, PageDevice};
use warm_gossip::{Node, NodeFault};
use warm_pool::{PoolFault, Slot};

const AMPLE: &str = "memory for a device";

// The slot of a page that was pinned, or why it was not.
#[derive(Clone, Copy, PartialEq)]
enum Outcome {
    At(u32, u64),
    Refused(NodeFault),
}

fn outcome_of(pinned: Result<Slot, NodeFault>) -> Outcome {
    match pinned {
        Ok(slot) => Outcome::At(slot.index, slot.generation),
        Err(fault) => Outcome::Refused(fault),
    }
}

const fn refused(fault: PoolFault) -> Outcome {
    Outcome::Refused(NodeFault::Pool(fault))
}

fn pins<D: PageDevice>(node: &mut Node<D>, no: u64) -> Outcome {
    outcome_of(node.pin(page(no)))
}

fn zeroes<D: PageDevice>(node: &mut Node<D>, no: u64) -> Outcome {
    outcome_of(node.pin_zeroed(page(no)))
}

fn unpins<D: PageDevice>(node: &mut Node<D>, slot: Slot) -> bool {
    node.unpin(slot).is_ok()
}

// Writes AA to all bytes of the slot's page, as they are lent; returns whether the slot holds it.
fn paints<D: PageDevice>(node: &mut Node<D>, slot: Slot) -> bool {
    if !node.pool().holds(slot) {
        return false;
    }
    let bytes = node.bytes_mut(slot);
    for byte in bytes {
        *byte = 0xAA;
    }
    true
}

// Whether these are the bytes that a node lends of the slot's page.
fn shows<D: PageDevice>(node: &Node<D>, slot: Slot, wanted: &[u8]) -> bool {
    match node.bytes(slot) {
        Ok(bytes) => *bytes == *wanted,
        Err(_) => false,
    }
}

// Whether the bytes are refused, and why.
fn is_stale<D: PageDevice>(node: &Node<D>, slot: Slot) -> bool {
    match node.bytes(slot) {
        Ok(_) => false,
        Err(fault) => fault == NodeFault::StaleSlot,
    }
}

// Pins a page, writes AA to all of it, and unpins it; returns whether it has this slot.
fn fills<D: PageDevice>(node: &mut Node<D>, no: u64, slot: Slot) -> bool {
    zeroes(node, no) == Outcome::At(slot.index, slot.generation)
        && paints(node, slot)
        && unpins(node, slot)
}

fn loads<D: PageDevice>(node: &mut Node<D>) -> Option<u64> {
    match node.warm_step() {
        Ok(Some(page)) => Some(page.no),
        _ => None,
    }
}

fn knows(rt: &impl Abort, alloc: Global, node: &mut Node<MemDevice>, seen: &[SeenAt]) {
    let batch = references(alloc, seen).expect(rt, "memory for references");
    node.absorb(&batch).ok().expect(rt, "memory for references");
}

#[test]
fn lent_bytes_reach_the_device(rt: HostRuntime) {
    let alloc = rt.alloc();
    let (device, note) = noting(alloc, 2, 16).expect(&rt, AMPLE);
    let mut node = over(&rt, alloc, 1, 2, device);
    assert!(rt; pins(&mut node, 1) == Outcome::At(0, 1));
    assert!(rt; shows(&node, slot(0, 1), &[0; 16]) && node.pool().dirty() == 0);
    assert!(rt; paints(&mut node, slot(0, 1)) && node.pool().dirty() == 1);
    assert!(rt; shows(&node, slot(0, 1), &[0xAA; 16]));
    assert!(rt; node.write_back().is_ok() && node.pool().dirty() == 0);
    drop(node);
    assert!(rt; note.has(1, &[0xAA; 16]) && note.has(0, &[0; 16]) && note.counts() == (1, 1));
}

#[test]
fn stale_slots_lend_nothing(rt: HostRuntime) {
    let mut node = fresh(&rt, rt.alloc(), 1);
    assert!(rt; pins(&mut node, 1) == Outcome::At(0, 1));
    assert!(rt; is_stale(&node, slot(0, 2)));
    assert!(rt; is_stale(&node, slot(4, 1)));
    assert!(rt; !is_stale(&node, slot(0, 1)) && unpins(&mut node, slot(0, 1)));
    assert!(rt; is_stale(&node, slot(0, 1)) && !paints(&mut node, slot(0, 1)));
    assert!(rt; node.pool().dirty() == 0);
}

// The first call of the device fails, and a read would be it.
#[test]
fn a_page_of_zeros_is_not_read(rt: HostRuntime) {
    let alloc = rt.alloc();
    let device = flaky(alloc, 8, 1).expect(&rt, AMPLE);
    let mut node = over(&rt, alloc, 1, 2, device);
    assert!(rt; zeroes(&mut node, 3) == Outcome::At(0, 1) && node.pool().dirty() == 1);
    assert!(rt; shows(&node, slot(0, 1), &[0; 16]));
    assert!(rt; paints(&mut node, slot(0, 1)));
    assert!(rt; zeroes(&mut node, 3) == Outcome::At(0, 1));
    assert!(rt; shows(&node, slot(0, 1), &[0; 16]));
    assert!(rt; zeroes(&mut node, 8) == refused(PoolFault::NoPage));
    assert!(rt; zeroes(&mut node, 4) == Outcome::At(1, 1));
    assert!(rt; zeroes(&mut node, 5) == refused(PoolFault::AllFixed));
    assert!(rt; unpins(&mut node, slot(1, 1)));
    // Page 4 is dirty, and cannot be written to the device: so it stays.
    assert!(rt; zeroes(&mut node, 5) == refused(PoolFault::WriteBack));
    assert!(rt; node.pool().resident(page(4)) && node.pool().dirty() == 2);
    assert!(rt; zeroes(&mut node, 5) == Outcome::At(1, 2));
}

// A page of zeros evicts a page of the warm-up list, which is then loaded again.
#[test]
fn a_page_of_zeros_sets_the_warm_up_back(rt: HostRuntime) {
    let alloc = rt.alloc();
    let device = memory(alloc, 16).expect(&rt, AMPLE);
    let mut node = over(&rt, alloc, 1, 2, device);
    knows(
        &rt,
        alloc,
        &mut node,
        &[(0, 1, 10, 1), (0, 1, 20, 1), (0, 2, 11, 1), (0, 2, 21, 1)],
    );
    assert!(rt; loads(&mut node) == Some(2));
    assert!(rt; loads(&mut node) == Some(1));
    assert!(rt; loads(&mut node) == None);
    assert!(rt; zeroes(&mut node, 9) == Outcome::At(1, 2) && unpins(&mut node, slot(1, 2)));
    assert!(rt; !node.pool().resident(page(1)));
    assert!(rt; loads(&mut node) == Some(1));
    assert!(rt; loads(&mut node) == None);
    assert!(rt; node.history().len() == 2 && node.id().get() == 1);
}

#[test]
fn a_node_writes_back_a_few_pages(rt: HostRuntime) {
    let mut node = fresh(&rt, rt.alloc(), 1);
    assert!(rt; fills(&mut node, 1, slot(0, 1)));
    assert!(rt; fills(&mut node, 2, slot(1, 1)));
    assert!(rt; fills(&mut node, 3, slot(2, 1)));
    assert!(rt; node.write_back_some(0) == Ok(3) && node.pool().dirty() == 3);
    assert!(rt; node.write_back_some(2) == Ok(1) && node.pool().dirty() == 1);
    assert!(rt; node.write_back_some(2) == Ok(0) && node.pool().dirty() == 0);
    assert!(rt; node.write_back_some(1) == Ok(0));
}

#[test]
fn a_node_writes_back_one_page(rt: HostRuntime) {
    let mut node = fresh(&rt, rt.alloc(), 1);
    assert!(rt; fills(&mut node, 1, slot(0, 1)));
    assert!(rt; fills(&mut node, 2, slot(1, 1)));
    assert!(rt; node.write_back_page(page(3)) == Ok(false) && node.pool().dirty() == 2);
    assert!(rt; node.write_back_page(page(2)) == Ok(true) && node.pool().dirty() == 1);
    assert!(rt; node.write_back_page(page(2)) == Ok(false) && node.pool().dirty() == 1);
}

// The second call of the device fails: the write of page 2.
#[test]
fn a_failed_write_leaves_the_rest_dirty(rt: HostRuntime) {
    let alloc = rt.alloc();
    let device = flaky(alloc, 8, 2).expect(&rt, AMPLE);
    let mut node = over(&rt, alloc, 1, 3, device);
    assert!(rt; fills(&mut node, 1, slot(0, 1)));
    assert!(rt; fills(&mut node, 2, slot(1, 1)));
    assert!(rt; fills(&mut node, 3, slot(2, 1)));
    assert!(rt; node.write_back_some(3) == Err(NodeFault::Pool(PoolFault::Fault)));
    assert!(rt; node.pool().dirty() == 2);
    assert!(rt; node.write_back_some(3) == Ok(0));
}

#[test]
fn a_device_is_flushed(rt: HostRuntime) {
    let alloc = rt.alloc();
    let device = flaky(alloc, 8, 2).expect(&rt, AMPLE);
    let mut node = over(&rt, alloc, 1, 2, device);
    assert!(rt; fills(&mut node, 1, slot(0, 1)));
    assert!(rt; node.flush_device(1) == Err(NodeFault::Pool(PoolFault::NoDevice)));
    assert!(rt; node.pool().dirty() == 1);
    // The page is written, and the flush fails.
    assert!(rt; node.flush_device(0) == Err(NodeFault::Pool(PoolFault::Fault)));
    assert!(rt; node.pool().dirty() == 0);
    assert!(rt; node.flush_device(0) == Ok(()));
    assert!(rt; node.pool().resident(page(1)));
}

#[test]
fn a_forgotten_page_is_never_written(rt: HostRuntime) {
    let alloc = rt.alloc();
    let (device, note) = noting(alloc, 8, 16).expect(&rt, AMPLE);
    let mut node = over(&rt, alloc, 1, 3, device);
    assert!(rt; fills(&mut node, 1, slot(0, 1)));
    assert!(rt; fills(&mut node, 5, slot(1, 1)));
    assert!(rt; pins(&mut node, 4) == Outcome::At(2, 1));
    assert!(rt; node.forget_pages(1, 0) == Err(NodeFault::Pool(PoolFault::NoDevice)));
    assert!(rt; node.forget_pages(0, 4) == Err(NodeFault::Pool(PoolFault::Fixed)));
    assert!(rt; node.pool().dirty() == 2);
    assert!(rt; node.forget_pages(0, 5) == Ok(()) && node.pool().dirty() == 1);
    assert!(rt; !node.pool().resident(page(5)) && node.pool().resident(page(4)));
    assert!(rt; node.write_back().is_ok());
    // What the device has of it is read again.
    assert!(rt; pins(&mut node, 5) == Outcome::At(1, 2) && shows(&node, slot(1, 2), &[0; 16]));
    drop(node);
    assert!(rt; note.has(1, &[0xAA; 16]) && note.has(5, &[0; 16]) && note.counts() == (1, 1));
}

// The history of forgotten pages is kept, and a warm-up loads them again.
#[test]
fn forgotten_pages_are_warmed_up_again(rt: HostRuntime) {
    let alloc = rt.alloc();
    let mut node = fresh(&rt, alloc, 1);
    knows(
        &rt,
        alloc,
        &mut node,
        &[(0, 1, 10, 1), (0, 1, 20, 1), (0, 2, 11, 1), (0, 2, 21, 1)],
    );
    assert!(rt; loads(&mut node) == Some(2));
    assert!(rt; loads(&mut node) == Some(1));
    assert!(rt; loads(&mut node) == None);
    assert!(rt; node.forget_pages(0, 2) == Ok(()));
    assert!(rt; !node.pool().resident(page(2)) && node.pool().resident(page(1)));
    assert!(rt; node.history().len() == 2);
    assert!(rt; loads(&mut node) == Some(2));
    assert!(rt; loads(&mut node) == None);
}
