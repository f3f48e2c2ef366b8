//! A device that is replaced by another: the history is kept.

use super::{fresh, hist_of};
use std::alloc::Global;
use std::process::Abort;
use test_kit::{memory, page, references};
use warm_devices::MemDevice;
use warm_gossip::Node;
use warm_pool::{PoolFault, RetireError};
use warm_stamps::PageId;

// The fault of a refusal.
fn refused(answer: Result<(), RetireError<MemDevice>>) -> Option<PoolFault> {
    match answer {
        Ok(()) => None,
        Err(unretired) => Some(unretired.fault),
    }
}

// The page that a step of the warm-up loads; none if it is refused.
fn loads(node: &mut Node<MemDevice>) -> Option<PageId> {
    match node.warm_step() {
        Ok(loaded) => loaded,
        Err(_) => None,
    }
}

// A node that knows the pages 1 to 3, of which 3 is the hottest, and has loaded two of them.
fn warming(rt: &impl Abort, alloc: Global) -> Node<MemDevice> {
    let mut node = fresh(rt, alloc, 1);
    let batch = references(
        alloc,
        &[
            (0, 1, 10, 1),
            (0, 1, 20, 1),
            (0, 2, 11, 1),
            (0, 2, 21, 1),
            (0, 3, 12, 1),
            (0, 3, 22, 1),
        ],
    )
    .expect(rt, "memory for references");
    node.absorb(&batch).ok().expect(rt, "memory for references");
    node.raise(11);
    assert!(rt; loads(&mut node) == Some(page(3)));
    assert!(rt; loads(&mut node) == Some(page(2)));
    node
}

#[test]
fn a_retired_device_leaves_the_history(rt: HostRuntime) {
    let mut node = warming(&rt, rt.alloc());
    assert!(rt; node.pool().resident(page(3)) && node.pool().resident(page(2)));
    let device = memory(rt.alloc(), 3).expect(&rt, "memory for a device");
    assert!(rt; refused(node.retire(0, device)) == None);
    assert!(rt; !node.pool().resident(page(3)) && !node.pool().resident(page(2)));
    assert!(rt; node.history().horizon() == 11);
    assert!(rt; node.history().len() == 3);
    assert!(rt; node.history().get(page(3)) == Some(hist_of(22, 12)));
    // The new device has no page 3, and the others are loaded again, the hotter one first.
    assert!(rt; loads(&mut node) == Some(page(2)));
    assert!(rt; loads(&mut node) == Some(page(1)));
    assert!(rt; loads(&mut node) == None);
}

#[test]
fn a_device_is_not_retired_in_use(rt: HostRuntime) {
    let mut node = warming(&rt, rt.alloc());
    let slot = node.pin(page(3)).ok().expect(&rt, "a page");
    let device = memory(rt.alloc(), 3).expect(&rt, "memory for a device");
    assert!(rt; refused(node.retire(1, device)) == Some(PoolFault::NoDevice));
    let device = MemDevice::new(rt.alloc(), 3, 32).expect(&rt, "memory for a device");
    assert!(rt; refused(node.retire(0, device)) == Some(PoolFault::SizeDiffers));
    let device = memory(rt.alloc(), 3).expect(&rt, "memory for a device");
    assert!(rt; refused(node.retire(0, device)) == Some(PoolFault::Fixed));
    assert!(rt; node.pool().resident(page(3)) && node.pool().resident(page(2)));
    assert!(rt; loads(&mut node) == Some(page(1)));
    node.unpin(slot).ok().expect(&rt, "a pinned page");
    let device = memory(rt.alloc(), 3).expect(&rt, "memory for a device");
    assert!(rt; refused(node.retire(0, device)) == None);
}
