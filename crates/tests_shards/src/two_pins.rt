//! Two threads over shared shards that pin a page each, and unpin what the other pinned: that no page
//! of the nodes is pinned then is the contract of the function that makes the calls.
ghost use Rattle.std.specs.Prelude.{◌≡◌, List, map, Ok};
ghost use Rattle.warm_gossip.specs.State.{NodeState};
ghost use Rattle.warm_concurrent.specs.Pins.{NoneIsPinned};

use crate::kit::shards;
use std::alloc::Global;
use std::process::Abort;
use std::sync::Wait;
use test_kit::page;
use warm_concurrent::Sharing;
use warm_concurrent::laws::pins_are_counted;
use warm_devices::PageDevice;
use warm_gossip::Node;
use warm_shards::Shards;
use warm_stamps::PageId;
use warm_turn::Busy;

/// A thread shares shards of which no page is pinned, and attaches another. Each pins a page, and
/// unpins the slot of the other. The other is detached into the first, which closes the shards. All
/// nodes come back, and no page of them is pinned.
pub(crate) fn two_unpin<D: PageDevice + Send, R: Wait + Abort>(
    rt: &R,
    alloc: Global,
    shards: Shards<D>,
    p: PageId,
    q: PageId,
) -> Vec<Result<Node<D>, Busy>>
    ensures { NoneIsPinned shards → (nodes : List NodeState)
        × (result.items ≡ map (λ n. Ok n) nodes) × NoneIsPinned nodes }
{
    let Ok(sharing) = Sharing::new(alloc, shards) else {
        panic!(rt; "memory for shards")
    };
    let Ok((shared, mut first)) = sharing.share() else {
        panic!(rt; "memory for turns")
    };
    let Ok(mut second) = shared.attach(alloc, &mut first) else {
        panic!(rt; "memory for passes")
    };
    let Ok(ours) = shared.pin(rt, &mut first, p) else {
        panic!(rt; "the first page is pinned")
    };
    let Ok(theirs) = shared.pin(rt, &mut second, q) else {
        panic!(rt; "the second page is pinned")
    };
    let Ok(()) = shared.unpin(rt, &mut first, theirs) else {
        panic!(rt; "the second page is unpinned")
    };
    let Ok(()) = shared.unpin(rt, &mut second, ours) else {
        panic!(rt; "the first page is unpinned")
    };
    let Ok(()) = shared.detach(&mut first, second) else {
        panic!(rt; "no pin is held")
    };
    let Ok(nodes) = shared.close(alloc, first) else {
        panic!(rt; "memory for nodes")
    };
    pins_are_counted();
    nodes
}

// How many of these nodes have a victim: a page that is resident and not pinned.
fn with_victim<D: PageDevice>(rt: &impl Abort, ends: Vec<Result<Node<D>, Busy>>) -> usize {
    let mut count = 0usize;
    for end in ends {
        let Ok(mut node) = end else {
            panic!(rt; "no call is under way")
        };
        if node.victim().is_some() {
            count = count.wrapping_add(1);
        }
    }
    count
}

// Pages 1 and 2 are of two shards, each the one resident page of its shard. So it is the victim,
// unless it is pinned.
#[test]
fn no_page_stays_pinned(rt: HostRuntime) {
    let alloc = rt.alloc();
    let ends = two_unpin(&rt, alloc, shards(&rt, alloc, 1, 4), page(1), page(2));
    assert!(rt; ends.len() == 4 && with_victim(&rt, ends) == 2);
}
