//! Shards of nodes that have run: what comes back, and which nodes are no shards.
use crate::kit::{batch, node, nodes, shards};
use std::alloc::Global;
use std::process::Abort;
use test_kit::{page, replica};
use warm_devices::MemDevice;
use warm_gossip::Node;
use warm_shards::{Shards, ShardsFault};

// Two nodes, each with a reference to a page of its shard, at different horizons.
fn two_nodes(rt: &impl Abort, alloc: Global) -> Vec<Node<MemDevice>> {
    let mut first = node(rt, alloc, 1);
    assert!(rt;
        first
            .absorb(&batch(rt, alloc, &[(0, 2, 4, 1), (0, 4, 9, 1)]))
            .is_ok()
    );
    assert!(rt; first.pin(page(2)).is_ok());
    let mut second = node(rt, alloc, 1);
    assert!(rt; second.absorb(&batch(rt, alloc, &[(0, 1, 8, 1)])).is_ok());
    assert!(rt; second.raise(6) == 6);
    let mut both = Vec::with_capacity(alloc, 2).expect(rt, "memory for nodes");
    both.push_reserved(first);
    both.push_reserved(second);
    both
}

#[test]
fn nodes_that_ran_are_shards_at_the_latest_horizon(rt: HostRuntime) {
    let alloc = rt.alloc();
    let Ok(two) = Shards::from_nodes(alloc, replica(1), two_nodes(&rt, alloc)) else {
        panic!(rt; "no shards")
    };
    assert!(rt; two.count() == 2 && two.horizon() == 6);
    let whole = two.history().expect(&rt, "memory for a history");
    // The reference to page 2 is before the horizon.
    assert!(rt; whole.len() == 2 && whole.get(page(2)).is_none());
    let nodes = two.into_nodes();
    let Some(first) = nodes.first() else {
        panic!(rt; "no node")
    };
    assert!(rt; first.pool().resident(page(2)));
}

#[test]
fn shards_taken_apart_are_shards_again(rt: HostRuntime) {
    let alloc = rt.alloc();
    let mut four = shards(&rt, alloc, 1, 4);
    let given = batch(&rt, alloc, &[(0, 1, 5, 1), (0, 2, 6, 1), (0, 7, 7, 1)]);
    assert!(rt; four.absorb(&given).is_ok());
    assert!(rt; four.pin(page(7)).is_ok());
    let Ok(again) = Shards::from_nodes(alloc, replica(1), four.into_nodes()) else {
        panic!(rt; "no shards")
    };
    let whole = again.history().expect(&rt, "memory for a history");
    assert!(rt; again.count() == 4 && whole.len() == 3);
}

fn is_refused(alloc: Global, number: u16, nodes: Vec<Node<MemDevice>>, why: ShardsFault) -> bool {
    let count = nodes.len();
    match Shards::from_nodes(alloc, replica(number), nodes) {
        Ok(_) => false,
        Err(unmade) => unmade.fault == why && unmade.nodes.len() == count,
    }
}

#[test]
fn nodes_with_pages_of_other_shards_are_no_shards(rt: HostRuntime) {
    let alloc = rt.alloc();
    let three = nodes(&rt, alloc, 1, 3);
    assert!(rt; is_refused(alloc, 1, three, ShardsFault::BadCount));
    let both = two_nodes(&rt, alloc);
    assert!(rt; is_refused(alloc, 2, both, ShardsFault::NotShards));
    // Page 2 is of the first shard: the second knows it, or has it in its pool.
    let mut knows = node(&rt, alloc, 1);
    assert!(rt; knows.absorb(&batch(&rt, alloc, &[(0, 2, 4, 1)])).is_ok());
    let mut both = nodes(&rt, alloc, 1, 1);
    assert!(rt; both.push(knows).is_ok());
    assert!(rt; is_refused(alloc, 1, both, ShardsFault::NotShards));
    let mut pinned = node(&rt, alloc, 1);
    assert!(rt; pinned.pin(page(2)).is_ok());
    let mut both = nodes(&rt, alloc, 1, 1);
    assert!(rt; both.push(pinned).is_ok());
    assert!(rt; is_refused(alloc, 1, both, ShardsFault::NotShards));
}
