//! Bad input: wrong numbers of shards and frames, nodes that are not fresh, slots of other shards.
use crate::kit::{batch, node, nodes, shards};
use std::alloc::Global;
use std::process::Abort;
use test_kit::{displays, page, replica};
use warm_gossip::NodeFault;
use warm_shards::{ShardSlot, Shards, ShardsFault, frames_of_shard};

fn is_refused(rt: &impl Abort, alloc: Global, count: usize) -> bool {
    match Shards::new(alloc, replica(1), nodes(rt, alloc, 1, count)) {
        Ok(_) => false,
        Err(unmade) => unmade.fault == ShardsFault::BadCount && unmade.nodes.len() == count,
    }
}

#[test]
fn no_three_and_too_many_nodes_are_no_shards(rt: HostRuntime) {
    assert!(rt; is_refused(&rt, rt.alloc(), 0));
    assert!(rt; is_refused(&rt, rt.alloc(), 3));
    assert!(rt; is_refused(&rt, rt.alloc(), 128));
}

#[test]
fn a_used_node_is_no_shard(rt: HostRuntime) {
    let alloc = rt.alloc();
    let mut used = nodes(&rt, alloc, 1, 1);
    let mut other = node(&rt, alloc, 1);
    other
        .absorb(&batch(&rt, alloc, &[(0, 1, 2, 1)]))
        .ok()
        .expect(&rt, "the node absorbs");
    let Ok(()) = used.push(other) else {
        panic!(rt; "memory for nodes")
    };
    match Shards::new(alloc, replica(1), used) {
        Ok(_) => panic!(rt; "a used node"),
        Err(unmade) => {
            assert!(rt; unmade.fault == ShardsFault::NotOpened);
            assert!(rt; unmade.nodes.len() == 2);
        }
    }
}

#[test]
fn nodes_of_another_replica_are_no_shards(rt: HostRuntime) {
    let alloc = rt.alloc();
    match Shards::new(alloc, replica(2), nodes(&rt, alloc, 1, 2)) {
        Ok(_) => panic!(rt; "another replica"),
        Err(unmade) => assert!(rt; unmade.fault == ShardsFault::NotOpened),
    }
}

#[test]
fn frames_are_divided_evenly_or_not_at_all(rt: HostRuntime) {
    assert!(rt; frames_of_shard(4096, 16) == Ok(256));
    assert!(rt; frames_of_shard(4096, 1) == Ok(4096));
    assert!(rt; frames_of_shard(4097, 16) == Err(ShardsFault::Uneven));
    assert!(rt; frames_of_shard(4096, 0) == Err(ShardsFault::BadCount));
    assert!(rt; frames_of_shard(4095, 3) == Err(ShardsFault::BadCount));
    assert!(rt; frames_of_shard(4096, 128) == Err(ShardsFault::BadCount));
}

#[test]
fn faults_of_shards_are_shown_by_their_names(rt: HostRuntime) {
    let alloc = rt.alloc();
    assert!(rt; displays(alloc, &ShardsFault::BadCount, "BadCount"));
    assert!(rt; displays(alloc, &ShardsFault::Uneven, "Uneven"));
    assert!(rt; displays(alloc, &ShardsFault::NotOpened, "NotOpened"));
    assert!(rt; displays(alloc, &ShardsFault::NotShards, "NotShards"));
}

#[test]
fn a_slot_of_another_shard_is_stale(rt: HostRuntime) {
    let alloc = rt.alloc();
    let mut four = shards(&rt, alloc, 1, 4);
    let at = four.pin(page(6)).ok().expect(&rt, "page 6 is pinned");
    assert!(rt; at.shard == 2);
    let elsewhere = ShardSlot {
        shard: 3,
        slot: at.slot,
    };
    let nowhere = ShardSlot {
        shard: 4,
        slot: at.slot,
    };
    assert!(rt; four.unpin(elsewhere) == Err(NodeFault::StaleSlot));
    assert!(rt; four.unpin(nowhere) == Err(NodeFault::StaleSlot));
    assert!(rt; four.write(nowhere, 0, b"x") == Err(NodeFault::StaleSlot));
    assert!(rt; four.bytes(elsewhere).is_err());
    assert!(rt; four.read(nowhere, 0, 1).is_err());
    assert!(rt; four.unpin(at).is_ok());
    assert!(rt; four.unpin(at) == Err(NodeFault::StaleSlot));
}
