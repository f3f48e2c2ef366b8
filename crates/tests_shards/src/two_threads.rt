//! Two threads over shared shards, from the shards to the nodes that come back: what these hold is
//! the contract of the function that makes the calls.
ghost use Rattle.std.specs.Prelude.{◌≡◌, List, map, Ok};
ghost use Rattle.warm_history.specs.Histories.{StandsFor};
ghost use Rattle.warm_history.specs.ReferenceSets.{ReferenceSet, set_of_list, ◌∪◌};
ghost use Rattle.warm_gossip.specs.State.{NodeState};
ghost use Rattle.warm_shards.specs.Shards.{whole};

use crate::kit::{batch, shards};
use std::alloc::Global;
use std::process::Abort;
use std::sync::Wait;
use test_kit::{SeenAt, are_equal, history_of};
use warm_concurrent::Sharing;
use warm_concurrent::laws::threads_give;
use warm_devices::PageDevice;
use warm_gossip::Node;
use warm_history::History;
use warm_shards::Shards;
use warm_stamps::Reference;
use warm_turn::Busy;

/// A thread shares shards, and attaches another. Each absorbs a batch, and the other is detached
/// into the first, which closes the shards. All nodes come back, and together they stand for what
/// the shards stood for and both batches, and for nothing else.
pub(crate) fn two_absorb<D: PageDevice + Send, R: Wait + Abort>(
    rt: &R,
    alloc: Global,
    shards: Shards<D>,
    one: &[Reference],
    two: &[Reference],
) -> Vec<Result<Node<D>, Busy>>
    ensures { (S : ReferenceSet) → StandsFor (whole shards) S
        → (nodes : List NodeState) × (result.items ≡ map (λ n. Ok n) nodes)
        × StandsFor (whole nodes) (S ∪ (set_of_list one.now ∪ set_of_list two.now)) }
{
    // What the law requires: its contract says that these are shards.
    let _count = shards.count();
    let Ok(sharing) = Sharing::new(alloc, shards) else {
        panic!(rt; "memory for shards")
    };
    let Ok((shared, mut first)) = sharing.share() else {
        panic!(rt; "memory for turns")
    };
    let Ok(mut second) = shared.attach(alloc, &mut first) else {
        panic!(rt; "memory for passes")
    };
    let Ok(()) = shared.absorb(rt, alloc, &mut first, one) else {
        panic!(rt; "memory for the first batch")
    };
    let Ok(()) = shared.absorb(rt, alloc, &mut second, two) else {
        panic!(rt; "memory for the second batch")
    };
    let Ok(()) = shared.detach(&mut first, second) else {
        panic!(rt; "no pin is held")
    };
    let Ok(nodes) = shared.close(alloc, first) else {
        panic!(rt; "memory for nodes")
    };
    threads_give();
    nodes
}

// What each thread absorbs. If there are four shards, page 65 is of shard 1, page 63 of shard 3,
// and each other page of the shard of its number. Both know pages 1 and 2.
const ONE: &[SeenAt] = &[(0, 1, 10, 1), (0, 2, 20, 1), (0, 3, 30, 1), (0, 65, 40, 1)];

const TWO: &[SeenAt] = &[(0, 1, 12, 2), (0, 2, 15, 2), (0, 0, 5, 2), (0, 63, 9, 2)];

// The history of all nodes, each of which came back.
fn history_in<D: PageDevice>(
    rt: &impl Abort,
    alloc: Global,
    ends: &[Result<Node<D>, Busy>],
) -> History {
    let mut all = History::new(alloc);
    for end in ends {
        let Ok(node) = end else {
            panic!(rt; "no call is under way")
        };
        all.join(node.history())
            .ok()
            .expect(rt, "memory for entries");
    }
    all
}

#[test]
fn nodes_hold_what_both_threads_absorbed(rt: HostRuntime) {
    let alloc = rt.alloc();
    let one = batch(&rt, alloc, ONE);
    let two = batch(&rt, alloc, TWO);
    let ends = two_absorb(&rt, alloc, shards(&rt, alloc, 1, 4), &one, &two);
    assert!(rt; ends.len() == 4);
    let mut wanted = history_of(alloc, ONE).expect(&rt, "memory for a history");
    let _changed = wanted.absorb(&two).expect(&rt, "memory for entries");
    assert!(rt; are_equal(&history_in(&rt, alloc, &ends), &wanted));
}
