//! Laws of one shard. Each function changes nothing: its contract is a theorem, which
//! `specs/Laws.antt` and `specs/ToldDevices.antt` state in full.
ghost use Rattle.warm_gossip.specs.State.{NodeState};
ghost use Rattle.warm_shard_machine.specs.Laws.{CallsAreANodes, ErrandsAreCalls};
ghost use Rattle.warm_shard_machine.specs.ToldDevices.{ToldAreOne};

/// A legal list of calls of a shard is a legal list of steps of its node: of its calls, and of what
/// it is asked beside them. That is to write back, of which a caller sees at most a count of
/// failures, to pin pages that get zeros, or bytes that were read before, to name the next page of
/// a warm-up, to forget pages, to replace devices, to take entries in, and to give what is in its
/// history.
pub fn calls_are_a_nodes()
    ensures { CallsAreANodes }
{}

/// The numbers by which the call `Retire` tells of a device are those of one state alone.
pub fn told_devices_are_one()
    ensures { ToldAreOne }
{}

/// What a node says to an errand of a visit that gives, or to one that asks for its digests, is a call
/// of the node, as a caller of the node sees it: `Absorb`, `Horizon`, `Receive` or `Offer`.
pub fn errands_are_calls()
    ensures { (n m : NodeState) → ErrandsAreCalls n m }
{}
