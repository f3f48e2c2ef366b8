//! Theorems over all runs of a world, over the definitions alone.
//!
//! Each function does nothing. Its contract is a theorem, which the crates above cite and a reader
//! can look up: `specs/WorldStands.antt`, `specs/Rounds.antt`, `specs/Widths.antt` and
//! `specs/WarmUps.antt` state them in full.
ghost use Rattle.std.specs.Prelude.{◌<◌, ◌^◌, map};
ghost use Rattle.std.specs.List.{AllByRecursion};
ghost use Rattle.warm_stamps.specs.Bytes.{IsPage};
ghost use Rattle.warm_world.specs.Rounds.{GossipRoundJoins};
ghost use Rattle.warm_world.specs.WorldStands.{RunsAreRight};
ghost use Rattle.warm_world.specs.Views.{world_view};
ghost use Rattle.warm_world.specs.WarmUps.{ArePools, ShowsPoolsDiffer, WarmUpLoads};
ghost use Rattle.warm_world.specs.Widths.{EventFits, HistoriesFit, OpeningFits, RunsFit};

use crate::replica::WorldReplica;
use crate::{Event, World};
use warm_devices::PageDevice;
use warm_stamps::PageId;

/// For every run of events, from any state: each page that is named as a victim, or is evicted for
/// another, is an unpinned resident page of greatest backward 2-distance over all references that
/// reached the replica; and in the state that the run leads to, the references of replicas that
/// keep the same ones have the same two latest stamps of each page, and rank pages alike.
pub fn runs_are_right()
    ensures { RunsAreRight }
{}

/// A round of gossip: a replica offers its digests to another, and each receives all answers of the
/// other, with no event refused. Afterwards the histories of both have the entries of the join of
/// the two before. The second has the join's horizon, the later one; the first has it if the
/// second answered the offer. Or two different texts of one bucket, one of each replica, have the
/// same SHA-256 digest: that of the second replica at the later horizon. It holds in each state
/// whose numbers are within their widths, and so, by the three laws below, after any events.
pub fn gossip_round_joins()
    ensures { GossipRoundJoins }
{}

/// In a world that was just opened all numbers are within their widths.
pub fn opening_fits()
    ensures { OpeningFits }
{}

/// Events whose numbers are within their widths lead from such states to such states.
pub fn runs_fit()
    ensures { RunsFit }
{}

/// In such a state each history has only valid entries.
pub fn histories_fit()
    ensures { HistoriesFit }
{}

/// The numbers of events are within their widths, as their types imply. It does nothing at run
/// time.
pub fn events_fit(events: &[Event])
    ensures { AllByRecursion EventFits events.now }
{
    for event in events {
        event_fits(event);
    }
}

fn event_fits(event: &Event)
    ensures { EventFits event.now }
{
    match event {
        Event::Refer(_, _, page, time) => reference_fits(*page, *time),
        Event::Horizon(_, time) => time_fits(*time),
        _ => {}
    }
}

fn reference_fits(page: PageId, time: u64)
    ensures { IsPage page × (time < 2 ^ 64) }
{}

fn time_fits(time: u64)
    ensures { time < 2 ^ 64 }
{}

/// As many steps of a replica's warm-up as its pool has frames, none of them refused and no page of
/// the replica pinned before: afterwards every page of its warm-up list, cut to the frames, that a
/// device has is resident. It holds in each state in which no pool has a page in two frames, and
/// so, by the law below, in each that a world stands for.
pub fn warm_up_loads()
    ensures { WarmUpLoads }
{}

/// No pool of a world has a page in two frames. It does nothing at run time.
pub fn pools_differ<D: PageDevice>(world: &World<D>)
    ensures { ShowsPoolsDiffer (world_view world.now) }
{
    prove_pools(&world.replicas);
}

// Each of the pools satisfies the invariant of pools, as its type implies.
fn prove_pools<D: PageDevice>(replicas: &[WorldReplica<D>])
    ensures { ArePools (map (λ r. r.node) replicas.now) }
{
    for replica in replicas {
        replica.node.pool().prove_is_pool();
    }
}
