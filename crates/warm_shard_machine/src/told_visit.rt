//! A visit of all shards, for calls and replies that exist in contracts alone.
ghost use Rattle.std.specs.Prelude.{◌≡◌};

use std::marker::Model;
use std::snapshot::Snapshot;
use warm_visits::Visit;

/// A visit of all shards, as contracts see it. It has no bytes.
#[derive(Drop)]
pub struct ToldVisit {
    told: Snapshot<Visit>,
}

impl Model for ToldVisit {
    ghost use Rattle.warm_visits.specs.Visits.{VisitState};

    ghost Value = { VisitState };

    ghost view = { λ visit. visit.told.value };
}

impl ToldVisit {
    /// The visit. Allocation-free.
    pub fn of(visit: &Visit) -> ToldVisit
        ensures { result ≡ visit.now }
    {
        ToldVisit {
            told: Snapshot::of(visit),
        }
    }
}
