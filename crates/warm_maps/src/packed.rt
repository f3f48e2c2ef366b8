//! The history of a page as the maps hold it, in 24 bytes.
//!
//! A `PageHist` has 40: its replica numbers have 64 bits each, and it says in a third number
//! whether it has two stamps.
ghost use Rattle.std.specs.Prelude.{◌≡◌, ◌↔◌, ◌≢◌, ◌++◌, ◌∷◌, false, filter, cond, IsTrue};
ghost use Rattle.std.specs.Prelude.{None, Some};
ghost use Rattle.std.specs.Ordering.{is_lt};
ghost use Rattle.warm_stamps.specs.Replicas.{IsReplica};
ghost use Rattle.warm_stamps.specs.Stamps.{stamp_at, stamp_cmp};
ghost use Rattle.warm_maps.specs.PageHists.{latest_of, hist_stamps, known_stamps};
ghost use Rattle.warm_maps.specs.PageHists.{is_kept};
ghost use Rattle.warm_maps.specs.PageHists.{kept_hist};

use crate::hist::{PageHist, Two};
use std::marker::Model;
use warm_stamps::{ReplicaId, Stamp};

/// The history of a page in 24 bytes. Contracts see it as the `PageHist`.
///
/// It has no padding: a move would copy a padded value in pieces.
#[derive(Debug, Clone, Copy)]
pub struct Packed {
    last: u64,
    prev: u64,
    last_replica: u32,
    prev_replica: u32,
}

impl Model for Packed {
    ghost use Rattle.warm_maps.specs.declared.hist.PageHist.{PageHist};
    ghost use Rattle.warm_maps.specs.PackedHists.{ArePackedNumbers, hist_of_numbers, last_of};
    ghost use Rattle.warm_maps.specs.PackedHists.{packed_again, prev_of};
    ghost use Rattle.warm_stamps.specs.Stamps.{stamp_at};

    ghost Value = { PageHist };

    ghost view = { λ p. hist_of_numbers p.last p.last_replica p.prev p.prev_replica };

    ghost invariant = { λ p. ArePackedNumbers p.last p.last_replica p.prev p.prev_replica };

    ghost inverse = { λ h. record {
      last = (last_of h).time;
      prev = (prev_of h).time;
      last_replica = (last_of h).replica;
      prev_replica = (prev_of h).replica;
    } };

    ghost inverse_ok = { λ p are. packed_again
        (λ last prev. record {
          last = last.time;
          prev = prev.time;
          last_replica = last.replica;
          prev_replica = prev.replica;
        }) (stamp_at p.last p.last_replica)
        (stamp_at p.prev p.prev_replica) are };
}

impl Packed {
    /// The history of one stamp. Allocation-free.
    pub fn once(stamp: Stamp) -> Packed
        ensures { result ≡ PageHist.Once stamp }
    {
        Packed {
            last: stamp.time,
            prev: 0,
            last_replica: stamp.replica.get() as u32,
            prev_replica: 0,
        }
    }

    /// The same history. Allocation-free.
    pub fn new(hist: PageHist) -> Packed
        ensures { result ≡ hist }
    {
        match hist {
            PageHist::Once(last) => Packed::once(last),
            PageHist::Twice(two) => {
                let last = two.last();
                let prev = two.prev();
                Packed {
                    last: last.time,
                    prev: prev.time,
                    last_replica: last.replica.get() as u32,
                    prev_replica: prev.replica.get() as u32,
                }
            }
        }
    }

    // The history that is lent out.
    #[inline(always)]
    pub(crate) fn get(self) -> PageHist
        ensures { result ≡ self }
    {
        let last = stamp_at(self.last, self.last_replica);
        if self.prev_replica == 0 {
            return PageHist::Once(last);
        }
        PageHist::Twice(Two::new(last, stamp_at(self.prev, self.prev_replica)))
    }

    // The two latest of these stamps and one more, given as its time and its replica's number.
    fn with(self, time: u64, replica: u32) -> Packed
        requires { IsReplica replica }
        ensures { Some result ≡ latest_of (stamp_at time replica ∷ hist_stamps self) }
    {
        if is_before(self.last, self.last_replica, time, replica) {
            return Packed {
                last: time,
                prev: self.last,
                last_replica: replica,
                prev_replica: self.last_replica,
            };
        }
        if is_before(time, replica, self.last, self.last_replica)
            && is_before(self.prev, self.prev_replica, time, replica)
        {
            return Packed {
                last: self.last,
                prev: time,
                last_replica: self.last_replica,
                prev_replica: replica,
            };
        }
        self
    }

    // Whether the two have the same stamps.
    pub(crate) fn is_same(self, other: Packed) -> bool
        ensures { IsTrue result ↔ self ≡ other }
    {
        self.last == other.last
            && self.prev == other.prev
            && self.last_replica == other.last_replica
            && self.prev_replica == other.prev_replica
    }

    // The two latest of the stamps of both.
    #[tactic(auto, using(crate::proofs::LatestLemmas::latest_of_more))]
    fn joined(self, more: Packed) -> Packed
        ensures { Some result ≡ latest_of (hist_stamps more ++ hist_stamps self) }
    {
        if more.prev_replica == 0 {
            return self.with(more.last, more.last_replica);
        }
        self.with(more.prev, more.prev_replica)
            .with(more.last, more.last_replica)
    }

    /// These stamps without those older than the horizon, if any is left. Allocation-free.
    pub fn cut_before(self, horizon: u64) -> Option<Packed>
        ensures left { result ≡ kept_hist horizon self }
        ensures stamps { known_stamps result ≡ filter (is_kept horizon) (hist_stamps self) }
    {
        if self.last < horizon {
            return None;
        }
        if self.prev < horizon {
            return Some(Packed {
                last: self.last,
                prev: 0,
                last_replica: self.last_replica,
                prev_replica: 0,
            });
        }
        Some(self)
    }
}

// The stamp of a time and the number of a replica.
fn stamp_at(time: u64, replica: u32) -> Stamp
    requires { IsReplica replica }
    ensures { result ≡ stamp_at time replica }
{
    let Ok(replica) = ReplicaId::new(replica as u16) else {
        unreachable!()
    };
    Stamp { time, replica }
}

// Whether the first stamp is before the second, each given as its time and its replica's number.
fn is_before(time: u64, replica: u32, than_time: u64, than_replica: u32) -> bool
    ensures { result ≡ is_lt (stamp_cmp (stamp_at time replica) (stamp_at than_time than_replica)) }
{
    if time == than_time {
        return replica < than_replica;
    }
    time < than_time
}

// Merges more stamps into the history of a page, puts the old history in their place, and returns
// whether it changes.
#[inline]
pub(crate) fn merge_into(known: &mut Packed, more: &mut Packed) -> bool
    ensures now { Some known.new ≡ latest_of (hist_stamps more.old ++ hist_stamps known.old) }
    ensures before { more.new ≡ known.old }
    ensures differs { IsTrue result → more.new ≢ known.new }
    ensures same { result ≡ false → known.new ≡ known.old }
{
    let before = *known;
    let now = before.joined(*more);
    *more = before;
    if now.is_same(before) {
        return false;
    }
    *known = now;
    true
}

// Forgets the stamps older than the horizon, and returns whether one is left.
pub(crate) fn keep_cut(hist: &mut Packed, horizon: u64) -> bool
    ensures { cond result (Some hist.new) None ≡ kept_hist horizon hist.old }
{
    let Some(left) = hist.cut_before(horizon) else {
        return false;
    };
    *hist = left;
    true
}

// The stamps of a page's history descend, so they are the two latest of themselves. It costs
// nothing at run time.
pub(crate) fn prove_two_latest(more: &Packed)
    ensures { Some more.now ≡ latest_of (hist_stamps more.now ++ known_stamps None) }
{
    let _last = more.last;
}
