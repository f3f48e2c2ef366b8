//! The keys of the near maps: 64 bits of the page of a near device.
ghost use Rattle.std.proofs.Common.{rules};
ghost use Rattle.std.specs.Cmp.{partial_order_from_own_ties};
ghost use Rattle.std.specs.Cmp.Rules.{comparing};
ghost use Rattle.std.specs.Ordering.{nat_cmp, as_partial_cmp};
ghost use Rattle.std.specs.Prelude.{◌≡◌};

use std::cmp::Ordering;
use std::marker::Model;

// A near key. Contracts see it as its number, and keys compare as their numbers do.
#[derive(Debug, Clone, Copy)]
pub(crate) struct NearKey {
    bits: u64,
}

impl Model for NearKey {
    ghost use Rattle.std.specs.Prelude.{ℕ};

    ghost Value = { ℕ };

    ghost view = { λ k. k.bits };

    ghost inverse = { λ n. record { bits = n } };
}

impl PartialEq for NearKey {
    ghost eq = { ⟦<u64 as PartialEq>⟧.eq };

    ghost laws = { Prim.search (comparing, rules) };

    fn eq(&self, other: &NearKey) -> bool {
        self.bits == other.bits
    }
}

impl Eq for NearKey {
    ghost laws = { Prim.search (comparing, rules) };
}

impl PartialOrd for NearKey {
    ghost partial_cmp = { as_partial_cmp nat_cmp };

    ghost laws = { partial_order_from_own_ties (Prim.search (comparing, rules))
        (Prim.search (comparing, rules)) };

    fn partial_cmp(&self, other: &NearKey) -> Option<Ordering> {
        Some(self.cmp(other))
    }
}

impl Ord for NearKey {
    ghost cmp = { nat_cmp };

    ghost total = { Prim.search (comparing, rules) };

    ghost matches_partial_cmp = { Prim.search (comparing, rules) };

    ghost matches_eq = { Prim.search (comparing, rules) };

    // The map compares the keys of a node one after another. In this form a compare has an
    // instruction less than that of `u64`, and no step of it waits for another.
    fn cmp(&self, other: &NearKey) -> Ordering {
        let (x, y) = (self.bits, other.bits);
        if y < x {
            Ordering::Greater
        } else if x == y {
            Ordering::Equal
        } else {
            Ordering::Less
        }
    }
}

impl NearKey {
    // The key of this number.
    pub(crate) fn new(bits: u64) -> NearKey
        ensures { result ≡ bits }
    {
        NearKey { bits }
    }

    // Its number.
    pub(crate) fn get(self) -> u64
        ensures { result ≡ self }
    {
        self.bits
    }
}
