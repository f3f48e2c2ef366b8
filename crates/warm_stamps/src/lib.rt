//! Stamps, pages, references and buckets: the small values that all other crates use.
//!
//! A *page* is a block of a numbered device. A *stamp* says when and at which replica a page was
//! referenced, by the clock of the caller that reports it. A *reference* is a page with a stamp;
//! the same page with the same stamp, reported twice, is one reference. A *bucket* is one of
//! [`BUCKETS`] classes of pages; replicas exchange their histories bucket by bucket. A
//! [`BucketSet`] is a set of buckets.
//!
//! The order of each type is total, and only equal values tie: `specs/Stamps.antt` defines the
//! orders, and [`laws`] says so. Everything here is allocation-free.
#![tactic(auto)]

ghost use Rattle.std.specs.Prelude.{◌≡◌, ℕ, ◌<◌, ◌≤◌, ◌↔◌, IfOk, IsOk};
ghost use Rattle.warm_stamps.specs.Replicas.{IsReplica};

use std::marker::Model;
use thiserror::Error;

mod buckets;
mod bytes;
mod items;
pub mod laws;

pub use buckets::{Bucket, BucketSet, Buckets, bucket_of};
pub use bytes::{page_bytes, page_from, page_from_narrow, stamp_bytes, stamp_from};
pub use items::{ByteList, Items, PageList, RefList};

/// The maximum number of replicas. They are numbered from 1.
pub const MAX_REPLICAS: u16 = 64;

/// The number of buckets. They are numbered from 0.
pub const BUCKETS: u8 = 64;

/// The number of a replica, from 1 to [`MAX_REPLICAS`].
#[derive(Debug, Clone, Copy, PartialEq, Eq, PartialOrd, Ord)]
pub struct ReplicaId {
    // 64 bits wide, so that a stamp has no padding: a move would copy a padded value in pieces.
    number: u64,
}

impl Model for ReplicaId {
    ghost use Rattle.std.specs.Prelude.{ℕ};
    ghost use Rattle.warm_stamps.specs.Replicas.{IsReplica};

    ghost Value = { ℕ };

    ghost view = { λ replica. replica.number };

    ghost invariant = { λ replica. IsReplica replica.number };

    ghost inverse = { λ number. record { number = number } };
}

/// An invalid replica number: 0, or greater than [`MAX_REPLICAS`].
#[derive(Debug, Clone, Copy, PartialEq, Eq, Error)]
#[error("BadReplica")]
pub struct BadReplica;

impl ReplicaId {
    /// The replica of this number. `BadReplica` occurs exactly for an invalid number.
    pub fn new(number: u16) -> Result<ReplicaId, BadReplica>
        ensures value { IfOk result (λ replica. replica ≡ number) }
        ensures taken { IsOk result ↔ IsReplica number }
    {
        if number == 0 || number > MAX_REPLICAS {
            return Err(BadReplica);
        }
        Ok(ReplicaId {
            number: u64::from(number),
        })
    }

    /// The replica's number.
    pub fn get(self) -> u16
        ensures value { result ≡ self }
        ensures low { 0 < result }
        ensures high { result ≤ MAX_REPLICAS }
    {
        self.number as u16
    }
}

/// When a page was referenced, and at which replica. Stamps are ordered by time, then replica.
#[derive(Debug, Clone, Copy, PartialEq, Eq, PartialOrd, Ord)]
pub struct Stamp {
    /// The time of the reference, in units of the caller's own clock.
    pub time: u64,
    /// The replica where it was made.
    pub replica: ReplicaId,
}

/// A page: its device and its number there. Pages are ordered by device, then number.
#[derive(Debug, Clone, Copy, PartialEq, Eq, PartialOrd, Ord)]
pub struct PageId {
    /// The device's number.
    pub dev: u16,
    /// The page's number on the device.
    pub no: u64,
}

/// One reference: a page with a stamp. References are ordered by page, then stamp.
#[derive(Debug, Clone, Copy, PartialEq, Eq, PartialOrd, Ord)]
pub struct Reference {
    /// The page that was referenced.
    pub page: PageId,
    /// When and at which replica.
    pub stamp: Stamp,
}
