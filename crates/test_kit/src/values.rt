//! Pages, stamps and page histories, made from plain numbers.
ghost use Rattle.std.specs.Prelude.{◌≡◌};
ghost use Rattle.warm_stamps.specs.Replicas.{IsReplica};

use warm_history::{Entry, PageHist, Two};
use warm_stamps::{Bucket, PageId, Reference, ReplicaId, Stamp, bucket_of};

/// The page of this number on device 0.
pub const fn page(no: u64) -> PageId {
    PageId { dev: 0, no }
}

/// The page of this number on a device.
pub const fn page_on(dev: u16, no: u64) -> PageId {
    PageId { dev, no }
}

/// The replica of this number, from 1 to 64. For an invalid number it is replica 1.
pub fn replica(number: u16) -> ReplicaId
    ensures { IsReplica number → result ≡ number }
{
    match ReplicaId::new(number) {
        Ok(replica) => replica,
        Err(_) => match ReplicaId::new(1) {
            Ok(first) => first,
            Err(_) => unreachable!(),
        },
    }
}

/// The bucket of this number, from 0 to 63. Other numbers are taken modulo 64.
pub fn bucket(number: u8) -> Bucket {
    bucket_of(page(u64::from(number)))
}

/// The stamp of a time and the number of a replica.
pub fn stamp(time: u64, number: u16) -> Stamp {
    Stamp {
        time,
        replica: replica(number),
    }
}

/// A reference to a page, at a time and at the replica of a number.
pub fn seen(page: PageId, time: u64, number: u16) -> Reference {
    Reference {
        page,
        stamp: stamp(time, number),
    }
}

/// The history of a page that was referenced once, at a time and at the replica of a number.
pub fn once(time: u64, number: u16) -> PageHist {
    PageHist::Once(stamp(time, number))
}

/// The history of a page whose last and second last stamps are given by time and replica. The
/// second must be older; if it is not, only the last is kept.
pub fn twice(last: (u64, u16), prev: (u64, u16)) -> PageHist {
    let last = stamp(last.0, last.1);
    let prev = stamp(prev.0, prev.1);
    if prev < last {
        return PageHist::Twice(Two::new(last, prev));
    }
    PageHist::Once(last)
}

/// An entry: a page with its history.
pub const fn entry(page: PageId, hist: PageHist) -> Entry {
    Entry { page, hist }
}
