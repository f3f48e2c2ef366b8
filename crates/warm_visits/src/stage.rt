//! The stages of a visit.

/// What a visit asks of a shard next.
#[derive(Clone, Copy, PartialEq, Eq, Debug)]
pub enum Stage {
    /// To forget all stamps before the horizon of the visit. All shards are asked before any is
    /// given references.
    Raising,
    /// To take in references to its pages.
    Giving,
    /// To offer its digests.
    Offering,
    /// To send entries of a bucket.
    Sending,
    /// To copy its history.
    Copying,
}
