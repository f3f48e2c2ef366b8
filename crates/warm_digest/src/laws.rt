//! The result of an exchange of the differing buckets, over the definitions alone.
//!
//! The function does nothing. Its contract is a theorem, which the crates above cite and a reader
//! can look up: `specs/Exchange.antt` states it in full.
ghost use Rattle.warm_digest.specs.Exchange.{ExchangeJoins};

/// A history that takes in those of another's references that are in buckets with differing digests
/// becomes the join of both; or two different texts of one bucket have the same SHA-256 digest.
pub fn exchange_joins()
    ensures { ExchangeJoins }
{}
