//! One history as other replicas meet it: the messages that it sends, and what it takes in of
//! theirs.
//!
//! A [`Peer`] has a replica number and the history of the references that it received. It offers
//! the digests of its history, answers the digests and the requests of others, and takes in their
//! entries. Those who need no buffer pool hold a peer alone; a node of the crate above holds one
//! beside its pool.
//!
//! A round of gossip leaves two peers with the join of their histories: see [`laws`].
#![tactic(auto)]

mod answers;
pub mod laws;
mod peer;
mod since;

pub use peer::Peer;
pub use since::SentPortion;
