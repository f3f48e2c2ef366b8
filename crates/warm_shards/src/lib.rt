//! One replica in shards: up to 64 nodes, each with the pages of its buckets.
//!
//! A pool has at most 65,536 frames. [`Shards`] are K nodes, K a power of two up to 64, each with a
//! pool of its own: shard number = bucket of the page, modulo K. Together they are one replica. The
//! entries of all shards are the history of all references that reached the replica, and what is
//! offered, sent and answered is, byte for byte, what one node with all the references gives. So
//! replicas of different K exchange histories.
//!
//! A call on one page is a call of its shard. **A victim is the farthest page of its shard**, and
//! not of the replica: each shard has its own frames.
//!
//! Contracts see shards as the list of their nodes. `specs/Shards.antt` defines the history of all
//! of them, `whole`; the clauses of the calls on it say `Step` of `warm_gossip`, of the one node
//! that has this history.
#![tactic(auto)]

mod answers;
mod each_shard;
mod engine_calls;
mod fault;
mod go_through;
mod gossip;
mod history_calls;
mod joining;
pub mod laws;
mod lending;
mod message_parts;
mod pool_calls;
mod shards;
mod shards_of_nodes;

pub use fault::{ShardsError, ShardsFault};
pub use message_parts::{part_of_entries, part_of_message};
pub use pool_calls::ShardSlot;
pub use shards::{Shards, frames_of_shard};
