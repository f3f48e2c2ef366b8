//! One shard of a replica as a machine, which answers calls one after the other.
//!
//! A [`Shard`] is a node that has the pages of its buckets alone. `warm_concurrent` puts each shard
//! of a replica behind a turn, so that threads share it. What is proved of one shard stands here:
//! what its calls do to its node (see [`laws`]), and what a visitor that has it for one turn does.
#![tactic(auto)]

mod calls;
mod entering;
mod filling;
pub mod laws;
mod lending;
mod replacing;
mod shard;
mod told_visit;
mod visitors;

pub use calls::{ShardCall, ShardReply};
pub use entering::Entering;
pub use filling::Filling;
pub use lending::tag_of;
pub use replacing::Replacing;
pub use shard::{Place, Shard, StateOfShard};
pub use told_visit::ToldVisit;
pub use visitors::{Changing, Looking, Pinning, ReadInto, Reading, Unpinning, Went};
