//! One replica in shards that threads share.
#![tactic(auto)]

mod attaching;
mod copying;
mod engine_calls;
mod fault;
mod filling;
mod flushing;
mod gossip;
mod history_calls;
pub mod laws;
mod looking;
mod pool_calls;
mod retiring;
mod shared;
mod sharing;
mod visiting;
mod writing;

pub use attaching::{NotClosed, NotDetached};
pub use fault::SharedFault;
pub use retiring::NotRetired;
pub use shared::{Attached, SharedShards};
pub use sharing::Sharing;
pub use visiting::{Stopped, StoppedInStage};
pub use warm_shard_machine::{Shard, ShardCall, ShardReply, StateOfShard};
pub use writing::NotWritten;
