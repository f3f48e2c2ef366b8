//! Why there are no shards.
use thiserror::Error;
use warm_devices::PageDevice;
use warm_gossip::Node;

/// Why nodes are no shards, or frames are not divided among shards.
#[derive(Clone, Copy, PartialEq, Eq, Debug, Error)]
pub enum ShardsFault {
    /// The number of shards is no power of two, or it is more than 64.
    #[error("BadCount")]
    BadCount,
    /// The frames cannot be divided evenly.
    #[error("Uneven")]
    Uneven,
    /// A node has another id, or it has a horizon, an entry or a resident page.
    #[error("NotOpened")]
    NotOpened,
    /// A node has another id, or an entry or a resident page of another shard.
    #[error("NotShards")]
    NotShards,
}

/// Nodes that are no shards, and why.
#[derive(Drop)]
pub struct ShardsError<D: PageDevice> {
    /// Why they are no shards.
    pub fault: ShardsFault,
    /// The nodes, as they were.
    pub nodes: Vec<Node<D>>,
}
