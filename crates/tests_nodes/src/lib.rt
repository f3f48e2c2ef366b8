//! Tests of a peer and of a node, over only public calls: what a peer sends and takes in
//! (warm_peer); a node's replies, what its calls refuse, and what its pool's devices hold
//! (warm_gossip). Allocations that fail are in test_node_memory.
#![tactic(auto)]

#[cfg(test)]
mod filled;
#[cfg(test)]
mod node;
#[cfg(test)]
mod peers;
