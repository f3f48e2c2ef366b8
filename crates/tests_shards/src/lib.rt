//! Tests of a replica in shards, over only public calls: beside a node with the same references, an
//! exchange between shards of different numbers, bad input, a page's way through its shard, and
//! calls that go through all shards, even if one refuses; and the same of shards that threads share
//! (warm_shards, warm_concurrent). Allocations that fail are in test_node_memory.
#![tactic(auto)]

#[cfg(test)]
mod alike;
#[cfg(test)]
mod engine;
#[cfg(test)]
mod engine_shared;
#[cfg(test)]
mod filled_shared;
#[cfg(test)]
mod flushed_shared;
#[cfg(test)]
mod forming;
#[cfg(test)]
mod gossip_shared;
#[cfg(test)]
mod history_shared;
#[cfg(test)]
mod kit;
#[cfg(test)]
mod looking;
#[cfg(test)]
mod pages;
#[cfg(test)]
mod refused;
#[cfg(test)]
mod retired_shared;
#[cfg(test)]
mod shared;
#[cfg(test)]
mod threads;
#[cfg(test)]
mod two_pins;
#[cfg(test)]
mod two_threads;
#[cfg(test)]
mod whole;
#[cfg(test)]
mod written_shared;
