//! Tests of pools, over only public calls: where pages go in a pool, which are evicted, what is
//! refused, and the contents of a device when its pool is dropped (warm_pool). Allocations that
//! fail are in test_node_memory.
#![tactic(auto)]

#[cfg(test)]
mod faults;
#[cfg(test)]
mod pool;
