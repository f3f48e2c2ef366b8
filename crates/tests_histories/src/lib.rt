//! Tests of histories, over only public calls: their horizons, which buckets a call changes, which
//! pages are evicted first and which a warm-up loads, the digests of their buckets, and histories
//! as files (warm_history, warm_rank, warm_digest, warm_dump).
//!
//! They have a crate of their own so that the gate proves those libraries once, and not again with
//! their tests. Allocations that fail are in test_memory.
#![tactic(auto)]

#[cfg(test)]
mod changes;
#[cfg(test)]
mod damaged_dumps;
#[cfg(test)]
mod digests;
#[cfg(test)]
mod dump_streams;
#[cfg(test)]
mod dumps;
#[cfg(test)]
mod histories;
#[cfg(test)]
mod ranks;
#[cfg(test)]
mod rows;
#[cfg(test)]
mod since;
