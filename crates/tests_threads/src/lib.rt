//! Tests of a replica that threads share, over only public calls: a counter that they share, and a
//! node with its workers, looks at its pages, jobs in threads of their own, and mail (warm_turn,
//! warm_replica). Allocations that fail are in test_node_memory.
#![tactic(auto)]

#[cfg(test)]
mod crowd;
#[cfg(test)]
mod faults;
#[cfg(test)]
mod jobs;
#[cfg(test)]
mod looking;
#[cfg(test)]
mod mail;
#[cfg(test)]
mod mail_loops;
#[cfg(test)]
mod setup;
#[cfg(test)]
mod turns;
#[cfg(test)]
mod waiting;
