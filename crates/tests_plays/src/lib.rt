//! Tests of the simulator, over only public calls: the answers of a world of nodes to lists of
//! events, the output of schedules and how a play ends, also one by threads, the meanings of words
//! and setup files, how a run ends, and what their faults display (warm_world, warm_player,
//! warm_threads, warm_setup). The expected texts were derived by hand from docs/FORMATS.md.
//! Allocations that fail are in test_world_memory.
#![tactic(auto)]

#[cfg(test)]
mod command;
#[cfg(test)]
mod faults;
#[cfg(test)]
mod outcome;
#[cfg(test)]
mod player;
#[cfg(test)]
mod schedules;
#[cfg(test)]
mod setup;
#[cfg(test)]
mod streams;
#[cfg(test)]
mod threads;
#[cfg(test)]
mod world;
