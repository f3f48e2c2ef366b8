//! Tests of values, frames and devices, over only public calls: limits of replicas, buckets and
//! buffers, the bytes of pages, stamps and frames in both formats, whole and in pieces, the
//! schedules that seeds give, what devices store and record, and what faults display (warm_stamps,
//! warm_refbuffer, warm_random, warm_frames, warm_devices, test_kit).
//!
//! They have a crate of their own so that the gate proves those libraries once, and not again with
//! their tests. Allocations that fail are in test_memory.
#![tactic(auto)]

#[cfg(test)]
mod buffers;
#[cfg(test)]
mod bytes;
#[cfg(test)]
mod devices;
#[cfg(test)]
mod falling;
#[cfg(test)]
mod faults;
#[cfg(test)]
mod frames;
#[cfg(test)]
mod headers;
#[cfg(test)]
mod notes;
#[cfg(test)]
mod pieces;
#[cfg(test)]
mod schedules;
#[cfg(test)]
mod stamps;
