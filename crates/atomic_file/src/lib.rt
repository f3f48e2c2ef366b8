//! A file that is replaced whole, or not at all.
//!
//! A [`Draft`] is a new file beside the one that it is to replace. What is written goes into it.
//! [`Draft::commit`] syncs it, renames it over the old file, and syncs the folder of both. A draft
//! that is dropped is removed, and the old file is unchanged.
//!
//! Contracts say which step may fail in which call, and no more: no contract can say what a file
//! system does. Only tested: after a kill at any moment the path names the old file or the new one,
//! whole; after a failure the old file is unchanged, and no draft is left (`checks/dumps`).
//! Neither proved nor tested: what a loss of power leaves.
#![tactic(auto)]

mod draft;
mod fault;
mod place;
#[cfg(test)]
mod tests;

pub use draft::{Draft, MAX_NAMES};
pub use fault::{FileStep, StoreFault};
