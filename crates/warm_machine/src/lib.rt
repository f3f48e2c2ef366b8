//! Machines, which answer calls one after the other, and the lists of calls that they can answer.
//!
//! A [`Machine`] says by a relation what each call does. A list of calls with their replies is a
//! *run* of the machine if the relation leads through it, from a first state to a last one
//! (`Runs` of `specs/Runs.antt`). `warm_turn` lets threads share a machine, and its contracts speak
//! of such lists. A node of `warm_gossip` is a machine, and the laws on what calls gave a node speak
//! of them too: so a caller without threads needs no turn.
#![tactic(auto)]

mod machine;
mod operation;

pub use machine::Machine;
pub use operation::Operation;
