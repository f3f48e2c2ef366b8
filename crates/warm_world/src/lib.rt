//! Replicas that exchange references by gossip, and whose buffer pools are ranked by them, in one
//! value.
//!
//! A *world* holds up to [`warm_stamps::MAX_REPLICAS`] replicas. Each replica is a node and a
//! buffer of references for each of its workers: the node keeps a history, the two latest stamps of
//! every referenced page that it knows, and a buffer pool over its devices, whose pages that
//! history ranks. The world also stores every message that a replica sent, so that a message may be
//! delivered to any replica, never, once or many times, and in any order.
//!
//! [`World::step`] answers one event and [`World::run`] a list of them. Their contracts are stated
//! over a model: plain lists of references, and the views of pools (`specs/States.antt`,
//! `specs/Effects.antt`). The model does not exist at run time.
#![tactic(auto)]

mod event;
mod gossip;
pub mod laws;
mod nodes;
mod play_fault;
mod pool_events;
mod replica;
mod setup;
mod shown;
mod world;

pub use event::{Answer, BadWorld, Event, WorldFault};
pub use nodes::{are_usable, nodes_over};
pub use play_fault::PlayFault;
pub use setup::{BadSetup, Setup};
pub use shown::ShownHistory;
pub use world::{World, are_sized};

/// The maximum number of workers of a replica. They are numbered from 1.
pub const MAX_WORKERS: u16 = 16;
