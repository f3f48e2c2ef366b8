//! One replica: its history, its buffer pool, and the calls that it answers.
//!
//! A [`Node`] has the history of the references that it received, and a buffer pool whose pages
//! that history ranks. It answers one [`Call`] at a time with a [`Reply`]:
//! - *of the history*: `Absorb` adds references; `Offer`, `Send` and `Receive` exchange histories
//!   between replicas as messages.
//! - *of the pool*: `Pin`, `Read`, `Write` and `Unpin` work on a page; `Victim` names the page that
//!   would be evicted next.
//! - *of both*: `WarmList` and `WarmStep` load the hottest pages, as on a standby before it takes
//!   over; `Restart` forgets all.
//!
//! **A pin is not a reference.** A node ranks pages only by the references that it absorbed: a
//! caller that pins a page also makes a reference to it, with the time of its own clock and its
//! replica, and has the node absorb it.
//!
//! Each call is also a method of its own, as [`Node::pin`], which gives its result or the
//! [`NodeFault`]. [`Node::call`] is for callers that store, send or replay calls as values.
//!
//! A program that holds a node, as a database engine does, has more than the calls: it is lent the
//! bytes of pages ([`Node::bytes_mut`]), pins pages with zeros, writes dirty pages back a few at a
//! time, and has pages forgotten when it cuts a file ([`Node::forget_pages`]).
//!
//! Contracts see a node as the plain data of `specs/State.antt`; `specs/Step.antt` defines the
//! effect of each call on what a caller sees of it, and the refusals.
#![tactic(auto)]

mod call;
mod engine_calls;
mod fault;
mod history_calls;
pub mod laws;
mod lending;
mod machine;
mod node;
mod pool_calls;
mod warm_step;

pub use call::{Call, Reply};
pub use fault::NodeFault;
pub use machine::ViewOfNode;
pub use node::Node;
