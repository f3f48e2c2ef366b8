//! What an open handle of the library for C holds, and its calls: a node over C's devices
//! ([`OpenNode`]), or a visit ([`OpenVisit`]).
//!
//! A call takes and gives values as C has them (`warm_c_base`), and makes the call of the node, of
//! its pool or of the visit that has its name. `warm_c` has the handles, which may be closed, and
//! the functions that C calls.
#![tactic(auto)]

mod count_calls;
mod device_calls;
mod dump_calls;
mod engine_calls;
mod frame_calls;
mod history_calls;
mod lending;
pub mod message_limits;
pub mod open_node;
pub mod open_visit;
mod opening;
mod pool_calls;
mod visit_begins;
mod visit_calls;

pub use message_limits::NodeLimits;
pub use open_node::OpenNode;
pub use open_visit::OpenVisit;
pub use opening::open;
