//! A call of a whole replica that is in shards, as a value: a [`Visit`].
//!
//! A visit names the shard that it wants next, enters the node of that shard with one step, and
//! ends with what was made: answers, an offer, a copy. Whoever has the nodes drives it: a loop over
//! nodes that nobody else has (`warm_shards`), or C by its locks. It decides what is asked of each
//! shard; the driver decides nothing.
//!
//! Contracts see a visit as the errands that it still has, each at one shard, and what those before
//! have made: `specs/Visits.antt`. Whatever others do between two entries, the errands together
//! give the whole what the call gives ([`laws::visit_gives_the_whole`]).
#![tactic(auto)]

mod batch_parts;
mod copying;
mod digests;
mod gathering;
mod giving;
pub mod laws;
mod reading;
mod sending;
mod shard_numbers;
mod stage;
mod visit;
mod visit_messages;

pub use batch_parts::{PartList, only_shard, parts_of};
pub use digests::fill_digests;
pub use shard_numbers::{is_shard_count, shard_of};
pub use stage::Stage;
pub use visit::{Visit, entries_of};
