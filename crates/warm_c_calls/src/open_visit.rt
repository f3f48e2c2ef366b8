//! The visit that an open handle of visits holds.
use warm_visits::Visit;

/// A call of a whole replica, which enters one shard after the other.
#[derive(Drop)]
pub struct OpenVisit {
    /// The visit. One that is idle has no errand, and has made nothing.
    pub visit: Visit,
}
