//! What a pool counts, and the call of a device that failed last.
ghost use Rattle.std.specs.Prelude.{◌≡◌, length};
ghost use Rattle.warm_pool.specs.View.{view_of};
ghost use Rattle.warm_pool.specs.Residents.{resident_pages};

use crate::pool::Pool;
use crate::tally::{FailedCall, PoolCounts};
use warm_devices::PageDevice;

impl<D: PageDevice> Pool<D> {
    /// How many hits, misses, evictions and pages written back there were since the pool was made.
    /// The contract doesn't say how they grow. The calls of a device are counted by a
    /// [`warm_devices::Counted`].
    pub fn counts(&self) -> PoolCounts {
        self.tally.counts()
    }

    /// The call of a device that failed last; `None` if none has failed since the pool was made.
    /// The contract doesn't say which.
    pub fn last_failure(&self) -> Option<FailedCall> {
        self.tally.last_failure()
    }

    /// The number of resident pages. The cost is constant.
    pub fn resident_count(&self) -> usize
        ensures { result ≡ length (resident_pages (view_of self.now)) }
    {
        self.frames.held()
    }
}
