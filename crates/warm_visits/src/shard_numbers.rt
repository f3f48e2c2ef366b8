//! How many shards there can be, and which one a page has.
ghost use Rattle.std.specs.Prelude.{◌≡◌, ◌↔◌, ◌<◌, IsTrue};
ghost use Rattle.warm_visits.specs.ShardNumbers.{IsShardCount, shard_of};

use warm_stamps::{BUCKETS, PageId, bucket_of};

/// Whether there can be this many shards: a power of two, up to 64. Allocation-free.
pub fn is_shard_count(count: usize) -> bool
    ensures { IsTrue result ↔ IsShardCount count }
{
    count.is_power_of_two() && count <= usize::from(BUCKETS)
}

/// The shard of a page, of this many: its bucket, modulo their number. Allocation-free.
pub fn shard_of(count: usize, page: PageId) -> usize
    requires { IsShardCount count }
    ensures value { result ≡ shard_of count page }
    ensures below { result < count }
{
    usize::from(bucket_of(page).get()) % count
}
