//! The digests of one shard's buckets.
ghost use Rattle.std.specs.Prelude.{◌<◌};
ghost use Rattle.warm_stamps.specs.declared.TheConstants.{BUCKETS};
ghost use Rattle.warm_visits.specs.Digests.{FillsShard};

use warm_frames::{DIGEST_SIZE, DigestTable};
use warm_stamps::{BUCKETS, Bucket};

/// Copies the digests of one shard's buckets from a table into their places. The other digests are
/// unchanged. Bucket b is of shard b modulo `count`.
pub fn fill_digests(
    digests: &mut [[u8; DIGEST_SIZE]; BUCKETS as usize],
    table: &DigestTable,
    count: usize,
    shard: usize,
)
    requires { 0 < count }
    ensures { FillsShard count shard digests.old table.now digests.new }
{
    for number in 0..BUCKETS {
        let Some(bucket) = Bucket::new(number) else {
            unreachable!()
        };
        if number as usize % count == shard {
            digests[number as usize] = table.digest(bucket);
        }
    }
}
