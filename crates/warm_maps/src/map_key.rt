//! The keys of the maps: by them the entries of a bucket lie together, in page order.
ghost use Rattle.std.specs.Prelude.{◌≡◌, ◌<◌, ◌^◌};
ghost use Rattle.warm_stamps.specs.declared.TheConstants.{BUCKETS};
ghost use Rattle.warm_maps.specs.MapKeys.{first_key, first_far_key, key_in, key_of_page};
ghost use Rattle.warm_maps.specs.MapKeys.{near_key, near_page, page_of_key, IsMapKey};

use crate::near_key::NearKey;
use warm_stamps::{BUCKETS, PageId, bucket_of};

// The number of keys of each bucket: 2^80, one for each page.
pub(crate) const KEYS_PER_BUCKET: u128 = 1 << 80;

// The number of keys from a device to the next: 2^64, one for each page number.
const KEYS_PER_DEVICE: u128 = 1 << 64;

// The number of near devices. A page of one of them also has a key of 64 bits, its near key.
pub(crate) const NEAR_DEVICES: u16 = 64;

// The number of near keys from a device to the next: 2^58.
const NEAR_KEYS_PER_DEVICE: u64 = 1 << 58;

// The pages of a device that have one near key, each in another bucket.
const PAGES_PER_NEAR_KEY: u64 = BUCKETS as u64;

// The first key of a bucket.
pub(crate) fn first_key(number: u8) -> u128
    ensures { result ≡ first_key number }
{
    u128::from(number) * KEYS_PER_BUCKET
}

// The key of a page, were it in the bucket of this number.
pub(crate) fn key_in(number: u8, page: PageId) -> u128
    ensures { result ≡ key_in number page }
{
    first_key(number) + (u128::from(page.dev) * KEYS_PER_DEVICE + u128::from(page.no))
}

// The key of a page.
pub(crate) fn key_of_page(page: PageId) -> u128
    ensures value { result ≡ key_of_page page }
    ensures back { page_of_key result ≡ page }
    ensures key { IsMapKey result }
{
    key_in(bucket_of(page).get(), page)
}

// The page of a key.
pub(crate) fn page_of_key(key: u128) -> PageId
    ensures { result ≡ page_of_key key }
{
    PageId {
        dev: (key / KEYS_PER_DEVICE % (1 << 16)) as u16,
        no: (key % KEYS_PER_DEVICE) as u64,
    }
}

// The first key of a bucket that is of no near device.
pub(crate) fn first_far_key(number: u8) -> u128
    ensures { result ≡ first_far_key number }
{
    first_key(number) + u128::from(NEAR_DEVICES) * KEYS_PER_DEVICE
}

// The near key of a page.
pub(crate) fn near_key(page: PageId) -> NearKey
    requires { page.dev < NEAR_DEVICES }
    ensures value { result ≡ near_key page }
    ensures below { result < 2 ^ 64 }
{
    NearKey::new(u64::from(page.dev) * NEAR_KEYS_PER_DEVICE + page.no / PAGES_PER_NEAR_KEY)
}

// The page of a near key in the bucket of this number.
pub(crate) fn near_page(number: u8, key: NearKey) -> PageId
    requires { number < BUCKETS }
    ensures { result ≡ near_page number key }
{
    let bits = key.get();
    let dev = bits / NEAR_KEYS_PER_DEVICE;
    let low = (u64::from(number) + PAGES_PER_NEAR_KEY - dev) % PAGES_PER_NEAR_KEY;
    PageId {
        dev: dev as u16,
        no: bits % NEAR_KEYS_PER_DEVICE * PAGES_PER_NEAR_KEY + low,
    }
}
