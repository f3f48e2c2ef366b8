//! Digests of buckets, computed from a history and cached.

use std::alloc::Global;
use std::process::Abort;
use test_kit::{SeenAt, bucket, history_of, references};
use warm_digest::{DigestedHistory, Digests, differing, digests};
use warm_frames::DigestTable;
use warm_history::History;
use warm_stamps::BucketSet;

// SHA-256 of the empty byte string.
const OF_NOTHING: [u8; 32] = [
    0xe3, 0xb0, 0xc4, 0x42, 0x98, 0xfc, 0x1c, 0x14, 0x9a, 0xfb, 0xf4, 0xc8, 0x99, 0x6f, 0xb9, 0x24,
    0x27, 0xae, 0x41, 0xe4, 0x64, 0x9b, 0x93, 0x4c, 0xa4, 0x95, 0x99, 0x1b, 0x78, 0x52, 0xb8, 0x55,
];

// SHA-256, by another program, of the 31 bytes
// 0000 0000000000000007 02 0000000000000014 0001 000000000000000A 0001.
const OF_0_7: [u8; 32] = [
    0x57, 0x8d, 0x81, 0xdb, 0xdf, 0x5f, 0xd3, 0xe0, 0x07, 0x79, 0xc5, 0xbd, 0x08, 0xa0, 0x98, 0x30,
    0xe3, 0x4a, 0xfd, 0x26, 0xf9, 0x02, 0xb2, 0x4c, 0x9e, 0xfa, 0x02, 0x1d, 0x20, 0x1e, 0xbb, 0x51,
];

// The same of the entries of 0:1 with 5@1, 0:65 with 30@1 and 20@1, and 1:0 with 7@1.
const OF_THREE_PAGES: [u8; 32] = [
    0xf4, 0x3b, 0x7d, 0x2e, 0x41, 0x05, 0xd1, 0x09, 0xca, 0x39, 0xe7, 0xbe, 0x2d, 0x6f, 0x42, 0xce,
    0xe4, 0x2d, 0xeb, 0x54, 0x89, 0x33, 0x4c, 0x83, 0xed, 0xef, 0x3f, 0x6b, 0x75, 0x89, 0x69, 0x7f,
];

// The same of the entry of 0:7 with 20@1 alone.
const OF_0_7_SINCE_20: [u8; 32] = [
    0x69, 0x46, 0x2e, 0xf1, 0xae, 0x4a, 0x30, 0xd3, 0xfa, 0x8b, 0x54, 0x08, 0xfa, 0x58, 0x5f, 0x27,
    0x7d, 0xfb, 0x7b, 0xa2, 0x3b, 0x44, 0x7b, 0xcd, 0x18, 0x43, 0x3b, 0x5d, 0xd1, 0xbf, 0xcf, 0x6c,
];

// The same of the entry of 0:65 with 30@1 and 20@1.
const OF_0_65: [u8; 32] = [
    0xc5, 0x6a, 0x45, 0x74, 0xe8, 0x32, 0xc2, 0x9c, 0x90, 0xeb, 0x69, 0x32, 0xdd, 0x49, 0xa5, 0xbb,
    0x42, 0x54, 0x5b, 0xe3, 0x67, 0xbd, 0xc5, 0x6c, 0xfb, 0xd2, 0x3c, 0x44, 0x8a, 0x8f, 0x59, 0xbc,
];

// References of which bucket 1 has three pages, bucket 7 one, and no other any.
pub const FOUR_PAGES: [SeenAt; 7] = [
    (1, 0, 7, 1),
    (0, 65, 20, 1),
    (0, 7, 10, 1),
    (0, 1, 5, 1),
    (0, 65, 10, 1),
    (0, 7, 20, 1),
    (0, 65, 30, 1),
];

// The digests of the history of these references.
fn digests_of(rt: &impl Abort, alloc: Global, given: &[SeenAt]) -> DigestTable {
    let history = history_of(alloc, given).expect(rt, "memory for a history");
    digests(alloc, &history).expect(rt, "memory for the digests")
}

// Of which of the four pages a table has digests: none, those of bucket 1, all, or all as cut at
// the horizon 20. Each case has a name, since a digest of 32 bytes is expensive to prove wherever
// it occurs.
#[derive(Clone, Copy)]
enum Pages {
    None,
    OfBucket1,
    All,
    Since20,
}

fn digest_of(index: u8, pages: Pages) -> [u8; 32] {
    match (index, pages) {
        (1, Pages::OfBucket1 | Pages::All) => OF_THREE_PAGES,
        (7, Pages::All) => OF_0_7,
        (1, Pages::Since20) => OF_0_65,
        (7, Pages::Since20) => OF_0_7_SINCE_20,
        _ => OF_NOTHING,
    }
}

// Whether each bucket has the digest of its own pages of these.
fn has_digests(table: &DigestTable, pages: Pages) -> bool {
    for index in 0..64 {
        if table.digest(bucket(index)) != digest_of(index, pages) {
            return false;
        }
    }
    true
}

#[test]
fn a_bucket_has_the_digest_of_its_entries(rt: HostRuntime) {
    assert!(rt; has_digests(&digests_of(&rt, rt.alloc(), &[]), Pages::None));
    assert!(rt; has_digests(&digests_of(&rt, rt.alloc(), &FOUR_PAGES), Pages::All));
    assert!(rt; has_digests(&Digests::new(rt.alloc()).table(), Pages::None));
}

// Whether the cached digests are those of the given ones of the four pages.
fn keeps(rt: &impl Abort, digested: &mut DigestedHistory, pages: Pages) -> bool {
    has_digests(
        &digested.digests().expect(rt, "memory for the digests"),
        pages,
    )
}

// The digests of the four pages stay cached, however often they are requested.
fn takes_in_four(rt: &impl Abort, alloc: Global, digested: &mut DigestedHistory) {
    let batch = references(alloc, &FOUR_PAGES).expect(rt, "memory for references");
    digested.absorb(&batch).expect(rt, "memory for a batch");
    assert!(rt; keeps(rt, digested, Pages::All));
    assert!(rt; keeps(rt, digested, Pages::All));
}

// The cached digests follow the horizon as it rises, by a raise or by a message without entries, and
// don't change for an earlier time.
fn follow_the_horizon(rt: &impl Abort, digested: &mut DigestedHistory) {
    digested.raise(20);
    assert!(rt; keeps(rt, digested, Pages::Since20));
    digested
        .join_entries(19, &[])
        .expect(rt, "no memory is taken");
    assert!(rt; digested.horizon() == 20);
    assert!(rt; keeps(rt, digested, Pages::Since20));
    digested
        .join_entries(u64::MAX, &[])
        .expect(rt, "no memory is taken");
    assert!(rt; keeps(rt, digested, Pages::None));
}

#[test]
fn kept_digests_follow_the_horizon(rt: HostRuntime) {
    let mut digested = DigestedHistory::new(rt.alloc());
    takes_in_four(&rt, rt.alloc(), &mut digested);
    follow_the_horizon(&rt, &mut digested);
    digested.clear();
    assert!(rt; digested.history().len() == 0 && digested.horizon() == 0);
    assert!(rt; keeps(&rt, &mut digested, Pages::None));
}

#[test]
fn differing_buckets_are_set_bits(rt: HostRuntime) {
    let empty = digests_of(&rt, rt.alloc(), &[]);
    let one_page = digests_of(&rt, rt.alloc(), &[(0, 1, 10, 1)]);
    assert!(rt; differing(&one_page, &empty).bits() == 2);
    assert!(rt; differing(&one_page, &one_page).is_empty());
    let more = [(0, 1, 10, 1), (0, 63, 10, 1), (64, 0, 10, 1)];
    let more = digests_of(&rt, rt.alloc(), &more);
    assert!(rt; differing(&more, &one_page).bits() == 0x8000_0000_0000_0001);
    let all = DigestTable::of([[0; 32]; 64]);
    assert!(rt; differing(&all, &more) == BucketSet::all());
}

#[test]
fn a_renewal_is_of_the_buckets_asked_for(rt: HostRuntime) {
    let history = history_of(rt.alloc(), &FOUR_PAGES).expect(&rt, "memory for a history");
    let mut kept = Digests::new(rt.alloc());
    kept.renew(&history, BucketSet::from_bits(2))
        .expect(&rt, "memory for the digests");
    assert!(rt; has_digests(&kept.table(), Pages::OfBucket1));
    kept.renew(&history, BucketSet::new())
        .expect(&rt, "nothing to renew");
    assert!(rt; has_digests(&kept.table(), Pages::OfBucket1));
    kept.renew(&history, BucketSet::all())
        .expect(&rt, "memory for the digests");
    assert!(rt; has_digests(&kept.table(), Pages::All));
}
