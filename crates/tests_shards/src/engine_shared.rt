//! What an engine asks of shared shards, in turns of the shards: the hottest pages of one or of all,
//! what is new since a time, pages written back in portions, pages of zeros, and pages that are
//! forgotten.
ghost use Rattle.warm_concurrent.specs.Attached.{AreOf};

use crate::kit::{batch, bytes_of, closed, dirty, node, shared_of};
use crate::looking::seen_in;
use crate::shared::is_written;
use std::sync::Wait;
use test_kit::{SeenAt, bucket, page, page_on};
use warm_concurrent::{Attached, SharedFault, SharedShards, Stopped};
use warm_devices::MemDevice;
use warm_frames::Message;
use warm_gossip::NodeFault;
use warm_pool::PoolFault;
use warm_stamps::PageList;

type Shared = SharedShards<MemDevice>;

type Thread = Attached<MemDevice>;

// Pages 1 and 65 are of shard 1, if there are two shards. Page 1 alone is referenced twice.
const GIVEN: &[SeenAt] = &[(0, 1, 2, 1), (0, 65, 3, 1), (0, 1, 4, 1), (0, 2, 5, 1)];

// The hottest pages of a shard.
fn hottest<R: Wait>(
    rt: &R,
    shared: &Shared,
    thread: &mut Thread,
    shard: usize,
    n: usize,
) -> Option<PageList>
    requires { AreOf shared.now thread.old.passes }
    ensures { AreOf shared.now thread.new.passes }
{
    if shard >= shared.count() {
        return None;
    }
    shared.warm_list_of(rt, thread, shard, n).ok()
}

#[test]
fn the_hottest_pages_of_a_shard_are_listed(rt: HostRuntime) {
    let alloc = rt.alloc();
    let (shared, mut first) = shared_of(&rt, alloc, 1, 2);
    let given = batch(&rt, alloc, GIVEN);
    assert!(rt; shared.absorb(&rt, alloc, &mut first, &given).is_ok());
    let two = hottest(&rt, &shared, &mut first, 1, 8).expect(&rt, "memory for a list");
    assert!(rt; two.as_slice() == [page(1), page(65)].as_slice());
    let one = hottest(&rt, &shared, &mut first, 1, 1).expect(&rt, "memory for a list");
    assert!(rt; one.as_slice() == [page(1)].as_slice());
    let other = hottest(&rt, &shared, &mut first, 0, 8).expect(&rt, "memory for a list");
    assert!(rt; other.as_slice() == [page(2)].as_slice());
}

// A node of the same references lists the same pages.
#[test]
fn the_hottest_pages_of_all_shards_are_listed(rt: HostRuntime) {
    let alloc = rt.alloc();
    let (shared, mut first) = shared_of(&rt, alloc, 1, 2);
    let given = batch(&rt, alloc, GIVEN);
    assert!(rt; shared.absorb(&rt, alloc, &mut first, &given).is_ok());
    let all = shared.warm_list(&rt, alloc, &mut first, 8);
    let all = all.ok().expect(&rt, "memory for a list");
    assert!(rt; all.as_slice() == [page(1), page(2), page(65)].as_slice());
    let mut model = node(&rt, alloc, 1);
    model.absorb(&given).ok().expect(&rt, "memory for pages");
    let listed = model.warm_list(8).ok().expect(&rt, "memory for a list");
    assert!(rt; all.as_slice() == listed.as_slice());
    let two = shared.warm_list(&rt, alloc, &mut first, 2);
    let two = two.ok().expect(&rt, "memory for a list");
    assert!(rt; two.as_slice() == [page(1), page(2)].as_slice());
    let none = shared.warm_list(&rt, alloc, &mut first, 0);
    assert!(rt;
        none.ok()
            .expect(&rt, "memory for a list")
            .as_slice()
            .is_empty()
    );
}

#[test]
fn each_page_is_in_the_shard_of_its_number(rt: HostRuntime) {
    let alloc = rt.alloc();
    let (shared, mut first) = shared_of(&rt, alloc, 1, 4);
    assert!(rt; shared.shard_of(page(0)) == 0 && shared.shard_of(page(3)) == 3);
    assert!(rt; shared.shard_of(page(65)) == 1 && shared.shard_of(page_on(1, 3)) == 0);
    let at = shared.pin(&rt, &mut first, page(6));
    let at = at.ok().expect(&rt, "page 6 is pinned");
    assert!(rt; at.shard == shared.shard_of(page(6)) && at.shard == 2);
    assert!(rt; shared.unpin(&rt, &mut first, at).is_ok());
}

// The pages of a message of entries.
fn known_in(message: &Message) -> usize {
    match message {
        Message::Entries { entries, .. } => entries.as_slice().len(),
        Message::Digest { .. } | Message::Want { .. } => 0,
    }
}

#[test]
fn what_is_new_in_a_bucket_is_sent(rt: HostRuntime) {
    let alloc = rt.alloc();
    let (shared, mut first) = shared_of(&rt, alloc, 1, 2);
    let given = batch(&rt, alloc, GIVEN);
    assert!(rt; shared.absorb(&rt, alloc, &mut first, &given).is_ok());
    let whole = shared.send(&rt, &mut first, bucket(1), None);
    let whole = whole.ok().expect(&rt, "memory for a message");
    let all = shared.send_since(&rt, &mut first, bucket(1), 0, None);
    let all = all.ok().expect(&rt, "memory for a message");
    assert!(rt; !all.more);
    assert!(rt; bytes_of(&rt, alloc, &all.message) == bytes_of(&rt, alloc, &whole));
    let late = shared.send_since(&rt, &mut first, bucket(1), 4, None);
    let late = late.ok().expect(&rt, "memory for a message");
    assert!(rt; !late.more && known_in(&late.message) == 1);
    let past = shared.send_since(&rt, &mut first, bucket(1), 0, Some(page(1)));
    let past = past.ok().expect(&rt, "memory for a message");
    assert!(rt; !past.more && known_in(&past.message) == 1);
}

fn some_written<R: Wait>(
    rt: &R,
    shared: &Shared,
    thread: &mut Thread,
    shard: usize,
    limit: usize,
) -> Result<usize, SharedFault>
    requires { AreOf shared.now thread.old.passes }
    ensures { AreOf shared.now thread.new.passes }
{
    if shard >= shared.count() {
        return Ok(0);
    }
    let left = shared.write_back_some(rt, thread, shard, limit)?;
    Ok(left)
}

#[test]
fn dirty_pages_of_a_shard_are_written_in_portions(rt: HostRuntime) {
    let alloc = rt.alloc();
    let (shared, mut first) = shared_of(&rt, alloc, 1, 2);
    assert!(rt; is_written(&rt, alloc, &shared, &mut first, 1));
    assert!(rt; is_written(&rt, alloc, &shared, &mut first, 2));
    assert!(rt; is_written(&rt, alloc, &shared, &mut first, 3));
    assert!(rt; is_written(&rt, alloc, &shared, &mut first, 5));
    assert!(rt; some_written(&rt, &shared, &mut first, 1, 0) == Ok(3));
    assert!(rt; some_written(&rt, &shared, &mut first, 1, 2) == Ok(1));
    assert!(rt; dirty(&closed(&rt, alloc, shared, first)) == 2);
}

#[test]
fn a_page_of_a_shard_gets_zeros(rt: HostRuntime) {
    let alloc = rt.alloc();
    let (shared, mut first) = shared_of(&rt, alloc, 1, 2);
    assert!(rt; is_written(&rt, alloc, &shared, &mut first, 1));
    assert!(rt; shared.write_back_all(&rt, &mut first).is_ok());
    assert!(rt; seen_in(&rt, &shared, &mut first, 1) == Ok(7));
    let at = shared.pin_zeroed(&rt, &mut first, page(1));
    let at = at.ok().expect(&rt, "page 1 is pinned");
    assert!(rt; at.shard == 1 && first.pins() == 1);
    assert!(rt; seen_in(&rt, &shared, &mut first, 1) == Ok(0));
    assert!(rt; shared.unpin(&rt, &mut first, at).is_ok());
    let absent = Err(SharedFault::Node(NodeFault::Pool(PoolFault::NoPage)));
    assert!(rt; shared.pin_zeroed(&rt, &mut first, page(256)) == absent);
    assert!(rt; dirty(&closed(&rt, alloc, shared, first)) == 1);
}

// A call that is refused so at a shard.
fn stopped_at(shard: usize, fault: PoolFault) -> Result<(), Stopped> {
    let fault = SharedFault::Node(NodeFault::Pool(fault));
    Err(Stopped { fault, shard })
}

#[test]
fn pages_from_a_number_on_are_forgotten(rt: HostRuntime) {
    let alloc = rt.alloc();
    let (shared, mut first) = shared_of(&rt, alloc, 1, 2);
    assert!(rt; is_written(&rt, alloc, &shared, &mut first, 1));
    assert!(rt; is_written(&rt, alloc, &shared, &mut first, 2));
    assert!(rt; is_written(&rt, alloc, &shared, &mut first, 5));
    let at = shared.pin(&rt, &mut first, page(5));
    let at = at.ok().expect(&rt, "page 5 is pinned");
    // Shard 0 forgets page 2, and shard 1 has a pinned page.
    let fixed = stopped_at(1, PoolFault::Fixed);
    assert!(rt; shared.forget_pages(&rt, &mut first, 0, 2) == fixed);
    assert!(rt; seen_in(&rt, &shared, &mut first, 2) == Ok(0));
    assert!(rt; seen_in(&rt, &shared, &mut first, 5) == Ok(7));
    assert!(rt; shared.unpin(&rt, &mut first, at).is_ok());
    assert!(rt; shared.forget_pages(&rt, &mut first, 0, 2).is_ok());
    assert!(rt; seen_in(&rt, &shared, &mut first, 5) == Ok(0));
    assert!(rt; seen_in(&rt, &shared, &mut first, 1) == Ok(7));
    let absent = stopped_at(0, PoolFault::NoDevice);
    assert!(rt; shared.forget_pages(&rt, &mut first, 1, 0) == absent);
    assert!(rt; dirty(&closed(&rt, alloc, shared, first)) == 1);
}
