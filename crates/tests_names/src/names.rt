//! Each public call of the specification, used by its name and crate, with a result that the
//! specification gives. A name that is lost stops this module from compiling.
//!
//! The crates follow one another as in the specification, and each has a test of its own.
ghost use Rattle.warm_pool.specs.State.{IsRankedByAll, RankedBy};

mod plays;

use anyhow::Result;
use std::alloc::Global;
use std::process::Abort;
use test_kit::{alone, entry, history_of, once, page, replica, seen, stamp, twice};
use warm_devices::{DeviceFault, FileDevice, Flaky, MemDevice, OpenFault, PageDevice, let_go};
use warm_digest::{Sums, differing, sums};
use warm_frames::{
    Decoder, EntryList, Fed, Frame, FrameFault, FrameList, SumTable, decode, encode,
};
use warm_gossip::laws::told_is_history;
use warm_gossip::{Call, Node, NodeFault, Reply};
use warm_history::laws::{join_associates, join_commutes, join_is_least, join_repeats};
use warm_history::{Entry, History, PageHist, Two, join_hist};
use warm_pool::{Pool, PoolFault, Slot};
use warm_rank::{Contest, RankKey, key_of, warm_list};
use warm_refbuffer::{BufferFault, Full, RefBuffer};
use warm_stamps::{
    BadReplica, Bucket, BucketSet, ByteList, PageId, RefList, Reference, ReplicaId, Stamp,
    bucket_of, page_bytes, page_from, page_from_narrow, stamp_bytes, stamp_from,
};

// ---- warm_stamps

#[test]
fn names_of_warm_stamps(rt: HostRuntime) {
    let first = replica(1);
    assert!(rt; first.get() == 1 && ReplicaId::new(1) == Ok(first));
    assert!(rt; ReplicaId::new(0) == Err(BadReplica) && ReplicaId::new(65) == Err(BadReplica));
    let late = Stamp {
        time: 20,
        replica: first,
    };
    let wide = PageId {
        dev: 1,
        no: 4_294_967_298,
    };
    let made = Reference {
        page: wide,
        stamp: late,
    };
    assert!(rt; stamp(10, 1) < late && page(7) < wide && seen(page(7), 30, 1) < made);
    assert!(rt; Bucket::new(63).is_some() && Bucket::new(64).is_none());
    assert!(rt; bucket_of(wide).get() == 3); // 1 and 2^32 + 2, modulo 64
    assert!(rt; stamp_bytes(late) == [0, 0, 0, 0, 0, 0, 0, 20, 0, 1]);
    assert!(rt; stamp_from(&stamp_bytes(late)) == Ok(late));
    assert!(rt; stamp_from(&[0; 10]) == Err(BadReplica));
    assert!(rt; page_bytes(wide) == [0, 1, 0, 0, 0, 1, 0, 0, 0, 2]);
    assert!(rt; page_from(&page_bytes(wide)) == wide);
    assert!(rt; page_from_narrow(&[0, 0, 0, 0, 0, 7]) == page(7));
}

// ---- warm_history

fn two_in(hist: PageHist) -> Option<Two> {
    match hist {
        PageHist::Twice(two) => Some(two),
        PageHist::Once(_) => None,
    }
}

// The pages 0:1 and 0:65, which are of one bucket.
fn use_history(rt: &impl Abort, alloc: Global) -> Result<()> {
    let mut history = History::new(alloc);
    history.absorb(&[seen(page(1), 10, 1), seen(page(1), 20, 1)])?;
    history.absorb(&[seen(page(65), 15, 1)])?;
    let known: Entry = entry(page(1), twice((20, 1), (10, 1)));
    assert!(rt; history.len() == 2 && history.at(0) == Some(known) && history.at(2).is_none());
    assert!(rt; history.get(page(65)) == Some(once(15, 1)) && history.get(page(2)).is_none());
    let rest = history.entries(bucket_of(page(1)), Some(page(1)), 1)?;
    assert!(rt; rest.as_slice() == [entry(page(65), once(15, 1))].as_slice());
    let mut other = history.copy()?;
    other.join(&history)?;
    assert!(rt; other.len() == 2 && other.horizon() == 0);
    other.join_entries(12, &[entry(page(2), once(30, 1))])?;
    assert!(rt; other.horizon() == 12 && other.get(page(1)) == Some(once(20, 1)));
    other.raise(25);
    assert!(rt; other.horizon() == 25 && other.len() == 1);
    Ok(())
}

#[test]
fn names_of_warm_history(rt: HostRuntime) {
    assert!(rt; use_history(&rt, rt.alloc()).is_ok());
    let two = two_in(join_hist(once(10, 1), once(20, 1))).expect(&rt, "two stamps");
    assert!(rt; two.last() == stamp(20, 1) && two.prev() == stamp(10, 1));
    join_commutes();
    join_associates();
    join_repeats();
    join_is_least();
}

// ---- warm_refbuffer

fn use_buffer(rt: &impl Abort, alloc: Global) -> Result<()> {
    let mut buffer = RefBuffer::new(alloc, 1)?;
    assert!(rt; buffer.touch(seen(page(1), 10, 1)) == Ok(()));
    assert!(rt; buffer.touch(seen(page(1), 20, 1)) == Err(Full(seen(page(1), 20, 1))));
    assert!(rt; buffer.refs() == [seen(page(1), 10, 1)].as_slice() && buffer.len() == 1);
    buffer.clear();
    assert!(rt; buffer.len() == 0 && buffer.cap() == 1);
    Ok(())
}

#[test]
fn names_of_warm_refbuffer(rt: HostRuntime) {
    let alloc = rt.alloc();
    assert!(rt; use_buffer(&rt, alloc).is_ok());
    assert!(rt; RefBuffer::new(alloc, 0).err() == Some(BufferFault::BadCapacity));
    assert!(rt; BufferFault::Memory.code() == 1 && BufferFault::BadCapacity.code() == 2);
    let full = Full(seen(page(1), 10, 1));
    assert!(rt; full.code() == 3 && full.name() == "Full");
}

// ---- warm_rank

// 0:1 at 2 and 1, 0:5 at 10, 0:6 at 11: the pages seen once leave first.
fn use_ranks(rt: &impl Abort, alloc: Global) -> Result<()> {
    let given = [(0, 1, 1, 1), (0, 1, 2, 1), (0, 5, 10, 1), (0, 6, 11, 1)];
    let history = history_of(alloc, &given)?;
    let hottest: RankKey = key_of(page(1), history.get(page(1)));
    let first: RankKey = key_of(page(5), history.get(page(5)));
    let second: RankKey = key_of(page(6), history.get(page(6)));
    assert!(rt; first < second && second < hottest);
    let mut contest = Contest::new(alloc, 3)?;
    contest.set(0, Some(hottest));
    contest.set(1, Some(first));
    contest.set(2, Some(second));
    assert!(rt; contest.least() == Some(1));
    contest.set(1, None);
    assert!(rt; contest.least() == Some(2));
    let warm = warm_list(alloc, &history, 2)?;
    assert!(rt; warm.as_slice() == [page(1), page(6)].as_slice());
    Ok(())
}

#[test]
fn names_of_warm_rank(rt: HostRuntime) {
    assert!(rt; use_ranks(&rt, rt.alloc()).is_ok());
}

// ---- warm_frames

// A request of replica 2 for bucket 1.
fn wants(horizon: u64) -> Frame {
    Frame::Want {
        sender: replica(2),
        horizon,
        request: BucketSet::from_bits(2),
    }
}

fn use_frames(rt: &impl Abort, alloc: Global) -> Result<()> {
    let bytes = encode(alloc, &wants(12))?;
    assert!(rt; bytes.len() == 27);
    let frame: Frame = decode(alloc, &bytes)?;
    assert!(rt; matches!(frame, Frame::Want { horizon: 12, .. }));
    let mut decoder = Decoder::new(alloc);
    let (front, back) = bytes.as_slice().split_at(26);
    let part = decoder.feed(front)?;
    assert!(rt; part.taken == 26 && decoder.finish() == Err(FrameFault::Truncated));
    let fed: Fed = decoder.feed(back)?;
    assert!(rt; fed.taken == 1 && fed.message.is_some() && decoder.finish() == Ok(()));
    assert!(rt; decoder.feed(&[0x4D, 0, 0, 0]).err() == Some(FrameFault::BadMagic));
    assert!(rt; decoder.feed(&bytes).err() == Some(FrameFault::Failed));
    Ok(())
}

// The entries of 0:7 and 0:6, in this order, which is no page order.
fn falling(alloc: Global) -> Result<Vec<Entry>> {
    let mut entries = Vec::with_capacity(alloc, 2)?;
    entries.push_reserved(entry(page(7), once(10, 1)));
    entries.push_reserved(entry(page(6), once(10, 1)));
    Ok(entries)
}

#[test]
fn names_of_warm_frames(rt: HostRuntime) {
    let alloc = rt.alloc();
    assert!(rt; use_frames(&rt, alloc).is_ok());
    let entries = falling(alloc).expect(&rt, "memory for entries");
    let given = EntryList::of(entries).err().expect(&rt, "pages that fall");
    assert!(rt; given.len() == 2);
    assert!(rt; FrameFault::Memory.code() == 1 && FrameFault::Failed.code() == 11);
    assert!(rt; FrameFault::BadOrder.name() == "BadOrder");
}

// ---- warm_digest

fn use_sums(rt: &impl Abort, alloc: Global) -> Result<()> {
    let history = history_of(alloc, &[(0, 1, 10, 1)])?;
    let of_history: SumTable = sums(alloc, &history)?;
    let mut kept = Sums::new(alloc);
    let of_nothing: SumTable = kept.table();
    assert!(rt; differing(&of_history, &of_nothing).bits() == 2);
    kept.renew(&history, BucketSet::from_bits(2))?;
    assert!(rt; differing(&of_history, &kept.table()).bits() == 0);
    Ok(())
}

#[test]
fn names_of_warm_digest(rt: HostRuntime) {
    assert!(rt; use_sums(&rt, rt.alloc()).is_ok());
}

// ---- warm_devices

fn use_devices(rt: &impl Abort, alloc: Global) -> Result<()> {
    let mut device = Flaky::new(MemDevice::new(alloc, 8, 2)?, 1);
    let mut bytes = [0; 2];
    assert!(rt; device.read(3, &mut bytes) == Err(DeviceFault::Read) && device.failures() == 1);
    assert!(rt; device.write(3, &[1, 2]) == Ok(()) && device.waiting());
    assert!(rt; device.flush() == Ok(()) && !device.waiting());
    assert!(rt; device.read(3, &mut bytes) == Ok(()) && bytes == [1, 2]);
    assert!(rt; device.pages() == 8 && device.page_size() == 2);
    device.settle();
    assert!(rt; device.failures() == 1);
    let mut last = MemDevice::new(alloc, 8, 2)?;
    last.flush()?;
    let_go(last);
    Ok(())
}

#[test]
fn names_of_warm_devices(rt: HostRuntime) {
    assert!(rt; use_devices(&rt, rt.alloc()).is_ok());
    let missing = FileDevice::open(&rt, "no-such-folder/pages", 8, 16);
    assert!(rt; missing.err() == Some(OpenFault::Open));
    assert!(rt; DeviceFault::Read.code() == 1 && OpenFault::Open.code() == 2);
}

// ---- warm_pool

const AMPLE: &str = "memory is ample";

// A pool of two frames over a device of eight pages.
fn fresh_pool(rt: &impl Abort, alloc: Global) -> Pool<MemDevice>
    ensures { IsRankedByAll result }
{
    let device = MemDevice::new(alloc, 8, 16).expect(rt, AMPLE);
    let devices = alone(alloc, device).expect(rt, AMPLE);
    match Pool::new(alloc, 2, 16, devices) {
        Ok(pool) => pool,
        Err(_) => panic!(rt; "no pool"),
    }
}

// Writes two bytes into a slot's page; returns whether the slot holds it and takes them.
fn writes(pool: &mut Pool<MemDevice>, slot: Slot) -> bool {
    if !pool.holds(slot) {
        return false;
    }
    pool.write(slot, 14, &[1, 2]) == Ok(())
}

fn reads(pool: &Pool<MemDevice>, slot: Slot) -> bool {
    if !pool.holds(slot) {
        return false;
    }
    let mut bytes = [0; 2];
    let past = pool.read(slot, 15, &mut bytes);
    past == Err(PoolFault::OutOfPage)
        && pool.read(slot, 14, &mut bytes) == Ok(())
        && bytes == [1, 2]
}

fn unpins(pool: &mut Pool<MemDevice>, slot: Slot) -> bool {
    if !pool.holds(slot) {
        return false;
    }
    pool.unpin(slot);
    true
}

// 0:3 is pinned and 0:5 loaded.
fn placed(rt: &impl Abort, pool: &mut Pool<MemDevice>, history: &History) -> (Slot, Slot)
    requires { RankedBy pool.old history.now }
{
    let pinned = pool.pin(page(3), history).expect(rt, "a frame is free");
    let loaded = pool.load(page(5), history).expect(rt, "a frame is free");
    (pinned, loaded)
}

// 0:3 is written and read; 0:5 leaves first.
fn use_frames_of_a_pool(rt: &impl Abort, pool: &mut Pool<MemDevice>, history: &History)
    requires { RankedBy pool.old history.now }
{
    let (slot, loaded) = placed(rt, pool, history);
    assert!(rt; slot.index == 0 && slot.generation == 1 && loaded.index == 1);
    assert!(rt; writes(pool, slot) && reads(pool, slot));
    assert!(rt; !pool.holds(loaded) && pool.victim() == Some(page(5)));
    assert!(rt; unpins(pool, slot) && !pool.holds(slot));
    assert!(rt; pool.frames() == 2 && pool.has(page(7)) && !pool.has(page(8)));
    pool.refresh(history, &[page(3)]);
    pool.refresh_all(history);
    assert!(rt; pool.write_back_all() == Ok(()) && pool.resident(page(3)));
}

// The device is replaced, and the pool emptied and closed.
fn use_devices_of_a_pool(rt: &impl Abort, alloc: Global, mut pool: Pool<MemDevice>) {
    let device = MemDevice::new(alloc, 4, 16).expect(rt, AMPLE);
    assert!(rt; pool.retire(0, device).is_ok() && !pool.has(page(4)));
    assert!(rt; pool.empty() == Ok(()) && !pool.resident(page(3)));
    assert!(rt; pool.close().is_ok());
}

#[test]
fn names_of_warm_pool(rt: HostRuntime) {
    let alloc = rt.alloc();
    let history = History::new(alloc);
    let mut pool = fresh_pool(&rt, alloc);
    use_frames_of_a_pool(&rt, &mut pool, &history);
    use_devices_of_a_pool(&rt, alloc, pool);
    assert!(rt; PoolFault::SizeDiffers.code() == 3 && PoolFault::Fault.code() == 12);
}

// ---- warm_gossip

fn fresh_node(rt: &impl Abort, alloc: Global) -> Node<MemDevice> {
    Node::new(alloc, replica(1), fresh_pool(rt, alloc))
}

// The only place where a node is called: other functions need not unfold the contract of a call.
fn reply(node: &mut Node<MemDevice>, call: Call) -> Reply {
    node.call(call)
}

fn is_done(node: &mut Node<MemDevice>, call: Call) -> bool {
    matches!(reply(node, call), Reply::Done)
}

fn byte_list(rt: &impl Abort, alloc: Global, bytes: &[u8]) -> ByteList {
    ByteList::of(bytes.to_vec(alloc).expect(rt, AMPLE))
}

// One reference, to 0:1 at 10.
fn batch(rt: &impl Abort, alloc: Global) -> RefList {
    RefList::of(vec![in alloc; seen(page(1), 10, 1)].expect(rt, AMPLE))
}

fn sent(node: &mut Node<MemDevice>, call: Call) -> Option<Frame> {
    match reply(node, call) {
        Reply::Sent(frame) => Some(frame),
        _ => None,
    }
}

fn answers(rt: &impl Abort, node: &mut Node<MemDevice>, frame: Frame) -> FrameList {
    match reply(node, Call::Receive(frame)) {
        Reply::Answers(frames) => frames,
        _ => panic!(rt; "the frame is received"),
    }
}

// The calls of the history of a node.
fn use_node_history(rt: &impl Abort, alloc: Global, node: &mut Node<MemDevice>) {
    assert!(rt; is_done(node, Call::Absorb(batch(rt, alloc))));
    let bucket = bucket_of(page(1));
    let entries = sent(
        node,
        Call::Send {
            bucket,
            after: None,
        },
    );
    assert!(rt; matches!(entries, Some(Frame::Entries { .. })));
    assert!(rt; matches!(sent(node, Call::Offer), Some(Frame::Digest { .. })));
    assert!(rt; answers(rt, node, wants(0)).as_slice().len() == 1);
    let would: FrameList = node.answers(&wants(0)).ok().expect(rt, AMPLE);
    assert!(rt; would.as_slice().len() == 1);
    assert!(rt; matches!(reply(node, Call::Horizon(5)), Reply::Kept(5)));
    assert!(rt; node.history().len() == 1 && node.id() == replica(1));
    let hottest = match reply(node, Call::WarmList(5)) {
        Reply::Pages(pages) => pages.as_slice() == [page(1)].as_slice(),
        _ => false,
    };
    assert!(rt; hottest);
}

// The calls of the pool of a node.
fn use_node_pool(rt: &impl Abort, alloc: Global, node: &mut Node<MemDevice>) {
    let Reply::Pinned(slot) = reply(node, Call::Pin(page(3))) else {
        panic!(rt; "a frame is free");
    };
    let bytes = byte_list(rt, alloc, &[1, 2]);
    assert!(rt; is_done(node, Call::Write { slot, at: 0, bytes }));
    let has_bytes = match reply(
        node,
        Call::Read {
            slot,
            at: 1,
            len: 2,
        },
    ) {
        Reply::Bytes(bytes) => bytes.as_slice() == [2, 0].as_slice(),
        _ => false,
    };
    assert!(rt; has_bytes && is_done(node, Call::Unpin(slot)));
    assert!(rt;
        matches!(
            reply(node, Call::Victim),
            Reply::Page(Some(PageId { dev: 0, no: 3 }))
        )
    );
    let loaded = reply(node, Call::WarmStep);
    assert!(rt; matches!(loaded, Reply::Loaded(Some(PageId { dev: 0, no: 1 }))));
    assert!(rt; node.pool().resident(page(1)) && node.write_back().is_ok());
    assert!(rt; is_done(node, Call::Restart));
    assert!(rt;
        matches!(
            reply(node, Call::Unpin(slot)),
            Reply::Refused(NodeFault::StaleSlot)
        )
    );
}

#[test]
fn names_of_warm_gossip(rt: HostRuntime) {
    let alloc = rt.alloc();
    let mut node = fresh_node(&rt, alloc);
    use_node_history(&rt, alloc, &mut node);
    use_node_pool(&rt, alloc, &mut node);
    assert!(rt; node.into_pool().frames() == 2);
    assert!(rt; NodeFault::StaleSlot.code() == 13 && NodeFault::Memory.code() == 1);
    told_is_history();
}
