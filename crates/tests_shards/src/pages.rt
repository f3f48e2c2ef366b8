//! A page in its shard: it is warmed up, pinned, written, read and lent, and leaves as a victim of
//! its shard.
use crate::kit::{batch, shards};
use test_kit::page;
use warm_devices::MemDevice;
use warm_shards::Shards;
use warm_stamps::PageId;

fn victim(shards: &mut Shards<MemDevice>, shard: usize) -> Option<PageId> {
    if shard >= shards.count() {
        return None;
    }
    shards.victim(shard)
}

fn warmed(shards: &mut Shards<MemDevice>, shard: usize) -> Option<PageId> {
    if shard >= shards.count() {
        return None;
    }
    match shards.warm_step(shard) {
        Ok(loaded) => loaded,
        Err(_) => None,
    }
}

fn is_written_back(shards: &mut Shards<MemDevice>, shard: usize) -> bool {
    if shard >= shards.count() {
        return false;
    }
    shards.write_back(shard).is_ok()
}

#[test]
fn a_page_is_in_its_shard(rt: HostRuntime) {
    let alloc = rt.alloc();
    let mut two = shards(&rt, alloc, 1, 2);
    two.absorb(&batch(&rt, alloc, &[(0, 1, 5, 1), (0, 3, 6, 1), (0, 2, 1, 1)]))
        .ok()
        .expect(&rt, "references");
    // The hottest page of each shard; page 2, the coldest of all, is the hottest of shard 0.
    assert!(rt; warmed(&mut two, 1) == Some(page(3)));
    assert!(rt; warmed(&mut two, 1) == Some(page(1)));
    assert!(rt; warmed(&mut two, 1) == None);
    assert!(rt; warmed(&mut two, 0) == Some(page(2)));
    // The victim of shard 1 is its coldest page, though that of shard 0 is colder.
    assert!(rt; victim(&mut two, 1) == Some(page(1)));
    assert!(rt; victim(&mut two, 0) == Some(page(2)));
    let at = two.pin(page(1)).ok().expect(&rt, "page 1 is pinned");
    assert!(rt; at.shard == 1);
    assert!(rt; victim(&mut two, 1) == Some(page(3)));
    assert!(rt; two.write(at, 2, b"warm").is_ok());
    let mut four = [0; 4];
    assert!(rt; two.read_into(at, 2, &mut four).is_ok());
    assert!(rt; four.as_slice() == b"warm".as_slice());
    let bytes = two.bytes(at).ok().expect(&rt, "page 1 is lent");
    assert!(rt; bytes.len() == 16);
    assert!(rt; two.unpin(at).is_ok());
    assert!(rt; is_written_back(&mut two, 1));
}
