//! Pools at their limits: the greatest numbers of frames and devices, and no device. Pages at their
//! limits are read and written by a node (`node/sizes.rt`).

use super::{AMPLE, Row, Said, closes, lives, pool_of, runs};
use test_kit::memory;
use warm_devices::MemDevice;
use warm_history::History;
use warm_pool::PoolFault;

// Each page is loaded into a frame of its own, and one more into that of the page of the least
// number.
#[test]
fn a_pool_fills_65_536_frames(rt: HostRuntime) {
    let alloc = rt.alloc();
    let mut rows = Vec::new(alloc);
    for at in 0..65_536u32 {
        let row = Row::Loads(0, u64::from(at), Said::At(at, 1));
        rows.push(row).expect(&rt, AMPLE);
    }
    let row = Row::Loads(0, 65_536, Said::At(0, 2));
    rows.push(row).expect(&rt, AMPLE);
    let device = memory(alloc, 65_537).expect(&rt, AMPLE);
    lives(&rt, alloc, 65_536, device, rows.as_slice())
}

// A page names its device in 16 bits. A pool over one device more cannot be called for, since `new`
// requires at most this many.
#[test]
fn a_pool_has_up_to_65_536_devices(rt: HostRuntime) {
    let alloc = rt.alloc();
    let history = History::new(alloc);
    let mut devices = Vec::new(alloc);
    for _ in 0..65_536u32 {
        let device = MemDevice::new(alloc, 1, 1).expect(&rt, AMPLE);
        devices.push(device).expect(&rt, AMPLE);
    }
    assert!(rt; devices.len() == 65_536);
    let mut pool = pool_of(&rt, alloc, 1, 1, devices);
    let rows = [
        Row::Loads(65_535, 0, Said::At(0, 1)),
        Row::Loads(65_535, 1, Said::Refused(PoolFault::NoPage)),
        Row::Loads(0, 0, Said::At(0, 2)),
        Row::Resident(65_535, 0, false),
    ];
    runs(&rt, &mut pool, &history, &rows);
    closes(&rt, pool);
}

#[test]
fn a_pool_may_have_no_device(rt: HostRuntime) {
    let devices: Vec<MemDevice> = Vec::new(rt.alloc());
    closes(&rt, pool_of(&rt, rt.alloc(), 1, 1, devices));
}
