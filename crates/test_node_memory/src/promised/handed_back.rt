//! The allocation-free calls of a pool that give its devices back.

use std::alloc::Global;
use std::io::Print;
use test_kit::cases::{Ended, Met, takes_none};
use test_kit::{alone, memory, page};
use warm_devices::MemDevice;
use warm_history::History;
use warm_pool::Pool;

/// A pool with a dirty page, and a device to replace the one that it has.
#[derive(Drop)]
pub(crate) struct HandedBack {
    pool: Pool<MemDevice>,
    next: MemDevice,
}

impl HandedBack {
    pub(crate) fn new(alloc: Global) -> Result<HandedBack, Ended> {
        let devices = alone(alloc, memory(alloc, 8)?)?;
        let next = memory(alloc, 8)?;
        let Ok(mut pool) = Pool::new(alloc, 1, 16, devices) else {
            return Err(Ended::NoMemory);
        };
        let history = History::new(alloc);
        let Ok(slot) = pool.pin_zeroed(page(1), &history) else {
            return Err(Ended::Broken);
        };
        pool.unpin(slot);
        Ok(HandedBack { pool, next })
    }

    pub(crate) fn rows<P: Print>(self, rt: &P, met: &mut Met) -> Result<(), Ended> {
        let HandedBack { mut pool, next } = self;
        takes_none(rt, "replace")?;
        met.holds(pool.replace(0, next).is_ok(), "a device is not replaced")?;
        takes_none(rt, "into_devices")?;
        met.holds(pool.into_devices().is_ok(), "devices are not given back")
    }
}
