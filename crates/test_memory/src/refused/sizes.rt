//! Values that are allocated once in their full size: buffers, contests, devices; and the warm-up
//! list.
use std::alloc::Global;
use test_kit::cases::{Ended, Met};
use test_kit::{history_of_pages, page};
use warm_devices::MemDevice;
use warm_rank::{Contest, warm_list};
use warm_refbuffer::{BufferFault, RefBuffer};

fn buffer(met: &mut Met, alloc: Global) -> Result<(), Ended> {
    let buffer = match RefBuffer::new(alloc, 64) {
        Ok(buffer) => buffer,
        Err(fault) => {
            met.refuse(
                fault == BufferFault::Memory,
                "a buffer of 64 has a capacity",
            )?;
            let Ok(buffer) = RefBuffer::new(alloc, 64) else {
                return Err(met.broken("a buffer is refused again"));
            };
            buffer
        }
    };
    met.holds(
        buffer.cap() == 64 && buffer.is_empty(),
        "a buffer begins empty",
    )
}

fn contest(met: &mut Met, alloc: Global) -> Result<(), Ended> {
    let contest = match Contest::new(alloc, 64) {
        Ok(contest) => contest,
        Err(_) => {
            met.refuse(true, "")?;
            let Ok(contest) = Contest::new(alloc, 64) else {
                return Err(met.broken("a contest is refused again"));
            };
            contest
        }
    };
    met.holds(contest.least().is_none(), "a contest begins without a key")
}

fn device(met: &mut Met, alloc: Global) -> Result<(), Ended> {
    if let Err(_) = MemDevice::new(alloc, 8, 16) {
        met.refuse(true, "")?;
        met.holds(
            MemDevice::new(alloc, 8, 16).is_ok(),
            "a device is refused again",
        )?;
    }
    Ok(())
}

fn warm_up(met: &mut Met, alloc: Global) -> Result<(), Ended> {
    let history = history_of_pages(alloc, 0, 9, 10)?;
    let pages = match warm_list(alloc, &history, 3) {
        Ok(pages) => pages,
        Err(_) => {
            met.refuse(history.len() == 9, "a refused list changes nothing")?;
            let Ok(pages) = warm_list(alloc, &history, 3) else {
                return Err(met.broken("a warm-up list is refused again"));
            };
            pages
        }
    };
    let hottest = page(8);
    met.holds(
        pages.len() == 3 && pages.first() == Some(&hottest),
        "0:8 is the hottest of three",
    )
}

pub(crate) fn rows(met: &mut Met, alloc: Global) -> Result<(), Ended> {
    buffer(met, alloc)?;
    contest(met, alloc)?;
    device(met, alloc)?;
    warm_up(met, alloc)
}
