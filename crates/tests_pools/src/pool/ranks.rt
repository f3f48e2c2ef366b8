//! Which page is evicted by a history, and how a raised horizon changes that.
ghost use Rattle.warm_pool.specs.State.{RankedBy};

use super::{AMPLE, Row, Said, closes, pool_over, runs};
use test_kit::{SeenAt, history_of, memory, page};
use warm_devices::MemDevice;
use warm_history::History;
use warm_pool::Pool;
use warm_stamps::PageId;

// Both pages were referenced twice, page 1 first and last. Since 60 page 1 was referenced at 100
// and page 2 at 60, and since 101 neither was.
const BOTH: [SeenAt; 4] = [(0, 1, 1, 1), (0, 1, 100, 1), (0, 2, 50, 1), (0, 2, 60, 1)];

// Raises the horizon, and then updates all ranks.
fn forget(pool: &mut Pool<MemDevice>, history: &mut History, time: u64)
    ensures { RankedBy pool.new history.new }
{
    history.raise(time);
    pool.refresh_all(history);
}

// A pinned page isn't evicted, whatever its rank, and has its new rank after it is unpinned.
#[test]
fn all_ranks_follow_a_raised_horizon(rt: HostRuntime) {
    let alloc = rt.alloc();
    let mut history = history_of(alloc, &BOTH).expect(&rt, AMPLE);
    let mut pool = pool_over(&rt, alloc, 2, memory(alloc, 8).expect(&rt, AMPLE));
    let rows = [
        Row::Loads(0, 1, Said::At(0, 1)),
        Row::Loads(0, 2, Said::At(1, 1)),
        Row::Leaves(1),
        Row::Pins(2, Said::At(1, 1)),
    ];
    runs(&rt, &mut pool, &history, &rows);
    forget(&mut pool, &mut history, 60);
    let rows = [Row::Leaves(1), Row::Unpins(1, 1), Row::Leaves(2)];
    runs(&rt, &mut pool, &history, &rows);
    forget(&mut pool, &mut history, 101);
    let rows = [Row::Leaves(1), Row::Loads(0, 3, Said::At(0, 2))];
    runs(&rt, &mut pool, &history, &rows);
    closes(&rt, pool);
}

// The next victim after the ranks of these pages were updated.
fn leaves_after(pool: &mut Pool<MemDevice>, history: &History, named: &[PageId]) -> Option<PageId> {
    pool.refresh(history, named);
    pool.victim()
}

// Three pages are loaded that were never referenced, so the one of the least number is evicted
// first. A named page has the rank that the history gives it, even if those of the others are not
// yet up to date, and a page that is not resident may be named.
#[test]
fn only_named_pages_get_their_new_ranks(rt: HostRuntime) {
    let alloc = rt.alloc();
    let history = History::new(alloc);
    let later = history_of(alloc, &BOTH).expect(&rt, AMPLE);
    let mut pool = pool_over(&rt, alloc, 3, memory(alloc, 8).expect(&rt, AMPLE));
    let rows = [
        Row::Loads(0, 1, Said::At(0, 1)),
        Row::Loads(0, 2, Said::At(1, 1)),
        Row::Loads(0, 3, Said::At(2, 1)),
        Row::Leaves(1),
    ];
    runs(&rt, &mut pool, &history, &rows);
    assert!(rt; leaves_after(&mut pool, &later, &[page(1)]) == Some(page(2)));
    assert!(rt; leaves_after(&mut pool, &later, &[page(2), page(7)]) == Some(page(3)));
    closes(&rt, pool);
}
