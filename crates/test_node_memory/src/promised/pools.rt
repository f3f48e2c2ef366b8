//! The calls of a pool by itself, and those of a turn that wait for nobody.
ghost use Rattle.std.specs.Prelude.{◌≡◌, IfOk};
ghost use Rattle.warm_pool.specs.State.{IsRankedByAll, RankedBy};

use std::alloc::Global;
use std::io::Print;
use test_kit::cases::{Ended, Met, takes_none};
use test_kit::{alone, memory, page};
use warm_devices::MemDevice;
use warm_history::History;
use warm_pool::Pool;
use warm_turn::{Counter, Pass, Turn};

// A pool of two frames over a device of eight pages.
pub(crate) fn opened(alloc: Global) -> Result<Pool<MemDevice>, Ended>
    ensures { IfOk result (λ pool. IsRankedByAll pool) }
{
    let devices = alone(alloc, memory(alloc, 8)?)?;
    let Ok(pool) = Pool::new(alloc, 2, 16, devices) else {
        return Err(Ended::NoMemory);
    };
    Ok(pool)
}

// A page is loaded, and the ranks are renewed by a history.
fn ranked<P: Print>(
    rt: &P,
    met: &mut Met,
    pool: &mut Pool<MemDevice>,
    history: &History,
) -> Result<(), Ended>
    requires { RankedBy pool.old history.now }
{
    let first = page(1);
    takes_none(rt, "load")?;
    met.holds(pool.load(first, history).is_ok(), "a load is refused")?;
    takes_none(rt, "refresh")?;
    pool.refresh(history, &[first]);
    takes_none(rt, "refresh_all")?;
    pool.refresh_all(history);
    met.holds(pool.resident(first), "a page of no frame is ranked")
}

// A pool writes back, is emptied, gets another device, and is closed.
pub(crate) fn rows<P: Print>(
    rt: &P,
    met: &mut Met,
    mut pool: Pool<MemDevice>,
    history: &History,
    device: MemDevice,
) -> Result<(), Ended>
    requires { IsRankedByAll pool }
{
    ranked(rt, met, &mut pool, history)?;
    takes_none(rt, "write_back_all")?;
    met.holds(pool.write_back_all().is_ok(), "pages are not written back")?;
    takes_none(rt, "empty")?;
    met.holds(pool.empty().is_ok(), "a pool is not emptied")?;
    takes_none(rt, "retire of a pool")?;
    met.holds(pool.retire(0, device).is_ok(), "a device is not retired")?;
    takes_none(rt, "close of a pool")?;
    met.holds(pool.close().is_ok(), "a pool is not closed")
}

// A pass is split, learns a note and is ended; the turn is closed.
pub(crate) fn turned<P: Print>(
    rt: &P,
    met: &mut Met,
    turn: Turn<Counter>,
    mut first: Pass<Counter>,
) -> Result<(), Ended>
    requires { first.table ≡ turn.table }
{
    takes_none(rt, "pass")?;
    let mut second = turn.pass(&mut first);
    takes_none(rt, "note")?;
    let note = turn.note(&mut first);
    takes_none(rt, "learn")?;
    turn.learn(&mut second, note);
    takes_none(rt, "end")?;
    turn.end(&mut first, second);
    takes_none(rt, "close of a turn")?;
    let closed = turn.close(first);
    met.holds(
        matches!(closed, Ok(Counter { total: 0 })),
        "a turn is not closed",
    )
}
