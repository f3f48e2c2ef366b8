//! Allocation-free calls of a buffer, a contest and a history.
ghost use Rattle.std.specs.Prelude.{◌≡◌, ◌<◌, length};

use std::alloc::Global;
use std::io::Print;
use test_kit::cases::{Ended, Met, takes_none};
use test_kit::{page, seen};
use warm_history::{History, PageHist};
use warm_rank::{Contest, RankKey, key_of};
use warm_refbuffer::RefBuffer;
use warm_stamps::Reference;

// The reference of which the history is made, and that the buffer takes: to 0:1 at 1.
fn known() -> Reference {
    seen(page(1), 1, 1)
}

// A buffer of two, and a history of one page.
#[derive(Drop)]
pub(crate) struct Made {
    buffer: RefBuffer,
    history: History,
}

impl Made {
    pub(crate) fn new(alloc: Global) -> Result<Made, Ended> {
        let Ok(buffer) = RefBuffer::new(alloc, 2) else {
            return Err(Ended::NoMemory);
        };
        let mut history = History::new(alloc);
        history.absorb(&[known()])?;
        Ok(Made { buffer, history })
    }

    // Touches up to the buffer's capacity, reads of the history, ranks, and a raise of the
    // history's horizon.
    pub(crate) fn rows<P: Print>(self, rt: &P, met: &mut Met) -> Result<(), Ended> {
        let Made { buffer, history } = self;
        touched(rt, met, buffer)?;
        remembered(rt, met, history)
    }
}

// Sets or clears the key of one of two slots.
fn set_of_two(contest: &mut Contest, slot: usize, key: Option<RankKey>)
    requires two { length contest.old ≡ 2 }
    requires one { slot < 2 }
    ensures { length contest.new ≡ 2 }
{
    contest.set(slot, key);
}

// Sets the key of one of two slots, if it is less.
fn lower_of_two(contest: &mut Contest, slot: usize, key: Option<RankKey>)
    requires two { length contest.old ≡ 2 }
    requires one { slot < 2 }
    ensures { length contest.new ≡ 2 }
{
    contest.lower(slot, key);
}

// The key of a page of device 0 that was never referenced.
fn never_referenced(no: u64) -> RankKey {
    key_of(page(no), None)
}

// Keys of two slots are set, lowered and cleared.
pub(crate) fn contested<P: Print>(rt: &P, met: &mut Met, mut contest: Contest) -> Result<(), Ended>
    requires { length contest ≡ 2 }
{
    takes_none(rt, "set of a key")?;
    set_of_two(&mut contest, 0, Some(never_referenced(2)));
    takes_none(rt, "set of a lesser key")?;
    set_of_two(&mut contest, 1, Some(never_referenced(1)));
    takes_none(rt, "least")?;
    met.holds(contest.least() == Some(1), "another key is the least")?;
    takes_none(rt, "set of no key")?;
    set_of_two(&mut contest, 1, None);
    met.holds(contest.least() == Some(0), "a key is not cleared")?;
    takes_none(rt, "lower")?;
    lower_of_two(&mut contest, 0, Some(never_referenced(1)));
    let lowered = contest.key(0);
    met.holds(
        lowered == Some(never_referenced(1)),
        "a lesser key is not taken",
    )?;
    takes_none(rt, "clear_vacant")?;
    contest.clear_vacant(&[None, Some(0)]);
    met.holds(contest.least() == None, "a vacant slot has a key")
}

// Touches of a buffer of two up to its capacity, and one more after it is emptied.
fn touched<P: Print>(rt: &P, met: &mut Met, mut buffer: RefBuffer) -> Result<(), Ended> {
    let first = known();
    takes_none(rt, "touch")?;
    met.holds(buffer.touch(first).is_ok(), "a touch is refused")?;
    takes_none(rt, "touch up to the capacity")?;
    let touched = buffer.touch(first).is_ok();
    met.holds(touched && buffer.is_full(), "a second touch is refused")?;
    takes_none(rt, "clear")?;
    buffer.clear();
    takes_none(rt, "touch of an emptied buffer")?;
    met.holds(
        buffer.touch(first).is_ok(),
        "a touch of an emptied buffer is refused",
    )
}

// Reads of a history of one page, its rank, and a raise of the horizon past its stamp.
fn remembered<P: Print>(rt: &P, met: &mut Met, mut history: History) -> Result<(), Ended> {
    let first = known();
    let known = Some(PageHist::Once(first.stamp));
    takes_none(rt, "get")?;
    met.holds(history.get(first.page) == known, "a history forgets")?;
    takes_none(rt, "at")?;
    met.holds(history.at(0).is_some(), "a history has no entry")?;
    takes_none(rt, "unordered")?;
    met.holds(
        history.unordered().next().is_some(),
        "a history goes over no entry",
    )?;
    takes_none(rt, "key_of")?;
    let key = key_of(first.page, known);
    met.holds(key.page() == first.page, "a key is of its page")?;
    takes_none(rt, "raise")?;
    history.raise(2);
    let forgets = history.horizon() == 2 && history.get(first.page) == None;
    met.holds(
        forgets,
        "a history remembers what is older than its horizon",
    )
}
