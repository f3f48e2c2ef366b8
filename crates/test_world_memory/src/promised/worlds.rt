//! Events of a world that never answer `Memory`, and its end, which writes back all pages.
ghost use Rattle.std.specs.Prelude.{◌≡◌, IfOk, length};
ghost use Rattle.warm_world.specs.Opening.{AreFew};
ghost use Rattle.warm_world.specs.Views.{listed};

use std::alloc::Global;
use std::io::Print;
use test_kit::cases::{Ended, Met, takes_none};
use test_kit::{alone, memory, page};
use warm_devices::{MemDevice, PageDevice};
use warm_pool::Slot;
use warm_stamps::{ByteList, PageId};
use warm_world::{Answer, Event, Setup, World};

// A device for one replica.
fn lists_of<D: PageDevice>(alloc: Global, device: D) -> Result<Vec<Vec<D>>, Ended>
    ensures { IfOk result (λ lists. AreFew (listed D.state lists.items)) }
{
    let list = alone(alloc, device)?;
    let mut lists = Vec::with_capacity(alloc, 1)?;
    lists.push_reserved(list);
    Ok(lists)
}

fn bytes_of(alloc: Global, text: &[u8]) -> Result<ByteList, Ended> {
    let mut bytes = Vec::new(alloc);
    bytes.extend_from_slice(text)?;
    Ok(ByteList::of(bytes))
}

// Whether a world does the event.
fn is_done_by(world: &mut World<MemDevice>, event: Event) -> bool {
    matches!(world.step(event), Answer::Done | Answer::Pinned(_))
}

// The replica takes in one reference to a page, at time 10.
fn learns(world: &mut World<MemDevice>, page: PageId) -> Result<(), Ended> {
    let is_known = is_done_by(world, Event::Refer(1, 1, page, 10))
        && is_done_by(world, Event::Flush(1, 1));
    if is_known {
        return Ok(());
    }
    Err(Ended::NoMemory)
}

// A world of one replica with a page that was written to and referenced once, and bytes for
// another.
pub(crate) fn changed(met: &mut Met, alloc: Global) -> Result<(World<MemDevice>, ByteList), Ended> {
    let Ok(setup) = Setup::new(1, 1, 1, 1, 16) else {
        return Err(met.broken("the setup is within its limits"));
    };
    let lists = lists_of(alloc, memory(alloc, 8)?)?;
    let Ok(mut world) = World::new(alloc, setup, lists) else {
        return Err(Ended::NoMemory);
    };
    let slot = Slot {
        index: 0,
        generation: 1,
    };
    let put = Event::Put(1, slot, 0, bytes_of(alloc, b"warm")?);
    let pinned = is_done_by(&mut world, Event::Pin(1, page(1)));
    met.holds(pinned, "a page is not pinned")?;
    met.holds(is_done_by(&mut world, put), "bytes are not put")?;
    learns(&mut world, page(1))?;
    let other = bytes_of(alloc, b"cold")?;
    Ok((world, other))
}

// An event that is one of these allocation-free ones.
fn does<P: Print>(
    rt: &P,
    met: &mut Met,
    world: &mut World<MemDevice>,
    event: Event,
    name: &str,
) -> Result<(), Ended> {
    takes_none(rt, name)?;
    met.holds(is_done_by(world, event), "an event is refused")
}

// The unpinned page is named as the victim, and a horizon drops its only stamp.
fn ranked<P: Print>(rt: &P, met: &mut Met, world: &mut World<MemDevice>) -> Result<(), Ended> {
    takes_none(rt, "event of a victim")?;
    let named = world.step(Event::Victim(1));
    met.holds(matches!(named, Answer::Page(Some(_))), "no victim is named")?;
    takes_none(rt, "event of a horizon")?;
    let kept = world.step(Event::Horizon(1, 11));
    met.holds(matches!(kept, Answer::Kept(11)), "no horizon is raised")
}

// A reference is buffered; the page is unpinned and named as the victim; a horizon rises; the
// replica restarts, and another page is pinned and written to.
fn events<P: Print>(
    rt: &P,
    met: &mut Met,
    world: &mut World<MemDevice>,
    bytes: ByteList,
) -> Result<(), Ended> {
    let first = Slot {
        index: 0,
        generation: 1,
    };
    let second = Slot {
        index: 0,
        generation: 2,
    };
    let other = page(2);
    does(
        rt,
        met,
        world,
        Event::Refer(1, 1, other, 10),
        "event of a reference",
    )?;
    does(rt, met, world, Event::Unpin(1, first), "event of an unpin")?;
    ranked(rt, met, world)?;
    does(rt, met, world, Event::Restart(1), "event of a restart")?;
    does(rt, met, world, Event::Pin(1, other), "event of a pin")?;
    does(
        rt,
        met,
        world,
        Event::Put(1, second, 0, bytes),
        "event of a put",
    )
}

pub(crate) fn rows<P: Print>(
    rt: &P,
    met: &mut Met,
    mut world: World<MemDevice>,
    bytes: ByteList,
) -> Result<(), Ended> {
    events(rt, met, &mut world, bytes)?;
    takes_none(rt, "finish of a world")?;
    met.holds(world.finish().is_ok(), "a finish is refused")
}
