//! Worlds of two replicas, made, stepped and run. A world with a refusal is compared with a world
//! without one: only one allocation fails, so a world that is made after it has none.
ghost use Rattle.std.specs.Prelude.{◌≡◌, IfOk, length};
ghost use Rattle.warm_world.specs.Opening.{AreFew};
ghost use Rattle.warm_world.specs.Views.{listed};

use crate::refused::answers::{is_memory, is_misnamed, is_same};
use crate::refused::events::{EVENTS, all_events, event_at, is_free};
use std::alloc::Global;
use test_kit::cases::{Ended, Met};
use test_kit::{alone, memory};
use warm_devices::{MemDevice, PageDevice};
use warm_world::{Answer, BadWorld, Event, Setup, World};

// A device for each of two replicas.
fn lists_of<D: PageDevice>(alloc: Global, first: D, second: D) -> Result<Vec<Vec<D>>, Ended>
    ensures { IfOk result (λ lists. AreFew (listed D.state lists.items)) }
{
    let first = alone(alloc, first)?;
    let second = alone(alloc, second)?;
    let mut lists = Vec::with_capacity(alloc, 2)?;
    lists.push_reserved(first);
    lists.push_reserved(second);
    Ok(lists)
}

// A world of two replicas with a buffer of two and two frames each, or none if an allocation fails.
fn over(
    met: &mut Met,
    alloc: Global,
    first: MemDevice,
    second: MemDevice,
) -> Result<Option<World<MemDevice>>, Ended> {
    let Ok(setup) = Setup::new(2, 1, 2, 2, 16) else {
        return Err(met.broken("the setup is within its limits"));
    };
    match World::new(alloc, setup, lists_of(alloc, first, second)?) {
        Ok(world) => Ok(Some(world)),
        Err(fault) => {
            met.refuse(fault == BadWorld::Memory, "the devices fit")?;
            Ok(None)
        }
    }
}

// The answer of a world to an event. The contract of an answer is used only here, so that it is not
// unfolded in each caller.
fn asked(world: &mut World<MemDevice>, event: Event) -> Answer {
    world.step(event)
}

// The events that show a world without changing it.
fn look_at(place: usize) -> Event {
    match place {
        0 => Event::Show(1),
        1 => Event::Show(2),
        2 => Event::Warm(1, 9),
        3 => Event::Victim(1),
        _ => Event::Victim(2),
    }
}

// Whether two worlds show the same.
fn look_same(world: &mut World<MemDevice>, other: &mut World<MemDevice>) -> bool {
    let mut same = true;
    for place in 0..5usize {
        let seen = asked(world, look_at(place));
        let others = asked(other, look_at(place));
        same = same && is_same(&seen, &others);
    }
    same
}

// Steps a world up to the first of these events that is refused, and gives its place.
fn step_up_to(
    met: &mut Met,
    alloc: Global,
    world: &mut World<MemDevice>,
    end: usize,
) -> Result<Option<usize>, Ended> {
    for place in 0..end {
        let answer = asked(world, event_at(alloc, place)?);
        met.holds(!is_misnamed(&answer), "an event names what is not there")?;
        if is_memory(&answer) {
            met.holds(!is_free(place), "an event that takes no memory is refused")?;
            return Ok(Some(place));
        }
    }
    Ok(None)
}

// Both worlds answer an event, with equal answers.
fn step_both(
    met: &mut Met,
    alloc: Global,
    world: &mut World<MemDevice>,
    twin: &mut World<MemDevice>,
    place: usize,
) -> Result<(), Ended> {
    let answer = asked(world, event_at(alloc, place)?);
    met.holds(!is_memory(&answer), "an event is refused again")?;
    let others = asked(twin, event_at(alloc, place)?);
    met.holds(is_same(&answer, &others), "an event is answered otherwise")
}

// A world of which the event of a place was refused, and one that is stepped up to it: both go on.
fn go_on(
    met: &mut Met,
    alloc: Global,
    world: &mut World<MemDevice>,
    twin: &mut World<MemDevice>,
    refused: usize,
) -> Result<(), Ended> {
    let stopped = step_up_to(met, alloc, twin, refused)?;
    met.holds(stopped.is_none(), "an event of another world is refused")?;
    met.refuse(look_same(world, twin), "a refused event changes nothing")?;
    for place in refused..EVENTS {
        step_both(met, alloc, world, twin, place)?;
    }
    Ok(())
}

// Steps a world by the event of a place, which a run answered; one that the run refused is left
// out.
fn step_as(
    met: &mut Met,
    alloc: Global,
    twin: &mut World<MemDevice>,
    place: usize,
    answer: &Answer,
) -> Result<(), Ended> {
    if is_memory(answer) {
        return met.refuse(!is_free(place), "an event that takes no memory is refused");
    }
    let other = asked(twin, event_at(alloc, place)?);
    met.holds(is_same(answer, &other), "a run answers otherwise")
}

// Steps a world by each event that a run answered, and gives the place of the one that the run
// refused.
fn step_along(
    met: &mut Met,
    alloc: Global,
    twin: &mut World<MemDevice>,
    answers: &[Answer],
) -> Result<Option<usize>, Ended> {
    let mut refused = None;
    for place in 0..answers.len() {
        step_as(met, alloc, twin, place, &answers[place])?;
        if is_memory(&answers[place]) {
            refused = Some(place);
        }
    }
    Ok(refused)
}

// A world that was run, and one that is stepped alongside. The event that the run refused is given
// to both at the end.
fn go_along(
    met: &mut Met,
    alloc: Global,
    world: &mut World<MemDevice>,
    twin: &mut World<MemDevice>,
    answers: &[Answer],
) -> Result<(), Ended> {
    let refused = step_along(met, alloc, twin, answers)?;
    met.holds(look_same(world, twin), "a run leaves something else")?;
    match refused {
        Some(place) => step_both(met, alloc, world, twin, place),
        None => Ok(()),
    }
}

// The refusal of a world.
#[derive(Drop)]
enum Refusal {
    // The event of a place.
    Event(usize),
    // A run: its events were given back.
    Run(Vec<Event>),
    // An event of a run, with the run's answers.
    EventOfRun(Vec<Answer>),
}

// Steps a world through all events, up to one that is refused.
fn step_all(
    met: &mut Met,
    alloc: Global,
    world: &mut World<MemDevice>,
) -> Result<Option<Refusal>, Ended> {
    match step_up_to(met, alloc, world, EVENTS)? {
        Some(place) => Ok(Some(Refusal::Event(place))),
        None => Ok(None),
    }
}

// Runs a world through all events.
fn run_all(
    met: &mut Met,
    alloc: Global,
    world: &mut World<MemDevice>,
) -> Result<Option<Refusal>, Ended> {
    let answers = match world.run(all_events(alloc)?) {
        Ok(answers) => answers,
        Err(back) => return Ok(Some(Refusal::Run(back))),
    };
    met.holds(answers.len() == EVENTS, "each event is answered")?;
    if answers.iter().any(is_memory) {
        return Ok(Some(Refusal::EventOfRun(answers)));
    }
    Ok(None)
}

// A world whose run was refused shows the same as a fresh one, and runs the events that were given
// back.
fn run_again(
    met: &mut Met,
    alloc: Global,
    world: &mut World<MemDevice>,
    twin: &mut World<MemDevice>,
    back: Vec<Event>,
) -> Result<(), Ended> {
    let same = look_same(world, twin);
    met.refuse(same && back.len() == EVENTS, "a refused run does something")?;
    let Ok(answers) = world.run(back) else {
        return Err(met.broken("a run is refused again"));
    };
    met.holds(answers.len() == EVENTS, "each event is answered again")?;
    go_along(met, alloc, world, twin, &answers)
}

// Goes on with a world beside one that is never refused.
fn compare(
    met: &mut Met,
    alloc: Global,
    world: &mut World<MemDevice>,
    twin: &mut World<MemDevice>,
    refusal: Refusal,
) -> Result<(), Ended> {
    match refusal {
        Refusal::Event(place) => go_on(met, alloc, world, twin, place),
        Refusal::Run(back) => run_again(met, alloc, world, twin, back),
        Refusal::EventOfRun(answers) => go_along(met, alloc, world, twin, &answers),
    }
}

// How a world executes its events.
#[derive(Clone, Copy)]
enum Life {
    Steps,
    Runs,
}

fn play(
    met: &mut Met,
    alloc: Global,
    world: &mut World<MemDevice>,
    life: Life,
) -> Result<Option<Refusal>, Ended> {
    match life {
        Life::Steps => step_all(met, alloc, world),
        Life::Runs => run_all(met, alloc, world),
    }
}

// Finishes a world, which is allocation-free.
fn finish(met: &mut Met, world: &mut World<MemDevice>) -> Result<bool, Ended> {
    met.holds(world.finish().is_ok(), "a finish is refused")?;
    Ok(true)
}

// A world that executes all events, and is finished; or none, if making the world is refused.
fn live(met: &mut Met, alloc: Global, life: Life) -> Result<bool, Ended> {
    let Some(mut world) = over(met, alloc, memory(alloc, 80)?, memory(alloc, 80)?)? else {
        return Ok(false);
    };
    let Some(refusal) = play(met, alloc, &mut world, life)? else {
        return finish(met, &mut world);
    };
    let Some(mut twin) = over(met, alloc, memory(alloc, 80)?, memory(alloc, 80)?)? else {
        return Err(met.broken("another world is refused"));
    };
    compare(met, alloc, &mut world, &mut twin, refusal)?;
    finish(met, &mut world)
}

// A world whose making is refused is made again, over other devices.
fn row(met: &mut Met, alloc: Global, life: Life) -> Result<(), Ended> {
    if live(met, alloc, life)? {
        return Ok(());
    }
    let lived = live(met, alloc, life)?;
    met.holds(lived, "a world is refused again")
}

pub(crate) fn rows(met: &mut Met, alloc: Global) -> Result<(), Ended> {
    row(met, alloc, Life::Steps)?;
    row(met, alloc, Life::Runs)
}
