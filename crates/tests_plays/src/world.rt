//! A world of nodes: a long list of events in one run, and an empty list.
ghost use Rattle.std.specs.Prelude.{◌≡◌, length};
ghost use Rattle.warm_world.specs.Opening.{AreFew};
ghost use Rattle.warm_world.specs.Views.{listed};

mod dropped;
mod exchange;
mod sizes;

use std::alloc::Global;
use std::process::Abort;
use test_kit::{alone, memory, page};
use warm_devices::{MemDevice, PageDevice};
use warm_world::{Answer, Event, Setup, World};

// Two devices, each in a list of its own.
fn each_alone<D: PageDevice>(rt: &impl Abort, alloc: Global, first: D, second: D) -> Vec<Vec<D>>
    ensures { AreFew (listed D.state result.items) }
{
    let first = alone(alloc, first).expect(rt, "memory for a list");
    let second = alone(alloc, second).expect(rt, "memory for a list");
    let mut lists = Vec::with_capacity(alloc, 2).expect(rt, "memory for two lists");
    lists.push_reserved(first);
    lists.push_reserved(second);
    lists
}

// A world over devices of 256 pages of 16 bytes, for each of two replicas.
fn fresh(rt: &impl Abort, alloc: Global) -> World<MemDevice> {
    let setup = Setup::new(2, 2, 64, 4, 16).expect(rt, "it is within its limits");
    let first = memory(alloc, 256).expect(rt, "memory for a device");
    let second = memory(alloc, 256).expect(rt, "memory for a device");
    match World::new(alloc, setup, each_alone(rt, alloc, first, second)) {
        Ok(world) => world,
        Err(_) => panic!(rt; "no world"),
    }
}

// The only place where a world is run: other functions need not unfold the contract of a run.
fn answers<D: PageDevice>(
    rt: &impl Abort,
    world: &mut World<D>,
    events: Vec<Event>,
) -> Vec<Answer> {
    world.run(events).ok().expect(rt, "memory is ample")
}

// The number of answers that are Done.
fn done_in(answers: &[Answer]) -> u64 {
    let mut done = 0u64;
    for answer in answers {
        if let Answer::Done = answer {
            done = done.wrapping_add(1);
        }
    }
    done
}

// References to 10,000 pages in turn, one at each time; then a flush and the warm-up list.
fn references_in_turn(rt: &impl Abort, alloc: Global, count: u64) -> Vec<Event> {
    let mut events = Vec::new(alloc);
    for time in 0..count {
        let event = Event::Refer(1, 1, page(time % 10_000), time);
        events.push(event).expect(rt, "memory for an event");
    }
    events
        .push(Event::Flush(1, 1))
        .expect(rt, "memory for a flush");
    events
        .push(Event::Warm(1, 10_001))
        .expect(rt, "memory for a list");
    events
}

// Whether the last answer lists all pages, of which the last is the hottest, and each other one is
// Done.
fn are_of_all(answers: &[Answer]) -> bool {
    let Some(Answer::Pages(pages)) = answers.last() else {
        return false;
    };
    let pages = pages.as_slice();
    done_in(answers) == 70_001
        && pages.len() == 10_000
        && pages.first().copied() == Some(page(9_999))
}

// No clause forbids a refusal for memory while there is plenty, so a long list is run. Each page is
// referenced seven times, in turn.
#[test]
fn seventy_thousand_events_run_at_once(rt: HostRuntime) {
    let mut world = fresh(&rt, rt.alloc());
    let answers = answers(&rt, &mut world, references_in_turn(&rt, rt.alloc(), 70_000));
    assert!(rt; answers.len() == 70_002 && are_of_all(answers.as_slice()));
}

#[test]
fn no_events_have_no_answers(rt: HostRuntime) {
    let mut world = fresh(&rt, rt.alloc());
    assert!(rt; answers(&rt, &mut world, Vec::new(rt.alloc())).is_empty());
}
