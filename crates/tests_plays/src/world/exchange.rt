//! Two replicas that referenced one page receive each other's references to it.

use super::{answers, fresh};
use std::alloc::Global;
use std::process::Abort;
use test_kit::{bucket, entry, page, twice};
use warm_history::History;
use warm_world::{Answer, Event};

// Each replica references page 1 twice and sends its entry, which the other one receives.
fn exchange(rt: &impl Abort, alloc: Global) -> Vec<Event> {
    let mut events = Vec::new(alloc);
    let given = [
        Event::Refer(1, 1, page(1), 10),
        Event::Refer(1, 1, page(1), 20),
        Event::Refer(2, 1, page(1), 15),
        Event::Refer(2, 1, page(1), 30),
        Event::Flush(1, 1),
        Event::Flush(2, 1),
        Event::Send(1, bucket(1), None),
        Event::Send(2, bucket(1), None),
        Event::Deliver(2, 1),
        Event::Deliver(1, 2),
        Event::Show(1),
        Event::Show(2),
    ];
    for event in given {
        events.push(event).expect(rt, "memory for an event");
    }
    events
}

#[derive(Clone, Copy, PartialEq, Eq)]
enum Said {
    Done,
    FrameNo(u64),
    Took(u64, u64),
    // A history of page 1 alone, last referenced at 30 by replica 2 and before that at 20 by
    // replica 1.
    Joined,
    Other,
}

fn is_joined(history: &History) -> bool {
    history.len() == 1 && history.at(0) == Some(entry(page(1), twice((30, 2), (20, 1))))
}

fn summary_of(answer: &Answer) -> Said {
    match answer {
        Answer::Done => Said::Done,
        Answer::FrameNo(number) => Said::FrameNo(*number),
        Answer::Took { count, first } => Said::Took(*count, *first),
        Answer::Shown(shown) if is_joined(shown.as_history()) => Said::Joined,
        _ => Said::Other,
    }
}

const WANTED: [Said; 12] = [
    Said::Done,
    Said::Done,
    Said::Done,
    Said::Done,
    Said::Done,
    Said::Done,
    Said::FrameNo(1),
    Said::FrameNo(2),
    Said::Took(0, 0),
    Said::Took(0, 0),
    Said::Joined,
    Said::Joined,
];

#[test]
fn two_replicas_receive_each_others_entry(rt: HostRuntime) {
    let mut world = fresh(&rt, rt.alloc());
    let answers = answers(&rt, &mut world, exchange(&rt, rt.alloc()));
    assert!(rt; answers.len() == WANTED.len());
    for (place, answer) in answers.iter().enumerate() {
        assert!(rt; WANTED.get(place).copied() == Some(summary_of(answer)));
    }
}
