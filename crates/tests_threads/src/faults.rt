//! How the refusals of a turn, a flush, a look or a run of jobs are displayed.
use test_kit::displays;
use warm_replica::{FlushFault, LendFault, NoThread, RunFault};
use warm_turn::{Add, Busy, Counter, Memory, TurnsSpent};

#[test]
fn refusals_of_a_turn_say_what_they_are(rt: HostRuntime) {
    let memory = Memory {
        machine: Counter { total: 3 },
    };
    let spent = TurnsSpent { call: Add(1) };
    let busy = Busy {
        ticket: 8,
        serving: 7,
    };
    let want = "ticket 8 is next, and ticket 7 is still served";
    assert!(rt; displays(rt.alloc(), &memory, "no memory was left for a turn"));
    assert!(rt; displays(rt.alloc(), &spent, "no ticket is left for a call"));
    assert!(rt; displays(rt.alloc(), &busy, want));
}

#[test]
fn other_refusals_are_shown_by_their_names(rt: HostRuntime) {
    let alloc = rt.alloc();
    assert!(rt; displays(alloc, &FlushFault::Memory, "Memory"));
    assert!(rt; displays(alloc, &FlushFault::TurnsSpent, "TurnsSpent"));
    assert!(rt; displays(alloc, &LendFault::TurnsSpent, "TurnsSpent"));
    assert!(rt; displays(alloc, &LendFault::StaleSlot, "StaleSlot"));
    assert!(rt; displays(alloc, &RunFault::Memory, "Memory"));
    assert!(rt; displays(alloc, &RunFault::NoThread, "NoThread"));
    assert!(rt; displays(alloc, &RunFault::BadCapacity, "BadCapacity"));
    assert!(rt; displays(alloc, &NoThread, "NoThread"));
}
