//! The call and the visit that the README of `warm_turn` shows.
use anyhow::Result;
use std::alloc::Global;
use std::process::Abort;
use std::snapshot::Snapshot;
use std::sync::Wait;
use warm_turn::{Add, Added, CallMade, Counter, Turn, Visit, Visited};

fn one_call<R: Wait + Abort>(rt: &R, alloc: Global) -> Result<()> {
    let (turn, mut first) = Turn::new(alloc, Counter { total: 0 })
        .ok()
        .expect(rt, "memory");
    let mut second = turn.pass(&mut first); // for another thread
    let five = turn.call(rt, &mut first, Add(5)).expect(rt, "a ticket");
    let seven = turn.call(rt, &mut second, Add(2)).expect(rt, "a ticket");
    assert!(rt; five == Added::Total(5) && seven == Added::Total(7));
    turn.end(&mut first, second);
    let counter = turn.close(first).expect(rt, "no call is under way");
    assert!(rt; counter.total == 7);
    Ok(())
}

#[test]
fn one_call_of_warm_turn(rt: HostRuntime) {
    assert!(rt; one_call(&rt, rt.alloc()).is_ok());
}

#[derive(Drop)]
struct AddInPlace {
    more: u64,
}

impl Visit<Counter> for AddInPlace {
    ghost use Rattle.std.specs.Prelude.{◌≡◌, ⊤};

    type Output = Added;

    ghost ready = { λ _. ⊤ };

    ghost makes = { λ v output call reply. (call.0 ≡ v.more) × (reply ≡ output) };

    fn visit(self, counter: &mut Counter) -> Visited<Add, Added, Added> {
        let AddInPlace { more } = self;
        let output = match counter.total.checked_add(more) {
            Some(total) => {
                counter.total = total;
                Added::Total(total)
            }
            None => Added::Overflow,
        };
        let made = CallMade {
            call: Snapshot::of(&Add(more)),
            reply: Snapshot::of(&output),
        };
        Visited { made, output }
    }
}

// Two visits, and between them a call: the counter has all three.
fn two_visits<R: Wait + Abort>(rt: &R, alloc: Global) -> Result<()> {
    let (turn, mut pass) = Turn::new(alloc, Counter { total: 0 })
        .ok()
        .expect(rt, "memory");
    let five = turn
        .visit(rt, &mut pass, AddInPlace { more: 5 })
        .ok()
        .expect(rt, "a ticket");
    let seven = turn.call(rt, &mut pass, Add(2)).expect(rt, "a ticket");
    let full = turn
        .visit(rt, &mut pass, AddInPlace { more: u64::MAX })
        .ok()
        .expect(rt, "a ticket");
    assert!(rt; five == Added::Total(5));
    assert!(rt; seven == Added::Total(7));
    assert!(rt; full == Added::Overflow);
    let counter = turn.close(pass).expect(rt, "no visit is under way");
    assert!(rt; counter.total == 7);
    Ok(())
}

#[test]
fn visits_and_calls_of_warm_turn(rt: HostRuntime) {
    assert!(rt; two_visits(&rt, rt.alloc()).is_ok());
}
