//! A turn over a counter: its passes in one thread and in four, and the greatest total.
ghost use Rattle.std.specs.Prelude.{◌≡◌, Some};

use crate::setup::comes;
use std::alloc::Global;
use std::process::Abort;
use std::snapshot::Snapshot;
use std::sync::Wait;
use std::sync::atomic::{AtomicU64, Ordering};
use std::thread::{Threads, join};
use std::time::Clock;
use warm_turn::{Add, Added, CallMade, Counter, Machine, Pass, Turn, Visit, Visited};

// A turn over a counter at this total.
fn counter_at(rt: &impl Abort, alloc: Global, total: u64) -> (Turn<Counter>, Pass<Counter>)
    ensures { result.1.table ≡ result.0.table }
{
    Turn::new(alloc, Counter { total })
        .ok()
        .expect(rt, "memory for a turn")
}

// What code can prove that is given only a turn and a pass of it.
fn learn_opening<M: Machine>(turn: &Turn<M>, pass: &mut Pass<M>)
    requires { pass.old.table ≡ turn.now.table }
    ensures table { pass.new.table ≡ turn.now.table }
    ensures opening { pass.new.view.opening ≡ Some turn.now.opening }
    ensures calls { pass.new.view.mine ≡ pass.old.view.mine }
{
    let note = turn.opening_note();
    turn.learn(pass, note);
}

// Adds through this pass.
fn added<R: Wait + Abort>(
    rt: &R,
    turn: &Turn<Counter>,
    pass: &mut Pass<Counter>,
    more: u64,
) -> Added
    requires { pass.old.table ≡ turn.now.table }
    ensures { pass.new.table ≡ turn.now.table }
{
    turn.call(rt, pass, Add(more)).expect(rt, "a ticket")
}

// The total of a turn that is closed.
fn closed(rt: &impl Abort, turn: Turn<Counter>, pass: Pass<Counter>) -> u64
    requires { pass.table ≡ turn.table }
{
    let counter = turn.close(pass).expect(rt, "each ticket was passed on");
    counter.total
}

// Adds five through the first pass, and two through another that has learned the first call.
fn add_by_two<R: Wait + Abort>(
    rt: &R,
    turn: &Turn<Counter>,
    first: &mut Pass<Counter>,
) -> (Added, Added)
    requires { first.old.table ≡ turn.now.table }
    ensures { first.new.table ≡ turn.now.table }
{
    let mut second = turn.pass(first);
    learn_opening(turn, &mut second);
    let five = added(rt, turn, first, 5);
    let note = turn.note(first);
    turn.learn(&mut second, note);
    let seven = added(rt, turn, &mut second, 2);
    turn.end(first, second);
    (five, seven)
}

#[test]
fn two_passes_count_on_one_machine(rt: HostRuntime) {
    let (turn, mut first) = counter_at(&rt, rt.alloc(), 0);
    let (five, seven) = add_by_two(&rt, &turn, &mut first);
    first.prove_is_legal();
    let total = closed(&rt, turn, first);
    assert!(rt; five == Added::Total(5) && seven == Added::Total(7) && total == 7);
}

#[test]
fn a_full_counter_stays(rt: HostRuntime) {
    let (turn, mut pass) = counter_at(&rt, rt.alloc(), 18446744073709551615);
    let one = added(&rt, &turn, &mut pass, 1);
    let none = added(&rt, &turn, &mut pass, 0);
    let total = closed(&rt, turn, pass);
    assert!(rt;
        one == Added::Overflow
            && none == Added::Total(18446744073709551615)
            && total == 18446744073709551615
    );
}

// Adds one where the counter lies.
#[derive(Drop)]
struct AddOne;

impl Visit<Counter> for AddOne {
    ghost use Rattle.std.specs.Prelude.{◌≡◌, ⊤};

    type Output = Added;

    ghost ready = { λ _. ⊤ };

    ghost makes = { λ _ output call reply. (call.0 ≡ 1) × (reply ≡ output) };

    fn visit(self, counter: &mut Counter) -> Visited<Add, Added, Added> {
        let output = counter.call(Add(1));
        let made = CallMade {
            call: Snapshot::of(&Add(1)),
            reply: Snapshot::of(&output),
        };
        Visited { made, output }
    }
}

// Adds one, and during the visit tries another visit through a pass of its own, which comes back.
#[derive(Drop)]
struct AddOneAndTry<'a> {
    turn: &'a Turn<Counter>,
    pass: Pass<Counter>,
}

impl<'a> Visit<Counter> for AddOneAndTry<'a> {
    ghost use Rattle.std.specs.Prelude.{◌≡◌};

    type Output = bool;

    ghost ready = { λ v. v.pass.table ≡ v.turn.now.table };

    ghost makes = { λ _ _ call _. call.0 ≡ 1 };

    fn visit(self, counter: &mut Counter) -> Visited<Add, Added, bool> {
        let AddOneAndTry { turn, mut pass } = self;
        let reply = counter.call(Add(1));
        let came_back = turn.try_visit(&mut pass, AddOne).is_err();
        let made = CallMade {
            call: Snapshot::of(&Add(1)),
            reply: Snapshot::of(&reply),
        };
        Visited {
            made,
            output: came_back,
        }
    }
}

// A try waits for nobody: one that is made during a visit comes back, and one that is made after it
// is let in.
#[test]
fn a_try_during_a_visit_comes_back(rt: HostRuntime) {
    let (turn, mut first) = counter_at(&rt, rt.alloc(), 5);
    let pass = turn.pass(&mut first);
    let came_back = turn
        .visit(&rt, &mut first, AddOneAndTry { turn: &turn, pass })
        .ok()
        .expect(&rt, "a ticket");
    let added = turn.try_visit(&mut first, AddOne).ok();
    let total = closed(&rt, turn, first);
    assert!(rt; came_back && added == Some(Added::Total(7)) && total == 7);
}

// A gate that holds two threads back until two others are done.
#[derive(Drop)]
struct Gate {
    open: AtomicU64,
    late: AtomicU64,
}

// Adds one, and ignores the reply.
fn add_one<M: Machine<Call = Add, Reply = Added>, R: Wait>(
    rt: &R,
    turn: &Turn<M>,
    pass: &mut Pass<M>,
)
    requires { pass.old.table ≡ turn.now.table }
    ensures { pass.new.table ≡ turn.now.table }
{
    let _ = turn.call(rt, pass, Add(1));
}

// Adds one three times, and waits after the first if there is a gate.
fn add_thrice<M: Machine<Call = Add, Reply = Added>, R: Wait + Clock>(
    rt: &R,
    turn: &Turn<M>,
    mut pass: Pass<M>,
    gate: Option<&Gate>,
) -> Pass<M>
    requires { pass.table ≡ turn.now.table }
    ensures { result.table ≡ turn.now.table }
{
    add_one(rt, turn, &mut pass);
    if let Some(gate) = gate {
        if !comes(rt, &gate.open, 1) {
            gate.late.store(1, Ordering::SeqCst);
        }
    }
    add_one(rt, turn, &mut pass);
    add_one(rt, turn, &mut pass);
    pass
}

// Two passes in two threads at once, over any machine that may be sent to another thread.
fn add_in_two_threads<
    M: Machine<Call = Add, Reply = Added> + Send,
    R: Threads + Wait + Clock + Sync,
>(rt: &R, turn: &Turn<M>, one: Pass<M>, two: Pass<M>, gate: Option<&Gate>) -> (Pass<M>, Pass<M>)
    requires { (one.table ≡ turn.now.table) × (two.table ≡ turn.now.table) }
    ensures { (result.0.table ≡ turn.now.table) × (result.1.table ≡ turn.now.table) }
{
    join(
        rt,
        move || -> Pass<M>
            requires { one.table ≡ turn.now.table }
            ensures { result.table ≡ turn.entry.now.table }
        { add_thrice(rt, turn, one, gate) },
        move || -> Pass<M>
            requires { two.table ≡ turn.now.table }
            ensures { result.table ≡ turn.entry.now.table }
        { add_thrice(rt, turn, two, gate) },
    )
}

// Four passes of a turn add twelve in four threads, and are ended into the first one.
fn add_in_four_threads<R: Threads + Wait + Clock + Sync>(
    r: &R,
    t: &Turn<Counter>,
    mut first: Pass<Counter>,
    g: &Gate,
) -> Pass<Counter>
    requires { first.table ≡ t.now.table }
    ensures { result.table ≡ t.now.table }
{
    let one = t.pass(&mut first);
    let two = t.pass(&mut first);
    let three = t.pass(&mut first);
    let four = t.pass(&mut first);
    let (mut first, (three, four)) = join(
        r,
        move || -> Pass<Counter>
            requires { (first.table ≡ t.now.table) × (one.table ≡ t.now.table)
                × (two.table ≡ t.now.table) }
            ensures { result.table ≡ t.entry.now.table }
        {
            let mut first = first;
            let (one, two) = add_in_two_threads(r, t, one, two, None);
            t.end(&mut first, one);
            t.end(&mut first, two);
            g.open.store(1, Ordering::SeqCst);
            first
        },
        move || -> (Pass<Counter>, Pass<Counter>)
            requires { (three.table ≡ t.now.table) × (four.table ≡ t.now.table) }
            ensures { (result.0.table ≡ t.entry.now.table)
                × (result.1.table ≡ t.entry.now.table) }
        { add_in_two_threads(r, t, three, four, Some(g)) },
    );
    t.end(&mut first, three);
    t.end(&mut first, four);
    first
}

// Two passes are ended while two others still call.
#[test]
fn four_threads_count_to_twelve(rt: HostRuntime) {
    let gate = Gate {
        open: AtomicU64::new(0),
        late: AtomicU64::new(0),
    };
    let (turn, first) = counter_at(&rt, rt.alloc(), 0);
    let first = add_in_four_threads(&rt, &turn, first, &gate);
    assert!(rt; closed(&rt, turn, first) == 12 && gate.late.load(Ordering::SeqCst) == 0);
}
