//! Measures turns: a counter behind one turn, called by one pass, and by 2, 4 and 8 threads at
//! once.
//!
//! With no argument each thread takes 1,000 turns, and as many for visits, and the totals are
//! printed. With two numbers,
//! `THREADS TURNS`, 1, 2, 4 or 8 threads take that many turns each, and the nanoseconds are printed
//! too, for `bench/turn/measure.py`; with the word `waits` after them also the nanoseconds of the
//! longest call; and with `slow` the same of a counter that sleeps for a millisecond in each call,
//! as a machine over a slow device does. With `visits` the threads add by visits in place of calls.
ghost use Rattle.std.specs.Prelude.{◌≡◌};
ghost use Rattle.std.specs.Thread.{IsSend, IsSync};
ghost use Rattle.warm_turn.specs.contracts.counter.Counter.{the_row as counter_row};

use anyhow::{Context, Result, bail};
use std::alloc::Global;
use std::io::Print;
use std::snapshot::Snapshot;
use std::sync::Wait;
use std::thread::{Threads, join};
use std::time::{Clock, Duration, Instant};
use std::{io, thread};
use warm_turn::{Add, Added, CallMade, Counter, Machine, Pass, Turn, Visit, Visited};

// A counter that sleeps for a millisecond in each call.
#[derive(Drop)]
struct SlowCounter {
    clock: HostRuntime,
    counter: Counter,
}

impl Machine for SlowCounter {
    ghost use Rattle.warm_turn.specs.Counter.{Counts};

    type Call = Add;

    type Reply = Added;

    type State = u64;

    ghost view = { λ s. s.counter.total };

    ghost goes = { Counts };

    fn call(&mut self, call: Add) -> Added {
        thread::sleep(&self.clock, Duration::from_millis(1));
        self.counter.call(call)
    }
}

// Adds one to a counter where it lies.
#[derive(Drop)]
struct AddOne;

impl Visit<Counter> for AddOne {
    ghost use Rattle.std.specs.Prelude.{◌≡◌, ⊤};
    ghost use Rattle.warm_turn.specs.declared.counter.Add.{Add};

    type Output = Added;

    ghost ready = { λ _. ⊤ };

    ghost makes = { λ _ output call reply. (call.0 ≡ 1) × (reply ≡ output) };

    fn visit(self, counter: &mut Counter) -> Visited<Add, Added, Added> {
        let output = match counter.total.checked_add(1) {
            Some(total) => {
                counter.total = total;
                Added::Total(total)
            }
            None => Added::Overflow,
        };
        let made = CallMade {
            call: Snapshot::of(&Add(1)),
            reply: Snapshot::of(&output),
        };
        Visited { made, output }
    }
}

// The nanoseconds since then, or 0 if the clock fails.
fn nanos_since<R: Clock>(rt: &R, start: io::Result<Instant>) -> u64 {
    let Ok(start) = start else {
        return 0;
    };
    match start.elapsed(rt) {
        Ok(spent) => u64::try_from(spent.as_nanos()).unwrap_or(u64::MAX),
        Err(_) => 0,
    }
}

// Takes this many turns, and returns the nanoseconds of the longest of them, or 0 if that is not
// requested.
fn add_ones<M: Machine<Call = Add, Reply = Added>, R: Wait + Clock>(
    rt: &R,
    turn: &Turn<M>,
    mut pass: Pass<M>,
    turns: u64,
    is_timed: bool,
) -> (Pass<M>, u64)
    requires { pass.table ≡ turn.now.table }
    ensures { result.0.table ≡ turn.now.table }
{
    let mut longest = 0u64;
    for _ in 0..turns {
        if is_timed {
            let start = Instant::now(rt);
            let _ = turn.call(rt, &mut pass, Add(1));
            longest = longest.max(nanos_since(rt, start));
        } else {
            let _ = turn.call(rt, &mut pass, Add(1));
        }
    }
    (pass, longest)
}

// Takes this many turns, each for a visit.
fn visit_often<R: Wait>(
    rt: &R,
    turn: &Turn<Counter>,
    mut pass: Pass<Counter>,
    turns: u64,
) -> Pass<Counter>
    requires { pass.table ≡ turn.now.table }
    ensures { result.table ≡ turn.now.table }
{
    for _ in 0..turns {
        let _ = turn.visit(rt, &mut pass, AddOne);
    }
    pass
}

// This many threads take this many turns each, for visits, and their passes are ended into this
// one.
#[cycle(visit_in)]
fn visit_in<R: Threads + Wait + Sync>(
    rt: &R,
    turn: &Turn<Counter>,
    mut pass: Pass<Counter>,
    threads: u32,
    turns: u64,
) -> Pass<Counter>
    requires send { IsSend counter_row × IsSync R.row }
    requires table { pass.table ≡ turn.now.table }
    ensures { result.table ≡ turn.now.table }
{
    if threads <= 1 {
        return visit_often(rt, turn, pass, turns);
    }
    let half = threads / 2;
    let rest = threads - half;
    let other = turn.pass(&mut pass);
    let (mut pass, other) = join(
        rt,
        move || -> Pass<Counter>
            requires { IsSend counter_row × IsSync R.row × (pass.table ≡ turn.now.table) }
            ensures { result.table ≡ turn.entry.now.table }
        { visit_in(rt, turn, pass, half, turns) },
        move || -> Pass<Counter>
            requires { IsSend counter_row × IsSync R.row × (other.table ≡ turn.now.table) }
            ensures { result.table ≡ turn.entry.now.table }
        { visit_in(rt, turn, other, rest, turns) },
    );
    turn.end(&mut pass, other);
    pass
}

// This many threads take this many turns each, and their passes are ended into this one.
#[cycle(add_in)]
fn add_in<M: Machine<Call = Add, Reply = Added> + Send, R: Threads + Wait + Clock + Sync>(
    rt: &R,
    turn: &Turn<M>,
    mut pass: Pass<M>,
    threads: u32,
    turns: u64,
    is_timed: bool,
) -> (Pass<M>, u64)
    requires send { IsSend M.row × IsSync R.row }
    requires table { pass.table ≡ turn.now.table }
    ensures { result.0.table ≡ turn.now.table }
{
    if threads <= 1 {
        return add_ones(rt, turn, pass, turns, is_timed);
    }
    let half = threads / 2;
    let rest = threads - half;
    let other = turn.pass(&mut pass);
    let ((mut pass, first), (other, second)) = join(
        rt,
        move || -> (Pass<M>, u64)
            requires { IsSend M.row × IsSync R.row × (pass.table ≡ turn.now.table) }
            ensures { result.0.table ≡ turn.entry.now.table }
        { add_in(rt, turn, pass, half, turns, is_timed) },
        move || -> (Pass<M>, u64)
            requires { IsSend M.row × IsSync R.row × (other.table ≡ turn.now.table) }
            ensures { result.0.table ≡ turn.entry.now.table }
        { add_in(rt, turn, other, rest, turns, is_timed) },
    );
    turn.end(&mut pass, other);
    (pass, first.max(second))
}

#[derive(Clone, Copy)]
enum Crowd {
    One,
    Two,
    Four,
    Eight,
}

const CROWDS: [Crowd; 4] = [Crowd::One, Crowd::Two, Crowd::Four, Crowd::Eight];

impl Crowd {
    // The crowd of this many threads.
    fn of(threads: &str) -> Result<Crowd> {
        match threads {
            "1" => Ok(Crowd::One),
            "2" => Ok(Crowd::Two),
            "4" => Ok(Crowd::Four),
            "8" => Ok(Crowd::Eight),
            _ => bail!("1, 2, 4 or 8 threads"),
        }
    }

    fn threads(self) -> u32 {
        match self {
            Crowd::One => 1,
            Crowd::Two => 2,
            Crowd::Four => 4,
            Crowd::Eight => 8,
        }
    }

    fn name(self) -> &'static str {
        match self {
            Crowd::One => "1 thread",
            Crowd::Two => "2 threads",
            Crowd::Four => "4 threads",
            Crowd::Eight => "8 threads",
        }
    }
}

// The kind of a run: plain, with each call timed, with a machine that sleeps and each call timed,
// or with visits in place of calls.
#[derive(Clone, Copy)]
enum Kind {
    Plain,
    Timed,
    Slow,
    Visits,
}

// The total that the crowd counts to from 0, and the nanoseconds of the longest call.
fn count<R: Threads + Wait + Clock + Sync>(
    rt: &R,
    alloc: Global,
    crowd: Crowd,
    turns: u64,
    is_timed: bool,
) -> Result<(u64, u64)> {
    let Ok((turn, pass)) = Turn::new(alloc, Counter { total: 0 }) else {
        bail!("no memory")
    };
    let (pass, longest) = add_in(rt, &turn, pass, crowd.threads(), turns, is_timed);
    let Ok(counter) = turn.close(pass) else {
        bail!("a ticket was not passed on")
    };
    Ok((counter.total, longest))
}

// The total that the crowd counts to from 0 by visits.
fn count_by_visits<R: Threads + Wait + Sync>(
    rt: &R,
    alloc: Global,
    crowd: Crowd,
    turns: u64,
) -> Result<u64> {
    let Ok((turn, pass)) = Turn::new(alloc, Counter { total: 0 }) else {
        bail!("no memory")
    };
    let pass = visit_in(rt, &turn, pass, crowd.threads(), turns);
    let Ok(counter) = turn.close(pass) else {
        bail!("a ticket was not passed on")
    };
    Ok(counter.total)
}

// The same as `count`, for a machine that sleeps.
fn count_slowly<R: Threads + Wait + Clock + Sync>(
    rt: &R,
    alloc: Global,
    clock: HostRuntime,
    crowd: Crowd,
    turns: u64,
) -> Result<(u64, u64)> {
    let counter = Counter { total: 0 };
    let Ok((turn, pass)) = Turn::new(alloc, SlowCounter { clock, counter }) else {
        bail!("no memory")
    };
    let (pass, longest) = add_in(rt, &turn, pass, crowd.threads(), turns, true);
    let Ok(slow) = turn.close(pass) else {
        bail!("a ticket was not passed on")
    };
    Ok((slow.counter.total, longest))
}

// Runs the crowd, and prints the total, the time it took, and the time of the longest call if that
// was requested.
fn time<R: Threads + Wait + Clock + Print + AllocGlobal + Sync>(
    rt: &R,
    clock: HostRuntime,
    kind: Kind,
    crowd: Crowd,
    turns: u64,
) -> Result<()> {
    let start = Instant::now(rt)?;
    let (total, longest) = match kind {
        Kind::Plain => count(rt, rt.alloc(), crowd, turns, false)?,
        Kind::Timed => count(rt, rt.alloc(), crowd, turns, true)?,
        Kind::Slow => count_slowly(rt, rt.alloc(), clock, crowd, turns)?,
        Kind::Visits => (count_by_visits(rt, rt.alloc(), crowd, turns)?, 0),
    };
    let spent = start.elapsed(rt)?.as_nanos();
    match kind {
        Kind::Plain | Kind::Visits => {
            println!(rt; "{}: {} in {} ns", crowd.name(), total, spent)?
        }
        Kind::Timed | Kind::Slow => {
            println!(rt;
                "{}: {} in {} ns, {} ns",
                crowd.name(),
                total,
                spent,
                longest
            )?
        }
    }
    Ok(())
}

// The kind of a run, by the arguments after the numbers.
fn kind_of(words: &[String]) -> Result<Kind> {
    if words.is_empty() {
        return Ok(Kind::Plain);
    }
    if let [word] = words {
        match word.as_str() {
            "waits" => return Ok(Kind::Timed),
            "slow" => return Ok(Kind::Slow),
            "visits" => return Ok(Kind::Visits),
            _ => {}
        }
    }
    bail!("turn takes two numbers, of threads and of the turns of each, and waits, slow or visits")
}

pub(crate) fn play<R: Threads + Wait + Clock + Print + AllocGlobal + Sync>(
    rt: &R,
    clock: HostRuntime,
    words: &[String],
) -> Result<()> {
    if let [threads, turns, rest @ ..] = words {
        let turns = turns
            .parse::<u64>()
            .context("the number of turns of each thread")?;
        return time(rt, clock, kind_of(rest)?, Crowd::of(threads)?, turns);
    }
    if !words.is_empty() {
        bail!(
            "turn takes two numbers, of threads and of the turns of each, and waits, slow or visits"
        )
    }
    for crowd in CROWDS {
        let (total, _) = count(rt, rt.alloc(), crowd, 1_000, false)?;
        println!(rt; "{}: {}", crowd.name(), total)?;
        let visits = count_by_visits(rt, rt.alloc(), crowd, 1_000)?;
        println!(rt; "{}, visits: {}", crowd.name(), visits)?;
    }
    Ok(())
}
