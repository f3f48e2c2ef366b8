//! The steps of each worker.
ghost use Rattle.std.specs.Prelude.{◌≡◌, ◌+◌, ◌<◌, ◌^◌, ◌++◌, ◌∷◌, [], List, length, replicate};
ghost use Rattle.std.specs.Prelude.{true};
ghost use Rattle.std.specs.Prelude.{Err, IfOk, IfErr, OnOk, None, ◌⊎◌, slice_set, slice_index_or};
ghost use Rattle.warm_refbuffer.specs.Buffered.{IsCapacity};
ghost use Rattle.warm_world.specs.declared.play_fault.PlayFault.TheVariants.{Memory, BadLine};
ghost use Rattle.warm_player.specs.Text.{lines};
ghost use Rattle.warm_replica.specs.Pairs.{Pairs};
ghost use Rattle.warm_threads.specs.declared.ask.Ask.{Ask};
ghost use Rattle.warm_threads.specs.Steps.{nothing_planned};
ghost use Rattle.warm_threads.specs.Plans.{plan_task, IsShaped, ArePlansOf, DoesPlan, DoPlans};
ghost use Rattle.warm_threads.specs.Plans.{AreJobsOf};
ghost use Rattle.warm_threads.specs.Asks.{asked, asks, first_bad, has_worker, not_playable};
ghost use Rattle.warm_threads.specs.Asks.{with_ask};
ghost use Rattle.warm_threads.specs.Asks.{IsBadLine, IsPlayable};

use crate::ask::{Ask, Task, asked};
use std::alloc::{AllocError, Global};
use std::marker::Model;
use warm_player::first_line;
use warm_replica::{Job, Step};
use warm_world::{PlayFault, Setup};

/// The steps planned for a worker, and how many references its buffer holds after them.
#[derive(Drop)]
pub(crate) struct Plan {
    steps: Vec<Step>,
    held: usize,
}

impl Model for Plan {
    ghost use Rattle.warm_threads.specs.Steps.{Planned};

    ghost Value = { Planned };

    ghost view = { λ p. record { steps = p.steps.items; held = p.held } };
}

impl Plan {
    fn new(alloc: Global) -> Plan
        ensures { result ≡ nothing_planned }
    {
        Plan {
            steps: Vec::new(alloc),
            held: 0,
        }
    }

    // Plans one more task. The buffer holds `capacity` references.
    fn add(&mut self, capacity: usize, task: Task) -> Result<(), AllocError>
        requires { IsCapacity capacity }
        ensures { OnOk result (self.new ≡ plan_task capacity self.old task) }
    {
        let Task::Reference(reference) = task else {
            self.steps.push(Step::Flush)?;
            self.held = 0;
            return Ok(());
        };
        if self.held < capacity {
            self.steps.push(Step::Touch(reference))?;
            self.held += 1;
            return Ok(());
        }
        self.steps.push(Step::Flush)?;
        self.steps.push(Step::Touch(reference))?;
        self.held = 1;
        Ok(())
    }
}

// Plans more for the worker at a place.
fn add_to(list: &mut Vec<Plan>, at: usize, capacity: usize, task: Task) -> Result<(), AllocError>
    requires there { at < length list.old.items }
    requires capacity { IsCapacity capacity }
    ensures adds { OnOk result (list.new.items ≡ slice_set list.old.items at
        (plan_task capacity (slice_index_or list.old.items at nothing_planned) task)) }
{
    list[at].add(capacity, task)?;
    Ok(())
}

// Plans a request to a worker of the setup.
fn add_ask(plans: &mut Vec<Vec<Plan>>, setup: Setup, ask: Ask) -> Result<(), AllocError>
    requires there { has_worker setup ask.replica ask.worker ≡ true }
    requires shape { IsShaped setup plans.old.items }
    ensures shape { OnOk result (IsShaped setup plans.new.items) }
    ensures adds { (before : List Ask) → ArePlansOf setup before plans.old.items
        → OnOk result (ArePlansOf setup (before ++ ask ∷ []) plans.new.items) }
{
    let replica = ask.replica as usize - 1;
    let worker = ask.worker as usize - 1;
    let capacity = setup.buffer() as usize;
    add_to(&mut plans[replica], worker, capacity, ask.task)?;
    Ok(())
}

// Empty plans for this many workers.
fn plans_for(alloc: Global, workers: u16) -> Result<Vec<Plan>, AllocError>
    ensures { IfOk result (λ v. v.items ≡ replicate workers nothing_planned) }
{
    let mut list = Vec::with_capacity(alloc, workers as usize)?;
    for _worker in 0..workers {
        list.push(Plan::new(alloc))?;
    }
    Ok(list)
}

// The same for each replica.
fn empty_plans(alloc: Global, setup: Setup) -> Result<Vec<Vec<Plan>>, AllocError>
    ensures shape { IfOk result (λ v. IsShaped setup v.items) }
    ensures empty { IfOk result (λ v. ArePlansOf setup [] v.items) }
{
    let mut plans = Vec::with_capacity(alloc, setup.replicas() as usize)?;
    for _replica in 0..setup.replicas() {
        plans.push(plans_for(alloc, setup.workers())?)?;
    }
    Ok(plans)
}

// Plans the request of the line of this number.
fn take_line(
    setup: Setup,
    line: &[u8],
    number: u64,
    plans: &mut Vec<Vec<Plan>>,
) -> Result<(), PlayFault>
    requires shape { IsShaped setup plans.old.items }
    ensures shape { OnOk result (IsShaped setup plans.new.items) }
    ensures adds { (before : List Ask) → ArePlansOf setup before plans.old.items
        → OnOk result (ArePlansOf setup (before ++ with_ask (asked setup line.now) [])
        plans.new.items) }
    ensures good { OnOk result (IsPlayable (asked setup line.now)) }
    ensures bad { IfErr result (λ why. (why ≡ Memory)
        ⊎ ((why ≡ BadLine number) × (asked setup line.now ≡ Err not_playable))) }
{
    let Ok(said) = asked(setup, line) else {
        return Err(PlayFault::BadLine(number));
    };
    let Some(ask) = said else {
        return Ok(());
    };
    add_ask(plans, setup, ask)?;
    Ok(())
}

// Plans the requests of the lines of a text.
fn plan_text(alloc: Global, setup: Setup, text: &[u8]) -> Result<Vec<Vec<Plan>>, PlayFault>
    requires countable { length text.now + 1 < 2 ^ 64 }
    ensures shape { IfOk result (λ v. IsShaped setup v.items) }
    ensures plans { IfOk result (λ v. ArePlansOf setup (asks setup (lines text.now)) v.items) }
    ensures good { OnOk result (first_bad setup (lines text.now) ≡ None) }
    ensures bad { IfErr result (λ why. (why ≡ Memory)
        ⊎ IsBadLine (first_bad setup (lines text.now)) why) }
{
    let mut plans = empty_plans(alloc, setup)?;
    let mut number = 1;
    let mut rest = text;
    while let Some((line, after)) = first_line(rest) {
        take_line(setup, line, number, &mut plans)?;
        number += 1;
        rest = after;
    }
    take_line(setup, rest, number, &mut plans)?;
    Ok(plans)
}

// The job of a worker, which flushes last.
fn job_of(plan: Plan, capacity: usize) -> Result<Job, AllocError>
    ensures { IfOk result (λ job. DoesPlan capacity plan job) }
{
    let Plan { mut steps, held: _ } = plan;
    steps.push(Step::Flush)?;
    Ok(Job {
        cap: capacity,
        steps,
    })
}

// The jobs of a replica.
fn jobs_of(alloc: Global, plans: Vec<Plan>, capacity: usize) -> Result<Vec<Job>, AllocError>
    ensures { IfOk result (λ jobs. Pairs (DoesPlan capacity) plans.items jobs.items) }
{
    let mut jobs = Vec::with_capacity(alloc, plans.len())?;
    for plan in plans {
        jobs.push(job_of(plan, capacity)?)?;
    }
    Ok(jobs)
}

// The jobs of each replica.
fn jobs_of_all(
    alloc: Global,
    setup: Setup,
    plans: Vec<Vec<Plan>>,
) -> Result<Vec<Vec<Job>>, AllocError>
    ensures { IfOk result (λ jobs. DoPlans setup.buffer plans.items jobs.items) }
{
    let mut all = Vec::with_capacity(alloc, plans.len())?;
    for list in plans {
        all.push(jobs_of(alloc, list, setup.buffer() as usize)?)?;
    }
    Ok(all)
}

/// The jobs of the workers of each replica, by replica and then by worker, that carry out the
/// requests of the text's lines: each worker's lines in their order, each full buffer flushed
/// before a further reference, and each flushed last.
///
/// # Errors
/// `BadLine` with the number of the first line that threads cannot play. `Memory`.
pub(crate) fn jobs_in(alloc: Global, setup: Setup, text: &[u8]) -> Result<Vec<Vec<Job>>, PlayFault>
    requires countable { length text.now + 1 < 2 ^ 64 }
    ensures jobs { IfOk result (λ jobs.
        AreJobsOf setup (asks setup (lines text.now)) jobs.items) }
    ensures good { OnOk result (first_bad setup (lines text.now) ≡ None) }
    ensures bad { IfErr result (λ why. (why ≡ Memory)
        ⊎ IsBadLine (first_bad setup (lines text.now)) why) }
{
    let plans = plan_text(alloc, setup, text)?;
    let all = jobs_of_all(alloc, setup, plans)?;
    Ok(all)
}
