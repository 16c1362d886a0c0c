//! A caller that knows a core by its contract alone: behaviours that count.

ghost use Rattle.std.specs.Prelude.{◌≡◌, ◌≤◌, ◌++◌, ◌∷◌, [], Some, false, length, true, IfOk, MatchOption, OnErr, OnOk};
ghost use Rattle.lf_base.specs.declared.values.Value.TheVariants.{Int};
ghost use Rattle.lf_base.specs.Names.{same_cown};
ghost use Rattle.lf_base.specs.Sets.{Differ};
ghost use Rattle.lf_core.specs.Counting.{HandsIn};
ghost use Rattle.lf_base.specs.declared.behaviours.Job.{Job as PlainJob};
ghost use Rattle.lf_base.specs.declared.limits.TheConstants.{MOST_BEHAVIOURS as Most};
ghost use Rattle.lf_core.specs.Cores.{MayEnd, going, is_abandoned, new_core, with_ended, with_started};
ghost use Rattle.lf_core.specs.Reading.{Parked};
ghost use Rattle.lf_core.specs.Tasks.{outcome_of};
ghost use Rattle.lf_core.specs.World.{Outcome as PlainOutcome, order_of, ready_job};
ghost use Rattle.lf_queue.specs.Queues.{is_running};

use crate::actor::{Outcome, Task};
use crate::run_core::Core;
use lf_base::{
    CownId, Cowns, Held, Job, Lines, Listed, Order, OutOfMemory, Spawn, Spawns, Stored, Value,
    Values,
};
use lf_frozen::FrozenRows;
use std::alloc::Global;

/// A content that is a number.
#[derive(Drop)]
pub struct Counter {
    pub count: i64,
}

impl Stored for Counter {
    ghost content = { λ counter. Int counter.count };

    ghost rows = { λ counter. [] };
}

/// A core whose main makes two cowns, lets two behaviours wait for the first cown, and one for the
/// second. Each of these adds one to its content, and waits again under a further number for so
/// many turns.
#[derive(Drop)]
pub struct CountingCore {
    core: Core<Counter>,
    turns: i64,
}

fn push<T: Drop>(list: &mut Listed<T>, item: T) -> Result<(), OutOfMemory>
    ensures { OnOk result (list.new ≡ list.old ++ item ∷ []) }
{
    match list.push(item) {
        Ok(()) => Ok(()),
        Err((_item, wanted)) => Err(wanted),
    }
}

// A spawn on these cowns, with so many turns to come.
fn spawn_on(alloc: Global, cowns: Cowns, turns: i64) -> Result<Spawn, OutOfMemory>
    ensures { IfOk result (λ spawn. spawn.cowns ≡ cowns) }
{
    let mut values = Values::new(alloc);
    push(&mut values, Value::Int(turns))?;
    Ok(Spawn {
        body: 0,
        cowns,
        values,
    })
}

// A spawn on one cown.
fn spawn_on_one(alloc: Global, cown: CownId, turns: i64) -> Result<Spawn, OutOfMemory>
    ensures { IfOk result (λ spawn. Differ same_cown spawn.cowns) }
{
    let mut cowns = Cowns::new(alloc);
    push(&mut cowns, cown)?;
    spawn_on(alloc, cowns, turns)
}

// What main hands in.
fn main_outcome(alloc: Global, id: u32, turns: i64) -> Result<Outcome<Counter>, OutOfMemory>
    ensures { IfOk result (λ done. HandsIn id done) }
{
    let first = CownId { birth: id, seq: 1 };
    let second = CownId { birth: id, seq: 2 };
    let mut made = Held::new(alloc);
    push(&mut made, (first, Counter { count: 0 }))?;
    push(&mut made, (second, Counter { count: 0 }))?;
    let mut spawns = Spawns::new(alloc);
    push(&mut spawns, spawn_on_one(alloc, first, turns)?)?;
    push(&mut spawns, spawn_on_one(alloc, first, turns)?)?;
    push(&mut spawns, spawn_on_one(alloc, second, turns)?)?;
    Ok(Outcome {
        id,
        held: Held::new(alloc),
        made,
        rows: FrozenRows::new(alloc),
        lines: Lines::new(alloc),
        fault: None,
        spawns,
    })
}

// One more in each content.
fn counted(alloc: Global, held: Held<Counter>) -> Result<Held<Counter>, OutOfMemory> {
    let mut held = held;
    let mut counted = Held::new(alloc);
    while let Some((cown, counter)) = held.pop() {
        let count = counter.count.saturating_add(1);
        push(&mut counted, (cown, Counter { count }))?;
    }
    Ok(counted)
}

// The turns that are left, where there are some.
fn turns_left(values: &Values) -> Option<i64> {
    match values.get(0) {
        Some(Value::Int(turns)) if *turns > 1 => Some(*turns - 1),
        _ => None,
    }
}

// What a behaviour other than main hands in.
fn turn_outcome(alloc: Global, task: Task<Counter>) -> Result<Outcome<Counter>, OutOfMemory>
    requires { Differ same_cown task.job.cowns }
    ensures { IfOk result (λ done. HandsIn task.job.id done) }
{
    let Job {
        id,
        cowns,
        values,
        ..
    } = task.job;
    let held = counted(alloc, task.held)?;
    let mut spawns = Spawns::new(alloc);
    if let Some(turns) = turns_left(&values) {
        push(&mut spawns, spawn_on(alloc, cowns, turns)?)?;
    }
    Ok(Outcome {
        id,
        held,
        made: Held::new(alloc),
        rows: FrozenRows::new(alloc),
        lines: Lines::new(alloc),
        fault: None,
        spawns,
    })
}

fn outcome(alloc: Global, task: Task<Counter>, turns: i64) -> Result<Outcome<Counter>, OutOfMemory>
    requires { Differ same_cown task.job.cowns }
    ensures { IfOk result (λ done. HandsIn task.job.id done) }
{
    if task.job.id == 0 {
        main_outcome(alloc, 0, turns)
    } else {
        turn_outcome(alloc, task)
    }
}

/// Commits an outcome, and tries once more where there was no memory.
pub fn commit_again(core: &mut Core<Counter>, done: Outcome<Counter>) -> Result<(), OutOfMemory>
    requires fits { MayEnd core.old.world done.id (outcome_of (λ c. Int c.count) (λ c. []) done) }
    requires not_abandoned { is_abandoned core.old done.id ≡ false }
    ensures ended { OnOk result (core.new ≡ with_ended done.id (outcome_of (λ c. Int c.count) (λ c. []) done) core.old) }
    ensures unchanged { OnErr result (core.new ≡ core.old) }
{
    let Err((done, _wanted)) = core.commit(done) else {
        return Ok(());
    };
    match core.commit(done) {
        Ok(()) => Ok(()),
        Err((_done, wanted)) => Err(wanted),
    }
}

// Ends a running behaviour, or loses it for want of memory.
fn end(
    core: &mut Core<Counter>,
    alloc: Global,
    task: Task<Counter>,
    turns: i64,
) -> Result<(), OutOfMemory>
    requires running { is_running core.old.world.running task.job.id ≡ true }
    requires not_abandoned { core.old.abandoned ≡ [] }
    requires cowns { Differ same_cown task.job.cowns }
    ensures { OnOk result ((done : PlainOutcome Parked) × (core.new ≡ with_ended task.job.id done core.old)) }
{
    let id = task.job.id;
    let Ok(done) = outcome(alloc, task, turns) else {
        core.abandon(id);
        return Err(OutOfMemory);
    };
    match commit_again(core, done) {
        Ok(()) => Ok(()),
        Err(wanted) => {
            core.abandon(id);
            Err(wanted)
        }
    }
}

impl CountingCore {
    /// Main waits, and each of the others will have so many turns.
    pub fn new(alloc: Global, budget: u32, turns: i64) -> Result<CountingCore, OutOfMemory>
        requires { budget ≤ Most }
        ensures { IfOk result (λ counting. counting.core ≡ new_core budget) }
    {
        Ok(CountingCore {
            core: Core::new(alloc, budget)?,
            turns,
        })
    }

    /// Runs the ready behaviour at that place to its end. None where no more than so many are ready, or
    /// where one was lost for want of memory.
    pub fn run_one(&mut self, alloc: Global, at: u32) -> Result<Option<u32>, OutOfMemory>
        ensures { IfOk result (λ ran. MatchOption ran (self.new ≡ self.old) (λ id. (job : PlainJob) × ((done : PlainOutcome Parked)
            × ((ready_job self.old.core.world id ≡ Some job) × (self.new.core ≡ with_ended job.id done (with_started job self.old.core)))))) }
    {
        if self.core.starved() {
            return Ok(None);
        }
        let Some(id) = self.core.ready_at(at) else {
            return Ok(None);
        };
        let task = self.core.take(id)?;
        end(&mut self.core, alloc, task, self.turns)?;
        Ok(Some(id))
    }

    /// Runs a round: all that are ready now, side by side, and no more than two. Gives how many ran.
    pub fn run_round(&mut self, alloc: Global) -> Result<u32, OutOfMemory> {
        if self.core.starved() {
            return Ok(0);
        }
        let Some(first) = self.core.ready() else {
            return Ok(0);
        };
        let one = self.core.take(first)?;
        let Some(second) = self.core.ready() else {
            end(&mut self.core, alloc, one, self.turns)?;
            return Ok(1);
        };
        let other = match self.core.take(second) {
            Ok(other) => other,
            Err(wanted) => {
                self.core.abandon(first);
                return Err(wanted);
            }
        };
        end(&mut self.core, alloc, one, self.turns)?;
        end(&mut self.core, alloc, other, self.turns)?;
        Ok(2)
    }

    /// The number behind the first cown above that one.
    pub fn count_above(&self, after: Option<CownId>) -> Option<i64> {
        match self.core.left().next_above(after) {
            Some((_cown, counter)) => Some(counter.count),
            None => None,
        }
    }

    /// How many were started, how many wait, and how many run.
    pub fn numbers(&self) -> (u32, u32, u32)
        ensures started { result.0 ≡ self.now.core.world.started }
        ensures waiting { result.1 ≡ length self.now.core.world.waiting }
        ensures running { result.2 ≡ length (going self.now.core) }
    {
        (
            self.core.started(),
            self.core.waiting(),
            self.core.running(),
        )
    }

    /// How many were committed, and whether a frozen row is there.
    pub fn kept(&self) -> (usize, bool) {
        (
            self.core.journal().len(),
            self.core.frozen().next_above(None).is_some(),
        )
    }

    /// Takes the first ready behaviour and loses it. Whether the core is starved then.
    pub fn lose_one(&mut self) -> Result<bool, OutOfMemory> {
        if self.core.starved() {
            return Ok(true);
        }
        if let Some(id) = self.core.ready() {
            let task = self.core.take(id)?;
            drop(task);
            self.core.abandon(id);
        }
        Ok(self.core.starved())
    }

    /// The numbers of what was committed.
    pub fn into_order(self) -> Order
        ensures { result ≡ order_of self.core.world }
    {
        self.core.into_order()
    }
}
