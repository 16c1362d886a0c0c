ghost use Rattle.std.specs.Prelude.{◌≡◌, IfOk, map};
ghost use Rattle.lf_core.specs.Reading.{Parked, seen};
ghost use Rattle.lf_core.specs.Tasks.{IsTask, outcome_of};
ghost use Rattle.lf_core.specs.World.{Runs};
ghost use Rattle.lf_frozen.specs.FrozenRows.{as_row};

use lf_base::{FaultAt, Held, Job, Lines, OutOfMemory, Spawns, Stored};
use lf_frozen::{FrozenMap, FrozenRows};
use std::alloc::Global;

/// What a behaviour is started with.
#[derive(Drop)]
pub struct Task<C> {
    pub job: Job,
    pub held: Held<C>,
    pub frozen: FrozenMap,
}

/// What it hands in at its end.
#[derive(Drop)]
pub struct Outcome<C> {
    pub id: u32,
    pub held: Held<C>,
    pub made: Held<C>,
    pub rows: FrozenRows,
    pub lines: Lines,
    pub fault: Option<FaultAt>,
    pub spawns: Spawns,
}

/// What runs behaviours. Its meaning is a function from job, contents and frozen
/// rows to an outcome.
pub trait Actor {
    /// What stands behind a cown.
    type Content: Stored + Drop;

    /// The function.
    ghost gives: { Self → Runs Parked };

    /// Runs one behaviour. `OutOfMemory` comes only where memory runs out.
    fn run(
        &self,
        alloc: Global,
        task: Task<Self::Content>,
    ) -> Result<Outcome<Self::Content>, OutOfMemory>
        requires task { IsTask (gives self.now) task.job (seen Self.Content.content Self.Content.rows task.held) (map as_row task.frozen) }
        ensures number { IfOk result (λ o. o.id ≡ task.job.id) }
        ensures outcome { IfOk result (λ o. outcome_of Self.Content.content Self.Content.rows o ≡ gives self.now task.job (seen Self.Content.content Self.Content.rows task.held) (map as_row task.frozen)) };
}
