//! What was proved of behaviours, whatever runs them. Each function has an empty body; its
//! clause is the law.

ghost use Rattle.std.specs.Prelude.{List, ◌≡◌, ℕ};
ghost use Rattle.lf_base.specs.declared.behaviours.Job.{Job};
ghost use Rattle.lf_base.specs.declared.ids.CownId.{CownId};
ghost use Rattle.lf_base.specs.Contents.{Parked, stored};
ghost use Rattle.lf_base.specs.PlainState.{Row, State};
ghost use Rattle.lf_code.specs.CodeStep.{Config, IsOver, Program};
ghost use Rattle.lf_code.specs.RunCode.{config_result, run_code};
ghost use Rattle.lf_code.specs.Ticked.{Ticked};
ghost use Rattle.lf_machine.specs.Behaviours.{ComesFrom, ComesToEnd, started};

/// What is left of a job that was started on the contents of its cowns and is over is what its
/// code makes of it.
pub fn runs_to_the_result()
    ensures { (p : Program) (ticks : ℕ) (job : Job) (contents : List (CownId × Parked)) (given : List Row) (x : Config) → Ticked p
        → ComesFrom p (started p ticks job (stored job.id contents given)) x → IsOver x
        → config_result x ≡ run_code p ticks job contents given }
{}

/// Ticked code comes to its end from the start of each job.
pub fn started_behaviours_end()
    ensures { (p : Program) (ticks : ℕ) (job : Job) (s : State) → Ticked p → ComesToEnd p (started p ticks job s) }
{}
