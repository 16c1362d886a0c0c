//! A script's code, run.

ghost use Rattle.std.specs.Prelude.{◌≡◌, [], IfOk, None};
ghost use Rattle.lf_app.specs.Ran.{IsLeftBy};
ghost use Rattle.lf_app.specs.Unbuilt.{first_unbuilt};
ghost use Rattle.lf_app.specs.Verdicts as spec;
ghost use Rattle.lf_code.specs.RunCode.{run_code};
ghost use Rattle.lf_code.specs.Ticked.{Ticked};

use crate::run_text::Ran;
use lf_base::{Cowns, Job, OutOfMemory, Values};
use lf_code::Code;
use lf_frozen::FrozenMap;
use lf_graph::Store;
use lf_heap::Heap;
use lf_machine::{Ended, Running, laws};
use std::alloc::Global;

// Main as behaviour 0.
fn main_job(alloc: Global) -> Job
    ensures { result ≡ spec.main_job }
{
    Job {
        id: 0,
        body: 0,
        cowns: Cowns::new(alloc),
        values: Values::new(alloc),
    }
}

/// Runs main on an empty heap, within so many ticks, to its end. All forms of the script have to
/// run.
pub fn run_main<H: Store>(alloc: Global, code: &Code, ticks: u64) -> Result<Ran, OutOfMemory>
    requires built { first_unbuilt code.now ≡ None }
    requires ticked { Ticked code.now }
    ensures { IfOk result (IsLeftBy (run_code code.now ticks spec.main_job [] [])) }
{
    code.known_valid();
    laws::runs_to_the_result();
    laws::started_behaviours_end();
    let job = main_job(alloc);
    let heap = Heap::<H>::new(alloc, 0, FrozenMap::new(alloc))?;
    let Ok(mut running) = Running::start(alloc, code, &job, heap, ticks) else {
        return Err(OutOfMemory);
    };
    running.run_to_end(code)?;
    let Ended {
        heap,
        lines,
        fault,
        spawns,
    } = running.finish();
    drop(heap);
    drop(spawns);
    Ok(Ran { lines, fault })
}
