//! What comes of a script: the text of its run, that it is right, its code, or its refusal.

ghost use Rattle.std.specs.Prelude.{◌≡◌, ◌≤◌, IfOk, [], length};
ghost use Rattle.lf_app.specs.declared.commands.Command.TheVariants.{Code as Listed, Run};
ghost use Rattle.lf_app.specs.Unbuilt.{first_unbuilt as line_unbuilt};
ghost use Rattle.lf_app.specs.Verdicts.{main_job, run_verdict, script_verdict, not_built as refusal_at};
ghost use Rattle.lf_app.specs.Outcomes.{IsOutcome, IsOutcomeOf};
ghost use Rattle.lf_code.specs.RunCode.{run_code};
ghost use Rattle.lf_code.specs.Ticked.{Ticked};
ghost use Rattle.lf_codegen.specs.TextsNamed.{IsFitForCode};
ghost use Rattle.lf_emit.specs.Scopes.{plain_script};

use crate::commands::Command;
use crate::main_run::run_main;
use crate::outcomes::{Outcome, checked_outcome, listed_outcome, refused_outcome, run_outcome};
use crate::unbuilt::first_unbuilt;
use lf_base::{MOST_SCRIPT_BYTES, OutOfMemory, Place, ReadFail, Refusal, RefusalKind};
use lf_code::Code;
use lf_codegen::{Script, code_laws, read};
use lf_emit::generate;
use lf_graph::Store;
use std::alloc::Global;

// The refusal of a script that has a form that doesn't run yet, on this line first.
fn not_built(line: u32) -> Refusal
    ensures { result ≡ refusal_at line }
{
    Refusal {
        kind: RefusalKind::NotBuilt,
        place: Place { line, column: 1 },
    }
}

// The outcome of a run of a script's code.
fn code_outcome<H: Store>(alloc: Global, code: &Code, ticks: u64) -> Result<Outcome, OutOfMemory>
    requires { Ticked code.now }
    ensures { IfOk result (IsOutcomeOf (run_verdict (line_unbuilt code.now) (run_code code.now ticks main_job [] []))) }
{
    match first_unbuilt(code) {
        Some(line) => refused_outcome(alloc, not_built(line)),
        None => run_outcome(alloc, run_main::<H>(alloc, code, ticks)?),
    }
}

// The outcome of a run of a script.
fn run_script<H: Store>(alloc: Global, script: Script, ticks: u64) -> Result<Outcome, OutOfMemory>
    requires { IsFitForCode (plain_script script.texts script.resolved) }
    ensures { IfOk result (IsOutcomeOf (script_verdict (Run ticks) (plain_script script.texts script.resolved))) }
{
    let Script { resolved, texts } = script;
    let code = generate(alloc, &resolved, texts)?;
    code_outcome::<H>(alloc, &code, ticks)
}

// The outcome of listing a script's code.
fn list_code(alloc: Global, script: Script) -> Result<Outcome, OutOfMemory>
    requires { IsFitForCode (plain_script script.texts script.resolved) }
    ensures { IfOk result (IsOutcomeOf (script_verdict Listed (plain_script script.texts script.resolved))) }
{
    let Script { resolved, texts } = script;
    let code = generate(alloc, &resolved, texts)?;
    Ok(listed_outcome(alloc, code))
}

// What comes of a script under a command.
fn script_outcome<H: Store>(
    alloc: Global,
    command: Command,
    script: Script,
) -> Result<Outcome, OutOfMemory>
    requires { IsFitForCode (plain_script script.texts script.resolved) }
    ensures { IfOk result (IsOutcomeOf (script_verdict command (plain_script script.texts script.resolved))) }
{
    match command {
        Command::Run { ticks } => run_script::<H>(alloc, script, ticks),
        Command::Check => checked_outcome(alloc),
        Command::Code => list_code(alloc, script),
    }
}

/// What comes of a script of at most `MOST_SCRIPT_BYTES` under a command.
pub fn judge<H: Store>(
    alloc: Global,
    command: Command,
    bytes: &[u8],
) -> Result<Outcome, OutOfMemory>
    requires { length bytes.now ≤ MOST_SCRIPT_BYTES }
    ensures { IfOk result (IsOutcome command bytes.now) }
{
    let script = match read(alloc, bytes) {
        Ok(script) => script,
        Err(ReadFail::Refused(refusal)) => return refused_outcome(alloc, refusal),
        Err(ReadFail::OutOfMemory) => return Err(OutOfMemory),
    };
    code_laws::read_scripts_are_fit();
    script_outcome::<H>(alloc, command, script)
}
