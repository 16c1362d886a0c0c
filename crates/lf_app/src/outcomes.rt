ghost use Rattle.std.specs.Prelude.{◌≡◌, IfOk, string_bytes};
ghost use Rattle.lf_app.specs.Answers.{run_status as status_of_run};
ghost use Rattle.lf_app.specs.Verdicts.{Runs, Checked, Lists, Refuses};
ghost use Rattle.lf_app.specs.Output.{refusal_line as line_of_refusal};
ghost use Rattle.lf_app.specs.Outcomes.{IsOutcomeOf};

use crate::run_text::Ran;
use crate::statuses::Status;
use lf_base::{FaultAt, Order, OutOfMemory, Place, Refusal};
use lf_code::Code;
use std::alloc::Global;

/// What is to be written of a script.
#[derive(Drop)]
pub enum Output {
    /// A text.
    Text(String),
    /// The listing of code.
    Listing(Code),
    /// The text of a run.
    Run(Ran),
}

/// What comes of a script, before anything of it is written.
#[derive(Drop)]
pub struct Outcome {
    pub status: Status,
    pub output: Output,
    pub order: Order,
}

// The line of a refusal, with its line feed.
fn refusal_line(alloc: Global, refusal: Refusal) -> Result<String, OutOfMemory>
    ensures { IfOk result (λ text. string_bytes text ≡ line_of_refusal refusal) }
{
    let kind = refusal.kind.name();
    let Place { line, column } = refusal.place;
    Ok(format!(in alloc; "refused {kind} at line {line} column {column}\n")?)
}

// The status of a run that a fault ended, or none.
fn run_status(fault: Option<FaultAt>) -> Status
    ensures { result ≡ status_of_run fault }
{
    match fault {
        None => Status::Done,
        Some(_) => Status::Faulted,
    }
}

/// The outcome of a script that ran.
pub fn run_outcome(alloc: Global, ran: Ran) -> Result<Outcome, OutOfMemory>
    ensures { IfOk result (IsOutcomeOf (Runs ran.lines ran.fault)) }
{
    let mut order = Order::new(alloc);
    if order.push(0).is_err() {
        return Err(OutOfMemory);
    }
    Ok(Outcome {
        status: run_status(ran.fault),
        output: Output::Run(ran),
        order,
    })
}

/// The outcome of a script that is right, and isn't run.
pub fn checked_outcome(alloc: Global) -> Result<Outcome, OutOfMemory>
    ensures { IfOk result (IsOutcomeOf Checked) }
{
    Ok(Outcome {
        status: Status::Done,
        output: Output::Text(String::from_str(alloc, "script ok\n")?),
        order: Order::new(alloc),
    })
}

/// The outcome of a script whose code is listed.
pub fn listed_outcome(alloc: Global, code: Code) -> Outcome
    ensures { IsOutcomeOf (Lists code) result }
{
    Outcome {
        status: Status::Done,
        output: Output::Listing(code),
        order: Order::new(alloc),
    }
}

/// The outcome of a script that is refused.
pub fn refused_outcome(alloc: Global, refusal: Refusal) -> Result<Outcome, OutOfMemory>
    ensures { IfOk result (IsOutcomeOf (Refuses refusal)) }
{
    Ok(Outcome {
        status: Status::ScriptRefused,
        output: Output::Text(refusal_line(alloc, refusal)?),
        order: Order::new(alloc),
    })
}
