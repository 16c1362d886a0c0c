ghost use Rattle.std.specs.Prelude.{◌≡◌, ◌<◌, ◌-◌, ◌^◌, []};
ghost use Rattle.lf_outside.specs.Streams.{stream_of};
ghost use Rattle.lf_outside.specs.Transfer.{Writes};
ghost use Rattle.lf_app.specs.Answers.{Answers, IsComplete, call_of};
ghost use Rattle.lf_app.specs.Outcomes.{WritesOutcome, output_bytes};

use crate::commands::Command;
use crate::outcomes::{Outcome, Output};
use crate::reports::Report;
use crate::run_text::write_run_text;
use crate::script::judge;
use crate::statuses::Status;
use crate::word_list::Word;
use lf_base::{MOST_SCRIPT_BYTES, Order};
use lf_code::write_listing;
use lf_graph::{FlatStore, Store};
use lf_outside::{Failed, Gate, ReadStop, Sink, Source, read_all, write_all};
use std::alloc::Global;

/// The store that the program keeps its rows in.
pub type MainStore = FlatStore;

// A report of a call in which no run began.
fn ended(alloc: Global, status: Status) -> Report
    ensures status { result.status ≡ status }
    ensures order { result.order ≡ [] }
{
    Report {
        status,
        order: Order::new(alloc),
    }
}

fn write_output<K: Sink>(out: &mut K, output: &Output) -> Result<(), Failed>
    ensures { Writes (output_bytes output.now) (stream_of K.held K.faults out.old) (stream_of K.held K.faults out.new) result }
{
    match output {
        Output::Text(text) => write_all(out, text.as_bytes()),
        Output::Listing(code) => write_listing(code, out),
        Output::Run(ran) => write_run_text(out, ran.lines.as_slice(), ran.fault),
    }
}

// Writes what is due of an outcome.
fn write_outcome<K: Sink>(out: &mut K, outcome: Outcome) -> Report
    ensures { WritesOutcome (stream_of K.held K.faults out.old) (stream_of K.held K.faults out.new) outcome result }
{
    let status = match write_output(out, &outcome.output) {
        Ok(()) => outcome.status,
        Err(_) => Status::WriteFault,
    };
    Report {
        status,
        order: outcome.order,
    }
}

/// All that the program does, for all words but those of a free schedule: it reads a script from
/// the source, runs, checks or lists it, and writes what comes of it to the sink. `H` is the store
/// that a run keeps its rows in.
///
/// `Answers` says what each status means of the source, the sink and the journal; `IsComplete`
/// that the status is the due one, or want of memory, where neither of them failed. No clause
/// says when memory is wanting; the sink is then as before.
pub fn tool<R, H: Store, S: Source, K: Sink, G: Gate>(
    _rt: &R,
    alloc: Global,
    words: &[Word],
    script: &mut S,
    out: &mut K,
    _gate: &G,
) -> Report
    requires source { S.faults script.old < 2 ^ 64 - 1 }
    requires sink { K.faults out.old < 2 ^ 64 - 1 }
    ensures answers { Answers (call_of S.left S.faults K.held K.faults words.now script.old script.new out.old out.new) result }
    ensures complete { IsComplete (call_of S.left S.faults K.held K.faults words.now script.old script.new out.old out.new) result }
{
    let Some(command) = Command::from_words(words) else {
        return ended(alloc, Status::WordsRefused);
    };
    let bytes = match read_all(alloc, script, MOST_SCRIPT_BYTES) {
        Ok(bytes) => bytes,
        Err(ReadStop::Fault) => return ended(alloc, Status::ReadFault),
        Err(ReadStop::TooLong) => return ended(alloc, Status::ScriptTooLong),
        Err(ReadStop::OutOfMemory) => return ended(alloc, Status::OutOfMemory),
    };
    let Ok(outcome) = judge::<H>(alloc, command, bytes.as_slice()) else {
        return ended(alloc, Status::OutOfMemory);
    };
    write_outcome(out, outcome)
}

/// All that the program does. It is what `main` calls, and answers the report of [`tool`].
pub fn top<R, H: Store, S: Source, K: Sink, G: Gate>(
    rt: &R,
    alloc: Global,
    words: &[Word],
    script: &mut S,
    out: &mut K,
    gate: &G,
) -> Report
    requires source { S.faults script.old < 2 ^ 64 - 1 }
    requires sink { K.faults out.old < 2 ^ 64 - 1 }
    ensures answers { Answers (call_of S.left S.faults K.held K.faults words.now script.old script.new out.old out.new) result }
    ensures complete { IsComplete (call_of S.left S.faults K.held K.faults words.now script.old script.new out.old out.new) result }
{
    tool::<R, H, S, K, G>(rt, alloc, words, script, out, gate)
}
