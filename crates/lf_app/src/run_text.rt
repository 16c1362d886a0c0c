//! The text of a run, written to a sink without memory.

ghost use Rattle.std.specs.Prelude.{◌++◌, flat_map};
ghost use Rattle.lf_app.specs.Output as spec;
ghost use Rattle.lf_outside.specs.Streams.{stream_of};
ghost use Rattle.lf_outside.specs.Transfer.{Writes};

use itoa::Buffer;
use lf_base::{FaultAt, Line, Lines};
use lf_outside::{Failed, Sink, write_all, write_parts};

/// What was run: the lines that main printed, and the fault that ended it, if one did.
#[derive(Drop)]
pub struct Ran {
    pub lines: Lines,
    pub fault: Option<FaultAt>,
}

fn write_word<K: Sink>(out: &mut K, word: &str) -> Result<(), Failed>
    ensures { Writes word.now (stream_of K.held K.faults out.old) (stream_of K.held K.faults out.new) result }
{
    write_all(out, word.as_bytes())
}

// A line with its line feed.
fn write_line<K: Sink>(out: &mut K, line: &Line) -> Result<(), Failed>
    ensures { Writes (spec.with_feed line.now) (stream_of K.held K.faults out.old) (stream_of K.held K.faults out.new) result }
{
    write_parts(out, &[line.as_slice(), "\n".as_bytes()])
}

// Lines, each with its line feed.
fn write_lines<K: Sink>(out: &mut K, lines: &[Line]) -> Result<(), Failed>
    ensures { Writes (flat_map spec.with_feed lines.now) (stream_of K.held K.faults out.old) (stream_of K.held K.faults out.new) result }
{
    for line in lines {
        write_line(out, line)?;
    }
    Ok(())
}

// The line of a fault.
fn write_fault<K: Sink>(out: &mut K, at: FaultAt) -> Result<(), Failed>
    ensures { Writes (spec.fault_line at) (stream_of K.held K.faults out.old) (stream_of K.held K.faults out.new) result }
{
    let mut number_buffer = Buffer::new();
    let mut line_buffer = Buffer::new();
    let number = number_buffer.format(at.fault.number());
    let line = line_buffer.format(at.line);
    write_parts(
        out,
        &[
            "fault F".as_bytes(),
            number.as_bytes(),
            " ".as_bytes(),
            at.fault.name().as_bytes(),
            " at line ".as_bytes(),
            line.as_bytes(),
            "\n".as_bytes(),
        ],
    )
}

// The line of a fault that ended the run, and the closing line.
fn write_faulted<K: Sink>(out: &mut K, at: FaultAt) -> Result<(), Failed>
    ensures { Writes (spec.fault_line at ++ spec.faulted_line) (stream_of K.held K.faults out.old) (stream_of K.held K.faults out.new) result }
{
    write_fault(out, at)?;
    write_word(out, "done 1 behaviours 1 faults\n")
}

// The closing line of a run that no fault ended.
fn write_closing<K: Sink>(out: &mut K) -> Result<(), Failed>
    ensures { Writes spec.closing_line (stream_of K.held K.faults out.old) (stream_of K.held K.faults out.new) result }
{
    write_word(out, "done 1 behaviours 0 faults\n")
}

// What stands behind the printed lines.
fn write_last_lines<K: Sink>(out: &mut K, fault: Option<FaultAt>) -> Result<(), Failed>
    ensures { Writes (spec.last_lines fault) (stream_of K.held K.faults out.old) (stream_of K.held K.faults out.new) result }
{
    match fault {
        None => write_closing(out),
        Some(at) => write_faulted(out, at),
    }
}

/// Writes the text of a run that printed these lines and ended by this fault, if by one: the line
/// `[0]`, the printed lines, the fault as `fault F17 ZeroDivisor at line 4`, and
/// `done 1 behaviours F faults`. `Failed` comes only where the sink's faults rose, and the sink
/// then took a prefix of the text.
pub fn write_run_text<K: Sink>(
    out: &mut K,
    lines: &[Line],
    fault: Option<FaultAt>,
) -> Result<(), Failed>
    ensures { Writes (spec.run_text lines.now fault) (stream_of K.held K.faults out.old) (stream_of K.held K.faults out.new) result }
{
    write_word(out, "[0]\n")?;
    write_lines(out, lines)?;
    write_last_lines(out, fault)
}
