//! One instruction, with the frames that stand.

ghost use Rattle.std.specs.Prelude.{◌≡◌, ◌-◌, ◌≤◌, ◌+◌, ◌<◌, ◌^◌, IfOk, OnErr, length};
ghost use Rattle.lf_base.specs.declared.faults.Fault.TheVariants.{Kind};
ghost use Rattle.lf_code.specs.Actions.{last_truth, without_operand};
ghost use Rattle.lf_code.specs.CodeStep.{act as acts_by, at_address, call_by, frames_left, no_truth, return_to, vars_at};
ghost use Rattle.lf_code.specs.Progress.{Progress as Far, by_truth};
ghost use Rattle.lf_machine.specs.declared.frame.Course.TheVariants.{Failed};
ghost use Rattle.lf_machine.specs.Standing.{IsReady};
ghost use Rattle.lf_machine.specs.Views.{config_of, frame_of, frames_below};
ghost use Rattle.lf_machine.specs.Went.{Went};

use crate::acting::act;
use crate::body_vars::vars_of;
use crate::frame::{Course, FrameAt};
use crate::progress::Progress;
use lf_base::{Fault, FaultAt, HeapFail, MOST_FRAMES, OutOfMemory, Steps};
use lf_code::{Code, Instr, Placed};
use lf_graph::Store;
use std::sync::ledger::Ledger;

/// How far a behaviour is, its last frame, and the frames below, the highest last.
#[derive(Drop)]
pub(crate) struct Stage<S: Store> {
    pub(crate) progress: Progress<S>,
    pub(crate) frame: FrameAt,
    pub(crate) below: Vec<FrameAt>,
}

// Goes to the next instruction, unless the action was refused or memory was wanting.
#[inline(always)]
fn went(frame: &mut FrameAt, done: Result<(), HeapFail>, line: u32) -> Result<Course, OutOfMemory>
    requires { frame.old.at + 1 < 2 ^ 64 }
    ensures { Went line done result frame.old frame.new }
{
    match done {
        Ok(()) => {
            frame.at += 1;
            Ok(Course::Going)
        }
        Err(HeapFail::Fault(fault)) => Ok(Course::Failed(FaultAt { fault, line })),
        Err(HeapFail::OutOfMemory) => Err(OutOfMemory),
    }
}

// The end of a behaviour that finds a value that is no truth value.
fn not_a_truth(line: u32) -> Course
    ensures { result ≡ Failed (record { fault = Kind; line = line }) }
{
    Course::Failed(FaultAt {
        fault: Fault::Kind,
        line,
    })
}

// Drops a truth value, and goes on where it is true and elsewhere where it is false.
#[inline(always)]
fn unless<S: Store, L: Ledger>(
    stage: &mut Stage<S>,
    line: u32,
    to: u32,
    steps: &mut Steps<L>,
) -> Course
    requires there { 1 ≤ length stage.old.progress.state.slots }
    requires next { stage.old.frame.at + 1 < 2 ^ 64 }
    ensures { config_of result stage.new.frame stage.new.below.items stage.new.progress
        ≡ by_truth (last_truth stage.old.progress) stage.old.progress (no_truth line)
        (λ (d : Far). at_address (frame_of stage.old.frame) (frames_below stage.old.below.items) (stage.old.frame.at + 1) (without_operand d))
        (λ (d : Far). at_address (frame_of stage.old.frame) (frames_below stage.old.below.items) to (without_operand d)) }
{
    let Some(truth) = stage.progress.last_truth() else {
        return not_a_truth(line);
    };
    stage.progress.drop_operand(steps);
    if truth {
        stage.frame.at += 1;
    } else {
        stage.frame.at = to as usize;
    }
    Course::Going
}

// Goes on without a truth value that is true, and elsewhere with one that is false.
fn and<S: Store, L: Ledger>(
    stage: &mut Stage<S>,
    line: u32,
    to: u32,
    steps: &mut Steps<L>,
) -> Course
    requires there { 1 ≤ length stage.old.progress.state.slots }
    requires next { stage.old.frame.at + 1 < 2 ^ 64 }
    ensures { config_of result stage.new.frame stage.new.below.items stage.new.progress
        ≡ by_truth (last_truth stage.old.progress) stage.old.progress (no_truth line)
        (λ (d : Far). at_address (frame_of stage.old.frame) (frames_below stage.old.below.items) (stage.old.frame.at + 1) (without_operand d))
        (at_address (frame_of stage.old.frame) (frames_below stage.old.below.items) to) }
{
    let Some(truth) = stage.progress.last_truth() else {
        return not_a_truth(line);
    };
    if truth {
        stage.progress.drop_operand(steps);
        stage.frame.at += 1;
    } else {
        stage.frame.at = to as usize;
    }
    Course::Going
}

// Goes elsewhere with a truth value that is true, and on without one that is false.
fn or<S: Store, L: Ledger>(stage: &mut Stage<S>, line: u32, to: u32, steps: &mut Steps<L>) -> Course
    requires there { 1 ≤ length stage.old.progress.state.slots }
    requires next { stage.old.frame.at + 1 < 2 ^ 64 }
    ensures { config_of result stage.new.frame stage.new.below.items stage.new.progress
        ≡ by_truth (last_truth stage.old.progress) stage.old.progress (no_truth line)
        (at_address (frame_of stage.old.frame) (frames_below stage.old.below.items) to)
        (λ (d : Far). at_address (frame_of stage.old.frame) (frames_below stage.old.below.items) (stage.old.frame.at + 1) (without_operand d)) }
{
    let Some(truth) = stage.progress.last_truth() else {
        return not_a_truth(line);
    };
    if truth {
        stage.frame.at = to as usize;
    } else {
        stage.progress.drop_operand(steps);
        stage.frame.at += 1;
    }
    Course::Going
}

// Enters a body with so many operands as parameters. It is refused where no tick is left
// (`OutOfTicks`), then where no further frame may stand (`TooDeep`).
fn call<S: Store>(
    stage: &mut Stage<S>,
    code: &Code,
    line: u32,
    body: u32,
    count: u32,
) -> Result<Course, OutOfMemory>
    requires there { count ≤ length stage.old.progress.state.slots }
    requires params { count ≤ vars_at code.now body }
    requires next { stage.old.frame.at + 1 < 2 ^ 64 }
    ensures done { IfOk result (λ course. config_of course stage.new.frame stage.new.below.items stage.new.progress
        ≡ call_by code.now (frames_left (frames_below stage.old.below.items)) line body count (frame_of stage.old.frame)
        (frames_below stage.old.below.items) stage.old.progress) }
    ensures unchanged { OnErr result ((stage.new.progress ≡ stage.old.progress) × (stage.new.frame ≡ stage.old.frame)
        × (stage.new.below.items ≡ stage.old.below.items)) }
{
    if stage.below.len() >= MOST_FRAMES - 1 {
        let fault = stage.progress.no_frame_left();
        return Ok(Course::Failed(FaultAt { fault, line }));
    }
    stage.below.reserve(1)?;
    let base = stage.progress.slots() - count as usize;
    match stage.progress.enter((vars_of(code, body) - count) as usize) {
        Ok(()) => {
            stage.below.push_reserved(FrameAt {
                at: stage.frame.at + 1,
                ..stage.frame
            });
            stage.frame = FrameAt { body, at: 0, base };
            Ok(Course::Going)
        }
        Err(HeapFail::Fault(fault)) => Ok(Course::Failed(FaultAt { fault, line })),
        Err(HeapFail::OutOfMemory) => Err(OutOfMemory),
    }
}

// Leaves the last frame, whose last operand becomes that of the frame below.
fn leave<S: Store, L: Ledger>(stage: &mut Stage<S>, steps: &mut Steps<L>) -> Course
    requires { stage.old.frame.base + 1 ≤ length stage.old.progress.state.slots }
    ensures { config_of result stage.new.frame stage.new.below.items stage.new.progress
        ≡ return_to (frame_of stage.old.frame) (frames_below stage.old.below.items) stage.old.progress }
{
    stage.progress.leave(stage.frame.base, steps);
    match stage.below.pop() {
        Some(frame) => {
            stage.frame = frame;
            Course::Going
        }
        None => Course::Finished,
    }
}

/// Does an instruction of the last frame. After `OutOfMemory`, which may come at any time,
/// all is as it was.
#[inline(always)]
pub(crate) fn do_instr<S: Store, L: Ledger>(
    stage: &mut Stage<S>,
    code: &Code,
    placed: &Placed,
    steps: &mut Steps<L>,
) -> Result<Course, OutOfMemory>
    requires ready { IsReady code.now placed.now.instr stage.old.frame.base (length stage.old.progress.state.slots) }
    requires next { stage.old.frame.at + 1 < 2 ^ 64 }
    ensures done { IfOk result (λ course. config_of course stage.new.frame stage.new.below.items stage.new.progress
        ≡ acts_by code.now placed.now.line placed.now.instr (frame_of stage.old.frame) (frames_below stage.old.below.items) stage.old.progress) }
    ensures unchanged { OnErr result ((stage.new.progress ≡ stage.old.progress) × (stage.new.frame ≡ stage.old.frame)
        × (stage.new.below.items ≡ stage.old.below.items)) }
{
    let line = placed.line;
    match &placed.instr {
        Instr::Jump(to) => {
            stage.frame.at = *to as usize;
            Ok(Course::Going)
        }
        Instr::Unless(to) => Ok(unless(stage, line, *to, steps)),
        Instr::And(to) => Ok(and(stage, line, *to, steps)),
        Instr::Or(to) => Ok(or(stage, line, *to, steps)),
        Instr::Call { body, count } => {
            code.known_valid();
            call(stage, code, line, *body, *count)
        }
        Instr::Return => Ok(leave(stage, steps)),
        plain => {
            let done = act(&mut stage.progress, code, stage.frame.base, plain, steps);
            went(&mut stage.frame, done, line)
        }
    }
}
