ghost use Rattle.std.specs.Prelude.{◌≡◌, ◌↔◌, ◌+◌, ◌<◌, ◌^◌, [], IfErr, IfOk, IsTrue, OnErr, OnOk, Some, length, slice_get, true};
ghost use Rattle.lf_code.specs.CodeStep.{IsOver, Running as Going, code_at, code_step};
ghost use Rattle.lf_code.specs.ValidCode.{has_params};
ghost use Rattle.lf_machine.specs.Behaviours.{ComesFrom, ComesToEnd, EndsWith, IsGoing, MayHoldAll, shows, started};
ghost use Rattle.lf_machine.specs.Forms.{Runs};
ghost use Rattle.lf_machine.specs.Standing.{IsAt, StandsIn};
ghost use Rattle.lf_machine.specs.Views.{config_of, frame_of, frames_below};

use crate::body_vars::vars_of;
use crate::frame::{Course, FrameAt};
use crate::heap_parts::add_variables;
use crate::progress::Progress;
use crate::stage::{Stage, do_instr};
use lf_base::{FaultAt, Job, Lines, OutOfMemory, Spawns, Steps};
use lf_code::{Code, Placed};
use lf_graph::Store;
use lf_heap::Heap;
use std::alloc::Global;
use std::marker::{Brand, Model};
use std::sync::ledger::{Blank, Ledger};

/// Whether a behaviour goes on after a step.
#[derive(Clone, Copy, Debug, PartialEq, Eq)]
pub enum Stepped {
    Going,
    /// The last frame returned, or a fault came.
    Over,
}

/// What a behaviour leaves that is over.
#[derive(Drop)]
pub struct Ended<S: Store> {
    pub heap: Heap<S>,
    pub lines: Lines,
    /// The fault that ended it, if one did.
    pub fault: Option<FaultAt>,
    pub spawns: Spawns,
}

/// One behaviour on its way through its code.
#[derive(Drop)]
pub struct Running<S: Store> {
    stage: Stage<S>,
    course: Course,
}

impl<S: Store> Model for Running<S> {
    ghost use Rattle.lf_code.specs.CodeStep.{Config};
    ghost use Rattle.lf_machine.specs.Views.{config_of};

    ghost Value = { Config };

    ghost view = { λ r. config_of r.course r.stage.frame r.stage.below.items r.stage.progress };
}

// The instruction at a frame's address.
#[inline(always)]
fn instr_at(code: &Code, frame: FrameAt) -> &Placed
    requires { IsAt code.now (frame_of frame) }
    ensures there { slice_get (code_at code.now frame.body) frame.at ≡ Some result.now }
    ensures next { frame.at + 1 < 2 ^ 64 }
{
    let Some(body) = code.body(frame.body) else {
        unreachable!()
    };
    let _addresses = body.list.len();
    match body.list.get(frame.at) {
        Some(placed) => placed,
        None => unreachable!(),
    }
}

// Does one instruction, by steps that nobody sees.
#[inline(always)]
fn step_alone<S: Store, L: Ledger>(
    stage: &mut Stage<S>,
    code: &Code,
    blank: Blank,
) -> Result<Course, OutOfMemory>
    requires name { blank.name ≡ L.name }
    requires parts { blank.parts ≡ L.parts }
    requires some { 0 < L.parts }
    requires stands { StandsIn code.now (Going (frame_of stage.old.frame) (frames_below stage.old.below.items) stage.old.progress) }
    ensures step { IfOk result (λ course. config_of course stage.new.frame stage.new.below.items stage.new.progress
        ≡ code_step code.now (Going (frame_of stage.old.frame) (frames_below stage.old.below.items) stage.old.progress)) }
    ensures stands { IfOk result (λ course. StandsIn code.now (config_of course stage.new.frame stage.new.below.items stage.new.progress)) }
    ensures unchanged { OnErr result ((stage.new.progress ≡ stage.old.progress) × (stage.new.frame ≡ stage.old.frame)
        × (stage.new.below.items ≡ stage.old.below.items)) }
{
    code.known_valid();
    let mut steps = Steps::<L>::new(blank);
    let placed = instr_at(code, stage.frame);
    do_instr(stage, code, placed, &mut steps)
}

// Goes on until the behaviour is over.
fn run_on<S: Store>(running: &mut Running<S>, code: &Code) -> Result<(), OutOfMemory>
    requires stands { StandsIn code.now running.old }
    requires ends { ComesToEnd code.now running.old }
    ensures ended { OnOk result (IsOver running.new) }
    ensures steps { ComesFrom code.now running.old running.new }
    ensures stands { StandsIn code.now running.new }
{
    while running.is_going() {
        running.step(code)?;
    }
    Ok(())
}

impl<S: Store> Running<S> {
    /// A behaviour at the start of its job's body, with so many ticks. The job's values are
    /// the first variables of the body, and its other variables are unset. After
    /// `OutOfMemory`, which may come at any time, the heap is handed back as it was.
    pub fn start(
        alloc: Global,
        code: &Code,
        job: &Job,
        mut heap: Heap<S>,
        ticks: u64,
    ) -> Result<Running<S>, (Heap<S>, OutOfMemory)>
        requires runs { Runs code.now }
        requires body { has_params (slice_get code.now.bodies job.now.body) (length job.now.values) ≡ true }
        requires slots { heap.state.slots ≡ [] }
        requires may { MayHoldAll heap.state job.now.values }
        ensures started { IfOk result (λ running. running ≡ started code.now ticks job.now heap.state) }
        ensures stands { IfOk result (StandsIn code.now) }
        ensures handed_back { IfErr result (λ e. e.0.state ≡ heap.state) }
    {
        code.known_valid();
        let vars = vars_of(code, job.body) as usize;
        let Ok(()) = heap.room(vars) else {
            return Err((heap, OutOfMemory));
        };
        add_variables(&mut heap, &job.values, vars);
        Ok(Running {
            stage: Stage {
                progress: Progress::new(alloc, heap, ticks),
                frame: FrameAt {
                    body: job.body,
                    at: 0,
                    base: 0,
                },
                below: Vec::new(alloc),
            },
            course: Course::Going,
        })
    }

    /// Whether the behaviour isn't over.
    #[inline(always)]
    pub fn is_going(&self) -> bool
        ensures { IsTrue result ↔ IsGoing self.now }
    {
        match self.course {
            Course::Going => true,
            _ => false,
        }
    }

    /// Does one instruction of the code, which is the one that the behaviour was started
    /// with. A fault ends the behaviour. After `OutOfMemory`, which may come at any time, all
    /// is as it was.
    #[inline(always)]
    pub fn step(&mut self, code: &Code) -> Result<Stepped, OutOfMemory>
        requires going { IsGoing self.old }
        requires stands { StandsIn code.now self.old }
        ensures step { OnOk result (self.new ≡ code_step code.now self.old) }
        ensures stands { OnOk result (StandsIn code.now self.new) }
        ensures answer { IfOk result (λ stepped. stepped ≡ shows self.new) }
        ensures unchanged { OnErr result (self.new ≡ self.old) }
    {
        let Course::Going = self.course else {
            unreachable!()
        };
        self.course = step_alone::<S, Brand>(&mut self.stage, code, Blank::new(1))?;
        match self.course {
            Course::Going => Ok(Stepped::Going),
            _ => Ok(Stepped::Over),
        }
    }

    /// Goes on until the behaviour is over, which it comes to where each way back in its code
    /// takes a tick (`laws`). After `OutOfMemory`, which may come at any time, some steps were
    /// made.
    pub fn run_to_end(&mut self, code: &Code) -> Result<(), OutOfMemory>
        requires stands { StandsIn code.now self.old }
        requires ends { ComesToEnd code.now self.old }
        ensures ended { OnOk result (IsOver self.new) }
        ensures steps { ComesFrom code.now self.old self.new }
        ensures stands { StandsIn code.now self.new }
    {
        run_on(self, code)
    }

    /// What a behaviour leaves that is over. It takes no memory.
    pub fn finish(self) -> Ended<S>
        requires { IsOver self }
        ensures { EndsWith self result.heap.state result.lines result.fault result.spawns }
    {
        let fault = match self.course {
            Course::Failed(fault) => Some(fault),
            _ => None,
        };
        let (heap, lines, spawns) = self.stage.progress.into_parts();
        Ended {
            heap,
            lines,
            fault,
            spawns,
        }
    }
}
