//! How far a behaviour is, and what instructions do to that.

ghost use Rattle.std.specs.Prelude.{◌≡◌, ◌≤◌, ◌<◌, ◌+◌, [], None, Some, length};
ghost use Rattle.lf_base.specs.HeapCalls.{dissolve_change, frozen, lift_change, load_change, merge_change, new_object_change};
ghost use Rattle.lf_base.specs.HeapCalls.{new_region_change, read_change, take_change, unset_change, write_change};
ghost use Rattle.lf_base.specs.Operands.{operand as operand_of, put_down};
ghost use Rattle.lf_code.specs.Actions as spec;
ghost use Rattle.lf_code.specs.Asks as asks;
ghost use Rattle.lf_code.specs.Asks.{ask_by, ask_change};
ghost use Rattle.lf_code.specs.DroppingOnce.{IsPlain};
ghost use Rattle.lf_code.specs.Prints.{print_line};
ghost use Rattle.lf_code.specs.Progress.{Faulted, on_state, to_state};
ghost use Rattle.lf_machine.specs.Actions.{Tells};

use crate::heap_parts::{add_unset, bring_down, drop_last, operand, spelled_operands, value_of};
use crate::operators::{binary, unary};
use lf_base::{
    Fault, HeapFail, Line, Lines, MOST_PRINTED_BYTES, Op, Question, Spawns, Steps, Texts, Value,
};
use lf_code::{AskName, Prefix};
use lf_graph::Store;
use lf_heap::Heap;
use std::alloc::Global;
use std::marker::Model;
use std::sync::ledger::Ledger;

/// The heap of a behaviour, the ticks that it has left, and its lines and spawns so far.
/// Each call of an action answers the fault that it is refused for, or want of memory, which
/// may come at any time; after both all is as it was.
#[derive(Drop)]
pub(crate) struct Progress<S: Store> {
    alloc: Global,
    heap: Heap<S>,
    ticks: u64,
    lines: Lines,
    // The bytes of the lines, line feeds counted.
    printed: usize,
    spawns: Spawns,
}

impl<S: Store> Model for Progress<S> {
    ghost use Rattle.lf_code.specs.Progress.{Progress as Far};
    ghost use Rattle.lf_machine.specs.Views.{HasPrinted};

    ghost Value = { Far };

    ghost view = { λ p. record { state = p.heap.state; ticks = p.ticks; lines = p.lines; spawns = p.spawns } };

    ghost invariant = { λ p. HasPrinted p.printed p.lines };
}

// The question that a built-in call asks; `close` asks none.
fn question_of(name: AskName) -> Option<Question>
    ensures { result ≡ asks.question_of name }
{
    match name {
        AskName::Close => None,
        AskName::Refs => Some(Question::Refs),
        AskName::Borrowed => Some(Question::Borrowed),
        AskName::OpenChildren => Some(Question::OpenChildren),
        AskName::Owner => Some(Question::Owner),
        AskName::IsClosed => Some(Question::IsClosed),
    }
}

impl<S: Store> Progress<S> {
    /// The start of a behaviour on a heap, with so many ticks.
    pub(crate) fn new(alloc: Global, heap: Heap<S>, ticks: u64) -> Progress<S>
        ensures state { result.state ≡ heap.state }
        ensures ticks { result.ticks ≡ ticks }
        ensures lines { result.lines ≡ [] }
        ensures spawns { result.spawns ≡ [] }
    {
        Progress {
            alloc,
            heap,
            ticks,
            lines: Lines::new(alloc),
            printed: 0,
            spawns: Spawns::new(alloc),
        }
    }

    /// The heap, the lines and the spawns.
    pub(crate) fn into_parts(self) -> (Heap<S>, Lines, Spawns)
        ensures heap { result.0.state ≡ self.state }
        ensures lines { result.1 ≡ self.lines }
        ensures spawns { result.2 ≡ self.spawns }
    {
        (self.heap, self.lines, self.spawns)
    }

    /// The number of slots.
    pub(crate) fn slots(&self) -> usize
        ensures { result ≡ length self.now.state.slots }
    {
        self.heap.slots()
    }

    /// Takes a tick. It is refused where none is left (`OutOfTicks`).
    #[inline(always)]
    pub(crate) fn tick(&mut self) -> Result<(), HeapFail>
        ensures { Tells (spec.tick self.old) result self.old self.new }
    {
        if self.ticks == 0 {
            return Err(HeapFail::Fault(Fault::OutOfTicks));
        }
        self.ticks -= 1;
        Ok(())
    }

    /// Pushes a value that names nothing.
    #[inline(always)]
    pub(crate) fn push(&mut self, v: Value) -> Result<(), HeapFail>
        requires { IsPlain v }
        ensures { Tells (spec.push_value v self.old) result self.old self.new }
    {
        self.heap.room(1)?;
        self.heap.push(Some(v));
        Ok(())
    }

    /// Pushes a copy of a slot. It is refused where that is unset (`Unset`).
    #[inline(always)]
    pub(crate) fn load(&mut self, at: usize) -> Result<(), HeapFail>
        requires { at < length self.old.state.slots }
        ensures { Tells (on_state (load_change at) self.old) result self.old self.new }
    {
        self.heap.room(1)?;
        self.heap.load(at)?;
        Ok(())
    }

    /// Pushes a slot and unsets it. It is refused where that is unset (`Unset`).
    #[inline(always)]
    pub(crate) fn lift(&mut self, at: usize) -> Result<(), HeapFail>
        requires { at < length self.old.state.slots }
        ensures { Tells (on_state (lift_change at) self.old) result self.old self.new }
    {
        self.heap.room(1)?;
        self.heap.lift(at)?;
        Ok(())
    }

    /// Moves the last operand to a slot below it.
    #[inline(always)]
    pub(crate) fn put<L: Ledger>(&mut self, at: usize, steps: &mut Steps<L>) -> Result<(), HeapFail>
        requires { at + 1 < length self.old.state.slots }
        ensures { Tells (to_state (put_down at) self.old) result self.old self.new }
    {
        self.heap.put(at, steps);
        Ok(())
    }

    /// Unsets a slot. It is refused where that is unset (`Unset`).
    pub(crate) fn unset<L: Ledger>(
        &mut self,
        at: usize,
        steps: &mut Steps<L>,
    ) -> Result<(), HeapFail>
        requires { at < length self.old.state.slots }
        ensures { Tells (on_state (unset_change at) self.old) result self.old self.new }
    {
        self.heap.unset(at, steps)?;
        Ok(())
    }

    /// Makes a local object. It is refused where too many were made (`TooManyObjects`).
    pub(crate) fn new_object(&mut self) -> Result<(), HeapFail>
        ensures { Tells (on_state new_object_change self.old) result self.old self.new }
    {
        self.heap.room(1)?;
        self.heap.new_object()
    }

    /// Makes a region. It is refused where too many objects were made (`TooManyObjects`).
    pub(crate) fn new_region(&mut self) -> Result<(), HeapFail>
        ensures { Tells (on_state new_region_change self.old) result self.old self.new }
    {
        self.heap.room(1)?;
        self.heap.new_region()
    }

    /// Reads a field. It is refused as the heap's read is.
    pub(crate) fn read<L: Ledger>(&mut self, steps: &mut Steps<L>) -> Result<(), HeapFail>
        requires { 2 ≤ length self.old.state.slots }
        ensures { Tells (on_state read_change self.old) result self.old self.new }
    {
        self.heap.read(steps)?;
        Ok(())
    }

    /// Writes a field. It is refused as the heap's write is.
    pub(crate) fn write<L: Ledger>(&mut self, steps: &mut Steps<L>) -> Result<(), HeapFail>
        requires { 3 ≤ length self.old.state.slots }
        ensures { Tells (on_state write_change self.old) result self.old self.new }
    {
        self.heap.write(steps)
    }

    /// Takes a field. It is refused as the heap's take is.
    pub(crate) fn take<L: Ledger>(&mut self, steps: &mut Steps<L>) -> Result<(), HeapFail>
        requires { 2 ≤ length self.old.state.slots }
        ensures { Tells (on_state take_change self.old) result self.old self.new }
    {
        self.heap.take(steps)?;
        Ok(())
    }

    /// Freezes what the last operand leads to.
    pub(crate) fn freeze<L: Ledger>(&mut self, steps: &mut Steps<L>) -> Result<(), HeapFail>
        requires { 1 ≤ length self.old.state.slots }
        ensures { Tells (to_state frozen self.old) result self.old self.new }
    {
        self.heap.freeze(steps)?;
        Ok(())
    }

    /// Merges the region of the last operand into that of the one below it. It is refused as
    /// the heap's merge is.
    pub(crate) fn merge<L: Ledger>(&mut self, steps: &mut Steps<L>) -> Result<(), HeapFail>
        requires { 2 ≤ length self.old.state.slots }
        ensures { Tells (on_state merge_change self.old) result self.old self.new }
    {
        self.heap.merge(steps)
    }

    /// Dissolves the region of the last operand. It is refused as the heap's dissolving is.
    pub(crate) fn dissolve<L: Ledger>(&mut self, steps: &mut Steps<L>) -> Result<(), HeapFail>
        requires { 1 ≤ length self.old.state.slots }
        ensures { Tells (on_state dissolve_change self.old) result self.old self.new }
    {
        self.heap.dissolve(steps)
    }

    /// An operator on the last operand. It is refused as the operator is.
    #[inline(always)]
    pub(crate) fn unary<L: Ledger>(
        &mut self,
        op: Prefix,
        steps: &mut Steps<L>,
    ) -> Result<(), HeapFail>
        requires { 1 ≤ length self.old.state.slots }
        ensures { Tells (on_state (spec.unary_change op) self.old) result self.old self.new }
    {
        let v = unary(op, operand(&self.heap, 0))?;
        self.heap.pop(steps);
        self.heap.push(Some(v));
        Ok(())
    }

    /// An operator on the last two operands. It is refused as the operator is.
    #[inline(always)]
    pub(crate) fn binary<L: Ledger>(&mut self, op: Op, steps: &mut Steps<L>) -> Result<(), HeapFail>
        requires { 2 ≤ length self.old.state.slots }
        ensures { Tells (on_state (spec.binary_change op) self.old) result self.old self.new }
    {
        let v = binary(op, operand(&self.heap, 1), operand(&self.heap, 0))?;
        self.heap.pop(steps);
        self.heap.pop(steps);
        self.heap.push(Some(v));
        Ok(())
    }

    /// The truth value that the last operand is.
    #[inline(always)]
    pub(crate) fn last_truth(&self) -> Option<bool>
        requires { 1 ≤ length self.now.state.slots }
        ensures { result ≡ spec.last_truth self.now }
    {
        match operand(&self.heap, 0) {
            Value::Bool(truth) => Some(truth),
            _ => None,
        }
    }

    /// Refused where the last operand is no truth value (`Kind`).
    #[inline(always)]
    pub(crate) fn test(&mut self) -> Result<(), HeapFail>
        requires { 1 ≤ length self.old.state.slots }
        ensures { Tells (spec.test_truth self.old) result self.old self.new }
    {
        match self.last_truth() {
            Some(_) => Ok(()),
            None => Err(HeapFail::Fault(Fault::Kind)),
        }
    }

    /// Drops the last operand.
    #[inline(always)]
    pub(crate) fn pop<L: Ledger>(&mut self, steps: &mut Steps<L>) -> Result<(), HeapFail>
        requires { 1 ≤ length self.old.state.slots }
        ensures { Tells (spec.pop_value self.old) result self.old self.new }
    {
        self.heap.pop(steps);
        Ok(())
    }

    /// Drops the last operand, of which its user knew that it is there.
    #[inline(always)]
    pub(crate) fn drop_operand<L: Ledger>(&mut self, steps: &mut Steps<L>)
        requires { 1 ≤ length self.old.state.slots }
        ensures { self.new ≡ spec.without_operand self.old }
    {
        self.heap.pop(steps);
    }

    // Pushes the answer to a question on a slot. It is refused as the heap's question is.
    fn answer(&mut self, question: Question, at: usize) -> Result<(), HeapFail>
        requires { at < length self.old.state.slots }
        ensures { Tells (on_state (ask_by (Some question) at) self.old) result self.old self.new }
    {
        self.heap.room(1)?;
        let answer = self.heap.ask(question, at)?;
        self.heap.push(Some(value_of(answer)));
        Ok(())
    }

    // Closes the region whose bridge a slot holds, and pushes `None`. It is refused as the heap's
    // close is.
    fn close<L: Ledger>(&mut self, at: usize, steps: &mut Steps<L>) -> Result<(), HeapFail>
        requires { at < length self.old.state.slots }
        ensures { Tells (on_state (ask_by None at) self.old) result self.old self.new }
    {
        self.heap.room(1)?;
        self.heap.close(at, steps)?;
        self.heap.push(Some(Value::None));
        Ok(())
    }

    /// Answers a question on a slot, or closes the region whose bridge it holds. It is refused as
    /// the heap's call is.
    pub(crate) fn ask<L: Ledger>(
        &mut self,
        name: AskName,
        at: usize,
        steps: &mut Steps<L>,
    ) -> Result<(), HeapFail>
        requires { at < length self.old.state.slots }
        ensures { Tells (on_state (ask_change name at) self.old) result self.old self.new }
    {
        match question_of(name) {
            Some(question) => self.answer(question, at),
            None => self.close(at, steps),
        }
    }

    /// Prints the last operands as a line, and puts `None` in their place. It is refused where
    /// the lines would be too long (`OutputFull`).
    pub(crate) fn print<L: Ledger>(
        &mut self,
        texts: &Texts,
        count: usize,
        steps: &mut Steps<L>,
    ) -> Result<(), HeapFail>
        requires { count ≤ length self.old.state.slots }
        ensures { Tells (print_line texts.now count self.old) result self.old self.new }
    {
        let line = spelled_operands(self.alloc, texts, &self.heap, count)?;
        let bytes = line.len();
        if bytes >= MOST_PRINTED_BYTES - self.printed {
            return Err(HeapFail::Fault(Fault::OutputFull));
        }
        self.heap.room(1)?;
        let Ok(()) = self.lines.push(Line::from_vec(line)) else {
            return Err(HeapFail::OutOfMemory);
        };
        self.printed += bytes + 1;
        drop_last(&mut self.heap, count, steps);
        self.heap.push(Some(Value::None));
        Ok(())
    }

    /// Takes a tick, and adds the unset variables of a frame that comes. It is refused where no
    /// tick is left (`OutOfTicks`).
    pub(crate) fn enter(&mut self, further: usize) -> Result<(), HeapFail>
        ensures { Tells (spec.enter further self.old) result self.old self.new }
    {
        if self.ticks == 0 {
            return Err(HeapFail::Fault(Fault::OutOfTicks));
        }
        self.heap.room(further)?;
        self.ticks -= 1;
        add_unset(&mut self.heap, further);
        Ok(())
    }

    /// The fault of a call where no further frame may stand.
    pub(crate) fn no_frame_left(&self) -> Fault
        ensures { spec.no_frame_left self.now ≡ Faulted result }
    {
        if self.ticks == 0 {
            Fault::OutOfTicks
        } else {
            Fault::TooDeep
        }
    }

    /// Leaves of a frame's slots the last one, in the place of the first.
    pub(crate) fn leave<L: Ledger>(&mut self, base: usize, steps: &mut Steps<L>)
        requires { base + 1 ≤ length self.old.state.slots }
        ensures { self.new ≡ spec.leave base self.old }
    {
        bring_down(&mut self.heap, base, steps);
        let slots = self.heap.slots();
        drop_last(&mut self.heap, slots - base - 1, steps);
    }
}
