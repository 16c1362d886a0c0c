//! Pieces of instructions on a heap: slots that come and go, operands, and answers.

ghost use Rattle.std.specs.Prelude.{◌≡◌, ◌+◌, ◌++◌, ◌≤◌, [], IfOk, OnOk, length, ltb, nat_eq, true};
ghost use Rattle.lf_base.specs.declared.questions.Answer.TheVariants as spec;
ghost use Rattle.lf_base.specs.declared.values.Value.TheVariants as item;
ghost use Rattle.lf_base.specs.Asking.{value_of_answer};
ghost use Rattle.lf_base.specs.Operands.{operand as operand_of};
ghost use Rattle.lf_base.specs.PlainChanges.{with_slots};
ghost use Rattle.lf_code.specs.Actions.{brought_down, operands, pops, unset_pushed};
ghost use Rattle.lf_code.specs.RunCode.{first_slots};
ghost use Rattle.lf_code.specs.Spelling.{spelled, spelled_all};
ghost use Rattle.lf_heap.specs.Heaps.{FitsInteger, SameRoom};
ghost use Rattle.lf_machine.specs.Behaviours.{MayHoldAll};
ghost use Rattle.lf_machine.specs.Values.{in_line};

use crate::spelling::add_value;
use lf_base::{Answer, Label, OutOfMemory, Steps, TextId, Texts, Value, Values};
use lf_graph::Store;
use lf_heap::Heap;
use std::alloc::Global;
use std::sync::ledger::Ledger;

/// Adds the variables of a body to a heap without slots: first these values, then unset ones.
pub(crate) fn add_variables<S: Store>(heap: &mut Heap<S>, values: &Values, vars: usize)
    requires slots { heap.old.state.slots ≡ [] }
    requires room { vars ≤ heap.old.spare }
    requires few { length values.now ≤ vars }
    requires may { MayHoldAll heap.old.state values.now }
    ensures { heap.new.state ≡ with_slots heap.old.state (first_slots values.now vars) }
{
    for at in 0..vars {
        heap.at_rest();
        heap.push(values.get(at).copied());
    }
}

/// Adds unset slots.
pub(crate) fn add_unset<S: Store>(heap: &mut Heap<S>, count: usize)
    requires { count ≤ heap.old.spare }
    ensures { heap.new.state ≡ unset_pushed count heap.old.state }
{
    for _ in 0..count {
        heap.push(None);
    }
}

/// Drops the last slots, one after another.
pub(crate) fn drop_last<S: Store, L: Ledger>(heap: &mut Heap<S>, count: usize, steps: &mut Steps<L>)
    requires { count ≤ length heap.old.state.slots }
    ensures state { heap.new.state ≡ pops count heap.old.state }
    ensures room { SameRoom heap.old heap.new }
    ensures slots { length heap.new.state.slots + count ≡ length heap.old.state.slots }
{
    for _ in 0..count {
        heap.pop(steps);
    }
}

/// Brings the last slot down to a place, where it doesn't stand there.
pub(crate) fn bring_down<S: Store, L: Ledger>(heap: &mut Heap<S>, at: usize, steps: &mut Steps<L>)
    requires { at + 1 ≤ length heap.old.state.slots }
    ensures state { heap.new.state ≡ brought_down (ltb (at + 1) (length heap.old.state.slots)) at heap.old.state }
    ensures slots { at + 1 ≤ length heap.new.state.slots }
{
    let slots = heap.slots();
    if slots - at > 1 {
        heap.put(at, steps);
    }
}

/// The value of the operand so many below the last one; `None` where it is unset.
#[inline(always)]
pub(crate) fn operand<S: Store>(heap: &Heap<S>, down: usize) -> Value
    requires { down + 1 ≤ length heap.now.state.slots }
    ensures { result ≡ operand_of heap.now.state down }
{
    match heap.top(down) {
        Some(v) => v,
        None => Value::None,
    }
}

// Adds a value to a line, after a space if it isn't the first one.
fn add_operand(
    line: &mut Vec<u8>,
    texts: &Texts,
    is_first: bool,
    v: Value,
) -> Result<(), OutOfMemory>
    ensures { OnOk result (line.new.items ≡ line.old.items ++ in_line is_first (spelled texts.now v)) }
{
    if is_first {
        return add_value(line, texts, v);
    }
    line.push(b' ')?;
    add_value(line, texts, v)
}

/// The line that the last operands spell.
pub(crate) fn spelled_operands<S: Store>(
    alloc: Global,
    texts: &Texts,
    heap: &Heap<S>,
    count: usize,
) -> Result<Vec<u8>, OutOfMemory>
    requires { count ≤ length heap.now.state.slots }
    ensures { IfOk result (λ line. line.items ≡ spelled_all texts.now (operands count heap.now.state)) }
{
    let mut line = Vec::new(alloc);
    for at in 0..count {
        let v = operand(heap, count - 1 - at);
        add_operand(&mut line, texts, at == 0, v)?;
    }
    Ok(line)
}

// The fixed text of a label.
fn label_text(label: Label) -> TextId
    ensures { value_of_answer (spec.Label label) ≡ item.Text result }
{
    let index = match label {
        Label::Value => 0,
        Label::Local => 1,
        Label::Region => 2,
        Label::Frozen => 3,
        Label::Cown => 4,
    };
    TextId { index }
}

/// An answer as a value of the script.
pub(crate) fn value_of(answer: Answer) -> Value
    requires { FitsInteger answer }
    ensures { result ≡ value_of_answer answer }
{
    match answer {
        Answer::Number(number) => Value::Int(number as i64),
        Answer::Truth(truth) => Value::Bool(truth),
        Answer::Label(label) => Value::Text(label_text(label)),
    }
}
