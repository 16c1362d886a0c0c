//! The instructions that stay in their frame and go on to the next address.

ghost use Rattle.std.specs.Prelude.{◌≡◌, ◌≤◌, ◌+◌, ◌<◌, length, true};
ghost use Rattle.lf_base.specs.declared.values.Value.TheVariants as item;
ghost use Rattle.lf_code.specs.Prints.{built as built_by};
ghost use Rattle.lf_code.specs.ValidCode.{takes_count};
ghost use Rattle.lf_machine.specs.Actions.{Tells, action_of};
ghost use Rattle.lf_machine.specs.Forms.{built_runs, goes_on};
ghost use Rattle.lf_machine.specs.Standing.{IsReady};

use crate::progress::Progress;
use lf_base::{HeapFail, Steps, Texts, Value};
use lf_code::{BuiltName, Code, Instr};
use lf_graph::Store;
use std::sync::ledger::Ledger;

// The place of a variable among the slots.
#[inline(always)]
fn place_of<S: Store>(progress: &Progress<S>, base: usize, var: u32) -> usize
    requires { base + var < length progress.now.state.slots }
    ensures { result ≡ base + var }
{
    let _slots = progress.slots();
    base + var as usize
}

// The value of an integer of an instruction.
#[inline(always)]
fn integer(number: &i64) -> Value
    ensures { result ≡ item.Int number.now }
{
    Value::Int(*number)
}

// A built-in call with so many operands.
fn built<S: Store, L: Ledger>(
    progress: &mut Progress<S>,
    texts: &Texts,
    name: BuiltName,
    count: u32,
    steps: &mut Steps<L>,
) -> Result<(), HeapFail>
    requires runs { built_runs name ≡ true }
    requires takes { takes_count name count ≡ true }
    requires there { count ≤ length progress.old.state.slots }
    ensures { Tells (built_by texts.now name count progress.old) result progress.old progress.new }
{
    match name {
        BuiltName::Print => progress.print(texts, count as usize, steps),
        BuiltName::Region => progress.new_region(),
        BuiltName::Merge => progress.merge(steps),
        BuiltName::Dissolve => progress.dissolve(steps),
        BuiltName::Freeze => progress.freeze(steps),
        BuiltName::Cown => unreachable!(),
    }
}

/// Does the action of an instruction in a frame whose first slot has this place.
#[inline(always)]
pub(crate) fn act<S: Store, L: Ledger>(
    progress: &mut Progress<S>,
    code: &Code,
    base: usize,
    instr: &Instr,
    steps: &mut Steps<L>,
) -> Result<(), HeapFail>
    requires goes_on { goes_on instr.now ≡ true }
    requires ready { IsReady code.now instr.now base (length progress.old.state.slots) }
    ensures { Tells (action_of code.now.texts base instr.now progress.old) result progress.old progress.new }
{
    match instr {
        Instr::Tick => progress.tick(),
        Instr::None => progress.push(Value::None),
        Instr::Bool(truth) => progress.push(Value::Bool(*truth)),
        Instr::Int(number) => progress.push(integer(number)),
        Instr::Text(text) => progress.push(Value::Text(*text)),
        Instr::Get(var) => progress.load(place_of(progress, base, *var)),
        Instr::Take(var) => progress.lift(place_of(progress, base, *var)),
        Instr::Set(var) => progress.put(place_of(progress, base, *var), steps),
        Instr::Drop(var) => progress.unset(place_of(progress, base, *var), steps),
        Instr::Object => progress.new_object(),
        Instr::Read => progress.read(steps),
        Instr::Write => progress.write(steps),
        Instr::Remove => progress.take(steps),
        Instr::Unary(op) => progress.unary(*op, steps),
        Instr::Binary(op) => progress.binary(*op, steps),
        Instr::Test => progress.test(),
        Instr::Built { name, count } => built(progress, code.texts(), *name, *count, steps),
        Instr::Ask { name, var } => progress.ask(*name, place_of(progress, base, *var), steps),
        Instr::Pop => progress.pop(steps),
        Instr::When { .. } => unreachable!(),
        Instr::Jump(_) | Instr::Unless(_) | Instr::And(_) | Instr::Or(_) => unreachable!(),
        Instr::Call { .. } | Instr::Return => unreachable!(),
    }
}
