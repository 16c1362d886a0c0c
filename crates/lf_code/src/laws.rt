//! What was proved of code. Each function has an empty body; its clause is the law.

ghost use Rattle.std.specs.Prelude.{Some, [], length, ltb, ℕ, ◌+◌, ◌<◌, ◌≡◌};
ghost use Rattle.lf_base.specs.declared.values.Op.{Op};
ghost use Rattle.lf_base.specs.declared.values.Value.{Value};
ghost use Rattle.lf_base.specs.HeapCalls.{close_change};
ghost use Rattle.lf_base.specs.Kept.{kept};
ghost use Rattle.lf_base.specs.Operands.{operand, pushed, with_last};
ghost use Rattle.lf_base.specs.PlainState.{State};
ghost use Rattle.lf_base.specs.SettledStates.{Settled};
ghost use Rattle.lf_code.specs.declared.instr.Prefix.{Prefix};
ghost use Rattle.lf_code.specs.Actions.{binary_change, brought_down, left_down_to, pops, unary_change, unset_pushed};
ghost use Rattle.lf_code.specs.Asks.{none_pushed};
ghost use Rattle.lf_code.specs.CodeStep.{Config, IsOver, Program, Running, new_frame};
ghost use Rattle.lf_code.specs.Progress.{Progress};
ghost use Rattle.lf_code.specs.DroppingOnce.{IsPlain, closed_once, entered_once, left_once, replaced_once};
ghost use Rattle.lf_code.specs.Operators.{binary, unary};
ghost use Rattle.lf_code.specs.RunCode.{most_steps, steps};
ghost use Rattle.lf_code.specs.Ticked.{Ticked};

/// Ticked code is over after a number of steps that its ticks and its longest body bound,
/// from the start of each body.
pub fn ticked_code_ends()
    ensures { (p : Program) (body base : ℕ) (c : Progress) → Ticked p →
        IsOver (steps p (most_steps p c.ticks) (Running (new_frame body base) [] c)) }
{}

/// Where nothing is left to drop, an instruction of several parts that drops after each of
/// them leaves what dropping once behind all of them leaves: an operator, a printed line, a
/// frame that comes or goes, and a closing. Every other instruction drops once.
pub fn dropping_once()
    ensures unary { (op : Prefix) (s : State) → Settled s → unary_change op s ≡ replaced_once 1 s (unary op (operand s 0)) }
    ensures binary { (op : Op) (s : State) → Settled s →
        binary_change op s ≡ replaced_once 2 s (binary op (operand s 1) (operand s 0)) }
    ensures printed { (n : ℕ) (s : State) (v : Value) → Settled s → IsPlain v →
        pushed (Some v) (pops n s) ≡ kept (with_last n (Some v) s) }
    ensures entered { (n : ℕ) (s : State) → Settled s → unset_pushed n s ≡ entered_once n s }
    ensures left { (base : ℕ) (s : State) → Settled s → base < length s.slots →
        left_down_to (base + 1) (brought_down (ltb (base + 1) (length s.slots)) base s) ≡ left_once base s }
    ensures closed { (at : ℕ) (s : State) → Settled s → none_pushed (close_change at s) ≡ closed_once at s }
{}
