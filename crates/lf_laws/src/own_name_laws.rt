//! What was proved of the names that changes bring: objects of the behaviour's own birth,
//! and cowns that it makes. Each function has an empty body; its clauses are the law.

ghost use Rattle.std.specs.Prelude.{◌≡◌, Option, Some, ℕ};
ghost use Rattle.lf_base.specs.declared.values.Value.{Value};
ghost use Rattle.lf_base.specs.EndResult.{end_result};
ghost use Rattle.lf_base.specs.HeapCalls.{close_change, dissolve_change, frozen, lift_change, load_change, merge_change};
ghost use Rattle.lf_base.specs.HeapCalls.{new_cown_change, new_object_change, new_region_change, read_change, take_change, unset_change};
ghost use Rattle.lf_base.specs.HeapCalls.{write_change};
ghost use Rattle.lf_base.specs.Kept.{kept};
ghost use Rattle.lf_base.specs.Operands.{popped, pushed, put_down};
ghost use Rattle.lf_base.specs.OwnNames.{AddsOwnNames, CallAddsOwnNames, KnowsCowns};
ghost use Rattle.lf_base.specs.PlainState.{State};

/// Each call brings own names alone, and so does what is dropped, and the end.
pub fn calls_add_own_names()
    ensures pushed { (s : State) (w : Option Value) → ((v : Value) → w ≡ Some v → KnowsCowns s v) → AddsOwnNames s (pushed w s) }
    ensures popped { (s : State) → AddsOwnNames s (popped s) }
    ensures put { (s : State) (at : ℕ) → AddsOwnNames s (put_down at s) }
    ensures load { (s : State) (at : ℕ) → CallAddsOwnNames s (load_change at s) }
    ensures lift { (s : State) (at : ℕ) → CallAddsOwnNames s (lift_change at s) }
    ensures unset { (s : State) (at : ℕ) → CallAddsOwnNames s (unset_change at s) }
    ensures object { (s : State) → CallAddsOwnNames s (new_object_change s) }
    ensures region { (s : State) → CallAddsOwnNames s (new_region_change s) }
    ensures cown { (s : State) → CallAddsOwnNames s (new_cown_change s) }
    ensures read { (s : State) → CallAddsOwnNames s (read_change s) }
    ensures write { (s : State) → CallAddsOwnNames s (write_change s) }
    ensures take { (s : State) → CallAddsOwnNames s (take_change s) }
    ensures frozen { (s : State) → AddsOwnNames s (frozen s) }
    ensures merged { (s : State) → CallAddsOwnNames s (merge_change s) }
    ensures dissolved { (s : State) → CallAddsOwnNames s (dissolve_change s) }
    ensures closed { (s : State) (at : ℕ) → CallAddsOwnNames s (close_change at s) }
    ensures dropped { (s : State) → AddsOwnNames s (kept s) }
    ensures end { (s : State) → AddsOwnNames s (end_result s) }
{}

/// One change after another that bring own names alone are such a change.
pub fn own_names_add_up()
    ensures { (s t u : State) → AddsOwnNames s t → AddsOwnNames t u → AddsOwnNames s u }
{}
