//! What was proved of the calls on a behaviour's state: from a well-formed state each
//! leaves one that is well-formed and has nothing left to drop. Each function has an
//! empty body; its clauses are the law.

ghost use Rattle.std.specs.Prelude.{◌≡◌, Option, Some, ℕ};
ghost use Rattle.lf_base.specs.declared.values.Key.{Key};
ghost use Rattle.lf_base.specs.declared.values.Value.{Value};
ghost use Rattle.lf_base.specs.Accesses.{read_value};
ghost use Rattle.lf_base.specs.HeapCalls.{close_change, dissolve_change, frozen, lift_change, load_change, merge_change};
ghost use Rattle.lf_base.specs.HeapCalls.{new_cown_change, new_object_change, new_region_change, read_change, take_change, unset_change};
ghost use Rattle.lf_base.specs.HeapCalls.{write_change};
ghost use Rattle.lf_base.specs.Operands.{popped, pushed, put_down};
ghost use Rattle.lf_base.specs.PlainState.{State};
ghost use Rattle.lf_base.specs.SettledStates.{IsSettled, Settled};
ghost use Rattle.lf_base.specs.WellFormed.{SlotMayHold, WellFormed};

/// What a read gives may be held by a further slot.
pub fn read_values_may_be_held()
    ensures { (s : State) (target : Value) (k : Option Key) (v : Value) → WellFormed s →
        read_value s target k ≡ Some v → SlotMayHold s v }
{}

/// A push of what may be held, a pop, a put, a load, a lift and an unsetting.
pub fn slots_settle()
    ensures pushed { (s : State) (w : Option Value) → WellFormed s →
        ((v : Value) → w ≡ Some v → SlotMayHold s v) → Settled (pushed w s) }
    ensures popped { (s : State) → WellFormed s → Settled (popped s) }
    ensures put { (s : State) (at : ℕ) → WellFormed s → Settled (put_down at s) }
    ensures load { (s : State) (at : ℕ) → WellFormed s → IsSettled (load_change at s) }
    ensures lift { (s : State) (at : ℕ) → WellFormed s → IsSettled (lift_change at s) }
    ensures unset { (s : State) (at : ℕ) → WellFormed s → IsSettled (unset_change at s) }
{}

/// The makings of an object, a region and a cown.
pub fn makings_settle()
    ensures object { (s : State) → WellFormed s → IsSettled (new_object_change s) }
    ensures region { (s : State) → WellFormed s → IsSettled (new_region_change s) }
    ensures cown { (s : State) → WellFormed s → IsSettled (new_cown_change s) }
{}

/// A read, a write and a take of any target.
pub fn accesses_settle()
    ensures read { (s : State) → WellFormed s → IsSettled (read_change s) }
    ensures write { (s : State) → WellFormed s → IsSettled (write_change s) }
    ensures take { (s : State) → WellFormed s → IsSettled (take_change s) }
{}

/// A freeze, a merging, a dissolving and a closing.
pub fn regions_settle()
    ensures frozen { (s : State) → WellFormed s → Settled (frozen s) }
    ensures merged { (s : State) → WellFormed s → IsSettled (merge_change s) }
    ensures dissolved { (s : State) → WellFormed s → IsSettled (dissolve_change s) }
    ensures closed { (s : State) (at : ℕ) → WellFormed s → IsSettled (close_change at s) }
{}
