//! What was proved of states that are given more frozen rows: nothing of what a
//! behaviour sees of its state changes. Each function has an empty body; its clauses are
//! the law.

ghost use Rattle.std.specs.Prelude.{◌≡◌, List, Option, false, true, ℕ};
ghost use Rattle.lf_base.specs.declared.ids.ObjId.{ObjId};
ghost use Rattle.lf_base.specs.declared.questions.Question.{Question};
ghost use Rattle.lf_base.specs.declared.values.Key.{Key};
ghost use Rattle.lf_base.specs.declared.values.Value.{Value};
ghost use Rattle.lf_base.specs.Accesses.{read_refusal, read_value, remove_refusal, remove_result, store_refusal, store_result};
ghost use Rattle.lf_base.specs.Asking.{asked};
ghost use Rattle.lf_base.specs.CloseResult.{close_result};
ghost use Rattle.lf_base.specs.DissolveResult.{dissolve_refusal, dissolve_result};
ghost use Rattle.lf_base.specs.EndResult.{end_result};
ghost use Rattle.lf_base.specs.FreezeResult.{freeze_result};
ghost use Rattle.lf_base.specs.HeapCalls.{close_change, dissolve_change, frozen, lift_change, load_change, merge_change};
ghost use Rattle.lf_base.specs.HeapCalls.{new_cown_change, new_object_change, new_region_change, read_change, take_change, unset_change};
ghost use Rattle.lf_base.specs.HeapCalls.{write_change};
ghost use Rattle.lf_base.specs.Kept.{kept};
ghost use Rattle.lf_base.specs.MergeResult.{merge_refusal, merge_result};
ghost use Rattle.lf_base.specs.MoreGiven.{Holds, More, StaysMore, change_given, with_given};
ghost use Rattle.lf_base.specs.NewCown.{new_cown_refusal};
ghost use Rattle.lf_base.specs.Operands.{popped, put_down};
ghost use Rattle.lf_base.specs.Owners.{has_row};
ghost use Rattle.lf_base.specs.PlainState.{Row, State};
ghost use Rattle.lf_base.specs.Questions.{borrowed_answer, is_closed_answer, label_of, open_children_answer, refs_answer};
ghost use Rattle.lf_base.specs.WellFormed.{MayBeGiven, SlotMayHold, WellFormed};

/// More rows may be given where they have those given before as they are, none of the
/// further ones is of the behaviour's birth, names a cown of it or leads elsewhere, and
/// none has a name of the state's own rows.
pub fn more_may_be_given()
    ensures { (s : State) (many : List Row) → WellFormed s → MayBeGiven s.birth many → Holds s.given many →
        ((o : ObjId) → has_row many o ≡ true → has_row s.rows o ≡ false) →
        ((o : ObjId) → has_row many o ≡ true → has_row s.own o ≡ false) → More s many }
{}

/// Each change is then refused for the same.
pub fn refusals_stay()
    ensures read { (s : State) (many : List Row) (target key : Value) → More s many → SlotMayHold s target →
        read_refusal (with_given s many) target key ≡ read_refusal s target key }
    ensures store { (s : State) (many : List Row) (target key v : Value) → More s many → SlotMayHold s v →
        store_refusal (with_given s many) target key v ≡ store_refusal s target key v }
    ensures remove { (s : State) (many : List Row) (target key : Value) → More s many →
        remove_refusal (with_given s many) target key ≡ remove_refusal s target key }
    ensures cown { (s : State) (many : List Row) (v : Value) → More s many → SlotMayHold s v →
        new_cown_refusal (with_given s many) v ≡ new_cown_refusal s v }
    ensures merged { (s : State) (many : List Row) (v w : Value) → More s many →
        merge_refusal (with_given s many) v w ≡ merge_refusal s v w }
    ensures dissolved { (s : State) (many : List Row) (v : Value) → More s many →
        dissolve_refusal (with_given s many) v ≡ dissolve_refusal s v }
{}

/// Each change gives the same.
pub fn results_stay()
    ensures store { (s : State) (many : List Row) (target : Value) (k : Option Key) (v : Value) →
        store_result (with_given s many) target k v ≡ with_given (store_result s target k v) many }
    ensures remove { (s : State) (many : List Row) (target : Value) (k : Option Key) →
        remove_result (with_given s many) target k ≡ with_given (remove_result s target k) many }
    ensures frozen { (s : State) (many : List Row) (v : Value) →
        freeze_result (with_given s many) v ≡ with_given (freeze_result s v) many }
    ensures merged { (s : State) (many : List Row) (a b : ObjId) →
        merge_result (with_given s many) a b ≡ with_given (merge_result s a b) many }
    ensures dissolved { (s : State) (many : List Row) (r : ObjId) →
        dissolve_result (with_given s many) r ≡ with_given (dissolve_result s r) many }
    ensures closed { (s : State) (many : List Row) (at : ℕ) (r : ObjId) → More s many →
        close_result (with_given s many) at r ≡ with_given (close_result s at r) many }
    ensures kept { (s : State) (many : List Row) → kept (with_given s many) ≡ with_given (kept s) many }
    ensures end { (s : State) (many : List Row) → end_result (with_given s many) ≡ with_given (end_result s) many }
{}

/// Reads and questions answer the same.
pub fn answers_stay()
    ensures read { (s : State) (many : List Row) (target : Value) (k : Option Key) → More s many → SlotMayHold s target →
        read_value (with_given s many) target k ≡ read_value s target k }
    ensures label { (s : State) (many : List Row) (v : Value) → More s many → SlotMayHold s v →
        label_of (with_given s many) v ≡ label_of s v }
    ensures refs { (s : State) (many : List Row) (v : Value) → More s many → refs_answer (with_given s many) v ≡ refs_answer s v }
    ensures borrowed { (s : State) (many : List Row) (v : Value) → More s many →
        borrowed_answer (with_given s many) v ≡ borrowed_answer s v }
    ensures open_children { (s : State) (many : List Row) (v : Value) → More s many →
        open_children_answer (with_given s many) v ≡ open_children_answer s v }
    ensures is_closed { (s : State) (many : List Row) (at : ℕ) (v : Value) → More s many →
        is_closed_answer (with_given s many) at v ≡ is_closed_answer s at v }
    ensures asked { (s : State) (many : List Row) (q : Question) (at : ℕ) → More s many → asked (with_given s many) q at ≡ asked s q at }
{}

/// Each call makes the same of the state, operands included.
pub fn calls_stay()
    ensures load { (s : State) (many : List Row) (at : ℕ) → More s many →
        load_change at (with_given s many) ≡ change_given many (load_change at s) }
    ensures lift { (s : State) (many : List Row) (at : ℕ) → More s many →
        lift_change at (with_given s many) ≡ change_given many (lift_change at s) }
    ensures unset { (s : State) (many : List Row) (at : ℕ) → More s many →
        unset_change at (with_given s many) ≡ change_given many (unset_change at s) }
    ensures object { (s : State) (many : List Row) → More s many →
        new_object_change (with_given s many) ≡ change_given many (new_object_change s) }
    ensures region { (s : State) (many : List Row) → More s many →
        new_region_change (with_given s many) ≡ change_given many (new_region_change s) }
    ensures cown { (s : State) (many : List Row) → More s many →
        new_cown_change (with_given s many) ≡ change_given many (new_cown_change s) }
    ensures read { (s : State) (many : List Row) → More s many → read_change (with_given s many) ≡ change_given many (read_change s) }
    ensures write { (s : State) (many : List Row) → More s many → write_change (with_given s many) ≡ change_given many (write_change s) }
    ensures take { (s : State) (many : List Row) → More s many → take_change (with_given s many) ≡ change_given many (take_change s) }
    ensures frozen { (s : State) (many : List Row) → frozen (with_given s many) ≡ with_given (frozen s) many }
    ensures merged { (s : State) (many : List Row) → More s many → merge_change (with_given s many) ≡ change_given many (merge_change s) }
    ensures dissolved { (s : State) (many : List Row) → More s many →
        dissolve_change (with_given s many) ≡ change_given many (dissolve_change s) }
    ensures closed { (s : State) (many : List Row) (at : ℕ) → More s many →
        close_change at (with_given s many) ≡ change_given many (close_change at s) }
{}

/// After each call the same rows are more still.
pub fn more_stays_more()
    ensures load { (s : State) (many : List Row) (at : ℕ) → More s many → StaysMore many (load_change at s) }
    ensures lift { (s : State) (many : List Row) (at : ℕ) → More s many → StaysMore many (lift_change at s) }
    ensures unset { (s : State) (many : List Row) (at : ℕ) → More s many → StaysMore many (unset_change at s) }
    ensures object { (s : State) (many : List Row) → More s many → StaysMore many (new_object_change s) }
    ensures region { (s : State) (many : List Row) → More s many → StaysMore many (new_region_change s) }
    ensures cown { (s : State) (many : List Row) → More s many → StaysMore many (new_cown_change s) }
    ensures read { (s : State) (many : List Row) → More s many → StaysMore many (read_change s) }
    ensures write { (s : State) (many : List Row) → More s many → StaysMore many (write_change s) }
    ensures take { (s : State) (many : List Row) → More s many → StaysMore many (take_change s) }
    ensures merged { (s : State) (many : List Row) → More s many → StaysMore many (merge_change s) }
    ensures dissolved { (s : State) (many : List Row) → More s many → StaysMore many (dissolve_change s) }
    ensures closed { (s : State) (many : List Row) (at : ℕ) → More s many → StaysMore many (close_change at s) }
    ensures popped { (s : State) (many : List Row) → More s many → More (popped s) many }
    ensures put { (s : State) (many : List Row) (at : ℕ) → More s many → More (put_down at s) many }
    ensures frozen { (s : State) (many : List Row) → More s many → More (frozen s) many }
    ensures end { (s : State) (many : List Row) → More s many → More (end_result s) many }
{}
