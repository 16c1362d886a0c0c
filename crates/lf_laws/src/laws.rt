//! What was proved of the definitions of ownership, counts and dropping. Each
//! function has an empty body; its clauses are the law.

ghost use Rattle.std.specs.Prelude.{◌≡◌, ◌+◌, ◌<◌, ◌↔◌, ◌⊎◌, ◌∷◌, ◌++◌, [], Bool, List, None, Option, Some, false, true, ℕ};
ghost use Rattle.lf_base.specs.declared.ids.CownId.{CownId};
ghost use Rattle.lf_base.specs.declared.ids.ObjId.{ObjId};
ghost use Rattle.lf_base.specs.declared.values.Key.{Key};
ghost use Rattle.lf_base.specs.declared.values.Owner.TheVariants.{In};
ghost use Rattle.lf_base.specs.declared.values.Value.{Value};
ghost use Rattle.lf_base.specs.CloseResult.{close_result};
ghost use Rattle.lf_base.specs.ContentResult.{content_fault, content_refusal, content_result, has_cown};
ghost use Rattle.lf_base.specs.DissolveResult.{dissolve_refusal, dissolve_result};
ghost use Rattle.lf_base.specs.Edges.{Edge, Field, edges};
ghost use Rattle.lf_base.specs.EndResult.{end_result};
ghost use Rattle.lf_base.specs.FreezeResult.{FreezeClosed, freeze_result, freeze_set};
ghost use Rattle.lf_base.specs.Kept.{kept, kept_rows, stays};
ghost use Rattle.lf_base.specs.MergeResult.{merge_refusal, merge_result};
ghost use Rattle.lf_base.specs.MoveSet.{LocalPath, move_set};
ghost use Rattle.lf_base.specs.Names.{targets_of_value};
ghost use Rattle.lf_base.specs.NewCown.{made_result};
ghost use Rattle.lf_base.specs.Owners.{bridge_of, has_row, owner_in, row_at};
ghost use Rattle.lf_base.specs.Ownership.{Above, NoRound, below, owns, round};
ghost use Rattle.lf_base.specs.PlainChanges.{first_state, object_result, region_result, with_slot, with_slots};
ghost use Rattle.lf_base.specs.PlainState.{Row, State};
ghost use Rattle.lf_base.specs.Settling.{CanGo, Idle, Renewed, Run, Spent, Watched, without};
ghost use Rattle.lf_base.specs.Sets.{Member};
ghost use Rattle.lf_base.specs.Suspects.{AllHang, Suspect, Suspected};
ghost use Rattle.lf_base.specs.TakeResult.{field_at, take_result};
ghost use Rattle.lf_base.specs.WalkCounts.{borrowed, counted, is_open, refs};
ghost use Rattle.lf_base.specs.WellFormed.{MayBeGiven, SlotMayHold, WellFormed, all_values};
ghost use Rattle.lf_base.specs.WriteResult.{leads_inside, write_refusal, write_result};

/// The rows that stay are rows of the state and justify each other, and each set
/// of rows that justify each other stays.
pub fn kept_is_greatest()
    ensures among { (s : State) (row : Row) → Member row (kept_rows s) → Member row s.rows }
    ensures meets { (s : State) (row : Row) → Member row (kept_rows s) → stays s (kept_rows s) row ≡ true }
    ensures greatest { (s : State) (rows : List Row) →
        ((row : Row) → Member row rows → Member row s.rows × (stays s rows row ≡ true)) →
        (row : Row) → Member row rows → Member row (kept_rows s) }
{}

/// What moves with a value is what paths of local rows from the value lead to.
pub fn move_set_follows_paths()
    ensures { (s : State) (v : Value) (row : Row) → Member row (move_set s v) ↔ LocalPath s v row }
{}

/// What lies below a region is what it owns, directly or through others.
pub fn below_follows_owners()
    ensures { (s : State) (q r : ObjId) → Member r (below s q) ↔ Above s q r }
{}

/// A region is open exactly where it is borrowed, or one that it owns, directly
/// or through others, is borrowed.
pub fn open_follows_owners()
    ensures { (s : State) (r : ObjId) →
        (is_open s r ≡ true) ↔ ((0 < borrowed s r) ⊎ ((q : ObjId) × (Above s r q × (0 < borrowed s q)))) }
{}

/// What a freeze takes are rows of the state, it has what it must have, and each
/// set of rows that has this has all of it.
pub fn freeze_set_is_least()
    ensures among { (s : State) (v : Value) (row : Row) → Member row (freeze_set s v) → Member row s.rows }
    ensures closed { (s : State) (v : Value) → FreezeClosed s v (freeze_set s v) }
    ensures least { (s : State) (v : Value) (rows : List Row) → FreezeClosed s v rows → (row : Row) →
        Member row (freeze_set s v) → Member row rows }
{}

/// Owners are found to go round exactly where some region is above itself.
pub fn owners_go_round()
    ensures { (s : State) → (round s ≡ []) ↔ NoRound s }
{}

/// A further slot may hold a value exactly where the state with that slot is
/// well-formed again.
pub fn further_slot()
    ensures { (s : State) (v : Value) → WellFormed s →
        SlotMayHold s v ↔ WellFormed (with_slot s (Some v)) }
{}

/// A behaviour that begins with frozen rows alone begins well-formed.
pub fn first_state_is_well_formed()
    ensures { (birth : ℕ) (given : List Row) → MayBeGiven birth given →
        WellFormed (first_state birth given) }
{}

/// Each value of a well-formed state may be held by a further slot, and a state is
/// well-formed with any slots that may be held.
pub fn slots_keep()
    ensures values { (s : State) (v : Value) → WellFormed s → Member v (all_values s) → SlotMayHold s v }
    ensures keep { (s : State) (slots : List (Option Value)) → WellFormed s →
        ((v : Value) → Member (Some v) slots → SlotMayHold s v) →
        WellFormed (with_slots s slots) }
{}

/// A new object and a new region keep a state well-formed.
pub fn new_rows_keep()
    ensures object { (s : State) → WellFormed s → WellFormed (object_result s) }
    ensures region { (s : State) → WellFormed s → WellFormed (region_result s) }
{}

/// The taking of a field keeps a state well-formed.
pub fn take_keeps()
    ensures { (s : State) (x : ObjId) (k : Key) → WellFormed s → WellFormed (take_result s x k) }
{}

/// A write of a field that isn't a frozen object's gives a well-formed state
/// exactly where it isn't refused.
pub fn write_law()
    ensures { (s : State) (x : ObjId) (k : Key) (v : Value) → WellFormed s → has_row s.rows x ≡ true →
        SlotMayHold s v → (write_refusal s x k v ≡ None) ↔ WellFormed (write_result s x k v) }
{}

/// Where to look after a write: an edge to the inside of another region is the new
/// one, or begins at a row that moved; and where the target lies in a region, owners
/// go round exactly where that region then owns one that was above it.
pub fn write_shows()
    ensures interior { (s : State) (x : ObjId) (k : Key) (v : Value) → WellFormed s → SlotMayHold s v →
        has_row s.rows x ≡ true → (e : Edge) → Member e (edges (write_result s x k v)) →
        leads_inside (write_result s x k v).rows e (owner_in (write_result s x k v).rows e.to) ≡ true →
        ((e.from ≡ Field x) × Member e.to (targets_of_value v)) ⊎ ((row : Row) × (Member row (move_set s v) × (e.from ≡ Field row.name))) }
    ensures round { (s : State) (x : ObjId) (k : Key) (v : Value) (home : ObjId) → WellFormed s →
        SlotMayHold s v → owner_in s.rows x ≡ Some (In home) →
        (round (write_result s x k v) ≡ []) ↔ ((b : ObjId) → owns (write_result s x k v) home b ≡ true → Above s b home → ⊥) }
{}

/// A write adds the edge of the new value to the counts and takes that of the old
/// one away.
pub fn write_counts()
    ensures { (s : State) (x : ObjId) (k : Key) (v : Value) (row : Row) (o : ObjId) → WellFormed s →
        row_at s.rows x ≡ Some row →
        refs (write_result s x k v) o + counted o (field_at row.fields k) ≡ refs s o + counted o (Some v) }
{}

/// A write of a held cown's content gives a well-formed state exactly where it
/// isn't refused, and so does the making of a cown.
pub fn content_law()
    ensures held { (s : State) (c : CownId) (v : Value) → WellFormed s → has_cown s.held c ≡ true →
        SlotMayHold s v → (content_refusal s c v ≡ None) ↔ WellFormed (content_result s c v) }
    ensures made { (s : State) (v : Value) → WellFormed s → SlotMayHold s v →
        (content_fault (made_result s v) v ≡ None) ↔ WellFormed (made_result s v) }
{}

/// A freeze leaves a well-formed state.
pub fn freeze_keeps()
    ensures { (s : State) (v : Value) → WellFormed s → WellFormed (freeze_result s v) }
{}

/// Merging two regions and dissolving one leave a well-formed state where they
/// aren't refused.
pub fn merge_keeps()
    ensures merged { (s : State) (v u : Value) (a b : ObjId) → WellFormed s → bridge_of s v ≡ Some a →
        bridge_of s u ≡ Some b → merge_refusal s v u ≡ None → WellFormed (merge_result s a b) }
    ensures dissolved { (s : State) (v : Value) (r : ObjId) → WellFormed s → bridge_of s v ≡ Some r →
        dissolve_refusal s v ≡ None → WellFormed (dissolve_result s r) }
{}

/// Closing a region keeps a state well-formed.
pub fn close_keeps()
    ensures { (s : State) (at : ℕ) (r : ObjId) → WellFormed s → WellFormed (close_result s at r) }
{}

/// The end of a behaviour leaves a well-formed state of which all rows stay, and in
/// which every region is closed.
pub fn end_keeps()
    ensures well_formed { (s : State) → WellFormed s → WellFormed (end_result s) }
    ensures all_stay { (s : State) → WellFormed s → kept (end_result s) ≡ end_result s }
    ensures closed { (s : State) (r : ObjId) → is_open (end_result s) r ≡ false }
{}

/// The rows that stay of a well-formed state make a well-formed state, of which all
/// rows stay.
pub fn kept_is_well_formed()
    ensures well_formed { (s : State) → WellFormed s → WellFormed (kept s) }
    ensures all_stay { (s : State) → WellFormed s → kept (kept s) ≡ kept s }
{}

/// Where whatever nothing justifies is itself a suspect, each row that must go
/// hangs on a suspect.
pub fn suspects_suffice()
    ensures { (s : State) (w : List Suspect) → WellFormed s → Suspected s w → AllHang s w }
{}

/// One step of settling after the other: where each row that must go hangs on a
/// suspect, whatever nothing justifies is watched by a suspect. A suspect has a
/// justification or goes with rows that can go. One that has a justification may
/// be forgotten. A drop of rows that can go leaves a well-formed state, with the
/// same rows to stay, and whatever nothing justifies is watched again. Where no
/// suspect is left, all rows stay.
pub fn settling_steps()
    ensures watched { (s : State) (w : List Suspect) → WellFormed s → AllHang s w → Watched s w }
    ensures decided { (s : State) (u : Suspect) → WellFormed s →
        Idle s u ⊎ ((gone : ObjId → Bool) × (CanGo s gone × Spent gone u)) }
    ensures forgotten { (s : State) (u : Suspect) (w : List Suspect) → Idle s u → Watched s (u ∷ w) →
        Watched s w }
    ensures well_formed { (s : State) (gone : ObjId → Bool) → WellFormed s → CanGo s gone →
        WellFormed (without s gone) }
    ensures stays_same { (s : State) (gone : ObjId → Bool) → WellFormed s → CanGo s gone →
        kept_rows (without s gone) ≡ kept_rows s }
    ensures watched_again { (s : State) (gone : ObjId → Bool) (u : Suspect) (new w : List Suspect) → WellFormed s →
        CanGo s gone → Spent gone u → Renewed s gone new → Watched s (u ∷ w) →
        Watched (without s gone) (new ++ w) }
    ensures all_stay { (s : State) → WellFormed s → Watched s [] → kept_rows s ≡ s.rows }
{}

/// Where each row that must go hangs on a suspect, a run over the suspects leaves
/// exactly the rows that stay.
pub fn suspects_settle()
    ensures { (s t : State) (w : List Suspect) → WellFormed s → AllHang s w → Run s w t → t ≡ kept s }
{}
