//! What was proved of the rows that stay: what drops none, and that dropping in parts is dropping at once. Each
//! function has an empty body; its clauses are the law.

ghost use Rattle.std.specs.Prelude.{◌≡◌, List, None, Option, Some, true, ℕ};
ghost use Rattle.lf_base.specs.declared.ids.CownId.{CownId};
ghost use Rattle.lf_base.specs.declared.ids.ObjId.{ObjId};
ghost use Rattle.lf_base.specs.declared.values.Key.{Key};
ghost use Rattle.lf_base.specs.declared.values.Value.{Value};
ghost use Rattle.lf_base.specs.declared.values.Value.TheVariants.{Obj};
ghost use Rattle.lf_base.specs.CloseResult.{close_result};
ghost use Rattle.lf_base.specs.ContentResult.{content_fault, content_result};
ghost use Rattle.lf_base.specs.DissolveResult.{dissolve_result};
ghost use Rattle.lf_base.specs.EndResult.{end_result};
ghost use Rattle.lf_base.specs.FreezeResult.{freeze_result, freeze_set};
ghost use Rattle.lf_base.specs.Kept.{kept, kept_rows};
ghost use Rattle.lf_base.specs.MergeResult.{merge_result};
ghost use Rattle.lf_base.specs.NewCown.{made_result};
ghost use Rattle.lf_base.specs.Owners.{has_row};
ghost use Rattle.lf_base.specs.Ownership.{below};
ghost use Rattle.lf_base.specs.PlainChanges.{first_state, next_object, object_result, region_result, with_slot, with_slots};
ghost use Rattle.lf_base.specs.PlainState.{Row, State};
ghost use Rattle.lf_base.specs.Sets.{Member};
ghost use Rattle.lf_base.specs.TakeResult.{take_result};
ghost use Rattle.lf_base.specs.WellFormed.{SlotMayHold, WellFormed};
ghost use Rattle.lf_base.specs.WriteResult.{write_result};

/// Where all rows stay, they stay with other slots that hold each value that was held,
/// with one slot more, with a new object or region and its slot, and with a new cown
/// whose content was held by a slot that goes. All rows of the first state stay.
pub fn nothing_dropped()
    ensures slots { (s : State) (ws : List (Option Value)) → kept s ≡ s →
        ((v : Value) → Member (Some v) s.slots → Member (Some v) ws) →
        kept (with_slots s ws) ≡ with_slots s ws }
    ensures slot { (s : State) (w : Option Value) → kept s ≡ s → kept (with_slot s w) ≡ with_slot s w }
    ensures object { (s : State) → WellFormed s → kept s ≡ s →
        kept (with_slot (object_result s) (Some (Obj (next_object s)))) ≡ with_slot (object_result s) (Some (Obj (next_object s))) }
    ensures region { (s : State) → WellFormed s → kept s ≡ s →
        kept (with_slot (region_result s) (Some (Obj (next_object s)))) ≡ with_slot (region_result s) (Some (Obj (next_object s))) }
    ensures cown { (s : State) (v : Value) (w : Option Value) → WellFormed s →
        kept (with_slot s (Some v)) ≡ with_slot s (Some v) → content_fault (made_result s v) v ≡ None →
        kept (with_slot (made_result s v) w) ≡ with_slot (made_result s v) w }
    ensures first { (birth : ℕ) (given : List Row) → kept (first_state birth given) ≡ first_state birth given }
{}

/// Dropping before the slots change drops no more and no less than dropping after it
/// alone, and so does dropping before the end of a behaviour.
pub fn kept_in_parts()
    ensures slots { (s : State) (ws : List (Option Value)) → WellFormed s →
        ((v : Value) → Member (Some v) ws → SlotMayHold (kept s) v) →
        kept (with_slots (kept s) ws) ≡ kept (with_slots s ws) }
    ensures fewer { (s : State) (ws : List (Option Value)) → WellFormed s →
        ((v : Value) → Member (Some v) ws → Member (Some v) s.slots) →
        kept (with_slots (kept s) ws) ≡ kept (with_slots s ws) }
    ensures end { (s : State) → WellFormed s → end_result (kept s) ≡ end_result s }
{}

/// The same of a take; of a write to a row that stays, of a content and of a new cown,
/// where the value may be held by what stays; of a merging and a dissolving of regions
/// that stay; of a freeze that takes none but rows that stay; and of a closing, where each
/// region below that stays is below by rows that stay.
pub fn changes_in_parts()
    ensures take { (s : State) (x : ObjId) (k : Key) → WellFormed s →
        kept (take_result (kept s) x k) ≡ kept (take_result s x k) }
    ensures write { (s : State) (x : ObjId) (k : Key) (v : Value) → WellFormed s → has_row (kept_rows s) x ≡ true →
        SlotMayHold (kept s) v → kept (write_result (kept s) x k v) ≡ kept (write_result s x k v) }
    ensures content { (s : State) (c : CownId) (v : Value) → WellFormed s → SlotMayHold (kept s) v →
        kept (content_result (kept s) c v) ≡ kept (content_result s c v) }
    ensures made { (s : State) (v : Value) → WellFormed s → SlotMayHold (kept s) v →
        kept (made_result (kept s) v) ≡ kept (made_result s v) }
    ensures merged { (s : State) (a b : ObjId) → WellFormed s → has_row (kept_rows s) a ≡ true →
        has_row (kept_rows s) b ≡ true → kept (merge_result (kept s) a b) ≡ kept (merge_result s a b) }
    ensures dissolved { (s : State) (r : ObjId) → WellFormed s → has_row (kept_rows s) r ≡ true →
        kept (dissolve_result (kept s) r) ≡ kept (dissolve_result s r) }
    ensures frozen { (s : State) (v : Value) → WellFormed s →
        ((y : Row) → Member y (freeze_set s v) → has_row (kept_rows s) y.name ≡ true) →
        kept (freeze_result (kept s) v) ≡ kept (freeze_result s v) }
    ensures closed { (s : State) (at : ℕ) (r : ObjId) → WellFormed s →
        ((q : ObjId) → Member q (below s r) → has_row (kept_rows s) q ≡ true → Member q (below (kept s) r)) →
        kept (close_result (kept s) at r) ≡ kept (close_result s at r) }
{}

/// Not so of every freeze, which freezes inner rows that must go, and of every closing,
/// which may reach a region through such a row.
pub fn not_in_parts()
    ensures frozen { (s : State) × ((v : Value) × (WellFormed s × (kept (freeze_result (kept s) v) ≡ kept (freeze_result s v) → ⊥))) }
    ensures closed { (s : State) × ((at : ℕ) × ((r : ObjId) × (WellFormed s ×
        (kept (close_result (kept s) at r) ≡ kept (close_result s at r) → ⊥)))) }
{}
