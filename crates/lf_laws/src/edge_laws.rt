//! What each change makes of a state's edges. Lists of edges are compared by every
//! test of an edge, so that counts of edges to an object, of borrows and of owners
//! follow. Each function has an empty body; its clauses are the law.

ghost use Rattle.std.specs.Prelude.{◌≡◌, ◌≤◌, ◌<◌, ◌+◌, ◌++◌, ◌&&◌};
ghost use Rattle.std.specs.Prelude.{Bool, List, None, Option, Some, count_by, drop, filter, length, not, take, true, ℕ};
ghost use Rattle.std.specs.List.{list_any};
ghost use Rattle.lf_base.specs.declared.ids.CownId.{CownId};
ghost use Rattle.lf_base.specs.declared.ids.ObjId.{ObjId};
ghost use Rattle.lf_base.specs.declared.values.Key.{Key};
ghost use Rattle.lf_base.specs.declared.values.Owner.{Owner};
ghost use Rattle.lf_base.specs.declared.values.Owner.TheVariants.{Frozen, Local};
ghost use Rattle.lf_base.specs.declared.values.Value.{Value};
ghost use Rattle.lf_base.specs.CloseResult.{close_result};
ghost use Rattle.lf_base.specs.ContentResult.{content_at, content_result};
ghost use Rattle.lf_base.specs.EdgeLists.{SameEdges, begins_at, cells, closed_edges, frozen_edges, near_edges};
ghost use Rattle.lf_base.specs.Edges.{Content, Edge, Field, Slot, edges, edges_by, rows_edges, slot_edges, slot_targets};
ghost use Rattle.lf_base.specs.FreezeResult.{freeze_result, freeze_set};
ghost use Rattle.lf_base.specs.Kept.{kept, kept_rows};
ghost use Rattle.lf_base.specs.MergeResult.{relabel_region};
ghost use Rattle.lf_base.specs.Names.{same_name, targets_of_value};
ghost use Rattle.lf_base.specs.NewCown.{made_result, next_cown};
ghost use Rattle.lf_base.specs.Owners.{has_name, has_row, owner_in, owner_of, row_at};
ghost use Rattle.lf_base.specs.Ownership.{is_owned, is_owning, owning_edges};
ghost use Rattle.lf_base.specs.PlainChanges.{slot_at, with_row, with_slot, with_slot_at, with_slots};
ghost use Rattle.lf_base.specs.PlainState.{Row, State};
ghost use Rattle.lf_base.specs.Settling.{without};
ghost use Rattle.lf_base.specs.Sets.{Differ, Member};
ghost use Rattle.lf_base.specs.TakeResult.{field_at, take_result};
ghost use Rattle.lf_base.specs.TouchedEdges.{edges_from};
ghost use Rattle.lf_base.specs.WalkCounts.{borrowed, borrows, is_borrower, refs};
ghost use Rattle.lf_base.specs.WellFormed.{WellFormed};
ghost use Rattle.lf_base.specs.WriteResult.{relabel, write_fields, write_result};

/// A write of a field: with the edge of the new value the edges before are those
/// after with the edge of the old one. What moves changes no edge.
pub fn edges_after_write()
    ensures near { (s : State) (x : ObjId) (k : Key) (v : Value) (row : Row) → WellFormed s → row_at s.rows x ≡ Some row →
        SameEdges (edges_by (Field x) (slot_targets (Some v)) ++ near_edges s)
        (edges_by (Field x) (slot_targets (field_at row.fields k)) ++ near_edges (write_result s x k v)) }
    ensures all { (s : State) (x : ObjId) (k : Key) (v : Value) (row : Row) → WellFormed s → row_at s.rows x ≡ Some row →
        SameEdges (edges_by (Field x) (slot_targets (Some v)) ++ edges s)
        (edges_by (Field x) (slot_targets (field_at row.fields k)) ++ edges (write_result s x k v)) }
    ensures near_unmoved { (s : State) (x : ObjId) (k : Key) (v : Value) →
        near_edges (record s { rows = write_fields s.rows x k v }) ≡ near_edges (write_result s x k v) }
    ensures all_unmoved { (s : State) (x : ObjId) (k : Key) (v : Value) →
        edges (record s { rows = write_fields s.rows x k v }) ≡ edges (write_result s x k v) }
{}

/// A take of a field: the edges before are the one of the field's value and those
/// after.
pub fn edges_after_take()
    ensures near { (s : State) (x : ObjId) (k : Key) (row : Row) → WellFormed s → row_at s.rows x ≡ Some row →
        SameEdges (near_edges s) (edges_by (Field x) (slot_targets (field_at row.fields k)) ++ near_edges (take_result s x k)) }
    ensures all { (s : State) (x : ObjId) (k : Key) (row : Row) → WellFormed s → row_at s.rows x ≡ Some row →
        SameEdges (edges s) (edges_by (Field x) (slot_targets (field_at row.fields k)) ++ edges (take_result s x k)) }
{}

/// A write by way of a take: the edges after the write are the one of the new value
/// and those that the take leaves.
pub fn edges_put_after_take()
    ensures near { (s : State) (x : ObjId) (k : Key) (v : Value) (row : Row) → WellFormed s → row_at s.rows x ≡ Some row →
        SameEdges (edges_by (Field x) (slot_targets (Some v)) ++ near_edges (take_result s x k)) (near_edges (write_result s x k v)) }
    ensures all { (s : State) (x : ObjId) (k : Key) (v : Value) (row : Row) → WellFormed s → row_at s.rows x ≡ Some row →
        SameEdges (edges_by (Field x) (slot_targets (Some v)) ++ edges (take_result s x k)) (edges (write_result s x k v)) }
{}

/// Rows that are given to another owner, by their names or by their region, keep
/// their edges.
pub fn edges_of_given_rows()
    ensures near_named { (s : State) (os : List ObjId) (w : Owner) → near_edges (record s { rows = relabel s.rows os w }) ≡ near_edges s }
    ensures all_named { (s : State) (os : List ObjId) (w : Owner) → edges (record s { rows = relabel s.rows os w }) ≡ edges s }
    ensures near_region { (s : State) (r : ObjId) (w : Owner) → near_edges (record s { rows = relabel_region s.rows r w }) ≡ near_edges s }
    ensures all_region { (s : State) (r : ObjId) (w : Owner) → edges (record s { rows = relabel_region s.rows r w }) ≡ edges s }
{}

/// Slots: with the edges of the new ones the edges before are those after with the
/// edges of the old ones. One slot more adds its edge, one replaced its edge for the old
/// one, and the last ones go with theirs.
pub fn edges_after_slots()
    ensures near_others { (s : State) (slots : List (Option Value)) →
        SameEdges (slot_edges slots ++ near_edges s) (slot_edges s.slots ++ near_edges (with_slots s slots)) }
    ensures all_others { (s : State) (slots : List (Option Value)) →
        SameEdges (slot_edges slots ++ edges s) (slot_edges s.slots ++ edges (with_slots s slots)) }
    ensures near_more { (s : State) (w : Option Value) →
        SameEdges (near_edges (with_slot s w)) (edges_by Slot (slot_targets w) ++ near_edges s) }
    ensures all_more { (s : State) (w : Option Value) → SameEdges (edges (with_slot s w)) (edges_by Slot (slot_targets w) ++ edges s) }
    ensures near_replaced { (s : State) (n : ℕ) (w : Option Value) → n < length s.slots →
        SameEdges (edges_by Slot (slot_targets w) ++ near_edges s)
        (edges_by Slot (slot_targets (slot_at s.slots n)) ++ near_edges (with_slot_at s n w)) }
    ensures all_replaced { (s : State) (n : ℕ) (w : Option Value) → n < length s.slots →
        SameEdges (edges_by Slot (slot_targets w) ++ edges s)
        (edges_by Slot (slot_targets (slot_at s.slots n)) ++ edges (with_slot_at s n w)) }
    ensures near_fewer { (s : State) (n : ℕ) →
        SameEdges (near_edges s) (slot_edges (drop n s.slots) ++ near_edges (with_slots s (take n s.slots))) }
    ensures all_fewer { (s : State) (n : ℕ) →
        SameEdges (edges s) (slot_edges (drop n s.slots) ++ edges (with_slots s (take n s.slots))) }
{}

/// A write of a content: with the edge of the new value the edges before are those
/// after with the edge of the old one. A cown that is made adds its content's edge.
pub fn edges_after_contents()
    ensures near_written { (s : State) (c : CownId) (v old : Value) → content_at s.held c ≡ Some old →
        SameEdges (edges_by (Content c) (targets_of_value v) ++ near_edges s)
        (edges_by (Content c) (targets_of_value old) ++ near_edges (content_result s c v)) }
    ensures all_written { (s : State) (c : CownId) (v old : Value) → content_at s.held c ≡ Some old →
        SameEdges (edges_by (Content c) (targets_of_value v) ++ edges s)
        (edges_by (Content c) (targets_of_value old) ++ edges (content_result s c v)) }
    ensures near_made { (s : State) (v : Value) →
        SameEdges (near_edges (made_result s v)) (edges_by (Content (next_cown s)) (targets_of_value v) ++ near_edges s) }
    ensures all_made { (s : State) (v : Value) →
        SameEdges (edges (made_result s v)) (edges_by (Content (next_cown s)) (targets_of_value v) ++ edges s) }
{}

/// A new row has no edge.
pub fn edges_after_new_row()
    ensures near { (s : State) (w : Owner) → near_edges (with_row s w) ≡ near_edges s }
    ensures all { (s : State) (w : Owner) → edges (with_row s w) ≡ edges s }
{}

/// The edges are the near ones and those of the frozen rows. A frozen row leads to
/// frozen rows alone, so near edges tell the counts of mutable rows and of regions.
pub fn near_edges_tell_counts()
    ensures parted { (s : State) → edges s ≡ near_edges s ++ frozen_edges s }
    ensures frozen { (s : State) (e : Edge) → WellFormed s → Member e (frozen_edges s) →
        (owner_of s e.to ≡ Some Frozen) × (owner_in s.rows e.to ≡ None) }
    ensures refs { (s : State) (o : ObjId) → WellFormed s → has_row s.rows o ≡ true →
        refs s o ≡ count_by (λ e. same_name e.to o) (near_edges s) }
    ensures borrowed { (s : State) (r : ObjId) → WellFormed s → borrowed s r ≡ count_by (borrows s.rows r) (near_edges s) }
    ensures owning { (s : State) (r : ObjId) → WellFormed s → has_row s.rows r ≡ true →
        owning_edges s r ≡ count_by (λ e. is_owning s.rows e.from r && same_name e.to r) (near_edges s) }
    ensures owned { (s : State) (r : ObjId) → WellFormed s → has_row s.rows r ≡ true →
        is_owned s r ≡ list_any (λ e. is_owning s.rows e.from r && same_name e.to r) (near_edges s) }
{}

/// Only slots and local rows lead to a local row.
pub fn local_rows_are_borrowed()
    ensures { (s : State) (e : Edge) → WellFormed s → Member e (edges s) → owner_in s.rows e.to ≡ Some Local →
        is_borrower s.rows e.from ≡ true }
{}

/// Rows that are dropped go with their edges, and so do those that don't stay.
pub fn edges_after_drop()
    ensures near { (s : State) (gone : ObjId → Bool) →
        SameEdges (near_edges s) (rows_edges (filter (λ row. gone row.name) s.rows) ++ near_edges (without s gone)) }
    ensures all { (s : State) (gone : ObjId → Bool) →
        SameEdges (edges s) (rows_edges (filter (λ row. gone row.name) s.rows) ++ edges (without s gone)) }
    ensures near_kept { (s : State) → WellFormed s →
        SameEdges (near_edges s) (rows_edges (filter (λ row. not (has_row (kept_rows s) row.name)) s.rows) ++ near_edges (kept s)) }
    ensures all_kept { (s : State) → WellFormed s →
        SameEdges (edges s) (rows_edges (filter (λ row. not (has_row (kept_rows s) row.name)) s.rows) ++ edges (kept s)) }
{}

/// A freeze keeps all edges: those of the rows that it takes were near ones and are
/// those of frozen rows then.
pub fn edges_after_freeze()
    ensures near { (s : State) (v : Value) → WellFormed s →
        SameEdges (near_edges s) (rows_edges (freeze_set s v) ++ near_edges (freeze_result s v)) }
    ensures frozen { (s : State) (v : Value) → WellFormed s →
        SameEdges (frozen_edges (freeze_result s v)) (rows_edges (freeze_set s v) ++ frozen_edges s) }
    ensures all { (s : State) (v : Value) → WellFormed s → SameEdges (edges (freeze_result s v)) (edges s) }
{}

/// A close takes away the edges of the other slots and of the local rows that lead
/// into the region or below it, and no other ones.
pub fn edges_after_close()
    ensures near { (s : State) (at : ℕ) (r : ObjId) → WellFormed s →
        SameEdges (near_edges s) (closed_edges s at r ++ near_edges (close_result s at r)) }
    ensures all { (s : State) (at : ℕ) (r : ObjId) → WellFormed s →
        SameEdges (edges s) (closed_edges s at r ++ edges (close_result s at r)) }
{}

/// The edges that begin at rows of some names are those of their rows, one name
/// after the other.
pub fn edges_of_named_rows()
    ensures near { (s : State) (os : List ObjId) (test : Edge → Bool) → WellFormed s → Differ same_name os →
        ((o : ObjId) → has_name os o ≡ true → has_row s.rows o ≡ true) →
        count_by (λ e. begins_at os e.from && test e) (near_edges s) ≡ count_by test (edges_from s.rows os) }
    ensures all { (s : State) (os : List ObjId) (test : Edge → Bool) → WellFormed s → Differ same_name os →
        ((o : ObjId) → has_name os o ≡ true → has_row s.rows o ≡ true) →
        count_by (λ e. begins_at os e.from && test e) (edges s) ≡ count_by test (edges_from s.rows os) }
{}

/// The near edges are no more than the cells. A slot more, a write of a field and a
/// cown that is made bring one cell at most, and other changes none.
pub fn near_edges_fit_cells()
    ensures fit { (s : State) → length (near_edges s) ≤ cells s }
    ensures slot { (s : State) (w : Option Value) → cells (with_slot s w) ≡ cells s + 1 }
    ensures made { (s : State) (v : Value) → cells (made_result s v) ≡ cells s + 1 }
    ensures written { (s : State) (x : ObjId) (k : Key) (v : Value) → WellFormed s → cells (write_result s x k v) ≤ cells s + 1 }
    ensures taken { (s : State) (x : ObjId) (k : Key) → cells (take_result s x k) ≤ cells s }
    ensures content { (s : State) (c : CownId) (v : Value) → cells (content_result s c v) ≡ cells s }
    ensures row { (s : State) (w : Owner) → cells (with_row s w) ≡ cells s }
    ensures region { (s : State) (r : ObjId) (w : Owner) → cells (record s { rows = relabel_region s.rows r w }) ≡ cells s }
    ensures closed { (s : State) (at : ℕ) (r : ObjId) → cells (close_result s at r) ≡ cells s }
    ensures frozen { (s : State) (v : Value) → cells (freeze_result s v) ≤ cells s }
    ensures dropped { (s : State) (gone : ObjId → Bool) → cells (without s gone) ≤ cells s }
{}
