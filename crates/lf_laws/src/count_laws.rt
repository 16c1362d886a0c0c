//! What a change of owners, or a freeze, does to the counts of regions: to borrows and
//! to owning edges. Edges stay as they are, so most laws speak of any list of edges.
//! Each function has an empty body; its clauses are the law.

ghost use Rattle.std.specs.Prelude.{◌≡◌, ◌+◌, ◌&&◌, ◌||◌, List, Some, count_by, false, sum_by, true};
ghost use Rattle.lf_base.specs.declared.ids.ObjId.{ObjId};
ghost use Rattle.lf_base.specs.declared.values.Owner.TheVariants.{In, Local};
ghost use Rattle.lf_base.specs.declared.values.Value.{Value};
ghost use Rattle.lf_base.specs.EdgeLists.{begins_at, near_edges};
ghost use Rattle.lf_base.specs.Edges.{Edge, edges};
ghost use Rattle.lf_base.specs.FreezeResult.{freeze_result, freeze_set};
ghost use Rattle.lf_base.specs.MergeResult.{relabel_region};
ghost use Rattle.lf_base.specs.Names.{same_name};
ghost use Rattle.lf_base.specs.Owners.{has_name, has_row, is_in, owner_in};
ghost use Rattle.lf_base.specs.Ownership.{is_from, is_owning, owning_edges};
ghost use Rattle.lf_base.specs.PlainState.{Row, State};
ghost use Rattle.lf_base.specs.Sets.{Differ};
ghost use Rattle.lf_base.specs.WalkCounts.{borrowed, borrows, is_borrower, refs};
ghost use Rattle.lf_base.specs.WellFormed.{WellFormed};
ghost use Rattle.lf_base.specs.WriteResult.{relabel};

/// Local rows that are given to region h borrow nothing any more. The region is
/// borrowed by what leads to them from slots and from local rows that stay.
pub fn borrows_of_given_rows()
    ensures other { (rows : List Row) (os : List ObjId) (h q : ObjId) (es : List Edge) →
        ((o : ObjId) → has_name os o ≡ true → owner_in rows o ≡ Some Local) → same_name h q ≡ false →
        count_by (borrows (relabel rows os (In h)) q) es + count_by (λ e. begins_at os e.from && is_in q (owner_in rows e.to)) es
        ≡ count_by (borrows rows q) es }
    ensures home { (rows : List Row) (os : List ObjId) (h : ObjId) (es : List Edge) →
        ((o : ObjId) → has_name os o ≡ true → owner_in rows o ≡ Some Local) →
        count_by (borrows (relabel rows os (In h)) h) es
        + count_by (λ e. begins_at os e.from && (is_in h (owner_in rows e.to) || has_name os e.to)) es
        ≡ count_by (borrows rows h) es + count_by (λ e. is_borrower rows e.from && has_name os e.to) es }
{}

/// Local rows that are given to region h own what they lead to, other than its own
/// bridge.
pub fn owners_of_given_rows()
    ensures other { (rows : List Row) (os : List ObjId) (h b : ObjId) (es : List Edge) →
        ((o : ObjId) → has_name os o ≡ true → owner_in rows o ≡ Some Local) → same_name h b ≡ false →
        count_by (λ e. is_owning (relabel rows os (In h)) e.from b && same_name e.to b) es
        ≡ count_by (λ e. is_owning rows e.from b && same_name e.to b) es + count_by (λ e. begins_at os e.from && same_name e.to b) es }
    ensures home { (rows : List Row) (os : List ObjId) (h : ObjId) (es : List Edge) →
        ((o : ObjId) → has_name os o ≡ true → owner_in rows o ≡ Some Local) →
        count_by (λ e. is_owning (relabel rows os (In h)) e.from h && same_name e.to h) es
        ≡ count_by (λ e. is_owning rows e.from h && same_name e.to h) es }
{}

/// Where region b goes into region a, the borrows of both are those of a then, and
/// an edge from b to the bridge a owns it no more.
pub fn counts_of_merged_regions()
    ensures borrows { (rows : List Row) (a b : ObjId) (es : List Edge) → same_name b a ≡ false →
        count_by (borrows (relabel_region rows b (In a)) a) es ≡ count_by (borrows rows a) es + count_by (borrows rows b) es }
    ensures no_borrows { (rows : List Row) (a b : ObjId) (es : List Edge) → same_name b a ≡ false →
        count_by (borrows (relabel_region rows b (In a)) b) es ≡ 0 }
    ensures other_borrows { (rows : List Row) (a b q : ObjId) (es : List Edge) → same_name a q ≡ false → same_name b q ≡ false →
        count_by (borrows (relabel_region rows b (In a)) q) es ≡ count_by (borrows rows q) es }
    ensures owners { (rows : List Row) (a b : ObjId) (es : List Edge) → same_name b a ≡ false →
        count_by (λ e. is_owning (relabel_region rows b (In a)) e.from a && same_name e.to a) es
        + count_by (λ e. is_from rows b e.from && same_name e.to a) es
        ≡ count_by (λ e. is_owning rows e.from a && same_name e.to a) es }
    ensures other_owners { (rows : List Row) (a b c : ObjId) (es : List Edge) → same_name a c ≡ false → same_name b c ≡ false →
        count_by (λ e. is_owning (relabel_region rows b (In a)) e.from c && same_name e.to c) es
        ≡ count_by (λ e. is_owning rows e.from c && same_name e.to c) es }
{}

/// Where region r is dissolved, its rows borrow what they lead to in other regions,
/// and own it no more.
pub fn counts_of_dissolved_region()
    ensures no_borrows { (rows : List Row) (r : ObjId) (es : List Edge) →
        count_by (borrows (relabel_region rows r Local) r) es ≡ 0 }
    ensures other_borrows { (rows : List Row) (r q : ObjId) (es : List Edge) → same_name r q ≡ false →
        count_by (borrows (relabel_region rows r Local) q) es
        ≡ count_by (borrows rows q) es + count_by (λ e. is_from rows r e.from && is_in q (owner_in rows e.to)) es }
    ensures other_owners { (rows : List Row) (r c : ObjId) (es : List Edge) → same_name r c ≡ false →
        count_by (λ e. is_owning (relabel_region rows r Local) e.from c && same_name e.to c) es
        + count_by (λ e. is_from rows r e.from && same_name e.to c) es
        ≡ count_by (λ e. is_owning rows e.from c && same_name e.to c) es }
{}

/// As many edges lead to rows of names that differ as lead to each of them; all edges
/// to local rows are from slots and local rows.
pub fn edges_to_named_rows()
    ensures any { (es : List Edge) (os : List ObjId) → Differ same_name os →
        count_by (λ e. has_name os e.to) es ≡ sum_by (λ o. count_by (λ e. same_name e.to o) es) os }
    ensures near { (s : State) (os : List ObjId) → WellFormed s → Differ same_name os →
        ((o : ObjId) → has_name os o ≡ true → owner_in s.rows o ≡ Some Local) →
        count_by (λ e. is_borrower s.rows e.from && has_name os e.to) (near_edges s) ≡ sum_by (refs s) os }
    ensures all { (s : State) (os : List ObjId) → WellFormed s → Differ same_name os →
        ((o : ObjId) → has_name os o ≡ true → owner_in s.rows o ≡ Some Local) →
        count_by (λ e. is_borrower s.rows e.from && has_name os e.to) (edges s) ≡ sum_by (refs s) os }
{}

/// A freeze leaves all counts of edges to objects, and the owners of each bridge that it
/// doesn't take. A region loses the borrows of those of its rows that the freeze takes.
pub fn counts_after_freeze()
    ensures refs { (s : State) (v : Value) (o : ObjId) → WellFormed s → refs (freeze_result s v) o ≡ refs s o }
    ensures borrowed { (s : State) (v : Value) (r : ObjId) → WellFormed s →
        borrowed (freeze_result s v) r + count_by (λ e. has_row (freeze_set s v) e.to && borrows s.rows r e) (edges s) ≡ borrowed s r }
    ensures owning { (s : State) (v : Value) (r : ObjId) → WellFormed s → has_row s.rows r ≡ true →
        has_row (freeze_set s v) r ≡ false → owning_edges (freeze_result s v) r ≡ owning_edges s r }
{}
