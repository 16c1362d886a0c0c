//! What callers read off a store and a table that are those of a state. Each function
//! has an empty body; its clauses are the law.

ghost use Rattle.std.specs.Prelude.{◌≡◌, ◌↔◌, ◌++◌, [], List, Option, Some, false, filter, is_some, not, true, ℕ};
ghost use Rattle.std.specs.Option.{option_map};
ghost use Rattle.lf_base.specs.declared.ids.ObjId.{ObjId};
ghost use Rattle.lf_base.specs.declared.values.Key.{Key};
ghost use Rattle.lf_base.specs.declared.values.Owner.TheVariants.{In, Local};
ghost use Rattle.lf_base.specs.declared.values.Value.{Value};
ghost use Rattle.lf_base.specs.EdgeLists.{SameEdges, near_edges};
ghost use Rattle.lf_base.specs.Edges.{Edge, Source, edges, edges_by};
ghost use Rattle.lf_base.specs.Names.{same_name};
ghost use Rattle.lf_base.specs.Owners.{bridges, has_row, is_bridge, owner_in, row_at};
ghost use Rattle.lf_base.specs.Names.{same_name};
ghost use Rattle.lf_base.specs.Ownership.{is_owned};
ghost use Rattle.lf_base.specs.PlainChanges.{first_state, next_object, object_result, region_result};
ghost use Rattle.lf_base.specs.PlainState.{Row, State};
ghost use Rattle.lf_base.specs.TakeResult.{row_field};
ghost use Rattle.lf_base.specs.WalkCounts.{borrowed, is_borrower, refs};
ghost use Rattle.lf_base.specs.WellFormed.{WellFormed};
ghost use Rattle.lf_base.specs.WriteResult.{write_fields};
ghost use Rattle.lf_domain.specs.Counts.{Counts, CountsOf, IsDomain};
ghost use Rattle.lf_domain.specs.OneEdge.{HasOneOwner, HaveBridges, LiesIn, NoEdgeOf, OnlyBridges};
ghost use Rattle.lf_domain.specs.OneEdge.{MayCount, MayCountOwner, MayUncount, MayUncountOwner};
ghost use Rattle.lf_base.specs.TakeResult.{take_fields};
ghost use Rattle.lf_graph.specs.RowChanges.{with_field_of, with_new_row, without_field_of, without_row};
ghost use Rattle.lf_graph.specs.StoredRows.{AreRowsOf, CountedRow, HasRow, IsNewName, SameByOwner, field_value_at, owner_at, refs_at};
ghost use Rattle.lf_graph.specs.StoredRows.{row_named};
ghost use Rattle.lf_regions.specs.declared.region.Region.{Region};
ghost use Rattle.lf_regions.specs.RegionChanges.{with_region, without_region};
ghost use Rattle.lf_regions.specs.Regions.{InNameOrder, borrowed_of, has_region, owned_of, region_names};
ghost use Rattle.lf_regions.specs.TableCounts.{IsTableOf};

/// The counts of a list of edges are those of every list that has the same edges, and of
/// every store that has the same rows under each owner.
pub fn counts_of_the_same()
    ensures edges { (rows : List CountedRow) (regions : List Region) (of : List Row) (xs ys : List Edge) → SameEdges xs ys
        → Counts rows regions of xs → Counts rows regions of ys }
    ensures rows { (rows new : List CountedRow) (regions : List Region) (of : List Row) (es : List Edge) → SameByOwner new rows
        → Counts rows regions of es → Counts new regions of es }
{}

/// A field that is set in a row of the store, or taken out of one, changes no count: the
/// same edges are counted of the rows with that field, or without it.
pub fn fields_count_nothing()
    ensures set { (rows new : List CountedRow) (regions : List Region) (of : List Row) (es : List Edge) (o : ObjId) (k : Key)
        (v : Value) → Counts rows regions of es → SameByOwner new (with_field_of rows o k v)
        → Counts new regions (write_fields of o k v) es }
    ensures taken { (rows new : List CountedRow) (regions : List Region) (of : List Row) (es : List Edge) (o : ObjId) (k : Key)
        → Counts rows regions of es → SameByOwner new (without_field_of rows o k) → Counts new regions (take_fields of o k) es }
    ensures owners { (regions : List Region) (xs ys : List Row) (es : List Edge)
        → ((o : ObjId) → owner_in ys o ≡ owner_in xs o) → IsTableOf regions xs es → IsTableOf regions ys es }
{}

/// Where a row goes to which no edge leads and at which none begins, the store and the
/// table count the same edges of the other rows; a bridge goes with its region.
pub fn rows_without_edges_may_go()
    ensures row { (rows new : List CountedRow) (regions : List Region) (of : List Row) (es : List Edge) (o : ObjId)
        → Counts rows regions of es → NoEdgeOf es o → is_bridge of o ≡ false → SameByOwner new (without_row rows o)
        → Counts new regions (filter (λ r. not (same_name r.name o)) of) es }
    ensures bridge { (rows new : List CountedRow) (regions : List Region) (of : List Row) (es : List Edge) (o : ObjId)
        → Counts rows regions of es → NoEdgeOf es o → SameByOwner new (without_row rows o)
        → Counts new (without_region regions o) (filter (λ r. not (same_name r.name o)) of) es }
{}

/// What is found in the store and in the table: the state's rows with their owners and
/// fields, and a region for each row that lies in one.
pub fn rows_and_regions_are_found()
    ensures row { (rows : List CountedRow) (regions : List Region) (of : List Row) (es : List Edge) (o : ObjId)
        → Counts rows regions of es → row_at of o ≡ option_map (λ c. c.row) (row_named rows o) }
    ensures there { (rows : List CountedRow) (regions : List Region) (of : List Row) (es : List Edge) (o : ObjId)
        → Counts rows regions of es → is_some (row_named rows o) ≡ has_row of o }
    ensures owner { (rows : List CountedRow) (regions : List Region) (of : List Row) (es : List Edge) (o : ObjId)
        → Counts rows regions of es → owner_at rows o ≡ owner_in of o }
    ensures field { (rows : List CountedRow) (regions : List Region) (of : List Row) (es : List Edge) (o : ObjId) (k : Key)
        → Counts rows regions of es → field_value_at rows o k ≡ row_field (row_at of o) k }
    ensures region { (rows : List CountedRow) (regions : List Region) (of : List Row) (es : List Edge) (o r : ObjId)
        → Counts rows regions of es → HaveBridges of → owner_in of o ≡ Some (In r) → has_region regions r ≡ true }
{}

/// Where the store and the table count the near edges of a well-formed state, they count
/// all its edges: an edge of a frozen row leads to no mutable row.
pub fn near_edges_are_all()
    ensures { (rows : List CountedRow) (regions : List Region) (s : State) → WellFormed s
        → CountsOf rows regions s ↔ Counts rows regions s.rows (edges s) }
{}

/// What the counts say of the state: the edges to a row, the borrows of a region, and
/// whether it has an owner. By rising name the regions are the bridges of the state.
pub fn counts_tell()
    ensures refs { (rows : List CountedRow) (regions : List Region) (s : State) (o : ObjId) → WellFormed s
        → CountsOf rows regions s → HasRow rows o → refs_at rows o ≡ refs s o }
    ensures borrowed { (rows : List CountedRow) (regions : List Region) (s : State) (r : ObjId) → WellFormed s
        → CountsOf rows regions s → borrowed_of regions r ≡ borrowed s r }
    ensures owned { (rows : List CountedRow) (regions : List Region) (s : State) (r : ObjId) → WellFormed s
        → CountsOf rows regions s → is_bridge s.rows r ≡ true → owned_of regions r ≡ is_owned s r }
    ensures names { (rows : List CountedRow) (regions : List Region) (s : State) → WellFormed s
        → CountsOf rows regions s → InNameOrder regions → region_names regions ≡ bridges s }
{}

/// Where a new object or a new region gets its row, the store and the table count the
/// edges of the state with it. Its name is new to both.
pub fn new_rows_are_counted()
    ensures new { (rows : List CountedRow) (regions : List Region) (s : State) → WellFormed s → CountsOf rows regions s
        → IsNewName rows (next_object s) }
    ensures no_region { (rows : List CountedRow) (regions : List Region) (s : State) → WellFormed s
        → CountsOf rows regions s → has_region regions (next_object s) ≡ false }
    ensures none { (rows : List CountedRow) (regions : List Region) (birth : ℕ) (given : List Row) → rows ≡ [] → regions ≡ []
        → CountsOf rows regions (first_state birth given) }
    ensures object { (rows next : List CountedRow) (regions : List Region) (s : State) → WellFormed s
        → CountsOf rows regions s → SameByOwner next (with_new_row rows (next_object s) Local)
        → CountsOf next regions (object_result s) }
    ensures region { (rows next : List CountedRow) (regions : List Region) (s : State) → WellFormed s
        → CountsOf rows regions s → SameByOwner next (with_new_row rows (next_object s) (In (next_object s)))
        → CountsOf next (with_region regions (next_object s)) (region_result s) }
{}

/// A store and a table that say this of a well-formed state count its edges.
pub fn counts_are_told()
    ensures { (rows : List CountedRow) (regions : List Region) (s : State) → WellFormed s → AreRowsOf rows s.rows
        → ((o : ObjId) → HasRow rows o → refs_at rows o ≡ refs s o) → region_names regions ≡ bridges s
        → ((r : ObjId) → is_bridge s.rows r ≡ true → borrowed_of regions r ≡ borrowed s r)
        → ((r : ObjId) → is_bridge s.rows r ≡ true → owned_of regions r ≡ is_owned s r) → CountsOf rows regions s }
{}

/// From the counts of a well-formed state each of its near edges may be taken out, and
/// where they are few, one more may be counted.
pub fn domain_edges_may_be_counted()
    ensures near { (rows : List CountedRow) (regions : List Region) (s : State) → IsDomain rows regions s
        → MayCount rows regions s.rows (near_edges s) }
    ensures owner { (rows : List CountedRow) (regions : List Region) (s : State) (from : Source) (os : List ObjId)
        (home : Option ObjId) → IsDomain rows regions s → LiesIn s.rows from home → OnlyBridges s.rows os home
        → MayCountOwner rows regions s.rows (near_edges s) from os home }
    ensures near_out { (rows : List CountedRow) (regions : List Region) (s : State) (from : Source) (os : List ObjId)
        (fs : List Edge) → IsDomain rows regions s → SameEdges (near_edges s) (edges_by from os ++ fs)
        → is_borrower s.rows from ≡ true → MayUncount rows regions s.rows (near_edges s) fs from os }
    ensures owner_out { (rows : List CountedRow) (regions : List Region) (s : State) (from : Source) (os : List ObjId)
        (fs : List Edge) (home : Option ObjId) → IsDomain rows regions s
        → SameEdges (near_edges s) (edges_by from os ++ fs) → LiesIn s.rows from home
        → MayUncountOwner rows regions s.rows (near_edges s) fs from os home }
    ensures one_owner { (s : State) → WellFormed s → HasOneOwner s.rows (near_edges s) }
{}
