//! What callers need of the rows of a store, whatever keeps them. Each function has
//! an empty body; its clauses are the law.

ghost use Rattle.std.specs.Prelude.{◌≡◌, ◌+◌, ◌-◌, ◌++◌, ◌∷◌, [], List, None, Option, Some, filter, map, not, if◌then◌else◌};
ghost use Rattle.std.specs.Option.{option_map};
ghost use Rattle.lf_base.specs.declared.ids.ObjId.{ObjId};
ghost use Rattle.lf_base.specs.declared.values.Key.{Key};
ghost use Rattle.lf_base.specs.declared.values.Owner.{Owner};
ghost use Rattle.lf_base.specs.declared.values.Value.{Value};
ghost use Rattle.lf_base.specs.FieldOrder.{field_after};
ghost use Rattle.lf_base.specs.FreezeResult.{insert_rows};
ghost use Rattle.lf_base.specs.Links.{head_or};
ghost use Rattle.lf_base.specs.Names.{same_key, same_name, same_owner};
ghost use Rattle.lf_base.specs.Owners.{has_name, row_at};
ghost use Rattle.lf_base.specs.PlainChanges.{insert_row};
ghost use Rattle.lf_base.specs.PlainState.{Row};
ghost use Rattle.lf_base.specs.Sets.{Differ, Member};
ghost use Rattle.lf_base.specs.TakeResult.{drop_field, take_fields};
ghost use Rattle.lf_base.specs.WriteResult.{put_field, relabel, write_fields};
ghost use Rattle.lf_graph.specs.Parts.{AllNew};
ghost use Rattle.lf_graph.specs.RowChanges.{lowered, moved_last, moved_rows, new_row, raised, with_field_of, with_fields};
ghost use Rattle.lf_graph.specs.RowChanges.{with_new_row, with_owner, with_refs, without_field_of, without_row, without_rows};
ghost use Rattle.lf_graph.specs.RowOrder.{SameOrder};
ghost use Rattle.lf_graph.specs.StoredRows.{AreRowsOf, CountedRow, HasRow, IsNewName, NamesDiffer, SameByOwner, first_name};
ghost use Rattle.lf_graph.specs.StoredRows.{name_after, plain, row_named, rows_beside, rows_by_name, rows_of, rows_outside};

/// Where each owner has the same rows, the same are found by name, names differ in
/// both or in none, and by rising name the rows are the same list.
pub fn same_rows()
    ensures found { (xs ys : List CountedRow) (o : ObjId) → SameByOwner xs ys → NamesDiffer xs → row_named xs o ≡ row_named ys o }
    ensures differ { (xs ys : List CountedRow) → SameByOwner xs ys → NamesDiffer xs → NamesDiffer ys }
    ensures in_order { (xs ys : List CountedRow) → SameByOwner xs ys → NamesDiffer xs → rows_by_name (plain xs) ≡ rows_by_name (plain ys) }
{}

/// Of the same rows each call makes the same rows.
pub fn same_changes()
    ensures with_field { (xs ys : List CountedRow) (o : ObjId) (k : Key) (v : Value) → SameByOwner xs ys
        → SameByOwner (with_field_of xs o k v) (with_field_of ys o k v) }
    ensures without_field { (xs ys : List CountedRow) (o : ObjId) (k : Key) → SameByOwner xs ys
        → SameByOwner (without_field_of xs o k) (without_field_of ys o k) }
    ensures raised { (xs ys : List CountedRow) (o : ObjId) → SameByOwner xs ys → SameByOwner (raised xs o) (raised ys o) }
    ensures lowered { (xs ys : List CountedRow) (o : ObjId) → SameByOwner xs ys → SameByOwner (lowered xs o) (lowered ys o) }
    ensures with_row { (xs ys : List CountedRow) (o : ObjId) (w : Owner) → SameByOwner xs ys
        → SameByOwner (with_new_row xs o w) (with_new_row ys o w) }
    ensures without_row { (xs ys : List CountedRow) (o : ObjId) → SameByOwner xs ys → SameByOwner (without_row xs o) (without_row ys o) }
    ensures moved_last { (xs ys : List CountedRow) (o : ObjId) (w : Owner) → SameByOwner xs ys → NamesDiffer xs
        → SameByOwner (moved_last xs o w) (moved_last ys o w) }
    ensures outside { (xs ys : List CountedRow) (w : Owner) → SameByOwner xs ys → SameByOwner (rows_outside w xs) (rows_outside w ys) }
    ensures with_part { (xs ys part : List CountedRow) → SameByOwner xs ys → SameByOwner (xs ++ part) (ys ++ part) }
{}

/// What each call changes of the row that it names, and that other rows stay.
pub fn rows_found()
    ensures with_field { (rows : List CountedRow) (o : ObjId) (k : Key) (v : Value) (q : ObjId)
        → row_named (with_field_of rows o k v) q
        ≡ (if same_name q o then option_map (λ c. with_fields (put_field (c.row).fields k v) c) (row_named rows q) else row_named rows q) }
    ensures without_field { (rows : List CountedRow) (o : ObjId) (k : Key) (q : ObjId)
        → row_named (without_field_of rows o k) q
        ≡ (if same_name q o then option_map (λ c. with_fields (drop_field (c.row).fields k) c) (row_named rows q) else row_named rows q) }
    ensures raised { (rows : List CountedRow) (o q : ObjId)
        → row_named (raised rows o) q
        ≡ (if same_name q o then option_map (λ c. with_refs (c.refs + 1) c) (row_named rows q) else row_named rows q) }
    ensures lowered { (rows : List CountedRow) (o q : ObjId)
        → row_named (lowered rows o) q
        ≡ (if same_name q o then option_map (λ c. with_refs (c.refs - 1) c) (row_named rows q) else row_named rows q) }
    ensures with_row { (rows : List CountedRow) (o : ObjId) (w : Owner) (q : ObjId) → IsNewName rows o
        → row_named (with_new_row rows o w) q ≡ (if same_name q o then Some (new_row o w) else row_named rows q) }
    ensures without_row { (rows : List CountedRow) (o q : ObjId)
        → row_named (without_row rows o) q ≡ (if same_name q o then None else row_named rows q) }
    ensures moved_last { (rows : List CountedRow) (o : ObjId) (w : Owner) (q : ObjId)
        → row_named (moved_last rows o w) q ≡ (if same_name q o then option_map (with_owner w) (row_named rows q) else row_named rows q) }
{}

/// What each call makes of the rows of the state whose store it is.
pub fn state_rows()
    ensures with_field { (rows new : List CountedRow) (of : List Row) (o : ObjId) (k : Key) (v : Value) → AreRowsOf rows of
        → SameByOwner new (with_field_of rows o k v) → AreRowsOf new (write_fields of o k v) }
    ensures without_field { (rows new : List CountedRow) (of : List Row) (o : ObjId) (k : Key) → AreRowsOf rows of
        → SameByOwner new (without_field_of rows o k) → AreRowsOf new (take_fields of o k) }
    ensures raised { (rows new : List CountedRow) (of : List Row) (o : ObjId) → AreRowsOf rows of → SameByOwner new (raised rows o)
        → AreRowsOf new of }
    ensures lowered { (rows new : List CountedRow) (of : List Row) (o : ObjId) → AreRowsOf rows of → SameByOwner new (lowered rows o)
        → AreRowsOf new of }
    ensures unchanged { (rows new : List CountedRow) (of : List Row) → AreRowsOf rows of → SameByOwner new rows → AreRowsOf new of }
    ensures with_row { (rows new : List CountedRow) (of : List Row) (o : ObjId) (w : Owner) → AreRowsOf rows of → IsNewName rows o
        → SameByOwner new (with_new_row rows o w) → AreRowsOf new (insert_row (new_row o w).row of) }
    ensures without_row { (rows new : List CountedRow) (of : List Row) (o : ObjId) → AreRowsOf rows of
        → SameByOwner new (without_row rows o) → AreRowsOf new (filter (λ r. not (same_name r.name o)) of) }
    ensures moved_last { (rows new : List CountedRow) (of : List Row) (o : ObjId) (w : Owner) → AreRowsOf rows of
        → SameByOwner new (moved_last rows o w) → AreRowsOf new (relabel of (o ∷ []) w) }
    ensures outside { (rows new : List CountedRow) (of : List Row) (w : Owner) → AreRowsOf rows of → SameByOwner new (rows_outside w rows)
        → AreRowsOf new (filter (λ r. not (same_owner r.owner w)) of) }
    ensures with_part { (rows new part : List CountedRow) (of : List Row) → AreRowsOf rows of → NamesDiffer part → AllNew part rows
        → SameByOwner new (rows ++ part) → AreRowsOf new (insert_rows (plain part) of) }
{}

/// Rows that are dropped, or given to an owner, one after the other by a list of names:
/// what that makes of the rows, and of those of the state whose store it is, at once.
pub fn row_lists()
    ensures dropped { (rows : List CountedRow) (os : List ObjId)
        → without_rows rows os ≡ filter (λ c. not (has_name os (c.row).name)) rows }
    ensures same_dropped { (xs ys : List CountedRow) (os : List ObjId) → SameByOwner xs ys
        → SameByOwner (without_rows xs os) (without_rows ys os) }
    ensures same_moved { (xs ys : List CountedRow) (os : List ObjId) (w : Owner) → SameByOwner xs ys → NamesDiffer xs
        → SameByOwner (moved_rows xs os w) (moved_rows ys os w) }
    ensures state_dropped { (rows new : List CountedRow) (of : List Row) (os : List ObjId) → AreRowsOf rows of
        → SameByOwner new (without_rows rows os) → AreRowsOf new (filter (λ r. not (has_name os r.name)) of) }
    ensures state_moved { (rows new : List CountedRow) (of : List Row) (os : List ObjId) (w : Owner) → AreRowsOf rows of
        → SameByOwner new (moved_rows rows os w) → AreRowsOf new (relabel of os w) }
{}

/// A field that is taken out, and an edge that is counted less, leave the rows of each
/// owner in their order.
pub fn rows_stay_in_order()
    ensures field { (rows new : List CountedRow) (o : ObjId) (k : Key) → SameByOwner new (without_field_of rows o k) → SameOrder new rows }
    ensures count { (rows new : List CountedRow) (o : ObjId) → SameByOwner new (lowered rows o) → SameOrder new rows }
{}

/// What is found by name in a store is the state's row, and an owner's rows are those
/// of the state that have that owner.
pub fn state_found()
    ensures found { (rows : List CountedRow) (of : List Row) (o : ObjId) → AreRowsOf rows of
        → row_at of o ≡ option_map (λ c. c.row) (row_named rows o) }
    ensures under { (rows : List CountedRow) (of : List Row) (w : Owner) → AreRowsOf rows of
        → rows_by_name (plain (rows_of w rows)) ≡ filter (λ r. same_owner r.owner w) of }
{}

/// A walk by `field_after` goes through a row's fields in their order, where no key
/// comes twice.
pub fn field_walks()
    ensures next { (before after : List (Key × Value)) (f : Key × Value) → Differ same_key (map (λ g. g.0) (before ++ f ∷ after))
        → field_after (before ++ f ∷ after) (Some f.0) ≡ head_or after None }
    ensures there { (fields : List (Key × Value)) (after : Option Key) (f : Key × Value) → field_after fields after ≡ Some f
        → Member f fields }
{}

/// A walk by `first` and `next` goes through an owner's rows in their order, and where
/// a region's rows went out and came back, each owner has what it had.
pub fn walks_and_parts()
    ensures first_is_there { (rows : List CountedRow) (w : Owner) (o : ObjId) → first_name (rows_of w rows) ≡ Some o → HasRow rows o }
    ensures next { (rows before after : List CountedRow) (w : Owner) (c : CountedRow) → NamesDiffer rows
        → rows_of w rows ≡ before ++ c ∷ after → name_after (rows_beside rows (c.row).name) (c.row).name ≡ first_name after }
    ensures part_differs { (rows : List CountedRow) (w : Owner) → NamesDiffer rows → NamesDiffer (rows_of w rows) }
    ensures part_is_new { (rows rest : List CountedRow) (w : Owner) → NamesDiffer rows → SameByOwner rest (rows_outside w rows)
        → AllNew (rows_of w rows) rest }
    ensures none_left { (rows rest : List CountedRow) (w : Owner) → SameByOwner rest (rows_outside w rows) → rows_of w rest ≡ [] }
    ensures round { (rows : List CountedRow) (w : Owner) → SameByOwner (rows_outside w rows ++ rows_of w rows) rows }
{}
