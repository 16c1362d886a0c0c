//! What was proved of lists of frozen rows by rising name. Each function has an empty
//! body; its clauses are the law.

ghost use Rattle.std.specs.Prelude.{◌≡◌, ◌||◌, ◌↔◌, ◌⊎◌, List, None, Option, Some, false, map, true};
ghost use Rattle.lf_base.specs.declared.ids.ObjId.{ObjId};
ghost use Rattle.lf_base.specs.FreezeResult.{insert_rows};
ghost use Rattle.lf_base.specs.Names.{name_below};
ghost use Rattle.lf_base.specs.Sets.{Member};
ghost use Rattle.lf_frozen.specs.declared.row.FrozenRow.{FrozenRow};
ghost use Rattle.lf_frozen.specs.FrozenRows.{FrozenNamesDiffer, RiseByName, as_row, comes_after, frozen_at, has_frozen_row};
ghost use Rattle.lf_frozen.specs.FrozenRows.{next_frozen, with_all_frozen};

/// What is found is in the list and has the name, and each row of a list that rises is
/// found. Nothing is found exactly where the name isn't there.
pub fn frozen_rows_are_found()
    ensures found { (rows : List FrozenRow) (o : ObjId) (row : FrozenRow) → frozen_at rows o ≡ Some row
        → Member row rows × (row.id ≡ o) }
    ensures each { (rows : List FrozenRow) (row : FrozenRow) → RiseByName rows → Member row rows
        → frozen_at rows row.id ≡ Some row }
    ensures none { (rows : List FrozenRow) (o : ObjId) → (frozen_at rows o ≡ None) ↔ (has_frozen_row rows o ≡ false) }
{}

/// What rows are there after rows were added, and that their list rises. As rows of a
/// state they are put in as a freeze puts in its own.
pub fn frozen_rows_are_added()
    ensures rows { (more rows : List FrozenRow) (row : FrozenRow)
        → Member row (with_all_frozen more rows) ↔ (Member row more ⊎ Member row rows) }
    ensures names { (more rows : List FrozenRow) (o : ObjId)
        → has_frozen_row (with_all_frozen more rows) o ≡ (has_frozen_row more o || has_frozen_row rows o) }
    ensures rising { (more rows : List FrozenRow) → FrozenNamesDiffer more
        → ((row : FrozenRow) → Member row more → has_frozen_row rows row.id ≡ false) → RiseByName rows
        → RiseByName (with_all_frozen more rows) }
    ensures as_state { (more rows : List FrozenRow)
        → map as_row (with_all_frozen more rows) ≡ insert_rows (map as_row more) (map as_row rows) }
{}

/// The next row is that of the least name above the given one, and there is none exactly
/// where no name is above that.
pub fn next_frozen_is_least()
    ensures there { (rows : List FrozenRow) (after : Option ObjId) (row : FrozenRow) → next_frozen rows after ≡ Some row
        → Member row rows × (comes_after after row.id ≡ true) }
    ensures least { (rows : List FrozenRow) (after : Option ObjId) (row other : FrozenRow) → RiseByName rows
        → next_frozen rows after ≡ Some row → Member other rows → comes_after after other.id ≡ true
        → name_below other.id row.id ≡ false }
    ensures none { (rows : List FrozenRow) (after : Option ObjId)
        → (next_frozen rows after ≡ None) ↔ ((row : FrozenRow) → Member row rows → comes_after after row.id ≡ false) }
{}
