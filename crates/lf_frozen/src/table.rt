ghost use Rattle.std.specs.Prelude.{◌≡◌, ◌≤◌, ◌++◌, List, length, map, OnOk, IfOk};
ghost use Rattle.std.specs.Arc.{arc_value};
ghost use Rattle.std.specs.List.{All};
ghost use Rattle.std.specs.Option.{option_copied};
ghost use Rattle.lf_frozen.specs.declared.row.FrozenRow.{FrozenRow};
ghost use Rattle.lf_frozen.specs.Entries.{EntriesRise, IsPlace, IsPlaceAfter, LeadsToRow, is_passed, row_behind};
ghost use Rattle.lf_frozen.specs.FrozenRows.{RiseByName, frozen_at, next_frozen};

use crate::entry::RowEntry;
use crate::row::{FrozenRow, FrozenRows};
use lf_base::{ObjId, OutOfMemory};
use std::alloc::Global;
use std::marker::Model;
use std::sync::Arc;

// Rows by rising name. Contracts see the list of them. The entries lead to the rows of the
// table's own batch, and to those of older ones.
#[derive(Drop)]
pub(crate) struct Table {
    entries: Arc<Vec<RowEntry>, Global>,
    batch: Arc<FrozenRows, Global>,
}

impl Model for Table {
    ghost use Rattle.std.specs.Prelude.{List, map};
    ghost use Rattle.std.specs.Arc.{arc_value};
    ghost use Rattle.std.specs.List.{All};
    ghost use Rattle.lf_frozen.specs.declared.row.FrozenRow.{FrozenRow};
    ghost use Rattle.lf_frozen.specs.Entries.{EntriesRise, LeadsToRow, row_behind};

    ghost Value = { List FrozenRow };

    ghost view = { λ table. map (row_behind (arc_value table.batch)) (arc_value table.entries).items };

    ghost invariant = { λ table. All (LeadsToRow (arc_value table.batch)) (arc_value table.entries).items
        × EntriesRise (arc_value table.entries).items };
}

// Whether a search for a name passes that one.
fn passes(o: ObjId, equal: bool, name: ObjId) -> bool
    ensures { result ≡ is_passed o equal name }
{
    if equal {
        !o.is_below(name)
    } else {
        name.is_below(o)
    }
}

// Where the first entry stands that a search for a name doesn't pass: it passes lesser names and,
// if it is told to, an equal one.
fn place(entries: &[RowEntry], o: ObjId, equal: bool) -> usize
    requires { EntriesRise entries.now }
    ensures within { result ≤ length entries.now }
    ensures place { IsPlace o equal entries.now result }
{
    entries.partition_point(
        move |entry: &RowEntry| -> bool
            ensures { result ≡ is_passed o equal entry.now.name }
        { passes(o, equal, entry.name) },
    )
}

// Where the first entry stands whose name is above the given one.
fn place_after(entries: &[RowEntry], after: Option<ObjId>) -> usize
    requires { EntriesRise entries.now }
    ensures within { result ≤ length entries.now }
    ensures place { IsPlaceAfter after entries.now result }
{
    match after {
        Some(name) => place(entries, name, true),
        None => 0,
    }
}

impl Table {
    // The table of a batch, whose entries lead to its rows and to older ones.
    pub(crate) fn of(entries: Arc<Vec<RowEntry>, Global>, batch: Arc<FrozenRows, Global>) -> Table
        requires leads { All (LeadsToRow (arc_value batch)) (arc_value entries).items }
        requires rising { EntriesRise (arc_value entries).items }
        ensures { result ≡ map (row_behind (arc_value batch)) (arc_value entries).items }
    {
        Table { entries, batch }
    }

    // The number of rows.
    pub(crate) fn len(&self) -> usize
        ensures { result ≡ length self.now }
    {
        self.entries.len()
    }

    // The same rows by the same entries.
    pub(crate) fn share(&self) -> Result<Table, OutOfMemory>
        ensures { IfOk result (λ table. table ≡ self.now) }
    {
        Ok(Table {
            entries: self.entries.clone()?,
            batch: self.batch.clone()?,
        })
    }

    // The row of a name. None exactly where there is none.
    pub(crate) fn get(&self, o: ObjId) -> Option<&FrozenRow>
        ensures { option_copied result ≡ frozen_at self.now o }
    {
        let at = place(&self.entries, o, false);
        match self.entries.get(at) {
            Some(entry) if entry.name.is_same(o) => Some(entry.row(&self.batch)),
            _ => None,
        }
    }

    // The row of the least name, or of the least name above the given one.
    pub(crate) fn next_above(&self, after: Option<ObjId>) -> Option<&FrozenRow>
        ensures next { option_copied result ≡ next_frozen self.now after }
        ensures rising { RiseByName self.now }
    {
        let at = place_after(&self.entries, after);
        match self.entries.get(at) {
            Some(entry) => Some(entry.row(&self.batch)),
            None => None,
        }
    }

    // Adds the entries of the rows to those of a further table.
    pub(crate) fn add_to(&self, entries: &mut Vec<RowEntry>) -> Result<(), OutOfMemory>
        ensures rows { (own : List FrozenRow)
            → OnOk result (map (row_behind own) entries.new.items ≡ map (row_behind own) entries.old.items ++ self.now) }
        ensures leads { (own : List FrozenRow) → All (LeadsToRow own) entries.old.items → OnOk result (All (LeadsToRow own) entries.new.items) }
    {
        for entry in self.entries.iter() {
            entries.push(entry.moved(&self.batch)?)?;
        }
        Ok(())
    }
}
