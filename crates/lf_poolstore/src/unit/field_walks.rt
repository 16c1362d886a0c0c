//! Fields of a row by their place, and one after the other.

ghost use Rattle.std.specs.Prelude.{◌≡◌, ◌<◌, Some, ℕ, length, slice_get};
ghost use Rattle.lf_base.specs.declared.ids.ObjId.{ObjId as Name};
ghost use Rattle.lf_base.specs.FieldOrder.{field_after, field_past};
ghost use Rattle.lf_graph.specs.StoredRows.{fields_at};
ghost use Rattle.lf_pool.specs.Cells.{node};
ghost use Rattle.lf_pool.specs.Pools.{IsLeft};
ghost use Rattle.lf_poolstore.specs.RowLists.{numbers};
ghost use Rattle.lf_poolstore.specs.Units.{StandsAt, items_in, pair_by};

use crate::unit::Unit;
use crate::unit::fields::cell_of;
use lf_base::{Key, Value};
use lf_pool::{CellPool, NONE};

// The cell after that of a key among the cells from one on, or `NONE`.
#[inline(always)]
fn cell_past(cells: &CellPool, first: u32, key: Key) -> u32
    requires { IsLeft cells.now (node first) (numbers cells.now first) }
    ensures field { pair_by cells.now (node result) ≡ field_past (items_in cells.now (numbers cells.now first)) key }
    ensures there { (x : ℕ) → node result ≡ Some x → x < length cells.now.cells }
{
    let cell = cell_of(cells, first, key);
    if cell == NONE {
        return NONE;
    }
    cells.behind(cell)
}

// The first of the cells from one on where no key is given, and else the one after that
// of the key, or `NONE`.
#[inline(always)]
fn cell_after(cells: &CellPool, first: u32, after: Option<Key>) -> u32
    requires { IsLeft cells.now (node first) (numbers cells.now first) }
    ensures field { pair_by cells.now (node result) ≡ field_after (items_in cells.now (numbers cells.now first)) after }
    ensures there { (x : ℕ) → node result ≡ Some x → x < length cells.now.cells }
{
    match after {
        Some(key) => cell_past(cells, first, key),
        None => first,
    }
}

// The field in a cell, and none in `NONE`.
#[inline(always)]
pub(super) fn pair_of(cells: &CellPool, cell: u32) -> Option<(Key, Value)>
    requires { (x : ℕ) → node cell ≡ Some x → x < length cells.now.cells }
    ensures { result ≡ pair_by cells.now (node cell) }
{
    if cell == NONE {
        return None;
    }
    Some(cells.pair(cell))
}

impl Unit {
    /// The first field of the row at a number where no key is given, and else the field
    /// after that of the key.
    #[inline(always)]
    pub fn field_after(&self, at: u32, after: Option<Key>) -> Option<(Key, Value)>
        requires { (o : Name) × StandsAt self.now at o }
        ensures { (o : Name) → StandsAt self.now at o → result ≡ field_after (fields_at self.now.rows o) after }
    {
        let cell = cell_after(&self.cells, self.rows.row(at).fields, after);
        pair_of(&self.cells, cell)
    }

    /// The field at a place of the fields of the row at a number, counted from 0.
    pub fn field_at(&self, at: u32, place: u32) -> Option<(Key, Value)>
        requires { (o : Name) × StandsAt self.now at o }
        ensures { (o : Name) → StandsAt self.now at o → result ≡ slice_get (fields_at self.now.rows o) place }
    {
        let cell = self.cells.cell_at(self.rows.row(at).fields, place);
        pair_of(&self.cells, cell)
    }
}
