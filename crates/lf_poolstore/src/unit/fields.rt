//! Fields of the rows of a unit.

ghost use Rattle.std.specs.Prelude.{◌≡◌, ◌≢◌, ◌<◌, ◌≤◌, ◌+◌, ◌++◌, ◌∷◌, [], List, None, Some, ℕ, eqb, false, length};
ghost use Rattle.lf_base.specs.declared.ids.ObjId.{ObjId as Name};
ghost use Rattle.lf_base.specs.Links.{has};
ghost use Rattle.lf_base.specs.WriteResult.{put_field};
ghost use Rattle.lf_pool.specs.Cells.{SameItems, node};
ghost use Rattle.lf_pool.specs.Fields.{first_with};
ghost use Rattle.lf_pool.specs.Pools.{Chain, IsLeft};
ghost use Rattle.lf_graph.specs.Room.{room_for_field};
ghost use Rattle.lf_graph.specs.RowChanges.{with_field_of, without_field_of};
ghost use Rattle.lf_graph.specs.StoredRows.{field_value_at};
ghost use Rattle.lf_poolstore.specs.Units.{IsWhole, KeepsFields, KeepsRow, StandsAt, Writes, fields_of, items_in};
ghost use Rattle.lf_poolstore.specs.RowLists.{numbers};
ghost use Rattle.lf_base.specs.TakeResult.{drop_field, field_at};

use crate::unit::Unit;
use crate::unit_row::UnitRow;
use lf_base::{Key, Value};
use lf_pool::{CellPool, NONE};

// The first of the cells from one on that has the key, or `NONE`.
#[inline(always)]
pub(super) fn cell_of(cells: &CellPool, first: u32, key: Key) -> u32
    requires { IsLeft cells.now (node first) (numbers cells.now first) }
    ensures { node result ≡ first_with cells.now.cells key (numbers cells.now first) }
{
    if first == NONE {
        return NONE;
    }
    cells.seek(first, key)
}

// The value of a key among the cells from one on.
#[inline(always)]
fn value_of(cells: &CellPool, first: u32, key: Key) -> Option<Value>
    requires { IsLeft cells.now (node first) (numbers cells.now first) }
    ensures { result ≡ field_at (items_in cells.now (numbers cells.now first)) key }
{
    let cell = cell_of(cells, first, key);
    if cell == NONE {
        return None;
    }
    Some(cells.pair(cell).1)
}

// Puts a cell that is a chain of its own at the end of a chain that may be empty, and gives
// the first cell.
#[inline(always)]
fn chained(cells: &mut CellPool, first: u32, cell: u32) -> u32
    requires list { IsLeft cells.old (node first) (numbers cells.old first) × (has eqb cell (numbers cells.old first) ≡ false) }
    requires alone { Chain cells.old cell (cell ∷ []) }
    requires number { node cell ≡ Some cell }
    ensures list { IsLeft cells.new (node result) (numbers cells.old first ++ cell ∷ []) }
    ensures others { (d : ℕ) → (zs : List ℕ) → Chain cells.old d zs → node first ≢ Some d → d ≢ cell → Chain cells.new d zs }
    ensures begins { (d : ℕ) → node result ≡ Some d → node first ≢ Some d → d ≡ cell }
    ensures items { SameItems cells.old.cells cells.new.cells }
    ensures size { length cells.new.cells ≡ length cells.old.cells }
    ensures room { cells.new.spare ≡ cells.old.spare }
{
    if first == NONE {
        return cell;
    }
    cells.push_last(first, cell);
    first
}

// Gives a row one field more, last: the row that is to be kept.
#[inline(always)]
pub(super) fn added(cells: &mut CellPool, row: UnitRow, key: Key, v: Value) -> UnitRow
    requires keeps { KeepsFields cells.old row }
    requires room { 0 < cells.old.spare }
    ensures row { KeepsRow row result }
    ensures written { Writes cells.old cells.new row result (fields_of cells.old row ++ (key, v) ∷ []) }
    ensures room { cells.old.spare ≡ cells.new.spare + 1 }
{
    let cell = cells.take(key, v);
    let fields = chained(cells, row.fields, cell);
    UnitRow {
        fields,
        width: row.width + 1,
        ..row
    }
}

// Replaces the value in a cell of a row.
#[inline(always)]
fn replaced(cells: &mut CellPool, row: UnitRow, cell: u32, key: Key, v: Value) -> Value
    requires keeps { KeepsFields cells.old row }
    requires found { first_with cells.old.cells key (numbers cells.old row.fields) ≡ Some cell }
    ensures value { Some result ≡ field_at (fields_of cells.old row) key }
    ensures written { Writes cells.old cells.new row row (put_field (fields_of cells.old row) key v) }
    ensures room { cells.new.spare ≡ cells.old.spare }
{
    let old = cells.pair(cell).1;
    cells.set(cell, v);
    old
}

// Takes a cell out of a row and gives it back: the row that is to be kept.
#[inline(always)]
fn dropped(cells: &mut CellPool, row: UnitRow, cell: u32, key: Key) -> UnitRow
    requires keeps { KeepsFields cells.old row }
    requires found { first_with cells.old.cells key (numbers cells.old row.fields) ≡ Some cell }
    ensures row { KeepsRow row result }
    ensures written { Writes cells.old cells.new row result (drop_field (fields_of cells.old row) key) }
    ensures room { cells.old.spare ≤ cells.new.spare }
{
    let fields = cells.part(row.fields, cell);
    cells.give(cell);
    UnitRow {
        fields,
        width: row.width - 1,
        ..row
    }
}

impl Unit {
    /// The value of a field of the row at a number, where the row has it.
    #[inline(always)]
    pub fn field(&self, at: u32, key: Key) -> Option<Value>
        requires { (o : Name) × StandsAt self.now at o }
        ensures { (o : Name) → StandsAt self.now at o → result ≡ field_value_at self.now.rows o key }
    {
        value_of(&self.cells, self.rows.row(at).fields, key)
    }

    /// Sets a field of the row at a number, in its place where the row has it, and else
    /// last, and gives the old value.
    #[inline(always)]
    pub fn set_field(&mut self, at: u32, key: Key, v: Value) -> Option<Value>
        requires there { (o : Name) × StandsAt self.old at o × (room_for_field self.old.rows o key ≤ self.old.spare) }
        ensures owner { self.new.owner ≡ self.old.owner }
        ensures whole { IsWhole self.new }
        ensures value { (o : Name) → StandsAt self.old at o → result ≡ field_value_at self.old.rows o key }
        ensures rows { (o : Name) → StandsAt self.old at o → self.new.rows ≡ with_field_of self.old.rows o key v }
        ensures places { self.new.places ≡ self.old.places }
        ensures room { (o : Name) → StandsAt self.old at o → self.old.spare ≤ self.new.spare + room_for_field self.old.rows o key }
    {
        let row = self.rows.row(at);
        let cell = cell_of(&self.cells, row.fields, key);
        if cell == NONE {
            let now = added(&mut self.cells, row, key, v);
            self.rows.set(at, now);
            return None;
        }
        Some(replaced(&mut self.cells, row, cell, key, v))
    }

    /// Takes a field out of the row at a number and gives its value, where the row has it.
    #[inline(always)]
    pub fn take_field(&mut self, at: u32, key: Key) -> Option<Value>
        requires there { (o : Name) × StandsAt self.old at o }
        ensures owner { self.new.owner ≡ self.old.owner }
        ensures whole { IsWhole self.new }
        ensures value { (o : Name) → StandsAt self.old at o → result ≡ field_value_at self.old.rows o key }
        ensures rows { (o : Name) → StandsAt self.old at o → self.new.rows ≡ without_field_of self.old.rows o key }
        ensures places { self.new.places ≡ self.old.places }
        ensures room { self.old.spare ≤ self.new.spare }
    {
        let row = self.rows.row(at);
        let cell = cell_of(&self.cells, row.fields, key);
        if cell == NONE {
            return None;
        }
        let value = self.cells.pair(cell).1;
        let now = dropped(&mut self.cells, row, cell, key);
        self.rows.set(at, now);
        Some(value)
    }
}
