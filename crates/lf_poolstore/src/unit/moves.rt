//! Rows that change their place.

ghost use Rattle.std.specs.Prelude.{◌≡◌, ◌≤◌, ◌+◌, ◌++◌, ◌∷◌, [], None, Some, IfSome, if◌then◌else◌, length, option_to_list};
ghost use Rattle.lf_base.specs.declared.ids.ObjId.{ObjId as Name};
ghost use Rattle.lf_base.specs.Names.{same_name};
ghost use Rattle.lf_graph.specs.Room.{room_for_row};
ghost use Rattle.lf_graph.specs.RowChanges.{moved_last, moved_under, without_row};
ghost use Rattle.lf_graph.specs.StoredRows.{IsNewName, row_named};
ghost use Rattle.lf_poolstore.specs.UnitRows.{bare};
ghost use Rattle.lf_poolstore.specs.Units.{IsWhole, KeepsFields, KeepsRow, StandsAt, Writes, fields_of, place_in};
ghost use Rattle.lf_poolstore.specs.NarrowRows.{narrow_row};

use crate::narrow_row::NarrowRow;
use crate::unit::Unit;
use crate::unit::field_walks::pair_of;
use crate::unit::fields::added;
use crate::unit_row::UnitRow;
use lf_base::{Key, ObjId, Value};
use lf_pool::CellPool;

// Copies the fields of a row from other cells: the row that is to be kept.
fn copied(cells: &mut CellPool, from: &CellPool, row: UnitRow) -> UnitRow
    requires keeps { KeepsFields from.now row }
    requires room { row.width ≤ cells.old.spare }
    ensures row { KeepsRow row result }
    ensures written { Writes cells.old cells.new (bare row) result (fields_of from.now row) }
    ensures room { cells.old.spare ≡ cells.new.spare + row.width }
{
    let mut now = UnitRow::new(row.name, row.refs);
    let mut cell = row.fields;
    for _step in 0..row.width {
        let (key, value) = from.pair(cell);
        now = added(cells, now, key, value);
        cell = from.behind(cell);
    }
    now
}

// Makes a row with one field or none: the row that is to be kept.
#[inline(always)]
fn seeded(cells: &mut CellPool, name: ObjId, refs: u64, field: Option<(Key, Value)>) -> UnitRow
    requires room { length (option_to_list field) ≤ cells.old.spare }
    ensures name { result.name ≡ name }
    ensures refs { result.refs ≡ refs }
    ensures written { Writes cells.old cells.new (bare result) result (option_to_list field) }
    ensures room { cells.old.spare ≡ cells.new.spare + length (option_to_list field) }
{
    let row = UnitRow::new(name, refs);
    match field {
        Some((key, value)) => added(cells, row, key, value),
        None => row,
    }
}

impl Unit {
    /// The row at a number, where it has at most one field.
    #[inline(always)]
    pub fn narrow(&self, at: u32) -> Option<NarrowRow>
        requires there { (o : Name) × StandsAt self.now at o }
        ensures name { (o : Name) → StandsAt self.now at o → IfSome result (λ n. n.name ≡ o) }
        ensures row { (o : Name) → StandsAt self.now at o → IfSome result (λ n. row_named self.now.rows o ≡ Some (narrow_row self.now.owner n)) }
    {
        let row = self.rows.row(at);
        if row.width > 1 {
            return None;
        }
        Some(NarrowRow {
            name: row.name,
            refs: row.refs,
            field: pair_of(&self.cells, row.fields),
        })
    }

    /// Puts a row of a new name last, with at most one field, and gives its number.
    #[inline(always)]
    pub fn push_narrow(&mut self, row: NarrowRow) -> u32
        requires new { IsNewName self.old.rows row.name }
        requires room { 1 + length (option_to_list row.field) ≤ self.old.spare }
        ensures owner { self.new.owner ≡ self.old.owner }
        ensures whole { IsWhole self.new }
        ensures rows { self.new.rows ≡ self.old.rows ++ narrow_row self.old.owner row ∷ [] }
        ensures places { (q : Name) → place_in self.new q ≡ (if same_name row.name q then Some result else place_in self.old q) }
        ensures room { self.old.spare ≤ self.new.spare + (1 + length (option_to_list row.field)) }
    {
        let now = seeded(&mut self.cells, row.name, row.refs, row.field);
        self.rows.push(now)
    }

    /// Lets the row at a number come last.
    pub fn move_last(&mut self, at: u32)
        requires there { (o : Name) × StandsAt self.old at o }
        ensures owner { self.new.owner ≡ self.old.owner }
        ensures whole { IsWhole self.new }
        ensures rows { (o : Name) → StandsAt self.old at o → self.new.rows ≡ moved_last self.old.rows o self.old.owner }
        ensures places { (q : Name) → place_in self.new q ≡ place_in self.old q }
        ensures room { self.new.spare ≡ self.old.spare }
    {
        self.rows.move_last(at);
    }

    /// Takes the row at a number out of another unit: it comes last here, with its fields
    /// and its count. Gives its number here.
    pub fn take_from(&mut self, other: &mut Unit, at: u32) -> u32
        requires there { (o : Name) × StandsAt other.old at o × IsNewName self.old.rows o × (room_for_row other.old.rows o ≤ self.old.spare) }
        ensures owner { self.new.owner ≡ self.old.owner }
        ensures whole { IsWhole self.new }
        ensures rows { (o : Name) → StandsAt other.old at o → self.new.rows ≡ self.old.rows ++ moved_under self.old.owner (row_named other.old.rows o) }
        ensures places { (o : Name) → StandsAt other.old at o
            → (q : Name) → place_in self.new q ≡ (if same_name o q then Some result else place_in self.old q) }
        ensures room { (o : Name) → StandsAt other.old at o → self.old.spare ≤ self.new.spare + room_for_row other.old.rows o }
        ensures other_owner { other.new.owner ≡ other.old.owner }
        ensures other_whole { IsWhole other.new }
        ensures other_rows { (o : Name) → StandsAt other.old at o → other.new.rows ≡ without_row other.old.rows o }
        ensures other_places { (o : Name) → StandsAt other.old at o
            → (q : Name) → place_in other.new q ≡ (if same_name o q then None else place_in other.old q) }
        ensures other_room { other.old.spare ≤ other.new.spare }
    {
        let now = copied(&mut self.cells, &other.cells, other.rows.row(at));
        let number = self.rows.push(now);
        other.remove(at);
        number
    }
}
