//! Rows of a unit that come, go, and count edges.

ghost use Rattle.std.specs.Prelude.{◌≡◌, ◌≢◌, ℕ, List, length, ◌<◌, ◌≤◌, ◌+◌, ◌-◌, ◌^◌, None, OnOk, Some, if◌then◌else◌};
ghost use Rattle.lf_base.specs.declared.ids.ObjId.{ObjId as Name};
ghost use Rattle.lf_base.specs.Names.{same_name};
ghost use Rattle.lf_graph.specs.RowChanges.{lowered, raised, with_refs, with_new_row, without_row};
ghost use Rattle.lf_graph.specs.StoredRows.{CountedRow, IsNewName, refs_at};
ghost use Rattle.lf_pool.specs.Cells.{SameItems, node};
ghost use Rattle.lf_pool.specs.Pools.{Chain, IsLeft};
ghost use Rattle.lf_poolstore.specs.Units.{IsWhole, StandsAt, place_in};

use crate::unit::Unit;
use crate::unit_row::UnitRow;
use lf_base::{ObjId, OutOfMemory};
use lf_pool::{CellPool, NONE};

impl Unit {
    /// Makes room for so many cells. After `OutOfMemory` too all rows stay, and there is
    /// no less room.
    pub fn reserve(&mut self, cells: usize) -> Result<(), OutOfMemory>
        ensures owner { self.new.owner ≡ self.old.owner }
        ensures whole { IsWhole self.new }
        ensures rows { self.new.rows ≡ self.old.rows }
        ensures places { self.new.places ≡ self.old.places }
        ensures enough { OnOk result (cells ≤ self.new.spare) }
        ensures room { self.old.spare ≤ self.new.spare }
    {
        self.rows.reserve(cells)?;
        self.cells.reserve(cells)
    }

    /// Counts one edge more to the row at a number.
    #[inline(always)]
    pub fn add_ref(&mut self, at: u32)
        requires there { (o : Name) × StandsAt self.old at o × (refs_at self.old.rows o < 2 ^ 64 - 1) }
        ensures owner { self.new.owner ≡ self.old.owner }
        ensures whole { IsWhole self.new }
        ensures rows { (o : Name) → StandsAt self.old at o → self.new.rows ≡ raised self.old.rows o }
        ensures places { self.new.places ≡ self.old.places }
        ensures room { self.new.spare ≡ self.old.spare }
    {
        let row = self.rows.row(at);
        let refs = row.refs + 1;
        self.rows.set(at, UnitRow { refs, ..row });
    }

    /// Counts one edge less to the row at a number.
    #[inline(always)]
    pub fn sub_ref(&mut self, at: u32)
        requires there { (o : Name) × StandsAt self.old at o × (0 < refs_at self.old.rows o) }
        ensures owner { self.new.owner ≡ self.old.owner }
        ensures whole { IsWhole self.new }
        ensures rows { (o : Name) → StandsAt self.old at o → self.new.rows ≡ lowered self.old.rows o }
        ensures places { self.new.places ≡ self.old.places }
        ensures room { self.new.spare ≡ self.old.spare }
    {
        let row = self.rows.row(at);
        let refs = row.refs - 1;
        self.rows.set(at, UnitRow { refs, ..row });
    }

    /// Makes a row of a new name, last, without fields and with a count of 0, and gives
    /// its number.
    #[inline(always)]
    pub fn push(&mut self, o: ObjId) -> u32
        requires new { IsNewName self.old.rows o }
        requires room { 1 ≤ self.old.spare }
        ensures owner { self.new.owner ≡ self.old.owner }
        ensures whole { IsWhole self.new }
        ensures rows { self.new.rows ≡ with_new_row self.old.rows o self.old.owner }
        ensures places { (q : Name) → place_in self.new q ≡ (if same_name o q then Some result else place_in self.old q) }
        ensures room { self.old.spare ≤ self.new.spare + 1 }
    {
        self.rows.push(UnitRow::new(o, 0))
    }

    /// Drops the row at a number, with its fields.
    #[inline(always)]
    pub fn remove(&mut self, at: u32)
        requires there { (o : Name) × StandsAt self.old at o }
        ensures owner { self.new.owner ≡ self.old.owner }
        ensures whole { IsWhole self.new }
        ensures rows { (o : Name) → StandsAt self.old at o → self.new.rows ≡ without_row self.old.rows o }
        ensures places { (o : Name) → StandsAt self.old at o
            → (q : Name) → place_in self.new q ≡ (if same_name o q then None else place_in self.old q) }
        ensures room { self.old.spare ≤ self.new.spare }
    {
        let row = self.rows.row(at);
        give_fields(&mut self.cells, row.fields, row.width);
        self.rows.remove(at);
    }
}

// Gives the cells of a row back, where it has some.
#[inline(always)]
fn give_fields(cells: &mut CellPool, first: u32, width: u32)
    requires { (xs : List ℕ) × IsLeft cells.old (node first) xs × (length xs ≡ width) }
    ensures others { (d : ℕ) → (zs : List ℕ) → Chain cells.old d zs → node first ≢ Some d → Chain cells.new d zs }
    ensures items { SameItems cells.old.cells cells.new.cells }
    ensures room { cells.old.spare ≤ cells.new.spare }
{
    if first != NONE {
        cells.give_all(first, width);
    }
}
