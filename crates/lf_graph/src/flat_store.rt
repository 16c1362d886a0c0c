//! A store whose rows are linked under their owners, and whose fields are linked in their
//! rows, in one table of rows and one of fields.

ghost use Rattle.std.specs.Prelude.{◌≡◌, ◌+◌, ◌≤◌, ◌++◌, ◌∷◌, [], None, IfSome, IsSome, OnOk, length, map};
ghost use Rattle.lf_graph.specs.FlatParts.{IsPart, IsPartRow, part_row, rows_cells};
ghost use Rattle.lf_graph.specs.Parts.{AllNew};
ghost use Rattle.lf_graph.specs.RowChanges.{with_field_of, without_row, without_rows};
ghost use Rattle.lf_graph.specs.StoredRows.{HasRow, IsNewName, SameByOwner, field_value_at};

use crate::cells::{Cells, FieldEnds};
use crate::chains::Chains;
use crate::flat_part::{FlatPart, PartRow};
use crate::store::{RowHead, Store};
use crate::stored_row::StoredRow;
use lf_base::{Key, ObjId, OutOfMemory, Owner, Steps, Value};
use std::alloc::Global;
use std::marker::Model;
use std::sync::ledger::Ledger;

/// The rows of all owners in one table, and the fields of all rows in another one.
#[derive(Drop)]
pub struct FlatStore {
    chains: Chains,
    cells: Cells,
    alloc: Global,
}

impl Model for FlatStore {
    ghost use Rattle.lf_graph.specs.FlatRows.{IsFlat, StoreView, flat_room, flat_rows};

    ghost Value = { StoreView };

    ghost view = { λ store. record { rows = flat_rows store.chains store.cells; spare = flat_room store.chains store.cells } };

    ghost invariant = { λ store. IsFlat store.chains store.cells };
}

impl FlatStore {
    // Gives a row a field that it hasn't.
    fn add_field(&mut self, o: ObjId, key: Key, v: Value)
        requires there { HasRow self.old.rows o }
        requires new { field_value_at self.old.rows o key ≡ None }
        requires room { 1 ≤ self.old.spare }
        ensures rows { SameByOwner self.new.rows (with_field_of self.old.rows o key v) }
        ensures room { self.old.spare ≤ self.new.spare + 1 }
    {
        let place = self.chains.place(o);
        let before = self.chains.at(place).fields;
        let fields = self.cells.push_last(o, before, key, v);
        self.chains.set_fields(place, fields);
    }

    // Takes a row out with its fields.
    fn drop_row(&mut self, o: ObjId)
        requires there { HasRow self.old.rows o }
        ensures rows { SameByOwner self.new.rows (without_row self.old.rows o) }
        ensures room { self.old.spare ≤ self.new.spare }
    {
        let row = self.chains.unlink(o);
        self.cells.clear(o, row.fields);
    }

    // Takes a row out with its fields, where there is one of that name.
    fn drop_if_there(&mut self, o: ObjId)
        ensures rows { SameByOwner self.new.rows (without_row self.old.rows o) }
        ensures room { self.old.spare ≤ self.new.spare }
    {
        if let Some(_row) = self.chains.get(o) {
            self.drop_row(o);
        }
    }
}

impl FlatStore {
    // Puts a row last under its region, with its fields.
    fn put_row(&mut self, region: ObjId, row: &PartRow)
        requires part { IsPartRow row.now }
        requires new { IsNewName self.old.rows row.now.name }
        requires room { 1 + length row.now.fields ≤ self.old.spare }
        ensures rows { SameByOwner self.new.rows (self.old.rows ++ part_row region row.now ∷ []) }
        ensures room { self.old.spare ≤ self.new.spare + (1 + length row.now.fields) }
    {
        let fields = self.cells.put_all(row.name, row.fields.as_slice());
        self.chains.push_last(StoredRow {
            name: row.name,
            owner: Owner::In(region),
            refs: row.refs,
            fields,
        });
    }

    // Puts rows last under their region, in their order.
    fn put_rows(&mut self, region: ObjId, rows: &[PartRow])
        requires part { IsPart rows.now }
        requires new { AllNew (map (part_row region) rows.now) self.old.rows }
        requires room { rows_cells rows.now ≤ self.old.spare }
        ensures { SameByOwner self.new.rows (self.old.rows ++ map (part_row region) rows.now) }
    {
        for row in rows {
            self.put_row(region, row);
        }
    }

    // Takes rows out, where there are some of these names.
    fn drop_rows(&mut self, rows: &[PartRow])
        ensures { SameByOwner self.new.rows (without_rows self.old.rows (map (λ r. r.name) rows.now)) }
    {
        for row in rows {
            self.drop_if_there(row.name);
        }
    }

    // Makes room for so many cells, where there is a number of them.
    fn make_room(&mut self, cells: Option<usize>) -> Result<(), OutOfMemory>
        ensures rows { SameByOwner self.new.rows self.old.rows }
        ensures enough { OnOk result (IfSome cells (λ n. n ≤ self.new.spare)) }
        ensures some { OnOk result (IsSome cells) }
    {
        let Some(cells) = cells else {
            return Err(OutOfMemory);
        };
        self.chains.reserve(cells)?;
        self.cells.reserve(cells)
    }
}

impl Store for FlatStore {
    type Part = FlatPart;

    ghost rows = { λ store. store.rows };

    ghost spare = { λ store _. store.spare };

    ghost part_rows = { λ part. part.rows };

    ghost part_region = { λ part. part.region };

    fn new(alloc: Global) -> Result<FlatStore, OutOfMemory> {
        Ok(FlatStore {
            chains: Chains::new(alloc),
            cells: Cells::new(alloc),
            alloc,
        })
    }

    #[inline(always)]
    fn owner<L: Ledger>(&self, o: ObjId, steps: &mut Steps<L>) -> Option<Owner> {
        steps.tick();
        let Some(row) = self.chains.get(o) else {
            return None;
        };
        Some(row.owner)
    }

    fn first<L: Ledger>(&self, owner: Owner, steps: &mut Steps<L>) -> Option<ObjId> {
        steps.tick();
        self.chains.first(owner)
    }

    #[inline(always)]
    fn next<L: Ledger>(&self, o: ObjId, steps: &mut Steps<L>) -> Option<ObjId> {
        steps.tick();
        self.chains.next(o)
    }

    #[inline(always)]
    fn width<L: Ledger>(&self, o: ObjId, steps: &mut Steps<L>) -> u32 {
        steps.tick();
        self.chains.row(o).fields.width
    }

    fn field_at<L: Ledger>(&self, o: ObjId, at: u32, steps: &mut Steps<L>) -> Option<(Key, Value)> {
        steps.tick();
        let row = self.chains.row(o);
        self.cells.at(o, row.fields, at)
    }

    fn field_after<L: Ledger>(
        &self,
        o: ObjId,
        after: Option<Key>,
        steps: &mut Steps<L>,
    ) -> Option<(Key, Value)> {
        steps.tick();
        match after {
            Some(key) => self.cells.after(o, key),
            None => self.cells.first(o, self.chains.row(o).fields),
        }
    }

    fn field<L: Ledger>(&self, o: ObjId, key: Key, steps: &mut Steps<L>) -> Option<Value> {
        steps.tick();
        let Some(cell) = self.cells.get(o, key) else {
            return None;
        };
        Some(cell.value)
    }

    fn set_field<L: Ledger>(
        &mut self,
        o: ObjId,
        key: Key,
        v: Value,
        steps: &mut Steps<L>,
    ) -> Option<Value> {
        steps.tick();
        let Some(cell) = self.cells.get(o, key) else {
            self.add_field(o, key, v);
            return None;
        };
        let old = cell.value;
        self.cells.set_value(o, key, v);
        Some(old)
    }

    fn take_field<L: Ledger>(&mut self, o: ObjId, key: Key, steps: &mut Steps<L>) -> Option<Value> {
        steps.tick();
        let Some(cell) = self.cells.get(o, key) else {
            return None;
        };
        let value = cell.value;
        let place = self.chains.place(o);
        let before = self.chains.at(place).fields;
        let fields = self.cells.unlink(o, before, key);
        self.chains.set_fields(place, fields);
        Some(value)
    }

    fn insert<L: Ledger>(&mut self, o: ObjId, owner: Owner, steps: &mut Steps<L>) {
        steps.tick();
        self.chains.push_last(StoredRow {
            name: o,
            owner,
            refs: 0,
            fields: FieldEnds::empty(),
        });
    }

    fn remove<L: Ledger>(&mut self, o: ObjId, steps: &mut Steps<L>) {
        steps.tick();
        self.drop_row(o);
    }

    fn set_owner<L: Ledger>(&mut self, o: ObjId, owner: Owner, steps: &mut Steps<L>) {
        steps.tick();
        self.chains.move_last(o, owner);
    }

    #[inline(always)]
    fn refs<L: Ledger>(&self, o: ObjId, steps: &mut Steps<L>) -> u64 {
        steps.tick();
        self.chains.row(o).refs
    }

    fn add_ref<L: Ledger>(&mut self, o: ObjId, steps: &mut Steps<L>) {
        steps.tick();
        self.chains.add_ref(o);
    }

    fn sub_ref<L: Ledger>(&mut self, o: ObjId, steps: &mut Steps<L>) {
        steps.tick();
        self.chains.sub_ref(o);
    }

    fn reserve(&mut self, _owner: Owner, cells: usize) -> Result<(), OutOfMemory> {
        self.chains.reserve(cells)?;
        self.cells.reserve(cells)
    }

    fn part_out(&mut self, region: ObjId) -> Result<FlatPart, OutOfMemory> {
        let part = FlatPart::copied(self.alloc, &self.chains, &self.cells, region)?;
        self.drop_rows(part.rows());
        Ok(part)
    }

    fn part_in(&mut self, part: FlatPart) -> Result<(), (FlatPart, OutOfMemory)> {
        let Ok(()) = self.make_room(part.cells()) else {
            return Err((part, OutOfMemory));
        };
        self.put_rows(part.region(), part.rows());
        Ok(())
    }

    fn part_row(part: &FlatPart, at: u32) -> Option<RowHead> {
        part.head(at)
    }

    fn part_field(part: &FlatPart, at: u32, field: u32) -> Option<(Key, Value)> {
        part.field(at, field)
    }
}
