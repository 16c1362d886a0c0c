//! Rows that come under an owner.

ghost use Rattle.std.specs.Prelude.{◌≡◌, ◌≤◌, Some, eqb, false};
ghost use Rattle.lf_base.specs.declared.ids.ObjId.{ObjId as Name};
ghost use Rattle.lf_graph.specs.Room.{LowersAtMost, LowersNone, room_for_row};
ghost use Rattle.lf_graph.specs.RowChanges.{moved_last, with_new_row};
ghost use Rattle.lf_graph.specs.StoredRows.{HasRow, IsNewName, SameByOwner, row_named};
ghost use Rattle.lf_poolstore.specs.NarrowRows.{narrow_row};
ghost use Rattle.slab.specs.Slab.{get};
ghost use Rattle.lf_poolstore.specs.Index.{place_at};
ghost use Rattle.lf_poolstore.specs.Places.{place_or};
ghost use Rattle.lf_poolstore.specs.Pools.{MovesRow};
ghost use Rattle.lf_poolstore.specs.Units.{StandsAt, UnitView};
ghost use Rattle.lf_poolstore.specs.PoolViews.{pool_number, pool_rows, pool_spare};

use crate::narrow_row::NarrowRow;
use crate::place::Place;
use crate::pools::Pools;
use crate::pools::reads::unit_at;
use crate::unit::Unit;
use lf_base::{ObjId, Owner};
use slab::Slab;

// Lets a row with at most one field go last under another unit; neither unit leaves its
// slot. Gives its number there.
fn move_narrow(units: &mut Slab<Unit>, place: Place, row: NarrowRow, number: u32) -> u32
    requires { (o : Name) × (u : UnitView) × (t : UnitView) × (get units.old place.unit ≡ Some u) × (get units.old number ≡ Some t) × StandsAt u place.row o
        × (eqb place.unit number ≡ false) × IsNewName t.rows o × (room_for_row u.rows o ≤ t.spare) × (row.name ≡ o) × (row_named u.rows o ≡ Some (narrow_row u.owner row)) }
    ensures { (o : Name) → (u : UnitView) → (t : UnitView) → get units.old place.unit ≡ Some u → get units.old number ≡ Some t → StandsAt u place.row o → row.name ≡ o
        → row_named u.rows o ≡ Some (narrow_row u.owner row) → MovesRow (get units.old) (get units.new) place.unit number u t o result }
{
    let Some(to) = units.get_mut(number as usize) else {
        unreachable!()
    };
    let at = to.push_narrow(row);
    let Some(from) = units.get_mut(place.unit as usize) else {
        unreachable!()
    };
    from.remove(place.row);
    at
}

// Lets a row go last under another unit. Gives its number there.
fn move_row(units: &mut Slab<Unit>, place: Place, number: u32) -> u32
    requires { (o : Name) × (u : UnitView) × (t : UnitView) × (get units.old place.unit ≡ Some u) × (get units.old number ≡ Some t) × StandsAt u place.row o
        × (eqb place.unit number ≡ false) × IsNewName t.rows o × (room_for_row u.rows o ≤ t.spare) }
    ensures { (o : Name) → (u : UnitView) → (t : UnitView) → get units.old place.unit ≡ Some u → get units.old number ≡ Some t → StandsAt u place.row o
        → MovesRow (get units.old) (get units.new) place.unit number u t o result }
{
    if let Some(row) = unit_at(units, place.unit).narrow(place.row) {
        return move_narrow(units, place, row, number);
    }
    let Some(mut to) = units.try_remove(number as usize) else {
        unreachable!()
    };
    let Some(from) = units.get_mut(place.unit as usize) else {
        unreachable!()
    };
    let row = to.take_from(from, place.row);
    let _number = units.insert_reserved(to);
    row
}

impl Pools {
    /// Makes a row of a new name, last under its owner, without fields and with a count
    /// of 0. It needs room of 1.
    pub fn insert(&mut self, o: ObjId, owner: Owner)
        requires new { IsNewName (pool_rows self.old) o }
        requires room { 1 ≤ pool_spare self.old owner }
        ensures rows { SameByOwner (pool_rows self.new) (with_new_row (pool_rows self.old) o owner) }
        ensures room { LowersAtMost (pool_spare self.old) (pool_spare self.new) 1 }
    {
        let Some(number) = self.owners.get(owner) else {
            unreachable!()
        };
        let Some(unit) = self.units.get_mut(number as usize) else {
            unreachable!()
        };
        let row = unit.push(o);
        self.index.start(o);
        self.index.put(o, Place { unit: number, row });
    }

    // Gives a row to the owner of another unit.
    fn give(&mut self, o: ObjId, place: Place, owner: Owner, number: u32)
        requires there { HasRow (pool_rows self.old) o }
        requires place { place ≡ place_or (place_at self.old.index o) }
        requires number { pool_number self.old owner ≡ Some number }
        requires apart { eqb place.unit number ≡ false }
        requires room { room_for_row (pool_rows self.old) o ≤ pool_spare self.old owner }
        ensures rows { SameByOwner (pool_rows self.new) (moved_last (pool_rows self.old) o owner) }
        ensures room { LowersAtMost (pool_spare self.old) (pool_spare self.new) (room_for_row (pool_rows self.old) o) }
    {
        let row = move_row(&mut self.units, place, number);
        self.index.put(o, Place { unit: number, row });
    }

    // Lets a row come last under the owner that it has.
    fn keep_owner(&mut self, o: ObjId, place: Place, owner: Owner)
        requires there { HasRow (pool_rows self.old) o }
        requires place { place ≡ place_or (place_at self.old.index o) }
        requires number { pool_number self.old owner ≡ Some place.unit }
        ensures rows { SameByOwner (pool_rows self.new) (moved_last (pool_rows self.old) o owner) }
        ensures room { LowersNone (pool_spare self.old) (pool_spare self.new) }
    {
        let Some(unit) = self.units.get_mut(place.unit as usize) else {
            unreachable!()
        };
        unit.move_last(place.row);
    }

    /// Gives a row to an owner, under whom it comes last. It needs room of 1, and of 1 for
    /// each of the row's fields, under the new owner.
    pub fn set_owner(&mut self, o: ObjId, owner: Owner)
        requires there { HasRow (pool_rows self.old) o }
        requires room { room_for_row (pool_rows self.old) o ≤ pool_spare self.old owner }
        ensures rows { SameByOwner (pool_rows self.new) (moved_last (pool_rows self.old) o owner) }
        ensures room { LowersAtMost (pool_spare self.old) (pool_spare self.new) (room_for_row (pool_rows self.old) o) }
    {
        let place = self.index.get(o);
        let Some(number) = self.owners.get(owner) else {
            unreachable!()
        };
        if number == place.unit {
            self.keep_owner(o, place, owner);
            return;
        }
        self.give(o, place, owner, number);
    }
}
