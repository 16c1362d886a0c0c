//! What is found in the pools.

ghost use Rattle.std.specs.Prelude.{◌≡◌, Some, length, slice_get};
ghost use Rattle.std.specs.Option.{IsSome};
ghost use Rattle.lf_base.specs.FieldOrder.{field_after};
ghost use Rattle.lf_graph.specs.StoredRows.{HasRow, field_value_at, fields_at, first_name, name_after, owner_at, refs_at, rows_beside, rows_of};
ghost use Rattle.lf_poolstore.specs.PoolViews.{pool_rows};
ghost use Rattle.slab.specs.Slab.{get};

use crate::place::Place;
use crate::pools::Pools;
use crate::unit::Unit;
use lf_base::{Key, ObjId, Owner, Value};
use slab::Slab;

// The unit of a number.
#[inline(always)]
pub(super) fn unit_at(units: &Slab<Unit>, number: u32) -> &Unit
    requires { IsSome (get units.now number) }
    ensures { get units.now number ≡ Some result.now }
{
    let Some(unit) = units.get(number as usize) else {
        unreachable!()
    };
    unit
}

impl Pools {
    /// The owner of a row, where there is a row of that name.
    #[inline(always)]
    pub fn owner(&self, o: ObjId) -> Option<Owner>
        ensures { result ≡ owner_at (pool_rows self.now) o }
    {
        let place = self.index.get(o);
        let Some(unit) = self.units.get(place.unit as usize) else {
            return None;
        };
        if unit.holds(place.row, o) {
            return Some(unit.owner());
        }
        None
    }

    /// The first row of an owner.
    pub fn first(&self, owner: Owner) -> Option<ObjId>
        ensures { result ≡ first_name (rows_of owner (pool_rows self.now)) }
    {
        let Some(number) = self.owners.get(owner) else {
            return None;
        };
        unit_at(&self.units, number).first()
    }

    /// The row after this one under the same owner.
    #[inline(always)]
    pub fn next(&self, o: ObjId) -> Option<ObjId>
        requires { HasRow (pool_rows self.now) o }
        ensures { result ≡ name_after (rows_beside (pool_rows self.now) o) o }
    {
        let place = self.index.get(o);
        unit_at(&self.units, place.unit).next(place.row)
    }

    /// The number of a row's fields.
    #[inline(always)]
    pub fn width(&self, o: ObjId) -> u32
        requires { HasRow (pool_rows self.now) o }
        ensures { result ≡ length (fields_at (pool_rows self.now) o) }
    {
        let place = self.index.get(o);
        unit_at(&self.units, place.unit).width(place.row)
    }

    /// The field at a place of a row's fields, counted from 0.
    pub fn field_at(&self, o: ObjId, at: u32) -> Option<(Key, Value)>
        requires { HasRow (pool_rows self.now) o }
        ensures { result ≡ slice_get (fields_at (pool_rows self.now) o) at }
    {
        let place = self.index.get(o);
        unit_at(&self.units, place.unit).field_at(place.row, at)
    }

    /// The first field of a row where no key is given, and else the field after that of
    /// the key.
    #[inline(always)]
    pub fn field_after(&self, o: ObjId, after: Option<Key>) -> Option<(Key, Value)>
        requires { HasRow (pool_rows self.now) o }
        ensures { result ≡ field_after (fields_at (pool_rows self.now) o) after }
    {
        let place = self.index.get(o);
        unit_at(&self.units, place.unit).field_after(place.row, after)
    }

    /// The value of a row's field, where the row has it.
    #[inline(always)]
    pub fn field(&self, o: ObjId, key: Key) -> Option<Value>
        requires { HasRow (pool_rows self.now) o }
        ensures { result ≡ field_value_at (pool_rows self.now) o key }
    {
        let place = self.index.get(o);
        unit_at(&self.units, place.unit).field(place.row, key)
    }

    /// The count of edges that is kept with a row.
    #[inline(always)]
    pub fn refs(&self, o: ObjId) -> u64
        requires { HasRow (pool_rows self.now) o }
        ensures { result ≡ refs_at (pool_rows self.now) o }
    {
        let place = self.index.get(o);
        unit_at(&self.units, place.unit).refs(place.row)
    }
}
