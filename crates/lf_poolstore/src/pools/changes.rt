//! Changes of single rows in the pools.

ghost use Rattle.std.specs.Prelude.{◌≡◌, ◌<◌, ◌-◌, ◌^◌};
ghost use Rattle.lf_graph.specs.Room.{LowersAtMost, LowersNone, OwnerHasRoom, room_for_field};
ghost use Rattle.lf_graph.specs.RowChanges.{lowered, raised, with_field_of, without_field_of, without_row};
ghost use Rattle.lf_graph.specs.StoredRows.{HasRow, SameByOwner, field_value_at, refs_at};
ghost use Rattle.lf_poolstore.specs.PoolViews.{pool_rows, pool_spare};

use crate::pools::Pools;
use lf_base::{Key, ObjId, Value};

impl Pools {
    /// Counts one edge more to a row.
    #[inline(always)]
    pub fn add_ref(&mut self, o: ObjId)
        requires there { HasRow (pool_rows self.old) o }
        requires below { refs_at (pool_rows self.old) o < 2 ^ 64 - 1 }
        ensures rows { SameByOwner (pool_rows self.new) (raised (pool_rows self.old) o) }
        ensures room { LowersNone (pool_spare self.old) (pool_spare self.new) }
    {
        let place = self.index.get(o);
        let Some(unit) = self.units.get_mut(place.unit as usize) else {
            unreachable!()
        };
        unit.add_ref(place.row);
    }

    /// Counts one edge less to a row.
    #[inline(always)]
    pub fn sub_ref(&mut self, o: ObjId)
        requires there { HasRow (pool_rows self.old) o }
        requires above { 0 < refs_at (pool_rows self.old) o }
        ensures rows { SameByOwner (pool_rows self.new) (lowered (pool_rows self.old) o) }
        ensures room { LowersNone (pool_spare self.old) (pool_spare self.new) }
    {
        let place = self.index.get(o);
        let Some(unit) = self.units.get_mut(place.unit as usize) else {
            unreachable!()
        };
        unit.sub_ref(place.row);
    }

    /// Sets a row's field, in its place where the row has it, and else last, and gives the
    /// old value. It needs room of 1 where the field is new.
    #[inline(always)]
    pub fn set_field(&mut self, o: ObjId, key: Key, v: Value) -> Option<Value>
        requires there { HasRow (pool_rows self.old) o }
        requires room { OwnerHasRoom (pool_spare self.old) (pool_rows self.old) o (room_for_field (pool_rows self.old) o key) }
        ensures value { result ≡ field_value_at (pool_rows self.old) o key }
        ensures rows { SameByOwner (pool_rows self.new) (with_field_of (pool_rows self.old) o key v) }
        ensures room { LowersAtMost (pool_spare self.old) (pool_spare self.new) (room_for_field (pool_rows self.old) o key) }
    {
        let place = self.index.get(o);
        let Some(unit) = self.units.get_mut(place.unit as usize) else {
            unreachable!()
        };
        unit.set_field(place.row, key, v)
    }

    /// Takes a field out of a row and gives its value, where the row has it.
    #[inline(always)]
    pub fn take_field(&mut self, o: ObjId, key: Key) -> Option<Value>
        requires there { HasRow (pool_rows self.old) o }
        ensures value { result ≡ field_value_at (pool_rows self.old) o key }
        ensures rows { SameByOwner (pool_rows self.new) (without_field_of (pool_rows self.old) o key) }
        ensures room { LowersNone (pool_spare self.old) (pool_spare self.new) }
    {
        let place = self.index.get(o);
        let Some(unit) = self.units.get_mut(place.unit as usize) else {
            unreachable!()
        };
        unit.take_field(place.row, key)
    }

    /// Drops a row with its fields. No owner has less room afterwards.
    #[inline(always)]
    pub fn remove(&mut self, o: ObjId)
        requires there { HasRow (pool_rows self.old) o }
        ensures rows { SameByOwner (pool_rows self.new) (without_row (pool_rows self.old) o) }
        ensures room { LowersNone (pool_spare self.old) (pool_spare self.new) }
    {
        let place = self.index.take(o);
        let Some(unit) = self.units.get_mut(place.unit as usize) else {
            unreachable!()
        };
        unit.remove(place.row);
    }
}
