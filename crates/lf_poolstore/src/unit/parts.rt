//! What is asked of a unit that leaves its store or comes into one.

ghost use Rattle.std.specs.Prelude.{◌≡◌, ◌≤◌, length, slice_get};
ghost use Rattle.std.specs.Map.{lookup};
ghost use Rattle.std.specs.Option.{option_map};
ghost use Rattle.lf_base.specs.declared.ids.ObjId.{ObjId as Name};
ghost use Rattle.lf_base.specs.Links.{NodesDiffer};
ghost use Rattle.lf_base.specs.Names.{same_name};
ghost use Rattle.lf_graph.specs.Parts.{row_head};
ghost use Rattle.lf_graph.specs.StoredRows.{fields_by};
ghost use Rattle.lf_poolstore.specs.Index.{index_room, place_at};
ghost use Rattle.lf_poolstore.specs.Pools.{led_by};
ghost use Rattle.lf_poolstore.specs.RowLists.{names_in, numbers_in};
ghost use Rattle.lf_poolstore.specs.Units.{IsWhole, place_in, places_in};
ghost use Rattle.std.specs.Prelude.{eqb};

use crate::name_index::NameIndex;
use crate::place::Place;
use crate::row_list::RowList;
use crate::unit::Unit;
use lf_base::{Key, Value};
use lf_graph::RowHead;
use lf_pool::NONE;

// Sets the places of rows by their names, one after the other.
fn put_places(rows: &RowList, index: &mut NameIndex, unit: u32)
    requires numbers { NodesDiffer eqb (numbers_in rows.now.entries) }
    requires names { NodesDiffer same_name (names_in rows.now.entries) }
    requires room { length rows.now.entries ≤ index_room index.old }
    ensures { (q : Name) → place_at index.new q ≡ led_by unit (lookup (same_name q) (places_in rows.now.entries)) (place_at index.old q) }
{
    let mut at = rows.first();
    for _step in 0..rows.most_rows() {
        if at == NONE {
            return;
        }
        index.put(rows.row(at).name, Place { unit, row: at });
        at = rows.next(at);
    }
}

impl Unit {
    /// A number of rows that the unit has at most.
    pub fn most_rows(&self) -> u32
        ensures most { length self.now.rows ≤ result }
        ensures whole { IsWhole self.now }
    {
        self.rows.most_rows()
    }

    /// Sets the places of all its rows by their names, for a unit of that number.
    pub fn set_places(&self, index: &mut NameIndex, unit: u32)
        requires { length self.now.rows ≤ index_room index.old }
        ensures { (q : Name) → place_at index.new q ≡ led_by unit (place_in self.now q) (place_at index.old q) }
    {
        put_places(&self.rows, index, unit);
    }

    /// What is told at once of the row at a place of its rows, counted from 0.
    pub fn head_at(&self, place: u32) -> Option<RowHead>
        ensures { result ≡ option_map row_head (slice_get self.now.rows place) }
    {
        let at = self.rows.at(place);
        if at == NONE {
            return None;
        }
        let row = self.rows.row(at);
        Some(RowHead {
            name: row.name,
            width: row.width,
            refs: row.refs,
        })
    }

    /// The field at a place of the fields of the row at a place.
    pub fn field_of(&self, place: u32, field: u32) -> Option<(Key, Value)>
        ensures { result ≡ slice_get (fields_by (slice_get self.now.rows place)) field }
    {
        let at = self.rows.at(place);
        if at == NONE {
            return None;
        }
        self.field_at(at, field)
    }
}
