//! What is found in a unit.

ghost use Rattle.std.specs.Prelude.{◌≡◌, ◌↔◌, [], length, IsTrue};
ghost use Rattle.lf_base.specs.declared.ids.ObjId.{ObjId as Name};
ghost use Rattle.lf_graph.specs.StoredRows.{fields_at, first_name, name_after, refs_at};
ghost use Rattle.lf_poolstore.specs.Units.{IsWhole, StandsAt};

use crate::row_list::RowList;
use crate::unit::Unit;
use lf_base::{ObjId, Owner};
use lf_pool::{CellPool, NONE};
use std::alloc::Global;

impl Unit {
    /// A unit without rows. It takes no memory.
    pub fn new(alloc: Global, owner: Owner) -> Unit
        ensures owner { result.owner ≡ owner }
        ensures whole { IsWhole result }
        ensures rows { result.rows ≡ [] }
        ensures places { result.places ≡ [] }
    {
        Unit {
            owner,
            rows: RowList::new(alloc),
            cells: CellPool::new(alloc),
        }
    }

    /// The owner of all its rows.
    #[inline(always)]
    pub fn owner(&self) -> Owner
        ensures owner { result ≡ self.now.owner }
        ensures whole { IsWhole self.now }
    {
        self.owner
    }

    /// Whether it has no row.
    #[inline(always)]
    pub fn is_empty(&self) -> bool
        ensures { IsTrue result ↔ (self.now.rows ≡ []) }
    {
        self.rows.first() == NONE
    }

    /// Whether the row of that name stands at that number.
    #[inline(always)]
    pub fn holds(&self, at: u32, o: ObjId) -> bool
        ensures { IsTrue result ↔ StandsAt self.now at o }
    {
        match self.rows.get(at) {
            Some(row) => row.name.is_same(o),
            None => false,
        }
    }

    /// The count of the row at a number.
    #[inline(always)]
    pub fn refs(&self, at: u32) -> u64
        requires { (o : Name) × StandsAt self.now at o }
        ensures { (o : Name) → StandsAt self.now at o → result ≡ refs_at self.now.rows o }
    {
        self.rows.row(at).refs
    }

    /// The number of the fields of the row at a number.
    #[inline(always)]
    pub fn width(&self, at: u32) -> u32
        requires { (o : Name) × StandsAt self.now at o }
        ensures { (o : Name) → StandsAt self.now at o → result ≡ length (fields_at self.now.rows o) }
    {
        self.rows.row(at).width
    }

    /// The name of the first row.
    pub fn first(&self) -> Option<ObjId>
        ensures { result ≡ first_name self.now.rows }
    {
        self.rows.name(self.rows.first())
    }

    /// The name of the row after the one at a number.
    #[inline(always)]
    pub fn next(&self, at: u32) -> Option<ObjId>
        requires { (o : Name) × StandsAt self.now at o }
        ensures { (o : Name) → StandsAt self.now at o → result ≡ name_after self.now.rows o }
    {
        self.rows.name(self.rows.next(at))
    }
}
