ghost use Rattle.std.specs.Prelude.{◌≡◌, ◌<◌, ◌≤◌, ◌+◌, ◌++◌, ◌∷◌, [], ℕ, List, None, OnOk, IsSome, Some, eqb, false, length, map, true};
ghost use Rattle.lf_base.specs.Links.{after, has, head_or};
ghost use Rattle.lf_pool.specs.Cells.{SameItems, node};
ghost use Rattle.lf_pool.specs.Pools.{Chain, IsLeft};
ghost use Rattle.lf_poolstore.specs.RowLists.{entry_at, moved_entry, name_by, with_entry, without_entry};
ghost use Rattle.lf_poolstore.specs.UnitRows.{is_live};

mod walks;

use crate::unit_row::UnitRow;
use lf_base::{ObjId, OutOfMemory};
use lf_pool::{NONE, Pool};
use std::alloc::Global;
use std::marker::Model;

/// Rows in their order, each with its number. A number is that of one row as long as the
/// row is in the list.
#[derive(Drop)]
pub struct RowList {
    first: u32,
    pool: Pool<UnitRow>,
}

impl Model for RowList {
    ghost use Rattle.lf_poolstore.specs.RowLists.{IsRowList, ListView, list_view};

    ghost Value = { ListView };

    ghost view = { λ l. list_view l.first l.pool };

    ghost invariant = { λ l. IsRowList l.first l.pool };
}

// Puts a row that is a chain of its own last, and gives the first row.
#[inline(always)]
fn joined(pool: &mut Pool<UnitRow>, first: u32, at: u32) -> u32
    requires list { (xs : List ℕ) × IsLeft pool.old (node first) xs × (has eqb at xs ≡ false) }
    requires alone { Chain pool.old at (at ∷ []) }
    requires number { node at ≡ Some at }
    ensures list { (xs : List ℕ) → IsLeft pool.old (node first) xs → IsLeft pool.new (node result) (xs ++ at ∷ []) }
    ensures items { SameItems pool.old.cells pool.new.cells }
    ensures room { pool.new.spare ≡ pool.old.spare }
{
    if first == NONE {
        return at;
    }
    pool.push_last(first, at);
    first
}

impl RowList {
    /// No rows. It takes no memory.
    pub fn new(alloc: Global) -> RowList
        ensures entries { result.entries ≡ [] }
        ensures room { result.spare ≡ 0 }
    {
        RowList {
            first: NONE,
            pool: Pool::new(alloc),
        }
    }

    /// Makes room for so many rows. After `OutOfMemory` too all rows stay, and there is no
    /// less room.
    pub fn reserve(&mut self, rows: usize) -> Result<(), OutOfMemory>
        ensures entries { self.new.entries ≡ self.old.entries }
        ensures enough { OnOk result (rows ≤ self.new.spare) }
        ensures room { self.old.spare ≤ self.new.spare }
    {
        self.pool.reserve(rows)
    }

    /// The row of a number, where it is one of the list.
    #[inline(always)]
    pub fn get(&self, at: u32) -> Option<UnitRow>
        ensures { result ≡ entry_at self.now.entries at }
    {
        if at >= self.pool.cells() {
            return None;
        }
        let row = self.pool.item(at);
        if row.is_live() { Some(row) } else { None }
    }

    /// The row of a number of the list.
    #[inline(always)]
    pub fn row(&self, at: u32) -> UnitRow
        requires { IsSome (entry_at self.now.entries at) }
        ensures row { entry_at self.now.entries at ≡ Some result }
        ensures live { is_live result ≡ true }
    {
        self.pool.item(at)
    }

    /// The name of the row of a number of the list, and none for `NONE`.
    #[inline(always)]
    pub fn name(&self, at: u32) -> Option<ObjId>
        requires { (x : ℕ) → node at ≡ Some x → IsSome (entry_at self.now.entries x) }
        ensures { result ≡ name_by self.now.entries (node at) }
    {
        if at == NONE {
            return None;
        }
        Some(self.row(at).name)
    }

    /// The number of the first row, or `NONE`.
    #[inline(always)]
    pub fn first(&self) -> u32
        ensures { node result ≡ head_or (map (λ e. e.0) self.now.entries) None }
    {
        self.first
    }

    /// The number of the row after one, or `NONE`.
    #[inline(always)]
    pub fn next(&self, at: u32) -> u32
        requires { IsSome (entry_at self.now.entries at) }
        ensures { node result ≡ after eqb at (map (λ e. e.0) self.now.entries) }
    {
        self.pool.next(at)
    }

    /// Puts another row at a number of the list.
    #[inline(always)]
    pub fn set(&mut self, at: u32, row: UnitRow)
        requires there { IsSome (entry_at self.old.entries at) }
        requires live { is_live row ≡ true }
        ensures entries { self.new.entries ≡ with_entry at row self.old.entries }
        ensures room { self.new.spare ≡ self.old.spare }
    {
        self.pool.set(at, row);
    }

    /// Puts a row last, and gives its number.
    #[inline(always)]
    pub fn push(&mut self, row: UnitRow) -> u32
        requires room { 0 < self.old.spare }
        requires live { is_live row ≡ true }
        ensures entries { self.new.entries ≡ self.old.entries ++ (result, row) ∷ [] }
        ensures new { entry_at self.old.entries result ≡ None }
        ensures room { self.old.spare ≡ self.new.spare + 1 }
    {
        let at = self.pool.take(row);
        self.first = joined(&mut self.pool, self.first, at);
        at
    }

    /// Takes a row out of the list.
    #[inline(always)]
    pub fn remove(&mut self, at: u32)
        requires there { IsSome (entry_at self.old.entries at) }
        ensures entries { self.new.entries ≡ without_entry at self.old.entries }
        ensures room { self.new.spare ≡ self.old.spare + 1 }
    {
        self.first = self.pool.unlink(self.first, at);
        self.pool.set(at, UnitRow::gone());
        self.pool.give_all(at, 1);
    }

    /// Lets a row come last.
    pub fn move_last(&mut self, at: u32)
        requires there { IsSome (entry_at self.old.entries at) }
        ensures entries { self.new.entries ≡ moved_entry at self.old.entries }
        ensures room { self.new.spare ≡ self.old.spare }
    {
        let rest = self.pool.unlink(self.first, at);
        self.first = joined(&mut self.pool, rest, at);
    }
}
