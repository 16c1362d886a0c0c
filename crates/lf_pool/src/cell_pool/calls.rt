ghost use Rattle.std.specs.Prelude.{◌≡◌, ◌≢◌, ◌<◌, ◌≤◌, ◌+◌, ◌++◌, ◌∷◌, [], ℕ, List, OnOk, Some, eqb, false, length, slice_get, true};
ghost use Rattle.lf_base.specs.Links.{after, has, without};
ghost use Rattle.lf_base.specs.declared.values.Key.{Key};
ghost use Rattle.lf_base.specs.declared.values.Value.{Value};
ghost use Rattle.lf_pool.specs.declared.cell.TheConstants.{NONE};
ghost use Rattle.lf_pool.specs.Cells.{IsChain, SameItems, item_at, link_at, node};
ghost use Rattle.lf_pool.specs.Fields.{first_with, is_keyed};
ghost use Rattle.lf_pool.specs.Pools.{AreParts, Chain, IsLeft};

use crate::cell::NONE;
use crate::cell_pool::CellPool;
use crate::links::as_cell;
use crate::pool::Pool;
use lf_base::{Key, OutOfMemory, Value};
use std::alloc::Global;

impl CellPool {
    /// A pool without cells. It takes no memory.
    pub fn new(alloc: Global) -> CellPool
        ensures cells { result.cells ≡ [] }
        ensures room { result.spare ≡ 0 }
    {
        CellPool {
            pool: Pool::new(alloc),
        }
    }

    /// The number of cells, each of which lies in exactly one chain.
    pub fn cells(&self) -> u32
        ensures number { result ≡ length self.now.cells }
        ensures parts { AreParts self.now }
    {
        self.pool.cells()
    }

    /// Makes room for so many cells. `OutOfMemory` comes where memory runs out or the
    /// pool can't have so many cells. All chains stay in both cases, and there is no less
    /// room.
    pub fn reserve(&mut self, cells: usize) -> Result<(), OutOfMemory>
        ensures chains { (c : ℕ) → (xs : List ℕ) → Chain self.old c xs → Chain self.new c xs }
        ensures items { SameItems self.old.cells self.new.cells }
        ensures enough { OnOk result (cells ≤ self.new.spare) }
        ensures room { self.old.spare ≤ self.new.spare }
    {
        self.pool.reserve(cells)
    }

    /// Takes a cell for a field, a chain of its own. It never fails.
    #[inline(always)]
    pub fn take(&mut self, key: Key, value: Value) -> u32
        requires room { 0 < self.old.spare }
        ensures chain { Chain self.new result (result ∷ []) }
        ensures number { node result ≡ Some result }
        ensures few { length self.new.cells ≤ NONE }
        ensures item { item_at self.new.cells result ≡ Some (key, value) }
        ensures others { (d : ℕ) → (zs : List ℕ) → Chain self.old d zs → Chain self.new d zs × (has eqb result zs ≡ false) }
        ensures items { (q : ℕ) → eqb result q ≡ false → item_at self.new.cells q ≡ item_at self.old.cells q }
        ensures room { self.old.spare ≡ self.new.spare + 1 }
    {
        self.pool.take((key, value))
    }

    /// Joins a chain to the end of another one.
    #[inline(always)]
    pub fn push_last(&mut self, chain: u32, cell: u32)
        requires chain { (xs : List ℕ) × Chain self.old chain xs }
        requires cell { (ys : List ℕ) × Chain self.old cell ys }
        requires apart { chain ≢ cell }
        ensures joined { (xs : List ℕ) → (ys : List ℕ) → Chain self.old chain xs → Chain self.old cell ys → Chain self.new chain (xs ++ ys) }
        ensures others { (d : ℕ) → (zs : List ℕ) → Chain self.old d zs → d ≢ chain → d ≢ cell → Chain self.new d zs }
        ensures items { SameItems self.old.cells self.new.cells }
        ensures size { length self.new.cells ≡ length self.old.cells }
        ensures room { self.new.spare ≡ self.old.spare }
    {
        self.pool.push_last(chain, cell);
    }

    /// The first cell of a chain that has that key, or `None` where no cell of it has.
    pub fn find(&self, chain: u32, key: Key) -> Option<u32>
        requires { (xs : List ℕ) × Chain self.now chain xs }
        ensures { (xs : List ℕ) → Chain self.now chain xs → result ≡ first_with self.now.cells key xs }
    {
        as_cell(self.seek(chain, key))
    }

    /// The first cell of a chain that has that key, or `NONE` where no cell of it has.
    #[inline(always)]
    pub fn seek(&self, chain: u32, key: Key) -> u32
        requires { (xs : List ℕ) × Chain self.now chain xs }
        ensures { (xs : List ℕ) → Chain self.now chain xs → node result ≡ first_with self.now.cells key xs }
    {
        let mut at = chain;
        while !self.has_key(at, key) {
            at = self.pool.next(at);
            if at == NONE {
                return NONE;
            }
        }
        at
    }

    // Whether a cell has that key.
    #[inline(always)]
    fn has_key(&self, cell: u32, key: Key) -> bool
        requires { cell < length self.now.cells }
        ensures key { result ≡ is_keyed key (item_at self.now.cells cell) }
        ensures number { node cell ≡ Some cell }
    {
        self.pool.item(cell).0.is_same(key)
    }

    /// The cell after one of its chain, or `None` at the last one.
    pub fn next(&self, cell: u32) -> Option<u32>
        requires { (xs : List ℕ) × IsChain (link_at self.now.cells) xs × (has eqb cell xs ≡ true) }
        ensures { (xs : List ℕ) → IsChain (link_at self.now.cells) xs → has eqb cell xs ≡ true → result ≡ after eqb cell xs }
    {
        as_cell(self.pool.next(cell))
    }

    /// The cell after one of its chain, or `NONE` at the last one.
    #[inline(always)]
    pub fn behind(&self, cell: u32) -> u32
        requires { (xs : List ℕ) × IsChain (link_at self.now.cells) xs × (has eqb cell xs ≡ true) }
        ensures { (xs : List ℕ) → IsChain (link_at self.now.cells) xs → has eqb cell xs ≡ true → node result ≡ after eqb cell xs }
    {
        self.pool.next(cell)
    }

    /// The cell at a place of the chain from one on, which may be empty, counted from 0, or
    /// `NONE` past its end.
    pub fn cell_at(&self, first: u32, place: u32) -> u32
        requires { (xs : List ℕ) × IsLeft self.now (node first) xs }
        ensures { (xs : List ℕ) → IsLeft self.now (node first) xs → node result ≡ slice_get xs place }
    {
        self.pool.cell_at(first, place)
    }

    /// The key and the value of a cell.
    #[inline(always)]
    pub fn pair(&self, cell: u32) -> (Key, Value)
        requires { cell < length self.now.cells }
        ensures { item_at self.now.cells cell ≡ Some result }
    {
        self.pool.item(cell)
    }

    /// Puts another value into a cell.
    #[inline(always)]
    pub fn set(&mut self, cell: u32, value: Value)
        requires there { cell < length self.old.cells }
        ensures chains { (c : ℕ) → (xs : List ℕ) → Chain self.old c xs → Chain self.new c xs }
        ensures value { (k : Key) → (v : Value) → item_at self.old.cells cell ≡ Some (k, v) → item_at self.new.cells cell ≡ Some (k, value) }
        ensures items { (q : ℕ) → eqb cell q ≡ false → item_at self.new.cells q ≡ item_at self.old.cells q }
        ensures room { self.new.spare ≡ self.old.spare }
    {
        let key = self.pool.item(cell).0;
        self.pool.set(cell, (key, value));
    }

    /// Takes a cell out of a chain, and gives the first cell of what is left of the
    /// chain, or `None` where it was the only one. The cell is then a chain of its own.
    pub fn unlink(&mut self, chain: u32, cell: u32) -> Option<u32>
        requires there { (xs : List ℕ) × Chain self.old chain xs × (has eqb cell xs ≡ true) }
        ensures rest { (xs : List ℕ) → Chain self.old chain xs → IsLeft self.new result (without eqb cell xs) }
        ensures alone { Chain self.new cell (cell ∷ []) }
        ensures others { (d : ℕ) → (zs : List ℕ) → Chain self.old d zs → d ≢ chain → Chain self.new d zs }
        ensures items { SameItems self.old.cells self.new.cells }
        ensures room { self.new.spare ≡ self.old.spare }
    {
        as_cell(self.part(chain, cell))
    }

    /// Takes a cell out of a chain, and gives the first cell of what is left of the
    /// chain, or `NONE` where it was the only one. The cell is then a chain of its own.
    #[inline(always)]
    pub fn part(&mut self, chain: u32, cell: u32) -> u32
        requires there { (xs : List ℕ) × Chain self.old chain xs × (has eqb cell xs ≡ true) }
        ensures rest { (xs : List ℕ) → Chain self.old chain xs → IsLeft self.new (node result) (without eqb cell xs) }
        ensures alone { Chain self.new cell (cell ∷ []) }
        ensures others { (d : ℕ) → (zs : List ℕ) → Chain self.old d zs → d ≢ chain → Chain self.new d zs }
        ensures items { SameItems self.old.cells self.new.cells }
        ensures room { self.new.spare ≡ self.old.spare }
    {
        self.pool.unlink(chain, cell)
    }

    /// Puts a cell that is a chain of its own on the free chain.
    pub fn give(&mut self, cell: u32)
        requires alone { Chain self.old cell (cell ∷ []) }
        ensures others { (d : ℕ) → (zs : List ℕ) → Chain self.old d zs → d ≢ cell → Chain self.new d zs }
        ensures items { SameItems self.old.cells self.new.cells }
        ensures room { self.new.spare ≡ self.old.spare + 1 }
    {
        self.pool.give_all(cell, 1);
    }

    /// Puts a chain of so many cells on the free chain.
    #[inline(always)]
    pub fn give_all(&mut self, chain: u32, width: u32)
        requires chain { (xs : List ℕ) × Chain self.old chain xs × (length xs ≡ width) }
        ensures others { (d : ℕ) → (zs : List ℕ) → Chain self.old d zs → d ≢ chain → Chain self.new d zs }
        ensures items { SameItems self.old.cells self.new.cells }
        ensures room { self.new.spare ≡ self.old.spare + width }
    {
        self.pool.give_all(chain, width);
    }
}
