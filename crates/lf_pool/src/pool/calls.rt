ghost use Rattle.std.specs.Prelude.{◌≡◌, ◌≢◌, ◌<◌, ◌≤◌, ◌+◌, ◌++◌, ◌∷◌, [], ℕ, List, OnOk, Some, eqb, false, length, true};
ghost use Rattle.lf_base.specs.Links.{after, has, without};
ghost use Rattle.lf_pool.specs.declared.cell.TheConstants.{NONE};
ghost use Rattle.lf_pool.specs.Cells.{IsChain, SameItems, item_at, link_at, node};
ghost use Rattle.lf_pool.specs.Pools.{AreParts, Chain, IsLeft};

use crate::cell::NONE;
use crate::fresh::{push_cell, set_item};
use crate::links::{behead, cut, join, next, put_before};
use crate::pool::Pool;
use lf_base::OutOfMemory;
use std::alloc::Global;

impl<T: Copy + Drop> Pool<T> {
    /// A pool without cells. It takes no memory.
    pub fn new(alloc: Global) -> Pool<T>
        ensures cells { result.cells ≡ [] }
        ensures room { result.spare ≡ 0 }
    {
        Pool {
            cells: Vec::new(alloc),
            free: NONE,
            free_cells: 0,
        }
    }

    /// The number of cells, each of which lies in exactly one chain.
    pub fn cells(&self) -> u32
        ensures number { result ≡ length self.now.cells }
        ensures parts { AreParts self.now }
    {
        self.cells.len() as u32
    }

    /// Makes room for so many cells. `OutOfMemory` comes where memory runs out or the
    /// pool can't have so many cells, and then all is as before.
    pub fn reserve(&mut self, cells: usize) -> Result<(), OutOfMemory>
        ensures chains { (c : ℕ) → (xs : List ℕ) → Chain self.old c xs → Chain self.new c xs }
        ensures items { SameItems self.old.cells self.new.cells }
        ensures enough { OnOk result (cells ≤ self.new.spare) }
        ensures room { self.old.spare ≤ self.new.spare }
    {
        let free = self.free_cells as usize;
        if cells <= free {
            return Ok(());
        }
        let more = cells - free;
        if more > NONE as usize - self.cells.len() {
            return Err(OutOfMemory);
        }
        match self.cells.reserve(more) {
            Ok(()) => Ok(()),
            Err(_error) => Err(OutOfMemory),
        }
    }

    /// Joins a chain to the end of another one.
    #[inline(always)]
    pub fn push_last(&mut self, chain: u32, cell: u32)
        requires chain { (xs : List ℕ) × Chain self.old chain xs }
        requires cell { (ys : List ℕ) × Chain self.old cell ys }
        requires apart { chain ≢ cell }
        ensures joined { (xs : List ℕ) → (ys : List ℕ) → Chain self.old chain xs → Chain self.old cell ys → Chain self.new chain (xs ++ ys) }
        ensures others { (d : ℕ) → (zs : List ℕ) → Chain self.old d zs → d ≢ chain → d ≢ cell → Chain self.new d zs }
        ensures items { SameItems self.old.cells self.new.cells }
        ensures size { length self.new.cells ≡ length self.old.cells }
        ensures room { self.new.spare ≡ self.old.spare }
    {
        join(&mut self.cells, chain, cell);
    }

    /// Puts a chain of so many cells on the free chain.
    #[inline(always)]
    pub fn give_all(&mut self, chain: u32, width: u32)
        requires chain { (xs : List ℕ) × Chain self.old chain xs × (length xs ≡ width) }
        ensures others { (d : ℕ) → (zs : List ℕ) → Chain self.old d zs → d ≢ chain → Chain self.new d zs }
        ensures items { SameItems self.old.cells self.new.cells }
        ensures room { self.new.spare ≡ self.old.spare + width }
    {
        put_before(&mut self.cells, chain, self.free);
        self.free = chain;
        self.free_cells += width;
    }

    /// Takes a cell for an item, a chain of its own. It never fails.
    #[inline(always)]
    pub fn take(&mut self, item: T) -> u32
        requires room { 0 < self.old.spare }
        ensures chain { Chain self.new result (result ∷ []) }
        ensures number { node result ≡ Some result }
        ensures few { length self.new.cells ≤ NONE }
        ensures item { item_at self.new.cells result ≡ Some item }
        ensures others { (d : ℕ) → (zs : List ℕ) → Chain self.old d zs → Chain self.new d zs × (has eqb result zs ≡ false) }
        ensures items { (q : ℕ) → eqb result q ≡ false → item_at self.new.cells q ≡ item_at self.old.cells q }
        ensures room { self.old.spare ≡ self.new.spare + 1 }
    {
        if self.free_cells == 0 {
            return push_cell(&mut self.cells, item);
        }
        let at = self.free;
        self.free = behead(&mut self.cells, at);
        self.free_cells -= 1;
        set_item(&mut self.cells, at, item);
        at
    }

    /// The cell after one of its chain, or `NONE` at the last one.
    #[inline(always)]
    pub fn next(&self, cell: u32) -> u32
        requires { (xs : List ℕ) × IsChain (link_at self.now.cells) xs × (has eqb cell xs ≡ true) }
        ensures { (xs : List ℕ) → IsChain (link_at self.now.cells) xs → has eqb cell xs ≡ true → node result ≡ after eqb cell xs }
    {
        next(&self.cells, cell)
    }

    /// The item of a cell.
    #[inline(always)]
    pub fn item(&self, cell: u32) -> T
        requires { cell < length self.now.cells }
        ensures item { item_at self.now.cells cell ≡ Some result }
        ensures number { node cell ≡ Some cell }
    {
        self.cells[cell as usize].item
    }

    /// Puts another item into a cell.
    #[inline(always)]
    pub fn set(&mut self, cell: u32, item: T)
        requires there { cell < length self.old.cells }
        ensures chains { (c : ℕ) → (xs : List ℕ) → Chain self.old c xs → Chain self.new c xs }
        ensures item { item_at self.new.cells cell ≡ Some item }
        ensures items { (q : ℕ) → eqb cell q ≡ false → item_at self.new.cells q ≡ item_at self.old.cells q }
        ensures room { self.new.spare ≡ self.old.spare }
    {
        set_item(&mut self.cells, cell, item);
    }

    /// Takes a cell out of a chain, and gives the first cell of what is left of the
    /// chain, or `NONE` where it was the only one. The cell is then a chain of its own.
    #[inline(always)]
    pub fn unlink(&mut self, chain: u32, cell: u32) -> u32
        requires there { (xs : List ℕ) × Chain self.old chain xs × (has eqb cell xs ≡ true) }
        ensures rest { (xs : List ℕ) → Chain self.old chain xs → IsLeft self.new (node result) (without eqb cell xs) }
        ensures alone { Chain self.new cell (cell ∷ []) }
        ensures number { node cell ≡ Some cell }
        ensures others { (d : ℕ) → (zs : List ℕ) → Chain self.old d zs → d ≢ chain → Chain self.new d zs }
        ensures items { SameItems self.old.cells self.new.cells }
        ensures room { self.new.spare ≡ self.old.spare }
    {
        if cell == chain {
            return behead(&mut self.cells, chain);
        }
        cut(&mut self.cells, chain, cell);
        chain
    }
}
