//! Writes to the items of cells.

ghost use Rattle.std.specs.Prelude.{◌≡◌, ◌<◌, ◌+◌, ℕ, Some, None, eqb, false, length, vec_capacity};
ghost use Rattle.lf_base.specs.Links.{link};
ghost use Rattle.lf_pool.specs.declared.cell.TheConstants.{NONE};
ghost use Rattle.lf_pool.specs.Cells.{item_at, link_at};

use crate::cell::{Cell, NONE};

/// Adds a cell that is a chain of its own.
pub(crate) fn push_cell<T>(cells: &mut Vec<Cell<T>>, item: T) -> u32
    requires few { length cells.old.items < NONE }
    requires room { length cells.old.items < vec_capacity cells.old }
    ensures at { result ≡ length cells.old.items }
    ensures link { link_at cells.new.items result ≡ Some (link (Some result) None) }
    ensures item { item_at cells.new.items result ≡ Some item }
    ensures links { (q : ℕ) → q < result → link_at cells.new.items q ≡ link_at cells.old.items q }
    ensures items { (q : ℕ) → eqb result q ≡ false → item_at cells.new.items q ≡ item_at cells.old.items q }
    ensures size { length cells.new.items ≡ result + 1 }
    ensures capacity { vec_capacity cells.new ≡ vec_capacity cells.old }
{
    let at = cells.len() as u32;
    cells.push_reserved(Cell {
        item,
        prev: at,
        next: NONE,
    });
    at
}

/// Puts another item into a cell.
#[inline(always)]
pub(crate) fn set_item<T: Drop>(cells: &mut Vec<Cell<T>>, at: u32, item: T)
    requires { at < length cells.old.items }
    ensures links { (q : ℕ) → link_at cells.new.items q ≡ link_at cells.old.items q }
    ensures item { item_at cells.new.items at ≡ Some item }
    ensures items { (q : ℕ) → eqb at q ≡ false → item_at cells.new.items q ≡ item_at cells.old.items q }
    ensures size { length cells.new.items ≡ length cells.old.items }
    ensures capacity { vec_capacity cells.new ≡ vec_capacity cells.old }
{
    cells[at as usize].item = item;
}
