mod calls;
mod walks;

use crate::cell::Cell;
use std::marker::Model;

/// Items in chains of cells. Each cell lies in exactly one chain, and one chain is the
/// free one. A chain is named by its first cell.
#[derive(Drop)]
pub struct Pool<T> {
    cells: Vec<Cell<T>>,
    free: u32,
    free_cells: u32,
}

impl<T> Model for Pool<T> {
    ghost use Rattle.std.specs.Prelude.{vec_capacity};
    ghost use Rattle.lf_pool.specs.Cells.{IsParted};
    ghost use Rattle.lf_pool.specs.Pools.{PoolView, room};

    ghost Value = { PoolView T };

    ghost view = { λ p. record { cells = p.cells.items; free = p.free; spare = room p.cells.items (vec_capacity p.cells) p.free_cells } };

    ghost invariant = { λ p. IsParted p.cells.items p.free p.free_cells };
}
