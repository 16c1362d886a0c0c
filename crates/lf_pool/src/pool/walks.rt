//! Cells by their place in a chain.

ghost use Rattle.std.specs.Prelude.{◌≡◌, ℕ, List, slice_get};
ghost use Rattle.lf_pool.specs.Cells.{node};
ghost use Rattle.lf_pool.specs.Pools.{IsLeft};

use crate::cell::NONE;
use crate::pool::Pool;

impl<T: Copy + Drop> Pool<T> {
    /// The cell at a place of the chain from one on, which may be empty, counted from 0, or
    /// `NONE` past its end.
    pub fn cell_at(&self, first: u32, place: u32) -> u32
        requires { (xs : List ℕ) × IsLeft self.now (node first) xs }
        ensures { (xs : List ℕ) → IsLeft self.now (node first) xs → node result ≡ slice_get xs place }
    {
        let mut cell = first;
        for _step in 0..place {
            if cell == NONE {
                return NONE;
            }
            cell = self.next(cell);
        }
        cell
    }
}
