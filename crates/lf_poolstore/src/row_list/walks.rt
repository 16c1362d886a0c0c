//! Rows of a list by their place, and how many there may be.

ghost use Rattle.std.specs.Prelude.{◌≡◌, ◌≤◌, length, map, slice_get};
ghost use Rattle.lf_pool.specs.Cells.{node};

use crate::row_list::RowList;

impl RowList {
    /// A number of rows that the list has at most.
    pub fn most_rows(&self) -> u32
        ensures { length self.now.entries ≤ result }
    {
        self.pool.cells()
    }

    /// The number of the row at a place of the list, counted from 0, or `NONE`.
    pub fn at(&self, place: u32) -> u32
        ensures { node result ≡ slice_get (map (λ e. e.0) self.now.entries) place }
    {
        self.pool.cell_at(self.first, place)
    }
}
