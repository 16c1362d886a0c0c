mod changes;
mod field_walks;
mod fields;
mod moves;
mod parts;
mod reads;

use crate::row_list::RowList;
use lf_base::Owner;
use lf_pool::CellPool;
use std::marker::Model;

/// The rows of one owner in their order, with their fields in chains of a pool. A row is
/// named by its number in the list.
#[derive(Drop)]
pub struct Unit {
    owner: Owner,
    rows: RowList,
    cells: CellPool,
}

impl Model for Unit {
    ghost use Rattle.lf_poolstore.specs.Units.{IsUnit, UnitView, unit_view};

    ghost Value = { UnitView };

    ghost view = { λ u. unit_view u.owner u.rows u.cells };

    ghost invariant = { λ u. IsUnit (u.rows).entries u.cells };
}
