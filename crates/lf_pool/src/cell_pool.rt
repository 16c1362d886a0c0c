mod calls;

use crate::pool::Pool;
use lf_base::{Key, Value};
use std::marker::Model;

/// Fields in chains of cells. Each cell lies in exactly one chain, and one chain is the
/// free one. A chain is named by its first cell.
#[derive(Drop)]
pub struct CellPool {
    pool: Pool<(Key, Value)>,
}

impl Model for CellPool {
    ghost use Rattle.lf_base.specs.declared.values.Key.{Key};
    ghost use Rattle.lf_base.specs.declared.values.Value.{Value as FieldValue};
    ghost use Rattle.lf_pool.specs.Pools.{PoolView};

    ghost Value = { PoolView (Key × FieldValue) };

    ghost view = { λ p. p.pool };
}
