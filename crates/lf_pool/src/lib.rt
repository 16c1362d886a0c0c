//! Items in chains of cells. A pool has its cells in one vector, and each cell lies in
//! exactly one chain. One chain is the free one: `take` gives a cell of it out, and
//! `give_all` joins a whole chain to it, so neither walks, and only `reserve` takes memory.
//!
//! The cell before the first cell of a chain is its last one. So a chain is named by its
//! first cell alone, and a cell comes last without a walk.
//!
//! It stands on lf_base. `Pool` is over any item, and `CellPool` is the pool of fields. That
//! each cell lies in exactly one chain is said where their cells are counted, at `cells`, and
//! `callers` shows that a pool is worked by its contracts alone.
#![tactic(auto)]

pub mod callers;
mod cell;
mod cell_pool;
mod fresh;
mod links;
mod pool;
#[cfg(test)]
mod pool_tests;

pub use cell::{Cell, NONE};
pub use cell_pool::CellPool;
pub use pool::Pool;
