//! The fast store of rows: a unit for each region, one for local and one for frozen rows,
//! and an index from names to places.
//!
//! It stands on lf_base, lf_graph and lf_pool. `PoolStore` meets the contract `Store` of
//! lf_graph, so it may stand wherever the flat store does: it counts a step for each call
//! and leaves the work to `Pools`.
//!
//! A unit has its rows in a chain of a pool and their fields in chains of another one, so
//! that a region's rows leave and come as one unit, and neighbours are linked by numbers.
//! The index is dense for the rows that the store's behaviour makes one after the other; of
//! other names it keeps those that have a row, and those that left with a part. A call on a
//! row looks its name up once, and calls on one region after the other look its unit up
//! once; only what goes over a row's fields or a part's rows walks them. No memory is taken
//! outside `new`, `reserve` and `part_in`.
#![tactic(auto)]

mod name_index;
mod narrow_row;
mod other_names;
mod owner_units;
mod place;
mod pool_store;
mod pools;
mod row_list;
mod unit;
mod unit_row;

pub use name_index::NameIndex;
pub use narrow_row::NarrowRow;
pub use place::Place;
pub use pool_store::PoolStore;
pub use pools::{PoolPart, Pools};
pub use row_list::RowList;
pub use unit::Unit;
pub use unit_row::UnitRow;
