//! The rows of a behaviour's objects, under their owners, with fields and edge counts.
//!
//! It stands on lf_base. `Store` is the contract between whatever keeps the rows and
//! all that works on them: each call says what it answers, what it makes of the rows
//! of every owner, and what it does to the room that was made for later calls. `laws`
//! has what follows for the rows of a state, and `callers` shows that each call can
//! be used by its contract alone.
//!
//! `FlatStore` meets the contract: one table of rows, linked under their owners in their
//! order, and one of fields, linked in their rows. Each of its calls looks at one row and
//! its neighbours; only what goes over a row's fields or a region's rows walks them.
#![tactic(auto)]

pub mod callers;
mod cells;
mod chains;
mod ends;
mod flat_part;
mod flat_store;
pub mod laws;
mod owner_ends;
mod region_ends;
mod row_table;
mod store;
mod stored_row;

pub use flat_part::FlatPart;
pub use flat_store::FlatStore;
pub use store::{RowHead, Store};
