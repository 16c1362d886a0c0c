//! Frozen rows: a finite map from names to rows, which grows and whose rows never change.
//!
//! It stands on `lf_base` for names and fields. Its rows are kept in tables that are
//! sorted by name and shared, so that a further map of the same rows copies no row.
//! It promises that each call does to the list of rows, by rising name, what its contract
//! says, and that `with` adds all rows that it is given or none.
//!
//! `laws` has what was proved of such lists.
#![tactic(auto)]

mod draft;
mod entry;
pub mod laws;
mod map;
mod row;
mod table;

pub use map::FrozenMap;
pub use row::{FrozenRow, FrozenRows};
