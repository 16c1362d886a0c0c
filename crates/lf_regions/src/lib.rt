//! The table of regions under the heap: which regions there are, and for each how
//! many borrows lead into it and whether it has an owner.
//!
//! It stands on `lf_base` for names, and on `slab`, which keeps the regions beside
//! an index by name. It promises that each call does to the list of regions, by
//! rising name, what its contract says and no more, and that only `new` and
//! `make` can answer `OutOfMemory`. Who owns a region, and whether one is open, is kept nowhere.
//!
//! `laws` has what was proved of the changes of such a list.
#![tactic(auto)]

pub mod laws;
mod region;
mod table;

pub use table::RegionTable;
