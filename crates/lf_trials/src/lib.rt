//! What every store of rows has to pass, and the tests of the stores, of the table of
//! regions, of the counts that both keep of edges, of settling, of the write barrier, of
//! regions that change hands, and of maps of frozen rows and of heaps.
//!
//! It stands on `lf_heap`, `lf_transfer`, `lf_barrier`, `lf_settle`, `lf_domain`, `lf_graph`, `lf_poolstore`, `lf_regions`, `lf_frozen`, `lf_laws` and `lf_base`. `trials` has calls of any store
//! that ask for nothing, and `cases` drives them by a table: `failed_case` names the first
//! case that a store fails. A new store is added to `store_tests`, with one test.
#![tactic(auto)]

pub mod barrier_cases;
#[cfg(test)]
mod barrier_tests;
mod calls;
pub mod cases;
mod contents;
pub mod counted_edges;
#[cfg(test)]
mod domain_tests;
pub mod freeze_cases;
pub mod frozen_maps;
#[cfg(test)]
mod frozen_tests;
pub mod heap_calls;
pub mod heap_rows;
#[cfg(test)]
mod heap_tests;
mod moved_regions;
#[cfg(test)]
mod region_tests;
#[cfg(test)]
mod settle_tests;
pub mod settled_chain;
pub mod settled_rows;
#[cfg(test)]
mod store_tests;
pub mod transfer_cases;
#[cfg(test)]
mod transfer_tests;
pub mod trials;
