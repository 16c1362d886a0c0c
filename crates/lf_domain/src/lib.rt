//! The domain of a behaviour: a store of rows and a table of regions, which keep the
//! counts of one and the same edges.
//!
//! It stands on `lf_graph` for stores, on `lf_regions` for the table, and on `lf_base`
//! and `lf_laws`, which define a state and its edges without counts. Its specs say when
//! a store and a table are those of a state. It promises that `count_borrow`,
//! `count_inner`, `count_content` and the calls that take back leave exactly the counts
//! of one edge more or one less, in at most two steps, and can't fail.
//!
//! `laws` has what callers read off such a store and table for the state, and `callers`
//! a caller that is proved from that alone.
#![tactic(auto)]

mod borrowers;
pub mod callers;
pub mod laws;
mod owners;
mod targets;

pub use borrowers::{count_borrow, uncount_borrow};
pub use owners::{count_content, count_inner, uncount_content, uncount_inner};
pub use targets::target_of;
