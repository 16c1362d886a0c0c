//! The write barrier: fields and cowns' contents are written so that the rules of ownership
//! hold, and what the store and the table of regions count stays exact.
//!
//! It stands on `lf_domain`, whose calls count single edges, on `lf_graph` for stores, on
//! `lf_regions` for the table, and on `lf_base` and `lf_laws`, which define what a write
//! makes of a state and say where its result shows a fault. It promises that `plan_write`
//! refuses a write exactly for the first fault that its result would show, and that
//! `apply_write` makes a planned one with all counts and flags, without memory and within
//! a bound of steps; and the same of `check_content` and `apply_content`. `is_below` tells
//! whether a region lies below one of some bridges.
#![tactic(auto)]

mod applying;
mod contents;
mod descent;
mod moves;
mod names;
mod plan;
mod planning;
mod survey;

pub use applying::apply_write;
pub use contents::{apply_content, check_content};
pub use descent::is_below;
pub use plan::WritePlan;
pub use planning::plan_write;
