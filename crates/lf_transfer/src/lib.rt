//! What changes hands as a whole: a region goes into another one, or is dissolved, and an
//! object is frozen with all that it leads to. And a region is closed: one slot stays, and no
//! other one and no local row leads into it any more.
//!
//! It stands on `lf_domain`, which says when a store and a table are those of a state, on
//! `lf_graph` for stores, on `lf_regions` for the table, on `lf_frozen` for the map of frozen
//! rows, on `lf_barrier` for what lies below a region, and on `lf_base` and `lf_laws`, which
//! define what a merge, a dissolving, a freeze and a close make of a state. It promises that
//! `plan_merge` and `plan_dissolve` refuse exactly by the rules, in their order, and change
//! only the room in the store, that `plan_freeze` refuses and changes nothing, and that
//! `apply_merge`, `apply_dissolve` and `apply_freeze` make what was planned with all counts
//! and flags, without memory; the first two in a number of steps that is linear in what
//! changes its owner. `close` is refused exactly by its rule, and makes its result with the
//! slots, counts and flags, without memory.
//!
//! Each plan is for the state in which it was made. What a call leaves without a
//! justification is its caller's to drop: after a merge the old bridge is suspect enough,
//! after a dissolving nothing is, after a freeze the regions are that `apply_freeze` puts on
//! the list, and after a close the rows that it puts there (`laws`).
#![tactic(auto)]

mod below;
mod bridges;
mod closed_fields;
mod closing;
mod dissolve_plan;
mod dissolving;
mod freeze_plan;
mod freezing;
mod giving;
pub mod laws;
mod letting;
mod localizing;
mod loose;
mod losing;
mod merge_plan;
mod merging;
mod name_list;
mod names;
mod taking;

pub use closing::close;
pub use dissolve_plan::DissolvePlan;
pub use dissolving::{apply_dissolve, plan_dissolve};
pub use freeze_plan::FreezePlan;
pub use freezing::{apply_freeze, plan_freeze};
pub use loose::Loose;
pub use merge_plan::MergePlan;
pub use merging::{apply_merge, plan_merge};
