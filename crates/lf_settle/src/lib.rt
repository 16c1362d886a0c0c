//! Settling: the rows that nothing justifies any more are dropped, with all that
//! goes because of them.
//!
//! It stands on `lf_domain` for when a store of rows (`lf_graph`) and a table of regions
//! (`lf_regions`) count the edges of a state, and on `lf_base` and `lf_laws` for what stays
//! and what suspects must show. `Work` is a list of suspects: places where an edge, an
//! owner or a borrow was lost. `lose_borrow`, `lose_inner` and `lose_content` take an edge
//! out of the counts and note its target where that was the last of them; `drop_field` does
//! so with a field. `settle` takes one suspect after the other.
//!
//! It promises that afterwards just the rows that stay are there, with their counts and
//! flags. It takes no memory and doesn't recurse, and its steps are bounded by what it is
//! handed and what it drops. `laws` has what callers conclude, and
//! `callers` a caller that is proved from the clauses alone.
#![tactic(auto)]

pub mod callers;
mod dropping;
mod judging;
pub mod laws;
mod losses;
mod settling;
mod verdict;
mod work;

pub use dropping::drop_field;
pub use losses::{lose_borrow, lose_content, lose_inner};
pub use settling::settle;
pub use work::{Suspect, Work};
