//! One behaviour on its way through its code, on a heap.
//!
//! It stands on `lf_code`, which says what code is and what an instruction does to a plain
//! state, on `lf_heap`, which makes each change of such a state, and on `lf_base`, `lf_graph`
//! and `lf_laws`. It works over any store.
//!
//! `Running` promises that one step is one instruction of valid code as `lf_code` defines
//! it, that no step finds too few operands or leaves its body, and that ticked code comes to
//! its end. `laws` promises that a behaviour that was run to its end leaves what its code makes
//! of its job.
#![tactic(auto)]

mod acting;
mod body_vars;
mod forms;
mod frame;
mod heap_parts;
pub mod laws;
mod operators;
mod progress;
mod running;
mod spelling;
mod stage;

pub use forms::runs;
pub use running::{Ended, Running, Stepped};
