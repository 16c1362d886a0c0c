//! The code of a script, and what it does on a plain state.
//!
//! It stands on `lf_base`, whose specs say what each call on a behaviour's state makes of
//! it, on `lf_laws`, and on `lf_outside` for sinks. Its specs define one instruction over
//! such a state with frames, ticks, lines and spawns (`CodeStep`), a behaviour run to its
//! end by them (`RunCode`), valid and ticked code, and the listing. `Code::check` promises
//! valid code exactly where bodies and texts are that, `write_listing` the listing's bytes,
//! and `laws` that ticked code ends.
#![tactic(auto)]

mod body;
mod code;
mod fits;
mod instr;
pub mod laws;
mod listing;
mod operand_counts;
mod var_set;

pub use body::{Bodies, Body, BodyName, Instrs, Placed};
pub use code::{Code, CodeFail};
pub use instr::{AskName, BuiltName, Instr, Prefix, Vars};
pub use listing::write_listing;
