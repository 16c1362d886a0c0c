//! Scripts on which the definitions of meaning and code are computed.
//!
//! It stands on `lf_base`, `lf_parser`, `lf_code` and `lf_codegen`. No code runs here: each
//! row is a tree, with what it prints and how it ends by its meaning and by its code.
#![tactic(auto)]

pub mod control_rows;
pub mod fault_rows;
pub mod limit_rows;
pub mod object_rows;
pub mod when_rows;
