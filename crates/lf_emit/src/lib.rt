//! The code of a script.
//!
//! It stands on `lf_base`, `lf_parser`, `lf_code` and `lf_codegen`, whose specs define the
//! code of each form. `generate` promises the code of a script, which is valid and ticked, and
//! does what the script means. Expressions are emitted by a loop over what is left of them, and
//! names, functions and `when`s are found by tables.
#![tactic(auto)]

mod emitting;
mod generating;
mod numbering;
mod places;
mod placing;
mod scope;
mod statements;
mod work;

pub use generating::generate;
