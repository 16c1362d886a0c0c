//! What the names of a script stand for, what the script means, and its code.
//!
//! It stands on `lf_base`, `lf_lexer`, `lf_parser` and `lf_code`. `resolve` promises of a
//! tree that each name and each call in it is right, and the variables of each frame in
//! the order of their numbers, or the refusal that stands first. `read` promises of
//! a script's bytes the resolved tree that they spell, or their first refusal. `laws`
//! promises that each script has one such answer, and `code_laws` that its code is valid and
//! does what its tree means.
#![tactic(auto)]

mod called;
mod callee;
mod callees;
pub mod code_laws;
mod first_refusal;
mod frame;
mod frames;
pub mod laws;
mod lists;
mod mention;
mod mentions;
mod name_set;
mod resolved;
mod resolving;
mod script;
mod variables;

pub use called::Called;
pub use frame::Frame;
pub use frames::{joined, when_frames_of};
pub use resolved::Resolved;
pub use resolving::resolve;
pub use script::{Script, read};
pub use variables::{body_names, distinct};
