//! The core of a run: who waits, what is kept, what was done. Contents are seen
//! by what `Stored` tells of them alone.
//!
//! It stands on `lf_queue` for who may start, on `lf_frozen` for frozen rows, and on the laws of
//! rows. It has the definitions of a world of behaviours, of the world in which the behaviours of an
//! order ran one after the other, and of a lawful actor.
//!
//! It promises that each call of `Core` does to its world what its contract says, that a refused
//! `commit` changes nothing and hands its outcome back, and that only `new`, `take` and `commit` take
//! memory. `laws` has what was proved of worlds, and that a core whose outcomes are a lawful
//! actor's is its journal run singly.
#![tactic(auto)]

mod actor;
pub mod callers;
mod contents;
#[cfg(test)]
mod core_tests;
mod ending;
mod journal;
pub mod laws;
mod log;
mod run_core;

pub use actor::{Actor, Outcome, Task};
pub use contents::Contents;
pub use journal::{Entry, Journal};
pub use run_core::Core;
