//! One behaviour's domain: its objects and regions, and its slots, on which a script
//! works.
//!
//! It stands on `lf_barrier` for writes, on `lf_settle` for dropping, on `lf_transfer` for
//! merging, dissolving, freezing and closing, on `lf_frozen` for the frozen rows, on
//! `lf_domain`, `lf_graph` and `lf_regions` for stores and tables that count the edges of a
//! state, and on `lf_base` and `lf_laws`, which define a state without counts and say what
//! each call makes of it. It works over any store.
//!
//! `Heap` promises that between two calls its state is well-formed, that store and table
//! keep its counts, and that all its rows stay. Each call gives exactly the state that is
//! defined for it, or the refusal, after which nothing has changed.
#![tactic(auto)]

mod access;
mod contents;
mod frozen;
mod heap;
mod openness;
mod parts;
mod questions;
mod suspects;

pub use heap::Heap;
