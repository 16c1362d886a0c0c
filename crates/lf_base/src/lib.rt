//! The ids, values, lists and refusals that every layer of Lungfish speaks of.
//!
//! It stands on no other crate of Lungfish. Its types are plain data. What each
//! one promises: a list type is, to contracts, the list of its items, and `Texts`
//! the list of its texts, none of them twice.
//!
//! Its specs say what ownership, counts and dropping are, on a plain state without
//! counts and marks, and its proofs are a small library of lemmas on lists, names and
//! texts. What was proved of ownership stands in `lf_laws`.
#![tactic(auto)]

mod behaviours;
mod faults;
mod ids;
mod interned;
mod limits;
mod links;
mod lists;
mod memory;
mod questions;
mod refusals;
mod steps;
mod stored;
pub mod text_laws;
mod values;

pub use behaviours::{Job, Spawn};
pub use faults::{Fault, FaultAt, HeapFail};
pub use ids::{CownId, ObjId, TextId};
pub use interned::Texts;
pub use limits::{
    DEFAULT_TICKS, MOST_BEHAVIOURS, MOST_ELIFS, MOST_EXPRESSION_LEVELS, MOST_FRAMES,
    MOST_INDENT_LEVELS, MOST_LINE_TOKENS, MOST_MADE, MOST_PARTS, MOST_PRINTED_BYTES,
    MOST_SCRIPT_BYTES, MOST_SPAWNS, MOST_TICKS,
};
pub use links::Link;
pub use lists::{Cowns, Fields, Held, Line, Lines, Listed, Order, Spawns, Values};
pub use memory::OutOfMemory;
pub use questions::{Answer, Label, Question};
pub use refusals::{Place, ReadFail, Refusal, RefusalKind};
pub use steps::Steps;
pub use stored::Stored;
pub use values::{Key, Op, Owner, Value};
