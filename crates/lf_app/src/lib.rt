//! The whole program but its `main`: from the words of the command line and a
//! source to a status and what a sink gets.
//!
//! It stands on `lf_base`, `lf_code`, `lf_codegen`, `lf_emit`, `lf_graph`, `lf_heap`, `lf_machine`,
//! `lf_outside` and `lf_parser`, and works over any store.
//! Its promise is the clause of [`tool`] and [`top`]: what each status says, which is that the sink
//! got the text that is due for the script that the source gave, and the report its
//! journal. `laws` promises that each script has one such text and journal.
#![tactic(auto)]

mod commands;
pub mod laws;
mod main_run;
mod outcomes;
mod program;
mod reports;
mod run_text;
mod script;
mod statuses;
mod ticks;
mod unbuilt;
mod word_list;
pub mod worked_rows;

pub use commands::Command;
pub use program::{MainStore, tool, top};
pub use reports::Report;
pub use statuses::Status;
pub use word_list::Word;
