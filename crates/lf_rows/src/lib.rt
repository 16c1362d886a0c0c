//! The worked rows: tests that cross crates. Each row is a call of the program
//! over a source and a sink in memory, with the text, the status and the journal
//! that it must give. A row is added to a table; the loops stay as they are.
//!
//! `tree_rows` and `name_rows` read scripts without running them, `code_rows` generates the code
//! of some, and `lexer_tests`, `outside_tests` and `text_tests` call what stands below the program.
//!
//! It stands on `lf_app`, `lf_emit`, `lf_codegen`, `lf_code`, `lf_parser`, `lf_lexer`, `lf_base` and
//! `lf_outside`, and promises nothing.
#![tactic(auto)]

#[cfg(test)]
mod accounts;
#[cfg(test)]
mod check_rows;
#[cfg(test)]
mod code_rows;
#[cfg(test)]
mod deepest_script;
#[cfg(test)]
mod fault_rows;
#[cfg(test)]
mod lexer_tests;
#[cfg(test)]
mod listing_rows;
#[cfg(test)]
mod long_runs;
#[cfg(test)]
mod long_scripts;
#[cfg(test)]
mod name_rows;
#[cfg(test)]
mod not_built_rows;
#[cfg(test)]
mod outside_tests;
#[cfg(test)]
mod ownership_rows;
#[cfg(test)]
mod refusal_rows;
#[cfg(test)]
mod row;
#[cfg(test)]
mod rows;
#[cfg(test)]
mod run_rows;
#[cfg(test)]
mod stream_rows;
#[cfg(test)]
mod text_tests;
#[cfg(test)]
mod transfer_rows;
#[cfg(test)]
mod tree_rows;
#[cfg(test)]
mod word_rows;
