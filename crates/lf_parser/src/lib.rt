//! The parser: from a script's tokens to its tree, or to its first refusal.
//!
//! It stands on `lf_base`, `lf_lexer` and `sqlite_items`. `parse` promises the tree that
//! the grammar derives from the tokens within the limits, or the first token with
//! which they begin no such script, and why. `laws` promises that some tokens have
//! one such answer only.
#![tactic(auto)]

mod arm;
mod cursor;
mod expr;
mod expressions;
mod halt;
pub mod laws;
mod lines;
mod lists;
mod name;
mod names;
mod nodes;
mod parsing;
mod script;
mod statements;
mod stmt;
mod tree;
mod words;

pub use expr::{Expr, Exprs};
pub use name::{Name, Names};
pub use parsing::parse;
pub use stmt::{Block, Stmt};
pub use tree::{Function, Functions, Tree};
