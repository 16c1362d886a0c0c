//! The lexer: from a script's bytes to its tokens and texts, or to its first refusal.
//!
//! It stands on `lf_base`. `lex` promises the tokens, places, spans and texts that
//! the script's bytes spell, or the first refusal of its bytes, with kind and place.
//! `laws` promises that each list of bytes is spelled once or refused once, and never
//! both, and says how the tokens of every script lie.
#![tactic(auto)]

mod bytes;
mod front;
mod indent;
pub mod laws;
mod levels;
mod lexed;
mod line;
mod line_start;
mod marks;
mod script;
mod texts;
mod tokens;

pub use lexed::Lexed;
pub use script::lex;
pub use tokens::{Lexeme, Mark, Token, Tokens};
