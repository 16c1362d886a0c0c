ghost use Rattle.std.specs.Prelude.{◌≡◌, ◌<◌, ◌+◌, ◌^◌};
ghost use Rattle.lf_lexer.specs.Places.{place_at, token_at};
ghost use Rattle.lf_lexer.specs.Refusals.{refusal_at};

use crate::tokens::{Lexeme, Token};
use lf_base::{Place, Refusal, RefusalKind};

/// Where a line begins: its number, counted from 1, and the place of its first
/// byte in the script.
#[derive(Clone, Copy, Debug, PartialEq, Eq)]
pub struct LineStart {
    pub number: u32,
    pub start: u32,
}

impl LineStart {
    /// The token of this line whose first byte stands at `at` in it.
    pub fn token(self, at: u32, lexeme: Lexeme, len: u32) -> Token
        requires { self.start + at + len + 1 < 2 ^ 32 }
        ensures { result ≡ token_at self at lexeme len }
    {
        Token {
            lexeme,
            place: self.place(at),
            start: self.start + at,
            end: self.start + at + len,
        }
    }

    /// The refusal at the byte of this line before which stand `at` others.
    pub fn refusal(self, kind: RefusalKind, at: u32) -> Refusal
        requires { at + 1 < 2 ^ 32 }
        ensures { result ≡ refusal_at self kind at }
    {
        Refusal {
            kind,
            place: self.place(at),
        }
    }

    /// The place of the byte of this line before which stand `at` others.
    fn place(self, at: u32) -> Place
        requires { at + 1 < 2 ^ 32 }
        ensures { result ≡ place_at self at }
    {
        Place {
            line: self.number,
            column: at + 1,
        }
    }
}
