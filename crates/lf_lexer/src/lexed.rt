ghost use Rattle.std.specs.Prelude.{◌≡◌, ◌<◌, ◌+◌, ◌^◌, length, OnOk};
ghost use Rattle.lf_lexer.specs.Lexed.{with_token, with_name, with_quoted};

use crate::line_start::LineStart;
use crate::tokens::{Lexeme, Token, Tokens};
use lf_base::{OutOfMemory, Texts};

/// The tokens of a script, and the texts that they name.
#[derive(Drop)]
pub struct Lexed {
    pub tokens: Tokens,
    pub texts: Texts,
}

impl Lexed {
    /// Adds a token.
    pub(crate) fn push(&mut self, token: Token) -> Result<(), OutOfMemory>
        ensures { OnOk result (self.new ≡ with_token self.old token) }
    {
        match self.tokens.push(token) {
            Ok(()) => Ok(()),
            Err(_) => Err(OutOfMemory),
        }
    }

    /// Adds the token of a name whose first byte stands at `at` in its line.
    pub(crate) fn push_name(
        &mut self,
        line: LineStart,
        at: u32,
        name: &[u8],
    ) -> Result<(), OutOfMemory>
        requires { line.start + at + length name.now + 1 < 2 ^ 32 }
        ensures { OnOk result (self.new ≡ with_name line self.old at name.now) }
    {
        let id = self.texts.intern(name)?;
        self.push(line.token(at, Lexeme::Name(id), name.len() as u32))
    }

    /// Adds the token of this text, which has so many bytes between its quotes, and
    /// whose first byte stands at `at` in its line.
    pub(crate) fn push_quoted(
        &mut self,
        line: LineStart,
        at: u32,
        text: &[u8],
        len: usize,
    ) -> Result<(), OutOfMemory>
        requires { line.start + at + len + 3 < 2 ^ 32 }
        ensures { OnOk result (self.new ≡ with_quoted line self.old at text.now len) }
    {
        let id = self.texts.intern(text)?;
        self.push(line.token(at, Lexeme::Text(id), len as u32 + 2))
    }
}
