ghost use Rattle.std.specs.Prelude.{◌≡◌};
ghost use Rattle.lf_parser.specs.Kinds.{head, is, mark_kind, DEDENT, END, NAME, NEW_LINE};
ghost use Rattle.lf_parser.specs.Parsers.{Reads, allow, take};
ghost use Rattle.lf_parser.specs.Plain.{plain_expr};
ghost use Rattle.lf_parser.specs.ReadingFunctions.{sign, a_literal, a_name, at_suffix, line_at, separator};
ghost use Rattle.lf_parser.specs.Words as words;
ghost use Rattle.lf_parser.specs.Limits.{part_fits};

use crate::expr::Expr;
use crate::expressions::Level;
use crate::halt::{Cause, Halt};
use crate::name::Name;
use crate::words::{is_mark, literal_of, name_of, operator_of};
use lf_base::{MOST_PARTS, Op};
use lf_lexer::{Lexeme, Mark, Token};
use std::marker::Model;

/// The tokens that are still to be read. Where a call refuses, it stands at the
/// refused token.
#[derive(Drop)]
pub struct Cursor<'a> {
    rest: &'a [Token],
}

impl<'a> Model for Cursor<'a> {
    ghost use Rattle.std.specs.Prelude.{List};
    ghost use Rattle.lf_lexer.specs.declared.tokens.Token.{Token};

    ghost Value = { List Token };

    ghost view = { λ c. c.rest.now };
}

impl<'a> Cursor<'a> {
    pub fn new(rest: &'a [Token]) -> Cursor<'a>
        ensures { result ≡ rest.now }
    {
        Cursor { rest }
    }

    /// The tokens left.
    pub fn rest(&self) -> &'a [Token]
        ensures { result.now ≡ self.now }
    {
        self.rest
    }

    /// The next token.
    pub fn peek(&self) -> Option<Token>
        ensures { result ≡ head self.now }
    {
        self.rest.first().copied()
    }

    /// Whether the next token is this word or sign.
    pub fn is_mark(&self, mark: Mark) -> bool
        ensures { result ≡ is (mark_kind mark) (head self.now) }
    {
        match self.peek() {
            Some(token) => is_mark(token, mark),
            None => false,
        }
    }

    /// Whether the next token is `.` or `[`.
    pub fn is_suffix(&self) -> bool
        ensures { result ≡ at_suffix (head self.now) }
    {
        self.is_mark(Mark::Dot) || self.is_mark(Mark::OpenSquare)
    }

    /// Whether the next token is a name.
    pub fn is_name(&self) -> bool
        ensures { result ≡ is NAME (head self.now) }
    {
        match self.peek() {
            Some(token) => matches!(token.lexeme, Lexeme::Name(_)),
            None => false,
        }
    }

    /// Whether the next token ends a line.
    pub fn is_line_end(&self) -> bool
        ensures { result ≡ is NEW_LINE (head self.now) }
    {
        match self.peek() {
            Some(token) => token.lexeme == Lexeme::NewLine,
            None => false,
        }
    }

    /// Whether the next token ends a block.
    pub fn is_dedent(&self) -> bool
        ensures { result ≡ is DEDENT (head self.now) }
    {
        match self.peek() {
            Some(token) => token.lexeme == Lexeme::Dedent,
            None => false,
        }
    }

    /// Whether the next token is the end of the script, or no token is left.
    pub fn is_end(&self) -> bool
        ensures { result ≡ is END (head self.now) }
    {
        match self.peek() {
            Some(token) => token.lexeme == Lexeme::End,
            None => true,
        }
    }

    /// The line of the next token, or 0 where none is left.
    pub fn line(&self) -> u32
        ensures { result ≡ line_at (head self.now) }
    {
        match self.peek() {
            Some(token) => token.place.line,
            None => 0,
        }
    }

    /// Takes a word or sign where it is allowed, and else refuses it for a cause.
    pub fn allow(&mut self, mark: Mark, allowed: bool, cause: Cause) -> Result<Token, Halt>
        ensures { Reads (λ t. t) (allow allowed cause (words.mark_of mark) self.old) result self.new }
    {
        let [token, rest @ ..] = self.rest else {
            return Err(Halt::Refused(Cause::Unexpected));
        };
        if !is_mark(*token, mark) {
            return Err(Halt::Refused(Cause::Unexpected));
        }
        if !allowed {
            return Err(Halt::Refused(cause));
        }
        self.rest = rest;
        Ok(*token)
    }

    /// Takes a word or sign.
    pub fn sign(&mut self, mark: Mark) -> Result<Token, Halt>
        ensures { Reads (λ t. t) (sign mark self.old) result self.new }
    {
        self.allow(mark, true, Cause::Unexpected)
    }

    /// Takes the comma after so many parts of a list.
    #[tactic(auto, unfolding(crate::specs::ReadingFunctions::separator))]
    pub fn separator(&mut self, count: usize) -> Result<Token, Halt>
        ensures { Reads (λ t. t) (separator part_fits count self.old) result self.new }
    {
        self.allow(Mark::Comma, count < MOST_PARTS, Cause::TooMany)
    }

    /// Takes a name.
    pub fn name(&mut self) -> Result<Name, Halt>
        ensures { Reads (λ x. x) (a_name self.old) result self.new }
    {
        let [token, rest @ ..] = self.rest else {
            return Err(Halt::Refused(Cause::Unexpected));
        };
        let Some(name) = name_of(*token) else {
            return Err(Halt::Refused(Cause::Unexpected));
        };
        self.rest = rest;
        Ok(name)
    }

    /// Takes a number, a text, `None`, `True` or `False`.
    #[tactic(auto, unfolding(crate::specs::ReadingFunctions::a_literal))]
    pub fn literal(&mut self) -> Result<Expr, Halt>
        ensures { Reads plain_expr (a_literal self.old) result self.new }
    {
        let [token, rest @ ..] = self.rest else {
            return Err(Halt::Refused(Cause::Unexpected));
        };
        let Some(literal) = literal_of(*token) else {
            return Err(Halt::Refused(Cause::Unexpected));
        };
        self.rest = rest;
        Ok(literal)
    }

    /// Whether the next token is an operator of this level.
    pub fn is_operator(&self, level: Level) -> bool
        ensures { result ≡ words.is_operator level (head self.now) }
    {
        match self.peek() {
            Some(token) => operator_of(level, token).is_some(),
            None => false,
        }
    }

    /// Takes an operator of this level.
    pub fn operator(&mut self, level: Level) -> Result<Op, Halt>
        ensures { Reads (λ op. op) (take (words.operator_of level) self.old) result self.new }
    {
        let [token, rest @ ..] = self.rest else {
            return Err(Halt::Refused(Cause::Unexpected));
        };
        let Some(op) = operator_of(level, *token) else {
            return Err(Halt::Refused(Cause::Unexpected));
        };
        self.rest = rest;
        Ok(op)
    }

    /// Takes the end of a line.
    pub fn new_line(&mut self) -> Result<Token, Halt>
        ensures { Reads (λ t. t) (take words.new_line self.old) result self.new }
    {
        let [token, rest @ ..] = self.rest else {
            return Err(Halt::Refused(Cause::Unexpected));
        };
        if token.lexeme != Lexeme::NewLine {
            return Err(Halt::Refused(Cause::Unexpected));
        }
        self.rest = rest;
        Ok(*token)
    }

    /// Takes the beginning of a block.
    pub fn indent(&mut self) -> Result<Token, Halt>
        ensures { Reads (λ t. t) (take words.indent self.old) result self.new }
    {
        let [token, rest @ ..] = self.rest else {
            return Err(Halt::Refused(Cause::Unexpected));
        };
        if token.lexeme != Lexeme::Indent {
            return Err(Halt::Refused(Cause::Unexpected));
        }
        self.rest = rest;
        Ok(*token)
    }

    /// Takes the end of a block.
    pub fn dedent(&mut self) -> Result<Token, Halt>
        ensures { Reads (λ t. t) (take words.dedent self.old) result self.new }
    {
        let [token, rest @ ..] = self.rest else {
            return Err(Halt::Refused(Cause::Unexpected));
        };
        if token.lexeme != Lexeme::Dedent {
            return Err(Halt::Refused(Cause::Unexpected));
        }
        self.rest = rest;
        Ok(*token)
    }

    /// Takes the end of the script.
    pub fn end(&mut self) -> Result<Token, Halt>
        ensures { Reads (λ t. t) (take words.the_end self.old) result self.new }
    {
        let [token, rest @ ..] = self.rest else {
            return Err(Halt::Refused(Cause::Unexpected));
        };
        if token.lexeme != Lexeme::End {
            return Err(Halt::Refused(Cause::Unexpected));
        }
        self.rest = rest;
        Ok(*token)
    }
}
