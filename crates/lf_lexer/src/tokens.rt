use lf_base::{Listed, Place, TextId};

/// A word or a sign of the language.
#[derive(Clone, Copy, Debug, PartialEq, Eq)]
pub enum Mark {
    And,
    Def,
    Drop,
    Elif,
    Else,
    False,
    If,
    Move,
    None,
    Not,
    Or,
    Pass,
    Return,
    True,
    When,
    While,
    With,
    OpenParen,
    CloseParen,
    OpenSquare,
    CloseSquare,
    OpenBrace,
    CloseBrace,
    Comma,
    Colon,
    Dot,
    Assign,
    Equal,
    NotEqual,
    Less,
    LessEqual,
    Greater,
    GreaterEqual,
    Plus,
    Minus,
    Star,
    Slash,
    Percent,
}

/// What a token is.
#[derive(Clone, Copy, Debug, PartialEq, Eq)]
pub enum Lexeme {
    /// A name, by its place among the texts.
    Name(TextId),
    /// A number, by its value.
    Number(i64),
    /// A text, by its place among the texts, without its quotes and with its pairs replaced.
    Text(TextId),
    /// A word or a sign.
    Mark(Mark),
    /// The end of a line that has a token.
    NewLine,
    /// One level of indentation more.
    Indent,
    /// One level of indentation less.
    Dedent,
    /// The end of the script.
    End,
}

/// A token with its place, and its span in the bytes from `start` up to `end`.
/// The span of the last four lexemes is empty.
#[derive(Clone, Copy, Debug, PartialEq, Eq)]
pub struct Token {
    pub lexeme: Lexeme,
    pub place: Place,
    pub start: u32,
    pub end: u32,
}

/// The tokens of a script, in order.
pub type Tokens = Listed<Token>;
