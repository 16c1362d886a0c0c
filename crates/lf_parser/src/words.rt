ghost use Rattle.std.specs.Prelude.{◌≡◌, Some};
ghost use Rattle.lf_parser.specs.Kinds.{is, mark_kind};
ghost use Rattle.lf_parser.specs.Plain.{plain_value};
ghost use Rattle.lf_parser.specs.Words as spec;

use crate::expr::Expr;
use crate::expressions::Level;
use crate::name::Name;
use lf_base::Op;
use lf_lexer::{Lexeme, Mark, Token};

/// Whether a token is this word or sign.
pub fn is_mark(token: Token, mark: Mark) -> bool
    ensures { result ≡ is (mark_kind mark) (Some token) }
{
    match token.lexeme {
        Lexeme::Mark(found) => found == mark,
        _ => false,
    }
}

/// The name that a token is, with its place.
pub fn name_of(token: Token) -> Option<Name>
    ensures { result ≡ spec.name_of token }
{
    match token.lexeme {
        Lexeme::Name(id) => Some(Name {
            id,
            place: token.place,
        }),
        _ => None,
    }
}

/// The expression that a number, a text, `None`, `True` or `False` is.
pub fn literal_of(token: Token) -> Option<Expr>
    ensures { plain_value result ≡ spec.literal_of token }
{
    match token.lexeme {
        Lexeme::Number(number) => Some(Expr::Number(number)),
        Lexeme::Text(text) => Some(Expr::Text(text)),
        Lexeme::Mark(Mark::None) => Some(Expr::None),
        Lexeme::Mark(Mark::True) => Some(Expr::True),
        Lexeme::Mark(Mark::False) => Some(Expr::False),
        _ => None,
    }
}

/// The operator of a level that a token is.
pub fn operator_of(level: Level, token: Token) -> Option<Op>
    ensures { result ≡ spec.operator_of level token }
{
    match (level, token.lexeme) {
        (Level::Compare, Lexeme::Mark(Mark::Equal)) => Some(Op::Eq),
        (Level::Compare, Lexeme::Mark(Mark::NotEqual)) => Some(Op::Ne),
        (Level::Compare, Lexeme::Mark(Mark::Less)) => Some(Op::Lt),
        (Level::Compare, Lexeme::Mark(Mark::LessEqual)) => Some(Op::Le),
        (Level::Compare, Lexeme::Mark(Mark::Greater)) => Some(Op::Gt),
        (Level::Compare, Lexeme::Mark(Mark::GreaterEqual)) => Some(Op::Ge),
        (Level::Sum, Lexeme::Mark(Mark::Plus)) => Some(Op::Add),
        (Level::Sum, Lexeme::Mark(Mark::Minus)) => Some(Op::Sub),
        (Level::Term, Lexeme::Mark(Mark::Star)) => Some(Op::Mul),
        (Level::Term, Lexeme::Mark(Mark::Slash)) => Some(Op::Div),
        (Level::Term, Lexeme::Mark(Mark::Percent)) => Some(Op::Rem),
        _ => None,
    }
}
