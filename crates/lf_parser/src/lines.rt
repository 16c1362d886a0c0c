ghost use Rattle.std.specs.Prelude.{◌≡◌, ◌≤◌, MatchOption};
ghost use Rattle.lf_base.specs.declared.limits.TheConstants.{MOST_LINE_TOKENS};
ghost use Rattle.lf_parser.specs.Refusals as spec;

use lf_base::MOST_LINE_TOKENS;
use lf_lexer::{Lexeme, Token};

/// How many tokens of its line have come, after one token more. Line ends and changes of
/// indentation don't count.
fn count_after(count: usize, lexeme: Lexeme) -> usize
    requires { count ≤ MOST_LINE_TOKENS }
    ensures { result ≡ spec.count_after count lexeme }
{
    match lexeme {
        Lexeme::NewLine => 0,
        Lexeme::Indent | Lexeme::Dedent => count,
        _ => count + 1,
    }
}

/// The number of the first token that is one too many on its line.
pub fn first_past(tokens: &[Token]) -> Option<usize>
    ensures { MatchOption result (spec.LinesFit tokens.now) (spec.IsFirstPast tokens.now) }
{
    let mut count = 0;
    for (index, token) in tokens.iter().enumerate() {
        count = count_after(count, token.lexeme);
        if count > MOST_LINE_TOKENS {
            return Some(index);
        }
    }
    None
}
