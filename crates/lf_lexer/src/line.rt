ghost use Rattle.std.specs.Prelude.{◌≡◌, ◌<◌, ◌≤◌, ◌+◌, ◌^◌, length, IfOk, IfErr, OnOk};
ghost use Rattle.lf_lexer.specs.Front as spec;
ghost use Rattle.lf_lexer.specs.LineRest.{line_rest};
ghost use Rattle.lf_lexer.specs.SourceLines.{full_line_len};
ghost use Rattle.lf_lexer.specs.Pieces.{StopsAt};
ghost use Rattle.lf_lexer.specs.Lexing.{with_front, step_at, StepsWithin, Descend, LexesPieces, RefusesPieces, LexesLine, RefusesLine};

use crate::bytes::{ends_tokens, full_line_len, split_indent};
use crate::front::{Front, front_of};
use crate::indent::lex_indent;
use crate::levels::Levels;
use crate::lexed::Lexed;
use crate::line_start::LineStart;
use crate::tokens::Lexeme;
use lf_base::{OutOfMemory, ReadFail, RefusalKind};

/// What one step took from the front of a line's rest.
#[derive(Clone, Copy, Debug, PartialEq, Eq)]
pub enum Step {
    /// Nothing: the line's tokens end here.
    End,
    Space,
    /// A token of so many bytes.
    Piece(usize),
    /// Nothing: the byte after so many is to blame.
    Refused(RefusalKind, usize),
}

/// Where the tokens of a line end: places in it.
#[derive(Clone, Copy, Debug, PartialEq, Eq)]
struct TokensEnd {
    /// After the last one; 0 where there is none.
    end: u32,
    /// Where a comment or the line's end begins.
    stop: u32,
}

/// What is known of a line once it has been read.
#[derive(Clone, Copy, Debug, PartialEq, Eq)]
pub struct LineRead {
    /// Whether it has a token.
    pub filled: bool,
    /// The number of its bytes, with its end.
    pub len: usize,
}

/// Adds the token at the front of the rest of a line, which begins at `at` in it.
/// `rest` is all that is left of the script, and `text` a buffer for what a text means.
#[tactic(auto, unfolding(crate::specs::Lexing::with_front, crate::specs::Lexing::step_at))]
fn lex_step(
    lexed: &mut Lexed,
    text: &mut Vec<u8>,
    line: LineStart,
    at: u32,
    rest: &[u8],
) -> Result<Step, OutOfMemory>
    requires { line.start + at + length rest.now + 1 < 2 ^ 32 }
    ensures lexed { OnOk result (lexed.new ≡ with_front line lexed.old at (line_rest rest.now) (spec.front (line_rest rest.now))) }
    ensures step { IfOk result (λ step. step ≡ step_at (spec.front (line_rest rest.now))) }
    ensures within { IfOk result (λ step. StepsWithin (length rest.now) step) }
{
    match front_of(text, rest)? {
        Front::End => Ok(Step::End),
        Front::Space => Ok(Step::Space),
        Front::Name(len) => {
            lexed.push_name(line, at, &rest[..len])?;
            Ok(Step::Piece(len))
        }
        Front::Number(value, len) => {
            lexed.push(line.token(at, Lexeme::Number(value), len as u32))?;
            Ok(Step::Piece(len))
        }
        Front::Text(len) => {
            lexed.push_quoted(line, at, text.as_slice(), len)?;
            Ok(Step::Piece(len + 2))
        }
        Front::Sign(mark, len) => {
            lexed.push(line.token(at, Lexeme::Mark(mark), len as u32))?;
            Ok(Step::Piece(len))
        }
        Front::Refused(kind, offset) => Ok(Step::Refused(kind, offset)),
    }
}

/// Adds the tokens of a line from its place `indent` on; `bytes` is all that is left
/// of the script there. Refused exactly where no tokens spell the line's rest, at the
/// first byte that is to blame.
fn lex_pieces(
    lexed: &mut Lexed,
    text: &mut Vec<u8>,
    line: LineStart,
    indent: u32,
    bytes: &[u8],
) -> Result<TokensEnd, ReadFail>
    requires { line.start + indent + length bytes.now + 1 < 2 ^ 32 }
    ensures lexed { IfOk result (λ tokens. LexesPieces line indent (line_rest bytes.now) lexed.old lexed.new tokens.end) }
    ensures end { IfOk result (λ tokens. tokens.end ≤ tokens.stop) }
    ensures stop { IfOk result (λ tokens. StopsAt indent (line_rest bytes.now) tokens.stop) }
    ensures within { IfOk result (λ tokens. tokens.stop ≤ indent + length (line_rest bytes.now)) }
    ensures refused { IfErr result (RefusesPieces line indent (line_rest bytes.now)) }
{
    let mut rest = bytes;
    let mut at: u32 = indent;
    let mut end: u32 = 0;
    loop {
        match lex_step(lexed, text, line, at, rest)? {
            Step::End => return Ok(TokensEnd { end, stop: at }),
            Step::Space => {
                let (_, after) = rest.split_at(1);
                rest = after;
                at += 1;
            }
            Step::Piece(len) => {
                let (_, after) = rest.split_at(len);
                rest = after;
                at += len as u32;
                end = at;
            }
            Step::Refused(kind, offset) => {
                return Err(ReadFail::Refused(line.refusal(kind, at + offset as u32)));
            }
        }
    }
}

/// Adds the levels, the tokens and the end of a line, if it has any: a blank line has
/// none. `bytes` is all that is left of the script. Refused exactly where the line is
/// not spelled, first for its indentation and then for its first byte that is to blame.
pub fn lex_line(
    lexed: &mut Lexed,
    levels: &mut Levels,
    text: &mut Vec<u8>,
    line: LineStart,
    bytes: &[u8],
) -> Result<LineRead, ReadFail>
    requires short { line.start + length bytes.now + 1 < 2 ^ 32 }
    requires descend { Descend levels.old }
    ensures lexed { IfOk result (λ read. LexesLine line (line_rest bytes.now) levels.old levels.new lexed.old lexed.new read.filled) }
    ensures len { IfOk result (λ read. read.len ≡ full_line_len bytes.now) }
    ensures refused { IfErr result (RefusesLine line levels.old (line_rest bytes.now)) }
{
    let (indent, after) = split_indent(bytes);
    if ends_tokens(after) {
        return Ok(LineRead {
            filled: false,
            len: indent + full_line_len(after),
        });
    }
    lex_indent(lexed, levels, line, indent as u32)?;
    let tokens = lex_pieces(lexed, text, line, indent as u32, after)?;
    lexed.push(line.token(tokens.end, Lexeme::NewLine, 0))?;
    let stop = tokens.stop as usize;
    let (_, left) = bytes.split_at(stop);
    Ok(LineRead {
        filled: true,
        len: stop + full_line_len(left),
    })
}
