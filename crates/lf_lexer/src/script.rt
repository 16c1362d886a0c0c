ghost use Rattle.std.specs.Prelude.{◌≡◌, ◌<◌, ◌≤◌, ◌+◌, ◌^◌, [], length, IfOk, IfErr};
ghost use Rattle.lf_lexer.specs.Lexing.{LexesLines};
ghost use Rattle.lf_lexer.specs.Reading.{Spells};
ghost use Rattle.lf_lexer.specs.Refusals.{LexFailsAs};

use crate::indent::close_script;
use crate::levels::Levels;
use crate::lexed::Lexed;
use crate::line::lex_line;
use crate::line_start::LineStart;
use crate::tokens::Tokens;
use lf_base::{MOST_SCRIPT_BYTES, ReadFail, Texts};
use std::alloc::Global;

/// The tokens and texts of a script of at most `MOST_SCRIPT_BYTES`.
///
/// `Refused` comes exactly where the script's bytes spell no tokens, with the kind
/// and the place of its first refusal: `BadByte`, `BadIndent`, `OpenText`,
/// `WideNumber` or `TooDeepIndent`. No clause says when `OutOfMemory` comes.
pub fn lex(alloc: Global, bytes: &[u8]) -> Result<Lexed, ReadFail>
    requires { length bytes.now ≤ MOST_SCRIPT_BYTES }
    ensures spelled { IfOk result (λ lexed. Spells bytes.now lexed.tokens lexed.texts) }
    ensures refused { IfErr result (LexFailsAs bytes.now) }
{
    let mut lexed = Lexed {
        tokens: Tokens::new(alloc),
        texts: Texts::new(alloc)?,
    };
    let mut levels = Levels::new(alloc);
    let mut text = Vec::new(alloc);
    let last = lex_lines(&mut lexed, &mut levels, &mut text, bytes)?;
    close_script(&mut lexed, &mut levels, bytes.len() as u32, last)?;
    Ok(lexed)
}

/// Adds the tokens of all lines, and answers the number of the last line that has
/// a token, or 0 where none has one.
fn lex_lines(
    lexed: &mut Lexed,
    levels: &mut Levels,
    text: &mut Vec<u8>,
    bytes: &[u8],
) -> Result<u32, ReadFail>
    requires start { levels.old ≡ [] }
    requires short { length bytes.now ≤ MOST_SCRIPT_BYTES }
    ensures lexed { IfOk result (LexesLines bytes.now lexed.old lexed.new levels.new) }
    ensures within { IfOk result (λ last. last ≤ length bytes.now + 1) }
    ensures refused { IfErr result (LexFailsAs bytes.now) }
{
    let mut rest = bytes;
    let mut line = LineStart {
        number: 1,
        start: 0,
    };
    let mut last = 0;
    while !rest.is_empty() {
        let read = lex_line(lexed, levels, text, line, rest)?;
        if read.filled {
            last = line.number;
        }
        let (_, after) = rest.split_at(read.len);
        rest = after;
        line = LineStart {
            number: line.number + 1,
            start: line.start + read.len as u32,
        };
    }
    Ok(last)
}
