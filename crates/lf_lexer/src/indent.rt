ghost use Rattle.std.specs.Prelude.{◌≡◌, ◌<◌, ◌≤◌, ◌+◌, ◌^◌, length, IfOk, IfErr, OnOk};
ghost use Rattle.lf_lexer.specs.Levels as spec;
ghost use Rattle.lf_lexer.specs.Lexing.{Descend, LexesIndent, RefusesIndent, ClosesDown, AddsPieces};
ghost use Rattle.lf_lexer.specs.Reading.{closing};

use crate::levels::Levels;
use crate::lexed::Lexed;
use crate::line_start::LineStart;
use crate::tokens::Lexeme;
use lf_base::{MOST_INDENT_LEVELS, OutOfMemory, ReadFail, RefusalKind};

/// Opens or closes levels for a line of this indentation, and adds their tokens.
/// `BadIndent` comes exactly where a smaller indentation equals no level, and
/// `TooDeepIndent` where a larger one would be one level too many.
pub fn lex_indent(
    lexed: &mut Lexed,
    levels: &mut Levels,
    line: LineStart,
    indent: u32,
) -> Result<(), ReadFail>
    requires room { line.start + indent + 1 < 2 ^ 32 }
    requires descend { Descend levels.old }
    ensures lexed { OnOk result (LexesIndent line indent levels.old levels.new lexed.old lexed.new) }
    ensures refused { IfErr result (RefusesIndent line indent levels.old) }
{
    if levels.innermost() < indent {
        return open_level(lexed, levels, line, indent);
    }
    close_levels(lexed, levels, line, indent)?;
    if levels.innermost() != indent {
        return Err(ReadFail::Refused(line.refusal(RefusalKind::BadIndent, indent)));
    }
    Ok(())
}

/// Opens a level.
fn open_level(
    lexed: &mut Lexed,
    levels: &mut Levels,
    line: LineStart,
    indent: u32,
) -> Result<(), ReadFail>
    requires room { line.start + indent + 1 < 2 ^ 32 }
    requires descend { Descend levels.old }
    requires deeper { spec.innermost levels.old < indent }
    ensures lexed { OnOk result (LexesIndent line indent levels.old levels.new lexed.old lexed.new) }
    ensures refused { IfErr result (RefusesIndent line indent levels.old) }
{
    if levels.len() >= MOST_INDENT_LEVELS {
        return Err(ReadFail::Refused(line.refusal(RefusalKind::TooDeepIndent, indent)));
    }
    levels.push(indent)?;
    lexed.push(line.token(indent, Lexeme::Indent, 0))?;
    Ok(())
}

/// Closes the levels that are larger than this indentation.
fn close_levels(
    lexed: &mut Lexed,
    levels: &mut Levels,
    line: LineStart,
    indent: u32,
) -> Result<(), OutOfMemory>
    requires room { line.start + indent + 1 < 2 ^ 32 }
    requires descend { Descend levels.old }
    ensures { OnOk result (ClosesDown line indent levels.old levels.new lexed.old lexed.new) }
{
    while levels.innermost() > indent {
        levels.close();
        lexed.push(line.token(indent, Lexeme::Dedent, 0))?;
    }
    Ok(())
}

/// Closes all levels, and adds the end of a script of so many bytes, `last` being
/// the number of its last line that has a token, or 0 where none has one.
pub fn close_script(
    lexed: &mut Lexed,
    levels: &mut Levels,
    size: u32,
    last: u32,
) -> Result<(), OutOfMemory>
    requires { (size + 1 < 2 ^ 32) × (last + 1 < 2 ^ 32) }
    ensures { OnOk result (AddsPieces lexed.old lexed.new (closing size last levels.old)) }
{
    let line = LineStart {
        number: last + 1,
        start: size,
    };
    while levels.len() > 0 {
        levels.close();
        lexed.push(line.token(0, Lexeme::Dedent, 0))?;
    }
    lexed.push(line.token(0, Lexeme::End, 0))
}
