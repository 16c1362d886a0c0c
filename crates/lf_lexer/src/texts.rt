//! Texts in quotes.

ghost use Rattle.std.specs.Prelude.{◌≡◌, ◌+◌, length, IfOk};
ghost use Rattle.lf_lexer.specs.Front as spec;
ghost use Rattle.lf_lexer.specs.FrontWithin.{EndsWithin, TextStepsWithin};
ghost use Rattle.lf_lexer.specs.LineRest.{line_rest};
ghost use Rattle.lf_lexer.specs.Meaning.{EndMeans};

use crate::bytes::{ends_line, is_text_byte};
use lf_base::OutOfMemory;

/// How a text ends.
#[derive(Clone, Copy, Debug, PartialEq, Eq)]
pub enum TextEnd {
    /// It is closed, with so many bytes between its quotes.
    Closed(usize),
    /// It isn't closed.
    Open,
    /// The byte after so many of it can't stand in a text.
    Bad(usize),
}

/// What stands at the front of the rest of a text.
#[derive(Clone, Copy, Debug, PartialEq, Eq)]
enum TextStep {
    /// The closing quote.
    Closes,
    /// Nothing, or half a pair: the text isn't closed.
    Open,
    /// What can't stand there, at the byte after so many.
    Bad(usize),
    /// A part of the text, of so many bytes. It stands for the last of them.
    Goes(usize),
}

/// Reads a text after whose opening quote these bytes are left of the script: how it
/// ends. `text` is then what its bytes mean, each pair standing for its second byte.
/// No clause says when `OutOfMemory` comes, nor what `text` then is.
pub fn text_end(text: &mut Vec<u8>, bytes: &[u8]) -> Result<TextEnd, OutOfMemory>
    ensures end { IfOk result (λ end. end ≡ spec.text_end 0 (line_rest bytes.now)) }
    ensures within { IfOk result (λ end. EndsWithin (length bytes.now) end) }
    ensures text { IfOk result (λ end. EndMeans text.new.items bytes.now end) }
{
    text.clear();
    let mut rest = bytes;
    let mut at = 0;
    loop {
        match text_step(rest) {
            TextStep::Closes => return Ok(TextEnd::Closed(at)),
            TextStep::Open => return Ok(TextEnd::Open),
            TextStep::Bad(offset) => return Ok(TextEnd::Bad(at + offset)),
            TextStep::Goes(len) => {
                text.push(rest[len - 1])?;
                let (_, after) = rest.split_at(len);
                rest = after;
                at += len;
            }
        }
    }
}

#[tactic(auto, unfolding(crate::specs::Front::text_step))]
fn text_step(rest: &[u8]) -> TextStep
    ensures step { result ≡ spec.text_step (line_rest rest.now) }
    ensures within { TextStepsWithin (length rest.now) result }
{
    if ends_line(rest) {
        return TextStep::Open;
    }
    match rest {
        [b'"', ..] => TextStep::Closes,
        [b'\\', after @ ..] => pair_step(after),
        [byte, ..] if is_text_byte(*byte) => TextStep::Goes(1),
        _ => TextStep::Bad(0),
    }
}

// What stands at the front of the rest of a text that has a backslash before these bytes.
fn pair_step(after: &[u8]) -> TextStep
    ensures step { result ≡ spec.pair_step (line_rest after.now) }
    ensures within { TextStepsWithin (length after.now + 1) result }
{
    if ends_line(after) {
        return TextStep::Open;
    }
    match after {
        [b'"' | b'\\', ..] => TextStep::Goes(2),
        _ => TextStep::Bad(1),
    }
}
