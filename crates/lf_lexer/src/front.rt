ghost use Rattle.std.specs.Prelude.{◌≡◌, ◌∷◌, ◌+◌, ℕ, length, IfOk};
ghost use Rattle.lf_lexer.specs.Front as spec;
ghost use Rattle.lf_lexer.specs.FrontWithin.{TakesWithin};
ghost use Rattle.lf_lexer.specs.LineRest.{line_rest};
ghost use Rattle.lf_lexer.specs.Meaning.{FrontMeans};

use crate::bytes::{ends_line, is_digit, is_letter, name_len};
use crate::marks::{long_sign, short_sign, word_of};
use crate::texts::{TextEnd, text_end};
use crate::tokens::Mark;
use lf_base::{OutOfMemory, RefusalKind};

/// The front of the rest of a line: what stands next on it.
#[derive(Clone, Copy, Debug, PartialEq, Eq)]
pub enum Front {
    /// The end of the line, or a comment, which goes to it.
    End,
    Space,
    /// A name of so many bytes.
    Name(usize),
    /// A number, by its value, of so many bytes.
    Number(i64, usize),
    /// A text with so many bytes between its quotes.
    Text(usize),
    /// A word or a sign of so many bytes.
    Sign(Mark, usize),
    /// What is refused, at the byte after so many.
    Refused(RefusalKind, usize),
}

/// What stands at the front of these bytes, which are left of the script, on their line.
/// Where that is a text, `text` is then what it means. No clause says when `OutOfMemory`
/// comes, nor what `text` then is.
#[tactic(auto, unfolding(crate::specs::Front::front))]
pub fn front_of(text: &mut Vec<u8>, bytes: &[u8]) -> Result<Front, OutOfMemory>
    ensures front { IfOk result (λ front. front ≡ spec.front (line_rest bytes.now)) }
    ensures within { IfOk result (λ front. TakesWithin (length bytes.now) front) }
    ensures text { IfOk result (λ front. FrontMeans text.new.items bytes.now front) }
{
    if ends_line(bytes) {
        return Ok(Front::End);
    }
    let [byte, rest @ ..] = bytes else {
        return Ok(Front::End);
    };
    match *byte {
        b' ' => Ok(Front::Space),
        b'#' => Ok(Front::End),
        b'"' => text_front(text, rest),
        byte if is_letter(byte) => Ok(name_front(bytes)),
        byte if is_digit(byte) => Ok(number_front(bytes)),
        byte => Ok(sign_front(byte, rest)),
    }
}

#[tactic(auto, unfolding(crate::specs::Front::name_front_at))]
fn name_front(bytes: &[u8]) -> Front
    ensures front { result ≡ spec.name_front bytes.now }
    ensures within { TakesWithin (length bytes.now) result }
{
    let len = name_len(bytes);
    match word_of(&bytes[..len]) {
        Some(mark) => Front::Sign(mark, len),
        None => Front::Name(len),
    }
}

#[tactic(auto, unfolding(crate::specs::Front::number_front_at))]
fn number_front(bytes: &[u8]) -> Front
    ensures front { result ≡ spec.number_front bytes.now }
    ensures within { TakesWithin (length bytes.now) result }
{
    let mut value: u128 = 0;
    for (i, byte) in bytes.iter().enumerate() {
        if !is_digit(*byte) {
            return Front::Number(value as i64, i);
        }
        value = 10 * value + u128::from(*byte - b'0');
        if value > 9_223_372_036_854_775_807 {
            return Front::Refused(RefusalKind::WideNumber, 0);
        }
    }
    Front::Number(value as i64, bytes.len())
}

fn text_front(text: &mut Vec<u8>, rest: &[u8]) -> Result<Front, OutOfMemory>
    ensures front { IfOk result (λ front. front ≡ spec.text_front (line_rest rest.now)) }
    ensures within { IfOk result (λ front. TakesWithin (length rest.now + 1) front) }
    ensures text { IfOk result (λ front. (byte : ℕ) → FrontMeans text.new.items (byte ∷ rest.now) front) }
{
    match text_end(text, rest)? {
        TextEnd::Closed(len) => Ok(Front::Text(len)),
        TextEnd::Open => Ok(Front::Refused(RefusalKind::OpenText, 0)),
        TextEnd::Bad(at) => Ok(Front::Refused(RefusalKind::BadByte, at + 1)),
    }
}

fn sign_front(byte: u8, rest: &[u8]) -> Front
    ensures front { result ≡ spec.sign_front byte rest.now }
    ensures within { TakesWithin (length rest.now + 1) result }
{
    if let [next, ..] = rest {
        if let Some(mark) = long_sign(byte, *next) {
            return Front::Sign(mark, 2);
        }
    }
    match short_sign(byte) {
        Some(mark) => Front::Sign(mark, 1),
        None => Front::Refused(RefusalKind::BadByte, 0),
    }
}
