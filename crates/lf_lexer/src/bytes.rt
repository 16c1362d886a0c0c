//! What the scans over bytes share.

ghost use Rattle.std.specs.Prelude.{◌≡◌, ◌≤◌, ◌+◌, drop, length};
ghost use Rattle.std.specs.List.{prefix_len};
ghost use Rattle.lf_lexer.specs.Bytes as spec;
ghost use Rattle.lf_lexer.specs.LineRest as spec_rest;
ghost use Rattle.lf_lexer.specs.SourceLines.{full_line_len, indentation, is_blank};

pub fn is_digit(byte: u8) -> bool
    ensures { result ≡ spec.is_digit byte }
{
    byte >= b'0' && byte <= b'9'
}

pub fn is_letter(byte: u8) -> bool
    ensures { result ≡ spec.is_letter byte }
{
    (byte >= b'a' && byte <= b'z') || (byte >= b'A' && byte <= b'Z') || byte == b'_'
}

/// Whether the byte stands in a text for itself.
pub fn is_text_byte(byte: u8) -> bool
    ensures { result ≡ spec.is_text_byte byte }
{
    byte >= b' ' && byte <= b'~' && byte != b'"' && byte != b'\\'
}

fn is_name_byte(byte: u8) -> bool
    ensures { result ≡ spec.is_name_byte byte }
{
    is_letter(byte) || is_digit(byte)
}

pub fn name_len(bytes: &[u8]) -> usize
    ensures len { result ≡ prefix_len spec.is_name_byte bytes.now }
    ensures within { result ≤ length bytes.now }
{
    for (i, byte) in bytes.iter().enumerate() {
        if !is_name_byte(*byte) {
            return i;
        }
    }
    bytes.len()
}

/// The number of spaces at the front.
fn spaces_len(bytes: &[u8]) -> usize
    ensures len { result ≡ indentation bytes.now }
    ensures within { result ≤ length bytes.now }
{
    for (i, byte) in bytes.iter().enumerate() {
        if *byte != b' ' {
            return i;
        }
    }
    bytes.len()
}

/// The indentation of the line at the front, and what is left of the script after it.
pub fn split_indent(bytes: &[u8]) -> (usize, &[u8])
    ensures len { result.0 ≡ indentation (spec_rest.line_rest bytes.now) }
    ensures within { result.0 ≤ length bytes.now }
    ensures whole { result.0 + length (spec_rest.line_rest result.1.now) ≡ length (spec_rest.line_rest bytes.now) }
    ensures whole_len { result.0 + length result.1.now ≡ length bytes.now }
    ensures after { spec_rest.line_rest result.1.now ≡ drop (indentation (spec_rest.line_rest bytes.now)) (spec_rest.line_rest bytes.now) }
    ensures full { result.0 + full_line_len result.1.now ≡ full_line_len bytes.now }
    ensures blank { is_blank (spec_rest.line_rest bytes.now) ≡ spec_rest.ends_tokens result.1.now }
{
    let len = spaces_len(bytes);
    let (_, after) = bytes.split_at(len);
    (len, after)
}

/// Whether the line ends before these bytes, which are left of the script: by a line
/// feed, by a carriage return directly before one, or with the script.
pub fn ends_line(rest: &[u8]) -> bool
    ensures { result ≡ spec_rest.ends_line rest.now }
{
    matches!(rest, [] | [b'\n', ..] | [b'\r', b'\n', ..])
}

/// Whether nothing but a comment is left of the line.
pub fn ends_tokens(rest: &[u8]) -> bool
    ensures { result ≡ spec_rest.ends_tokens rest.now }
{
    ends_line(rest) || matches!(rest, [b'#', ..])
}

/// The number of bytes of the line at the front, with its end.
pub fn full_line_len(bytes: &[u8]) -> usize
    ensures len { result ≡ full_line_len bytes.now }
    ensures within { result ≤ length bytes.now }
{
    for (i, byte) in bytes.iter().enumerate() {
        if *byte == b'\n' {
            return i + 1;
        }
    }
    bytes.len()
}
