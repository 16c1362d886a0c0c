//! How `print` spells values.

ghost use Rattle.std.specs.Prelude.{◌≡◌, ◌++◌, ◌-◌, ◌≤◌, OnOk, codes, drop, length, map};
ghost use Rattle.std.specs.Fmt.{decimal, signed_decimal};
ghost use Rattle.lf_base.specs.Operands.{set_value};
ghost use Rattle.lf_code.specs.Spelling.{spelled, spelled_name};

use itoa::Buffer;
use lf_base::{OutOfMemory, TextId, Texts, Value};

fn add_bytes(line: &mut Vec<u8>, bytes: &[u8]) -> Result<(), OutOfMemory>
    ensures { OnOk result (line.new.items ≡ line.old.items ++ bytes.now) }
{
    line.extend_from_slice(bytes)?;
    Ok(())
}

fn add_number(line: &mut Vec<u8>, number: u32) -> Result<(), OutOfMemory>
    ensures { OnOk result (line.new.items ≡ line.old.items ++ decimal number) }
{
    let mut buffer = Buffer::new();
    add_bytes(line, buffer.format(number).as_bytes())
}

fn add_integer(line: &mut Vec<u8>, number: i64) -> Result<(), OutOfMemory>
    ensures { OnOk result (line.new.items ≡ line.old.items ++ signed_decimal number) }
{
    let mut buffer = Buffer::new();
    add_bytes(line, buffer.format(number).as_bytes())
}

// The word of what a name names, and its two numbers.
fn add_name(line: &mut Vec<u8>, word: &str, birth: u32, seq: u32) -> Result<(), OutOfMemory>
    ensures { OnOk result (line.new.items ≡ line.old.items ++ spelled_name word.now birth seq) }
{
    add_bytes(line, word.as_bytes())?;
    add_bytes(line, b" ")?;
    add_number(line, birth)?;
    add_bytes(line, b".")?;
    add_number(line, seq)
}

/// Adds a value to a line.
pub(crate) fn add_value(line: &mut Vec<u8>, texts: &Texts, v: Value) -> Result<(), OutOfMemory>
    ensures { OnOk result (line.new.items ≡ line.old.items ++ spelled texts.now v) }
{
    match v {
        Value::None => add_bytes(line, b"None"),
        Value::Bool(true) => add_bytes(line, b"True"),
        Value::Bool(false) => add_bytes(line, b"False"),
        Value::Int(number) => add_integer(line, number),
        Value::Text(text) => add_bytes(line, texts.text(text)),
        Value::Obj(object) => add_name(line, "object", object.birth, object.seq),
        Value::Cown(cown) => add_name(line, "cown", cown.birth, cown.seq),
    }
}
