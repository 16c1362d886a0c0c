//! The listing of code, written to a sink without memory.

ghost use Rattle.std.specs.Prelude.{◌≡◌, ◌++◌, ◌∷◌, [], codes, flat_map};
ghost use Rattle.std.specs.Fmt.{decimal, signed_decimal};
ghost use Rattle.lf_code.specs.Listing as spec;
ghost use Rattle.lf_code.specs.Listing.{joined};
ghost use Rattle.lf_outside.specs.Streams.{stream_of};
ghost use Rattle.lf_outside.specs.Transfer.{Writes};

use crate::body::{Body, BodyName, Placed};
use crate::code::Code;
use crate::instr::{AskName, BuiltName, Instr, Prefix};
use itoa::Buffer;
use lf_base::{Op, Texts};
use lf_outside::{Failed, Sink, write_all, write_parts};

fn write_word<K: Sink>(out: &mut K, word: &str) -> Result<(), Failed>
    ensures { Writes word.now (stream_of K.held K.faults out.old) (stream_of K.held K.faults out.new) result }
{
    write_all(out, word.as_bytes())
}

// Two words, one after the other.
fn write_two<K: Sink>(out: &mut K, first: &str, second: &str) -> Result<(), Failed>
    ensures { Writes (joined (first.now ∷ second.now ∷ [])) (stream_of K.held K.faults out.old) (stream_of K.held K.faults out.new) result }
{
    write_parts(out, &[first.as_bytes(), second.as_bytes()])
}

// A word and a number, with a space between them.
fn write_number<K: Sink>(out: &mut K, word: &str, n: u32) -> Result<(), Failed>
    ensures { Writes (spec.with_number word.now n) (stream_of K.held K.faults out.old) (stream_of K.held K.faults out.new) result }
{
    let mut buffer = Buffer::new();
    let digits = buffer.format(n);
    write_parts(out, &[word.as_bytes(), " ".as_bytes(), digits.as_bytes()])
}

// A variable, after a space.
fn write_spaced<K: Sink>(out: &mut K, v: u32) -> Result<(), Failed>
    ensures { Writes (spec.spaced v) (stream_of K.held K.faults out.old) (stream_of K.held K.faults out.new) result }
{
    let mut buffer = Buffer::new();
    let digits = buffer.format(v);
    write_parts(out, &[" ".as_bytes(), digits.as_bytes()])
}

// Variables, each after a space.
fn write_vars<K: Sink>(out: &mut K, vars: &[u32]) -> Result<(), Failed>
    ensures { Writes (flat_map spec.spaced vars.now) (stream_of K.held K.faults out.old) (stream_of K.held K.faults out.new) result }
{
    for v in vars {
        write_spaced(out, *v)?;
    }
    Ok(())
}

// A byte of a text in quotation marks.
fn write_quoted_byte<K: Sink>(out: &mut K, byte: u8) -> Result<(), Failed>
    ensures { Writes (spec.quoted_byte byte) (stream_of K.held K.faults out.old) (stream_of K.held K.faults out.new) result }
{
    match byte {
        b'"' => write_parts(out, &["\\\"".as_bytes()]),
        b'\\' => write_parts(out, &["\\\\".as_bytes()]),
        _ => write_parts(out, &[&[byte]]),
    }
}

// The bytes of a text, with pairs.
fn write_quoted_bytes<K: Sink>(out: &mut K, text: &[u8]) -> Result<(), Failed>
    ensures { Writes (flat_map spec.quoted_byte text.now) (stream_of K.held K.faults out.old) (stream_of K.held K.faults out.new) result }
{
    for byte in text {
        write_quoted_byte(out, *byte)?;
    }
    Ok(())
}

// A text in quotation marks.
fn write_quoted<K: Sink>(out: &mut K, text: &[u8]) -> Result<(), Failed>
    ensures { Writes (spec.quoted text.now) (stream_of K.held K.faults out.old) (stream_of K.held K.faults out.new) result }
{
    write_word(out, "\"")?;
    write_quoted_bytes(out, text)?;
    write_word(out, "\"")
}

// A word and variables.
fn write_word_and_vars<K: Sink>(out: &mut K, word: &str, vars: &[u32]) -> Result<(), Failed>
    ensures { Writes (spec.with_vars word.now vars.now) (stream_of K.held K.faults out.old) (stream_of K.held K.faults out.new) result }
{
    write_word(out, word)?;
    write_vars(out, vars)
}

// A `when` with its body, its cowns and its captures.
fn write_when<K: Sink>(
    out: &mut K,
    body: u32,
    cowns: &[u32],
    captures: &[u32],
) -> Result<(), Failed>
    ensures { Writes (spec.when_words body cowns.now captures.now) (stream_of K.held K.faults out.old)
        (stream_of K.held K.faults out.new) result }
{
    write_number(out, "when", body)?;
    write_word_and_vars(out, " cowns", cowns)?;
    write_word_and_vars(out, " with", captures)
}

fn truth_word(b: bool) -> &'static str
    ensures { result.now ≡ spec.truth_word b }
{
    if b { "True" } else { "False" }
}

fn prefix_sign(sign: Prefix) -> &'static str
    ensures { result.now ≡ spec.prefix_sign sign }
{
    match sign {
        Prefix::Neg => "-",
        Prefix::Not => "not",
    }
}

fn op_sign(sign: Op) -> &'static str
    ensures { result.now ≡ spec.op_sign sign }
{
    match sign {
        Op::Add => "+",
        Op::Sub => "-",
        Op::Mul => "*",
        Op::Div => "/",
        Op::Rem => "%",
        Op::Lt => "<",
        Op::Le => "<=",
        Op::Gt => ">",
        Op::Ge => ">=",
        Op::Eq => "==",
        Op::Ne => "!=",
    }
}

fn built_word(name: BuiltName) -> &'static str
    ensures { result.now ≡ spec.built_word name }
{
    match name {
        BuiltName::Print => "print",
        BuiltName::Region => "Region",
        BuiltName::Cown => "Cown",
        BuiltName::Freeze => "freeze",
        BuiltName::Merge => "merge",
        BuiltName::Dissolve => "dissolve",
    }
}

fn ask_word(name: AskName) -> &'static str
    ensures { result.now ≡ spec.ask_word name }
{
    match name {
        AskName::Close => "close",
        AskName::Refs => "refs",
        AskName::Borrowed => "borrowed",
        AskName::OpenChildren => "open_children",
        AskName::Owner => "owner",
        AskName::IsClosed => "is_closed",
    }
}

// Two words and a number, with a space before it.
fn write_words<K: Sink>(out: &mut K, first: &str, second: &str, n: u32) -> Result<(), Failed>
    ensures { Writes (joined (first.now ∷ second.now ∷ codes " " ∷ decimal n ∷ [])) (stream_of K.held K.faults out.old)
        (stream_of K.held K.faults out.new) result }
{
    let mut buffer = Buffer::new();
    let digits = buffer.format(n);
    write_parts(
        out,
        &[
            first.as_bytes(),
            second.as_bytes(),
            " ".as_bytes(),
            digits.as_bytes(),
        ],
    )
}

// A call of a body with so many operands.
fn write_call<K: Sink>(out: &mut K, body: u32, count: u32) -> Result<(), Failed>
    ensures { Writes (joined (codes "call " ∷ decimal body ∷ codes " " ∷ decimal count ∷ [])) (stream_of K.held K.faults out.old)
        (stream_of K.held K.faults out.new) result }
{
    let mut buffer = Buffer::new();
    let digits = buffer.format(body);
    write_words(out, "call ", digits, count)
}

fn write_int<K: Sink>(out: &mut K, n: i64) -> Result<(), Failed>
    ensures { Writes (joined (codes "int " ∷ signed_decimal n ∷ [])) (stream_of K.held K.faults out.old)
        (stream_of K.held K.faults out.new) result }
{
    let mut buffer = Buffer::new();
    let digits = buffer.format(n);
    write_parts(out, &["int ".as_bytes(), digits.as_bytes()])
}

fn write_text<K: Sink>(out: &mut K, text: &[u8]) -> Result<(), Failed>
    ensures { Writes (codes "text " ++ spec.quoted text.now) (stream_of K.held K.faults out.old)
        (stream_of K.held K.faults out.new) result }
{
    write_word(out, "text ")?;
    write_quoted(out, text)
}

// An instruction with its arguments.
fn write_instr<K: Sink>(out: &mut K, texts: &Texts, instr: &Instr) -> Result<(), Failed>
    ensures { Writes (spec.instr_words texts.now instr.now) (stream_of K.held K.faults out.old) (stream_of K.held K.faults out.new) result }
{
    match instr {
        Instr::Tick => write_word(out, "tick"),
        Instr::None => write_word(out, "none"),
        Instr::Bool(b) => write_two(out, "bool ", truth_word(*b)),
        Instr::Int(n) => write_int(out, *n),
        Instr::Text(id) => write_text(out, texts.text(*id)),
        Instr::Get(v) => write_number(out, "get", *v),
        Instr::Take(v) => write_number(out, "take", *v),
        Instr::Set(v) => write_number(out, "set", *v),
        Instr::Drop(v) => write_number(out, "drop", *v),
        Instr::Object => write_word(out, "object"),
        Instr::Read => write_word(out, "read"),
        Instr::Write => write_word(out, "write"),
        Instr::Remove => write_word(out, "remove"),
        Instr::Unary(sign) => write_two(out, "unary ", prefix_sign(*sign)),
        Instr::Binary(sign) => write_two(out, "binary ", op_sign(*sign)),
        Instr::Jump(a) => write_number(out, "jump", *a),
        Instr::Unless(a) => write_number(out, "unless", *a),
        Instr::And(a) => write_number(out, "and", *a),
        Instr::Or(a) => write_number(out, "or", *a),
        Instr::Test => write_word(out, "test"),
        Instr::Call { body, count } => write_call(out, *body, *count),
        Instr::Return => write_word(out, "return"),
        Instr::Built { name, count } => write_words(out, "built ", built_word(*name), *count),
        Instr::Ask { name, var } => write_words(out, "ask ", ask_word(*name), *var),
        Instr::When {
            body,
            cowns,
            captures,
        } => write_when(out, *body, cowns.as_slice(), captures.as_slice()),
        Instr::Pop => write_word(out, "pop"),
    }
}

// The address of an instruction, and the line of its faults.
fn write_place<K: Sink>(out: &mut K, at: usize, line: u32) -> Result<(), Failed>
    ensures { Writes (spec.place_words at line) (stream_of K.held K.faults out.old) (stream_of K.held K.faults out.new) result }
{
    let mut address = Buffer::new();
    let mut lines = Buffer::new();
    let address = address.format(at);
    let line = lines.format(line);
    write_parts(
        out,
        &[
            address.as_bytes(),
            " ".as_bytes(),
            line.as_bytes(),
            " ".as_bytes(),
        ],
    )
}

// The line of an instruction.
fn write_instr_line<K: Sink>(
    out: &mut K,
    texts: &Texts,
    at: usize,
    placed: &Placed,
) -> Result<(), Failed>
    ensures { Writes (spec.instr_line texts.now at placed.now) (stream_of K.held K.faults out.old)
        (stream_of K.held K.faults out.new) result }
{
    write_place(out, at, placed.line)?;
    write_instr(out, texts, &placed.instr)?;
    write_word(out, "\n")
}

// The lines of instructions, from address 0 on.
fn write_instrs<K: Sink>(out: &mut K, texts: &Texts, list: &[Placed]) -> Result<(), Failed>
    ensures { Writes (spec.numbered (spec.instr_line texts.now) 0 list.now) (stream_of K.held K.faults out.old)
        (stream_of K.held K.faults out.new) result }
{
    for at in 0..list.len() {
        write_instr_line(out, texts, at, &list[at])?;
    }
    Ok(())
}

// The bytes of what a body is the body of.
fn body_word(texts: &Texts, name: BodyName) -> &[u8]
    ensures { result.now ≡ spec.body_word texts.now name }
{
    match name {
        BodyName::Main => "main".as_bytes(),
        BodyName::Function(id) => texts.text(id),
        BodyName::When => "when".as_bytes(),
    }
}

// The line of a body.
fn write_body_line<K: Sink>(
    out: &mut K,
    texts: &Texts,
    number: usize,
    body: &Body,
) -> Result<(), Failed>
    ensures { Writes (spec.body_line texts.now number body.now) (stream_of K.held K.faults out.old)
        (stream_of K.held K.faults out.new) result }
{
    let mut number_buffer = Buffer::new();
    let mut param_buffer = Buffer::new();
    let mut var_buffer = Buffer::new();
    let number = number_buffer.format(number);
    let params = param_buffer.format(body.params);
    let vars = var_buffer.format(body.vars);
    write_parts(
        out,
        &[
            "body ".as_bytes(),
            number.as_bytes(),
            " ".as_bytes(),
            body_word(texts, body.name),
            " ".as_bytes(),
            params.as_bytes(),
            " ".as_bytes(),
            vars.as_bytes(),
            "\n".as_bytes(),
        ],
    )
}

// A body with all its instructions.
fn write_body<K: Sink>(out: &mut K, texts: &Texts, number: usize, body: &Body) -> Result<(), Failed>
    ensures { Writes (spec.body_listing texts.now number body.now) (stream_of K.held K.faults out.old)
        (stream_of K.held K.faults out.new) result }
{
    write_body_line(out, texts, number, body)?;
    write_instrs(out, texts, body.list.as_slice())
}

// Bodies with their instructions, from body 0 on.
fn write_bodies<K: Sink>(out: &mut K, texts: &Texts, bodies: &[Body]) -> Result<(), Failed>
    ensures { Writes (spec.numbered (spec.body_listing texts.now) 0 bodies.now) (stream_of K.held K.faults out.old)
        (stream_of K.held K.faults out.new) result }
{
    for number in 0..bodies.len() {
        write_body(out, texts, number, &bodies[number])?;
    }
    Ok(())
}

/// Writes the listing of code to a sink, without memory: for each body a line with its
/// number, its name, its number of parameters and that of its variables, and then a line
/// for each instruction with its address, the line of its faults, and the instruction with
/// its arguments. `Failed` comes only where the sink's faults rose, and the sink then took
/// a prefix of the listing. `docs/CODE.md` has the spelling of each instruction.
pub fn write_listing<K: Sink>(code: &Code, out: &mut K) -> Result<(), Failed>
    ensures { Writes (spec.listing code.now) (stream_of K.held K.faults out.old) (stream_of K.held K.faults out.new) result }
{
    write_bodies(out, code.texts(), code.bodies())
}
