//! Scripts from their bytes to their resolved tree, or to their first refusal.

use crate::accounts::ACCOUNTS;
use lf_base::RefusalKind::{
    DuplicateFunction, DuplicateName, NotVariable, TooDeepExpr, Unexpected, UnknownFunction,
    UnknownName, WideNumber, WrongArity,
};
use lf_base::{MOST_SCRIPT_BYTES, OutOfMemory, Place, ReadFail, Refusal, RefusalKind, Texts};
use lf_codegen::{Script, read};
use lf_parser::Names;
use std::alloc::Global;
use std::test::Fail;

// A script, and its refusal, if it is refused.
type Row = (&'static str, Option<(RefusalKind, u32, u32)>);

static ROWS: [Row; 48] = [
    ("", None),
    (ACCOUNTS, None),
    // Names.
    ("x = y", Some((UnknownName, 1, 5))),
    ("x = x", None),
    ("drop x", Some((UnknownName, 1, 6))),
    ("x = move y", Some((UnknownName, 1, 10))),
    ("if False:\n    print(b)\nb = 1", None),
    ("def f():\n    return x\nx = 1", Some((UnknownName, 2, 12))),
    ("def f(x):\n    x = x\nprint(x)", Some((UnknownName, 3, 7))),
    ("when c:\n    pass", Some((UnknownName, 1, 6))),
    ("when with c:\n    pass", Some((UnknownName, 1, 11))),
    ("c = Cown(1)\nwhen c:\n    pass", None),
    ("x = 1\nwhen:\n    print(x)", Some((UnknownName, 3, 11))),
    ("x = 1\nwhen with x:\n    print(x)", None),
    ("when:\n    y = 1\nprint(y)", Some((UnknownName, 3, 7))),
    // Calls.
    ("f(1)", Some((UnknownFunction, 1, 1))),
    ("f = 1\nf(1)", Some((UnknownFunction, 2, 1))),
    ("print(f(g()))", Some((UnknownFunction, 1, 7))),
    ("f(1)\ndef f(a):\n    return a", None),
    ("f()\ndef f(a):\n    return a", Some((WrongArity, 1, 1))),
    ("print()", None),
    ("Region(1)", Some((WrongArity, 1, 1))),
    ("x = Cown()", Some((WrongArity, 1, 5))),
    ("merge(1)", Some((WrongArity, 1, 1))),
    ("freeze(1, 2)", Some((WrongArity, 1, 1))),
    ("dissolve(1)", None),
    // Questions.
    ("print(refs(1))", Some((NotVariable, 1, 7))),
    ("x = {}\nprint(refs(x.f))", Some((NotVariable, 2, 7))),
    ("x = {}\nprint(refs((x)))", None),
    ("x = {}\nprint(refs(1, 2))", Some((WrongArity, 2, 7))),
    ("x = 1\nis_closed(move x)", Some((NotVariable, 2, 1))),
    ("close(x)", Some((UnknownName, 1, 7))),
    ("owner(y.f)", Some((NotVariable, 1, 1))),
    // Functions and parameters.
    ("def print():\n    pass", Some((DuplicateFunction, 1, 5))),
    ("def value(print):\n    return value(print)", None),
    (
        "def f():\n    pass\ndef f(a):\n    pass\nf()",
        Some((DuplicateFunction, 3, 5)),
    ),
    (
        "def f():\n    pass\nf(1)\ndef f(a):\n    pass",
        Some((WrongArity, 3, 1)),
    ),
    (
        "def f(a):\n    pass\ndef f():\n    pass\nf(1)",
        Some((DuplicateFunction, 3, 5)),
    ),
    ("def f(a, b, a):\n    pass", Some((DuplicateName, 1, 13))),
    ("def f(a):\n    pass\ndef g(a):\n    pass", None),
    // Of two refusals the one that stands first, whatever their kinds and whichever of main and the functions has it.
    ("f()\nx = y", Some((UnknownFunction, 1, 1))),
    (
        "def f(a, a):\n    pass\nprint(y)",
        Some((DuplicateName, 1, 10)),
    ),
    ("x = y\ndef f(a, a):\n    pass", Some((UnknownName, 1, 5))),
    ("x = f(y)", Some((UnknownFunction, 1, 5))),
    // A refusal of the bytes comes before one of the tokens, and that one before those of the names.
    ("x = y\nx = 9223372036854775808", Some((WideNumber, 2, 5))),
    ("x = y\n1 = 2", Some((Unexpected, 2, 3))),
    (
        "x = y\nx = ((((((((((((((((((((((((((((((((((((((((((((((((((((((((((((((((((1",
        Some((TooDeepExpr, 2, 69)),
    ),
    ("x = 1\nx = y # y", Some((UnknownName, 2, 5))),
];

// Reads a script that isn't too long.
fn script(alloc: Global, text: &str) -> Result<Option<Script>, ReadFail> {
    if text.as_bytes().len() > MOST_SCRIPT_BYTES {
        return Ok(None);
    }
    Ok(Some(read(alloc, text.as_bytes())?))
}

// Whether the script of a row is read or refused as the row says.
fn holds(alloc: Global, row: &Row) -> Result<bool, OutOfMemory> {
    match (script(alloc, row.0), row.1) {
        (Ok(Some(_)), None) => Ok(true),
        (Err(ReadFail::Refused(refusal)), Some((kind, line, column))) => {
            let place = Place { line, column };
            Ok(refusal == Refusal { kind, place })
        }
        (Err(ReadFail::OutOfMemory), _) => Err(OutOfMemory),
        _ => Ok(false),
    }
}

// The first row that doesn't hold.
fn broken_row(alloc: Global) -> Result<Option<usize>, OutOfMemory> {
    for (at, row) in ROWS.iter().enumerate() {
        if !holds(alloc, row)? {
            return Ok(Some(at));
        }
    }
    Ok(None)
}

#[test]
fn scripts_are_read_or_refused(rt: HostRuntime) -> Result<(), Fail> {
    let broken = broken_row(rt.alloc())?;
    assert_eq!(rt; broken, None);
    Ok(())
}

// A script, the number of a body of it, and that body's variables, if there is such a body.
type NamesRow = (&'static str, u32, Option<&'static str>);

const WHENS: &str =
    "def f():\n    when:\n        a = 1\nwhen:\n    b = 1\n    when:\n        c = 1\ndef g():\n    when:\n        d = 1";

static NAMES: [NamesRow; 18] = [
    ("", 0, Some("")),
    ("", 1, None),
    ("if False:\n    print(b)\na = 1\nb = 2", 0, Some(" b a")),
    ("a = b\nb = 1", 0, Some(" a b")),
    ("def f(p, q):\n    r = q\n    p = 1", 1, Some(" p q r")),
    (
        "c = 1\nx = 2\nwhen c, c with x, c:\n    y = x",
        0,
        Some(" c x"),
    ),
    (
        "c = 1\nx = 2\nwhen x, c, x with c, x:\n    y = c",
        1,
        Some(" x c y"),
    ),
    (WHENS, 0, Some("")),
    (WHENS, 2, Some("")),
    (WHENS, 3, Some(" a")),
    (WHENS, 4, Some(" b")),
    (WHENS, 5, Some(" c")),
    (WHENS, 6, Some(" d")),
    (WHENS, 7, None),
    (ACCOUNTS, 0, Some(" x y")),
    (ACCOUNTS, 1, Some(" n r")),
    (ACCOUNTS, 2, Some(" a b n")),
    (ACCOUNTS, 4, Some(" x y")),
];

// Each name with a space before it.
fn spelled(alloc: Global, names: &Names, texts: &Texts) -> Result<Vec<u8>, OutOfMemory> {
    let mut spelled = Vec::new(alloc);
    for name in names.as_slice() {
        spelled.push(b' ')?;
        spelled.extend_from_slice(texts.text(name.id))?;
    }
    Ok(spelled)
}

// Whether the variables of a row's body are as the row says.
fn names_hold(alloc: Global, row: &NamesRow) -> Result<bool, OutOfMemory> {
    let Ok(Some(script)) = script(alloc, row.0) else {
        return Ok(false);
    };
    match (script.resolved.names(row.1), row.2) {
        (Some(names), Some(expected)) => {
            let spelled = spelled(alloc, names, &script.texts)?;
            Ok(spelled.as_slice() == expected.as_bytes())
        }
        (None, None) => Ok(true),
        _ => Ok(false),
    }
}

// The first row whose variables are others.
fn broken_names(alloc: Global) -> Result<Option<usize>, OutOfMemory> {
    for (at, row) in NAMES.iter().enumerate() {
        if !names_hold(alloc, row)? {
            return Ok(Some(at));
        }
    }
    Ok(None)
}

#[test]
fn bodies_have_their_variables(rt: HostRuntime) -> Result<(), Fail> {
    let broken = broken_names(rt.alloc())?;
    assert_eq!(rt; broken, None);
    Ok(())
}
