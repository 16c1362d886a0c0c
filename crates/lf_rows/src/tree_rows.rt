//! Scripts from their bytes to their tree, or to their first refusal.

ghost use Rattle.std.specs.Prelude.{IsTrue};
ghost use Rattle.lf_parser.specs.Refusals.{EndsOnce};

use crate::accounts::ACCOUNTS;
use lf_base::RefusalKind::{
    BadIndent, OpenText, TooDeepExpr, TooManyParts, Unexpected, WideNumber,
};
use lf_base::{MOST_SCRIPT_BYTES, Op, OutOfMemory, Place, ReadFail, Refusal, RefusalKind, Texts};
use lf_lexer::{Lexed, Lexeme, Token, Tokens, lex};
use lf_parser::{Expr, Stmt, Tree, parse};
use sqlite_items::Boxed;
use std::alloc::Global;
use std::process::Abort;
use std::test::Fail;

// A script in pieces, each so many times, and its refusal, if it is refused.
type Row = (
    &'static [(&'static str, u32)],
    Option<(RefusalKind, u32, u32)>,
);

static ROWS: [Row; 60] = [
    // Each form.
    (&[("x.f[1] = -y", 1)], None),
    (&[("drop x", 1)], None),
    (&[("return", 1)], None),
    (&[("return x", 1)], None),
    (&[("pass", 1)], None),
    (&[("f(x, {}).f", 1)], None),
    (&[("x = move y.f", 1)], None),
    (&[("x = not y == 1 and 2 * 3 or z", 1)], None),
    (&[("while x:\n  pass", 1)], None),
    (&[("when:\n  pass", 1)], None),
    (&[("when x:\n  pass", 1)], None),
    (&[("when with x:\n  pass", 1)], None),
    (&[("when x, y with z:\n  pass", 1)], None),
    (&[("def f(x, y):\n  return x", 1)], None),
    (&[("(move x).f", 1)], None),
    (&[("x = 1.f\nx = {}.f", 1)], None),
    (&[(ACCOUNTS, 1)], None),
    // What no script goes on with.
    (&[("1 = 2", 1)], Some((Unexpected, 1, 3))),
    (&[("f(1) = 2", 1)], Some((Unexpected, 1, 6))),
    (&[("f(1).x = 2", 1)], Some((Unexpected, 1, 8))),
    (&[("x = (1)\n(x) = 1", 1)], Some((Unexpected, 2, 5))),
    (&[("x.f()", 1)], Some((Unexpected, 1, 4))),
    (&[("move 1", 1)], Some((Unexpected, 1, 6))),
    (&[("x = move f(1)", 1)], Some((Unexpected, 1, 11))),
    (&[("x = 1 + not y", 1)], Some((Unexpected, 1, 9))),
    (&[("x = a < b < c", 1)], Some((Unexpected, 1, 11))),
    (&[("else:", 1)], Some((Unexpected, 1, 1))),
    (
        &[("if a:\n  pass\nelse:\n  pass\nelif b:\n  pass", 1)],
        Some((Unexpected, 5, 1)),
    ),
    (&[("if True:", 1)], Some((Unexpected, 2, 1))),
    (&[("if x:\npass", 1)], Some((Unexpected, 2, 1))),
    (
        &[("if a:\n    def f():\n        pass", 1)],
        Some((Unexpected, 2, 5)),
    ),
    (&[("when with:\n  pass", 1)], Some((Unexpected, 1, 10))),
    (&[("when c with:\n  pass", 1)], Some((Unexpected, 1, 12))),
    (&[("f(1,)", 1)], Some((Unexpected, 1, 5))),
    (&[("def f(x,):\n  pass", 1)], Some((Unexpected, 1, 9))),
    (&[("x = ()", 1)], Some((Unexpected, 1, 6))),
    (&[("x =   # c", 1)], Some((Unexpected, 1, 4))),
    (&[("1 x", 1)], Some((Unexpected, 1, 3))),
    (&[("12ab", 1)], Some((Unexpected, 1, 3))),
    (&[("drop x.f", 1)], Some((Unexpected, 1, 7))),
    // The limits.
    (&[("x = ", 1), ("(", 64), ("1", 1), (")", 64)], None),
    (
        &[("x = ", 1), ("(", 65), ("1", 1), (")", 65)],
        Some((TooDeepExpr, 1, 69)),
    ),
    (&[("x = ", 1), ("f(", 64), (")", 64)], None),
    (
        &[("x = ", 1), ("f(", 65), (")", 65)],
        Some((TooDeepExpr, 1, 134)),
    ),
    (&[("x = ", 1), ("-", 64), ("1", 1)], None),
    (
        &[("x = ", 1), ("-", 65), ("1", 1)],
        Some((TooDeepExpr, 1, 69)),
    ),
    (
        &[("x = ", 1), ("not ", 65), ("1", 1)],
        Some((TooDeepExpr, 1, 261)),
    ),
    (&[("x=1", 1), ("+1", 510)], None),
    (&[("x=1", 1), ("+1", 511)], Some((TooManyParts, 1, 1025))),
    (
        &[("x=1", 1), ("+1", 510), ("+)", 1)],
        Some((Unexpected, 1, 1025)),
    ),
    (
        &[("if True:\n    pass", 1), ("\nelif True:\n    pass", 32)],
        None,
    ),
    (
        &[("if True:\n    pass", 1), ("\nelif True:\n    pass", 33)],
        Some((TooManyParts, 67, 1)),
    ),
    (&[("f(", 1), ("1,", 15), ("1)", 1)], None),
    (
        &[("f(", 1), ("1,", 16), (")", 1)],
        Some((TooManyParts, 1, 34)),
    ),
    (
        &[("def f(", 1), ("x,", 16), (")", 1)],
        Some((TooManyParts, 1, 38)),
    ),
    (
        &[("when ", 1), ("x,", 16), (":", 1)],
        Some((TooManyParts, 1, 37)),
    ),
    (
        &[("when with ", 1), ("x,", 16), (":", 1)],
        Some((TooManyParts, 1, 42)),
    ),
    // What the bytes refuse.
    (
        &[("while True:\n    pass\n pass", 1)],
        Some((BadIndent, 3, 2)),
    ),
    (&[("x = -9223372036854775808", 1)], Some((WideNumber, 1, 6))),
    (&[("print(\"ab", 1)], Some((OpenText, 1, 7))),
];

fn push_piece(script: &mut Vec<u8>, piece: &str) -> Result<(), OutOfMemory> {
    script.extend_from_slice(piece.as_bytes())?;
    Ok(())
}

fn push_pieces(script: &mut Vec<u8>, piece: &str, times: u32) -> Result<(), OutOfMemory> {
    for _turn in 0..times {
        push_piece(script, piece)?;
    }
    Ok(())
}

fn script(alloc: Global, pieces: &[(&str, u32)]) -> Result<Vec<u8>, OutOfMemory> {
    let mut script = Vec::new(alloc);
    for (piece, times) in pieces {
        push_pieces(&mut script, piece, *times)?;
    }
    Ok(script)
}

// Whether the last of the tokens is the end of the script, and no other one is.
fn ends_once(tokens: &[Token]) -> bool
    ensures { IsTrue result → EndsOnce tokens.now }
{
    let mut left = tokens;
    while let [token, rest @ ..] = left {
        if rest.is_empty() || token.lexeme == Lexeme::End {
            return rest.is_empty() && token.lexeme == Lexeme::End;
        }
        left = rest;
    }
    false
}

// The tree of tokens that a script may have.
fn parsed(rt: &impl Abort, alloc: Global, lexed: &Lexed) -> Result<Tree, ReadFail> {
    let tokens = lexed.tokens.as_slice();
    assert!(rt; ends_once(tokens));
    assert!(rt; tokens.len() < 4_294_967_296);
    parse(alloc, lexed)
}

// The tokens of a script that isn't too long.
fn lexed(rt: &impl Abort, alloc: Global, bytes: &[u8]) -> Result<Lexed, ReadFail> {
    assert!(rt; bytes.len() <= MOST_SCRIPT_BYTES);
    lex(alloc, bytes)
}

// Reads a script that isn't too long.
fn read(rt: &impl Abort, alloc: Global, bytes: &[u8]) -> Result<Tree, ReadFail> {
    let lexed = lexed(rt, alloc, bytes)?;
    parsed(rt, alloc, &lexed)
}

// Whether the script of a row is read or refused as the row says.
fn holds(rt: &impl Abort, alloc: Global, row: &Row) -> Result<bool, OutOfMemory> {
    let script = script(alloc, row.0)?;
    match (read(rt, alloc, script.as_slice()), row.1) {
        (Ok(_), None) => Ok(true),
        (Err(ReadFail::Refused(refusal)), Some((kind, line, column))) => {
            let place = Place { line, column };
            Ok(refusal == Refusal { kind, place })
        }
        (Err(ReadFail::OutOfMemory), _) => Err(OutOfMemory),
        _ => Ok(false),
    }
}

// The first row that doesn't hold.
fn broken_row(rt: &impl Abort, alloc: Global) -> Result<Option<usize>, OutOfMemory> {
    for (at, row) in ROWS.iter().enumerate() {
        if !holds(rt, alloc, row)? {
            return Ok(Some(at));
        }
    }
    Ok(None)
}

#[test]
fn scripts_make_trees_or_are_refused(rt: HostRuntime) -> Result<(), Fail> {
    let broken = broken_row(&rt, rt.alloc())?;
    assert_eq!(rt; broken, None);
    Ok(())
}

// The first tokens of a script, and its end where the next one stood.
fn cut(alloc: Global, whole: &Lexed, len: usize) -> Result<Lexed, OutOfMemory> {
    let mut tokens = Tokens::new(alloc);
    for (at, token) in whole.tokens.as_slice().iter().enumerate() {
        let lexeme = if at == len { Lexeme::End } else { token.lexeme };
        if at <= len && tokens.push(Token { lexeme, ..*token }).is_err() {
            return Err(OutOfMemory);
        }
    }
    Ok(Lexed {
        tokens,
        texts: Texts::new(alloc)?,
    })
}

// Cut short before each of its tokens but the first and the last, it is refused at its end.
fn stops_at_each_end(rt: &impl Abort, alloc: Global, text: &str) -> Result<(), ReadFail> {
    let whole = lexed(rt, alloc, text.as_bytes())?;
    let _tree = parsed(rt, alloc, &whole)?;
    for at in 1..whole.tokens.len().saturating_sub(1) {
        let short = cut(alloc, &whole, at)?;
        match (parsed(rt, alloc, &short), short.tokens.as_slice().last()) {
            (Err(ReadFail::Refused(refusal)), Some(end)) => {
                assert_eq!(rt; refusal.kind, Unexpected, "{text} at {at}");
                assert_eq!(rt; refusal.place, end.place, "{text} at {at}");
            }
            _ => assert!(rt; false, "{text} at {at}"),
        }
    }
    Ok(())
}

#[test]
fn cut_short_is_refused_at_its_end(rt: HostRuntime) {
    let alloc = rt.alloc();
    for text in [
        "x = 1",
        "x.f[1] = -y",
        "drop x",
        "return x",
        "f(x, {}).f",
        "x = move y.f",
        "while x:\n  pass",
        "when x, y with z:\n  pass",
        "def f(x, y):\n  return x",
        "if x:\n  pass",
    ] {
        let stops = stops_at_each_end(&rt, alloc, text);
        assert!(rt; stops.is_ok(), "{text}");
    }
}

#[test]
fn operands_are_joined_from_the_left(rt: HostRuntime) {
    let Ok(tree) = read(&rt, rt.alloc(), b"x.f = -1 - 2 - 3") else {
        assert!(rt; false);
        return;
    };
    assert_eq!(rt; tree.functions.len(), 0);
    assert_eq!(rt; tree.main.len(), 1);
    match tree.main.get(0) {
        Some(
            Stmt::Store {
                line: 1,
                target: Expr::Var(x),
                key: Expr::Text(_),
                value: Expr::Binary {
                    op: Op::Sub,
                    left,
                    ..
                },
            },
        ) => {
            assert_eq!(rt; x.place, Place { line: 1, column: 1 });
            assert!(rt; matches!(left.get(), Expr::Binary { op: Op::Sub, .. }));
        }
        _ => assert!(rt; false),
    }
}

// A sum with so many terms after its first.
fn long_sum(alloc: Global, terms: i64) -> Result<Expr, OutOfMemory> {
    let mut sum = Expr::Number(0);
    for term in 0..terms {
        sum = Expr::Binary {
            op: Op::Add,
            left: Boxed::new(alloc, sum)?,
            right: Boxed::new(alloc, Expr::Number(term))?,
        };
    }
    Ok(sum)
}

// No stack has room for a call for each of its terms.
#[test]
fn a_long_chain_is_freed(rt: HostRuntime) -> Result<(), Fail> {
    let sum = long_sum(rt.alloc(), 200_000)?;
    assert!(rt; matches!(&sum, Expr::Binary { op: Op::Add, .. }));
    Ok(())
}
