//! What the lexer answers on some scripts.

use lf_base::{MOST_SCRIPT_BYTES, Place, ReadFail, Refusal, RefusalKind, TextId};
use lf_lexer::{Lexeme, Mark, Token, lex};
use std::alloc::Global;
use std::process::Abort;
use std::test::Fail;

fn token(lexeme: Lexeme, line: u32, column: u32, start: u32, end: u32) -> Token {
    Token {
        lexeme,
        place: Place { line, column },
        start,
        end,
    }
}

fn name(index: u32) -> Lexeme {
    Lexeme::Name(TextId { index })
}

fn text(index: u32) -> Lexeme {
    Lexeme::Text(TextId { index })
}

fn mark(mark: Mark) -> Lexeme {
    Lexeme::Mark(mark)
}

fn lexes(rt: &impl Abort, alloc: Global, script: &[u8], want: &[Token]) {
    assert!(rt; script.len() <= MOST_SCRIPT_BYTES);
    match lex(alloc, script) {
        Ok(lexed) => assert_eq!(rt; lexed.tokens.as_slice(), want, "{script:?}"),
        Err(_) => assert!(rt; false, "{script:?}"),
    }
}

fn refuses(
    rt: &impl Abort,
    alloc: Global,
    script: &[u8],
    kind: RefusalKind,
    line: u32,
    column: u32,
) {
    assert!(rt; script.len() <= MOST_SCRIPT_BYTES);
    let want = Refusal {
        kind,
        place: Place { line, column },
    };
    match lex(alloc, script) {
        Err(ReadFail::Refused(refusal)) => assert_eq!(rt; refusal, want, "{script:?}"),
        _ => assert!(rt; false, "{script:?}"),
    }
}

// The lexemes of one line, without those of its end and the script's.
fn lexemes(rt: &impl Abort, alloc: Global, line: &[u8], want: &[Lexeme]) {
    assert!(rt; line.len() <= MOST_SCRIPT_BYTES);
    match lex(alloc, line) {
        Ok(lexed) => {
            let tokens = lexed.tokens.as_slice();
            assert_eq!(rt; tokens.len(), want.len() + 2, "{line:?}");
            for (token, want) in tokens.iter().zip(want) {
                assert_eq!(rt; token.lexeme, *want, "{line:?}");
            }
        }
        Err(_) => assert!(rt; false, "{line:?}"),
    }
}

#[test]
fn lexes_scripts(rt: HostRuntime) {
    let alloc = rt.alloc();
    lexes(&rt, alloc, b"", &[token(Lexeme::End, 1, 1, 0, 0)]);
    lexes(
        &rt,
        alloc,
        b"\n  \n # a\t\x80\r",
        &[token(Lexeme::End, 1, 1, 11, 11)],
    );
    let blocks = [
        token(mark(Mark::If), 1, 1, 0, 2),
        token(name(17), 1, 4, 3, 4),
        token(mark(Mark::Colon), 1, 5, 4, 5),
        token(Lexeme::NewLine, 1, 6, 5, 5),
        token(Lexeme::Indent, 4, 3, 24, 24),
        token(mark(Mark::While), 4, 3, 24, 29),
        token(mark(Mark::True), 4, 9, 30, 34),
        token(mark(Mark::Colon), 4, 13, 34, 35),
        token(Lexeme::NewLine, 4, 14, 35, 35),
        token(Lexeme::Indent, 5, 5, 41, 41),
        token(text(17), 5, 5, 41, 44),
        token(Lexeme::NewLine, 5, 8, 44, 44),
        token(Lexeme::Dedent, 6, 1, 48, 48),
        token(Lexeme::Dedent, 6, 1, 48, 48),
        token(Lexeme::Number(7), 6, 1, 48, 51),
        token(Lexeme::NewLine, 6, 4, 51, 51),
        token(Lexeme::End, 7, 1, 52, 52),
    ];
    let script = b"if y:  # a\r\n    # b\n \n  while True:\r\n    \"y\" #\r\n007\n";
    lexes(&rt, alloc, script, &blocks);
    let open = [
        token(name(17), 1, 1, 0, 1),
        token(Lexeme::NewLine, 1, 2, 1, 1),
        token(Lexeme::Indent, 2, 2, 3, 3),
        token(name(17), 2, 2, 3, 4),
        token(Lexeme::NewLine, 2, 3, 4, 4),
        token(Lexeme::Indent, 3, 4, 8, 8),
        token(name(17), 3, 4, 8, 9),
        token(Lexeme::NewLine, 3, 5, 9, 9),
        token(Lexeme::Dedent, 4, 1, 15, 15),
        token(Lexeme::Dedent, 4, 1, 15, 15),
        token(Lexeme::End, 4, 1, 15, 15),
    ];
    lexes(&rt, alloc, b"x\n x\n   x\n   #\n", &open);
}

#[test]
fn takes_the_longest_token(rt: HostRuntime) {
    let alloc = rt.alloc();
    let signs = [
        mark(Mark::Equal),
        mark(Mark::Assign),
        mark(Mark::NotEqual),
        mark(Mark::LessEqual),
        mark(Mark::GreaterEqual),
        mark(Mark::Less),
        mark(Mark::Greater),
        mark(Mark::Assign),
        mark(Mark::Minus),
        mark(Mark::Minus),
        mark(Mark::OpenSquare),
        mark(Mark::CloseSquare),
        mark(Mark::Slash),
        mark(Mark::Percent),
    ];
    lexemes(&rt, alloc, b"===!=<=>=<> =--[]/%", &signs);
    let names = [
        name(17),
        mark(Mark::And),
        name(18),
        mark(Mark::None),
        name(5),
        Lexeme::Number(0),
        name(19),
        Lexeme::Number(1),
        name(20),
    ];
    lexemes(&rt, alloc, b"and_ and If None print 0x1 1a", &names);
    let numbers = [Lexeme::Number(1), Lexeme::Number(9_223_372_036_854_775_807)];
    lexemes(
        &rt,
        alloc,
        b"000000000000000000000001 9223372036854775807",
        &numbers,
    );
}

#[test]
fn interns_texts_as_they_are_first_seen(rt: HostRuntime) -> Result<(), Fail> {
    let lexed = lex(rt.alloc(), b"b.a = \"a\\\"\\\\#\" + \"frozen\" + \"\" + a")?;
    assert_eq!(rt; lexed.texts.len(), 21);
    assert_eq!(rt; lexed.texts.text(TextId { index: 17 }), b"b".as_slice());
    assert_eq!(rt; lexed.texts.text(TextId { index: 18 }), b"a".as_slice());
    assert_eq!(rt;
        lexed.texts.text(TextId { index: 19 }),
        b"a\"\\#".as_slice()
    );
    assert_eq!(rt; lexed.texts.text(TextId { index: 20 }), b"".as_slice());
    let tokens = lexed.tokens.as_slice();
    assert_eq!(rt; tokens.len(), 13);
    assert_eq!(rt; tokens[4], token(text(19), 1, 7, 6, 14));
    assert_eq!(rt; tokens[6], token(text(3), 1, 18, 17, 25));
    assert_eq!(rt; tokens[8], token(text(20), 1, 29, 28, 30));
    assert_eq!(rt; tokens[10].lexeme, name(18));
    Ok(())
}

#[test]
fn refuses_the_first_byte_to_blame(rt: HostRuntime) {
    let alloc = rt.alloc();
    let rows: [(&[u8], RefusalKind, u32, u32); 38] = [
        (b"x = !", RefusalKind::BadByte, 1, 5),
        (b"x = ! =", RefusalKind::BadByte, 1, 5),
        (b"x\ty", RefusalKind::BadByte, 1, 2),
        (b"x\n\x00", RefusalKind::BadByte, 2, 1),
        (b"x \x7f", RefusalKind::BadByte, 1, 3),
        (b"x\x80", RefusalKind::BadByte, 1, 2),
        (b"x ;", RefusalKind::BadByte, 1, 3),
        (b"x\ry\n", RefusalKind::BadByte, 1, 2),
        (b"x\r\r\n", RefusalKind::BadByte, 1, 2),
        (b"x\r", RefusalKind::BadByte, 1, 2),
        (b"\r", RefusalKind::BadByte, 1, 1),
        (b"  \r", RefusalKind::BadByte, 1, 3),
        (b"  \t", RefusalKind::BadByte, 1, 3),
        (b"\"a\tb\"", RefusalKind::BadByte, 1, 3),
        (b"\"a\r\"", RefusalKind::BadByte, 1, 3),
        (b"\"\x7f\"", RefusalKind::BadByte, 1, 2),
        (b"\"a\\n\"", RefusalKind::BadByte, 1, 4),
        (b"\"a\\\rb\n", RefusalKind::BadByte, 1, 4),
        (b"\"a\x80", RefusalKind::BadByte, 1, 3),
        (b"x \"a\n\x80", RefusalKind::OpenText, 1, 3),
        (b"x \"a # b", RefusalKind::OpenText, 1, 3),
        (b"x \"a\r\n", RefusalKind::OpenText, 1, 3),
        (b"\"a\\", RefusalKind::OpenText, 1, 1),
        (b"\"a\\\n\"", RefusalKind::OpenText, 1, 1),
        (b"\"a\\\r\n\"", RefusalKind::OpenText, 1, 1),
        (b"\"a\\\"", RefusalKind::OpenText, 1, 1),
        (b"\"a\" \"", RefusalKind::OpenText, 1, 5),
        (b"x 9223372036854775808", RefusalKind::WideNumber, 1, 3),
        (b"x 09223372036854775808! ", RefusalKind::WideNumber, 1, 3),
        (
            b"99999999999999999999999999999999999999999999",
            RefusalKind::WideNumber,
            1,
            1,
        ),
        (b"x\n  x\n x", RefusalKind::BadIndent, 3, 2),
        (b"x\n  x\n !", RefusalKind::BadIndent, 3, 2),
        (b"x\n  x\n \t", RefusalKind::BadIndent, 3, 2),
        (b"x\n  x\n # a\n !", RefusalKind::BadIndent, 4, 2),
        (b" x\n\n  x\n!", RefusalKind::BadByte, 4, 1),
        (b"! 9223372036854775808\n\"", RefusalKind::BadByte, 1, 1),
        (b"9223372036854775808 !\n\"", RefusalKind::WideNumber, 1, 1),
        (b"\"\n!", RefusalKind::OpenText, 1, 1),
    ];
    for (script, kind, line, column) in rows {
        refuses(&rt, alloc, script, kind, line, column);
    }
}

// Lines of a name, each indented by one space more than the line before it.
fn stairs(alloc: Global, lines: usize) -> Result<Vec<u8>, Fail> {
    let mut script = Vec::new(alloc);
    for line in 0..lines {
        for _ in 0..line {
            script.push(b' ')?;
        }
        script.push(b'x')?;
        script.push(b'\n')?;
    }
    Ok(script)
}

#[test]
fn opens_64_levels_at_most(rt: HostRuntime) -> Result<(), Fail> {
    let alloc = rt.alloc();
    let most = stairs(alloc, 65)?;
    assert!(rt; most.len() <= MOST_SCRIPT_BYTES);
    let lexed = lex(alloc, most.as_slice())?;
    assert_eq!(rt; lexed.tokens.len(), 65 + 65 + 64 + 64 + 1);
    let size = most.len() as u32;
    assert_eq!(rt;
        lexed.tokens.as_slice()[257],
        token(Lexeme::Dedent, 66, 1, size, size)
    );
    let more = stairs(alloc, 66)?;
    refuses(
        &rt,
        alloc,
        more.as_slice(),
        RefusalKind::TooDeepIndent,
        66,
        66,
    );
    Ok(())
}
