ghost use Rattle.std.specs.Prelude.{◌≡◌, IfErr, IfOk};
ghost use Rattle.lf_parser.specs.Plain.{plain_tree};
ghost use Rattle.lf_parser.specs.Refusals.{ParseFailsAs, IsFirstPast, IsRefusal, IsTree, LinesFit, Readable, GrammarRefuses};
ghost use Rattle.lf_parser.specs.Refusals as spec;

use crate::cursor::Cursor;
use crate::halt::{Cause, Halt};
use crate::lines::first_past;
use crate::script::read_script;
use crate::tree::Tree;
use lf_base::{ReadFail, Refusal, RefusalKind};
use lf_lexer::{Lexed, Token};
use std::alloc::Global;

/// The tree of a script's tokens.
///
/// `Refused` comes exactly where no tree within the limits is derived from the
/// tokens, with the first token with which they begin no such script:
/// `Unexpected` where they begin no script at all, else `TooDeepExpr` where they
/// begin none with so few levels as the language has, else `TooManyParts`. `OutOfMemory` is free.
pub fn parse(alloc: Global, lexed: &Lexed) -> Result<Tree, ReadFail>
    requires { Readable lexed.now.tokens }
    ensures tree { IfOk result (λ tree. IsTree lexed.now.tokens (plain_tree tree)) }
    ensures refused { IfErr result (ParseFailsAs lexed.now.tokens) }
{
    let tokens = lexed.tokens.as_slice();
    match first_past(tokens) {
        Some(index) => Err(long_line(alloc, tokens, index)),
        None => whole(alloc, tokens),
    }
}

/// The tree of tokens of which no line is too long, or their refusal.
fn whole(alloc: Global, tokens: &[Token]) -> Result<Tree, ReadFail>
    requires readable { Readable tokens.now }
    requires fits { LinesFit tokens.now }
    ensures tree { IfOk result (λ tree. IsTree tokens.now (plain_tree tree)) }
    ensures refused { IfErr result (ParseFailsAs tokens.now) }
{
    let mut cursor = Cursor::new(tokens);
    match read_script(alloc, &mut cursor, tokens.len() + 1) {
        Ok(tree) => Ok(tree),
        Err(Halt::OutOfMemory) => Err(ReadFail::OutOfMemory),
        Err(Halt::Refused(cause)) => Err(ReadFail::Refused(refusal(tokens, cursor.rest(), cause))),
    }
}

/// The grammar's refusal, at the first of the tokens left.
fn refusal(tokens: &[Token], left: &[Token], cause: Cause) -> Refusal
    requires stops { GrammarRefuses tokens.now cause left.now }
    requires fits { LinesFit tokens.now }
    ensures { IsRefusal tokens.now result }
{
    stopped(cause, left[0])
}

/// The refusal of tokens of which this one is the first that is too many on its line. Those after
/// it aren't read, so that no tree is deeper than a line allows.
fn long_line(alloc: Global, tokens: &[Token], index: usize) -> ReadFail
    requires readable { Readable tokens.now }
    requires past { IsFirstPast tokens.now index }
    ensures { ParseFailsAs tokens.now result }
{
    let mut cursor = Cursor::new(&tokens[..index + 1]);
    match read_script(alloc, &mut cursor, index + 2) {
        Err(Halt::OutOfMemory) => ReadFail::OutOfMemory,
        Err(Halt::Refused(cause)) => match cursor.rest() {
            [token, ..] => ReadFail::Refused(stopped(cause, *token)),
            [] => ReadFail::Refused(too_many(tokens[index])),
        },
        Ok(_) => ReadFail::Refused(too_many(tokens[index])),
    }
}

/// The grammar's refusal of a token.
fn stopped(cause: Cause, token: Token) -> Refusal
    ensures { result ≡ spec.stopped cause token }
{
    Refusal {
        kind: cause.kind(),
        place: token.place,
    }
}

/// The refusal of a token that is one too many.
fn too_many(token: Token) -> Refusal
    ensures { result ≡ spec.too_many token }
{
    Refusal {
        kind: RefusalKind::TooManyParts,
        place: token.place,
    }
}
