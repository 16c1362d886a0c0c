ghost use Rattle.std.specs.Prelude.{◌≤◌, length, IfErr, IfOk, List};
ghost use Rattle.lf_base.specs.declared.refusals.Refusal.{Refusal};
ghost use Rattle.lf_base.specs.Texts.{Text};
ghost use Rattle.lf_parser.specs.Plain.{PlainTree, plain_tree};
ghost use Rattle.lf_codegen.specs.Exactly.{GivesScript, GivesRefusal};
ghost use Rattle.lf_codegen.specs.ScriptReading.{ReadFailsAs, IsFirstRefusal, IsRead};

use crate::resolved::Resolved;
use crate::resolving::resolve;
use lf_base::{MOST_SCRIPT_BYTES, ReadFail, Texts};
use lf_lexer::lex;
use lf_parser::{laws, parse};
use std::alloc::Global;

/// A script that is read: its resolved tree, and its texts.
#[derive(Drop)]
pub struct Script {
    pub resolved: Resolved,
    pub texts: Texts,
}

// The script that the bytes spell, or their first refusal.
fn read_script(alloc: Global, bytes: &[u8]) -> Result<Script, ReadFail>
    requires { length bytes.now ≤ MOST_SCRIPT_BYTES }
    ensures read { IfOk result (λ script. IsRead bytes.now script.texts (plain_tree script.resolved)) }
    ensures refused { IfErr result (ReadFailsAs bytes.now) }
{
    let lexed = lex(alloc, bytes)?;
    laws::spelled_tokens_are_readable();
    let tree = parse(alloc, &lexed)?;
    let resolved = resolve(alloc, tree, &lexed.texts)?;
    Ok(Script {
        resolved,
        texts: lexed.texts,
    })
}

/// Reads a script from its bytes.
///
/// It answers the resolved tree and the texts that the bytes spell exactly where they spell one, and
/// else their first refusal: of the bytes and tokens (`docs/TOKENS.md`), else of the grammar
/// (`docs/GRAMMAR.md`), else of the names (`docs/NAMES.md`). No clause says when
/// `OutOfMemory` comes.
pub fn read(alloc: Global, bytes: &[u8]) -> Result<Script, ReadFail>
    requires { length bytes.now ≤ MOST_SCRIPT_BYTES }
    ensures read { IfOk result (λ script. IsRead bytes.now script.texts (plain_tree script.resolved)) }
    ensures refused { IfErr result (ReadFailsAs bytes.now) }
    ensures wherever_read { (texts : List Text) (tree : PlainTree) → IsRead bytes.now texts tree → GivesScript result texts tree }
    ensures wherever_refused { (refusal : Refusal) → IsFirstRefusal bytes.now refusal → GivesRefusal result refusal }
{
    read_script(alloc, bytes)
}
