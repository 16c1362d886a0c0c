//! The rules of functions and whole scripts.

ghost use Rattle.std.specs.Prelude.{◌≡◌, ◌⊎◌, Err, IfOk, IsOk, map};
ghost use Rattle.lf_parser.specs.ReadsBlocks.{ReadsBlocks};
ghost use Rattle.lf_parser.specs.Grammar.{with_function, with_stmt};
ghost use Rattle.lf_parser.specs.Parsers.{Reads};
ghost use Rattle.lf_parser.specs.Plain.{plain_function, plain_stmt, plain_tree};
ghost use Rattle.lf_parser.specs.ReadingFunctions as spec;
ghost use Rattle.lf_parser.specs.GrowingTrees.{items_of};
ghost use Rattle.lf_parser.specs.declared.halt.Halt.TheVariants as halt;
ghost use Rattle.lf_parser.specs.Limits.{within_limits};

use crate::cursor::Cursor;
use crate::halt::Halt;
use crate::lists::with;
use crate::names::some_names;
use crate::statements::{Statements, read_block};
use crate::stmt::{Block, Stmt};
use crate::tree::{Function, Functions, Tree};
use lf_lexer::Mark;
use std::alloc::Global;

/// The tree with one function more.
fn plus_function(tree: Tree, function: Function) -> Result<Tree, Halt>
    ensures ok { IfOk result (λ more. items_of more ≡ with_function (items_of tree) (plain_function function)) }
    ensures err { result ≡ Err halt.OutOfMemory ⊎ IsOk result }
{
    Ok(Tree {
        functions: with(tree.functions, function)?,
        main: tree.main,
    })
}

/// The tree with one statement of main more.
fn plus_stmt(tree: Tree, stmt: Stmt) -> Result<Tree, Halt>
    ensures ok { IfOk result (λ more. items_of more ≡ with_stmt (items_of tree) (plain_stmt stmt)) }
    ensures err { result ≡ Err halt.OutOfMemory ⊎ IsOk result }
{
    Ok(Tree {
        functions: tree.functions,
        main: with(tree.main, stmt)?,
    })
}

impl<F: Fn(Global, &mut Cursor<'_>, usize) -> Result<Block, Halt>> Statements<F> {
    /// A function.
    #[tactic(auto, unfolding(crate::specs::ReadingFunctions::def))]
    fn def(&self, cursor: &mut Cursor<'_>) -> Result<Function, Halt>
        requires { ReadsBlocks (F.pre self.now.deeper) (F.post self.now.deeper) self.now.nest }
        ensures { Reads plain_function (within_limits spec.def self.now.nest cursor.old) result cursor.new }
    {
        cursor.sign(Mark::Def)?;
        let name = cursor.name()?;
        cursor.sign(Mark::OpenParen)?;
        let params = some_names(self.alloc, cursor)?;
        cursor.sign(Mark::CloseParen)?;
        let body = self.body(cursor)?;
        Ok(Function { name, params, body })
    }

    #[tactic(auto, unfolding(crate::specs::ReadingFunctions::def_item))]
    fn def_item(&self, cursor: &mut Cursor<'_>, tree: Tree) -> Result<Tree, Halt>
        requires { ReadsBlocks (F.pre self.now.deeper) (F.post self.now.deeper) self.now.nest }
        ensures { Reads items_of (within_limits spec.def_item self.now.nest (items_of tree) cursor.old) result cursor.new }
    {
        let function = self.def(cursor)?;
        plus_function(tree, function)
    }

    #[tactic(auto, unfolding(crate::specs::ReadingFunctions::stmt_item))]
    fn stmt_item(&self, cursor: &mut Cursor<'_>, tree: Tree) -> Result<Tree, Halt>
        requires { ReadsBlocks (F.pre self.now.deeper) (F.post self.now.deeper) self.now.nest }
        ensures { Reads items_of (within_limits spec.stmt_item self.now.nest (items_of tree) cursor.old) result cursor.new }
    {
        let stmt = self.stmt(cursor)?;
        plus_stmt(tree, stmt)
    }

    #[tactic(auto, unfolding(crate::specs::ReadingFunctions::item))]
    fn item(&self, cursor: &mut Cursor<'_>, tree: Tree) -> Result<Tree, Halt>
        requires { ReadsBlocks (F.pre self.now.deeper) (F.post self.now.deeper) self.now.nest }
        ensures { Reads items_of (within_limits spec.item self.now.nest (items_of tree) cursor.old) result cursor.new }
    {
        if cursor.is_mark(Mark::Def) {
            return self.def_item(cursor, tree);
        }
        self.stmt_item(cursor, tree)
    }

    /// Functions and statements up to the end of the script.
    #[tactic(auto, using(crate::proofs::Rules::LoopSteps::item_unrolls, crate::proofs::Rules::LoopSteps::item_short))]
    fn items_from(&self, cursor: &mut Cursor<'_>, first: Tree) -> Result<Tree, Halt>
        requires { ReadsBlocks (F.pre self.now.deeper) (F.post self.now.deeper) self.now.nest }
        ensures { Reads items_of (within_limits spec.items_from self.now.nest (items_of first) cursor.old) result cursor.new }
    {
        let mut tree = first;
        while !cursor.is_end() {
            tree = self.item(cursor, tree)?;
        }
        Ok(tree)
    }

    /// A whole script.
    #[tactic(auto, unfolding(crate::specs::ReadingFunctions::a_script))]
    fn script(&self, cursor: &mut Cursor<'_>) -> Result<Tree, Halt>
        requires { ReadsBlocks (F.pre self.now.deeper) (F.post self.now.deeper) self.now.nest }
        ensures { Reads plain_tree (within_limits spec.a_script self.now.nest cursor.old) result cursor.new }
    {
        let nothing = Tree {
            functions: Functions::new(self.alloc),
            main: Block::new(self.alloc),
        };
        let tree = self.items_from(cursor, nothing)?;
        cursor.end()?;
        Ok(tree)
    }
}

/// Reads a whole script in which blocks may stand so deep one in another.
pub fn read_script(alloc: Global, cursor: &mut Cursor<'_>, nest: usize) -> Result<Tree, Halt>
    ensures { Reads plain_tree (within_limits spec.a_script nest cursor.old) result cursor.new }
{
    let statements = Statements {
        alloc,
        nest,
        deeper: read_block,
    };
    statements.script(cursor)
}
