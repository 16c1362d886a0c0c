//! The rules of statements and blocks. A rule that reads a block calls a function
//! that it is handed, so that each is proved by itself.

ghost use Rattle.std.specs.Prelude.{◌≡◌, ◌-◌, map};
ghost use Rattle.lf_parser.specs.ReadsBlocks.{ReadsBlocks};
ghost use Rattle.lf_parser.specs.Parsers.{Reads};
ghost use Rattle.lf_parser.specs.Plain.{plain_expr, plain_value, plain_stmt, plain_arm};
ghost use Rattle.lf_parser.specs.ReadingFunctions as spec;
ghost use Rattle.lf_parser.specs.ReadingFunctions.{blocks};
ghost use Rattle.lf_parser.specs.Limits.{within_blocks, within_limits};

use crate::arm::Arm;
use crate::cursor::Cursor;
use crate::expr::Expr;
use crate::expressions::{Entry, call, read, rest_of, suffixes};
use crate::halt::{Cause, Halt};
use crate::lists::with;
use crate::name::{Name, Names};
use crate::names::{names, some_names};
use crate::stmt::{Block, Stmt};
use lf_base::{MOST_ELIFS, MOST_EXPRESSION_LEVELS};
use lf_lexer::Mark;
use std::alloc::Global;

/// The rules of statements, where blocks may stand so deep one in another.
#[derive(Clone, Copy)]
pub struct Statements<F> {
    pub alloc: Global,
    pub nest: usize,
    pub deeper: F,
}

impl<F: Fn(Global, &mut Cursor<'_>, usize) -> Result<Block, Halt>> Statements<F> {
    /// Reads an expression.
    #[tactic(auto, unfolding(crate::specs::ReadingFunctions::an_expr))]
    fn an_expr(&self, cursor: &mut Cursor<'_>) -> Result<Expr, Halt>
        ensures { Reads plain_expr (within_blocks spec.an_expr self.now.nest cursor.old) result cursor.new }
    {
        read(self.alloc, cursor, MOST_EXPRESSION_LEVELS, Entry::WholeExpr)
    }

    /// Reads a block one deeper.
    #[tactic(auto, unfolding(crate::specs::ReadingFunctions::blocks))]
    fn block(&self, cursor: &mut Cursor<'_>) -> Result<Block, Halt>
        requires { ReadsBlocks (F.pre self.now.deeper) (F.post self.now.deeper) self.now.nest }
        ensures { Reads (map plain_stmt) (within_limits blocks self.now.nest cursor.old) result cursor.new }
    {
        if self.nest == 0 {
            return Err(Halt::Refused(Cause::Unexpected));
        }
        (self.deeper)(self.alloc, cursor, self.nest - 1)
    }

    /// `:` and a block.
    #[tactic(auto, unfolding(crate::specs::ReadingFunctions::body))]
    pub fn body(&self, cursor: &mut Cursor<'_>) -> Result<Block, Halt>
        requires { ReadsBlocks (F.pre self.now.deeper) (F.post self.now.deeper) self.now.nest }
        ensures { Reads (map plain_stmt) (within_blocks spec.body self.now.nest cursor.old) result cursor.new }
    {
        cursor.sign(Mark::Colon)?;
        self.block(cursor)
    }

    #[tactic(auto, unfolding(crate::specs::ReadingFunctions::else_body))]
    fn else_body(&self, cursor: &mut Cursor<'_>) -> Result<Block, Halt>
        requires { ReadsBlocks (F.pre self.now.deeper) (F.post self.now.deeper) self.now.nest }
        ensures { Reads (map plain_stmt) (within_blocks spec.else_body self.now.nest cursor.old) result cursor.new }
    {
        cursor.sign(Mark::Else)?;
        self.body(cursor)
    }

    /// An `else` with its block, or nothing.
    #[tactic(auto, unfolding(crate::specs::ReadingFunctions::otherwise))]
    fn otherwise(&self, cursor: &mut Cursor<'_>) -> Result<Block, Halt>
        requires { ReadsBlocks (F.pre self.now.deeper) (F.post self.now.deeper) self.now.nest }
        ensures { Reads (map plain_stmt) (within_blocks spec.otherwise self.now.nest cursor.old) result cursor.new }
    {
        if cursor.is_mark(Mark::Else) {
            return self.else_body(cursor);
        }
        Ok(Block::new(self.alloc))
    }

    /// A word, a test and a block.
    #[tactic(auto, unfolding(crate::specs::ReadingFunctions::arm))]
    fn arm(&self, cursor: &mut Cursor<'_>, mark: Mark) -> Result<Arm, Halt>
        requires { ReadsBlocks (F.pre self.now.deeper) (F.post self.now.deeper) self.now.nest }
        ensures { Reads plain_arm (within_blocks spec.arm self.now.nest mark cursor.old) result cursor.new }
    {
        let word = cursor.sign(mark)?;
        let test = self.an_expr(cursor)?;
        let body = self.body(cursor)?;
        Ok(Arm {
            line: word.place.line,
            test,
            body,
        })
    }

    /// The rest of a chain after an `if`, where so many more `elif`s may come.
    #[tactic(auto, unfolding(crate::specs::ReadingFunctions::chain_rest))]
    fn rest(&self, cursor: &mut Cursor<'_>, more: usize) -> Result<Block, Halt>
        requires { ReadsBlocks (F.pre self.now.deeper) (F.post self.now.deeper) self.now.nest }
        ensures { Reads (map plain_stmt) (within_blocks spec.chain_rest self.now.nest more cursor.old) result cursor.new }
    {
        if !cursor.is_mark(Mark::Elif) {
            return self.otherwise(cursor);
        }
        if more == 0 {
            return Err(Halt::Refused(Cause::TooMany));
        }
        let arm = self.arm(cursor, Mark::Elif)?;
        let other = self.rest(cursor, more - 1)?;
        with(Block::new(self.alloc), arm.into_if(other))
    }

    #[tactic(auto, unfolding(crate::specs::ReadingFunctions::if_of))]
    fn if_of(&self, cursor: &mut Cursor<'_>) -> Result<Stmt, Halt>
        requires { ReadsBlocks (F.pre self.now.deeper) (F.post self.now.deeper) self.now.nest }
        ensures { Reads plain_stmt (within_blocks spec.if_of self.now.nest cursor.old) result cursor.new }
    {
        let arm = self.arm(cursor, Mark::If)?;
        let other = self.rest(cursor, MOST_ELIFS)?;
        Ok(arm.into_if(other))
    }

    #[tactic(auto, unfolding(crate::specs::ReadingFunctions::while_of))]
    fn while_of(&self, cursor: &mut Cursor<'_>) -> Result<Stmt, Halt>
        requires { ReadsBlocks (F.pre self.now.deeper) (F.post self.now.deeper) self.now.nest }
        ensures { Reads plain_stmt (within_blocks spec.while_of self.now.nest cursor.old) result cursor.new }
    {
        let arm = self.arm(cursor, Mark::While)?;
        Ok(arm.into_while())
    }

    #[tactic(auto, unfolding(crate::specs::ReadingFunctions::with_names))]
    fn with_names(&self, cursor: &mut Cursor<'_>) -> Result<Names, Halt>
        ensures { Reads (λ xs. xs) (within_blocks spec.with_names self.now.nest cursor.old) result cursor.new }
    {
        cursor.sign(Mark::With)?;
        names(self.alloc, cursor)
    }

    /// `with` and names, or nothing.
    #[tactic(auto, unfolding(crate::specs::ReadingFunctions::captures))]
    fn captures(&self, cursor: &mut Cursor<'_>) -> Result<Names, Halt>
        ensures { Reads (λ xs. xs) (within_blocks spec.captures self.now.nest cursor.old) result cursor.new }
    {
        if cursor.is_mark(Mark::With) {
            return self.with_names(cursor);
        }
        Ok(Names::new(self.alloc))
    }

    #[tactic(auto, unfolding(crate::specs::ReadingFunctions::when_of))]
    fn when_of(&self, cursor: &mut Cursor<'_>) -> Result<Stmt, Halt>
        requires { ReadsBlocks (F.pre self.now.deeper) (F.post self.now.deeper) self.now.nest }
        ensures { Reads plain_stmt (within_blocks spec.when_of self.now.nest cursor.old) result cursor.new }
    {
        let word = cursor.sign(Mark::When)?;
        let cowns = some_names(self.alloc, cursor)?;
        let captures = self.captures(cursor)?;
        let body = self.body(cursor)?;
        Ok(Stmt::When {
            line: word.place.line,
            cowns,
            captures,
            body,
        })
    }

    #[tactic(auto, unfolding(crate::specs::ReadingFunctions::drop_of))]
    fn drop_of(&self, cursor: &mut Cursor<'_>, line: u32) -> Result<Stmt, Halt>
        ensures { Reads plain_stmt (within_blocks spec.drop_of self.now.nest line cursor.old) result cursor.new }
    {
        cursor.sign(Mark::Drop)?;
        let name = cursor.name()?;
        Ok(Stmt::Drop { line, name })
    }

    /// An expression, or nothing before the line end.
    #[tactic(auto, unfolding(crate::specs::ReadingFunctions::result))]
    fn result(&self, cursor: &mut Cursor<'_>) -> Result<Option<Expr>, Halt>
        ensures { Reads plain_value (within_blocks spec.result self.now.nest cursor.old) result cursor.new }
    {
        if cursor.is_line_end() {
            return Ok(None);
        }
        let value = self.an_expr(cursor)?;
        Ok(Some(value))
    }

    #[tactic(auto, unfolding(crate::specs::ReadingFunctions::return_of))]
    fn return_of(&self, cursor: &mut Cursor<'_>, line: u32) -> Result<Stmt, Halt>
        ensures { Reads plain_stmt (within_blocks spec.return_of self.now.nest line cursor.old) result cursor.new }
    {
        cursor.sign(Mark::Return)?;
        let value = self.result(cursor)?;
        Ok(Stmt::Return { line, value })
    }

    #[tactic(auto, unfolding(crate::specs::ReadingFunctions::pass_of))]
    fn pass_of(&self, cursor: &mut Cursor<'_>, line: u32) -> Result<Stmt, Halt>
        ensures { Reads plain_stmt (within_blocks spec.pass_of self.now.nest line cursor.old) result cursor.new }
    {
        cursor.sign(Mark::Pass)?;
        Ok(Stmt::Pass { line })
    }

    #[tactic(auto, unfolding(crate::specs::ReadingFunctions::eval_of))]
    fn eval_of(&self, cursor: &mut Cursor<'_>, line: u32) -> Result<Stmt, Halt>
        ensures { Reads plain_stmt (within_blocks spec.eval_of self.now.nest line cursor.old) result cursor.new }
    {
        let value = self.an_expr(cursor)?;
        Ok(Stmt::Eval { line, value })
    }

    /// An expression alone, after its first operand.
    #[tactic(auto, unfolding(crate::specs::ReadingFunctions::eval_rest))]
    fn eval_rest(&self, cursor: &mut Cursor<'_>, line: u32, first: Expr) -> Result<Stmt, Halt>
        ensures { Reads plain_stmt (within_blocks spec.eval_rest self.now.nest line (plain_expr first) cursor.old) result cursor.new }
    {
        let value = rest_of(self.alloc, cursor, MOST_EXPRESSION_LEVELS, first)?;
        Ok(Stmt::Eval { line, value })
    }

    #[tactic(auto, unfolding(crate::specs::ReadingFunctions::assign_to))]
    fn assign_to(&self, cursor: &mut Cursor<'_>, line: u32, place: Expr) -> Result<Stmt, Halt>
        ensures { Reads plain_stmt (within_blocks spec.assign_to self.now.nest line (plain_expr place) cursor.old) result cursor.new }
    {
        cursor.sign(Mark::Assign)?;
        let value = self.an_expr(cursor)?;
        Ok(place.assigned(line, value))
    }

    #[tactic(auto, unfolding(crate::specs::ReadingFunctions::after_place))]
    fn after_place(&self, cursor: &mut Cursor<'_>, line: u32, place: Expr) -> Result<Stmt, Halt>
        ensures { Reads plain_stmt (within_blocks spec.after_place self.now.nest line (plain_expr place) cursor.old) result cursor.new }
    {
        if cursor.is_mark(Mark::Assign) {
            return self.assign_to(cursor, line, place);
        }
        self.eval_rest(cursor, line, place)
    }

    #[tactic(auto, unfolding(crate::specs::ReadingFunctions::call_first))]
    fn call_first(&self, cursor: &mut Cursor<'_>, line: u32, name: Name) -> Result<Stmt, Halt>
        ensures { Reads plain_stmt (within_blocks spec.call_first self.now.nest line name cursor.old) result cursor.new }
    {
        let first = call(self.alloc, cursor, MOST_EXPRESSION_LEVELS, name)?;
        let whole = suffixes(self.alloc, cursor, MOST_EXPRESSION_LEVELS, first)?;
        self.eval_rest(cursor, line, whole)
    }

    #[tactic(auto, unfolding(crate::specs::ReadingFunctions::place_first))]
    fn place_first(&self, cursor: &mut Cursor<'_>, line: u32, name: Name) -> Result<Stmt, Halt>
        ensures { Reads plain_stmt (within_blocks spec.place_first self.now.nest line name cursor.old) result cursor.new }
    {
        let place = suffixes(self.alloc, cursor, MOST_EXPRESSION_LEVELS, Expr::Var(name))?;
        self.after_place(cursor, line, place)
    }

    /// A statement that begins with a name: an assignment, or an expression.
    #[tactic(auto, unfolding(crate::specs::ReadingFunctions::name_first))]
    fn name_first(&self, cursor: &mut Cursor<'_>, line: u32) -> Result<Stmt, Halt>
        ensures { Reads plain_stmt (within_blocks spec.name_first self.now.nest line cursor.old) result cursor.new }
    {
        let name = cursor.name()?;
        if cursor.is_mark(Mark::OpenParen) {
            return self.call_first(cursor, line, name);
        }
        self.place_first(cursor, line, name)
    }

    #[tactic(auto, unfolding(crate::specs::ReadingFunctions::simple))]
    fn simple(&self, cursor: &mut Cursor<'_>, line: u32) -> Result<Stmt, Halt>
        ensures { Reads plain_stmt (within_blocks spec.simple self.now.nest line cursor.old) result cursor.new }
    {
        if cursor.is_mark(Mark::Drop) {
            return self.drop_of(cursor, line);
        }
        if cursor.is_mark(Mark::Return) {
            return self.return_of(cursor, line);
        }
        if cursor.is_mark(Mark::Pass) {
            return self.pass_of(cursor, line);
        }
        if cursor.is_name() {
            return self.name_first(cursor, line);
        }
        self.eval_of(cursor, line)
    }

    /// A simple statement, and its line end.
    #[tactic(auto, unfolding(crate::specs::ReadingFunctions::simple_line))]
    fn simple_line(&self, cursor: &mut Cursor<'_>) -> Result<Stmt, Halt>
        ensures { Reads plain_stmt (within_blocks spec.simple_line self.now.nest cursor.old) result cursor.new }
    {
        let line = cursor.line();
        let stmt = self.simple(cursor, line)?;
        cursor.new_line()?;
        Ok(stmt)
    }

    /// A statement.
    #[tactic(auto, unfolding(crate::specs::ReadingFunctions::stmt))]
    pub fn stmt(&self, cursor: &mut Cursor<'_>) -> Result<Stmt, Halt>
        requires { ReadsBlocks (F.pre self.now.deeper) (F.post self.now.deeper) self.now.nest }
        ensures { Reads plain_stmt (within_blocks spec.stmt self.now.nest cursor.old) result cursor.new }
    {
        if cursor.is_mark(Mark::If) {
            return self.if_of(cursor);
        }
        if cursor.is_mark(Mark::While) {
            return self.while_of(cursor);
        }
        if cursor.is_mark(Mark::When) {
            return self.when_of(cursor);
        }
        self.simple_line(cursor)
    }

    #[tactic(auto, unfolding(crate::specs::ReadingFunctions::more_stmt))]
    fn more_stmt(&self, cursor: &mut Cursor<'_>, stmts: Block) -> Result<Block, Halt>
        requires { ReadsBlocks (F.pre self.now.deeper) (F.post self.now.deeper) self.now.nest }
        ensures { Reads (map plain_stmt) (within_blocks spec.more_stmt self.now.nest (map plain_stmt stmts) cursor.old) result cursor.new }
    {
        let stmt = self.stmt(cursor)?;
        with(stmts, stmt)
    }

    /// Statements up to the end of their block.
    #[tactic(auto, using(crate::proofs::Rules::LoopSteps::more_stmt_unrolls))]
    fn stmts(&self, cursor: &mut Cursor<'_>, first: Block) -> Result<Block, Halt>
        requires { ReadsBlocks (F.pre self.now.deeper) (F.post self.now.deeper) self.now.nest }
        ensures { Reads (map plain_stmt) (within_blocks spec.stmts self.now.nest (map plain_stmt first) cursor.old) result cursor.new }
    {
        let mut stmts = first;
        while !cursor.is_dedent() {
            stmts = self.more_stmt(cursor, stmts)?;
        }
        Ok(stmts)
    }

    /// A block.
    #[tactic(auto, unfolding(crate::specs::ReadingFunctions::block_from))]
    fn block_from(&self, cursor: &mut Cursor<'_>) -> Result<Block, Halt>
        requires { ReadsBlocks (F.pre self.now.deeper) (F.post self.now.deeper) self.now.nest }
        ensures { Reads (map plain_stmt) (within_blocks spec.block_from self.now.nest cursor.old) result cursor.new }
    {
        cursor.new_line()?;
        cursor.indent()?;
        let stmt = self.stmt(cursor)?;
        let first = with(Block::new(self.alloc), stmt)?;
        let stmts = self.stmts(cursor, first)?;
        cursor.dedent()?;
        Ok(stmts)
    }
}

/// Reads a block in which others may stand so deep one in another.
pub fn read_block(alloc: Global, cursor: &mut Cursor<'_>, nest: usize) -> Result<Block, Halt>
    ensures { Reads (map plain_stmt) (within_blocks spec.block_from nest cursor.old) result cursor.new }
{
    let statements = Statements {
        alloc,
        nest,
        deeper: read_block,
    };
    statements.block_from(cursor)
}
