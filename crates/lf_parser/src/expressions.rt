//! The rules of expressions. A rule that goes a level deeper calls a function
//! that it is handed, so that each is proved by itself.

ghost use Rattle.std.specs.Prelude.{◌≡◌, ◌-◌, map};
ghost use Rattle.lf_parser.specs.ReadsDeeper.{ReadsDeeper, entry_rule};
ghost use Rattle.lf_parser.specs.Parsers.{Reads};
ghost use Rattle.lf_parser.specs.Plain.{plain_expr};
ghost use Rattle.lf_parser.specs.ReadingFunctions as spec;
ghost use Rattle.lf_parser.specs.ReadingFunctions.{levels_left};
ghost use Rattle.lf_parser.specs.Limits.{rules_at, at_levels};

use crate::cursor::Cursor;
use crate::expr::{Expr, Exprs};
use crate::halt::{Cause, Halt};
use crate::lists::with;
use crate::name::Name;
use crate::nodes::{and, binary, field, neg, not, or};
use lf_lexer::{Mark, Token};
use std::alloc::Global;

/// The levels of operators that join two operands, the loosest first.
#[derive(Clone, Copy, Debug, PartialEq, Eq)]
pub enum Level {
    Compare,
    Sum,
    Term,
}

/// The rules that are asked for one level deeper.
#[derive(Clone, Copy, Debug, PartialEq, Eq)]
pub enum Entry {
    WholeExpr,
    OneUnary,
    OneNeg,
}

/// The rules of expressions, where so many levels may still be opened.
#[derive(Clone, Copy)]
pub struct Expressions<F> {
    pub alloc: Global,
    pub levels: usize,
    pub deeper: F,
}

impl<F: Fn(Global, &mut Cursor<'_>, usize, Entry) -> Result<Expr, Halt>> Expressions<F> {
    /// Takes a token that opens a level.
    fn opening(&self, cursor: &mut Cursor<'_>, mark: Mark) -> Result<Token, Halt>
        ensures { Reads (λ t. t) (at_levels spec.opening self.now.levels mark cursor.old) result cursor.new }
    {
        cursor.allow(mark, self.levels > 0, Cause::TooDeep)
    }

    /// Reads an expression one level deeper.
    #[tactic(auto, unfolding(crate::specs::ReadingFunctions::levels_left))]
    fn inner(&self, cursor: &mut Cursor<'_>) -> Result<Expr, Halt>
        requires { ReadsDeeper (F.pre self.now.deeper) (F.post self.now.deeper) self.now.levels }
        ensures { Reads plain_expr ((rules_at self.now.levels).expr cursor.old) result cursor.new }
    {
        if self.levels == 0 {
            return Err(Halt::Refused(Cause::TooDeep));
        }
        (self.deeper)(self.alloc, cursor, self.levels - 1, Entry::WholeExpr)
    }

    /// Reads an operand of `*` one level deeper.
    #[tactic(auto, unfolding(crate::specs::ReadingFunctions::levels_left))]
    fn inner_unary(&self, cursor: &mut Cursor<'_>) -> Result<Expr, Halt>
        requires { ReadsDeeper (F.pre self.now.deeper) (F.post self.now.deeper) self.now.levels }
        ensures { Reads plain_expr ((rules_at self.now.levels).unary cursor.old) result cursor.new }
    {
        if self.levels == 0 {
            return Err(Halt::Refused(Cause::TooDeep));
        }
        (self.deeper)(self.alloc, cursor, self.levels - 1, Entry::OneUnary)
    }

    /// Reads an operand of `and` one level deeper.
    #[tactic(auto, unfolding(crate::specs::ReadingFunctions::levels_left))]
    fn inner_neg(&self, cursor: &mut Cursor<'_>) -> Result<Expr, Halt>
        requires { ReadsDeeper (F.pre self.now.deeper) (F.post self.now.deeper) self.now.levels }
        ensures { Reads plain_expr ((rules_at self.now.levels).neg cursor.old) result cursor.new }
    {
        if self.levels == 0 {
            return Err(Halt::Refused(Cause::TooDeep));
        }
        (self.deeper)(self.alloc, cursor, self.levels - 1, Entry::OneNeg)
    }

    /// `.` and a name, after what it is a field of.
    #[tactic(auto, unfolding(crate::specs::ReadingFunctions::a_field))]
    fn field(&self, cursor: &mut Cursor<'_>, target: Expr) -> Result<Expr, Halt>
        ensures { Reads plain_expr (at_levels spec.a_field self.now.levels (plain_expr target) cursor.old) result cursor.new }
    {
        cursor.sign(Mark::Dot)?;
        let name = cursor.name()?;
        Ok(field(self.alloc, target, Expr::Text(name.id))?)
    }

    /// A key in square brackets, after what it is a field of.
    #[tactic(auto, unfolding(crate::specs::ReadingFunctions::entry))]
    fn entry(&self, cursor: &mut Cursor<'_>, target: Expr) -> Result<Expr, Halt>
        requires { ReadsDeeper (F.pre self.now.deeper) (F.post self.now.deeper) self.now.levels }
        ensures { Reads plain_expr (at_levels spec.entry self.now.levels (plain_expr target) cursor.old) result cursor.new }
    {
        self.opening(cursor, Mark::OpenSquare)?;
        let key = self.inner(cursor)?;
        cursor.sign(Mark::CloseSquare)?;
        Ok(field(self.alloc, target, key)?)
    }

    #[tactic(auto, unfolding(crate::specs::ReadingFunctions::suffix))]
    fn suffix(&self, cursor: &mut Cursor<'_>, target: Expr) -> Result<Expr, Halt>
        requires { ReadsDeeper (F.pre self.now.deeper) (F.post self.now.deeper) self.now.levels }
        ensures { Reads plain_expr (at_levels spec.suffix self.now.levels (plain_expr target) cursor.old) result cursor.new }
    {
        if cursor.is_mark(Mark::Dot) {
            self.field(cursor, target)
        } else {
            self.entry(cursor, target)
        }
    }

    /// All suffixes after an operand.
    #[tactic(auto, using(crate::proofs::Rules::LoopSteps::suffix_unrolls, crate::proofs::Rules::LoopSteps::suffix_short))]
    pub fn suffixes(&self, cursor: &mut Cursor<'_>, first: Expr) -> Result<Expr, Halt>
        requires { ReadsDeeper (F.pre self.now.deeper) (F.post self.now.deeper) self.now.levels }
        ensures { Reads plain_expr (at_levels spec.suffixes self.now.levels (plain_expr first) cursor.old) result cursor.new }
    {
        let mut whole = first;
        while cursor.is_suffix() {
            whole = self.suffix(cursor, whole)?;
        }
        Ok(whole)
    }

    /// A place: a name with its suffixes.
    #[tactic(auto, unfolding(crate::specs::ReadingFunctions::a_place))]
    fn a_place(&self, cursor: &mut Cursor<'_>) -> Result<Expr, Halt>
        requires { ReadsDeeper (F.pre self.now.deeper) (F.post self.now.deeper) self.now.levels }
        ensures { Reads plain_expr (at_levels spec.a_place self.now.levels cursor.old) result cursor.new }
    {
        let name = cursor.name()?;
        self.suffixes(cursor, Expr::Var(name))
    }

    #[tactic(auto, unfolding(crate::specs::ReadingFunctions::more_arg))]
    fn more_arg(&self, cursor: &mut Cursor<'_>, args: Exprs) -> Result<Exprs, Halt>
        requires { ReadsDeeper (F.pre self.now.deeper) (F.post self.now.deeper) self.now.levels }
        ensures { Reads (map plain_expr) (at_levels spec.more_arg self.now.levels (map plain_expr args) cursor.old) result cursor.new }
    {
        cursor.separator(args.len())?;
        let arg = self.inner(cursor)?;
        with(args, arg)
    }

    #[tactic(auto, using(crate::proofs::Rules::LoopSteps::more_arg_unrolls, crate::proofs::Rules::LoopSteps::more_arg_short))]
    fn args_from(&self, cursor: &mut Cursor<'_>, first: Exprs) -> Result<Exprs, Halt>
        requires { ReadsDeeper (F.pre self.now.deeper) (F.post self.now.deeper) self.now.levels }
        ensures { Reads (map plain_expr) (at_levels spec.args_from self.now.levels (map plain_expr first) cursor.old) result cursor.new }
    {
        let mut args = first;
        while cursor.is_mark(Mark::Comma) {
            args = self.more_arg(cursor, args)?;
        }
        Ok(args)
    }

    #[tactic(auto, unfolding(crate::specs::ReadingFunctions::first_args))]
    fn first_args(&self, cursor: &mut Cursor<'_>) -> Result<Exprs, Halt>
        requires { ReadsDeeper (F.pre self.now.deeper) (F.post self.now.deeper) self.now.levels }
        ensures { Reads (map plain_expr) (at_levels spec.first_args self.now.levels cursor.old) result cursor.new }
    {
        let arg = self.inner(cursor)?;
        let args = with(Exprs::new(self.alloc), arg)?;
        self.args_from(cursor, args)
    }

    #[tactic(auto, unfolding(crate::specs::ReadingFunctions::some_args))]
    fn some_args(&self, cursor: &mut Cursor<'_>) -> Result<Exprs, Halt>
        requires { ReadsDeeper (F.pre self.now.deeper) (F.post self.now.deeper) self.now.levels }
        ensures { Reads (map plain_expr) (at_levels spec.some_args self.now.levels cursor.old) result cursor.new }
    {
        if cursor.is_mark(Mark::CloseParen) {
            return Ok(Exprs::new(self.alloc));
        }
        self.first_args(cursor)
    }

    /// The arguments of a call, in their parentheses.
    #[tactic(auto, unfolding(crate::specs::ReadingFunctions::arguments))]
    fn arguments(&self, cursor: &mut Cursor<'_>) -> Result<Exprs, Halt>
        requires { ReadsDeeper (F.pre self.now.deeper) (F.post self.now.deeper) self.now.levels }
        ensures { Reads (map plain_expr) (at_levels spec.arguments self.now.levels cursor.old) result cursor.new }
    {
        self.opening(cursor, Mark::OpenParen)?;
        let args = self.some_args(cursor)?;
        cursor.sign(Mark::CloseParen)?;
        Ok(args)
    }

    /// A call, after its name.
    #[tactic(auto, unfolding(crate::specs::ReadingFunctions::call))]
    pub fn call(&self, cursor: &mut Cursor<'_>, name: Name) -> Result<Expr, Halt>
        requires { ReadsDeeper (F.pre self.now.deeper) (F.post self.now.deeper) self.now.levels }
        ensures { Reads plain_expr (at_levels spec.call self.now.levels name cursor.old) result cursor.new }
    {
        let args = self.arguments(cursor)?;
        Ok(Expr::Call { name, args })
    }

    #[tactic(auto, unfolding(crate::specs::ReadingFunctions::after_name))]
    fn after_name(&self, cursor: &mut Cursor<'_>, name: Name) -> Result<Expr, Halt>
        requires { ReadsDeeper (F.pre self.now.deeper) (F.post self.now.deeper) self.now.levels }
        ensures { Reads plain_expr (at_levels spec.after_name self.now.levels name cursor.old) result cursor.new }
    {
        if cursor.is_mark(Mark::OpenParen) {
            return self.call(cursor, name);
        }
        Ok(Expr::Var(name))
    }

    #[tactic(auto, unfolding(crate::specs::ReadingFunctions::name_or_call))]
    fn named(&self, cursor: &mut Cursor<'_>) -> Result<Expr, Halt>
        requires { ReadsDeeper (F.pre self.now.deeper) (F.post self.now.deeper) self.now.levels }
        ensures { Reads plain_expr (at_levels spec.name_or_call self.now.levels cursor.old) result cursor.new }
    {
        let name = cursor.name()?;
        self.after_name(cursor, name)
    }

    #[tactic(auto, unfolding(crate::specs::ReadingFunctions::group))]
    fn group(&self, cursor: &mut Cursor<'_>) -> Result<Expr, Halt>
        requires { ReadsDeeper (F.pre self.now.deeper) (F.post self.now.deeper) self.now.levels }
        ensures { Reads plain_expr (at_levels spec.group self.now.levels cursor.old) result cursor.new }
    {
        self.opening(cursor, Mark::OpenParen)?;
        let inside = self.inner(cursor)?;
        cursor.sign(Mark::CloseParen)?;
        Ok(inside)
    }

    #[tactic(auto, unfolding(crate::specs::ReadingFunctions::empty))]
    fn empty(&self, cursor: &mut Cursor<'_>) -> Result<Expr, Halt>
        ensures { Reads plain_expr (at_levels spec.empty self.now.levels cursor.old) result cursor.new }
    {
        cursor.sign(Mark::OpenBrace)?;
        cursor.sign(Mark::CloseBrace)?;
        Ok(Expr::Object)
    }

    #[tactic(auto, unfolding(crate::specs::ReadingFunctions::atom))]
    fn atom(&self, cursor: &mut Cursor<'_>) -> Result<Expr, Halt>
        requires { ReadsDeeper (F.pre self.now.deeper) (F.post self.now.deeper) self.now.levels }
        ensures { Reads plain_expr (at_levels spec.atom self.now.levels cursor.old) result cursor.new }
    {
        if cursor.is_name() {
            return self.named(cursor);
        }
        if cursor.is_mark(Mark::OpenParen) {
            return self.group(cursor);
        }
        if cursor.is_mark(Mark::OpenBrace) {
            return self.empty(cursor);
        }
        cursor.literal()
    }

    #[tactic(auto, unfolding(crate::specs::ReadingFunctions::post))]
    fn post(&self, cursor: &mut Cursor<'_>) -> Result<Expr, Halt>
        requires { ReadsDeeper (F.pre self.now.deeper) (F.post self.now.deeper) self.now.levels }
        ensures { Reads plain_expr (at_levels spec.post self.now.levels cursor.old) result cursor.new }
    {
        let first = self.atom(cursor)?;
        self.suffixes(cursor, first)
    }

    #[tactic(auto, unfolding(crate::specs::ReadingFunctions::negated))]
    fn negated(&self, cursor: &mut Cursor<'_>) -> Result<Expr, Halt>
        requires { ReadsDeeper (F.pre self.now.deeper) (F.post self.now.deeper) self.now.levels }
        ensures { Reads plain_expr (at_levels spec.negated self.now.levels cursor.old) result cursor.new }
    {
        self.opening(cursor, Mark::Minus)?;
        let operand = self.inner_unary(cursor)?;
        Ok(neg(self.alloc, operand)?)
    }

    #[tactic(auto, unfolding(crate::specs::ReadingFunctions::move_of))]
    fn move_of(&self, cursor: &mut Cursor<'_>) -> Result<Expr, Halt>
        requires { ReadsDeeper (F.pre self.now.deeper) (F.post self.now.deeper) self.now.levels }
        ensures { Reads plain_expr (at_levels spec.move_of self.now.levels cursor.old) result cursor.new }
    {
        cursor.sign(Mark::Move)?;
        let place = self.a_place(cursor)?;
        Ok(place.moved())
    }

    #[tactic(auto, unfolding(crate::specs::ReadingFunctions::unary))]
    pub fn unary(&self, cursor: &mut Cursor<'_>) -> Result<Expr, Halt>
        requires { ReadsDeeper (F.pre self.now.deeper) (F.post self.now.deeper) self.now.levels }
        ensures { Reads plain_expr (at_levels spec.unary self.now.levels cursor.old) result cursor.new }
    {
        if cursor.is_mark(Mark::Minus) {
            return self.negated(cursor);
        }
        if cursor.is_mark(Mark::Move) {
            return self.move_of(cursor);
        }
        self.post(cursor)
    }

    #[tactic(auto, unfolding(crate::specs::ReadingFunctions::times_operand))]
    fn times(&self, cursor: &mut Cursor<'_>, left: Expr) -> Result<Expr, Halt>
        requires { ReadsDeeper (F.pre self.now.deeper) (F.post self.now.deeper) self.now.levels }
        ensures { Reads plain_expr (at_levels spec.times_operand self.now.levels (plain_expr left) cursor.old) result cursor.new }
    {
        let op = cursor.operator(Level::Term)?;
        let right = self.unary(cursor)?;
        Ok(binary(self.alloc, op, left, right)?)
    }

    #[tactic(auto, using(crate::proofs::Rules::LoopSteps::times_unrolls, crate::proofs::Rules::LoopSteps::times_short))]
    fn term_rest(&self, cursor: &mut Cursor<'_>, first: Expr) -> Result<Expr, Halt>
        requires { ReadsDeeper (F.pre self.now.deeper) (F.post self.now.deeper) self.now.levels }
        ensures { Reads plain_expr (at_levels spec.term_rest self.now.levels (plain_expr first) cursor.old) result cursor.new }
    {
        let mut left = first;
        while cursor.is_operator(Level::Term) {
            left = self.times(cursor, left)?;
        }
        Ok(left)
    }

    #[tactic(auto, unfolding(crate::specs::ReadingFunctions::term))]
    fn term(&self, cursor: &mut Cursor<'_>) -> Result<Expr, Halt>
        requires { ReadsDeeper (F.pre self.now.deeper) (F.post self.now.deeper) self.now.levels }
        ensures { Reads plain_expr (at_levels spec.term self.now.levels cursor.old) result cursor.new }
    {
        let first = self.unary(cursor)?;
        self.term_rest(cursor, first)
    }

    #[tactic(auto, unfolding(crate::specs::ReadingFunctions::plus))]
    fn plus(&self, cursor: &mut Cursor<'_>, left: Expr) -> Result<Expr, Halt>
        requires { ReadsDeeper (F.pre self.now.deeper) (F.post self.now.deeper) self.now.levels }
        ensures { Reads plain_expr (at_levels spec.plus self.now.levels (plain_expr left) cursor.old) result cursor.new }
    {
        let op = cursor.operator(Level::Sum)?;
        let right = self.term(cursor)?;
        Ok(binary(self.alloc, op, left, right)?)
    }

    #[tactic(auto, using(crate::proofs::Rules::LoopSteps::plus_unrolls, crate::proofs::Rules::LoopSteps::plus_short))]
    fn sum_rest(&self, cursor: &mut Cursor<'_>, first: Expr) -> Result<Expr, Halt>
        requires { ReadsDeeper (F.pre self.now.deeper) (F.post self.now.deeper) self.now.levels }
        ensures { Reads plain_expr (at_levels spec.sum_rest self.now.levels (plain_expr first) cursor.old) result cursor.new }
    {
        let mut left = first;
        while cursor.is_operator(Level::Sum) {
            left = self.plus(cursor, left)?;
        }
        Ok(left)
    }

    #[tactic(auto, unfolding(crate::specs::ReadingFunctions::a_sum))]
    fn sum(&self, cursor: &mut Cursor<'_>) -> Result<Expr, Halt>
        requires { ReadsDeeper (F.pre self.now.deeper) (F.post self.now.deeper) self.now.levels }
        ensures { Reads plain_expr (at_levels spec.a_sum self.now.levels cursor.old) result cursor.new }
    {
        let first = self.term(cursor)?;
        self.sum_rest(cursor, first)
    }

    #[tactic(auto, unfolding(crate::specs::ReadingFunctions::compared))]
    fn compared(&self, cursor: &mut Cursor<'_>, left: Expr) -> Result<Expr, Halt>
        requires { ReadsDeeper (F.pre self.now.deeper) (F.post self.now.deeper) self.now.levels }
        ensures { Reads plain_expr (at_levels spec.compared self.now.levels (plain_expr left) cursor.old) result cursor.new }
    {
        let op = cursor.operator(Level::Compare)?;
        let right = self.sum(cursor)?;
        Ok(binary(self.alloc, op, left, right)?)
    }

    #[tactic(auto, unfolding(crate::specs::ReadingFunctions::cmp_rest))]
    fn cmp_rest(&self, cursor: &mut Cursor<'_>, left: Expr) -> Result<Expr, Halt>
        requires { ReadsDeeper (F.pre self.now.deeper) (F.post self.now.deeper) self.now.levels }
        ensures { Reads plain_expr (at_levels spec.cmp_rest self.now.levels (plain_expr left) cursor.old) result cursor.new }
    {
        if cursor.is_operator(Level::Compare) {
            return self.compared(cursor, left);
        }
        Ok(left)
    }

    #[tactic(auto, unfolding(crate::specs::ReadingFunctions::cmp))]
    fn cmp(&self, cursor: &mut Cursor<'_>) -> Result<Expr, Halt>
        requires { ReadsDeeper (F.pre self.now.deeper) (F.post self.now.deeper) self.now.levels }
        ensures { Reads plain_expr (at_levels spec.cmp self.now.levels cursor.old) result cursor.new }
    {
        let first = self.sum(cursor)?;
        self.cmp_rest(cursor, first)
    }

    #[tactic(auto, unfolding(crate::specs::ReadingFunctions::denied))]
    fn denied(&self, cursor: &mut Cursor<'_>) -> Result<Expr, Halt>
        requires { ReadsDeeper (F.pre self.now.deeper) (F.post self.now.deeper) self.now.levels }
        ensures { Reads plain_expr (at_levels spec.denied self.now.levels cursor.old) result cursor.new }
    {
        self.opening(cursor, Mark::Not)?;
        let operand = self.inner_neg(cursor)?;
        Ok(not(self.alloc, operand)?)
    }

    #[tactic(auto, unfolding(crate::specs::ReadingFunctions::neg))]
    pub fn neg(&self, cursor: &mut Cursor<'_>) -> Result<Expr, Halt>
        requires { ReadsDeeper (F.pre self.now.deeper) (F.post self.now.deeper) self.now.levels }
        ensures { Reads plain_expr (at_levels spec.neg self.now.levels cursor.old) result cursor.new }
    {
        if cursor.is_mark(Mark::Not) {
            return self.denied(cursor);
        }
        self.cmp(cursor)
    }

    #[tactic(auto, unfolding(crate::specs::ReadingFunctions::and_neg))]
    fn and_neg(&self, cursor: &mut Cursor<'_>, left: Expr) -> Result<Expr, Halt>
        requires { ReadsDeeper (F.pre self.now.deeper) (F.post self.now.deeper) self.now.levels }
        ensures { Reads plain_expr (at_levels spec.and_neg self.now.levels (plain_expr left) cursor.old) result cursor.new }
    {
        cursor.sign(Mark::And)?;
        let right = self.neg(cursor)?;
        Ok(and(self.alloc, left, right)?)
    }

    #[tactic(auto, using(crate::proofs::Rules::LoopSteps::and_unrolls, crate::proofs::Rules::LoopSteps::and_short))]
    fn both_rest(&self, cursor: &mut Cursor<'_>, first: Expr) -> Result<Expr, Halt>
        requires { ReadsDeeper (F.pre self.now.deeper) (F.post self.now.deeper) self.now.levels }
        ensures { Reads plain_expr (at_levels spec.both_rest self.now.levels (plain_expr first) cursor.old) result cursor.new }
    {
        let mut left = first;
        while cursor.is_mark(Mark::And) {
            left = self.and_neg(cursor, left)?;
        }
        Ok(left)
    }

    #[tactic(auto, unfolding(crate::specs::ReadingFunctions::a_both))]
    fn both(&self, cursor: &mut Cursor<'_>) -> Result<Expr, Halt>
        requires { ReadsDeeper (F.pre self.now.deeper) (F.post self.now.deeper) self.now.levels }
        ensures { Reads plain_expr (at_levels spec.a_both self.now.levels cursor.old) result cursor.new }
    {
        let first = self.neg(cursor)?;
        self.both_rest(cursor, first)
    }

    #[tactic(auto, unfolding(crate::specs::ReadingFunctions::or_both))]
    fn or_both(&self, cursor: &mut Cursor<'_>, left: Expr) -> Result<Expr, Halt>
        requires { ReadsDeeper (F.pre self.now.deeper) (F.post self.now.deeper) self.now.levels }
        ensures { Reads plain_expr (at_levels spec.or_both self.now.levels (plain_expr left) cursor.old) result cursor.new }
    {
        cursor.sign(Mark::Or)?;
        let right = self.both(cursor)?;
        Ok(or(self.alloc, left, right)?)
    }

    #[tactic(auto, using(crate::proofs::Rules::LoopSteps::or_unrolls, crate::proofs::Rules::LoopSteps::or_short))]
    pub fn expr_rest(&self, cursor: &mut Cursor<'_>, first: Expr) -> Result<Expr, Halt>
        requires { ReadsDeeper (F.pre self.now.deeper) (F.post self.now.deeper) self.now.levels }
        ensures { Reads plain_expr (at_levels spec.expr_rest self.now.levels (plain_expr first) cursor.old) result cursor.new }
    {
        let mut left = first;
        while cursor.is_mark(Mark::Or) {
            left = self.or_both(cursor, left)?;
        }
        Ok(left)
    }

    #[tactic(auto, unfolding(crate::specs::ReadingFunctions::expr))]
    pub fn expr(&self, cursor: &mut Cursor<'_>) -> Result<Expr, Halt>
        requires { ReadsDeeper (F.pre self.now.deeper) (F.post self.now.deeper) self.now.levels }
        ensures { Reads plain_expr (at_levels spec.expr self.now.levels cursor.old) result cursor.new }
    {
        let first = self.both(cursor)?;
        self.expr_rest(cursor, first)
    }

    /// The rest of an expression, after its first operand.
    #[tactic(auto, unfolding(crate::specs::ReadingFunctions::rest_of))]
    pub fn rest_of(&self, cursor: &mut Cursor<'_>, first: Expr) -> Result<Expr, Halt>
        requires { ReadsDeeper (F.pre self.now.deeper) (F.post self.now.deeper) self.now.levels }
        ensures { Reads plain_expr (at_levels spec.rest_of self.now.levels (plain_expr first) cursor.old) result cursor.new }
    {
        let term = self.term_rest(cursor, first)?;
        let sum = self.sum_rest(cursor, term)?;
        let cmp = self.cmp_rest(cursor, sum)?;
        let both = self.both_rest(cursor, cmp)?;
        self.expr_rest(cursor, both)
    }
}

/// Reads an expression, or an operand of `*` or `and`, where so many levels may
/// be opened.
pub fn read(
    alloc: Global,
    cursor: &mut Cursor<'_>,
    levels: usize,
    entry: Entry,
) -> Result<Expr, Halt>
    ensures { Reads plain_expr (entry_rule entry (rules_at levels) cursor.old) result cursor.new }
{
    let expressions = Expressions {
        alloc,
        levels,
        deeper: read,
    };
    match entry {
        Entry::WholeExpr => expressions.expr(cursor),
        Entry::OneUnary => expressions.unary(cursor),
        Entry::OneNeg => expressions.neg(cursor),
    }
}

/// Reads a call, after its name, where so many levels may be opened.
pub fn call(alloc: Global, cursor: &mut Cursor<'_>, levels: usize, name: Name) -> Result<Expr, Halt>
    ensures { Reads plain_expr (at_levels spec.call levels name cursor.old) result cursor.new }
{
    let expressions = Expressions {
        alloc,
        levels,
        deeper: read,
    };
    expressions.call(cursor, name)
}

/// Reads all suffixes after an operand, where so many levels may be opened.
pub fn suffixes(
    alloc: Global,
    cursor: &mut Cursor<'_>,
    levels: usize,
    first: Expr,
) -> Result<Expr, Halt>
    ensures { Reads plain_expr (at_levels spec.suffixes levels (plain_expr first) cursor.old) result cursor.new }
{
    let expressions = Expressions {
        alloc,
        levels,
        deeper: read,
    };
    expressions.suffixes(cursor, first)
}

/// Reads the rest of an expression after its first operand, where so many levels may be opened.
pub fn rest_of(
    alloc: Global,
    cursor: &mut Cursor<'_>,
    levels: usize,
    first: Expr,
) -> Result<Expr, Halt>
    ensures { Reads plain_expr (at_levels spec.rest_of levels (plain_expr first) cursor.old) result cursor.new }
{
    let expressions = Expressions {
        alloc,
        levels,
        deeper: read,
    };
    expressions.rest_of(cursor, first)
}
