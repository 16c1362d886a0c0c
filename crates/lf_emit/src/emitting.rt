//! The code of expressions.

ghost use Rattle.std.specs.Prelude.{◌≡◌, ◌++◌, ◌∷◌, [], length, map, IfOk, OnOk};
ghost use Rattle.lf_parser.specs.Plain.{args_of, plain_expr};
ghost use Rattle.lf_code.specs.CodeStep.{on_line};
ghost use Rattle.lf_codegen.specs.GeneratedCode.{expr_code};
ghost use Rattle.lf_codegen.specs.Mentions.{args_count};
ghost use Rattle.lf_code.specs.declared.instr.Instr.TheVariants as instr;
ghost use Rattle.lf_emit.specs.Left.{all_left, args_left, at_once, jump_of, later};
ghost use Rattle.lf_emit.specs.Left.{left_from_work, own_call, own_instrs, parts_of, parts_of_call};
ghost use Rattle.lf_emit.specs.Left as left;

use crate::numbering::Numbering;
use crate::placing::{Out, here, patch, put};
use crate::work::{Joint, Work};
use lf_base::OutOfMemory;
use lf_code::{Instr, Prefix};
use lf_codegen::Called;
use lf_parser::Expr;

type Works<'t> = Vec<Work<'t>>;

// Leaves a piece to be emitted next.
fn leave<'t>(works: &mut Works<'t>, work: Work<'t>) -> Result<(), OutOfMemory>
    ensures { OnOk result (all_left works.new.items ≡ all_left works.old.items ++ left_from_work work.entry ∷ []) }
{
    Ok(works.push(work)?)
}

// Leaves an instruction that follows on an operand.
fn leave_one<'t>(works: &mut Works<'t>, instr: Instr, operand: &'t Expr) -> Result<(), OutOfMemory>
    ensures { OnOk result (all_left works.new.items ≡ all_left works.old.items
        ++ left.Put instr ∷ left.Code (plain_expr operand.now) ∷ []) }
{
    leave(works, Work::Put(instr))?;
    leave(works, Work::Code(operand))
}

// Leaves an instruction that follows on two operands.
fn leave_two<'t>(
    works: &mut Works<'t>,
    instr: Instr,
    first: &'t Expr,
    second: &'t Expr,
) -> Result<(), OutOfMemory>
    ensures { OnOk result (all_left works.new.items ≡ all_left works.old.items
        ++ left.Put instr ∷ left.Code (plain_expr second.now) ∷ left.Code (plain_expr first.now) ∷ []) }
{
    leave(works, Work::Put(instr))?;
    leave(works, Work::Code(second))?;
    leave(works, Work::Code(first))
}

fn leave_joint<'t>(
    works: &mut Works<'t>,
    joint: Joint,
    first: &'t Expr,
    second: &'t Expr,
) -> Result<(), OutOfMemory>
    ensures { OnOk result (all_left works.new.items ≡ all_left works.old.items
        ++ left.Second joint (plain_expr second.now) ∷ left.Code (plain_expr first.now) ∷ []) }
{
    leave(
        works,
        Work::Second {
            joint,
            operand: second,
        },
    )?;
    leave(works, Work::Code(first))
}

// Leaves arguments, the first one next.
fn leave_args<'t>(works: &mut Works<'t>, args: &'t [Expr]) -> Result<(), OutOfMemory>
    ensures { OnOk result (all_left works.new.items ≡ all_left works.old.items ++ args_left (args_of (map plain_expr args.now))) }
{
    match args {
        [] => Ok(()),
        [first, others @ ..] => {
            leave_args(works, others)?;
            leave(works, Work::Code(first))
        }
    }
}

// An instruction after arguments.
fn leave_call<'t>(works: &mut Works<'t>, instr: Instr, args: &'t [Expr]) -> Result<(), OutOfMemory>
    ensures { OnOk result (all_left works.new.items ≡ all_left works.old.items
        ++ left.Put instr ∷ args_left (args_of (map plain_expr args.now))) }
{
    leave(works, Work::Put(instr))?;
    leave_args(works, args)
}

// The number of arguments.
#[tactic(auto, using(crate::proofs::Counts::args_are_counted))]
fn count(args: &[Expr]) -> Result<u32, OutOfMemory>
    ensures { IfOk result (λ n. n ≡ args_count (args_of (map plain_expr args.now))) }
{
    match u32::try_from(args.len()) {
        Ok(count) => Ok(count),
        Err(_) => Err(OutOfMemory),
    }
}

fn visit_call<'t, N: Numbering>(
    out: &mut Out,
    works: &mut Works<'t>,
    names: &N,
    called: Called,
    args: &'t [Expr],
    line: u32,
) -> Result<(), OutOfMemory>
    ensures own { OnOk result (out.new.items ≡ out.old.items
        ++ map (on_line line) (own_call (N.source names.now) (N.vars names.now) called (args_of (map plain_expr args.now)))) }
    ensures parts { OnOk result (all_left works.new.items ≡ all_left works.old.items
        ++ parts_of_call (N.source names.now) (N.vars names.now) called (args_of (map plain_expr args.now))) }
{
    match called {
        Called::Built(name) => {
            let count = count(args)?;
            leave_call(works, Instr::Built { name, count }, args)
        }
        Called::Question(name) => {
            let var = names.asked(args);
            put(out, line, Instr::Ask { name, var })
        }
        Called::Function(body) => {
            let count = count(args)?;
            leave_call(works, Instr::Call { body, count }, args)
        }
    }
}

// Emits what an expression has besides its parts, and leaves these.
fn visit<'t, N: Numbering>(
    out: &mut Out,
    works: &mut Works<'t>,
    names: &N,
    expr: &'t Expr,
    line: u32,
) -> Result<(), OutOfMemory>
    ensures own { OnOk result (out.new.items ≡ out.old.items
        ++ map (on_line line) (own_instrs (N.source names.now) (N.vars names.now) (plain_expr expr.now))) }
    ensures parts { OnOk result (all_left works.new.items ≡ all_left works.old.items
        ++ parts_of (N.source names.now) (N.vars names.now) (plain_expr expr.now)) }
{
    match expr {
        Expr::None => put(out, line, Instr::None),
        Expr::True => put(out, line, Instr::Bool(true)),
        Expr::False => put(out, line, Instr::Bool(false)),
        Expr::Number(n) => put(out, line, Instr::Int(*n)),
        Expr::Text(t) => put(out, line, Instr::Text(*t)),
        Expr::Object => put(out, line, Instr::Object),
        Expr::Var(name) => {
            let var = names.number(*name);
            put(out, line, Instr::Get(var))
        }
        Expr::Move(name) => {
            let var = names.number(*name);
            put(out, line, Instr::Take(var))
        }
        Expr::Field { target, key } => leave_two(works, Instr::Read, target.get(), key.get()),
        Expr::Remove { target, key } => leave_two(works, Instr::Remove, target.get(), key.get()),
        Expr::Neg(operand) => leave_one(works, Instr::Unary(Prefix::Neg), operand.get()),
        Expr::Not(operand) => leave_one(works, Instr::Unary(Prefix::Not), operand.get()),
        Expr::Binary { op, left, right } => leave_two(
            works,
            Instr::Binary(*op),
            left.get(),
            right.get(),
        ),
        Expr::And { left, right } => leave_joint(works, Joint::And, left.get(), right.get()),
        Expr::Or { left, right } => leave_joint(works, Joint::Or, left.get(), right.get()),
        Expr::Call { name, args } => {
            let called = names.called(name.id)?;
            visit_call(out, works, names, called, args.as_slice(), line)
        }
    }
}

fn jump(joint: Joint, at: u32) -> Instr
    ensures { result ≡ jump_of joint at }
{
    match joint {
        Joint::And => Instr::And(at),
        Joint::Or => Instr::Or(at),
    }
}

// A jump that a later piece leads on, the second operand and a test.
fn second<'t>(
    out: &mut Out,
    works: &mut Works<'t>,
    joint: Joint,
    operand: &'t Expr,
    line: u32,
) -> Result<(), OutOfMemory>
    ensures own { OnOk result (out.new.items ≡ out.old.items ++ on_line line (jump_of joint 0) ∷ []) }
    ensures parts { OnOk result (all_left works.new.items ≡ all_left works.old.items
        ++ left.Land joint (length out.old.items) ∷ left.Put instr.Test ∷ left.Code (plain_expr operand.now) ∷ []) }
{
    leave(
        works,
        Work::Land {
            joint,
            at: out.len(),
        },
    )?;
    leave_one(works, Instr::Test, operand)?;
    put(out, line, jump(joint, 0))
}

// Emits the next piece, as far as it goes at once.
fn emit_next<'t, N: Numbering>(
    out: &mut Out,
    works: &mut Works<'t>,
    names: &N,
    work: Work<'t>,
    line: u32,
) -> Result<(), OutOfMemory>
    ensures own { OnOk result (out.new.items
        ≡ at_once (N.source names.now) (N.vars names.now) line (left_from_work work.entry) out.old.items) }
    ensures parts { OnOk result (all_left works.new.items ≡ all_left works.old.items
        ++ later (N.source names.now) (N.vars names.now) line (left_from_work work.entry) (length out.old.items)) }
{
    match work {
        Work::Code(expr) => visit(out, works, names, expr, line),
        Work::Put(instr) => put(out, line, instr),
        Work::Second { joint, operand } => second(out, works, joint, operand, line),
        Work::Land { joint, at } => {
            let end = here(out)?;
            patch(out, at, line, jump(joint, end));
            Ok(())
        }
    }
}

/// Adds the code of an expression. A chain of operators is as deep as it is long, so it is
/// walked by a loop.
pub fn emit_expr<N: Numbering>(
    out: &mut Out,
    names: &N,
    expr: &Expr,
    line: u32,
) -> Result<(), OutOfMemory>
    ensures { OnOk result (out.new.items ≡ out.old.items
        ++ expr_code (N.source names.now) (N.vars names.now) (plain_expr expr.now) line (length out.old.items)) }
{
    let mut works = Works::new(*out.allocator());
    leave(&mut works, Work::Code(expr))?;
    while let Some(work) = works.pop() {
        emit_next(out, &mut works, names, work, line)?;
    }
    Ok(())
}
