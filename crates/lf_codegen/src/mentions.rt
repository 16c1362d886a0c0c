//! All that the body of a frame mentions, in the order of the script.

ghost use Rattle.std.specs.Prelude.{◌≡◌, ◌++◌, ◌∷◌, [], map, IfOk, OnOk};
ghost use Rattle.lf_codegen.specs.declared.mention.Mention.TheVariants.{Call};
ghost use Rattle.lf_parser.specs.Plain.{args_of, plain_block, plain_expr, plain_stmt, plain_value};
ghost use Rattle.lf_codegen.specs.Mentions.{are_one_variable as one_variable_spec, is_variable as variable_spec, args_count};
ghost use Rattle.lf_codegen.specs.Mentions.{block_mentions, expr_mentions, stmt_mentions, uses as uses_of, value_mentions};
ghost use Rattle.lf_codegen.specs.Parts.{args_back, own_mentions, parts_back, plain_lent};

use crate::mention::Mention;
use lf_base::OutOfMemory;
use lf_parser::{Block, Expr, Exprs, Name, Names, Stmt};
use std::alloc::Global;

/// Mentions, in the order of the script.
pub type Mentions = Vec<Mention>;

fn is_variable(expr: &Expr) -> bool
    ensures { result ≡ variable_spec (plain_expr expr.now) }
{
    matches!(expr, Expr::Var(_))
}

// Whether there is one argument, and it is a variable.
fn are_one_variable(args: &[Expr]) -> bool
    ensures { result ≡ one_variable_spec (args_of (map plain_expr args.now)) }
{
    args.len() == 1 && is_variable(&args[0])
}

// A call, without what its arguments mention.
fn call(name: Name, args: &Exprs) -> Mention
    ensures { result ≡ Call name (args_count (args_of (map plain_expr args.now))) (one_variable_spec (args_of (map plain_expr args.now))) }
{
    Mention::Call {
        name,
        count: args.len(),
        of_variable: are_one_variable(args.as_slice()),
    }
}

// Expressions that are still to be visited, the next one last.
type Unvisited<'a> = Vec<&'a Expr>;

// Leaves an expression to be visited next.
fn leave<'a>(unvisited: &mut Unvisited<'a>, expr: &'a Expr) -> Result<(), OutOfMemory>
    ensures { OnOk result (plain_lent unvisited.new.items ≡ plain_lent unvisited.old.items ++ plain_expr expr.now ∷ []) }
{
    Ok(unvisited.push(expr)?)
}

// Leaves arguments to be visited, the first one next.
fn leave_args<'a>(unvisited: &mut Unvisited<'a>, args: &'a [Expr]) -> Result<(), OutOfMemory>
    ensures { OnOk result (plain_lent unvisited.new.items
        ≡ plain_lent unvisited.old.items ++ args_back (args_of (map plain_expr args.now))) }
{
    Ok(unvisited.extend(args.iter().rev())?)
}

// Adds what an expression mentions itself, and leaves its parts to be visited, the first one next.
fn visit<'a>(
    out: &mut Mentions,
    unvisited: &mut Unvisited<'a>,
    expr: &'a Expr,
) -> Result<(), OutOfMemory>
    ensures own { OnOk result (out.new.items ≡ out.old.items ++ own_mentions (plain_expr expr.now)) }
    ensures parts { OnOk result (plain_lent unvisited.new.items ≡ plain_lent unvisited.old.items ++ parts_back (plain_expr expr.now)) }
{
    match expr {
        Expr::None | Expr::True | Expr::False | Expr::Number(_) | Expr::Text(_) | Expr::Object => {
            Ok(())
        }
        Expr::Var(name) | Expr::Move(name) => Ok(out.push(Mention::Use(*name))?),
        Expr::Neg(operand) | Expr::Not(operand) => leave(unvisited, operand.get()),
        Expr::Field { target, key } | Expr::Remove { target, key } => {
            leave(unvisited, key.get())?;
            leave(unvisited, target.get())
        }
        Expr::Binary { left, right, .. } | Expr::And { left, right } | Expr::Or { left, right } => {
            leave(unvisited, right.get())?;
            leave(unvisited, left.get())
        }
        Expr::Call { name, args } => {
            out.push(call(*name, args))?;
            leave_args(unvisited, args.as_slice())
        }
    }
}

// A chain of operators is as deep as it is long, so its tree is walked by a loop.
fn of_expr(out: &mut Mentions, expr: &Expr) -> Result<(), OutOfMemory>
    ensures { OnOk result (out.new.items ≡ out.old.items ++ expr_mentions (plain_expr expr.now)) }
{
    let mut unvisited = Unvisited::new(*out.allocator());
    leave(&mut unvisited, expr)?;
    while let Some(next) = unvisited.pop() {
        visit(out, &mut unvisited, next)?;
    }
    Ok(())
}

fn of_value(out: &mut Mentions, value: &Option<Expr>) -> Result<(), OutOfMemory>
    ensures { OnOk result (out.new.items ≡ out.old.items ++ value_mentions (plain_value value.now)) }
{
    match value {
        None => Ok(()),
        Some(expr) => of_expr(out, expr),
    }
}

// Names that are used.
fn uses(out: &mut Mentions, names: &Names) -> Result<(), OutOfMemory>
    ensures { OnOk result (out.new.items ≡ out.old.items ++ uses_of names.now) }
{
    for name in names.as_slice() {
        out.push(Mention::Use(*name))?;
    }
    Ok(())
}

#[cycle(statements)]
fn of_stmt(out: &mut Mentions, stmt: &Stmt) -> Result<(), OutOfMemory>
    ensures { OnOk result (out.new.items ≡ out.old.items ++ stmt_mentions (plain_stmt stmt.now)) }
{
    match stmt {
        Stmt::Pass { .. } => Ok(()),
        Stmt::Assign { name, value, .. } => {
            out.push(Mention::Bind(*name))?;
            of_expr(out, value)
        }
        Stmt::Store {
            target,
            key,
            value,
            ..
        } => {
            of_expr(out, target)?;
            of_expr(out, key)?;
            of_expr(out, value)
        }
        Stmt::Drop { name, .. } => Ok(out.push(Mention::Use(*name))?),
        Stmt::Return { value, .. } => of_value(out, value),
        Stmt::Eval { value, .. } => of_expr(out, value),
        Stmt::If { test, yes, no, .. } => {
            of_expr(out, test)?;
            of_stmts(out, yes.as_slice())?;
            of_stmts(out, no.as_slice())
        }
        Stmt::While { test, body, .. } => {
            of_expr(out, test)?;
            of_stmts(out, body.as_slice())
        }
        Stmt::When {
            cowns,
            captures,
            ..
        } => {
            uses(out, cowns)?;
            uses(out, captures)
        }
    }
}

#[cycle(statements)]
fn of_stmts(out: &mut Mentions, stmts: &[Stmt]) -> Result<(), OutOfMemory>
    ensures { OnOk result (out.new.items ≡ out.old.items ++ block_mentions (plain_block stmts.now)) }
{
    for stmt in stmts {
        of_stmt(out, stmt)?;
    }
    Ok(())
}

/// All that a body mentions. What the bodies of its `when`s mention is left out.
pub fn mentions(alloc: Global, body: &Block) -> Result<Mentions, OutOfMemory>
    ensures { IfOk result (λ all. all.items ≡ block_mentions (plain_block body.now)) }
{
    let mut out = Mentions::new(alloc);
    of_stmts(&mut out, body.as_slice())?;
    Ok(out)
}
