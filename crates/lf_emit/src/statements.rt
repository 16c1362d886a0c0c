//! The code of statements.

ghost use Rattle.std.specs.Prelude.{◌≡◌, ◌++◌, ◌∷◌, ◌+◌, [], length, map, IfOk, IsTrue, OnOk, Some};
ghost use Rattle.lf_parser.specs.Plain.{plain_block, plain_expr, plain_stmt, plain_value};
ghost use Rattle.lf_parser.specs.Plain as plain;
ghost use Rattle.lf_code.specs.CodeStep.{on_line};
ghost use Rattle.lf_code.specs.declared.instr.Instr.TheVariants as instr;
ghost use Rattle.lf_codegen.specs.GeneratedCode.{block_code, expr_code, is_empty_block, stmt_code};
ghost use Rattle.lf_emit.specs.Left.{patched};
ghost use Rattle.lf_codegen.specs.Numbers.{capture_names, cown_names, var_number, when_number};

use crate::emitting::emit_expr;
use crate::numbering::Numbering;
use crate::placing::{Out, here, land_jump, land_unless, open, put};
use lf_base::OutOfMemory;
use lf_code::{Instr, Vars};
use lf_codegen::{distinct, joined};
use lf_parser::{Expr, Name, Stmt};
use std::alloc::Global;

// A tick, and the code of an expression.
fn ticked<N: Numbering>(out: &mut Out, names: &N, line: u32, expr: &Expr) -> Result<(), OutOfMemory>
    ensures { OnOk result (out.new.items ≡ out.old.items
        ++ on_line line instr.Tick ∷ expr_code (N.source names.now) (N.vars names.now) (plain_expr expr.now) line
        (length out.old.items + 1)) }
{
    put(out, line, Instr::Tick)?;
    emit_expr(out, names, expr, line)
}

fn assign<N: Numbering>(
    out: &mut Out,
    names: &N,
    line: u32,
    name: Name,
    value: &Expr,
) -> Result<(), OutOfMemory>
    ensures { OnOk result (out.new.items ≡ out.old.items
        ++ stmt_code (N.source names.now) (N.vars names.now) (plain.Assign line name (plain_expr value.now)) (length out.old.items)) }
{
    ticked(out, names, line, value)?;
    let var = names.number(name);
    put(out, line, Instr::Set(var))
}

fn store<N: Numbering>(
    out: &mut Out,
    names: &N,
    line: u32,
    target: &Expr,
    key: &Expr,
    value: &Expr,
) -> Result<(), OutOfMemory>
    ensures { OnOk result (out.new.items ≡ out.old.items
        ++ stmt_code (N.source names.now) (N.vars names.now)
        (plain.Store line (plain_expr target.now) (plain_expr key.now) (plain_expr value.now)) (length out.old.items)) }
{
    ticked(out, names, line, target)?;
    emit_expr(out, names, key, line)?;
    emit_expr(out, names, value, line)?;
    put(out, line, Instr::Write)
}

fn drop_name<N: Numbering>(
    out: &mut Out,
    names: &N,
    line: u32,
    name: Name,
) -> Result<(), OutOfMemory>
    ensures { OnOk result (out.new.items ≡ out.old.items
        ++ stmt_code (N.source names.now) (N.vars names.now) (plain.Drop line name) (length out.old.items)) }
{
    put(out, line, Instr::Tick)?;
    let var = names.number(name);
    put(out, line, Instr::Drop(var))
}

fn return_value<N: Numbering>(
    out: &mut Out,
    names: &N,
    line: u32,
    value: &Option<Expr>,
) -> Result<(), OutOfMemory>
    ensures { OnOk result (out.new.items ≡ out.old.items
        ++ stmt_code (N.source names.now) (N.vars names.now) (plain.Return line (plain_value value.now)) (length out.old.items)) }
{
    match value {
        None => {
            put(out, line, Instr::Tick)?;
            put(out, line, Instr::None)?;
            put(out, line, Instr::Return)
        }
        Some(expr) => {
            ticked(out, names, line, expr)?;
            put(out, line, Instr::Return)
        }
    }
}

fn eval<N: Numbering>(out: &mut Out, names: &N, line: u32, value: &Expr) -> Result<(), OutOfMemory>
    ensures { OnOk result (out.new.items ≡ out.old.items
        ++ stmt_code (N.source names.now) (N.vars names.now) (plain.Eval line (plain_expr value.now)) (length out.old.items)) }
{
    ticked(out, names, line, value)?;
    put(out, line, Instr::Pop)
}

// Adds the number of a variable at the end of a list.
fn add_number<N: Numbering>(vars: &mut Vars, names: &N, name: Name) -> Result<(), OutOfMemory>
    ensures { OnOk result (vars.new ≡ vars.old ++ var_number (N.vars names.now) name ∷ []) }
{
    let var = names.number(name);
    match vars.push(var) {
        Ok(()) => Ok(()),
        Err(_) => Err(OutOfMemory),
    }
}

// The numbers of variables.
fn numbers<N: Numbering>(alloc: Global, names: &N, list: &[Name]) -> Result<Vars, OutOfMemory>
    ensures { IfOk result (λ vars. vars ≡ map (var_number (N.vars names.now)) list.now) }
{
    let mut vars = Vars::new(alloc);
    for name in list {
        add_number(&mut vars, names, *name)?;
    }
    Ok(vars)
}

// The cowns of a `when`, each once.
fn cown_vars<N: Numbering>(alloc: Global, names: &N, cowns: &[Name]) -> Result<Vars, OutOfMemory>
    ensures { IfOk result (λ vars. vars ≡ map (var_number (N.vars names.now)) (cown_names cowns.now)) }
{
    let once = distinct(alloc, cowns)?;
    numbers(alloc, names, once.as_slice())
}

// The captures of a `when` that are no cowns, each once.
fn capture_vars<N: Numbering>(
    alloc: Global,
    names: &N,
    cowns: &[Name],
    captures: &[Name],
) -> Result<Vars, OutOfMemory>
    ensures { IfOk result (λ vars. vars ≡ map (var_number (N.vars names.now)) (capture_names cowns.now captures.now)) }
{
    let first = distinct(alloc, cowns)?;
    let both = joined(alloc, cowns, captures)?;
    let all = distinct(alloc, both.as_slice())?;
    if all.len() < first.len() {
        return Ok(Vars::new(alloc));
    }
    numbers(alloc, names, &all.as_slice()[first.len()..])
}

fn when<N: Numbering>(
    out: &mut Out,
    names: &N,
    line: u32,
    cowns: &[Name],
    captures: &[Name],
) -> Result<(), OutOfMemory>
    ensures { OnOk result (out.new.items ≡ out.old.items ++ on_line line instr.Tick
        ∷ on_line line (instr.When (when_number (N.source names.now).tree line) (map (var_number (N.vars names.now)) (cown_names cowns.now))
        (map (var_number (N.vars names.now)) (capture_names cowns.now captures.now))) ∷ []) }
{
    let alloc = *out.allocator();
    let body = names.when(line)?;
    let cown_list = cown_vars(alloc, names, cowns)?;
    let capture_list = capture_vars(alloc, names, cowns, captures)?;
    put(out, line, Instr::Tick)?;
    put(
        out,
        line,
        Instr::When {
            body,
            cowns: cown_list,
            captures: capture_list,
        },
    )
}

// Lets the `unless` at an address lead behind a jump to another address.
fn go_round(out: &mut Out, line: u32, top: u32, at: usize) -> Result<(), OutOfMemory>
    ensures { OnOk result (out.new.items ≡ patched at line (instr.Unless (length out.old.items + 1))
        (out.old.items ++ on_line line (instr.Jump top) ∷ [])) }
{
    put(out, line, Instr::Jump(top))?;
    land_unless(out, at, line)
}

// A jump at the end of a branch, to whose other branch the `unless` at an address leads.
fn turn(out: &mut Out, line: u32, at: usize) -> Result<usize, OutOfMemory>
    ensures code { OnOk result (out.new.items ≡ patched at line (instr.Unless (length out.old.items + 1))
        (out.old.items ++ on_line line (instr.Jump 0) ∷ [])) }
    ensures at { IfOk result (λ skip. skip ≡ length out.old.items) }
{
    let skip = open(out, line, Instr::Jump(0))?;
    land_unless(out, at, line)?;
    Ok(skip)
}

// Whether there is no statement.
#[tactic(auto, using(crate::proofs::Counts::some_stmts))]
fn is_none(stmts: &[Stmt]) -> bool
    ensures { result ≡ is_empty_block (plain_block stmts.now) }
{
    match stmts {
        [] => true,
        [_, ..] => false,
    }
}

#[cycle(statements)]
/// Adds the code of a statement.
pub fn emit_stmt<N: Numbering>(out: &mut Out, names: &N, stmt: &Stmt) -> Result<(), OutOfMemory>
    ensures { OnOk result (out.new.items ≡ out.old.items
        ++ stmt_code (N.source names.now) (N.vars names.now) (plain_stmt stmt.now) (length out.old.items)) }
{
    match stmt {
        Stmt::Assign { line, name, value } => assign(out, names, *line, *name, value),
        Stmt::Store {
            line,
            target,
            key,
            value,
        } => store(out, names, *line, target, key, value),
        Stmt::Drop { line, name } => drop_name(out, names, *line, *name),
        Stmt::Return { line, value } => return_value(out, names, *line, value),
        Stmt::Pass { line } => put(out, *line, Instr::Tick),
        Stmt::Eval { line, value } => eval(out, names, *line, value),
        Stmt::If {
            line,
            test,
            yes,
            no,
        } => {
            let first = yes.as_slice();
            let second = no.as_slice();
            ticked(out, names, *line, test)?;
            let at = open(out, *line, Instr::Unless(0))?;
            emit_stmts(out, names, first)?;
            if is_none(second) {
                return land_unless(out, at, *line);
            }
            let skip = turn(out, *line, at)?;
            emit_stmts(out, names, second)?;
            land_jump(out, skip, *line)
        }
        Stmt::While { line, test, body } => {
            let turns = body.as_slice();
            put(out, *line, Instr::Tick)?;
            let top = here(out)?;
            ticked(out, names, *line, test)?;
            let at = open(out, *line, Instr::Unless(0))?;
            emit_stmts(out, names, turns)?;
            go_round(out, *line, top, at)
        }
        Stmt::When {
            line,
            cowns,
            captures,
            ..
        } => when(out, names, *line, cowns.as_slice(), captures.as_slice()),
    }
}

#[cycle(statements)]
/// Adds the code of statements.
pub fn emit_stmts<N: Numbering>(out: &mut Out, names: &N, stmts: &[Stmt]) -> Result<(), OutOfMemory>
    ensures { OnOk result (out.new.items ≡ out.old.items
        ++ block_code (N.source names.now) (N.vars names.now) (plain_block stmts.now) (length out.old.items)) }
{
    for stmt in stmts {
        emit_stmt(out, names, stmt)?;
    }
    Ok(())
}
