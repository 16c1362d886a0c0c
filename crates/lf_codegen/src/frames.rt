//! The frames of a script, in the order of their bodies' numbers.

ghost use Rattle.std.specs.Prelude.{◌≡◌, ◌++◌, List, IfOk, OnOk, map, flat_map};
ghost use Rattle.lf_parser.specs.Plain.{plain_block, plain_function, plain_stmt, plain_tree};
ghost use Rattle.lf_codegen.specs.Frames.{block_whens, frames as frames_spec, function_frame, function_whens, stmt_whens, when_frames};
ghost use Rattle.lf_codegen.specs.TablesMean.{plain_frames};

use crate::frame::Frame;
use crate::lists::push;
use lf_base::OutOfMemory;
use lf_parser::{Function, Name, Names, Stmt, Tree};
use std::alloc::Global;

// Adds names to a list.
fn extend(names: &mut Names, more: &[Name]) -> Result<(), OutOfMemory>
    ensures { OnOk result (names.new ≡ names.old ++ more.now) }
{
    for name in more {
        push(names, *name)?;
    }
    Ok(())
}

/// The names of two lists, one after the other.
pub fn joined(alloc: Global, first: &[Name], second: &[Name]) -> Result<Names, OutOfMemory>
    ensures { IfOk result (λ names. names ≡ first.now ++ second.now) }
{
    let mut names = Names::new(alloc);
    extend(&mut names, first)?;
    extend(&mut names, second)?;
    Ok(names)
}

#[cycle(whens)]
fn of_stmt<'t>(alloc: Global, out: &mut Vec<Frame<'t>>, stmt: &'t Stmt) -> Result<(), OutOfMemory>
    ensures { OnOk result (plain_frames out.new.items ≡ plain_frames out.old.items ++ stmt_whens (plain_stmt stmt.now)) }
{
    match stmt {
        Stmt::If { yes, no, .. } => {
            of_stmts(alloc, out, yes.as_slice())?;
            of_stmts(alloc, out, no.as_slice())
        }
        Stmt::While { body, .. } => of_stmts(alloc, out, body.as_slice()),
        Stmt::When {
            line,
            cowns,
            captures,
            body,
        } => {
            let own = joined(alloc, cowns.as_slice(), captures.as_slice())?;
            out.push(Frame {
                line: *line,
                own,
                body,
            })?;
            of_stmts(alloc, out, body.as_slice())
        }
        _ => Ok(()),
    }
}

#[cycle(whens)]
fn of_stmts<'t>(
    alloc: Global,
    out: &mut Vec<Frame<'t>>,
    stmts: &'t [Stmt],
) -> Result<(), OutOfMemory>
    ensures { OnOk result (plain_frames out.new.items ≡ plain_frames out.old.items ++ block_whens (plain_block stmts.now)) }
{
    for stmt in stmts {
        of_stmt(alloc, out, stmt)?;
    }
    Ok(())
}

fn of_functions<'t>(
    alloc: Global,
    out: &mut Vec<Frame<'t>>,
    functions: &'t [Function],
) -> Result<(), OutOfMemory>
    ensures { OnOk result (plain_frames out.new.items
        ≡ plain_frames out.old.items ++ flat_map function_whens (map plain_function functions.now)) }
{
    for function in functions {
        of_stmts(alloc, out, function.body.as_slice())?;
    }
    Ok(())
}

/// The bodies of all `when`s, by rising line.
pub fn when_frames_of<'t>(alloc: Global, tree: &'t Tree) -> Result<Vec<Frame<'t>>, OutOfMemory>
    ensures { IfOk result (λ all. plain_frames all.items ≡ when_frames (plain_tree tree.now)) }
{
    let mut whens = Vec::new(alloc);
    of_functions(alloc, &mut whens, tree.functions.as_slice())?;
    of_stmts(alloc, &mut whens, tree.main.as_slice())?;
    whens.sort_by_key(|frame| frame.line)?;
    Ok(whens)
}

fn push_functions<'t>(
    alloc: Global,
    out: &mut Vec<Frame<'t>>,
    functions: &'t [Function],
) -> Result<(), OutOfMemory>
    ensures { OnOk result (plain_frames out.new.items
        ≡ plain_frames out.old.items ++ map function_frame (map plain_function functions.now)) }
{
    for function in functions {
        let mut own = Names::new(alloc);
        extend(&mut own, function.params.as_slice())?;
        out.push(Frame {
            line: 0,
            own,
            body: &function.body,
        })?;
    }
    Ok(())
}

/// All frames of a script, each at the number of its body: main, the functions, and
/// the bodies of `when`s by rising line.
pub fn frames<'t>(alloc: Global, tree: &'t Tree) -> Result<Vec<Frame<'t>>, OutOfMemory>
    ensures { IfOk result (λ all. plain_frames all.items ≡ frames_spec (plain_tree tree.now)) }
{
    let mut all = Vec::new(alloc);
    all.push(Frame {
        line: 0,
        own: Names::new(alloc),
        body: &tree.main,
    })?;
    push_functions(alloc, &mut all, tree.functions.as_slice())?;
    let mut whens = when_frames_of(alloc, tree)?;
    all.append(&mut whens)?;
    Ok(all)
}
