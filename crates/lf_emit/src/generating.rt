//! The code of a script.

ghost use Rattle.std.specs.Prelude.{◌≡◌, ◌++◌, ◌∷◌, [], length, map, IfOk, OnOk};
ghost use Rattle.lf_parser.specs.Plain.{plain_block, plain_function, plain_tree};
ghost use Rattle.lf_code.specs.declared.body.BodyName.TheVariants as body_name;
ghost use Rattle.lf_code.specs.Ticked.{Ticked};
ghost use Rattle.lf_code.specs.ValidCode.{ValidCode};
ghost use Rattle.lf_codegen.specs.Frames.{frame_line};
ghost use Rattle.lf_codegen.specs.GeneratedCode.{body_code, generated_body, program_of};
ghost use Rattle.lf_codegen.specs.Numbers.{function_named, when_named};
ghost use Rattle.lf_codegen.specs.RunOne.{MeansTree};
ghost use Rattle.lf_codegen.specs.TablesMean.{plain_frames};
ghost use Rattle.lf_codegen.specs.TextsNamed.{IsFitForCode};
ghost use Rattle.lf_emit.specs.PlaceTables.{HasPlaces};
ghost use Rattle.lf_emit.specs.Scopes.{frame_with, function_keys, name_keys, plain_script, when_keys};

use crate::numbering::Numbering;
use crate::places::Places;
use crate::placing::{Out, put};
use crate::scope::Scope;
use crate::statements::emit_stmts;
use lf_base::{OutOfMemory, Texts};
use lf_code::{Bodies, Body, BodyName, Code, Instr, Instrs};
use lf_codegen::{Frame, Resolved, body_names, code_laws, distinct, when_frames_of};
use lf_parser::{Block, Function, Name, Tree};
use std::alloc::Global;

fn narrow(n: usize) -> Result<u32, OutOfMemory>
    ensures { IfOk result (λ m. m ≡ n) }
{
    match u32::try_from(n) {
        Ok(m) => Ok(m),
        Err(_) => Err(OutOfMemory),
    }
}

fn push_body(bodies: &mut Bodies, body: Body) -> Result<(), OutOfMemory>
    ensures { OnOk result (bodies.new ≡ bodies.old ++ body ∷ []) }
{
    match bodies.push(body) {
        Ok(()) => Ok(()),
        Err(_) => Err(OutOfMemory),
    }
}

// The instructions as a list.
fn listed(alloc: Global, out: Out) -> Result<Instrs, OutOfMemory>
    ensures { IfOk result (λ list. list ≡ out.items) }
{
    let mut list = Instrs::new(alloc);
    for placed in out {
        match list.push(placed) {
            Ok(()) => {}
            Err(_) => return Err(OutOfMemory),
        }
    }
    Ok(list)
}

// The code of a body's statements, and its end.
fn body_instrs<N: Numbering>(alloc: Global, names: &N, block: &Block) -> Result<Instrs, OutOfMemory>
    ensures { IfOk result (λ list. list ≡ body_code (N.source names.now) (N.vars names.now) (plain_block block.now)) }
{
    let mut out = Out::new(alloc);
    emit_stmts(&mut out, names, block.as_slice())?;
    put(&mut out, 0, Instr::None)?;
    put(&mut out, 0, Instr::Return)?;
    listed(alloc, out)
}

// The names of a list by what they are.
fn name_places(alloc: Global, names: &[Name]) -> Result<Places, OutOfMemory>
    ensures { IfOk result (λ places. HasPlaces places (name_keys names.now)) }
{
    let mut places = Places::new(alloc);
    for name in names {
        places.add(name.id.index)?;
    }
    Ok(places)
}

// The functions by their names.
fn function_places(alloc: Global, functions: &[Function]) -> Result<Places, OutOfMemory>
    ensures { IfOk result (λ places. HasPlaces places (map (λ f. f.name.id.index) functions.now)) }
{
    let mut places = Places::new(alloc);
    for function in functions {
        places.add(function.name.id.index)?;
    }
    Ok(places)
}

// The bodies of `when`s by their lines.
fn when_places(alloc: Global, whens: &[Frame<'_>]) -> Result<Places, OutOfMemory>
    ensures { IfOk result (λ places. HasPlaces places (map (λ f. f.line) whens.now)) }
{
    let mut places = Places::new(alloc);
    for frame in whens {
        places.add(frame.line)?;
    }
    Ok(places)
}

/// A script, with the tables that its bodies share.
#[derive(Drop)]
struct Tables<'t> {
    texts: &'t Texts,
    tree: &'t Tree,
    functions: Places,
    whens: Places,
    ghost functions_are: { HasPlaces functions (function_keys (plain_tree tree.now)) },
    ghost whens_are: { HasPlaces whens (when_keys (plain_tree tree.now)) },
}

// One body: its variables, its parameters among them, and its code.
fn body(
    alloc: Global,
    tables: &Tables<'_>,
    name: BodyName,
    own: &[Name],
    block: &Block,
) -> Result<Body, OutOfMemory>
    ensures { IfOk result (λ b. b ≡ generated_body (plain_script tables.now.texts.now tables.now.tree.now)
        (frame_with name own.now (plain_block block.now))) }
{
    let names = body_names(alloc, own, block)?;
    let params = distinct(alloc, own)?;
    let vars = name_places(alloc, names.as_slice())?;
    let scope = Scope {
        texts: tables.texts,
        tree: tables.tree,
        functions: &tables.functions,
        whens: &tables.whens,
        names: names.as_slice(),
        vars: &vars,
    };
    let list = body_instrs(alloc, &scope, block)?;
    Ok(Body {
        name,
        params: narrow(params.len())?,
        vars: narrow(names.len())?,
        list,
    })
}

fn add_functions(
    bodies: &mut Bodies,
    alloc: Global,
    tables: &Tables<'_>,
    functions: &[Function],
) -> Result<(), OutOfMemory>
    ensures { OnOk result (bodies.new ≡ bodies.old
        ++ map (generated_body (plain_script tables.now.texts.now tables.now.tree.now))
        (map function_named (map plain_function functions.now))) }
{
    for function in functions {
        let name = BodyName::Function(function.name.id);
        let one = body(
            alloc,
            tables,
            name,
            function.params.as_slice(),
            &function.body,
        )?;
        push_body(bodies, one)?;
    }
    Ok(())
}

fn add_whens(
    bodies: &mut Bodies,
    alloc: Global,
    tables: &Tables<'_>,
    frames: &[Frame<'_>],
) -> Result<(), OutOfMemory>
    ensures { OnOk result (bodies.new ≡ bodies.old
        ++ map (generated_body (plain_script tables.now.texts.now tables.now.tree.now)) (map when_named (plain_frames frames.now))) }
{
    for frame in frames {
        let one = body(
            alloc,
            tables,
            BodyName::When,
            frame.own.as_slice(),
            frame.body,
        )?;
        push_body(bodies, one)?;
    }
    Ok(())
}

// The bodies of main, of the functions and of the `when`s, in this order.
fn bodies_of(alloc: Global, tree: &Tree, texts: &Texts) -> Result<Bodies, OutOfMemory>
    ensures { IfOk result (λ bodies. bodies ≡ (program_of (plain_script texts.now tree.now)).bodies) }
{
    let frames = when_frames_of(alloc, tree)?;
    let tables = Tables {
        texts,
        tree,
        functions: function_places(alloc, tree.functions.as_slice())?,
        whens: when_places(alloc, frames.as_slice())?,
    };
    let mut bodies = Bodies::new(alloc);
    let main = body(alloc, &tables, BodyName::Main, &[], &tree.main)?;
    push_body(&mut bodies, main)?;
    add_functions(&mut bodies, alloc, &tables, tree.functions.as_slice())?;
    add_whens(&mut bodies, alloc, &tables, frames.as_slice())?;
    Ok(bodies)
}

/// The code of a script, whose tree was resolved with these texts: the body of main, of each
/// function, and of each `when`. It is valid, takes a tick wherever it goes back, and does what
/// the tree means. The script has to be fit for code, which each one that `read` answers is
/// (`lf_codegen::code_laws`). `OutOfMemory` comes also where a number of the code has no 32
/// bits; the texts are let go then.
pub fn generate(alloc: Global, resolved: &Resolved, texts: Texts) -> Result<Code, OutOfMemory>
    requires { IsFitForCode (plain_script texts resolved.now) }
    ensures code { IfOk result (λ code. code ≡ program_of (plain_script texts resolved.now)) }
    ensures valid { IfOk result ValidCode }
    ensures ticked { IfOk result Ticked }
    ensures means { IfOk result (λ code. MeansTree code (plain_script texts resolved.now)) }
{
    code_laws::code_is_valid();
    code_laws::code_is_ticked();
    code_laws::code_means_tree();
    let bodies = bodies_of(alloc, resolved.tree(), &texts)?;
    Ok(Code::new(bodies, texts))
}
