//! Names and calls are judged, frame by frame.

ghost use Rattle.std.specs.Prelude.{◌≡◌, ◌++◌, [], None, List, IfErr, IfOk, OnOk, flat_map, map};
ghost use Rattle.lf_base.specs.Texts.{Text};
ghost use Rattle.lf_parser.specs.declared.name.Name.{Name as AName};
ghost use Rattle.lf_parser.specs.Plain.{PlainFunction, plain_function, plain_tree};
ghost use Rattle.lf_codegen.specs.Earliest.{earliest};
ghost use Rattle.lf_codegen.specs.Frames.{binds, frames as frames_spec, variables as variables_spec};
ghost use Rattle.lf_codegen.specs.NameRefusals.{ResolveFailsAs, Resolves, frame_refusals, mention_refusals, params_refusals, refusals};
ghost use Rattle.lf_codegen.specs.NameRefusals.{repeats};
ghost use Rattle.lf_codegen.specs.NameSets.{HasNames};
ghost use Rattle.lf_codegen.specs.TablesMean.{Knows, plain_frame, plain_frames};

use crate::callees::Callees;
use crate::first_refusal::FirstRefusal;
use crate::frame::Frame;
use crate::frames::frames;
use crate::lists::push;
use crate::mention::Mention;
use crate::mentions::mentions;
use crate::name_set::NameSet;
use crate::resolved::Resolved;
use crate::variables::variables;
use lf_base::{Listed, OutOfMemory, ReadFail, RefusalKind, Texts};
use lf_parser::{Function, Name, Names, Tree};
use std::alloc::Global;

// Notes the parameters of a function that have the name of an earlier one.
fn judge_params(alloc: Global, params: &[Name], first: &mut FirstRefusal) -> Result<(), OutOfMemory>
    ensures { OnOk result (first.new.refusal ≡ earliest first.old.refusal (repeats [] params.now)) }
{
    let mut earlier = NameSet::new(alloc);
    for param in params {
        let is_new = earlier.add(*param)?;
        first.note((!is_new).then_some(RefusalKind::DuplicateName), *param);
    }
    Ok(())
}

fn judge_functions(
    alloc: Global,
    functions: &[Function],
    first: &mut FirstRefusal,
) -> Result<(), OutOfMemory>
    ensures { OnOk result (first.new.refusal ≡ earliest first.old.refusal (flat_map params_refusals (map plain_function functions.now))) }
{
    for function in functions {
        judge_params(alloc, function.params.as_slice(), first)?;
    }
    Ok(())
}

// Notes what is wrong with a mention, in a frame that binds these names.
fn judge_mention(callees: &Callees<'_>, bound: &NameSet, mention: Mention, first: &mut FirstRefusal)
    ensures { (texts : List Text) (functions : List PlainFunction) (names : List AName) →
        Knows callees.now texts functions → HasNames bound.now names
        → first.new.refusal ≡ earliest first.old.refusal (mention_refusals texts functions names mention) }
{
    match mention {
        Mention::Use(name) => first.note(
            (!bound.has(name)).then_some(RefusalKind::UnknownName),
            name,
        ),
        Mention::Bind(_) => {}
        Mention::Call {
            name,
            count,
            of_variable,
        } => first.note(callees.refusal(name.id, count, of_variable), name),
    }
}

fn judge_mentions(
    callees: &Callees<'_>,
    bound: &NameSet,
    mentions: &[Mention],
    first: &mut FirstRefusal,
)
    ensures { (texts : List Text) (functions : List PlainFunction) (names : List AName) →
        Knows callees.now texts functions → HasNames bound.now names
        → first.new.refusal ≡ earliest first.old.refusal (flat_map (mention_refusals texts functions names) mentions.now) }
{
    for mention in mentions {
        judge_mention(callees, bound, *mention, first);
    }
}

// The names that are bound in a frame: its own, and those that it assigns.
fn bound_names(alloc: Global, own: &[Name], mentions: &[Mention]) -> Result<NameSet, OutOfMemory>
    ensures { IfOk result (λ set. HasNames set (own.now ++ flat_map binds mentions.now)) }
{
    let mut bound = NameSet::new(alloc);
    bound.add_all(own)?;
    bound.add_bound(mentions)?;
    Ok(bound)
}

// Notes what is wrong in a frame, and answers its variables.
fn judge_frame(
    alloc: Global,
    callees: &Callees<'_>,
    frame: &Frame<'_>,
    first: &mut FirstRefusal,
) -> Result<Names, OutOfMemory>
    ensures variables { IfOk result (λ names. names ≡ variables_spec (plain_frame frame.now)) }
    ensures refusals { OnOk result ((texts : List Text) (functions : List PlainFunction) → Knows callees.now texts functions
        → first.new.refusal ≡ earliest first.old.refusal (frame_refusals texts functions (plain_frame frame.now))) }
{
    let own = frame.own.as_slice();
    let mentions = mentions(alloc, frame.body)?;
    let bound = bound_names(alloc, own, mentions.as_slice())?;
    let names = variables(alloc, own, mentions.as_slice())?;
    judge_mentions(callees, &bound, mentions.as_slice(), first);
    Ok(names)
}

fn judge_frames(
    alloc: Global,
    callees: &Callees<'_>,
    frames: &[Frame<'_>],
    first: &mut FirstRefusal,
) -> Result<Listed<Names>, OutOfMemory>
    ensures variables { IfOk result (λ all. all ≡ map variables_spec (plain_frames frames.now)) }
    ensures refusals { OnOk result ((texts : List Text) (functions : List PlainFunction) → Knows callees.now texts functions
        → first.new.refusal ≡ earliest first.old.refusal (flat_map (frame_refusals texts functions) (plain_frames frames.now))) }
{
    let mut all = Listed::new(alloc);
    for frame in frames {
        let names = judge_frame(alloc, callees, frame, first)?;
        push(&mut all, names)?;
    }
    Ok(all)
}

// Judges a whole tree: the variables of each body, and the refusal that stands first.
fn judge(
    alloc: Global,
    tree: &Tree,
    texts: &Texts,
) -> Result<(Listed<Names>, FirstRefusal), OutOfMemory>
    ensures variables { IfOk result (λ r. r.0 ≡ map variables_spec (frames_spec (plain_tree tree.now))) }
    ensures refusals { IfOk result (λ r. r.1.refusal ≡ earliest None (refusals texts.now (plain_tree tree.now))) }
{
    let mut first = FirstRefusal::new();
    let mut callees = Callees::new(alloc, texts);
    callees.add_all(tree.functions.as_slice(), &mut first)?;
    judge_functions(alloc, tree.functions.as_slice(), &mut first)?;
    let frames = frames(alloc, tree)?;
    let names = judge_frames(alloc, &callees, frames.as_slice(), &mut first)?;
    Ok((names, first))
}

/// Resolves the names and the calls of a tree, which was parsed from the tokens with these texts.
///
/// `docs/NAMES.md` has the rules. The refusal with the least place is answered, by line and
/// then by column:
///
/// - `UnknownName`: a variable that its frame doesn't bind, at its name.
/// - `UnknownFunction`: a call of neither a built-in call nor a function, at its name.
/// - `WrongArity`: a call with a number of arguments that the callee doesn't take, at its name.
/// - `NotVariable`: a question of something else than a variable, at the call's name.
/// - `DuplicateFunction`: a function with the name of a built-in call or an earlier function, at
///   its name.
/// - `DuplicateName`: a parameter with the name of an earlier one, at that parameter.
///
/// No clause says when `OutOfMemory` comes.
pub fn resolve(alloc: Global, tree: Tree, texts: &Texts) -> Result<Resolved, ReadFail>
    ensures tree { IfOk result (λ resolved. resolved ≡ tree) }
    ensures resolves { IfOk result (λ _. Resolves texts.now (plain_tree tree)) }
    ensures refused { IfErr result (ResolveFailsAs texts.now (plain_tree tree)) }
{
    let (names, first) = judge(alloc, &tree, texts)?;
    if let Some(refusal) = first.refusal {
        return Err(ReadFail::Refused(refusal));
    }
    Ok(Resolved::new(tree, names))
}
