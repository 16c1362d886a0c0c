ghost use Rattle.std.specs.Prelude.{◌≡◌, ◌++◌, [], List, IfOk, OnOk, flat_map, fold};
ghost use Rattle.lf_parser.specs.declared.name.Name.{Name as AName};
ghost use Rattle.lf_parser.specs.Plain.{plain_block};
ghost use Rattle.lf_codegen.specs.Frames.{distinct as distinct_spec, variable_of, with_new_name};
ghost use Rattle.lf_codegen.specs.Mentions.{block_mentions};
ghost use Rattle.lf_codegen.specs.TablesMean.{AreOnce};

use crate::lists::push;
use crate::mention::Mention;
use crate::mentions::mentions;
use crate::name_set::NameSet;
use lf_base::OutOfMemory;
use lf_parser::{Block, Name, Names};
use std::alloc::Global;

/// Names, each once, in the order in which they come.
#[derive(Drop)]
struct DistinctNames {
    seen: NameSet,
    names: Names,
}

impl DistinctNames {
    fn new(alloc: Global) -> DistinctNames
        ensures { AreOnce result [] }
    {
        DistinctNames {
            seen: NameSet::new(alloc),
            names: Names::new(alloc),
        }
    }

    // One name more, which goes last where it is new.
    fn add(&mut self, name: Name) -> Result<(), OutOfMemory>
        ensures { OnOk result ((names : List AName) → AreOnce self.old names → AreOnce self.new (with_new_name names name)) }
    {
        if !self.seen.add(name)? {
            return Ok(());
        }
        push(&mut self.names, name)
    }

    fn add_all(&mut self, more: &[Name]) -> Result<(), OutOfMemory>
        ensures { OnOk result ((names : List AName) → AreOnce self.old names → AreOnce self.new (fold with_new_name names more.now)) }
    {
        for name in more {
            self.add(*name)?;
        }
        Ok(())
    }

    // The variable that a mention uses or binds, where it is such a one.
    fn add_mention(&mut self, mention: Mention) -> Result<(), OutOfMemory>
        ensures { OnOk result ((names : List AName) → AreOnce self.old names →
            AreOnce self.new (fold with_new_name names (variable_of mention))) }
    {
        match mention {
            Mention::Use(name) | Mention::Bind(name) => self.add(name),
            Mention::Call { .. } => Ok(()),
        }
    }

    fn add_mentioned(&mut self, mentions: &[Mention]) -> Result<(), OutOfMemory>
        ensures { OnOk result ((names : List AName) → AreOnce self.old names →
            AreOnce self.new (fold with_new_name names (flat_map variable_of mentions.now))) }
    {
        for mention in mentions {
            self.add_mention(*mention)?;
        }
        Ok(())
    }
}

/// The variables of a frame, in the order of their numbers: its own names, then the
/// others as they are first mentioned.
pub fn variables(alloc: Global, own: &[Name], mentions: &[Mention]) -> Result<Names, OutOfMemory>
    ensures { IfOk result (λ names. names ≡ distinct_spec (own.now ++ flat_map variable_of mentions.now)) }
{
    let mut variables = DistinctNames::new(alloc);
    variables.add_all(own)?;
    variables.add_mentioned(mentions)?;
    Ok(variables.names)
}

/// Names, each once, where it stands first.
pub fn distinct(alloc: Global, names: &[Name]) -> Result<Names, OutOfMemory>
    ensures { IfOk result (λ once. once ≡ distinct_spec names.now) }
{
    let mut all = DistinctNames::new(alloc);
    all.add_all(names)?;
    Ok(all.names)
}

/// The variables of a body with these names of its own, in the order of their numbers.
pub fn body_names(alloc: Global, own: &[Name], body: &Block) -> Result<Names, OutOfMemory>
    ensures { IfOk result (λ names. names ≡ distinct_spec (own.now ++ flat_map variable_of (block_mentions (plain_block body.now)))) }
{
    let all = mentions(alloc, body)?;
    variables(alloc, own, all.as_slice())
}
