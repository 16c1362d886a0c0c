ghost use Rattle.std.specs.Prelude.{◌≡◌, ◌++◌, ◌∷◌, [], List, IfOk, OnOk, flat_map, not};
ghost use Rattle.lf_parser.specs.declared.name.Name.{Name as AName};
ghost use Rattle.lf_codegen.specs.Frames.{binds, is_among};
ghost use Rattle.lf_codegen.specs.NameSets.{HasNames};

use crate::mention::Mention;
use lf_base::{OutOfMemory, TextId};
use lf_parser::Name;
use std::alloc::Global;
use std::collections::HashSet;

/// A set of names, by what they are and not by where they stand.
#[derive(Drop)]
pub struct NameSet {
    ids: HashSet<TextId>,
}

impl NameSet {
    /// The empty set.
    pub fn new(alloc: Global) -> NameSet
        ensures { HasNames result [] }
    {
        NameSet {
            ids: HashSet::new(alloc),
        }
    }

    /// Whether the set has a name.
    pub fn has(&self, name: Name) -> bool
        ensures { (names : List AName) → HasNames self.now names → result ≡ is_among name.id names }
    {
        self.ids.contains(&name.id)
    }

    /// Puts a name in, and answers whether it is new.
    pub fn add(&mut self, name: Name) -> Result<bool, OutOfMemory>
        ensures is_new { IfOk result (λ is_new. (names : List AName) → HasNames self.old names → is_new ≡ not (is_among name.id names)) }
        ensures has { IfOk result (λ _. (names : List AName) → HasNames self.old names → HasNames self.new (names ++ name ∷ [])) }
    {
        Ok(self.ids.insert(name.id)?)
    }

    /// Puts names in.
    pub fn add_all(&mut self, more: &[Name]) -> Result<(), OutOfMemory>
        ensures { OnOk result ((names : List AName) → HasNames self.old names → HasNames self.new (names ++ more.now)) }
    {
        for name in more {
            self.add(*name)?;
        }
        Ok(())
    }

    // Puts the name in that a mention assigns, where it is such a one.
    fn add_bound_by(&mut self, mention: Mention) -> Result<(), OutOfMemory>
        ensures { OnOk result ((names : List AName) → HasNames self.old names → HasNames self.new (names ++ binds mention)) }
    {
        if let Mention::Bind(name) = mention {
            self.add(name)?;
        }
        Ok(())
    }

    /// Puts the names in that are assigned.
    pub fn add_bound(&mut self, mentions: &[Mention]) -> Result<(), OutOfMemory>
        ensures { OnOk result ((names : List AName) → HasNames self.old names → HasNames self.new (names ++ flat_map binds mentions.now)) }
    {
        for mention in mentions {
            self.add_bound_by(*mention)?;
        }
        Ok(())
    }
}
