ghost use Rattle.std.specs.Prelude.{◌≡◌, ◌+◌, ◌≤◌, ◌∷◌, [], MatchOption, OnErr, OnOk};

use crate::name_list::NameList;
use indexmap::IndexSet;
use lf_base::{ObjId, OutOfMemory};
use std::alloc::Global;
use std::marker::Model;

/// Names of what was left without justification, with room for more, `spare`. Contracts
/// see the names, the last one first, and the room. Only `reserve` takes memory. No call
/// lowers the sum of the room and the list's length.
///
/// Beside the list there is a set that is empty between calls, and can hold as many names:
/// a call that closes a region puts the regions below it there.
#[derive(Drop)]
pub struct Loose {
    pub(crate) list: NameList,
    pub(crate) below: IndexSet<ObjId>,
}

impl Model for Loose {
    ghost use Rattle.std.specs.Prelude.{◌+◌, ◌-◌, length, min};
    ghost use Rattle.indexmap.specs.IndexSet.{spare as set_spare};
    ghost use Rattle.lf_transfer.specs.LooseNames.{IsSetAtRest, LooseNames};

    ghost Value = { LooseNames };

    ghost view = { λ loose. record { names = loose.list.names; spare = min (loose.list.spare + length loose.list.names) (set_spare loose.below) - length loose.list.names } };

    ghost invariant = { λ loose. IsSetAtRest loose.list.names loose.below };
}

impl Loose {
    /// A list without names and without room. It takes no memory.
    pub fn new(alloc: Global) -> Loose
        ensures { result ≡ record { names = []; spare = 0 } }
    {
        Loose {
            list: NameList::new(alloc),
            below: IndexSet::new(alloc),
        }
    }

    /// Makes room for so many names more. `OutOfMemory` may come at any time; the names
    /// and the room that is there stay.
    pub fn reserve(&mut self, more: usize) -> Result<(), OutOfMemory>
        ensures names { self.new.names ≡ self.old.names }
        ensures enough { OnOk result (more ≤ self.new.spare) }
        ensures room { self.old.spare ≤ self.new.spare }
    {
        self.list.reserve(more)?;
        self.below.reserve(self.list.capacity())?;
        Ok(())
    }

    /// Takes the last name out. `None` comes exactly where the list is empty.
    pub fn pop(&mut self) -> Option<ObjId>
        ensures names { MatchOption result ((self.old.names ≡ []) × (self.new.names ≡ []))
            (λ last. self.old.names ≡ last ∷ self.new.names) }
        ensures room { MatchOption result (self.new.spare ≡ self.old.spare) (λ _. self.new.spare ≡ self.old.spare + 1) }
    {
        self.list.pop()
    }

    /// Adds a name. It needs room of 1.
    pub(crate) fn push(&mut self, name: ObjId)
        requires { 1 ≤ self.old.spare }
        ensures names { self.new.names ≡ name ∷ self.old.names }
        ensures room { self.new.spare + 1 ≡ self.old.spare }
    {
        self.list.push(name);
    }
}
