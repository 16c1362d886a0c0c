ghost use Rattle.std.specs.Prelude.{◌≡◌, ◌+◌, ◌≤◌, ◌∷◌, [], MatchOption, OnErr, OnOk, length};

use lf_base::{ObjId, OutOfMemory};
use std::alloc::Global;
use std::marker::Model;

/// A list of names with room for more, `spare`. Contracts see the names, the last one
/// first, and the room. Only `reserve` takes memory.
#[derive(Drop)]
pub struct NameList {
    items: Vec<ObjId>,
}

impl Model for NameList {
    ghost use Rattle.std.specs.Prelude.{◌-◌, reverse, vec_capacity, vec_len};
    ghost use Rattle.lf_transfer.specs.LooseNames.{LooseNames};

    ghost Value = { LooseNames };

    ghost view = { λ list. record { names = reverse list.items.items; spare = vec_capacity list.items - vec_len list.items } };
}

impl NameList {
    /// A list without names and without room. It takes no memory.
    pub fn new(alloc: Global) -> NameList
        ensures { result ≡ record { names = []; spare = 0 } }
    {
        NameList {
            items: Vec::new(alloc),
        }
    }

    /// Makes room for so many names more. `OutOfMemory` may come at any time; the names
    /// and the room that is there stay.
    pub fn reserve(&mut self, more: usize) -> Result<(), OutOfMemory>
        ensures names { self.new.names ≡ self.old.names }
        ensures enough { OnOk result (more ≤ self.new.spare) }
        ensures room { self.old.spare ≤ self.new.spare }
    {
        self.items.reserve(more)?;
        Ok(())
    }

    /// How many names there can be without more memory.
    pub fn capacity(&self) -> usize
        ensures { result ≡ self.now.spare + length self.now.names }
    {
        self.items.capacity()
    }

    /// Takes the last name out. `None` comes exactly where the list is empty.
    pub fn pop(&mut self) -> Option<ObjId>
        ensures names { MatchOption result ((self.old.names ≡ []) × (self.new.names ≡ []))
            (λ last. self.old.names ≡ last ∷ self.new.names) }
        ensures room { MatchOption result (self.new.spare ≡ self.old.spare) (λ _. self.new.spare ≡ self.old.spare + 1) }
    {
        self.items.pop()
    }

    /// Adds a name. It needs room of 1.
    pub fn push(&mut self, name: ObjId)
        requires { 1 ≤ self.old.spare }
        ensures names { self.new.names ≡ name ∷ self.old.names }
        ensures room { self.new.spare + 1 ≡ self.old.spare }
    {
        self.items.push_reserved(name);
    }
}
