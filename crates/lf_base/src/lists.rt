ghost use Rattle.std.specs.Prelude.{◌≡◌, ◌↔◌, ◌<◌, ◌++◌, ◌∷◌, [], Some, length, slice_get, IfErr, IsTrue, MatchOption, OnErr, OnOk};
ghost use Rattle.std.specs.List.{slice_set};
ghost use Rattle.std.specs.Option.{option_copied};

use crate::behaviours::Spawn;
use crate::ids::CownId;
use crate::memory::OutOfMemory;
use crate::values::{Key, Value};
use std::alloc::Global;
use std::marker::Model;
use std::mem;

/// A vector that contracts see as the list of its items. All small list types
/// are this one, at their item type.
#[derive(Debug, Drop)]
pub struct Listed<T> {
    items: Vec<T>,
}

/// Numbers of behaviours, in the order in which they were committed.
pub type Order = Listed<u32>;

/// The bytes of one line, without the line feed that ends it.
pub type Line = Listed<u8>;

/// Lines of a text, from the first on.
pub type Lines = Listed<Line>;

/// Names of cowns.
pub type Cowns = Listed<CownId>;

/// Values, as of variables or parameters.
pub type Values = Listed<Value>;

/// The spawns of one behaviour, in the order in which they were asked for.
pub type Spawns = Listed<Spawn>;

/// The fields of one object, in their order.
pub type Fields = Listed<(Key, Value)>;

/// Cowns, each with what stands behind it.
pub type Held<C> = Listed<(CownId, C)>;

impl<T> Model for Listed<T> {
    ghost use Rattle.std.specs.Prelude.{List};
    ghost use Rattle.std.specs.Coded.{coded_list};

    ghost Value = { List T };

    ghost coded = { coded_list T.code };

    ghost view = { λ listed. listed.items.items };
}

impl<T> Listed<T> {
    /// The empty list. It takes no memory.
    pub fn new(alloc: Global) -> Self
        ensures { result ≡ [] }
    {
        Listed {
            items: Vec::new(alloc),
        }
    }

    /// The list of a vector's items. It takes no memory.
    pub fn from_vec(items: Vec<T>) -> Self
        ensures { result ≡ items.items }
    {
        Listed { items }
    }

    /// Adds an item at the end. On want of memory the item is handed back, and the
    /// list is as it was.
    pub fn push(&mut self, item: T) -> Result<(), (T, OutOfMemory)>
        ensures ok { OnOk result (self.new ≡ self.old ++ item ∷ []) }
        ensures unchanged { OnErr result (self.new ≡ self.old) }
        ensures handed_back { IfErr result (λ e. e.0 ≡ item) }
    {
        match self.items.push(item) {
            Ok(()) => Ok(()),
            Err(failed) => Err((failed.value, OutOfMemory)),
        }
    }

    /// Takes the last item out. `None` comes exactly where the list is empty.
    pub fn pop(&mut self) -> Option<T>
        ensures { MatchOption result ((self.old ≡ []) × (self.new ≡ [])) (λ last. self.old ≡ self.new ++ last ∷ []) }
    {
        self.items.pop()
    }

    /// The number of items.
    pub fn len(&self) -> usize
        ensures { result ≡ length self.now }
    {
        self.items.len()
    }

    /// Whether the list has no item.
    pub fn is_empty(&self) -> bool
        ensures { IsTrue result ↔ (self.now ≡ []) }
    {
        self.items.is_empty()
    }

    /// The item at a place, counted from 0. `None` comes exactly past the end.
    pub fn get(&self, at: usize) -> Option<&T>
        ensures { option_copied result ≡ slice_get self.now at }
    {
        self.items.get(at)
    }

    /// Puts an item in place of the one at that place, counted from 0, and gives that one.
    pub fn replace(&mut self, at: usize, item: T) -> T
        requires { at < length self.old }
        ensures items { self.new ≡ slice_set self.old at item }
        ensures replaced { slice_get self.old at ≡ Some result }
    {
        mem::replace(&mut self.items[at], item)
    }

    /// All items, as a slice.
    pub fn as_slice(&self) -> &[T]
        ensures { result.now ≡ self.now }
    {
        self.items.as_slice()
    }
}
