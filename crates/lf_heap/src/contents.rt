//! The contents of cowns.

ghost use Rattle.std.specs.Prelude.{◌≡◌, ◌++◌, ◌∷◌, [], MatchOption, OnErr, OnOk};
ghost use Rattle.lf_base.specs.declared.values.Value.{Value as Item};
ghost use Rattle.lf_base.specs.ContentResult.{content_at, put_content};
ghost use Rattle.lf_heap.specs.Contents.{IsPlaceOf};

use lf_base::{CownId, Held, OutOfMemory, Value};
use std::alloc::Global;

/// The contents of the cowns that a behaviour holds, and of those that it made, the first one
/// first.
#[derive(Drop)]
pub(crate) struct CownContents {
    pub(crate) held: Held<Value>,
    pub(crate) made: Held<Value>,
}

impl CownContents {
    /// No contents. It takes no memory.
    pub(crate) fn none(alloc: Global) -> CownContents
        ensures held { result.held ≡ [] }
        ensures made { result.made ≡ [] }
    {
        CownContents {
            held: Held::new(alloc),
            made: Held::new(alloc),
        }
    }

    /// The content of a cown that is held; `None` for any other one. It goes through the
    /// cowns that are held, which are no more than a `when` may name.
    pub(crate) fn content(&self, cown: CownId) -> Option<Value>
        ensures { result ≡ content_at self.now.held cown }
    {
        for (name, v) in self.held.as_slice() {
            if name.is_same(cown) {
                return Some(*v);
            }
        }
        None
    }

    // The place of a cown among those that are held; `None` for any other one.
    fn place(&self, cown: CownId) -> Option<usize>
        ensures { MatchOption result ((v : Item) → put_content self.now.held cown v ≡ self.now.held) (IsPlaceOf self.now.held cown) }
    {
        for (at, (name, _v)) in self.held.as_slice().iter().enumerate() {
            if name.is_same(cown) {
                return Some(at);
            }
        }
        None
    }

    /// Sets the content of a cown that is held.
    pub(crate) fn set(&mut self, cown: CownId, v: Value)
        ensures held { self.new.held ≡ put_content self.old.held cown v }
        ensures made { self.new.made ≡ self.old.made }
    {
        if let Some(at) = self.place(cown) {
            self.held.replace(at, (cown, v));
        }
    }

    /// Adds a cown that is made. After `OutOfMemory` all is as it was.
    pub(crate) fn make(&mut self, cown: CownId, v: Value) -> Result<(), OutOfMemory>
        ensures made { OnOk result (self.new.made ≡ self.old.made ++ (cown, v) ∷ []) }
        ensures held { self.new.held ≡ self.old.held }
        ensures unchanged { OnErr result (self.new.made ≡ self.old.made) }
    {
        match self.made.push((cown, v)) {
            Ok(()) => Ok(()),
            Err((_pair, refused)) => Err(refused),
        }
    }
}
