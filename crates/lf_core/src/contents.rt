ghost use Rattle.std.specs.Prelude.{◌≡◌, ◌+◌, ◌≤◌, ◌++◌, ◌∷◌, [], None, Some, length, true, MatchOption, OnOk};
ghost use Rattle.std.specs.Vec.{vec_capacity, vec_len};
ghost use Rattle.lf_base.specs.declared.ids.CownId.{CownId as Cown};
ghost use Rattle.lf_base.specs.Names.{same_cown};
ghost use Rattle.lf_base.specs.Sets.{Differ, Member};
ghost use Rattle.lf_core.specs.Contents.{has_place, kept, next_content, start_above};
ghost use Rattle.lf_core.specs.Keyed.{at, pick, put, put_all, without};

use lf_base::{CownId, Held, OutOfMemory};
use std::alloc::Global;
use std::collections::BTreeMap;
use std::ops::Bound;

/// The contents of cowns by rising cown. Each cown that had a content has a place, which stands
/// empty while a behaviour has the content.
#[derive(Drop)]
pub struct Contents<C: Drop> {
    places: BTreeMap<CownId, Option<C>>,
}

impl<C: Drop> Contents<C> {
    // Without contents.
    pub(crate) fn new(alloc: Global) -> Contents<C>
        ensures { result.places.entries ≡ [] }
    {
        Contents {
            places: BTreeMap::new(alloc),
        }
    }

    /// The cown and the content of the least cown, or of the least one above `after` where one is given.
    /// None exactly where there is none.
    pub fn next_above(&self, after: Option<CownId>) -> Option<(CownId, &C)>
        ensures { MatchOption result (next_content (kept self.now.places.entries) after ≡ None) (λ x. next_content (kept self.now.places.entries) after ≡ Some (x.0, x.1.now)) }
    {
        for (cown, place) in self.places.range((first_above(after), Bound::Unbounded)) {
            if let Some(content) = place {
                return Some((*cown, content));
            }
        }
        None
    }

    // The cown has a place from now on.
    fn make_place(&mut self, cown: CownId) -> Result<(), OutOfMemory>
        ensures kept { kept self.new.places.entries ≡ kept self.old.places.entries }
        ensures place { OnOk result (has_place self.new.places.entries cown ≡ true) }
        ensures others { (c : Cown) → has_place self.old.places.entries c ≡ true → has_place self.new.places.entries c ≡ true }
    {
        if self.places.contains_key(&cown) {
            return Ok(());
        }
        self.places.insert(cown, None)?;
        Ok(())
    }

    // Each cown of the list has a place from now on, so that its content can be put in.
    pub(crate) fn make_places(&mut self, more: &[(CownId, C)]) -> Result<(), OutOfMemory>
        ensures kept { kept self.new.places.entries ≡ kept self.old.places.entries }
        ensures places { OnOk result ((x : Cown × C) → Member x more.now → has_place self.new.places.entries x.0 ≡ true) }
        ensures others { (c : Cown) → has_place self.old.places.entries c ≡ true → has_place self.new.places.entries c ≡ true }
    {
        for pair in more {
            self.make_place(pair.0)?;
        }
        Ok(())
    }

    fn put(&mut self, cown: CownId, content: C)
        requires { has_place self.old.places.entries cown ≡ true }
        ensures kept { kept self.new.places.entries ≡ put cown content (kept self.old.places.entries) }
        ensures places { (c : Cown) → has_place self.new.places.entries c ≡ has_place self.old.places.entries c }
    {
        let Some(place) = self.places.get_mut(&cown) else {
            unreachable!()
        };
        *place = Some(content);
    }

    // Puts these in. Of two under one cown the first one stays.
    pub(crate) fn put_all(&mut self, more: Held<C>)
        requires { (x : Cown × C) → Member x more → has_place self.old.places.entries x.0 ≡ true }
        ensures kept { kept self.new.places.entries ≡ put_all more (kept self.old.places.entries) }
        ensures places { (c : Cown) → has_place self.new.places.entries c ≡ has_place self.old.places.entries c }
    {
        let mut more = more;
        while let Some((cown, content)) = more.pop() {
            self.put(cown, content);
        }
    }

    // Takes the content of a cown out, where it is there.
    fn take(&mut self, cown: CownId) -> Option<C>
        ensures content { result ≡ at (kept self.old.places.entries) cown }
        ensures kept { kept self.new.places.entries ≡ without (cown ∷ []) (kept self.old.places.entries) }
    {
        match self.places.get_mut(&cown) {
            Some(place) => place.take(),
            None => None,
        }
    }

    // Takes the contents of these cowns out, in their order. They are added to a vector that has room.
    pub(crate) fn take_all(&mut self, cowns: &[CownId], held: &mut Vec<(CownId, C)>)
        requires differ { Differ same_cown cowns.now }
        requires room { vec_len held.old + length cowns.now ≤ vec_capacity held.old }
        ensures held { held.new.items ≡ held.old.items ++ pick cowns.now (kept self.old.places.entries) }
        ensures kept { kept self.new.places.entries ≡ without cowns.now (kept self.old.places.entries) }
    {
        for cown in cowns {
            if let Some(content) = self.take(*cown) {
                held.push_reserved((*cown, content));
            }
        }
    }
}

// Where the cowns above `after` begin.
fn first_above(after: Option<CownId>) -> Bound<CownId>
    ensures { result ≡ start_above after }
{
    match after {
        Some(cown) => Bound::Excluded(cown),
        None => Bound::Unbounded,
    }
}
