ghost use Rattle.std.specs.Prelude.{◌≡◌, ◌<◌, ◌≤◌, ◌+◌, None, Some, OnOk, false, if◌then◌else◌};
ghost use Rattle.std.proofs.Props.{props};
ghost use Rattle.std.specs.HashMap.{IsUnique, spare};
ghost use Rattle.lf_base.specs.declared.ids.ObjId.{ObjId};
ghost use Rattle.lf_base.specs.Names.{same_name};
ghost use Rattle.lf_poolstore.specs.Places.{other_at, place_or};

use crate::place::{NOWHERE, Place};
use lf_base::{ObjId, OutOfMemory};
use std::alloc::Global;
use std::collections::HashMap;

/// The places of names that don't stand in the dense part of the index.
#[derive(Drop)]
pub struct OtherNames {
    places: HashMap<ObjId, Place>,
    ghost unique: { IsUnique same_name places } by { Prim.hlevel props },
}

impl OtherNames {
    /// No names. It takes no memory.
    pub fn new(alloc: Global) -> OtherNames
        ensures { (o : ObjId) → other_at result.places o ≡ None }
    {
        OtherNames {
            places: HashMap::new(alloc),
        }
    }

    /// Makes room for so many more names.
    pub fn reserve(&mut self, more: usize) -> Result<(), OutOfMemory>
        ensures places { (o : ObjId) → other_at self.new.places o ≡ other_at self.old.places o }
        ensures enough { OnOk result (more ≤ spare self.new.places) }
        ensures room { spare self.old.places ≤ spare self.new.places }
    {
        match self.places.reserve(more) {
            Ok(()) => Ok(()),
            Err(_error) => Err(OutOfMemory),
        }
    }

    /// The place of a name, or `NOWHERE`.
    #[inline(never)]
    pub fn get(&self, o: ObjId) -> Place
        ensures { result ≡ place_or (other_at self.now.places o) }
    {
        match self.places.get(&o) {
            Some(place) => *place,
            None => NOWHERE,
        }
    }

    /// Sets the place of a name.
    #[inline(never)]
    pub fn put(&mut self, o: ObjId, place: Place)
        requires { 0 < spare self.old.places }
        ensures places { (q : ObjId) → other_at self.new.places q ≡ (if same_name o q then Some place else other_at self.old.places q) }
        ensures room { spare self.old.places ≤ spare self.new.places + 1 }
    {
        match self.places.insert(o, place) {
            Ok(_old) => {}
            Err(_refused) => unreachable!(),
        }
    }

    /// Takes the place of a name out, or gives `NOWHERE`.
    #[inline(never)]
    pub fn take(&mut self, o: ObjId) -> Place
        ensures place { result ≡ place_or (other_at self.old.places o) }
        ensures gone { other_at self.new.places o ≡ None }
        ensures others { (q : ObjId) → same_name o q ≡ false → other_at self.new.places q ≡ other_at self.old.places q }
        ensures room { spare self.old.places ≤ spare self.new.places }
    {
        match self.places.remove(&o) {
            Some(place) => place,
            None => NOWHERE,
        }
    }
}
