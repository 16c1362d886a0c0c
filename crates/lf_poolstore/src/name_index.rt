ghost use Rattle.std.specs.Prelude.{◌≡◌, ◌<◌, ◌≤◌, ◌+◌, None, Some, OnOk, false, if◌then◌else◌};
ghost use Rattle.lf_base.specs.declared.ids.ObjId.{ObjId};
ghost use Rattle.lf_base.specs.Names.{same_name};
ghost use Rattle.lf_poolstore.specs.Index.{index_room, own_at, place_at};
ghost use Rattle.lf_poolstore.specs.Places.{place_or};

use crate::other_names::OtherNames;
use crate::place::Place;
use lf_base::{ObjId, OutOfMemory};
use std::alloc::Global;

// The birth of no name that a run makes: the dense part takes none before it is started.
const NO_BIRTH: u32 = 4_294_967_295;

/// The places of names. The names of one behaviour that come in turn, from the one on at
/// which the dense part was started, stand in a vector by their numbers.
#[derive(Drop)]
pub struct NameIndex {
    birth: u32,
    base: u32,
    own: Vec<Place>,
    others: OtherNames,
}

impl NameIndex {
    /// An index of no names. It takes no memory.
    pub fn new(alloc: Global) -> NameIndex
        ensures { (o : ObjId) → place_at result o ≡ None }
    {
        NameIndex {
            birth: NO_BIRTH,
            base: 0,
            own: Vec::new(alloc),
            others: OtherNames::new(alloc),
        }
    }

    /// Makes room for so many more names. After `OutOfMemory` too there is no less room.
    pub fn reserve(&mut self, more: usize) -> Result<(), OutOfMemory>
        ensures places { (o : ObjId) → place_at self.new o ≡ place_at self.old o }
        ensures enough { OnOk result (more ≤ index_room self.new) }
        ensures room { index_room self.old ≤ index_room self.new }
    {
        if self.own.reserve(more).is_err() {
            return Err(OutOfMemory);
        }
        self.others.reserve(more)
    }

    /// The place of a name, or `NOWHERE`.
    #[inline(always)]
    pub fn get(&self, o: ObjId) -> Place
        ensures { result ≡ place_or (place_at self.now o) }
    {
        if o.birth == self.birth && o.seq >= self.base {
            let at = (o.seq - self.base) as usize;
            if at < self.own.len() {
                return self.own[at];
            }
        }
        self.others.get(o)
    }

    /// Lets the dense part begin at a name, where it has none.
    #[inline(always)]
    pub fn start(&mut self, o: ObjId)
        ensures places { (q : ObjId) → place_at self.new q ≡ place_at self.old q }
        ensures room { index_room self.new ≡ index_room self.old }
    {
        if self.own.is_empty() {
            self.birth = o.birth;
            self.base = o.seq;
        }
    }

    /// Sets the place of a name.
    #[inline(always)]
    pub fn put(&mut self, o: ObjId, place: Place)
        requires { 0 < index_room self.old }
        ensures places { (q : ObjId) → place_at self.new q ≡ (if same_name o q then Some place else place_at self.old q) }
        ensures room { index_room self.old ≤ index_room self.new + 1 }
    {
        if o.birth == self.birth && o.seq >= self.base {
            let at = (o.seq - self.base) as usize;
            if at < self.own.len() {
                self.own[at] = place;
                return;
            }
            if at == self.own.len() {
                self.own.push_reserved(place);
                return;
            }
        }
        self.others.put(o, place);
    }

    /// The place of a name whose row goes, or `NOWHERE`. What the dense part keeps of such
    /// a name leads to no row.
    #[inline(always)]
    pub fn take(&mut self, o: ObjId) -> Place
        ensures place { result ≡ place_or (place_at self.old o) }
        ensures gone { own_at self.old.birth self.old.base self.old.own.items o ≡ None → place_at self.new o ≡ None }
        ensures others { (q : ObjId) → same_name o q ≡ false → place_at self.new q ≡ place_at self.old q }
        ensures room { index_room self.old ≤ index_room self.new }
    {
        if o.birth == self.birth && o.seq >= self.base {
            let at = (o.seq - self.base) as usize;
            if let Some(place) = self.own.get(at) {
                return *place;
            }
        }
        self.others.take(o)
    }
}
