ghost use Rattle.std.specs.Prelude.{◌≡◌, ◌+◌, ◌-◌, ◌<◌, ◌≤◌, ◌^◌, [], false, true, if◌then◌else◌, Some, IfOk, IsSome, OnErr, OnOk};
ghost use Rattle.std.specs.HashMap.{spare};
ghost use Rattle.lf_base.specs.declared.ids.ObjId.{ObjId};
ghost use Rattle.lf_base.specs.Names.{same_name};
ghost use Rattle.lf_regions.specs.KeptRegions.{slab_place_of, start_above};
ghost use Rattle.lf_regions.specs.NextName.{next_name};
ghost use Rattle.lf_regions.specs.RegionChanges.{with_borrowed, with_owned, with_region, without_region};
ghost use Rattle.lf_regions.specs.Regions.{InNameOrder, borrowed_of, has_region, owned_of};

use crate::region::Region;
use lf_base::{ObjId, OutOfMemory};
use slab::Slab;
use std::alloc::Global;
use std::collections::{BTreeMap, HashMap};
use std::marker::Model;
use std::ops::Bound;

/// The regions of a domain by rising name, each with a number of borrows and a
/// flag that says whether it has an owner. Contracts see the list of them.
///
/// No call goes over the table. Those on a region that is there look its name up once;
/// `make`, `end` and `next_above` search for a place in the order as well.
#[derive(Drop)]
pub struct RegionTable {
    regions: Slab<Region>,
    // Where in the slab the region of a name lies: by one look-up, and in order.
    places: HashMap<ObjId, usize>,
    index: BTreeMap<ObjId, usize>,
}

impl Model for RegionTable {
    ghost use Rattle.std.specs.Prelude.{List};
    ghost use Rattle.lf_regions.specs.declared.region.Region.{Region};
    ghost use Rattle.lf_regions.specs.KeptRegions.{KeepsPlaces, regions_at};

    ghost Value = { List Region };

    ghost view = { λ table. regions_at table.regions table.index.entries };

    ghost invariant = { λ table. KeepsPlaces table.regions table.places table.index.entries };
}

// The place of a region that is there.
#[inline(always)]
fn place(places: &HashMap<ObjId, usize>, r: ObjId) -> usize
    requires { IsSome (slab_place_of places.now r) }
    ensures { slab_place_of places.now r ≡ Some result }
{
    let Some(&place) = places.get(&r) else {
        unreachable!()
    };
    place
}

// Makes room for the place of one more region.
fn reserve(places: &mut HashMap<ObjId, usize>) -> Result<(), OutOfMemory>
    ensures places { (q : ObjId) → slab_place_of places.new q ≡ slab_place_of places.old q }
    ensures enough { OnOk result (0 < spare places.new) }
{
    match places.reserve(1) {
        Ok(()) => Ok(()),
        Err(_error) => Err(OutOfMemory),
    }
}

// Enters the place of a region.
fn enter(places: &mut HashMap<ObjId, usize>, r: ObjId, place: usize)
    requires { 0 < spare places.old }
    ensures { (q : ObjId) → slab_place_of places.new q ≡ (if same_name r q then Some place else slab_place_of places.old q) }
{
    match places.insert(r, place) {
        Ok(_old) => {}
        Err(_refused) => unreachable!(),
    }
}

impl RegionTable {
    /// A table without regions, or `OutOfMemory`.
    pub fn new(alloc: Global) -> Result<RegionTable, OutOfMemory>
        ensures { IfOk result (λ table. table ≡ []) }
    {
        Ok(RegionTable {
            regions: Slab::new(alloc),
            places: HashMap::new(alloc),
            index: BTreeMap::new(alloc),
        })
    }

    /// Adds a region of a new name, without borrows and owner. After
    /// `OutOfMemory`, which no clause ties to a cause, the table is as it was.
    pub fn make(&mut self, r: ObjId) -> Result<(), OutOfMemory>
        requires { has_region self.old r ≡ false }
        ensures made { OnOk result (self.new ≡ with_region self.old r) }
        ensures unchanged { OnErr result (self.new ≡ self.old) }
        ensures rising { InNameOrder self.new }
    {
        self.regions.reserve(1)?;
        reserve(&mut self.places)?;
        let key = self.regions.vacant_key();
        self.index.insert(r, key)?;
        enter(&mut self.places, r, key);
        self.regions.insert_reserved(Region {
            name: r,
            borrowed: 0,
            owned: false,
        });
        Ok(())
    }

    /// Adds to the number of a region that is there.
    pub fn borrow(&mut self, r: ObjId, by: u64)
        requires there { has_region self.old r ≡ true }
        requires fits { borrowed_of self.old r + by < 2 ^ 64 }
        ensures added { self.new ≡ with_borrowed self.old r (borrowed_of self.old r + by) }
        ensures rising { InNameOrder self.new }
    {
        let key = place(&self.places, r);
        self.regions[key].borrowed += by;
    }

    /// Subtracts from the number of a region that is there.
    pub fn unborrow(&mut self, r: ObjId, by: u64)
        requires there { has_region self.old r ≡ true }
        requires not_less { by ≤ borrowed_of self.old r }
        ensures subtracted { self.new ≡ with_borrowed self.old r (borrowed_of self.old r - by) }
        ensures rising { InNameOrder self.new }
    {
        let key = place(&self.places, r);
        self.regions[key].borrowed -= by;
    }

    /// Sets the flag of a region that is there.
    pub fn set_owned(&mut self, r: ObjId, owned: bool)
        requires { has_region self.old r ≡ true }
        ensures set { self.new ≡ with_owned self.old r owned }
        ensures rising { InNameOrder self.new }
    {
        let key = place(&self.places, r);
        self.regions[key].owned = owned;
    }

    /// Takes a region off the table that is there without borrows and owner.
    pub fn end(&mut self, r: ObjId)
        requires there { has_region self.old r ≡ true }
        requires not_borrowed { borrowed_of self.old r ≡ 0 }
        requires not_owned { owned_of self.old r ≡ false }
        ensures ended { self.new ≡ without_region self.old r }
        ensures rising { InNameOrder self.new }
    {
        let _ = self.places.remove(&r);
        if let Some(key) = self.index.remove(&r) {
            self.regions.remove(key);
        }
    }

    /// The number of a region that is there.
    pub fn borrowed(&self, r: ObjId) -> u64
        requires { has_region self.now r ≡ true }
        ensures number { result ≡ borrowed_of self.now r }
        ensures rising { InNameOrder self.now }
    {
        self.regions[place(&self.places, r)].borrowed
    }

    /// The flag of a region that is there.
    pub fn is_owned(&self, r: ObjId) -> bool
        requires { has_region self.now r ≡ true }
        ensures flag { result ≡ owned_of self.now r }
        ensures rising { InNameOrder self.now }
    {
        self.regions[place(&self.places, r)].owned
    }

    /// The least name, or the least one above `after` where one is given, and None
    /// exactly where there is none.
    pub fn next_above(&self, after: Option<ObjId>) -> Option<ObjId>
        ensures next { result ≡ next_name self.now after }
        ensures rising { InNameOrder self.now }
    {
        let names = (first_above(after), Bound::Unbounded);
        match self.index.range(names).next() {
            Some((name, _)) => Some(*name),
            None => None,
        }
    }
}

// Where the names above `after` begin.
fn first_above(after: Option<ObjId>) -> Bound<ObjId>
    ensures { result ≡ start_above after }
{
    match after {
        Some(name) => Bound::Excluded(name),
        None => Bound::Unbounded,
    }
}
