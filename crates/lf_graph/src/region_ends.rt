ghost use Rattle.std.specs.Prelude.{◌≡◌, ◌<◌, ◌≤◌, ◌+◌, None, Some, OnOk};
ghost use Rattle.std.specs.Option.{option_map};
ghost use Rattle.std.proofs.Props.{props};
ghost use Rattle.std.specs.HashMap.{IsUnique, spare};
ghost use Rattle.lf_base.specs.declared.ids.ObjId.{ObjId};
ghost use Rattle.lf_base.specs.Names.{same_name};
ghost use Rattle.lf_graph.specs.declared.ends.Ends.{Ends};
ghost use Rattle.lf_graph.specs.Chains.{owner_ends_with, owner_ends_without};
ghost use Rattle.lf_graph.specs.RegionEnds.{OnlyRegionAt, region_ends};

use crate::ends::Ends;
use lf_base::{ObjId, OutOfMemory};
use std::alloc::Global;
use std::collections::HashMap;

/// The ends of the rows of each region that has rows.
#[derive(Drop)]
pub struct RegionEnds {
    ends: HashMap<ObjId, Ends>,
    ghost unique: { IsUnique same_name ends } by { Prim.hlevel props },
}

impl RegionEnds {
    pub fn new(alloc: Global) -> RegionEnds
        ensures { (r : ObjId) → region_ends result.ends r ≡ None }
    {
        RegionEnds {
            ends: HashMap::new(alloc),
        }
    }

    pub fn reserve(&mut self, more: usize) -> Result<(), OutOfMemory>
        ensures ends { (r : ObjId) → region_ends self.new.ends r ≡ region_ends self.old.ends r }
        ensures enough { OnOk result (more ≤ spare self.new.ends) }
        ensures room { spare self.old.ends ≤ spare self.new.ends }
    {
        match self.ends.reserve(more) {
            Ok(()) => Ok(()),
            Err(_error) => Err(OutOfMemory),
        }
    }

    pub fn get(&self, region: ObjId) -> Option<Ends>
        ensures { result ≡ region_ends self.now.ends region }
    {
        self.ends.get(&region).copied()
    }

    fn put(&mut self, region: ObjId, ends: Ends)
        requires { 0 < spare self.old.ends }
        ensures ends { OnlyRegionAt self.old.ends self.new.ends region (Some ends) }
        ensures room { spare self.old.ends ≤ spare self.new.ends + 1 }
    {
        match self.ends.insert(region, ends) {
            Ok(_old) => {}
            Err(_refused) => unreachable!(),
        }
    }

    /// The row is the region's last one now. Gives the one that was last before.
    pub fn push(&mut self, region: ObjId, o: ObjId) -> Option<ObjId>
        requires { 0 < spare self.old.ends }
        ensures last { result ≡ option_map (λ ends. ends.last) (region_ends self.old.ends region) }
        ensures ends { OnlyRegionAt self.old.ends self.new.ends region (owner_ends_with o (region_ends self.old.ends region)) }
        ensures room { spare self.old.ends ≤ spare self.new.ends + 1 }
    {
        if let Some(ends) = self.ends.get_mut(&region) {
            let last = ends.last;
            ends.last = o;
            return Some(last);
        }
        self.put(region, Ends { first: o, last: o });
        None
    }

    /// The row between these two is no row of the region any more.
    pub fn cut(&mut self, region: ObjId, prev: Option<ObjId>, next: Option<ObjId>)
        ensures ends { OnlyRegionAt self.old.ends self.new.ends region (owner_ends_without prev next (region_ends self.old.ends region)) }
        ensures room { spare self.old.ends ≤ spare self.new.ends }
    {
        match (prev, next) {
            (Some(_), Some(_)) => {}
            (Some(last), None) => self.set_last(region, last),
            (None, Some(first)) => self.set_first(region, first),
            (None, None) => self.remove(region),
        }
    }

    fn set_last(&mut self, region: ObjId, last: ObjId)
        ensures ends { OnlyRegionAt self.old.ends self.new.ends region
            (option_map (λ (x : Ends). record x { last = last }) (region_ends self.old.ends region)) }
        ensures room { spare self.new.ends ≡ spare self.old.ends }
    {
        if let Some(ends) = self.ends.get_mut(&region) {
            ends.last = last;
        }
    }

    fn set_first(&mut self, region: ObjId, first: ObjId)
        ensures ends { OnlyRegionAt self.old.ends self.new.ends region
            (option_map (λ (x : Ends). record x { first = first }) (region_ends self.old.ends region)) }
        ensures room { spare self.new.ends ≡ spare self.old.ends }
    {
        if let Some(ends) = self.ends.get_mut(&region) {
            ends.first = first;
        }
    }

    fn remove(&mut self, region: ObjId)
        ensures ends { OnlyRegionAt self.old.ends self.new.ends region None }
        ensures room { spare self.old.ends ≤ spare self.new.ends }
    {
        let _ = self.ends.remove(&region);
    }
}
