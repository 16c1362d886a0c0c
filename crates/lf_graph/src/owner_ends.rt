ghost use Rattle.std.specs.Prelude.{◌≡◌, ◌<◌, ◌≤◌, ◌+◌, None, OnOk};
ghost use Rattle.std.specs.Option.{option_map};
ghost use Rattle.lf_base.specs.declared.values.Owner.{Owner};
ghost use Rattle.lf_graph.specs.ChainMaps.{ends_of, ends_room};
ghost use Rattle.lf_graph.specs.Chains.{OnlyEndsOf, owner_ends_with, owner_ends_without};

use crate::ends::Ends;
use crate::region_ends::RegionEnds;
use lf_base::{ObjId, OutOfMemory, Owner};
use std::alloc::Global;

/// The ends of each owner's rows.
#[derive(Drop)]
pub struct OwnerEnds {
    local: Option<Ends>,
    frozen: Option<Ends>,
    regions: RegionEnds,
}

impl OwnerEnds {
    pub fn new(alloc: Global) -> OwnerEnds
        ensures { (w : Owner) → ends_of result w ≡ None }
    {
        OwnerEnds {
            local: None,
            frozen: None,
            regions: RegionEnds::new(alloc),
        }
    }

    pub fn reserve(&mut self, more: usize) -> Result<(), OutOfMemory>
        ensures ends { (w : Owner) → ends_of self.new w ≡ ends_of self.old w }
        ensures enough { OnOk result (more ≤ ends_room self.new) }
        ensures room { ends_room self.old ≤ ends_room self.new }
    {
        self.regions.reserve(more)
    }

    pub fn get(&self, owner: Owner) -> Option<Ends>
        ensures { result ≡ ends_of self.now owner }
    {
        match owner {
            Owner::Local => self.local,
            Owner::Frozen => self.frozen,
            Owner::In(region) => self.regions.get(region),
        }
    }

    /// The row is the owner's last one now. Gives the one that was last before.
    pub fn push(&mut self, owner: Owner, o: ObjId) -> Option<ObjId>
        requires { 0 < ends_room self.old }
        ensures last { result ≡ option_map (λ ends. ends.last) (ends_of self.old owner) }
        ensures ends { OnlyEndsOf (ends_of self.old) (ends_of self.new) owner (owner_ends_with o (ends_of self.old owner)) }
        ensures room { ends_room self.old ≤ ends_room self.new + 1 }
    {
        match owner {
            Owner::Local => push(&mut self.local, o),
            Owner::Frozen => push(&mut self.frozen, o),
            Owner::In(region) => self.regions.push(region, o),
        }
    }

    /// The row between these two is no row of the owner any more.
    pub fn cut(&mut self, owner: Owner, prev: Option<ObjId>, next: Option<ObjId>)
        ensures ends { OnlyEndsOf (ends_of self.old) (ends_of self.new) owner (owner_ends_without prev next (ends_of self.old owner)) }
        ensures room { ends_room self.old ≤ ends_room self.new }
    {
        match owner {
            Owner::Local => cut(&mut self.local, prev, next),
            Owner::Frozen => cut(&mut self.frozen, prev, next),
            Owner::In(region) => self.regions.cut(region, prev, next),
        }
    }
}

// One more row at the end. Gives the one that was last before.
fn push(ends: &mut Option<Ends>, o: ObjId) -> Option<ObjId>
    ensures last { result ≡ option_map (λ ends. ends.last) ends.old }
    ensures ends { ends.new ≡ owner_ends_with o ends.old }
{
    match *ends {
        Some(Ends { first, last }) => {
            *ends = Some(Ends { first, last: o });
            Some(last)
        }
        None => {
            *ends = Some(Ends { first: o, last: o });
            None
        }
    }
}

// The ends without the row between these two.
fn cut(ends: &mut Option<Ends>, prev: Option<ObjId>, next: Option<ObjId>)
    ensures { ends.new ≡ owner_ends_without prev next ends.old }
{
    let Some(Ends { first, last }) = *ends else {
        return;
    };
    match (prev, next) {
        (Some(_), Some(_)) => {}
        (Some(last), None) => *ends = Some(Ends { first, last }),
        (None, Some(first)) => *ends = Some(Ends { first, last }),
        (None, None) => *ends = None,
    }
}
