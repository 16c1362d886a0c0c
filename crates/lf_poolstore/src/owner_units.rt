ghost use Rattle.std.specs.Prelude.{◌≡◌, ◌<◌, Some, None, OnOk, if◌then◌else◌};
ghost use Rattle.std.proofs.Props.{props};
ghost use Rattle.std.specs.HashMap.{IsUnique, get, spare};
ghost use Rattle.lf_base.specs.declared.ids.ObjId.{ObjId};
ghost use Rattle.lf_base.specs.declared.values.Owner.{Owner as OwnerOf};
ghost use Rattle.lf_base.specs.declared.values.Owner.TheVariants.{In};
ghost use Rattle.lf_base.specs.Names.{same_name, same_owner};
ghost use Rattle.lf_poolstore.specs.Pools.{first_number_of, number_of};

use lf_base::{ObjId, OutOfMemory, Owner};
use std::alloc::Global;
use std::collections::HashMap;

/// The number of each owner's unit: one for local rows, one for frozen rows, and those of
/// regions. What the map says of one region is kept beside it, as calls on one region
/// mostly follow each other.
#[derive(Drop)]
pub struct OwnerUnits {
    local: u32,
    frozen: u32,
    regions: HashMap<ObjId, u32>,
    last: ObjId,
    last_unit: Option<u32>,
    ghost unique: { IsUnique same_name regions } by { Prim.hlevel props },
    ghost kept: { get same_name regions last ≡ last_unit } by { Prim.hlevel props },
}

impl OwnerUnits {
    /// The numbers of local and of frozen rows. It takes no memory.
    pub fn new(alloc: Global, local: u32, frozen: u32) -> OwnerUnits
        ensures { (w : OwnerOf) → number_of result.local result.frozen result.regions w ≡ first_number_of local frozen w }
    {
        OwnerUnits {
            local,
            frozen,
            regions: HashMap::new(alloc),
            last: ObjId { birth: 0, seq: 0 },
            last_unit: None,
        }
    }

    /// The number of an owner's unit, where it has one.
    #[inline(always)]
    pub fn get(&self, owner: Owner) -> Option<u32>
        ensures { result ≡ number_of self.now.local self.now.frozen self.now.regions owner }
    {
        match owner {
            Owner::Local => Some(self.local),
            Owner::In(region) => {
                if region.is_same(self.last) {
                    return self.last_unit;
                }
                self.of_region(region)
            }
            Owner::Frozen => Some(self.frozen),
        }
    }

    /// The same, and keeps it beside the map.
    #[inline(always)]
    pub fn keep(&mut self, owner: Owner) -> Option<u32>
        ensures number { result ≡ number_of self.old.local self.old.frozen self.old.regions owner }
        ensures numbers { (w : OwnerOf) → number_of self.new.local self.new.frozen self.new.regions w ≡ number_of self.old.local self.old.frozen self.old.regions w }
    {
        let number = self.get(owner);
        if let Owner::In(region) = owner {
            self.last = region;
            self.last_unit = number;
        }
        number
    }

    #[inline(never)]
    fn of_region(&self, region: ObjId) -> Option<u32>
        ensures { result ≡ number_of self.now.local self.now.frozen self.now.regions (In region) }
    {
        self.regions.get(&region).copied()
    }

    /// Makes room for one more region.
    pub fn reserve(&mut self) -> Result<(), OutOfMemory>
        ensures numbers { (w : OwnerOf) → number_of self.new.local self.new.frozen self.new.regions w ≡ number_of self.old.local self.old.frozen self.old.regions w }
        ensures enough { OnOk result (0 < spare self.new.regions) }
    {
        match self.regions.reserve(1) {
            Ok(()) => Ok(()),
            Err(_error) => Err(OutOfMemory),
        }
    }

    /// Sets the number of a region's unit.
    pub fn put(&mut self, region: ObjId, unit: u32)
        requires { 0 < spare self.old.regions }
        ensures { (w : OwnerOf) → number_of self.new.local self.new.frozen self.new.regions w ≡ (if same_owner (In region) w then Some unit else number_of self.old.local self.old.frozen self.old.regions w) }
    {
        match self.regions.insert(region, unit) {
            Ok(_old) => {
                self.last = region;
                self.last_unit = Some(unit);
            }
            Err(_refused) => unreachable!(),
        }
    }

    /// Takes the number of a region's unit out.
    pub fn remove(&mut self, region: ObjId)
        ensures { (w : OwnerOf) → number_of self.new.local self.new.frozen self.new.regions w ≡ (if same_owner (In region) w then None else number_of self.old.local self.old.frozen self.old.regions w) }
    {
        let _number = self.regions.remove(&region);
        self.last = region;
        self.last_unit = None;
    }
}
