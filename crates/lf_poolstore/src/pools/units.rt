//! Units that come under the owners of the pools.

ghost use Rattle.std.specs.Prelude.{◌≡◌, ◌≤◌, [], IfErr, IfNone, IfOk, IfSome, None, OnErr, OnOk, Some};
ghost use Rattle.lf_base.specs.declared.values.Owner.TheVariants.{In};
ghost use Rattle.lf_graph.specs.Room.{LowersNone};
ghost use Rattle.lf_graph.specs.StoredRows.{SameByOwner, rows_of, rows_outside};
ghost use Rattle.lf_poolstore.specs.Pools.{AddsUnit, SamePools, number_of};
ghost use Rattle.lf_poolstore.specs.PoolViews.{pool_number, pool_rows, pool_spare};
ghost use Rattle.slab.specs.Slab.{Updates, get};

use crate::name_index::NameIndex;
use crate::owner_units::OwnerUnits;
use crate::pools::Pools;
use crate::unit::Unit;
use lf_base::{ObjId, OutOfMemory, Owner};
use slab::Slab;
use std::alloc::Global;

// Adds a region's unit, or hands it back.
pub(super) fn enter(
    units: &mut Slab<Unit>,
    owners: &mut OwnerUnits,
    region: ObjId,
    unit: Unit,
) -> Result<u32, (Unit, OutOfMemory)>
    requires { unit.owner ≡ In region }
    ensures added { IfOk result (λ n. AddsUnit (number_of owners.old.local owners.old.frozen owners.old.regions) (number_of owners.new.local owners.new.frozen owners.new.regions) (get units.old) (get units.new) n unit) }
    ensures same { OnErr result (SamePools (number_of owners.old.local owners.old.frozen owners.old.regions) (number_of owners.new.local owners.new.frozen owners.new.regions) (get units.old) (get units.new)) }
    ensures unit { IfErr result (λ refused. refused.0 ≡ unit) }
{
    let Ok(()) = owners.reserve() else {
        return Err((unit, OutOfMemory));
    };
    let Ok(number) = u32::try_from(units.vacant_key()) else {
        return Err((unit, OutOfMemory));
    };
    match units.insert(unit) {
        Ok(_key) => {
            owners.put(region, number);
            Ok(number)
        }
        Err(failed) => Err((failed.value, OutOfMemory)),
    }
}

// Adds a unit under a number that had none.
fn add(units: &mut Slab<Unit>, unit: Unit) -> Result<u32, OutOfMemory>
    ensures vacant { IfOk result (λ n. get units.old n ≡ None) }
    ensures added { IfOk result (λ n. Updates units.old units.new n (Some unit)) }
{
    let Ok(number) = u32::try_from(units.vacant_key()) else {
        return Err(OutOfMemory);
    };
    match units.insert(unit) {
        Ok(_key) => Ok(number),
        Err(_refused) => Err(OutOfMemory),
    }
}

impl Pools {
    /// Pools without rows, with a unit for local rows and one for frozen rows.
    pub fn new(alloc: Global) -> Result<Pools, OutOfMemory>
        ensures { IfOk result (λ p. pool_rows p ≡ []) }
    {
        let mut units = Slab::new(alloc);
        let local = add(&mut units, Unit::new(alloc, Owner::Local))?;
        let frozen = add(&mut units, Unit::new(alloc, Owner::Frozen))?;
        Ok(Pools {
            index: NameIndex::new(alloc),
            units,
            owners: OwnerUnits::new(alloc, local, frozen),
            alloc,
        })
    }

    // The number of an owner's unit, which is made where there is none.
    fn unit_for(&mut self, owner: Owner) -> Result<u32, OutOfMemory>
        ensures number { IfOk result (λ n. pool_number self.new owner ≡ Some n) }
        ensures rows { SameByOwner (pool_rows self.new) (pool_rows self.old) }
        ensures room { LowersNone (pool_spare self.old) (pool_spare self.new) }
    {
        if let Some(number) = self.owners.keep(owner) {
            return Ok(number);
        }
        let Owner::In(region) = owner else {
            unreachable!()
        };
        let unit = Unit::new(self.alloc, owner);
        match enter(&mut self.units, &mut self.owners, region, unit) {
            Ok(number) => Ok(number),
            Err((_unit, error)) => Err(error),
        }
    }

    /// Makes room for so many cells under an owner. After `OutOfMemory` too all rows stay,
    /// and no owner has less room.
    pub fn reserve(&mut self, owner: Owner, cells: usize) -> Result<(), OutOfMemory>
        ensures rows { SameByOwner (pool_rows self.new) (pool_rows self.old) }
        ensures enough { OnOk result (cells ≤ pool_spare self.new owner) }
        ensures room { LowersNone (pool_spare self.old) (pool_spare self.new) }
    {
        let number = self.unit_for(owner)?;
        self.index.reserve(cells)?;
        let Some(unit) = self.units.get_mut(number as usize) else {
            unreachable!()
        };
        unit.reserve(cells)
    }

    // Takes a region's unit out, where it has one.
    pub(super) fn take_unit(&mut self, region: ObjId) -> Option<Unit>
        ensures owner { IfSome result (λ u. u.owner ≡ In region) }
        ensures unit { IfSome result (λ u. u.rows ≡ rows_of (In region) (pool_rows self.old)) }
        ensures none { IfNone result (rows_of (In region) (pool_rows self.old) ≡ []) }
        ensures free { pool_number self.new (In region) ≡ None }
        ensures rows { SameByOwner (pool_rows self.new) (rows_outside (In region) (pool_rows self.old)) }
    {
        let Some(number) = self.owners.get(Owner::In(region)) else {
            return None;
        };
        self.owners.remove(region);
        self.units.try_remove(number as usize)
    }
}
