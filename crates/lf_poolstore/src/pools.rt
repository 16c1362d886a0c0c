ghost use Rattle.std.proofs.Props.{props};
ghost use Rattle.slab.specs.Slab.{get};
ghost use Rattle.lf_poolstore.specs.Index.{place_at};
ghost use Rattle.lf_poolstore.specs.Pools.{ArePools, number_of};

mod changes;
mod owners;
mod parts;
mod reads;
mod units;

use crate::name_index::NameIndex;
use crate::owner_units::OwnerUnits;
use crate::unit::Unit;
pub use parts::PoolPart;
use slab::Slab;
use std::alloc::Global;

/// The rows of all owners: a unit for each owner, and an index from names to places. A
/// place counts only where its row has that name.
#[derive(Drop)]
pub struct Pools {
    index: NameIndex,
    units: Slab<Unit>,
    owners: OwnerUnits,
    alloc: Global,
    ghost kept: { ArePools (place_at index) (number_of owners.local owners.frozen owners.regions) (get units) } by { Prim.hlevel props },
}
