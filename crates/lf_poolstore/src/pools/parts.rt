//! Regions' rows that leave the pools and come into them, as one unit.

ghost use Rattle.std.specs.Prelude.{◌≡◌, ◌<◌, ◌^◌, ◌++◌, [], IfErr, None, OnErr, OnOk, length, slice_get};
ghost use Rattle.std.specs.Option.{option_map};
ghost use Rattle.std.proofs.Props.{props};
ghost use Rattle.lf_base.specs.declared.values.Owner.TheVariants.{In};
ghost use Rattle.lf_graph.specs.Parts.{AllNew, row_head};
ghost use Rattle.lf_graph.specs.StoredRows.{SameByOwner, fields_by, rows_of, rows_outside};
ghost use Rattle.lf_poolstore.specs.PoolViews.{pool_number, pool_rows};

use crate::pools::Pools;
use crate::pools::reads::unit_at;
use crate::pools::units::enter;
use crate::unit::Unit;
use lf_base::{Key, ObjId, OutOfMemory, Owner, Value};
use lf_graph::RowHead;

/// The rows of one region, out of their store: the unit that they were there.
#[derive(Drop)]
pub struct PoolPart {
    region: ObjId,
    unit: Unit,
    ghost owned: { unit.owner ≡ In region } by { Prim.hlevel props },
}

impl PoolPart {
    /// What is told at once of the row at a place, counted from 0.
    pub fn row(&self, at: u32) -> Option<RowHead>
        ensures { result ≡ option_map row_head (slice_get self.now.unit.rows at) }
    {
        self.unit.head_at(at)
    }

    /// The field at a place of the row at a place.
    pub fn field(&self, at: u32, field: u32) -> Option<(Key, Value)>
        ensures { result ≡ slice_get (fields_by (slice_get self.now.unit.rows at)) field }
    {
        self.unit.field_of(at, field)
    }
}

impl Pools {
    // A region's unit, which is a new one where it has none.
    fn unit_out(&mut self, region: ObjId) -> Unit
        ensures owner { result.owner ≡ In region }
        ensures unit { result.rows ≡ rows_of (In region) (pool_rows self.old) }
        ensures rows { SameByOwner (pool_rows self.new) (rows_outside (In region) (pool_rows self.old)) }
    {
        if let Some(unit) = self.take_unit(region) {
            return unit;
        }
        Unit::new(self.alloc, Owner::In(region))
    }

    /// Takes the rows of a region out, in their order, as one unit. All other rows stay.
    pub fn part_out(&mut self, region: ObjId) -> PoolPart
        ensures part { result.unit.rows ≡ rows_of (In region) (pool_rows self.old) }
        ensures region { result.region ≡ region }
        ensures few { length result.unit.rows < 2 ^ 32 }
        ensures rows { SameByOwner (pool_rows self.new) (rows_outside (In region) (pool_rows self.old)) }
    {
        let unit = self.unit_out(region);
        let _most = unit.most_rows();
        PoolPart { region, unit }
    }

    // Puts a unit in under a region that has none, or hands it back.
    fn put_unit(&mut self, region: ObjId, unit: Unit) -> Result<(), (Unit, OutOfMemory)>
        requires owner { unit.owner ≡ In region }
        requires free { pool_number self.old (In region) ≡ None }
        requires new { AllNew unit.rows (pool_rows self.old) }
        ensures rows { OnOk result (SameByOwner (pool_rows self.new) (pool_rows self.old ++ unit.rows)) }
        ensures unchanged { OnErr result (SameByOwner (pool_rows self.new) (pool_rows self.old)) }
        ensures unit { IfErr result (λ refused. refused.0 ≡ unit) }
    {
        let Ok(()) = self.index.reserve(unit.most_rows() as usize) else {
            return Err((unit, OutOfMemory));
        };
        match enter(&mut self.units, &mut self.owners, region, unit) {
            Ok(number) => {
                unit_at(&self.units, number).set_places(&mut self.index, number);
                Ok(())
            }
            Err(refused) => Err(refused),
        }
    }

    /// Puts the rows of a part back under its region, in their order, with their fields
    /// and counts. After `OutOfMemory` all rows stay and the part is handed back.
    pub fn part_in(&mut self, part: PoolPart) -> Result<(), (PoolPart, OutOfMemory)>
        requires new { AllNew part.unit.rows (pool_rows self.old) }
        requires empty { rows_of (In part.region) (pool_rows self.old) ≡ [] }
        ensures rows { OnOk result (SameByOwner (pool_rows self.new) (pool_rows self.old ++ part.unit.rows)) }
        ensures unchanged { OnErr result (SameByOwner (pool_rows self.new) (pool_rows self.old)) }
        ensures part { IfErr result (λ refused. (refused.0).unit.rows ≡ part.unit.rows) }
        ensures region { IfErr result (λ refused. (refused.0).region ≡ part.region) }
    {
        let region = part.region;
        let _empty = self.take_unit(region);
        match self.put_unit(region, part.unit) {
            Ok(()) => Ok(()),
            Err((unit, error)) => Err((PoolPart { region, unit }, error)),
        }
    }
}
