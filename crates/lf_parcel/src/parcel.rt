ghost use Rattle.std.specs.Prelude.{◌≡◌, slice_get};
ghost use Rattle.std.specs.Option.{option_map};
ghost use Rattle.lf_parcel.specs.Heads.{region_heads};
ghost use Rattle.lf_parcel.specs.RowsTold.{fields_told, row_told};

use crate::heads::RegionHead;
use crate::spots::{Spot, field_at, head_at, spot_at, spots_by_name};
use lf_base::{Key, Listed, ObjId, OutOfMemory, Value};
use lf_graph::{RowHead, Store};
use std::marker::Model;

/// One closed region tree as an owned value. Contracts see the name of its first region,
/// and its rows by rising name.
#[derive(Drop)]
pub struct Parcel<S: Store> {
    pub(crate) root: ObjId,
    // What is told of the regions, and a part for each, by rising name.
    pub(crate) heads: Listed<RegionHead>,
    pub(crate) parts: Vec<S::Part>,
    // Where the rows stand by rising name, once they were put in order.
    pub(crate) order: Vec<Spot>,
}

impl<S: Store> Model for Parcel<S> {
    ghost use Rattle.lf_parcel.specs.Parcels.{RegionTree, parts_seen, rows_seen};
    ghost use Rattle.lf_parcel.specs.Spots.{KeepsParcel};

    ghost Value = { RegionTree };

    ghost view = { λ p. record { root = p.root; rows = rows_seen (parts_seen S.part_region S.part_rows p.parts.items) } };

    ghost invariant = { λ p. KeepsParcel p.heads (parts_seen S.part_region S.part_rows p.parts.items) p.order.items p.root
        (rows_seen (parts_seen S.part_region S.part_rows p.parts.items)) };
}

impl<S: Store> Parcel<S> {
    /// The name of its first region.
    pub fn root(&self) -> ObjId
        ensures { result ≡ self.now.root }
    {
        self.root
    }

    /// A region by rising name, counted from 0. `None` comes exactly past the end.
    pub fn region_at(&self, at: u32) -> Option<RegionHead>
        ensures { result ≡ slice_get (region_heads self.now.rows) at }
    {
        self.heads.get(at as usize).copied()
    }

    /// A row by rising name, counted from 0: the name of its region, and the row. `None` comes
    /// exactly past the end. Where the rows aren't in order, it walks over all rows once for
    /// each row up to that one.
    pub fn row_at(&self, at: u32) -> Option<(ObjId, RowHead)>
        ensures { result ≡ option_map (row_told self.now) (slice_get self.now.rows at) }
    {
        let Some(spot) = spot_at::<S>(&self.parts, &self.order, at) else {
            return None;
        };
        match self.heads.get(spot.part) {
            Some(region) => Some((region.name, head_at::<S>(&self.parts, spot))),
            None => unreachable!(),
        }
    }

    /// A field of the row at a place by rising name, both counted from 0. `None` comes
    /// exactly past either end. It finds the row as `row_at` does.
    pub fn field_at(&self, at: u32, field: u32) -> Option<(Key, Value)>
        ensures { result ≡ slice_get (fields_told (slice_get self.now.rows at)) field }
    {
        let Some(spot) = spot_at::<S>(&self.parts, &self.order, at) else {
            return None;
        };
        field_at::<S>(&self.parts, spot, field)
    }

    /// Puts the rows in order, so that each is found at once. Nothing that is seen changes;
    /// after `OutOfMemory` too all is as it was.
    pub fn put_in_order(&mut self) -> Result<(), OutOfMemory>
        ensures { self.new ≡ self.old }
    {
        if self.order.is_empty() {
            let alloc = *self.parts.allocator();
            self.order = spots_by_name::<S>(alloc, &self.parts)?;
        }
        Ok(())
    }
}
