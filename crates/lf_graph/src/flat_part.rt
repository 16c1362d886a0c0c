ghost use Rattle.std.specs.Prelude.{◌≡◌, ◌+◌, ◌<◌, ◌^◌, length, map, slice_get, IfOk, IfSome, IsSome};
ghost use Rattle.std.specs.Option.{option_map};
ghost use Rattle.lf_base.specs.declared.values.Owner.TheVariants.{In};
ghost use Rattle.lf_graph.specs.FlatParts.{CopiesRow, IsPart, IsPartRow, part_cells, part_fields, part_head, part_row, rows_cells};
ghost use Rattle.lf_graph.specs.FlatRows.{IsFlat, rows_under};
ghost use Rattle.lf_graph.specs.Cells.{cells_of};
ghost use Rattle.lf_graph.specs.ChainMaps.{heads_of};
ghost use Rattle.lf_graph.specs.Chains.{linked_row_at};
ghost use Rattle.lf_graph.specs.Parts.{row_head};
ghost use Rattle.lf_graph.specs.StoredRows.{fields_by};

use crate::cells::Cells;
use crate::chains::Chains;
use crate::store::RowHead;
use lf_base::{Fields, Key, Listed, ObjId, OutOfMemory, Owner, Value};
use std::alloc::Global;
use std::marker::Model;

// The most rows of a part, so that each has its place by a `u32`.
const MOST_ROWS: usize = 4_294_967_295;

/// A row out of its store: its name, its count of edges, and its fields in order with
/// their number.
#[derive(Drop)]
pub struct PartRow {
    pub name: ObjId,
    pub refs: u64,
    pub width: u32,
    pub fields: Fields,
}

/// The rows of one region, out of their store.
#[derive(Drop)]
pub struct FlatPart {
    region: ObjId,
    rows: Listed<PartRow>,
}

impl Model for FlatPart {
    ghost use Rattle.lf_graph.specs.FlatParts.{IsPart, PartView, part_view};

    ghost Value = { PartView };

    ghost view = { λ part. part_view part.region part.rows };

    ghost invariant = { λ part. IsPart part.rows };
}

// A copy of a row that is there.
fn copied_row(
    alloc: Global,
    chains: &Chains,
    cells: &Cells,
    o: ObjId,
) -> Result<PartRow, OutOfMemory>
    requires flat { IsFlat chains.now cells.now }
    requires there { IsSome (linked_row_at (heads_of chains.now.rows) o) }
    ensures copy { IfOk result (λ row. CopiesRow (heads_of chains.now.rows) (cells_of cells.now) o row) }
    ensures part { IfOk result IsPartRow }
{
    let stored = chains.row(o);
    let fields = cells.copied(alloc, o, stored.fields)?;
    Ok(PartRow {
        name: o,
        refs: stored.refs,
        width: stored.fields.width,
        fields,
    })
}

// A copy of the rows of a region.
fn copied_rows(
    alloc: Global,
    chains: &Chains,
    cells: &Cells,
    region: ObjId,
) -> Result<Listed<PartRow>, OutOfMemory>
    requires flat { IsFlat chains.now cells.now }
    ensures copy { IfOk result (λ rows. map (part_row region) rows ≡ rows_under chains.now cells.now (In region)) }
    ensures part { IfOk result IsPart }
{
    let mut rows = Listed::new(alloc);
    let mut next = chains.first(Owner::In(region));
    while let Some(o) = next {
        let row = copied_row(alloc, chains, cells, o)?;
        let Ok(()) = rows.push(row) else {
            return Err(OutOfMemory);
        };
        next = chains.next(o);
    }
    Ok(rows)
}

// The cells that these rows and their fields take, where there is a number for them.
fn counted_cells(rows: &[PartRow]) -> Option<usize>
    ensures { IfSome result (λ cells. cells ≡ rows_cells rows.now) }
{
    let mut cells = 0_usize;
    for row in rows {
        cells = more_cells(cells, row.fields.len())?;
    }
    Some(cells)
}

// The cells with those of one more row of so many fields.
fn more_cells(cells: usize, fields: usize) -> Option<usize>
    ensures { IfSome result (λ more. more ≡ cells + (1 + fields)) }
{
    cells.checked_add(fields)?.checked_add(1)
}

fn head_at(rows: &[PartRow], at: usize) -> Option<RowHead>
    requires { IsPart rows.now }
    ensures { result ≡ option_map part_head (slice_get rows.now at) }
{
    let Some(row) = rows.get(at) else {
        return None;
    };
    Some(RowHead {
        name: row.name,
        width: row.width,
        refs: row.refs,
    })
}

fn field_at(rows: &[PartRow], at: usize, field: usize) -> Option<(Key, Value)>
    ensures { result ≡ slice_get (part_fields (slice_get rows.now at)) field }
{
    let Some(row) = rows.get(at) else {
        return None;
    };
    row.fields.get(field).copied()
}

impl FlatPart {
    /// A copy of the rows of a region, or `OutOfMemory`.
    pub fn copied(
        alloc: Global,
        chains: &Chains,
        cells: &Cells,
        region: ObjId,
    ) -> Result<FlatPart, OutOfMemory>
        requires flat { IsFlat chains.now cells.now }
        ensures rows { IfOk result (λ part. part.rows ≡ rows_under chains.now cells.now (In region)) }
        ensures region { IfOk result (λ part. part.region ≡ region) }
        ensures few { IfOk result (λ part. length part.rows < 2 ^ 32) }
    {
        let rows = copied_rows(alloc, chains, cells, region)?;
        if rows.len() > MOST_ROWS {
            return Err(OutOfMemory);
        }
        Ok(FlatPart { region, rows })
    }

    /// The region whose rows these are.
    pub fn region(&self) -> ObjId
        ensures { result ≡ self.now.region }
    {
        self.region
    }

    /// The rows, in order.
    pub fn rows(&self) -> &[PartRow]
        ensures rows { self.now.rows ≡ map (part_row self.now.region) result.now }
        ensures part { IsPart result.now }
    {
        self.rows.as_slice()
    }

    /// The cells that the rows and their fields take, where there is a number for them.
    pub fn cells(&self) -> Option<usize>
        ensures { IfSome result (λ cells. cells ≡ part_cells self.now.rows) }
    {
        counted_cells(self.rows.as_slice())
    }

    /// What is told at once of the row at a place.
    pub fn head(&self, at: u32) -> Option<RowHead>
        ensures { result ≡ option_map row_head (slice_get self.now.rows at) }
    {
        head_at(self.rows.as_slice(), at as usize)
    }

    /// The field at a place of the row at a place.
    pub fn field(&self, at: u32, field: u32) -> Option<(Key, Value)>
        ensures { result ≡ slice_get (fields_by (slice_get self.now.rows at)) field }
    {
        field_at(self.rows.as_slice(), at as usize, field as usize)
    }
}
