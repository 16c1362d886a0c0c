//! Where the rows of a parcel stand: in order, or the one of the least name above another.

ghost use Rattle.std.specs.Prelude.{◌≡◌, ◌++◌, ◌<◌, ◌^◌, ◌⊎◌, List, None, Some, if◌then◌else◌, length, slice_get, IfOk, OnOk};
ghost use Rattle.std.specs.Option.{option_map};
ghost use Rattle.lf_base.specs.PlainState.{Row};
ghost use Rattle.lf_base.specs.Sets.{Member};
ghost use Rattle.lf_frozen.specs.FrozenRows.{comes_after};
ghost use Rattle.lf_graph.specs.Parts.{row_head};
ghost use Rattle.lf_graph.specs.StoredRows.{AreRowsOf, fields_by};
ghost use Rattle.lf_parcel.specs.Parcels.{ArePartsOfRegions, parts_seen, rows_of_parts};
ghost use Rattle.lf_parcel.specs.Spots.{IsRowOrder, IsSpotAt, Leads, LeastInPart, LeastOfParts, MayHaveOrder, StandsAt};
ghost use Rattle.lf_parcel.specs.Spots.{lesser_name, name_found, row_by_spot, spot_names, stored_names};

use lf_base::{Key, ObjId, OutOfMemory, Value};
use lf_graph::{RowHead, Store};
use std::alloc::Global;

/// Where a row stands: its name, the place of its part, and its place there.
#[derive(Clone, Copy, Debug, PartialEq, Eq)]
pub(crate) struct Spot {
    pub(crate) name: ObjId,
    pub(crate) part: usize,
    pub(crate) at: u32,
}

/// A spot for each row of the parts, by rising name.
pub(crate) fn spots_by_name<S: Store>(
    alloc: Global,
    parts: &[S::Part],
) -> Result<Vec<Spot>, OutOfMemory>
    requires parts { ArePartsOfRegions (parts_seen S.part_region S.part_rows parts.now) }
    ensures { IfOk result (λ spots. (rows : List Row) → AreRowsOf (rows_of_parts (parts_seen S.part_region S.part_rows parts.now)) rows
        → IsRowOrder (parts_seen S.part_region S.part_rows parts.now) spots.items rows) }
{
    let mut spots = Vec::new(alloc);
    for place in 0..parts.len() {
        list_part::<S>(&mut spots, &parts[place], place)?;
    }
    spots.sort_by_key(|spot| spot.name)?;
    Ok(spots)
}

// Adds a spot for each row of a part.
fn list_part<S: Store>(
    spots: &mut Vec<Spot>,
    part: &S::Part,
    place: usize,
) -> Result<(), OutOfMemory>
    requires few { length (S.part_rows part.now) < 2 ^ 32 }
    ensures names { OnOk result (spot_names spots.new.items ≡ spot_names spots.old.items ++ stored_names (S.part_rows part.now)) }
    ensures there { OnOk result ((spot : Spot) → Member spot spots.new.items
        → Member spot spots.old.items ⊎ ((spot.part ≡ place) × StandsAt (S.part_rows part.now) spot)) }
{
    let mut at = 0;
    while let Some(head) = S::part_row(part, at) {
        spots.push(Spot {
            name: head.name,
            part: place,
            at,
        })?;
        at += 1;
    }
    Ok(())
}

/// The spot of a row by rising name, counted from 0; `None` past the end. Where no order is
/// there, the rows before it are looked for one by one, each in a walk over all rows.
pub(crate) fn spot_at<S: Store>(parts: &[S::Part], order: &[Spot], at: u32) -> Option<Spot>
    requires parts { ArePartsOfRegions (parts_seen S.part_region S.part_rows parts.now) }
    ensures { (rows : List Row) → AreRowsOf (rows_of_parts (parts_seen S.part_region S.part_rows parts.now)) rows
        → MayHaveOrder (parts_seen S.part_region S.part_rows parts.now) order.now rows
        → IsSpotAt (parts_seen S.part_region S.part_rows parts.now) rows at result }
{
    if order.is_empty() {
        spot_in_turn::<S>(parts, at)
    } else {
        spot_in_order(order, at as usize)
    }
}

// The same, where there is an order.
fn spot_in_order(order: &[Spot], at: usize) -> Option<Spot>
    ensures { result ≡ slice_get order.now at }
{
    order.get(at).copied()
}

// The same, by walks.
fn spot_in_turn<S: Store>(parts: &[S::Part], at: u32) -> Option<Spot>
    requires parts { ArePartsOfRegions (parts_seen S.part_region S.part_rows parts.now) }
    ensures { (rows : List Row) → AreRowsOf (rows_of_parts (parts_seen S.part_region S.part_rows parts.now)) rows
        → IsSpotAt (parts_seen S.part_region S.part_rows parts.now) rows at result }
{
    let mut after = None;
    for _turn in 0..at {
        let Some(spot) = least_above::<S>(parts, after) else {
            return None;
        };
        after = Some(spot.name);
    }
    least_above::<S>(parts, after)
}

/// What is told of the row at a spot.
pub(crate) fn head_at<S: Store>(parts: &[S::Part], spot: Spot) -> RowHead
    requires { Leads (parts_seen S.part_region S.part_rows parts.now) spot }
    ensures { option_map row_head (row_by_spot (parts_seen S.part_region S.part_rows parts.now) spot) ≡ Some result }
{
    match S::part_row(&parts[spot.part], spot.at) {
        Some(head) => head,
        None => unreachable!(),
    }
}

/// A field of the row at a spot; `None` past the end.
pub(crate) fn field_at<S: Store>(parts: &[S::Part], spot: Spot, field: u32) -> Option<(Key, Value)>
    requires { Leads (parts_seen S.part_region S.part_rows parts.now) spot }
    ensures { result ≡ slice_get (fields_by (row_by_spot (parts_seen S.part_region S.part_rows parts.now) spot)) field }
{
    S::part_field(&parts[spot.part], spot.at, field)
}

// The row of the least name, or of the least one above `after` where one is given. It
// looks at all rows.
fn least_above<S: Store>(parts: &[S::Part], after: Option<ObjId>) -> Option<Spot>
    requires parts { ArePartsOfRegions (parts_seen S.part_region S.part_rows parts.now) }
    ensures { LeastOfParts (parts_seen S.part_region S.part_rows parts.now)
        (rows_of_parts (parts_seen S.part_region S.part_rows parts.now)) after result }
{
    let mut least = None;
    for place in 0..parts.len() {
        least = lesser(least, least_in_part::<S>(&parts[place], place, after));
    }
    least
}

// The same among the rows of one part.
fn least_in_part<S: Store>(part: &S::Part, place: usize, after: Option<ObjId>) -> Option<Spot>
    requires few { length (S.part_rows part.now) < 2 ^ 32 }
    ensures { LeastInPart (S.part_rows part.now) place after result }
{
    let mut least = None;
    let mut at = 0;
    while let Some(head) = S::part_row(part, at) {
        let spot = Spot {
            name: head.name,
            part: place,
            at,
        };
        least = lesser(least, if_above(spot, after));
        at += 1;
    }
    least
}

// The spot, where its name is above `after`, or no name is given.
fn if_above(spot: Spot, after: Option<ObjId>) -> Option<Spot>
    ensures { result ≡ (if comes_after after spot.name then Some spot else None) }
{
    match after {
        Some(below) if !below.is_below(spot.name) => None,
        Some(_) | None => Some(spot),
    }
}

// The spot of the lesser name, where both are there.
fn lesser(first: Option<Spot>, second: Option<Spot>) -> Option<Spot>
    ensures name { name_found result ≡ lesser_name (name_found first) (name_found second) }
    ensures one { (result ≡ first) ⊎ (result ≡ second) }
{
    match (first, second) {
        (Some(spot), Some(other)) if !spot.name.is_below(other.name) => Some(other),
        (Some(spot), _) => Some(spot),
        (None, other) => other,
    }
}
