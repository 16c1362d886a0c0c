//! What regions own, walked from the bridges that a write touches down to its target's
//! region.

ghost use Rattle.std.specs.Prelude.{◌≡◌, ◌&&◌, IfOk, List, OnOk, Some, cond, not, true};
ghost use Rattle.lf_base.specs.declared.ids.ObjId.{ObjId as Name};
ghost use Rattle.lf_base.specs.declared.values.Owner.TheVariants.{In};
ghost use Rattle.lf_base.specs.Edges.{field_targets};
ghost use Rattle.lf_base.specs.Names.{same_name, targets_of_value};
ghost use Rattle.lf_base.specs.Owners.{has_name};
ghost use Rattle.lf_base.specs.PlainState.{State};
ghost use Rattle.lf_barrier.specs.Descents.{IsBelow, Looked, is_child, region_targets};
ghost use Rattle.lf_barrier.specs.Surveys.{is_other_bridge, names_with};
ghost use Rattle.lf_domain.specs.Counts.{IsDomain};
ghost use Rattle.lf_graph.specs.StoredRows.{HasRow, fields_at, owner_at};
ghost use Rattle.lf_regions.specs.declared.region.Region.{Region};
ghost use Rattle.lf_regions.specs.Regions.{has_region};

use crate::names::{add, name_at};
use indexmap::IndexSet;
use lf_base::{ObjId, OutOfMemory, Owner, Steps, Value};
use lf_graph::Store;
use lf_regions::RegionTable;
use std::sync::ledger::Ledger;

/// Whether one of these bridges is above the region `home`: whether its region owns
/// that one, directly or through others. No walk begins where nothing owns it, or where
/// there are no bridges.
pub fn is_below<S: Store, L: Ledger>(
    store: &S,
    regions: &RegionTable,
    bridges: IndexSet<ObjId>,
    home: ObjId,
    steps: &mut Steps<L>,
) -> Result<bool, OutOfMemory>
    requires domain { (s : State) × IsDomain (S.rows store.now) regions.now s }
    requires bridges { (b : Name) → has_name bridges.keys b ≡ true → is_other_bridge home b (owner_at (S.rows store.now) b) ≡ true }
    requires home { has_region regions.now home ≡ true }
    ensures { IfOk result (λ is_below. (s : State) → IsDomain (S.rows store.now) regions.now s → IsBelow s bridges.keys home is_below) }
{
    if !regions.is_owned(home) {
        return Ok(false);
    }
    let mut visited = bridges;
    for at in 0..usize::MAX {
        let Some(r) = name_at(&visited, at) else {
            return Ok(false);
        };
        if look_into_region(store, &mut visited, r, home, steps)? {
            return Ok(true);
        }
    }
    Err(OutOfMemory)
}

// Puts the bridges that region r owns among the visited ones, and tells whether it owns
// `home`.
fn look_into_region<S: Store, L: Ledger>(
    store: &S,
    visited: &mut IndexSet<ObjId>,
    r: ObjId,
    home: ObjId,
    steps: &mut Steps<L>,
) -> Result<bool, OutOfMemory>
    requires domain { (regions : List Region) × ((s : State) × IsDomain (S.rows store.now) regions s) }
    ensures { IfOk result (λ found. Looked (S.rows store.now) r home (region_targets (S.rows store.now) r)
        visited.old.keys visited.new.keys found) }
{
    let mut next = store.first(Owner::In(r), steps);
    for _turn in 0..usize::MAX {
        let Some(p) = next else {
            return Ok(false);
        };
        if look_into_row(store, visited, p, r, home, steps)? {
            return Ok(true);
        }
        next = store.next(p, steps);
    }
    Err(OutOfMemory)
}

// The same of the fields of row p of region r.
fn look_into_row<S: Store, L: Ledger>(
    store: &S,
    visited: &mut IndexSet<ObjId>,
    p: ObjId,
    r: ObjId,
    home: ObjId,
    steps: &mut Steps<L>,
) -> Result<bool, OutOfMemory>
    requires domain { (regions : List Region) × ((s : State) × IsDomain (S.rows store.now) regions s) }
    requires there { HasRow (S.rows store.now) p }
    ensures { IfOk result (λ found. Looked (S.rows store.now) r home (field_targets (fields_at (S.rows store.now) p))
        visited.old.keys visited.new.keys found) }
{
    let width = store.width(p, steps);
    let mut last = None;
    for _turn in 0..width {
        let Some((key, v)) = store.field_after(p, last, steps) else {
            unreachable!()
        };
        if look_at_value(store, visited, v, r, home, steps)? {
            return Ok(true);
        }
        last = Some(key);
    }
    Ok(false)
}

// The same of a value.
fn look_at_value<S: Store, L: Ledger>(
    store: &S,
    visited: &mut IndexSet<ObjId>,
    v: Value,
    r: ObjId,
    home: ObjId,
    steps: &mut Steps<L>,
) -> Result<bool, OutOfMemory>
    ensures { IfOk result (λ found. Looked (S.rows store.now) r home (targets_of_value v) visited.old.keys visited.new.keys found) }
{
    match v.object() {
        Some(o) => {
            let found = look_at(store, visited, o, r, home, steps)?;
            Ok(found)
        }
        None => Ok(false),
    }
}

// The same of an object.
fn look_at<S: Store, L: Ledger>(
    store: &S,
    visited: &mut IndexSet<ObjId>,
    o: ObjId,
    r: ObjId,
    home: ObjId,
    steps: &mut Steps<L>,
) -> Result<bool, OutOfMemory>
    ensures found { IfOk result (λ found. found ≡ (is_child r o (owner_at (S.rows store.now) o) && same_name o home)) }
    ensures visited { OnOk result (visited.new.keys
        ≡ cond (is_child r o (owner_at (S.rows store.now) o) && not (same_name o home)) (names_with visited.old.keys o) visited.old.keys) }
{
    let Some(owner) = store.owner(o, steps) else {
        return Ok(false);
    };
    match owner {
        Owner::Local => Ok(false),
        Owner::In(q) => look_at_row(visited, o, q, r, home),
        Owner::Frozen => Ok(false),
    }
}

// The same of a row of region q.
fn look_at_row(
    visited: &mut IndexSet<ObjId>,
    o: ObjId,
    q: ObjId,
    r: ObjId,
    home: ObjId,
) -> Result<bool, OutOfMemory>
    ensures found { IfOk result (λ found. found ≡ (is_child r o (Some (In q)) && same_name o home)) }
    ensures visited { OnOk result (visited.new.keys
        ≡ cond (is_child r o (Some (In q)) && not (same_name o home)) (names_with visited.old.keys o) visited.old.keys) }
{
    if !q.is_same(o) || r.is_same(o) {
        return Ok(false);
    }
    if o.is_same(home) {
        return Ok(true);
    }
    add(visited, o)?;
    Ok(false)
}
