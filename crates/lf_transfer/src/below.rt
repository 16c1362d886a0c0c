//! The regions below one, found by its rows without memory.

ghost use Rattle.std.specs.Prelude.{◌≡◌, ◌≤◌, ◌<◌, ◌+◌, ◌∷◌, [], List, Some, false, length, slice_get, true};
ghost use Rattle.indexmap.specs.IndexSet.{spare};
ghost use Rattle.lf_base.specs.declared.ids.ObjId.{ObjId as Name};
ghost use Rattle.lf_base.specs.Edges.{field_targets};
ghost use Rattle.lf_base.specs.Names.{targets_of_value};
ghost use Rattle.lf_base.specs.Owners.{has_name, is_bridge};
ghost use Rattle.lf_base.specs.Ownership as ownership;
ghost use Rattle.lf_base.specs.PlainState.{State};
ghost use Rattle.lf_barrier.specs.Descents.{is_child, region_targets};
ghost use Rattle.lf_barrier.specs.Surveys.{names_with};
ghost use Rattle.lf_domain.specs.Counts.{IsDomain};
ghost use Rattle.lf_graph.specs.StoredRows.{HasRow, fields_at};
ghost use Rattle.lf_regions.specs.declared.region.Region.{Region};
ghost use Rattle.lf_transfer.specs.Below.{FindsBridges, HoldsRowNames};

use crate::names::has;
use indexmap::IndexSet;
use lf_base::{ObjId, Owner, Steps, Value};
use lf_graph::Store;
use std::sync::ledger::Ledger;

/// Puts region r and all regions below it into a set that is empty. It needs room for as
/// many names as there are rows, takes no memory and can't fail: the set can hold as many
/// names afterwards.
///
/// It looks at each row of these regions, and at each of its fields, once.
pub fn find_below<S: Store, L: Ledger>(
    store: &S,
    below: &mut IndexSet<ObjId>,
    r: ObjId,
    steps: &mut Steps<L>,
)
    requires region { (regions : List Region) × ((s : State) × (IsDomain (S.rows store.now) regions s
        × ((is_bridge s.rows r ≡ true) × (length s.rows ≤ spare below.old)))) }
    requires empty { below.old.keys ≡ [] }
    ensures names { (regions : List Region) (s : State) → IsDomain (S.rows store.now) regions s → is_bridge s.rows r ≡ true
        → (q : Name) → has_name below.new.keys q ≡ has_name (r ∷ ownership.below s r) q }
    ensures capacity { spare below.old ≤ length below.new.keys + spare below.new }
{
    put(below, r);
    let mut at = 0;
    while at < below.len() {
        let q = found_at(below, at);
        look_into_region(store, below, q, steps);
        at += 1;
    }
}

// The name at a place where there is one.
fn found_at(names: &IndexSet<ObjId>, place: usize) -> ObjId
    requires { place < length names.now.keys }
    ensures { slice_get names.now.keys place ≡ Some result }
{
    match names.get_index(place) {
        Some(&name) => name,
        None => unreachable!(),
    }
}

// Puts the bridges of other regions to which the rows of region q refer into the set.
fn look_into_region<S: Store, L: Ledger>(
    store: &S,
    below: &mut IndexSet<ObjId>,
    q: ObjId,
    steps: &mut Steps<L>,
)
    requires domain { (regions : List Region) × ((s : State) × IsDomain (S.rows store.now) regions s) }
    requires room { HoldsRowNames (S.rows store.now) below.old }
    ensures { FindsBridges (S.rows store.now) q (region_targets (S.rows store.now) q) below.old below.new }
{
    let mut next = store.first(Owner::In(q), steps);
    while let Some(p) = next {
        look_into_row(store, below, p, q, steps);
        next = store.next(p, steps);
    }
}

// The same of the fields of row p.
fn look_into_row<S: Store, L: Ledger>(
    store: &S,
    below: &mut IndexSet<ObjId>,
    p: ObjId,
    q: ObjId,
    steps: &mut Steps<L>,
)
    requires domain { (regions : List Region) × ((s : State) × IsDomain (S.rows store.now) regions s) }
    requires there { HasRow (S.rows store.now) p }
    requires room { HoldsRowNames (S.rows store.now) below.old }
    ensures { FindsBridges (S.rows store.now) q (field_targets (fields_at (S.rows store.now) p)) below.old below.new }
{
    let width = store.width(p, steps);
    let mut last = None;
    for _turn in 0..width {
        let Some((key, v)) = store.field_after(p, last, steps) else {
            unreachable!()
        };
        look_at_value(store, below, v, q, steps);
        last = Some(key);
    }
}

// The same of a value.
fn look_at_value<S: Store, L: Ledger>(
    store: &S,
    below: &mut IndexSet<ObjId>,
    v: Value,
    q: ObjId,
    steps: &mut Steps<L>,
)
    requires room { HoldsRowNames (S.rows store.now) below.old }
    ensures { FindsBridges (S.rows store.now) q (targets_of_value v) below.old below.new }
{
    if let Some(o) = v.object() {
        look_at(store, below, o, q, steps);
    }
}

// The same of an object.
fn look_at<S: Store, L: Ledger>(
    store: &S,
    below: &mut IndexSet<ObjId>,
    o: ObjId,
    q: ObjId,
    steps: &mut Steps<L>,
)
    requires room { HoldsRowNames (S.rows store.now) below.old }
    ensures { FindsBridges (S.rows store.now) q (o ∷ []) below.old below.new }
{
    if is_bridge_of_other(store.owner(o, steps), o, q) {
        put(below, o);
    }
}

// Whether an object of that owner is the bridge of a region other than q.
fn is_bridge_of_other(owner: Option<Owner>, o: ObjId, q: ObjId) -> bool
    ensures { result ≡ is_child q o owner }
{
    match owner {
        Some(Owner::In(r)) => r.is_same(o) && !q.is_same(o),
        Some(Owner::Local | Owner::Frozen) | None => false,
    }
}

// Puts a name last among names, where it isn't there yet and there is room.
fn put(names: &mut IndexSet<ObjId>, o: ObjId)
    requires room { has_name names.old.keys o ≡ false → 0 < spare names.old }
    ensures names { names.new.keys ≡ names_with names.old.keys o }
    ensures capacity { length names.old.keys + spare names.old ≤ length names.new.keys + spare names.new }
{
    if !has(names, o) {
        put_new(names, o);
    }
}

// The same of a name that isn't there.
fn put_new(names: &mut IndexSet<ObjId>, o: ObjId)
    requires room { 0 < spare names.old }
    ensures names { names.new.keys ≡ names_with names.old.keys o }
    ensures spare { spare names.old ≤ spare names.new + 1 }
{
    match names.insert(o) {
        Ok(_is_new) => {}
        Err(_wanted) => unreachable!(),
    }
}
