//! Bridges, and which region owns which.

ghost use Rattle.std.specs.Prelude.{◌≡◌, List, Some, None, cond};
ghost use Rattle.lf_base.specs.Edges.{field_targets};
ghost use Rattle.lf_base.specs.Names.{targets_of_value};
ghost use Rattle.lf_base.specs.Owners.{has_name, is_in};
ghost use Rattle.lf_base.specs.Owners as owners;
ghost use Rattle.lf_base.specs.PlainState.{State};
ghost use Rattle.lf_barrier.specs.Descents.{region_targets};
ghost use Rattle.lf_domain.specs.Counts.{IsDomain};
ghost use Rattle.lf_graph.specs.StoredRows.{HasRow, fields_at};
ghost use Rattle.lf_regions.specs.declared.region.Region.{Region};

use lf_base::{ObjId, Owner, Steps, Value};
use lf_graph::Store;
use std::sync::ledger::Ledger;

/// The bridge that a value refers to, where it refers to one.
pub fn bridge_of<S: Store, L: Ledger>(store: &S, v: Value, steps: &mut Steps<L>) -> Option<ObjId>
    ensures { (regions : List Region) (s : State) → IsDomain (S.rows store.now) regions s → result ≡ owners.bridge_of s v }
{
    let o = v.object()?;
    bridge_at(store.owner(o, steps), o)
}

// The object, where it names the region in which it lies.
fn bridge_at(owner: Option<Owner>, o: ObjId) -> Option<ObjId>
    ensures { result ≡ cond (is_in o owner) (Some o) None }
{
    match owner {
        Some(Owner::In(r)) => { if o.is_same(r) { Some(o) } else { None } }
        Some(Owner::Local) => None,
        Some(Owner::Frozen) => None,
        None => None,
    }
}

/// Whether a row of region q refers to the object o.
pub fn refers_to<S: Store, L: Ledger>(store: &S, q: ObjId, o: ObjId, steps: &mut Steps<L>) -> bool
    requires domain { (regions : List Region) × ((s : State) × IsDomain (S.rows store.now) regions s) }
    ensures { result ≡ has_name (region_targets (S.rows store.now) q) o }
{
    let mut next = store.first(Owner::In(q), steps);
    while let Some(p) = next {
        if row_refers_to(store, p, o, steps) {
            return true;
        }
        next = store.next(p, steps);
    }
    false
}

// Whether a field of row p does.
fn row_refers_to<S: Store, L: Ledger>(store: &S, p: ObjId, o: ObjId, steps: &mut Steps<L>) -> bool
    requires domain { (regions : List Region) × ((s : State) × IsDomain (S.rows store.now) regions s) }
    requires there { HasRow (S.rows store.now) p }
    ensures { result ≡ has_name (field_targets (fields_at (S.rows store.now) p)) o }
{
    let width = store.width(p, steps);
    let mut last = None;
    for _turn in 0..width {
        let Some((key, v)) = store.field_after(p, last, steps) else {
            unreachable!()
        };
        if is_reference(v, o) {
            return true;
        }
        last = Some(key);
    }
    false
}

// Whether a value refers to the object.
fn is_reference(v: Value, o: ObjId) -> bool
    ensures { result ≡ has_name (targets_of_value v) o }
{
    match v.object() {
        Some(p) => p.is_same(o),
        None => false,
    }
}
