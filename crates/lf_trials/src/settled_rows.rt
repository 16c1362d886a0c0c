//! What settling drops, and what it leaves: a region goes with the cycle inside it, the
//! child that is borrowed lives on, and so does a cycle of local rows.

ghost use Rattle.std.specs.Prelude.{◌≡◌, ◌<◌, List, IfOk, OnOk, Some};
ghost use Rattle.lf_base.specs.declared.values.Owner.TheVariants as owner_of_row;
ghost use Rattle.lf_base.specs.Edges.{Edge};
ghost use Rattle.lf_base.specs.Owners.{owner_in};
ghost use Rattle.lf_base.specs.PlainState.{Row};
ghost use Rattle.lf_base.specs.WriteResult.{write_fields};
ghost use Rattle.lf_domain.specs.Counts.{Counts, CountsOf};
ghost use Rattle.lf_trials.specs.SettledRows.{first, four_edges, local_cycle, object_in_slot, owner_and_child};
ghost use Rattle.lf_trials.specs.TwoRegions.{two_regions};

use crate::counted_edges::{CHILD, HOME, add_object, made_regions, told};
use lf_base::{Key, ObjId, OutOfMemory, Owner, Steps, Value};
use lf_domain::callers::write_local;
use lf_domain::{count_borrow, count_inner};
use lf_graph::Store;
use lf_regions::RegionTable;
use lf_settle::Work;
use lf_settle::callers::unset_slot;
use std::alloc::Global;
use std::sync::ledger::{Blank, Ledger};

const FIRST: ObjId = HOME;

const SECOND: ObjId = CHILD;

// Sets a field of the first bridge, whose edge is counted already.
fn put_field<S: Store, L: Ledger>(
    store: &mut S,
    regions: &RegionTable,
    key: Key,
    v: Value,
    steps: &mut Steps<L>,
) -> Result<(), OutOfMemory>
    requires may { (of : List Row) × ((es : List Edge) × (Counts (S.rows store.old) regions.now of es
        × (owner_in of first ≡ Some (owner_of_row.In first)))) }
    ensures put { (of : List Row) (es : List Edge) → Counts (S.rows store.old) regions.now of es
        → owner_in of first ≡ Some (owner_of_row.In first)
        → OnOk result (Counts (S.rows store.new) regions.now (write_fields of first key v) es) }
{
    store.reserve(Owner::In(FIRST), 1)?;
    store.set_field(FIRST, key, v, steps);
    Ok(())
}

// Counts two slots that hold the regions, and two fields of the first bridge, which
// lead to itself and to the second one.
fn count_edges<S: Store, L: Ledger>(store: &mut S, regions: &mut RegionTable, steps: &mut Steps<L>)
    requires { CountsOf (S.rows store.old) regions.old two_regions }
    ensures { Counts (S.rows store.new) regions.new two_regions.rows four_edges }
{
    count_borrow(store, regions, Some(Value::Obj(FIRST)), steps);
    count_borrow(store, regions, Some(Value::Obj(SECOND)), steps);
    count_inner(store, regions, Some(Value::Obj(FIRST)), FIRST, steps);
    count_inner(store, regions, Some(Value::Obj(SECOND)), FIRST, steps);
}

// Two regions in slots, the first of which has a cycle and owns the second one.
fn made_owner<S: Store, L: Ledger>(
    alloc: Global,
    steps: &mut Steps<L>,
) -> Result<(S, RegionTable), OutOfMemory>
    ensures { IfOk result (λ made. CountsOf (S.rows made.0) made.1 owner_and_child) }
{
    let (mut store, mut regions) = made_regions::<S, L>(alloc, steps)?;
    count_edges(&mut store, &mut regions, steps);
    put_field(&mut store, &regions, Key::Int(0), Value::Obj(FIRST), steps)?;
    put_field(&mut store, &regions, Key::Int(1), Value::Obj(SECOND), steps)?;
    Ok((store, regions))
}

// Whether a region that no slot holds any more goes with the cycle inside it, and the
// child that a slot borrows lives on without owner.
fn region_goes<S: Store, L: Ledger>(
    alloc: Global,
    steps: &mut Steps<L>,
) -> Result<bool, OutOfMemory> {
    let (mut store, mut regions) = made_owner::<S, L>(alloc, steps)?;
    let mut work = Work::new(alloc);
    work.reserve(4)?;
    let held = Some(Value::Obj(FIRST));
    unset_slot(&mut store, &mut regions, &mut work, held, steps);
    let is_gone = store.owner(FIRST, steps).is_none();
    Ok(is_gone && told(&store, &regions, SECOND, steps) == (1, 1, false))
}

// Two local objects, the first of which a slot holds.
fn made_objects<S: Store, L: Ledger>(
    alloc: Global,
    steps: &mut Steps<L>,
) -> Result<(S, RegionTable), OutOfMemory>
    ensures { IfOk result (λ made. CountsOf (S.rows made.0) made.1 object_in_slot) }
{
    let mut store = S::new(alloc)?;
    let mut regions = RegionTable::new(alloc)?;
    add_object(&mut store, &regions, FIRST, steps)?;
    add_object(&mut store, &regions, SECOND, steps)?;
    count_borrow(&mut store, &mut regions, Some(Value::Obj(FIRST)), steps);
    Ok((store, regions))
}

// The same, where each leads to the other.
fn made_cycle<S: Store, L: Ledger>(
    alloc: Global,
    steps: &mut Steps<L>,
) -> Result<(S, RegionTable), OutOfMemory>
    ensures { IfOk result (λ made. CountsOf (S.rows made.0) made.1 local_cycle) }
{
    let (mut store, mut regions) = made_objects::<S, L>(alloc, steps)?;
    let key = Key::Int(0);
    store.reserve(Owner::Local, 1)?;
    write_local(
        &mut store,
        &mut regions,
        FIRST,
        key,
        Value::Obj(SECOND),
        steps,
    );
    store.reserve(Owner::Local, 1)?;
    write_local(
        &mut store,
        &mut regions,
        SECOND,
        key,
        Value::Obj(FIRST),
        steps,
    );
    Ok((store, regions))
}

// Whether a cycle of local rows lives that no slot holds any more.
fn local_cycle_lives<S: Store, L: Ledger>(
    alloc: Global,
    steps: &mut Steps<L>,
) -> Result<bool, OutOfMemory> {
    let (mut store, mut regions) = made_cycle::<S, L>(alloc, steps)?;
    let mut work = Work::new(alloc);
    work.reserve(4)?;
    let held = Some(Value::Obj(FIRST));
    unset_slot(&mut store, &mut regions, &mut work, held, steps);
    let first = store.owner(FIRST, steps);
    let second = store.owner(SECOND, steps);
    Ok(first == Some(Owner::Local) && second == Some(Owner::Local))
}

/// Whether what must go goes and what stays is left. After `OutOfMemory`, which a store
/// may answer at any call that takes memory, nothing is told.
pub fn settles_rows<S: Store, L: Ledger>(alloc: Global, blank: Blank) -> Result<bool, OutOfMemory>
    requires name { blank.name ≡ L.name }
    requires parts { blank.parts ≡ L.parts }
    requires some { 0 < L.parts }
{
    let mut steps = Steps::<L>::new(blank);
    let goes = region_goes::<S, L>(alloc, &mut steps)?;
    let lives = local_cycle_lives::<S, L>(alloc, &mut steps)?;
    Ok(goes && lives)
}
