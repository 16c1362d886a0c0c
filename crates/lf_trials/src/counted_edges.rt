//! Edges of each kind are counted, and taken out of the counts again.

ghost use Rattle.std.specs.Prelude.{◌≡◌, ◌<◌, [], List, IfOk, OnOk, true};
ghost use Rattle.lf_base.specs.Edges.{Edge};
ghost use Rattle.lf_base.specs.Owners.{is_bridge};
ghost use Rattle.lf_base.specs.PlainChanges.{next_object, object_result, region_result};
ghost use Rattle.lf_base.specs.PlainState.{Row, State};
ghost use Rattle.lf_base.specs.WellFormed.{WellFormed};
ghost use Rattle.lf_domain.specs.Counts.{Counts, CountsOf};
ghost use Rattle.lf_trials.specs.TwoRegions.{two_regions};

use lf_base::{Key, ObjId, OutOfMemory, Owner, Steps, Value};
use lf_domain::callers::write_local;
use lf_domain::{
    count_borrow, count_content, count_inner, uncount_borrow, uncount_content, uncount_inner,
};
use lf_graph::Store;
use lf_regions::RegionTable;
use std::alloc::Global;
use std::sync::ledger::{Blank, Ledger};

pub(crate) const HOME: ObjId = ObjId { birth: 1, seq: 1 };

pub(crate) const CHILD: ObjId = ObjId { birth: 1, seq: 2 };

pub(crate) const LOCAL: ObjId = ObjId { birth: 1, seq: 3 };

// The edges to a bridge, the borrows of its region, and whether it is owned.
pub(crate) fn told<S: Store, L: Ledger>(
    store: &S,
    regions: &RegionTable,
    bridge: ObjId,
    steps: &mut Steps<L>,
) -> (u64, u64, bool)
    requires { (of : List Row) × ((es : List Edge) × (Counts (S.rows store.now) regions.now of es × (is_bridge of bridge ≡ true))) }
{
    (
        store.refs(bridge, steps),
        regions.borrowed(bridge),
        regions.is_owned(bridge),
    )
}

// Makes a region of the next name.
fn add_region<S: Store, L: Ledger>(
    store: &mut S,
    regions: &mut RegionTable,
    name: ObjId,
    steps: &mut Steps<L>,
) -> Result<(), OutOfMemory>
    requires next { (s : State) × (WellFormed s × (CountsOf (S.rows store.old) regions.old s × (name ≡ next_object s))) }
    ensures made { (s : State) → WellFormed s → CountsOf (S.rows store.old) regions.old s → name ≡ next_object s
        → OnOk result (CountsOf (S.rows store.new) regions.new (region_result s)) }
{
    store.reserve(Owner::In(name), 1)?;
    regions.make(name)?;
    store.insert(name, Owner::In(name), steps);
    Ok(())
}

// Makes a local object of the next name.
pub(crate) fn add_object<S: Store, L: Ledger>(
    store: &mut S,
    regions: &RegionTable,
    name: ObjId,
    steps: &mut Steps<L>,
) -> Result<(), OutOfMemory>
    requires next { (s : State) × (WellFormed s × (CountsOf (S.rows store.old) regions.now s × (name ≡ next_object s))) }
    ensures made { (s : State) → WellFormed s → CountsOf (S.rows store.old) regions.now s → name ≡ next_object s
        → OnOk result (CountsOf (S.rows store.new) regions.now (object_result s)) }
{
    store.reserve(Owner::Local, 1)?;
    store.insert(name, Owner::Local, steps);
    Ok(())
}

// Two regions without edges.
pub(crate) fn made_regions<S: Store, L: Ledger>(
    alloc: Global,
    steps: &mut Steps<L>,
) -> Result<(S, RegionTable), OutOfMemory>
    ensures { IfOk result (λ made. CountsOf (S.rows made.0) made.1 two_regions) }
{
    let mut store = S::new(alloc)?;
    let mut regions = RegionTable::new(alloc)?;
    add_region(&mut store, &mut regions, HOME, steps)?;
    add_region(&mut store, &mut regions, CHILD, steps)?;
    Ok((store, regions))
}

// Whether edges to a bridge from a slot and from a row of another region are counted
// one after the other, and taken out of the counts in the same order.
fn counts_borrow_and_owner<S: Store, L: Ledger>(
    alloc: Global,
    steps: &mut Steps<L>,
) -> Result<bool, OutOfMemory> {
    let (mut store, mut regions) = made_regions::<S, L>(alloc, steps)?;
    let child = Some(Value::Obj(CHILD));
    count_borrow(&mut store, &mut regions, child, steps);
    let borrowed = told(&store, &regions, CHILD, steps) == (1, 1, false);
    count_inner(&mut store, &mut regions, child, HOME, steps);
    let owned = told(&store, &regions, CHILD, steps) == (2, 1, true);
    uncount_borrow(&mut store, &mut regions, child, steps);
    let left = told(&store, &regions, CHILD, steps) == (1, 0, true);
    uncount_inner(&mut store, &mut regions, child, HOME, steps);
    let none = told(&store, &regions, CHILD, steps) == (0, 0, false);
    Ok(borrowed && owned && left && none)
}

// Whether the edge of a content is counted, and taken out of the counts.
fn counts_content<S: Store, L: Ledger>(
    alloc: Global,
    steps: &mut Steps<L>,
) -> Result<bool, OutOfMemory> {
    let (mut store, mut regions) = made_regions::<S, L>(alloc, steps)?;
    let home = Some(Value::Obj(HOME));
    count_content(&mut store, &mut regions, home, steps);
    let owned = told(&store, &regions, HOME, steps) == (1, 0, true);
    uncount_content(&mut store, &mut regions, home, steps);
    let none = told(&store, &regions, HOME, steps) == (0, 0, false);
    Ok(owned && none)
}

// Whether the edge of a local row's field is counted where it is written.
fn counts_local_write<S: Store, L: Ledger>(
    alloc: Global,
    steps: &mut Steps<L>,
) -> Result<bool, OutOfMemory> {
    let (mut store, mut regions) = made_regions::<S, L>(alloc, steps)?;
    add_object(&mut store, &regions, LOCAL, steps)?;
    store.reserve(Owner::Local, 1)?;
    write_local(
        &mut store,
        &mut regions,
        LOCAL,
        Key::Int(0),
        Value::Obj(CHILD),
        steps,
    );
    Ok(told(&store, &regions, CHILD, steps) == (1, 1, false))
}

/// Whether edges from slots, from rows of regions and from contents are counted, and
/// taken out of the counts again. After `OutOfMemory`, which a store may answer at any
/// call that takes memory, nothing is told.
pub fn counts_edges<S: Store, L: Ledger>(alloc: Global, blank: Blank) -> Result<bool, OutOfMemory>
    requires name { blank.name ≡ L.name }
    requires parts { blank.parts ≡ L.parts }
    requires some { 0 < L.parts }
{
    let mut steps = Steps::<L>::new(blank);
    let borrows_and_owners = counts_borrow_and_owner::<S, L>(alloc, &mut steps)?;
    let contents = counts_content::<S, L>(alloc, &mut steps)?;
    let written = counts_local_write::<S, L>(alloc, &mut steps)?;
    Ok(borrows_and_owners && contents && written)
}
