//! A write is judged, and room is made for it.

ghost use Rattle.std.specs.Prelude.{◌≡◌, ◌+◌, ◌≤◌, IfOk, IfSome, None, Some, true};
ghost use Rattle.std.specs.List.{sum_by};
ghost use Rattle.lf_base.specs.declared.ids.ObjId.{ObjId as Name};
ghost use Rattle.lf_base.specs.declared.values.Owner.TheVariants.{In, Local};
ghost use Rattle.lf_base.specs.Owners.{has_name};
ghost use Rattle.lf_base.specs.PlainState.{State};
ghost use Rattle.lf_base.specs.TouchedEdges.{WritesInto};
ghost use Rattle.lf_base.specs.WriteResult.{write_refusal};
ghost use Rattle.lf_barrier.specs.WritePlans.{AnswersAs, HasRoomFor, IsAsked, IsPlanFor};
ghost use Rattle.lf_graph.specs.Room.{LowersNone, room_for_row};
ghost use Rattle.lf_graph.specs.StoredRows.{HasRow, SameByOwner, owner_at};

use crate::descent::is_below;
use crate::names::no_names;
use crate::plan::WritePlan;
use crate::survey::{Survey, WritePlace, survey_write};
use indexmap::IndexSet;
use lf_base::{Fault, HeapFail, Key, ObjId, Owner, Steps, Value};
use lf_domain::target_of;
use lf_graph::Store;
use lf_regions::RegionTable;
use std::alloc::Global;
use std::sync::ledger::Ledger;

/// Judges a write of a field, and makes room for it: only the room in the store changes.
/// A target without a mutable row is refused as `FrozenWrite`. Where the target lies in a
/// region, the write is refused for the first of these that its result would show
/// anywhere, with what moves in that region and without the old edge: an edge that leads
/// inside another region (`Interior`), a bridge with two owners (`SecondOwner`), owners
/// that go round (`Cycle`). `OutOfMemory` may come at any time.
///
/// Each row that moves is looked at once, and each of its fields once. What bridges own is
/// walked where the write touches one and something owns the target's region.
pub fn plan_write<S: Store, L: Ledger>(
    alloc: Global,
    store: &mut S,
    regions: &RegionTable,
    target: ObjId,
    key: Key,
    value: Value,
    steps: &mut Steps<L>,
) -> Result<WritePlan, HeapFail>
    requires asked { (s : State) × IsAsked (S.rows store.old) regions.now s target value }
    ensures rows { SameByOwner (S.rows store.new) (S.rows store.old) }
    ensures room { LowersNone (S.spare store.old) (S.spare store.new) }
    ensures answer { (s : State) → IsAsked (S.rows store.old) regions.now s target value
        → AnswersAs (write_refusal s target key value) result }
    ensures target { IfOk result (λ plan. plan.target ≡ target) }
    ensures key { IfOk result (λ plan. plan.key ≡ key) }
    ensures value { IfOk result (λ plan. plan.value ≡ value) }
    ensures plan { IfOk result (λ plan. (s : State) → IsAsked (S.rows store.old) regions.now s target value → IsPlanFor s plan) }
    ensures enough { IfOk result (λ plan. HasRoomFor (S.spare store.new) (S.rows store.new) plan) }
{
    let Some(owner) = store.owner(target, steps) else {
        return Err(HeapFail::Fault(Fault::FrozenWrite));
    };
    match owner {
        Owner::Local => plan_local(alloc, store, regions, target, key, value),
        Owner::In(home) => plan_inside(alloc, store, regions, home, target, key, value, steps),
        Owner::Frozen => Err(HeapFail::Fault(Fault::FrozenWrite)),
    }
}

// Plans a write to a local row, which is never refused.
fn plan_local<S: Store>(
    alloc: Global,
    store: &mut S,
    regions: &RegionTable,
    target: ObjId,
    key: Key,
    value: Value,
) -> Result<WritePlan, HeapFail>
    requires asked { (s : State) × IsAsked (S.rows store.old) regions.now s target value }
    requires here { owner_at (S.rows store.old) target ≡ Some Local }
    ensures rows { SameByOwner (S.rows store.new) (S.rows store.old) }
    ensures room { LowersNone (S.spare store.old) (S.spare store.new) }
    ensures answer { (s : State) → IsAsked (S.rows store.old) regions.now s target value
        → AnswersAs (write_refusal s target key value) result }
    ensures target { IfOk result (λ plan. plan.target ≡ target) }
    ensures key { IfOk result (λ plan. plan.key ≡ key) }
    ensures value { IfOk result (λ plan. plan.value ≡ value) }
    ensures plan { IfOk result (λ plan. (s : State) → IsAsked (S.rows store.old) regions.now s target value → IsPlanFor s plan) }
    ensures enough { IfOk result (λ plan. HasRoomFor (S.spare store.new) (S.rows store.new) plan) }
{
    store.reserve(Owner::Local, 1)?;
    Ok(WritePlan {
        target,
        key,
        value,
        home: None,
        moved: no_names(alloc),
    })
}

// Plans a write to a row of the region `home`.
fn plan_inside<S: Store, L: Ledger>(
    alloc: Global,
    store: &mut S,
    regions: &RegionTable,
    home: ObjId,
    target: ObjId,
    key: Key,
    value: Value,
    steps: &mut Steps<L>,
) -> Result<WritePlan, HeapFail>
    requires asked { (s : State) × IsAsked (S.rows store.old) regions.now s target value }
    requires here { owner_at (S.rows store.old) target ≡ Some (In home) }
    ensures rows { SameByOwner (S.rows store.new) (S.rows store.old) }
    ensures room { LowersNone (S.spare store.old) (S.spare store.new) }
    ensures answer { (s : State) → IsAsked (S.rows store.old) regions.now s target value
        → AnswersAs (write_refusal s target key value) result }
    ensures target { IfOk result (λ plan. plan.target ≡ target) }
    ensures key { IfOk result (λ plan. plan.key ≡ key) }
    ensures value { IfOk result (λ plan. plan.value ≡ value) }
    ensures plan { IfOk result (λ plan. (s : State) → IsAsked (S.rows store.old) regions.now s target value → IsPlanFor s plan) }
    ensures enough { IfOk result (λ plan. HasRoomFor (S.spare store.new) (S.rows store.new) plan) }
{
    let moved = judge(alloc, store, regions, home, target, key, value, steps)?;
    let Some(cells) = room_for(store, moved.as_slice(), steps) else {
        return Err(HeapFail::OutOfMemory);
    };
    store.reserve(Owner::In(home), cells)?;
    Ok(WritePlan {
        target,
        key,
        value,
        home: Some(home),
        moved,
    })
}

// What a write to a row of the region `home` is refused for, or the names of the rows
// that move with it.
fn judge<S: Store, L: Ledger>(
    alloc: Global,
    store: &S,
    regions: &RegionTable,
    home: ObjId,
    target: ObjId,
    key: Key,
    value: Value,
    steps: &mut Steps<L>,
) -> Result<IndexSet<ObjId>, HeapFail>
    requires asked { (s : State) × IsAsked (S.rows store.now) regions.now s target value }
    requires here { owner_at (S.rows store.now) target ≡ Some (In home) }
    ensures answer { (s : State) → IsAsked (S.rows store.now) regions.now s target value
        → AnswersAs (write_refusal s target key value) result }
    ensures moved { IfOk result (λ moved. (s : State) → IsAsked (S.rows store.now) regions.now s target value
        → WritesInto s target value home moved.keys) }
{
    let old = target_of(store.field(target, key, steps));
    let Survey {
        moved,
        touched,
        inside,
        second,
    } = survey_write(
        alloc,
        store,
        regions,
        WritePlace { home, old },
        value,
        steps,
    )?;
    if inside {
        return Err(HeapFail::Fault(Fault::Interior));
    }
    if second {
        return Err(HeapFail::Fault(Fault::SecondOwner));
    }
    if is_below(store, regions, touched, home, steps)? {
        return Err(HeapFail::Fault(Fault::Cycle));
    }
    Ok(moved)
}

// The cells that the rows of these names and one field need, where they can be counted.
fn room_for<S: Store, L: Ledger>(store: &S, moved: &[ObjId], steps: &mut Steps<L>) -> Option<usize>
    requires there { (o : Name) → has_name moved.now o ≡ true → HasRow (S.rows store.now) o }
    ensures { IfSome result (λ cells. cells ≡ 1 + sum_by (room_for_row (S.rows store.now)) moved.now) }
{
    let mut cells: usize = 1;
    for o in moved {
        let width = store.width(*o, steps) as usize;
        cells = cells.checked_add(width)?.checked_add(1)?;
    }
    Some(cells)
}
