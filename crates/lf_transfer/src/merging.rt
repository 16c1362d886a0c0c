//! A region goes into another one.

ghost use Rattle.std.specs.Prelude.{◌≡◌, ◌+◌, ◌*◌, ◌<◌, ◌≤◌, ◌^◌, ◌∷◌, [], IfOk, None, Some, false, length, true};
ghost use Rattle.lf_base.specs.declared.values.Owner.TheVariants.{In};
ghost use Rattle.lf_base.specs.MergeResult as merges;
ghost use Rattle.lf_base.specs.MergeResult.{merge_fault, merge_refusal, merge_result};
ghost use Rattle.lf_base.specs.Names.{same_name};
ghost use Rattle.lf_base.specs.Owners as owners;
ghost use Rattle.lf_base.specs.Ownership.{owns};
ghost use Rattle.lf_base.specs.PlainState.{State};
ghost use Rattle.lf_barrier.specs.WritePlans.{AnswersAs};
ghost use Rattle.lf_domain.specs.Counts.{CountsOf, IsDomain};
ghost use Rattle.lf_graph.specs.Room.{LowersNone};
ghost use Rattle.lf_graph.specs.StoredRows.{SameByOwner, rows_of};
ghost use Rattle.lf_regions.specs.Regions.{borrowed_of, has_region};
ghost use Rattle.lf_transfer.specs.Merging.{HasMergeRoom, IsMergeOf, Joins};

use crate::bridges::{bridge_of, refers_to};
use crate::giving::{count_cells, give_region};
use crate::merge_plan::MergePlan;
use indexmap::IndexSet;
use lf_barrier::is_below;
use lf_base::{Fault, HeapFail, ObjId, OutOfMemory, Owner, Steps, Value};
use lf_graph::Store;
use lf_regions::RegionTable;
use std::alloc::Global;
use std::sync::ledger::Ledger;

/// Judges the merging of region b into region a, both given by their bridges, and makes
/// room for it: only the room in the store changes. It is refused as `NotBridge` where a
/// value is no bridge; then as `Owned` where b is owned by a cown or by a region other
/// than a; then as `Cycle` where a lies below b, but isn't owned by b directly. A region
/// may be merged into itself, whatever owns it. `OutOfMemory` may come at any time.
///
/// It takes a look at each row of b, and where b has an owner, at a's rows and their
/// fields; what lies below b is walked where a has an owner.
pub fn plan_merge<S: Store, L: Ledger>(
    alloc: Global,
    store: &mut S,
    regions: &RegionTable,
    a: Value,
    b: Value,
    steps: &mut Steps<L>,
) -> Result<MergePlan, HeapFail>
    requires domain { (s : State) × IsDomain (S.rows store.old) regions.now s }
    ensures rows { SameByOwner (S.rows store.new) (S.rows store.old) }
    ensures room { LowersNone (S.spare store.old) (S.spare store.new) }
    ensures answer { (s : State) → IsDomain (S.rows store.old) regions.now s → AnswersAs (merge_refusal s a b) result }
    ensures into { IfOk result (λ plan. (s : State) → IsDomain (S.rows store.old) regions.now s → owners.bridge_of s a ≡ Some plan.into) }
    ensures from { IfOk result (λ plan. (s : State) → IsDomain (S.rows store.old) regions.now s → owners.bridge_of s b ≡ Some plan.from) }
    ensures plan { IfOk result (λ plan. (s : State) → IsDomain (S.rows store.old) regions.now s → IsMergeOf s plan) }
    ensures enough { IfOk result (λ plan. HasMergeRoom (S.spare store.new) (S.rows store.new) plan) }
{
    let Some(into) = bridge_of(store, a, steps) else {
        return Err(HeapFail::Fault(Fault::NotBridge));
    };
    let Some(from) = bridge_of(store, b, steps) else {
        return Err(HeapFail::Fault(Fault::NotBridge));
    };
    if into.is_same(from) {
        return Ok(MergePlan {
            into,
            from,
            is_child: false,
        });
    }
    let is_child = judge(alloc, store, regions, into, from, steps)?;
    let Some(cells) = count_cells(store, from, steps) else {
        return Err(HeapFail::OutOfMemory);
    };
    store.reserve(Owner::In(into), cells)?;
    Ok(MergePlan {
        into,
        from,
        is_child,
    })
}

// What the merging of a region into another one is refused for, or whether the region
// that goes owns the other one directly.
fn judge<S: Store, L: Ledger>(
    alloc: Global,
    store: &S,
    regions: &RegionTable,
    into: ObjId,
    from: ObjId,
    steps: &mut Steps<L>,
) -> Result<bool, HeapFail>
    requires domain { (s : State) × IsDomain (S.rows store.now) regions.now s }
    requires into { has_region regions.now into ≡ true }
    requires from { has_region regions.now from ≡ true }
    requires other { same_name into from ≡ false }
    ensures answer { (s : State) → IsDomain (S.rows store.now) regions.now s → AnswersAs (merge_fault s into from) result }
    ensures child { IfOk result (λ is_child. (s : State) → IsDomain (S.rows store.now) regions.now s → is_child ≡ owns s from into) }
{
    if is_owned_elsewhere(store, regions, into, from, steps) {
        return Err(HeapFail::Fault(Fault::Owned));
    }
    if !regions.is_owned(into) {
        return Ok(false);
    }
    if refers_to(store, from, into, steps) {
        return Ok(true);
    }
    let start = only(alloc, from)?;
    if is_below(store, regions, start, into, steps)? {
        return Err(HeapFail::Fault(Fault::Cycle));
    }
    Ok(false)
}

// Whether region b is owned by a cown, or by a region other than a.
fn is_owned_elsewhere<S: Store, L: Ledger>(
    store: &S,
    regions: &RegionTable,
    a: ObjId,
    b: ObjId,
    steps: &mut Steps<L>,
) -> bool
    requires domain { (s : State) × IsDomain (S.rows store.now) regions.now s }
    requires there { has_region regions.now b ≡ true }
    requires other { same_name a b ≡ false }
    ensures { (s : State) → IsDomain (S.rows store.now) regions.now s → result ≡ merges.is_owned_elsewhere s a b }
{
    if !regions.is_owned(b) {
        return false;
    }
    !refers_to(store, a, b, steps)
}

// One name alone.
fn only(alloc: Global, o: ObjId) -> Result<IndexSet<ObjId>, OutOfMemory>
    ensures { IfOk result (λ names. names.keys ≡ o ∷ []) }
{
    let mut names = IndexSet::new(alloc);
    names.insert(o)?;
    Ok(names)
}

/// Merges a region into another one in the state for which it was planned. It takes no
/// memory and can't fail, and looks at each row that goes once.
pub fn apply_merge<S: Store, L: Ledger>(
    store: &mut S,
    regions: &mut RegionTable,
    plan: MergePlan,
    steps: &mut Steps<L>,
)
    requires planned { (s : State) × (IsDomain (S.rows store.old) regions.old s × IsMergeOf s plan) }
    requires room { HasMergeRoom (S.spare store.old) (S.rows store.old) plan }
    ensures counts { (s : State) → IsDomain (S.rows store.old) regions.old s → IsMergeOf s plan
        → CountsOf (S.rows store.new) regions.new (merge_result s plan.into plan.from) }
    ensures steps { steps.new ≤ steps.old + (1 + 2 * length (rows_of (In plan.from) (S.rows store.old))) }
{
    let MergePlan {
        into,
        from,
        is_child,
    } = plan;
    if into.is_same(from) {
        return;
    }
    give_region(store, from, Owner::In(into), steps);
    join(regions, into, from, is_child);
}

// The borrows of region `from` are those of `into`, and `from` is no region any more. Where
// it owned `into`, nothing owns that.
fn join(regions: &mut RegionTable, into: ObjId, from: ObjId, is_child: bool)
    requires into { has_region regions.old into ≡ true }
    requires from { has_region regions.old from ≡ true }
    requires other { same_name from into ≡ false }
    requires fits { borrowed_of regions.old into + borrowed_of regions.old from < 2 ^ 64 }
    ensures { Joins regions.old regions.new into from is_child }
{
    let borrows = regions.borrowed(from);
    let owned = regions.is_owned(into);
    regions.unborrow(from, borrows);
    regions.set_owned(from, false);
    regions.borrow(into, borrows);
    regions.set_owned(into, !is_child && owned);
    regions.end(from);
}
