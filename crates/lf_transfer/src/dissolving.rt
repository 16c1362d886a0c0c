//! A region is dissolved: its rows turn local.

ghost use Rattle.std.specs.Prelude.{◌≡◌, ◌+◌, ◌*◌, ◌≤◌, IfOk, Some};
ghost use Rattle.lf_base.specs.DissolveResult.{dissolve_refusal, dissolve_result};
ghost use Rattle.lf_base.specs.Owners as owners;
ghost use Rattle.lf_base.specs.PlainState.{State};
ghost use Rattle.lf_barrier.specs.WritePlans.{AnswersAs};
ghost use Rattle.lf_domain.specs.Counts.{CountsOf, IsDomain};
ghost use Rattle.lf_graph.specs.Room.{LowersNone};
ghost use Rattle.lf_graph.specs.StoredRows.{SameByOwner};
ghost use Rattle.lf_transfer.specs.Dissolving.{HasDissolveRoom, IsDissolveOf};
ghost use Rattle.lf_transfer.specs.RegionRows.{region_cells};

use crate::bridges::bridge_of;
use crate::dissolve_plan::DissolvePlan;
use crate::giving::{count_cells, give_region};
use crate::localizing::localize_region;
use lf_base::{Fault, HeapFail, Owner, Steps, Value};
use lf_graph::Store;
use lf_regions::RegionTable;
use std::sync::ledger::Ledger;

/// Judges the dissolving of the region of a bridge, and makes room for it: only the room
/// in the store changes. It is refused as `NotBridge` where the value is no bridge, and
/// then as `Owned` where the region has an owner. `OutOfMemory` may come at any time.
///
/// It takes a look at each row of the region.
pub fn plan_dissolve<S: Store, L: Ledger>(
    store: &mut S,
    regions: &RegionTable,
    r: Value,
    steps: &mut Steps<L>,
) -> Result<DissolvePlan, HeapFail>
    requires domain { (s : State) × IsDomain (S.rows store.old) regions.now s }
    ensures rows { SameByOwner (S.rows store.new) (S.rows store.old) }
    ensures room { LowersNone (S.spare store.old) (S.spare store.new) }
    ensures answer { (s : State) → IsDomain (S.rows store.old) regions.now s → AnswersAs (dissolve_refusal s r) result }
    ensures region { IfOk result (λ plan. (s : State) → IsDomain (S.rows store.old) regions.now s
        → owners.bridge_of s r ≡ Some plan.region) }
    ensures plan { IfOk result (λ plan. (s : State) → IsDomain (S.rows store.old) regions.now s → IsDissolveOf s plan) }
    ensures enough { IfOk result (λ plan. HasDissolveRoom (S.spare store.new) (S.rows store.new) plan) }
{
    let Some(region) = bridge_of(store, r, steps) else {
        return Err(HeapFail::Fault(Fault::NotBridge));
    };
    if regions.is_owned(region) {
        return Err(HeapFail::Fault(Fault::Owned));
    }
    let Some(cells) = count_cells(store, region, steps) else {
        return Err(HeapFail::OutOfMemory);
    };
    store.reserve(Owner::Local, cells)?;
    Ok(DissolvePlan { region })
}

/// Dissolves a region in the state for which it was planned: its rows are local then,
/// and borrow the regions that they owned. It takes no memory and can't fail, and looks
/// at each row of the region, and at each of its fields, once.
pub fn apply_dissolve<S: Store, L: Ledger>(
    store: &mut S,
    regions: &mut RegionTable,
    plan: DissolvePlan,
    steps: &mut Steps<L>,
)
    requires planned { (s : State) × (IsDomain (S.rows store.old) regions.old s × IsDissolveOf s plan) }
    requires room { HasDissolveRoom (S.spare store.old) (S.rows store.old) plan }
    ensures counts { (s : State) → IsDomain (S.rows store.old) regions.old s → IsDissolveOf s plan
        → CountsOf (S.rows store.new) regions.new (dissolve_result s plan.region) }
    ensures steps { steps.new ≤ steps.old + (2 + 4 * region_cells (S.rows store.old) plan.region) }
{
    let r = plan.region;
    localize_region(store, regions, r, steps);
    let borrows = regions.borrowed(r);
    regions.unborrow(r, borrows);
    regions.end(r);
    give_region(store, r, Owner::Local, steps);
}
