//! An object is frozen, with all that it leads to.

ghost use Rattle.std.specs.Prelude.{◌≡◌, ◌+◌, ◌≤◌, ◌++◌, IfOk, filter, length, reverse, true};
ghost use Rattle.lf_base.specs.declared.ids.ObjId.{ObjId as Name};
ghost use Rattle.lf_base.specs.declared.values.Value.{Value as Content};
ghost use Rattle.lf_base.specs.FreezeResult.{freeze_result};
ghost use Rattle.lf_base.specs.Names.{same_name};
ghost use Rattle.lf_base.specs.Owners.{has_name};
ghost use Rattle.lf_base.specs.PlainState.{State};
ghost use Rattle.lf_base.specs.Sets.{Differ};
ghost use Rattle.lf_domain.specs.Counts.{CountsOf, IsDomain};
ghost use Rattle.lf_graph.specs.RowChanges.{without_rows};
ghost use Rattle.lf_graph.specs.StoredRows.{HasRow, NamesDiffer, SameByOwner};
ghost use Rattle.lf_transfer.specs.Freezing.{AreFrozenIn, IsFreezeOf, is_bare_region};

use crate::freeze_plan::FreezePlan;
use crate::loose::Loose;
use crate::losing::lose_rows;
use crate::taking::find_taken;
use lf_base::{ObjId, OutOfMemory, Steps, Value};
use lf_frozen::FrozenMap;
use lf_graph::Store;
use lf_regions::RegionTable;
use std::alloc::Global;
use std::sync::ledger::Ledger;

/// Plans the freezing of what a value leads to: the object to which it refers, with each
/// row every row that it points to, and with each bridge all rows of its region. It is
/// never refused, and changes nothing; a value that refers to no mutable row takes
/// none. `OutOfMemory` may come at any time. `frozen` has frozen rows of the state, to
/// which those that freeze are to be added.
///
/// It looks at each row that freezes, and at each of its fields, once, and at the rows of
/// a region that freezes whole once more.
pub fn plan_freeze<S: Store, L: Ledger>(
    alloc: Global,
    store: &S,
    regions: &RegionTable,
    frozen: &FrozenMap,
    value: Value,
    steps: &mut Steps<L>,
) -> Result<FreezePlan, OutOfMemory>
    requires domain { (s : State) × (IsDomain (S.rows store.now) regions.now s × AreFrozenIn s frozen.now) }
    ensures plan { IfOk result (λ plan. (s : State) → IsDomain (S.rows store.now) regions.now s → AreFrozenIn s frozen.now
        → IsFreezeOf s frozen.now value plan) }
{
    let found = find_taken(alloc, store, value, steps)?;
    let frozen = match frozen.with(found.rows) {
        Ok(map) => map,
        Err((_rows, wanted)) => return Err(wanted),
    };
    Ok(FreezePlan {
        taken: found.taken,
        regions: found.regions,
        frozen,
    })
}

/// Makes a freeze in the state for which it was planned: the rows leave the store and are
/// among the frozen ones. A region whose bridge freezes is none any more, and one that
/// stays loses the borrows of its rows that freeze. The names of the regions that are left
/// without owner and borrow are added to the list, which needs room for as many as the
/// plan tells. It takes no memory and can't fail.
///
/// It looks at each row that freezes, and, for a region that stays and loses rows, at all
/// its rows and their fields.
pub fn apply_freeze<S: Store, L: Ledger>(
    store: &mut S,
    regions: &mut RegionTable,
    frozen: &mut FrozenMap,
    plan: FreezePlan,
    work: &mut Loose,
    steps: &mut Steps<L>,
)
    requires planned { (s : State) × ((v : Content) × (IsDomain (S.rows store.old) regions.old s × IsFreezeOf s frozen.old v plan)) }
    requires room { length plan.regions ≤ work.old.spare }
    ensures counts { (s : State) (v : Content) → IsDomain (S.rows store.old) regions.old s → IsFreezeOf s frozen.old v plan
        → CountsOf (S.rows store.new) regions.new (freeze_result s v) }
    ensures frozen { frozen.new ≡ plan.frozen }
    ensures named { (s : State) (v : Content) → IsDomain (S.rows store.old) regions.old s → IsFreezeOf s frozen.old v plan
        → work.new.names ≡ reverse (filter (is_bare_region (freeze_result s v)) plan.regions) ++ work.old.names }
    ensures room { work.new.spare + length work.new.names ≡ work.old.spare + length work.old.names }
{
    let FreezePlan {
        taken,
        regions: losing,
        frozen: after,
    } = plan;
    lose_rows(store, regions, &taken, losing.as_slice(), work, steps);
    remove_rows(store, taken.as_slice(), steps);
    *frozen = after;
}

// Drops rows, one after the other.
fn remove_rows<S: Store, L: Ledger>(store: &mut S, names: &[ObjId], steps: &mut Steps<L>)
    requires differ { NamesDiffer (S.rows store.old) }
    requires once { Differ same_name names.now }
    requires there { (o : Name) → has_name names.now o ≡ true → HasRow (S.rows store.old) o }
    ensures rows { SameByOwner (S.rows store.new) (without_rows (S.rows store.old) names.now) }
{
    for o in names {
        store.remove(*o, steps);
    }
}
