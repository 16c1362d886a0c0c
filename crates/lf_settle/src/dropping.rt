//! The dropping of rows and of regions.

ghost use Rattle.std.specs.Prelude.{◌≡◌, ◌+◌, ◌*◌, ◌≤◌, length};
ghost use Rattle.lf_base.specs.declared.values.Owner.TheVariants.{In};
ghost use Rattle.lf_base.specs.Losses.{Loses, emptied, of_region};
ghost use Rattle.lf_base.specs.Names.{same_name};
ghost use Rattle.lf_base.specs.PlainState.{State};
ghost use Rattle.lf_base.specs.Settling.{without};
ghost use Rattle.lf_base.specs.TakeResult.{take_result};
ghost use Rattle.lf_graph.specs.RowOrder.{SameOrder};
ghost use Rattle.lf_graph.specs.StoredRows.{NamesDiffer, SameByOwner, rows_of, rows_outside};
ghost use Rattle.lf_settle.specs.Drops.{CanDropRegion, CanDropRow, CanEmpty, Drops, SameCapacity, left_to_do, owed};
ghost use Rattle.lf_settle.specs.SettledStates.{IsCounted};

use crate::losses::{lose_borrow, lose_inner};
use crate::work::Work;
use lf_base::{Key, ObjId, Owner, Steps};
use lf_graph::Store;
use lf_regions::RegionTable;
use std::sync::ledger::Ledger;

/// Takes a field out of a row of that owner, with its edge. Its target becomes a suspect
/// where it lost its last justification by that. It needs room for a suspect for each row
/// to which an edge leads and for each region with an owner or a borrow.
pub fn drop_field<S: Store, L: Ledger>(
    store: &mut S,
    regions: &mut RegionTable,
    work: &mut Work,
    o: ObjId,
    owner: Owner,
    key: Key,
    steps: &mut Steps<L>,
)
    requires state { (s : State) × CanEmpty (S.rows store.old) regions.old work.old s o owner }
    ensures counted { (s : State) → CanEmpty (S.rows store.old) regions.old work.old s o owner
        → IsCounted (S.rows store.new) regions.new (take_result s o key) }
    ensures loses { (s : State) → CanEmpty (S.rows store.old) regions.old work.old s o owner
        → Loses s (take_result s o key) work.old.suspects work.new.suspects }
    ensures capacity { SameCapacity work.old work.new }
    ensures one { length work.new.suspects ≤ length work.old.suspects + 1 }
    ensures order { SameOrder (S.rows store.new) (S.rows store.old) }
    ensures steps { steps.new ≤ steps.old + 5 }
{
    let old = store.take_field(o, key, steps);
    match owner {
        Owner::Local => lose_borrow(store, regions, work, old, steps),
        Owner::In(home) => lose_inner(store, regions, work, old, home, steps),
        Owner::Frozen => {}
    }
}

// Takes all fields out of a row of that owner, the first one again and again.
fn empty_row<S: Store, L: Ledger>(
    store: &mut S,
    regions: &mut RegionTable,
    work: &mut Work,
    o: ObjId,
    owner: Owner,
    steps: &mut Steps<L>,
)
    requires state { (s : State) × CanEmpty (S.rows store.old) regions.old work.old s o owner }
    ensures counted { (s : State) → CanEmpty (S.rows store.old) regions.old work.old s o owner
        → IsCounted (S.rows store.new) regions.new (emptied s (same_name o)) }
    ensures loses { (s : State) → CanEmpty (S.rows store.old) regions.old work.old s o owner
        → Loses s (emptied s (same_name o)) work.old.suspects work.new.suspects }
    ensures capacity { SameCapacity work.old work.new }
    ensures order { SameOrder (S.rows store.new) (S.rows store.old) }
    ensures less { (s : State) → CanEmpty (S.rows store.old) regions.old work.old s o owner
        → left_to_do work.new (emptied s (same_name o)).rows ≤ left_to_do work.old s.rows }
    ensures steps { (s : State) → CanEmpty (S.rows store.old) regions.old work.old s o owner
        → owed steps.new work.new (emptied s (same_name o)).rows ≤ owed steps.old work.old s.rows + 1 }
{
    while let Some((key, _)) = store.field_after(o, None, steps) {
        drop_field(store, regions, work, o, owner, key, steps);
    }
}

/// Drops a row of that owner to which no edge leads and which is no bridge.
pub fn drop_row<S: Store, L: Ledger>(
    store: &mut S,
    regions: &mut RegionTable,
    work: &mut Work,
    o: ObjId,
    owner: Owner,
    steps: &mut Steps<L>,
)
    requires state { (s : State) × CanDropRow (S.rows store.old) regions.old work.old s o owner }
    ensures drops { (s : State) → CanDropRow (S.rows store.old) regions.old work.old s o owner
        → Drops s (same_name o) work.old work.new (S.rows store.new) regions.new }
    ensures capacity { SameCapacity work.old work.new }
    ensures steps { (s : State) → CanDropRow (S.rows store.old) regions.old work.old s o owner
        → owed steps.new work.new (without s (same_name o)).rows ≤ owed steps.old work.old s.rows }
{
    empty_row(store, regions, work, o, owner, steps);
    store.remove(o, steps);
}

// Takes all fields out of the rows of a region.
fn empty_region<S: Store, L: Ledger>(
    store: &mut S,
    regions: &mut RegionTable,
    work: &mut Work,
    r: ObjId,
    steps: &mut Steps<L>,
)
    requires state { (s : State) × CanDropRegion (S.rows store.old) regions.old work.old s r }
    ensures counted { (s : State) → CanDropRegion (S.rows store.old) regions.old work.old s r
        → IsCounted (S.rows store.new) regions.new (emptied s (of_region s r)) }
    ensures loses { (s : State) → CanDropRegion (S.rows store.old) regions.old work.old s r
        → Loses s (emptied s (of_region s r)) work.old.suspects work.new.suspects }
    ensures capacity { SameCapacity work.old work.new }
    ensures less { (s : State) → CanDropRegion (S.rows store.old) regions.old work.old s r
        → left_to_do work.new (emptied s (of_region s r)).rows ≤ left_to_do work.old s.rows }
    ensures steps { (s : State) → CanDropRegion (S.rows store.old) regions.old work.old s r
        → owed steps.new work.new (emptied s (of_region s r)).rows
        ≤ owed steps.old work.old s.rows + 2 * length (rows_of (In r) (S.rows store.new)) + 1 }
{
    let mut next = store.first(Owner::In(r), steps);
    while let Some(o) = next {
        empty_row(store, regions, work, o, Owner::In(r), steps);
        next = store.next(o, steps);
    }
}

// Drops the rows of a region.
fn remove_rows<S: Store, L: Ledger>(store: &mut S, r: ObjId, steps: &mut Steps<L>)
    requires differ { NamesDiffer (S.rows store.old) }
    ensures rows { SameByOwner (S.rows store.new) (rows_outside (In r) (S.rows store.old)) }
    ensures steps { steps.new ≡ steps.old + 2 * length (rows_of (In r) (S.rows store.old)) + 1 }
{
    while let Some(o) = store.first(Owner::In(r), steps) {
        store.remove(o, steps);
    }
}

/// Drops a region without owner and borrow, whole.
pub fn drop_region<S: Store, L: Ledger>(
    store: &mut S,
    regions: &mut RegionTable,
    work: &mut Work,
    r: ObjId,
    steps: &mut Steps<L>,
)
    requires state { (s : State) × CanDropRegion (S.rows store.old) regions.old work.old s r }
    ensures drops { (s : State) → CanDropRegion (S.rows store.old) regions.old work.old s r
        → Drops s (of_region s r) work.old work.new (S.rows store.new) regions.new }
    ensures capacity { SameCapacity work.old work.new }
    ensures steps { (s : State) → CanDropRegion (S.rows store.old) regions.old work.old s r
        → owed steps.new work.new (without s (of_region s r)).rows ≤ owed steps.old work.old s.rows }
{
    empty_region(store, regions, work, r, steps);
    remove_rows(store, r, steps);
    regions.end(r);
}
