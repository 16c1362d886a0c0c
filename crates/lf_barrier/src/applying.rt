//! A write that was planned is made.

ghost use Rattle.std.specs.Prelude.{◌≡◌, ◌+◌, ◌*◌, ◌≤◌, None, Some};
ghost use Rattle.lf_base.specs.declared.values.Owner.TheVariants.{In, Local};
ghost use Rattle.lf_base.specs.MoveSet.{move_set};
ghost use Rattle.lf_base.specs.Owners.{owner_in, row_at};
ghost use Rattle.lf_base.specs.PlainState.{State};
ghost use Rattle.lf_base.specs.TakeResult.{row_field};
ghost use Rattle.lf_base.specs.TouchedEdges.{WritesInto};
ghost use Rattle.lf_base.specs.WriteResult.{write_refusal, write_result};
ghost use Rattle.lf_barrier.specs.WritePlans.{HasRoomFor, IsPlanFor, moving, plan_room, write_size};
ghost use Rattle.lf_domain.specs.Counts.{CountsOf, IsDomain};
ghost use Rattle.lf_graph.specs.Room.{room_for_field};

use crate::moves::{count_rows, give_rows, uncount_rows};
use crate::plan::WritePlan;
use lf_base::{Key, ObjId, Steps, Value};
use lf_domain::{count_borrow, count_inner, uncount_borrow, uncount_inner};
use lf_graph::Store;
use lf_regions::RegionTable;
use std::sync::ledger::Ledger;

/// Makes a write in the state for which it was planned, and gives the old value, or
/// `None` where the field is new. It takes no memory and can't fail, and takes at most 64
/// steps, and 64 for each row that moves and for each of its fields.
pub fn apply_write<S: Store, L: Ledger>(
    store: &mut S,
    regions: &mut RegionTable,
    plan: WritePlan,
    steps: &mut Steps<L>,
) -> Option<Value>
    requires planned { (s : State) × (IsDomain (S.rows store.old) regions.old s × IsPlanFor s plan) }
    requires room { HasRoomFor (S.spare store.old) (S.rows store.old) plan }
    ensures value { (s : State) → IsDomain (S.rows store.old) regions.old s → result ≡ row_field (row_at s.rows plan.target) plan.key }
    ensures counts { (s : State) → IsDomain (S.rows store.old) regions.old s → IsPlanFor s plan
        → CountsOf (S.rows store.new) regions.new (write_result s plan.target plan.key plan.value) }
    ensures steps { (s : State) → IsDomain (S.rows store.old) regions.old s → IsPlanFor s plan
        → steps.new ≤ steps.old + 64 * write_size (moving s plan.value plan.home) }
{
    match plan.home {
        None => put_local(store, regions, plan.target, plan.key, plan.value, steps),
        Some(home) => put_inside(
            store,
            regions,
            plan.target,
            plan.key,
            plan.value,
            plan.moved.as_slice(),
            home,
            steps,
        ),
    }
}

// Sets a field of a local row.
fn put_local<S: Store, L: Ledger>(
    store: &mut S,
    regions: &mut RegionTable,
    x: ObjId,
    key: Key,
    v: Value,
    steps: &mut Steps<L>,
) -> Option<Value>
    requires state { (s : State) × (IsDomain (S.rows store.old) regions.old s × (owner_in s.rows x ≡ Some Local)) }
    requires room { room_for_field (S.rows store.old) x key ≤ S.spare store.old Local }
    ensures value { (s : State) → IsDomain (S.rows store.old) regions.old s → result ≡ row_field (row_at s.rows x) key }
    ensures counts { (s : State) → IsDomain (S.rows store.old) regions.old s → owner_in s.rows x ≡ Some Local
        → CountsOf (S.rows store.new) regions.new (write_result s x key v) }
    ensures steps { steps.new ≤ steps.old + 5 }
{
    count_borrow(store, regions, Some(v), steps);
    let old = store.set_field(x, key, v, steps);
    uncount_borrow(store, regions, old, steps);
    old
}

// Sets a field of a row in the region `home`, and gives the rows of these names to that
// region. The edge of the old value goes first: what moves may own the bridge that it
// owned.
fn put_inside<S: Store, L: Ledger>(
    store: &mut S,
    regions: &mut RegionTable,
    x: ObjId,
    key: Key,
    v: Value,
    moved: &[ObjId],
    home: ObjId,
    steps: &mut Steps<L>,
) -> Option<Value>
    requires state { (s : State) × (IsDomain (S.rows store.old) regions.old s
        × (WritesInto s x v home moved.now × (write_refusal s x key v ≡ None))) }
    requires room { plan_room (S.rows store.old) x key moved.now ≤ S.spare store.old (In home) }
    ensures value { (s : State) → IsDomain (S.rows store.old) regions.old s → result ≡ row_field (row_at s.rows x) key }
    ensures counts { (s : State) → IsDomain (S.rows store.old) regions.old s → WritesInto s x v home moved.now
        → write_refusal s x key v ≡ None → CountsOf (S.rows store.new) regions.new (write_result s x key v) }
    ensures steps { (s : State) → IsDomain (S.rows store.old) regions.old s → WritesInto s x v home moved.now
        → write_refusal s x key v ≡ None → steps.new ≤ steps.old + 64 * write_size (move_set s v) }
{
    let old = store.set_field(x, key, v, steps);
    uncount_inner(store, regions, old, home, steps);
    uncount_rows(store, regions, moved, steps);
    give_rows(store, regions, moved, home, steps);
    count_rows(store, regions, moved, home, steps);
    count_inner(store, regions, Some(v), home, steps);
    old
}
