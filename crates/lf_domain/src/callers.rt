//! A caller that knows the counts of a state by their record alone.

ghost use Rattle.std.specs.Prelude.{◌≡◌, ◌+◌, ◌≤◌, Some};
ghost use Rattle.lf_base.specs.declared.values.Owner.TheVariants.{Local};
ghost use Rattle.lf_base.specs.Owners.{owner_in};
ghost use Rattle.lf_base.specs.PlainState.{State};
ghost use Rattle.lf_base.specs.WriteResult.{write_result};
ghost use Rattle.lf_domain.specs.Counts.{CountsOf, IsDomain};
ghost use Rattle.lf_graph.specs.Room.{OwnerHasRoom, room_for_field};

use crate::borrowers::{count_borrow, uncount_borrow};
use lf_base::{Key, ObjId, Steps, Value};
use lf_graph::Store;
use lf_regions::RegionTable;
use std::sync::ledger::Ledger;

/// Writes a field of a local row: the new edge is counted, then the field is set, then
/// the old edge is taken out.
pub fn write_local<S: Store, L: Ledger>(
    store: &mut S,
    regions: &mut RegionTable,
    o: ObjId,
    key: Key,
    v: Value,
    steps: &mut Steps<L>,
)
    requires local { (s : State) × (IsDomain (S.rows store.old) regions.old s × (owner_in s.rows o ≡ Some Local)) }
    requires room { OwnerHasRoom (S.spare store.old) (S.rows store.old) o (room_for_field (S.rows store.old) o key) }
    ensures written { (s : State) → IsDomain (S.rows store.old) regions.old s → owner_in s.rows o ≡ Some Local
        → CountsOf (S.rows store.new) regions.new (write_result s o key v) }
    ensures steps { steps.new ≤ steps.old + 5 }
{
    count_borrow(store, regions, Some(v), steps);
    let old = store.set_field(o, key, v, steps);
    uncount_borrow(store, regions, old, steps);
}
