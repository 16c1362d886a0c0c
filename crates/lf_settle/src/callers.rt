//! A caller that knows the counts of a state, and what settling does, by their clauses
//! alone.

ghost use Rattle.std.specs.Prelude.{◌≡◌, ◌+◌, ◌*◌, ◌≤◌, [], None, ℕ};
ghost use Rattle.lf_base.specs.Kept.{kept};
ghost use Rattle.lf_base.specs.Losses.{dropped};
ghost use Rattle.lf_base.specs.PlainChanges.{with_slot_at};
ghost use Rattle.lf_base.specs.PlainState.{State};
ghost use Rattle.lf_domain.specs.Counts.{CountsOf};
ghost use Rattle.lf_settle.specs.SettledStates.{MayUnset};

use crate::losses::lose_borrow;
use crate::settling::settle;
use crate::work::Work;
use lf_base::{Steps, Value};
use lf_graph::Store;
use lf_regions::RegionTable;
use std::sync::ledger::Ledger;

/// Unsets a slot that holds `v`: its edge is lost, and all goes that it alone justified.
pub fn unset_slot<S: Store, L: Ledger>(
    store: &mut S,
    regions: &mut RegionTable,
    work: &mut Work,
    v: Option<Value>,
    steps: &mut Steps<L>,
)
    requires may { (s : State) × ((n : ℕ) × MayUnset (S.rows store.old) regions.old work.old s n v) }
    ensures unset { (s : State) (n : ℕ) → MayUnset (S.rows store.old) regions.old work.old s n v
        → CountsOf (S.rows store.new) regions.new (kept (with_slot_at s n None)) }
    ensures none_left { work.new.suspects ≡ [] }
    ensures steps { (s : State) (n : ℕ) → MayUnset (S.rows store.old) regions.old work.old s n v
        → steps.new ≤ steps.old + 4 + 64 * (2 + dropped (with_slot_at s n None)) }
{
    lose_borrow(store, regions, work, v, steps);
    settle(store, regions, work, steps);
}
