//! The loop over the suspects.

ghost use Rattle.std.specs.Prelude.{◌≡◌, ◌+◌, ◌*◌, ◌≤◌, [], length};
ghost use Rattle.lf_base.specs.Kept.{kept};
ghost use Rattle.lf_base.specs.Losses.{dropped};
ghost use Rattle.lf_base.specs.PlainState.{State};
ghost use Rattle.lf_domain.specs.Counts.{CountsOf};
ghost use Rattle.lf_settle.specs.Drops.{SameCapacity, Settles, owed, stored_state};
ghost use Rattle.lf_settle.specs.SettledStates.{CanDrop, CanSettle};
ghost use Rattle.lf_settle.specs.WorkLists.{suspected_place};

use crate::dropping::{drop_region, drop_row};
use crate::judging::judge;
use crate::verdict::Verdict;
use crate::work::{Suspect, Work};
use lf_base::Steps;
use lf_graph::Store;
use lf_regions::RegionTable;
use std::sync::ledger::Ledger;

// Drops what must go because of one suspect.
#[inline(never)]
fn settle_one<S: Store, L: Ledger>(
    store: &mut S,
    regions: &mut RegionTable,
    work: &mut Work,
    suspect: Suspect,
    steps: &mut Steps<L>,
)
    requires state { (s : State) × CanDrop (S.rows store.old) regions.old work.old s }
    ensures settles { (s : State) → CanDrop (S.rows store.old) regions.old work.old s
        → Settles s (stored_state s (S.rows store.new)) (suspected_place suspect) work.old work.new (S.rows store.new) regions.new }
    ensures capacity { SameCapacity work.old work.new }
    ensures steps { (s : State) → CanDrop (S.rows store.old) regions.old work.old s
        → owed steps.new work.new (stored_state s (S.rows store.new)).rows ≤ owed steps.old work.old s.rows + 2 }
{
    match judge(store, regions, suspect, steps) {
        Verdict::Stays => {}
        Verdict::DropRow(o, owner) => drop_row(store, regions, work, o, owner, steps),
        Verdict::DropRegion(r) => drop_region(store, regions, work, r, steps),
    }
}

/// Drops the rows that must go. It needs suspects that watch whatever nothing
/// justifies, as they do where each row that must go hangs on one. Afterwards no suspect
/// is left, and of every state whose store, table and suspects were handed in just the
/// rows that stay are there, with their counts and flags. It takes no memory: it needs
/// room for a suspect for each row to which an edge leads and for each region with an
/// owner or a borrow, and so never for more than there are rows and regions.
///
/// Its steps are at most 64 for the call, for each suspect, and for each row and each
/// field that goes.
#[inline(always)]
pub fn settle<S: Store, L: Ledger>(
    store: &mut S,
    regions: &mut RegionTable,
    work: &mut Work,
    steps: &mut Steps<L>,
)
    requires state { (s : State) × CanSettle (S.rows store.old) regions.old work.old s }
    ensures kept { (s : State) → CanSettle (S.rows store.old) regions.old work.old s
        → CountsOf (S.rows store.new) regions.new (kept s) }
    ensures none_left { work.new.suspects ≡ [] }
    ensures room { work.new.spare ≡ work.old.spare + length work.old.suspects }
    ensures steps { (s : State) → CanSettle (S.rows store.old) regions.old work.old s
        → steps.new ≤ steps.old + 64 * (1 + length work.old.suspects + dropped s) }
{
    while let Some(suspect) = work.pop() {
        settle_one(store, regions, work, suspect, steps);
    }
}
