//! What must go because of a suspect, read off the counts.

ghost use Rattle.std.specs.Prelude.{◌≡◌, ◌+◌, ◌≤◌, Some};
ghost use Rattle.lf_base.specs.declared.values.Owner.TheVariants as owner_of_row;
ghost use Rattle.lf_base.specs.Owners.{owner_in};
ghost use Rattle.lf_base.specs.PlainState.{State};
ghost use Rattle.lf_base.specs.Suspects as place;
ghost use Rattle.lf_graph.specs.StoredRows.{HasRow};
ghost use Rattle.lf_settle.specs.SettledStates.{IsCounted};
ghost use Rattle.lf_settle.specs.Verdicts.{Judges};
ghost use Rattle.lf_settle.specs.Verdicts as table;
ghost use Rattle.lf_settle.specs.WorkLists.{suspected_place};

use crate::losses::is_bare;
use crate::verdict::Verdict;
use crate::work::Suspect;
use lf_base::{ObjId, Owner, Steps};
use lf_graph::Store;
use lf_regions::RegionTable;
use std::sync::ledger::Ledger;

/// What must go because of a suspect.
pub fn judge<S: Store, L: Ledger>(
    store: &S,
    regions: &RegionTable,
    suspect: Suspect,
    steps: &mut Steps<L>,
) -> Verdict
    requires state { (s : State) × IsCounted (S.rows store.now) regions.now s }
    ensures judged { (s : State) → IsCounted (S.rows store.now) regions.now s → Judges s result (suspected_place suspect) }
    ensures steps { steps.new ≤ steps.old + 2 }
{
    match suspect {
        Suspect::Object(o) => judge_object(store, regions, o, steps),
        Suspect::Region(r) => judge_region(store, regions, r, steps),
    }
}

// The same of an object.
fn judge_object<S: Store, L: Ledger>(
    store: &S,
    regions: &RegionTable,
    o: ObjId,
    steps: &mut Steps<L>,
) -> Verdict
    requires state { (s : State) × IsCounted (S.rows store.now) regions.now s }
    ensures judged { (s : State) → IsCounted (S.rows store.now) regions.now s → Judges s result (place.Object o) }
    ensures steps { steps.new ≤ steps.old + 2 }
{
    let Some(owner) = store.owner(o, steps) else {
        return Verdict::Stays;
    };
    match owner {
        Owner::Local => judge_row(store, o, owner, steps),
        Owner::In(r) => judge_inner(store, regions, o, r, steps),
        Owner::Frozen => Verdict::Stays,
    }
}

// The same of an object in a region: in one without owner and borrow the whole region
// goes, and else the bridge stays, and another row needs an edge.
fn judge_inner<S: Store, L: Ledger>(
    store: &S,
    regions: &RegionTable,
    o: ObjId,
    r: ObjId,
    steps: &mut Steps<L>,
) -> Verdict
    requires state { (s : State) × (IsCounted (S.rows store.now) regions.now s × (owner_in s.rows o ≡ Some (owner_of_row.In r))) }
    ensures judged { (s : State) → IsCounted (S.rows store.now) regions.now s → owner_in s.rows o ≡ Some (owner_of_row.In r)
        → Judges s result (place.Object o) }
    ensures steps { steps.new ≤ steps.old + 1 }
{
    if is_bare(regions, r) {
        return Verdict::DropRegion(r);
    }
    if r == o {
        return Verdict::Stays;
    }
    judge_row(store, o, Owner::In(r), steps)
}

// The same of a row of that owner that goes exactly where no edge leads to it.
fn judge_row<S: Store, L: Ledger>(
    store: &S,
    o: ObjId,
    owner: Owner,
    steps: &mut Steps<L>,
) -> Verdict
    requires { HasRow (S.rows store.now) o }
    ensures verdict { result ≡ table.row_verdict (S.rows store.now) o owner }
    ensures step { steps.new ≡ steps.old + 1 }
{
    if store.refs(o, steps) == 0 {
        Verdict::DropRow(o, owner)
    } else {
        Verdict::Stays
    }
}

// The same of a region.
fn judge_region<S: Store, L: Ledger>(
    store: &S,
    regions: &RegionTable,
    r: ObjId,
    steps: &mut Steps<L>,
) -> Verdict
    requires state { (s : State) × IsCounted (S.rows store.now) regions.now s }
    ensures judged { (s : State) → IsCounted (S.rows store.now) regions.now s → Judges s result (place.Region r) }
    ensures steps { steps.new ≤ steps.old + 1 }
{
    let Some(owner) = store.owner(r, steps) else {
        return Verdict::Stays;
    };
    match owner {
        Owner::In(home) => {
            if home != r {
                return Verdict::Stays;
            }
            if is_bare(regions, r) {
                return Verdict::DropRegion(r);
            }
            Verdict::Stays
        }
        Owner::Local => Verdict::Stays,
        Owner::Frozen => Verdict::Stays,
    }
}
