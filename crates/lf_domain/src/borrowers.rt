//! Edges from slots and local rows: they borrow the region into which they lead.

ghost use Rattle.std.specs.Prelude.{◌≡◌, ◌+◌, ◌≤◌, ◌∷◌, ◌++◌, [], List, true};
ghost use Rattle.lf_base.specs.Edges.{Edge, Source, edges_by, slot_targets};
ghost use Rattle.lf_base.specs.PlainState.{Row};
ghost use Rattle.lf_base.specs.WalkCounts.{is_borrower};
ghost use Rattle.lf_domain.specs.Counts.{Counts};
ghost use Rattle.lf_domain.specs.OneEdge.{MayCount, MayUncount};
ghost use Rattle.lf_graph.specs.Room.{LowersNone};
ghost use Rattle.lf_graph.specs.RowOrder.{SameOrder};

use crate::targets::target_of;
use lf_base::{ObjId, Owner, Steps, Value};
use lf_graph::Store;
use lf_regions::RegionTable;
use std::sync::ledger::Ledger;

/// Counts the edge of a slot or of a local row's field, where it has one. The region
/// into which it leads is borrowed once more.
#[inline(always)]
pub fn count_borrow<S: Store, L: Ledger>(
    store: &mut S,
    regions: &mut RegionTable,
    v: Option<Value>,
    steps: &mut Steps<L>,
)
    requires may { (of : List Row) × ((es : List Edge) × MayCount (S.rows store.old) regions.old of es) }
    ensures counted { (of : List Row) (es : List Edge) (from : Source) → MayCount (S.rows store.old) regions.old of es
        → is_borrower of from ≡ true → Counts (S.rows store.new) regions.new of (edges_by from (slot_targets v) ++ es) }
    ensures room { LowersNone (S.spare store.old) (S.spare store.new) }
    ensures steps { steps.new ≤ steps.old + 2 }
{
    if let Some(o) = target_of(v) {
        count_object(store, regions, o, steps);
    }
}

/// Takes the edge of a slot or of a local row's field out of the counts, where it has
/// one.
#[inline(always)]
pub fn uncount_borrow<S: Store, L: Ledger>(
    store: &mut S,
    regions: &mut RegionTable,
    v: Option<Value>,
    steps: &mut Steps<L>,
)
    requires may { (of : List Row) × ((es : List Edge) × ((fs : List Edge) × ((from : Source)
        × MayUncount (S.rows store.old) regions.old of es fs from (slot_targets v)))) }
    ensures counted { (of : List Row) (es fs : List Edge) (from : Source)
        → MayUncount (S.rows store.old) regions.old of es fs from (slot_targets v)
        → Counts (S.rows store.new) regions.new of fs }
    ensures room { LowersNone (S.spare store.old) (S.spare store.new) }
    ensures order { SameOrder (S.rows store.new) (S.rows store.old) }
    ensures steps { steps.new ≤ steps.old + 2 }
{
    if let Some(o) = target_of(v) {
        uncount_object(store, regions, o, steps);
    }
}

// Counts an edge to an object.
#[inline(never)]
fn count_object<S: Store, L: Ledger>(
    store: &mut S,
    regions: &mut RegionTable,
    o: ObjId,
    steps: &mut Steps<L>,
)
    requires may { (of : List Row) × ((es : List Edge) × MayCount (S.rows store.old) regions.old of es) }
    ensures counted { (of : List Row) (es : List Edge) (from : Source) → MayCount (S.rows store.old) regions.old of es
        → is_borrower of from ≡ true → Counts (S.rows store.new) regions.new of (edges_by from (o ∷ []) ++ es) }
    ensures room { LowersNone (S.spare store.old) (S.spare store.new) }
    ensures steps { steps.new ≤ steps.old + 2 }
{
    let Some(owner) = store.owner(o, steps) else {
        return;
    };
    store.add_ref(o, steps);
    match owner {
        Owner::Local => {}
        Owner::In(r) => regions.borrow(r, 1),
        Owner::Frozen => {}
    }
}

// Takes an edge to an object out of the counts.
#[inline(never)]
fn uncount_object<S: Store, L: Ledger>(
    store: &mut S,
    regions: &mut RegionTable,
    o: ObjId,
    steps: &mut Steps<L>,
)
    requires may { (of : List Row) × ((es : List Edge) × ((fs : List Edge) × ((from : Source)
        × MayUncount (S.rows store.old) regions.old of es fs from (o ∷ [])))) }
    ensures counted { (of : List Row) (es fs : List Edge) (from : Source)
        → MayUncount (S.rows store.old) regions.old of es fs from (o ∷ [])
        → Counts (S.rows store.new) regions.new of fs }
    ensures room { LowersNone (S.spare store.old) (S.spare store.new) }
    ensures order { SameOrder (S.rows store.new) (S.rows store.old) }
    ensures steps { steps.new ≤ steps.old + 2 }
{
    let Some(owner) = store.owner(o, steps) else {
        return;
    };
    store.sub_ref(o, steps);
    match owner {
        Owner::Local => {}
        Owner::In(r) => regions.unborrow(r, 1),
        Owner::Frozen => {}
    }
}
