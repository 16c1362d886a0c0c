//! Rows that move into a region: their edges are taken out of the counts, the rows are
//! given to the region, and their edges are counted again.

ghost use Rattle.std.specs.Prelude.{◌≡◌, ◌+◌, ◌*◌, ◌≤◌, ◌∷◌, ◌++◌, [], List, length, true};
ghost use Rattle.std.specs.List.{sum_by};
ghost use Rattle.lf_base.specs.declared.values.Owner.TheVariants.{In};
ghost use Rattle.lf_base.specs.Edges.{Edge, Field, edges_by};
ghost use Rattle.lf_base.specs.PlainState.{Row};
ghost use Rattle.lf_base.specs.TouchedEdges.{edges_from};
ghost use Rattle.lf_base.specs.WriteResult.{relabel};
ghost use Rattle.lf_barrier.specs.MovingEdges.{MayCountRow, MayCountRows, MayGive, MayGiveRows, MayUncountRow, MayUncountRows};
ghost use Rattle.lf_barrier.specs.MovingEdges.{fields_in, targets_in};
ghost use Rattle.lf_domain.specs.Counts.{Counts};
ghost use Rattle.lf_graph.specs.Room.{LowersAtMost, LowersNone, room_for_row};

use lf_base::{ObjId, Owner, Steps};
use lf_domain::{count_inner, uncount_borrow};
use lf_graph::Store;
use lf_regions::RegionTable;
use std::sync::ledger::Ledger;

// Takes the edges of the fields of a local row out of the counts.
fn uncount_row<S: Store, L: Ledger>(
    store: &mut S,
    regions: &mut RegionTable,
    p: ObjId,
    steps: &mut Steps<L>,
)
    requires may { (of : List Row) × ((es : List Edge) × ((fs : List Edge) × MayUncountRow (S.rows store.old) regions.old of es fs p)) }
    ensures counted { (of : List Row) (es fs : List Edge) → MayUncountRow (S.rows store.old) regions.old of es fs p
        → Counts (S.rows store.new) regions.new of fs }
    ensures room { LowersNone (S.spare store.old) (S.spare store.new) }
    ensures steps { (of : List Row) (es fs : List Edge) → MayUncountRow (S.rows store.old) regions.old of es fs p
        → steps.new ≤ steps.old + (1 + 3 * length (fields_in of p)) }
{
    let width = store.width(p, steps);
    let mut last = None;
    for _turn in 0..width {
        let Some((key, v)) = store.field_after(p, last, steps) else {
            unreachable!()
        };
        uncount_borrow(store, regions, Some(v), steps);
        last = Some(key);
    }
}

// Counts the edges of the fields of a row of the region `home`.
fn count_row<S: Store, L: Ledger>(
    store: &mut S,
    regions: &mut RegionTable,
    p: ObjId,
    home: ObjId,
    steps: &mut Steps<L>,
)
    requires may { (of : List Row) × ((es : List Edge) × MayCountRow (S.rows store.old) regions.old of es p home) }
    ensures counted { (of : List Row) (es : List Edge) → MayCountRow (S.rows store.old) regions.old of es p home
        → Counts (S.rows store.new) regions.new of (edges_by (Field p) (targets_in of p) ++ es) }
    ensures steps { (of : List Row) (es : List Edge) → MayCountRow (S.rows store.old) regions.old of es p home
        → steps.new ≤ steps.old + (1 + 3 * length (fields_in of p)) }
{
    let width = store.width(p, steps);
    let mut last = None;
    for _turn in 0..width {
        let Some((key, v)) = store.field_after(p, last, steps) else {
            unreachable!()
        };
        count_inner(store, regions, Some(v), home, steps);
        last = Some(key);
    }
}

// Gives a local row to a region, which is borrowed then by all edges to the row.
fn give_row<S: Store, L: Ledger>(
    store: &mut S,
    regions: &mut RegionTable,
    o: ObjId,
    home: ObjId,
    steps: &mut Steps<L>,
)
    requires may { (of : List Row) × ((es : List Edge) × MayGive (S.rows store.old) regions.old of es o home) }
    requires room { room_for_row (S.rows store.old) o ≤ S.spare store.old (In home) }
    ensures counted { (of : List Row) (es : List Edge) → MayGive (S.rows store.old) regions.old of es o home
        → Counts (S.rows store.new) regions.new (relabel of (o ∷ []) (In home)) es }
    ensures room { LowersAtMost (S.spare store.old) (S.spare store.new) (room_for_row (S.rows store.old) o) }
    ensures steps { steps.new ≤ steps.old + 2 }
{
    let count = store.refs(o, steps);
    store.set_owner(o, Owner::In(home), steps);
    regions.borrow(home, count);
}

/// Takes the edges of the fields of local rows out of the counts.
pub fn uncount_rows<S: Store, L: Ledger>(
    store: &mut S,
    regions: &mut RegionTable,
    moved: &[ObjId],
    steps: &mut Steps<L>,
)
    requires may { (of : List Row) × ((es : List Edge) × ((fs : List Edge)
        × MayUncountRows (S.rows store.old) regions.old of es fs moved.now)) }
    ensures counted { (of : List Row) (es fs : List Edge) → MayUncountRows (S.rows store.old) regions.old of es fs moved.now
        → Counts (S.rows store.new) regions.new of fs }
    ensures room { LowersNone (S.spare store.old) (S.spare store.new) }
    ensures steps { (of : List Row) (es fs : List Edge) → MayUncountRows (S.rows store.old) regions.old of es fs moved.now
        → steps.new ≤ steps.old + (length moved.now + 3 * sum_by (λ o. length (fields_in of o)) moved.now) }
{
    for o in moved {
        uncount_row(store, regions, *o, steps);
    }
}

/// Gives local rows to a region, which is borrowed then by all edges to them.
pub fn give_rows<S: Store, L: Ledger>(
    store: &mut S,
    regions: &mut RegionTable,
    moved: &[ObjId],
    home: ObjId,
    steps: &mut Steps<L>,
)
    requires may { (of : List Row) × ((es : List Edge) × MayGiveRows (S.rows store.old) regions.old of es moved.now home) }
    requires room { sum_by (room_for_row (S.rows store.old)) moved.now ≤ S.spare store.old (In home) }
    ensures counted { (of : List Row) (es : List Edge) → MayGiveRows (S.rows store.old) regions.old of es moved.now home
        → Counts (S.rows store.new) regions.new (relabel of moved.now (In home)) es }
    ensures steps { steps.new ≤ steps.old + 2 * length moved.now }
{
    for o in moved {
        give_row(store, regions, *o, home, steps);
    }
}

/// Counts the edges of the fields of rows of the region `home`.
pub fn count_rows<S: Store, L: Ledger>(
    store: &mut S,
    regions: &mut RegionTable,
    moved: &[ObjId],
    home: ObjId,
    steps: &mut Steps<L>,
)
    requires may { (of : List Row) × ((es : List Edge) × MayCountRows (S.rows store.old) regions.old of es moved.now home) }
    ensures counted { (of : List Row) (es : List Edge) → MayCountRows (S.rows store.old) regions.old of es moved.now home
        → Counts (S.rows store.new) regions.new of (edges_from of moved.now ++ es) }
    ensures steps { (of : List Row) (es : List Edge) → MayCountRows (S.rows store.old) regions.old of es moved.now home
        → steps.new ≤ steps.old + (length moved.now + 3 * sum_by (λ o. length (fields_in of o)) moved.now) }
{
    for o in moved {
        count_row(store, regions, *o, home, steps);
    }
}
