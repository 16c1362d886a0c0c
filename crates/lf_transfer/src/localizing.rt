//! References of a region's rows that turn local: where they lead into other regions they
//! owned these, and borrow them then.

ghost use Rattle.std.specs.Prelude.{◌≡◌, ◌+◌, ◌*◌, ◌≤◌, ◌∷◌, [], List, Some, length, true};
ghost use Rattle.lf_base.specs.declared.ids.ObjId.{ObjId as Name};
ghost use Rattle.lf_base.specs.declared.values.Owner.TheVariants.{In};
ghost use Rattle.lf_base.specs.Edges.{field_targets};
ghost use Rattle.lf_base.specs.Names.{targets_of_value};
ghost use Rattle.lf_base.specs.PlainState.{State};
ghost use Rattle.lf_barrier.specs.Descents.{region_targets};
ghost use Rattle.lf_domain.specs.Counts.{IsDomain};
ghost use Rattle.lf_graph.specs.StoredRows.{CountedRow, HasRow, fields_at, owner_at};
ghost use Rattle.lf_regions.specs.declared.region.Region.{Region};
ghost use Rattle.lf_regions.specs.Regions.{has_region};
ghost use Rattle.lf_transfer.specs.RegionRows.{HasBorrowRoom, RegionsThere, TurnsLocal, region_cells};

use lf_base::{ObjId, Owner, Steps, Value};
use lf_graph::Store;
use lf_regions::RegionTable;
use std::sync::ledger::Ledger;

/// Each reference of a row of region r into another region borrows that region, and owns
/// it no more.
pub fn localize_region<S: Store, L: Ledger>(
    store: &S,
    regions: &mut RegionTable,
    r: ObjId,
    steps: &mut Steps<L>,
)
    requires domain { (s : State) × IsDomain (S.rows store.now) regions.old s }
    requires fits { HasBorrowRoom regions.old (length (region_targets (S.rows store.now) r)) }
    ensures turns { TurnsLocal (S.rows store.now) r (region_targets (S.rows store.now) r) regions.old regions.new }
    ensures steps { steps.new ≤ steps.old + (1 + 2 * region_cells (S.rows store.now) r) }
{
    let mut next = store.first(Owner::In(r), steps);
    while let Some(p) = next {
        localize_row(store, regions, p, r, steps);
        next = store.next(p, steps);
    }
}

// The same of the fields of row p.
fn localize_row<S: Store, L: Ledger>(
    store: &S,
    regions: &mut RegionTable,
    p: ObjId,
    r: ObjId,
    steps: &mut Steps<L>,
)
    requires domain { (table : List Region) × ((s : State) × IsDomain (S.rows store.now) table s) }
    requires regions { RegionsThere (S.rows store.now) regions.old }
    requires there { HasRow (S.rows store.now) p }
    requires fits { HasBorrowRoom regions.old (length (field_targets (fields_at (S.rows store.now) p))) }
    ensures turns { TurnsLocal (S.rows store.now) r (field_targets (fields_at (S.rows store.now) p)) regions.old regions.new }
    ensures steps { steps.new ≤ steps.old + (1 + 2 * length (fields_at (S.rows store.now) p)) }
{
    let width = store.width(p, steps);
    let mut last = None;
    for _turn in 0..width {
        let Some((key, v)) = store.field_after(p, last, steps) else {
            unreachable!()
        };
        localize_value(store, regions, v, r, steps);
        last = Some(key);
    }
}

// The same of a value.
fn localize_value<S: Store, L: Ledger>(
    store: &S,
    regions: &mut RegionTable,
    v: Value,
    r: ObjId,
    steps: &mut Steps<L>,
)
    requires regions { RegionsThere (S.rows store.now) regions.old }
    requires fits { HasBorrowRoom regions.old (length (targets_of_value v)) }
    ensures turns { TurnsLocal (S.rows store.now) r (targets_of_value v) regions.old regions.new }
    ensures steps { steps.new ≤ steps.old + 1 }
{
    if let Some(o) = v.object() {
        localize_object(store, regions, o, r, steps);
    }
}

// The same of an object.
fn localize_object<S: Store, L: Ledger>(
    store: &S,
    regions: &mut RegionTable,
    o: ObjId,
    r: ObjId,
    steps: &mut Steps<L>,
)
    requires regions { RegionsThere (S.rows store.now) regions.old }
    requires fits { HasBorrowRoom regions.old 1 }
    ensures turns { TurnsLocal (S.rows store.now) r (o ∷ []) regions.old regions.new }
    ensures steps { steps.new ≤ steps.old + 1 }
{
    let Some(owner) = store.owner(o, steps) else {
        return;
    };
    match owner {
        Owner::Local => {}
        Owner::In(q) => borrow_other(regions, q, r),
        Owner::Frozen => {}
    }
}

// Region q, where it isn't r, is borrowed once more and owned no more.
fn borrow_other(regions: &mut RegionTable, q: ObjId, r: ObjId)
    requires there { has_region regions.old q ≡ true }
    requires fits { HasBorrowRoom regions.old 1 }
    ensures { (rows : List CountedRow) (o : Name) → owner_at rows o ≡ Some (In q)
        → TurnsLocal rows r (o ∷ []) regions.old regions.new }
{
    if r.is_same(q) {
        return;
    }
    regions.set_owned(q, false);
    regions.borrow(q, 1);
}
