//! What a freeze takes: the rows to which a value leads, with the whole region of each
//! bridge among them.

ghost use Rattle.std.specs.Prelude.{◌≡◌, ◌++◌, ◌∷◌, [], IfOk, List, OnOk, true};
ghost use Rattle.lf_base.specs.declared.ids.ObjId.{ObjId as Name};
ghost use Rattle.lf_base.specs.declared.values.Owner.TheVariants.{In};
ghost use Rattle.lf_base.specs.Edges.{field_targets};
ghost use Rattle.lf_base.specs.FreezeResult.{freeze_set};
ghost use Rattle.lf_base.specs.Names.{targets_of_value};
ghost use Rattle.lf_base.specs.Owners.{has_name, has_row};
ghost use Rattle.lf_base.specs.PlainState.{State};
ghost use Rattle.lf_domain.specs.Counts.{IsDomain};
ghost use Rattle.lf_graph.specs.RowOrder.{names_under};
ghost use Rattle.lf_graph.specs.StoredRows.{HasRow, fields_at, owner_at};
ghost use Rattle.lf_regions.specs.declared.region.Region.{Region};
ghost use Rattle.lf_transfer.specs.Taking.{IsTaking, Takes, brought, frozen_of, is_stored, owned_rows, region_of, region_with};

use crate::names::{add, name_at};
use indexmap::IndexSet;
use lf_base::{Fields, Key, ObjId, OutOfMemory, Owner, Steps, Value};
use lf_frozen::{FrozenRow, FrozenRows};
use lf_graph::Store;
use std::alloc::Global;
use std::sync::ledger::Ledger;

/// What a freeze takes, as far as it was found: the names of the rows; and of those that
/// were looked at the regions in which they lie, and the frozen rows that they become.
#[derive(Drop)]
pub struct Taking {
    pub taken: IndexSet<ObjId>,
    pub regions: IndexSet<ObjId>,
    pub rows: FrozenRows,
}

/// Finds all that a freeze of a value takes. It looks at each row once, at each of its
/// fields once, and once more at each row that a bridge brings in.
pub fn find_taken<S: Store, L: Ledger>(
    alloc: Global,
    store: &S,
    v: Value,
    steps: &mut Steps<L>,
) -> Result<Taking, OutOfMemory>
    requires domain { (regions : List Region) × ((s : State) × IsDomain (S.rows store.now) regions s) }
    ensures all { IfOk result (λ found. IsTaking (S.rows store.now) v found) }
    ensures within { IfOk result (λ found. (regions : List Region) (s : State) → IsDomain (S.rows store.now) regions s → (o : Name)
        → has_name (found.taken).keys o ≡ true → has_row (freeze_set s v) o ≡ true) }
{
    let mut found = Taking::new(alloc);
    take_value(store, &mut found.taken, v, steps)?;
    for at in 0..usize::MAX {
        let Some(p) = name_at(&found.taken, at) else {
            return Ok(found);
        };
        found.look_at(alloc, store, p, steps)?;
    }
    Err(OutOfMemory)
}

impl Taking {
    // Nothing is found yet.
    fn new(alloc: Global) -> Taking
        ensures taken { (result.taken).keys ≡ [] }
        ensures regions { (result.regions).keys ≡ [] }
        ensures rows { result.rows ≡ [] }
    {
        Taking {
            taken: IndexSet::new(alloc),
            regions: IndexSet::new(alloc),
            rows: FrozenRows::new(alloc),
        }
    }

    // Takes what row p brings in, and notes its region and its frozen row.
    fn look_at<S: Store, L: Ledger>(
        &mut self,
        alloc: Global,
        store: &S,
        p: ObjId,
        steps: &mut Steps<L>,
    ) -> Result<(), OutOfMemory>
        requires domain { (regions : List Region) × ((s : State) × IsDomain (S.rows store.now) regions s) }
        requires there { HasRow (S.rows store.now) p }
        ensures taken { OnOk result (Takes (is_stored (S.rows store.now)) (brought (S.rows store.now) p) self.old.taken.keys self.new.taken.keys) }
        ensures regions { OnOk result (self.new.regions.keys
            ≡ region_with self.old.regions.keys (region_of (owner_at (S.rows store.now) p))) }
        ensures rows { OnOk result (self.new.rows ≡ self.old.rows ++ frozen_of (S.rows store.now) p ∷ []) }
    {
        let fields = take_fields(alloc, store, &mut self.taken, p, steps)?;
        push(&mut self.rows, p, fields)?;
        let region = region_at(store.owner(p, steps));
        note(&mut self.regions, region)?;
        take_region(store, &mut self.taken, p, region, steps)?;
        Ok(())
    }
}

// Puts a frozen row at the end.
fn push(rows: &mut FrozenRows, id: ObjId, fields: Fields) -> Result<(), OutOfMemory>
    ensures { OnOk result (rows.new ≡ rows.old ++ record { id = id; fields = fields } ∷ []) }
{
    match rows.push(FrozenRow { id, fields }) {
        Ok(()) => Ok(()),
        Err((_row, wanted)) => Err(wanted),
    }
}

// The region of a row, where it lies in one.
fn region_at(owner: Option<Owner>) -> Option<ObjId>
    ensures { result ≡ region_of owner }
{
    match owner {
        Some(Owner::In(r)) => Some(r),
        Some(Owner::Local) => None,
        Some(Owner::Frozen) => None,
        None => None,
    }
}

// Notes a region, where one is given.
fn note(regions: &mut IndexSet<ObjId>, region: Option<ObjId>) -> Result<(), OutOfMemory>
    ensures { OnOk result (regions.new.keys ≡ region_with regions.old.keys region) }
{
    match region {
        Some(r) => add(regions, r),
        None => Ok(()),
    }
}

// Takes all rows of the region of row p, where p is its bridge.
fn take_region<S: Store, L: Ledger>(
    store: &S,
    taken: &mut IndexSet<ObjId>,
    p: ObjId,
    region: Option<ObjId>,
    steps: &mut Steps<L>,
) -> Result<(), OutOfMemory>
    requires domain { (regions : List Region) × ((s : State) × IsDomain (S.rows store.now) regions s) }
    ensures { OnOk result (Takes (is_stored (S.rows store.now)) (owned_rows (S.rows store.now) p region) taken.old.keys taken.new.keys) }
{
    match region {
        Some(r) if r.is_same(p) => take_rows(store, taken, r, steps),
        _ => Ok(()),
    }
}

// Takes all rows of region r.
fn take_rows<S: Store, L: Ledger>(
    store: &S,
    taken: &mut IndexSet<ObjId>,
    r: ObjId,
    steps: &mut Steps<L>,
) -> Result<(), OutOfMemory>
    requires domain { (regions : List Region) × ((s : State) × IsDomain (S.rows store.now) regions s) }
    ensures { OnOk result (Takes (is_stored (S.rows store.now)) (names_under (In r) (S.rows store.now)) taken.old.keys taken.new.keys) }
{
    let mut next = store.first(Owner::In(r), steps);
    while let Some(p) = next {
        add(taken, p)?;
        next = store.next(p, steps);
    }
    Ok(())
}

// Takes the objects to which the fields of row p refer, and gives a copy of the fields.
fn take_fields<S: Store, L: Ledger>(
    alloc: Global,
    store: &S,
    taken: &mut IndexSet<ObjId>,
    p: ObjId,
    steps: &mut Steps<L>,
) -> Result<Fields, OutOfMemory>
    requires domain { (regions : List Region) × ((s : State) × IsDomain (S.rows store.now) regions s) }
    requires there { HasRow (S.rows store.now) p }
    ensures taken { OnOk result (Takes (is_stored (S.rows store.now)) (field_targets (fields_at (S.rows store.now) p)) taken.old.keys taken.new.keys) }
    ensures fields { IfOk result (λ fields. fields ≡ fields_at (S.rows store.now) p) }
{
    let mut fields = Fields::new(alloc);
    let width = store.width(p, steps);
    let mut last = None;
    for _turn in 0..width {
        let Some((key, v)) = store.field_after(p, last, steps) else {
            unreachable!()
        };
        take_value(store, taken, v, steps)?;
        push_field(&mut fields, key, v)?;
        last = Some(key);
    }
    Ok(fields)
}

// Puts a field at the end.
fn push_field(fields: &mut Fields, key: Key, v: Value) -> Result<(), OutOfMemory>
    ensures { OnOk result (fields.new ≡ fields.old ++ (key, v) ∷ []) }
{
    match fields.push((key, v)) {
        Ok(()) => Ok(()),
        Err((_field, wanted)) => Err(wanted),
    }
}

// Takes the object to which a value refers, where it refers to one.
fn take_value<S: Store, L: Ledger>(
    store: &S,
    taken: &mut IndexSet<ObjId>,
    v: Value,
    steps: &mut Steps<L>,
) -> Result<(), OutOfMemory>
    ensures { OnOk result (Takes (is_stored (S.rows store.now)) (targets_of_value v) taken.old.keys taken.new.keys) }
{
    match v.object() {
        Some(o) => take_object(store, taken, o, steps),
        None => Ok(()),
    }
}

// Takes an object, where the store has its row: a frozen one isn't there.
fn take_object<S: Store, L: Ledger>(
    store: &S,
    taken: &mut IndexSet<ObjId>,
    o: ObjId,
    steps: &mut Steps<L>,
) -> Result<(), OutOfMemory>
    ensures { OnOk result (Takes (is_stored (S.rows store.now)) (o ∷ []) taken.old.keys taken.new.keys) }
{
    match store.owner(o, steps) {
        Some(_owner) => {
            add(taken, o)?;
            Ok(())
        }
        None => Ok(()),
    }
}
