//! Callers that know a store by its trait alone. Each is proved for every store.

ghost use Rattle.std.specs.Prelude.{◌≡◌, ◌≢◌, ◌+◌, ◌^◌, ◌-◌, ◌<◌, ◌↔◌, ◌∷◌, [], false, is_some, map, option_map, slice_get, IfErr, IfOk};
ghost use Rattle.std.specs.Prelude.{IsTrue, OnErr, OnOk};
ghost use Rattle.std.specs.Bool.{OnFalse, OnTrue};
ghost use Rattle.lf_base.specs.declared.values.Owner.TheVariants.{In};
ghost use Rattle.lf_base.specs.Names.{same_key, same_name};
ghost use Rattle.lf_base.specs.Sets.{Differ};
ghost use Rattle.lf_graph.specs.Parts.{IsLeft};
ghost use Rattle.lf_graph.specs.Room.{LowersNone, LowersOwnerOf};
ghost use Rattle.lf_graph.specs.RowChanges.{lowered, moved_last, new_row, raised, with_field_of, without_field_of, without_row};
ghost use Rattle.lf_graph.specs.StoredRows.{HasRow, NamesDiffer, SameByOwner, field_value_at, fields_at, fields_by, first_name};
ghost use Rattle.lf_graph.specs.StoredRows.{owner_at, refs_at, rows_of, two_names};

use crate::store::Store;
use lf_base::{Fields, Key, ObjId, OutOfMemory, Owner, Steps, Value};
use std::alloc::Global;
use std::sync::ledger::Ledger;

/// A store with one row. `OutOfMemory` comes where `new` or `reserve` has it.
pub fn store_of_one<S: Store, L: Ledger>(
    alloc: Global,
    o: ObjId,
    owner: Owner,
    steps: &mut Steps<L>,
) -> Result<S, OutOfMemory>
    ensures { IfOk result (λ store. SameByOwner (S.rows store) (new_row o owner ∷ [])) }
{
    let mut store = S::new(alloc)?;
    store.reserve(owner, 1)?;
    store.insert(o, owner, steps);
    Ok(store)
}

/// The first row of an owner and the one after it.
pub fn first_two<S: Store, L: Ledger>(
    store: &S,
    owner: Owner,
    steps: &mut Steps<L>,
) -> Option<(ObjId, Option<ObjId>)>
    requires differ { NamesDiffer (S.rows store.now) }
    ensures { result ≡ two_names (rows_of owner (S.rows store.now)) }
{
    let Some(first) = store.first(owner, steps) else {
        return None;
    };
    Some((first, store.next(first, steps)))
}

/// Whether there is a row of that name.
pub fn has_row<S: Store, L: Ledger>(store: &S, o: ObjId, steps: &mut Steps<L>) -> bool
    ensures { result ≡ is_some (owner_at (S.rows store.now) o) }
{
    store.owner(o, steps).is_some()
}

/// A copy of a row's fields, or `OutOfMemory`.
pub fn copy_fields<S: Store, L: Ledger>(
    alloc: Global,
    store: &S,
    o: ObjId,
    steps: &mut Steps<L>,
) -> Result<Fields, OutOfMemory>
    requires there { HasRow (S.rows store.now) o }
    ensures { IfOk result (λ fields. fields ≡ fields_at (S.rows store.now) o) }
{
    let width = store.width(o, steps);
    let mut fields = Fields::new(alloc);
    for at in 0..width {
        let Some(field) = store.field_at(o, at, steps) else {
            unreachable!()
        };
        let Ok(()) = fields.push(field) else {
            return Err(OutOfMemory);
        };
    }
    Ok(fields)
}

/// A copy of a row's fields by a walk from each to the one after it, or `OutOfMemory`.
pub fn walk_fields<S: Store, L: Ledger>(
    alloc: Global,
    store: &S,
    o: ObjId,
    steps: &mut Steps<L>,
) -> Result<Fields, OutOfMemory>
    requires there { HasRow (S.rows store.now) o }
    requires differ { Differ same_key (map (λ f. f.0) (fields_at (S.rows store.now) o)) }
    ensures { IfOk result (λ fields. fields ≡ fields_at (S.rows store.now) o) }
{
    let width = store.width(o, steps);
    let mut fields = Fields::new(alloc);
    let mut last = None;
    for _turn in 0..width {
        let Some(field) = store.field_after(o, last, steps) else {
            unreachable!()
        };
        let Ok(()) = fields.push(field) else {
            return Err(OutOfMemory);
        };
        last = Some(field.0);
    }
    Ok(fields)
}

/// Replaces the value of a field where the row has it, which needs no room, and tells
/// whether it has.
pub fn replace_field<S: Store, L: Ledger>(
    store: &mut S,
    o: ObjId,
    key: Key,
    v: Value,
    steps: &mut Steps<L>,
) -> bool
    requires there { HasRow (S.rows store.old) o }
    ensures there { result ≡ is_some (field_value_at (S.rows store.old) o key) }
    ensures replaced { OnTrue result (SameByOwner (S.rows store.new) (with_field_of (S.rows store.old) o key v)) }
    ensures unchanged { OnFalse result (SameByOwner (S.rows store.new) (S.rows store.old)) }
    ensures room { LowersNone (S.spare store.old) (S.spare store.new) }
{
    if store.field(o, key, steps).is_none() {
        return false;
    }
    let _ = store.set_field(o, key, v, steps);
    true
}

/// Drops a field.
pub fn drop_field<S: Store, L: Ledger>(store: &mut S, o: ObjId, key: Key, steps: &mut Steps<L>)
    requires there { HasRow (S.rows store.old) o }
    ensures rows { SameByOwner (S.rows store.new) (without_field_of (S.rows store.old) o key) }
    ensures room { LowersNone (S.spare store.old) (S.spare store.new) }
{
    let _ = store.take_field(o, key, steps);
}

/// Drops a row.
pub fn drop_row<S: Store, L: Ledger>(store: &mut S, o: ObjId, steps: &mut Steps<L>)
    requires there { HasRow (S.rows store.old) o }
    ensures rows { SameByOwner (S.rows store.new) (without_row (S.rows store.old) o) }
    ensures room { LowersOwnerOf (S.spare store.old) (S.spare store.new) (S.rows store.old) o }
{
    store.remove(o, steps);
}

/// Counts an edge at another row, and tells the count that is left at the first one.
pub fn count_elsewhere<S: Store, L: Ledger>(
    store: &mut S,
    from: ObjId,
    to: ObjId,
    steps: &mut Steps<L>,
) -> u64
    requires differ { NamesDiffer (S.rows store.old) }
    requires from { HasRow (S.rows store.old) from }
    requires to { HasRow (S.rows store.old) to }
    requires other { same_name to from ≡ false }
    requires above { 0 < refs_at (S.rows store.old) from }
    requires below { refs_at (S.rows store.old) to < 2 ^ 64 - 1 }
    ensures left { result + 1 ≡ refs_at (S.rows store.old) from }
    ensures rows { SameByOwner (S.rows store.new) (raised (lowered (S.rows store.old) from) to) }
{
    let left = store.refs(from, steps) - 1;
    store.sub_ref(from, steps);
    store.add_ref(to, steps);
    left
}

/// Gives a row to an owner, after room was made. `OutOfMemory` comes where `reserve`
/// has it; all rows stay then.
pub fn give_row<S: Store, L: Ledger>(
    store: &mut S,
    o: ObjId,
    owner: Owner,
    steps: &mut Steps<L>,
) -> Result<(), OutOfMemory>
    requires differ { NamesDiffer (S.rows store.old) }
    requires there { HasRow (S.rows store.old) o }
    ensures moved { OnOk result (SameByOwner (S.rows store.new) (moved_last (S.rows store.old) o owner)) }
    ensures unchanged { OnErr result (SameByOwner (S.rows store.new) (S.rows store.old)) }
{
    let width = store.width(o, steps) as usize;
    store.reserve(owner, width + 1)?;
    store.set_owner(o, owner, steps);
    Ok(())
}

/// Takes a region out and puts it back, after which each owner has the rows that it
/// had. After `OutOfMemory` they have them too, but where a part is handed back: it has
/// the region's rows, and all others stay.
pub fn out_and_in<S: Store>(
    store: &mut S,
    region: ObjId,
) -> Result<(), (Option<S::Part>, OutOfMemory)>
    requires differ { NamesDiffer (S.rows store.old) }
    ensures back { OnOk result (SameByOwner (S.rows store.new) (S.rows store.old)) }
    ensures left { IfErr result (λ refused.
        IsLeft (option_map (λ part. S.part_rows part) refused.0) (In region) (S.rows store.old) (S.rows store.new)) }
{
    let part = match store.part_out(region) {
        Ok(part) => part,
        Err(refused) => return Err((None, refused)),
    };
    match store.part_in(part) {
        Ok(()) => Ok(()),
        Err((part, refused)) => Err((Some(part), refused)),
    }
}

/// The name of a part's first row.
pub fn first_of_part<S: Store>(part: &S::Part) -> Option<ObjId>
    ensures { result ≡ first_name (S.part_rows part.now) }
{
    match S::part_row(part, 0) {
        Some(head) => Some(head.name),
        None => None,
    }
}

/// The first field of a part's first row.
pub fn first_field<S: Store>(part: &S::Part) -> Option<(Key, Value)>
    ensures { result ≡ slice_get (fields_by (slice_get (S.part_rows part.now) 0)) 0 }
{
    S::part_field(part, 0, 0)
}
