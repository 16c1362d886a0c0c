//! Calls of any store that ask for nothing: each tests first what the store's call
//! needs, and makes the room. For tests and measurements.

ghost use Rattle.std.specs.Prelude.{◌≡◌, ◌↔◌, IfOk, IsTrue};
ghost use Rattle.lf_base.specs.declared.values.Owner.TheVariants.{In};
ghost use Rattle.lf_graph.specs.StoredRows.{HasRow, SameByOwner, rows_of};

use lf_base::{Key, ObjId, OutOfMemory, Owner, Steps, Value};
use lf_graph::Store;
use std::alloc::Global;
use std::sync::ledger::Ledger;

/// Whether there is a row of that name.
pub fn is_there<S: Store, L: Ledger>(store: &S, o: ObjId, steps: &mut Steps<L>) -> bool
    ensures { IsTrue result ↔ HasRow (S.rows store.now) o }
{
    store.owner(o, steps).is_some()
}

/// Makes a row where there is none of that name. `OutOfMemory` comes where `reserve`
/// has it; no row is made then.
pub fn offer_row<S: Store, L: Ledger>(
    store: &mut S,
    o: ObjId,
    owner: Owner,
    steps: &mut Steps<L>,
) -> Result<(), OutOfMemory> {
    store.reserve(owner, 1)?;
    if !is_there(store, o, steps) {
        store.insert(o, owner, steps);
    }
    Ok(())
}

/// Drops a row where there is one of that name.
pub fn withdraw_row<S: Store, L: Ledger>(store: &mut S, o: ObjId, steps: &mut Steps<L>) {
    if is_there(store, o, steps) {
        store.remove(o, steps);
    }
}

/// Sets a field where there is such a row, and gives the old value. `OutOfMemory` comes
/// where `reserve` has it; no field is set then.
pub fn offer_field<S: Store, L: Ledger>(
    store: &mut S,
    o: ObjId,
    key: Key,
    v: Value,
    steps: &mut Steps<L>,
) -> Result<Option<Value>, OutOfMemory> {
    let Some(owner) = store.owner(o, steps) else {
        return Ok(None);
    };
    store.reserve(owner, 1)?;
    if store.owner(o, steps) != Some(owner) {
        return Ok(None);
    }
    Ok(store.set_field(o, key, v, steps))
}

/// Takes a field where there is such a row.
pub fn withdraw_field<S: Store, L: Ledger>(
    store: &mut S,
    o: ObjId,
    key: Key,
    steps: &mut Steps<L>,
) -> Option<Value> {
    if !is_there(store, o, steps) {
        return None;
    }
    store.take_field(o, key, steps)
}

/// Gives a row to an owner where there is such a row. `OutOfMemory` comes where
/// `reserve` has it; the row stays where it is then.
pub fn offer_owner<S: Store, L: Ledger>(
    store: &mut S,
    o: ObjId,
    owner: Owner,
    steps: &mut Steps<L>,
) -> Result<(), OutOfMemory> {
    if !is_there(store, o, steps) {
        return Ok(());
    }
    let width = store.width(o, steps);
    store.reserve(owner, width as usize + 1)?;
    if is_there(store, o, steps) && store.width(o, steps) == width {
        store.set_owner(o, owner, steps);
    }
    Ok(())
}

/// Counts an edge to a row where there is such a row and its count isn't full.
pub fn offer_ref<S: Store, L: Ledger>(store: &mut S, o: ObjId, steps: &mut Steps<L>) {
    if is_there(store, o, steps) && store.refs(o, steps) < u64::MAX {
        store.add_ref(o, steps);
    }
}

/// Counts an edge less to a row where there is such a row and its count isn't 0.
pub fn withdraw_ref<S: Store, L: Ledger>(store: &mut S, o: ObjId, steps: &mut Steps<L>) {
    if is_there(store, o, steps) && store.refs(o, steps) > 0 {
        store.sub_ref(o, steps);
    }
}

/// The row after a row where there is such a row.
pub fn next_of<S: Store, L: Ledger>(store: &S, o: ObjId, steps: &mut Steps<L>) -> Option<ObjId> {
    if !is_there(store, o, steps) {
        return None;
    }
    store.next(o, steps)
}

/// The count of a row where there is such a row.
pub fn refs_of<S: Store, L: Ledger>(store: &S, o: ObjId, steps: &mut Steps<L>) -> Option<u64> {
    if !is_there(store, o, steps) {
        return None;
    }
    Some(store.refs(o, steps))
}

/// The number of a row's fields where there is such a row.
pub fn width_of<S: Store, L: Ledger>(store: &S, o: ObjId, steps: &mut Steps<L>) -> Option<u32> {
    if !is_there(store, o, steps) {
        return None;
    }
    Some(store.width(o, steps))
}

/// The field at a place of a row where there is such a row.
pub fn field_of<S: Store, L: Ledger>(
    store: &S,
    o: ObjId,
    at: u32,
    steps: &mut Steps<L>,
) -> Option<(Key, Value)> {
    if !is_there(store, o, steps) {
        return None;
    }
    store.field_at(o, at, steps)
}

/// The field after that of a key of a row, or the row's first one, where there is such
/// a row.
pub fn next_field_of<S: Store, L: Ledger>(
    store: &S,
    o: ObjId,
    after: Option<Key>,
    steps: &mut Steps<L>,
) -> Option<(Key, Value)> {
    if !is_there(store, o, steps) {
        return None;
    }
    store.field_after(o, after, steps)
}

/// Moves the rows of a region into a new store. `OutOfMemory` comes where `new`,
/// `part_out` or `part_in` has it; after the last the region's rows are lost.
pub fn move_region<S: Store>(alloc: Global, store: &mut S, region: ObjId) -> Result<S, OutOfMemory>
    ensures { IfOk result (λ moved. SameByOwner (S.rows moved) (rows_of (In region) (S.rows store.old))) }
{
    let mut moved = S::new(alloc)?;
    let part = store.part_out(region)?;
    match moved.part_in(part) {
        Ok(()) => Ok(moved),
        Err((_part, refused)) => Err(refused),
    }
}
