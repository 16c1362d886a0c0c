//! Maps of frozen rows that many calls made, beside the plain list of their names.

ghost use Rattle.std.specs.Prelude.{IfOk};
ghost use Rattle.lf_frozen.specs.FrozenRows.{FrozenNamesDiffer};
ghost use Rattle.lf_trials.specs.FrozenBatches.{AreNumbered};

use lf_base::{Fields, Key, ObjId, OutOfMemory, Value};
use lf_frozen::{FrozenMap, FrozenRow, FrozenRows};
use std::alloc::Global;

// One field, by which a row is known again.
fn fields_of(alloc: Global, id: ObjId) -> Result<Fields, OutOfMemory> {
    let mut fields = Fields::new(alloc);
    let field = (Key::Int(i64::from(id.seq)), Value::Int(i64::from(id.birth)));
    match fields.push(field) {
        Ok(()) => Ok(fields),
        Err((_field, wanted)) => Err(wanted),
    }
}

/// Rows of one field: one for each birth below the given number, all with one number.
pub fn batch(alloc: Global, births: u32, seq: u32) -> Result<FrozenRows, OutOfMemory>
    ensures apart { IfOk result FrozenNamesDiffer }
    ensures numbered { IfOk result (AreNumbered seq) }
{
    let mut rows = FrozenRows::new(alloc);
    for birth in 0..births {
        let id = ObjId { birth, seq };
        let fields = fields_of(alloc, id)?;
        if let Err((_row, wanted)) = rows.push(FrozenRow { id, fields }) {
            return Err(wanted);
        }
    }
    Ok(rows)
}

/// The map that so many calls make, each of which adds a batch of the next number.
pub fn made(alloc: Global, births: u32, calls: u32) -> Result<FrozenMap, OutOfMemory> {
    let mut map = FrozenMap::new(alloc);
    for seq in 0..calls {
        map = match map.with(batch(alloc, births, seq)?) {
            Ok(map) => map,
            Err((_rows, wanted)) => return Err(wanted),
        };
    }
    Ok(map)
}

// Adds the names of one birth.
fn add_names(names: &mut Vec<ObjId>, birth: u32, calls: u32) -> Result<(), OutOfMemory> {
    for seq in 0..calls {
        names.push(ObjId { birth, seq })?;
    }
    Ok(())
}

/// The names of such a map, rising.
pub fn names(alloc: Global, births: u32, calls: u32) -> Result<Vec<ObjId>, OutOfMemory> {
    let mut names = Vec::new(alloc);
    for birth in 0..births {
        add_names(&mut names, birth, calls)?;
    }
    Ok(names)
}

// Whether it is the row of that name that a batch has.
fn is_row_of(row: &FrozenRow, id: ObjId) -> bool {
    let Some(field) = row.fields.get(0) else {
        return false;
    };
    let (key, value) = *field;
    row.id == id && key == Key::Int(i64::from(id.seq)) && value == Value::Int(i64::from(id.birth))
}

/// Whether the map has the row of each name.
pub fn has_rows(map: &FrozenMap, names: &[ObjId]) -> bool {
    for &name in names {
        match map.get(name) {
            Some(row) if is_row_of(row, name) => {}
            _ => return false,
        }
    }
    true
}

/// Whether the map has a row of none of the names.
pub fn has_none(map: &FrozenMap, names: &[ObjId]) -> bool {
    for &name in names {
        if map.get(name).is_some() {
            return false;
        }
    }
    true
}

/// Whether the map has the rows of these names, one above the other, and no more.
pub fn has_in_order(map: &FrozenMap, names: &[ObjId]) -> bool {
    let mut after = None;
    for &name in names {
        match map.next_above(after) {
            Some(row) if is_row_of(row, name) => after = Some(name),
            _ => return false,
        }
    }
    map.next_above(after).is_none()
}

/// Whether the map that so many calls make, and one that shares its rows, have the rows of
/// the plain list and no others.
pub fn agrees(alloc: Global, births: u32, calls: u32) -> Result<bool, OutOfMemory> {
    let map = made(alloc, births, calls)?;
    let shared = map.share()?;
    let there = names(alloc, births, calls)?;
    let mut absent = Vec::new(alloc);
    add_names(&mut absent, births, calls)?;
    Ok(
        has_rows(&map, &there)
            && has_none(&map, &absent)
            && has_in_order(&map, &there)
            && has_in_order(&shared, &there),
    )
}
