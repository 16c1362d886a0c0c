//! The frozen rows of a behaviour.

ghost use Rattle.std.specs.Prelude.{◌≡◌, ◌++◌, map};
ghost use Rattle.std.specs.Option.{option_map};
ghost use Rattle.lf_base.specs.Owners.{row_at};
ghost use Rattle.lf_base.specs.TakeResult.{field_at, row_field};
ghost use Rattle.lf_frozen.specs.FrozenRows.{as_row, frozen_at};

use lf_base::{Key, ObjId, Value};
use lf_frozen::{FrozenMap, FrozenRow};

/// The frozen rows of a behaviour: those that it was given, and those that it froze
/// itself.
#[derive(Drop)]
pub(crate) struct FrozenParts {
    pub(crate) given: FrozenMap,
    pub(crate) own: FrozenMap,
}

// The value of a row's field.
fn field_of_row(row: &FrozenRow, key: Key) -> Option<Value>
    ensures { result ≡ field_at row.now.fields key }
{
    for (name, v) in row.fields.as_slice() {
        if name.is_same(key) {
            return Some(*v);
        }
    }
    None
}

// The field of a map's row; `None` where the row or the field isn't there.
fn field_in(map: &FrozenMap, o: ObjId, key: Key) -> Option<Value>
    ensures { result ≡ row_field (option_map as_row (frozen_at map.now o)) key }
{
    match map.get(o) {
        Some(row) => field_of_row(row, key),
        None => None,
    }
}

impl FrozenParts {
    /// The field of a frozen row; `None` where the row or the field isn't there.
    pub(crate) fn frozen_field(&self, o: ObjId, key: Key) -> Option<Value>
        ensures { result ≡ row_field (row_at (map as_row self.now.given ++ map as_row self.now.own) o) key }
    {
        match self.given.get(o) {
            Some(row) => field_of_row(row, key),
            None => field_in(&self.own, o, key),
        }
    }
}
