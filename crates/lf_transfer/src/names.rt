//! Sets of names, in the order in which they came.

ghost use Rattle.std.specs.Prelude.{◌≡◌, OnOk, slice_get};
ghost use Rattle.lf_base.specs.Owners.{has_name};
ghost use Rattle.lf_barrier.specs.Surveys.{names_with};

use indexmap::IndexSet;
use lf_base::{ObjId, OutOfMemory};

/// Puts a name last among names, where it isn't there yet.
pub fn add(names: &mut IndexSet<ObjId>, o: ObjId) -> Result<(), OutOfMemory>
    ensures { OnOk result (names.new.keys ≡ names_with names.old.keys o) }
{
    names.insert(o)?;
    Ok(())
}

/// Whether a name is among them.
pub fn has(names: &IndexSet<ObjId>, o: ObjId) -> bool
    ensures { result ≡ has_name names.now.keys o }
{
    names.contains(&o)
}

/// The name at a place, counted from 0; `None` past the end.
pub fn name_at(names: &IndexSet<ObjId>, place: usize) -> Option<ObjId>
    ensures { result ≡ slice_get names.now.keys place }
{
    match names.get_index(place) {
        Some(&name) => Some(name),
        None => None,
    }
}
