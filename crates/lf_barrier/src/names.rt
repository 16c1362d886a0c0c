ghost use Rattle.std.specs.Prelude.{◌≡◌, [], IfOk, OnOk, not, slice_get};
ghost use Rattle.lf_base.specs.Owners.{has_name};
ghost use Rattle.lf_barrier.specs.Surveys.{names_with};

use indexmap::IndexSet;
use lf_base::{ObjId, OutOfMemory};
use std::alloc::Global;

/// No names.
pub fn no_names(alloc: Global) -> IndexSet<ObjId>
    ensures { result.keys ≡ [] }
{
    IndexSet::new(alloc)
}

/// Puts a name last among names, where it isn't there yet, and tells whether it is new.
pub fn add(names: &mut IndexSet<ObjId>, o: ObjId) -> Result<bool, OutOfMemory>
    ensures is_new { IfOk result (λ is_new. is_new ≡ not (has_name names.old.keys o)) }
    ensures added { OnOk result (names.new.keys ≡ names_with names.old.keys o) }
{
    Ok(names.insert(o)?)
}

/// The name at a place, counted from 0; `None` past the end.
pub fn name_at(names: &IndexSet<ObjId>, place: usize) -> Option<ObjId>
    ensures { result ≡ slice_get names.now.keys place }
{
    match names.get_index(place) {
        Some(&name) => Some(name),
        None => None,
    }
}
