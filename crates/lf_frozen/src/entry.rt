ghost use Rattle.std.specs.Prelude.{◌≡◌, List, map, IfOk};
ghost use Rattle.std.specs.Arc.{arc_value};
ghost use Rattle.std.specs.List.{All};
ghost use Rattle.lf_frozen.specs.declared.row.FrozenRow.{FrozenRow};
ghost use Rattle.lf_frozen.specs.Entries.{LeadsToRow, row_behind};

use crate::row::{FrozenRow, FrozenRows};
use lf_base::{ObjId, OutOfMemory};
use std::alloc::Global;
use std::sync::Arc;

// Where one row of a table stands: its name, so that a search reads no row, the batch that has
// it, and its place there. Without a batch it is the table's own.
#[derive(Drop)]
pub(crate) struct RowEntry {
    pub(crate) name: ObjId,
    pub(crate) at: usize,
    pub(crate) batch: Option<Arc<FrozenRows, Global>>,
}

impl RowEntry {
    // The row, where the table has that batch.
    pub(crate) fn row<'a>(&'a self, own: &'a FrozenRows) -> &'a FrozenRow
        requires { LeadsToRow own.now self.now }
        ensures { result.now ≡ row_behind own.now self.now }
    {
        let batch: &FrozenRows = match &self.batch {
            Some(batch) => batch,
            None => own,
        };
        &batch.as_slice()[self.at]
    }

    // The entry for a table of another batch.
    pub(crate) fn moved(&self, own: &Arc<FrozenRows, Global>) -> Result<RowEntry, OutOfMemory>
        ensures row { IfOk result (λ entry. (other : List FrozenRow) → row_behind other entry ≡ row_behind (arc_value own.now) self.now) }
        ensures leads { IfOk result (λ entry. (other : List FrozenRow) → LeadsToRow (arc_value own.now) self.now → LeadsToRow other entry) }
    {
        let batch = match &self.batch {
            Some(batch) => batch,
            None => own,
        };
        Ok(RowEntry {
            name: self.name,
            at: self.at,
            batch: Some(batch.clone()?),
        })
    }
}

// An entry for each row of a batch, in their order.
pub(crate) fn entries_of(alloc: Global, rows: &[FrozenRow]) -> Result<Vec<RowEntry>, OutOfMemory>
    ensures rows { IfOk result (λ entries. map (row_behind rows.now) entries.items ≡ rows.now) }
    ensures leads { IfOk result (λ entries. All (LeadsToRow rows.now) entries.items) }
{
    let mut entries = Vec::with_capacity(alloc, rows.len())?;
    for (at, row) in rows.iter().enumerate() {
        entries.push(RowEntry {
            name: row.id,
            at,
            batch: None,
        })?;
    }
    Ok(entries)
}
