ghost use Rattle.std.specs.Prelude.{◌≡◌, ◌+◌, ◌<◌, ◌≤◌, ◌++◌, ◌∷◌, [], List, map, take, IfOk, OnOk};
ghost use Rattle.std.specs.Arc.{arc_value};
ghost use Rattle.std.specs.List.{All};
ghost use Rattle.std.specs.Vec.{vec_capacity, vec_len};
ghost use Rattle.lf_frozen.specs.declared.row.FrozenRow.{FrozenRow};
ghost use Rattle.lf_frozen.specs.Drafts.{IsDraft};
ghost use Rattle.lf_frozen.specs.Entries.{Apart, EntriesRise, LeadsToRow, row_behind, rows_of_tables};

use crate::entry::{RowEntry, entries_of};
use crate::row::{FrozenRow, FrozenRows};
use crate::table::Table;
use lf_base::OutOfMemory;
use std::alloc::Global;
use std::sync::Arc;

// The tables of a map with a further batch of rows, but for the batch itself: its rows can be
// handed back until they are put behind a pointer, so that comes last.
#[derive(Drop)]
pub(crate) struct Draft {
    tables: Vec<Table>,
    entries: Arc<Vec<RowEntry>, Global>,
}

impl Draft {
    // For a map of these tables with these rows, whose names are new and differ.
    pub(crate) fn of(tables: &Vec<Table>, rows: &[FrozenRow]) -> Result<Draft, OutOfMemory>
        requires { Apart (rows.now ++ rows_of_tables tables.now.items) }
        ensures { IfOk result (λ draft. IsDraft rows.now tables.now.items draft) }
    {
        let alloc = *tables.allocator();
        let kept = count_kept(tables, rows.len());
        let mut entries = entries_of(alloc, rows)?;
        collect(&tables[kept..], &mut entries)?;
        entries.sort_by_key(|entry| entry.name)?;
        Ok(Draft {
            tables: share_first(tables, kept)?,
            entries: Arc::new(alloc, entries)?,
        })
    }

    // The tables, with that of the batch of these rows. It takes no memory.
    pub(crate) fn finish(self, batch: Arc<FrozenRows, Global>) -> Vec<Table>
        requires leads { All (LeadsToRow (arc_value batch)) (arc_value self.entries).items }
        requires rising { EntriesRise (arc_value self.entries).items }
        requires room { vec_len self.tables < vec_capacity self.tables }
        ensures { result.items ≡ self.tables.items ++ map (row_behind (arc_value batch)) (arc_value self.entries).items ∷ [] }
    {
        let Draft {
            mut tables,
            entries,
        } = self;
        tables.push_reserved(Table::of(entries, batch));
        tables
    }
}

// How many tables stay where rows are added. The others, from the shortest on, are joined with
// the rows: each that is at most four times as long as what it is joined with. So a table
// is more than four times as long as the next one, and a row that is joined is in a table
// that is longer by a quarter at least.
fn count_kept(tables: &Vec<Table>, added: usize) -> usize
    ensures { result ≤ vec_len tables.now }
{
    let mut kept = tables.len();
    let mut joined = added;
    while kept > 0 && tables[kept - 1].len() / 4 <= joined {
        kept -= 1;
        joined = joined.saturating_add(tables[kept].len());
    }
    kept
}

// Adds the entries of all rows of the tables.
fn collect(tables: &[Table], entries: &mut Vec<RowEntry>) -> Result<(), OutOfMemory>
    ensures rows { (own : List FrozenRow)
        → OnOk result (map (row_behind own) entries.new.items ≡ map (row_behind own) entries.old.items ++ rows_of_tables tables.now) }
    ensures leads { (own : List FrozenRow) → All (LeadsToRow own) entries.old.items → OnOk result (All (LeadsToRow own) entries.new.items) }
{
    for table in tables {
        table.add_to(entries)?;
    }
    Ok(())
}

// The first tables, with room for one more.
pub(crate) fn share_first(tables: &Vec<Table>, count: usize) -> Result<Vec<Table>, OutOfMemory>
    requires { count ≤ vec_len tables.now }
    ensures tables { IfOk result (λ shared. shared.items ≡ take count tables.now.items) }
    ensures room { IfOk result (λ shared. vec_len shared < vec_capacity shared) }
{
    let mut shared = Vec::with_capacity(*tables.allocator(), count + 1)?;
    for table in &tables[..count] {
        shared.push(table.share()?)?;
    }
    Ok(shared)
}
