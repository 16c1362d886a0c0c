ghost use Rattle.std.specs.Prelude.{◌≡◌, [], IfOk, IfErr, false};
ghost use Rattle.std.specs.Option.{option_copied};
ghost use Rattle.lf_base.specs.Sets.{Member};
ghost use Rattle.lf_frozen.specs.declared.row.FrozenRow.{FrozenRow};
ghost use Rattle.lf_frozen.specs.Entries.{lesser_row};
ghost use Rattle.lf_frozen.specs.FrozenRows.{FrozenNamesDiffer, RiseByName, frozen_at, has_frozen_row, next_frozen, with_all_frozen};

use crate::draft::{Draft, share_first};
use crate::row::{FrozenRow, FrozenRows};
use crate::table::Table;
use lf_base::{ObjId, OutOfMemory};
use std::alloc::Global;
use std::marker::Model;
use std::sync::Arc;

/// A finite map from names to frozen rows. Contracts see the list of its rows by rising
/// name.
///
/// A name is searched for by halves in one table after the other, the longest first, which has
/// more than three quarters of the rows.
#[derive(Drop)]
pub struct FrozenMap {
    // The larger ones first.
    tables: Vec<Table>,
}

impl Model for FrozenMap {
    ghost use Rattle.std.specs.Prelude.{List};
    ghost use Rattle.lf_frozen.specs.declared.row.FrozenRow.{FrozenRow};
    ghost use Rattle.lf_frozen.specs.Entries.{Apart, put_by_name, rows_of_tables};

    ghost Value = { List FrozenRow };

    ghost view = { λ kept. put_by_name (rows_of_tables kept.tables.items) };

    ghost invariant = { λ kept. Apart (rows_of_tables kept.tables.items) };
}

impl FrozenMap {
    /// The map without rows. It takes no memory.
    pub fn new(alloc: Global) -> FrozenMap
        ensures { result ≡ [] }
    {
        FrozenMap {
            tables: Vec::new(alloc),
        }
    }

    /// The row of a name. None exactly where there is none.
    pub fn get(&self, o: ObjId) -> Option<&FrozenRow>
        ensures found { option_copied result ≡ frozen_at self.now o }
        ensures rising { RiseByName self.now }
    {
        for table in &self.tables {
            let found = table.get(o);
            if found.is_some() {
                return found;
            }
        }
        None
    }

    /// The row of the least name, or of the least name above `after` where one is given.
    /// None exactly where there is none.
    pub fn next_above(&self, after: Option<ObjId>) -> Option<&FrozenRow>
        ensures next { option_copied result ≡ next_frozen self.now after }
        ensures rising { RiseByName self.now }
    {
        let mut next = None;
        for table in &self.tables {
            next = lesser(next, table.next_above(after));
        }
        next
    }

    /// An equal map, which shares all rows, or `OutOfMemory`, which no clause ties to a
    /// cause. It copies two pointers for each table, and each table is more than four times as
    /// long as the next one.
    pub fn share(&self) -> Result<FrozenMap, OutOfMemory>
        ensures shared { IfOk result (λ shared. shared ≡ self.now) }
        ensures rising { RiseByName self.now }
    {
        Ok(FrozenMap {
            tables: share_first(&self.tables, self.tables.len())?,
        })
    }

    /// The map with further rows, in any order, whose names are new and differ. On want of
    /// memory, which no clause ties to a cause, the rows are handed back as they were given.
    ///
    /// Tables are joined as they grow, so that so many rows cost, averaged over the calls that
    /// led to a map, as many steps as the logarithm of its length for each.
    pub fn with(&self, rows: FrozenRows) -> Result<FrozenMap, (FrozenRows, OutOfMemory)>
        requires apart { FrozenNamesDiffer rows }
        requires new { (row : FrozenRow) → Member row rows → has_frozen_row self.now row.id ≡ false }
        ensures added { IfOk result (λ map. map ≡ with_all_frozen rows self.now) }
        ensures handed_back { IfErr result (λ e. e.0 ≡ rows) }
        ensures rising { RiseByName self.now }
    {
        let draft = match Draft::of(&self.tables, rows.as_slice()) {
            Ok(draft) => draft,
            Err(wanted) => return Err((rows, wanted)),
        };
        match Arc::new(*self.tables.allocator(), rows) {
            Ok(batch) => Ok(FrozenMap {
                tables: draft.finish(batch),
            }),
            Err(failed) => Err((failed.value, OutOfMemory)),
        }
    }
}

// The row of the lesser name, where both are there.
fn lesser<'a>(first: Option<&'a FrozenRow>, second: Option<&'a FrozenRow>) -> Option<&'a FrozenRow>
    ensures { option_copied result ≡ lesser_row (option_copied first.entry) (option_copied second.entry) }
{
    match (first, second) {
        (Some(row), Some(other)) if !row.id.is_below(other.id) => Some(other),
        (Some(row), _) => Some(row),
        (None, other) => other,
    }
}
