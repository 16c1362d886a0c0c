//! All rows of a region given to another owner.

ghost use Rattle.std.specs.Prelude.{◌≡◌, ◌+◌, ◌*◌, ◌≤◌, IfSome, List, Some, false, length};
ghost use Rattle.lf_base.specs.declared.values.Owner.TheVariants.{In};
ghost use Rattle.lf_base.specs.Edges.{Edge};
ghost use Rattle.lf_base.specs.MergeResult.{relabel_region};
ghost use Rattle.lf_base.specs.Owners.{is_in};
ghost use Rattle.lf_base.specs.PlainState.{Row};
ghost use Rattle.lf_graph.specs.StoreCounts.{IsStoreOf};
ghost use Rattle.lf_graph.specs.StoredRows.{NamesDiffer, rows_of};
ghost use Rattle.lf_transfer.specs.RegionRows.{region_cells};

use lf_base::{ObjId, Owner, Steps};
use lf_graph::Store;
use std::sync::ledger::Ledger;

/// The cells that the rows of a region need under another owner, where they can be
/// counted.
pub fn count_cells<S: Store, L: Ledger>(store: &S, r: ObjId, steps: &mut Steps<L>) -> Option<usize>
    requires differ { NamesDiffer (S.rows store.now) }
    ensures { IfSome result (λ cells. cells ≡ region_cells (S.rows store.now) r) }
{
    let mut cells: usize = 0;
    let mut next = store.first(Owner::In(r), steps);
    while let Some(p) = next {
        let width = store.width(p, steps) as usize;
        cells = cells.checked_add(width)?.checked_add(1)?;
        next = store.next(p, steps);
    }
    Some(cells)
}

/// Gives all rows of region r to an owner other than that region. Counts stay.
pub fn give_region<S: Store, L: Ledger>(store: &mut S, r: ObjId, owner: Owner, steps: &mut Steps<L>)
    requires counted { (of : List Row) × ((es : List Edge) × IsStoreOf (S.rows store.old) of es) }
    requires other { is_in r (Some owner) ≡ false }
    requires room { region_cells (S.rows store.old) r ≤ S.spare store.old owner }
    ensures given { (of : List Row) (es : List Edge) → IsStoreOf (S.rows store.old) of es
        → IsStoreOf (S.rows store.new) (relabel_region of r owner) es }
    ensures steps { steps.new ≤ steps.old + (1 + 2 * length (rows_of (In r) (S.rows store.old))) }
{
    while let Some(p) = store.first(Owner::In(r), steps) {
        store.set_owner(p, owner, steps);
    }
}
