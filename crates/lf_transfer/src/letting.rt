//! One slot or field that leads into a region that is closed: its edge is taken out of the
//! counts.

ghost use Rattle.std.specs.Prelude.{◌≡◌, ◌+◌, ◌≤◌, ◌&&◌, List, eqb, false, length, true};
ghost use Rattle.lf_base.specs.Edges.{Edge, Source};
ghost use Rattle.lf_base.specs.Names.{targets_of_value};
ghost use Rattle.lf_base.specs.PlainState.{Row};
ghost use Rattle.lf_domain.specs.Counts.{Counts};
ghost use Rattle.lf_domain.specs.OneEdge.{MayUncount};
ghost use Rattle.lf_graph.specs.Room.{LowersNone};
ghost use Rattle.lf_graph.specs.RowOrder.{SameOrder};
ghost use Rattle.lf_graph.specs.StoredRows.{HasRow, owner_at, refs_at};
ghost use Rattle.lf_transfer.specs.Closing.{is_inner, leads_within, lies_within, with_loose};

use crate::name_list::NameList;
use crate::names::has;
use indexmap::IndexSet;
use lf_base::{ObjId, Owner, Steps, Value};
use lf_domain::uncount_borrow;
use lf_graph::Store;
use lf_regions::RegionTable;
use std::sync::ledger::Ledger;

/// Whether a value of a slot or of a local row leads into one of these regions. Its edge is
/// taken out of the counts where it does, and its object is put on the list where it is an
/// inner row to which no edge leads then. That needs room of 1.
pub fn let_go<S: Store, L: Ledger>(
    store: &mut S,
    regions: &mut RegionTable,
    within: &IndexSet<ObjId>,
    v: Value,
    names: &mut NameList,
    steps: &mut Steps<L>,
) -> bool
    requires may { leads_within (S.rows store.old) within.now.keys v ≡ true → (of : List Row) × ((es : List Edge) × ((fs : List Edge)
        × ((from : Source) × MayUncount (S.rows store.old) regions.old of es fs from (targets_of_value v)))) }
    requires room { leads_within (S.rows store.old) within.now.keys v ≡ true → 1 ≤ names.old.spare }
    ensures leads { result ≡ leads_within (S.rows store.old) within.now.keys v }
    ensures no_row { result ≡ false → S.rows store.new ≡ S.rows store.old }
    ensures no_region { result ≡ false → regions.new ≡ regions.old }
    ensures no_name { result ≡ false → names.new ≡ names.old }
    ensures counted { result ≡ true → (of : List Row) (es fs : List Edge) (from : Source)
        → MayUncount (S.rows store.old) regions.old of es fs from (targets_of_value v) → Counts (S.rows store.new) regions.new of fs }
    ensures named { result ≡ true → names.new.names ≡ with_loose (S.rows store.new) (targets_of_value v) names.old.names }
    ensures capacity { names.new.spare + length names.new.names ≡ names.old.spare + length names.old.names }
    ensures room { LowersNone (S.spare store.old) (S.spare store.new) }
    ensures order { SameOrder (S.rows store.new) (S.rows store.old) }
{
    let Some(o) = v.object() else {
        return false;
    };
    if !is_within(store.owner(o, steps), within) {
        return false;
    }
    uncount_borrow(store, regions, Some(v), steps);
    if is_loose(store, o, steps) {
        names.push(o);
    }
    true
}

// Whether a row of that owner lies in one of these regions.
fn is_within(owner: Option<Owner>, within: &IndexSet<ObjId>) -> bool
    ensures { result ≡ lies_within within.now.keys owner }
{
    match owner {
        Some(Owner::In(q)) => has(within, q),
        Some(Owner::Local) => false,
        Some(Owner::Frozen) => false,
        None => false,
    }
}

// Whether a row is an inner one to which no edge leads.
fn is_loose<S: Store, L: Ledger>(store: &S, o: ObjId, steps: &mut Steps<L>) -> bool
    requires there { HasRow (S.rows store.now) o }
    ensures { result ≡ (is_inner o (owner_at (S.rows store.now) o) && eqb (refs_at (S.rows store.now) o) 0) }
{
    is_inside(store.owner(o, steps), o) && store.refs(o, steps) == 0
}

// Whether a row of that owner is an inner row.
fn is_inside(owner: Option<Owner>, o: ObjId) -> bool
    ensures { result ≡ is_inner o owner }
{
    match owner {
        Some(Owner::In(q)) => !q.is_same(o),
        Some(Owner::Local) => false,
        Some(Owner::Frozen) => false,
        None => false,
    }
}
