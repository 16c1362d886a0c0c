//! Regions that lose rows by a freeze: they lose the borrows of these rows, or go whole.

ghost use Rattle.std.specs.Prelude.{◌≡◌, ◌+◌, ◌≤◌, ◌∷◌, ◌++◌, ◌&&◌, [], List, cond, count_by, eqb, false, filter, length, not, reverse, true};
ghost use Rattle.std.specs.List.{list_any};
ghost use Rattle.lf_base.specs.declared.ids.ObjId.{ObjId as Name};
ghost use Rattle.lf_base.specs.declared.values.Value.{Value as Content};
ghost use Rattle.lf_base.specs.Edges.{field_targets};
ghost use Rattle.lf_base.specs.FreezeResult.{freeze_result};
ghost use Rattle.lf_base.specs.Names.{same_name, targets_of_value};
ghost use Rattle.lf_base.specs.Owners.{has_name, is_bridge, is_in};
ghost use Rattle.lf_base.specs.PlainState.{State};
ghost use Rattle.lf_domain.specs.Counts.{IsDomain};
ghost use Rattle.lf_graph.specs.StoredRows.{HasRow, fields_at, refs_at};
ghost use Rattle.lf_regions.specs.declared.region.Region.{Region};
ghost use Rattle.lf_regions.specs.Regions.{borrowed_of, has_region, owned_of};
ghost use Rattle.lf_transfer.specs.Freezing.{MayLose, MayLoseAll, TurnsTo, borrows_of_taken, is_bare_region, is_taken_in};

use crate::loose::Loose;
use crate::names::has;
use indexmap::IndexSet;
use lf_base::{ObjId, Owner, Steps, Value};
use lf_graph::Store;
use lf_regions::RegionTable;
use std::sync::ledger::Ledger;

/// Each of these regions goes where its bridge is taken, and loses else the borrows of
/// its rows that are taken. Those that have neither owner nor borrow then are put on the
/// list.
pub fn lose_rows<S: Store, L: Ledger>(
    store: &S,
    regions: &mut RegionTable,
    taken: &IndexSet<ObjId>,
    losing: &[ObjId],
    work: &mut Loose,
    steps: &mut Steps<L>,
)
    requires may { (s : State) × ((v : Content) × MayLoseAll (S.rows store.now) regions.old s v taken.now.keys losing.now) }
    requires room { length losing.now ≤ work.old.spare }
    ensures turned { (s : State) (v : Content) → MayLoseAll (S.rows store.now) regions.old s v taken.now.keys losing.now
        → TurnsTo (freeze_result s v) losing.now regions.old regions.new }
    ensures named { (s : State) (v : Content) → MayLoseAll (S.rows store.now) regions.old s v taken.now.keys losing.now
        → work.new.names ≡ reverse (filter (is_bare_region (freeze_result s v)) losing.now) ++ work.old.names }
    ensures room { work.new.spare + length work.new.names ≡ work.old.spare + length work.old.names }
{
    for r in losing {
        lose_from(store, regions, taken, *r, work, steps);
    }
}

// The same of one region.
fn lose_from<S: Store, L: Ledger>(
    store: &S,
    regions: &mut RegionTable,
    taken: &IndexSet<ObjId>,
    r: ObjId,
    work: &mut Loose,
    steps: &mut Steps<L>,
)
    requires may { (table : List Region) × ((s : State) × ((v : Content)
        × MayLose (S.rows store.now) table s v taken.now.keys r regions.old)) }
    requires room { 1 ≤ work.old.spare }
    ensures turned { (table : List Region) (s : State) (v : Content) → MayLose (S.rows store.now) table s v taken.now.keys r regions.old
        → TurnsTo (freeze_result s v) (r ∷ []) regions.old regions.new }
    ensures named { (table : List Region) (s : State) (v : Content) → MayLose (S.rows store.now) table s v taken.now.keys r regions.old
        → work.new.names ≡ cond (is_bare_region (freeze_result s v) r) (r ∷ work.old.names) work.old.names }
    ensures room { work.new.spare + length work.new.names ≡ work.old.spare + length work.old.names }
{
    if has(taken, r) {
        end_region(regions, r);
        return;
    }
    let lost = lost_borrows(store, taken, r, steps);
    regions.unborrow(r, lost);
    if is_bare(regions, r) {
        work.push(r);
    }
}

// Whether a region has neither owner nor borrow.
fn is_bare(regions: &RegionTable, r: ObjId) -> bool
    requires { has_region regions.now r ≡ true }
    ensures { result ≡ (not (owned_of regions.now r) && eqb (borrowed_of regions.now r) 0) }
{
    !regions.is_owned(r) && regions.borrowed(r) == 0
}

// Takes a region off the table, whatever owns or borrows it.
fn end_region(regions: &mut RegionTable, r: ObjId)
    requires { has_region regions.old r ≡ true }
    ensures names { (q : Name) → has_region regions.new q ≡ (not (same_name r q) && has_region regions.old q) }
    ensures numbers { (q : Name) → same_name r q ≡ false → borrowed_of regions.new q ≡ borrowed_of regions.old q }
    ensures flags { (q : Name) → same_name r q ≡ false → owned_of regions.new q ≡ owned_of regions.old q }
{
    let borrows = regions.borrowed(r);
    regions.unborrow(r, borrows);
    regions.set_owned(r, false);
    regions.end(r);
}

// How many borrows of region r lead to its rows that are taken: all edges to them but
// those from the region's own rows.
fn lost_borrows<S: Store, L: Ledger>(
    store: &S,
    taken: &IndexSet<ObjId>,
    r: ObjId,
    steps: &mut Steps<L>,
) -> u64
    requires domain { (table : List Region) × ((s : State) × (IsDomain (S.rows store.now) table s
        × ((is_bridge s.rows r ≡ true) × (has_name taken.now.keys r ≡ false)))) }
    ensures { (table : List Region) (s : State) → IsDomain (S.rows store.now) table s → is_bridge s.rows r ≡ true
        → has_name taken.now.keys r ≡ false → result ≡ borrows_of_taken s taken.now.keys r }
{
    let mut all: u64 = 0;
    let mut inner: u64 = 0;
    let mut next = store.first(Owner::In(r), steps);
    while let Some(p) = next {
        all += refs_if_taken(store, taken, p, steps);
        inner += count_taken(store, taken, p, r, steps);
        next = store.next(p, steps);
    }
    all - inner
}

// The edges to row p, where it is taken, and else none.
fn refs_if_taken<S: Store, L: Ledger>(
    store: &S,
    taken: &IndexSet<ObjId>,
    p: ObjId,
    steps: &mut Steps<L>,
) -> u64
    requires { HasRow (S.rows store.now) p }
    ensures { result ≡ cond (has_name taken.now.keys p) (refs_at (S.rows store.now) p) 0 }
{
    if has(taken, p) {
        store.refs(p, steps)
    } else {
        0
    }
}

// How many fields of row p refer to rows of region r that are taken.
fn count_taken<S: Store, L: Ledger>(
    store: &S,
    taken: &IndexSet<ObjId>,
    p: ObjId,
    r: ObjId,
    steps: &mut Steps<L>,
) -> u64
    requires domain { (table : List Region) × ((s : State) × IsDomain (S.rows store.now) table s) }
    requires there { HasRow (S.rows store.now) p }
    ensures { result ≡ count_by (is_taken_in (S.rows store.now) taken.now.keys r) (field_targets (fields_at (S.rows store.now) p)) }
{
    let mut count: u64 = 0;
    let width = store.width(p, steps);
    let mut last = None;
    for _turn in 0..width {
        let Some((key, v)) = store.field_after(p, last, steps) else {
            unreachable!()
        };
        if leads_to_taken(store, taken, v, r, steps) {
            count += 1;
        }
        last = Some(key);
    }
    count
}

// Whether a value refers to a row of region r that is taken.
fn leads_to_taken<S: Store, L: Ledger>(
    store: &S,
    taken: &IndexSet<ObjId>,
    v: Value,
    r: ObjId,
    steps: &mut Steps<L>,
) -> bool
    ensures { result ≡ list_any (is_taken_in (S.rows store.now) taken.now.keys r) (targets_of_value v) }
{
    match v.object() {
        Some(o) => has(taken, o) && is_inside(store.owner(o, steps), r),
        None => false,
    }
}

// Whether a row of that owner lies in region r.
fn is_inside(owner: Option<Owner>, r: ObjId) -> bool
    ensures { result ≡ is_in r owner }
{
    match owner {
        Some(Owner::In(q)) => r.is_same(q),
        Some(Owner::Local) => false,
        Some(Owner::Frozen) => false,
        None => false,
    }
}
