//! The loss of the edge of one place: it is taken out of the counts, and its target is
//! noted where it lost its last justification.

ghost use Rattle.std.specs.Prelude.{◌≡◌, ◌+◌, ◌≤◌, ◌∷◌, [], length, true};
ghost use Rattle.lf_base.specs.declared.ids.CownId.{CownId};
ghost use Rattle.lf_base.specs.declared.ids.ObjId.{ObjId as Name};
ghost use Rattle.lf_base.specs.declared.values.Owner.TheVariants.{In};
ghost use Rattle.lf_base.specs.Edges.{Content, Field, Source, slot_targets};
ghost use Rattle.lf_base.specs.Owners.{owner_in};
ghost use Rattle.lf_base.specs.PlainState.{State};
ghost use Rattle.lf_base.specs.WalkCounts.{is_borrower};
ghost use Rattle.std.specs.Prelude.{Some};
ghost use Rattle.lf_domain.specs.Counts.{CountsOf};
ghost use Rattle.lf_domain.specs.OneEdge as domain;
ghost use Rattle.lf_graph.specs.Room.{LowersNone};
ghost use Rattle.lf_graph.specs.RowOrder.{SameOrder};
ghost use Rattle.lf_regions.specs.Regions.{has_region};
ghost use Rattle.lf_settle.specs.Drops.{SameCapacity};
ghost use Rattle.lf_settle.specs.LostEdges.{CanLose, HasLost, NoticesLoss};
ghost use Rattle.lf_settle.specs.LostEdges as table;

use crate::work::{Suspect, Work};
use lf_base::{ObjId, Owner, Steps, Value};
use lf_domain::{target_of, uncount_borrow, uncount_content, uncount_inner};
use lf_graph::Store;
use lf_regions::RegionTable;
use std::sync::ledger::Ledger;

/// Takes the edge of a slot or of a local row's field out of the counts, where it has
/// one; the store has the rows without it already. Its target becomes a suspect exactly
/// where that was the last edge to it, or the last borrow of a region without owner. That
/// needs room of 1.
#[inline(always)]
pub fn lose_borrow<S: Store, L: Ledger>(
    store: &mut S,
    regions: &mut RegionTable,
    work: &mut Work,
    v: Option<Value>,
    steps: &mut Steps<L>,
)
    requires may { (s : State) × ((t : State) × ((from : Source)
        × (CanLose (S.rows store.old) regions.old work.old s t from (slot_targets v) × (is_borrower s.rows from ≡ true)))) }
    ensures counted { (s t : State) (from : Source) → CanLose (S.rows store.old) regions.old work.old s t from (slot_targets v)
        → is_borrower s.rows from ≡ true → CountsOf (S.rows store.new) regions.new t }
    ensures noticed { (s t : State) (from : Source) → CanLose (S.rows store.old) regions.old work.old s t from (slot_targets v)
        → is_borrower s.rows from ≡ true → NoticesLoss s t (slot_targets v) work.old.suspects work.new.suspects }
    ensures capacity { SameCapacity work.old work.new }
    ensures one { length work.new.suspects ≤ length work.old.suspects + 1 }
    ensures room { LowersNone (S.spare store.old) (S.spare store.new) }
    ensures order { SameOrder (S.rows store.new) (S.rows store.old) }
    ensures steps { steps.new ≤ steps.old + 4 }
{
    uncount_borrow(store, regions, v, steps);
    notice(store, regions, work, v, None, steps);
}

/// The same of the edge of a field of a row in the region `home`: its target becomes a
/// suspect exactly where that was the last edge to it, or owned a region without borrow.
pub fn lose_inner<S: Store, L: Ledger>(
    store: &mut S,
    regions: &mut RegionTable,
    work: &mut Work,
    v: Option<Value>,
    home: ObjId,
    steps: &mut Steps<L>,
)
    requires may { (s : State) × ((t : State) × ((p : Name)
        × (CanLose (S.rows store.old) regions.old work.old s t (Field p) (slot_targets v) × (owner_in s.rows p ≡ Some (In home))))) }
    ensures counted { (s t : State) (p : Name) → CanLose (S.rows store.old) regions.old work.old s t (Field p) (slot_targets v)
        → owner_in s.rows p ≡ Some (In home) → CountsOf (S.rows store.new) regions.new t }
    ensures noticed { (s t : State) (p : Name) → CanLose (S.rows store.old) regions.old work.old s t (Field p) (slot_targets v)
        → owner_in s.rows p ≡ Some (In home) → NoticesLoss s t (slot_targets v) work.old.suspects work.new.suspects }
    ensures capacity { SameCapacity work.old work.new }
    ensures one { length work.new.suspects ≤ length work.old.suspects + 1 }
    ensures room { LowersNone (S.spare store.old) (S.spare store.new) }
    ensures order { SameOrder (S.rows store.new) (S.rows store.old) }
    ensures steps { steps.new ≤ steps.old + 4 }
{
    uncount_inner(store, regions, v, home, steps);
    notice(store, regions, work, v, Some(home), steps);
}

/// The same of the edge of a cown's content.
pub fn lose_content<S: Store, L: Ledger>(
    store: &mut S,
    regions: &mut RegionTable,
    work: &mut Work,
    v: Option<Value>,
    steps: &mut Steps<L>,
)
    requires may { (s : State) × ((t : State) × ((c : CownId)
        × CanLose (S.rows store.old) regions.old work.old s t (Content c) (slot_targets v))) }
    ensures counted { (s t : State) (c : CownId) → CanLose (S.rows store.old) regions.old work.old s t (Content c) (slot_targets v)
        → CountsOf (S.rows store.new) regions.new t }
    ensures noticed { (s t : State) (c : CownId) → CanLose (S.rows store.old) regions.old work.old s t (Content c) (slot_targets v)
        → NoticesLoss s t (slot_targets v) work.old.suspects work.new.suspects }
    ensures capacity { SameCapacity work.old work.new }
    ensures one { length work.new.suspects ≤ length work.old.suspects + 1 }
    ensures room { LowersNone (S.spare store.old) (S.spare store.new) }
    ensures order { SameOrder (S.rows store.new) (S.rows store.old) }
    ensures steps { steps.new ≤ steps.old + 4 }
{
    uncount_content(store, regions, v, steps);
    notice(store, regions, work, v, None, steps);
}

// Notes what the loss of an edge from a place in the region `home` leaves without
// justification; no region is given for a slot, a local row or a content.
#[inline(always)]
fn notice<S: Store, L: Ledger>(
    store: &S,
    regions: &RegionTable,
    work: &mut Work,
    v: Option<Value>,
    home: Option<ObjId>,
    steps: &mut Steps<L>,
)
    requires lost { (s : State) × ((t : State) × ((from : Source)
        × HasLost (S.rows store.now) regions.now work.old s t from (slot_targets v) home)) }
    ensures noticed { (s t : State) (from : Source) → HasLost (S.rows store.now) regions.now work.old s t from (slot_targets v) home
        → NoticesLoss s t (slot_targets v) work.old.suspects work.new.suspects }
    ensures capacity { SameCapacity work.old work.new }
    ensures one { length work.new.suspects ≤ length work.old.suspects + 1 }
    ensures steps { steps.new ≤ steps.old + 2 }
{
    if let Some(o) = target_of(v) {
        notice_object(store, regions, work, o, home, steps);
    }
}

// The same of an edge to an object.
#[inline(never)]
fn notice_object<S: Store, L: Ledger>(
    store: &S,
    regions: &RegionTable,
    work: &mut Work,
    o: ObjId,
    home: Option<ObjId>,
    steps: &mut Steps<L>,
)
    requires lost { (s : State) × ((t : State) × ((from : Source)
        × HasLost (S.rows store.now) regions.now work.old s t from (o ∷ []) home)) }
    ensures noticed { (s t : State) (from : Source) → HasLost (S.rows store.now) regions.now work.old s t from (o ∷ []) home
        → NoticesLoss s t (o ∷ []) work.old.suspects work.new.suspects }
    ensures capacity { SameCapacity work.old work.new }
    ensures one { length work.new.suspects ≤ length work.old.suspects + 1 }
    ensures steps { steps.new ≤ steps.old + 2 }
{
    let Some(owner) = store.owner(o, steps) else {
        return;
    };
    let unnamed = store.refs(o, steps) == 0;
    if unnamed || is_left_bare(regions, owner, home) {
        work.push(Suspect::Object(o));
    }
}

// Whether an edge from the region `home` to a row of that owner owned or borrowed its
// region, which has neither owner nor borrow now.
fn is_left_bare(regions: &RegionTable, owner: Owner, home: Option<ObjId>) -> bool
    requires { (r : Name) → owner ≡ In r → has_region regions.now r ≡ true }
    ensures { result ≡ table.is_left_bare regions.now owner home }
{
    match owner {
        Owner::In(r) => is_other(home, r) && is_bare(regions, r),
        Owner::Local | Owner::Frozen => false,
    }
}

// Whether the region is another one than `home`.
fn is_other(home: Option<ObjId>, r: ObjId) -> bool
    ensures { result ≡ domain.is_other_region home r }
{
    match home {
        Some(inside) => inside != r,
        None => true,
    }
}

/// Whether the table shows neither owner nor borrow of a region.
pub(crate) fn is_bare(regions: &RegionTable, r: ObjId) -> bool
    requires { has_region regions.now r ≡ true }
    ensures { result ≡ table.is_bare regions.now r }
{
    !regions.is_owned(r) && regions.borrowed(r) == 0
}
