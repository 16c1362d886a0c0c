//! Edges from rows in regions and from contents: they own the bridge to which they lead,
//! where it is another region's.

ghost use Rattle.std.specs.Prelude.{◌≡◌, ◌+◌, ◌≤◌, ◌∷◌, ◌++◌, [], List, None, Some, true};
ghost use Rattle.lf_base.specs.declared.ids.CownId.{CownId};
ghost use Rattle.lf_base.specs.declared.ids.ObjId.{ObjId as Name};
ghost use Rattle.lf_base.specs.Edges.{Content, Edge, Field, Source, edges_by, slot_targets};
ghost use Rattle.lf_base.specs.PlainState.{Row};
ghost use Rattle.lf_domain.specs.Counts.{Counts};
ghost use Rattle.lf_domain.specs.OneEdge.{MayCountOwner, MayUncountOwner, other_owned};
ghost use Rattle.lf_graph.specs.Room.{LowersNone};
ghost use Rattle.lf_graph.specs.RowOrder.{SameOrder};
ghost use Rattle.lf_regions.specs.Regions.{has_region};

use crate::targets::target_of;
use lf_base::{ObjId, Owner, Steps, Value};
use lf_graph::Store;
use lf_regions::RegionTable;
use std::sync::ledger::Ledger;

/// Counts the edge of a field of a row in the region `home`, where it has one. The
/// bridge of another region to which it leads is owned.
pub fn count_inner<S: Store, L: Ledger>(
    store: &mut S,
    regions: &mut RegionTable,
    v: Option<Value>,
    home: ObjId,
    steps: &mut Steps<L>,
)
    requires may { (of : List Row) × ((es : List Edge) × ((p : Name)
        × MayCountOwner (S.rows store.old) regions.old of es (Field p) (slot_targets v) (Some home))) }
    ensures counted { (of : List Row) (es : List Edge) (p : Name)
        → MayCountOwner (S.rows store.old) regions.old of es (Field p) (slot_targets v) (Some home)
        → Counts (S.rows store.new) regions.new of (edges_by (Field p) (slot_targets v) ++ es) }
    ensures room { LowersNone (S.spare store.old) (S.spare store.new) }
    ensures steps { steps.new ≤ steps.old + 2 }
{
    if let Some(o) = target_of(v) {
        count_object(store, regions, o, Some(home), steps);
    }
}

/// Takes the edge of a field of a row in the region `home` out of the counts, where it
/// has one. The bridge of another region to which it leads isn't owned any more.
pub fn uncount_inner<S: Store, L: Ledger>(
    store: &mut S,
    regions: &mut RegionTable,
    v: Option<Value>,
    home: ObjId,
    steps: &mut Steps<L>,
)
    requires may { (of : List Row) × ((es : List Edge) × ((fs : List Edge) × ((p : Name)
        × MayUncountOwner (S.rows store.old) regions.old of es fs (Field p) (slot_targets v) (Some home)))) }
    ensures counted { (of : List Row) (es fs : List Edge) (p : Name)
        → MayUncountOwner (S.rows store.old) regions.old of es fs (Field p) (slot_targets v) (Some home)
        → Counts (S.rows store.new) regions.new of fs }
    ensures room { LowersNone (S.spare store.old) (S.spare store.new) }
    ensures order { SameOrder (S.rows store.new) (S.rows store.old) }
    ensures steps { steps.new ≤ steps.old + 2 }
{
    if let Some(o) = target_of(v) {
        uncount_object(store, regions, o, Some(home), steps);
    }
}

/// Counts the edge of a cown's content, where it has one. The bridge to which it leads
/// is owned.
pub fn count_content<S: Store, L: Ledger>(
    store: &mut S,
    regions: &mut RegionTable,
    v: Option<Value>,
    steps: &mut Steps<L>,
)
    requires may { (of : List Row) × ((es : List Edge) × ((c : CownId)
        × MayCountOwner (S.rows store.old) regions.old of es (Content c) (slot_targets v) None)) }
    ensures counted { (of : List Row) (es : List Edge) (c : CownId)
        → MayCountOwner (S.rows store.old) regions.old of es (Content c) (slot_targets v) None
        → Counts (S.rows store.new) regions.new of (edges_by (Content c) (slot_targets v) ++ es) }
    ensures room { LowersNone (S.spare store.old) (S.spare store.new) }
    ensures steps { steps.new ≤ steps.old + 2 }
{
    if let Some(o) = target_of(v) {
        count_object(store, regions, o, None, steps);
    }
}

/// Takes the edge of a cown's content out of the counts, where it has one. The bridge to
/// which it leads isn't owned any more.
pub fn uncount_content<S: Store, L: Ledger>(
    store: &mut S,
    regions: &mut RegionTable,
    v: Option<Value>,
    steps: &mut Steps<L>,
)
    requires may { (of : List Row) × ((es : List Edge) × ((fs : List Edge) × ((c : CownId)
        × MayUncountOwner (S.rows store.old) regions.old of es fs (Content c) (slot_targets v) None))) }
    ensures counted { (of : List Row) (es fs : List Edge) (c : CownId)
        → MayUncountOwner (S.rows store.old) regions.old of es fs (Content c) (slot_targets v) None
        → Counts (S.rows store.new) regions.new of fs }
    ensures room { LowersNone (S.spare store.old) (S.spare store.new) }
    ensures order { SameOrder (S.rows store.new) (S.rows store.old) }
    ensures steps { steps.new ≤ steps.old + 2 }
{
    if let Some(o) = target_of(v) {
        uncount_object(store, regions, o, None, steps);
    }
}

// Counts an edge to an object from a place in the region `home`, or from a content
// where no region is given.
fn count_object<S: Store, L: Ledger>(
    store: &mut S,
    regions: &mut RegionTable,
    o: ObjId,
    home: Option<ObjId>,
    steps: &mut Steps<L>,
)
    requires may { (of : List Row) × ((es : List Edge) × ((from : Source)
        × MayCountOwner (S.rows store.old) regions.old of es from (o ∷ []) home)) }
    ensures counted { (of : List Row) (es : List Edge) (from : Source)
        → MayCountOwner (S.rows store.old) regions.old of es from (o ∷ []) home
        → Counts (S.rows store.new) regions.new of (edges_by from (o ∷ []) ++ es) }
    ensures room { LowersNone (S.spare store.old) (S.spare store.new) }
    ensures steps { steps.new ≤ steps.old + 2 }
{
    let Some(owner) = store.owner(o, steps) else {
        return;
    };
    store.add_ref(o, steps);
    match owner {
        Owner::Local => {}
        Owner::In(r) => set_other(regions, r, home, true),
        Owner::Frozen => {}
    }
}

// Takes an edge to an object from a place in the region `home`, or from a content where
// no region is given, out of the counts.
fn uncount_object<S: Store, L: Ledger>(
    store: &mut S,
    regions: &mut RegionTable,
    o: ObjId,
    home: Option<ObjId>,
    steps: &mut Steps<L>,
)
    requires may { (of : List Row) × ((es : List Edge) × ((fs : List Edge) × ((from : Source)
        × MayUncountOwner (S.rows store.old) regions.old of es fs from (o ∷ []) home))) }
    ensures counted { (of : List Row) (es fs : List Edge) (from : Source)
        → MayUncountOwner (S.rows store.old) regions.old of es fs from (o ∷ []) home
        → Counts (S.rows store.new) regions.new of fs }
    ensures room { LowersNone (S.spare store.old) (S.spare store.new) }
    ensures order { SameOrder (S.rows store.new) (S.rows store.old) }
    ensures steps { steps.new ≤ steps.old + 2 }
{
    let Some(owner) = store.owner(o, steps) else {
        return;
    };
    store.sub_ref(o, steps);
    match owner {
        Owner::Local => {}
        Owner::In(r) => set_other(regions, r, home, false),
        Owner::Frozen => {}
    }
}

// Sets the flag of region r, where it isn't `home`.
fn set_other(regions: &mut RegionTable, r: ObjId, home: Option<ObjId>, owned: bool)
    requires { has_region regions.old r ≡ true }
    ensures { regions.new ≡ other_owned regions.old r home owned }
{
    match home {
        Some(inside) => {
            if inside != r {
                regions.set_owned(r, owned);
            }
        }
        None => regions.set_owned(r, owned),
    }
}
