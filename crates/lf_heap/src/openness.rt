//! Whether a region below another one is borrowed: what regions own, walked down by their
//! rows.

ghost use Rattle.std.specs.Prelude.{◌≡◌, ◌≤◌, ◌<◌, ◌+◌, ◌*◌, List, Option, Some, [], ◌∷◌, length, reverse, slice_get};
ghost use Rattle.lf_base.specs.declared.ids.ObjId.{ObjId as Name};
ghost use Rattle.lf_base.specs.declared.values.Owner.TheVariants.{In};
ghost use Rattle.lf_base.specs.declared.values.Value.{Value as Item};
ghost use Rattle.lf_base.specs.Edges.{field_targets};
ghost use Rattle.lf_base.specs.Names.{targets_of_value};
ghost use Rattle.lf_base.specs.Owners.{owner_in};
ghost use Rattle.lf_base.specs.PlainChanges.{with_slots};
ghost use Rattle.lf_base.specs.PlainState.{State};
ghost use Rattle.lf_base.specs.Suspects.{Region as region_place};
ghost use Rattle.lf_base.specs.WalkCounts.{is_open, open_children};
ghost use Rattle.lf_barrier.specs.Descents.{is_child, region_targets};
ghost use Rattle.lf_domain.specs.Counts.{IsDomain};
ghost use Rattle.lf_graph.specs.StoredRows.{HasRow, fields_at, owner_at};
ghost use Rattle.lf_heap.specs.Openness.{HasChildRoom, IsOpenBelow, LackOneSlot, Looks};

use lf_base::{ObjId, Owner, Steps, Value};
use lf_graph::Store;
use lf_regions::RegionTable;
use lf_settle::{Suspect, Work};
use std::sync::ledger::Ledger;

/// Whether a region below r is borrowed. For as long as the call lasts, the regions found
/// stand on the list, each once, behind what is there. It needs room for as many as there
/// are rows.
pub(crate) fn is_open_below<S: Store, L: Ledger>(
    store: &S,
    regions: &RegionTable,
    found: &mut Work,
    r: ObjId,
    steps: &mut Steps<L>,
) -> bool
    requires region { (s : State) × (IsDomain (S.rows store.now) regions.now s
        × ((owner_in s.rows r ≡ Some (In r)) × (length s.rows ≤ found.old.spare))) }
    ensures open { (s : State) → IsDomain (S.rows store.now) regions.now s → owner_in s.rows r ≡ Some (In r)
        → IsOpenBelow s r result }
    ensures same { found.new ≡ found.old }
{
    let start = found.len();
    found.push(Suspect::Region(r));
    let mut at = start;
    while at < found.len() {
        let q = region_at(found, at);
        if look_into_region(store, regions, found, q, steps) {
            found.truncate(start);
            return true;
        }
        at += 1;
    }
    found.truncate(start);
    false
}

/// How many open regions r owns directly: those that are borrowed, or above one that is. For
/// as long as the call lasts the regions found stand on the list, behind what is there. It
/// needs room for twice as many as there are rows: the regions that r owns, and those below
/// one of them.
pub(crate) fn open_children<S: Store, L: Ledger>(
    store: &S,
    regions: &RegionTable,
    found: &mut Work,
    r: ObjId,
    steps: &mut Steps<L>,
) -> u64
    requires region { (s : State) × (IsDomain (S.rows store.now) regions.now s
        × ((owner_in s.rows r ≡ Some (In r)) × (2 * length s.rows ≤ found.old.spare))) }
    ensures count { (s : State) → IsDomain (S.rows store.now) regions.now s → owner_in s.rows r ≡ Some (In r)
        → result ≡ open_children s r }
    ensures same { found.new ≡ found.old }
{
    let start = found.len();
    look_into_region(store, regions, found, r, steps);
    let end = found.len();
    let mut count = 0;
    for at in start..end {
        let child = region_at(found, at);
        if is_open(store, regions, found, child, steps) {
            count += 1;
        }
    }
    found.truncate(start);
    count
}

// Whether region r or one below it is borrowed.
fn is_open<S: Store, L: Ledger>(
    store: &S,
    regions: &RegionTable,
    found: &mut Work,
    r: ObjId,
    steps: &mut Steps<L>,
) -> bool
    requires region { (s : State) × (IsDomain (S.rows store.now) regions.now s
        × ((owner_in s.rows r ≡ Some (In r)) × (length s.rows ≤ found.old.spare))) }
    ensures open { (s : State) → IsDomain (S.rows store.now) regions.now s → owner_in s.rows r ≡ Some (In r)
        → result ≡ is_open s r }
    ensures same { found.new ≡ found.old }
{
    regions.borrowed(r) > 0 || is_open_below(store, regions, found, r, steps)
}

/// Whether region r would be open if one slot that holds its bridge were unset, or gone.
pub(crate) fn is_open_without_slot<S: Store, L: Ledger>(
    store: &S,
    regions: &RegionTable,
    found: &mut Work,
    r: ObjId,
    steps: &mut Steps<L>,
) -> bool
    requires region { (s : State) × (IsDomain (S.rows store.now) regions.now s
        × ((owner_in s.rows r ≡ Some (In r)) × (length s.rows ≤ found.old.spare))) }
    ensures open { (s : State) (slots : List (Option Item)) → IsDomain (S.rows store.now) regions.now s → owner_in s.rows r ≡ Some (In r)
        → LackOneSlot s slots r → result ≡ is_open (with_slots s slots) r }
    ensures same { found.new ≡ found.old }
{
    regions.borrowed(r) > 1 || is_open_below(store, regions, found, r, steps)
}

// The region that is listed at a place.
fn region_at(found: &Work, at: usize) -> ObjId
    requires { (q : Name) × (slice_get (reverse found.now.suspects) at ≡ Some (region_place q)) }
    ensures { slice_get (reverse found.now.suspects) at ≡ Some (region_place result) }
{
    match found.get(at) {
        Some(Suspect::Region(q)) => q,
        Some(Suspect::Object(_)) | None => unreachable!(),
    }
}

// Lists the bridges of other regions to which the rows of region r refer, and tells whether
// one of them is borrowed.
fn look_into_region<S: Store, L: Ledger>(
    store: &S,
    regions: &RegionTable,
    found: &mut Work,
    r: ObjId,
    steps: &mut Steps<L>,
) -> bool
    requires domain { (s : State) × IsDomain (S.rows store.now) regions.now s }
    requires room { HasChildRoom (S.rows store.now) r (region_targets (S.rows store.now) r) found.old }
    ensures { Looks (S.rows store.now) regions.now r (region_targets (S.rows store.now) r) found.old found.new result }
{
    let mut open = false;
    let mut next = store.first(Owner::In(r), steps);
    while let Some(p) = next {
        let child = look_into_row(store, regions, found, p, r, steps);
        open |= child;
        next = store.next(p, steps);
    }
    open
}

// The same of the fields of row p of region r.
fn look_into_row<S: Store, L: Ledger>(
    store: &S,
    regions: &RegionTable,
    found: &mut Work,
    p: ObjId,
    r: ObjId,
    steps: &mut Steps<L>,
) -> bool
    requires domain { (s : State) × IsDomain (S.rows store.now) regions.now s }
    requires there { HasRow (S.rows store.now) p }
    requires room { HasChildRoom (S.rows store.now) r (field_targets (fields_at (S.rows store.now) p)) found.old }
    ensures { Looks (S.rows store.now) regions.now r (field_targets (fields_at (S.rows store.now) p)) found.old found.new result }
{
    let mut open = false;
    let width = store.width(p, steps);
    let mut last = None;
    for _turn in 0..width {
        let Some((key, v)) = store.field_after(p, last, steps) else {
            unreachable!()
        };
        let child = look_at_value(store, regions, found, v, r, steps);
        open |= child;
        last = Some(key);
    }
    open
}

// The same of a value.
fn look_at_value<S: Store, L: Ledger>(
    store: &S,
    regions: &RegionTable,
    found: &mut Work,
    v: Value,
    r: ObjId,
    steps: &mut Steps<L>,
) -> bool
    requires domain { (s : State) × IsDomain (S.rows store.now) regions.now s }
    requires room { HasChildRoom (S.rows store.now) r (targets_of_value v) found.old }
    ensures { Looks (S.rows store.now) regions.now r (targets_of_value v) found.old found.new result }
{
    match v.object() {
        Some(o) => look_at(store, regions, found, o, r, steps),
        None => false,
    }
}

// The same of an object.
fn look_at<S: Store, L: Ledger>(
    store: &S,
    regions: &RegionTable,
    found: &mut Work,
    o: ObjId,
    r: ObjId,
    steps: &mut Steps<L>,
) -> bool
    requires domain { (s : State) × IsDomain (S.rows store.now) regions.now s }
    requires room { HasChildRoom (S.rows store.now) r (o ∷ []) found.old }
    ensures { Looks (S.rows store.now) regions.now r (o ∷ []) found.old found.new result }
{
    let owner = store.owner(o, steps);
    if !is_child_of(owner, o, r) {
        return false;
    }
    found.push(Suspect::Region(o));
    regions.borrowed(o) > 0
}

// Whether an object of that owner is the bridge of a region other than r.
fn is_child_of(owner: Option<Owner>, o: ObjId, r: ObjId) -> bool
    ensures { result ≡ is_child r o owner }
{
    match owner {
        Some(Owner::In(q)) => q.is_same(o) && !r.is_same(o),
        Some(Owner::Local | Owner::Frozen) | None => false,
    }
}
