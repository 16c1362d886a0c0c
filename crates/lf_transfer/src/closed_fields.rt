//! Fields of local rows that lead into a region that is closed are unset.

ghost use Rattle.std.specs.Prelude.{◌≡◌, List, Option, Some, false, ℕ};
ghost use Rattle.lf_base.specs.declared.ids.ObjId.{ObjId as Name};
ghost use Rattle.lf_base.specs.declared.values.Owner.TheVariants.{Local};
ghost use Rattle.lf_base.specs.declared.values.Value.{Value as Content};
ghost use Rattle.lf_base.specs.CloseResult.{leads_into};
ghost use Rattle.lf_base.specs.Names.{same_name};
ghost use Rattle.lf_base.specs.Owners.{owner_in};
ghost use Rattle.lf_base.specs.PlainState.{State};
ghost use Rattle.lf_graph.specs.Room.{LowersNone};
ghost use Rattle.lf_graph.specs.RowOrder.{SameOrder};
ghost use Rattle.lf_graph.specs.StoredRows.{field_value_at, fields_at};
ghost use Rattle.lf_transfer.specs.Closing.{AreFieldsShut, AreLocalsShut, Closing, shut_field_at};
ghost use Rattle.lf_transfer.specs.LooseNames.{LooseNames};

use crate::letting::let_go;
use crate::name_list::NameList;
use indexmap::IndexSet;
use lf_base::{Key, ObjId, Owner, Steps, Value};
use lf_graph::Store;
use lf_regions::RegionTable;
use std::sync::ledger::Ledger;

/// Shuts all fields of local rows.
pub fn close_rows<S: Store, L: Ledger>(
    store: &mut S,
    regions: &mut RegionTable,
    within: &IndexSet<ObjId>,
    names: &mut NameList,
    steps: &mut Steps<L>,
)
    requires closing { (s : State) × ((at : ℕ) × ((r : Name) × ((before : LooseNames) × ((slots : List (Option Content))
        × Closing s at r within.now.keys before (S.rows store.old) regions.old slots names.old)))) }
    ensures closing { (s : State) (at : ℕ) (r : Name) (before : LooseNames) (slots : List (Option Content))
        → Closing s at r within.now.keys before (S.rows store.old) regions.old slots names.old
        → Closing s at r within.now.keys before (S.rows store.new) regions.new slots names.new }
    ensures shut { (s : State) (at : ℕ) (r : Name) (before : LooseNames) (slots : List (Option Content))
        → Closing s at r within.now.keys before (S.rows store.old) regions.old slots names.old
        → AreLocalsShut (leads_into s r) (S.rows store.new) }
    ensures room { LowersNone (S.spare store.old) (S.spare store.new) }
{
    let mut next = store.first(Owner::Local, steps);
    while let Some(p) = next {
        close_row(store, regions, p, within, names, steps);
        next = store.next(p, steps);
    }
}

// Shuts all fields of a local row.
fn close_row<S: Store, L: Ledger>(
    store: &mut S,
    regions: &mut RegionTable,
    p: ObjId,
    within: &IndexSet<ObjId>,
    names: &mut NameList,
    steps: &mut Steps<L>,
)
    requires closing { (s : State) × ((at : ℕ) × ((r : Name) × ((before : LooseNames) × ((slots : List (Option Content))
        × (Closing s at r within.now.keys before (S.rows store.old) regions.old slots names.old × (owner_in s.rows p ≡ Some Local)))))) }
    ensures closing { (s : State) (at : ℕ) (r : Name) (before : LooseNames) (slots : List (Option Content))
        → Closing s at r within.now.keys before (S.rows store.old) regions.old slots names.old → owner_in s.rows p ≡ Some Local
        → Closing s at r within.now.keys before (S.rows store.new) regions.new slots names.new }
    ensures shut { (s : State) (at : ℕ) (r : Name) (before : LooseNames) (slots : List (Option Content))
        → Closing s at r within.now.keys before (S.rows store.old) regions.old slots names.old → owner_in s.rows p ≡ Some Local
        → AreFieldsShut (leads_into s r) (fields_at (S.rows store.new) p) }
    ensures others { (q : Name) → same_name q p ≡ false → fields_at (S.rows store.new) q ≡ fields_at (S.rows store.old) q }
    ensures room { LowersNone (S.spare store.old) (S.spare store.new) }
    ensures order { SameOrder (S.rows store.new) (S.rows store.old) }
{
    let width = store.width(p, steps);
    let mut last = None;
    for _turn in 0..width {
        let Some((key, v)) = store.field_after(p, last, steps) else {
            unreachable!()
        };
        close_field(store, regions, p, key, v, within, names, steps);
        last = Some(key);
    }
}

// Shuts a field of a local row.
fn close_field<S: Store, L: Ledger>(
    store: &mut S,
    regions: &mut RegionTable,
    p: ObjId,
    key: Key,
    v: Value,
    within: &IndexSet<ObjId>,
    names: &mut NameList,
    steps: &mut Steps<L>,
)
    requires field { field_value_at (S.rows store.old) p key ≡ Some v }
    requires closing { (s : State) × ((at : ℕ) × ((r : Name) × ((before : LooseNames) × ((slots : List (Option Content))
        × (Closing s at r within.now.keys before (S.rows store.old) regions.old slots names.old × (owner_in s.rows p ≡ Some Local)))))) }
    ensures closing { (s : State) (at : ℕ) (r : Name) (before : LooseNames) (slots : List (Option Content))
        → Closing s at r within.now.keys before (S.rows store.old) regions.old slots names.old → owner_in s.rows p ≡ Some Local
        → Closing s at r within.now.keys before (S.rows store.new) regions.new slots names.new }
    ensures shut { (s : State) (at : ℕ) (r : Name) (before : LooseNames) (slots : List (Option Content))
        → Closing s at r within.now.keys before (S.rows store.old) regions.old slots names.old → owner_in s.rows p ≡ Some Local
        → fields_at (S.rows store.new) p ≡ shut_field_at (leads_into s r) (fields_at (S.rows store.old) p) key v }
    ensures others { (q : Name) → same_name q p ≡ false → fields_at (S.rows store.new) q ≡ fields_at (S.rows store.old) q }
    ensures room { LowersNone (S.spare store.old) (S.spare store.new) }
    ensures order { SameOrder (S.rows store.new) (S.rows store.old) }
{
    if let_go(store, regions, within, v, names, steps) {
        store.set_field(p, key, Value::None, steps);
    }
}
