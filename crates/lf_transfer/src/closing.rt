//! A region is closed: what else leads into it from slots and local rows is unset.

ghost use Rattle.std.specs.Prelude.{◌≡◌, ◌≢◌, ◌+◌, ◌<◌, ◌≤◌, OnErr, length, ℕ};
ghost use Rattle.std.specs.Result.{result_err};
ghost use Rattle.lf_base.specs.declared.ids.ObjId.{ObjId as Name};
ghost use Rattle.lf_base.specs.CloseResult.{close_refusal, close_result, leads_into};
ghost use Rattle.lf_base.specs.PlainChanges.{slot_at};
ghost use Rattle.lf_base.specs.PlainState.{State};
ghost use Rattle.lf_domain.specs.Counts.{CountsOf};
ghost use Rattle.lf_graph.specs.Room.{LowersNone};
ghost use Rattle.lf_transfer.specs.Closing.{AreSlotsShut, Closing, HoldsBridge, IsOpenedBy, IsSlotShut, LetsLoose};
ghost use Rattle.lf_transfer.specs.LooseNames.{LooseNames};

use crate::below::find_below;
use crate::bridges::bridge_of;
use crate::closed_fields::close_rows;
use crate::letting::let_go;
use crate::loose::Loose;
use crate::name_list::NameList;
use indexmap::IndexSet;
use lf_base::{Fault, ObjId, Steps, Value};
use lf_graph::Store;
use lf_regions::RegionTable;
use std::sync::ledger::Ledger;

/// Closes the region whose bridge the slot at a place holds: each other slot, and each field
/// of a local row, that refers to a row of the region or of one below it holds `None` then.
/// It is refused as `Unset` where the slot is unset, and then as `NotBridge` where it holds
/// no bridge; nothing changes then. The inner rows that it leaves without an edge are added
/// to the list, which needs room for as many names as the store has rows. It takes no memory.
///
/// It looks at each row of the region and of those below it, at each slot, at each local
/// row, and at the fields of all these rows.
pub fn close<S: Store, L: Ledger>(
    store: &mut S,
    regions: &mut RegionTable,
    slots: &mut [Option<Value>],
    kept: usize,
    work: &mut Loose,
    steps: &mut Steps<L>,
) -> Result<(), Fault>
    requires opened { (s : State) × IsOpenedBy (S.rows store.old) regions.old slots.old s }
    requires kept { kept < length slots.old }
    requires room { length (S.rows store.old) ≤ work.old.spare }
    ensures answer { (s : State) → IsOpenedBy (S.rows store.old) regions.old slots.old s → result_err result ≡ close_refusal s kept }
    ensures slots { (s : State) (r : Name) → IsOpenedBy (S.rows store.old) regions.old slots.old s → HoldsBridge s kept r
        → slots.new ≡ (close_result s kept r).slots }
    ensures counts { (s : State) (r : Name) → IsOpenedBy (S.rows store.old) regions.old slots.old s → HoldsBridge s kept r
        → CountsOf (S.rows store.new) regions.new (close_result s kept r) }
    ensures loose { (s : State) (r : Name) → IsOpenedBy (S.rows store.old) regions.old slots.old s → HoldsBridge s kept r
        → LetsLoose s (close_result s kept r) work.old.names work.new.names }
    ensures no_row { OnErr result (S.rows store.new ≡ S.rows store.old) }
    ensures no_region { OnErr result (regions.new ≡ regions.old) }
    ensures no_slot { OnErr result (slots.new ≡ slots.old) }
    ensures no_name { OnErr result (work.new ≡ work.old) }
    ensures length { length slots.new ≡ length slots.old }
    ensures room { work.old.spare + length work.old.names ≤ work.new.spare + length work.new.names }
    ensures spare { LowersNone (S.spare store.old) (S.spare store.new) }
{
    let Some(value) = slots[kept] else {
        return Err(Fault::Unset);
    };
    let Some(r) = bridge_of(store, value, steps) else {
        return Err(Fault::NotBridge);
    };
    close_region(store, regions, slots, kept, r, work, steps);
    Ok(())
}

// Closes region r, whose bridge the slot at a place holds.
fn close_region<S: Store, L: Ledger>(
    store: &mut S,
    regions: &mut RegionTable,
    slots: &mut [Option<Value>],
    kept: usize,
    r: ObjId,
    work: &mut Loose,
    steps: &mut Steps<L>,
)
    requires opened { (s : State) × (IsOpenedBy (S.rows store.old) regions.old slots.old s × HoldsBridge s kept r) }
    requires room { length (S.rows store.old) ≤ work.old.spare }
    ensures slots { (s : State) → IsOpenedBy (S.rows store.old) regions.old slots.old s → HoldsBridge s kept r
        → slots.new ≡ (close_result s kept r).slots }
    ensures counts { (s : State) → IsOpenedBy (S.rows store.old) regions.old slots.old s → HoldsBridge s kept r
        → CountsOf (S.rows store.new) regions.new (close_result s kept r) }
    ensures loose { (s : State) → IsOpenedBy (S.rows store.old) regions.old slots.old s → HoldsBridge s kept r
        → LetsLoose s (close_result s kept r) work.old.names work.new.names }
    ensures length { length slots.new ≡ length slots.old }
    ensures room { work.old.spare + length work.old.names ≤ work.new.spare + length work.new.names }
    ensures spare { LowersNone (S.spare store.old) (S.spare store.new) }
{
    find_below(store, &mut work.below, r, steps);
    close_slots(
        store,
        regions,
        slots,
        kept,
        &work.below,
        &mut work.list,
        steps,
    );
    close_rows(store, regions, &work.below, &mut work.list, steps);
    work.below.clear();
}

// Shuts each slot but one.
fn close_slots<S: Store, L: Ledger>(
    store: &mut S,
    regions: &mut RegionTable,
    slots: &mut [Option<Value>],
    kept: usize,
    within: &IndexSet<ObjId>,
    names: &mut NameList,
    steps: &mut Steps<L>,
)
    requires closing { (s : State) × ((r : Name) × ((before : LooseNames)
        × Closing s kept r within.now.keys before (S.rows store.old) regions.old slots.old names.old)) }
    ensures closing { (s : State) (r : Name) (before : LooseNames)
        → Closing s kept r within.now.keys before (S.rows store.old) regions.old slots.old names.old
        → Closing s kept r within.now.keys before (S.rows store.new) regions.new slots.new names.new }
    ensures shut { (s : State) (r : Name) (before : LooseNames)
        → Closing s kept r within.now.keys before (S.rows store.old) regions.old slots.old names.old
        → AreSlotsShut (leads_into s r) kept (length slots.old) slots.new }
    ensures length { length slots.new ≡ length slots.old }
    ensures room { LowersNone (S.spare store.old) (S.spare store.new) }
{
    for at in 0..slots.len() {
        if at != kept {
            close_slot(store, regions, slots, at, within, names, steps);
        }
    }
}

// Shuts a slot.
fn close_slot<S: Store, L: Ledger>(
    store: &mut S,
    regions: &mut RegionTable,
    slots: &mut [Option<Value>],
    at: usize,
    within: &IndexSet<ObjId>,
    names: &mut NameList,
    steps: &mut Steps<L>,
)
    requires there { at < length slots.old }
    requires closing { (s : State) × ((kept : ℕ) × ((r : Name) × ((before : LooseNames) × ((kept ≢ at)
        × Closing s kept r within.now.keys before (S.rows store.old) regions.old slots.old names.old)))) }
    ensures closing { (s : State) (kept : ℕ) (r : Name) (before : LooseNames) → kept ≢ at
        → Closing s kept r within.now.keys before (S.rows store.old) regions.old slots.old names.old
        → Closing s kept r within.now.keys before (S.rows store.new) regions.new slots.new names.new }
    ensures shut { (s : State) (kept : ℕ) (r : Name) (before : LooseNames) → kept ≢ at
        → Closing s kept r within.now.keys before (S.rows store.old) regions.old slots.old names.old
        → IsSlotShut (leads_into s r) (slot_at slots.new at) }
    ensures others { (n : ℕ) → n ≢ at → slot_at slots.new n ≡ slot_at slots.old n }
    ensures length { length slots.new ≡ length slots.old }
    ensures room { LowersNone (S.spare store.old) (S.spare store.new) }
{
    let Some(v) = slots[at] else {
        return;
    };
    if let_go(store, regions, within, v, names, steps) {
        slots[at] = Some(Value::None);
    }
}
