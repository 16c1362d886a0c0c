//! A region that freezes whole, and an inner row that freezes, with which its region loses
//! its last borrow.

ghost use Rattle.std.specs.Prelude.{◌≡◌, ◌<◌, IfOk};
ghost use Rattle.lf_domain.specs.Counts.{IsDomain};
ghost use Rattle.lf_trials.specs.BorrowedInner.{borrowed_inner};

use crate::counted_edges::{CHILD, HOME, LOCAL, add_object, made_regions, told};
use crate::transfer_cases::owned_region;
use lf_barrier::{apply_write, plan_write};
use lf_base::{HeapFail, Key, Steps, Value};
use lf_domain::count_borrow;
use lf_frozen::FrozenMap;
use lf_graph::Store;
use lf_regions::RegionTable;
use lf_transfer::{Loose, apply_freeze, plan_freeze};
use std::alloc::Global;
use std::sync::ledger::{Blank, Ledger};

// A region with an inner row, which a slot borrows.
fn made_inner<S: Store, L: Ledger>(
    alloc: Global,
    steps: &mut Steps<L>,
) -> Result<(S, RegionTable), HeapFail>
    ensures { IfOk result (λ made. IsDomain (S.rows made.0) made.1 borrowed_inner) }
{
    let (mut store, mut regions) = made_regions::<S, L>(alloc, steps)?;
    add_object(&mut store, &regions, LOCAL, steps)?;
    let value = Value::Obj(LOCAL);
    let plan = plan_write(alloc, &mut store, &regions, HOME, Key::Int(0), value, steps)?;
    let _ = apply_write(&mut store, &mut regions, plan, steps);
    count_borrow(&mut store, &mut regions, Some(value), steps);
    Ok((store, regions))
}

// Whether the region that another one owns freezes whole, and its owner stays.
fn freezes_region<S: Store, L: Ledger>(
    alloc: Global,
    steps: &mut Steps<L>,
) -> Result<bool, HeapFail> {
    let (mut store, mut regions) = owned_region::<S, L>(alloc, steps)?;
    let mut frozen = FrozenMap::new(alloc);
    let mut work = Loose::new(alloc);
    let value = Value::Obj(CHILD);
    let plan = plan_freeze(alloc, &store, &regions, &frozen, value, steps)?;
    let losing = plan.regions();
    work.reserve(losing)?;
    apply_freeze(
        &mut store,
        &mut regions,
        &mut frozen,
        plan,
        &mut work,
        steps,
    );
    let gone = store.owner(CHILD, steps).is_none() && frozen.get(CHILD).is_some();
    let counted = told(&store, &regions, HOME, steps) == (0, 0, false);
    Ok(losing == 1 && gone && counted && work.pop().is_none())
}

// Whether an inner row freezes, and its region is left without a borrow.
fn freezes_inner<S: Store, L: Ledger>(
    alloc: Global,
    steps: &mut Steps<L>,
) -> Result<bool, HeapFail> {
    let (mut store, mut regions) = made_inner::<S, L>(alloc, steps)?;
    let mut frozen = FrozenMap::new(alloc);
    let mut work = Loose::new(alloc);
    let value = Value::Obj(LOCAL);
    let plan = plan_freeze(alloc, &store, &regions, &frozen, value, steps)?;
    work.reserve(plan.regions())?;
    apply_freeze(
        &mut store,
        &mut regions,
        &mut frozen,
        plan,
        &mut work,
        steps,
    );
    let gone = store.owner(LOCAL, steps).is_none() && frozen.get(LOCAL).is_some();
    let counted = told(&store, &regions, HOME, steps) == (0, 0, false);
    Ok(gone && counted && work.pop() == Some(HOME))
}

/// Whether a region freezes whole, and an inner row alone. After a failure, which want of
/// memory may bring at any call that takes memory, nothing is told.
pub fn freeze_passes<S: Store, L: Ledger>(alloc: Global, blank: Blank) -> Result<bool, HeapFail>
    requires name { blank.name ≡ L.name }
    requires parts { blank.parts ≡ L.parts }
    requires some { 0 < L.parts }
{
    let mut steps = Steps::<L>::new(blank);
    let whole = freezes_region::<S, L>(alloc, &mut steps)?;
    let inner = freezes_inner::<S, L>(alloc, &mut steps)?;
    Ok(whole && inner)
}
