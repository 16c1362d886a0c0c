//! A region that goes into the one that it owns, one that is dissolved, and one that may
//! not be.

ghost use Rattle.std.specs.Prelude.{◌≡◌, ◌<◌, IfOk};
ghost use Rattle.lf_domain.specs.Counts.{IsDomain};
ghost use Rattle.lf_trials.specs.OwnedRegion.{with_child};

use crate::counted_edges::{CHILD, HOME, made_regions, told};
use lf_barrier::{apply_write, plan_write};
use lf_base::{Fault, HeapFail, Key, Owner, Steps, Value};
use lf_graph::Store;
use lf_regions::RegionTable;
use lf_transfer::{apply_dissolve, apply_merge, plan_dissolve, plan_merge};
use std::alloc::Global;
use std::sync::ledger::{Blank, Ledger};

// Two regions, the first of which owns the second.
pub(crate) fn owned_region<S: Store, L: Ledger>(
    alloc: Global,
    steps: &mut Steps<L>,
) -> Result<(S, RegionTable), HeapFail>
    ensures { IfOk result (λ made. IsDomain (S.rows made.0) made.1 with_child) }
{
    let (mut store, mut regions) = made_regions::<S, L>(alloc, steps)?;
    let child = Value::Obj(CHILD);
    let plan = plan_write(alloc, &mut store, &regions, HOME, Key::Int(0), child, steps)?;
    let _ = apply_write(&mut store, &mut regions, plan, steps);
    Ok((store, regions))
}

// Whether the owner goes into the region that it owns, which nothing owns then.
fn merges_owner<S: Store, L: Ledger>(
    alloc: Global,
    steps: &mut Steps<L>,
) -> Result<bool, HeapFail> {
    let (mut store, mut regions) = owned_region::<S, L>(alloc, steps)?;
    let into = Value::Obj(CHILD);
    let from = Value::Obj(HOME);
    let plan = plan_merge(alloc, &mut store, &regions, into, from, steps)?;
    apply_merge(&mut store, &mut regions, plan, steps);
    let gone = store.owner(HOME, steps) == Some(Owner::In(CHILD));
    let counted = told(&store, &regions, CHILD, steps) == (1, 0, false);
    Ok(gone && counted)
}

// Whether the owner is dissolved, and borrows the region that it owned.
fn dissolves_owner<S: Store, L: Ledger>(
    alloc: Global,
    steps: &mut Steps<L>,
) -> Result<bool, HeapFail> {
    let (mut store, mut regions) = owned_region::<S, L>(alloc, steps)?;
    let plan = plan_dissolve(&mut store, &regions, Value::Obj(HOME), steps)?;
    apply_dissolve(&mut store, &mut regions, plan, steps);
    let local = store.owner(HOME, steps) == Some(Owner::Local);
    let counted = told(&store, &regions, CHILD, steps) == (1, 1, false);
    Ok(local && counted)
}

// Whether the dissolving of the region that is owned is refused.
fn refuses_owned<S: Store, L: Ledger>(
    alloc: Global,
    steps: &mut Steps<L>,
) -> Result<bool, HeapFail> {
    let (mut store, regions) = owned_region::<S, L>(alloc, steps)?;
    match plan_dissolve(&mut store, &regions, Value::Obj(CHILD), steps) {
        Err(HeapFail::Fault(fault)) => Ok(fault == Fault::Owned),
        Err(HeapFail::OutOfMemory) => Err(HeapFail::OutOfMemory),
        Ok(_plan) => Ok(false),
    }
}

/// Whether a region goes into another one, one is dissolved, and one isn't since it is
/// owned. After a failure, which want of memory may bring at any call that takes memory,
/// nothing is told.
pub fn transfer_passes<S: Store, L: Ledger>(alloc: Global, blank: Blank) -> Result<bool, HeapFail>
    requires name { blank.name ≡ L.name }
    requires parts { blank.parts ≡ L.parts }
    requires some { 0 < L.parts }
{
    let mut steps = Steps::<L>::new(blank);
    let merged = merges_owner::<S, L>(alloc, &mut steps)?;
    let dissolved = dissolves_owner::<S, L>(alloc, &mut steps)?;
    let refused = refuses_owned::<S, L>(alloc, &mut steps)?;
    Ok(merged && dissolved && refused)
}
