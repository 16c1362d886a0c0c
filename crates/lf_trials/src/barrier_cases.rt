//! A write that moves an object into a region, and a content that is written.

ghost use Rattle.std.specs.Prelude.{◌≡◌, ◌<◌};

use crate::counted_edges::{HOME, LOCAL, add_object, made_regions};
use lf_barrier::{apply_content, apply_write, check_content, plan_write};
use lf_base::{CownId, Fault, HeapFail, Key, ObjId, OutOfMemory, Owner, Steps, Value};
use lf_graph::Store;
use lf_regions::RegionTable;
use std::alloc::Global;
use std::sync::ledger::{Blank, Ledger};

const COWN: CownId = CownId { birth: 1, seq: 1 };

// An object that another behaviour made and froze.
const FROZEN: ObjId = ObjId { birth: 2, seq: 1 };

// Whether a local object moves into the region in which it is written to a field.
fn moves_object<S: Store, L: Ledger>(
    alloc: Global,
    steps: &mut Steps<L>,
) -> Result<bool, HeapFail> {
    let (mut store, mut regions) = made_regions::<S, L>(alloc, steps)?;
    add_object(&mut store, &regions, LOCAL, steps)?;
    let value = Value::Obj(LOCAL);
    let plan = plan_write(alloc, &mut store, &regions, HOME, Key::Int(0), value, steps)?;
    let old = apply_write(&mut store, &mut regions, plan, steps);
    Ok(old.is_none() && store.owner(LOCAL, steps) == Some(Owner::In(HOME)))
}

// Whether a bridge is allowed as the content of a new cown, and is counted then.
fn writes_content<S: Store, L: Ledger>(
    alloc: Global,
    steps: &mut Steps<L>,
) -> Result<bool, OutOfMemory> {
    let (mut store, mut regions) = made_regions::<S, L>(alloc, steps)?;
    let home = Value::Obj(HOME);
    let checked = check_content(&store, &regions, Value::None, home, steps);
    apply_content(&mut store, &mut regions, COWN, Value::None, home, steps);
    Ok(checked.is_ok())
}

// Whether a write to a frozen object, which has no row in the store, is refused.
fn refuses_frozen<S: Store, L: Ledger>(
    alloc: Global,
    steps: &mut Steps<L>,
) -> Result<bool, OutOfMemory> {
    let mut store = S::new(alloc)?;
    let regions = RegionTable::new(alloc)?;
    let value = Value::Int(1);
    let planned = plan_write(
        alloc,
        &mut store,
        &regions,
        FROZEN,
        Key::Int(0),
        value,
        steps,
    );
    match planned {
        Err(HeapFail::Fault(fault)) => Ok(fault == Fault::FrozenWrite),
        Err(HeapFail::OutOfMemory) => Err(OutOfMemory),
        Ok(_plan) => Ok(false),
    }
}

/// Whether an object moves with a write, a write to a frozen one is refused, and a content is
/// written. After a failure,
/// which want of memory may bring at any call that takes memory, nothing is told.
pub fn barrier_passes<S: Store, L: Ledger>(alloc: Global, blank: Blank) -> Result<bool, HeapFail>
    requires name { blank.name ≡ L.name }
    requires parts { blank.parts ≡ L.parts }
    requires some { 0 < L.parts }
{
    let mut steps = Steps::<L>::new(blank);
    let moved = moves_object::<S, L>(alloc, &mut steps)?;
    let refused = refuses_frozen::<S, L>(alloc, &mut steps)?;
    let written = writes_content::<S, L>(alloc, &mut steps)?;
    Ok(moved && refused && written)
}
