//! Lists of calls on a heap, as the statements of a script make them.

ghost use Rattle.std.specs.Prelude.{◌≡◌, ◌<◌};

use lf_base::{Fault, HeapFail, OutOfMemory, Steps, Value};
use lf_frozen::FrozenMap;
use lf_graph::Store;
use lf_heap::Heap;
use std::alloc::Global;
use std::sync::ledger::Ledger;

/// A call on a heap. Slots are given by their places.
#[derive(Clone, Copy, Debug, PartialEq, Eq)]
pub enum HeapCall {
    Object,
    Region,
    /// Makes a cown of the last slot.
    Cown,
    /// Pushes an integer, as a key or as a value.
    Number(i64),
    Load(usize),
    Lift(usize),
    Put(usize),
    Unset(usize),
    Pop,
    Read,
    Write,
    Take,
    Freeze,
    Merge,
    Dissolve,
    Close(usize),
}

/// Makes a call, and room for a slot before it. Where it needs slots that aren't there, it
/// isn't made.
pub fn make_call<S: Store, L: Ledger>(
    heap: &mut Heap<S>,
    call: HeapCall,
    steps: &mut Steps<L>,
) -> Result<(), HeapFail> {
    heap.room(1)?;
    match call {
        HeapCall::Object => heap.new_object(),
        HeapCall::Region => heap.new_region(),
        HeapCall::Cown => make_cown(heap, steps),
        HeapCall::Number(n) => {
            heap.push(Some(Value::Int(n)));
            Ok(())
        }
        HeapCall::Load(at) => copy_slot(heap, at),
        HeapCall::Lift(at) => move_slot(heap, at),
        HeapCall::Put(at) => {
            put_slot(heap, at, steps);
            Ok(())
        }
        HeapCall::Unset(at) => unset_slot(heap, at, steps),
        HeapCall::Pop => {
            pop_slot(heap, steps);
            Ok(())
        }
        HeapCall::Read => read_field(heap, steps),
        HeapCall::Write => write_field(heap, steps),
        HeapCall::Take => take_field(heap, steps),
        HeapCall::Freeze => freeze_object(heap, steps),
        HeapCall::Merge => merge_regions(heap, steps),
        HeapCall::Dissolve => dissolve_region(heap, steps),
        HeapCall::Close(at) => close_region(heap, at, steps),
    }
}

// The calls that need slots, where these are there.

fn make_cown<S: Store, L: Ledger>(
    heap: &mut Heap<S>,
    steps: &mut Steps<L>,
) -> Result<(), HeapFail> {
    if heap.slots() >= 1 {
        heap.new_cown(steps)?;
    }
    Ok(())
}

fn copy_slot<S: Store>(heap: &mut Heap<S>, at: usize) -> Result<(), HeapFail> {
    heap.room(1)?;
    if at < heap.slots() {
        heap.load(at)?;
    }
    Ok(())
}

fn move_slot<S: Store>(heap: &mut Heap<S>, at: usize) -> Result<(), HeapFail> {
    heap.room(1)?;
    if at < heap.slots() {
        heap.lift(at)?;
    }
    Ok(())
}

fn put_slot<S: Store, L: Ledger>(heap: &mut Heap<S>, at: usize, steps: &mut Steps<L>) {
    let slots = heap.slots();
    if slots > 0 && at < slots - 1 {
        heap.put(at, steps);
    }
}

fn unset_slot<S: Store, L: Ledger>(
    heap: &mut Heap<S>,
    at: usize,
    steps: &mut Steps<L>,
) -> Result<(), HeapFail> {
    if at < heap.slots() {
        heap.unset(at, steps)?;
    }
    Ok(())
}

fn pop_slot<S: Store, L: Ledger>(heap: &mut Heap<S>, steps: &mut Steps<L>) {
    if heap.slots() > 0 {
        heap.pop(steps);
    }
}

fn read_field<S: Store, L: Ledger>(
    heap: &mut Heap<S>,
    steps: &mut Steps<L>,
) -> Result<(), HeapFail> {
    if heap.slots() >= 2 {
        heap.read(steps)?;
    }
    Ok(())
}

fn write_field<S: Store, L: Ledger>(
    heap: &mut Heap<S>,
    steps: &mut Steps<L>,
) -> Result<(), HeapFail> {
    if heap.slots() >= 3 {
        heap.write(steps)?;
    }
    Ok(())
}

fn take_field<S: Store, L: Ledger>(
    heap: &mut Heap<S>,
    steps: &mut Steps<L>,
) -> Result<(), HeapFail> {
    if heap.slots() >= 2 {
        heap.take(steps)?;
    }
    Ok(())
}

fn freeze_object<S: Store, L: Ledger>(
    heap: &mut Heap<S>,
    steps: &mut Steps<L>,
) -> Result<(), HeapFail> {
    if heap.slots() >= 1 {
        heap.freeze(steps)?;
    }
    Ok(())
}

fn merge_regions<S: Store, L: Ledger>(
    heap: &mut Heap<S>,
    steps: &mut Steps<L>,
) -> Result<(), HeapFail> {
    if heap.slots() >= 2 {
        heap.merge(steps)?;
    }
    Ok(())
}

fn dissolve_region<S: Store, L: Ledger>(
    heap: &mut Heap<S>,
    steps: &mut Steps<L>,
) -> Result<(), HeapFail> {
    if heap.slots() >= 1 {
        heap.dissolve(steps)?;
    }
    Ok(())
}

fn close_region<S: Store, L: Ledger>(
    heap: &mut Heap<S>,
    at: usize,
    steps: &mut Steps<L>,
) -> Result<(), HeapFail> {
    if at < heap.slots() {
        heap.close(at, steps)?;
    }
    Ok(())
}

/// A heap after some calls, and the fault of the first one that was refused, which ends
/// them.
#[derive(Drop)]
pub struct HeapAfter<S: Store> {
    pub heap: Heap<S>,
    pub fault: Option<Fault>,
}

/// Makes calls one after the other on a new heap with so many variables, all unset.
pub fn heap_after<S: Store, L: Ledger>(
    alloc: Global,
    variables: usize,
    calls: &[HeapCall],
    steps: &mut Steps<L>,
) -> Result<HeapAfter<S>, OutOfMemory> {
    let mut heap = Heap::new(alloc, 0, FrozenMap::new(alloc))?;
    for _variable in 0..variables {
        heap.room(1)?;
        heap.push(None);
    }
    for call in calls {
        match make_call(&mut heap, *call, steps) {
            Ok(()) => {}
            Err(HeapFail::Fault(fault)) => {
                return Ok(HeapAfter {
                    heap,
                    fault: Some(fault),
                });
            }
            Err(HeapFail::OutOfMemory) => return Err(OutOfMemory),
        }
    }
    Ok(HeapAfter { heap, fault: None })
}
