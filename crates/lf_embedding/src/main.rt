//! A runtime of one's own in small: it makes a region, moves a graph of two objects into
//! it, is refused a second owner of another region, and reads the counts.
//!
//! It stands on `lf_heap`, over the flat store of `lf_graph`, and on `lf_frozen` for the
//! frozen rows that it is given, which are none. What each call needs is proved
//! from the clauses of the calls before it, so nothing is tested on the way.
#![tactic(auto)]

ghost use Rattle.std.specs.Prelude.{◌≡◌, ◌<◌, ◌≤◌, IfOk, OnOk};
ghost use Rattle.lf_embedding.specs.Sizes.{HasSlots};

use lf_base::{Answer, HeapFail, Label, OutOfMemory, Question, Steps, Value};
use lf_frozen::FrozenMap;
use lf_graph::{FlatStore, Store};
use lf_heap::Heap;
use std::alloc::Global;
use std::io;
use std::marker::Brand;
use std::process::ExitCode;
use std::sync::ledger::{Blank, Ledger};

// The variables of this runtime, as places of the heap's slots.
const ORCHARD: usize = 0;

const TREE: usize = 1;

const APPLE: usize = 2;

const BASKET: usize = 3;

// The fields, as keys.
const FIRST: i64 = 1;

const SECOND: i64 = 2;

// A heap with the four variables, unset, and room for three operands.
fn new_heap<S: Store>(alloc: Global) -> Result<Heap<S>, OutOfMemory>
    ensures { IfOk result (λ heap. HasSlots heap 4 3) }
{
    let mut heap = Heap::new(alloc, 1, FrozenMap::new(alloc))?;
    heap.room(7)?;
    heap.push(None);
    heap.push(None);
    heap.push(None);
    heap.push(None);
    Ok(heap)
}

// Makes an object for a variable.
fn make_object<S: Store, L: Ledger>(
    heap: &mut Heap<S>,
    variable: usize,
    steps: &mut Steps<L>,
) -> Result<(), HeapFail>
    requires slots { HasSlots heap.old 4 3 }
    requires variable { variable < 4 }
    ensures { OnOk result (HasSlots heap.new 4 3) }
{
    heap.new_object()?;
    heap.put(variable, steps);
    Ok(())
}

// Makes a region for a variable, which holds its bridge.
fn make_region<S: Store, L: Ledger>(
    heap: &mut Heap<S>,
    variable: usize,
    steps: &mut Steps<L>,
) -> Result<(), HeapFail>
    requires slots { HasSlots heap.old 4 3 }
    requires variable { variable < 4 }
    ensures { OnOk result (HasSlots heap.new 4 3) }
{
    heap.new_region()?;
    heap.put(variable, steps);
    Ok(())
}

// Writes a variable's value to a field of another one's object. A write that is refused
// leaves its operands, with which this runtime does nothing more.
fn write_field<S: Store, L: Ledger>(
    heap: &mut Heap<S>,
    object: usize,
    key: i64,
    variable: usize,
    steps: &mut Steps<L>,
) -> Result<(), HeapFail>
    requires slots { HasSlots heap.old 4 3 }
    requires object { object < 4 }
    requires variable { variable < 4 }
    ensures { OnOk result (HasSlots heap.new 4 3) }
{
    heap.load(object)?;
    heap.push(Some(Value::Int(key)));
    heap.load(variable)?;
    heap.write(steps)
}

// What this runtime finds.
#[derive(Drop)]
struct Found {
    borrows: Answer,
    references: Answer,
    place: Answer,
    second_owner: Result<(), HeapFail>,
}

// Plants a tree with an apple in the orchard, and tries to put the basket's region into it
// by two fields.
fn plant<S: Store, L: Ledger>(alloc: Global, steps: &mut Steps<L>) -> Result<Found, HeapFail> {
    let mut heap = new_heap::<S>(alloc)?;
    make_region(&mut heap, ORCHARD, steps)?;
    make_object(&mut heap, TREE, steps)?;
    make_object(&mut heap, APPLE, steps)?;
    make_region(&mut heap, BASKET, steps)?;
    write_field(&mut heap, TREE, FIRST, APPLE, steps)?;
    write_field(&mut heap, ORCHARD, FIRST, TREE, steps)?;
    write_field(&mut heap, TREE, SECOND, BASKET, steps)?;
    let borrows = heap.ask(Question::Borrowed, ORCHARD)?;
    let references = heap.ask(Question::Refs, APPLE)?;
    let place = heap.ask(Question::Owner, APPLE)?;
    let second_owner = write_field(&mut heap, ORCHARD, SECOND, BASKET, steps);
    Ok(Found {
        borrows,
        references,
        place,
        second_owner,
    })
}

// The number that was answered.
fn number(answer: Answer) -> u64 {
    match answer {
        Answer::Number(n) => n,
        Answer::Truth(_) | Answer::Label(_) => 0,
    }
}

// The place that was answered.
fn place(answer: Answer) -> &'static str {
    match answer {
        Answer::Label(Label::Local) => "local",
        Answer::Label(Label::Region) => "region",
        Answer::Label(_) | Answer::Number(_) | Answer::Truth(_) => "elsewhere",
    }
}

// Writes what was found.
fn report<R: Print + AllocGlobal>(rt: &R, found: &Found) -> io::Result<()> {
    println!(rt; "references into the orchard: {}", number(found.borrows))?;
    println!(rt; "references to the apple: {}", number(found.references))?;
    println!(rt; "the apple's place: {}", place(found.place))?;
    match found.second_owner {
        Ok(()) => println!(rt; "the basket has two owners"),
        Err(HeapFail::Fault(fault)) => println!(rt; "a second owner is refused: {}", fault.name()),
        Err(HeapFail::OutOfMemory) => println!(rt; "no memory"),
    }
}

fn run<S: Store, L: Ledger, R: Print + AllocGlobal>(rt: &R, blank: Blank) -> io::Result<()>
    requires name { blank.name ≡ L.name }
    requires parts { blank.parts ≡ L.parts }
    requires some { 0 < L.parts }
{
    let mut steps = Steps::<L>::new(blank);
    match plant::<S, L>(rt.alloc(), &mut steps) {
        Ok(found) => report(rt, &found),
        Err(HeapFail::Fault(fault)) => println!(rt; "refused: {}", fault.name()),
        Err(HeapFail::OutOfMemory) => println!(rt; "no memory"),
    }
}

fn main(rt: HostRuntime) -> ExitCode {
    match run::<FlatStore, Brand, _>(&rt, Blank::new(1)) {
        Ok(()) => ExitCode::SUCCESS,
        Err(_error) => ExitCode::FAILURE,
    }
}
