//! Measures a store: `lf_bench N flat` takes the flat store and `lf_bench N pools` the pool
//! store. It makes N rows, links each to the one before, gives all to a region, walks over them and drops them; then it gives one row N fields
//! and walks over these. Then it makes a map of N frozen rows by one call, and one by a
//! thousand calls, and looks up as many names in each, in no order. Then a heap makes a chain
//! of N objects, moves it into a region and lets that go, and does the same with one object of
//! N fields. It writes the number of rows or fields of each step to standard output, and the
//! time so far to standard error.
//!
//! It stands on `lf_trials`, by whose calls it works a store of `lf_graph` or of `lf_poolstore`, makes maps of
//! `lf_frozen` and calls a heap, so that it needs no proof of its own about rows.
#![tactic(auto)]

ghost use Rattle.std.specs.Prelude.{◌≡◌, ◌<◌};

use lf_base::{HeapFail, Key, ObjId, OutOfMemory, Owner, Steps, Value};
use lf_frozen::FrozenMap;
use lf_graph::{FlatStore, Store};
use lf_heap::Heap;
use lf_poolstore::PoolStore;
use lf_trials::frozen_maps::made;
use lf_trials::heap_calls::{HeapCall, heap_after, make_call};
use lf_trials::trials::{
    next_field_of, next_of, offer_field, offer_owner, offer_ref, offer_row, withdraw_row,
};
use std::marker::Brand;
use std::process::ExitCode;
use std::rt::{Clock, Env};
use std::sync::ledger::{Blank, Ledger};
use std::time::Instant;
use std::{env, io};

const REGION: Owner = Owner::In(ObjId { birth: 0, seq: 0 });

const LINK: Key = Key::Int(0);

// The variables of the heap: a region, the last object of a chain, and the next one.
const HOME: usize = 0;

const HEAD: usize = 1;

const NEXT: usize = 2;

const VARIABLES: usize = 3;

// By how many calls the second map is made, where it has as many rows.
const MAP_CALLS: u32 = 1_000;

// The row of a number.
const fn row(seq: u32) -> ObjId {
    ObjId { birth: 0, seq }
}

fn make<S: Store, L: Ledger>(
    store: &mut S,
    count: u32,
    steps: &mut Steps<L>,
) -> Result<(), OutOfMemory> {
    for seq in 0..count {
        offer_row(store, row(seq), Owner::Local, steps)?;
    }
    Ok(())
}

fn link<S: Store, L: Ledger>(
    store: &mut S,
    count: u32,
    steps: &mut Steps<L>,
) -> Result<(), OutOfMemory> {
    for seq in 1..count {
        let before = row(seq - 1);
        offer_field(store, row(seq), LINK, Value::Obj(before), steps)?;
        offer_ref(store, before, steps);
    }
    Ok(())
}

fn give<S: Store, L: Ledger>(
    store: &mut S,
    count: u32,
    steps: &mut Steps<L>,
) -> Result<(), OutOfMemory> {
    for seq in 0..count {
        offer_owner(store, row(seq), REGION, steps)?;
    }
    Ok(())
}

// The number of a region's rows, no more than `count`.
fn walk<S: Store, L: Ledger>(store: &S, count: u32, steps: &mut Steps<L>) -> u32 {
    let mut at = store.first(REGION, steps);
    for walked in 0..count {
        let Some(o) = at else {
            return walked;
        };
        at = next_of(store, o, steps);
    }
    count
}

fn drop_all<S: Store, L: Ledger>(store: &mut S, count: u32, steps: &mut Steps<L>) {
    for seq in 0..count {
        withdraw_row(store, row(seq), steps);
    }
}

// Makes a row with so many fields.
fn fill<S: Store, L: Ledger>(
    store: &mut S,
    o: ObjId,
    count: u32,
    steps: &mut Steps<L>,
) -> Result<(), OutOfMemory> {
    offer_row(store, o, Owner::Local, steps)?;
    for n in 0..count {
        let n = i64::from(n);
        offer_field(store, o, Key::Int(n), Value::Int(n), steps)?;
    }
    Ok(())
}

// The number of a row's fields, no more than `count`, by a walk from each to the next.
fn walk_fields<S: Store, L: Ledger>(store: &S, o: ObjId, count: u32, steps: &mut Steps<L>) -> u32 {
    let mut last = None;
    for walked in 0..count {
        let Some((key, _value)) = next_field_of(store, o, last, steps) else {
            return walked;
        };
        last = Some(key);
    }
    count
}

fn report<R: Print + Eprint + Clock + AllocGlobal>(
    rt: &R,
    step: &str,
    rows: u32,
    start: &Instant,
) -> io::Result<()> {
    println!(rt; "{step} {rows}")?;
    let millis = start.elapsed(rt)?.as_millis();
    eprintln!(rt; "{step} after {millis} ms")
}

// Makes, links, gives, walks over and drops so many rows.
fn measure_rows<S: Store, L: Ledger, R: Print + Eprint + Clock + AllocGlobal>(
    rt: &R,
    store: &mut S,
    count: u32,
    start: &Instant,
    steps: &mut Steps<L>,
) -> io::Result<()> {
    if make(store, count, steps).is_err() {
        return report(rt, "no memory", 0, start);
    }
    report(rt, "made", count, start)?;
    if link(store, count, steps).is_err() {
        return report(rt, "no memory", 0, start);
    }
    report(rt, "linked", count, start)?;
    if give(store, count, steps).is_err() {
        return report(rt, "no memory", 0, start);
    }
    report(rt, "given", walk(store, count, steps), start)?;
    drop_all(store, count, steps);
    report(rt, "left", walk(store, count, steps), start)
}

// Gives one row so many fields, and walks over them.
fn measure_fields<S: Store, L: Ledger, R: Print + Eprint + Clock + AllocGlobal>(
    rt: &R,
    store: &mut S,
    count: u32,
    start: &Instant,
    steps: &mut Steps<L>,
) -> io::Result<()> {
    if fill(store, row(0), count, steps).is_err() {
        return report(rt, "no memory", 0, start);
    }
    report(rt, "filled", count, start)?;
    report(
        rt,
        "fields",
        walk_fields(store, row(0), count, steps),
        start,
    )
}

// The number after this one in a row that goes through all numbers in no order.
fn scatter(number: u32) -> u32 {
    number.wrapping_mul(1_664_525).wrapping_add(1_013_904_223)
}

// Looks up as many names as a map has rows, in no order, and counts what is found.
fn look(map: &FrozenMap, births: u32, calls: u32) -> u32 {
    let mut found: u32 = 0;
    let mut number = 0;
    for _ in 0..births.saturating_mul(calls) {
        number = scatter(number);
        let birth = (number >> 12).checked_rem(births).unwrap_or(0);
        number = scatter(number);
        let seq = (number >> 12).checked_rem(calls).unwrap_or(0);
        if map.get(ObjId { birth, seq }).is_some() {
            found = found.saturating_add(1);
        }
    }
    found
}

// Makes a map of so many rows by so many calls, and looks up as many names.
fn measure_map<R: Print + Eprint + Clock + AllocGlobal>(
    rt: &R,
    count: u32,
    calls: u32,
    start: &Instant,
) -> io::Result<()> {
    let births = count.checked_div(calls).unwrap_or(0);
    let Ok(map) = made(rt.alloc(), births, calls) else {
        return report(rt, "no memory", 0, start);
    };
    report(rt, "mapped", births.saturating_mul(calls), start)?;
    report(rt, "found", look(&map, births, calls), start)
}

// Calls made one after the other.
fn make_calls<S: Store, L: Ledger>(
    heap: &mut Heap<S>,
    calls: &[HeapCall],
    steps: &mut Steps<L>,
) -> Result<(), HeapFail> {
    for call in calls {
        make_call(heap, *call, steps)?;
    }
    Ok(())
}

// Makes so many local objects, each with the one before as a field. The last one is in
// the variable HEAD.
fn chain_objects<S: Store, L: Ledger>(
    heap: &mut Heap<S>,
    count: u32,
    steps: &mut Steps<L>,
) -> Result<(), HeapFail> {
    make_calls(heap, &[HeapCall::Object, HeapCall::Put(HEAD)], steps)?;
    for _ in 1..count {
        let calls = [
            HeapCall::Object,
            HeapCall::Put(NEXT),
            HeapCall::Load(NEXT),
            HeapCall::Number(0),
            HeapCall::Lift(HEAD),
            HeapCall::Write,
            HeapCall::Lift(NEXT),
            HeapCall::Put(HEAD),
        ];
        make_calls(heap, &calls, steps)?;
    }
    Ok(())
}

// Gives one local object so many fields.
fn widen_object<S: Store, L: Ledger>(
    heap: &mut Heap<S>,
    count: u32,
    steps: &mut Steps<L>,
) -> Result<(), HeapFail> {
    make_calls(heap, &[HeapCall::Object, HeapCall::Put(HEAD)], steps)?;
    for key in 0..count {
        let key = i64::from(key);
        let calls = [
            HeapCall::Load(HEAD),
            HeapCall::Number(key),
            HeapCall::Number(key),
            HeapCall::Write,
        ];
        make_calls(heap, &calls, steps)?;
    }
    Ok(())
}

// Writes the object of HEAD to a field of the region.
const MOVE: [HeapCall; 4] = [
    HeapCall::Load(HOME),
    HeapCall::Number(0),
    HeapCall::Load(HEAD),
    HeapCall::Write,
];

// Lets the region go.
const LEAVE: [HeapCall; 2] = [HeapCall::Unset(HEAD), HeapCall::Unset(HOME)];

// What a step came to: its number, or 0 where it was refused.
fn done(count: u32, step: Result<(), HeapFail>) -> u32 {
    match step {
        Ok(()) => count,
        Err(_refused) => 0,
    }
}

// Measures a heap: a chain of objects and a wide object that move into a region and go
// with it.
fn measure_heap<S: Store, L: Ledger, R: Print + Eprint + Clock + AllocGlobal>(
    rt: &R,
    count: u32,
    start: &Instant,
    steps: &mut Steps<L>,
) -> io::Result<()> {
    let region = [HeapCall::Region, HeapCall::Put(HOME)];
    let Ok(after) = heap_after::<S, L>(rt.alloc(), VARIABLES, &region, steps) else {
        return report(rt, "no memory", 0, start);
    };
    let mut heap = after.heap;
    let chained = chain_objects(&mut heap, count, steps);
    report(rt, "chained", done(count, chained), start)?;
    let moved = make_calls(&mut heap, &MOVE, steps);
    report(rt, "moved", done(count, moved), start)?;
    let left = make_calls(&mut heap, &LEAVE, steps);
    report(rt, "gone", done(count, left), start)?;
    let again = make_calls(&mut heap, &region, steps);
    report(rt, "regions", done(1, again), start)?;
    let widened = widen_object(&mut heap, count, steps);
    report(rt, "widened", done(count, widened), start)?;
    let moved = make_calls(&mut heap, &MOVE, steps);
    report(rt, "moved", done(count, moved), start)?;
    let left = make_calls(&mut heap, &LEAVE, steps);
    report(rt, "gone", done(count, left), start)
}

// Measures a store with so many rows, and with a row of so many fields, and maps of so many rows.
fn measure<S: Store, L: Ledger, R: Print + Eprint + Clock + AllocGlobal>(
    rt: &R,
    count: u32,
    blank: Blank,
) -> io::Result<()>
    requires name { blank.name ≡ L.name }
    requires parts { blank.parts ≡ L.parts }
    requires some { 0 < L.parts }
{
    let start = Instant::now(rt)?;
    let mut steps = Steps::<L>::new(blank);
    let Ok(mut store) = S::new(rt.alloc()) else {
        return report(rt, "no memory", 0, &start);
    };
    measure_rows(rt, &mut store, count, &start, &mut steps)?;
    measure_fields(rt, &mut store, count, &start, &mut steps)?;
    measure_map(rt, count, 1, &start)?;
    measure_map(rt, count, count.min(MAP_CALLS), &start)?;
    measure_heap::<S, L, R>(rt, count, &start, &mut steps)
}

// The store that is measured.
#[derive(Clone, Copy)]
enum Measured {
    Flat,
    Pools,
}

// The store of a word.
fn store_of(word: &str) -> Option<Measured> {
    match word {
        "flat" => Some(Measured::Flat),
        "pools" => Some(Measured::Pools),
        _ => None,
    }
}

// The number of rows and the store: the first two arguments.
fn words<R: Env + AllocGlobal>(rt: &R) -> Option<(u32, Measured)> {
    let mut args = env::args(rt).ok()?;
    let _program = args.next()?;
    let count = args.next()?.parse::<u32>().ok()?;
    let store = store_of(args.next()?.as_str())?;
    Some((count, store))
}

fn main(rt: HostRuntime) -> ExitCode {
    let Some((count, store)) = words(&rt) else {
        return ExitCode::from(2);
    };
    let blank = Blank::new(1);
    let done = match store {
        Measured::Flat => measure::<FlatStore, Brand, _>(&rt, count, blank),
        Measured::Pools => measure::<PoolStore, Brand, _>(&rt, count, blank),
    };
    match done {
        Ok(()) => ExitCode::SUCCESS,
        Err(_error) => ExitCode::FAILURE,
    }
}
