//! A chain of local rows goes in one call, however long it is.

ghost use Rattle.std.specs.Prelude.{◌≡◌, ◌+◌, ◌<◌, ◌^◌, IfOk, OnOk};
ghost use Rattle.lf_domain.specs.Counts.{CountsOf};
ghost use Rattle.lf_settle.specs.SettledStates.{CanSettle};
ghost use Rattle.lf_trials.specs.LocalChains.{chain};

use crate::counted_edges::{HOME, add_object};
use lf_base::{Key, ObjId, OutOfMemory, Owner, Steps, Value};
use lf_domain::callers::write_local;
use lf_graph::Store;
use lf_regions::RegionTable;
use lf_settle::{Suspect, Work, settle};
use std::alloc::Global;
use std::sync::ledger::{Blank, Ledger};

// Makes the next row of a chain that has so many links. It leads to the last row.
fn add_link<S: Store, L: Ledger>(
    store: &mut S,
    regions: &mut RegionTable,
    links: u32,
    steps: &mut Steps<L>,
) -> Result<(), OutOfMemory>
    requires few { links < 2 ^ 31 }
    requires chain { CountsOf (S.rows store.old) regions.old (chain links) }
    ensures longer { OnOk result (CountsOf (S.rows store.new) regions.new (chain (links + 1))) }
{
    let name = ObjId {
        birth: 1,
        seq: links + 2,
    };
    let before = ObjId {
        birth: 1,
        seq: links + 1,
    };
    add_object(store, regions, name, steps)?;
    store.reserve(Owner::Local, 1)?;
    write_local(store, regions, name, Key::Int(0), Value::Obj(before), steps);
    Ok(())
}

// A chain, of which each row is a suspect.
fn made_chain<S: Store, L: Ledger>(
    alloc: Global,
    links: u32,
    steps: &mut Steps<L>,
) -> Result<(S, RegionTable, Work), OutOfMemory>
    requires few { links < 2 ^ 31 }
    ensures { IfOk result (λ made. CanSettle (S.rows made.0) made.1 made.2 (chain links)) }
{
    let mut store = S::new(alloc)?;
    let mut regions = RegionTable::new(alloc)?;
    let mut work = Work::new(alloc);
    work.reserve(2 * (links as usize + 1))?;
    add_object(&mut store, &regions, HOME, steps)?;
    work.push(Suspect::Object(HOME));
    for made in 0..links {
        add_link(&mut store, &mut regions, made, steps)?;
        work.push(Suspect::Object(ObjId {
            birth: 1,
            seq: made + 2,
        }));
    }
    Ok((store, regions, work))
}

/// Whether all rows of a chain with so many links go in one call, which leaves no
/// suspect and gives back the room of each. After `OutOfMemory`, which a store may answer
/// at any call that takes memory, nothing is told.
pub fn chain_goes<S: Store, L: Ledger>(
    alloc: Global,
    blank: Blank,
    links: u32,
) -> Result<bool, OutOfMemory>
    requires few { links < 2 ^ 31 }
    requires name { blank.name ≡ L.name }
    requires parts { blank.parts ≡ L.parts }
    requires some { 0 < L.parts }
{
    let mut steps = Steps::<L>::new(blank);
    let (mut store, mut regions, mut work) = made_chain::<S, L>(alloc, links, &mut steps)?;
    let suspects = work.len();
    let spare = work.spare();
    settle(&mut store, &mut regions, &mut work, &mut steps);
    let is_gone = store.first(Owner::Local, &mut steps).is_none();
    Ok(is_gone && work.len() == 0 && work.spare() - spare == suspects)
}
