//! A region's rows go out of a store and come into another one.

use crate::calls::{Call, NAME, REGION, row, store_after};
use crate::contents::{Contents, has_contents, has_rows};
use crate::trials::move_region;
use lf_base::{Key, OutOfMemory, Owner, Steps, Value};
use lf_graph::callers::{first_field, first_of_part, store_of_one};
use lf_graph::{RowHead, Store};
use std::alloc::Global;
use std::sync::ledger::Ledger;

// Two rows of a region with counts and fields, and another one.
const OF_A_REGION: [Call; 8] = [
    Call::Make(1, REGION),
    Call::Make(2, Owner::Local),
    Call::Make(3, REGION),
    Call::Set(3, NAME, 4),
    Call::Set(3, Key::Int(0), 5),
    Call::Set(2, NAME, 6),
    Call::Count(3),
    Call::Set(1, NAME, 7),
];

static LEFT: Contents = Contents {
    rows: &[(REGION, &[]), (Owner::Local, &[2])],
    fields: &[(2, 0, &[(NAME, 6)])],
};

static MOVED: Contents = Contents {
    rows: &[(REGION, &[1, 3]), (Owner::Local, &[])],
    fields: &[(1, 0, &[(NAME, 7)]), (3, 1, &[(NAME, 4), (Key::Int(0), 5)])],
};

// Whether a part tells the rows of the region, which were moved before.
fn is_told<S: Store>(part: &S::Part) -> bool {
    let head = RowHead {
        name: row(3),
        width: 2,
        refs: 1,
    };
    first_of_part::<S>(part) == Some(row(1))
        && first_field::<S>(part) == Some((NAME, Value::Int(7)))
        && S::part_row(part, 1) == Some(head)
        && S::part_row(part, 2).is_none()
        && S::part_field(part, 1, 1) == Some((Key::Int(0), Value::Int(5)))
        && S::part_field(part, 1, 2).is_none()
}

/// Whether the rows of a region that went out come into another store as they were.
pub fn moves_regions<S: Store, L: Ledger>(
    alloc: Global,
    steps: &mut Steps<L>,
) -> Result<bool, OutOfMemory> {
    let mut store = store_after::<S, L>(alloc, &OF_A_REGION, steps)?;
    let mut moved = move_region(alloc, &mut store, row(1))?;
    if !has_contents(&store, &LEFT, steps) || !has_contents(&moved, &MOVED, steps) {
        return Ok(false);
    }
    let part = moved.part_out(row(1))?;
    let one = store_of_one::<S, L>(alloc, row(9), Owner::Local, steps)?;
    Ok(is_told::<S>(&part) && has_rows(&one, Owner::Local, &[9], steps))
}
