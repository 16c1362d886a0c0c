//! The cases that every store passes.

ghost use Rattle.std.specs.Prelude.{◌≡◌, ◌<◌};

use crate::calls::{Call, NAME, REGION, store_after};
use crate::contents::{Contents, has_contents};
use crate::moved_regions::moves_regions;
use lf_base::{Key, OutOfMemory, Owner, Steps};
use lf_graph::Store;
use std::alloc::Global;
use std::sync::ledger::{Blank, Ledger};

// Calls on a new store, and what then stands in it.
struct Case {
    name: &'static str,
    calls: &'static [Call],
    left: Contents,
}

static CASES: [Case; 6] = [
    Case {
        name: "a row that is given to an owner comes last there",
        calls: &[
            Call::Make(1, REGION),
            Call::Make(2, Owner::Local),
            Call::Make(3, Owner::Local),
            Call::Make(4, Owner::Local),
            Call::Give(3, REGION),
            Call::Give(2, REGION),
            Call::Give(3, Owner::Local),
        ],
        left: Contents {
            rows: &[(REGION, &[1, 2]), (Owner::Local, &[4, 3])],
            fields: &[],
        },
    },
    Case {
        name: "a replaced field keeps its place, and one taken and set again is last",
        calls: &[
            Call::Make(1, Owner::Local),
            Call::Set(1, NAME, 1),
            Call::Set(1, Key::Int(1), 2),
            Call::Set(1, Key::Int(2), 3),
            Call::Set(1, Key::Int(1), 4),
            Call::Take(1, NAME),
            Call::Set(1, NAME, 5),
        ],
        left: Contents {
            rows: &[(Owner::Local, &[1])],
            fields: &[(1, 0, &[(Key::Int(1), 4), (Key::Int(2), 3), (NAME, 5)])],
        },
    },
    Case {
        name: "counts are of their own row",
        calls: &[
            Call::Make(1, Owner::Local),
            Call::Make(2, Owner::Frozen),
            Call::Count(1),
            Call::Count(1),
            Call::Count(2),
            Call::Discount(1),
        ],
        left: Contents {
            rows: &[(Owner::Local, &[1]), (Owner::Frozen, &[2])],
            fields: &[(1, 1, &[]), (2, 1, &[])],
        },
    },
    Case {
        name: "a row goes with its fields",
        calls: &[
            Call::Make(1, Owner::Local),
            Call::Make(2, Owner::Local),
            Call::Set(1, NAME, 1),
            Call::Set(2, NAME, 2),
            Call::Count(1),
            Call::Drop(1),
            Call::Make(1, Owner::Local),
        ],
        left: Contents {
            rows: &[(Owner::Local, &[2, 1])],
            fields: &[(1, 0, &[]), (2, 0, &[(NAME, 2)])],
        },
    },
    Case {
        name: "the last and the only row of an owner go",
        calls: &[
            Call::Make(1, REGION),
            Call::Make(2, Owner::Frozen),
            Call::Make(3, Owner::Frozen),
            Call::Drop(3),
            Call::Drop(1),
            Call::Make(4, Owner::Frozen),
        ],
        left: Contents {
            rows: &[(REGION, &[]), (Owner::Frozen, &[2, 4])],
            fields: &[],
        },
    },
    Case {
        name: "a row keeps its fields and its count under another owner",
        calls: &[
            Call::Make(1, Owner::Local),
            Call::Set(1, NAME, 8),
            Call::Count(1),
            Call::Give(1, Owner::Frozen),
        ],
        left: Contents {
            rows: &[(Owner::Local, &[]), (Owner::Frozen, &[1])],
            fields: &[(1, 1, &[(NAME, 8)])],
        },
    },
];

// The table as it is seen by callers, who need nothing of what stands in it.
fn cases() -> &'static [Case] {
    &CASES
}

// The name of the first case of the table that doesn't hold.
fn broken_case<S: Store, L: Ledger>(
    alloc: Global,
    steps: &mut Steps<L>,
) -> Result<Option<&'static str>, OutOfMemory> {
    for case in cases() {
        let store = store_after::<S, L>(alloc, case.calls, steps)?;
        if !has_contents(&store, &case.left, steps) {
            return Ok(Some(case.name));
        }
    }
    Ok(None)
}

/// The name of the first case that a store fails, where it fails one: those of the
/// table, and that a region's rows go out and come in as they were. After `OutOfMemory`,
/// which a store may answer at any call that takes memory, nothing is told.
pub fn failed_case<S: Store, L: Ledger>(
    alloc: Global,
    blank: Blank,
) -> Result<Option<&'static str>, OutOfMemory>
    requires name { blank.name ≡ L.name }
    requires parts { blank.parts ≡ L.parts }
    requires some { 0 < L.parts }
{
    let mut steps = Steps::<L>::new(blank);
    if let Some(name) = broken_case::<S, L>(alloc, &mut steps)? {
        return Ok(Some(name));
    }
    if !moves_regions::<S, L>(alloc, &mut steps)? {
        return Ok(Some("a region's rows go out and come in as they were"));
    }
    Ok(None)
}
