// Maps of frozen rows.

use crate::frozen_maps::{agrees, made};
use lf_base::ObjId;
use std::test::Fail;

// How many rows a call adds, and how many calls there are.
const CASES: [(u32, u32); 8] = [
    (0, 0),
    (0, 3),
    (1, 1),
    (7, 1),
    (1, 40),
    (3, 16),
    (13, 17),
    (100, 1_000),
];

#[test]
fn maps_have_rows(rt: HostRuntime) -> Result<(), Fail> {
    for (births, calls) in CASES {
        assert!(rt; agrees(rt.alloc(), births, calls)?);
    }
    Ok(())
}

#[test]
fn next_above_absent_name(rt: HostRuntime) -> Result<(), Fail> {
    let map = made(rt.alloc(), 2, 5)?;
    let past = ObjId { birth: 0, seq: 9 };
    let next = ObjId { birth: 1, seq: 0 };
    match map.next_above(Some(past)) {
        Some(row) => assert_eq!(rt; row.id, next),
        None => assert!(rt; false),
    }
    Ok(())
}
