//! What stands in a store, as a table of cases has it.

use crate::calls::row;
use crate::trials::{field_of, next_field_of, next_of, refs_of, width_of};
use lf_base::{Key, Owner, Steps, Value};
use lf_graph::Store;
use std::sync::ledger::Ledger;

/// The rows of some owners in their order, and of some rows the count and the fields.
pub struct Contents {
    pub rows: &'static [(Owner, &'static [u32])],
    pub fields: &'static [(u32, u64, &'static [(Key, i64)])],
}

// Whether the rows of an owner are these, in this order.
pub fn has_rows<S: Store, L: Ledger>(
    store: &S,
    owner: Owner,
    expected: &[u32],
    steps: &mut Steps<L>,
) -> bool {
    let mut at = store.first(owner, steps);
    for seq in expected {
        if at != Some(row(*seq)) {
            return false;
        }
        at = next_of(store, row(*seq), steps);
    }
    at.is_none()
}

// A key that no case sets.
const UNUSED: Key = Key::Int(-1);

// Whether a row has that count and these fields, in this order, by their places and by
// a walk from each to the one after it.
fn has_fields<S: Store, L: Ledger>(
    store: &S,
    seq: u32,
    refs: u64,
    expected: &[(Key, i64)],
    steps: &mut Steps<L>,
) -> bool {
    if refs_of(store, row(seq), steps) != Some(refs) {
        return false;
    }
    let mut at = 0_u32;
    let mut last = None;
    for (key, n) in expected {
        let field = Some((*key, Value::Int(*n)));
        if field_of(store, row(seq), at, steps) != field {
            return false;
        }
        if next_field_of(store, row(seq), last, steps) != field {
            return false;
        }
        at = at.saturating_add(1);
        last = Some(*key);
    }
    next_field_of(store, row(seq), last, steps).is_none()
        && next_field_of(store, row(seq), Some(UNUSED), steps).is_none()
        && width_of(store, row(seq), steps) == Some(at)
}

/// Whether a store has these rows and fields.
pub fn has_contents<S: Store, L: Ledger>(
    store: &S,
    contents: &Contents,
    steps: &mut Steps<L>,
) -> bool {
    for (owner, rows) in contents.rows {
        if !has_rows(store, *owner, rows, steps) {
            return false;
        }
    }
    for (seq, refs, fields) in contents.fields {
        if !has_fields(store, *seq, *refs, fields, steps) {
            return false;
        }
    }
    true
}
