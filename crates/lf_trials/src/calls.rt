//! Calls on a store, as a table of cases has them.

use crate::trials::{
    offer_field, offer_owner, offer_ref, offer_row, withdraw_field, withdraw_ref, withdraw_row,
};
use lf_base::{Key, ObjId, OutOfMemory, Owner, Steps, TextId, Value};
use lf_graph::Store;
use std::alloc::Global;
use std::sync::ledger::Ledger;

// The row of a number.
pub const fn row(seq: u32) -> ObjId {
    ObjId { birth: 1, seq }
}

pub const REGION: Owner = Owner::In(ObjId { birth: 1, seq: 1 });

pub const NAME: Key = Key::Text(TextId { index: 7 });

// One call on a store.
#[derive(Clone, Copy)]
pub enum Call {
    Make(u32, Owner),
    Drop(u32),
    Give(u32, Owner),
    Set(u32, Key, i64),
    Take(u32, Key),
    Count(u32),
    Discount(u32),
}

fn make_call<S: Store, L: Ledger>(
    store: &mut S,
    call: Call,
    steps: &mut Steps<L>,
) -> Result<(), OutOfMemory> {
    match call {
        Call::Make(seq, owner) => offer_row(store, row(seq), owner, steps),
        Call::Drop(seq) => Ok(withdraw_row(store, row(seq), steps)),
        Call::Give(seq, owner) => offer_owner(store, row(seq), owner, steps),
        Call::Set(seq, key, n) => {
            let _ = offer_field(store, row(seq), key, Value::Int(n), steps)?;
            Ok(())
        }
        Call::Take(seq, key) => {
            let _ = withdraw_field(store, row(seq), key, steps);
            Ok(())
        }
        Call::Count(seq) => Ok(offer_ref(store, row(seq), steps)),
        Call::Discount(seq) => Ok(withdraw_ref(store, row(seq), steps)),
    }
}

// A store after these calls.
pub fn store_after<S: Store, L: Ledger>(
    alloc: Global,
    calls: &[Call],
    steps: &mut Steps<L>,
) -> Result<S, OutOfMemory> {
    let mut store = S::new(alloc)?;
    for call in calls {
        make_call(&mut store, *call, steps)?;
    }
    Ok(store)
}
