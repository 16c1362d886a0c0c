// Lists of calls on a heap, over each store.

use crate::heap_rows::failed_heap_row;
use lf_graph::FlatStore;
use lf_poolstore::PoolStore;
use std::marker::Brand;
use std::sync::ledger::Blank;
use std::test::Fail;

#[test]
fn heap_calls_give_their_rows(rt: HostRuntime) -> Result<(), Fail> {
    let failed = failed_heap_row::<FlatStore, Brand>(rt.alloc(), Blank::new(1))?;
    assert_eq!(rt; failed, None);
    Ok(())
}

#[test]
fn pool_heap_calls_give_their_rows(rt: HostRuntime) -> Result<(), Fail> {
    let failed = failed_heap_row::<PoolStore, Brand>(rt.alloc(), Blank::new(1))?;
    assert_eq!(rt; failed, None);
    Ok(())
}
