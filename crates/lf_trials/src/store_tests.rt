// The stores pass the cases.

use crate::cases::failed_case;
use lf_graph::FlatStore;
use lf_poolstore::PoolStore;
use std::marker::Brand;
use std::sync::ledger::Blank;
use std::test::Fail;

#[test]
fn flat_store_passes(rt: HostRuntime) -> Result<(), Fail> {
    let failed = failed_case::<FlatStore, Brand>(rt.alloc(), Blank::new(1))?;
    assert_eq!(rt; failed, None);
    Ok(())
}

#[test]
fn pool_store_passes(rt: HostRuntime) -> Result<(), Fail> {
    let failed = failed_case::<PoolStore, Brand>(rt.alloc(), Blank::new(1))?;
    assert_eq!(rt; failed, None);
    Ok(())
}
