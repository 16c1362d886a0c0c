// Settling, on the flat store.

use crate::settled_chain::chain_goes;
use crate::settled_rows::settles_rows;
use lf_graph::FlatStore;
use std::marker::Brand;
use std::sync::ledger::Blank;
use std::test::Fail;

#[test]
fn rows_are_settled(rt: HostRuntime) -> Result<(), Fail> {
    assert!(rt; settles_rows::<FlatStore, Brand>(rt.alloc(), Blank::new(1))?);
    Ok(())
}

#[test]
fn long_chain_goes(rt: HostRuntime) -> Result<(), Fail> {
    assert!(rt; chain_goes::<FlatStore, Brand>(rt.alloc(), Blank::new(1), 99_999)?);
    Ok(())
}
