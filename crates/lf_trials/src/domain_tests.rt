// The counts of edges, on the flat store.

use crate::counted_edges::counts_edges;
use lf_graph::FlatStore;
use std::marker::Brand;
use std::sync::ledger::Blank;
use std::test::Fail;

#[test]
fn edges_are_counted(rt: HostRuntime) -> Result<(), Fail> {
    assert!(rt; counts_edges::<FlatStore, Brand>(rt.alloc(), Blank::new(1))?);
    Ok(())
}
