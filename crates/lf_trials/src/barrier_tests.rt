// Writes through the barrier, on the flat store.

use crate::barrier_cases::barrier_passes;
use lf_graph::FlatStore;
use std::marker::Brand;
use std::sync::ledger::Blank;
use std::test::Fail;

#[test]
fn barrier_writes(rt: HostRuntime) -> Result<(), Fail> {
    let passed = match barrier_passes::<FlatStore, Brand>(rt.alloc(), Blank::new(1)) {
        Ok(passed) => passed,
        Err(_refused) => false,
    };
    assert!(rt; passed);
    Ok(())
}
