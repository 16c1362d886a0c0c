// Regions that change hands, on the flat store.

use crate::freeze_cases::freeze_passes;
use crate::transfer_cases::transfer_passes;
use lf_graph::FlatStore;
use std::marker::Brand;
use std::sync::ledger::Blank;
use std::test::Fail;

#[test]
fn regions_change_hands(rt: HostRuntime) -> Result<(), Fail> {
    let passed = match transfer_passes::<FlatStore, Brand>(rt.alloc(), Blank::new(1)) {
        Ok(passed) => passed,
        Err(_refused) => false,
    };
    assert!(rt; passed);
    Ok(())
}

#[test]
fn regions_freeze(rt: HostRuntime) -> Result<(), Fail> {
    let passed = match freeze_passes::<FlatStore, Brand>(rt.alloc(), Blank::new(1)) {
        Ok(passed) => passed,
        Err(_refused) => false,
    };
    assert!(rt; passed);
    Ok(())
}
