// Cores whose behaviours count.

use crate::callers::CountingCore;
use lf_base::{CownId, Order, OutOfMemory};
use std::alloc::Global;
use std::test::Fail;

// How many behaviours the long runs start, and how many turns each of the three chains has then.
const MANY: u32 = 100_000;

const MANY_TURNS: i64 = 33_333;

// Runs up to so many, the first ready one each time.
fn run_singles(alloc: Global, core: &mut CountingCore, most: u32) -> Result<(), OutOfMemory> {
    for _turn in 0..most {
        core.run_one(alloc, 0)?;
    }
    Ok(())
}

// Runs up to so many rounds.
fn run_rounds(alloc: Global, core: &mut CountingCore, most: u32) -> Result<(), OutOfMemory> {
    for _turn in 0..most {
        core.run_round(alloc)?;
    }
    Ok(())
}

// The number at a place of the order.
fn number_at(order: &Order, place: usize) -> Option<u32> {
    order.get(place).copied()
}

const FIRST: CownId = CownId { birth: 0, seq: 1 };

const SECOND: CownId = CownId { birth: 0, seq: 2 };

#[test]
fn singles_go_by_number(rt: HostRuntime) -> Result<(), Fail> {
    let mut core = CountingCore::new(rt.alloc(), 100, 2)?;
    assert_eq!(rt; core.run_one(rt.alloc(), 1)?, None);
    run_singles(rt.alloc(), &mut core, 10)?;
    assert_eq!(rt; core.numbers(), (7, 0, 0));
    assert_eq!(rt; core.kept(), (7, false));
    assert_eq!(rt; core.count_above(None), Some(4));
    assert_eq!(rt; core.count_above(Some(FIRST)), Some(2));
    let order = core.into_order();
    assert_eq!(rt; number_at(&order, 2), Some(2));
    assert_eq!(rt; number_at(&order, 3), Some(3));
    assert_eq!(rt; number_at(&order, 6), Some(6));
    assert_eq!(rt; number_at(&order, 7), None);
    Ok(())
}

#[test]
fn rounds_end_as_singles_do(rt: HostRuntime) -> Result<(), Fail> {
    let mut core = CountingCore::new(rt.alloc(), 100, 2)?;
    run_rounds(rt.alloc(), &mut core, 10)?;
    assert_eq!(rt; core.numbers(), (7, 0, 0));
    assert_eq!(rt; core.count_above(None), Some(4));
    assert_eq!(rt; core.count_above(Some(FIRST)), Some(2));
    let order = core.into_order();
    assert_eq!(rt; number_at(&order, 1), Some(1));
    assert_eq!(rt; number_at(&order, 2), Some(3));
    assert_eq!(rt; number_at(&order, 3), Some(2));
    assert_eq!(rt; number_at(&order, 4), Some(5));
    Ok(())
}

#[test]
fn the_budget_stops_a_run(rt: HostRuntime) -> Result<(), Fail> {
    let mut core = CountingCore::new(rt.alloc(), 3, 2)?;
    run_singles(rt.alloc(), &mut core, 10)?;
    assert_eq!(rt; core.numbers(), (3, 3, 0));
    assert_eq!(rt; core.run_one(rt.alloc(), 0)?, None);
    Ok(())
}

#[test]
fn a_lost_behaviour_starves_the_core(rt: HostRuntime) -> Result<(), Fail> {
    let mut core = CountingCore::new(rt.alloc(), 100, 2)?;
    run_singles(rt.alloc(), &mut core, 1)?;
    assert_eq!(rt; core.lose_one()?, true);
    assert_eq!(rt; core.numbers(), (2, 2, 0));
    assert_eq!(rt; core.run_one(rt.alloc(), 0)?, None);
    assert_eq!(rt; core.count_above(Some(FIRST)), Some(0));
    assert_eq!(rt; core.count_above(Some(SECOND)), None);
    Ok(())
}

#[test]
fn many_behaviours_run_on_two_cowns(rt: HostRuntime) -> Result<(), Fail> {
    let mut core = CountingCore::new(rt.alloc(), MANY, MANY_TURNS)?;
    run_singles(rt.alloc(), &mut core, MANY)?;
    assert_eq!(rt; core.numbers(), (100_000, 0, 0));
    assert_eq!(rt; core.count_above(None), Some(66_666));
    assert_eq!(rt; core.count_above(Some(FIRST)), Some(33_333));
    Ok(())
}
