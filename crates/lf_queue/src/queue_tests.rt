// Jobs of a line that is run one at a time.

use crate::callers::JobLine;
use lf_base::{CownId, Cowns, OutOfMemory};
use std::alloc::Global;
use std::test::Fail;

// How many jobs the long line has.
const MANY: u32 = 100_000;

// The cown of a number, where there is one.
fn one_cown(alloc: Global, seq: Option<u32>) -> Result<Cowns, OutOfMemory> {
    let mut cowns = Cowns::new(alloc);
    if let Some(seq) = seq {
        match cowns.push(CownId { birth: 0, seq }) {
            Ok(()) => {}
            Err((_cown, wanted)) => return Err(wanted),
        }
    }
    Ok(cowns)
}

// So many jobs more, each with one of two cowns in turn.
fn add_many(alloc: Global, line: &mut JobLine, count: u32) -> Result<(), OutOfMemory> {
    for number in 0..count {
        line.add(alloc, one_cown(alloc, Some(number % 2))?)?;
    }
    Ok(())
}

// How many jobs run, each time the first ready one.
fn run_all(line: &mut JobLine, most: u32) -> u32 {
    let mut done: u32 = 0;
    for _turn in 0..most {
        if line.run_one(0).is_some() {
            done = done.saturating_add(1);
        }
    }
    done
}

#[test]
fn jobs_wait_for_their_cown(rt: HostRuntime) -> Result<(), Fail> {
    let mut line = JobLine::new(rt.alloc());
    line.add(rt.alloc(), one_cown(rt.alloc(), Some(1))?)?;
    line.add(rt.alloc(), one_cown(rt.alloc(), Some(1))?)?;
    line.add(rt.alloc(), one_cown(rt.alloc(), None)?)?;
    assert_eq!(rt; line.run_one(2), None);
    assert_eq!(rt; line.run_one(1), Some(2));
    assert_eq!(rt; line.run_one(0), Some(0));
    assert_eq!(rt; line.run_one(0), Some(1));
    assert_eq!(rt; line.run_one(0), None);
    Ok(())
}

#[test]
fn many_jobs_run_on_two_cowns(rt: HostRuntime) -> Result<(), Fail> {
    let mut line = JobLine::new(rt.alloc());
    add_many(rt.alloc(), &mut line, MANY)?;
    assert_eq!(rt; run_all(&mut line, MANY), MANY);
    assert_eq!(rt; line.run_one(0), None);
    Ok(())
}
