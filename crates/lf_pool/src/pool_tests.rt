// Each call once, with ample memory.

use crate::callers::two_cells;
use crate::cell_pool::CellPool;
use lf_base::{Key, Value};
use std::test::Fail;

#[test]
fn two_cells_are_chained(rt: HostRuntime) -> Result<(), Fail> {
    let mut pool = CellPool::new(rt.alloc());
    pool.reserve(2)?;
    let (second, found, left, other) = two_cells(&mut pool);
    assert_eq!(rt; found, Some(second));
    assert_eq!(rt; left, Some(second));
    assert!(rt; other);
    Ok(())
}

#[test]
fn a_field_is_read_and_written(rt: HostRuntime) -> Result<(), Fail> {
    let mut pool = CellPool::new(rt.alloc());
    assert_eq!(rt; pool.cells(), 0);
    pool.reserve(1)?;
    let cell = pool.take(Key::Int(1), Value::Int(10));
    assert_eq!(rt; pool.pair(cell), (Key::Int(1), Value::Int(10)));
    pool.set(cell, Value::Bool(true));
    assert_eq!(rt; pool.pair(cell), (Key::Int(1), Value::Bool(true)));
    assert_eq!(rt; pool.next(cell), None);
    pool.give_all(cell, 1);
    assert_eq!(rt; pool.cells(), 1);
    Ok(())
}
