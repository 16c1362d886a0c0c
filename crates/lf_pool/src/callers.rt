//! A caller that knows a pool by its contracts alone.

ghost use Rattle.std.specs.Prelude.{◌≡◌, ◌≤◌, Some, true};

use crate::cell_pool::CellPool;
use lf_base::{Key, Value};

/// Chains two cells, finds the second one, takes the first one out and gives it back, and
/// takes another one: which cell was found and which was left, where the second one is at
/// the first number, and whether the last one taken is another cell than that.
pub fn two_cells(pool: &mut CellPool) -> (u32, Option<u32>, Option<u32>, bool)
    requires { 2 ≤ pool.old.spare }
    ensures found { result.1 ≡ Some result.0 }
    ensures left { result.2 ≡ Some result.0 }
    ensures other { result.3 ≡ true }
{
    let a = pool.take(Key::Int(1), Value::Int(10));
    let b = pool.take(Key::Int(2), Value::Int(20));
    pool.push_last(a, b);
    let found = pool.find(a, Key::Int(2));
    let left = pool.unlink(a, a);
    pool.give(a);
    let last = pool.take(Key::Int(3), Value::Int(30));
    (b, found, left, last != b)
}
