//! Writes to the links of cells.

ghost use Rattle.std.specs.Prelude.{◌≡◌, ◌≢◌, ◌<◌, ◌≤◌, ◌++◌, ◌∷◌, [], ℕ, List, None, Option, Some, eqb, false, length, unwrap_or, vec_capacity};
ghost use Rattle.lf_base.specs.declared.links.Link.{Link};
ghost use Rattle.lf_base.specs.Links.{has, head_or, link, relinked, to_next, to_prev};
ghost use Rattle.lf_pool.specs.declared.cell.TheConstants.{NONE};
ghost use Rattle.lf_pool.specs.Cells.{IsChain, IsChainAt, Relinks, SameItems, link_at, node};

use crate::cell::{Cell, NONE};

fn set_next<T>(cells: &mut Vec<Cell<T>>, at: u32, next: u32)
    requires { at < length cells.old.items }
    ensures relinks { Relinks cells.old.items cells.new.items at (to_next (node next)) }
    ensures capacity { vec_capacity cells.new ≡ vec_capacity cells.old }
{
    cells[at as usize].next = next;
}

fn set_prev<T>(cells: &mut Vec<Cell<T>>, at: u32, prev: u32)
    requires { at < length cells.old.items }
    ensures relinks { Relinks cells.old.items cells.new.items at (to_prev (Some prev)) }
    ensures capacity { vec_capacity cells.new ≡ vec_capacity cells.old }
{
    cells[at as usize].prev = prev;
}

// The cell before one.
fn prev<T>(cells: &Vec<Cell<T>>, at: u32) -> u32
    requires { at < length cells.now.items }
    ensures { (l : Link ℕ) → link_at cells.now.items at ≡ Some l → l.prev ≡ Some result }
{
    cells[at as usize].prev
}

/// Joins a chain to the end of another one. Each chain is named by its first cell.
pub(crate) fn join<T>(cells: &mut Vec<Cell<T>>, chain: u32, other: u32)
    requires few { length cells.old.items ≤ NONE }
    requires chain { (xs : List ℕ) × IsChainAt (link_at cells.old.items) chain xs }
    requires other { (ys : List ℕ) × IsChainAt (link_at cells.old.items) other ys }
    requires apart { chain ≢ other }
    ensures joined { (xs : List ℕ) → (ys : List ℕ) → IsChainAt (link_at cells.old.items) chain xs → IsChainAt (link_at cells.old.items) other ys → IsChainAt (link_at cells.new.items) chain (xs ++ ys) }
    ensures others { (zs : List ℕ) → IsChain (link_at cells.old.items) zs → has eqb chain zs ≡ false → has eqb other zs ≡ false → IsChain (link_at cells.new.items) zs }
    ensures items { SameItems cells.old.items cells.new.items }
    ensures size { length cells.new.items ≡ length cells.old.items }
    ensures capacity { vec_capacity cells.new ≡ vec_capacity cells.old }
{
    let last = prev(cells, chain);
    let end = prev(cells, other);
    set_prev(cells, other, last);
    set_next(cells, last, other);
    set_prev(cells, chain, end);
}

// The number of the cell after one, or `NONE`.
pub(crate) fn next<T>(cells: &Vec<Cell<T>>, at: u32) -> u32
    requires { at < length cells.now.items }
    ensures { (l : Link ℕ) → link_at cells.now.items at ≡ Some l → l.next ≡ node result }
{
    cells[at as usize].next
}

/// The cell of that number, where it is one.
pub(crate) fn as_cell(number: u32) -> Option<u32>
    ensures { result ≡ node number }
{
    if number == NONE { None } else { Some(number) }
}

// Makes a cell a chain of its own.
fn stand_alone<T>(cells: &mut Vec<Cell<T>>, at: u32)
    requires { at < length cells.old.items }
    ensures links { (q : ℕ) → link_at cells.new.items q ≡ relinked eqb (link_at cells.old.items) (Some at) (λ _. link (Some at) None) q }
    ensures items { SameItems cells.old.items cells.new.items }
    ensures size { length cells.new.items ≡ length cells.old.items }
    ensures capacity { vec_capacity cells.new ≡ vec_capacity cells.old }
{
    cells[at as usize].prev = at;
    cells[at as usize].next = NONE;
}

// The cell is the first one of its chain now, where it is a cell.
fn set_first<T>(cells: &mut Vec<Cell<T>>, at: u32, last: u32)
    requires few { length cells.old.items ≤ NONE }
    requires there { (l : ℕ) → node at ≡ Some l → l < length cells.old.items }
    ensures links { (q : ℕ) → link_at cells.new.items q ≡ relinked eqb (link_at cells.old.items) (node at) (to_prev (Some last)) q }
    ensures items { SameItems cells.old.items cells.new.items }
    ensures size { length cells.new.items ≡ length cells.old.items }
    ensures capacity { vec_capacity cells.new ≡ vec_capacity cells.old }
{
    if at != NONE {
        set_prev(cells, at, last);
    }
}

/// Takes the first cell off a chain, and gives the number of what is then the first, or
/// `NONE`.
pub(crate) fn behead<T>(cells: &mut Vec<Cell<T>>, chain: u32) -> u32
    requires few { length cells.old.items ≤ NONE }
    requires chain { (ys : List ℕ) × IsChain (link_at cells.old.items) (chain ∷ ys) }
    ensures rest { (ys : List ℕ) → IsChain (link_at cells.old.items) (chain ∷ ys) → IsChain (link_at cells.new.items) ys × (head_or ys None ≡ node result) }
    ensures alone { IsChain (link_at cells.new.items) (chain ∷ []) }
    ensures others { (zs : List ℕ) → IsChain (link_at cells.old.items) zs → has eqb chain zs ≡ false → IsChain (link_at cells.new.items) zs }
    ensures items { SameItems cells.old.items cells.new.items }
    ensures size { length cells.new.items ≡ length cells.old.items }
    ensures capacity { vec_capacity cells.new ≡ vec_capacity cells.old }
{
    let last = prev(cells, chain);
    let rest = next(cells, chain);
    set_first(cells, rest, last);
    stand_alone(cells, chain);
    rest
}

/// Puts a chain before another one, where there is another one.
pub(crate) fn put_before<T>(cells: &mut Vec<Cell<T>>, chain: u32, other: u32)
    requires few { length cells.old.items ≤ NONE }
    requires chain { (xs : List ℕ) × IsChainAt (link_at cells.old.items) chain xs }
    requires other { (fs : List ℕ) × IsChain (link_at cells.old.items) fs × (head_or fs None ≡ node other) }
    requires apart { eqb chain other ≡ false }
    ensures joined { (xs : List ℕ) → (fs : List ℕ) → IsChainAt (link_at cells.old.items) chain xs → IsChain (link_at cells.old.items) fs → head_or fs None ≡ node other → IsChainAt (link_at cells.new.items) chain (xs ++ fs) }
    ensures others { (zs : List ℕ) → IsChain (link_at cells.old.items) zs → has eqb chain zs ≡ false → has eqb other zs ≡ false → IsChain (link_at cells.new.items) zs }
    ensures items { SameItems cells.old.items cells.new.items }
    ensures size { length cells.new.items ≡ length cells.old.items }
    ensures capacity { vec_capacity cells.new ≡ vec_capacity cells.old }
{
    if other != NONE {
        join(cells, chain, other);
    }
}

// The first of two numbers that is a cell's.
fn cell_or(number: u32, other: u32) -> u32
    ensures { result ≡ unwrap_or (node number) other }
{
    if number == NONE { other } else { number }
}

/// Takes a cell that isn't the first one out of a chain.
pub(crate) fn cut<T>(cells: &mut Vec<Cell<T>>, chain: u32, cell: u32)
    requires few { length cells.old.items ≤ NONE }
    requires chain { (before : List ℕ) × (behind : List ℕ) × IsChain (link_at cells.old.items) ((chain ∷ before) ++ cell ∷ behind) }
    ensures rest { (before : List ℕ) → (behind : List ℕ) → IsChain (link_at cells.old.items) ((chain ∷ before) ++ cell ∷ behind) → IsChain (link_at cells.new.items) ((chain ∷ before) ++ behind) }
    ensures alone { IsChain (link_at cells.new.items) (cell ∷ []) }
    ensures others { (zs : List ℕ) → IsChain (link_at cells.old.items) zs → has eqb chain zs ≡ false → IsChain (link_at cells.new.items) zs }
    ensures items { SameItems cells.old.items cells.new.items }
    ensures size { length cells.new.items ≡ length cells.old.items }
    ensures capacity { vec_capacity cells.new ≡ vec_capacity cells.old }
{
    let before = prev(cells, cell);
    let behind = next(cells, cell);
    set_next(cells, before, behind);
    set_prev(cells, cell_or(behind, chain), before);
    stand_alone(cells, cell);
}
