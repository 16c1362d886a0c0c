ghost use Rattle.std.specs.Prelude.{◌≡◌, ◌+◌, ◌-◌, ◌<◌, ◌≤◌, ◌^◌, ◌++◌, ◌∷◌, [], List, length, get_or, replicate, set, map, max, ℕ, IfOk, MatchOption, OnErr, OnOk};
ghost use Rattle.std.specs.List.{All};
ghost use Rattle.lf_queue.specs.Counts.{HasPlace, HasUnit, IsBit, IsTower, changed, find, first_level, pair_sums, total};

use lf_base::OutOfMemory;
use std::alloc::Global;
use std::marker::Model;

// Places of a list, each of which is in the set or not. Contracts see a 1 or a 0 for each.
//
// Above these counts stand the sums of their pairs, above these the sums of theirs, up to
// one count of all: so a place goes in, goes out, and is found by its number among those in
// the set in as many steps as there are levels.
#[derive(Drop)]
pub(crate) struct ReadySet {
    levels: Vec<Vec<u32>>,
}

impl Model for ReadySet {
    ghost use Rattle.std.specs.Prelude.{List, ℕ, length, map, ◌<◌, ◌^◌};
    ghost use Rattle.std.specs.List.{All};
    ghost use Rattle.lf_queue.specs.Counts.{IsBit, IsTower, first_level};

    ghost Value = { List ℕ };

    ghost view = { λ set. first_level (map (λ level. level.items) set.levels.items) };

    ghost invariant = { λ set. IsTower (map (λ level. level.items) set.levels.items)
        × (All IsBit (first_level (map (λ level. level.items) set.levels.items))
        × (length (first_level (map (λ level. level.items) set.levels.items)) < 2 ^ 32)) };
}

// Adds 1 to the count at a place, and to each sum that it is part of.
fn raise(levels: &mut [Vec<u32>], at: usize)
    requires tower { IsTower (map (λ level. level.items) levels.old) }
    requires place { HasPlace at (map (λ level. level.items) levels.old) }
    requires fits { total (first_level (map (λ level. level.items) levels.old)) + 1 < 2 ^ 32 }
    ensures { map (λ level. level.items) levels.new ≡ changed (λ n. n + 1) at (map (λ level. level.items) levels.old) }
{
    let mut place = at;
    for level in levels.iter_mut() {
        level[place] += 1;
        place /= 2;
    }
}

// Takes 1 from the count at a place, and from each sum that it is part of.
fn lower(levels: &mut [Vec<u32>], at: usize)
    requires tower { IsTower (map (λ level. level.items) levels.old) }
    requires place { HasPlace at (map (λ level. level.items) levels.old) }
    requires counted { HasUnit at (map (λ level. level.items) levels.old) }
    ensures { map (λ level. level.items) levels.new ≡ changed (λ n. n - 1) at (map (λ level. level.items) levels.old) }
{
    let mut place = at;
    for level in levels.iter_mut() {
        level[place] -= 1;
        place /= 2;
    }
}

// Where the unit of that number stands.
fn seek(levels: &[Vec<u32>], number: u32) -> usize
    requires tower { IsTower (map (λ level. level.items) levels.now) }
    requires there { number < total (first_level (map (λ level. level.items) levels.now)) }
    requires short { length (first_level (map (λ level. level.items) levels.now)) < 2 ^ 32 }
    ensures { result ≡ (find (first_level (map (λ level. level.items) levels.now)) number).0 }
{
    let mut place = 0;
    let mut left = number;
    let mut level = levels.len() - 1;
    while level > 0 {
        level -= 1;
        place *= 2;
        let first = levels[level][place];
        if left >= first {
            left -= first;
            place += 1;
        }
    }
    place
}

// How many places are in the set.
fn count_all(levels: &[Vec<u32>]) -> u32
    requires { IsTower (map (λ level. level.items) levels.now) }
    ensures { result ≡ total (first_level (map (λ level. level.items) levels.now)) }
{
    let len = levels.len();
    if len == 0 {
        return 0;
    }
    let top = levels[len - 1].as_slice();
    if top.is_empty() {
        return 0;
    }
    top[0]
}

// The sums of pairs.
fn sums_of_pairs(alloc: Global, counts: &[u32]) -> Result<Vec<u32>, OutOfMemory>
    requires { total counts.now < 2 ^ 32 }
    ensures { IfOk result (λ sums. sums.items ≡ pair_sums counts.now) }
{
    let pairs = counts.len() / 2;
    let mut sums = Vec::with_capacity(alloc, pairs + 1)?;
    for pair in 0..pairs {
        sums.push(counts[2 * pair] + counts[2 * pair + 1])?;
    }
    if counts.len() % 2 == 1 {
        sums.push(counts[counts.len() - 1])?;
    }
    Ok(sums)
}

// The levels over these counts.
fn levels_over(alloc: Global, counts: Vec<u32>) -> Result<Vec<Vec<u32>>, OutOfMemory>
    requires { total counts.items < 2 ^ 32 }
    ensures tower { IfOk result (λ levels. IsTower (map (λ level. level.items) levels.items)) }
    ensures counts { IfOk result (λ levels. first_level (map (λ level. level.items) levels.items) ≡ counts.items) }
{
    let mut levels = Vec::new(alloc);
    let mut top = counts;
    while top.len() > 1 {
        let above = sums_of_pairs(alloc, &top)?;
        levels.push(top)?;
        top = above;
    }
    levels.push(top)?;
    Ok(levels)
}

// The counts of the places.
fn counts(levels: &[Vec<u32>]) -> &[u32]
    ensures { result.now ≡ first_level (map (λ level. level.items) levels.now) }
{
    match levels.first() {
        Some(counts) => counts,
        None => &[],
    }
}

impl ReadySet {
    // No places. It takes no memory.
    pub(crate) fn new(alloc: Global) -> ReadySet
        ensures { result ≡ [] }
    {
        ReadySet {
            levels: Vec::new(alloc),
        }
    }

    // The number of places.
    pub(crate) fn len(&self) -> usize
        ensures { result ≡ length self.now }
    {
        counts(&self.levels).len()
    }

    // So many places at least, the new ones not in the set.
    pub(crate) fn grow(&mut self, len: usize) -> Result<(), OutOfMemory>
        ensures grown { OnOk result ((more : ℕ) × ((self.new ≡ self.old ++ replicate more 0) × (len ≤ length self.new))) }
        ensures unchanged { OnErr result (self.new ≡ self.old) }
    {
        let old = counts(&self.levels);
        if len <= old.len() {
            return Ok(());
        }
        let wanted = len.max(old.len().saturating_mul(2));
        if wanted >= 4_294_967_296 {
            return Err(OutOfMemory);
        }
        let alloc = *self.levels.allocator();
        let mut counts = Vec::with_capacity(alloc, wanted)?;
        counts.extend_from_slice(old)?;
        counts.resize(wanted, 0)?;
        self.levels = levels_over(alloc, counts)?;
        Ok(())
    }

    // Puts a place into the set that isn't in it.
    pub(crate) fn put(&mut self, at: usize)
        requires place { at < length self.old }
        requires out { get_or self.old at 0 ≡ 0 }
        ensures { self.new ≡ set self.old at 1 }
    {
        raise(&mut self.levels, at);
    }

    // Takes a place out of the set that is in it.
    pub(crate) fn take(&mut self, at: usize)
        requires { get_or self.old at 0 ≡ 1 }
        ensures { self.new ≡ set self.old at 0 }
    {
        lower(&mut self.levels, at);
    }

    // The place of that number among those in the set, from 0. None exactly where the set
    // has no more than that many.
    pub(crate) fn nth(&self, number: u32) -> Option<usize>
        ensures { MatchOption result (total self.now ≤ number) (λ place. (number < total self.now) × ((find self.now number).0 ≡ place)) }
    {
        if number >= count_all(&self.levels) {
            return None;
        }
        Some(seek(&self.levels, number))
    }
}
