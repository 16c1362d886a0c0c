//! How many operands there are at each address that is reached: a walk from address 0 along
//! all ways, each address once.

ghost use Rattle.std.specs.Prelude.{ℕ as Number, ◌≡◌, ◌+◌, ◌-◌, ◌++◌, ◌<◌, ◌≤◌, ◌∷◌, ◌^◌, [], List, IfOk, IsTrue};
ghost use Rattle.std.specs.Prelude.{MatchOption, ◌↔◌, length, slice_get, Some};
ghost use Rattle.std.specs.List.{AllByRecursion};
ghost use Rattle.lf_code.specs.declared.body.Placed.{Placed as At};
ghost use Rattle.lf_code.specs.Operations as spec;
ghost use Rattle.lf_code.specs.Operations.{HasOperands, Way, way, ways};
ghost use Rattle.lf_code.specs.OperandWalk.{Answers, IsSeen, OperandWalk, left_over};

use crate::body::{Body, Placed};
use crate::instr::Instr;
use lf_base::OutOfMemory;
use std::alloc::Global;

/// The number of operands at each address where a way was seen to lead, and the addresses
/// among these whose own ways weren't followed yet.
#[derive(Drop)]
pub struct OperandCounts {
    counts: Vec<Option<usize>>,
    left: Vec<usize>,
}

// The operands that an instruction needs.
fn needs(instr: &Instr) -> usize
    ensures { result ≡ spec.needs instr.now }
{
    match instr {
        Instr::Set(_)
        | Instr::Unary(_)
        | Instr::Unless(_)
        | Instr::And(_)
        | Instr::Or(_)
        | Instr::Test
        | Instr::Return
        | Instr::Pop => 1,
        Instr::Read | Instr::Remove | Instr::Binary(_) => 2,
        Instr::Write => 3,
        Instr::Call { count, .. } | Instr::Built { count, .. } => *count as usize,
        _ => 0,
    }
}

// Whether an instruction leaves an operand in the place of those that it needs, where it
// goes on to the next one.
fn leaves(instr: &Instr) -> usize
    ensures { result ≡ spec.leaves instr.now }
{
    match instr {
        Instr::None
        | Instr::Bool(_)
        | Instr::Int(_)
        | Instr::Text(_)
        | Instr::Get(_)
        | Instr::Take(_)
        | Instr::Object
        | Instr::Read
        | Instr::Remove
        | Instr::Unary(_)
        | Instr::Binary(_)
        | Instr::Test
        | Instr::Call { .. }
        | Instr::Built { .. }
        | Instr::Ask { .. } => 1,
        _ => 0,
    }
}

impl OperandCounts {
    // So many addresses, to none of which a way was seen to lead.
    fn new(alloc: Global, addresses: usize) -> Result<OperandCounts, OutOfMemory>
        ensures { IfOk result (λ walk. (list : List At) → length list ≡ addresses
            → OperandWalk list walk.counts.items walk.left.items (way 0 0 ∷ [])) }
    {
        Ok(OperandCounts {
            counts: vec![in alloc; None; addresses]?,
            left: Vec::new(alloc),
        })
    }

    // The number of operands at an address, where one was seen; `None` past the last one.
    fn seen(&self, at: usize) -> Option<Option<usize>>
        ensures { result ≡ slice_get self.now.counts.items at }
    {
        self.counts.get(at).copied()
    }

    // The number of operands that was seen at an address.
    fn count(&self, at: usize) -> usize
        requires { (d : Number) × IsSeen self.now.counts.items at d }
        ensures { IsSeen self.now.counts.items at result }
    {
        let Some(Some(count)) = self.seen(at) else {
            unreachable!()
        };
        count
    }

    // A way leads to that address with so many operands. False where that can't be.
    fn reach(&mut self, to: usize, operands: usize) -> Result<bool, OutOfMemory>
        ensures onward { IfOk result (λ may. (list : List At) (pending : List Way)
            → OperandWalk list self.old.counts.items self.old.left.items (way to operands ∷ pending)
            → Answers list self.new.counts.items self.new.left.items pending may) }
        ensures fewer { IfOk result (λ _. left_over self.new.counts.items self.new.left.items
            ≤ left_over self.old.counts.items self.old.left.items) }
    {
        match self.seen(to) {
            None => Ok(false),
            Some(Some(found)) => Ok(found == operands),
            Some(None) => {
                self.left.push(to)?;
                self.counts[to] = Some(operands);
                Ok(true)
            }
        }
    }

    // Ways lead to both addresses, to each with so many operands. False where one of them
    // can't be.
    fn reach_both(
        &mut self,
        to: usize,
        operands: usize,
        next: usize,
        operands_next: usize,
    ) -> Result<bool, OutOfMemory>
        ensures onward { IfOk result (λ may. (list : List At) (pending : List Way)
            → OperandWalk list self.old.counts.items self.old.left.items (way to operands ∷ way next operands_next ∷ pending)
            → Answers list self.new.counts.items self.new.left.items pending may) }
        ensures fewer { IfOk result (λ _. left_over self.new.counts.items self.new.left.items
            ≤ left_over self.old.counts.items self.old.left.items) }
    {
        Ok(self.reach(to, operands)? && self.reach(next, operands_next)?)
    }

    // Follows the ways on from an address, where so many operands are there besides those
    // that its instruction needs. False where one of them can't be.
    fn follow(&mut self, instr: &Instr, at: usize, rest: usize) -> Result<bool, OutOfMemory>
        requires next { at + 1 < 2 ^ 64 }
        requires few { rest + 1 < 2 ^ 64 }
        ensures onward { IfOk result (λ may. (list : List At)
            → OperandWalk list self.old.counts.items self.old.left.items (ways instr.now at rest)
            → Answers list self.new.counts.items self.new.left.items [] may) }
        ensures fewer { IfOk result (λ _. left_over self.new.counts.items self.new.left.items
            ≤ left_over self.old.counts.items self.old.left.items) }
    {
        match instr {
            Instr::Return => Ok(true),
            Instr::Jump(to) => self.reach(*to as usize, rest),
            Instr::Unless(to) => self.reach_both(*to as usize, rest, at + 1, rest),
            Instr::And(to) => self.reach_both(*to as usize, rest + 1, at + 1, rest),
            Instr::Or(to) => self.reach_both(*to as usize, rest + 1, at + 1, rest),
            _ => self.reach(at + 1, rest + leaves(instr)),
        }
    }

    // Follows the ways on from an address that was among those that are left. False where
    // it has too few operands, or one of its ways can't be.
    fn follow_from(&mut self, list: &[Placed], at: usize) -> Result<bool, OutOfMemory>
        requires { OperandWalk list.now self.old.counts.items (self.old.left.items ++ at ∷ []) [] }
        ensures onward { IfOk result (Answers list.now self.new.counts.items self.new.left.items []) }
        ensures fewer { IfOk result (λ _. left_over self.new.counts.items self.new.left.items
            ≤ left_over self.old.counts.items self.old.left.items) }
    {
        let instr = &list[at].instr;
        let count = self.count(at);
        let needed = needs(instr);
        if count < needed {
            return Ok(false);
        }
        let may = self.follow(instr, at, count - needed)?;
        Ok(may)
    }

    // Follows all ways. False where an address has too few operands, or not one number.
    fn follow_all(&mut self, list: &[Placed]) -> Result<bool, OutOfMemory>
        requires { OperandWalk list.now self.old.counts.items self.old.left.items [] }
        ensures { IfOk result (λ has. IsTrue has ↔ HasOperands list.now) }
    {
        while let Some(at) = self.left.pop() {
            if !self.follow_from(list, at)? {
                return Ok(false);
            }
        }
        Ok(true)
    }
}

// Whether each address that is reached is there, has one number of operands on all ways,
// and enough of them.
fn has_operands(alloc: Global, list: &[Placed]) -> Result<bool, OutOfMemory>
    ensures { IfOk result (λ has. IsTrue has ↔ HasOperands list.now) }
{
    let mut walk = OperandCounts::new(alloc, list.len())?;
    if !walk.reach(0, 0)? {
        return Ok(false);
    }
    walk.follow_all(list)
}

/// Whether in each body each address that is reached is there, has one number of operands
/// on all ways, and enough of them.
pub fn bodies_have_operands(alloc: Global, bodies: &[Body]) -> Result<bool, OutOfMemory>
    ensures { IfOk result (λ have. IsTrue have ↔ AllByRecursion (λ b. HasOperands b.list) bodies.now) }
{
    for body in bodies {
        if !has_operands(alloc, body.list.as_slice())? {
            return Ok(false);
        }
    }
    Ok(true)
}
