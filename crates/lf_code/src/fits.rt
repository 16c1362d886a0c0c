//! All of validity but the operands: that what instructions name is there, and that they
//! name it with the right number of arguments.

ghost use Rattle.std.specs.Prelude.{◌≡◌, ◌+◌, IfOk, length, nat_eq, slice_get, ◌&&◌};
ghost use Rattle.lf_code.specs.ValidCode as spec;

use crate::body::{Body, Placed};
use crate::instr::{BuiltName, Instr};
use crate::var_set::VarSet;
use lf_base::{MOST_PARTS, OutOfMemory};
use std::alloc::Global;

// Whether a built-in call takes so many arguments.
fn takes_count(name: BuiltName, count: u32) -> bool
    ensures { result ≡ spec.takes_count name count }
{
    match name {
        BuiltName::Print => count as usize <= MOST_PARTS,
        BuiltName::Region => count == 0,
        BuiltName::Cown => count == 1,
        BuiltName::Freeze => count == 1,
        BuiltName::Merge => count == 2,
        BuiltName::Dissolve => count == 1,
    }
}

// Whether there is a body with so many parameters.
fn has_params(bodies: &[Body], body: u32, count: usize) -> bool
    ensures { result ≡ spec.has_params (slice_get bodies.now body) count }
{
    match bodies.get(body as usize) {
        Some(found) => found.params as usize == count,
        None => false,
    }
}

// Whether the first two numbers add up to that one.
fn is_sum(count: usize, first: usize, second: usize) -> bool
    ensures { result ≡ nat_eq count (first + second) }
{
    if count < first {
        return false;
    }
    count - first == second
}

// Whether there is a body with as many parameters as both numbers add up to.
fn has_sum(bodies: &[Body], body: u32, first: usize, second: usize) -> bool
    ensures { result ≡ spec.has_params (slice_get bodies.now body) (first + second) }
{
    match bodies.get(body as usize) {
        Some(found) => is_sum(found.params as usize, first, second),
        None => false,
    }
}

fn in_range(vars: u32, list: &[u32]) -> bool
    ensures { result ≡ spec.in_range vars list.now }
{
    list.iter().all(|v| *v < vars)
}

// Whether no variable of a `when` is named twice.
fn all_once(alloc: Global, cowns: &[u32], captures: &[u32]) -> Result<bool, OutOfMemory>
    ensures { IfOk result (λ once. once ≡ (spec.all_differ cowns.now && (spec.all_differ captures.now
        && spec.are_apart cowns.now captures.now))) }
{
    let mut named = VarSet::new(alloc);
    Ok(named.add_new(captures)? && named.add_new(cowns)?)
}

fn when_fits(
    alloc: Global,
    bodies: &[Body],
    vars: u32,
    body: u32,
    cowns: &[u32],
    captures: &[u32],
) -> Result<bool, OutOfMemory>
    ensures { IfOk result (λ fits. fits ≡ spec.when_fits bodies.now vars body cowns.now captures.now) }
{
    if !in_range(vars, cowns) || !in_range(vars, captures) {
        return Ok(false);
    }
    if !all_once(alloc, cowns, captures)? {
        return Ok(false);
    }
    Ok(has_sum(bodies, body, cowns.len(), captures.len()))
}

fn instr_fits(
    alloc: Global,
    bodies: &[Body],
    texts: usize,
    vars: u32,
    addresses: usize,
    instr: &Instr,
) -> Result<bool, OutOfMemory>
    ensures { IfOk result (λ fits. fits ≡ spec.instr_fits bodies.now texts vars addresses instr.now) }
{
    match instr {
        Instr::Text(t) => Ok((t.index as usize) < texts),
        Instr::Get(v) | Instr::Take(v) | Instr::Set(v) | Instr::Drop(v) => Ok(*v < vars),
        Instr::Jump(a) | Instr::Unless(a) | Instr::And(a) | Instr::Or(a) => {
            Ok((*a as usize) < addresses)
        }
        Instr::Call { body, count } => Ok(has_params(bodies, *body, *count as usize)),
        Instr::Built { name, count } => Ok(takes_count(*name, *count)),
        Instr::Ask { var, .. } => Ok(*var < vars),
        Instr::When {
            body,
            cowns,
            captures,
        } => when_fits(
            alloc,
            bodies,
            vars,
            *body,
            cowns.as_slice(),
            captures.as_slice(),
        ),
        _ => Ok(true),
    }
}

fn instrs_fit(
    alloc: Global,
    bodies: &[Body],
    texts: usize,
    vars: u32,
    list: &[Placed],
) -> Result<bool, OutOfMemory>
    ensures { IfOk result (λ fits. fits ≡ spec.instrs_fit bodies.now texts vars (length list.now) list.now) }
{
    let addresses = list.len();
    for placed in list {
        if !instr_fits(alloc, bodies, texts, vars, addresses, &placed.instr)? {
            return Ok(false);
        }
    }
    Ok(true)
}

fn is_return(instr: &Instr) -> bool
    ensures { result ≡ spec.is_return instr.now }
{
    matches!(instr, Instr::Return)
}

// Whether the last instruction is a return.
fn ends_in_return(list: &[Placed]) -> bool
    ensures { result ≡ spec.ends_in_return list.now }
{
    match list.get(list.len().saturating_sub(1)) {
        Some(placed) => is_return(&placed.instr),
        None => false,
    }
}

fn body_fits(alloc: Global, bodies: &[Body], texts: usize, body: &Body) -> Result<bool, OutOfMemory>
    ensures { IfOk result (λ fits. fits ≡ spec.body_fits bodies.now texts body.now) }
{
    if body.params > body.vars || !ends_in_return(body.list.as_slice()) {
        return Ok(false);
    }
    instrs_fit(alloc, bodies, texts, body.vars, body.list.as_slice())
}

fn bodies_fit(
    alloc: Global,
    bodies: &[Body],
    texts: usize,
    rest: &[Body],
) -> Result<bool, OutOfMemory>
    ensures { IfOk result (λ fits. fits ≡ spec.bodies_fit bodies.now texts rest.now) }
{
    for body in rest {
        if !body_fits(alloc, bodies, texts, body)? {
            return Ok(false);
        }
    }
    Ok(true)
}

/// Whether main is there without parameters, and all that instructions name is there.
pub fn code_fits(alloc: Global, bodies: &[Body], texts: usize) -> Result<bool, OutOfMemory>
    ensures { IfOk result (λ fits. fits ≡ spec.code_fits bodies.now texts) }
{
    if !has_params(bodies, 0, 0) {
        return Ok(false);
    }
    bodies_fit(alloc, bodies, texts, bodies)
}
