//! What operators make of values.

ghost use Rattle.std.specs.Prelude.{◌≡◌, ◌+ℤ◌, ◌-ℤ◌, ◌*ℤ◌, int_div, int_rem, neg_ℤ, pos};
ghost use Rattle.std.specs.Ordering.{int_eq};
ghost use Rattle.lf_code.specs.Operators as spec;
ghost use Rattle.lf_code.specs.Operators.{if_it_fits, unless_zero};
ghost use Rattle.lf_machine.specs.Values.{computed};

use lf_base::{Fault, Op, Value};
use lf_code::Prefix;

fn sum(left: i64, right: i64) -> Result<Value, Fault>
    ensures { computed result ≡ if_it_fits (left +ℤ right) }
{
    match left.checked_add(right) {
        Some(sum) => Ok(Value::Int(sum)),
        None => Err(Fault::Overflow),
    }
}

fn difference(left: i64, right: i64) -> Result<Value, Fault>
    ensures { computed result ≡ if_it_fits (left -ℤ right) }
{
    match left.checked_sub(right) {
        Some(difference) => Ok(Value::Int(difference)),
        None => Err(Fault::Overflow),
    }
}

fn product(left: i64, right: i64) -> Result<Value, Fault>
    ensures { computed result ≡ if_it_fits (left *ℤ right) }
{
    match left.checked_mul(right) {
        Some(product) => Ok(Value::Int(product)),
        None => Err(Fault::Overflow),
    }
}

fn negated(number: i64) -> Result<Value, Fault>
    ensures { computed result ≡ if_it_fits (neg_ℤ number) }
{
    match number.checked_neg() {
        Some(negated) => Ok(Value::Int(negated)),
        None => Err(Fault::Overflow),
    }
}

// The quotient, rounded toward zero.
fn quotient(left: i64, right: i64) -> Result<Value, Fault>
    ensures { computed result ≡ unless_zero right (if_it_fits (int_div left right)) }
{
    if right == 0 {
        return Err(Fault::ZeroDivisor);
    }
    match left.checked_div(right) {
        Some(quotient) => Ok(Value::Int(quotient)),
        None => Err(Fault::Overflow),
    }
}

// The remainder, which has the sign of the left number.
fn remainder(left: i64, right: i64) -> Result<Value, Fault>
    ensures { computed result ≡ unless_zero right (if_it_fits (int_rem left right)) }
{
    if right == 0 {
        return Err(Fault::ZeroDivisor);
    }
    if right == -1 {
        return Ok(Value::Int(0));
    }
    Ok(Value::Int(left % right))
}

// What an operator makes of two integers.
fn between(op: Op, left: i64, right: i64) -> Result<Value, Fault>
    ensures { computed result ≡ spec.between op left right }
{
    match op {
        Op::Add => sum(left, right),
        Op::Sub => difference(left, right),
        Op::Mul => product(left, right),
        Op::Div => quotient(left, right),
        Op::Rem => remainder(left, right),
        Op::Eq => Ok(Value::Bool(left == right)),
        Op::Ne => Ok(Value::Bool(left != right)),
        Op::Lt => Ok(Value::Bool(left < right)),
        Op::Le => Ok(Value::Bool(left <= right)),
        Op::Gt => Ok(Value::Bool(left > right)),
        Op::Ge => Ok(Value::Bool(left >= right)),
    }
}

// What an operator makes of two values that must be integers.
fn of_integers(op: Op, left: Value, right: Value) -> Result<Value, Fault>
    ensures { computed result ≡ spec.of_integers op left right }
{
    let Value::Int(left) = left else {
        return Err(Fault::Kind);
    };
    let Value::Int(right) = right else {
        return Err(Fault::Kind);
    };
    between(op, left, right)
}

/// What an operator makes of two values: any two are equal or not, and the other operators
/// want integers.
pub(crate) fn binary(op: Op, left: Value, right: Value) -> Result<Value, Fault>
    ensures { computed result ≡ spec.binary op left right }
{
    match op {
        Op::Eq => Ok(Value::Bool(left.is_same(right))),
        Op::Ne => Ok(Value::Bool(!left.is_same(right))),
        _ => of_integers(op, left, right),
    }
}

/// What an operator before a value makes of it.
pub(crate) fn unary(op: Prefix, v: Value) -> Result<Value, Fault>
    ensures { computed result ≡ spec.unary op v }
{
    match (op, v) {
        (Prefix::Neg, Value::Int(number)) => negated(number),
        (Prefix::Not, Value::Bool(truth)) => Ok(Value::Bool(!truth)),
        _ => Err(Fault::Kind),
    }
}
