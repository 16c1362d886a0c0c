ghost use Rattle.std.specs.Prelude.{◌≡◌, IfOk};
ghost use Rattle.lf_parser.specs.Plain.{plain_expr};
ghost use Rattle.lf_parser.specs.Plain as plain;

use crate::expr::Expr;
use lf_base::Op;
use sqlite_items::Boxed;
use std::alloc::{AllocError, Global};

/// `target[key]`.
pub fn field(alloc: Global, target: Expr, key: Expr) -> Result<Expr, AllocError>
    ensures { IfOk result (λ e. plain_expr e ≡ plain.Field (plain_expr target) (plain_expr key)) }
{
    Ok(Expr::Field {
        target: Boxed::new(alloc, target)?,
        key: Boxed::new(alloc, key)?,
    })
}

/// `-operand`.
pub fn neg(alloc: Global, operand: Expr) -> Result<Expr, AllocError>
    ensures { IfOk result (λ e. plain_expr e ≡ plain.Neg (plain_expr operand)) }
{
    Ok(Expr::Neg(Boxed::new(alloc, operand)?))
}

/// `not operand`.
pub fn not(alloc: Global, operand: Expr) -> Result<Expr, AllocError>
    ensures { IfOk result (λ e. plain_expr e ≡ plain.Not (plain_expr operand)) }
{
    Ok(Expr::Not(Boxed::new(alloc, operand)?))
}

/// `left op right`.
pub fn binary(alloc: Global, op: Op, left: Expr, right: Expr) -> Result<Expr, AllocError>
    ensures { IfOk result (λ e. plain_expr e ≡ plain.Binary op (plain_expr left) (plain_expr right)) }
{
    Ok(Expr::Binary {
        op,
        left: Boxed::new(alloc, left)?,
        right: Boxed::new(alloc, right)?,
    })
}

/// `left and right`.
pub fn and(alloc: Global, left: Expr, right: Expr) -> Result<Expr, AllocError>
    ensures { IfOk result (λ e. plain_expr e ≡ plain.And (plain_expr left) (plain_expr right)) }
{
    Ok(Expr::And {
        left: Boxed::new(alloc, left)?,
        right: Boxed::new(alloc, right)?,
    })
}

/// `left or right`.
pub fn or(alloc: Global, left: Expr, right: Expr) -> Result<Expr, AllocError>
    ensures { IfOk result (λ e. plain_expr e ≡ plain.Or (plain_expr left) (plain_expr right)) }
{
    Ok(Expr::Or {
        left: Boxed::new(alloc, left)?,
        right: Boxed::new(alloc, right)?,
    })
}
