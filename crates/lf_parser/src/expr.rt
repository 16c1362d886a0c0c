ghost use Rattle.std.specs.Prelude.{◌≡◌};
ghost use Rattle.lf_parser.specs.Grammar as grammar;
ghost use Rattle.lf_parser.specs.Plain.{plain_expr, plain_stmt};

use crate::name::Name;
use crate::stmt::Stmt;
use lf_base::{Listed, Op, TextId};
use sqlite_items::Boxed;

/// An expression. Groups leave no trace in it.
#[derive(Debug)]
pub enum Expr {
    None,
    True,
    False,
    Number(i64),
    Text(TextId),
    /// `{}`, a new object.
    Object,
    /// A variable.
    Var(Name),
    /// `target[key]`; `target.f` has the text `f` as its key.
    Field {
        target: Boxed<Expr>,
        key: Boxed<Expr>,
    },
    /// `move x`.
    Move(Name),
    /// `move target[key]`.
    Remove {
        target: Boxed<Expr>,
        key: Boxed<Expr>,
    },
    /// `-e`.
    Neg(Boxed<Expr>),
    /// `not e`.
    Not(Boxed<Expr>),
    Binary {
        op: Op,
        left: Boxed<Expr>,
        right: Boxed<Expr>,
    },
    And {
        left: Boxed<Expr>,
        right: Boxed<Expr>,
    },
    Or {
        left: Boxed<Expr>,
        right: Boxed<Expr>,
    },
    Call {
        name: Name,
        args: Exprs,
    },
}

// A chain of operators is as deep as it is long, so it is freed by a loop.
impl Drop for Expr {
    fn drop(mut self) {
        loop {
            match self {
                Expr::None
                | Expr::True
                | Expr::False
                | Expr::Number(_)
                | Expr::Text(_)
                | Expr::Object
                | Expr::Var(_)
                | Expr::Move(_) => return,
                Expr::Call { name: _, args } => return drop(args),
                Expr::Neg(operand) | Expr::Not(operand) => self = operand.into_inner(),
                Expr::Field { target, key } | Expr::Remove { target, key } => {
                    drop(key);
                    self = target.into_inner();
                }
                Expr::Binary { op: _, left, right }
                | Expr::And { left, right }
                | Expr::Or { left, right } => {
                    drop(right);
                    self = left.into_inner();
                }
            }
        }
    }
}

impl Expr {
    /// A place as `move` takes it. What is no place stays as it is.
    pub(crate) fn moved(self) -> Expr
        ensures { plain_expr result ≡ grammar.moved_place (plain_expr self) }
    {
        match self {
            Expr::Var(name) => Expr::Move(name),
            Expr::Field { target, key } => Expr::Remove { target, key },
            other => other,
        }
    }

    /// The statement that gives a place a value. What is no place is left out, and the value is
    /// evaluated alone.
    pub(crate) fn assigned(self, line: u32, value: Expr) -> Stmt
        ensures { plain_stmt result ≡ grammar.assigned line (plain_expr self) (plain_expr value) }
    {
        match self {
            Expr::Var(name) => Stmt::Assign { line, name, value },
            Expr::Field { target, key } => Stmt::Store {
                line,
                target: target.into_inner(),
                key: key.into_inner(),
                value,
            },
            _ => Stmt::Eval { line, value },
        }
    }
}

/// Expressions, as the arguments of a call.
pub type Exprs = Listed<Expr>;
