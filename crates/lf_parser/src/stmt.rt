use crate::expr::Expr;
use crate::name::{Name, Names};
use lf_base::Listed;

/// A statement, with the line of its first token.
#[derive(Debug, Drop)]
pub enum Stmt {
    /// `name = value`.
    Assign {
        line: u32,
        name: Name,
        value: Expr,
    },
    /// `target[key] = value`.
    Store {
        line: u32,
        target: Expr,
        key: Expr,
        value: Expr,
    },
    /// `drop name`.
    Drop {
        line: u32,
        name: Name,
    },
    /// `return`, with or without a value.
    Return {
        line: u32,
        value: Option<Expr>,
    },
    Pass {
        line: u32,
    },
    /// An expression alone.
    Eval {
        line: u32,
        value: Expr,
    },
    /// A missing `else` is an empty block; an `elif` is an `If` that stands alone
    /// in that block.
    If {
        line: u32,
        test: Expr,
        yes: Block,
        no: Block,
    },
    While {
        line: u32,
        test: Expr,
        body: Block,
    },
    When {
        line: u32,
        cowns: Names,
        captures: Names,
        body: Block,
    },
}

/// Statements, in their order.
pub type Block = Listed<Stmt>;
