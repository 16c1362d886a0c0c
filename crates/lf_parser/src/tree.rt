use crate::name::{Name, Names};
use crate::stmt::Block;
use lf_base::Listed;

/// A function of the script.
#[derive(Debug, Drop)]
pub struct Function {
    pub name: Name,
    pub params: Names,
    pub body: Block,
}

/// Functions, in their order.
pub type Functions = Listed<Function>;

/// A script: its functions, and its statements outside functions, each in
/// their order.
#[derive(Debug, Drop)]
pub struct Tree {
    pub functions: Functions,
    pub main: Block,
}
