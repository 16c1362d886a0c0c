use lf_base::{Listed, Op, TextId};

/// Numbers of variables.
pub type Vars = Listed<u32>;

/// One instruction. Variables are numbered from the first one of their frame, addresses
/// from the first instruction of their body, and bodies as `Bodies` lists them.
#[derive(Debug, Drop)]
pub enum Instr {
    Tick,
    None,
    Bool(bool),
    Int(i64),
    Text(TextId),
    Get(u32),
    Take(u32),
    Set(u32),
    Drop(u32),
    Object,
    Read,
    Write,
    Remove,
    Unary(Prefix),
    Binary(Op),
    Jump(u32),
    Unless(u32),
    And(u32),
    Or(u32),
    Test,
    Call {
        body: u32,
        count: u32,
    },
    Return,
    Built {
        name: BuiltName,
        count: u32,
    },
    Ask {
        name: AskName,
        var: u32,
    },
    When {
        body: u32,
        cowns: Vars,
        captures: Vars,
    },
    Pop,
}

/// An operator before a value.
#[derive(Clone, Copy, Debug, PartialEq, Eq)]
pub enum Prefix {
    Neg,
    Not,
}

/// A built-in call whose arguments are operands.
#[derive(Clone, Copy, Debug, PartialEq, Eq)]
pub enum BuiltName {
    Print,
    Region,
    Cown,
    Freeze,
    Merge,
    Dissolve,
}

/// A built-in call on a variable: the closing of its region, and the questions.
#[derive(Clone, Copy, Debug, PartialEq, Eq)]
pub enum AskName {
    Close,
    Refs,
    Borrowed,
    OpenChildren,
    Owner,
    IsClosed,
}
