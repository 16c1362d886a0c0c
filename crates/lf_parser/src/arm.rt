ghost use Rattle.std.specs.Prelude.{◌≡◌, map};
ghost use Rattle.lf_parser.specs.Grammar.{if_arm};
ghost use Rattle.lf_parser.specs.Plain.{plain_arm, plain_stmt};
ghost use Rattle.lf_parser.specs.Plain as plain;

use crate::expr::Expr;
use crate::stmt::{Block, Stmt};

/// A word's line, a test and a block: what `if`, `elif` and `while` begin with.
#[derive(Debug, Drop)]
pub struct Arm {
    pub line: u32,
    pub test: Expr,
    pub body: Block,
}

impl Arm {
    /// The `if` with this test and block.
    pub fn into_if(self, other: Block) -> Stmt
        ensures { plain_stmt result ≡ if_arm (plain_arm self) (map plain_stmt other) }
    {
        Stmt::If {
            line: self.line,
            test: self.test,
            yes: self.body,
            no: other,
        }
    }

    /// The `while` with this test and block.
    pub fn into_while(self) -> Stmt
        ensures { plain_stmt result ≡ plain.While (plain_arm self).line (plain_arm self).test (plain_arm self).body }
    {
        Stmt::While {
            line: self.line,
            test: self.test,
            body: self.body,
        }
    }
}
