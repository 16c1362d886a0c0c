ghost use Rattle.std.specs.Prelude.{◌≡◌, List, map, IfOk};
ghost use Rattle.lf_parser.specs.declared.name.Name.{Name as AName};
ghost use Rattle.lf_parser.specs.Plain.{args_of, plain_expr};
ghost use Rattle.lf_codegen.specs.Numbers.{PlainScript, asked_number, called_of, var_number, when_number};

use lf_base::{OutOfMemory, TextId};
use lf_codegen::Called;
use lf_parser::{Expr, Name};

/// The numbers of a script's names, in one of its frames.
pub trait Numbering {
    ghost source: { Self → PlainScript };

    ghost vars: { Self → List AName };

    /// The number of a variable.
    fn number(&self, name: Name) -> u32
        ensures { result ≡ var_number (vars self.now) name };

    /// The variable that a question with these arguments is asked of.
    fn asked(&self, args: &[Expr]) -> u32
        ensures { result ≡ asked_number (vars self.now) (args_of (map plain_expr args.now)) };

    /// What a call of this name calls.
    fn called(&self, id: TextId) -> Result<Called, OutOfMemory>
        ensures { IfOk result (λ c. c ≡ called_of (source self.now) id) };

    /// The body of the `when` on a line.
    fn when(&self, line: u32) -> Result<u32, OutOfMemory>
        ensures { IfOk result (λ n. n ≡ when_number (source self.now).tree line) };
}
