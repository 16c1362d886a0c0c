ghost use Rattle.std.specs.Prelude.{◌≡◌, ◌↔◌, IfOk, IsTrue, List, length};
ghost use Rattle.std.specs.Option.{option_copied};
ghost use Rattle.std.specs.Prelude.{slice_get};
ghost use Rattle.lf_base.specs.Texts.{Text};
ghost use Rattle.lf_code.specs.Checking.{CheckAnswers, checked_code};
ghost use Rattle.lf_code.specs.ValidCode.{ValidCode};

use crate::body::{Bodies, Body};
use crate::fits::code_fits;
use crate::operand_counts::bodies_have_operands;
use lf_base::{OutOfMemory, Texts};
use std::alloc::Global;
use std::marker::Model;

/// Valid code: the bodies of a script, and its texts. `docs/CODE.md` says what makes code
/// valid.
#[derive(Drop)]
pub struct Code {
    bodies: Bodies,
    texts: Texts,
}

impl Model for Code {
    ghost use Rattle.lf_code.specs.CodeStep.{Program};
    ghost use Rattle.lf_code.specs.ValidCode.{ValidCode};

    ghost Value = { Program };

    ghost view = { λ code. record { bodies = code.bodies; texts = code.texts } };

    ghost invariant = { λ code. ValidCode (record { bodies = code.bodies; texts = code.texts }) };
}

/// Why bodies and texts are no code. They are handed back.
#[derive(Drop)]
pub enum CodeFail {
    /// The code isn't valid.
    Invalid(Bodies, Texts),
    /// Memory ran out while it was looked at.
    OutOfMemory(Bodies, Texts),
}

// Whether code with so many texts is valid.
fn is_valid(alloc: Global, bodies: &[Body], texts: usize) -> Result<bool, OutOfMemory>
    ensures { IfOk result (λ valid. (list : List Text) → length list ≡ texts → IsTrue valid ↔ ValidCode (checked_code bodies.now list)) }
{
    if !code_fits(alloc, bodies, texts)? {
        return Ok(false);
    }
    bodies_have_operands(alloc, bodies)
}

impl Code {
    /// The code that these bodies and texts are, which are known to be valid. `Code::check`
    /// is for those of which that isn't known.
    pub fn new(bodies: Bodies, texts: Texts) -> Code
        requires { ValidCode (checked_code bodies texts) }
        ensures { result ≡ checked_code bodies texts }
    {
        Code { bodies, texts }
    }

    /// Valid code, of these bodies and texts. `Invalid` comes exactly where the code isn't
    /// valid, but that want of memory may come in the place of either answer.
    pub fn check(alloc: Global, bodies: Bodies, texts: Texts) -> Result<Code, CodeFail>
        ensures { CheckAnswers bodies texts result }
    {
        match is_valid(alloc, bodies.as_slice(), texts.len()) {
            Ok(true) => Ok(Code { bodies, texts }),
            Ok(false) => Err(CodeFail::Invalid(bodies, texts)),
            Err(OutOfMemory) => Err(CodeFail::OutOfMemory(bodies, texts)),
        }
    }

    /// The code is valid. For callers' proofs: it does nothing.
    pub fn known_valid(&self)
        ensures { ValidCode self.now }
    {
        let _bodies = self.bodies.len();
    }

    /// The body of a number. `None` comes exactly where there is none.
    pub fn body(&self, number: u32) -> Option<&Body>
        ensures { option_copied result ≡ slice_get self.now.bodies number }
    {
        self.bodies.get(number as usize)
    }

    /// All bodies, each at its number.
    pub fn bodies(&self) -> &[Body]
        ensures { result.now ≡ self.now.bodies }
    {
        self.bodies.as_slice()
    }

    /// The texts of the script.
    pub fn texts(&self) -> &Texts
        ensures { result.now ≡ self.now.texts }
    {
        &self.texts
    }
}
