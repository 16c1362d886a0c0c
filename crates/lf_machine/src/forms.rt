//! Which instructions run today.

ghost use Rattle.std.specs.Prelude.{◌≡◌};
ghost use Rattle.lf_machine.specs.Forms as spec;

use lf_code::{BuiltName, Instr};

fn built_runs(name: BuiltName) -> bool
    ensures { result ≡ spec.built_runs name }
{
    !matches!(name, BuiltName::Cown)
}

/// Whether an instruction runs today: all do but a `when`, and those that make cowns.
pub fn runs(instr: &Instr) -> bool
    ensures { result ≡ spec.runs instr.now }
{
    match instr {
        Instr::Built { name, .. } => built_runs(*name),
        Instr::When { .. } => false,
        _ => true,
    }
}
