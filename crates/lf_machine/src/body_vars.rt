ghost use Rattle.std.specs.Prelude.{◌≡◌};
ghost use Rattle.lf_code.specs.CodeStep.{vars_at};

use lf_code::Code;

/// The number of variables of a body; 0 where there is none.
pub(crate) fn vars_of(code: &Code, body: u32) -> u32
    ensures { result ≡ vars_at code.now body }
{
    match code.body(body) {
        Some(body) => body.vars,
        None => 0,
    }
}
