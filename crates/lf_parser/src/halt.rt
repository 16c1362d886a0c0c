ghost use Rattle.std.specs.Prelude.{◌≡◌};
ghost use Rattle.lf_parser.specs.Refusals.{kind_of};

use lf_base::RefusalKind;
use std::alloc::AllocError;

/// Why reading stops at a token.
#[derive(Clone, Copy, Debug, PartialEq, Eq)]
pub enum Cause {
    /// No script goes on with the token.
    Unexpected,
    /// The token would open one level too many.
    TooDeep,
    /// The token brings one part too many.
    TooMany,
}

/// What a reading function answers instead of what it reads.
#[derive(Clone, Copy, Debug, PartialEq, Eq)]
pub enum Halt {
    /// The token at which the cursor stands is refused.
    Refused(Cause),
    /// Memory ran out.
    OutOfMemory,
}

impl From<AllocError> for Halt {
    ghost use Rattle.std.specs.Prelude.{◌≡◌};
    ghost use Rattle.lf_parser.specs.declared.halt.Halt.TheVariants.{OutOfMemory};

    ghost from_gives = { λ _ halt. halt ≡ OutOfMemory };

    fn from(_error: AllocError) -> Halt {
        Halt::OutOfMemory
    }
}

impl Cause {
    /// The kind of refusal.
    pub fn kind(self) -> RefusalKind
        ensures { result ≡ kind_of self }
    {
        match self {
            Cause::Unexpected => RefusalKind::Unexpected,
            Cause::TooDeep => RefusalKind::TooDeepExpr,
            Cause::TooMany => RefusalKind::TooManyParts,
        }
    }
}
