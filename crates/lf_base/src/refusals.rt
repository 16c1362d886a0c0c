ghost use Rattle.std.specs.Prelude.{◌≡◌};
ghost use Rattle.lf_base.specs.RefusalKinds.{kind_name};

use crate::memory::OutOfMemory;
use thiserror::Error;

/// A place in a script. Lines and columns count from 1, columns in bytes.
#[derive(Clone, Copy, Debug, PartialEq, Eq)]
pub struct Place {
    pub line: u32,
    pub column: u32,
}

/// Why a script is refused.
#[derive(Clone, Copy, Debug, PartialEq, Eq)]
pub enum RefusalKind {
    /// A byte can't stand where it stands.
    BadByte,
    /// A smaller indentation equals none of the levels round it.
    BadIndent,
    /// A text isn't closed on its line.
    OpenText,
    /// A number is larger than 9223372036854775807.
    WideNumber,
    /// A line would be the 65th level of indentation.
    TooDeepIndent,
    /// No script goes on with this token.
    Unexpected,
    /// A token would open the 65th level of an expression.
    TooDeepExpr,
    /// A list, an `if` or a line has more parts than it may.
    TooManyParts,
    /// A name is used that isn't bound in its frame.
    UnknownName,
    /// A call names neither a function nor a built-in call.
    UnknownFunction,
    /// A call has the wrong number of arguments.
    WrongArity,
    /// A function has the name of an earlier one or of a built-in call.
    DuplicateFunction,
    /// A parameter has the name of an earlier one.
    DuplicateName,
    /// A question is asked of something else than a variable.
    NotVariable,
    /// The script has a form that this version doesn't run.
    NotBuilt,
}

impl RefusalKind {
    /// The kind's name, as a refusal's line prints it.
    pub fn name(self) -> &'static str
        ensures { result.now ≡ kind_name self }
    {
        match self {
            RefusalKind::BadByte => "BadByte",
            RefusalKind::BadIndent => "BadIndent",
            RefusalKind::OpenText => "OpenText",
            RefusalKind::WideNumber => "WideNumber",
            RefusalKind::TooDeepIndent => "TooDeepIndent",
            RefusalKind::Unexpected => "Unexpected",
            RefusalKind::TooDeepExpr => "TooDeepExpr",
            RefusalKind::TooManyParts => "TooManyParts",
            RefusalKind::UnknownName => "UnknownName",
            RefusalKind::UnknownFunction => "UnknownFunction",
            RefusalKind::WrongArity => "WrongArity",
            RefusalKind::DuplicateFunction => "DuplicateFunction",
            RefusalKind::DuplicateName => "DuplicateName",
            RefusalKind::NotVariable => "NotVariable",
            RefusalKind::NotBuilt => "NotBuilt",
        }
    }
}

/// A refused script: why, and the place that is to blame.
#[derive(Clone, Copy, Debug, PartialEq, Eq)]
pub struct Refusal {
    pub kind: RefusalKind,
    pub place: Place,
}

/// What a call that reads a script answers instead of its result.
#[derive(Debug, Drop, Error)]
pub enum ReadFail {
    /// The script is refused.
    #[error("the script is refused")]
    Refused(Refusal),
    /// Want of memory.
    #[error("out of memory")]
    OutOfMemory,
}

impl From<OutOfMemory> for ReadFail {
    ghost use Rattle.std.specs.Prelude.{◌≡◌};
    ghost use Rattle.lf_base.specs.declared.refusals.ReadFail.TheVariants.{OutOfMemory};

    ghost from_gives = { λ _ fail. fail ≡ OutOfMemory };

    fn from(_error: OutOfMemory) -> ReadFail {
        ReadFail::OutOfMemory
    }
}
