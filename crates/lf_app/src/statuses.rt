ghost use Rattle.std.specs.Prelude.{◌≡◌};
ghost use Rattle.lf_app.specs.Statuses.{status_name, status_number};

/// How a call of the program ended.
#[derive(Clone, Copy, Debug, PartialEq, Eq)]
pub enum Status {
    /// No other status applies.
    Done,
    /// A behaviour ended by a fault.
    Faulted,
    /// The script is refused.
    ScriptRefused,
    /// The words of the command line aren't in the written form.
    WordsRefused,
    /// The budget of behaviours was reached, and some wait.
    Stopped,
    /// A read from the source failed.
    ReadFault,
    /// A write to the sink failed.
    WriteFault,
    /// There was no memory. No clause says when that comes.
    OutOfMemory,
    /// The script is longer than a script may be.
    ScriptTooLong,
}

impl Status {
    /// The number that the program ends with.
    pub fn number(self) -> u8
        ensures { result ≡ status_number self }
    {
        match self {
            Status::Done => 0,
            Status::Faulted => 1,
            Status::ScriptRefused => 2,
            Status::WordsRefused => 3,
            Status::Stopped => 4,
            Status::ReadFault => 5,
            Status::WriteFault => 6,
            Status::OutOfMemory => 7,
            Status::ScriptTooLong => 8,
        }
    }

    /// The name that the program prints on standard error for some statuses.
    pub fn name(self) -> &'static str
        ensures { result.now ≡ status_name self }
    {
        match self {
            Status::Done => "Done",
            Status::Faulted => "Faulted",
            Status::ScriptRefused => "ScriptRefused",
            Status::WordsRefused => "WordsRefused",
            Status::Stopped => "Stopped",
            Status::ReadFault => "ReadFault",
            Status::WriteFault => "WriteFault",
            Status::OutOfMemory => "OutOfMemory",
            Status::ScriptTooLong => "ScriptTooLong",
        }
    }
}
