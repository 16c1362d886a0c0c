use lf_app::Status;

/// How a source or a sink moves its bytes: at most so many a call, and the calls
/// that fail, numbered from 0.
#[derive(Clone, Copy)]
pub struct Moves {
    pub most: usize,
    pub failing: &'static [u64],
}

/// All bytes in one call, and no fault.
pub const WHOLE: Moves = Moves {
    most: 1_000_000,
    failing: &[],
};

/// A call of the program, and what it must answer and write.
#[derive(Clone, Copy)]
pub struct Row {
    pub name: &'static str,
    pub words: &'static [&'static str],
    pub script: &'static str,
    pub source: Moves,
    pub sink: Moves,
    pub text: &'static str,
    pub status: Status,
    pub order: &'static [u32],
}

/// The empty script under `run`.
pub const RAN: Row = Row {
    name: "",
    words: &["run"],
    script: "",
    source: WHOLE,
    sink: WHOLE,
    text: "",
    status: Status::Done,
    order: &[0],
};

/// A script that a fault ends.
pub const FAULTED: Row = Row {
    status: Status::Faulted,
    ..RAN
};

/// A script that is refused.
pub const REFUSED: Row = Row {
    status: Status::ScriptRefused,
    order: &[],
    ..RAN
};

/// A script that is right.
pub const CHECKED: Row = Row {
    words: &["check"],
    text: "script ok\n",
    order: &[],
    ..RAN
};

/// A script that is right, and its code listed.
pub const LISTED: Row = Row {
    words: &["code"],
    order: &[],
    ..RAN
};

/// Words that name no command.
pub const MISWORDED: Row = Row {
    script: "x = {}\n",
    status: Status::WordsRefused,
    order: &[],
    ..RAN
};
