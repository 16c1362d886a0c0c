//! The limits of a script and of its run. Code and definitions cite these constants alone.

/// The bytes of a script.
pub const MOST_SCRIPT_BYTES: usize = 1_048_576;

/// The levels of indentation that may be open at once.
pub const MOST_INDENT_LEVELS: usize = 64;

/// The levels of an expression that may be open at once.
pub const MOST_EXPRESSION_LEVELS: usize = 64;

/// The parameters of a function, the arguments of a call, and the cown names or the captures of a `when`.
pub const MOST_PARTS: usize = 16;

/// The `elif` parts of one `if`.
pub const MOST_ELIFS: usize = 32;

/// The tokens of one line.
pub const MOST_LINE_TOKENS: usize = 1_024;

/// The frames that stand at once in a behaviour's run.
pub const MOST_FRAMES: usize = 200;

/// The spawns of a behaviour.
pub const MOST_SPAWNS: usize = 1_000;

/// The bytes of the lines that a behaviour prints, line feeds counted.
pub const MOST_PRINTED_BYTES: usize = 1_048_576;

/// The objects and cowns together that a behaviour may make.
pub const MOST_MADE: usize = 1_000_000;

/// The behaviours that a run may start, main among them.
pub const MOST_BEHAVIOURS: u32 = 1_000_000;

/// The ticks of a behaviour where no word says how many.
pub const DEFAULT_TICKS: u64 = 1_000_000;

/// The most ticks that a behaviour may have.
pub const MOST_TICKS: u64 = 1_000_000_000;
