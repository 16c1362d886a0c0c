use lf_parser::{Block, Names};

/// A body of the script, with the names that are its own from the start: the
/// parameters of a function, or the names of a `when`.
#[derive(Drop)]
pub struct Frame<'t> {
    /// The line of its `when`, or 0.
    pub line: u32,
    pub own: Names,
    pub body: &'t Block,
}
