use lf_parser::Name;

/// What a frame mentions at one place.
#[derive(Clone, Copy, Debug, PartialEq, Eq)]
pub enum Mention {
    /// A variable is used.
    Use(Name),
    /// A variable is assigned.
    Bind(Name),
    /// Something is called.
    Call {
        name: Name,
        /// The number of arguments.
        count: usize,
        /// There is one argument, and it is a variable.
        of_variable: bool,
    },
}
