/// A question on a variable.
#[derive(Clone, Copy, Debug, PartialEq, Eq)]
pub enum Question {
    /// How many references lead to the object that it holds.
    Refs,
    /// How many references from slots and local objects lead into its region.
    Borrowed,
    /// How many open regions its region owns directly.
    OpenChildren,
    /// Where its value stands.
    Owner,
    /// Whether its region would be closed if the variable were unset.
    IsClosed,
}

/// What a question answers.
#[derive(Clone, Copy, Debug, PartialEq, Eq)]
pub enum Answer {
    Number(u64),
    Truth(bool),
    Label(Label),
}

/// Where a value stands: a local object, an object in a region, a frozen object, a
/// cown, or a plain value.
#[derive(Clone, Copy, Debug, PartialEq, Eq)]
pub enum Label {
    Local,
    Region,
    Frozen,
    Cown,
    Value,
}
