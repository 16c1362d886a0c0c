ghost use Rattle.std.specs.Prelude.{◌≡◌};
ghost use Rattle.lf_base.specs.Names.{name_below, same_cown, same_name};

/// The name of an object: the number of the behaviour that made it, and its
/// number there, counted from 1. Names are ordered by birth, then by number.
#[derive(Clone, Copy, Debug, Hash, PartialEq, Eq, PartialOrd, Ord)]
pub struct ObjId {
    pub birth: u32,
    pub seq: u32,
}

impl ObjId {
    /// Whether both are one name.
    pub fn is_same(self, other: ObjId) -> bool
        ensures { result ≡ same_name self other }
    {
        self == other
    }

    /// Whether this name comes before the other one.
    pub fn is_below(self, other: ObjId) -> bool
        ensures { result ≡ name_below self other }
    {
        self < other
    }
}

/// The name of a cown, numbered like objects but apart from them.
#[derive(Clone, Copy, Debug, Hash, PartialEq, Eq, PartialOrd, Ord)]
pub struct CownId {
    pub birth: u32,
    pub seq: u32,
}

impl CownId {
    /// Whether both are one name.
    pub fn is_same(self, other: CownId) -> bool
        ensures { result ≡ same_cown self other }
    {
        self == other
    }
}

/// The place of a text in the script's texts, counted from 0. Two texts of one
/// script have the same place exactly where their bytes are equal.
#[derive(Clone, Copy, Debug, Hash, PartialEq, Eq, PartialOrd, Ord)]
pub struct TextId {
    pub index: u32,
}

impl TextId {
    /// The place of the fixed text `value`, the key of a cown's content.
    pub const VALUE: TextId = TextId { index: 0 };

    /// The place of the fixed text `print`.
    pub const PRINT: TextId = TextId { index: 5 };
}
