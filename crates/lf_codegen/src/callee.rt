ghost use Rattle.std.specs.Prelude.{◌≡◌, map};
ghost use Rattle.lf_codegen.specs.Callees as spec;
ghost use Rattle.lf_codegen.specs.Numbers.{called_in as called_in_spec};
ghost use Rattle.lf_codegen.specs.TablesMean.{built_in_row};

use crate::called::Called;
use lf_base::MOST_PARTS;
use lf_code::{AskName, BuiltName};

/// What may be called by one name.
#[derive(Clone, Copy, Debug, PartialEq, Eq)]
pub struct Callee {
    /// The least number of arguments.
    pub least: usize,
    /// The greatest number of arguments.
    pub most: usize,
    /// The argument has to be a variable.
    pub asks: bool,
}

// A built-in call.
struct BuiltIn {
    name: &'static str,
    callee: Callee,
    called: Called,
}

const UP_TO_MOST_PARTS: Callee = Callee {
    least: 0,
    most: MOST_PARTS,
    asks: false,
};

const NOTHING: Callee = Callee {
    least: 0,
    most: 0,
    asks: false,
};

const ONE: Callee = Callee {
    least: 1,
    most: 1,
    asks: false,
};

const TWO: Callee = Callee {
    least: 2,
    most: 2,
    asks: false,
};

const QUESTION: Callee = Callee {
    least: 1,
    most: 1,
    asks: true,
};

const BUILT_INS: [BuiltIn; 12] = [
    BuiltIn {
        name: "print",
        callee: UP_TO_MOST_PARTS,
        called: Called::Built(BuiltName::Print),
    },
    BuiltIn {
        name: "Region",
        callee: NOTHING,
        called: Called::Built(BuiltName::Region),
    },
    BuiltIn {
        name: "Cown",
        callee: ONE,
        called: Called::Built(BuiltName::Cown),
    },
    BuiltIn {
        name: "freeze",
        callee: ONE,
        called: Called::Built(BuiltName::Freeze),
    },
    BuiltIn {
        name: "merge",
        callee: TWO,
        called: Called::Built(BuiltName::Merge),
    },
    BuiltIn {
        name: "dissolve",
        callee: ONE,
        called: Called::Built(BuiltName::Dissolve),
    },
    BuiltIn {
        name: "close",
        callee: QUESTION,
        called: Called::Question(AskName::Close),
    },
    BuiltIn {
        name: "refs",
        callee: QUESTION,
        called: Called::Question(AskName::Refs),
    },
    BuiltIn {
        name: "borrowed",
        callee: QUESTION,
        called: Called::Question(AskName::Borrowed),
    },
    BuiltIn {
        name: "open_children",
        callee: QUESTION,
        called: Called::Question(AskName::OpenChildren),
    },
    BuiltIn {
        name: "owner",
        callee: QUESTION,
        called: Called::Question(AskName::Owner),
    },
    BuiltIn {
        name: "is_closed",
        callee: QUESTION,
        called: Called::Question(AskName::IsClosed),
    },
];

impl Callee {
    /// A callee that takes so many arguments of any kind.
    pub fn taking(count: usize) -> Callee
        ensures { result ≡ spec.callee_taking count count }
    {
        Callee {
            least: count,
            most: count,
            asks: false,
        }
    }

    /// The built-in call of a name.
    #[tactic(auto, unfolding(crate::specs::Callees::built_in))]
    pub fn built_in(name: &[u8]) -> Option<Callee>
        ensures { result ≡ spec.built_in name.now }
    {
        built_in_among(&BUILT_INS, name)
    }
}

fn built_in_among(rows: &[BuiltIn], name: &[u8]) -> Option<Callee>
    ensures { result ≡ spec.built_in_among (map built_in_row rows.now) name.now }
{
    for row in rows {
        if name == row.name.as_bytes() {
            return Some(row.callee);
        }
    }
    None
}

fn called_in(rows: &[BuiltIn], name: &[u8], function: u32) -> Called
    ensures { result ≡ called_in_spec (map built_in_row rows.now) name.now function }
{
    for row in rows {
        if name == row.name.as_bytes() {
            return row.called;
        }
    }
    Called::Function(function)
}

impl Called {
    /// What a call of a name calls: the built-in call of that name, or else the function
    /// with this body.
    pub fn named(name: &[u8], function: u32) -> Called
        ensures { result ≡ called_in_spec spec.built_ins name.now function }
    {
        called_in(&BUILT_INS, name, function)
    }
}
