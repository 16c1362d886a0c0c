ghost use Rattle.std.specs.Prelude.{◌≡◌, ◌↔◌, IsTrue, option_to_list};
ghost use Rattle.lf_base.specs.PlainChecks.{is_content_key};
ghost use Rattle.lf_base.specs.Names.{key_of, same_key, same_owner, same_value, targets_of_value};

use crate::ids::{CownId, ObjId, TextId};

/// What a variable, a field or a cown holds: a plain value, or a reference to an
/// object or a cown.
#[derive(Clone, Copy, Debug, PartialEq, Eq)]
pub enum Value {
    None,
    Bool(bool),
    Int(i64),
    Text(TextId),
    Obj(ObjId),
    Cown(CownId),
}

impl Value {
    /// Whether both are one value.
    pub fn is_same(self, other: Value) -> bool
        ensures test { result ≡ same_value self other }
        ensures one { IsTrue result ↔ (self ≡ other) }
    {
        self == other
    }

    /// The object that the value refers to, where it refers to one.
    pub fn object(self) -> Option<ObjId>
        ensures { option_to_list result ≡ targets_of_value self }
    {
        match self {
            Value::Obj(object) => Some(object),
            _ => None,
        }
    }

    /// The key that the value is, where it is a text or an integer.
    pub fn key(self) -> Option<Key>
        ensures { result ≡ key_of self }
    {
        match self {
            Value::Text(text) => Some(Key::Text(text)),
            Value::Int(number) => Some(Key::Int(number)),
            _ => None,
        }
    }
}

/// What a field is found by.
#[derive(Clone, Copy, Debug, Hash, PartialEq, Eq)]
pub enum Key {
    Text(TextId),
    Int(i64),
}

impl Key {
    /// Whether both are one key.
    pub fn is_same(self, other: Key) -> bool
        ensures { result ≡ same_key self other }
    {
        self == other
    }

    /// Whether it is the key of a cown's content, the text `value`.
    pub fn is_content(self) -> bool
        ensures { result ≡ is_content_key self }
    {
        match self {
            Key::Text(text) => text.index == 0,
            Key::Int(_) => false,
        }
    }
}

/// Where an object stands: it is local to its behaviour, or lies in the region
/// that a bridge object names, or is frozen.
#[derive(Clone, Copy, Debug, PartialEq, Eq)]
pub enum Owner {
    Local,
    In(ObjId),
    Frozen,
}

impl Owner {
    /// Whether both are one owner.
    pub fn is_same(self, other: Owner) -> bool
        ensures { result ≡ same_owner self other }
    {
        self == other
    }
}

/// An operator between two values.
#[derive(Clone, Copy, Debug, PartialEq, Eq)]
pub enum Op {
    Add,
    Sub,
    Mul,
    Div,
    Rem,
    Eq,
    Ne,
    Lt,
    Le,
    Gt,
    Ge,
}
