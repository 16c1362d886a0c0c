//! What a target and a key name, given as values.

ghost use Rattle.std.specs.Prelude.{◌≡◌, IfOk, Some};
ghost use Rattle.std.specs.Result.{result_err};
ghost use Rattle.lf_base.specs.Names.{key_of};
ghost use Rattle.lf_base.specs.PlainChecks.{plain_refusal};
ghost use Rattle.lf_heap.specs.Accesses.{target_value};

use lf_base::{CownId, Fault, Key, ObjId, Value};

/// An object, whose field is named, or a cown, whose content is.
#[derive(Clone, Copy, Debug, PartialEq, Eq)]
pub(crate) enum Target {
    Object(ObjId),
    Cown(CownId),
}

/// A field of an object, or a cown's content.
#[derive(Clone, Copy, Debug, PartialEq, Eq)]
pub(crate) struct Access {
    pub(crate) target: Target,
    pub(crate) key: Key,
}

/// What a target and a key name. The target must be an object or a cown (`NotObject`), and
/// then the key a text or an integer (`Kind`).
pub(crate) fn access_of(target: Value, key: Value) -> Result<Access, Fault>
    ensures answer { result_err result ≡ plain_refusal target key }
    ensures target { IfOk result (λ access. target ≡ target_value access.target) }
    ensures key { IfOk result (λ access. key_of key ≡ Some (access.key)) }
{
    let target = match target {
        Value::Obj(o) => Target::Object(o),
        Value::Cown(c) => Target::Cown(c),
        Value::None | Value::Bool(_) | Value::Int(_) | Value::Text(_) => {
            return Err(Fault::NotObject);
        }
    };
    match key.key() {
        Some(key) => Ok(Access { target, key }),
        None => Err(Fault::Kind),
    }
}
