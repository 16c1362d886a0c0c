ghost use Rattle.std.specs.Prelude.{◌≡◌, option_to_list};
ghost use Rattle.lf_base.specs.Edges.{slot_targets};

use lf_base::{ObjId, Value};

/// The object that a slot refers to, where it refers to one.
#[inline(always)]
pub fn target_of(v: Option<Value>) -> Option<ObjId>
    ensures { option_to_list result ≡ slot_targets v }
{
    match v {
        Some(Value::Obj(o)) => Some(o),
        _ => None,
    }
}
