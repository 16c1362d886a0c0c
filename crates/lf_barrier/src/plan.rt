use indexmap::IndexSet;
use lf_base::{Key, ObjId, Value};
use std::marker::Model;

/// A write of a field that was judged and isn't refused. Contracts see the target, the
/// key, the value, the region in which the target lies, where it lies in one, and the
/// names of the rows that move there with the value.
#[derive(Drop)]
pub struct WritePlan {
    pub(crate) target: ObjId,
    pub(crate) key: Key,
    pub(crate) value: Value,
    pub(crate) home: Option<ObjId>,
    pub(crate) moved: IndexSet<ObjId>,
}

impl Model for WritePlan {
    ghost use Rattle.lf_barrier.specs.WritePlans.{Planned};

    ghost Value = { Planned };

    ghost view = { λ plan. record {
      target = plan.target;
      key = plan.key;
      value = plan.value;
      home = plan.home;
      moved = (plan.moved).keys;
    } };
}
