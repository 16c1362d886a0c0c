use lf_base::ObjId;
use std::marker::Model;

/// A merge that was judged and isn't refused. Contracts see the region that stays, the
/// one that goes into it, and whether the second owns the first directly.
#[derive(Drop)]
pub struct MergePlan {
    pub(crate) into: ObjId,
    pub(crate) from: ObjId,
    pub(crate) is_child: bool,
}

impl Model for MergePlan {
    ghost use Rattle.lf_transfer.specs.Merging.{Merging};

    ghost Value = { Merging };

    ghost view = { λ plan. record { into = plan.into; from = plan.from; is_child = plan.is_child } };
}
