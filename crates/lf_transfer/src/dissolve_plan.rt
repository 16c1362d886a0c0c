use lf_base::ObjId;
use std::marker::Model;

/// A dissolving that was judged and isn't refused. Contracts see the region.
#[derive(Drop)]
pub struct DissolvePlan {
    pub(crate) region: ObjId,
}

impl Model for DissolvePlan {
    ghost use Rattle.lf_transfer.specs.Dissolving.{Dissolving};

    ghost Value = { Dissolving };

    ghost view = { λ plan. record { region = plan.region } };
}
