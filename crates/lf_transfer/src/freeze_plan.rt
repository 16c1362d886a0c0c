ghost use Rattle.std.specs.Prelude.{◌≡◌, length};

use indexmap::IndexSet;
use lf_base::ObjId;
use lf_frozen::FrozenMap;
use std::marker::Model;

/// A freeze that was planned. Contracts see the names of the rows that it takes, the
/// regions in which these lie, and all frozen rows afterwards, by rising name.
#[derive(Drop)]
pub struct FreezePlan {
    pub(crate) taken: IndexSet<ObjId>,
    pub(crate) regions: IndexSet<ObjId>,
    pub(crate) frozen: FrozenMap,
}

impl Model for FreezePlan {
    ghost use Rattle.lf_transfer.specs.Freezing.{Freezing};

    ghost Value = { Freezing };

    ghost view = { λ plan. record { taken = (plan.taken).keys; regions = (plan.regions).keys; frozen = plan.frozen } };
}

impl FreezePlan {
    /// The number of regions that lose a row or a borrow.
    pub fn regions(&self) -> usize
        ensures { result ≡ length self.now.regions }
    {
        self.regions.len()
    }
}
