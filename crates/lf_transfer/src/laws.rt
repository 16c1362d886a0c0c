//! What callers conclude of the suspects that they hand to settling. Each function has an
//! empty body; its clauses are the law.

ghost use Rattle.std.specs.Prelude.{◌≡◌, List, filter, true, ℕ};
ghost use Rattle.lf_base.specs.declared.ids.ObjId.{ObjId};
ghost use Rattle.lf_base.specs.declared.values.Value.{Value};
ghost use Rattle.lf_base.specs.CloseResult.{close_result};
ghost use Rattle.lf_base.specs.FreezeResult.{freeze_result};
ghost use Rattle.lf_base.specs.Noticing.{Noticed};
ghost use Rattle.lf_base.specs.PlainState.{State};
ghost use Rattle.lf_base.specs.Sets.{Member};
ghost use Rattle.lf_base.specs.Suspects.{Object, Region, Suspect};
ghost use Rattle.lf_base.specs.WellFormed.{WellFormed};
ghost use Rattle.lf_frozen.specs.declared.row.FrozenRow.{FrozenRow};
ghost use Rattle.lf_transfer.specs.Closing.{HoldsBridge, is_let_loose};
ghost use Rattle.lf_transfer.specs.Freezing.{Freezing, IsFreezeOf, is_bare_region};

/// After a freeze it is enough that the regions that it leaves without owner and borrow,
/// which `apply_freeze` names, are suspects besides those that were.
pub fn bare_regions_are_noticed()
    ensures { (s : State) (before : List FrozenRow) (v : Value) (plan : Freezing) (old new : List Suspect) → WellFormed s
        → IsFreezeOf s before v plan → Noticed s old → ((u : Suspect) → Member u old → Member u new)
        → ((r : ObjId) → Member r (filter (is_bare_region (freeze_result s v)) plan.regions) → Member (Region r) new)
        → Noticed (freeze_result s v) new }
{}

/// After a close it is enough that the inner rows that it leaves without an edge, which
/// `close` names, are suspects besides those that were.
pub fn loosened_rows_are_noticed()
    ensures { (s : State) (at : ℕ) (r : ObjId) (old new : List Suspect) → WellFormed s → HoldsBridge s at r → Noticed s old
        → ((u : Suspect) → Member u old → Member u new)
        → ((o : ObjId) → is_let_loose s (close_result s at r) o ≡ true → Member (Object o) new)
        → Noticed (close_result s at r) new }
{}
