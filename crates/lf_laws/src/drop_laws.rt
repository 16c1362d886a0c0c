//! What settling drops at once, by the counts: a local row, an inner row, a region. Each
//! function has an empty body; its clauses are the law.

ghost use Rattle.std.specs.Prelude.{◌≡◌, ◌+◌, ◌<◌, ◌≤◌, ◌↔◌, ◌∷◌, Bool, List, None, Some, false, filter, length, not, true};
ghost use Rattle.lf_base.specs.declared.ids.ObjId.{ObjId};
ghost use Rattle.lf_base.specs.declared.values.Owner.TheVariants.{In, Local};
ghost use Rattle.lf_base.specs.Edges.{edges};
ghost use Rattle.lf_base.specs.Kept.{points};
ghost use Rattle.lf_base.specs.Losses.{Loses, emptied, justified, of_region, size};
ghost use Rattle.lf_base.specs.Names.{same_name};
ghost use Rattle.lf_base.specs.Owners.{bridges, is_bridge, owner_in};
ghost use Rattle.lf_base.specs.Ownership.{owning_edges};
ghost use Rattle.lf_base.specs.PlainState.{State};
ghost use Rattle.lf_base.specs.Settling.{CanGo, Idle, Spent, Watched, without};
ghost use Rattle.lf_base.specs.Suspects.{Bare, Object, Region, Suspect};
ghost use Rattle.lf_base.specs.WalkCounts.{borrowed, refs};
ghost use Rattle.lf_base.specs.WellFormed.{WellFormed};

/// A region has neither owner nor borrow exactly where both counts are 0; nothing
/// points to a row that is no bridge exactly where no edge leads to it.
pub fn counts_show_justifications()
    ensures bare { (s : State) (r : ObjId) → WellFormed s → Bare s r ↔ ((borrowed s r ≡ 0) × (owning_edges s r ≡ 0)) }
    ensures local { (s : State) (o : ObjId) → WellFormed s → owner_in s.rows o ≡ Some Local →
        (points s.rows s o ≡ false) ↔ (refs s o ≡ 0) }
    ensures inner { (s : State) (o r : ObjId) → WellFormed s → owner_in s.rows o ≡ Some (In r) → same_name r o ≡ false →
        (points s.rows s o ≡ false) ↔ (refs s o ≡ 0) }
{}

/// What can go at once: a local row without an edge; an inner row without one, of a
/// region that has an owner or a borrow; all rows of a region that has neither. Suspects
/// that are among these are settled by it.
pub fn counts_let_go()
    ensures local { (s : State) (o : ObjId) → WellFormed s → owner_in s.rows o ≡ Some Local → refs s o ≡ 0 → CanGo s (same_name o) }
    ensures inner { (s : State) (o r : ObjId) → WellFormed s → owner_in s.rows o ≡ Some (In r) → same_name r o ≡ false →
        0 < owning_edges s r + borrowed s r → refs s o ≡ 0 → CanGo s (same_name o) }
    ensures region { (s : State) (r : ObjId) → WellFormed s → owner_in s.rows r ≡ Some (In r) → borrowed s r ≡ 0 →
        owning_edges s r ≡ 0 → CanGo s (of_region s r) }
    ensures row_spent { (o : ObjId) → Spent (same_name o) (Object o) }
    ensures region_spent { (s : State) (o r : ObjId) → WellFormed s → owner_in s.rows o ≡ Some (In r) →
        Spent (of_region s r) (Object o) × Spent (of_region s r) (Region r) }
{}

/// Which suspects may be forgotten: a local row with an edge; an inner row with one, of
/// a region that has an owner or a borrow; the bridge of such a region, and that region;
/// what has no mutable row, and what is no region.
pub fn counts_let_stay()
    ensures local { (s : State) (o : ObjId) → WellFormed s → owner_in s.rows o ≡ Some Local → 0 < refs s o → Idle s (Object o) }
    ensures inner { (s : State) (o r : ObjId) → WellFormed s → owner_in s.rows o ≡ Some (In r) →
        0 < owning_edges s r + borrowed s r → 0 < refs s o → Idle s (Object o) }
    ensures bridge { (s : State) (r : ObjId) → WellFormed s → owner_in s.rows r ≡ Some (In r) →
        0 < owning_edges s r + borrowed s r → Idle s (Object r) × Idle s (Region r) }
    ensures no_row { (s : State) (o : ObjId) → WellFormed s → owner_in s.rows o ≡ None → Idle s (Object o) }
    ensures no_region { (s : State) (r : ObjId) → WellFormed s → is_bridge s.rows r ≡ false → Idle s (Region r) }
{}

/// Rows that can go are emptied first. Their removal changes no edge, no owner and no
/// count that is left, and justifies nothing more; and where the emptying loses edges, whatever
/// nothing justifies is watched after it.
pub fn emptied_rows_go()
    ensures rows { (s : State) (gone : ObjId → Bool) → without (emptied s gone) gone ≡ without s gone }
    ensures owners { (s : State) (gone : ObjId → Bool) (o : ObjId) → owner_in (emptied s gone).rows o ≡ owner_in s.rows o }
    ensures bridges { (s : State) (gone : ObjId → Bool) → bridges (without s gone) ≡ filter (λ o. not (gone o)) (bridges s) }
    ensures old_bridges { (s : State) (gone : ObjId → Bool) (r : ObjId) → is_bridge (without s gone).rows r ≡ true →
        (gone r ≡ false) × (is_bridge s.rows r ≡ true) }
    ensures size { (s : State) (gone : ObjId → Bool) →
        size (emptied s gone).rows ≡ size (without s gone).rows + length (filter (λ row. gone row.name) s.rows) }
    ensures edges { (s : State) (gone : ObjId → Bool) → edges (emptied s gone) ≡ edges (without s gone) }
    ensures refs { (s : State) (gone : ObjId → Bool) (o : ObjId) → refs (without s gone) o ≡ refs (emptied s gone) o }
    ensures borrowed { (s : State) (gone : ObjId → Bool) (r : ObjId) → WellFormed s → CanGo s gone →
        borrowed (without s gone) r ≡ borrowed (emptied s gone) r }
    ensures owning { (s : State) (gone : ObjId → Bool) (r : ObjId) → WellFormed s → CanGo s gone →
        owning_edges (without s gone) r ≡ owning_edges (emptied s gone) r }
    ensures justified { (s : State) (gone : ObjId → Bool) → WellFormed s → CanGo s gone →
        justified (without s gone) ≤ justified (emptied s gone) }
    ensures watched { (s : State) (gone : ObjId → Bool) (old new : List Suspect) (u : Suspect) → WellFormed s → CanGo s gone →
        Loses s (emptied s gone) old new →
        ((o r : ObjId) → owner_in s.rows o ≡ Some (In r) → gone r ≡ false → 0 < refs s o → gone o ≡ false) →
        Spent gone u → Watched s (u ∷ old) → Watched (without s gone) new }
    ensures row_watched { (s : State) (o : ObjId) (old new : List Suspect) → WellFormed s → CanGo s (same_name o) → refs s o ≡ 0 →
        Loses s (emptied s (same_name o)) old new → Watched s (Object o ∷ old) → Watched (without s (same_name o)) new }
    ensures region_watched { (s : State) (r : ObjId) (old new : List Suspect) (u : Suspect) → WellFormed s → CanGo s (of_region s r) →
        Loses s (emptied s (of_region s r)) old new → Spent (of_region s r) u → Watched s (u ∷ old) →
        Watched (without s (of_region s r)) new }
{}

/// No more is justified than there are rows and regions.
pub fn room_is_enough()
    ensures { (s : State) → justified s ≤ length s.rows + length (bridges s) }
{}
