//! What a write of a field is refused for, by what it touches; and a content, by the
//! content before it. Each function has an empty body; its clauses are the law.

ghost use Rattle.std.specs.Prelude.{◌≡◌, ◌+◌, ◌≤◌, ◌↔◌, [], List, None, Some, false, true};
ghost use Rattle.std.specs.List.{list_any};
ghost use Rattle.lf_base.specs.declared.faults.Fault.TheVariants.{Cycle, FrozenWrite, Interior, SecondOwner};
ghost use Rattle.lf_base.specs.declared.ids.CownId.{CownId};
ghost use Rattle.lf_base.specs.declared.ids.ObjId.{ObjId};
ghost use Rattle.lf_base.specs.declared.values.Key.{Key};
ghost use Rattle.lf_base.specs.declared.values.Owner.TheVariants.{Local};
ghost use Rattle.lf_base.specs.declared.values.Value.{Value};
ghost use Rattle.lf_base.specs.ContentRefusal.{refusal_as_content};
ghost use Rattle.lf_base.specs.ContentResult.{content_at, content_fault, content_refusal};
ghost use Rattle.lf_base.specs.Names.{same_name, targets_of_value};
ghost use Rattle.lf_base.specs.NewCown.{is_open_region, made_result, new_cown_refusal, or_open};
ghost use Rattle.lf_base.specs.Owners.{bridges, has_row, owner_in, row_at};
ghost use Rattle.lf_base.specs.Ownership.{Above, owning_edges, round};
ghost use Rattle.lf_base.specs.PlainState.{State};
ghost use Rattle.lf_base.specs.TakeResult.{row_field};
ghost use Rattle.lf_base.specs.TouchedEdges.{TouchesOnce, TouchesOther, TouchesTwice, WritesInto};
ghost use Rattle.lf_base.specs.TouchedEdges.{closes_round, gives_second_owner, leads_inside_other, touched_edges, touches};
ghost use Rattle.lf_base.specs.WalkCounts.{counted};
ghost use Rattle.lf_base.specs.WellFormed.{WellFormed};
ghost use Rattle.lf_base.specs.WriteResult.{first_shown, shows_interior, write_refusal, write_result};

/// A write to a row that isn't mutable is refused before all else.
pub fn frozen_write_is_refused()
    ensures { (s : State) (x : ObjId) (k : Key) (v : Value) → has_row s.rows x ≡ false → write_refusal s x k v ≡ Some FrozenWrite }
{}

/// A write to a local row is never refused.
pub fn local_write_is_allowed()
    ensures { (s : State) (x : ObjId) (k : Key) (v : Value) → WellFormed s → owner_in s.rows x ≡ Some Local →
        write_refusal s x k v ≡ None }
{}

/// The owning edges of a bridge after a write into a region, with the old value's, are
/// those before and those that touch it. Those of the region's own bridge stay.
pub fn owners_after_write()
    ensures other { (s : State) (x : ObjId) (k : Key) (v : Value) (home : ObjId) (moving : List ObjId) (b : ObjId) →
        WritesInto s x v home moving → same_name home b ≡ false →
        owning_edges (write_result s x k v) b + counted b (row_field (row_at s.rows x) k) ≡ owning_edges s b + touches s x v moving b }
    ensures home { (s : State) (x : ObjId) (k : Key) (v : Value) (home : ObjId) (moving : List ObjId) →
        WritesInto s x v home moving → owning_edges (write_result s x k v) home ≡ owning_edges s home }
    ensures old { (s : State) (x : ObjId) (k : Key) (v : Value) (home : ObjId) (moving : List ObjId) (b : ObjId) →
        WritesInto s x v home moving → same_name home b ≡ false → counted b (row_field (row_at s.rows x) k) ≤ owning_edges s b }
{}

/// After a write into a region an edge leads inside another region exactly where one
/// that the write touches does, by the owners before it.
pub fn interior_after_write()
    ensures { (s : State) (x : ObjId) (k : Key) (v : Value) (home : ObjId) (moving : List ObjId) → WritesInto s x v home moving →
        shows_interior (write_result s x k v) ≡ list_any (λ e. leads_inside_other s.rows home e) (touched_edges s x v moving) }
{}

/// After a write into a region owners go round exactly where a bridge that the write
/// touches was above that region.
pub fn round_after_write()
    ensures { (s : State) (x : ObjId) (k : Key) (v : Value) (home : ObjId) (moving : List ObjId) → WritesInto s x v home moving →
        (round (write_result s x k v) ≡ []) ↔ ((b : ObjId) → TouchesOther s x v home moving b → Above s b home → ⊥) }
{}

/// What a write into a region is refused for: first for an edge that it touches and
/// that leads inside another region, then for a bridge that would have two owners, then
/// for a bridge that it touches and that is above the region; and else for nothing.
pub fn refusals_of_write()
    ensures inside { (s : State) (x : ObjId) (k : Key) (v : Value) (home : ObjId) (moving : List ObjId) → WritesInto s x v home moving →
        list_any (λ e. leads_inside_other s.rows home e) (touched_edges s x v moving) ≡ true → write_refusal s x k v ≡ Some Interior }
    ensures second { (s : State) (x : ObjId) (k : Key) (v : Value) (home : ObjId) (moving : List ObjId) → WritesInto s x v home moving →
        list_any (λ e. leads_inside_other s.rows home e) (touched_edges s x v moving) ≡ false →
        (b : ObjId) → TouchesTwice s x k v home moving b → write_refusal s x k v ≡ Some SecondOwner }
    ensures cycle { (s : State) (x : ObjId) (k : Key) (v : Value) (home : ObjId) (moving : List ObjId) → WritesInto s x v home moving →
        list_any (λ e. leads_inside_other s.rows home e) (touched_edges s x v moving) ≡ false → TouchesOnce s x k v home moving →
        (b : ObjId) → TouchesOther s x v home moving b → Above s b home → write_refusal s x k v ≡ Some Cycle }
    ensures none { (s : State) (x : ObjId) (k : Key) (v : Value) (home : ObjId) (moving : List ObjId) → WritesInto s x v home moving →
        list_any (λ e. leads_inside_other s.rows home e) (touched_edges s x v moving) ≡ false → TouchesOnce s x k v home moving →
        ((b : ObjId) → TouchesOther s x v home moving b → Above s b home → ⊥) → write_refusal s x k v ≡ None }
{}

/// The same as one equation: the first of three tests of the state before. The second
/// fails exactly where each bridge is touched once at most.
pub fn refusal_of_write_is_first()
    ensures once { (s : State) (x : ObjId) (k : Key) (v : Value) (home : ObjId) (moving : List ObjId) → WritesInto s x v home moving →
        TouchesOnce s x k v home moving ↔ (list_any (λ b. gives_second_owner s x k v home moving b) (bridges s) ≡ false) }
    ensures first { (s : State) (x : ObjId) (k : Key) (v : Value) (home : ObjId) (moving : List ObjId) → WritesInto s x v home moving →
        write_refusal s x k v ≡ first_shown
        (list_any (λ e. leads_inside_other s.rows home e) (touched_edges s x v moving))
        (list_any (λ b. gives_second_owner s x k v home moving b) (bridges s))
        (list_any (λ b. closes_round s x v home moving b) (bridges s)) }
{}

/// A content is refused by the state before: where it is local, or inside a region,
/// or a bridge with an owning edge other than that of the old content, which a cown that
/// is being made has not.
pub fn refusals_of_content()
    ensures held { (s : State) (c : CownId) (old v : Value) → content_at s.held c ≡ Some old →
        content_refusal s c v ≡ refusal_as_content s (Some old) v }
    ensures made { (s : State) (v : Value) → content_fault (made_result s v) v ≡ refusal_as_content s None v }
    ensures new_cown { (s : State) (v : Value) →
        new_cown_refusal s v ≡ or_open (refusal_as_content s None v) (is_open_region s (targets_of_value v)) }
{}
