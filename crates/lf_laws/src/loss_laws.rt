//! Losses of edges, and what callers conclude of the suspects that they hand to
//! settling. Each function has an empty body; its clauses are the law.

ghost use Rattle.std.specs.Prelude.{◌≡◌, ◌∷◌, ◌<◌, [], List, None, Option, Some, drop, length, take, true, ℕ};
ghost use Rattle.lf_base.specs.declared.ids.CownId.{CownId};
ghost use Rattle.lf_base.specs.declared.ids.ObjId.{ObjId};
ghost use Rattle.lf_base.specs.declared.values.Key.{Key};
ghost use Rattle.lf_base.specs.declared.values.Owner.{Owner};
ghost use Rattle.lf_base.specs.declared.values.Owner.TheVariants.{In};
ghost use Rattle.lf_base.specs.declared.values.Value.{Value};
ghost use Rattle.lf_base.specs.declared.values.Value.TheVariants as value;
ghost use Rattle.lf_base.specs.CloseResult.{close_result};
ghost use Rattle.lf_base.specs.ContentResult.{content_at, content_result};
ghost use Rattle.lf_base.specs.DissolveResult.{dissolve_result};
ghost use Rattle.lf_base.specs.EdgeLists.{closed_edges};
ghost use Rattle.lf_base.specs.Edges.{Content, Edge, Field, Slot, edges_by, slot_edges, slot_targets};
ghost use Rattle.lf_base.specs.FreezeResult.{freeze_result};
ghost use Rattle.lf_base.specs.Kept.{kept_rows, points};
ghost use Rattle.lf_base.specs.Losses.{Loses, LosesEdges, LossesKnown, LostLast, StillJustified};
ghost use Rattle.lf_base.specs.MergeResult.{merge_result};
ghost use Rattle.lf_base.specs.Names.{targets_of_value};
ghost use Rattle.lf_base.specs.NewCown.{made_result};
ghost use Rattle.lf_base.specs.Noticing.{InSlot, Noticed, NoticesOld, WatchesHome, field_names};
ghost use Rattle.lf_base.specs.Owners.{owner_in, row_at};
ghost use Rattle.lf_base.specs.Ownership.{owning_edges};
ghost use Rattle.lf_base.specs.PlainChanges.{slot_at, with_slot, with_slot_at, with_slots};
ghost use Rattle.lf_base.specs.PlainState.{Row, State};
ghost use Rattle.lf_base.specs.Settling.{Watched, WatchedBy};
ghost use Rattle.lf_base.specs.Sets.{Member};
ghost use Rattle.lf_base.specs.Suspects.{Bare, Object, Suspect};
ghost use Rattle.lf_base.specs.TakeResult.{field_at, take_result};
ghost use Rattle.lf_base.specs.WalkCounts.{borrowed, refs};
ghost use Rattle.lf_base.specs.WellFormed.{SlotMayHold, WellFormed};
ghost use Rattle.lf_base.specs.WriteResult.{write_refusal, write_result};

/// A take loses the edge of the field's value, or of the content, a slot that is unset
/// its own, the last slots that go theirs, and a close those that it is for.
pub fn takes_and_slots_lose_edges()
    ensures taken { (s : State) (x : ObjId) (k : Key) (row : Row) → WellFormed s → row_at s.rows x ≡ Some row →
        LosesEdges s (take_result s x k) (edges_by (Field x) (slot_targets (field_at row.fields k))) }
    ensures unset { (s : State) (n : ℕ) → n < length s.slots →
        LosesEdges s (with_slot_at s n None) (edges_by Slot (slot_targets (slot_at s.slots n))) }
    ensures fewer { (s : State) (n : ℕ) → LosesEdges s (with_slots s (take n s.slots)) (slot_edges (drop n s.slots)) }
    ensures content { (s : State) (c : CownId) (old : Value) → content_at s.held c ≡ Some old →
        LosesEdges s (content_result s c value.None) (edges_by (Content c) (targets_of_value old)) }
    ensures closed { (s : State) (at : ℕ) (r : ObjId) → WellFormed s → LosesEdges s (close_result s at r) (closed_edges s at r) }
{}

/// Where one edge is lost, its target is a suspect if it lost its last edge, or its
/// region the last owner or borrow. Else nothing is one, nor where it is no mutable row,
/// nor where no edge is lost.
pub fn one_loss_is_noticed()
    ensures last { (s t : State) (e : Edge) (old : List Suspect) (w : Owner) → WellFormed s → LosesEdges s t (e ∷ []) →
        owner_in s.rows e.to ≡ Some w → LostLast s t e.to → Loses s t old (Object e.to ∷ old) }
    ensures still { (s t : State) (e : Edge) (old : List Suspect) → WellFormed s → LosesEdges s t (e ∷ []) →
        StillJustified s t e.to → Loses s t old old }
    ensures elsewhere { (s t : State) (e : Edge) (old : List Suspect) → WellFormed s → LosesEdges s t (e ∷ []) →
        owner_in s.rows e.to ≡ None → Loses s t old old }
    ensures none { (s t : State) (old : List Suspect) → LosesEdges s t [] → Loses s t old old }
{}

/// Where many edges are lost, it is enough that each target is a suspect that lost its
/// last edge, or whose region lost its last owner or borrow.
pub fn known_losses_are_noticed()
    ensures known { (s t : State) (lost : List Edge) (old new : List Suspect) → LosesEdges s t lost →
        ((u : Suspect) → Member u old → Member u new) →
        ((e : Edge) → Member e lost → LostLast s t e.to → Member (Object e.to) new) → LossesKnown s t old new }
    ensures noticed { (s t : State) (old new : List Suspect) → WellFormed s → WellFormed t → Noticed s old → LossesKnown s t old new →
        Noticed t new }
{}

/// Losses follow each other. Where all rows of a state stay, and edges are lost from
/// it, whatever nothing justifies afterwards is watched by a suspect.
pub fn losses_are_watched()
    ensures none { (s : State) (w : List Suspect) → Loses s s w w }
    ensures follow { (s t u : State) (first middle last : List Suspect) → Loses s t first middle → Loses t u middle last →
        Loses s u first last }
    ensures watched { (s t : State) (old new : List Suspect) → WellFormed s → WellFormed t → kept_rows s ≡ s.rows → Loses s t old new →
        Watched t new }
{}

/// Whatever nothing justifies is noticed all through an instruction: nothing is to be
/// noticed where all rows stay, losses and writes keep it so, and what is noticed is
/// watched. A write asks for the old value's object, where no edge leads to it any more
/// or its region is left bare, and for the target's region, where that is left bare:
/// which can't be while a slot names the target, and which the target as a suspect watches.
pub fn losses_and_writes_are_noticed()
    ensures none { (s : State) (w : List Suspect) → WellFormed s → kept_rows s ≡ s.rows → Noticed s w }
    ensures watched { (s : State) (w : List Suspect) → Noticed s w → Watched s w }
    ensures lost { (s t : State) (old new : List Suspect) → WellFormed s → WellFormed t → Noticed s old → Loses s t old new →
        Noticed t new }
    ensures written { (s : State) (x : ObjId) (k : Key) (v : Value) (w : List Suspect) (u : Owner) → WellFormed s → SlotMayHold s v →
        owner_in s.rows x ≡ Some u → write_refusal s x k v ≡ None → Noticed s w → NoticesOld s x k v w → WatchesHome s x k v w →
        Noticed (write_result s x k v) w }
    ensures named { (s : State) (x : ObjId) (k : Key) (v : Value) (w : List Suspect) → WellFormed s → SlotMayHold s v →
        InSlot s x → WatchesHome s x k v w }
    ensures suspected { (s : State) (x : ObjId) (k : Key) (v : Value) (w : List Suspect) → WellFormed s → SlotMayHold s v →
        Member (Object x) w → WatchesHome s x k v w }
{}

/// After a merge the bridge that is one no more is suspect enough.
pub fn merge_is_noticed()
    ensures { (s : State) (a b : ObjId) (w : List Suspect) → owner_in s.rows b ≡ Some (In b) → Noticed s w →
        Noticed (merge_result s a b) (Object b ∷ w) }
{}

/// After a freeze only the regions that it leaves bare must be watched.
pub fn freeze_is_noticed()
    ensures { (s : State) (v : Value) (old new : List Suspect) → WellFormed s → Noticed s old →
        ((u : Suspect) → Member u old → Member u new) →
        ((r : ObjId) → owner_in (freeze_result s v).rows r ≡ Some (In r) → Bare (freeze_result s v) r →
        WatchedBy (freeze_result s v) new r) → Noticed (freeze_result s v) new }
{}

/// A dissolving leaves nothing without justification that had one, where a slot or a
/// row points to the bridge.
pub fn dissolve_is_noticed()
    ensures { (s : State) (r : ObjId) (w : List Suspect) → WellFormed s → WellFormed (dissolve_result s r) →
        owner_in s.rows r ≡ Some (In r) → points s.rows s r ≡ true → Noticed s w → Noticed (dissolve_result s r) w }
{}

/// After a write of a content the bridge that the old one names is suspect enough, where
/// its region is left bare; after the making of a cown nothing is.
pub fn contents_are_noticed()
    ensures written { (s : State) (c : CownId) (v u : Value) (old new : List Suspect) → content_at s.held c ≡ Some u → Noticed s old →
        ((x : Suspect) → Member x old → Member x new) →
        ((o : ObjId) → Member o (targets_of_value u) → Bare (content_result s c v) o → Member (Object o) new) →
        Noticed (content_result s c v) new }
    ensures made { (s : State) (v : Value) (w : List Suspect) → Noticed s w → Noticed (made_result s v) w }
{}

/// Further edges from slots leave nothing without justification that had one.
pub fn more_slots_are_noticed()
    ensures more { (s : State) (slots : List (Option Value)) (w : List Suspect) →
        ((e : Edge) → Member e (slot_edges s.slots) → Member e (slot_edges slots)) → Noticed s w → Noticed (with_slots s slots) w }
    ensures pushed { (s : State) (v : Option Value) (w : List Suspect) → Noticed s w → Noticed (with_slot s v) w }
{}

/// What a write must notice of the old value, by the counts after it: its object where
/// no edge leads to it any more, and where its region has neither owner nor borrow.
pub fn counts_notice_old_value()
    ensures { (s : State) (x : ObjId) (k : Key) (v : Value) (w : List Suspect) → WellFormed (write_result s x k v) →
        ((o : ObjId) → Member o (field_names s x k) → refs (write_result s x k v) o ≡ 0 → Member (Object o) w) →
        ((o r : ObjId) → Member o (field_names s x k) → owner_in (write_result s x k v).rows o ≡ Some (In r) →
        borrowed (write_result s x k v) r ≡ 0 → owning_edges (write_result s x k v) r ≡ 0 → Member (Object o) w) →
        NoticesOld s x k v w }
{}
