//! What was proved of the contents of cowns by themselves. Each function has an empty
//! body; its clauses are the law.

ghost use Rattle.std.specs.Prelude.{◌≡◌, ◌++◌, List, Some, false, true, ℕ};
ghost use Rattle.lf_base.specs.declared.ids.CownId.{CownId};
ghost use Rattle.lf_base.specs.declared.ids.ObjId.{ObjId};
ghost use Rattle.lf_base.specs.declared.values.Value.{Value};
ghost use Rattle.lf_base.specs.ContentTrees.{owned_rows, refs_in, regions_from};
ghost use Rattle.lf_base.specs.Contents.{Parked, cowns_of, part, parted, stored, values_of};
ghost use Rattle.lf_base.specs.EndResult.{end_result};
ghost use Rattle.lf_base.specs.Kept.{kept};
ghost use Rattle.lf_base.specs.Names.{same_cown};
ghost use Rattle.lf_base.specs.Owners.{bridge_of, has_name, has_row, is_bridge};
ghost use Rattle.lf_base.specs.Ownership.{is_owned};
ghost use Rattle.lf_base.specs.PlainState.{Row, State};
ghost use Rattle.lf_base.specs.Sets.{Differ, Member};
ghost use Rattle.lf_base.specs.WalkCounts.{borrowed, open_children, refs};
ghost use Rattle.lf_base.specs.WellFormed.{MayBeGiven, WellFormed};
ghost use Rattle.lf_base.specs.WholeContents.{AreAmong, Ended, IsUnborn, MayBegin, StandsAlone, Whole, all_frozen};

/// At a behaviour's end each row is in the part of a content, and no row is in the
/// parts of two.
pub fn contents_part_the_rows()
    ensures covered { (e : State) → Ended e → kept e ≡ e → (x : Row) → Member x e.rows →
        (c : CownId × Value) × (Member c (e.held ++ e.made) × Member x (part e c)) }
    ensures apart { (e : State) → Ended e → (c d : CownId × Value) → Member c (e.held ++ e.made) → Member d (e.held ++ e.made) →
        (c.0 ≡ d.0 → ⊥) → (o : ObjId) → has_row (part e c) o ≡ true → has_row (part e d) o ≡ true → ⊥ }
{}

/// The part of a content is then what its region tree has: the rows of the region that
/// it names and of the regions below that one.
pub fn parts_are_trees()
    ensures { (e : State) → Ended e → kept e ≡ e → (c : CownId × Value) → Member c (e.held ++ e.made) →
        part e c ≡ owned_rows e c.1 }
{}

/// Each region is then in the tree of one content alone.
pub fn trees_part_the_regions()
    ensures apart { (e : State) → Ended e → kept e ≡ e → (c d : CownId × Value) → Member c (e.held ++ e.made) →
        Member d (e.held ++ e.made) → (c.0 ≡ d.0 → ⊥) → (q : ObjId) →
        has_name (regions_from e (bridge_of e c.1)) q ≡ true → has_name (regions_from e (bridge_of e d.1)) q ≡ true → ⊥ }
    ensures covered { (e : State) → Ended e → kept e ≡ e → (q : ObjId) → is_bridge e.rows q ≡ true →
        (c : CownId × Value) × (Member c (e.held ++ e.made) × (has_name (regions_from e (bridge_of e c.1)) q ≡ true)) }
{}

/// The count of a row is then that of its tree by itself, with one further edge to the
/// root.
pub fn trees_keep_their_counts()
    ensures { (e : State) → Ended e → kept e ≡ e → (c : CownId × Value) → Member c (e.held ++ e.made) →
        (root : ObjId) → bridge_of e c.1 ≡ Some root → (o : ObjId) → has_row (part e c) o ≡ true →
        refs e o ≡ refs_in (part e c) root o }
{}

/// Nothing is then borrowed, no region is open, and each region has an owner.
pub fn end_is_closed()
    ensures owned { (e : State) → Ended e → kept e ≡ e → (r : ObjId) → is_bridge e.rows r ≡ true → is_owned e r ≡ true }
    ensures borrowed { (e : State) → Ended e → (r : ObjId) → borrowed e r ≡ 0 }
    ensures open_children { (e : State) → Ended e → (r : ObjId) → open_children e r ≡ 0 }
{}

/// A content stands by itself after a behaviour's end, with all frozen rows of that one,
/// for each behaviour of whose birth nothing is there; with more frozen rows it stands
/// too, where none of them has a name of the content.
pub fn contents_stand()
    ensures ended { (e : State) (birth : ℕ) (c : CownId × Value) → Ended e → IsUnborn birth e → Member c (e.held ++ e.made) →
        Whole birth c.0 (record { value = c.1; rows = part e c }) (all_frozen e) }
    ensures more { (birth : ℕ) (c : CownId) (v : Parked) (few many : List Row) → Whole birth c v few → MayBeGiven birth many →
        ((o : ObjId) → has_row few o ≡ true → has_row many o ≡ true) →
        ((o : ObjId) → has_row many o ≡ true → has_row v.rows o ≡ false) → Whole birth c v many }
{}

/// Contents that stand each by itself stand together, where their cowns differ and no
/// two of them have a name in common: a behaviour may begin with them.
pub fn contents_stand_together()
    ensures { (birth : ℕ) (frozen : List Row) (cs : List (CownId × Parked)) → MayBeGiven birth frozen →
        ((c : CownId × Parked) → Member c cs → Whole birth c.0 c.1 frozen) →
        ((c d : CownId × Parked) (o : ObjId) → Member c cs → Member d cs → has_row c.1.rows o ≡ true
        → has_row d.1.rows o ≡ true → c.0 ≡ d.0) →
        Differ same_cown (cowns_of cs) → MayBegin birth cs frozen }
{}

/// The end of a behaviour leaves neither slots nor local rows, and the end of that is
/// itself.
pub fn ends_once()
    ensures ended { (s : State) → WellFormed s → Ended (end_result s) }
    ensures again { (s : State) → WellFormed s → end_result (end_result s) ≡ end_result s }
{}

/// Where contents that stand alone make a well-formed state, they are the parts of it;
/// and where all its rows stay, it is its own end.
pub fn stored_contents_are_parts()
    ensures parts { (birth : ℕ) (cs : List (CownId × Parked)) (frozen : List Row) → WellFormed (stored birth cs frozen) →
        ((c : CownId × Parked) → Member c cs → StandsAlone c.0 c.1) → parted (stored birth cs frozen) (values_of cs) ≡ cs }
    ensures end { (birth : ℕ) (cs : List (CownId × Parked)) (frozen : List Row) → MayBegin birth cs frozen →
        ((c : CownId × Parked) → Member c cs → StandsAlone c.0 c.1) → end_result (stored birth cs frozen) ≡ stored birth cs frozen }
{}

/// Contents that leave a behaviour may enter a new one, with all frozen rows.
pub fn contents_come_back()
    ensures begin { (e : State) (birth : ℕ) (cs : List (CownId × Value)) → Ended e → kept e ≡ e → IsUnborn birth e →
        AreAmong cs (e.held ++ e.made) → Differ same_cown (cowns_of cs) → MayBegin birth (parted e cs) (all_frozen e) }
    ensures alone { (e : State) (birth : ℕ) (cs : List (CownId × Value)) → Ended e → kept e ≡ e → IsUnborn birth e →
        AreAmong cs (e.held ++ e.made) → Differ same_cown (cowns_of cs) →
        (c : CownId × Parked) → Member c (parted e cs) → StandsAlone c.0 c.1 }
{}
