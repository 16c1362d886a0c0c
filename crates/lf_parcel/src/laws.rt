//! What carries the two calls. Each function has an empty body; its clauses are the law.

ghost use Rattle.std.specs.Prelude.{◌≡◌, ◌++◌, List, true, ℕ};
ghost use Rattle.lf_base.specs.declared.ids.CownId.{CownId};
ghost use Rattle.lf_base.specs.declared.ids.ObjId.{ObjId};
ghost use Rattle.lf_base.specs.declared.values.Value.{Value};
ghost use Rattle.lf_base.specs.Contents.{stored};
ghost use Rattle.lf_base.specs.EdgeLists.{near_edges};
ghost use Rattle.lf_base.specs.Kept.{kept};
ghost use Rattle.lf_base.specs.Owners.{is_bridge};
ghost use Rattle.lf_base.specs.PlainState.{Row, State};
ghost use Rattle.lf_base.specs.Sets.{Member};
ghost use Rattle.lf_base.specs.WholeContents.{Ended, MayBegin};
ghost use Rattle.lf_graph.specs.StoreCounts.{IsStoreOf};
ghost use Rattle.lf_graph.specs.StoredRows.{CountedRow};
ghost use Rattle.lf_parcel.specs.declared.heads.RegionHead.{RegionHead};
ghost use Rattle.lf_parcel.specs.Heads.{bridges_in, region_heads};
ghost use Rattle.lf_parcel.specs.Packed.{EachPacked, IsPacked, Packed, all_stored, packed_contents, rooted, rowless};
ghost use Rattle.lf_parcel.specs.Parcels.{ArePartsOfRegions, IsParcel, StoredRegion, regions_of_parts, rows_of_parts};
ghost use Rattle.lf_parcel.specs.TreeRows.{ListsTree, packed_by, rows_in_regions};

/// What the type of a parcel keeps is what its content needs behind a cown, whichever
/// one it is, and a content with a root can be made a parcel. A content without rows
/// needs nothing.
pub fn parcels_are_packed()
    ensures plain { (c : CownId) (v : Value) → IsPacked (rowless c v) }
    ensures packed { (told : List RegionHead) (parts : List StoredRegion) (root : ObjId) (of : List Row) (c : CownId)
        → IsParcel told parts root of → IsPacked (rooted c root of (rows_of_parts parts)) }
    ensures parcel { (parts : List StoredRegion) (root : ObjId) (of : List Row) (c : CownId)
        → IsPacked (rooted c root of (rows_of_parts parts)) → is_bridge of root ≡ true → regions_of_parts parts ≡ bridges_in of
        → ArePartsOfRegions parts → IsParcel (region_heads of) parts root of }
{}

/// The stored rows of contents, taken together, are those of the state with which a
/// behaviour begins: the same rows, and the same counts.
pub fn parts_make_the_beginning()
    ensures { (birth : ℕ) (frozen : List Row) (ps : List Packed) → EachPacked ps → MayBegin birth (packed_contents ps) frozen
        → IsStoreOf (all_stored ps) (stored birth (packed_contents ps) frozen).rows
        (near_edges (stored birth (packed_contents ps) frozen)) }
{}

/// The rows of a tree's regions, taken out of an ended state's store, are the rows that
/// its content owns, with the counts of these alone.
pub fn parts_go_out_whole()
    ensures { (e : State) → Ended e → kept e ≡ e → (c : CownId × Value) → Member c (e.held ++ e.made) → (rows : List CountedRow)
        → IsStoreOf rows e.rows (near_edges e) → (qs : List ObjId) → ListsTree e c.1 qs
        → IsPacked (packed_by e c (rows_in_regions qs rows)) }
{}
