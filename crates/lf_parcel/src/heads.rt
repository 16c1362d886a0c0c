use lf_base::ObjId;

/// A region of a parcel: its name, the region that owns it, where there is one (none for
/// the root), its counts, and the number of its rows.
#[derive(Clone, Copy, Debug, PartialEq, Eq)]
pub struct RegionHead {
    pub name: ObjId,
    pub owner: Option<ObjId>,
    pub borrowed: u64,
    pub open_children: u64,
    pub rows: u32,
}
