use lf_base::ObjId;

/// One region, as a table keeps it and contracts see it: its name, a number of
/// borrows, and whether it has an owner.
#[derive(Clone, Copy, Debug, PartialEq, Eq)]
pub struct Region {
    pub name: ObjId,
    pub borrowed: u64,
    pub owned: bool,
}
